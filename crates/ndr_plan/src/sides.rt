// A side of an operation.
ghost use Rattle.std.specs.Prelude.{◌≡◌, Some, slice_get};
ghost use Rattle.ndr_plan.specs.Addresses.{AreAddresses};

use crate::addresses::Addresses;
use nd_types::{Interface, Operation, Side};

// A side of an operation, by its number, with the addresses of the runs of types.
#[derive(Drop)]
pub(crate) struct SideOf<'a> {
    pub(crate) interface: &'a Interface,
    pub(crate) addresses: &'a Addresses,
    pub(crate) op: u32,
    pub(crate) operation: &'a Operation,
    pub(crate) side: Side,
    pub(crate) ghost known: { slice_get interface.now.operations op ≡ Some operation.now },
    pub(crate) ghost addressed: { AreAddresses interface.now.types addresses.now },
}
