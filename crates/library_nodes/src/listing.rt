// Values as a program gives them.
ghost use Rattle.std.specs.Prelude.{◌≡◌};
ghost use Rattle.library_nodes.specs.Built.{has_too_many};

use crate::{Description, LISTING_LIMIT};

/// Values as a program gives them, in a form that crosses to C.
#[repr(C)]
#[derive(Drop)]
pub struct Listing<'a> {
    /// The nodes of the roots and then of the cells, those of each value depth first.
    pub nodes: &'a [Description],
    /// The elements of arrays and pipes that are numbers, in the order of the nodes, each by its low 64 bits in two's complement.
    pub numbers: &'a [u64],
    /// The octets of strings, without their terminators, and of the identifiers of context handles, in the order of the nodes.
    pub octets: &'a [u8],
    /// The type of each cell.
    pub cells: &'a [u32],
}

/// Whether a listing has more nodes, numbers or cells than are read. Takes no memory.
pub fn has_too_many(listing: &Listing<'_>) -> bool
    ensures { result ≡ has_too_many listing.now }
{
    listing.nodes.len() > LISTING_LIMIT
        || listing.numbers.len() > LISTING_LIMIT
        || listing.cells.len() > LISTING_LIMIT
}
