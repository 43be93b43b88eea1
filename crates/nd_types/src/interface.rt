// An interface.
ghost use Rattle.std.specs.Prelude.{◌≡◌, true};
ghost use Rattle.nd_base.specs.Text.{is_identifier};
ghost use Rattle.nd_types.specs.Legal.{IsLegal};
ghost use Rattle.nd_types.specs.Rounds.{layouts_of};

use crate::{Layouts, Operations, Types};
use nd_base::Name;

/// An interface: its table of types and its operations. Each interface is legal: its table and operations
/// keep every rule of the language that can be read off them, and its names are identifiers.
#[derive(Drop)]
pub struct Interface {
    /// The name after `interface`.
    pub name: Name,
    /// The UUID, where one is written: the number whose most significant octet is written first.
    pub uuid: Option<u128>,
    /// The major number of the version; 0 where no version is written.
    pub major: u16,
    /// The minor number of the version; 0 where none is written.
    pub minor: u16,
    /// The types by number. The first twelve are the primitives, in the order of `Primitive`, and the context handle.
    pub types: Types,
    /// How the types are laid out, by number: what `Types::layouts` gives.
    pub layouts: Layouts,
    /// The operations in the order of the file. An operation's number is its place here, from 0.
    pub operations: Operations,
    pub ghost named: { is_identifier name ≡ true },
    pub ghost legal: { IsLegal types operations },
    pub ghost laid_out: { layouts ≡ layouts_of types },
}
