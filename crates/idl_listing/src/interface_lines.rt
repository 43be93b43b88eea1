// The listing of an interface.
ghost use Rattle.std.specs.Prelude.{◌≡◌, IfOk};
ghost use Rattle.nd_types.specs.Meant.{meant_by};
ghost use Rattle.idl_listing.specs.Listing.{listing};

use crate::header_line::header_line;
use crate::operation_lines::all_operations;
use crate::type_lines::own_types;
use nd_base::{Memory, Octets};
use nd_types::Interface;
use std::alloc::Global;

/// How an interface is listed for people: a line for its header, then the lines of each type of its table that is no basic one, then the
/// lines of each operation. C706 has no such text: how the lines look is this project's own choice.
///
/// # Errors
/// Memory where memory was wanting.
///
/// Takes memory for the text. Looks at each type, member, arm, operation, parameter and attribute a bounded number of times.
pub fn interface_listing(alloc: Global, interface: &Interface) -> Result<Octets, Memory>
    ensures { IfOk result (λ text. text ≡ listing (meant_by interface.now)) }
{
    let mut text = Octets::new(alloc);
    header_line(&mut text, interface)?;
    own_types(&mut text, interface)?;
    all_operations(&mut text, interface)?;
    Ok(text)
}
