// An attribute of a member or parameter.
ghost use Rattle.std.specs.Prelude.{◌≡◌, ◌++◌, ◌∷◌, [], OnOk};
ghost use Rattle.idl_listing.specs.Listing.{attr_word, star, behind};

use crate::word;
use nd_base::{Memory, Octets};
use nd_types::{Attr, AttrVar};

/// The word of an attribute.
fn attr_word(attr: Attr) -> &'static [u8]
    ensures { result.now ≡ attr_word attr }
{
    match attr {
        Attr::Size => b"size_is",
        Attr::Max => b"max_is",
        Attr::First => b"first_is",
        Attr::Length => b"length_is",
        Attr::Last => b"last_is",
        Attr::Switch => b"switch_is",
    }
}

/// What is before the variable: `*` or nothing.
fn star(stands: bool) -> &'static [u8]
    ensures { result.now ≡ star stands }
{
    if stands { b"*" } else { b"" }
}

/// An attribute with the name of its variable.
pub(crate) fn attribute(text: &mut Octets, var: AttrVar, name: &[u8]) -> Result<(), Memory>
    ensures { OnOk result (text.new ≡ text.old ++ behind (attr_word var.attr ∷ (star var.star ++ name.now) ∷ [])) }
{
    word(text, attr_word(var.attr))?;
    word(text, star(var.star))?;
    text.append(name)?;
    Ok(())
}
