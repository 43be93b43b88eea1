// Words of a line, each after a space, and the words of classes and sides.
ghost use Rattle.std.specs.Prelude.{◌≡◌, ◌++◌, ◌∷◌, [], OnOk, codes, decimal};
ghost use Rattle.std.specs.Fmt.{signed_decimal};
ghost use Rattle.idl_listing.specs.Listing.{word_if, behind, class_word, side_word};

use itoa::Buffer;
use nd_base::{Memory, Octets};
use nd_types::{Class, Side};

/// Adds a word to a text, after a space. Memory is the only refusal.
pub fn word(text: &mut Octets, word: &[u8]) -> Result<(), Memory>
    ensures { OnOk result (text.new ≡ text.old ++ behind (word.now ∷ [])) }
{
    text.append(b" ")?;
    text.append(word)?;
    Ok(())
}

/// Adds a word, if the test holds. Memory is the only refusal.
pub fn word_if(text: &mut Octets, test: bool, name: &[u8]) -> Result<(), Memory>
    ensures { OnOk result (text.new ≡ text.old ++ behind (word_if test name.now)) }
{
    if test { word(text, name) } else { Ok(()) }
}

/// Adds a number in decimal. Memory is the only refusal.
pub fn number(text: &mut Octets, value: u32) -> Result<(), Memory>
    ensures { OnOk result (text.new ≡ text.old ++ behind (decimal value ∷ [])) }
{
    let mut buffer = Buffer::new();
    word(text, buffer.format(value).as_bytes())
}

/// Adds a whole number in decimal, with its sign if it is negative. Memory is the only refusal.
pub fn signed(text: &mut Octets, value: i128) -> Result<(), Memory>
    ensures { OnOk result (text.new ≡ text.old ++ behind (signed_decimal value ∷ [])) }
{
    let mut buffer = Buffer::new();
    word(text, buffer.format(value).as_bytes())
}

/// The word of a class of pointers.
pub fn class_word(class: Class) -> &'static [u8]
    ensures { result.now ≡ class_word class }
{
    match class {
        Class::Ref => b"ref",
        Class::Unique => b"unique",
        Class::Full => b"ptr",
    }
}

/// The word of a side.
pub fn side_word(side: Side) -> &'static [u8]
    ensures { result.now ≡ side_word side }
{
    match side {
        Side::In => b"in",
        Side::Out => b"out",
    }
}
