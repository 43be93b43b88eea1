// The first line of a listing: the name, the version and the UUID of an interface.
ghost use Rattle.std.specs.Prelude.{◌≡◌, ◌<◌, ◌++◌, ◌∷◌, [], OnOk};
ghost use Rattle.idl_listing.specs.Listing.{hex_digit, hex_digits, uuid_text, uuid_word, version_word, header_line, behind};
ghost use Rattle.nd_types.specs.Meant.{meant_by};

use crate::{number, word};
use itoa::Buffer;
use nd_base::{Memory, Octets};
use nd_types::Interface;

/// A digit of base 16, in lower case.
fn hex_digit(value: u8) -> u8
    requires { value < 16 }
    ensures { result ≡ hex_digit value }
{
    if value <= 9 {
        b'0' + value
    } else {
        b'a' - 10 + value
    }
}

/// The last digits of a number in base 16, so many.
fn hex_digits(text: &mut Octets, count: u32, value: u128) -> Result<(), Memory>
    ensures { OnOk result (text.new ≡ text.old ++ hex_digits count value) }
{
    if count == 0 {
        return Ok(());
    }
    hex_digits(text, count - 1, value / 16)?;
    text.append(&[hex_digit((value % 16) as u8)])?;
    Ok(())
}

/// A UUID: 32 digits in groups of 8, 4, 4, 4 and 12.
fn uuid_digits(text: &mut Octets, uuid: u128) -> Result<(), Memory>
    ensures { OnOk result (text.new ≡ text.old ++ uuid_text uuid) }
{
    hex_digits(text, 8, uuid >> 96)?;
    text.append(b"-")?;
    hex_digits(text, 4, uuid >> 80)?;
    text.append(b"-")?;
    hex_digits(text, 4, uuid >> 64)?;
    text.append(b"-")?;
    hex_digits(text, 4, uuid >> 48)?;
    text.append(b"-")?;
    hex_digits(text, 12, uuid)?;
    Ok(())
}

/// The UUID as a word, or `-` where none is written.
fn uuid_word(text: &mut Octets, uuid: Option<u128>) -> Result<(), Memory>
    ensures { OnOk result (text.new ≡ text.old ++ behind (uuid_word uuid ∷ [])) }
{
    match uuid {
        None => word(text, b"-"),
        Some(uuid) => {
            text.append(b" ")?;
            uuid_digits(text, uuid)?;
            Ok(())
        }
    }
}

/// The two numbers of a version.
fn version_word(text: &mut Octets, major: u16, minor: u16) -> Result<(), Memory>
    ensures { OnOk result (text.new ≡ text.old ++ behind (version_word major minor ∷ [])) }
{
    number(text, u32::from(major))?;
    text.append(b".")?;
    let mut buffer = Buffer::new();
    text.append(buffer.format(minor).as_bytes())?;
    Ok(())
}

/// The line of an interface.
pub(crate) fn header_line(text: &mut Octets, interface: &Interface) -> Result<(), Memory>
    ensures { OnOk result (text.new ≡ text.old ++ header_line (meant_by interface.now)) }
{
    text.append(b"interface")?;
    word(text, interface.name.as_slice())?;
    word(text, b"version")?;
    version_word(text, interface.major, interface.minor)?;
    word(text, b"uuid")?;
    uuid_word(text, interface.uuid)?;
    text.append(b"\n")?;
    Ok(())
}
