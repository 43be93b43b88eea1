// Numbers in base 10.
ghost use Rattle.std.specs.Prelude.{◌≡◌, ◌+◌, ◌++◌, OnOk, decimal};

use itoa::Buffer;
use nd_base::{Memory, Octets};

/// Adds a count in base 10 to a text. It takes memory for its digits; out of memory is the only error.
pub fn append_count(text: &mut Octets, value: u32) -> Result<(), Memory>
    ensures { OnOk result (text.new ≡ text.old ++ decimal value) }
{
    let mut buffer = Buffer::new();
    text.append(buffer.format(value).as_bytes())
}

/// Adds the index of an element in base 10 to a text: its place in the array, from 0, and the array's offset. It takes memory for its
/// digits; out of memory is the only error.
pub fn append_index(text: &mut Octets, offset: u32, at: usize) -> Result<(), Memory>
    ensures { OnOk result (text.new ≡ text.old ++ decimal (offset + at)) }
{
    let mut buffer = Buffer::new();
    let index = u128::from(offset) + at as u128;
    text.append(buffer.format(index).as_bytes())
}
