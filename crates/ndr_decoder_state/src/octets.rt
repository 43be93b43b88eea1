// Values and counts in octets.
ghost use Rattle.std.specs.Prelude.{◌≡◌, ◌<◌, ◌%◌, length};
ghost use Rattle.nd_types.specs.Number.{as_signed, unsigned, value_of_octets};
ghost use Rattle.nd_types.specs.declared.types.Primitive.TheVariants.{Long};
ghost use Rattle.nd_types.specs.Table.{width};
ghost use Rattle.nd_flat.specs.FlatForm.{IsKeepableNumber};
ghost use Rattle.nd_grammar.specs.Entry.{gap};

use byteorder::{BigEndian, ByteOrder, LittleEndian};
use nd_base::Order;
use nd_types::Prim;
use ndr_prim::read_num;

/// The value that the octets of a primitive hold: a node can keep it. Takes no memory.
#[inline(always)]
pub fn read_value(order: Order, prim: Prim, octets: &[u8]) -> i128
    requires wide { length octets.now ≡ width prim }
    ensures value { result ≡ value_of_octets order prim octets.now }
    ensures keepable { IsKeepableNumber result }
{
    read_number(order, prim, octets)
}

// The same, whether a node can keep it or not.
#[inline(always)]
fn read_number(order: Order, prim: Prim, octets: &[u8]) -> i128
    requires { length octets.now ≡ width prim }
    ensures { result ≡ value_of_octets order prim octets.now }
{
    match prim {
        Prim::Long => read_long(order, octets),
        _ => read_num(order, prim, octets),
    }
}

// The number that the four octets of a long hold: most numbers are longs.
#[inline(always)]
fn read_long(order: Order, octets: &[u8]) -> i128
    requires { length octets.now ≡ 4 }
    ensures { result ≡ value_of_octets order Long octets.now }
{
    signed_long(read_count(order, octets))
}

// The number that is spelt as an unsigned one of four octets, in two's complement.
#[inline(always)]
fn signed_long(number: u32) -> i128
    ensures { result ≡ as_signed 4 number }
{
    let number = i128::from(number);
    if number < 1 << 31 {
        number
    } else {
        number - (1 << 32)
    }
}

/// The unsigned number in four octets. Takes no memory.
#[inline(always)]
pub fn read_count(order: Order, from: &[u8]) -> u32
    requires { length from.now ≡ 4 }
    ensures { result ≡ unsigned order from.now }
{
    match order {
        Order::Big => BigEndian::read_u32(from),
        Order::Little => LittleEndian::read_u32(from),
    }
}

/// How many octets a gap to the next multiple of a number has: none where the number is 0, which is the alignment of no type. Takes no memory.
#[inline(always)]
pub fn gap_before(at: u32, to: u8) -> u32
    ensures is { result ≡ gap at to }
    ensures few { result < 256 }
{
    let to = to as u32;
    if to == 0 {
        return 0;
    }
    (to - at % to) % to
}
