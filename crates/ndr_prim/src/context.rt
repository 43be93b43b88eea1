// Context handles in octets (C706 section 14.3, context handles).
ghost use Rattle.std.specs.Prelude.{◌≡◌, length};
ghost use Rattle.nd_types.specs.Number.{unsigned, spelling};
ghost use Rattle.ndr_prim.specs.Context.{attributes_of, identifier_of, identifier, identifier_octets, context_octets};

use byteorder::{BigEndian, ByteOrder, LittleEndian};
use nd_base::Order;
use uuid::Uuid;

/// The attributes and the identifier of the context handle in these octets: the attributes are an unsigned long, and the identifier is a
/// UUID, whose first three fields are in the given order. Takes no memory.
pub fn read_context(order: Order, from: &[u8; 20]) -> (u32, Uuid)
    ensures attributes { result.0 ≡ attributes_of order from.now }
    ensures identifier { result.1 ≡ identifier_of order from.now }
{
    (read_long(order, &from[..4]), read_id(order, &from[4..]))
}

/// Writes a context handle: its attributes as an unsigned long, then its identifier as a UUID, whose first three fields are in the given
/// order. Takes no memory.
pub fn write_context(order: Order, attributes: u32, id: Uuid, to: &mut [u8; 20])
    ensures { to.new ≡ context_octets order attributes id }
{
    write_long(order, attributes, &mut to[..4]);
    to[4..].copy_from_slice(&id_octets(order, id));
}

// The unsigned long in four octets.
fn read_long(order: Order, from: &[u8]) -> u32
    requires { length from.now ≡ 4 }
    ensures { result ≡ unsigned order from.now }
{
    match order {
        Order::Big => BigEndian::read_u32(from),
        Order::Little => LittleEndian::read_u32(from),
    }
}

// Writes an unsigned long in four octets.
fn write_long(order: Order, number: u32, to: &mut [u8])
    requires { length to.old ≡ 4 }
    ensures { to.new ≡ spelling order 4 number }
{
    match order {
        Order::Big => BigEndian::write_u32(to, number),
        Order::Little => LittleEndian::write_u32(to, number),
    }
}

// The UUID in 16 octets.
fn read_id(order: Order, from: &[u8]) -> Uuid
    requires { length from.now ≡ 16 }
    ensures { result ≡ identifier order from.now }
{
    let mut octets = [0; 16];
    octets.copy_from_slice(from);
    match order {
        Order::Big => Uuid::from_bytes(octets),
        Order::Little => Uuid::from_bytes_le(octets),
    }
}

// The 16 octets of a UUID.
fn id_octets(order: Order, id: Uuid) -> [u8; 16]
    ensures { result ≡ identifier_octets order id }
{
    match order {
        Order::Big => id.into_bytes(),
        Order::Little => id.to_bytes_le(),
    }
}
