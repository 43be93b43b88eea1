// Who an interface is.
ghost use Rattle.std.specs.Prelude.{◌≡◌, ◌≤◌, ◌<◌, length, take, drop};
ghost use Rattle.nd_types.specs.Meant.{meant_by};
ghost use Rattle.idl_listing.specs.Listing.{listing};
ghost use Rattle.library_answers.specs.Identity.{IsIdentity, has_uuid, uuid_number};

use crate::answers::{ARGUMENT, EMPTY, MEMORY, OK, SHORT, lay_out};
use idl_listing::interface_listing;
use library_calls::Wide;
use library_interface::Compiled;
use library_types::type_count;
use std::alloc::Global;

/// Who an interface is, as programs in C see it.
#[repr(C)]
#[derive(Clone, Copy, Debug, PartialEq, Eq)]
pub struct Identity {
    /// 1 where the interface has a UUID.
    pub has_uuid: u32,
    /// The major number of its version.
    pub major: u32,
    /// The minor number.
    pub minor: u32,
    /// How many types it has.
    pub types: u32,
    /// The UUID, whose most significant octet is written first; 0 for none.
    pub uuid: Wide,
}

/// Who an interface is. Takes no memory.
pub fn identity_of(compiled: &Compiled) -> Identity
    ensures { IsIdentity compiled.now result }
{
    let interface = compiled.interface();
    Identity {
        has_uuid: has_uuid(interface.uuid),
        major: u32::from(interface.major),
        minor: u32::from(interface.minor),
        types: type_count(interface),
        uuid: Wide::of_unsigned(number_of_uuid(interface.uuid)),
    }
}

// 1 for a UUID, 0 for none.
fn has_uuid(uuid: Option<u128>) -> u32
    ensures { result ≡ has_uuid uuid }
{
    match uuid {
        Some(_) => 1,
        None => 0,
    }
}

// The number of a UUID; 0 for none.
fn number_of_uuid(uuid: Option<u128>) -> u128
    ensures { result ≡ uuid_number uuid }
{
    match uuid {
        Some(number) => number,
        None => 0,
    }
}

/// Writes the name of an interface. Takes no memory.
pub fn write_interface_name(compiled: &Compiled, out: &mut [u8], len: &mut usize) -> u32
    ensures known { result ≤ SHORT }
    ensures not_empty { result ≡ EMPTY → ⊥ }
    ensures not_argument { result ≡ ARGUMENT → ⊥ }
    ensures not_memory { result ≡ MEMORY → ⊥ }
    ensures written { result ≡ OK → take len.new out.new ≡ compiled.now.name }
    ensures rest { result ≡ OK → drop len.new out.new ≡ drop len.new out.old }
    ensures room { result ≡ OK → len.new ≤ length out.old }
    ensures short { result ≡ SHORT → (len.new ≡ length compiled.now.name) × (length out.old < len.new) }
    ensures kept { (result ≡ OK → ⊥) → out.new ≡ out.old }
    ensures len_kept { (result ≡ OK → ⊥) → (result ≡ SHORT → ⊥) → len.new ≡ len.old }
{
    lay_out(compiled.interface().name.as_slice(), out, len)
}

/// Writes the listing of an interface, as `compile` prints it. Takes memory for the listing.
pub fn write_listing(alloc: Global, compiled: &Compiled, out: &mut [u8], len: &mut usize) -> u32
    ensures known { result ≤ SHORT }
    ensures not_empty { result ≡ EMPTY → ⊥ }
    ensures not_argument { result ≡ ARGUMENT → ⊥ }
    ensures written { result ≡ OK → take len.new out.new ≡ listing (meant_by compiled.now) }
    ensures rest { result ≡ OK → drop len.new out.new ≡ drop len.new out.old }
    ensures room { result ≡ OK → len.new ≤ length out.old }
    ensures short { result ≡ SHORT → (len.new ≡ length (listing (meant_by compiled.now))) × (length out.old < len.new) }
    ensures kept { (result ≡ OK → ⊥) → out.new ≡ out.old }
    ensures len_kept { (result ≡ OK → ⊥) → (result ≡ SHORT → ⊥) → len.new ≡ len.old }
{
    match interface_listing(alloc, compiled.interface()) {
        Ok(text) => lay_out(text.as_slice(), out, len),
        Err(_) => MEMORY,
    }
}
