// How interfaces are listed.
use crate::files::scope_of;
use idl_check::{check, interface_of};
use idl_listing::interface_listing;
use nd_base::Memory;
use nd_types::Interface;
use std::alloc::Global;
use std::test::Fail;

/// An interface with a struct that hoists.
const SUM: &[u8] = b"[uuid(11111111-2222-3333-4444-555555555555), version(1.0)] interface t {
typedef struct { short n; [size_is(n)] hyper a[*]; } s; void sum([in] s *p);
}";

/// Its listing.
const SUM_LISTING: &[u8] = b"interface t version 1.0 uuid 11111111-2222-3333-4444-555555555555
type 12 struct align 8 hoists
member n 5
member a 13 size_is n
type 13 conf 9 align 8 hoists
type 14 ref 12 align 4
op 0 sum
in p 14
";

/// An interface with types of most forms.
const DIRECTORY: &[u8] = b"[local, version(2.1), pointer_default(unique)] interface dir {
typedef enum { FILE_KIND, FOLDER_KIND = 4 } kind_t;
typedef [switch_type(kind_t)] union { [case(FILE_KIND)] unsigned long size; [case(FOLDER_KIND)] ; } detail_t;
typedef struct entry {
kind_t kind; [switch_is(kind)] detail_t detail; [string] char name[16]; [ptr] struct entry *parent; struct entry *next;
} entry;
unsigned long list([in, string] char *path, [out] entry *first);
void put([in] handle_t h, [in, unique] entry *e, [in] unsigned long n, [in, size_is(n)] byte data[*]);
}";

/// Its listing, which leaves out the handle.
const DIRECTORY_LISTING: &[u8] = b"interface dir version 2.1 uuid -
type 12 enum 0 4 align 2
type 13 union 12 align 4
arm 0 size 8
arm 4 - void
type 14 struct align 4
member kind 12
member detail 13 switch_is kind
member name 15
member parent 16
member next 17
type 15 text 1 16 align 4
type 16 ptr 14 align 4
type 17 unique 14 align 4
type 18 conftext 1 align 4 hoists
type 19 ref 18 align 4
type 20 ref 14 align 4
type 21 conf 2 align 1 hoists
op 0 list
in path 19
out first 20
out return 8
op 1 put
in e 17
in n 8
in data 21 size_is n
";

/// What a file means. It is out of memory too if the file is refused.
fn checked(alloc: Global, text: &[u8]) -> Result<Interface, Memory> {
    let scope = scope_of(alloc, text)?;
    match check(alloc, &scope, None) {
        Ok(interface) => Ok(interface),
        Err(_) => Err(Memory),
    }
}

/// What a file means that breaks no rule.
fn meant(alloc: Global, text: &[u8]) -> Result<Interface, Memory> {
    let scope = scope_of(alloc, text)?;
    match interface_of(alloc, &scope) {
        Ok(interface) => Ok(interface),
        Err(_) => Err(Memory),
    }
}

/// Whether the first parameter of an operation is the binding handle `h`, which has no type of the table.
fn has_handle(interface: &Interface, op: usize) -> bool {
    let Some(operation) = interface.operations.get(op) else {
        return false;
    };
    let Some(parameter) = operation.params.get(0) else {
        return false;
    };
    operation.params.len() == 4
        && parameter.field.name.as_slice() == b"h".as_slice()
        && parameter.field.of.0 == u32::MAX
}

#[test]
fn a_struct_that_hoists_is_listed(rt: HostRuntime) -> Result<(), Fail> {
    let interface = checked(rt.alloc(), SUM)?;
    assert!(rt; interface_listing(rt.alloc(), &interface)?.as_slice() == SUM_LISTING);
    let copy = interface.copy(rt.alloc())?;
    assert!(rt; interface_listing(rt.alloc(), &copy)?.as_slice() == SUM_LISTING);
    Ok(())
}

#[test]
fn a_directory_is_listed(rt: HostRuntime) -> Result<(), Fail> {
    let interface = meant(rt.alloc(), DIRECTORY)?;
    assert!(rt; interface.uuid.is_none() && has_handle(&interface, 1));
    assert!(rt; interface_listing(rt.alloc(), &interface)?.as_slice() == DIRECTORY_LISTING);
    Ok(())
}
