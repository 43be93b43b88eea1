// Types; roots and members by name.
ghost use Rattle.std.specs.Prelude.{◌≡◌, ◌≤◌, Some, None, false, IsSomeAnd};
ghost use Rattle.nd_types.specs.Table.{type_at};
ghost use Rattle.library_types.specs.Described.{type_described};
ghost use Rattle.library_types.specs.Finding.{element_of};
ghost use Rattle.library_answers.specs.Answers.{interface_in, is_side};
ghost use Rattle.library_answers.specs.Types.{IsRoot, HasNoRootNamed, IsMember, members_of, HasNoMemberNamed};

use library_answers::{
    ABSENT, ARGUMENT, EMPTY, MEMORY, OK, REFUSED, SHORT, find_element, find_member, find_root,
    set_type,
};
use library_handles::{Handle, Held};
use library_types::TypeDescription;
use std::alloc::Global;

/// What a type is.
#[unsafe(no_mangle)]
pub extern "C" fn dceidl_type_at(
    alloc: Global,
    interface: &mut Handle,
    of: u32,
    about: &mut TypeDescription,
) -> u32
    ensures known { result ≤ ARGUMENT }
    ensures same { interface.new.value ≡ interface.old.value }
    ensures described { result ≡ OK → IsSomeAnd (interface_in interface.old.value)
        (λ i. IsSomeAnd (type_at i.types of) (λ d. about.new ≡ type_described d)) }
    ensures argument { result ≡ ARGUMENT → IsSomeAnd (interface_in interface.old.value) (λ i. type_at i.types of ≡ None) }
    ensures empty { result ≡ EMPTY → interface_in interface.old.value ≡ None }
    ensures about_kept { (result ≡ OK → ⊥) → about.new ≡ about.old }
{
    let Some(held) = interface.take(alloc) else {
        return EMPTY;
    };
    let status = match &*held {
        Held::Interface(compiled) => set_type(compiled, of, about),
        _ => EMPTY,
    };
    interface.put(alloc, held);
    status
}

/// The number of a root by its name, and its type.
#[unsafe(no_mangle)]
pub extern "C" fn dceidl_root_named(
    alloc: Global,
    interface: &mut Handle,
    operation: u32,
    side: u32,
    name: &[u8],
    root: &mut usize,
    of: &mut u32,
) -> u32
    ensures known { result ≤ ABSENT }
    ensures not_memory { result ≡ MEMORY → ⊥ }
    ensures not_short { result ≡ SHORT → ⊥ }
    ensures not_refused { result ≡ REFUSED → ⊥ }
    ensures same { interface.new.value ≡ interface.old.value }
    ensures found { result ≡ OK → IsSomeAnd (interface_in interface.old.value) (λ i. IsRoot i operation side name.now root.new of.new) }
    ensures absent { result ≡ ABSENT → IsSomeAnd (interface_in interface.old.value) (λ i. HasNoRootNamed i operation side name.now) }
    ensures argument { result ≡ ARGUMENT → IsSomeAnd (interface_in interface.old.value) (λ i. is_side i operation side ≡ false) }
    ensures empty { result ≡ EMPTY → interface_in interface.old.value ≡ None }
    ensures root_kept { (result ≡ OK → ⊥) → root.new ≡ root.old }
    ensures of_kept { (result ≡ OK → ⊥) → of.new ≡ of.old }
{
    let Some(held) = interface.take(alloc) else {
        return EMPTY;
    };
    let status = match &*held {
        Held::Interface(compiled) => find_root(compiled, operation, side, name, root, of),
        _ => EMPTY,
    };
    interface.put(alloc, held);
    status
}

/// The index of a member by its name, and its type.
#[unsafe(no_mangle)]
pub extern "C" fn dceidl_member_named(
    alloc: Global,
    interface: &mut Handle,
    of: u32,
    name: &[u8],
    member: &mut usize,
    member_of: &mut u32,
) -> u32
    ensures known { result ≤ ABSENT }
    ensures not_memory { result ≡ MEMORY → ⊥ }
    ensures not_short { result ≡ SHORT → ⊥ }
    ensures not_refused { result ≡ REFUSED → ⊥ }
    ensures same { interface.new.value ≡ interface.old.value }
    ensures found { result ≡ OK → IsSomeAnd (interface_in interface.old.value) (λ i. IsMember i of name.now member.new member_of.new) }
    ensures absent { result ≡ ABSENT → IsSomeAnd (interface_in interface.old.value) (λ i. HasNoMemberNamed i of name.now) }
    ensures argument { result ≡ ARGUMENT → IsSomeAnd (interface_in interface.old.value) (λ i. members_of (type_at i.types of) ≡ None) }
    ensures empty { result ≡ EMPTY → interface_in interface.old.value ≡ None }
    ensures member_kept { (result ≡ OK → ⊥) → member.new ≡ member.old }
    ensures member_of_kept { (result ≡ OK → ⊥) → member_of.new ≡ member_of.old }
{
    let Some(held) = interface.take(alloc) else {
        return EMPTY;
    };
    let status = match &*held {
        Held::Interface(compiled) => find_member(compiled, of, name, member, member_of),
        _ => EMPTY,
    };
    interface.put(alloc, held);
    status
}

/// The type of elements, or of what a pointer points to.
#[unsafe(no_mangle)]
pub extern "C" fn dceidl_element_type(
    alloc: Global,
    interface: &mut Handle,
    of: u32,
    part: &mut u32,
) -> u32
    ensures known { result ≤ ARGUMENT }
    ensures same { interface.new.value ≡ interface.old.value }
    ensures found { result ≡ OK → IsSomeAnd (interface_in interface.old.value) (λ i. element_of (type_at i.types of) ≡ Some part.new) }
    ensures argument { result ≡ ARGUMENT → IsSomeAnd (interface_in interface.old.value) (λ i. element_of (type_at i.types of) ≡ None) }
    ensures empty { result ≡ EMPTY → interface_in interface.old.value ≡ None }
    ensures part_kept { (result ≡ OK → ⊥) → part.new ≡ part.old }
{
    let Some(held) = interface.take(alloc) else {
        return EMPTY;
    };
    let status = match &*held {
        Held::Interface(compiled) => find_element(compiled, of, part),
        _ => EMPTY,
    };
    interface.put(alloc, held);
    status
}
