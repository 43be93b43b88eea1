// Roots, members, arms and enumerators by their places.
ghost use Rattle.std.specs.Prelude.{◌≡◌, ◌≤◌, ◌<◌, length, take, drop, true, false, Some, None, IsSomeAnd};
ghost use Rattle.nd_types.specs.Roots.{named_roots};
ghost use Rattle.nd_types.specs.Table.{type_at};
ghost use Rattle.library_types.specs.Parts.{member_of, enumerator_of, arm_of, is_default_of, arm_described, IsSelection};
ghost use Rattle.library_types.specs.Rooted.{root_described};
ghost use Rattle.library_types.specs.declared.parts.Selection.TheVariants.{Selected, NoArm, NoUnion};
ghost use Rattle.library_answers.specs.Answers.{interface_in, OfSide, is_side};
ghost use Rattle.library_answers.specs.Types.{OfRoot, HasNoRootAt, arm_name};

use library_answers::{
    ABSENT, ARGUMENT, EMPTY, MEMORY, OK, REFUSED, SHORT, count_roots, find_arm, set_enumerator,
    write_arm, write_member, write_root,
};
use library_handles::{Handle, Held};
use library_types::{ArmDescription, RootDescription};
use std::alloc::Global;

/// How many roots a side of an operation has.
#[unsafe(no_mangle)]
pub extern "C" fn dceidl_root_count(
    alloc: Global,
    interface: &mut Handle,
    operation: u32,
    side: u32,
    count: &mut usize,
) -> u32
    ensures known { result ≤ ARGUMENT }
    ensures same { interface.new.value ≡ interface.old.value }
    ensures counted { result ≡ OK → IsSomeAnd (interface_in interface.old.value)
        (λ i. OfSide i operation side (λ o s. count.new ≡ length (named_roots i.types s o))) }
    ensures argument { result ≡ ARGUMENT → IsSomeAnd (interface_in interface.old.value) (λ i. is_side i operation side ≡ false) }
    ensures empty { result ≡ EMPTY → interface_in interface.old.value ≡ None }
    ensures count_kept { (result ≡ OK → ⊥) → count.new ≡ count.old }
{
    let Some(held) = interface.take(alloc) else {
        return EMPTY;
    };
    let status = match &*held {
        Held::Interface(compiled) => count_roots(compiled, operation, side, count),
        _ => EMPTY,
    };
    interface.put(alloc, held);
    status
}

/// What a root of a side of an operation is, by its place, and its name.
#[unsafe(no_mangle)]
pub extern "C" fn dceidl_root_at(
    alloc: Global,
    interface: &mut Handle,
    operation: u32,
    side: u32,
    root: usize,
    about: &mut RootDescription,
    out: &mut [u8],
    len: &mut usize,
) -> u32
    ensures known { result ≤ SHORT }
    ensures not_memory { result ≡ MEMORY → ⊥ }
    ensures same { interface.new.value ≡ interface.old.value }
    ensures written { result ≡ OK → IsSomeAnd (interface_in interface.old.value)
        (λ i. OfRoot i operation side root (λ o r. (about.new ≡ root_described o r) × (take len.new out.new ≡ r.name))) }
    ensures rest { result ≡ OK → drop len.new out.new ≡ drop len.new out.old }
    ensures room { result ≡ OK → len.new ≤ length out.old }
    ensures short { result ≡ SHORT → IsSomeAnd (interface_in interface.old.value)
        (λ i. OfRoot i operation side root (λ _ r. (len.new ≡ length r.name) × (length out.old < len.new))) }
    ensures argument { result ≡ ARGUMENT → IsSomeAnd (interface_in interface.old.value)
        (λ i. is_side i operation side ≡ true → HasNoRootAt i operation side root) }
    ensures empty { result ≡ EMPTY → interface_in interface.old.value ≡ None }
    ensures about_kept { (result ≡ OK → ⊥) → about.new ≡ about.old }
    ensures kept { (result ≡ OK → ⊥) → out.new ≡ out.old }
    ensures len_kept { (result ≡ OK → ⊥) → (result ≡ SHORT → ⊥) → len.new ≡ len.old }
{
    let Some(held) = interface.take(alloc) else {
        return EMPTY;
    };
    let status = match &*held {
        Held::Interface(compiled) => {
            write_root(compiled, operation, side, root, about, out, len)
        },
        _ => EMPTY,
    };
    interface.put(alloc, held);
    status
}

/// The type of a member of a struct, by its place, and its name.
#[unsafe(no_mangle)]
pub extern "C" fn dceidl_member_at(
    alloc: Global,
    interface: &mut Handle,
    of: u32,
    member: usize,
    part: &mut u32,
    out: &mut [u8],
    len: &mut usize,
) -> u32
    ensures known { result ≤ SHORT }
    ensures not_memory { result ≡ MEMORY → ⊥ }
    ensures same { interface.new.value ≡ interface.old.value }
    ensures written { result ≡ OK → IsSomeAnd (interface_in interface.old.value)
        (λ i. IsSomeAnd (member_of (type_at i.types of) member) (λ f. (part.new ≡ f.of.0) × (take len.new out.new ≡ f.name))) }
    ensures rest { result ≡ OK → drop len.new out.new ≡ drop len.new out.old }
    ensures room { result ≡ OK → len.new ≤ length out.old }
    ensures short { result ≡ SHORT → IsSomeAnd (interface_in interface.old.value)
        (λ i. IsSomeAnd (member_of (type_at i.types of) member) (λ f. (len.new ≡ length f.name) × (length out.old < len.new))) }
    ensures argument { result ≡ ARGUMENT → IsSomeAnd (interface_in interface.old.value) (λ i. member_of (type_at i.types of) member ≡ None) }
    ensures empty { result ≡ EMPTY → interface_in interface.old.value ≡ None }
    ensures part_kept { (result ≡ OK → ⊥) → part.new ≡ part.old }
    ensures kept { (result ≡ OK → ⊥) → out.new ≡ out.old }
    ensures len_kept { (result ≡ OK → ⊥) → (result ≡ SHORT → ⊥) → len.new ≡ len.old }
{
    let Some(held) = interface.take(alloc) else {
        return EMPTY;
    };
    let status = match &*held {
        Held::Interface(compiled) => write_member(compiled, of, member, part, out, len),
        _ => EMPTY,
    };
    interface.put(alloc, held);
    status
}

/// What an arm of a union is, by its place, and its name.
#[unsafe(no_mangle)]
pub extern "C" fn dceidl_arm_at(
    alloc: Global,
    interface: &mut Handle,
    of: u32,
    arm: usize,
    about: &mut ArmDescription,
    out: &mut [u8],
    len: &mut usize,
) -> u32
    ensures known { result ≤ SHORT }
    ensures not_memory { result ≡ MEMORY → ⊥ }
    ensures same { interface.new.value ≡ interface.old.value }
    ensures written { result ≡ OK → IsSomeAnd (interface_in interface.old.value)
        (λ i. IsSomeAnd (arm_of (type_at i.types of) arm)
        (λ a. (about.new ≡ arm_described (is_default_of (type_at i.types of) arm) a) × (take len.new out.new ≡ arm_name a))) }
    ensures rest { result ≡ OK → drop len.new out.new ≡ drop len.new out.old }
    ensures room { result ≡ OK → len.new ≤ length out.old }
    ensures short { result ≡ SHORT → IsSomeAnd (interface_in interface.old.value)
        (λ i. IsSomeAnd (arm_of (type_at i.types of) arm) (λ a. (len.new ≡ length (arm_name a)) × (length out.old < len.new))) }
    ensures argument { result ≡ ARGUMENT → IsSomeAnd (interface_in interface.old.value) (λ i. arm_of (type_at i.types of) arm ≡ None) }
    ensures empty { result ≡ EMPTY → interface_in interface.old.value ≡ None }
    ensures about_kept { (result ≡ OK → ⊥) → about.new ≡ about.old }
    ensures kept { (result ≡ OK → ⊥) → out.new ≡ out.old }
    ensures len_kept { (result ≡ OK → ⊥) → (result ≡ SHORT → ⊥) → len.new ≡ len.old }
{
    let Some(held) = interface.take(alloc) else {
        return EMPTY;
    };
    let status = match &*held {
        Held::Interface(compiled) => write_arm(compiled, of, arm, about, out, len),
        _ => EMPTY,
    };
    interface.put(alloc, held);
    status
}

/// The place of the arm that a tag selects.
#[unsafe(no_mangle)]
pub extern "C" fn dceidl_arm_selected(
    alloc: Global,
    interface: &mut Handle,
    of: u32,
    tag: u64,
    arm: &mut usize,
) -> u32
    ensures known { result ≤ ABSENT }
    ensures not_memory { result ≡ MEMORY → ⊥ }
    ensures not_short { result ≡ SHORT → ⊥ }
    ensures not_refused { result ≡ REFUSED → ⊥ }
    ensures same { interface.new.value ≡ interface.old.value }
    ensures found { result ≡ OK → IsSomeAnd (interface_in interface.old.value) (λ i. IsSelection (type_at i.types of) tag (Selected arm.new)) }
    ensures absent { result ≡ ABSENT → IsSomeAnd (interface_in interface.old.value) (λ i. IsSelection (type_at i.types of) tag NoArm) }
    ensures argument { result ≡ ARGUMENT → IsSomeAnd (interface_in interface.old.value) (λ i. IsSelection (type_at i.types of) tag NoUnion) }
    ensures empty { result ≡ EMPTY → interface_in interface.old.value ≡ None }
    ensures arm_kept { (result ≡ OK → ⊥) → arm.new ≡ arm.old }
{
    let Some(held) = interface.take(alloc) else {
        return EMPTY;
    };
    let status = match &*held {
        Held::Interface(compiled) => find_arm(compiled, of, tag, arm),
        _ => EMPTY,
    };
    interface.put(alloc, held);
    status
}

/// The value of an enumerator, by its place.
#[unsafe(no_mangle)]
pub extern "C" fn dceidl_enumerator_at(
    alloc: Global,
    interface: &mut Handle,
    of: u32,
    enumerator: usize,
    value: &mut u64,
) -> u32
    ensures known { result ≤ ARGUMENT }
    ensures same { interface.new.value ≡ interface.old.value }
    ensures found { result ≡ OK → IsSomeAnd (interface_in interface.old.value) (λ i. enumerator_of (type_at i.types of) enumerator ≡ Some value.new) }
    ensures argument { result ≡ ARGUMENT → IsSomeAnd (interface_in interface.old.value) (λ i. enumerator_of (type_at i.types of) enumerator ≡ None) }
    ensures empty { result ≡ EMPTY → interface_in interface.old.value ≡ None }
    ensures value_kept { (result ≡ OK → ⊥) → value.new ≡ value.old }
{
    let Some(held) = interface.take(alloc) else {
        return EMPTY;
    };
    let status = match &*held {
        Held::Interface(compiled) => set_enumerator(compiled, of, enumerator, value),
        _ => EMPTY,
    };
    interface.put(alloc, held);
    status
}
