// Roots, members, arms and enumerators by their places.
ghost use Rattle.std.specs.Prelude.{◌≡◌, ◌≤◌, ◌<◌, length, take, drop, true, false, Some, None, IsSomeAnd};
ghost use Rattle.nd_types.specs.Roots.{named_roots, root_value};
ghost use Rattle.nd_types.specs.Table.{type_at};
ghost use Rattle.library_types.specs.Parts.{member_of, enumerator_of, arm_of, is_default_of, arm_described, IsSelection};
ghost use Rattle.library_types.specs.Rooted.{root_described};
ghost use Rattle.library_types.specs.declared.parts.Selection.TheVariants.{Selected, NoArm, NoUnion};
ghost use Rattle.library_answers.specs.Answers.{OfSide, is_side};
ghost use Rattle.library_answers.specs.Types.{OfRoot, HasNoRootAt, arm_name};

use crate::answers::{ABSENT, ARGUMENT, EMPTY, MEMORY, OK, REFUSED, SHORT, lay_out};
use crate::numbers::side_of;
use library_interface::Compiled;
use library_types::{
    ArmDescription, RootDescription, Selection, arm_at, arm_selected, describe_arm, describe_root,
    enumerator_at, is_default, member_at, root_at, root_count,
};
use nd_types::{Arm, Field, Operation, RootDef};

/// How many roots a side of an operation has. Takes no memory.
#[tactic(auto, using(crate::proofs::Numbered::no_values))]
pub fn count_roots(compiled: &Compiled, operation: u32, side: u32, count: &mut usize) -> u32
    ensures known { result ≤ ARGUMENT }
    ensures not_empty { result ≡ EMPTY → ⊥ }
    ensures counted { result ≡ OK → OfSide compiled.now operation side (λ o s. count.new ≡ length (named_roots compiled.now.types s o)) }
    ensures argument { result ≡ ARGUMENT → is_side compiled.now operation side ≡ false }
    ensures count_kept { (result ≡ OK → ⊥) → count.new ≡ count.old }
{
    let Some(side) = side_of(side) else {
        return ARGUMENT;
    };
    let interface = compiled.interface();
    if operation as usize >= interface.operations.len() {
        return ARGUMENT;
    }
    *count = root_count(interface, operation, side);
    OK
}

/// What a root of a side of an operation is, by its place, and its name. Takes no memory.
#[tactic(auto, using(crate::proofs::Places::roots_placed))]
pub fn write_root(
    compiled: &Compiled,
    operation: u32,
    side: u32,
    at: usize,
    about: &mut RootDescription,
    out: &mut [u8],
    len: &mut usize,
) -> u32
    ensures known { result ≤ SHORT }
    ensures not_empty { result ≡ EMPTY → ⊥ }
    ensures not_memory { result ≡ MEMORY → ⊥ }
    ensures written { result ≡ OK → OfRoot compiled.now operation side at
        (λ o r. (about.new ≡ root_described o r) × (take len.new out.new ≡ r.name)) }
    ensures rest { result ≡ OK → drop len.new out.new ≡ drop len.new out.old }
    ensures room { result ≡ OK → len.new ≤ length out.old }
    ensures short { result ≡ SHORT → OfRoot compiled.now operation side at (λ _ r. (len.new ≡ length r.name) × (length out.old < len.new)) }
    ensures argument { result ≡ ARGUMENT → is_side compiled.now operation side ≡ true → HasNoRootAt compiled.now operation side at }
    ensures about_kept { (result ≡ OK → ⊥) → about.new ≡ about.old }
    ensures kept { (result ≡ OK → ⊥) → out.new ≡ out.old }
    ensures len_kept { (result ≡ OK → ⊥) → (result ≡ SHORT → ⊥) → len.new ≡ len.old }
{
    let Some(side) = side_of(side) else {
        return ARGUMENT;
    };
    let interface = compiled.interface();
    let Some(found) = interface.operations.get(operation as usize) else {
        return ARGUMENT;
    };
    match root_at(interface, operation, side, at) {
        Some(root) => fill_root(found, &root, about, out, len),
        None => ARGUMENT,
    }
}

// What a root is, and its name.
fn fill_root(
    operation: &Operation,
    root: &RootDef<'_>,
    about: &mut RootDescription,
    out: &mut [u8],
    len: &mut usize,
) -> u32
    ensures known { result ≤ SHORT }
    ensures not_empty { result ≡ EMPTY → ⊥ }
    ensures not_argument { result ≡ ARGUMENT → ⊥ }
    ensures not_memory { result ≡ MEMORY → ⊥ }
    ensures about { result ≡ OK → about.new ≡ root_described operation.now (root_value root.now) }
    ensures written { result ≡ OK → take len.new out.new ≡ (root_value root.now).name }
    ensures rest { result ≡ OK → drop len.new out.new ≡ drop len.new out.old }
    ensures room { result ≡ OK → len.new ≤ length out.old }
    ensures len { result ≡ SHORT → len.new ≡ length (root_value root.now).name }
    ensures short { result ≡ SHORT → length out.old < len.new }
    ensures about_kept { (result ≡ OK → ⊥) → about.new ≡ about.old }
    ensures kept { (result ≡ OK → ⊥) → out.new ≡ out.old }
    ensures len_kept { (result ≡ OK → ⊥) → (result ≡ SHORT → ⊥) → len.new ≡ len.old }
{
    let status = lay_out(root.name, out, len);
    if status != OK {
        return status;
    }
    *about = describe_root(operation, root);
    OK
}

/// The type of a member of a struct, by its place, and its name. Takes no memory.
pub fn write_member(
    compiled: &Compiled,
    of: u32,
    at: usize,
    part: &mut u32,
    out: &mut [u8],
    len: &mut usize,
) -> u32
    ensures known { result ≤ SHORT }
    ensures not_empty { result ≡ EMPTY → ⊥ }
    ensures not_memory { result ≡ MEMORY → ⊥ }
    ensures written { result ≡ OK → IsSomeAnd (member_of (type_at compiled.now.types of) at)
        (λ f. (part.new ≡ f.of.0) × (take len.new out.new ≡ f.name)) }
    ensures rest { result ≡ OK → drop len.new out.new ≡ drop len.new out.old }
    ensures room { result ≡ OK → len.new ≤ length out.old }
    ensures short { result ≡ SHORT → IsSomeAnd (member_of (type_at compiled.now.types of) at)
        (λ f. (len.new ≡ length f.name) × (length out.old < len.new)) }
    ensures argument { result ≡ ARGUMENT → member_of (type_at compiled.now.types of) at ≡ None }
    ensures part_kept { (result ≡ OK → ⊥) → part.new ≡ part.old }
    ensures kept { (result ≡ OK → ⊥) → out.new ≡ out.old }
    ensures len_kept { (result ≡ OK → ⊥) → (result ≡ SHORT → ⊥) → len.new ≡ len.old }
{
    match member_at(&compiled.interface().types, of, at) {
        Some(member) => fill_member(member, part, out, len),
        None => ARGUMENT,
    }
}

// The type of a member, and its name.
fn fill_member(member: &Field, part: &mut u32, out: &mut [u8], len: &mut usize) -> u32
    ensures known { result ≤ SHORT }
    ensures not_empty { result ≡ EMPTY → ⊥ }
    ensures not_argument { result ≡ ARGUMENT → ⊥ }
    ensures not_memory { result ≡ MEMORY → ⊥ }
    ensures of { result ≡ OK → part.new ≡ member.now.of.0 }
    ensures written { result ≡ OK → take len.new out.new ≡ member.now.name }
    ensures rest { result ≡ OK → drop len.new out.new ≡ drop len.new out.old }
    ensures room { result ≡ OK → len.new ≤ length out.old }
    ensures len { result ≡ SHORT → len.new ≡ length member.now.name }
    ensures short { result ≡ SHORT → length out.old < len.new }
    ensures part_kept { (result ≡ OK → ⊥) → part.new ≡ part.old }
    ensures kept { (result ≡ OK → ⊥) → out.new ≡ out.old }
    ensures len_kept { (result ≡ OK → ⊥) → (result ≡ SHORT → ⊥) → len.new ≡ len.old }
{
    let status = lay_out(member.name.as_slice(), out, len);
    if status != OK {
        return status;
    }
    *part = member.of.0;
    OK
}

/// What an arm of a union is, by its place, and its name. Takes no memory.
pub fn write_arm(
    compiled: &Compiled,
    of: u32,
    at: usize,
    about: &mut ArmDescription,
    out: &mut [u8],
    len: &mut usize,
) -> u32
    ensures known { result ≤ SHORT }
    ensures not_empty { result ≡ EMPTY → ⊥ }
    ensures not_memory { result ≡ MEMORY → ⊥ }
    ensures written { result ≡ OK → IsSomeAnd (arm_of (type_at compiled.now.types of) at)
        (λ a. (about.new ≡ arm_described (is_default_of (type_at compiled.now.types of) at) a) × (take len.new out.new ≡ arm_name a)) }
    ensures rest { result ≡ OK → drop len.new out.new ≡ drop len.new out.old }
    ensures room { result ≡ OK → len.new ≤ length out.old }
    ensures short { result ≡ SHORT → IsSomeAnd (arm_of (type_at compiled.now.types of) at)
        (λ a. (len.new ≡ length (arm_name a)) × (length out.old < len.new)) }
    ensures argument { result ≡ ARGUMENT → arm_of (type_at compiled.now.types of) at ≡ None }
    ensures about_kept { (result ≡ OK → ⊥) → about.new ≡ about.old }
    ensures kept { (result ≡ OK → ⊥) → out.new ≡ out.old }
    ensures len_kept { (result ≡ OK → ⊥) → (result ≡ SHORT → ⊥) → len.new ≡ len.old }
{
    let types = &compiled.interface().types;
    match arm_at(types, of, at) {
        Some(arm) => fill_arm(is_default(types, of, at), arm, about, out, len),
        None => ARGUMENT,
    }
}

// What an arm is, and its name.
fn fill_arm(
    is_default: bool,
    arm: &Arm,
    about: &mut ArmDescription,
    out: &mut [u8],
    len: &mut usize,
) -> u32
    ensures known { result ≤ SHORT }
    ensures not_empty { result ≡ EMPTY → ⊥ }
    ensures not_argument { result ≡ ARGUMENT → ⊥ }
    ensures not_memory { result ≡ MEMORY → ⊥ }
    ensures about { result ≡ OK → about.new ≡ arm_described is_default arm.now }
    ensures written { result ≡ OK → take len.new out.new ≡ arm_name arm.now }
    ensures rest { result ≡ OK → drop len.new out.new ≡ drop len.new out.old }
    ensures room { result ≡ OK → len.new ≤ length out.old }
    ensures len { result ≡ SHORT → len.new ≡ length (arm_name arm.now) }
    ensures short { result ≡ SHORT → length out.old < len.new }
    ensures about_kept { (result ≡ OK → ⊥) → about.new ≡ about.old }
    ensures kept { (result ≡ OK → ⊥) → out.new ≡ out.old }
    ensures len_kept { (result ≡ OK → ⊥) → (result ≡ SHORT → ⊥) → len.new ≡ len.old }
{
    let status = lay_out(name_of(arm), out, len);
    if status != OK {
        return status;
    }
    *about = describe_arm(is_default, arm);
    OK
}

// The name of an arm; no octets where it has none.
fn name_of(arm: &Arm) -> &[u8]
    ensures { result.now ≡ arm_name arm.now }
{
    match &arm.name {
        Some(name) => name.as_slice(),
        None => &[],
    }
}

/// The place of the arm that a tag selects. Takes no memory.
#[tactic(auto, using(crate::proofs::Places::selection_is))]
pub fn find_arm(compiled: &Compiled, of: u32, tag: u64, arm: &mut usize) -> u32
    ensures known { result ≤ ABSENT }
    ensures not_empty { result ≡ EMPTY → ⊥ }
    ensures not_memory { result ≡ MEMORY → ⊥ }
    ensures not_short { result ≡ SHORT → ⊥ }
    ensures not_refused { result ≡ REFUSED → ⊥ }
    ensures found { result ≡ OK → IsSelection (type_at compiled.now.types of) tag (Selected arm.new) }
    ensures absent { result ≡ ABSENT → IsSelection (type_at compiled.now.types of) tag NoArm }
    ensures argument { result ≡ ARGUMENT → IsSelection (type_at compiled.now.types of) tag NoUnion }
    ensures arm_kept { (result ≡ OK → ⊥) → arm.new ≡ arm.old }
{
    match arm_selected(&compiled.interface().types, of, tag) {
        Selection::Selected(at) => {
            *arm = at;
            OK
        }
        Selection::NoArm => ABSENT,
        Selection::NoUnion => ARGUMENT,
    }
}

/// The value of an enumerator, by its place. Takes no memory.
pub fn set_enumerator(compiled: &Compiled, of: u32, at: usize, value: &mut u64) -> u32
    ensures known { result ≤ ARGUMENT }
    ensures not_empty { result ≡ EMPTY → ⊥ }
    ensures found { result ≡ OK → enumerator_of (type_at compiled.now.types of) at ≡ Some value.new }
    ensures argument { result ≡ ARGUMENT → enumerator_of (type_at compiled.now.types of) at ≡ None }
    ensures value_kept { (result ≡ OK → ⊥) → value.new ≡ value.old }
{
    match enumerator_at(&compiled.interface().types, of, at) {
        Some(found) => {
            *value = found;
            OK
        }
        None => ARGUMENT,
    }
}
