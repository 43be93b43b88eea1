// Types; roots and members by name.
ghost use Rattle.std.specs.Prelude.{◌≡◌, ◌≤◌, Some, None, false, option_map, IsSomeAnd};
ghost use Rattle.nd_types.specs.Table.{type_at};
ghost use Rattle.library_types.specs.Described.{type_described};
ghost use Rattle.library_types.specs.Finding.{element_of};
ghost use Rattle.library_answers.specs.Answers.{is_side};
ghost use Rattle.library_answers.specs.Types.{IsRoot, HasNoRootNamed, IsMember, members_of, HasNoMemberNamed};

use crate::answers::{ABSENT, ARGUMENT, EMPTY, MEMORY, OK, REFUSED, SHORT};
use crate::numbers::side_of;
use library_interface::Compiled;
use library_types::{
    Named, TypeDescription, describe_type, element_type, member_named, root_named,
};
use nd_types::{Fields, TypeDef, TypeId, Types};

/// What a type is, by its number. Takes no memory.
#[tactic(auto, using(crate::proofs::Places::typed))]
pub fn set_type(compiled: &Compiled, of: u32, about: &mut TypeDescription) -> u32
    ensures known { result ≤ ARGUMENT }
    ensures not_empty { result ≡ EMPTY → ⊥ }
    ensures described { result ≡ OK → IsSomeAnd (type_at compiled.now.types of) (λ d. about.new ≡ type_described d) }
    ensures argument { result ≡ ARGUMENT → type_at compiled.now.types of ≡ None }
    ensures about_kept { (result ≡ OK → ⊥) → about.new ≡ about.old }
{
    match describe_type(compiled.interface(), of) {
        Some(found) => {
            *about = found;
            OK
        }
        None => ARGUMENT,
    }
}

/// The number of a root of a side of an operation by its name, and its type. Takes no memory.
#[tactic(auto, using(crate::proofs::Numbered::no_side, crate::proofs::Numbered::no_operation, crate::proofs::Named::no_root))]
pub fn find_root(
    compiled: &Compiled,
    operation: u32,
    side: u32,
    name: &[u8],
    root: &mut usize,
    of: &mut u32,
) -> u32
    ensures known { result ≤ ABSENT }
    ensures not_empty { result ≡ EMPTY → ⊥ }
    ensures not_memory { result ≡ MEMORY → ⊥ }
    ensures not_short { result ≡ SHORT → ⊥ }
    ensures not_refused { result ≡ REFUSED → ⊥ }
    ensures found { result ≡ OK → IsRoot compiled.now operation side name.now root.new of.new }
    ensures absent { result ≡ ABSENT → HasNoRootNamed compiled.now operation side name.now }
    ensures argument { result ≡ ARGUMENT → is_side compiled.now operation side ≡ false }
    ensures root_kept { (result ≡ OK → ⊥) → root.new ≡ root.old }
    ensures of_kept { (result ≡ OK → ⊥) → of.new ≡ of.old }
{
    let Some(side) = side_of(side) else {
        return ARGUMENT;
    };
    let interface = compiled.interface();
    if operation as usize >= interface.operations.len() {
        return ARGUMENT;
    }
    match root_named(interface, operation, side, name) {
        Some(found) => set_named(found, root, of),
        None => ABSENT,
    }
}

// Sets a place and a type.
fn set_named(found: Named, at: &mut usize, of: &mut u32) -> u32
    ensures ok { result ≡ OK }
    ensures at { at.new ≡ found.at }
    ensures of { of.new ≡ found.of.0 }
{
    *at = found.at;
    *of = found.of.0;
    OK
}

/// The index of a member of a struct by its name, and its type. Takes no memory.
#[tactic(auto, using(crate::proofs::Named::member_is, crate::proofs::Named::no_member))]
pub fn find_member(
    compiled: &Compiled,
    of: u32,
    name: &[u8],
    member: &mut usize,
    member_of: &mut u32,
) -> u32
    ensures known { result ≤ ABSENT }
    ensures not_empty { result ≡ EMPTY → ⊥ }
    ensures not_memory { result ≡ MEMORY → ⊥ }
    ensures not_short { result ≡ SHORT → ⊥ }
    ensures not_refused { result ≡ REFUSED → ⊥ }
    ensures found { result ≡ OK → IsMember compiled.now of name.now member.new member_of.new }
    ensures absent { result ≡ ABSENT → HasNoMemberNamed compiled.now of name.now }
    ensures argument { result ≡ ARGUMENT → members_of (type_at compiled.now.types of) ≡ None }
    ensures member_kept { (result ≡ OK → ⊥) → member.new ≡ member.old }
    ensures member_of_kept { (result ≡ OK → ⊥) → member_of.new ≡ member_of.old }
{
    let interface = compiled.interface();
    let Some(members) = members_in(&interface.types, of) else {
        return ARGUMENT;
    };
    match member_named(members, name) {
        Some(found) => set_named(found, member, member_of),
        None => ABSENT,
    }
}

// The members of a struct.
fn members_in(types: &Types, of: u32) -> Option<&Fields>
    ensures { option_map (λ m. m.now) result ≡ members_of (type_at types.now of) }
{
    match types.get(of as usize) {
        Some(TypeDef::Struct { members }) => Some(members),
        _ => None,
    }
}

/// The type of elements, or of what a pointer points to. Takes no memory.
pub fn find_element(compiled: &Compiled, of: u32, part: &mut u32) -> u32
    ensures known { result ≤ ARGUMENT }
    ensures not_empty { result ≡ EMPTY → ⊥ }
    ensures found { result ≡ OK → element_of (type_at compiled.now.types of) ≡ Some part.new }
    ensures argument { result ≡ ARGUMENT → element_of (type_at compiled.now.types of) ≡ None }
    ensures part_kept { (result ≡ OK → ⊥) → part.new ≡ part.old }
{
    let interface = compiled.interface();
    match element_type(&interface.types, TypeId(of)) {
        Some(found) => {
            *part = found.0;
            OK
        }
        None => ARGUMENT,
    }
}
