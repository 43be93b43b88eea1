// Members, enumerators and arms by their places.
ghost use Rattle.std.specs.Prelude.{◌≡◌, length, None, option_copied, option_map, IfSome, IfNone};
ghost use Rattle.std.specs.List.{slice_get};
ghost use Rattle.nd_types.specs.Table.{type_at};
ghost use Rattle.library_types.specs.Described.{all_arms};
ghost use Rattle.library_types.specs.Parts.{member_of, enumerator_of, arm_of, is_default_of, type_number, label_number, arm_described};
ghost use Rattle.library_types.specs.Parts.{IsLabelledAt, HasNoLabel, IsSelectedAt, IsSelection};

use crate::bits::low;
use crate::description::bit;
use nd_types::{Arm, Arms, Field, TypeDef, TypeId, Types};

/// The member of a struct at a place, from 0. Takes no memory.
pub fn member_at(types: &Types, of: u32, at: usize) -> Option<&Field>
    ensures { option_copied result ≡ member_of (type_at types.now of) at }
{
    match types.get(of as usize) {
        Some(TypeDef::Struct { members }) => members.get(at),
        _ => None,
    }
}

/// The value of the enumerator at a place, from 0: its low 64 bits. Takes no memory.
pub fn enumerator_at(types: &Types, of: u32, at: usize) -> Option<u64>
    ensures { result ≡ enumerator_of (type_at types.now of) at }
{
    match types.get(of as usize) {
        Some(TypeDef::Enum { values }) => match values.get(at) {
            Some(value) => Some(low(*value)),
            None => None,
        },
        _ => None,
    }
}

/// The arm of a union at a place, from 0; the default is the last. Takes no memory.
pub fn arm_at(types: &Types, of: u32, at: usize) -> Option<&Arm>
    ensures { option_copied result ≡ arm_of (type_at types.now of) at }
{
    match types.get(of as usize) {
        Some(TypeDef::Union { arms, default, .. }) => arm_in(arms, default, at),
        _ => None,
    }
}

// The arm at a place among these and the default, which is the last.
#[tactic(auto, using(crate::proofs::Places::arms))]
fn arm_in<'a>(arms: &'a Arms, default: &'a Option<Arm>, at: usize) -> Option<&'a Arm>
    ensures { option_copied result ≡ slice_get (all_arms arms.now default.now) at }
{
    if at < arms.len() {
        return arms.get(at);
    }
    if at > arms.len() {
        return None;
    }
    default.as_ref()
}

/// Whether the arm of a union at a place is the default. Takes no memory.
pub fn is_default(types: &Types, of: u32, at: usize) -> bool
    ensures { result ≡ is_default_of (type_at types.now of) at }
{
    match types.get(of as usize) {
        Some(TypeDef::Union { arms, .. }) => at == arms.len(),
        _ => false,
    }
}

/// An arm of a union, as programs in C see it.
#[repr(C)]
#[derive(Clone, Copy, PartialEq, Drop)]
pub struct ArmDescription {
    /// The low 64 bits of its label; 0 for the default.
    pub label: u64,
    /// 1 for the default.
    pub is_default: u32,
    /// 1 where it has a name.
    pub has_name: u32,
    /// 1 where it has a value.
    pub has_type: u32,
    /// The type of the value, if it has one.
    pub of: u32,
}

/// An arm, as programs in C see it. Takes no memory.
pub fn describe_arm(is_default: bool, arm: &Arm) -> ArmDescription
    ensures { result ≡ arm_described is_default arm.now }
{
    ArmDescription {
        label: label_of(is_default, arm),
        is_default: bit(is_default),
        has_name: bit(arm.name.is_some()),
        has_type: bit(arm.of.is_some()),
        of: number_of_type(arm.of),
    }
}

// The low 64 bits of a label; 0 for the default.
fn label_of(is_default: bool, arm: &Arm) -> u64
    ensures { result ≡ label_number is_default arm.now }
{
    if is_default { 0 } else { low(arm.label) }
}

// The number of a type; 0 for none.
fn number_of_type(of: Option<TypeId>) -> u32
    ensures { result ≡ type_number of }
{
    match of {
        Some(found) => found.0,
        None => 0,
    }
}

/// Which arm of a type a tag selects.
#[derive(Clone, Copy, Debug, PartialEq, Eq)]
pub enum Selection {
    /// The arm at this place, from 0; the default is the last.
    Selected(usize),
    /// None.
    NoArm,
    /// The type is no union.
    NoUnion,
}

/// The arm of a union that the tag with these low 64 bits selects: the one with that label, or else the default. Takes no memory, and time in
/// proportion to the arms.
pub fn arm_selected(types: &Types, of: u32, tag: u64) -> Selection
    ensures { IsSelection (type_at types.now of) tag result }
{
    match types.get(of as usize) {
        Some(TypeDef::Union { arms, default, .. }) => match selected_in(arms, default, tag) {
            Some(at) => Selection::Selected(at),
            None => Selection::NoArm,
        },
        _ => Selection::NoUnion,
    }
}

// The same among these arms and the default.
#[tactic(auto, using(crate::proofs::Places::selections))]
fn selected_in(arms: &Arms, default: &Option<Arm>, tag: u64) -> Option<usize>
    ensures some { IfSome result (IsSelectedAt arms.now default.now tag) }
    ensures none { IfNone result (HasNoLabel arms.now tag × (default.now ≡ None)) }
{
    if let Some(at) = labelled_at(arms, tag) {
        return Some(at);
    }
    if default.is_some() {
        Some(arms.len())
    } else {
        None
    }
}

// The place of the first arm whose label has these low 64 bits.
fn labelled_at(arms: &Arms, tag: u64) -> Option<usize>
    ensures some { IfSome result (IsLabelledAt arms.now tag) }
    ensures none { IfNone result (HasNoLabel arms.now tag) }
{
    for at in 0..arms.len() {
        let Some(arm) = arms.get(at) else {
            unreachable!()
        };
        if low(arm.label) == tag {
            return Some(at);
        }
    }
    None
}
