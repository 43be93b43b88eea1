// What single nodes say.
ghost use Rattle.std.specs.Prelude.{◌≡◌, Some};
ghost use Rattle.nd_types.specs.Layout.{type_list};
ghost use Rattle.nd_types.specs.Table.{type_at, selected as selected_arm};
ghost use Rattle.nd_value.specs.Nodes.{selected_types};
ghost use Rattle.nd_value.specs.Seen.{cell_number};
ghost use Rattle.library_nodes.specs.Listings.{has_form, has_parts, has_numbers, is_pointer, is_context};
ghost use Rattle.library_nodes.specs.Listings.{meant, signed, is_wide, is_numeral, cell_numbered};

use crate::Description;
use nd_types::{Arm, Arms, Prim, TypeDef, TypeId, Types};
use nd_value::CellId;
use text_grammar::selected;

/// The kinds of nodes, as [`Description`] has them.
pub(crate) const NUMBER: u32 = 1;

pub(crate) const STRUCT: u32 = 2;

pub(crate) const ARRAY: u32 = 3;

pub(crate) const STRING: u32 = 4;

pub(crate) const UNION: u32 = 5;

pub(crate) const POINTER: u32 = 6;

pub(crate) const CONTEXT: u32 = 7;

pub(crate) const PIPE: u32 = 8;

// Whether a node is of a kind, and so many of its parts are nodes.
pub(crate) fn has_form(node: &Description, kind: u32, parts: usize) -> bool
    ensures { result ≡ has_form node.now kind parts }
{
    node.kind == kind && node.parts as usize == parts
}

// Whether a node of a kind has elements that are nodes.
pub(crate) fn has_parts(node: &Description, kind: u32) -> bool
    ensures { result ≡ has_parts node.now kind }
{
    has_form(node, kind, node.count as usize) && node.numbers == 0
}

// Whether a node of a kind has elements that are numbers.
pub(crate) fn has_numbers(node: &Description, kind: u32) -> bool
    ensures { result ≡ has_numbers node.now kind }
{
    has_form(node, kind, 0) && node.numbers == node.count
}

// Whether a node is a pointer to a cell of 32 bits.
pub(crate) fn is_pointer(node: &Description) -> bool
    ensures { result ≡ is_pointer node.now }
{
    has_form(node, POINTER, 0) && node.number <= 4_294_967_295
}

// Whether a node is a context handle.
pub(crate) fn is_context(node: &Description) -> bool
    ensures { result ≡ is_context node.now }
{
    has_form(node, CONTEXT, 0) && node.length == 16 && node.number <= 4_294_967_295
}

// The number that 64 bits mean: in two's complement, unless they are wide.
pub(crate) fn meant(wide: bool, number: u64) -> i128
    ensures { result ≡ meant wide number }
{
    if wide {
        i128::from(number)
    } else {
        signed(number)
    }
}

// The number that 64 bits mean in two's complement.
fn signed(number: u64) -> i128
    ensures { result ≡ signed number }
{
    if number < 9_223_372_036_854_775_808 {
        i128::from(number)
    } else {
        -1 - i128::from(u64::MAX - number)
    }
}

// Whether the numbers of a type have 64 bits without a sign.
pub(crate) fn is_wide(definition: &TypeDef) -> bool
    ensures { result ≡ is_wide (Some definition.now) }
{
    match definition {
        TypeDef::Prim(Prim::UnsignedHyper) => true,
        _ => false,
    }
}

// The same of a type by its number.
pub(crate) fn is_wide_at(types: &Types, of: TypeId) -> bool
    ensures { result ≡ is_wide (type_at types.now of.0) }
{
    match types.get(of.0 as usize) {
        Some(definition) => is_wide(definition),
        None => false,
    }
}

// Whether the values of a type are numbers.
pub(crate) fn is_numeral(types: &Types, of: TypeId) -> bool
    ensures { result ≡ is_numeral (type_at types.now of.0) }
{
    match types.get(of.0 as usize) {
        Some(TypeDef::Prim(_)) => true,
        Some(TypeDef::Enum { .. }) => true,
        _ => false,
    }
}

// The cell of a pointer by its number; 0 is null.
pub(crate) fn cell_numbered(number: u32) -> Option<CellId>
    ensures { cell_number result ≡ cell_numbered number }
{
    if number == 0 {
        None
    } else {
        Some(CellId(number))
    }
}

// The type of the arm that a tag selects; none where it is empty, or none is selected.
pub(crate) fn selected_type(arms: &Arms, default: &Option<Arm>, tag: i128) -> Option<TypeId>
    ensures { type_list result ≡ selected_types (selected_arm arms.now default.now tag) }
{
    match selected(arms, default, tag) {
        Some(arm) => arm.of,
        None => None,
    }
}
