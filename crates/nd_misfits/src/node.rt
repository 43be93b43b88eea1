// Why a node has a misfit by itself, if it has one.
ghost use Rattle.std.specs.Prelude.{◌≡◌, ℕ, ℤ, Bool, true, List, Option, ◌+◌, ◌&&◌, nat_le, ◌==◌, nat_eq, length, Some, None};
ghost use Rattle.std.specs.List.{list_all, list_any};
ghost use Rattle.std.specs.Option.{option_copied};
ghost use Rattle.std.specs.Ordering.{int_eq};
ghost use Rattle.nd_types.specs.declared.types.Arm.{Arm as ArmValue};
ghost use Rattle.nd_types.specs.declared.types.Class.{Class as ClassValue};
ghost use Rattle.nd_types.specs.declared.types.TypeId.{TypeId as TypeIdValue};
ghost use Rattle.nd_types.specs.declared.types.TypeDef.TheVariants as def;
ghost use Rattle.nd_types.specs.Table.{Table, type_at, is_value, selected, selected as selected_arm};
ghost use Rattle.nd_value.specs.declared.value.Graph.{Graph as GraphValue};
ghost use Rattle.nd_value.specs.Tree as tree;
ghost use Rattle.nd_value.specs.Tree.{Trees, node, none, trees, count};
ghost use Rattle.nd_value.specs.Seen.{tree_of, cell_number};
ghost use Rattle.nd_value.specs.Misfit.{is_bound, arm_fits, has_counts, is_within, is_octet, is_count, has_machine_values};
ghost use Rattle.nd_misfits.specs.Searched.{misfit_in, label_in};

use nd_types::{Arm, Arms, Class, Fields, Numbers, Prim, TypeDef, TypeId, Types};
use nd_value::{ArmVal, CellId, Graph, MisfitReason, Val};
use ndr_prim::is_in_range;

// The counts and octets of a node are within the widths of their types, which a clause cannot say of a value: this reads them, and is
// compiled away.
#[inline]
pub(crate) fn within_widths(val: &Val)
    ensures { has_machine_values (label_in (tree_of val.now)) ≡ true }
{
    match val {
        Val::Arr { max, offset, .. } => {
            count_within(*max);
            count_within(*offset);
        }
        Val::Text { max, octets } => {
            count_within(*max);
            octets_within(octets.as_slice());
        }
        Val::Ptr(cell) => cell_within(*cell),
        Val::Context { attributes, id } => {
            count_within(*attributes);
            identifier_within(id.as_bytes());
        }
        Val::Num(_) | Val::Rec(_) | Val::Union { .. } | Val::Pipe(_) => {}
    }
}

// The same of a count.
#[inline]
fn count_within(_count: u32)
    ensures { is_count _count ≡ true }
{}

// The same of a cell's number.
#[inline]
fn cell_within(cell: Option<CellId>)
    ensures { has_machine_values (tree.Ptr (cell_number cell)) ≡ true }
{
    if let Some(cell) = cell {
        count_within(cell.0);
    }
}

// The same of octets.
#[inline]
fn octets_within(octets: &[u8])
    ensures { list_all is_octet octets.now ≡ true }
{}

// The same of an identifier, which has 16 of them.
#[inline]
fn identifier_within(octets: &[u8; 16])
    ensures length { (length octets.now == 16) ≡ true }
    ensures octets { list_all is_octet octets.now ≡ true }
{
    octets_within(octets);
}

// Why a value cannot be a node of a type. Its children are not looked at.
pub(crate) fn single(types: &Types, graph: &Graph, of: TypeId, val: &Val) -> Option<MisfitReason>
    ensures { result ≡ misfit_in types.now graph.now (type_at types.now of.0) (tree_of val.now) }
{
    match types.get(of.0 as usize) {
        Some(TypeDef::Prim(prim)) => primitive(*prim, val),
        Some(TypeDef::Enum { values }) => enumerated(values, val),
        Some(TypeDef::Struct { members }) => structure(members, val),
        Some(TypeDef::Array { bound, varying, .. }) => array(*bound, *varying, val),
        Some(TypeDef::Text { bound, .. }) => text(*bound, val),
        Some(
            TypeDef::Union {
                tag,
                arms,
                default,
                ..
            },
        ) => union(types, *tag, arms, default, val),
        Some(TypeDef::Pointer { class, to }) => pointer(graph, *class, *to, val),
        Some(TypeDef::Context) => context(val),
        Some(TypeDef::Pipe { .. }) => pipe(val),
        None => Some(MisfitReason::Shape),
    }
}

// The same of a primitive.
fn primitive(prim: Prim, val: &Val) -> Option<MisfitReason>
    ensures { (table : Table) (g : GraphValue) → result ≡ misfit_in table g (Some (def.Prim prim)) (tree_of val.now) }
{
    match val {
        Val::Num(number) if is_in_range(prim, *number) => None,
        Val::Num(_) => Some(MisfitReason::Range),
        _ => Some(MisfitReason::Shape),
    }
}

// The same of an enumerated value.
fn enumerated(values: &Numbers, val: &Val) -> Option<MisfitReason>
    ensures { (table : Table) (g : GraphValue) → result ≡ misfit_in table g (Some (def.Enum values.now)) (tree_of val.now) }
{
    match val {
        Val::Num(number) if contains(values, *number) => None,
        Val::Num(_) => Some(MisfitReason::Range),
        _ => Some(MisfitReason::Shape),
    }
}

// The same of a structure.
fn structure(members: &Fields, val: &Val) -> Option<MisfitReason>
    ensures { (table : Table) (g : GraphValue) → result ≡ misfit_in table g (Some (def.Struct members.now)) (tree_of val.now) }
{
    match val {
        Val::Rec(vals) if vals.len() == members.len() => None,
        _ => Some(MisfitReason::Shape),
    }
}

// The same of an array.
fn array(bound: Option<u32>, varying: bool, val: &Val) -> Option<MisfitReason>
    ensures { (table : Table) (g : GraphValue) (elem : TypeIdValue)
        → result ≡ misfit_in table g (Some (def.Array elem bound varying)) (tree_of val.now) }
{
    match val {
        Val::Arr { max, offset, items } if has_counts(bound, varying, *max, *offset, items.len()) =>
            { None }
        Val::Arr { .. } => Some(MisfitReason::Bound),
        _ => Some(MisfitReason::Shape),
    }
}

// The same of a string.
fn text(bound: Option<u32>, val: &Val) -> Option<MisfitReason>
    ensures { (table : Table) (g : GraphValue) (elem : TypeIdValue)
        → result ≡ misfit_in table g (Some (def.Text elem bound)) (tree_of val.now) }
{
    match val {
        Val::Text { max, octets } => octets_misfit(bound, *max, octets.as_slice()),
        _ => Some(MisfitReason::Shape),
    }
}

// The same of a string's maximum count and octets.
fn octets_misfit(bound: Option<u32>, max: u32, octets: &[u8]) -> Option<MisfitReason>
    ensures { (table : Table) (g : GraphValue) (elem : TypeIdValue)
        → result ≡ misfit_in table g (Some (def.Text elem bound)) (node (tree.Text max octets.now) none) }
{
    if !is_bound(bound, max) || octets.len() >= max as usize {
        return Some(MisfitReason::Bound);
    }
    if has_zero(octets) {
        return Some(MisfitReason::Zero);
    }
    None
}

// Whether an octet is zero.
fn has_zero(octets: &[u8]) -> bool
    ensures { result ≡ list_any (nat_eq 0) octets.now }
{
    octets.iter().any(|octet| 0 == *octet)
}

// The same of a union.
fn union(
    types: &Types,
    tag: TypeId,
    arms: &Arms,
    default: &Option<Arm>,
    val: &Val,
) -> Option<MisfitReason>
    ensures { (g : GraphValue) (encapsulated : Bool)
        → result ≡ misfit_in types.now g (Some (def.Union tag encapsulated arms.now default.now)) (tree_of val.now) }
{
    match val {
        Val::Union { tag: value, arm } => {
            arm_misfit(types, tag, *value, selected(arms, default, *value), arm)
        }
        _ => Some(MisfitReason::Shape),
    }
}

// The same of a union's tag, the arm that it selects, and the value that is there.
fn arm_misfit(
    types: &Types,
    tag: TypeId,
    value: i128,
    selected: Option<&Arm>,
    arm: &ArmVal,
) -> Option<MisfitReason>
    ensures { (g : GraphValue) (encapsulated : Bool) (arms : List ArmValue) (default : Option ArmValue)
        → option_copied selected.entry ≡ selected_arm arms default value
        → result ≡ misfit_in types.now g (Some (def.Union tag encapsulated arms default)) (node (tree.Union value) (trees arm.now)) }
{
    if !arm_fits(selected, arm) {
        return Some(MisfitReason::Shape);
    }
    if !is_value(types, tag, value) {
        return Some(MisfitReason::Range);
    }
    match selected {
        Some(_) => None,
        None => Some(MisfitReason::NoArm),
    }
}

// Whether a value is there exactly if the selected arm has a type.
fn arm_fits(selected: Option<&Arm>, arm: &ArmVal) -> bool
    ensures { result ≡ arm_fits (option_copied selected.entry) (trees arm.now) }
{
    match selected {
        Some(arm_def) => arm_def.of.is_some() == arm.get().is_some(),
        None => true,
    }
}

// The same of a pointer.
fn pointer(graph: &Graph, class: Class, to: TypeId, val: &Val) -> Option<MisfitReason>
    ensures { (table : Table) → result ≡ misfit_in table graph.now (Some (def.Pointer class to)) (tree_of val.now) }
{
    match val {
        Val::Ptr(cell) => cell_misfit(graph, class, to, *cell),
        _ => Some(MisfitReason::Shape),
    }
}

// The same of the cell that a pointer names, if any.
fn cell_misfit(
    graph: &Graph,
    class: Class,
    to: TypeId,
    cell: Option<CellId>,
) -> Option<MisfitReason>
    ensures { (table : Table) → result ≡ misfit_in table graph.now (Some (def.Pointer class to)) (node (tree.Ptr (cell_number cell)) none) }
{
    match cell {
        Some(cell) => referent(graph, to, cell),
        None if class == Class::Ref => Some(MisfitReason::NullRef),
        None => None,
    }
}

// The same of a pointer that is not null.
fn referent(graph: &Graph, to: TypeId, cell: CellId) -> Option<MisfitReason>
    ensures { (table : Table) (class : ClassValue)
        → result ≡ misfit_in table graph.now (Some (def.Pointer class to)) (node (tree.Ptr (Some cell.0)) none) }
{
    if cell.0 == 0 {
        return Some(MisfitReason::NoCell);
    }
    match graph.cells.get(cell.0 as usize - 1) {
        Some(found) if found.of == to => None,
        Some(_) => Some(MisfitReason::CellType),
        None => Some(MisfitReason::NoCell),
    }
}

// The same of a context handle.
fn context(val: &Val) -> Option<MisfitReason>
    ensures { (table : Table) (g : GraphValue) → result ≡ misfit_in table g (Some def.Context) (tree_of val.now) }
{
    match val {
        Val::Context { .. } => None,
        _ => Some(MisfitReason::Shape),
    }
}

// The same of a pipe.
fn pipe(val: &Val) -> Option<MisfitReason>
    ensures { (table : Table) (g : GraphValue) (elem : TypeIdValue)
        → result ≡ misfit_in table g (Some (def.Pipe elem)) (tree_of val.now) }
{
    match val {
        Val::Pipe(_) => None,
        _ => Some(MisfitReason::Shape),
    }
}

// The arm that a tag selects: the one with that label, or the default, if any.
pub(crate) fn selected<'a>(arms: &'a Arms, default: &'a Option<Arm>, tag: i128) -> Option<&'a Arm>
    ensures { option_copied result ≡ selected arms.now default.now tag }
{
    for at in 0..arms.len() {
        let Some(arm) = arms.get(at) else {
            unreachable!()
        };
        if arm.label == tag {
            return Some(arm);
        }
    }
    default.as_ref()
}

// Whether a number is a value of a primitive or of an enumerated type.
fn is_value(types: &Types, of: TypeId, number: i128) -> bool
    ensures { result ≡ is_value (type_at types.now of.0) number }
{
    match types.get(of.0 as usize) {
        Some(TypeDef::Prim(prim)) => is_in_range(*prim, number),
        Some(TypeDef::Enum { values }) => contains(values, number),
        _ => false,
    }
}

// Whether a number is among others.
fn contains(values: &Numbers, number: i128) -> bool
    ensures { result ≡ list_any (int_eq number) values.now }
{
    for at in 0..values.len() {
        let Some(value) = values.get(at) else {
            unreachable!()
        };
        if number == *value {
            return true;
        }
    }
    false
}

// Whether the counts of an array have the form of its type: one that does not vary has offset 0 and as many elements as its maximum
// count, a fixed bound is the maximum count, and offset and number of elements end within it.
fn has_counts(bound: Option<u32>, varying: bool, max: u32, offset: u32, items: usize) -> bool
    ensures { (elem : TypeIdValue) (ks : Trees) → count ks ≡ items
        → result ≡ (has_counts (Some (def.Array elem bound varying)) (tree.Arr max offset) ks && is_within (tree.Arr max offset) ks) }
{
    let is_full = varying || offset == 0 && items == max as usize;
    is_bound(bound, max) && is_full && is_within(max, offset, items)
}

// Whether offset and number of elements end within the maximum count.
fn is_within(max: u32, offset: u32, items: usize) -> bool
    ensures { result ≡ nat_le (offset + items) max }
{
    offset <= max && items <= (max - offset) as usize
}

// Whether a fixed bound, if there is one, is the maximum count.
fn is_bound(bound: Option<u32>, max: u32) -> bool
    ensures { result ≡ is_bound bound max }
{
    match bound {
        Some(bound) => max == bound,
        None => true,
    }
}
