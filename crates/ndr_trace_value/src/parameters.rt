// The variables of parameters, where an agreement is sought.
ghost use Rattle.std.specs.Prelude.{◌≡◌, [], ℕ, IfOk, None, Some, option_map};
ghost use Rattle.std.specs.List.{slice_get};
ghost use Rattle.nd_types.specs.declared.types.AttrVar.{AttrVar as AttrVarValue};
ghost use Rattle.nd_types.specs.Roots.{named_roots, root_value};
ghost use Rattle.text_grammar.specs.Written.{parameter_name as name_of_param};
ghost use Rattle.ndr_trace_value.specs.declared.pointers.PointerSpot.{PointerSpot as PointerSpotValue};
ghost use Rattle.ndr_trace_value.specs.Attributes.{IsKeptName, IsOwnName, IsPointedName, IsPointedPath, home_attribute};
ghost use Rattle.ndr_trace_value.specs.Attributes.{number_attribute as by_number, param_attribute as by_param, root_attribute as by_root};

use crate::members::number_of;
use crate::pointers::{PointerSpot, pointed_path};
use crate::progress::Ground;
use crate::search::{Search, Sought, attribute, stated_by};
use nd_base::{Memory, Octets};
use nd_flat::{FlatGraph, Seen, Walk};
use nd_types::{AttrVar, Operation, RootDef, Side};
use nd_value::{CellId, Home, ItemKind};
use std::alloc::Global;
use text_printer::root_at;

/// A root that was read: its parameter, the number that it is, and the cell that it names.
#[derive(Clone, Copy, Drop)]
pub struct RootSeen {
    pub param: Option<u32>,
    pub number: Option<i128>,
    pub cell: Option<CellId>,
}

impl RootSeen {
    /// A root of this parameter, of which nothing is known yet.
    pub fn of(param: Option<u32>) -> RootSeen {
        RootSeen {
            param,
            number: None,
            cell: None,
        }
    }
}

/// Notes what the own value of a home says.
pub fn seen_home(search: &mut Search<'_>, home: Home, seen: &Seen<'_>) -> Result<(), Memory> {
    match home {
        Home::Root(_) => {
            if let Some(root) = search.roots.last_mut() {
                root.number = number_of(seen);
                root.cell = seen.named_cell();
            }
            Ok(())
        }
        Home::Cell(cell) => seen_cell(search, cell, number_of(seen)),
    }
}

/// Notes the cell that a top-level reference pointer names.
pub fn note_direct(search: &mut Search<'_>, cell: CellId) {
    if let Some(root) = search.roots.last_mut() {
        root.cell = Some(cell);
    }
}

// Notes the number that a cell is.
fn seen_cell(search: &mut Search<'_>, cell: CellId, number: Option<i128>) -> Result<(), Memory> {
    let at = cell.0 as usize;
    for _cell in search.cell_numbers.len()..at {
        let Ok(()) = search.cell_numbers.push(None) else {
            return Err(Memory);
        };
    }
    if at > 0
        && let Some(place) = search.cell_numbers.get_mut(at - 1)
    {
        *place = number;
    }
    Ok(())
}

/// The path of the variable that states the number at a failed agreement: where the walk kept this path, as it does for members of structs, or else
/// by the pointer that names the cell alone, or by what variables state of a cell that pointers name.
pub fn variable_path(
    ground: &Ground<'_>,
    search: &Search<'_>,
    sought: Sought,
    kept: &Octets,
    from: &Option<PointerSpot>,
) -> Result<Octets, Memory>
    ensures own { IfOk result (λ path. IsOwnName ground.now sought path) }
    ensures kept { IfOk result (λ path. IsKeptName ground.now sought kept.now path) }
    ensures pointed { IfOk result (λ path. IsPointedName ground.now sought from.now kept.now path) }
    ensures beside { IfOk result (λ path. IsPointedPath ground.now sought from.now kept.now path) }
{
    let Some(operation) = ground.interface.operations.get(ground.op as usize) else {
        return Ok(Octets::new(ground.alloc));
    };
    match own_attribute(ground, operation, sought) {
        Some(by) => {
            let name = parameter_name(ground.alloc, operation, by)?;
            Ok(name)
        }
        None => {
            let path = other_path(ground, operation, search, sought, kept.as_slice(), from)?;
            Ok(path)
        }
    }
}

// The attribute that speaks of what is sought, if that is a parameter's own value.
fn own_attribute(ground: &Ground<'_>, operation: &Operation, sought: Sought) -> Option<AttrVar>
    requires there { slice_get ground.now.interface.now.operations ground.now.op ≡ Some operation.now }
    ensures own { sought.node ≡ 0 → result
        ≡ home_attribute operation.now sought.kind (named_roots ground.now.interface.now.types ground.now.side operation.now) sought.home }
    ensures none { (sought.node ≡ 0
        → home_attribute operation.now sought.kind (named_roots ground.now.interface.now.types ground.now.side operation.now) sought.home ≡ None)
        → result ≡ None }
{
    if sought.node != 0 {
        return None;
    }
    match sought.home {
        Home::Root(at) => {
            let root = root_at(ground.interface, ground.op, ground.side, at);
            root_attribute(operation, root, sought.kind)
        }
        Home::Cell(_) => None,
    }
}

// The attribute of a root that speaks of an item of this kind.
fn root_attribute(
    operation: &Operation,
    root: Option<RootDef<'_>>,
    kind: ItemKind,
) -> Option<AttrVar>
    ensures { result ≡ by_root operation.now kind (option_map root_value root.entry) }
{
    match root {
        Some(root) => number_attribute(operation, root.param, kind),
        None => None,
    }
}

// The same of a root by its parameter, if it is one.
fn number_attribute(operation: &Operation, param: Option<u32>, kind: ItemKind) -> Option<AttrVar>
    ensures { result ≡ by_number operation.now kind param }
{
    match param {
        Some(at) => param_attribute(operation, at, kind),
        None => None,
    }
}

// The same of a parameter.
fn param_attribute(operation: &Operation, at: u32, kind: ItemKind) -> Option<AttrVar>
    ensures { result ≡ by_param kind (slice_get operation.now.params at) }
{
    match operation.params.get(at as usize) {
        Some(param) => attribute(&param.field.vars, kind),
        None => None,
    }
}

// The name of the variable of an attribute.
fn parameter_name(alloc: Global, operation: &Operation, by: AttrVar) -> Result<Octets, Memory>
    ensures { IfOk result (λ name. name ≡ name_of_param (slice_get operation.now.params by.var)) }
{
    match operation.params.get(by.var as usize) {
        Some(variable) => Octets::copy(alloc, variable.field.name.as_slice()),
        None => Ok(Octets::new(alloc)),
    }
}

// The path of a variable that states the number of what is no parameter's own value.
fn other_path(
    ground: &Ground<'_>,
    operation: &Operation,
    search: &Search<'_>,
    sought: Sought,
    kept: &[u8],
    from: &Option<PointerSpot>,
) -> Result<Octets, Memory>
    requires there { slice_get ground.now.interface.now.operations ground.now.op ≡ Some operation.now }
    ensures kept { IfOk result (λ path. (kept.now ≡ [] → ⊥) → path ≡ kept.now) }
    ensures pointed { IfOk result (λ path. kept.now ≡ [] → (f : PointerSpotValue) → from.now ≡ Some f → f.node ≡ 0 → (by : AttrVarValue)
        → home_attribute operation.now sought.kind (named_roots ground.now.interface.now.types ground.now.side operation.now) f.home ≡ Some by
        → path ≡ name_of_param (slice_get operation.now.params by.var)) }
    ensures beside { IfOk result (λ path. kept.now ≡ [] → (f : PointerSpotValue) → from.now ≡ Some f → (f.node ≡ 0 → ⊥) → (f.variable ≡ [] → ⊥)
        → path ≡ f.variable) }
{
    if kept.len() > 0 {
        let path = Octets::copy(ground.alloc, kept)?;
        return Ok(path);
    }
    if let Some(by) = pointer_attribute(ground, operation, sought, from) {
        let name = parameter_name(ground.alloc, operation, by)?;
        return Ok(name);
    }
    let stated = pointed_path(from);
    if stated.len() > 0 {
        let path = Octets::copy(ground.alloc, stated)?;
        return Ok(path);
    }
    let mut path = Octets::new(ground.alloc);
    append_variable(ground, search, sought, &mut path)?;
    Ok(path)
}

// The attribute that speaks of what is sought, if that is the referent of a parameter that is a pointer.
fn pointer_attribute(
    ground: &Ground<'_>,
    operation: &Operation,
    sought: Sought,
    from: &Option<PointerSpot>,
) -> Option<AttrVar>
    requires there { slice_get ground.now.interface.now.operations ground.now.op ≡ Some operation.now }
    ensures own { (f : PointerSpotValue) → from.now ≡ Some f → f.node ≡ 0 → result
        ≡ home_attribute operation.now sought.kind (named_roots ground.now.interface.now.types ground.now.side operation.now) f.home }
    ensures none { (f : PointerSpotValue) → from.now ≡ Some f → (f.node ≡ 0 → ⊥) → result ≡ None }
{
    let Some(pointer) = from else {
        return None;
    };
    let subject = Sought {
        home: pointer.home,
        node: pointer.node,
        ..sought
    };
    own_attribute(ground, operation, subject)
}

// Adds the path of the variable that states the number.
fn append_variable(
    ground: &Ground<'_>,
    search: &Search<'_>,
    sought: Sought,
    text: &mut Octets,
) -> Result<(), Memory> {
    for stated in search.stated.as_slice() {
        if stated.wanted == sought.wanted {
            return text.append(stated.variable.as_slice());
        }
    }
    append_parameter(ground, search, sought, text)
}

// Adds the name of the parameter that states the number in the cell that another names.
fn append_parameter(
    ground: &Ground<'_>,
    search: &Search<'_>,
    sought: Sought,
    text: &mut Octets,
) -> Result<(), Memory> {
    let Some(operation) = ground.interface.operations.get(ground.op as usize) else {
        return Ok(());
    };
    for root in search.roots.as_slice() {
        if is_subject(*root, sought)
            && let Some(param) = root.param
            && let Some(by) = param_attribute(operation, param, sought.kind)
            && states(ground, search, by, sought)
            && let Some(variable) = operation.params.get(by.var as usize)
        {
            return text.append(variable.field.name.as_slice());
        }
    }
    Ok(())
}

// Whether a variable states the number.
fn states(ground: &Ground<'_>, search: &Search<'_>, by: AttrVar, sought: Sought) -> bool {
    match value(ground, search, by) {
        Some(value) => stated_by(by.attr, value) == sought.wanted,
        None => false,
    }
}

// The value of a variable.
fn value(ground: &Ground<'_>, search: &Search<'_>, by: AttrVar) -> Option<i128> {
    for root in search.roots.as_slice() {
        if root.param == Some(by.var) {
            return root_value(search, *root, by.star);
        }
    }
    given_value(ground, by)
}

// The number that a root is, or with a star that in the cell that it names.
fn root_value(search: &Search<'_>, root: RootSeen, star: bool) -> Option<i128> {
    if !star {
        return root.number;
    }
    let Some(cell) = root.cell else {
        return None;
    };
    match search.cell_numbers.get((cell.0 as usize).saturating_sub(1)) {
        Some(number) => *number,
        None => None,
    }
}

// The value of a variable that travels in the request alone.
fn given_value(ground: &Ground<'_>, by: AttrVar) -> Option<i128> {
    let Some(fit) = ground.given else {
        return None;
    };
    let Some(_operation) = ground.interface.operations.get(ground.op as usize) else {
        return None;
    };
    let mut at = 0;
    for root in ground.interface.params(ground.op, Side::In) {
        if root.param == Some(by.var) {
            return number_in(fit.flat(), at, by.star);
        }
        at = at.saturating_add(1);
    }
    None
}

// Whether the cell that a root names is what is sought.
fn is_subject(root: RootSeen, sought: Sought) -> bool {
    match sought.home {
        Home::Root(_) => false,
        Home::Cell(cell) => root.cell == Some(cell),
    }
}

// The number that a root of a request is, or with a star that in the cell that it names.
fn number_in(graph: &FlatGraph, root: usize, star: bool) -> Option<i128> {
    if root >= graph.root_count() {
        return None;
    }
    let first = first_of(graph.root_walk(root));
    if !star {
        return first.0;
    }
    let Some(cell) = first.1 else {
        return None;
    };
    let at = (cell.0 as usize).saturating_sub(1);
    if at >= graph.cell_count() {
        return None;
    }
    first_of(graph.cell_walk(at)).0
}

// The number that the value of a walk is, and the cell that it names.
fn first_of(walk: Walk<'_>) -> (Option<i128>, Option<CellId>) {
    let mut walk = walk;
    match walk.step() {
        Some(seen) => (number_of(&seen), seen.named_cell()),
        None => (None, None),
    }
}
