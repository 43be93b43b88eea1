// Where the pointers are that name cells.
ghost use Rattle.std.specs.Prelude.{◌≡◌, ◌<◌, ◌∷◌, [], ℕ, List, length, IfOk, Some};
ghost use Rattle.nd_grammar.specs.Entry.{Entry};
ghost use Rattle.ndr_trace_value.specs.declared.pointers.PointerSpot.{PointerSpot as PointerSpotValue};
ghost use Rattle.ndr_trace_value.specs.Naming.{only_spot};
ghost use Rattle.ndr_trace_value.specs.Tracing.{IsGround, IsItem, IsSpot, IsTracing, Known, pointer_variable};

use crate::counted::variable_beside;
use crate::progress::{Ground, Progress, Spot};
use nd_base::{Memory, Octets};
use nd_types::Class;
use nd_value::Home;
use std::alloc::Global;

/// Where a pointer is, and the variable by which it states what is sought.
#[derive(Drop)]
pub struct PointerSpot {
    pub home: Home,
    pub node: u32,
    /// The path of the variable of its attribute that speaks of what is sought, if it is a member of a struct and has one; else it is empty.
    pub variable: Octets,
}

/// Where the pointer is that names a cell, unless it is full: other pointers may name its cell too.
pub fn only_pointer(
    ground: &Ground<'_>,
    class: Class,
    node: u32,
    spot: &Spot<'_, '_>,
) -> Result<Option<PointerSpot>, Memory>
    ensures { (k : Known) → IsGround k ground.now → IsSpot k spot.now node → IfOk result (λ at. at ≡ only_spot k class spot.now.home node) }
{
    match class {
        Class::Ref => {
            let at = pointer_spot(ground, node, spot)?;
            Ok(Some(at))
        }
        Class::Unique => {
            let at = pointer_spot(ground, node, spot)?;
            Ok(Some(at))
        }
        Class::Full => Ok(None),
    }
}

// Where a pointer is, and its variable.
fn pointer_spot(ground: &Ground<'_>, node: u32, spot: &Spot<'_, '_>) -> Result<PointerSpot, Memory>
    ensures home { IfOk result (λ at. at.home ≡ spot.now.home) }
    ensures node { IfOk result (λ at. at.node ≡ node) }
    ensures variable { (k : Known) → IsGround k ground.now → (n : ℕ) → IsSpot k spot.now n
        → IfOk result (λ at. at.variable ≡ pointer_variable k spot.now.home n) }
{
    let variable = its_variable(ground, spot)?;
    Ok(PointerSpot {
        home: spot.home,
        node,
        variable,
    })
}

// The path of the variable of a pointer's attribute that speaks of what is sought.
fn its_variable(ground: &Ground<'_>, spot: &Spot<'_, '_>) -> Result<Octets, Memory>
    ensures { (k : Known) → IsGround k ground.now → (n : ℕ) → IsSpot k spot.now n → IfOk result (λ path. path ≡ pointer_variable k spot.now.home n) }
{
    let Some(sought) = ground.sought else {
        return Ok(Octets::new(ground.alloc));
    };
    let path = variable_beside(ground.alloc, sought.kind, spot)?;
    Ok(path)
}

/// The place of a pointer once more.
pub fn copy_spot(alloc: Global, at: &Option<PointerSpot>) -> Result<Option<PointerSpot>, Memory>
    ensures { IfOk result (λ copy. copy ≡ at.now) }
{
    let Some(at) = at else {
        return Ok(None);
    };
    let variable = Octets::copy(alloc, at.variable.as_slice())?;
    Ok(Some(PointerSpot {
        home: at.home,
        node: at.node,
        variable,
    }))
}

/// The path of the variable of a pointer's attribute, empty if there is none.
pub fn pointed_path(at: &Option<PointerSpot>) -> &[u8]
    ensures { (f : PointerSpotValue) → at.now ≡ Some f → result.now ≡ f.variable }
{
    match at {
        Some(at) => at.variable.as_slice(),
        None => &[],
    }
}

/// The node of the next item, 0 if none is left.
pub fn next_node(ground: &Ground<'_>, progress: &Progress) -> u32
    ensures { (k : Known) → IsGround k ground.now → (m : Entry) → IsItem m.kind → (rest : List Entry) → IsTracing k progress.now (m ∷ rest)
        → progress.now.next < length k.log → result ≡ m.node }
{
    match ground.items.get(progress.next) {
        Some(item) => item.node,
        None => 0,
    }
}
