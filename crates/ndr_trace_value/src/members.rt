// The members of structs and what their attributes state, where an agreement is sought.
ghost use Rattle.std.specs.Prelude.{◌≡◌, ◌<◌, ◌≤◌, length, IfOk, IsErrOf, IsSome};
ghost use Rattle.ndr_trace_value.specs.declared.progress.Halt.TheVariants as halts;

use crate::counted::{append_numbered, struct_path};
use crate::nodes::Walker;
use crate::parameters::seen_home;
use crate::progress::{Ground, Halt, Progress, Spot};
use crate::search::{Search, Sought, Stated, attribute, stated_by};
use nd_base::{Memory, Octets};
use nd_flat::Seen;
use nd_types::{AttrVar, Fields};
use nd_value::{Home, ItemKind};
use ndr_explain::Level;
use std::alloc::Global;

/// A struct that is open, by how many levels are around its members, with the numbers of its members.
#[derive(Drop)]
pub struct Open<'a> {
    pub depth: usize,
    pub members: &'a Fields,
    pub numbers: Vec<Option<i128>>,
    /// The path of the struct.
    pub path: Octets,
    /// The members that are pointers to the cell that is sought.
    pub pointers: Vec<usize>,
}

/// Notes that a node is reached: a struct begins with its first member. Where an agreement is sought, the walk ends here if no item is left.
pub fn reach<'a>(
    ground: &Ground<'a>,
    walker: &mut Walker<'a>,
    spot: &Spot<'_, 'a>,
) -> Result<(), Halt>
    ensures same { (walker.new.progress ≡ walker.old.progress) × (walker.new.cells ≡ walker.old.cells) }
    ensures ready { IfOk result (λ _. IsSome ground.now.sought → walker.old.progress.next < length ground.now.items.now.items) }
    ensures ends { IsErrOf result halts.Here → IsSome ground.now.sought × (length ground.now.items.now.items ≤ walker.old.progress.next) }
{
    at_end(ground, &walker.progress)?;
    note_reached(ground, &mut walker.search, spot)?;
    Ok(())
}

/// Where an agreement is sought, ends the walk if no item is left.
pub fn at_end(ground: &Ground<'_>, progress: &Progress) -> Result<(), Halt>
    ensures ready { IfOk result (λ _. IsSome ground.now.sought → progress.now.next < length ground.now.items.now.items) }
    ensures ends { IsErrOf result halts.Here → IsSome ground.now.sought × (length ground.now.items.now.items ≤ progress.now.next) }
{
    if ground.sought.is_none() {
        return Ok(());
    }
    if progress.next >= ground.items.len() {
        return Err(Halt::Here);
    }
    Ok(())
}

// Notes that a node is reached.
fn note_reached<'a>(
    ground: &Ground<'a>,
    search: &mut Search<'a>,
    spot: &Spot<'_, 'a>,
) -> Result<(), Memory> {
    if ground.sought.is_none() {
        return Ok(());
    }
    match spot.top {
        Level::Members { members, at } => reach_member(ground, search, members, at, spot),
        _ => close(ground, search, spot.below.len()),
    }
}

// Notes that a member is reached.
fn reach_member<'a>(
    ground: &Ground<'a>,
    search: &mut Search<'a>,
    members: &'a Fields,
    at: usize,
    spot: &Spot<'_, 'a>,
) -> Result<(), Memory> {
    let depth = spot.below.len();
    if at > 0 {
        return close(ground, search, depth + 1);
    }
    close(ground, search, depth)?;
    let open = Open {
        depth,
        members,
        numbers: Vec::new(ground.alloc),
        path: struct_path(ground.alloc, spot)?,
        pointers: Vec::new(ground.alloc),
    };
    let Ok(()) = search.open.push(open) else {
        return Err(Memory);
    };
    Ok(())
}

/// Notes what a node says.
pub fn seen_node<'a>(
    ground: &Ground<'a>,
    walker: &mut Walker<'a>,
    spot: &Spot<'_, 'a>,
    seen: &Seen<'_>,
) -> Result<(), Memory>
    ensures same { (walker.new.progress ≡ walker.old.progress) × (walker.new.cells ≡ walker.old.cells) }
{
    note_seen(ground, &mut walker.search, spot, seen)
}

// The same where an agreement is sought.
fn note_seen<'a>(
    ground: &Ground<'a>,
    search: &mut Search<'a>,
    spot: &Spot<'_, 'a>,
    seen: &Seen<'_>,
) -> Result<(), Memory> {
    let Some(sought) = ground.sought else {
        return Ok(());
    };
    if is_own(spot) {
        seen_home(search, spot.home, seen)?;
    }
    if let Level::Members { at, .. } = spot.top {
        seen_member(search, sought, at, seen)?;
    }
    Ok(())
}

// Whether a node is a home's own value.
fn is_own(spot: &Spot<'_, '_>) -> bool {
    match spot.top {
        Level::Whole { .. } => spot.below.is_empty(),
        _ => false,
    }
}

// Notes what a member says.
fn seen_member(
    search: &mut Search<'_>,
    sought: Sought,
    at: usize,
    seen: &Seen<'_>,
) -> Result<(), Memory> {
    let Some(open) = search.open.last_mut() else {
        return Ok(());
    };
    let Ok(()) = open.numbers.push(number_of(seen)) else {
        return Err(Memory);
    };
    if names_sought(sought, seen) {
        let Ok(()) = open.pointers.push(at) else {
            return Err(Memory);
        };
    }
    Ok(())
}

// Whether a pointer names the cell that is sought.
fn names_sought(sought: Sought, seen: &Seen<'_>) -> bool {
    match (seen.named_cell(), sought.home) {
        (Some(cell), Home::Cell(other)) => cell == other && sought.node == 0,
        _ => false,
    }
}

// Keeps what a variable states.
fn state(search: &mut Search<'_>, wanted: i128, variable: Octets) -> Result<(), Memory> {
    let Ok(()) = search.stated.push(Stated { wanted, variable }) else {
        return Err(Memory);
    };
    Ok(())
}

/// Closes the structs around whose members there are so many levels or more.
pub fn close<'a>(ground: &Ground<'a>, search: &mut Search<'a>, depth: usize) -> Result<(), Memory> {
    for _struct in 0..search.open.len() {
        let Some(open) = search.open.pop() else {
            return Ok(());
        };
        if open.depth < depth {
            let Ok(()) = search.open.push(open) else {
                return Err(Memory);
            };
            return Ok(());
        }
        close_struct(ground, search, &open)?;
    }
    Ok(())
}

// Keeps what a struct's variables state of the cell that is sought.
fn close_struct<'a>(
    ground: &Ground<'a>,
    search: &mut Search<'a>,
    open: &Open<'a>,
) -> Result<(), Memory> {
    let Some(sought) = ground.sought else {
        return Ok(());
    };
    for at in open.pointers.as_slice() {
        close_pointer(ground.alloc, search, sought, open, *at)?;
    }
    Ok(())
}

// Keeps what a variable states by a member that is a pointer to the cell that is sought.
fn close_pointer(
    alloc: Global,
    search: &mut Search<'_>,
    sought: Sought,
    open: &Open<'_>,
    at: usize,
) -> Result<(), Memory> {
    let Some(by) = member_attribute(open.members, at, sought.kind) else {
        return Ok(());
    };
    let Some(Some(value)) = open.numbers.get(by.var as usize).copied() else {
        return Ok(());
    };
    let mut path = Octets::copy(alloc, open.path.as_slice())?;
    append_numbered(&mut path, open.members, by.var)?;
    state(search, stated_by(by.attr, value), path)
}

// The attribute of a member that speaks of an item of this kind.
fn member_attribute(members: &Fields, at: usize, kind: ItemKind) -> Option<AttrVar> {
    match members.get(at) {
        Some(member) => attribute(&member.vars, kind),
        None => None,
    }
}

/// The number that a node is, if it is one.
pub fn number_of(seen: &Seen<'_>) -> Option<i128> {
    match seen {
        Seen::Num(value) => Some(*value),
        _ => None,
    }
}
