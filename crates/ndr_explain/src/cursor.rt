// A cursor over the nodes of a home.
ghost use Rattle.std.specs.Prelude.{◌≡◌, ◌<◌, ◌≤◌, ◌+◌, ◌-◌, ◌^◌, ◌∷◌, [], ℕ, List, OnOk, IfOk, IfSome, IfNone, reverse};
ghost use Rattle.nd_types.specs.Table.{Table};
ghost use Rattle.nd_value.specs.Tree.{Flat, Tree, more, none, flat};
ghost use Rattle.nd_flat.specs.FlatForm.{flat_seen};
ghost use Rattle.text_grammar.specs.Paths.{node_paths};
ghost use Rattle.text_printer.specs.Walks.{Begins};
ghost use Rattle.ndr_explain.specs.Cursors.{path_to, IsAt, Reaches};

use crate::levels::{Level, Levels, append_steps, children, next_levels, type_of};
use nd_base::{Memory, Octets};
use nd_flat::{Seen, Walk};
use nd_types::{TypeId, Types};
use std::alloc::Global;

/// A node of a home, with the levels around it and the walk over the nodes after it.
#[derive(Drop)]
pub(crate) struct Cursor<'a> {
    /// The number of the node, counted depth first from 0.
    pub(crate) node: u32,
    pub(crate) seen: Seen<'a>,
    pub(crate) top: Level<'a>,
    pub(crate) below: Vec<Level<'a>>,
    pub(crate) walk: Walk<'a>,
}

/// A cursor at the first node of a home of this type. It allocates nothing.
pub(crate) fn begin<'a>(alloc: Global, of: TypeId, walk: Walk<'a>) -> Option<Cursor<'a>>
    ensures is { (table : Table) (name : List ℕ) (v : Tree) → walk.entry ≡ more v none → Begins table (of.0 ∷ []) (more v none)
        → Reaches table name ((0, name) ∷ node_paths table (of.0 ∷ []) (name ∷ []) 0 (more v none)) (flat (more v none)) 0 result }
    ensures first { IfSome result (λ c. c.node ≡ 0) }
{
    let mut walk = walk;
    let Some(seen) = walk.step() else {
        return None;
    };
    Some(Cursor {
        node: 0,
        seen,
        top: Level::Whole { of },
        below: Vec::new(alloc),
        walk,
    })
}

/// A cursor at the next node, or None after the last.
fn advance<'a>(types: &'a Types, cursor: Cursor<'a>) -> Result<Option<Cursor<'a>>, Memory>
    requires { cursor.node < 2 ^ 32 - 1 }
    ensures next { IfOk result (λ r. IfSome r (λ c. c.node ≡ cursor.entry.node + 1)) }
    ensures is { (name : List ℕ) (paths : List (ℕ × List ℕ)) (flats : List Flat) → IsAt types.now name paths flats cursor.entry
        → IfOk result (Reaches types.now name paths flats (cursor.entry.node + 1)) }
{
    let Cursor {
        node,
        seen,
        top,
        below,
        walk,
    } = cursor;
    let inner = children(types, type_of(top), &seen);
    let Some(levels) = next_levels(inner, top, below)? else {
        return Ok(None);
    };
    Ok(next_node(node, levels, walk))
}

// A cursor at the next node of a walk.
fn next_node<'a>(node: u32, levels: Levels<'a>, walk: Walk<'a>) -> Option<Cursor<'a>>
    requires { node < 2 ^ 32 - 1 }
    ensures some { IfSome result (λ c. flat walk.entry ≡ flat_seen c.seen ∷ flat c.walk) }
    ensures levels { IfSome result (λ c. (c.top ≡ levels.entry.top) × (c.below ≡ levels.entry.below)) }
    ensures node { IfSome result (λ c. c.node ≡ node + 1) }
    ensures none { IfNone result (walk.entry ≡ none) }
{
    let mut walk = walk;
    let Some(seen) = walk.step() else {
        return None;
    };
    Some(Cursor {
        node: node + 1,
        seen,
        top: levels.top,
        below: levels.below,
        walk,
    })
}

/// A cursor at the node of this number, or None where there is no such node.
pub(crate) fn reach<'a>(
    types: &'a Types,
    cursor: Cursor<'a>,
    node: u32,
) -> Result<Option<Cursor<'a>>, Memory>
    requires { cursor.node ≤ node }
    ensures { (name : List ℕ) (paths : List (ℕ × List ℕ)) (flats : List Flat) → IsAt types.now name paths flats cursor.entry
        → IfOk result (Reaches types.now name paths flats node) }
{
    let mut cursor = cursor;
    while cursor.node < node {
        let Some(next) = advance(types, cursor)? else {
            return Ok(None);
        };
        cursor = next;
    }
    Ok(Some(cursor))
}

/// Adds the path of the node to the name of its home.
pub(crate) fn append_path(text: &mut Octets, cursor: &Cursor<'_>) -> Result<(), Memory>
    ensures { OnOk result (text.new ≡ path_to text.old (cursor.now.top ∷ reverse cursor.now.below.items)) }
{
    append_steps(text, cursor.top, &cursor.below)?;
    Ok(())
}
