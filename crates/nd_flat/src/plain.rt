// Walks over nodes that are kept one by one.
ghost use Rattle.std.specs.Prelude.{◌≡◌, ◌<◌, ◌++◌, ℕ, List, [], ◌∷◌, length, IfSome, IfNone};
ghost use Rattle.nd_value.specs.Tree as tree;
ghost use Rattle.nd_value.specs.Tree.{flat, unflat};
ghost use Rattle.nd_value.specs.Seen.{cell_number};
ghost use Rattle.nd_value.specs.Canon.{target};
ghost use Rattle.nd_value.specs.Names.{cells_in};
ghost use Rattle.nd_flat.specs.FlatForm.{seen_nodes, left_flats, num_flat, no_row, HasOctets, WalkParts};
ghost use Rattle.nd_flat.specs.Records.{no_records};

use crate::Walk;
use crate::node::Node;
use nd_value::CellId;
use std::marker::Model;

/// A walk over the nodes of values, depth first, that gives structs, numbers, pointers and strings as they are kept one by one. Where anything else
/// comes it does not move, and `walk` goes on. It has no state but the nodes that are left, so that short values are walked over fast. Contracts see
/// the values that are left, as those of a walk do. It takes no memory.
#[derive(Drop)]
pub struct PlainWalk<'a> {
    nodes: &'a [Node],
    octets: &'a [u8],
}

impl<'a> Model for PlainWalk<'a> {
    ghost use Rattle.nd_value.specs.Tree.{Trees, unflat};
    ghost use Rattle.nd_flat.specs.Forest.{forest_code, IsForest};

    ghost Value = { Trees };

    ghost coded = { forest_code };

    ghost use Rattle.nd_flat.specs.FlatForm.{left_flats, no_row, WalkParts};
    ghost use Rattle.nd_flat.specs.Records.{no_records};

    ghost view = { λ w. unflat (left_flats w.octets.now no_row no_records w.nodes.now) };

    ghost invariant = { λ w. WalkParts w.octets.now no_row no_records w.nodes.now };
}

impl<'a> PlainWalk<'a> {
    #[inline(always)]
    pub(crate) fn over(nodes: &'a [Node], octets: &'a [u8]) -> PlainWalk<'a>
        requires { WalkParts octets.now no_row no_records nodes.now }
        ensures { result ≡ unflat (left_flats octets.now no_row no_records nodes.now) }
    {
        PlainWalk { nodes, octets }
    }

    /// The number of members of a struct, where it comes next as a node of its own. None says nothing of what comes next, and the walk has not moved.
    /// Takes no memory.
    #[inline(always)]
    pub fn members(&mut self) -> Option<u32>
        ensures some { IfSome result (λ k. flat self.old ≡ (tree.Rec, k) ∷ flat self.new) }
        ensures none { IfNone result (self.new ≡ self.old) }
    {
        let (first, rest) = self.nodes.split_first()?;
        let members = members_in(first)?;
        self.nodes = rest;
        Some(members)
    }

    /// The next number, where one comes next as a node of its own. None says nothing of what comes next, and the walk has not moved. Takes no memory.
    #[inline(always)]
    pub fn number(&mut self) -> Option<i128>
        ensures some { IfSome result (λ z. flat self.old ≡ num_flat z ∷ flat self.new) }
        ensures none { IfNone result (self.new ≡ self.old) }
    {
        let (first, rest) = self.nodes.split_first()?;
        let number = number_in(first)?;
        self.nodes = rest;
        Some(number)
    }

    /// What the next node names, where it is a pointer. None says nothing of what comes next, and the walk has not moved. Takes no memory.
    #[inline(always)]
    pub fn pointer(&mut self) -> Option<Option<CellId>>
        ensures some { IfSome result (λ c. flat self.old ≡ (tree.Ptr (cell_number c), 0) ∷ flat self.new) }
        ensures none { IfNone result (self.new ≡ self.old) }
    {
        let (first, rest) = self.nodes.split_first()?;
        let pointer = pointer_in(first)?;
        self.nodes = rest;
        Some(pointer)
    }

    /// The maximum count and the octets of the next string, where one comes next. None says nothing of what comes next, and the walk has not moved.
    /// Takes no memory.
    #[inline(always)]
    pub fn text(&mut self) -> Option<(u32, &'a [u8])>
        ensures some { IfSome result (λ t. flat self.old ≡ (tree.Text t.0 t.1.now, 0) ∷ flat self.new) }
        ensures none { IfNone result (self.new ≡ self.old) }
    {
        let (first, rest) = self.nodes.split_first()?;
        let text = text_in(first, self.octets)?;
        self.nodes = rest;
        Some(text)
    }

    /// The cell that the next node names, and `Some(None)` where that node names none, if a struct, a number or a pointer comes next as a node of its
    /// own. None says nothing of what comes next, and the walk has not moved. Takes no memory.
    #[inline]
    pub fn next_cell(&mut self) -> Option<Option<CellId>>
        ensures some { IfSome result (λ c. cells_in self.old ≡ target (cell_number c) ++ cells_in self.new) }
        ensures less { IfSome result (λ c. length (flat self.new) < length (flat self.old)) }
        ensures none { IfNone result (self.new ≡ self.old) }
    {
        if let Some(cell) = self.pointer() {
            return Some(cell);
        }
        if let Some(_members) = self.members() {
            return Some(None);
        }
        if let Some(_number) = self.number() {
            return Some(None);
        }
        None
    }

    /// A walk over what is left. Takes no memory.
    pub fn walk(self) -> Walk<'a>
        ensures { result ≡ self.entry }
    {
        Walk::over(self.nodes, self.octets)
    }
}

// The number of members of a node that is a struct kept by itself.
#[inline(always)]
fn members_in(node: &Node) -> Option<u32>
    ensures { IfSome result (λ k. (os : List ℕ) → seen_nodes os node.now ≡ (tree.Rec, k) ∷ []) }
{
    match node {
        Node::Rec(count) => Some(*count),
        _ => None,
    }
}

// The number that a node is.
#[inline(always)]
fn number_in(node: &Node) -> Option<i128>
    ensures { IfSome result (λ z. (os : List ℕ) → seen_nodes os node.now ≡ num_flat z ∷ []) }
{
    match node {
        Node::Num(number) => Some(i128::from(*number)),
        Node::Negative(number) => Some(-1 - i128::from(*number)),
        _ => None,
    }
}

// What a node that is a pointer names.
#[inline(always)]
fn pointer_in(node: &Node) -> Option<Option<CellId>>
    ensures { IfSome result (λ c. (os : List ℕ) → seen_nodes os node.now ≡ (tree.Ptr (cell_number c), 0) ∷ []) }
{
    match node {
        Node::Ptr(cell) => Some(Some(*cell)),
        Node::Null => Some(None),
        _ => None,
    }
}

// The maximum count and the octets of a node that is a string.
#[inline(always)]
fn text_in<'a>(node: &'a Node, octets: &'a [u8]) -> Option<(u32, &'a [u8])>
    requires within { HasOctets octets.now node.now }
    ensures { IfSome result (λ t. seen_nodes octets.now node.now ≡ (tree.Text t.0 t.1.now, 0) ∷ []) }
{
    match node {
        Node::Text { max, len, from } => {
            let to = *from + *len as usize;
            Some((*max, &octets[*from..to]))
        }
        Node::ShortText {
            max,
            len,
            octets: short,
        } => Some((*max, &short[..*len as usize])),
        _ => None,
    }
}
