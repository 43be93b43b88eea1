// The parts of nodes by their numbers.
ghost use Rattle.std.specs.Prelude.{◌≡◌, ◌≤◌, ◌<◌, suc, true, false, length, IfSome, IfNone};
ghost use Rattle.std.specs.List.{slice_get};
ghost use Rattle.library_nodes.specs.Parts.{IsAfter, part_count, has_part};

use crate::node::Node;
use crate::nodes::Nodes;

impl Node {
    /// How many parts of the node are nodes: members, elements that are no numbers, the value of an arm. Takes no memory.
    pub fn part_count(&self) -> u32
        ensures { result ≡ part_count self.now }
    {
        match self {
            Node::Struct(count) => *count,
            Node::Array { elements, .. } | Node::Pipe(elements) => {
                elements.count.saturating_sub(elements.numbers)
            }
            Node::Union { armed, .. } => u32::from(*armed),
            Node::Number(_) | Node::Text { .. } | Node::Pointer(_) | Node::Context { .. } => 0,
        }
    }
}

impl Nodes {
    /// The number of the node after one and all its parts, if there is such a node. The time is in proportion to the nodes between. Takes no memory.
    pub fn after(&self, node: usize) -> Option<usize>
        ensures some { IfSome result (IsAfter self.now.list.nodes.items node 1) }
        ensures there { IfSome result (λ _. node < length self.now.list.nodes.items) }
        ensures none { IfNone result (length self.now.list.nodes.items ≤ node) }
    {
        let nodes = self.list.nodes.as_slice();
        if node < nodes.len() {
            Some(skip(nodes, node, 1))
        } else {
            None
        }
    }

    /// The number of a part of a node, if there is one of that index, from 0. The time is in proportion to the nodes between. Takes no memory.
    pub fn part(&self, node: usize, index: usize) -> Option<usize>
        ensures some { IfSome result (IsAfter self.now.list.nodes.items (suc node) index) }
        ensures there { IfSome result (λ _. has_part (slice_get self.now.list.nodes.items node) index ≡ true) }
        ensures none { IfNone result (has_part (slice_get self.now.list.nodes.items node) index ≡ false) }
    {
        part_of(self.list.nodes.as_slice(), node, index)
    }
}

// The number of a part of a node.
fn part_of(nodes: &[Node], node: usize, index: usize) -> Option<usize>
    ensures some { IfSome result (IsAfter nodes.now (suc node) index) }
    ensures there { IfSome result (λ _. has_part (slice_get nodes.now node) index ≡ true) }
    ensures none { IfNone result (has_part (slice_get nodes.now node) index ≡ false) }
{
    let whole = nodes.get(node)?;
    if index < whole.part_count() as usize {
        Some(skip(nodes, node + 1, index as u32))
    } else {
        None
    }
}

// The number of the node after so many values, the first of which begins with a node.
fn skip(nodes: &[Node], from: usize, many: u32) -> usize
    requires { from ≤ length nodes.now }
    ensures { IsAfter nodes.now from many result }
{
    let mut at = from;
    let mut due = u128::from(many);
    while due > 0 && at < nodes.len() {
        due = due - 1 + u128::from(nodes[at].part_count());
        at += 1;
    }
    at
}
