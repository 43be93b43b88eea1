// What nodes have in the lists of numbers and of octets.
ghost use Rattle.std.specs.Prelude.{◌≡◌, take, drop, option_map};
ghost use Rattle.std.specs.List.{slice_get};
ghost use Rattle.library_nodes.specs.Contents.{numbers_of, octets_of};

use crate::node::Node;
use crate::nodes::{NodeList, Nodes};

impl Nodes {
    /// The elements of an array or a pipe that are in the list of numbers, each by its low 64 bits. None for another node, or where there is none of
    /// that number. Takes no memory.
    pub fn numbers_of(&self, node: usize) -> Option<&[u64]>
        ensures { option_map (λ s. s.now) result ≡ numbers_of self.now.list (slice_get self.now.list.nodes.items node) }
    {
        numbers_in(&self.list, node)
    }

    /// The octets of a string, or of the identifier of a context handle. None for another node, or where there is no node of that number. Takes no
    /// memory.
    pub fn octets_of(&self, node: usize) -> Option<&[u8]>
        ensures { option_map (λ s. s.now) result ≡ octets_of self.now.list (slice_get self.now.list.nodes.items node) }
    {
        octets_in(&self.list, node)
    }
}

// The elements of a node that are in the list of numbers.
fn numbers_in(list: &NodeList, node: usize) -> Option<&[u64]>
    ensures { option_map (λ s. s.now) result ≡ numbers_of list.now (slice_get list.now.nodes.items node) }
{
    match list.nodes.as_slice().get(node) {
        Some(Node::Array { elements, .. } | Node::Pipe(elements)) => Some(numbers_at(
            list.numbers.as_slice(),
            elements.from,
            elements.numbers as usize,
        )),
        _ => None,
    }
}

// The octets of a node.
fn octets_in(list: &NodeList, node: usize) -> Option<&[u8]>
    ensures { option_map (λ s. s.now) result ≡ octets_of list.now (slice_get list.now.nodes.items node) }
{
    match list.nodes.as_slice().get(node) {
        Some(Node::Text { from, len, .. }) => {
            Some(octets_at(list.octets.as_slice(), *from, *len))
        }
        Some(Node::Context { id, .. }) => Some(id.as_bytes()),
        _ => None,
    }
}

// So many numbers from a place on, or those that there are.
fn numbers_at(numbers: &[u64], from: usize, len: usize) -> &[u64]
    ensures { result.now ≡ take len (drop from numbers.now) }
{
    let rest = &numbers[from.min(numbers.len())..];
    &rest[..len.min(rest.len())]
}

// So many octets from a place on, or those that there are.
fn octets_at(octets: &[u8], from: usize, len: usize) -> &[u8]
    ensures { result.now ≡ take len (drop from octets.now) }
{
    let rest = &octets[from.min(octets.len())..];
    &rest[..len.min(rest.len())]
}
