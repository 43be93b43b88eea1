// What is left of a listing while values are read from it.
ghost use Rattle.std.specs.Prelude.{◌≡◌, ◌≤◌, ◌<◌, suc, [], length, take, drop, true, false, IfSome, IfNone};
ghost use Rattle.library_nodes.specs.Left.{left, with_node};
ghost use Rattle.library_nodes.specs.declared.stop.Stop.TheVariants as stop;

use crate::Description;
use crate::stop::Stop;
use std::marker::Model;

/// What is left of a listing while values are read from it.
#[derive(Drop)]
pub(crate) struct Reader<'a> {
    nodes: &'a [Description],
    numbers: &'a [u64],
    octets: &'a [u8],
}

impl<'a> Model for Reader<'a> {
    ghost use Rattle.library_nodes.specs.Left.{Left, left};

    ghost Value = { Left };

    ghost view = { λ r. left r.nodes.now r.numbers.now r.octets.now };
}

impl<'a> Reader<'a> {
    // All of these.
    pub(crate) fn of(nodes: &'a [Description], numbers: &'a [u64], octets: &'a [u8]) -> Reader<'a>
        ensures { result ≡ left nodes.now numbers.now octets.now }
    {
        Reader {
            nodes,
            numbers,
            octets,
        }
    }

    // The next node, which is taken.
    pub(crate) fn node(&mut self) -> Option<Description>
        ensures some { IfSome result (λ x. self.old ≡ with_node x self.new) }
        ensures less { IfSome result (λ _. length self.old.nodes ≡ suc (length self.new.nodes)) }
        ensures none { IfNone result (self.old.nodes ≡ []) }
    {
        let (first, rest) = self.nodes.split_first()?;
        self.nodes = rest;
        Some(*first)
    }

    // So many numbers, which are taken, if they are left.
    pub(crate) fn numbers(&mut self, count: usize) -> Option<&'a [u64]>
        ensures some { IfSome result (λ zs. zs.now ≡ take count self.old.numbers) }
        ensures enough { IfSome result (λ _. count ≤ length self.old.numbers) }
        ensures rest { IfSome result (λ _. self.new ≡ left self.old.nodes (drop count self.old.numbers) self.old.octets) }
        ensures none { IfNone result (length self.old.numbers < count) }
    {
        if count > self.numbers.len() {
            return None;
        }
        let (taken, rest) = self.numbers.split_at(count);
        self.numbers = rest;
        Some(taken)
    }

    // So many octets, which are taken, if they are left.
    pub(crate) fn octets(&mut self, count: usize) -> Option<&'a [u8]>
        ensures some { IfSome result (λ os. os.now ≡ take count self.old.octets) }
        ensures enough { IfSome result (λ _. count ≤ length self.old.octets) }
        ensures rest { IfSome result (λ _. self.new ≡ left self.old.nodes self.old.numbers (drop count self.old.octets)) }
        ensures none { IfNone result (length self.old.octets < count) }
    {
        if count > self.octets.len() {
            return None;
        }
        let (taken, rest) = self.octets.split_at(count);
        self.octets = rest;
        Some(taken)
    }

    // That the node which was taken last is wrong.
    pub(crate) fn wrong(&self) -> Stop
        ensures { result ≡ stop.At (suc (length self.now.nodes)) }
    {
        Stop::At {
            left: self.nodes.len() + 1,
        }
    }

    // That the next node is wrong.
    pub(crate) fn next_wrong(&self) -> Stop
        ensures { result ≡ stop.At (length self.now.nodes) }
    {
        Stop::At {
            left: self.nodes.len(),
        }
    }

    // Whether nothing is left.
    pub(crate) fn is_over(&self) -> bool
        ensures over { result ≡ true → (length self.now.nodes ≡ 0) × (length self.now.numbers ≡ 0) × (length self.now.octets ≡ 0) }
        ensures more { result ≡ false → length self.now.nodes ≡ 0 → length self.now.numbers ≡ 0 → length self.now.octets ≡ 0 → ⊥ }
    {
        self.nodes.is_empty() && self.numbers.is_empty() && self.octets.is_empty()
    }
}
