//! The first node that contains itself.

ghost use Rattle.std.specs.Prelude.{◌≡◌, ℕ, ◌+◌, ◌<◌, length, [], ◌∷◌, ◌==◌, slice_get, slice_index};
ghost use Rattle.std.specs.List.{list_all, list_any};
ghost use Rattle.std.specs.Result.{IfOk, OnOk};
ghost use Rattle.idl_cycles.specs.Graph.{parts_at, contains_itself, IsLeast};
ghost use Rattle.idl_cycles.specs.GraphCycles.{is_peeled_in, ArePeeled, Comes, IsReady, is_less_than};

use super::Graph;
use nd_base::Memory;
use std::alloc::Global;

/// The least key of a node that contains itself, where node i has key i; what has no key is not asked for.
pub fn least_key(alloc: Global, graph: &Graph, keys: &[u128]) -> Result<Option<u128>, Memory>
    ensures { IfOk result (λ least. IsLeast graph.now keys.now (length keys.now) least) }
{
    let peeled = peel(alloc, graph)?;
    let mut search = Search::new(alloc, graph)?;
    let mut least = None;
    for node in 0..keys.len() {
        least = search.judge(graph, &peeled, keys, node, least)?;
    }
    Ok(least)
}

// Peeling.

/// Nodes that do not contain themselves: peeled is what holds nothing but peeled nodes, in turn.
fn peel(alloc: Global, graph: &Graph) -> Result<Vec<bool>, Memory>
    ensures { IfOk result (λ v. ArePeeled graph.now v.items) }
{
    let mut peeled = vec![in alloc; false; graph.len()]?;
    for _ in 0..graph.len() {
        if !pass(graph, &mut peeled) {
            break;
        }
    }
    Ok(peeled)
}

/// One pass over all nodes; whether it peels any.
fn pass(graph: &Graph, peeled: &mut [bool]) -> bool
    requires { ArePeeled graph.now peeled.old }
    ensures { ArePeeled graph.now peeled.new }
{
    let mut some = false;
    for node in 0..peeled.len() {
        if peel_node(graph, peeled, node) {
            some = true;
        }
    }
    some
}

/// Peels a node that can be; whether it does.
fn peel_node(graph: &Graph, peeled: &mut [bool], node: usize) -> bool
    requires within { node < length peeled.old }
    requires peeled { ArePeeled graph.now peeled.old }
    ensures { ArePeeled graph.now peeled.new }
{
    if is_peeled(peeled, node) || !are_peeled(peeled, graph.parts(node)) {
        return false;
    }
    peeled[node] = true;
    true
}

fn are_peeled(peeled: &[bool], parts: &[usize]) -> bool
    ensures { result ≡ list_all (is_peeled_in peeled.now) parts.now }
{
    parts.iter().all(|part| is_peeled(peeled, *part))
}

/// Whether a node is peeled; so is what is no node.
fn is_peeled(peeled: &[bool], node: usize) -> bool
    ensures { result ≡ is_peeled_in peeled.now node }
{
    peeled.get(node).copied().unwrap_or(true)
}

// Searching.

/// A breadth-first search from one node.
#[derive(Drop)]
struct Search {
    /// For each node the number of the last search that came to it.
    seen: Vec<usize>,
    /// What this search came to, in order.
    queue: Vec<usize>,
}

impl Search {
    /// No search was made.
    fn new(alloc: Global, graph: &Graph) -> Result<Search, Memory>
        ensures { IfOk result (λ s. IsReady graph.now 1 s.seen.items) }
    {
        let seen = vec![in alloc; 0usize; graph.len()]?;
        Ok(Search {
            seen,
            queue: Vec::new(alloc),
        })
    }

    /// The least key, with that of one more node.
    fn judge(
        &mut self,
        graph: &Graph,
        peeled: &[bool],
        keys: &[u128],
        node: usize,
        least: Option<u128>,
    ) -> Result<Option<u128>, Memory>
        requires within { node < length keys.now }
        requires peeled { ArePeeled graph.now peeled.now }
        requires ready { IsReady graph.now (node + 1) self.old.seen.items }
        requires least { IsLeast graph.now keys.now node least }
        ensures ready { OnOk result (IsReady graph.now (node + 2) self.new.seen.items) }
        ensures least { IfOk result (λ least. IsLeast graph.now keys.now (node + 1) least) }
    {
        let key = keys[node];
        if is_peeled(peeled, node) || !is_less(key, least) {
            return Ok(least);
        }
        if self.comes_back(graph, node, node + 1)? {
            return Ok(Some(key));
        }
        Ok(least)
    }

    /// Whether the search of this number that begins at a node comes back to it.
    fn comes_back(&mut self, graph: &Graph, start: usize, number: usize) -> Result<bool, Memory>
        requires { IsReady graph.now number self.old.seen.items }
        ensures ready { OnOk result (IsReady graph.now (number + 1) self.new.seen.items) }
        ensures exact { IfOk result (λ comes. comes ≡ contains_itself graph.now start) }
    {
        self.queue.clear();
        self.come_to(start, number)?;
        for head in 0..graph.len() {
            let Some(node) = self.node_at(head) else {
                return Ok(false);
            };
            let parts = graph.parts(node);
            if is_among(parts, start) {
                return Ok(true);
            }
            self.come_to_all(parts, number)?;
        }
        Ok(false)
    }

    /// What is in the queue at a place.
    fn node_at(&self, place: usize) -> Option<usize>
        ensures { result ≡ slice_get self.now.queue.items place }
    {
        self.queue.get(place).copied()
    }

    /// Comes to each of these.
    fn come_to_all(&mut self, parts: &[usize], number: usize) -> Result<(), Memory>
        ensures { OnOk result (Comes number parts.now self.old.seen.items self.old.queue.items self.new.seen.items self.new.queue.items) }
    {
        for part in parts {
            self.come_to(*part, number)?;
        }
        Ok(())
    }

    /// Comes to a node, unless this search was there or it is none.
    fn come_to(&mut self, node: usize, number: usize) -> Result<(), Memory>
        ensures { OnOk result (Comes number (node ∷ []) self.old.seen.items self.old.queue.items self.new.seen.items self.new.queue.items) }
    {
        let Some(seen) = self.seen.get_mut(node) else {
            return Ok(());
        };
        if *seen == number {
            return Ok(());
        }
        *seen = number;
        let Ok(()) = self.queue.push(node) else {
            return Err(Memory);
        };
        Ok(())
    }
}

fn is_among(parts: &[usize], node: usize) -> bool
    ensures { result ≡ list_any (λ p. p == node) parts.now }
{
    parts.iter().any(|part| *part == node)
}

fn is_less(key: u128, least: Option<u128>) -> bool
    ensures { result ≡ is_less_than key least }
{
    least.is_none_or(|least| key < least)
}
