//! Properties of nodes that come from their parts, by rounds.

ghost use Rattle.std.specs.Prelude.{◌≡◌, ℕ, false, length, slice_index_or};
ghost use Rattle.std.specs.Result.{IfOk};
ghost use Rattle.idl_cycles.specs.Graph.{parts_at, rule_at, has_by, has_within, last_passes};
ghost use Rattle.idl_cycles.specs.GraphRounds.{value_in};

use super::Graph;
use nd_base::Memory;
use std::alloc::Global;
use std::mem;

/// When a node has a property, from whether its parts have it.
#[derive(Clone, Copy, Debug, PartialEq, Eq)]
pub enum Rule {
    /// It has it.
    Always,
    /// It does not have it.
    Never,
    /// Each part has it.
    All,
    /// Some part has it.
    Any,
    /// The last part has it.
    Last,
}

/// Which nodes have a property, after so many rounds that begin where none has it: node i has rule i, and what has no rule never has it. Time: the
/// number of rounds times the size of the graph. Memory: two octets for each rule.
pub fn properties(
    alloc: Global,
    graph: &Graph,
    rules: &[Rule],
    rounds: usize,
) -> Result<Vec<bool>, Memory>
    ensures count { IfOk result (λ v. length v.items ≡ length rules.now) }
    ensures exact { IfOk result (λ v. (node : ℕ) → slice_index_or v.items node false ≡ has_within rounds graph.now rules.now node) }
{
    let mut values = vec![in alloc; false; rules.len()]?;
    let mut next = vec![in alloc; false; rules.len()]?;
    for _ in 0..rounds {
        round(graph, rules, &values, &mut next);
        mem::swap(&mut values, &mut next);
    }
    Ok(values)
}

/// The next round.
fn round(graph: &Graph, rules: &[Rule], values: &[bool], next: &mut [bool])
    requires { length next.old ≡ length rules.now }
    ensures { (node : ℕ) → slice_index_or next.new node false ≡ has_by (rule_at rules.now node) (value_in values.now) (parts_at graph.now node) }
{
    for (node, rule) in rules.iter().enumerate() {
        next[node] = has(*rule, values, graph.parts(node));
    }
}

/// Whether a node with these parts has the property.
fn has(rule: Rule, values: &[bool], parts: &[usize]) -> bool
    ensures { result ≡ has_by rule (value_in values.now) parts.now }
{
    match rule {
        Rule::Always => true,
        Rule::Never => false,
        Rule::All => all_have(values, parts),
        Rule::Any => any_has(values, parts),
        Rule::Last => last_has(values, parts),
    }
}

fn all_have(values: &[bool], parts: &[usize]) -> bool
    ensures { result ≡ has_by Rule.All (value_in values.now) parts.now }
{
    parts.iter().all(|part| value(values, *part))
}

fn any_has(values: &[bool], parts: &[usize]) -> bool
    ensures { result ≡ has_by Rule.Any (value_in values.now) parts.now }
{
    parts.iter().any(|part| value(values, *part))
}

fn last_has(values: &[bool], parts: &[usize]) -> bool
    ensures { result ≡ last_passes (value_in values.now) parts.now }
{
    match parts.last() {
        Some(part) => value(values, *part),
        None => false,
    }
}

/// The value of a part; what is no node has none.
fn value(values: &[bool], part: usize) -> bool
    ensures { result ≡ value_in values.now part }
{
    values.get(part).copied().unwrap_or(false)
}
