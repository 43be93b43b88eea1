// What types hold in their place, as a graph of their numbers; and what follows from it.
ghost use Rattle.std.specs.Prelude.{◌≡◌, ℕ, suc, true, false, nat_lt, List, map, length, IfOk, slice_index_or};
ghost use Rattle.std.specs.List.{list_all};
ghost use Rattle.nd_base.specs.declared.octets.Place.{Place};
ghost use Rattle.idl_rule_definitions.specs.Scene.{Scene, in_place, nests, hoists_within};
ghost use Rattle.idl_rule_definitions.specs.TypeRules.{is_barred_within};
ghost use Rattle.idl_declared_types.specs.Kinds.{type_by, type_at, seen_types};
ghost use Rattle.idl_rule_definitions.specs.Types.{IdlType};
ghost use Rattle.idl_declared_types.specs.SeenTypes.{IsTypes};
ghost use Rattle.idl_constructs.specs.declared.nodes.Nodes as program_nodes;
ghost use Rattle.idl_declared_types.specs.declared.kinds.Kind.{Kind};
ghost use Rattle.idl_cycles.specs.Graph.{parts_at, rule_at};
ghost use Rattle.idl_declared_types.specs.InPlace.{parts_in_place, hoists_rule, barred_rule, AreHeld, IsPlaces, AreRules};
ghost use Rattle.idl_value_rules.specs.TypeProperties.{AreProperties};

use idl_cycles::{Graph, Rule, properties};
use idl_declared_types::kinds::{Kind, Kinds};
use idl_declared_types::types::Types;
use nd_base::{Memory, Place};
use nd_types::NESTING_LIMIT;
use std::alloc::Global;

/// The number of a type, or that of `void` after all types.
fn node(number: usize, count: usize) -> usize
    ensures same { (ks : List Kind) → length ks ≡ count → type_at ks result ≡ type_at ks number }
    ensures within { nat_lt result (suc count) ≡ true }
{
    if number < count { number } else { count }
}

/// Types by their nodes.
fn nodes(alloc: Global, numbers: &[usize], count: usize) -> Result<Vec<usize>, Memory>
    ensures { (ks : List Kind) → length ks ≡ count → IfOk result (λ v. AreHeld ks count v.items (map (type_at ks) numbers.now)) }
{
    let mut held = Vec::new(alloc);
    for number in numbers {
        let Ok(()) = held.push(node(*number, count)) else {
            return Err(Memory);
        };
    }
    Ok(held)
}

/// The types of the parts of a body of a place.
fn parts_of(alloc: Global, types: &Types, place: Place, count: usize) -> Result<Vec<usize>, Memory>
    ensures { (s : Scene) (n : program_nodes.Nodes) → IsTypes s n types.now → length types.now.kinds ≡ count
        → IfOk result (λ v. AreHeld types.now.kinds count v.items (parts_in_place s place)) }
{
    let Some(number) = types.body_of(place) else {
        return Ok(Vec::new(alloc));
    };
    match types.bodies.get(number) {
        Some(body) => nodes(alloc, body.parts.as_slice(), count),
        None => Ok(Vec::new(alloc)),
    }
}

/// The types that a type of this kind holds in its place.
fn held(alloc: Global, types: &Types, kind: Kind, count: usize) -> Result<Vec<usize>, Memory>
    ensures { (s : Scene) (n : program_nodes.Nodes) → IsTypes s n types.now → length types.now.kinds ≡ count
        → IfOk result (λ v. AreHeld types.now.kinds count v.items (in_place s (type_by (seen_types types.now.kinds) kind))) }
{
    match kind {
        Kind::Array { element, .. } => nodes(alloc, &[element], count),
        Kind::Text { element, .. } => nodes(alloc, &[element], count),
        Kind::Pipe { element } => nodes(alloc, &[element], count),
        Kind::Struct { file, at } => parts_of(alloc, types, Place { file, at }, count),
        Kind::Union { file, at } => parts_of(alloc, types, Place { file, at }, count),
        _ => Ok(Vec::new(alloc)),
    }
}

/// All types, and `void` after them, with what they hold in their place.
fn places(alloc: Global, types: &Types, count: usize) -> Result<Graph, Memory>
    ensures { (s : Scene) (n : program_nodes.Nodes) → IsTypes s n types.now → length types.now.kinds ≡ count
        → IfOk result (IsPlaces s types.now.kinds count) }
{
    let mut graph = Graph::new(alloc);
    for number in 0..count {
        let held = held(alloc, types, types.kinds.kind(number), count)?;
        graph.push(held.as_slice())?;
    }
    graph.push(&[])?;
    Ok(graph)
}

/// When a type of this kind hoists.
fn hoists(kind: Kind) -> Rule
    ensures { (types : List IdlType) → result ≡ hoists_rule (type_by types kind) }
{
    match kind {
        Kind::Array { count: None, .. } => Rule::Always,
        Kind::Text { count: None, .. } => Rule::Always,
        Kind::Struct { .. } => Rule::Last,
        _ => Rule::Never,
    }
}

/// When a type of this kind may not stand in a pipe.
fn barred(kind: Kind) -> Rule
    ensures { (types : List IdlType) → result ≡ barred_rule (type_by types kind) }
{
    match kind {
        Kind::Pointer { .. } => Rule::Always,
        Kind::ContextHandle => Rule::Always,
        Kind::Pipe { .. } => Rule::Always,
        Kind::Text { .. } => Rule::Always,
        Kind::Array { count: None, .. } => Rule::Always,
        Kind::Array { varying: true, .. } => Rule::Always,
        _ => Rule::Any,
    }
}

/// When types hoist, by their numbers, and `void` after them.
fn hoists_rules(alloc: Global, kinds: &Kinds, count: usize) -> Result<Vec<Rule>, Memory>
    ensures { length kinds.now ≡ count → IfOk result (λ v. AreRules hoists_rule kinds.now count v.items) }
{
    let mut rules = Vec::new(alloc);
    for number in 0..count {
        let Ok(()) = rules.push(hoists(kinds.kind(number))) else {
            return Err(Memory);
        };
    }
    let Ok(()) = rules.push(Rule::Never) else {
        return Err(Memory);
    };
    Ok(rules)
}

/// When types may not stand in pipes, by their numbers, and `void` after them.
fn barred_rules(alloc: Global, kinds: &Kinds, count: usize) -> Result<Vec<Rule>, Memory>
    ensures { length kinds.now ≡ count → IfOk result (λ v. AreRules barred_rule kinds.now count v.items) }
{
    let mut rules = Vec::new(alloc);
    for number in 0..count {
        let Ok(()) = rules.push(barred(kinds.kind(number))) else {
            return Err(Memory);
        };
    }
    let Ok(()) = rules.push(Rule::Any) else {
        return Err(Memory);
    };
    Ok(rules)
}

/// What follows from what types hold in their place, by their numbers; after them the same of `void`.
#[derive(Drop)]
pub struct Properties {
    pub hoists: Vec<bool>,
    /// No path down from the type has more types than may be.
    pub nests: Vec<bool>,
    /// The type may not stand in a pipe.
    pub barred: Vec<bool>,
}

/// The properties of all types. Takes memory for each type and each part of a body.
pub(crate) fn properties_of(
    alloc: Global,
    types: &Types,
    count: usize,
) -> Result<Properties, Memory>
    ensures { (s : Scene) (n : program_nodes.Nodes) → IsTypes s n types.now → length types.now.kinds ≡ count
        → IfOk result (AreProperties s types.now.kinds count) }
{
    let graph = places(alloc, types, count)?;
    let hoists = hoists_rules(alloc, &types.kinds, count)?;
    let barred = barred_rules(alloc, &types.kinds, count)?;
    let mut nests = vec![in alloc; Rule::All; count]?;
    let Ok(()) = nests.push(Rule::All) else {
        return Err(Memory);
    };
    Ok(Properties {
        hoists: properties(alloc, &graph, hoists.as_slice(), NESTING_LIMIT as usize)?,
        nests: properties(alloc, &graph, nests.as_slice(), NESTING_LIMIT as usize)?,
        barred: properties(alloc, &graph, barred.as_slice(), NESTING_LIMIT as usize)?,
    })
}
