// Rule 11: no struct or union contains itself in place (C706, section 4.2.8).
ghost use Rattle.std.specs.Prelude.{◌≡◌, ◌+◌, ◌*◌, ℕ, List, ◌∷◌, [], map, Some, None, true, length, min, option_map, slice_get, slice_index_or};
ghost use Rattle.std.specs.Prelude.{slice_set, IfOk, OnOk};
ghost use Rattle.std.specs.List.{flat_map};
ghost use Rattle.idl_scope.specs.Seen.{seen_files, known_in};
ghost use Rattle.idl_scope.specs.Known.{Known};
ghost use Rattle.idl_constructs.specs.declared.nodes.Nodes as program_nodes;
ghost use Rattle.idl_rule_definitions.specs.Nodes.{World, place_in};
ghost use Rattle.idl_rule_definitions.specs.Scene.{Scene, Body, bodies, place_of};
ghost use Rattle.idl_rule_definitions.specs.TypeRules.{held, innermost};
ghost use Rattle.idl_declared_types.specs.declared.kinds.Kind as kinds;
ghost use Rattle.idl_declared_types.specs.Kinds.{type_at, type_by, seen_types, is_inside};
ghost use Rattle.idl_declared_types.specs.SeenTypes.{scene_seen, names_at, body_at, IsTypes};
ghost use Rattle.idl_rule_definitions.specs.Noted.{noted};
ghost use Rattle.idl_rule_definitions.specs.Found.{seen_breach};
ghost use Rattle.idl_value_rules.specs.RestBreaches.{cycle_breaches};
ghost use Rattle.idl_value_rules.specs.Cycles.{option_list, AreInnermost, AreInnermostBelow, numbers_of, first_number, AreHeldBy, AreOfPlaces};
ghost use Rattle.idl_value_rules.specs.Cycles.{AreKeys, AreNumbersWith, IsLeastOf};

use idl_constructs::nodes::{Node, Nodes};
use idl_cycles::{Graph, least_key};
use idl_declared_types::kinds::{Kind, Kinds};
use idl_declared_types::types::{BodyTypes, Types};
use idl_rule_definitions::{Finder, rule};
use idl_scope::Scope;
use nd_base::{Memory, Place};
use std::alloc::Global;

/// The struct or union of a type, by its number.
fn place_at(places: &[Option<Place>], number: usize) -> Option<Place>
    ensures { result ≡ slice_index_or places.now number None }
{
    match places.get(number) {
        Some(place) => *place,
        None => None,
    }
}

/// What a type is in its place, or of which it is an array or pipe, by what the types before it are.
fn innermost_of(kind: Kind, places: &[Option<Place>]) -> Option<Place>
    ensures { (ks : List kinds.Kind) (count : ℕ) → AreInnermostBelow ks count places.now → is_inside count kind ≡ true
        → option_list result ≡ innermost (type_by (seen_types ks) kind) }
{
    match kind {
        Kind::Struct { file, at } => Some(Place { file, at }),
        Kind::Union { file, at } => Some(Place { file, at }),
        Kind::Array { element, .. } => place_at(places, element),
        Kind::Text { element, .. } => place_at(places, element),
        Kind::Pipe { element } => place_at(places, element),
        _ => None,
    }
}

/// For each type the struct or union that it is in its place, or of which it is an array or pipe. Takes memory for each type.
fn innermost(alloc: Global, kinds: &Kinds) -> Result<Vec<Option<Place>>, Memory>
    ensures { IfOk result (λ v. AreInnermost kinds.now v.items) }
{
    let mut places = Vec::new(alloc);
    for number in 0..kinds.len() {
        let place = innermost_of(kinds.kind(number), places.as_slice());
        let Ok(()) = places.push(place) else {
            return Err(Memory);
        };
    }
    Ok(places)
}

/// The numbers of the bodies that stand in one with these parts. Takes memory for each part.
fn row(
    alloc: Global,
    types: &Types,
    places: &[Option<Place>],
    parts: &[usize],
) -> Result<Vec<usize>, Memory>
    ensures { (ks : List kinds.Kind) → AreInnermost ks places.now
        → IfOk result (λ v. v.items ≡ numbers_of types.now (flat_map innermost (map (type_at ks) parts.now))) }
{
    let mut numbers = Vec::new(alloc);
    for part in parts {
        let Some(place) = place_at(places, *part) else {
            continue;
        };
        let Some(number) = types.body_of(place) else {
            continue;
        };
        let Ok(()) = numbers.push(number) else {
            return Err(Memory);
        };
    }
    Ok(numbers)
}

/// The numbers of the bodies that stand in the first body of a place. Takes memory for each part.
fn row_of(
    alloc: Global,
    types: &Types,
    places: &[Option<Place>],
    place: Place,
) -> Result<Vec<usize>, Memory>
    ensures { (s : Scene) (n : program_nodes.Nodes) → IsTypes s n types.now → AreInnermost types.now.kinds places.now
        → IfOk result (λ v. v.items ≡ numbers_of types.now (held s place)) }
{
    let Some(number) = types.body_of(place) else {
        return Ok(Vec::new(alloc));
    };
    match types.bodies.get(number) {
        Some(body) => row(alloc, types, places, body.parts.as_slice()),
        None => Ok(Vec::new(alloc)),
    }
}

/// The graph of bodies. Takes memory for each body and each part of one.
fn graph_of(alloc: Global, types: &Types) -> Result<Graph, Memory>
    ensures { (s : Scene) (n : program_nodes.Nodes) → IsTypes s n types.now → IfOk result (λ g. AreHeldBy s types.now g) }
{
    let places = innermost(alloc, &types.kinds)?;
    let mut graph = Graph::new(alloc);
    for body in &types.bodies {
        let numbers = row_of(alloc, types, places.as_slice(), body.place)?;
        graph.push(numbers.as_slice())?;
    }
    Ok(graph)
}

/// A value at a number, if it is less than what is there.
fn lower(least: &mut [u128], number: usize, value: u128)
    ensures { least.new ≡ slice_set least.old number (min (slice_index_or least.old number 0) value) }
{
    if number < least.len() {
        least[number] = least[number].min(value);
    }
}

/// The first body of the place of a body.
fn first_of(types: &Types, number: usize) -> Option<usize>
    ensures { result ≡ first_number types.now number }
{
    match types.bodies.get(number) {
        Some(body) => types.body_of(body.place),
        None => None,
    }
}

/// For the first body of each place the least value of all bodies of the place. Takes memory for each body.
fn of_places(alloc: Global, types: &Types, values: &[u128]) -> Result<Vec<u128>, Memory>
    ensures { (s : Scene) (n : program_nodes.Nodes) → IsTypes s n types.now → length values.now ≡ length (bodies s)
        → IfOk result (λ v. AreOfPlaces s types.now values.now v.items) }
{
    let mut least = Vec::new(alloc);
    least.extend_from_slice(values)?;
    for (number, value) in values.iter().enumerate() {
        let Some(first) = first_of(types, number) else {
            continue;
        };
        lower(least.as_mut_slice(), first, *value);
    }
    Ok(least)
}

/// The least value of a body that contains itself. Takes memory for each body.
fn least_value(
    alloc: Global,
    types: &Types,
    graph: &Graph,
    values: &[u128],
) -> Result<Option<u128>, Memory>
    ensures { (s : Scene) (n : program_nodes.Nodes) → IsTypes s n types.now → AreHeldBy s types.now graph.now → length values.now ≡ length (bodies s)
        → IfOk result (λ least. IsLeastOf s values.now least) }
{
    let least = of_places(alloc, types, values)?;
    let key = least_key(alloc, graph, least.as_slice())?;
    Ok(key)
}

/// Where a breach of a body is reported: the beginning of its construct. Without its node that is the place of its tag.
fn place_told(nodes: &Nodes<'_>, body: &BodyTypes) -> Place
    ensures { (known : Known) (b : Body) → body_at (names_at known nodes.now body.now.node) (slice_get nodes.now.items.items body.now.node) ≡ Some b
        → result ≡ place_in b.construct b.construct.at }
{
    match nodes.items.get(body.node) {
        Some(Node::Body { construct, .. }) => construct.place(construct.at),
        _ => body.place,
    }
}

/// The rank of a file and an octet of it as one number, which goes by the rank first.
fn joined(rank: usize, at: u32) -> u128
    ensures { result ≡ rank * 4294967296 + at }
{
    ((rank as u128) << 32) + u128::from(at)
}

/// The keys by which the breaches of bodies go in order. Takes memory for each body.
fn keys(
    alloc: Global,
    finder: &Finder<'_>,
    nodes: &Nodes<'_>,
    types: &Types,
) -> Result<Vec<u128>, Memory>
    ensures { (s : Scene) → s ≡ scene_seen s.known nodes.now → IsTypes s nodes.now types.now
        → IfOk result (λ v. AreKeys (seen_files finder.now.files.now) (bodies s) v.items) }
{
    let mut keys = Vec::new(alloc);
    for body in &types.bodies {
        let place = place_told(nodes, body);
        let key = joined(finder.rank(place.file), place.at);
        let Ok(()) = keys.push(key) else {
            return Err(Memory);
        };
    }
    Ok(keys)
}

/// The numbers of the bodies that have a key; others get the number past all. Takes memory for each body.
fn with_key(alloc: Global, keys: &[u128], key: u128) -> Result<Vec<u128>, Memory>
    ensures { IfOk result (λ v. AreNumbersWith keys.now key v.items) }
{
    let mut numbers = Vec::new(alloc);
    for (number, one) in keys.iter().enumerate() {
        let number = if *one == key {
            number as u128
        } else {
            keys.len() as u128
        };
        let Ok(()) = numbers.push(number) else {
            return Err(Memory);
        };
    }
    Ok(numbers)
}

/// Where a breach of a body is reported, by the number of the body.
fn told(nodes: &Nodes<'_>, types: &Types, number: u128) -> Option<Place>
    ensures { (s : Scene) (b : Body) → IsTypes s nodes.now types.now → slice_get (bodies s) number ≡ Some b
        → result ≡ Some (place_in b.construct b.construct.at) }
{
    if number >= types.bodies.len() as u128 {
        return None;
    }
    match types.bodies.get(number as usize) {
        Some(body) => Some(place_told(nodes, body)),
        None => None,
    }
}

/// Rule 11 on all bodies: the first breach is noted. Takes memory for each body and each part of one.
pub fn note_cycles<'t>(
    alloc: Global,
    finder: &mut Finder<'_>,
    scope: &Scope,
    nodes: &Nodes<'t>,
    types: &Types,
) -> Result<(), Memory>
    ensures files { finder.new.files.now ≡ finder.old.files.now }
    ensures first { (w : World) (s : Scene) → w.files ≡ seen_files finder.old.files.now → s ≡ scene_seen (known_in scope.now) nodes.now
        → IsTypes s nodes.now types.now
        → OnOk result (option_map seen_breach finder.new.first ≡ noted w (option_map seen_breach finder.old.first) (cycle_breaches s)) }
{
    let graph = graph_of(alloc, types)?;
    let keys = keys(alloc, finder, nodes, types)?;
    let Some(key) = least_value(alloc, types, &graph, keys.as_slice())? else {
        return Ok(());
    };
    let numbers = with_key(alloc, keys.as_slice(), key)?;
    let Some(number) = least_value(alloc, types, &graph, numbers.as_slice())? else {
        return Ok(());
    };
    let Some(place) = told(nodes, types, number) else {
        return Ok(());
    };
    finder.note(rule::NO_TYPE_IN_ITSELF, place, true);
    Ok(())
}
