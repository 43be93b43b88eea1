// The values of enums.
ghost use Rattle.std.specs.Prelude.{◌≡◌, ◌∷◌, ◌++◌, [], map, IfOk};
ghost use Rattle.idl_grammar.specs.Seen.{seen_enumerator, seen_type};
ghost use Rattle.idl_scope.specs.Seen.{known_in};
ghost use Rattle.idl_rule_definitions.specs.Nodes as world;
ghost use Rattle.idl_rule_definitions.specs.Scene as scenes;
ghost use Rattle.idl_declared_types.specs.LabelValues.{Holds, values_of};

use crate::value_set::ValueSet;
use idl_grammar::{Enumerator, Identifier, TypeSpec};
use idl_scope::{Meaning, Names, Scope};
use nd_base::Memory;
use std::alloc::Global;

/// The number that a name stands for.
pub fn number_of(scope: &Scope, name: &Identifier) -> Option<i128>
    ensures { result ≡ world.number_of (known_in scope.now) name.now.octets }
{
    match scope.meaning(name.as_slice()) {
        Some(Meaning::Number(number)) => Some(number),
        _ => None,
    }
}

/// The enumerators of a type that is an enum.
fn enumerators_in(body: &TypeSpec) -> &[Enumerator]
    ensures { map seen_enumerator result.now ≡ scenes.enumerators_in (seen_type body.now) }
{
    match body {
        TypeSpec::Enum { enumerators, .. } => enumerators.as_slice(),
        _ => &[],
    }
}

/// The values of enumerators.
fn listed_values(alloc: Global, scope: &Scope, list: &[Enumerator]) -> Result<ValueSet, Memory>
    ensures { IfOk result (λ set. Holds set (values_of (known_in scope.now) (map seen_enumerator list.now))) }
{
    let mut set = ValueSet::new(alloc);
    for one in list {
        set.add(number_of(scope, &one.name))?;
    }
    Ok(set)
}

/// The values of an enum with this body; of another body there are none. Takes memory for each.
pub fn enum_values(alloc: Global, scope: &Scope, body: &TypeSpec) -> Result<ValueSet, Memory>
    ensures { IfOk result (λ set. Holds set (values_of (known_in scope.now) (scenes.enumerators_in (seen_type body.now)))) }
{
    listed_values(alloc, scope, enumerators_in(body))
}
