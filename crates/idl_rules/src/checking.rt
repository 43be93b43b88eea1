// The rules 5 to 39, and a rule that is reported.
ghost use Rattle.std.specs.Prelude.{◌≡◌, None, map, option_map, IfOk};
ghost use Rattle.idl_rule_definitions.specs.declared.fault.RuleFault.TheVariants as faults;
ghost use Rattle.idl_rule_definitions.specs.Checked.{world_of};
ghost use Rattle.idl_rule_definitions.specs.DeclarationRules as rules;
ghost use Rattle.idl_rule_definitions.specs.Found.{seen_breach};
ghost use Rattle.idl_rule_definitions.specs.Noted.{noted};
ghost use Rattle.idl_rule_definitions.specs.OtherBreaches.{other_breaches};
ghost use Rattle.idl_declared_types.specs.SeenNumbers.{AreNumbers};
ghost use Rattle.idl_declared_types.specs.SeenTypes.{scene_seen, IsTypes};
ghost use Rattle.idl_value_rules.specs.SeenCounts.{one_too_many};
ghost use Rattle.idl_scope.specs.Seen.{known_in};

use crate::uses::other_rules;
use idl_constructs::nodes::Nodes;
use idl_declared_types::numbering::Numbers;
use idl_declared_types::types::Types;
use idl_rule_definitions::{Breach, Finder, RuleFault};
use idl_scope::Scope;
use idl_value_rules::counts::too_many;
use idl_value_rules::marks;
use nd_base::Memory;
use std::alloc::Global;

/// A rule that is reported.
pub fn broken(first: Breach) -> RuleFault
    ensures { result ≡ faults.Broken first.rule first.place }
{
    RuleFault::Broken {
        rule: first.rule,
        place: first.place,
    }
}

/// The first breach of the rules 5 to 39, if one is broken. Takes memory for what is known of each type.
pub fn other_breach(
    alloc: Global,
    scope: &Scope,
    nodes: &Nodes<'_>,
    types: &Types,
    numbers: &Numbers,
) -> Result<Option<Breach>, Memory>
    ensures { IsTypes (scene_seen (known_in scope.now) nodes.now) nodes.now types.now
        → AreNumbers (scene_seen (known_in scope.now) nodes.now) types.now.kinds numbers.now
        → IfOk result (λ b. option_map seen_breach b
        ≡ noted (world_of scope.now) (noted (world_of scope.now) None (other_breaches (scene_seen (known_in scope.now) nodes.now)))
        (map one_too_many (rules.too_many (scene_seen (known_in scope.now) nodes.now)))) }
{
    let marks = marks::of_types(alloc, types)?;
    let mut finder = Finder::new(&scope.files);
    other_rules(alloc, &mut finder, scope, nodes, types, &marks)?;
    too_many(&mut finder, nodes, numbers);
    Ok(finder.first())
}
