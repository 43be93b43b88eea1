//! Laws over the definitions.

ghost use Rattle.idl_rule_definitions.specs.declared.rule.TheConstants as Rule;
ghost use Rattle.idl_rule_definitions.specs.Noted.{of_lists, of_others};
ghost use Rattle.std.specs.Prelude.{◌++◌, ◌≡◌, ℕ, map, Ok, Err};
ghost use Rattle.idl_constructs.specs.ListBreaches.{list_breaches};
ghost use Rattle.idl_rule_definitions.specs.OtherBreaches.{other_breaches};
ghost use Rattle.idl_rule_definitions.specs.DeclarationRules.{too_many};
ghost use Rattle.idl_rule_definitions.specs.Nodes.{place_in, World};
ghost use Rattle.nd_base.specs.declared.octets.Place.{Place};
ghost use Rattle.idl_rule_definitions.specs.Scene.{Scene};
ghost use Rattle.idl_rule_definitions.specs.Rules.{breach, breaches, breaches_in};
ghost use Rattle.nd_types.specs.declared.interface.Interface.{Interface};
ghost use Rattle.idl_rule_definitions.specs.declared.fault.RuleFault.TheVariants as fault;
ghost use Rattle.idl_rule_definitions.specs.Answers.{Answers};

/// No two answers are right of the same files, except when out of memory.
pub fn one_answer_is_right()
    ensures told { (w : World) (rule other : ℕ) (place elsewhere : Place) → Answers w (Err (fault.Broken rule place))
        → Answers w (Err (fault.Broken other elsewhere))
        → breach rule place ≡ breach other elsewhere }
    ensures not_both { (w : World) (i : Interface) (rule : ℕ) (place : Place) → Answers w (Ok i) → Answers w (Err (fault.Broken rule place)) → ⊥ }
{}

/// The breaches of files are those of the rules on attribute lists, and the others.
pub fn breaches_are_in_two()
    ensures lists { (s : Scene) → of_lists (breaches_in s) ≡ list_breaches (map (λ n. n.node) s.nodes) }
    ensures others { (s : Scene) → of_others (breaches_in s) ≡ other_breaches s ++ map (λ c. breach Rule.COUNTS (place_in c c.at)) (too_many s) }
{}
