//! Laws over the definitions.
ghost use Rattle.std.specs.Prelude.{◌≡◌, [], None, All};
ghost use Rattle.idl_rule_definitions.specs.Nodes.{World};
ghost use Rattle.idl_rule_definitions.specs.Scene.{scene_of};
ghost use Rattle.nd_types.specs.Legal.{IsLegal};
ghost use Rattle.idl_rule_definitions.specs.Meaning.{types_of, operations_of, meaning, HasIdentifiers};
ghost use Rattle.idl_rule_definitions.specs.Rules.{breaches, first_broken};

/// Files that break no rule, and whose names are identifiers as those of texts are, mean a legal interface, whatever is known of the names.
pub fn meaning_is_legal()
    ensures tables { (w : World) → breaches w ≡ [] → HasIdentifiers (types_of (scene_of w)) (operations_of (scene_of w))
        → IsLegal (types_of (scene_of w)) (operations_of (scene_of w)) }
    ensures meanings { (w : World) → first_broken w ≡ None
        → All (λ m. HasIdentifiers m.types m.operations → IsLegal m.types m.operations) (meaning w) }
{}
