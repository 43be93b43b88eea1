//! Laws over the definitions.
ghost use Rattle.std.specs.Prelude.{◌≡◌, ◌≤◌, [], length, Some, true};
ghost use Rattle.nd_types.specs.declared.TheConstants.{TYPE_LIMIT};
ghost use Rattle.std.specs.List.{list_all};
ghost use Rattle.nd_types.specs.Table.{type_at};
ghost use Rattle.idl_rule_definitions.specs.Nodes.{World};
ghost use Rattle.idl_rule_definitions.specs.Types.{IdlType};
ghost use Rattle.idl_rule_definitions.specs.Scene.{Scene, Use, scene_of};
ghost use Rattle.idl_rule_definitions.specs.Kept.{KeepsUse};
ghost use Rattle.idl_legal_laws.specs.LegalFields.{HasLegalFields};
ghost use Rattle.nd_types.specs.Legal.{refers_to_no_reference};
ghost use Rattle.idl_rule_definitions.specs.Numbering.{is_numbered, is_numbered_or_none, needed_types, number_of_type};
ghost use Rattle.idl_rule_definitions.specs.Meaning.{types_of, operations_of, definition};
ghost use Rattle.idl_rule_definitions.specs.Rules.{breaches, breaches_in, breaches_of_use, first_broken, IsLeast};

/// The rule that is reported is broken at its place, no lesser rule is broken anywhere, and this one at no earlier place. Where none is reported,
/// none is broken.
pub fn least_rule_is_told()
    ensures { (w : World) → IsLeast w (breaches w) (first_broken w) }
{}

/// At the number of a type the table has what the type is, and each type that a declarator needs, down to the innermost, has a number, except `void`
/// and `handle_t`.
pub fn types_stand_at_their_numbers()
    ensures needed { (s : Scene) → list_all (λ n. is_numbered_or_none s n.type) (needed_types s) ≡ true }
    ensures stands { (s : Scene) (t : IdlType) → is_numbered s t ≡ true → type_at (types_of s) (number_of_type s t) ≡ Some (definition s t) }
{}

/// Where a declarator breaks no rule, each test of a rule says so.
pub fn declarators_keep_their_rules()
    ensures { (s : Scene) (u : Use) → breaches_of_use s u ≡ [] → KeepsUse s u }
{}

/// Where no rule is broken, no pointer in the table points to a reference pointer.
pub fn no_pointer_refers_to_a_reference()
    ensures { (s : Scene) → breaches_in s ≡ [] → list_all (refers_to_no_reference (types_of s)) (types_of s) ≡ true }
{}

/// Where no rule is broken, the table has at most 4,096 types.
pub fn types_are_few()
    ensures { (s : Scene) → breaches_in s ≡ [] → length (types_of s) ≤ TYPE_LIMIT }
{}

/// The members and parameters of what files mean that break no rule are legal.
pub fn fields_are_legal()
    ensures { (w : World) → breaches w ≡ [] → HasLegalFields (types_of (scene_of w)) (operations_of (scene_of w)) }
{}
