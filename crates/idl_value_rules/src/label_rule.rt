// The rule of labels: each is a value of the tag's type, and none stands twice (C706, section 4.2.11).
ghost use Rattle.std.specs.Prelude.{◌≡◌, ◌∷◌, ◌++◌, ℤ, [], option_map, Some, OnOk, List, Option};
ghost use Rattle.idl_grammar.specs.Seen.{seen_type};
ghost use Rattle.idl_scope.specs.Seen.{seen_files, known_in};
ghost use Rattle.idl_constructs.specs.declared.nodes.Nodes as program_nodes;
ghost use Rattle.idl_rule_definitions.specs.Nodes.{World};
ghost use Rattle.idl_rule_definitions.specs.Nodes as rules;
ghost use Rattle.idl_rule_definitions.specs.Types.{IdlType, Enum, Names};
ghost use Rattle.idl_rule_definitions.specs.Scene.{Scene, tag_type};
ghost use Rattle.idl_constructs.specs.SeenNodes.{seen_construct};
ghost use Rattle.idl_declared_types.specs.Kinds.{type_by};
ghost use Rattle.idl_declared_types.specs.SeenTypes.{tag_seen, IsTypes};
ghost use Rattle.idl_rule_definitions.specs.DeclarationRules.{is_value_of};
ghost use Rattle.idl_declared_types.specs.LabelValues as values;
ghost use Rattle.idl_value_rules.specs.AcceptedLabels as accepted_labels;
ghost use Rattle.idl_declared_types.specs.LabelValues.{Holds, accepts_value, value_breaches};
ghost use Rattle.idl_rule_definitions.specs.Noted.{noted};
ghost use Rattle.idl_rule_definitions.specs.OthersOf.{others_of};
ghost use Rattle.idl_rule_definitions.specs.Found.{seen_breach};

use idl_constructs::nodes::Construct;
use idl_declared_types::kinds::Kind;
use idl_declared_types::labels::{Valued, labels_of};
use idl_declared_types::ranges::is_in_range;
use idl_declared_types::types::{Typed, Types};
use idl_declared_types::value_set::ValueSet;
use idl_grammar::TypeSpec;
use idl_rule_definitions::{Finder, rule};
use idl_scope::Scope;
use nd_base::{Memory, Place};
use nd_types::Primitive;
use std::alloc::Global;

/// What the labels of a union may be.
#[derive(Clone, Copy)]
enum Accepted<'t> {
    All,
    /// The values of a primitive type.
    Range(Primitive),
    Values(&'t ValueSet),
    Nothing,
}

/// What labels may be where the tag is the enum of a place.
fn accepted_in<'t>(types: &'t Types, place: Place) -> Accepted<'t>
    ensures { (s : Scene) (n : program_nodes.Nodes) → IsTypes s n types.now → (z : ℤ)
        → accepted_labels.accepts result z ≡ is_value_of s (Some (Enum place)) z }
{
    let Some(number) = types.body_of(place) else {
        return Accepted::Nothing;
    };
    match types.bodies.get(number) {
        Some(body) => Accepted::Values(&body.values),
        None => Accepted::Nothing,
    }
}

/// What labels may be where the tag has a type of this kind.
fn accepted_by<'t>(types: &'t Types, kind: Kind) -> Accepted<'t>
    ensures { (s : Scene) (n : program_nodes.Nodes) (ts : List IdlType) → IsTypes s n types.now → (z : ℤ)
        → accepted_labels.accepts result z ≡ is_value_of s (Some (type_by ts kind)) z }
{
    if let Some(primitive) = kind.primitive() {
        return Accepted::Range(primitive);
    }
    let Kind::Enum { file, at } = kind else {
        return Accepted::All;
    };
    accepted_in(types, Place { file, at })
}

/// What labels may be whose tag has this type.
fn accepted_of<'t>(types: &'t Types, typed: &Typed) -> Accepted<'t>
    ensures { (s : Scene) (n : program_nodes.Nodes) → IsTypes s n types.now → (z : ℤ)
        → accepted_labels.accepts result z ≡ is_value_of s (tag_seen types.now.kinds typed.now) z }
{
    if !typed.has_tag {
        return Accepted::All;
    }
    accepted_by(types, types.kinds.kind(typed.of))
}

/// Whether a label may be a value. A default may always stand.
fn accepts(accepted: &Accepted<'_>, value: Option<i128>) -> bool
    ensures { result ≡ accepts_value (accepted_labels.accepts accepted.now) value }
{
    let Some(number) = value else {
        return true;
    };
    match accepted {
        Accepted::All => true,
        Accepted::Range(primitive) => is_in_range(*primitive, number),
        Accepted::Values(set) => set.contains(value),
        Accepted::Nothing => false,
    }
}

/// The rule on a label, after others with the values of a set.
fn label(
    finder: &mut Finder<'_>,
    construct: &Construct<'_>,
    accepted: &Accepted<'_>,
    before: &mut ValueSet,
    it: &Valued,
) -> Result<(), Memory>
    ensures files { finder.new.files.now ≡ finder.old.files.now }
    ensures holds { (done : List (Option ℤ)) → Holds before.old done → OnOk result (Holds before.new (done ++ it.now.value ∷ [])) }
    ensures first { (w : World) (done : List (Option ℤ)) → w.files ≡ seen_files finder.old.files.now → Holds before.old done
        → OnOk result (option_map seen_breach finder.new.first
        ≡ noted w (option_map seen_breach finder.old.first)
        (value_breaches (accepted_labels.accepts accepted.now) (seen_construct construct.now) done (it.now ∷ []))) }
{
    let repeated = before.add(it.value)?;
    let broken = !accepts(accepted, it.value) || repeated;
    finder.note(rule::LABELS, construct.place(it.at), broken);
    Ok(())
}

/// The rule on labels with their values. Takes memory for a set of them.
fn each_label(
    alloc: Global,
    finder: &mut Finder<'_>,
    construct: &Construct<'_>,
    accepted: &Accepted<'_>,
    list: &[Valued],
) -> Result<(), Memory>
    ensures files { finder.new.files.now ≡ finder.old.files.now }
    ensures first { (w : World) → w.files ≡ seen_files finder.old.files.now
        → OnOk result (option_map seen_breach finder.new.first
        ≡ noted w (option_map seen_breach finder.old.first)
        (value_breaches (accepted_labels.accepts accepted.now) (seen_construct construct.now) [] list.now)) }
{
    let mut before = ValueSet::new(alloc);
    for one in list {
        label(finder, construct, accepted, &mut before, one)?;
    }
    Ok(())
}

/// The rule on the labels of a union: each is a value of the tag's type, and none stands twice. Takes memory for their values.
pub fn labels(
    alloc: Global,
    finder: &mut Finder<'_>,
    scope: &Scope,
    types: &Types,
    construct: &Construct<'_>,
    body: &TypeSpec,
    typed: &Typed,
) -> Result<(), Memory>
    ensures files { finder.new.files.now ≡ finder.old.files.now }
    ensures first { (w : World) (s : Scene) (n : program_nodes.Nodes) (names : Names) → w.files ≡ seen_files finder.old.files.now
        → s.known ≡ known_in scope.now → IsTypes s n types.now
        → tag_seen types.now.kinds typed.now ≡ tag_type (seen_construct construct.now) names (seen_type body.now)
        → OnOk result (option_map seen_breach finder.new.first
        ≡ noted w (option_map seen_breach finder.old.first)
        (others_of s names (rules.label_nodes (seen_construct construct.now) (seen_type body.now) [] (rules.labels_of (seen_type body.now))))) }
{
    let accepted = accepted_of(types, typed);
    let list = labels_of(alloc, scope, body)?;
    each_label(alloc, finder, construct, &accepted, list.as_slice())?;
    Ok(())
}
