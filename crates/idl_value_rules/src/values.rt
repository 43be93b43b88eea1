// The rules of enumerators, constants, lower bounds and classes in lists (C706, sections 4.2.7 to 4.2.12).
ghost use Rattle.std.specs.Prelude.{◌≡◌, [], ◌∷◌, map, option_map};
ghost use Rattle.idl_grammar.specs.Seen.{seen_attribute, seen_bound, seen_declarator, seen_enumerator, seen_init};
ghost use Rattle.idl_scope.specs.Seen.{seen_files, known_in};
ghost use Rattle.idl_rule_definitions.specs.Nodes.{World};
ghost use Rattle.idl_rule_definitions.specs.Attributes as attributes;
ghost use Rattle.idl_rule_definitions.specs.Nodes as rules;
ghost use Rattle.idl_rule_definitions.specs.Types.{Names, simple_type};
ghost use Rattle.idl_rule_definitions.specs.Scene.{Scene};
ghost use Rattle.idl_declared_types.specs.Kinds.{basic_in};
ghost use Rattle.idl_constructs.specs.SeenNodes.{seen_construct};
ghost use Rattle.idl_rule_definitions.specs.DeclarationRules as value_rules;
ghost use Rattle.idl_rule_definitions.specs.Noted.{noted};
ghost use Rattle.idl_rule_definitions.specs.OthersOf.{others_of};
ghost use Rattle.idl_rule_definitions.specs.Found.{seen_breach};

use idl_constructs::nodes::Construct;
use idl_declared_types::enum_values::number_of;
use idl_declared_types::ranges::is_in_range;
use idl_declared_types::typing::number;
use idl_declared_types::written::simple_kind;
use idl_grammar::{
    Attribute, AttributeKind, Bound, Declarator, Enumerator, Identifier, Init, SimpleType,
};
use idl_rule_definitions::{Finder, rule};
use idl_scope::Scope;

/// The greatest value of an enumerator.
const ENUMERATOR_LIMIT: i128 = 32_767;

/// Whether the name of an enumerator stands for a value that none has.
fn is_large_enumerator(scope: &Scope, name: &Identifier) -> bool
    ensures { result ≡ value_rules.is_large_enumerator (known_in scope.now) name.now }
{
    match number_of(scope, name) {
        Some(number) => !(0 <= number && number <= ENUMERATOR_LIMIT),
        None => false,
    }
}

/// The rule on enumerators.
pub fn enumerators(
    finder: &mut Finder<'_>,
    scope: &Scope,
    construct: &Construct<'_>,
    list: &[Enumerator],
)
    ensures files { finder.new.files.now ≡ finder.old.files.now }
    ensures first { (w : World) (s : Scene) (names : Names) → w.files ≡ seen_files finder.old.files.now → s.known ≡ known_in scope.now
        → option_map seen_breach finder.new.first
        ≡ noted w (option_map seen_breach finder.old.first)
        (others_of s names (map (λ e. rules.EnumeratorNode (seen_construct construct.now) e.name) (map seen_enumerator list.now))) }
{
    for one in list {
        let broken = is_large_enumerator(scope, &one.name);
        finder.note(rule::ENUMERATORS, construct.place(one.name.at()), broken);
    }
}

/// Whether a type without parts is primitive and has a value.
fn is_held(of: SimpleType, value: i128) -> bool
    ensures { result ≡ value_rules.holds (simple_type of) value }
{
    match simple_kind(of).primitive() {
        Some(primitive) => is_in_range(primitive, value),
        None => false,
    }
}

/// Whether a constant has a value that its type has.
fn is_right_constant(scope: &Scope, of: SimpleType, star: bool, value: &Init) -> bool
    ensures { result ≡ value_rules.is_right_constant (known_in scope.now) (simple_type of) star (seen_init value.now) }
{
    match value {
        Init::Text(_) => star && matches!(of, SimpleType::Char { .. }),
        Init::Null(_) => star && matches!(of, SimpleType::Void),
        Init::Value(expression) => !star && is_held(of, number(scope, expression)),
    }
}

/// Whether a constant is of type `void`, and not `NULL`.
fn is_void_constant(of: SimpleType, value: &Init) -> bool
    ensures { result ≡ value_rules.is_void_constant of (seen_init value.now) }
{
    matches!(of, SimpleType::Void) && !matches!(value, Init::Null(_))
}

/// Whether a constant is of type `handle_t`.
fn is_handle_constant(of: SimpleType) -> bool
    ensures { result ≡ value_rules.is_handle_constant of }
{
    matches!(of, SimpleType::Handle)
}

/// The rules on a constant.
pub fn constant(
    finder: &mut Finder<'_>,
    scope: &Scope,
    construct: &Construct<'_>,
    of: SimpleType,
    star: bool,
    value: &Init,
)
    ensures files { finder.new.files.now ≡ finder.old.files.now }
    ensures first { (w : World) (s : Scene) (names : Names) → w.files ≡ seen_files finder.old.files.now → s.known ≡ known_in scope.now
        → option_map seen_breach finder.new.first
        ≡ noted w (option_map seen_breach finder.old.first)
        (others_of s names (rules.ConstantNode (seen_construct construct.now) of star (seen_init value.now) ∷ [])) }
{
    let place = construct.place(construct.at);
    finder.note(rule::VOID, place, is_void_constant(of, value));
    finder.note(rule::HANDLE, place, is_handle_constant(of));
    finder.note(
        rule::CONSTANTS,
        place,
        !is_right_constant(scope, of, star, value),
    );
}

/// Whether an attribute is a class.
fn is_class(attribute: &Attribute) -> bool
    ensures { result ≡ attributes.is_class (seen_attribute attribute.now) }
{
    match &attribute.kind {
        AttributeKind::Class(_) => true,
        _ => false,
    }
}

/// The rule on classes in a list: at most one is there.
pub fn second_classes(finder: &mut Finder<'_>, construct: &Construct<'_>)
    ensures files { finder.new.files.now ≡ finder.old.files.now }
    ensures first { (w : World) (s : Scene) (names : Names) → w.files ≡ seen_files finder.old.files.now
        → option_map seen_breach finder.new.first
        ≡ noted w (option_map seen_breach finder.old.first) (others_of s names (rules.attribute_nodes (seen_construct construct.now))) }
{
    let mut found = false;
    for one in construct.attributes {
        let class = is_class(one);
        finder.note(
            rule::CLASSES_ON_POINTERS,
            construct.place(construct.at),
            class & found,
        );
        found |= class;
    }
}

/// Whether a dimension has a lower bound that is not 0.
fn has_lower_bound(scope: &Scope, bound: &Option<Bound>) -> bool
    ensures { result ≡ value_rules.has_lower_bound (known_in scope.now) (option_map seen_bound bound.now) }
{
    match bound {
        Some(Bound::From(least)) => number(scope, least) != 0,
        Some(Bound::Between(least, _)) => number(scope, least) != 0,
        _ => false,
    }
}

/// Whether a dimension of a declarator has a lower bound that is not 0.
pub fn has_lower_bounds(scope: &Scope, declarator: &Declarator) -> bool
    ensures { (d : rules.Declared) → d.declarator ≡ seen_declarator declarator.now → result ≡ value_rules.has_lower_bounds (known_in scope.now) d }
{
    for bound in &declarator.dimensions {
        if has_lower_bound(scope, bound) {
            return true;
        }
    }
    false
}
