// The rules of declarations, parameters and unions as they are written (C706, sections 4.2.5 to 4.2.14).
ghost use Rattle.std.specs.Prelude.{◌≡◌};
ghost use Rattle.idl_grammar.specs.Seen.{seen_type};
ghost use Rattle.idl_rule_definitions.specs.DeclarationRules as rules;
ghost use Rattle.idl_constructs.specs.SeenNodes.{seen_construct};

use idl_constructs::attributes::switch_type_in;
use idl_constructs::nodes::{Construct, Position};
use idl_constructs::words::{Word, has};
use idl_grammar::TypeSpec;

/// Rule 5: whether a type alone is no struct, union or enum with its body.
pub(crate) fn has_no_body(of: &TypeSpec) -> bool
    ensures { result ≡ rules.has_no_body (seen_type of.now) }
{
    match of {
        TypeSpec::Simple(_) => true,
        TypeSpec::Name(_) => true,
        TypeSpec::Tag { .. } => true,
        TypeSpec::Struct { .. } => false,
        TypeSpec::EncapsulatedUnion { .. } => false,
        TypeSpec::NonEncapsulatedUnion { .. } => false,
        TypeSpec::Enum { .. } => false,
    }
}

/// Rule 23: whether a non-encapsulated union has no switch_type.
pub(crate) fn lacks_switch_type(construct: &Construct<'_>, body: &TypeSpec) -> bool
    ensures { result ≡ rules.lacks_switch_type (seen_construct construct.now) (seen_type body.now) }
{
    match (body, construct.position) {
        (TypeSpec::NonEncapsulatedUnion { .. }, Position::Typedef | Position::TaggedType) => {
            switch_type_in(construct.attributes).is_none()
        }
        (TypeSpec::NonEncapsulatedUnion { .. }, _) => true,
        _ => false,
    }
}

/// Rule 23: whether an arm of a non-encapsulated union has both case and default, or neither.
pub(crate) fn is_wrongly_cased(construct: &Construct<'_>) -> bool
    ensures { result ≡ rules.is_wrongly_cased (seen_construct construct.now) }
{
    construct.position == Position::CasedArm
        && has(construct.attributes, Word::Case) == has(construct.attributes, Word::Default)
}

/// Rule 30: whether a parameter has neither in nor out.
pub(crate) fn lacks_direction(construct: &Construct<'_>) -> bool
    ensures { result ≡ rules.lacks_direction (seen_construct construct.now) }
{
    construct.position == Position::Parameter
        && !has(construct.attributes, Word::In)
        && !has(construct.attributes, Word::Out)
}
