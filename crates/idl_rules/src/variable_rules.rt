// The rules of `string` and of the attributes that state counts and tags by variables (C706, sections 4.2.11 and 4.2.17 to 4.2.19).
ghost use Rattle.std.specs.Prelude.{◌≡◌, ◌&&◌, not, map, List, Option, option_map};
ghost use Rattle.idl_scope.specs.Seen.{seen_files};
ghost use Rattle.idl_grammar.specs.Seen.{seen_attribute};
ghost use Rattle.idl_rule_definitions.specs.Nodes.{World};
ghost use Rattle.idl_rule_definitions.specs.Scene.{Scene, Use};
ghost use Rattle.idl_rule_definitions.specs.Rules.{Breach};
ghost use Rattle.idl_rule_definitions.specs.VariableRules as rules;
ghost use Rattle.idl_declared_types.specs.Kinds.{type_at};
ghost use Rattle.idl_constructs.specs.SeenNodes.{seen_position, seen_construct};
ghost use Rattle.idl_value_rules.specs.SeenMarks.{AreMarks};
ghost use Rattle.idl_rule_definitions.specs.Noted.{noted};
ghost use Rattle.idl_rule_definitions.specs.Found.{seen_breach};
ghost use Rattle.idl_value_rules.specs.SeenMarks.{Holds};
ghost use Rattle.idl_rules.specs.Asked.{asked_use, IsAsked, with_unions, with_variables};
ghost use Rattle.idl_rule_definitions.specs.Attributes.{has, switch_is_word};
ghost use Rattle.idl_declared_types.specs.SeenTypes.{has_wrong_switch_variable};

use crate::asked::{Asked, Judge, note};
use crate::declaration_rules::is_wrongly_cased;
use idl_constructs::nodes::Position;
use idl_constructs::words::{Word, has as has_word, has_length, has_size};
use idl_declared_types::kinds::Kind;
use idl_grammar::Attribute;
use idl_rule_definitions::{Finder, rule};
use idl_value_rules::marks::Mark;

/// Rule 21: whether a type may not tell the arms of a union apart.
pub(crate) fn may_not_be_switched(judge: &Judge<'_>, number: usize) -> bool
    ensures { result ≡ rules.may_not_be_switched (type_at judge.now.kinds.now number) }
{
    !judge.kind(number).may_be_switched()
}

/// Whether a non-encapsulated union may stand where a declarator does.
fn is_switched_place(asked: &Asked<'_>) -> bool
    ensures { result
        ≡ rules.is_switched_place (seen_position asked.now.construct.position)
        (has switch_is_word (map seen_attribute asked.now.construct.attributes.now)) }
{
    match asked.construct.position {
        Position::Typedef => true,
        Position::Member | Position::Parameter => {
            has_word(asked.construct.attributes, Word::SwitchIs)
        }
        _ => false,
    }
}

/// The types of a declarator in which no non-encapsulated union may stand.
fn without_union(judge: &Judge<'_>, asked: &Asked<'_>) -> Mark
    ensures { (s : Scene) (u : Use) → AreMarks s judge.now.kinds.now judge.now.marks.now
        → Holds s (rules.without_union (asked_use judge.now.kinds.now asked.now u)) result }
{
    if is_switched_place(asked) {
        judge.below_pointer(asked.typed.of)
    } else {
        judge.mark(asked.typed.of)
    }
}

/// Whether a type is a non-encapsulated union, or a pointer to one.
fn is_switched(judge: &Judge<'_>, number: usize) -> bool
    ensures { (s : Scene) → AreMarks s judge.now.kinds.now judge.now.marks.now → result ≡ rules.is_switched s (type_at judge.now.kinds.now number) }
{
    match judge.kind(number).pointee() {
        Some(to) => judge.mark(to).nonencapsulated,
        None => judge.mark(number).nonencapsulated,
    }
}

/// Rule 25: whether it has switch_is and is no such union, or the variable is of a wrong type.
fn has_wrong_switch(judge: &Judge<'_>, asked: &Asked<'_>) -> bool
    ensures { (s : Scene) (u : Use) → AreMarks s judge.now.kinds.now judge.now.marks.now → IsAsked s judge.now.kinds.now u asked.now
        → result ≡ rules.has_wrong_switch s u }
{
    has_word(asked.construct.attributes, Word::SwitchIs)
        && (!is_switched(judge, asked.typed.of) || asked.typed.wrong_switch_variable)
}

/// Rules 23 to 25 on a declarator.
pub(crate) fn note_unions(finder: &mut Finder<'_>, judge: &Judge<'_>, asked: &Asked<'_>)
    ensures files { finder.new.files.now ≡ finder.old.files.now }
    ensures next { (w : World) (s : Scene) (u : Use) (first : Option Breach) (before : List Breach)
        → w.files ≡ seen_files finder.old.files.now → AreMarks s judge.now.kinds.now judge.now.marks.now → IsAsked s judge.now.kinds.now u asked.now
        → option_map seen_breach finder.old.first ≡ noted w first before
        → option_map seen_breach finder.new.first ≡ noted w first (with_unions s u before) }
{
    let construct = &asked.construct;
    note(finder, construct, rule::CASES, is_wrongly_cased(construct));
    note(
        finder,
        construct,
        rule::USES_OF_UNIONS,
        without_union(judge, asked).holds_nonencapsulated,
    );
    note(
        finder,
        construct,
        rule::SWITCH_IS,
        has_wrong_switch(judge, asked),
    );
}

/// Whether `string` may stand on a type.
fn may_be_text(judge: &Judge<'_>, number: usize) -> bool
    ensures { result ≡ rules.may_be_text (type_at judge.now.kinds.now number) }
{
    match judge.kind(number) {
        Kind::Text { .. } => true,
        Kind::Array { element, .. } => judge.kind(element).is_octet(),
        Kind::Pointer { to, .. } => {
            let to = judge.kind(to);
            to.is_octet() || to.is_conformant_text()
        }
        _ => false,
    }
}

/// Rule 33: whether it has `string` and is no such type, or has length_is, first_is, last_is or any_length.
fn is_wrong_text(judge: &Judge<'_>, asked: &Asked<'_>) -> bool
    ensures { (u : Use) → result ≡ rules.is_wrong_text (asked_use judge.now.kinds.now asked.now u) }
{
    let attributes = asked.construct.attributes;
    has_word(attributes, Word::String)
        && (!may_be_text(judge, asked.typed.declared_as) || has_length(attributes))
}

/// Whether a list has two attributes of a maximum count.
fn has_two_sizes(attributes: &[Attribute]) -> bool
    ensures { result ≡ rules.has_two_sizes (map seen_attribute attributes.now) }
{
    has_word(attributes, Word::SizeIs) && has_word(attributes, Word::MaxIs)
        || has_word(attributes, Word::AnySize)
            && (has_word(attributes, Word::SizeIs) || has_word(attributes, Word::MaxIs))
}

/// Rule 34: whether it has size_is, max_is or any_size and may not, or has two of them, or is a conformant array without.
fn is_wrongly_sized(judge: &Judge<'_>, asked: &Asked<'_>) -> bool
    ensures { (u : Use) → result ≡ rules.is_wrongly_sized (asked_use judge.now.kinds.now asked.now u) }
{
    let attributes = asked.construct.attributes;
    if has_size(attributes) {
        !judge.kind(asked.typed.declared_as).may_be_sized() || has_two_sizes(attributes)
    } else {
        matches!(
            asked.construct.position,
            Position::Member | Position::Parameter
        ) && judge.kind(asked.typed.of).is_conformant_array()
    }
}

/// Whether length_is, first_is, last_is and any_length may stand on a type.
fn may_vary(judge: &Judge<'_>, is_sized: bool, number: usize) -> bool
    ensures { result ≡ rules.may_vary is_sized (type_at judge.now.kinds.now number) }
{
    match judge.kind(number) {
        Kind::Array { .. } => true,
        Kind::Pointer { to, .. } => is_sized && !judge.kind(to).is_text(),
        _ => false,
    }
}

/// Whether a list has both length_is and last_is, or any_length and one of the three others.
fn has_two_lengths(attributes: &[Attribute]) -> bool
    ensures { result ≡ rules.has_two_lengths (map seen_attribute attributes.now) }
{
    has_word(attributes, Word::LengthIs) && has_word(attributes, Word::LastIs)
        || has_word(attributes, Word::AnyLength)
            && (has_word(attributes, Word::FirstIs)
                || has_word(attributes, Word::LengthIs)
                || has_word(attributes, Word::LastIs))
}

/// Rule 35: whether it has length_is, first_is, last_is or any_length and may not, or has two of them that exclude each other.
fn is_wrongly_varying(judge: &Judge<'_>, asked: &Asked<'_>) -> bool
    ensures { (u : Use) → result ≡ rules.is_wrongly_varying (asked_use judge.now.kinds.now asked.now u) }
{
    let attributes = asked.construct.attributes;
    has_length(attributes)
        && (!may_vary(judge, has_size(attributes), asked.typed.of) || has_two_lengths(attributes))
}

/// Rules 33 to 37 on a declarator.
pub(crate) fn note_variables(finder: &mut Finder<'_>, judge: &Judge<'_>, asked: &Asked<'_>)
    ensures files { finder.new.files.now ≡ finder.old.files.now }
    ensures next { (w : World) (s : Scene) (u : Use) (first : Option Breach) (before : List Breach)
        → w.files ≡ seen_files finder.old.files.now → AreMarks s judge.now.kinds.now judge.now.marks.now → IsAsked s judge.now.kinds.now u asked.now
        → option_map seen_breach finder.old.first ≡ noted w first before
        → option_map seen_breach finder.new.first ≡ noted w first (with_variables s u before) }
{
    let construct = &asked.construct;
    note(finder, construct, rule::TEXTS, is_wrong_text(judge, asked));
    note(
        finder,
        construct,
        rule::SIZES,
        is_wrongly_sized(judge, asked),
    );
    note(
        finder,
        construct,
        rule::LENGTHS,
        is_wrongly_varying(judge, asked),
    );
    note(finder, construct, rule::VARIABLES, asked.no_variable);
    note(
        finder,
        construct,
        rule::INTEGER_VARIABLES,
        asked.typed.wrong_variable,
    );
}
