// The rules of types and of where each kind of type may stand (C706, sections 4.2.8 to 4.2.16).
ghost use Rattle.std.specs.Prelude.{◌≡◌, ◌&&◌, not, map, List, Option, option_map};
ghost use Rattle.idl_scope.specs.Seen.{seen_files};
ghost use Rattle.idl_grammar.specs.Seen.{seen_attribute};
ghost use Rattle.idl_rule_definitions.specs.Nodes.{World};
ghost use Rattle.idl_rule_definitions.specs.Scene.{Scene, Use};
ghost use Rattle.idl_rule_definitions.specs.Rules.{Breach};
ghost use Rattle.idl_rule_definitions.specs.TypeRules as rules;
ghost use Rattle.idl_declared_types.specs.Kinds.{type_at};
ghost use Rattle.idl_constructs.specs.SeenNodes.{seen_position, seen_construct};
ghost use Rattle.idl_value_rules.specs.SeenMarks.{AreMarks};
ghost use Rattle.idl_rule_definitions.specs.Noted.{noted};
ghost use Rattle.idl_rule_definitions.specs.Found.{seen_breach};
ghost use Rattle.idl_value_rules.specs.SeenMarks.{Holds};
ghost use Rattle.idl_rules.specs.Asked.{asked_use, IsAsked, with_types};
ghost use Rattle.idl_rule_definitions.specs.Attributes.{has, in_word, out_word};

use crate::asked::{Asked, Judge, note};
use idl_constructs::nodes::Position;
use idl_constructs::words::{Word, has as has_word};
use idl_rule_definitions::{Finder, rule};
use idl_value_rules::marks::Mark;

/// The types of a declarator in which no `void` may stand.
fn without_void(judge: &Judge<'_>, asked: &Asked<'_>) -> Mark
    ensures { (s : Scene) → AreMarks s judge.now.kinds.now judge.now.marks.now
        → Holds s (rules.without_void (seen_position asked.now.construct.position) (type_at judge.now.kinds.now asked.now.typed.of)) result }
{
    match asked.construct.position {
        Position::Operation => judge.below(asked.typed.of),
        _ => judge.mark(asked.typed.of),
    }
}

/// Whether a declarator is `[in]`, and not `[out]`.
fn is_in_alone(asked: &Asked<'_>) -> bool
    ensures { result
        ≡ (has in_word (map seen_attribute asked.now.construct.attributes.now)
        && not (has out_word (map seen_attribute asked.now.construct.attributes.now))) }
{
    has_word(asked.construct.attributes, Word::In)
        && !has_word(asked.construct.attributes, Word::Out)
}

/// Those in which no `handle_t` may stand.
fn without_handle(judge: &Judge<'_>, asked: &Asked<'_>) -> Mark
    ensures { (s : Scene) → AreMarks s judge.now.kinds.now judge.now.marks.now
        → Holds s
        (rules.without_handle (seen_position asked.now.construct.position)
        (has in_word (map seen_attribute asked.now.construct.attributes.now)
        && not (has out_word (map seen_attribute asked.now.construct.attributes.now))) (type_at judge.now.kinds.now asked.now.typed.of)) result }
{
    let alone = is_in_alone(asked);
    match (asked.construct.position, alone) {
        (Position::Parameter, true) => judge.below(asked.typed.of),
        _ => judge.mark(asked.typed.of),
    }
}

/// Those in which neither pipe nor context handle may stand.
fn without_pipe(judge: &Judge<'_>, asked: &Asked<'_>) -> Mark
    ensures { (s : Scene) → AreMarks s judge.now.kinds.now judge.now.marks.now
        → Holds s (rules.without_pipe (seen_position asked.now.construct.position) (type_at judge.now.kinds.now asked.now.typed.of)) result }
{
    match asked.construct.position {
        Position::Typedef | Position::Parameter => judge.below_reference(asked.typed.of),
        _ => judge.mark(asked.typed.of),
    }
}

/// Rule 9: whether it has `context_handle` and is none.
fn is_no_context_handle(judge: &Judge<'_>, asked: &Asked<'_>) -> bool
    ensures { (u : Use) → result ≡ rules.is_no_context_handle (asked_use judge.now.kinds.now asked.now u) }
{
    has_word(asked.construct.attributes, Word::ContextHandle)
        && !judge.kind(asked.typed.of).is_context()
}

/// Rule 32: whether it is an operation's result that is neither `void` nor primitive nor an enumerated type.
pub(crate) fn is_wrong_result(judge: &Judge<'_>, asked: &Asked<'_>) -> bool
    ensures { (u : Use) → result ≡ rules.is_wrong_result (asked_use judge.now.kinds.now asked.now u) }
{
    asked.construct.position == Position::Operation && !judge.kind(asked.typed.of).is_result()
}

/// Rules 6 to 12 on a declarator, but for 11, which is of bodies.
pub(crate) fn note_types(finder: &mut Finder<'_>, judge: &Judge<'_>, asked: &Asked<'_>)
    ensures files { finder.new.files.now ≡ finder.old.files.now }
    ensures next { (w : World) (s : Scene) (u : Use) (first : Option Breach) (before : List Breach)
        → w.files ≡ seen_files finder.old.files.now → AreMarks s judge.now.kinds.now judge.now.marks.now → IsAsked s judge.now.kinds.now u asked.now
        → option_map seen_breach finder.old.first ≡ noted w first before
        → option_map seen_breach finder.new.first ≡ noted w first (with_types s u before) }
{
    let construct = &asked.construct;
    note(
        finder,
        construct,
        rule::VOID,
        without_void(judge, asked).holds_void,
    );
    note(
        finder,
        construct,
        rule::HANDLE,
        without_handle(judge, asked).holds_handle,
    );
    let within = without_pipe(judge, asked);
    note(finder, construct, rule::PIPES, within.holds_pipe);
    note(
        finder,
        construct,
        rule::CONTEXT_HANDLE,
        is_no_context_handle(judge, asked),
    );
    note(
        finder,
        construct,
        rule::CONTEXT_HANDLES,
        within.holds_context,
    );
    note(
        finder,
        construct,
        rule::NESTING,
        judge.mark(asked.typed.of).holds_deep_array,
    );
}
