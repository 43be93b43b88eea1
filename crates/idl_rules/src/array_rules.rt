// The rules of arrays, texts and pipes, and of what hoists a maximum count (C706, sections 4.2.15 to 4.2.17).
ghost use Rattle.std.specs.Prelude.{◌≡◌, ◌&&◌, not, map, List, Option, option_map};
ghost use Rattle.idl_scope.specs.Seen.{seen_files};
ghost use Rattle.idl_grammar.specs.Seen.{seen_attribute};
ghost use Rattle.idl_rule_definitions.specs.Nodes.{World};
ghost use Rattle.idl_rule_definitions.specs.Scene.{Scene, Use};
ghost use Rattle.idl_rule_definitions.specs.Rules.{Breach};
ghost use Rattle.idl_rule_definitions.specs.TypeRules as rules;
ghost use Rattle.idl_declared_types.specs.Kinds.{type_at};
ghost use Rattle.idl_constructs.specs.SeenNodes.{seen_position, seen_construct};
ghost use Rattle.idl_value_rules.specs.SeenMarks.{AreMarks};
ghost use Rattle.idl_rule_definitions.specs.Noted.{noted};
ghost use Rattle.idl_rule_definitions.specs.Found.{seen_breach};
ghost use Rattle.idl_value_rules.specs.SeenMarks.{Holds};
ghost use Rattle.idl_rules.specs.Asked.{asked_use, IsAsked, is_followed, with_arrays};

use crate::asked::{Asked, Judge, note};
use idl_constructs::nodes::Position;
use idl_constructs::words::{Word, has, has_length};
use idl_rule_definitions::{Finder, rule};

/// Rule 16: whether an array of more than one dimension is not fixed in each, or has length_is, first_is, last_is or `string`.
fn has_wrong_dimensions(judge: &Judge<'_>, asked: &Asked<'_>) -> bool
    ensures { (s : Scene) (u : Use) → AreMarks s judge.now.kinds.now judge.now.marks.now
        → result ≡ rules.has_wrong_dimensions (asked_use judge.now.kinds.now asked.now u) }
{
    let declared_as = judge.mark(asked.typed.declared_as);
    let attributes = asked.construct.attributes;
    declared_as.holds_many_not_fixed
        || judge.mark(asked.typed.of).holds_many_not_fixed
        || declared_as.many_dimensions && (has_length(attributes) || has(attributes, Word::String))
}

/// Rule 18: whether a member hoists that is not the last.
fn hoists_before_last(judge: &Judge<'_>, asked: &Asked<'_>) -> bool
    ensures { (s : Scene) (u : Use) → AreMarks s judge.now.kinds.now judge.now.marks.now → asked.now.followed ≡ is_followed u
        → result ≡ rules.hoists_before_last s (asked_use judge.now.kinds.now asked.now u) }
{
    asked.construct.position == Position::Member
        && asked.followed
        && judge.mark(asked.typed.of).hoists
}

/// Rule 19: whether an arm of a union hoists.
fn is_hoisting_arm(judge: &Judge<'_>, asked: &Asked<'_>) -> bool
    ensures { (s : Scene) (u : Use) → AreMarks s judge.now.kinds.now judge.now.marks.now
        → result ≡ rules.is_hoisting_arm s (asked_use judge.now.kinds.now asked.now u) }
{
    matches!(asked.construct.position, Position::Arm | Position::CasedArm)
        && judge.mark(asked.typed.of).hoists
}

/// Rules 14 to 20 on a declarator.
pub(crate) fn note_arrays(finder: &mut Finder<'_>, judge: &Judge<'_>, asked: &Asked<'_>)
    ensures files { finder.new.files.now ≡ finder.old.files.now }
    ensures next { (w : World) (s : Scene) (u : Use) (first : Option Breach) (before : List Breach)
        → w.files ≡ seen_files finder.old.files.now → AreMarks s judge.now.kinds.now judge.now.marks.now → IsAsked s judge.now.kinds.now u asked.now
        → option_map seen_breach finder.old.first ≡ noted w first before
        → option_map seen_breach finder.new.first ≡ noted w first (with_arrays s u before) }
{
    let construct = &asked.construct;
    let of = judge.mark(asked.typed.of);
    note(
        finder,
        construct,
        rule::ELEMENTS,
        judge.mark(asked.typed.declared_as).holds_wrong_count,
    );
    note(finder, construct, rule::LOWER_BOUNDS, asked.lower_bounds);
    note(
        finder,
        construct,
        rule::SEVERAL_DIMENSIONS,
        has_wrong_dimensions(judge, asked),
    );
    note(
        finder,
        construct,
        rule::ELEMENTS_OF_ARRAYS,
        of.holds_wrong_element,
    );
    note(
        finder,
        construct,
        rule::MEMBERS_THAT_HOIST,
        hoists_before_last(judge, asked),
    );
    note(
        finder,
        construct,
        rule::ARMS_THAT_HOIST,
        is_hoisting_arm(judge, asked),
    );
    note(
        finder,
        construct,
        rule::ELEMENTS_OF_PIPES,
        of.holds_wrong_pipe,
    );
}
