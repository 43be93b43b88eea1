// The rules of pointers, and of the types of parameters (C706, sections 4.2.13 to 4.2.20).
ghost use Rattle.std.specs.Prelude.{◌≡◌, ◌&&◌, not, map, List, Option, option_map};
ghost use Rattle.idl_scope.specs.Seen.{seen_files};
ghost use Rattle.idl_grammar.specs.Seen.{seen_attribute};
ghost use Rattle.idl_rule_definitions.specs.Nodes.{World};
ghost use Rattle.idl_rule_definitions.specs.Scene.{Scene, Use};
ghost use Rattle.idl_rule_definitions.specs.Rules.{Breach};
ghost use Rattle.idl_rule_definitions.specs.TypeRules as rules;
ghost use Rattle.idl_rule_definitions.specs.Attributes.{has, out_word};
ghost use Rattle.idl_rule_definitions.specs.DeclarationRules.{is_parameter};
ghost use Rattle.idl_declared_types.specs.Kinds.{type_at};
ghost use Rattle.idl_constructs.specs.SeenNodes.{seen_position, seen_construct};
ghost use Rattle.idl_value_rules.specs.SeenMarks.{AreMarks};
ghost use Rattle.idl_rule_definitions.specs.Noted.{noted};
ghost use Rattle.idl_rule_definitions.specs.Found.{seen_breach};
ghost use Rattle.idl_value_rules.specs.SeenMarks.{Holds};
ghost use Rattle.idl_rules.specs.Asked.{asked_use, IsAsked, with_pointers};

use crate::asked::{Asked, Judge, note};
use crate::declaration_rules::lacks_direction;
use crate::type_rules::is_wrong_result;
use idl_constructs::nodes::{Construct, Position};
use idl_constructs::words::{Word, has as has_word, has_class};
use idl_rule_definitions::{Finder, rule};

/// Rule 26: whether it has a class and is no pointer.
fn has_class_without_pointer(judge: &Judge<'_>, asked: &Asked<'_>) -> bool
    ensures { (u : Use) → result ≡ rules.has_class_without_pointer (asked_use judge.now.kinds.now asked.now u) }
{
    has_class(asked.construct.attributes) && !judge.kind(asked.typed.declared_as).is_pointer()
}

/// Whether it is an `[out]` parameter.
fn is_out(construct: &Construct<'_>) -> bool
    ensures { result ≡ (is_parameter (seen_position construct.now.position) && has out_word (map seen_attribute construct.now.attributes.now)) }
{
    construct.position == Position::Parameter && has_word(construct.attributes, Word::Out)
}

/// Rule 29: whether a pointer that is [out] alone is no reference pointer.
fn is_nullable_out(judge: &Judge<'_>, asked: &Asked<'_>) -> bool
    ensures { (u : Use) → result ≡ rules.is_nullable_out (asked_use judge.now.kinds.now asked.now u) }
{
    let of = judge.kind(asked.typed.of);
    is_out(&asked.construct)
        && !has_word(asked.construct.attributes, Word::In)
        && of.is_pointer()
        && !of.is_reference()
}

/// Rule 31: whether an out parameter is neither array nor text nor pipe nor pointer.
fn is_wrong_out(judge: &Judge<'_>, asked: &Asked<'_>) -> bool
    ensures { (u : Use) → result ≡ rules.is_wrong_out (asked_use judge.now.kinds.now asked.now u) }
{
    is_out(&asked.construct) && !judge.kind(asked.typed.of).is_out()
}

/// Rules 26 to 32 on a declarator.
pub(crate) fn note_pointers(finder: &mut Finder<'_>, judge: &Judge<'_>, asked: &Asked<'_>)
    ensures files { finder.new.files.now ≡ finder.old.files.now }
    ensures next { (w : World) (s : Scene) (u : Use) (first : Option Breach) (before : List Breach)
        → w.files ≡ seen_files finder.old.files.now → AreMarks s judge.now.kinds.now judge.now.marks.now → IsAsked s judge.now.kinds.now u asked.now
        → option_map seen_breach finder.old.first ≡ noted w first before
        → option_map seen_breach finder.new.first ≡ noted w first (with_pointers s u before) }
{
    let construct = &asked.construct;
    let misplaced = has_class_without_pointer(judge, asked);
    note(finder, construct, rule::CLASSES_ON_POINTERS, misplaced);
    let declared = judge.mark(asked.typed.declared_as);
    note(
        finder,
        construct,
        rule::CLASS_OF_EACH_POINTER,
        declared.holds_classless,
    );
    let of = judge.mark(asked.typed.of);
    note(
        finder,
        construct,
        rule::NO_POINTER_TO_REFERENCE,
        of.holds_reference_behind,
    );
    let nullable = is_nullable_out(judge, asked);
    note(finder, construct, rule::OUT_POINTERS, nullable);
    let undirected = lacks_direction(construct);
    note(finder, construct, rule::DIRECTIONS, undirected);
    let wrong_out = is_wrong_out(judge, asked);
    note(finder, construct, rule::OUT_PARAMETERS, wrong_out);
    let wrong_result = is_wrong_result(judge, asked);
    note(finder, construct, rule::RESULTS, wrong_result);
}
