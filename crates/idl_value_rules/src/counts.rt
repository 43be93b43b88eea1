// Rule 39: there are not too many types, operations, parameters, members and arms.
ghost use Rattle.idl_rule_definitions.specs.declared.rule.TheConstants as Rule;
ghost use Rattle.std.specs.Prelude.{◌≡◌, ◌-◌, ◌&&◌, List, [], ◌∷◌, map, nat_lt, nat_le, length, replicate, option_map};
ghost use Rattle.std.specs.List.{flat_map};
ghost use Rattle.idl_scope.specs.Known.{Known};
ghost use Rattle.idl_scope.specs.Seen.{seen_files};
ghost use Rattle.idl_declared_types.specs.declared.kinds.Kind.{Kind as program_kind};
ghost use Rattle.idl_rule_definitions.specs.Nodes.{World};
ghost use Rattle.idl_rule_definitions.specs.Rules.{breach};
ghost use Rattle.idl_rule_definitions.specs.DeclarationRules as rules;
ghost use Rattle.idl_rule_definitions.specs.DeclarationRules.{first_past};
ghost use Rattle.idl_rule_definitions.specs.Noted.{noted};
ghost use Rattle.idl_rule_definitions.specs.Found.{seen_breach};
ghost use Rattle.idl_constructs.specs.SeenNodes.{seen_construct};
ghost use Rattle.idl_declared_types.specs.SeenTypes.{scene_seen};
ghost use Rattle.idl_declared_types.specs.SeenNumbers.{AreNumbers};
ghost use Rattle.idl_value_rules.specs.SeenCounts as seen;
ghost use Rattle.idl_value_rules.specs.SeenCounts.{numbered, one_too_many, operations_at, parts_at};
ghost use Rattle.idl_rule_definitions.specs.Nodes as of_rules;
ghost use Rattle.idl_grammar.specs.Reading.{cases_of, arms_of};
ghost use Rattle.idl_grammar.specs.Seen.{seen_attribute, seen_kind, seen_arm, seen_case, seen_type};

use idl_constructs::nodes::{Construct, Declared, Node, Nodes, Position};
use idl_declared_types::labels::arm_attributes;
use idl_declared_types::numbering::{Numbers, Own};
use idl_grammar::{Arm, Attribute, AttributeKind, Case, TypeSpec};
use idl_rule_definitions::{Finder, rule};
use nd_types::{BASIC_TYPES, MEMBER_LIMIT, OPERATION_LIMIT, PARAM_LIMIT, TYPE_LIMIT};

/// Notes the first of the types past a limit, if there is one.
fn types(finder: &mut Finder<'_>, own: &[Own], limit: usize)
    ensures files { finder.new.files.now ≡ finder.old.files.now }
    ensures first { (w : World) → w.files ≡ seen_files finder.old.files.now
        → option_map seen_breach finder.new.first
        ≡ noted w (option_map seen_breach finder.old.first) (map (λ o. breach Rule.COUNTS o.place) (first_past limit own.now)) }
{
    if let Some(first) = own.get(limit) {
        finder.note(rule::COUNTS, first.place, true);
    }
}

/// Whether the thing with this number, counted from 1, is among so many.
fn is_among(number: usize, count: usize) -> bool
    ensures { result ≡ (nat_lt 0 number && nat_le number count) }
{
    0 < number && number <= count
}

/// Notes a construct if the thing that is due is among those it has, and gives the number of the one that is due after them. Numbers
/// count from 1, and 0 stands for none.
fn pass(finder: &mut Finder<'_>, construct: &Construct<'_>, count: usize, due: usize) -> usize
    ensures due { result ≡ due - count }
    ensures files { finder.new.files.now ≡ finder.old.files.now }
    ensures first { (w : World) → w.files ≡ seen_files finder.old.files.now
        → option_map seen_breach finder.new.first
        ≡ noted w (option_map seen_breach finder.old.first) (map one_too_many (numbered due (replicate count (seen_construct construct.now)))) }
{
    finder.note(
        rule::COUNTS,
        construct.place(construct.at),
        is_among(due, count),
    );
    due.saturating_sub(count)
}

/// Notes an operation if it is the one that is due, and gives the number of the one that is due after it.
fn operation(finder: &mut Finder<'_>, node: &Node<'_>, due: usize) -> usize
    ensures due { result ≡ due - length (operations_at node.now) }
    ensures files { finder.new.files.now ≡ finder.old.files.now }
    ensures first { (w : World) → w.files ≡ seen_files finder.old.files.now
        → option_map seen_breach finder.new.first
        ≡ noted w (option_map seen_breach finder.old.first) (map one_too_many (numbered due (operations_at node.now))) }
{
    match node {
        Node::Operation { it, .. } => pass(finder, &it.construct, 1, due),
        _ => due,
    }
}

/// Notes the operation with this number, counted from 1.
fn operations(finder: &mut Finder<'_>, nodes: &[Node<'_>], number: usize)
    ensures files { finder.new.files.now ≡ finder.old.files.now }
    ensures first { (w : World) → w.files ≡ seen_files finder.old.files.now
        → option_map seen_breach finder.new.first
        ≡ noted w (option_map seen_breach finder.old.first) (map one_too_many (numbered number (flat_map operations_at nodes.now))) }
{
    let mut due = number;
    for node in nodes {
        due = operation(finder, node, due);
    }
}

/// Notes a construct.
fn note_one(finder: &mut Finder<'_>, construct: &Construct<'_>)
    ensures files { finder.new.files.now ≡ finder.old.files.now }
    ensures first { (w : World) → w.files ≡ seen_files finder.old.files.now
        → option_map seen_breach finder.new.first
        ≡ noted w (option_map seen_breach finder.old.first) (one_too_many (seen_construct construct.now) ∷ []) }
{
    finder.note(rule::COUNTS, construct.place(construct.at), true);
}

/// Notes the first parameter of a list past a limit, if there is one.
fn parameters_of(finder: &mut Finder<'_>, list: &[Declared<'_>], limit: usize)
    ensures files { finder.new.files.now ≡ finder.old.files.now }
    ensures first { (w : World) → w.files ≡ seen_files finder.old.files.now
        → option_map seen_breach finder.new.first
        ≡ noted w (option_map seen_breach finder.old.first) (map (λ p. one_too_many (seen_construct p.construct)) (first_past limit list.now)) }
{
    if let Some(first) = list.get(limit) {
        note_one(finder, &first.construct);
    }
}

/// Notes the first parameter of a node past a limit, if there is one.
fn parameters_at(finder: &mut Finder<'_>, nodes: &Nodes<'_>, node: &Node<'_>, limit: usize)
    ensures files { finder.new.files.now ≡ finder.old.files.now }
    ensures first { (w : World) → w.files ≡ seen_files finder.old.files.now
        → option_map seen_breach finder.new.first
        ≡ noted w (option_map seen_breach finder.old.first) (map one_too_many (seen.parameters_at nodes.now.lists.items limit node.now)) }
{
    let Node::Operation { parameters, .. } = node else {
        return;
    };
    if let Some(list) = nodes.list(*parameters) {
        parameters_of(finder, list, limit);
    }
}

/// Notes the first parameter of each operation past a limit, if there is one.
fn parameters(finder: &mut Finder<'_>, nodes: &Nodes<'_>, limit: usize)
    ensures files { finder.new.files.now ≡ finder.old.files.now }
    ensures first { (w : World) → w.files ≡ seen_files finder.old.files.now
        → option_map seen_breach finder.new.first
        ≡ noted w (option_map seen_breach finder.old.first)
        (map one_too_many (flat_map (seen.parameters_at nodes.now.lists.items limit) nodes.now.items.items)) }
{
    for node in &nodes.items {
        parameters_at(finder, nodes, node, limit);
    }
}

/// How many labels an attribute gives.
fn labels_said(attribute: &Attribute) -> usize
    ensures { result ≡ length (of_rules.labels_said attribute.now.at (seen_kind attribute.now.kind)) }
{
    match &attribute.kind {
        AttributeKind::Case(values) => values.len(),
        AttributeKind::Default => 1,
        _ => 0,
    }
}

/// Notes a construct if the label that is due is among those that attributes give, and gives the number of the one that is due after them.
fn labels_in(
    finder: &mut Finder<'_>,
    construct: &Construct<'_>,
    attributes: &[Attribute],
    number: usize,
) -> usize
    ensures due { result ≡ number - length (of_rules.labels_in (map seen_attribute attributes.now)) }
    ensures files { finder.new.files.now ≡ finder.old.files.now }
    ensures first { (w : World) → w.files ≡ seen_files finder.old.files.now
        → option_map seen_breach finder.new.first
        ≡ noted w (option_map seen_breach finder.old.first)
        (map one_too_many
        (numbered number (replicate (length (of_rules.labels_in (map seen_attribute attributes.now))) (seen_construct construct.now)))) }
{
    let mut due = number;
    for attribute in attributes {
        due = pass(finder, construct, labels_said(attribute), due);
    }
    due
}

/// Notes a construct if the label that is due is among those of arms, and gives the number of the one that is due after them.
fn labels_of_arms(
    finder: &mut Finder<'_>,
    construct: &Construct<'_>,
    arms: &Vec<Arm>,
    number: usize,
) -> usize
    ensures due { result ≡ number - length (flat_map (λ a. a.labels) (of_rules.arms_of_arms (arms_of (map seen_arm arms.now.items)))) }
    ensures files { finder.new.files.now ≡ finder.old.files.now }
    ensures first { (w : World) → w.files ≡ seen_files finder.old.files.now
        → option_map seen_breach finder.new.first
        ≡ noted w (option_map seen_breach finder.old.first)
        (map one_too_many
        (numbered number
        (replicate (length (flat_map (λ a. a.labels) (of_rules.arms_of_arms (arms_of (map seen_arm arms.now.items)))))
        (seen_construct construct.now)))) }
{
    let mut due = number;
    for arm in arms {
        due = labels_in(finder, construct, arm_attributes(arm), due);
    }
    due
}

/// How many labels a case has.
fn labels_of_case(case: &Case) -> usize
    ensures { result ≡ length case.now.labels.items }
{
    case.labels.len()
}

/// Notes a construct if the label that is due is among those of cases, and gives the number of the one that is due after them.
fn labels_of_cases(
    finder: &mut Finder<'_>,
    construct: &Construct<'_>,
    cases: &Vec<Case>,
    number: usize,
) -> usize
    ensures due { result ≡ number - length (flat_map (λ a. a.labels) (of_rules.arms_of_cases (cases_of (map seen_case cases.now.items)))) }
    ensures files { finder.new.files.now ≡ finder.old.files.now }
    ensures first { (w : World) → w.files ≡ seen_files finder.old.files.now
        → option_map seen_breach finder.new.first
        ≡ noted w (option_map seen_breach finder.old.first)
        (map one_too_many
        (numbered number
        (replicate (length (flat_map (λ a. a.labels) (of_rules.arms_of_cases (cases_of (map seen_case cases.now.items)))))
        (seen_construct construct.now)))) }
{
    let mut due = number;
    for case in cases {
        due = pass(finder, construct, labels_of_case(case), due);
    }
    due
}

/// Notes a construct if the label that is due is among those of a union, and gives the number of the one that is due after them.
fn labels(finder: &mut Finder<'_>, construct: &Construct<'_>, body: &TypeSpec, due: usize) -> usize
    ensures due { result ≡ due - length (of_rules.labels_of (seen_type body.now)) }
    ensures files { finder.new.files.now ≡ finder.old.files.now }
    ensures first { (w : World) → w.files ≡ seen_files finder.old.files.now
        → option_map seen_breach finder.new.first
        ≡ noted w (option_map seen_breach finder.old.first)
        (map one_too_many (numbered due (replicate (length (of_rules.labels_of (seen_type body.now))) (seen_construct construct.now)))) }
{
    match body {
        TypeSpec::EncapsulatedUnion { cases, .. } => labels_of_cases(finder, construct, cases, due),
        TypeSpec::NonEncapsulatedUnion { arms, .. } => labels_of_arms(finder, construct, arms, due),
        _ => due,
    }
}

/// Notes a member if it is the one that is due, and gives the number of the one that is due after it.
fn member(finder: &mut Finder<'_>, construct: &Construct<'_>, due: usize) -> usize
    ensures due { result ≡ due - length (rules.member_of (seen_construct construct.now).position (seen_construct construct.now)) }
    ensures files { finder.new.files.now ≡ finder.old.files.now }
    ensures first { (w : World) → w.files ≡ seen_files finder.old.files.now
        → option_map seen_breach finder.new.first
        ≡ noted w (option_map seen_breach finder.old.first)
        (map one_too_many (numbered due (rules.member_of (seen_construct construct.now).position (seen_construct construct.now)))) }
{
    match construct.position {
        Position::Member => pass(finder, construct, 1, due),
        _ => due,
    }
}

/// Notes a node if the member or label that is due is among those it stands for, and gives the number of the one that is due after them.
fn part(finder: &mut Finder<'_>, node: &Node<'_>, due: usize) -> usize
    ensures due { result ≡ due - length (parts_at node.now) }
    ensures files { finder.new.files.now ≡ finder.old.files.now }
    ensures first { (w : World) → w.files ≡ seen_files finder.old.files.now
        → option_map seen_breach finder.new.first
        ≡ noted w (option_map seen_breach finder.old.first) (map one_too_many (numbered due (parts_at node.now))) }
{
    match node {
        Node::Declarator { it, .. } => member(finder, &it.construct, due),
        Node::Result { it } => member(finder, &it.construct, due),
        Node::Labels { construct, body } => labels(finder, construct, body, due),
        _ => due,
    }
}

/// Notes the member or label with this number, counted from 1.
fn parts(finder: &mut Finder<'_>, nodes: &[Node<'_>], number: usize)
    ensures files { finder.new.files.now ≡ finder.old.files.now }
    ensures first { (w : World) → w.files ≡ seen_files finder.old.files.now
        → option_map seen_breach finder.new.first
        ≡ noted w (option_map seen_breach finder.old.first) (map one_too_many (numbered number (flat_map parts_at nodes.now))) }
{
    let mut due = number;
    for node in nodes {
        due = part(finder, node, due);
    }
}

/// Notes the first type, the first operation, the first parameter of each operation, and the first member or label that are one too many.
pub fn too_many(finder: &mut Finder<'_>, nodes: &Nodes<'_>, numbers: &Numbers)
    ensures files { finder.new.files.now ≡ finder.old.files.now }
    ensures first { (w : World) (known : Known) (ks : List program_kind) → w.files ≡ seen_files finder.old.files.now
        → AreNumbers (scene_seen known nodes.now) ks numbers.now
        → option_map seen_breach finder.new.first
        ≡ noted w (option_map seen_breach finder.old.first) (map one_too_many (rules.too_many (scene_seen known nodes.now))) }
{
    types(
        finder,
        numbers.own.as_slice(),
        (TYPE_LIMIT - BASIC_TYPES) as usize,
    );
    operations(finder, nodes.items.as_slice(), OPERATION_LIMIT as usize + 1);
    parameters(finder, nodes, PARAM_LIMIT as usize);
    parts(finder, nodes.items.as_slice(), MEMBER_LIMIT as usize + 1);
}
