// Rules 5 to 38, node by node.
ghost use Rattle.std.specs.Prelude.{◌≡◌, ◌+◌, nat_lt, List, [], Option, Some, length, option_map, OnOk};
ghost use Rattle.std.specs.List.{slice_get};
ghost use Rattle.idl_grammar.specs.Seen.{seen_type};
ghost use Rattle.idl_scope.specs.Seen.{seen_files, known_in};
ghost use Rattle.idl_declared_types.specs.declared.kinds.Kind as kind;
ghost use Rattle.idl_rule_definitions.specs.Nodes.{World};
ghost use Rattle.idl_rule_definitions.specs.Types.{Names};
ghost use Rattle.idl_rule_definitions.specs.Scene.{Scene, Use, Body, use_of, type_of_body};
ghost use Rattle.idl_rule_definitions.specs.Rules.{Breach, breaches_of_use};
ghost use Rattle.idl_declared_types.specs.Kinds.{type_at};
ghost use Rattle.idl_constructs.specs.SeenNodes.{seen_construct, seen_declared, seen_result, list_at};
ghost use Rattle.idl_declared_types.specs.SeenTypes.{scene_seen, names_at, IsTypedUse, IsTyped, IsTypes};
ghost use Rattle.idl_value_rules.specs.SeenMarks.{AreMarks};
ghost use Rattle.idl_rule_definitions.specs.Noted.{noted};
ghost use Rattle.idl_rule_definitions.specs.Found.{seen_breach};
ghost use Rattle.idl_rules.specs.Asked.{IsAsked, body_breaches, switch_breaches, empty_arm_breaches};
ghost use Rattle.idl_rule_definitions.specs.OtherBreaches.{other_breaches};
ghost use Rattle.idl_value_rules.specs.RestBreaches.{rest_breaches};
ghost use Rattle.idl_rules.specs.Asked.{program_breaches};

use crate::array_rules::note_arrays;
use crate::asked::{Asked, Judge, note};
use crate::declaration_rules::{has_no_body, is_wrongly_cased, lacks_switch_type};
use crate::pointer_rules::note_pointers;
use crate::type_rules::note_types;
use crate::variable_rules::{may_not_be_switched, note_unions, note_variables};
use idl_constructs::nodes::{Construct, Declared, Node, Nodes, Returned};
use idl_constructs::words::{Word, has, has_class};
use idl_declared_types::types::{Typed, Types};
use idl_grammar::TypeSpec;
use idl_rule_definitions::{Finder, rule};
use idl_scope::Scope;
use idl_value_rules::cycle_rule::note_cycles;
use idl_value_rules::label_rule::labels;
use idl_value_rules::marks::Marks;
use idl_value_rules::values::{constant, enumerators, has_lower_bounds, second_classes};
use nd_base::Memory;
use std::alloc::Global;

/// Whether others come after one of so many.
fn is_before_last(index: usize, count: usize) -> bool
    ensures { result ≡ nat_lt (index + 1) count }
{
    index < count.saturating_sub(1)
}

/// Whether others stand after one in a list.
fn is_followed(nodes: &Nodes<'_>, list: usize, index: usize) -> bool
    ensures { result ≡ nat_lt (index + 1) (length (list_at nodes.now.lists.items list)) }
{
    match nodes.lists.get(list) {
        Some(list) => is_before_last(index, list.len()),
        None => false,
    }
}

/// A declarator with its list.
fn asked_listed<'t>(
    scope: &Scope,
    nodes: &Nodes<'t>,
    list: usize,
    index: usize,
    it: &Declared<'t>,
    typed: &Typed,
) -> Asked<'t>
    ensures { (s : Scene) (names : Names) (ks : List kind.Kind) → s.known ≡ known_in scope.now
        → IsTypedUse s ks (use_of s.known names (list_at nodes.now.lists.items list) index (seen_declared it.now)) typed.now
        → IsAsked s ks (use_of s.known names (list_at nodes.now.lists.items list) index (seen_declared it.now)) result }
{
    Asked {
        construct: it.construct,
        typed: *typed,
        followed: is_followed(nodes, list, index),
        lower_bounds: has_lower_bounds(scope, it.declarator),
        no_variable: typed.no_variable,
    }
}

/// The result of an operation.
fn asked_result<'t>(it: &Returned<'t>, typed: &Typed) -> Asked<'t>
    ensures { (s : Scene) (names : Names) (ks : List kind.Kind) → IsTypedUse s ks (use_of s.known names [] 0 (seen_result it.now)) typed.now
        → IsAsked s ks (use_of s.known names [] 0 (seen_result it.now)) result }
{
    let construct = Construct {
        file: it.construct.file,
        position: it.construct.position,
        at: it.construct.at,
        attributes: &[],
        default: it.construct.default,
    };
    Asked {
        construct,
        typed: *typed,
        followed: false,
        lower_bounds: false,
        no_variable: false,
    }
}

/// The rules on a declarator.
fn note_use(finder: &mut Finder<'_>, judge: &Judge<'_>, asked: &Asked<'_>)
    ensures files { finder.new.files.now ≡ finder.old.files.now }
    ensures first { (w : World) (s : Scene) (u : Use) → w.files ≡ seen_files finder.old.files.now → AreMarks s judge.now.kinds.now judge.now.marks.now
        → IsAsked s judge.now.kinds.now u asked.now
        → option_map seen_breach finder.new.first ≡ noted w (option_map seen_breach finder.old.first) (breaches_of_use s u) }
{
    note_types(finder, judge, asked);
    note_arrays(finder, judge, asked);
    note_unions(finder, judge, asked);
    note_pointers(finder, judge, asked);
    note_variables(finder, judge, asked);
}

/// The rules on a type that is to tell the arms of a union apart.
fn note_switch(finder: &mut Finder<'_>, judge: &Judge<'_>, construct: &Construct<'_>, of: usize)
    ensures files { finder.new.files.now ≡ finder.old.files.now }
    ensures first { (w : World) (s : Scene) → w.files ≡ seen_files finder.old.files.now → AreMarks s judge.now.kinds.now judge.now.marks.now
        → option_map seen_breach finder.new.first
        ≡ noted w (option_map seen_breach finder.old.first) (switch_breaches (seen_construct construct.now) (type_at judge.now.kinds.now of)) }
{
    let mark = judge.mark(of);
    note(finder, construct, rule::VOID, mark.holds_void);
    note(finder, construct, rule::HANDLE, mark.holds_handle);
    note(finder, construct, rule::PIPES, mark.holds_pipe);
    note(finder, construct, rule::CONTEXT_HANDLES, mark.holds_context);
    note(
        finder,
        construct,
        rule::SWITCH_TYPES,
        may_not_be_switched(judge, of),
    );
}

/// The rules on a struct, union or enum with its body, but for rule 11.
fn note_body(
    finder: &mut Finder<'_>,
    judge: &Judge<'_>,
    construct: &Construct<'_>,
    body: &TypeSpec,
    of: usize,
)
    ensures files { finder.new.files.now ≡ finder.old.files.now }
    ensures first { (w : World) (s : Scene) (b : Body) → w.files ≡ seen_files finder.old.files.now
        → AreMarks s judge.now.kinds.now judge.now.marks.now
        → seen_construct construct.now ≡ b.construct → seen_type body.now ≡ b.body → type_at judge.now.kinds.now of ≡ type_of_body b
        → option_map seen_breach finder.new.first ≡ noted w (option_map seen_breach finder.old.first) (body_breaches s b) }
{
    note(finder, construct, rule::NESTING, judge.mark(of).too_deep);
    note(
        finder,
        construct,
        rule::CASES,
        lacks_switch_type(construct, body),
    );
}

/// The rules on an arm that holds nothing.
fn note_empty_arm(finder: &mut Finder<'_>, construct: &Construct<'_>)
    ensures files { finder.new.files.now ≡ finder.old.files.now }
    ensures first { (w : World) → w.files ≡ seen_files finder.old.files.now
        → option_map seen_breach finder.new.first
        ≡ noted w (option_map seen_breach finder.old.first) (empty_arm_breaches (seen_construct construct.now)) }
{
    note(finder, construct, rule::CASES, is_wrongly_cased(construct));
    note(
        finder,
        construct,
        rule::CLASSES_ON_POINTERS,
        has_class(construct.attributes),
    );
    note(
        finder,
        construct,
        rule::TEXTS,
        has(construct.attributes, Word::String),
    );
}

/// The rules on a node, but for rule 11. Takes memory for the labels of a union.
fn node<'t>(
    alloc: Global,
    finder: &mut Finder<'_>,
    scope: &Scope,
    nodes: &Nodes<'t>,
    types: &Types,
    judge: &Judge<'_>,
    node: &Node<'t>,
    typed: &Typed,
) -> Result<(), Memory>
    requires { judge.now.kinds.now ≡ types.now.kinds }
    ensures files { finder.new.files.now ≡ finder.old.files.now }
    ensures first { (w : World) (s : Scene) (names : Names) → w.files ≡ seen_files finder.old.files.now → s.known ≡ known_in scope.now
        → AreMarks s judge.now.kinds.now judge.now.marks.now → IsTypes s nodes.now types.now
        → IsTyped s names types.now.kinds nodes.now.lists.items node.now typed.now
        → OnOk result (option_map seen_breach finder.new.first
        ≡ noted w (option_map seen_breach finder.old.first) (program_breaches s names nodes.now.lists.items node.now)) }
{
    match node {
        Node::Header { .. } => {}
        Node::Attributes { construct } => second_classes(finder, construct),
        Node::Switch { construct, .. } => note_switch(finder, judge, construct, typed.of),
        Node::Tag { .. } => {}
        Node::Body { construct, body } => note_body(finder, judge, construct, body, typed.of),
        Node::Enumerators { construct, list } => enumerators(finder, scope, construct, list),
        Node::Labels { construct, body } => {
            labels(alloc, finder, scope, types, construct, body, typed)?
        }
        Node::EmptyArm { construct } => note_empty_arm(finder, construct),
        Node::Declarator { list, index, it } => {
            note_use(
                finder,
                judge,
                &asked_listed(scope, nodes, *list, *index, it, typed),
            )
        }
        Node::Result { it } => note_use(finder, judge, &asked_result(it, typed)),
        Node::Constant {
            construct,
            of,
            star,
            value,
        } => { constant(finder, scope, construct, *of, *star, value) }
        Node::Type { construct, of } => note(finder, construct, rule::BODY, has_no_body(of)),
        Node::Operation { .. } => {}
    }
    Ok(())
}

/// The rules on the node of a number, but for rule 11. Takes memory for the labels of a union.
fn nth_node<'t>(
    alloc: Global,
    finder: &mut Finder<'_>,
    scope: &Scope,
    nodes: &Nodes<'t>,
    types: &Types,
    judge: &Judge<'_>,
    at: usize,
    one: &Node<'t>,
) -> Result<(), Memory>
    requires { judge.now.kinds.now ≡ types.now.kinds }
    ensures files { finder.new.files.now ≡ finder.old.files.now }
    ensures first { (w : World) (s : Scene) → w.files ≡ seen_files finder.old.files.now → s.known ≡ known_in scope.now
        → AreMarks s judge.now.kinds.now judge.now.marks.now → IsTypes s nodes.now types.now → slice_get nodes.now.items.items at ≡ Some one.now
        → OnOk result (option_map seen_breach finder.new.first
        ≡ noted w (option_map seen_breach finder.old.first) (program_breaches s (names_at s.known nodes.now at) nodes.now.lists.items one.now)) }
{
    if let Some(typed) = types.typed.get(at) {
        node(alloc, finder, scope, nodes, types, judge, one, typed)?;
    }
    Ok(())
}

/// The rules on all nodes, but for rule 11. Takes memory for the labels of a union.
fn each_node<'t>(
    alloc: Global,
    finder: &mut Finder<'_>,
    scope: &Scope,
    nodes: &Nodes<'t>,
    types: &Types,
    marks: &Marks,
) -> Result<(), Memory>
    ensures files { finder.new.files.now ≡ finder.old.files.now }
    ensures first { (w : World) (s : Scene) → w.files ≡ seen_files finder.old.files.now → s ≡ scene_seen (known_in scope.now) nodes.now
        → IsTypes s nodes.now types.now → AreMarks s types.now.kinds marks.now
        → OnOk result (option_map seen_breach finder.new.first ≡ noted w (option_map seen_breach finder.old.first) (rest_breaches s s.nodes)) }
{
    let judge = Judge {
        kinds: &types.kinds,
        marks,
    };
    for (at, one) in nodes.items.iter().enumerate() {
        nth_node(alloc, finder, scope, nodes, types, &judge, at, one)?;
    }
    Ok(())
}

/// Rules 5 to 38 on all nodes. Takes memory for the labels of a union, and for each body.
pub(crate) fn other_rules<'t>(
    alloc: Global,
    finder: &mut Finder<'_>,
    scope: &Scope,
    nodes: &Nodes<'t>,
    types: &Types,
    marks: &Marks,
) -> Result<(), Memory>
    ensures files { finder.new.files.now ≡ finder.old.files.now }
    ensures first { (w : World) (s : Scene) → w.files ≡ seen_files finder.old.files.now → s ≡ scene_seen (known_in scope.now) nodes.now
        → IsTypes s nodes.now types.now → AreMarks s types.now.kinds marks.now
        → OnOk result (option_map seen_breach finder.new.first ≡ noted w (option_map seen_breach finder.old.first) (other_breaches s)) }
{
    note_cycles(alloc, finder, scope, nodes, types)?;
    each_node(alloc, finder, scope, nodes, types, marks)?;
    Ok(())
}
