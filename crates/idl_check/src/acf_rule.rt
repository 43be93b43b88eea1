// The rule on attribute configuration files (C706, section 4.3): their interface, types, operations and parameters are names of the IDL, and their
// attributes stand in their places. It is the fortieth, and is reported where the file, the element of its body or the parameter begins in which it
// is broken.
ghost use Rattle.std.specs.Prelude.{◌≡◌, ◌||◌, Some, map, option_map, IfOk};
ghost use Rattle.std.specs.List.{flat_map, list_any};
ghost use Rattle.idl_grammar.specs.Tree as idl;
ghost use Rattle.idl_grammar.specs.Seen as of_idl;
ghost use Rattle.idl_scope.specs.Seen.{seen_files, known_in};
ghost use Rattle.acf_reader.specs.Seen.{seen_parameter, seen_element, seen_acf};
ghost use Rattle.idl_rule_definitions.specs.Nodes.{World};
ghost use Rattle.idl_rule_definitions.specs.Checked.{world_of};
ghost use Rattle.idl_rule_definitions.specs.Rules.{first_of};
ghost use Rattle.idl_rule_definitions.specs.Found.{seen_breach};
ghost use Rattle.idl_rule_definitions.specs.Noted.{noted};
ghost use Rattle.idl_check.specs.AcfRules.{belongs, acf_file, broken_at, is_misplaced, breaches_of_parameter, breaches_of_operation};
ghost use Rattle.idl_check.specs.AcfRules.{breaches_of_element, breaks_header, is_no_type, has_unknown_handle, acf_breaches};
ghost use Rattle.idl_check.specs.declared.acf_places.Spot.TheVariants as spot;

use crate::acf_names::{
    NamedOperations, any_is_no_type, any_unknown_handle, is_no_parameter, operations_of,
};
use crate::acf_places::{Spot, attribute_list, is_misplaced};
use acf_reader::{Acf, Attribute, Attributes, BodyElement, Parameter};
use idl_grammar as idl;
use idl_grammar::{Identifier, Tree};
use idl_interface::main_tree;
use idl_rule_definitions::{Breach, Finder};
use idl_scope::Scope;
use nd_base::{Memory, Place};
use std::alloc::Global;

/// The number of the rule.
const RULE: u8 = 40;

/// The number by which an attribute configuration file is reported. No file of IDL has it.
pub const ACF_FILE: u16 = 65_535;

/// A place in the file.
fn place(at: u32) -> Place
    ensures { result ≡ record { file = acf_file; at = at } }
{
    Place { file: ACF_FILE, at }
}

/// Notes the rule if it is broken at a place.
fn note(finder: &mut Finder<'_>, at: u32, broken: bool)
    ensures files { finder.new.files.now ≡ finder.old.files.now }
    ensures first { (w : World) → w.files ≡ seen_files finder.old.files.now
        → option_map seen_breach finder.new.first ≡ noted w (option_map seen_breach finder.old.first) (broken_at at broken) }
{
    finder.note(RULE, place(at), broken);
}

/// Whether a parameter breaks the rule, where the operation has these.
fn breaks_parameter(parameters: &[idl::Parameter], one: &Parameter) -> bool
    ensures { broken_at one.now.at result ≡ breaches_of_parameter (map of_idl.seen_parameter parameters.now) (seen_parameter one.now) }
{
    is_misplaced(Spot::Parameter, attribute_list(&one.attributes))
        || is_no_parameter(parameters, &one.name)
}

/// The rule on the parameters of an operation, where that of the IDL has these.
fn parameters(finder: &mut Finder<'_>, parameters: &[idl::Parameter], list: &[Parameter])
    ensures files { finder.new.files.now ≡ finder.old.files.now }
    ensures first { (w : World) → w.files ≡ seen_files finder.old.files.now
        → option_map seen_breach finder.new.first ≡ noted w (option_map seen_breach finder.old.first)
        (flat_map (breaches_of_parameter (map of_idl.seen_parameter parameters.now)) (map seen_parameter list.now)) }
{
    for one in list {
        note(finder, one.at, breaks_parameter(parameters, one));
    }
}

/// The rule on an operation. Where the IDL has none of its name, its parameters are not asked for.
fn operation(
    finder: &mut Finder<'_>,
    at: u32,
    attributes: &[Attribute],
    list: &[Parameter],
    found: Option<&[idl::Parameter]>,
)
    ensures files { finder.new.files.now ≡ finder.old.files.now }
    ensures first { (w : World) → w.files ≡ seen_files finder.old.files.now
        → option_map seen_breach finder.new.first ≡ noted w (option_map seen_breach finder.old.first)
        (breaches_of_operation at attributes.now (map seen_parameter list.now) (option_map (λ ps. map of_idl.seen_parameter ps.now) found.entry)) }
{
    match found {
        None => note(finder, at, true),
        Some(found) => {
            note(finder, at, is_misplaced(Spot::Operation, attributes));
            parameters(finder, found, list);
        }
    }
}

/// Whether attributes of types break the rule.
fn breaks_types(scope: &Scope, attributes: &Attributes, names: &[Identifier]) -> bool
    ensures { result ≡ (is_misplaced (belongs spot.Type) attributes.now.list.items || list_any (is_no_type (known_in scope.now)) names.now) }
{
    is_misplaced(Spot::Type, attributes.list.as_slice()) || any_is_no_type(scope, names)
}

/// The rule on an element of the body.
fn element(
    finder: &mut Finder<'_>,
    scope: &Scope,
    operations: &NamedOperations<'_>,
    one: &BodyElement,
)
    ensures files { finder.new.files.now ≡ finder.old.files.now }
    ensures first { (w : World) (main : idl.Tree) → w.files ≡ seen_files finder.old.files.now
        → main.exports ≡ map of_idl.seen_export operations.now.exports.now
        → option_map seen_breach finder.new.first
        ≡ noted w (option_map seen_breach finder.old.first) (breaches_of_element (known_in scope.now) main (seen_element one.now)) }
{
    match one {
        BodyElement::Include { .. } => {}
        BodyElement::Types {
            at,
            attributes,
            names,
        } => note(
            finder,
            *at,
            breaks_types(scope, attributes, names.as_slice()),
        ),
        BodyElement::Operation {
            at,
            attributes,
            name,
            parameters,
        } => operation(
            finder,
            *at,
            attribute_list(attributes),
            parameters.as_slice(),
            operations.parameters(name),
        ),
    }
}

/// The rule on the elements of the body.
fn elements(
    finder: &mut Finder<'_>,
    scope: &Scope,
    operations: &NamedOperations<'_>,
    body: &[BodyElement],
)
    ensures files { finder.new.files.now ≡ finder.old.files.now }
    ensures first { (w : World) (main : idl.Tree) → w.files ≡ seen_files finder.old.files.now
        → main.exports ≡ map of_idl.seen_export operations.now.exports.now
        → option_map seen_breach finder.new.first ≡ noted w (option_map seen_breach finder.old.first)
        (flat_map (breaches_of_element (known_in scope.now) main) (map seen_element body.now)) }
{
    for one in body {
        element(finder, scope, operations, one);
    }
}

/// Whether the attributes of the interface break the rule.
fn breaks_attributes(scope: &Scope, attributes: &[Attribute]) -> bool
    ensures { result
        ≡ (is_misplaced (belongs spot.Interface) attributes.now || list_any (λ a. has_unknown_handle (known_in scope.now) a.kind) attributes.now) }
{
    is_misplaced(Spot::Interface, attributes) || any_unknown_handle(scope, attributes)
}

/// Whether the name or the attributes of the interface break the rule.
fn breaks_header(scope: &Scope, main: &Tree, acf: &Acf) -> bool
    ensures { result ≡ breaks_header (known_in scope.now) (of_idl.seen_tree main.now) (seen_acf acf.now) }
{
    acf.name.as_slice() != main.name.as_slice()
        || breaks_attributes(scope, attribute_list(&acf.attributes))
}

/// The first breach of the rule in an attribute configuration file, if it is broken. Takes memory for the names of operations.
pub(crate) fn acf_breach(alloc: Global, scope: &Scope, acf: &Acf) -> Result<Option<Breach>, Memory>
    ensures { IfOk result
        (λ b. option_map seen_breach b ≡ first_of (world_of scope.now) (acf_breaches (world_of scope.now) (Some (seen_acf acf.now)))) }
{
    let main = main_tree(scope);
    let operations = operations_of(alloc, main.exports.as_slice())?;
    let mut finder = Finder::new(&scope.files);
    note(&mut finder, acf.at, breaks_header(scope, main, acf));
    elements(&mut finder, scope, &operations, acf.body.as_slice());
    Ok(finder.first())
}
