// The walk through the declarations of files.
ghost use Rattle.std.specs.Prelude.{◌≡◌, [], ◌∷◌, ◌++◌, None, map, IfOk, OnOk};
ghost use Rattle.std.specs.List.{flat_map};
ghost use Rattle.idl_grammar.specs.Seen as seen;
ghost use Rattle.idl_scope.specs.Seen.{seen_file, seen_files};
ghost use Rattle.idl_scope.specs.Steps.{parameters_of};
ghost use Rattle.idl_rule_definitions.specs.Nodes as rules;
ghost use Rattle.idl_constructs.specs.SeenNodes.{seen_construct, seen_nodes};
ghost use Rattle.idl_constructs.specs.Growing.{Adds, AddsOf, one_parameter_nodes};

use crate::attributes::default_class_in;
use crate::nodes::{Construct, Declared, Node, Nodes, Position, Returned};
use crate::parts::parameters_declared;
use crate::walk::{attributes, listed, switch, type_spec, unlisted};
use idl_grammar::{
    Declarator, Export, Identifier, Init, Parameter, Parameters, SimpleType, TypeSpec,
};
use idl_scope::{FileTree, FileTrees};
use nd_base::Memory;
use std::alloc::Global;

/// A parameter of this index of its list.
fn parameter<'t>(
    alloc: Global,
    nodes: &mut Nodes<'t>,
    construct: &Construct<'t>,
    list: usize,
    index: usize,
    parameter: &'t Parameter,
) -> Result<(), Memory>
    ensures { OnOk result
        (AddsOf nodes.old nodes.new list (one_parameter_nodes (seen_construct construct.now) index (seen.seen_parameter parameter.now))) }
{
    let inner = construct.inside(Position::Parameter, parameter.at, &parameter.attributes);
    attributes(nodes, &inner)?;
    type_spec(alloc, nodes, &inner, &parameter.of)?;
    let it = inner.declared(&parameter.of, &parameter.declarator);
    listed(nodes, list, index, it)
}

/// The parameters of an operation, which are this list.
fn parameters<'t>(
    alloc: Global,
    nodes: &mut Nodes<'t>,
    construct: &Construct<'t>,
    list: usize,
    parameters: &'t [Parameter],
) -> Result<(), Memory>
    ensures { OnOk result
        (AddsOf nodes.old nodes.new list
        (λ all. rules.parameter_nodes (seen_construct construct.now) all 0 (map seen.seen_parameter parameters.now))) }
{
    let mut index = 0;
    for one in parameters {
        parameter(alloc, nodes, construct, list, index, one)?;
        index += 1;
    }
    Ok(())
}

/// The parameters that stand between the brackets of an operation.
fn parameter_list(parameters: &Parameters) -> &[Parameter]
    ensures { map seen.seen_parameter result.now ≡ parameters_of (seen.seen_parameters parameters.now) }
{
    match parameters {
        Parameters::List(list) => list.as_slice(),
        Parameters::Absent | Parameters::Void => &[],
    }
}

/// An operation.
fn operation<'t>(
    alloc: Global,
    nodes: &mut Nodes<'t>,
    it: Returned<'t>,
    list: &'t [Parameter],
) -> Result<(), Memory>
    ensures { OnOk result
        (Adds nodes.old nodes.new
        (rules.operation_nodes (seen_construct it.entry.construct) (seen.seen_type it.entry.of.now) it.entry.name.now
        (map seen.seen_parameter list.now))) }
{
    attributes(nodes, &it.construct)?;
    type_spec(alloc, nodes, &it.construct, it.of)?;
    nodes.push(Node::Result { it })?;
    let declared = parameters_declared(alloc, &it.construct, list)?;
    let number = nodes.push_list(declared)?;
    parameters(alloc, nodes, &it.construct, number, list)?;
    nodes.push(Node::Operation {
        it,
        parameters: number,
    })
}

/// An operation with what is between its brackets.
fn exported<'t>(
    alloc: Global,
    nodes: &mut Nodes<'t>,
    construct: Construct<'t>,
    of: &'t TypeSpec,
    name: &'t Identifier,
    parameters: &'t Parameters,
) -> Result<(), Memory>
    ensures { OnOk result
        (Adds nodes.old nodes.new
        (rules.operation_nodes (seen_construct construct.entry) (seen.seen_type of.now) name.now
        (parameters_of (seen.seen_parameters parameters.now)))) }
{
    let it = Returned {
        construct,
        of,
        name,
    };
    operation(alloc, nodes, it, parameter_list(parameters))
}

/// A constant.
fn constant<'t>(
    nodes: &mut Nodes<'t>,
    header: &Construct<'t>,
    at: u32,
    of: SimpleType,
    star: bool,
    value: &'t Init,
) -> Result<(), Memory>
    ensures { OnOk result
        (Adds nodes.old nodes.new
        (rules.ConstantNode (rules.inside (seen_construct header.now) rules.InTypedef at None) of star (seen.seen_init value.now) ∷ [])) }
{
    nodes.push(Node::Constant {
        construct: header.without_attributes(Position::Typedef, at),
        of,
        star,
        value,
    })
}

/// What a typedef declares.
fn typedefs<'t>(
    nodes: &mut Nodes<'t>,
    construct: &Construct<'t>,
    pipe: bool,
    of: &'t TypeSpec,
    declarators: &'t [Declarator],
) -> Result<(), Memory>
    ensures { OnOk result
        (Adds nodes.old nodes.new
        (map (rules.typedef_node (seen_construct construct.now) pipe (seen.seen_type of.now)) (map seen.seen_declarator declarators.now))) }
{
    for declarator in declarators {
        unlisted(
            nodes,
            Declared {
                construct: *construct,
                pipe,
                of,
                declarator,
            },
        )?;
    }
    Ok(())
}

/// The attributes of a declaration and its type, with all that is in it.
fn declaration<'t>(
    alloc: Global,
    nodes: &mut Nodes<'t>,
    construct: &Construct<'t>,
    of: &'t TypeSpec,
) -> Result<(), Memory>
    ensures { OnOk result (Adds nodes.old nodes.new (rules.attribute_nodes (seen_construct construct.now)
        ++ rules.switch_nodes (seen_construct construct.now) ++ rules.type_nodes (seen_construct construct.now) (seen.seen_type of.now))) }
{
    attributes(nodes, construct)?;
    switch(nodes, construct)?;
    type_spec(alloc, nodes, construct, of)
}

/// A declaration. The operations of files other than the main one are passed over.
fn export<'t>(
    alloc: Global,
    nodes: &mut Nodes<'t>,
    is_main: bool,
    header: &Construct<'t>,
    export: &'t Export,
) -> Result<(), Memory>
    ensures { OnOk result (Adds nodes.old nodes.new (rules.export_nodes is_main (seen_construct header.now) (seen.seen_export export.now))) }
{
    match export {
        Export::Typedef {
            at,
            attributes,
            pipe,
            of,
            declarators,
        } => {
            let construct = header.inside(Position::Typedef, *at, attributes);
            declaration(alloc, nodes, &construct, of)?;
            typedefs(nodes, &construct, *pipe, of, declarators.as_slice())
        }
        Export::Const {
            at,
            of,
            star,
            value,
            ..
        } => constant(nodes, header, *at, *of, *star, value),
        Export::Tagged { at, attributes, of } => {
            let construct = header.inside(Position::TaggedType, *at, attributes);
            declaration(alloc, nodes, &construct, of)?;
            nodes.push(Node::Type { construct, of })
        }
        Export::Operation {
            at,
            attributes,
            result,
            name,
            parameters,
        } => {
            if !is_main {
                return Ok(());
            }
            let construct = header.inside(Position::Operation, *at, attributes);
            exported(alloc, nodes, construct, result, name, parameters)
        }
    }
}

/// The header of a file.
fn header_of(file: &FileTree) -> Construct<'_>
    ensures { seen_construct result ≡ rules.header_of (seen_file file.now) }
{
    let attributes = &file.tree.attributes;
    Construct {
        file: file.file,
        position: Position::Header,
        at: attributes.at,
        attributes: attributes.list.as_slice(),
        default: default_class_in(attributes.list.as_slice()),
    }
}

/// The declarations of a file.
fn exports<'t>(
    alloc: Global,
    nodes: &mut Nodes<'t>,
    is_main: bool,
    header: &Construct<'t>,
    exports: &'t [Export],
) -> Result<(), Memory>
    ensures { OnOk result
        (Adds nodes.old nodes.new (flat_map (rules.export_nodes is_main (seen_construct header.now)) (map seen.seen_export exports.now))) }
{
    for one in exports {
        export(alloc, nodes, is_main, header, one)?;
    }
    Ok(())
}

/// A file.
pub(crate) fn file<'t>(
    alloc: Global,
    nodes: &mut Nodes<'t>,
    file: &'t FileTree,
) -> Result<(), Memory>
    ensures { OnOk result (Adds nodes.old nodes.new (rules.file_nodes (seen_file file.now))) }
{
    let header = header_of(file);
    nodes.push(Node::Header { construct: header })?;
    attributes(nodes, &header)?;
    exports(
        alloc,
        nodes,
        file.file == 0,
        &header,
        file.tree.exports.as_slice(),
    )
}

/// The nodes of all files. Takes memory for an entry of each node, and of each member and parameter.
pub fn of_files<'t>(alloc: Global, files: &'t FileTrees) -> Result<Nodes<'t>, Memory>
    ensures { IfOk result (λ n. seen_nodes n ≡ flat_map rules.file_nodes (seen_files files.now)) }
{
    let mut nodes = Nodes::new(alloc)?;
    for at in 0..files.len() {
        let Some(found) = files.get(at) else {
            unreachable!()
        };
        file(alloc, &mut nodes, found)?;
    }
    Ok(nodes)
}
