// The interface that files mean which break no rule.
ghost use Rattle.std.specs.Prelude.{◌≡◌, [], ◌∷◌, IfOk};
ghost use Rattle.idl_scope.specs.Seen.{seen_files};
ghost use Rattle.idl_grammar.specs.Seen.{seen_tree};
ghost use Rattle.idl_rule_definitions.specs.Checked.{world_of};
ghost use Rattle.idl_rule_definitions.specs.Rules.{breaches};
ghost use Rattle.idl_rule_definitions.specs.Scene.{scene_of};
ghost use Rattle.idl_rule_definitions.specs.Meaning as of;
ghost use Rattle.nd_types.specs.Meant.{meant_by};
ghost use Rattle.idl_declared_types.specs.SeenTypes.{IsTypes};
ghost use Rattle.idl_declared_types.specs.SeenOperations.{HasTags, HasOperations};
ghost use Rattle.idl_declared_types.specs.SeenNumbers.{AreNumbers};

use crate::definitions::{Program, type_table};
use crate::header::{major, minor, uuid};
use crate::members::name_of;
use crate::operations::all_operations;
use idl_constructs::nodes::Nodes;
use idl_declared_types::numbering::Numbers;
use idl_declared_types::types::Types;
use idl_grammar::Tree;
use idl_legal_laws::laws::legal::meaning_is_legal;
use idl_scope::Scope;
use nd_base::Memory;
use nd_types::Interface;
use std::alloc::Global;

/// The main file, which is number 0. Takes no memory.
pub fn main_tree(scope: &Scope) -> &Tree
    ensures { of.main_among (seen_files scope.now.files) ≡ seen_tree result.now ∷ [] }
{
    for at in 0..scope.files.len() {
        let Some(file) = scope.files.get(at) else {
            unreachable!();
        };
        if file.file == 0 {
            return &file.tree;
        }
    }
    unreachable!()
}

/// The interface that files mean which break no rule. Takes memory for it.
pub fn interface(
    alloc: Global,
    scope: &Scope,
    nodes: &Nodes<'_>,
    types: &Types,
    numbers: &Numbers,
) -> Result<Interface, Memory>
    requires kept { breaches (world_of scope.now) ≡ [] }
    requires types { IsTypes (scene_of (world_of scope.now)) nodes.now types.now }
    requires tags { HasTags (scene_of (world_of scope.now)) types.now }
    requires operations { HasOperations (scene_of (world_of scope.now)) nodes.now types.now }
    requires numbers { AreNumbers (scene_of (world_of scope.now)) types.now.kinds numbers.now }
    ensures { IfOk result (λ i. of.meaning (world_of scope.now) ≡ meant_by i ∷ []) }
{
    let tree = main_tree(scope);
    let name = name_of(alloc, &tree.name)?;
    let list = tree.attributes.list.as_slice();
    let uuid = uuid(list);
    let major = major(list);
    let minor = minor(list);
    let program = Program {
        scope,
        nodes,
        types,
        numbers,
    };
    let types = type_table(alloc, &program)?;
    let layouts = types.layouts(alloc)?;
    let operations = all_operations(alloc, &program)?;
    meaning_is_legal();
    Ok(Interface {
        name,
        uuid,
        major,
        minor,
        types,
        layouts,
        operations,
    })
}
