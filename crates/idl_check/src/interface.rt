// All passes over the files, in order.
ghost use Rattle.idl_rule_definitions.specs.Answers.{Answers};
ghost use Rattle.idl_rule_definitions.specs.Checked.{world_of};

use idl_constructs::{first_breach, of_files};
use idl_declared_types::numbering;
use idl_interface::meaning::interface;
use idl_rule_definitions::RuleFault;
use idl_rules::{broken, other_breach};
use idl_scope::Scope;
use idl_typing::of_nodes;
use nd_types::Interface;
use std::alloc::Global;

/// The interface that files mean whose names are resolved (C706, chapter 4).
///
/// # Errors
/// Broken, the least broken rule at its first place, exactly where a rule is broken. Memory where memory was wanting.
///
/// Takes memory for the interface.
pub fn interface_of(alloc: Global, scope: &Scope) -> Result<Interface, RuleFault>
    ensures { Answers (world_of scope.now) result }
{
    let nodes = of_files(alloc, &scope.files)?;
    if let Some(first) = first_breach(alloc, &scope.files, &nodes)? {
        return Err(broken(first));
    }
    let types = of_nodes(alloc, scope, &nodes)?;
    let numbers = numbering::of_types(alloc, &nodes, &types)?;
    if let Some(first) = other_breach(alloc, scope, &nodes, &types, &numbers)? {
        return Err(broken(first));
    }
    Ok(interface(alloc, scope, &nodes, &types, &numbers)?)
}
