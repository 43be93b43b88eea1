// The rules, and what files mean that keep them, beside an attribute configuration file.
ghost use Rattle.std.specs.Prelude.{option_map};
ghost use Rattle.acf_reader.specs.Seen.{seen_acf};
ghost use Rattle.idl_rule_definitions.specs.Checked.{world_of};
ghost use Rattle.idl_check.specs.AcfRules.{AnswersBeside};

use crate::acf_rule::acf_breach;
use crate::interface::interface_of;
use acf_reader::Acf;
use idl_rule_definitions::RuleFault;
use idl_rules::broken;
use idl_scope::Scope;
use nd_types::Interface;
use std::alloc::Global;

/// The interface that files mean whose names are resolved (C706, chapter 4), beside an attribute configuration file, if there is one. That
/// file changes nothing of what they mean.
///
/// # Errors
/// Broken, the least broken rule at its first place, exactly where a rule is broken: the one on attribute configuration files where no other is.
/// Memory where memory was wanting.
///
/// Takes memory for the interface.
pub fn check(alloc: Global, scope: &Scope, acf: Option<&Acf>) -> Result<Interface, RuleFault>
    ensures { AnswersBeside (world_of scope.now) (option_map (λ f. seen_acf f.now) acf.entry) result }
{
    let interface = interface_of(alloc, scope)?;
    let Some(acf) = acf else {
        return Ok(interface);
    };
    match acf_breach(alloc, scope, acf)? {
        Some(first) => Err(broken(first)),
        None => Ok(interface),
    }
}
