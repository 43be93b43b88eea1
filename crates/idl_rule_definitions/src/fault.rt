// Why files are refused that are resolved.
use nd_base::{Memory, Place};
use thiserror::Error;

/// The rule that is broken, or being out of memory.
#[derive(Clone, Copy, Debug, PartialEq, Eq, Error)]
pub enum RuleFault {
    /// No memory was left.
    #[error("want of memory")]
    Memory,
    /// A rule of `docs/IDL.md` is broken there. No lesser rule is broken anywhere, and this one at no earlier place: the files stand in the order in
    /// which their resolving ended.
    #[error("rule {rule}")]
    Broken {
        /// The number of the rule.
        rule: u8,
        /// Where it is broken.
        place: Place,
    },
}

impl From<Memory> for RuleFault {
    ghost use Rattle.std.specs.Prelude.{◌≡◌};
    ghost use Rattle.idl_rule_definitions.specs.declared.fault.RuleFault.TheVariants as faults;

    ghost from_gives = { λ _ e. e ≡ faults.Memory };

    fn from(_: Memory) -> RuleFault {
        RuleFault::Memory
    }
}
