// A plan.
ghost use Rattle.std.specs.Prelude.{◌≤◌, length};
ghost use Rattle.nd_types.specs.Legal.{IsLegal};
ghost use Rattle.ndr_code.specs.Plan.{IsPlanOf};
ghost use Rattle.ndr_code.specs.declared.TheConstants.{ADDRESS_LIMIT};

use crate::{Code, EnumLists, PlanLines, SideStarts};
use nd_types::Tie;

/// A plan of an interface: how its values are laid out in a stream (C706, 14.2 to 14.4), as flat code. It has no table of types; its interface is
/// that of its tie. Each plan is the plan of that interface, which is legal.
#[derive(Drop)]
pub struct Plan {
    /// The instructions.
    pub code: Code,
    /// Where the runs of each side are.
    pub entries: PlanLines,
    /// The enumerated types.
    pub values: EnumLists,
    /// Where the lines of each side begin in `entries`.
    pub sides: SideStarts,
    /// The interface, for contracts only.
    pub tie: Tie,
    pub ghost planned: { IsPlanOf code entries values sides tie },
    pub ghost legal: { IsLegal tie.types tie.operations },
    pub ghost short: { length code ≤ ADDRESS_LIMIT },
}
