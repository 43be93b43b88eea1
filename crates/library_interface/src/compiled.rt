// An interface with its plan.
ghost use Rattle.std.specs.Prelude.{◌≡◌, IfOk};

use nd_base::Memory;
use nd_types::Interface;
use ndr_code::Plan;
use ndr_plan::make;
use std::alloc::Global;
use std::marker::Model;

/// An interface, and its plan, by which octets are read and written. Contracts see the interface.
#[derive(Drop)]
pub struct Compiled {
    interface: Interface,
    plan: Plan,
}

impl Model for Compiled {
    ghost use Rattle.std.specs.Prelude.{◌≡◌};
    ghost use Rattle.nd_types.specs.declared.interface.Interface.{Interface};
    ghost use Rattle.nd_types.specs.contracts.interface.Interface as interface_type;

    ghost Value = { Interface };

    ghost coded = { interface_type.the_row.coded };

    ghost view = { λ c. c.interface };

    ghost invariant = { λ c. c.plan.tie ≡ c.interface };
}

impl Compiled {
    /// An interface with the plan that is made of it. Takes memory for the plan; running out of it is the only refusal.
    pub fn of(alloc: Global, interface: Interface) -> Result<Compiled, Memory>
        ensures { IfOk result (λ c. c ≡ interface) }
    {
        let plan = make(alloc, &interface)?;
        Ok(Compiled { interface, plan })
    }

    /// The interface. Takes no memory.
    pub fn interface(&self) -> &Interface
        ensures { result.now ≡ self.now }
    {
        &self.interface
    }

    /// The plan of the interface. Takes no memory.
    pub fn plan(&self) -> &Plan
        ensures { result.now.tie ≡ self.now }
    {
        &self.plan
    }
}
