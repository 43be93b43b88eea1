// Ties to an interface.
ghost use Rattle.std.specs.Prelude.{◌≡◌};

use crate::Interface;
use crate::witness::Witness;
use std::marker::Model;

/// A tie to an interface: a value without run-time content, which contracts see as that interface.
#[derive(Drop)]
pub struct Tie {
    witness: Witness<Interface>,
}

impl Model for Tie {
    ghost use Rattle.nd_types.specs.declared.interface.Interface.{Interface};
    ghost use Rattle.nd_types.specs.contracts.interface.Interface as interface;

    ghost Value = { Interface };

    ghost coded = { interface.the_row.coded };

    ghost view = { λ t. t.witness.value };
}

impl Interface {
    /// The tie to this interface. It takes no memory.
    pub fn tie(&self) -> Tie
        ensures { result ≡ self.now }
    {
        Tie {
            witness: Witness::of(self),
        }
    }
}

impl Tie {
    /// An equal tie. It takes no memory.
    pub fn again(&self) -> Tie
        ensures { result ≡ self.now }
    {
        Tie {
            witness: self.witness.again(),
        }
    }
}
