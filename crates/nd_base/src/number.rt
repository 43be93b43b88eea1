// A number that only contracts see. It takes no bytes.
ghost use Rattle.std.specs.Prelude.{◌≡◌, ◌+◌};

use std::marker::Model;
use std::mem;
use std::snapshot::Snapshot;

// A number in unary. It is made for a moment, so that a snapshot of it can be taken, and never kept.
#[cycle(number)]
#[derive(Drop)]
struct Number {
    step: Step,
}

#[cycle(number)]
#[derive(Drop)]
enum Step {
    Zero,
    After(Snapshot<Number>),
}

impl Model for Number {
    ghost use Rattle.std.specs.Prelude.{ℕ};

    ghost Value = { ℕ };

    ghost use Rattle.nd_base.specs.Number.{number_of};

    ghost view = { λ n. number_of n.step };

    ghost size = { λ n. n };
}

// A number that only contracts see, without bound.
#[derive(Drop)]
pub(crate) struct GhostNumber {
    seen: Snapshot<Number>,
}

impl Model for GhostNumber {
    ghost use Rattle.std.specs.Prelude.{ℕ};

    ghost Value = { ℕ };

    ghost view = { λ g. g.seen.value };
}

impl GhostNumber {
    pub(crate) fn zero() -> GhostNumber
        ensures { result ≡ 0 }
    {
        GhostNumber {
            seen: Snapshot::of(&Number { step: Step::Zero }),
        }
    }

    pub(crate) fn raise(&mut self)
        ensures { self.new ≡ self.old + 1 }
    {
        let before = mem::replace(self, GhostNumber::zero());
        let next = Number {
            step: Step::After(before.seen),
        };
        self.seen = Snapshot::of(&next);
    }
}
