// Numbers of steps, which a contract can bound. A number may be kept for contracts alone.
ghost use Rattle.std.specs.Prelude.{◌≡◌, ℕ, ◌+◌, ◌-◌, ◌^◌, min};

use crate::number::GhostNumber;
use std::marker::Model;

/// What keeps a number that only grows.
pub trait Ledger {
    /// The number.
    ghost number: { Self → ℕ };

    /// Raises the number by one. Takes no memory.
    fn add(&mut self)
        ensures { number self.new ≡ number self.old + 1 };
}

/// Keeps the number for contracts alone, and takes no bytes.
#[derive(Drop)]
pub struct Uncounted {
    number: GhostNumber,
}

impl Uncounted {
    /// Starts at 0. Takes no memory.
    pub fn new() -> Uncounted
        ensures { ⟦<Uncounted as Ledger>⟧.number result ≡ 0 }
    {
        Uncounted {
            number: GhostNumber::zero(),
        }
    }
}

impl Ledger for Uncounted {
    ghost number = { λ l. l.number };

    fn add(&mut self) {
        self.number.raise();
    }
}

/// Keeps the number, and reports it up to the greatest value of a `u64`.
#[derive(Drop)]
pub struct Counted {
    number: GhostNumber,
    count: u64,
    ghost counted: { count ≡ min number (2 ^ 64 - 1) },
}

impl Counted {
    /// Starts at 0. Takes no memory.
    pub fn new() -> Counted
        ensures { ⟦<Counted as Ledger>⟧.number result ≡ 0 }
    {
        Counted {
            number: GhostNumber::zero(),
            count: 0,
        }
    }

    /// The number, or the greatest value of a `u64` where the number is larger. Takes no memory.
    pub fn count(&self) -> u64
        ensures { result ≡ min (⟦<Counted as Ledger>⟧.number self.now) (2 ^ 64 - 1) }
    {
        self.count
    }
}

impl Ledger for Counted {
    ghost number = { λ l. l.number };

    fn add(&mut self) {
        self.number.raise();
        self.count = self.count.saturating_add(1);
    }
}

/// A counter of steps over a ledger. A contract sees it as its ledger.
#[derive(Drop)]
pub struct Steps<L: Ledger> {
    ledger: L,
}

impl<L: Ledger> Model for Steps<L> {
    ghost Value = { L };

    ghost view = { λ s. s.ledger };
}

impl<L: Ledger> Steps<L> {
    /// A counter that goes on from the ledger's number. Takes no memory.
    pub fn new(ledger: L) -> Steps<L>
        ensures { result ≡ ledger }
    {
        Steps { ledger }
    }

    /// Counts one step more. Takes no memory.
    pub fn tick(&mut self)
        ensures { L.number self.new ≡ L.number self.old + 1 }
    {
        self.ledger.add();
    }

    /// The ledger, which has the number of steps. Takes no memory.
    pub fn ledger(&self) -> &L
        ensures { result.now ≡ self.now }
    {
        &self.ledger
    }
}
