use std::alloc::{AllocError, AllocFailed};

/// Why a parser's function gave up, and at which token.
#[derive(Clone, Copy, Debug, Drop, PartialEq, Eq)]
pub enum Refusal {
    /// Memory was wanting.
    Memory,
    /// No phrase goes on with this token.
    Syntax(usize),
    /// This token passes a limit of depth.
    Deep(usize),
    /// This word is banned here.
    Banned(usize),
}

impl From<AllocError> for Refusal {
    ghost use Rattle.std.specs.Prelude.{◌≡◌};
    ghost use Rattle.idl_grammar.specs.declared.refusal.Refusal.TheVariants.{Memory};

    ghost from_gives = { λ _ e. e ≡ Memory };

    fn from(_: AllocError) -> Refusal {
        Refusal::Memory
    }
}

impl<T: Drop> From<AllocFailed<T>> for Refusal {
    ghost use Rattle.std.specs.Prelude.{◌≡◌};
    ghost use Rattle.idl_grammar.specs.declared.refusal.Refusal.TheVariants.{Memory};

    ghost from_gives = { λ _ e. e ≡ Memory };

    fn from(_: AllocFailed<T>) -> Refusal {
        Refusal::Memory
    }
}
