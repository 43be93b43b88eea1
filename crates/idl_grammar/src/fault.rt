// Why a text has no tree.
use std::alloc::{AllocError, AllocFailed};
use thiserror::Error;

/// Why the tokens of a text are no file of the language. Tokens are numbered from 0.
#[derive(Clone, Copy, Debug, Drop, PartialEq, Eq, Error)]
pub enum SyntaxFault {
    /// Memory was wanting.
    #[error("out of memory")]
    Memory,
    /// No file goes on with this token, or the text ends here too early.
    #[error("syntax error at token {token}")]
    Syntax { token: u32 },
    /// A bracket with 64 open, or an operator with 64 before it in its outermost expression.
    #[error("too deep at token {token}")]
    Deep { token: u32 },
    /// A word that is banned in its place.
    #[error("banned word at token {token}")]
    Banned { token: u32 },
}

impl From<AllocError> for SyntaxFault {
    ghost use Rattle.std.specs.Prelude.{◌≡◌};
    ghost use Rattle.idl_grammar.specs.declared.fault.SyntaxFault.TheVariants as errors;

    ghost from_gives = { λ _ e. e ≡ errors.Memory };

    fn from(_: AllocError) -> SyntaxFault {
        SyntaxFault::Memory
    }
}

impl<T: Drop> From<AllocFailed<T>> for SyntaxFault {
    ghost use Rattle.std.specs.Prelude.{◌≡◌};
    ghost use Rattle.idl_grammar.specs.declared.fault.SyntaxFault.TheVariants as errors;

    ghost from_gives = { λ _ e. e ≡ errors.Memory };

    fn from(_: AllocFailed<T>) -> SyntaxFault {
        SyntaxFault::Memory
    }
}
