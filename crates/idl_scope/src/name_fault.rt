// Why names are not resolved.
use crate::ConstFault;
use idl_grammar::SyntaxFault;
use idl_lexer::LexFault;
use nd_base::{Memory, Place};
use thiserror::Error;

/// Why the names of files are not resolved. Files are told by their numbers in `Sources`.
#[derive(Debug, Drop, Error)]
pub enum NameFault {
    /// Memory was wanting.
    #[error("out of memory")]
    Memory,
    /// No such name is known there, or none of its kind; or a tag after pointers has no body of its kind in any file.
    #[error("unknown name")]
    Unknown {
        place: Place,
    },
    /// The name stands already in its space.
    #[error("name declared twice")]
    Twice {
        place: Place,
        first: Place,
    },
    /// An expression has no value.
    #[error("{fault}")]
    Const {
        place: Place,
        fault: ConstFault,
    },
    /// The imported file is being resolved.
    #[error("files import each other")]
    ImportCycle {
        place: Place,
    },
    /// The imported file would be the 65th.
    #[error("too many files")]
    TooMany {
        place: Place,
    },
    /// The imported file is absent. It is the last of the sources.
    #[error("no such file")]
    Absent {
        file: u16,
    },
    /// The imported file could not be read. It is the last of the sources.
    #[error("file failed")]
    Failed {
        file: u16,
    },
    /// The imported file cannot be cut into tokens.
    #[error("no tokens")]
    Lex {
        file: u16,
        fault: LexFault,
    },
    /// The imported file is no file of the language; and the octet where the fault's token begins.
    #[error("no file of the language")]
    Syntax {
        file: u16,
        at: u32,
        fault: SyntaxFault,
    },
}

impl From<Memory> for NameFault {
    ghost use Rattle.std.specs.Prelude.{◌≡◌};
    ghost use Rattle.idl_scope.specs.declared.name_fault.NameFault.TheVariants as faults;

    ghost from_gives = { λ _ e. e ≡ faults.Memory };

    fn from(_: Memory) -> NameFault {
        NameFault::Memory
    }
}
