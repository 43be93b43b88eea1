// Why a command is refused.
use idl_lexer::LexKind;
use idl_scope::ConstFault;
use nd_base::{Memory, Octets};
use nd_grammar::Reason;
use nd_value::MisfitReason;
use ndr_prim::LabelFault;
use rpc_pdu::PduReason;
use text_grammar::TextReason;
use thiserror::Error;

/// Why a file of IDL, or an attribute configuration file, is refused at a place.
#[derive(Debug, Drop, Error)]
pub enum IdlReason {
    /// It cannot be cut into tokens, or is too long.
    #[error("no tokens: {0:?}")]
    Lexical(LexKind),
    /// No file of the language goes on there.
    #[error("no file of the language goes on here")]
    Syntax,
    /// A bracket with 64 open, or an operator with 64 before it in its outermost expression.
    #[error("nested too deep")]
    Deep,
    /// This word of the language, which this compiler leaves out.
    #[error("a word that is left out")]
    Banned { word: Octets },
    /// No such name is known there, or none of its kind.
    #[error("unknown name")]
    Unknown { name: Octets },
    /// The name stands already in its space.
    #[error("name declared twice")]
    Twice { name: Octets },
    /// The imported file is being resolved.
    #[error("files import each other")]
    ImportCycle,
    /// The imported file would be the 65th.
    #[error("too many files")]
    TooMany,
    /// An expression has no value.
    #[error("{0}")]
    NoValue(ConstFault),
    /// The rule of this number of `docs/IDL.md` is broken: the fortieth by an attribute configuration file, each other by a file of IDL.
    #[error("rule {0}")]
    Rule(u8),
}

/// Why octets of the input are refused.
#[derive(Clone, Copy, Debug, PartialEq, Eq, Error)]
pub enum OctetsFault {
    /// They represent no values of the operation.
    #[error("the octets represent no values of the operation")]
    Refused(Reason),
    /// An octet follows the values.
    #[error("an octet follows the values")]
    Trailing,
}

/// Why the request beside which a response is judged is refused.
#[derive(Debug, Drop, Error)]
pub enum RequestFault {
    /// Its text is refused at a line and column, from 1, in octets; a file that is too long at 1:1.
    #[error("text refused at {line}:{column}")]
    Text {
        line: u32,
        column: u32,
        reason: TextReason,
    },
    /// The values of its text do not conform to the inputs of the operation. The first misfit is at a path.
    #[error("value refused")]
    Value {
        path: Octets,
        reason: MisfitReason,
    },
}

/// Why the fragments of a request or response are refused.
#[derive(Clone, Copy, Debug, PartialEq, Eq, Error)]
pub enum FragmentsFault {
    /// They are not the fragments of one request or response.
    #[error("the octets are not the fragments of a call")]
    Refused(PduReason),
    /// An octet follows the last fragment.
    #[error("an octet follows the last fragment")]
    Trailing,
    /// The interface has no operation of this number, which a request states.
    #[error("no operation {0}")]
    NoOperation(u16),
}

/// Why an interface is not compatible with an older one.
#[derive(Debug, Drop, Error)]
pub enum CompatFault {
    /// The uuids differ, or one is absent.
    #[error("another uuid")]
    OtherUuid,
    /// The major versions differ.
    #[error("major versions {old} and {new}")]
    OtherMajor { old: u16, new: u16 },
    /// The minor version is less than the old one.
    #[error("minor versions {old} and {new}")]
    OlderMinor { old: u16, new: u16 },
    /// It has fewer operations than the old interface.
    #[error("{old} and {new} operations")]
    Fewer { old: u32, new: u32 },
    /// The operation of this name in the old interface is the first that differs.
    #[error("an operation differs")]
    Differs { name: Octets },
}

/// Why a task is refused.
#[derive(Debug, Drop, Error)]
pub enum Refusal {
    /// Memory was wanting.
    #[error("out of memory")]
    Memory,
    /// There is no file of the name: the main file, one that is imported, the attribute configuration file, or the text of a request.
    #[error("no such file")]
    Absent {
        file: Octets,
    },
    /// The file of the name was not read.
    #[error("file failed")]
    FileFailed {
        file: Octets,
    },
    /// The file of the name is refused at a line and column, from 1, in octets.
    #[error("file refused at {line}:{column}: {reason}")]
    BadIdl {
        file: Octets,
        line: u64,
        column: u64,
        reason: IdlReason,
    },
    /// The interface has no operation of the name.
    #[error("no such operation")]
    NoOperation,
    /// The input failed.
    #[error("read failed")]
    ReadFault,
    /// The octets of the input are refused at a place.
    #[error("octets refused at {place}")]
    BadOctets {
        place: u32,
        why: OctetsFault,
    },
    /// The text of the input is refused at a line and column, from 1, in octets.
    #[error("text refused at {line}:{column}")]
    BadText {
        line: u32,
        column: u32,
        reason: TextReason,
    },
    /// The values of the text do not conform to the operation. The first misfit is at a path, in octets: a root's name or `@k`, then
    /// `.NAME` for each member and arm and `[I]` for each element on the way.
    #[error("value refused")]
    BadValue {
        path: Octets,
        reason: MisfitReason,
    },
    /// The octets of the values would be more than a stream may have: so many.
    #[error("the stream would have {length} octets")]
    TooLong {
        length: u128,
    },
    /// The request beside which a response is to be judged is refused.
    #[error("request refused: {0}")]
    BadRequest(RequestFault),
    /// The format label before the octets is refused.
    #[error("label refused: {0}")]
    BadLabel(LabelFault),
    /// The input has fewer than the four octets of a format label.
    #[error("label cut short")]
    ShortLabel,
    /// The side of the operation has so many pipes, and there are fewer ends.
    #[error("{wanted} pipe ends wanted, {found} found")]
    TooFewEnds {
        wanted: u32,
        found: u32,
    },
    /// The end of the pipe of this number, from 0, failed.
    #[error("pipe end {which} failed")]
    EndFailed {
        which: u32,
    },
    /// The fragments of the input are refused at a place, in octets from the first fragment.
    #[error("fragments refused at {place}")]
    BadPdu {
        place: u32,
        why: FragmentsFault,
    },
    /// The second interface is not compatible with the first.
    #[error("not compatible: {0}")]
    NotCompatible(CompatFault),
    /// A line of the script, counted from 1, is none of a script.
    #[error("script refused at line {line}")]
    BadScript {
        line: u32,
    },
    /// The script has too many octets.
    #[error("the script is too long")]
    LongScript,
}

impl From<Memory> for Refusal {
    ghost use Rattle.std.specs.Prelude.{◌≡◌};
    ghost use Rattle.command_refusals.specs.declared.refusal.Refusal.TheVariants as refusal;

    ghost from_gives = { λ _ r. r ≡ refusal.Memory };

    fn from(_: Memory) -> Refusal {
        Refusal::Memory
    }
}
