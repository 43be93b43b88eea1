// A refusal as numbers.
ghost use Rattle.std.specs.Prelude.{◌≡◌};
ghost use Rattle.library_calls.specs.Causes.{IsCauseOf, kind_of, place_of, line_of, column_of};
ghost use Rattle.library_calls.specs.Halves.{joined_halves};

use crate::Wide;
use crate::reasons::{reason, rule};
use crate::values::{found, wanted};
use command_refusals::Refusal;

/// Why a call was refused, in numbers. `include/dceidl.h` names the kinds and the reasons. What a refusal does not have is 0.
#[repr(C)]
#[derive(Clone, Copy, Debug, PartialEq, Eq)]
pub struct Cause {
    /// What is refused.
    pub kind: u32,
    /// The reason: its hundreds are the kind.
    pub reason: u32,
    /// The number of the rule of `docs/IDL.md` that a file breaks.
    pub rule: u32,
    /// The octet at which octets are refused, from 0.
    pub place: u32,
    /// The line at which a file or a text is refused, from 1.
    pub line: u64,
    /// The column there, from 1, in octets.
    pub column: u64,
    /// The number that is wanted, where it is not the one that was found: signed where an attribute states it.
    pub wanted: Wide,
    /// The number that was found.
    pub found: Wide,
}

/// The numbers of a refusal. Takes no memory.
pub fn cause_of(refusal: &Refusal) -> Cause
    ensures { IsCauseOf refusal.now result }
{
    let (line, column) = line_and_column(refusal);
    Cause {
        kind: kind(refusal),
        reason: reason(refusal),
        rule: rule(refusal),
        place: place(refusal),
        line,
        column,
        wanted: wanted(refusal),
        found: found(refusal),
    }
}

// The number of the kind; 0 for a refusal that no call answers.
fn kind(refusal: &Refusal) -> u32
    ensures { result ≡ kind_of refusal.now }
{
    match refusal {
        Refusal::Absent { .. } => 1,
        Refusal::BadIdl { .. } => 2,
        Refusal::BadOctets { .. } => 3,
        Refusal::BadText { .. } => 4,
        Refusal::BadValue { .. } => 5,
        Refusal::TooLong { .. } => 6,
        Refusal::BadPdu { .. } => 7,
        Refusal::BadLabel(_) | Refusal::ShortLabel => 8,
        Refusal::NotCompatible(_) => 9,
        Refusal::Memory
        | Refusal::FileFailed { .. }
        | Refusal::NoOperation
        | Refusal::ReadFault
        | Refusal::BadRequest(_)
        | Refusal::TooFewEnds { .. }
        | Refusal::EndFailed { .. }
        | Refusal::BadScript { .. }
        | Refusal::LongScript => 0,
    }
}

// The place in octets.
fn place(refusal: &Refusal) -> u32
    ensures { result ≡ place_of refusal.now }
{
    match refusal {
        Refusal::BadOctets { place, .. } | Refusal::BadPdu { place, .. } => *place,
        _ => 0,
    }
}

// The line and the column.
fn line_and_column(refusal: &Refusal) -> (u64, u64)
    ensures line { result.0 ≡ line_of refusal.now }
    ensures column { result.1 ≡ column_of refusal.now }
{
    match refusal {
        Refusal::BadIdl { line, column, .. } => (*line, *column),
        Refusal::BadText { line, column, .. } => (u64::from(*line), u64::from(*column)),
        _ => (0, 0),
    }
}
