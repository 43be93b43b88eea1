// The status and the line of each refusal.
ghost use Rattle.std.specs.Prelude.{◌≡◌, [], ◌∷◌, codes, IfOk};
ghost use Rattle.nd_base.specs.Text.{joined};
ghost use Rattle.command_refusals.specs.Lines.{status_of, line_of, text_line as line_of_text, value_line as line_of_value};
ghost use Rattle.command_refusals.specs.Lines.{request_line as line_of_request, idl_reason_text, fault_text, reason_text, misfit_text};
ghost use Rattle.command_refusals.specs.Lines.{disagreement as disagreement_text, lex_kind_name as name_of_lex_kind};
ghost use Rattle.command_refusals.specs.Lines.{const_fault_name as name_of_const_fault, label_fault_name as name_of_label_fault};
ghost use Rattle.command_refusals.specs.Lines.{reason_name as name_of_reason, misfit_name as name_of_misfit, text_reason_name as name_of_text_reason};

use crate::compat_lines::compat_line;
use crate::fragments_lines::fragments_line;
use crate::refusal::{IdlReason, OctetsFault, Refusal, RequestFault};
use idl_lexer::LexKind;
use idl_scope::ConstFault;
use itoa::Buffer;
use nd_base::text::join;
use nd_base::{Memory, Octets};
use nd_grammar::Reason;
use nd_value::MisfitReason;
use ndr_prim::LabelFault;
use std::alloc::Global;
use text_grammar::TextReason;

/// The exit status of the program.
///
/// | Status | Meaning |
/// |---|---|
/// | 0 | success |
/// | 1 | the input is refused: its label, octets, fragments, text, script or values; or the request beside which a response is judged |
/// | 1 | the octets would be too many, there are fewer pipe ends than pipes, or an interface is not compatible with an older one |
/// | 2 | the command line is not valid |
/// | 3 | the input failed |
/// | 4 | standard output or standard error failed; this status replaces any other |
/// | 5 | out of memory |
/// | 6 | an interface file or the attribute configuration file is refused, or the interface has no operation of that name |
/// | 7 | the interface file, an imported file, the attribute configuration file or the text of a request does not exist |
/// | 8 | a pipe end failed |
/// | 9 | the interface file, an imported file, the attribute configuration file or the text of a request could not be read |
pub type Status = u8;

/// The exit status of a run that is refused in this way.
pub fn status(refusal: &Refusal) -> Status
    ensures { result ≡ status_of refusal.now }
{
    match refusal {
        Refusal::Memory => 5,
        Refusal::Absent { .. } => 7,
        Refusal::FileFailed { .. } => 9,
        Refusal::BadIdl { .. } | Refusal::NoOperation => 6,
        Refusal::ReadFault => 3,
        Refusal::BadOctets { .. }
        | Refusal::BadText { .. }
        | Refusal::BadValue { .. }
        | Refusal::TooLong { .. }
        | Refusal::BadRequest(_)
        | Refusal::BadLabel(_)
        | Refusal::ShortLabel
        | Refusal::TooFewEnds { .. }
        | Refusal::BadPdu { .. }
        | Refusal::NotCompatible(_)
        | Refusal::BadScript { .. }
        | Refusal::LongScript => 1,
        Refusal::EndFailed { .. } => 8,
    }
}

/// The line that reports a refusal: `idl` is the name of the main file and `op` that of the operation, if the command names them.
///
/// # Errors
/// Memory where memory was refused.
///
/// Takes memory for the line.
pub fn line(alloc: Global, idl: &str, op: &str, refusal: &Refusal) -> Result<Octets, Memory>
    ensures { IfOk result (λ line. line ≡ line_of idl.now op.now refusal.now) }
{
    match refusal {
        Refusal::Memory => Octets::copy(alloc, b"want of memory\n"),
        Refusal::Absent { file } => join(alloc, &[b"absent: ", file.as_slice(), b"\n"]),
        Refusal::FileFailed { file } => { join(alloc, &[b"file fault: ", file.as_slice(), b"\n"]) }
        Refusal::BadIdl {
            file,
            line,
            column,
            reason,
        } => idl_line(alloc, file.as_slice(), *line, *column, reason),
        Refusal::NoOperation => operation_line(alloc, idl, op),
        Refusal::ReadFault => Octets::copy(alloc, b"read fault\n"),
        Refusal::BadOctets { place, why } => octets_line(alloc, *place, *why),
        Refusal::BadText {
            line,
            column,
            reason,
        } => text_line(alloc, b"refused: text ", *line, *column, *reason),
        Refusal::BadValue { path, reason } => {
            value_line(alloc, b"refused: value at ", path.as_slice(), *reason)
        }
        Refusal::TooLong { length } => length_line(alloc, *length),
        Refusal::BadRequest(fault) => request_line(alloc, fault),
        Refusal::BadLabel(fault) => label_line(alloc, *fault),
        Refusal::ShortLabel => Octets::copy(alloc, b"refused: label: Truncated\n"),
        Refusal::TooFewEnds { wanted, found } => ends_line(alloc, *wanted, *found),
        Refusal::EndFailed { which } => end_line(alloc, *which),
        Refusal::BadPdu { place, why } => fragments_line(alloc, *place, *why),
        Refusal::NotCompatible(fault) => compat_line(alloc, fault),
        Refusal::BadScript { line } => script_line(alloc, *line),
        Refusal::LongScript => Octets::copy(alloc, b"refused: script TooLong\n"),
    }
}

// A line of a script that is refused.
fn script_line(alloc: Global, number: u32) -> Result<Octets, Memory>
    ensures { IfOk result (λ line. line ≡ line_of [] [] (Refusal.BadScript number)) }
{
    let mut digits = Buffer::new();
    join(
        alloc,
        &[b"refused: script ", digits.format(number).as_bytes(), b"\n"],
    )
}

// A format label that is refused.
fn label_line(alloc: Global, fault: LabelFault) -> Result<Octets, Memory>
    ensures { IfOk result (λ line. line ≡ line_of [] [] (Refusal.BadLabel fault)) }
{
    join(
        alloc,
        &[
            b"refused: label: ",
            label_fault_name(fault).as_bytes(),
            b"\n",
        ],
    )
}

// The name of a reason why a format label is refused.
fn label_fault_name(fault: LabelFault) -> &'static str
    ensures { result.now ≡ name_of_label_fault fault }
{
    match fault {
        LabelFault::BadOrder => "BadOrder",
        LabelFault::Ebcdic => "Ebcdic",
        LabelFault::BadCharset => "BadCharset",
    }
}

// More pipes than ends.
fn ends_line(alloc: Global, wanted: u32, found: u32) -> Result<Octets, Memory>
    ensures { IfOk result (λ line. line ≡ line_of [] [] (Refusal.TooFewEnds wanted found)) }
{
    let mut wanted_digits = Buffer::new();
    let wanted = wanted_digits.format(wanted).as_bytes();
    let mut found_digits = Buffer::new();
    let found = found_digits.format(found).as_bytes();
    join(
        alloc,
        &[
            b"refused: TooFewEnds wanted ",
            wanted,
            b" found ",
            found,
            b"\n",
        ],
    )
}

// A pipe end that failed.
fn end_line(alloc: Global, which: u32) -> Result<Octets, Memory>
    ensures { IfOk result (λ line. line ≡ line_of [] [] (Refusal.EndFailed which)) }
{
    let mut digits = Buffer::new();
    join(
        alloc,
        &[b"pipe end ", digits.format(which).as_bytes(), b" failed\n"],
    )
}

// A request that is refused.
fn request_line(alloc: Global, fault: &RequestFault) -> Result<Octets, Memory>
    ensures { IfOk result (λ told. told ≡ line_of_request fault.now) }
{
    match fault {
        RequestFault::Text {
            line,
            column,
            reason,
        } => text_line(alloc, b"refused: given: text ", *line, *column, *reason),
        RequestFault::Value { path, reason } => {
            value_line(
                alloc,
                b"refused: given: value at ",
                path.as_slice(),
                *reason,
            )
        }
    }
}

// An operation that there is not.
fn operation_line(alloc: Global, idl: &str, op: &str) -> Result<Octets, Memory>
    ensures { IfOk result (λ told. told ≡ line_of idl.now op.now Refusal.NoOperation) }
{
    join(
        alloc,
        &[
            b"idl ",
            idl.as_bytes(),
            b": NoOperation ",
            op.as_bytes(),
            b"\n",
        ],
    )
}

// Octets that would be too many.
fn length_line(alloc: Global, length: u128) -> Result<Octets, Memory>
    ensures { IfOk result (λ line. line ≡ line_of [] [] (Refusal.TooLong length)) }
{
    let mut digits = Buffer::new();
    let length = digits.format(length).as_bytes();
    join(alloc, &[b"refused: TooLong ", length, b"\n"])
}

// A file that is refused at a line and column.
fn idl_line(
    alloc: Global,
    file: &[u8],
    line: u64,
    column: u64,
    reason: &IdlReason,
) -> Result<Octets, Memory>
    ensures { IfOk result (λ told. told ≡ line_of [] [] (Refusal.BadIdl file.now line column reason.now)) }
{
    let mut line_digits = Buffer::new();
    let line = line_digits.format(line).as_bytes();
    let mut column_digits = Buffer::new();
    let column = column_digits.format(column).as_bytes();
    let reason = why_not_idl(alloc, reason)?;
    join(
        alloc,
        &[
            b"idl ",
            file,
            b":",
            line,
            b":",
            column,
            b": ",
            reason.as_slice(),
            b"\n",
        ],
    )
}

// Why a file is refused, as a line tells it.
fn why_not_idl(alloc: Global, reason: &IdlReason) -> Result<Octets, Memory>
    ensures { IfOk result (λ text. text ≡ idl_reason_text reason.now) }
{
    match reason {
        IdlReason::Lexical(kind) => Octets::copy(alloc, lex_kind_name(*kind).as_bytes()),
        IdlReason::Syntax => Octets::copy(alloc, b"Syntax"),
        IdlReason::Deep => Octets::copy(alloc, b"Deep"),
        IdlReason::Banned { word } => join(alloc, &[b"Banned ", word.as_slice()]),
        IdlReason::Unknown { name } => join(alloc, &[b"Unknown ", name.as_slice()]),
        IdlReason::Twice { name } => join(alloc, &[b"Twice ", name.as_slice()]),
        IdlReason::ImportCycle => Octets::copy(alloc, b"ImportCycle"),
        IdlReason::TooMany => Octets::copy(alloc, b"TooMany"),
        IdlReason::NoValue(fault) => Octets::copy(alloc, const_fault_name(*fault).as_bytes()),
        IdlReason::Rule(rule) => rule_text(alloc, *rule),
    }
}

// A broken rule, as a line tells it.
fn rule_text(alloc: Global, rule: u8) -> Result<Octets, Memory>
    ensures { IfOk result (λ text. text ≡ idl_reason_text (IdlReason.Rule rule)) }
{
    let mut digits = Buffer::new();
    join(alloc, &[b"Rule ", digits.format(rule).as_bytes()])
}

// The name of a reason why an expression has no value.
fn const_fault_name(fault: ConstFault) -> &'static str
    ensures { result.now ≡ name_of_const_fault fault }
{
    match fault {
        ConstFault::OutOfRange => "OutOfRange",
        ConstFault::ZeroDivisor => "ZeroDivisor",
        ConstFault::NotConst => "NotConst",
    }
}

// The name of a reason why a text of IDL cannot be cut into tokens.
fn lex_kind_name(kind: LexKind) -> &'static str
    ensures { result.now ≡ name_of_lex_kind kind }
{
    match kind {
        LexKind::BadOctet => "BadOctet",
        LexKind::OpenComment => "OpenComment",
        LexKind::OpenText => "OpenText",
        LexKind::LongName => "LongName",
        LexKind::BadNumber => "BadNumber",
        LexKind::TooLong => "TooLong",
    }
}

// Octets that are refused at a place.
fn octets_line(alloc: Global, place: u32, why: OctetsFault) -> Result<Octets, Memory>
    ensures { IfOk result (λ line. line ≡ line_of [] [] (Refusal.BadOctets place why)) }
{
    let why = fault_words(alloc, why)?;
    let mut digits = Buffer::new();
    let place = digits.format(place).as_bytes();
    join(
        alloc,
        &[b"refused: octets at ", place, b": ", why.as_slice(), b"\n"],
    )
}

// A text that is refused at a line and column.
fn text_line(
    alloc: Global,
    what: &[u8],
    line: u32,
    column: u32,
    reason: TextReason,
) -> Result<Octets, Memory>
    ensures { IfOk result (λ told. told ≡ line_of_text what.now line column reason) }
{
    let mut line_digits = Buffer::new();
    let line = line_digits.format(line).as_bytes();
    let mut column_digits = Buffer::new();
    let column = column_digits.format(column).as_bytes();
    let reason = Octets::copy(alloc, text_reason_name(reason).as_bytes())?;
    join(
        alloc,
        &[what, line, b":", column, b": ", reason.as_slice(), b"\n"],
    )
}

// A value that is refused at a path.
fn value_line(
    alloc: Global,
    what: &[u8],
    path: &[u8],
    reason: MisfitReason,
) -> Result<Octets, Memory>
    ensures { IfOk result (λ line. line ≡ line_of_value what.now path.now reason) }
{
    let reason = why_misfit(alloc, reason)?;
    join(alloc, &[what, path, b": ", reason.as_slice(), b"\n"])
}

/// Why octets are refused, as a line tells it. Takes memory for the words; out of memory is the only error.
pub fn fault_words(alloc: Global, why: OctetsFault) -> Result<Octets, Memory>
    ensures { IfOk result (λ text. text ≡ fault_text why) }
{
    match why {
        OctetsFault::Trailing => Octets::copy(alloc, b"Trailing"),
        OctetsFault::Refused(Reason::Disagrees { wanted, found }) => {
            disagreement(alloc, wanted, found)
        }
        OctetsFault::Refused(reason) => Octets::copy(alloc, reason_name(reason).as_bytes()),
    }
}

// Why a value is refused, as a line tells it.
fn why_misfit(alloc: Global, reason: MisfitReason) -> Result<Octets, Memory>
    ensures { IfOk result (λ text. text ≡ misfit_text reason) }
{
    match reason {
        MisfitReason::Disagrees { wanted, found } => disagreement(alloc, wanted, found),
        _ => Octets::copy(alloc, misfit_name(reason).as_bytes()),
    }
}

// An agreement that fails, with its two numbers.
fn disagreement(alloc: Global, wanted: i128, found: i128) -> Result<Octets, Memory>
    ensures { IfOk result (λ text. text ≡ disagreement_text wanted found) }
{
    let mut wanted_digits = Buffer::new();
    let wanted = wanted_digits.format(wanted).as_bytes();
    let mut found_digits = Buffer::new();
    let found = found_digits.format(found).as_bytes();
    join(alloc, &[b"Disagrees wanted ", wanted, b" found ", found])
}

// The name of a reason; a disagreement has its numbers beside it.
fn reason_name(reason: Reason) -> &'static str
    ensures { result.now ≡ name_of_reason reason }
{
    match reason {
        Reason::Truncated => "Truncated",
        Reason::TooLong => "TooLong",
        Reason::EnumValue => "EnumValue",
        Reason::PastBound => "PastBound",
        Reason::TextOffset => "TextOffset",
        Reason::TextEmpty => "TextEmpty",
        Reason::TextUnended => "TextUnended",
        Reason::TextZero => "TextZero",
        Reason::NoArm => "NoArm",
        Reason::OtherType => "OtherType",
        Reason::Disagrees { .. } => "Disagrees",
    }
}

// The name of a reason why a text is refused.
fn text_reason_name(reason: TextReason) -> &'static str
    ensures { result.now ≡ name_of_text_reason reason }
{
    match reason {
        TextReason::TooLong => "TooLong",
        TextReason::BadToken => "BadToken",
        TextReason::Expected => "Expected",
        TextReason::OtherName => "OtherName",
        TextReason::OutOfOrder => "OutOfOrder",
        TextReason::Unnamed => "Unnamed",
    }
}

// The name of a reason why a value is refused; a disagreement has its numbers beside it.
fn misfit_name(reason: MisfitReason) -> &'static str
    ensures { result.now ≡ name_of_misfit reason }
{
    match reason {
        MisfitReason::Shape => "Shape",
        MisfitReason::Range => "Range",
        MisfitReason::NullRef => "NullRef",
        MisfitReason::NoCell => "NoCell",
        MisfitReason::CellType => "CellType",
        MisfitReason::Bound => "Bound",
        MisfitReason::Zero => "Zero",
        MisfitReason::NoArm => "NoArm",
        MisfitReason::Shared => "Shared",
        MisfitReason::Unreached => "Unreached",
        MisfitReason::Disagrees { .. } => "Disagrees",
    }
}
