// The words of reasons, as lines of commands have them.
ghost use Rattle.std.specs.Prelude.{◌≡◌};
ghost use Rattle.command_refusals.specs.Lines.{lex_kind_name, const_fault_name, text_reason_name, misfit_name, label_fault_name};
ghost use Rattle.library_calls.specs.Words.{word_of, idl_word, octets_word, fragments_word, compat_word};

use command_refusals::{CompatFault, FragmentsFault, IdlReason, OctetsFault, Refusal};
use idl_lexer::LexKind;
use idl_scope::ConstFault;
use nd_grammar::Reason;
use nd_value::MisfitReason;
use ndr_prim::LabelFault;
use rpc_pdu::PduReason;
use text_grammar::TextReason;

/// The word of the reason, which `why` explains; no octets where the kind says all. Takes no memory.
pub fn reason_word(refusal: &Refusal) -> &'static [u8]
    ensures { result.now ≡ word_of refusal.now }
{
    word(refusal).as_bytes()
}

// The word of the reason.
fn word(refusal: &Refusal) -> &'static str
    ensures { result.now ≡ word_of refusal.now }
{
    match refusal {
        Refusal::BadIdl { reason, .. } => idl_word(reason),
        Refusal::BadOctets { why, .. } => octets_word(*why),
        Refusal::BadText { reason, .. } => text_word(*reason),
        Refusal::BadValue { reason, .. } => value_word(*reason),
        Refusal::BadPdu { why, .. } => fragments_word(*why),
        Refusal::BadLabel(fault) => label_word(*fault),
        Refusal::ShortLabel => "Truncated",
        Refusal::NotCompatible(fault) => compat_word(fault),
        _ => "",
    }
}

// Why a file is refused.
fn idl_word(reason: &IdlReason) -> &'static str
    ensures { result.now ≡ idl_word reason.now }
{
    match reason {
        IdlReason::Lexical(kind) => lex_word(*kind),
        IdlReason::Syntax => "Syntax",
        IdlReason::Deep => "Deep",
        IdlReason::Banned { .. } => "Banned",
        IdlReason::Unknown { .. } => "Unknown",
        IdlReason::Twice { .. } => "Twice",
        IdlReason::ImportCycle => "ImportCycle",
        IdlReason::TooMany => "TooMany",
        IdlReason::NoValue(fault) => const_word(*fault),
        IdlReason::Rule(_) => "Rule",
    }
}

// Why a file has no tokens.
fn lex_word(kind: LexKind) -> &'static str
    ensures { result.now ≡ lex_kind_name kind }
{
    match kind {
        LexKind::BadOctet => "BadOctet",
        LexKind::OpenComment => "OpenComment",
        LexKind::OpenText => "OpenText",
        LexKind::LongName => "LongName",
        LexKind::BadNumber => "BadNumber",
        LexKind::TooLong => "TooLong",
    }
}

// Why an expression has no value.
fn const_word(fault: ConstFault) -> &'static str
    ensures { result.now ≡ const_fault_name fault }
{
    match fault {
        ConstFault::OutOfRange => "OutOfRange",
        ConstFault::ZeroDivisor => "ZeroDivisor",
        ConstFault::NotConst => "NotConst",
    }
}

// Why octets are refused.
fn octets_word(fault: OctetsFault) -> &'static str
    ensures { result.now ≡ octets_word fault }
{
    match fault {
        OctetsFault::Refused(Reason::Truncated) => "Truncated",
        OctetsFault::Refused(Reason::TooLong) => "TooLong",
        OctetsFault::Refused(Reason::EnumValue) => "EnumValue",
        OctetsFault::Refused(Reason::PastBound) => "PastBound",
        OctetsFault::Refused(Reason::TextOffset) => "TextOffset",
        OctetsFault::Refused(Reason::TextEmpty) => "TextEmpty",
        OctetsFault::Refused(Reason::TextUnended) => "TextUnended",
        OctetsFault::Refused(Reason::TextZero) => "TextZero",
        OctetsFault::Refused(Reason::NoArm) => "NoArm",
        OctetsFault::Refused(Reason::OtherType) => "OtherType",
        OctetsFault::Refused(Reason::Disagrees { .. }) => "Disagrees",
        OctetsFault::Trailing => "Trailing",
    }
}

// Why a text is refused.
fn text_word(reason: TextReason) -> &'static str
    ensures { result.now ≡ text_reason_name reason }
{
    match reason {
        TextReason::TooLong => "TooLong",
        TextReason::BadToken => "BadToken",
        TextReason::Expected => "Expected",
        TextReason::OtherName => "OtherName",
        TextReason::OutOfOrder => "OutOfOrder",
        TextReason::Unnamed => "Unnamed",
    }
}

// Why a value is refused.
fn value_word(reason: MisfitReason) -> &'static str
    ensures { result.now ≡ misfit_name reason }
{
    match reason {
        MisfitReason::Shape => "Shape",
        MisfitReason::Range => "Range",
        MisfitReason::NullRef => "NullRef",
        MisfitReason::NoCell => "NoCell",
        MisfitReason::CellType => "CellType",
        MisfitReason::Bound => "Bound",
        MisfitReason::Zero => "Zero",
        MisfitReason::NoArm => "NoArm",
        MisfitReason::Shared => "Shared",
        MisfitReason::Unreached => "Unreached",
        MisfitReason::Disagrees { .. } => "Disagrees",
    }
}

// Why fragments are refused.
fn fragments_word(fault: FragmentsFault) -> &'static str
    ensures { result.now ≡ fragments_word fault }
{
    match fault {
        FragmentsFault::Refused(PduReason::Short) => "Short",
        FragmentsFault::Refused(PduReason::Version) => "Version",
        FragmentsFault::Refused(PduReason::Kind) => "Kind",
        FragmentsFault::Refused(PduReason::Flags) => "Flags",
        FragmentsFault::Refused(PduReason::Label) => "Label",
        FragmentsFault::Refused(PduReason::OtherOrder) => "OtherOrder",
        FragmentsFault::Refused(PduReason::Length) => "Length",
        FragmentsFault::Refused(PduReason::Auth) => "Auth",
        FragmentsFault::Refused(PduReason::OtherCall) => "OtherCall",
        FragmentsFault::Refused(PduReason::OtherOperation) => "OtherOperation",
        FragmentsFault::Refused(PduReason::EmptyPiece) => "EmptyPiece",
        FragmentsFault::Refused(PduReason::StubLong) => "StubLong",
        FragmentsFault::Trailing => "Trailing",
        FragmentsFault::NoOperation(_) => "NoOperation",
    }
}

// Why a format label is refused.
fn label_word(fault: LabelFault) -> &'static str
    ensures { result.now ≡ label_fault_name fault }
{
    match fault {
        LabelFault::BadOrder => "BadOrder",
        LabelFault::Ebcdic => "Ebcdic",
        LabelFault::BadCharset => "BadCharset",
    }
}

// Why an interface is not compatible with an older one.
fn compat_word(fault: &CompatFault) -> &'static str
    ensures { result.now ≡ compat_word fault.now }
{
    match fault {
        CompatFault::OtherUuid => "OtherUuid",
        CompatFault::OtherMajor { .. } => "OtherMajor",
        CompatFault::OlderMinor { .. } => "OlderMinor",
        CompatFault::Fewer { .. } => "Fewer",
        CompatFault::Differs { .. } => "Differs",
    }
}
