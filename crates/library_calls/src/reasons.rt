// The numbers of reasons: their hundreds are the kind.
ghost use Rattle.std.specs.Prelude.{◌≡◌};
ghost use Rattle.library_calls.specs.Reasons.{reason_of, rule_of, idl_reason_of, lex_reason_of, const_reason_of, octets_reason_of};
ghost use Rattle.library_calls.specs.Reasons.{text_reason_of, value_reason_of, fragments_reason_of, label_reason_of, compat_reason_of};

use command_refusals::{CompatFault, FragmentsFault, IdlReason, OctetsFault, Refusal};
use idl_lexer::LexKind;
use idl_scope::ConstFault;
use nd_grammar::Reason;
use nd_value::MisfitReason;
use ndr_prim::LabelFault;
use rpc_pdu::PduReason;
use text_grammar::TextReason;

// The number of the reason; 0 where the kind says all.
pub(crate) fn reason(refusal: &Refusal) -> u32
    ensures { result ≡ reason_of refusal.now }
{
    match refusal {
        Refusal::BadIdl { reason, .. } => idl_reason(reason),
        Refusal::BadOctets { why, .. } => octets_fault(*why),
        Refusal::BadText { reason, .. } => text_reason(*reason),
        Refusal::BadValue { reason, .. } => value_reason(*reason),
        Refusal::BadPdu { why, .. } => fragments_fault(*why),
        Refusal::BadLabel(fault) => label_reason(*fault),
        Refusal::ShortLabel => 804,
        Refusal::NotCompatible(fault) => compat_reason(fault),
        _ => 0,
    }
}

// The number of the rule that a file breaks.
pub(crate) fn rule(refusal: &Refusal) -> u32
    ensures { result ≡ rule_of refusal.now }
{
    match refusal {
        Refusal::BadIdl {
            reason: IdlReason::Rule(rule),
            ..
        } => u32::from(*rule),
        _ => 0,
    }
}

// Why a file is refused.
fn idl_reason(reason: &IdlReason) -> u32
    ensures { result ≡ idl_reason_of reason.now }
{
    match reason {
        IdlReason::Lexical(kind) => lex_reason(*kind),
        IdlReason::Syntax => 207,
        IdlReason::Deep => 208,
        IdlReason::Banned { .. } => 209,
        IdlReason::Unknown { .. } => 210,
        IdlReason::Twice { .. } => 211,
        IdlReason::ImportCycle => 212,
        IdlReason::TooMany => 213,
        IdlReason::NoValue(fault) => const_reason(*fault),
        IdlReason::Rule(_) => 217,
    }
}

// Why a file has no tokens.
fn lex_reason(kind: LexKind) -> u32
    ensures { result ≡ lex_reason_of kind }
{
    match kind {
        LexKind::BadOctet => 201,
        LexKind::OpenComment => 202,
        LexKind::OpenText => 203,
        LexKind::LongName => 204,
        LexKind::BadNumber => 205,
        LexKind::TooLong => 206,
    }
}

// Why an expression has no value.
fn const_reason(fault: ConstFault) -> u32
    ensures { result ≡ const_reason_of fault }
{
    match fault {
        ConstFault::OutOfRange => 214,
        ConstFault::ZeroDivisor => 215,
        ConstFault::NotConst => 216,
    }
}

// Why octets are refused.
fn octets_fault(fault: OctetsFault) -> u32
    ensures { result ≡ octets_reason_of fault }
{
    match fault {
        OctetsFault::Refused(Reason::Truncated) => 301,
        OctetsFault::Refused(Reason::TooLong) => 302,
        OctetsFault::Refused(Reason::EnumValue) => 303,
        OctetsFault::Refused(Reason::PastBound) => 304,
        OctetsFault::Refused(Reason::TextOffset) => 305,
        OctetsFault::Refused(Reason::TextEmpty) => 306,
        OctetsFault::Refused(Reason::TextUnended) => 307,
        OctetsFault::Refused(Reason::TextZero) => 308,
        OctetsFault::Refused(Reason::NoArm) => 309,
        OctetsFault::Refused(Reason::OtherType) => 310,
        OctetsFault::Refused(Reason::Disagrees { .. }) => 311,
        OctetsFault::Trailing => 312,
    }
}

// Why a text is refused.
fn text_reason(reason: TextReason) -> u32
    ensures { result ≡ text_reason_of reason }
{
    match reason {
        TextReason::TooLong => 401,
        TextReason::BadToken => 402,
        TextReason::Expected => 403,
        TextReason::OtherName => 404,
        TextReason::OutOfOrder => 405,
        TextReason::Unnamed => 406,
    }
}

// Why a value is refused.
fn value_reason(reason: MisfitReason) -> u32
    ensures { result ≡ value_reason_of reason }
{
    match reason {
        MisfitReason::Shape => 501,
        MisfitReason::Range => 502,
        MisfitReason::NullRef => 503,
        MisfitReason::NoCell => 504,
        MisfitReason::CellType => 505,
        MisfitReason::Bound => 506,
        MisfitReason::Zero => 507,
        MisfitReason::NoArm => 508,
        MisfitReason::Shared => 509,
        MisfitReason::Unreached => 510,
        MisfitReason::Disagrees { .. } => 511,
    }
}

// Why fragments are refused.
fn fragments_fault(fault: FragmentsFault) -> u32
    ensures { result ≡ fragments_reason_of fault }
{
    match fault {
        FragmentsFault::Refused(PduReason::Short) => 701,
        FragmentsFault::Refused(PduReason::Version) => 702,
        FragmentsFault::Refused(PduReason::Kind) => 703,
        FragmentsFault::Refused(PduReason::Flags) => 704,
        FragmentsFault::Refused(PduReason::Label) => 705,
        FragmentsFault::Refused(PduReason::OtherOrder) => 706,
        FragmentsFault::Refused(PduReason::Length) => 707,
        FragmentsFault::Refused(PduReason::Auth) => 708,
        FragmentsFault::Refused(PduReason::OtherCall) => 709,
        FragmentsFault::Refused(PduReason::OtherOperation) => 710,
        FragmentsFault::Refused(PduReason::EmptyPiece) => 711,
        FragmentsFault::Refused(PduReason::StubLong) => 712,
        FragmentsFault::Trailing => 713,
        FragmentsFault::NoOperation(_) => 714,
    }
}

// Why a format label is refused.
fn label_reason(fault: LabelFault) -> u32
    ensures { result ≡ label_reason_of fault }
{
    match fault {
        LabelFault::BadOrder => 801,
        LabelFault::Ebcdic => 802,
        LabelFault::BadCharset => 803,
    }
}

// Why an interface is not compatible with an older one.
fn compat_reason(fault: &CompatFault) -> u32
    ensures { result ≡ compat_reason_of fault.now }
{
    match fault {
        CompatFault::OtherUuid => 901,
        CompatFault::OtherMajor { .. } => 902,
        CompatFault::OlderMinor { .. } => 903,
        CompatFault::Fewer { .. } => 904,
        CompatFault::Differs { .. } => 905,
    }
}
