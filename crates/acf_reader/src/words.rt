// The words that are an attribute configuration file's own, and their symbols.
use idl_tokens::words::Entry;

/// `auto_handle`
pub(crate) const AUTO_HANDLE: u8 = 110;
/// `explicit_handle`
pub(crate) const EXPLICIT_HANDLE: u8 = 111;
/// `implicit_handle`
pub(crate) const IMPLICIT_HANDLE: u8 = 112;
/// `code`
pub(crate) const CODE: u8 = 113;
/// `nocode`
pub(crate) const NOCODE: u8 = 114;
/// `in_line`
pub(crate) const IN_LINE: u8 = 115;
/// `out_of_line`
pub(crate) const OUT_OF_LINE: u8 = 116;
/// `enable_allocate`
pub(crate) const ENABLE_ALLOCATE: u8 = 117;
/// `heap`
pub(crate) const HEAP: u8 = 118;
/// `comm_status`
pub(crate) const COMM_STATUS: u8 = 119;
/// `fault_status`
pub(crate) const FAULT_STATUS: u8 = 120;
/// `include`
pub(crate) const INCLUDE: u8 = 121;

/// The words.
pub(crate) static OWN_WORDS: [Entry; 12] = [
    Entry {
        octets: b"auto_handle",
        symbol: AUTO_HANDLE,
    },
    Entry {
        octets: b"explicit_handle",
        symbol: EXPLICIT_HANDLE,
    },
    Entry {
        octets: b"implicit_handle",
        symbol: IMPLICIT_HANDLE,
    },
    Entry {
        octets: b"code",
        symbol: CODE,
    },
    Entry {
        octets: b"nocode",
        symbol: NOCODE,
    },
    Entry {
        octets: b"in_line",
        symbol: IN_LINE,
    },
    Entry {
        octets: b"out_of_line",
        symbol: OUT_OF_LINE,
    },
    Entry {
        octets: b"enable_allocate",
        symbol: ENABLE_ALLOCATE,
    },
    Entry {
        octets: b"heap",
        symbol: HEAP,
    },
    Entry {
        octets: b"comm_status",
        symbol: COMM_STATUS,
    },
    Entry {
        octets: b"fault_status",
        symbol: FAULT_STATUS,
    },
    Entry {
        octets: b"include",
        symbol: INCLUDE,
    },
];
