// Command lines, with what each comes to where nothing fails.
use dceidl::Status;

// A file.
#[derive(Clone, Copy)]
pub(crate) struct File {
    pub(crate) name: &'static str,
    pub(crate) content: &'static [u8],
}

// A call of an end: a line that it takes, or its finish, which has no octets.
#[derive(Clone, Copy)]
pub(crate) struct Call {
    /// The number of the end.
    pub(crate) end: usize,
    /// How many octets of the input are read by then.
    pub(crate) read: usize,
    pub(crate) line: &'static [u8],
}

// A command line with its files and its input, and what it comes to.
#[derive(Clone, Copy)]
pub(crate) struct Command {
    pub(crate) name: &'static str,
    pub(crate) words: &'static [&'static str],
    pub(crate) files: &'static [File],
    /// The files that are loaded, in order.
    pub(crate) loads: &'static [&'static str],
    pub(crate) input: &'static [u8],
    /// How many octets the input gives at a call.
    pub(crate) piece: u32,
    /// How many octets are left of it.
    pub(crate) left: usize,
    pub(crate) status: Status,
    pub(crate) out: &'static [u8],
    pub(crate) notes: &'static [u8],
    /// The calls of the ends, in order.
    pub(crate) calls: &'static [Call],
}

// The files of the directory interface (an interface that imports another, with its attribute configuration file).
const DIRECTORY_FILES: &[File] = &[
    File {
        name: "base.idl",
        content: b"[uuid(0a0b0c0d-0102-0304-0506-0708090a0b0c), version(1.0)]
interface base { const long NAME_MAX = 16; typedef enum { FILE_KIND, FOLDER_KIND = 4 } kind_t; }",
    },
    File {
        name: "dir.idl",
        content: b"[uuid(00112233-4455-6677-8899-aabbccddeeff), version(2.1), pointer_default(unique)] interface dir {
  import \"base.idl\";
  typedef [switch_type(kind_t)] union { [case(FILE_KIND)] unsigned long size; [case(FOLDER_KIND)] ; } detail_t;
  typedef struct entry {
    kind_t kind;
    [switch_is(kind)] detail_t detail;
    [string] char name[NAME_MAX];
    [ptr] struct entry *parent;
    struct entry *next;
  } entry;
  unsigned long list([in, string] char *path, [out] entry *first);
  void put([in] handle_t h, [in, unique] entry *e, [in] unsigned long n, [in, size_is(n)] byte data[*]);
}",
    },
    File {
        name: "dir.acf",
        content: b"[explicit_handle] interface dir { put([heap] e); }",
    },
];

const DIRECTORY_LOADS: &[&str] = &["dir.idl", "base.idl", "dir.acf"];

// A folder `etc`, the root folder, which is its own parent, and a file of 1,024 octets.
const PUT_OCTETS: &[u8] = b"\x01\0\0\0\
\x04\0\x04\0\0\0\0\0\x04\0\0\0etc\0\x02\0\0\0\x03\0\0\0\
\x04\0\x04\0\0\0\0\0\x02\0\0\0/\0\0\0\x02\0\0\0\0\0\0\0\
\0\0\0\0\0\x04\0\0\0\0\0\0\x02\0\0\0a\0\0\0\x02\0\0\0\0\0\0\0\
\x02\0\0\0\
\x02\0\0\0\xab\xcd";

const PUT_TEXT: &[u8] = b"values 2
op put in
e = @1
n = 2
data = x\"abcd\"
@1 = {kind = 4, detail = 4:void, name = \"etc\", parent = @2, next = @3}
@2 = {kind = 4, detail = 4:void, name = \"/\", parent = @2, next = null}
@3 = {kind = 0, detail = 0:1024, name = \"a\", parent = @2, next = null}
";

const PUT_EXPLAINED: &[u8] = b"0 4 number e 1
4 2 num @1.kind 4
6 2 tag @1.detail 4
8 4 offset @1.name 0
12 4 actual @1.name 4
16 4 text @1.name \"etc\"
20 4 number @1.parent 2
24 4 number @1.next 3
28 2 num @2.kind 4
30 2 tag @2.detail 4
32 4 offset @2.name 0
36 4 actual @2.name 2
40 2 text @2.name \"/\"
42 2 gap
44 4 number @2.parent 2
48 4 number @2.next 0
52 2 num @3.kind 0
54 2 tag @3.detail 0
56 4 num @3.detail.size 1024
60 4 offset @3.name 0
64 4 actual @3.name 2
68 2 text @3.name \"a\"
70 2 gap
72 4 number @3.parent 2
76 4 number @3.next 0
80 4 num n 2
84 4 max data 2
88 1 num data[0] 171
89 1 num data[1] 205
";

const LISTING: &[u8] = b"interface dir version 2.1 uuid 00112233-4455-6677-8899-aabbccddeeff
type 12 enum 0 4 align 2
type 13 union 12 align 4
arm 0 size 8
arm 4 - void
type 14 struct align 4
member kind 12
member detail 13 switch_is kind
member name 15
member parent 16
member next 17
type 15 text 1 16 align 4
type 16 ptr 14 align 4
type 17 unique 14 align 4
type 18 conftext 1 align 4 hoists
type 19 ref 18 align 4
type 20 ref 14 align 4
type 21 conf 2 align 1 hoists
op 0 list
in path 19
out first 20
out return 8
op 1 put
in e 17
in n 8
in data 21 size_is n
";

pub(crate) const COMPILE: Command = Command {
    name: "compile",
    words: &["compile", "dir.idl", "dir.acf"],
    files: DIRECTORY_FILES,
    loads: DIRECTORY_LOADS,
    input: b"",
    piece: 1,
    left: 0,
    status: 0,
    out: LISTING,
    notes: b"",
    calls: &[],
};

pub(crate) const ENCODE: Command = Command {
    name: "encode",
    words: &["encode", "dir.idl", "dir.acf", "put", "in", "little", "1"],
    input: PUT_TEXT,
    piece: 32,
    out: PUT_OCTETS,
    ..COMPILE
};

pub(crate) const DECODE: Command = Command {
    name: "decode",
    words: &["decode", "dir.idl", "dir.acf", "put", "in", "little"],
    input: PUT_OCTETS,
    out: PUT_TEXT,
    ..COMPILE
};

pub(crate) const EXPLAIN: Command = Command {
    name: "explain",
    words: &["explain", "dir.idl", "dir.acf", "put", "in", "little"],
    out: PUT_EXPLAINED,
    ..DECODE
};

// The same values in the two fragments of a request.
pub(crate) const CALL_REQUEST: Command = Command {
    name: "call",
    words: &["call", "dir.idl", "dir.acf", "-"],
    input: b"\x05\0\0\x01\x10\0\0\0\x40\0\0\0\x07\0\0\0\x5a\0\0\0\0\0\x01\0\
\x01\0\0\0\
\x04\0\x04\0\0\0\0\0\x04\0\0\0etc\0\x02\0\0\0\x03\0\0\0\
\x04\0\x04\0\0\0\0\0\x02\0\0\0\
\x05\0\0\x02\x10\0\0\0\x4a\0\0\0\x07\0\0\0\x5a\0\0\0\0\0\x01\0\
/\0\0\0\x02\0\0\0\0\0\0\0\
\0\0\0\0\0\x04\0\0\0\0\0\0\x02\0\0\0a\0\0\0\x02\0\0\0\0\0\0\0\
\x02\0\0\0\
\x02\0\0\0\xab\xcd",
    out: b"call 7
values 2
op put in
e = @1
n = 2
data = x\"abcd\"
@1 = {kind = 4, detail = 4:void, name = \"etc\", parent = @2, next = @3}
@2 = {kind = 4, detail = 4:void, name = \"/\", parent = @2, next = null}
@3 = {kind = 0, detail = 0:1024, name = \"a\", parent = @2, next = null}
",
    ..COMPILE
};

// The same two fragments, of which the second has another call id: nothing after its first 16 octets is read.
pub(crate) const CALL_REFUSED: Command = Command {
    name: "call of fragments that are refused",
    input: b"\x05\0\0\x01\x10\0\0\0\x40\0\0\0\x07\0\0\0\x5a\0\0\0\0\0\x01\0\
\x01\0\0\0\
\x04\0\x04\0\0\0\0\0\x04\0\0\0etc\0\x02\0\0\0\x03\0\0\0\
\x04\0\x04\0\0\0\0\0\x02\0\0\0\
\x05\0\0\x02\x10\0\0\0\x4a\0\0\0\x08\0\0\0\x5a\0\0\0\0\0\x01\0\
/\0\0\0\x02\0\0\0\0\0\0\0",
    left: 20,
    status: 1,
    out: b"",
    notes: b"refused: pdu at 76: OtherCall\n",
    ..CALL_REQUEST
};

// The same values as the stub data of a request.
pub(crate) const WRAP: Command = Command {
    name: "wrap",
    words: &[
        "wrap", "dir.idl", "dir.acf", "put", "in", "little", "7", "1024",
    ],
    out: b"\x05\0\0\x03\x10\0\0\0\x72\0\0\0\x07\0\0\0\x5a\0\0\0\0\0\x01\0\
\x01\0\0\0\
\x04\0\x04\0\0\0\0\0\x04\0\0\0etc\0\x02\0\0\0\x03\0\0\0\
\x04\0\x04\0\0\0\0\0\x02\0\0\0/\0\0\0\x02\0\0\0\0\0\0\0\
\0\0\0\0\0\x04\0\0\0\0\0\0\x02\0\0\0a\0\0\0\x02\0\0\0\0\0\0\0\
\x02\0\0\0\
\x02\0\0\0\xab\xcd",
    ..ENCODE
};

// The first nine octets of the same values: they end within the offset of a string.
pub(crate) const DECODE_CUT: Command = Command {
    name: "decode of octets that are cut",
    input: b"\x01\0\0\0\x04\0\x04\0\0",
    status: 1,
    out: b"",
    notes: b"refused: octets at 9: Truncated\n",
    ..DECODE
};

// The same values, but for `n`.
pub(crate) const ENCODE_REFUSED: Command = Command {
    name: "encode of values that do not conform",
    input: b"values 2 op put in e = null n = 3 data = x\"abcd\"",
    status: 1,
    out: b"",
    notes: b"refused: value at data: Disagrees wanted 3 found 2\n",
    ..ENCODE
};

const PIPES_FILES: &[File] = &[File {
    name: "t.idl",
    content: b"[uuid(11111111-2222-3333-4444-555555555555)] interface t { typedef pipe long lp;
  void feed([in] lp d); void two([in] long n, [in] lp a, [in] lp b); }",
}];

pub(crate) const DRAIN: Command = Command {
    name: "drain",
    words: &["drain", "t.idl", "-", "feed", "in", "little"],
    files: PIPES_FILES,
    loads: &["t.idl"],
    input: b"\x02\0\0\0\x01\0\0\0\x02\0\0\0\x01\0\0\0\x03\0\0\0\0\0\0\0",
    piece: 1,
    left: 0,
    status: 0,
    out: b"values 2\nop feed in\nd = []\n",
    notes: b"",
    calls: &[
        Call {
            end: 0,
            read: 12,
            line: b"1\n",
        },
        Call {
            end: 0,
            read: 12,
            line: b"2\n",
        },
        Call {
            end: 0,
            read: 20,
            line: b"3\n",
        },
        Call {
            end: 0,
            read: 24,
            line: b"",
        },
    ],
};

pub(crate) const DRAIN_CUT: Command = Command {
    name: "drain of octets that are cut",
    input: b"\x02\0\0\0\x01\0\0\0\x02\0\0\0\x01\0\0\0",
    status: 1,
    out: b"",
    notes: b"refused: octets at 16: Truncated\n",
    calls: &[
        Call {
            end: 0,
            read: 12,
            line: b"1\n",
        },
        Call {
            end: 0,
            read: 12,
            line: b"2\n",
        },
    ],
    ..DRAIN
};

pub(crate) const DRAIN_TRAILING: Command = Command {
    name: "drain of octets that another follows",
    input: b"\x01\0\0\0\x01\0\0\0\0\0\0\0\x07\x08",
    left: 1,
    status: 1,
    out: b"",
    notes: b"refused: octets at 12: Trailing\n",
    calls: &[
        Call {
            end: 0,
            read: 8,
            line: b"1\n",
        },
        Call {
            end: 0,
            read: 12,
            line: b"",
        },
    ],
    ..DRAIN
};

pub(crate) const DRAIN_TWO: Command = Command {
    name: "drain of two pipes after a format label",
    words: &["drain", "t.idl", "-", "two", "in", "label"],
    input: b"\0\0\0\0\0\0\0\x05\
\0\0\0\x02\0\0\0\x01\0\0\0\x02\0\0\0\x01\0\0\0\x03\0\0\0\0\
\0\0\0\x01\xff\xff\xff\xfc\0\0\0\0",
    out: b"values 2\nop two in\nn = 5\na = []\nb = []\n",
    calls: &[
        Call {
            end: 0,
            read: 20,
            line: b"1\n",
        },
        Call {
            end: 0,
            read: 20,
            line: b"2\n",
        },
        Call {
            end: 0,
            read: 28,
            line: b"3\n",
        },
        Call {
            end: 0,
            read: 32,
            line: b"",
        },
        Call {
            end: 1,
            read: 40,
            line: b"-4\n",
        },
        Call {
            end: 1,
            read: 44,
            line: b"",
        },
    ],
    ..DRAIN
};

// A response with an array and a pipe, and the text of its request, which states how long the array is.
const RESPONSE_FILES: &[File] = &[
    File {
        name: "t.idl",
        content: b"[uuid(11111111-2222-3333-4444-555555555555)] interface t { typedef pipe long lp;
  void r([in] unsigned long n, [out, size_is(n)] byte a[*], [out] lp d); }",
    },
    File {
        name: "request.txt",
        content: b"values 2 op r in n = 2",
    },
];

const RESPONSE_OCTETS: &[u8] = b"\x02\0\0\0\xab\xcd\0\0\x01\0\0\0\x07\0\0\0\0\0\0\0";

const RESPONSE_TEXT: &[u8] = b"values 2\nop r out\na = x\"abcd\"\nd = [7]\n";

pub(crate) const DECODE_RESPONSE: Command = Command {
    name: "decode of a response with its request",
    words: &[
        "decode",
        "t.idl",
        "-",
        "r",
        "out",
        "little",
        "given",
        "request.txt",
    ],
    files: RESPONSE_FILES,
    loads: &["t.idl", "request.txt"],
    input: RESPONSE_OCTETS,
    out: RESPONSE_TEXT,
    calls: &[],
    ..DRAIN
};

pub(crate) const ENCODE_RESPONSE: Command = Command {
    name: "encode of a response with its request",
    words: &[
        "encode",
        "t.idl",
        "-",
        "r",
        "out",
        "little",
        "1",
        "given",
        "request.txt",
    ],
    input: RESPONSE_TEXT,
    out: RESPONSE_OCTETS,
    ..DECODE_RESPONSE
};

pub(crate) const EXPLAIN_RESPONSE: Command = Command {
    name: "explain of a response with its request",
    words: &[
        "explain",
        "t.idl",
        "-",
        "r",
        "out",
        "little",
        "given",
        "request.txt",
    ],
    out: b"0 4 max a 2\n4 1 num a[0] 171\n5 1 num a[1] 205\n6 2 gap\n8 4 chunk d 1\n12 4 num d[0] 7\n16 4 chunk d 0\n",
    ..DECODE_RESPONSE
};

pub(crate) const DRAIN_RESPONSE: Command = Command {
    name: "drain of a response with its request",
    words: &[
        "drain",
        "t.idl",
        "-",
        "r",
        "out",
        "little",
        "given",
        "request.txt",
    ],
    out: b"values 2\nop r out\na = x\"abcd\"\nd = []\n",
    calls: &[
        Call {
            end: 0,
            read: 16,
            line: b"7\n",
        },
        Call {
            end: 0,
            read: 20,
            line: b"",
        },
    ],
    ..DECODE_RESPONSE
};

// Words that are no command.
pub(crate) const NO_COMMAND: Command = Command {
    name: "words that are no command",
    words: &["drain"],
    files: &[],
    loads: &[],
    input: b"",
    status: 2,
    out: b"",
    notes: b"words refused\n",
    ..COMPILE
};

// The sample of two cells, which the words `sample 1 2` ask for too.
pub(crate) const NO_WORDS: Command = Command {
    name: "no words",
    words: &[],
    status: 0,
    out: b"cells 2\noctets 28\nsum 178\nsame yes\n",
    notes: b"",
    ..NO_COMMAND
};
