// Runs over files, an input and outputs in memory: each command once, and runs in which a load, a fetch or a put fails.
use dceidl::{HELP, Status, VERSION, Words, run};
use nd_base::{MemFiles, MemSink, MemSource, Memory};
use ndr_pipe::PipeEnds;
use std::alloc::Global;
use std::process::Abort;

// A run: what it is given, and what it has to answer and to write.
#[derive(Clone, Copy)]
struct Case {
    name: &'static str,
    words: &'static [&'static str],
    input: &'static [u8],
    /// The most octets that one call gives.
    piece: u32,
    failing_loads: &'static [u32],
    failing_fetches: &'static [u32],
    failing_puts: &'static [u32],
    failing_notes: &'static [u32],
    /// How many octets each output holds.
    room: u32,
    status: Status,
    out: &'static [u8],
    notes: &'static str,
}

// What a run answers and writes.
#[derive(Drop)]
struct Ran {
    status: Status,
    out: MemSink,
    notes: MemSink,
}

// The file `add.idl`.
const ADD_IDL: &[u8] =
    b"[uuid(11111111-2222-3333-4444-555555555555)] interface t { void add([in] long a, [in] short b, [in] hyper c); void ping(); }";

// The file `importing.idl`, which imports `add.idl`.
const IMPORTING_IDL: &[u8] =
    b"[uuid(11111111-2222-3333-4444-555555555555)]\ninterface s { import \"add.idl\"; unsigned hyper f([in] long k); }";

// The file `alone.idl`, which imports a file that does not exist.
const ALONE_IDL: &[u8] =
    b"[uuid(11111111-2222-3333-4444-555555555555)]\ninterface t { import \"none.idl\"; void f(); }";

// The file `add.acf`, for `add.idl`.
const ADD_ACF: &[u8] = b"[explicit_handle] interface t { [code] ping(); }\n";

// The values 1, 2 and 3 of `add`.
const DECODED: Case = Case {
    name: "decode",
    words: &["decode", "add.idl", "-", "add", "in", "little"],
    input: b"\x01\0\0\0\x02\0\0\0\x03\0\0\0\0\0\0\0",
    piece: 4096,
    failing_loads: &[],
    failing_fetches: &[],
    failing_puts: &[],
    failing_notes: &[],
    room: 8000,
    status: 0,
    out: b"values 2\nop add in\na = 1\nb = 2\nc = 3\n",
    notes: "",
};

// The octets of the same values.
const ENCODED: Case = Case {
    name: "encode",
    words: &["encode", "add.idl", "-", "add", "in", "little", "1"],
    input: b"values 1\nop add in\na = 1\nb = 2\nc = 3\n",
    out: b"\x01\0\0\0\x02\0\0\0\x03\0\0\0\0\0\0\0",
    ..DECODED
};

// The text that is printed of the same values, from one of version 1.
const MIGRATED: Case = Case {
    name: "migrate",
    words: &["migrate", "add.idl", "-", "add", "in"],
    input: b"values 1 op add in a = 1 b = 2 c = 3",
    ..DECODED
};

// The listing of `add.idl`.
const LISTED: Case = Case {
    name: "compile",
    words: &["compile", "add.idl", "add.acf"],
    input: b"",
    out: b"interface t version 0.0 uuid 11111111-2222-3333-4444-555555555555\nop 0 add\nin a 7\nin b 5\nin c 9\nop 1 ping\n",
    ..DECODED
};

// The items of the values 1, 2 and 3 of `add`.
const EXPLAINED: Case = Case {
    name: "explain",
    words: &["explain", "add.idl", "-", "add", "in", "little"],
    out: b"0 4 num a 1\n4 2 num b 2\n6 2 gap\n8 8 num c 3\n",
    ..DECODED
};

// The items before a gap that is cut short.
const TRACED: Case = Case {
    name: "trace",
    words: &["trace", "add.idl", "-", "add", "in", "little"],
    input: b"\x01\0\0\0\x02\0\0",
    status: 1,
    out: b"0 4 num a 1\n4 2 num b 2\n7 fault Truncated c\n",
    notes: "refused: octets at 7: Truncated\n",
    ..DECODED
};

// The summary of the sample.
const SAMPLED: Case = Case {
    name: "no words",
    words: &[],
    input: b"",
    out: b"cells 2\noctets 28\nsum 178\nsame yes\n",
    ..DECODED
};

// Words that are no command.
const NO_COMMAND: Case = Case {
    name: "no command",
    words: &["none"],
    status: 2,
    out: b"",
    notes: "words refused\n",
    ..DECODED
};

// A run that is refused.
const REFUSED: Case = Case {
    out: b"",
    ..DECODED
};

// A file.
#[derive(Clone, Copy)]
struct File {
    name: &'static str,
    content: &'static [u8],
}

const FILES: &[File] = &[
    File {
        name: "add.idl",
        content: ADD_IDL,
    },
    File {
        name: "importing.idl",
        content: IMPORTING_IDL,
    },
    File {
        name: "alone.idl",
        content: ALONE_IDL,
    },
    File {
        name: "add.acf",
        content: ADD_ACF,
    },
];

fn words_of(alloc: Global, given: &[&str]) -> Result<Words, Memory> {
    let mut words = Words::new(alloc);
    for word in given {
        words.push(word)?;
    }
    Ok(words)
}

fn files_of(alloc: Global, failing: &[u32]) -> Result<MemFiles, Memory> {
    let mut files = MemFiles::new(alloc, failing)?;
    for file in FILES {
        files.add(file.name, file.content)?;
    }
    Ok(files)
}

// The outcome of a command line, without what else its contract says.
fn status_of(
    alloc: Global,
    words: &Words,
    files: &mut MemFiles,
    input: &mut MemSource,
    out: &mut MemSink,
    notes: &mut MemSink,
) -> Status {
    let mut ends = PipeEnds::new(alloc);
    run(alloc, words, files, input, out, notes, &mut ends)
}

fn run_over(
    alloc: Global,
    case: &Case,
    words: &Words,
    files: &mut MemFiles,
) -> Result<Ran, Memory> {
    let piece = case.piece.max(1);
    let mut input = MemSource::new(alloc, case.input, piece, case.failing_fetches)?;
    let mut out = MemSink::new(alloc, case.room, case.failing_puts)?;
    let mut notes = MemSink::new(alloc, case.room, case.failing_notes)?;
    let status = status_of(alloc, words, files, &mut input, &mut out, &mut notes);
    Ok(Ran { status, out, notes })
}

fn run_case(alloc: Global, case: &Case) -> Result<Ran, Memory> {
    let words = words_of(alloc, case.words)?;
    let mut files = files_of(alloc, case.failing_loads)?;
    run_over(alloc, case, &words, &mut files)
}

// Runs each case. A failure names its case.
fn expect_all(rt: &impl Abort, alloc: Global, cases: &[Case]) {
    for case in cases {
        let name = case.name;
        match run_case(alloc, case) {
            Ok(ran) => {
                assert_eq!(rt; ran.status, case.status, "{name}: status");
                assert_eq!(rt; ran.out.written(), case.out, "{name}: out");
                assert_eq!(rt; ran.notes.written(), case.notes.as_bytes(), "{name}: notes");
            }
            Err(_) => assert!(rt; false, "{name}: out of memory"),
        }
    }
}

const DONE: &[Case] = &[
    DECODED,
    ENCODED,
    MIGRATED,
    LISTED,
    EXPLAINED,
    TRACED,
    Case {
        name: "drain",
        words: &["drain", "add.idl", "-", "add", "in", "little"],
        ..DECODED
    },
    Case {
        name: "label",
        words: &["decode", "add.idl", "-", "add", "in", "label"],
        input: b"\x10\0\0\0\x01\0\0\0\x02\0AA\x03\0\0\0\0\0\0\0",
        ..DECODED
    },
    Case {
        name: "encode with a label",
        words: &["encode", "add.idl", "-", "add", "in", "label", "1"],
        out: b"\x10\0\0\0\x01\0\0\0\x02\0\0\0\x03\0\0\0\0\0\0\0",
        ..ENCODED
    },
    Case {
        name: "call",
        words: &["call", "add.idl", "-", "-"],
        input: b"\x05\0\0\x03\x10\0\0\0\x28\0\0\0\x07\0\0\0\x10\0\0\0\0\0\0\0\x01\0\0\0\x02\0\0\0\x03\0\0\0\0\0\0\0",
        out: b"call 7\nvalues 2\nop add in\na = 1\nb = 2\nc = 3\n",
        ..DECODED
    },
    Case {
        name: "wrap",
        words: &["wrap", "add.idl", "-", "add", "in", "little", "7", "1024"],
        out: b"\x05\0\0\x03\x10\0\0\0\x28\0\0\0\x07\0\0\0\x10\0\0\0\0\0\0\0\x01\0\0\0\x02\0\0\0\x03\0\0\0\0\0\0\0",
        ..ENCODED
    },
    Case {
        name: "compat",
        words: &["compat", "add.idl", "-", "add.idl", "add.acf"],
        out: b"compatible 2\n",
        ..DECODED
    },
    SAMPLED,
    NO_COMMAND,
    Case {
        name: "decode octet by octet",
        piece: 1,
        ..DECODED
    },
];

#[test]
fn commands_are_done(rt: HostRuntime) {
    expect_all(&rt, rt.alloc(), DONE);
}

#[test]
fn the_program_tells_of_itself(rt: HostRuntime) {
    let cases = [
        Case {
            name: "help",
            words: &["--help"],
            out: HELP.as_bytes(),
            ..DECODED
        },
        Case {
            name: "version",
            words: &["--version"],
            out: VERSION.as_bytes(),
            ..DECODED
        },
    ];
    expect_all(&rt, rt.alloc(), &cases);
}

const LOADS: &[Case] = &[
    Case {
        name: "the main file does not exist",
        words: &["decode", "none.idl", "-", "add", "in", "little"],
        status: 7,
        notes: "absent: none.idl\n",
        ..REFUSED
    },
    Case {
        name: "an import does not exist",
        words: &["compile", "alone.idl", "add.acf"],
        status: 7,
        notes: "absent: none.idl\n",
        ..REFUSED
    },
    Case {
        name: "the attribute file does not exist",
        words: &["encode", "add.idl", "none.acf", "add", "in", "little", "1"],
        status: 7,
        notes: "absent: none.acf\n",
        ..REFUSED
    },
    Case {
        name: "the main file fails",
        failing_loads: &[1],
        status: 9,
        notes: "file fault: add.idl\n",
        ..REFUSED
    },
    Case {
        name: "an import fails",
        words: &["decode", "importing.idl", "-", "f", "in", "little"],
        failing_loads: &[2],
        status: 9,
        notes: "file fault: add.idl\n",
        ..REFUSED
    },
    Case {
        name: "the attribute file fails",
        words: &["compile", "add.idl", "add.acf"],
        failing_loads: &[2],
        status: 9,
        notes: "file fault: add.acf\n",
        ..REFUSED
    },
    // Two loads are due, so the third is not asked for.
    Case {
        name: "no third load",
        failing_loads: &[3],
        ..LISTED
    },
];

#[test]
fn loads_fail(rt: HostRuntime) {
    expect_all(&rt, rt.alloc(), LOADS);
}

const FETCHES: &[Case] = &[
    Case {
        name: "the first fetch fails",
        failing_fetches: &[1],
        status: 3,
        notes: "read fault\n",
        ..REFUSED
    },
    Case {
        name: "a later fetch fails",
        piece: 8,
        failing_fetches: &[2],
        status: 3,
        notes: "read fault\n",
        ..REFUSED
    },
    // The text before the fault would be refused.
    Case {
        name: "a fetch fails after a bad text",
        words: &["encode", "add.idl", "-", "add", "in", "little", "1"],
        input: b"value 1\nop",
        piece: 8,
        failing_fetches: &[2],
        status: 3,
        notes: "read fault\n",
        ..REFUSED
    },
    Case {
        name: "a listing does not read the input",
        failing_fetches: &[1],
        ..LISTED
    },
    Case {
        name: "an unknown operation comes before the input",
        words: &["decode", "add.idl", "-", "sub", "in", "little"],
        failing_fetches: &[1],
        status: 6,
        notes: "idl add.idl: NoOperation sub\n",
        ..REFUSED
    },
];

#[test]
fn fetches_fail(rt: HostRuntime) {
    expect_all(&rt, rt.alloc(), FETCHES);
}

const PUTS: &[Case] = &[
    Case {
        name: "out fails",
        failing_puts: &[1],
        status: 4,
        notes: "write fault\n",
        ..REFUSED
    },
    Case {
        name: "out and notes fail",
        failing_puts: &[1],
        failing_notes: &[1],
        status: 4,
        ..REFUSED
    },
    Case {
        name: "notes fail",
        failing_notes: &[1],
        status: 4,
        notes: "",
        ..NO_COMMAND
    },
    Case {
        name: "out is full",
        room: 12,
        status: 4,
        out: b"values 2\nop ",
        notes: "write fault\n",
        ..DECODED
    },
];

#[test]
fn puts_fail(rt: HostRuntime) {
    expect_all(&rt, rt.alloc(), PUTS);
}
