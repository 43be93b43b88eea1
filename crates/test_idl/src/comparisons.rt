// Two versions of an interface, compared through the public call.
use command_compile::compile;
use idl_compat::{Compared, compare};
use idl_grammar::{IdlFile, Language};
use nd_base::{MemFiles, Memory, Octets};
use nd_types::Interface;
use std::alloc::Global;
use std::process::Abort;

// What a comparison comes to, in a form that tests compare.
#[derive(Clone, Copy, Debug, PartialEq, Eq)]
enum Answer {
    Yes(usize),
    OtherUuid,
    OtherMajor(u16, u16),
    OlderMinor(u16, u16),
    Fewer(u32, u32),
    Differs(u32),
    // An interface is not compiled, or memory was refused.
    Nothing,
}

// The interface of a text, or None if it is not compiled.
fn interface(alloc: Global, text: &[u8]) -> Option<Interface> {
    let Ok(mut files) = MemFiles::new(alloc, &[]) else {
        return None;
    };
    let Ok(()) = files.add("t.idl", text) else {
        return None;
    };
    let idl = IdlFile {
        name: "t.idl",
        language: Language::C706,
    };
    match compile(alloc, idl, None, &mut files) {
        Ok(interface) => Some(interface),
        Err(_) => None,
    }
}

// What the comparison of two texts comes to.
fn compared(alloc: Global, old: &[u8], new: &[u8]) -> Answer {
    let Some(old) = interface(alloc, old) else {
        return Answer::Nothing;
    };
    let Some(new) = interface(alloc, new) else {
        return Answer::Nothing;
    };
    match compare(alloc, &old, &new) {
        Ok(compared) => answered(compared),
        Err(_) => Answer::Nothing,
    }
}

fn answered(compared: Compared) -> Answer {
    match compared {
        Compared::Yes { pairs } => Answer::Yes(pairs.len()),
        Compared::OtherUuid => Answer::OtherUuid,
        Compared::OtherMajor { old, new } => Answer::OtherMajor(old, new),
        Compared::OlderMinor { old, new } => Answer::OlderMinor(old, new),
        Compared::Fewer { old, new } => Answer::Fewer(old, new),
        Compared::Differs { op } => Answer::Differs(op),
    }
}

// An interface of version 1.0 with these declarations.
fn version(alloc: Global, declarations: &[u8]) -> Result<Octets, Memory> {
    let mut text = Octets::copy(
        alloc,
        b"[uuid(11111111-2222-3333-4444-555555555555), version(1.0)] interface t { ",
    )?;
    text.append(declarations)?;
    text.append(b" }")?;
    Ok(text)
}

// What the comparison of two lists of declarations comes to, in one version of one interface.
fn between(alloc: Global, old: &[u8], new: &[u8]) -> Answer {
    let Ok(old) = version(alloc, old) else {
        return Answer::Nothing;
    };
    let Ok(new) = version(alloc, new) else {
        return Answer::Nothing;
    };
    compared(alloc, old.as_slice(), new.as_slice())
}

const FIRST: &[u8] = b"[uuid(11111111-2222-3333-4444-555555555555), version(1.0)] interface t {
  typedef struct { short n; [size_is(n)] hyper a[*]; } s;
  void sum([in] s *p);
}";

const SECOND: &[u8] = b"[uuid(11111111-2222-3333-4444-555555555555), version(1.1)] interface t {
  typedef struct { short m; [size_is(m)] hyper a[*]; } s;
  void sum([in] s *p);
  void ping();
}";

const WIDER: &[u8] = b"[uuid(11111111-2222-3333-4444-555555555555), version(1.1)] interface t {
  typedef struct { long n; [size_is(n)] hyper a[*]; } s;
  void sum([in] s *p);
}";

const OTHER: &[u8] =
    b"[uuid(11111111-2222-3333-4444-555555555556), version(1.0)] interface t { void ping(); }";

const NAMELESS: &[u8] = b"[local, version(1.0)] interface t { void ping(); }";

const FEWER: &[u8] =
    b"[uuid(11111111-2222-3333-4444-555555555555), version(1.0)] interface t { const long C = 1; }";

const MAJOR: &[u8] =
    b"[uuid(11111111-2222-3333-4444-555555555555), version(2.0)] interface t { void ping(); }";

// Two files, and what comes of the new one compared with the old one, and the other way round.
#[derive(Clone, Copy)]
struct Versions {
    old: &'static [u8],
    new: &'static [u8],
    there: Answer,
    back: Answer,
}

const VERSIONS: &[Versions] = &[
    Versions {
        old: FIRST,
        new: SECOND,
        there: Answer::Yes(5),
        back: Answer::OlderMinor(1, 0),
    },
    Versions {
        old: FIRST,
        new: FIRST,
        there: Answer::Yes(5),
        back: Answer::Yes(5),
    },
    Versions {
        old: FIRST,
        new: WIDER,
        there: Answer::Differs(0),
        back: Answer::OlderMinor(1, 0),
    },
    Versions {
        old: FIRST,
        new: OTHER,
        there: Answer::OtherUuid,
        back: Answer::OtherUuid,
    },
    Versions {
        old: NAMELESS,
        new: NAMELESS,
        there: Answer::OtherUuid,
        back: Answer::OtherUuid,
    },
    Versions {
        old: FIRST,
        new: MAJOR,
        there: Answer::OtherMajor(1, 2),
        back: Answer::OtherMajor(2, 1),
    },
    Versions {
        old: FIRST,
        new: FEWER,
        there: Answer::Fewer(1, 0),
        back: Answer::Yes(0),
    },
];

#[test]
fn each_answer(rt: HostRuntime) {
    for row in VERSIONS {
        assert_eq!(rt; compared(rt.alloc(), row.old, row.new), row.there);
        assert_eq!(rt; compared(rt.alloc(), row.new, row.old), row.back);
    }
}

// Two lists of declarations, which differ at an operation or have so many pairs, in both directions.
#[derive(Clone, Copy)]
struct Row {
    old: &'static [u8],
    new: &'static [u8],
    answer: Answer,
}

const PRIMITIVES: &[Row] = &[
    Row {
        old: b"void f([in] long a);",
        new: b"void g([in] long b);",
        answer: Answer::Yes(1),
    },
    Row {
        old: b"void f([in] long a);",
        new: b"void f([in] short a);",
        answer: Answer::Differs(0),
    },
    Row {
        old: b"void f([in] long a);",
        new: b"void f([in] unsigned long a);",
        answer: Answer::Differs(0),
    },
    Row {
        old: b"void f([in] long a);",
        new: b"typedef enum { A } e; void f([in] e a);",
        answer: Answer::Differs(0),
    },
];

const ENUMERATED_TYPES: &[Row] = &[
    Row {
        old: b"typedef enum { A, B } e; void f([in] e a);",
        new: b"typedef struct { long x; } s; typedef enum { C, D } e; void f([in] e a);",
        answer: Answer::Yes(1),
    },
    Row {
        old: b"typedef enum { A, B } e; void f([in] e a);",
        new: b"typedef enum { A, B, C } e; void f([in] e a);",
        answer: Answer::Differs(0),
    },
    Row {
        old: b"typedef enum { A, B } e; void f([in] e a);",
        new: b"void f([in] short a);",
        answer: Answer::Differs(0),
    },
];

const STRUCTS: &[Row] = &[
    Row {
        old: b"typedef struct { long x; short y; } s; void f([in] s a);",
        new: b"typedef struct { long v; short w; } r; void f([in] r a);",
        answer: Answer::Yes(3),
    },
    Row {
        old: b"typedef struct { long x; short y; } s; void f([in] s a);",
        new: b"typedef struct { long x; } s; void f([in] s a);",
        answer: Answer::Differs(0),
    },
    Row {
        old: b"typedef struct { long x; short y; } s; void f([in] s a);",
        new: b"typedef struct { short y; long x; } s; void f([in] s a);",
        answer: Answer::Differs(0),
    },
    Row {
        old: b"typedef struct { long x; short y; } s; void f([in] s a);",
        new: b"typedef struct { long x; short y; short z; } s; void f([in] s a);",
        answer: Answer::Differs(0),
    },
];

const ARRAYS: &[Row] = &[
    Row {
        old: b"void f([in] long a[3]);",
        new: b"typedef long row[3]; void f([in] row a);",
        answer: Answer::Yes(2),
    },
    Row {
        old: b"void f([in] long a[3]);",
        new: b"void f([in] long a[4]);",
        answer: Answer::Differs(0),
    },
    Row {
        old: b"void f([in] long a[3]);",
        new: b"void f([in] short a[3]);",
        answer: Answer::Differs(0),
    },
    Row {
        old: b"void f([in] long a[3]);",
        new: b"void f([in] long n, [in, length_is(n)] long a[3]);",
        answer: Answer::Differs(0),
    },
];

const CONFORMANT_ARRAYS: &[Row] = &[
    Row {
        old: b"void f([in] long n, [in, size_is(n)] short a[*]);",
        new: b"void f([in] long m, [in, size_is(m)] short a[*]);",
        answer: Answer::Yes(3),
    },
    Row {
        old: b"void f([in] long n, [in, size_is(n)] short a[*]);",
        new: b"void f([in] long n, [in, max_is(n)] short a[*]);",
        answer: Answer::Differs(0),
    },
    Row {
        old: b"void f([in] long n, [in, size_is(n)] short a[*]);",
        new: b"void f([in] short n, [in, size_is(n)] short a[*]);",
        answer: Answer::Differs(0),
    },
    Row {
        old: b"void f([in] long n, [in, size_is(n)] short a[*]);",
        new: b"void f([in] long n, [in, size_is(n), length_is(n)] short a[*]);",
        answer: Answer::Differs(0),
    },
];

const POINTED_TO_AND_OTHER_VARIABLES: &[Row] = &[
    Row {
        old: b"void f([in] long n, [in] long m, [in, size_is(n)] short a[*]);",
        new: b"void f([in] long m, [in] long n, [in, size_is(m)] short a[*]);",
        answer: Answer::Yes(3),
    },
    Row {
        old: b"void f([in] long n, [in] long m, [in, size_is(n)] short a[*]);",
        new: b"void f([in] long n, [in] long m, [in, size_is(m)] short a[*]);",
        answer: Answer::Differs(0),
    },
];

const TEXTS: &[Row] = &[
    Row {
        old: b"void f([in, string] char a[4]);",
        new: b"void f([in, string] char b[4]);",
        answer: Answer::Yes(2),
    },
    Row {
        old: b"void f([in, string] char a[4]);",
        new: b"void f([in, string] char a[5]);",
        answer: Answer::Differs(0),
    },
    Row {
        old: b"void f([in, string] char a[4]);",
        new: b"void f([in, string] byte a[4]);",
        answer: Answer::Differs(0),
    },
    Row {
        old: b"void f([in, string] char a[4]);",
        new: b"void f([in, string] char a[*]);",
        answer: Answer::Differs(0),
    },
];

const UNIONS: &[Row] = &[
    Row {
        old: b"typedef union switch (long k) u { case 1: short x; case 2: ; default: long y; } w; void f([in] w a);",
        new: b"typedef union switch (long t) v { case 1: short p; case 2: ; default: long q; } w; void f([in] w a);",
        answer: Answer::Yes(3),
    },
    Row {
        old: b"typedef union switch (long k) u { case 1: short x; case 2: ; default: long y; } w; void f([in] w a);",
        new: b"typedef union switch (long k) u { case 1: short x; case 3: ; default: long y; } w; void f([in] w a);",
        answer: Answer::Differs(0),
    },
    Row {
        old: b"typedef union switch (long k) u { case 1: short x; case 2: ; default: long y; } w; void f([in] w a);",
        new: b"typedef union switch (long k) u { case 2: ; case 1: short x; default: long y; } w; void f([in] w a);",
        answer: Answer::Differs(0),
    },
    Row {
        old: b"typedef union switch (long k) u { case 1: short x; case 2: ; default: long y; } w; void f([in] w a);",
        new: b"typedef union switch (long k) u { case 1: short x; case 2: ; } w; void f([in] w a);",
        answer: Answer::Differs(0),
    },
    Row {
        old: b"typedef union switch (long k) u { case 1: short x; case 2: ; default: long y; } w; void f([in] w a);",
        new: b"typedef union switch (long k) u { case 1: short x; case 2: ; default: ; } w; void f([in] w a);",
        answer: Answer::Differs(0),
    },
    Row {
        old: b"typedef union switch (long k) u { case 1: short x; case 2: ; default: long y; } w; void f([in] w a);",
        new: b"typedef union switch (long k) u { case 1: short x; case 2: short z; default: long y; } w; void f([in] w a);",
        answer: Answer::Differs(0),
    },
    Row {
        old: b"typedef union switch (long k) u { case 1: short x; case 2: ; default: long y; } w; void f([in] w a);",
        new: b"typedef union switch (short k) u { case 1: short x; case 2: ; default: long y; } w; void f([in] w a);",
        answer: Answer::Differs(0),
    },
    Row {
        old: b"typedef union switch (long k) u { case 1: short x; case 2: ; default: long y; } w; void f([in] w a);",
        new: b"typedef [switch_type(long)] union { [case(1)] short x; [case(2)] ; [default] long y; } w; void f([in] long k, [in,switch_is(k)] w a);",
        answer: Answer::Differs(0),
    },
];

const POINTERS: &[Row] = &[
    Row {
        old: b"void f([in, unique] long *a);",
        new: b"void f([in, unique] long *b);",
        answer: Answer::Yes(2),
    },
    Row {
        old: b"void f([in, unique] long *a);",
        new: b"void f([in, ptr] long *a);",
        answer: Answer::Differs(0),
    },
    Row {
        old: b"void f([in, unique] long *a);",
        new: b"void f([in] long *a);",
        answer: Answer::Differs(0),
    },
    Row {
        old: b"void f([in, unique] long *a);",
        new: b"void f([in, unique] short *a);",
        answer: Answer::Differs(0),
    },
];

const CONTEXT_HANDLES: &[Row] = &[
    Row {
        old: b"typedef [context_handle] void *c; void f([in] c a);",
        new: b"typedef [context_handle] void *d; void f([in] d a);",
        answer: Answer::Yes(1),
    },
    Row {
        old: b"typedef [context_handle] void *c; void f([in] c a);",
        new: b"void f([in, unique] long *a);",
        answer: Answer::Differs(0),
    },
];

const PIPES: &[Row] = &[
    Row {
        old: b"typedef pipe long p; void f([in] p a);",
        new: b"typedef pipe long q; void f([in] q a);",
        answer: Answer::Yes(2),
    },
    Row {
        old: b"typedef pipe long p; void f([in] p a);",
        new: b"typedef pipe short p; void f([in] p a);",
        answer: Answer::Differs(0),
    },
    Row {
        old: b"typedef pipe long p; void f([in] p a);",
        new: b"typedef pipe long p; void f([out] p a);",
        answer: Answer::Differs(0),
    },
];

const HANDLES: &[Row] = &[
    Row {
        old: b"void f([in] handle_t h, [in] long a);",
        new: b"void f([in] handle_t g, [in] long b);",
        answer: Answer::Yes(1),
    },
    Row {
        old: b"void f([in] handle_t h, [in] long a);",
        new: b"void f([in] long a);",
        answer: Answer::Differs(0),
    },
    Row {
        old: b"void f([in] handle_t h, [in] long a);",
        new: b"void f([in] long h, [in] long a);",
        answer: Answer::Differs(0),
    },
];

const WAYS_AND_RESULTS: &[Row] = &[
    Row {
        old: b"long f([in, out] long *a);",
        new: b"long g([in, out] long *b);",
        answer: Answer::Yes(2),
    },
    Row {
        old: b"long f([in, out] long *a);",
        new: b"void f([in, out] long *a);",
        answer: Answer::Differs(0),
    },
    Row {
        old: b"long f([in, out] long *a);",
        new: b"short f([in, out] long *a);",
        answer: Answer::Differs(0),
    },
    Row {
        old: b"long f([in, out] long *a);",
        new: b"long f([in] long *a);",
        answer: Answer::Differs(0),
    },
    Row {
        old: b"long f([in, out] long *a);",
        new: b"long f([in, out] long *a, [in] long b);",
        answer: Answer::Differs(0),
    },
];

const ONE_STRUCT_FOR_TWO: &[Row] = &[Row {
    old: b"typedef struct { long x; } s; void f([in] s a, [in] s b);",
    new: b"typedef struct { long x; } s; typedef struct { long x; } r; void f([in] s a, [in] r b);",
    answer: Answer::Differs(0),
}];

const OPERATIONS_IN_ORDER: &[Row] = &[
    Row {
        old: b"typedef struct { long x; } s; void f([in] s a); void g([in] s a);",
        new: b"typedef struct { long x; } s; typedef struct { long x; } r; void f([in] s a); void g([in] r a);",
        answer: Answer::Differs(1),
    },
    Row {
        old: b"void f([in] long a); void g([in] long a); void h([in] long a);",
        new: b"void f([in] long a); void g([in] long a); void h([in] short a);",
        answer: Answer::Differs(2),
    },
    Row {
        old: b"typedef struct s { long x; [unique] struct s *next; } s; void f([in] s a);",
        new: b"typedef struct r { long y; [unique] struct r *rest; } r; void f([in] r a);",
        answer: Answer::Yes(3),
    },
    Row {
        old: b"typedef struct s { long x; [unique] struct s *next; } s; void f([in] s a);",
        new: b"typedef struct r { long y; [ptr] struct r *rest; } r; void f([in] r a);",
        answer: Answer::Differs(0),
    },
];

// Whether each row comes to what it has to. A failure names its row.
fn expect_all(rt: &impl Abort, alloc: Global, rows: &[Row]) {
    for (at, row) in rows.iter().enumerate() {
        assert_eq!(rt; between(alloc, row.old, row.new), row.answer, "row {at}");
        assert_eq!(rt;
            between(alloc, row.new, row.old),
            row.answer,
            "row {at}, back"
        );
    }
}

#[test]
fn primitives(rt: HostRuntime) {
    expect_all(&rt, rt.alloc(), PRIMITIVES);
}

#[test]
fn enumerated_types(rt: HostRuntime) {
    expect_all(&rt, rt.alloc(), ENUMERATED_TYPES);
}

#[test]
fn structs(rt: HostRuntime) {
    expect_all(&rt, rt.alloc(), STRUCTS);
}

#[test]
fn arrays(rt: HostRuntime) {
    expect_all(&rt, rt.alloc(), ARRAYS);
}

#[test]
fn conformant_arrays(rt: HostRuntime) {
    expect_all(&rt, rt.alloc(), CONFORMANT_ARRAYS);
}

#[test]
fn pointed_to_and_other_variables(rt: HostRuntime) {
    expect_all(&rt, rt.alloc(), POINTED_TO_AND_OTHER_VARIABLES);
}

#[test]
fn texts(rt: HostRuntime) {
    expect_all(&rt, rt.alloc(), TEXTS);
}

#[test]
fn unions(rt: HostRuntime) {
    expect_all(&rt, rt.alloc(), UNIONS);
}

#[test]
fn pointers(rt: HostRuntime) {
    expect_all(&rt, rt.alloc(), POINTERS);
}

#[test]
fn context_handles(rt: HostRuntime) {
    expect_all(&rt, rt.alloc(), CONTEXT_HANDLES);
}

#[test]
fn pipes(rt: HostRuntime) {
    expect_all(&rt, rt.alloc(), PIPES);
}

#[test]
fn handles(rt: HostRuntime) {
    expect_all(&rt, rt.alloc(), HANDLES);
}

#[test]
fn ways_and_results(rt: HostRuntime) {
    expect_all(&rt, rt.alloc(), WAYS_AND_RESULTS);
}

#[test]
fn one_struct_for_two(rt: HostRuntime) {
    expect_all(&rt, rt.alloc(), ONE_STRUCT_FOR_TWO);
}

#[test]
fn operations_in_order(rt: HostRuntime) {
    expect_all(&rt, rt.alloc(), OPERATIONS_IN_ORDER);
}
