use crate::session_runs::{Failing, NONE, Ran, has_stock, run_session};
use nd_base::Memory;
use std::alloc::Global;
use std::process::Abort;

// A resource of client 1 under two identifiers, and one of client 2.
const TWO: &[u8] = b"open 1 00112233-4455-6677-8899-aabbccddeeff\n\
open 2 00112233-4455-6677-8899-aabbccddee00\n\
use 00112233-4455-6677-8899-aabbccddeeff x\n\
use 00112233-4455-6677-8899-aabbccddee00 y\n\
use 00112233-4455-6677-8899-AABBCCDDEEFF \n\
close 00112233-4455-6677-8899-aabbccddeeff\n\
down 2\n";

// Nothing is ended by a line.
const OPEN: &[u8] = b"open 1 00112233-4455-6677-8899-aabbccddeeff\n\
open 2 00112233-4455-6677-8899-aabbccddee00\n\
open 1 00112233-4455-6677-8899-aabbccddee01\n\
open 3 00112233-4455-6677-8899-aabbccddee02\n\
use 00112233-4455-6677-8899-aabbccddeeff x\n\
use 00112233-4455-6677-8899-aabbccddee00 y\n\
use 00112233-4455-6677-8899-aabbccddee01 z\n";

// What has to come of a session.
#[derive(Clone, Copy)]
struct Wanted<'a> {
    status: u8,
    out: &'a [u8],
    notes: &'a [u8],
    fresh: usize,
    spent: &'a [&'a [u8]],
}

fn compare(rt: &impl Abort, ran: &Ran, wanted: &Wanted<'_>) {
    assert_eq!(rt; ran.status, wanted.status, "status");
    assert_eq!(rt; ran.out.written(), wanted.out, "out");
    assert_eq!(rt; ran.notes.written(), wanted.notes, "notes");
    assert!(rt; has_stock(ran, wanted.fresh, wanted.spent), "stock");
}

fn expect(rt: &impl Abort, alloc: Global, script: &[u8], failing: &Failing, wanted: &Wanted<'_>) {
    match run_session(alloc, script, failing) {
        Ok(ran) => compare(rt, &ran, wanted),
        Err(Memory) => assert!(rt; false, "out of memory"),
    }
}

// A session that is done, with the calls of resources that fail.
fn done(
    rt: &impl Abort,
    alloc: Global,
    script: &[u8],
    resources: [u32; 3],
    out: &[u8],
    spent: &[&[u8]],
) {
    let failing = Failing { resources, ..NONE };
    let wanted = Wanted {
        status: 0,
        out,
        notes: b"",
        fresh: 3usize.saturating_sub(spent.len()),
        spent,
    };
    expect(rt, alloc, script, &failing, &wanted);
}

// A session that is refused.
fn refused(rt: &impl Abort, alloc: Global, script: &[u8], notes: &[u8]) {
    let wanted = Wanted {
        status: 1,
        out: b"",
        notes,
        fresh: 3,
        spent: &[],
    };
    expect(rt, alloc, script, &NONE, &wanted);
}

#[test]
fn resources_are_opened_used_and_ended(rt: HostRuntime) {
    let script = b"open 1 00112233-4455-6677-8899-aabbccddeeff\n\
open 1 00112233-4455-6677-8899-aabbccddeeff\n\
use 00112233-4455-6677-8899-aabbccddeeff hi\n\
down 1\n\
close 00112233-4455-6677-8899-aabbccddeeff\n";
    done(
        &rt,
        rt.alloc(),
        script,
        [0, 0, 0],
        b"ok\ntwice\nok\nended 1\nunknown\n",
        &[b"hi\n"],
    );
}

#[test]
fn a_failure_is_answered(rt: HostRuntime) {
    let script = b"open 1 00112233-4455-6677-8899-aabbccddeeff\n\
use 00112233-4455-6677-8899-aabbccddeeff a\n";
    done(&rt, rt.alloc(), script, [1, 0, 0], b"ok\nfailed\n", &[b""]);
}

#[test]
fn the_nil_identifier_is_not_opened(rt: HostRuntime) {
    let script = b"open 1 00000000-0000-0000-0000-000000000000\n";
    done(&rt, rt.alloc(), script, [0, 0, 0], b"null\n", &[]);
}

#[test]
fn no_line_is_a_script(rt: HostRuntime) {
    done(&rt, rt.alloc(), b"", [0, 0, 0], b"", &[]);
}

#[test]
fn each_call_of_a_resource_fails(rt: HostRuntime) {
    let alloc = rt.alloc();
    done(
        &rt,
        alloc,
        TWO,
        [0, 0, 0],
        b"ok\nok\nok\nok\nok\nok\nended 1\n",
        &[b"x\n\n", b"y\n"],
    );
    done(
        &rt,
        alloc,
        TWO,
        [1, 0, 0],
        b"ok\nok\nfailed\nok\nok\nok\nended 1\n",
        &[b"\n", b"y\n"],
    );
    done(
        &rt,
        alloc,
        TWO,
        [2, 0, 0],
        b"ok\nok\nok\nok\nfailed\nok\nended 1\n",
        &[b"x\n", b"y\n"],
    );
    done(
        &rt,
        alloc,
        TWO,
        [3, 0, 0],
        b"ok\nok\nok\nok\nok\nfailed\nended 1\n",
        &[b"x\n\n", b"y\n"],
    );
    done(
        &rt,
        alloc,
        TWO,
        [0, 1, 0],
        b"ok\nok\nok\nfailed\nok\nok\nended 1\n",
        &[b"x\n\n", b""],
    );
    done(
        &rt,
        alloc,
        TWO,
        [0, 2, 0],
        b"ok\nok\nok\nok\nok\nok\nended 1\n",
        &[b"x\n\n", b"y\n"],
    );
}

#[test]
fn what_is_live_is_ended_client_by_client(rt: HostRuntime) {
    let out = b"ok\nok\nok\nnone\nok\nok\nok\n";
    done(
        &rt,
        rt.alloc(),
        OPEN,
        [0, 0, 0],
        out,
        &[b"x\n", b"z\n", b"y\n"],
    );
}

#[test]
fn a_line_past_the_room_is_a_failure(rt: HostRuntime) {
    let script = b"open 1 00112233-4455-6677-8899-aabbccddeeff\n\
use 00112233-4455-6677-8899-aabbccddeeff 0123456789abcdef\n\
use 00112233-4455-6677-8899-aabbccddeeff 0123456789abcde\n";
    done(
        &rt,
        rt.alloc(),
        script,
        [0, 0, 0],
        b"ok\nfailed\nok\n",
        &[b"0123456789abcde\n"],
    );
}

#[test]
fn the_first_line_that_is_none_is_named(rt: HostRuntime) {
    let alloc = rt.alloc();
    refused(
        &rt,
        alloc,
        b"open 01 00112233-4455-6677-8899-aabbccddeeff\n",
        b"refused: script 1\n",
    );
    refused(&rt, alloc, b"down 1", b"refused: script 1\n");
    refused(&rt, alloc, b"down 1\n\n", b"refused: script 2\n");
    refused(
        &rt,
        alloc,
        b"down 0\ndown 4294967295\ndown 4294967296\n",
        b"refused: script 3\n",
    );
    refused(
        &rt,
        alloc,
        b"use 00112233-4455-6677-8899-aabbccddeeff\n",
        b"refused: script 1\n",
    );
    refused(
        &rt,
        alloc,
        b"close 00112233-4455-6677-8899-aabbccddeeff \n",
        b"refused: script 1\n",
    );
}

#[test]
fn each_fetch_fails(rt: HostRuntime) {
    let wanted = Wanted {
        status: 3,
        out: b"",
        notes: b"read fault\n",
        fresh: 3,
        spent: &[],
    };
    for fetch in 1..5u32 {
        expect(
            &rt,
            rt.alloc(),
            b"down 1\ndown 2\ndown 3\n",
            &Failing { fetch, ..NONE },
            &wanted,
        );
    }
}

#[test]
fn the_output_fails(rt: HostRuntime) {
    let wanted = Wanted {
        status: 4,
        out: b"",
        notes: b"write fault\n",
        fresh: 1,
        spent: &[b"x\n\n", b"y\n"],
    };
    expect(&rt, rt.alloc(), TWO, &Failing { put: 1, ..NONE }, &wanted);
    let cut = Wanted {
        out: b"ok\no",
        notes: b"write",
        ..wanted
    };
    expect(
        &rt,
        rt.alloc(),
        TWO,
        &Failing {
            out_room: 4,
            notes_room: 5,
            ..NONE
        },
        &cut,
    );
}

#[test]
fn the_notes_fail(rt: HostRuntime) {
    let wanted = Wanted {
        status: 4,
        out: b"",
        notes: b"refused: ",
        fresh: 3,
        spent: &[],
    };
    expect(
        &rt,
        rt.alloc(),
        b"x",
        &Failing {
            notes_room: 9,
            ..NONE
        },
        &wanted,
    );
    expect(
        &rt,
        rt.alloc(),
        b"x",
        &Failing { note: 1, ..NONE },
        &Wanted {
            notes: b"",
            ..wanted
        },
    );
}
