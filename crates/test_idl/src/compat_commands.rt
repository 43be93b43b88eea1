// `compat` over files in memory.
use command_compile::compat;
use command_refusals::{CompatFault, Refusal};
use idl_grammar::{IdlFile, Language};
use nd_base::{MemFiles, Memory};
use std::alloc::Global;
use std::test::Fail;

const OLD: &[u8] =
    b"[uuid(11111111-2222-3333-4444-555555555555), version(1.0)] interface t { void f([in] long a); }";

const NEW: &[u8] =
    b"[uuid(11111111-2222-3333-4444-555555555555), version(1.1)] interface t { void g([in] long b); void ping(); }";

const OTHER: &[u8] =
    b"[uuid(11111111-2222-3333-4444-555555555555), version(1.1)] interface t { void g([in] short b); }";

/// A file of this name in the language of C706.
fn named(name: &str) -> IdlFile<'_> {
    IdlFile {
        name,
        language: Language::C706,
    }
}

// Files with an older and a newer version, of which the loads of these numbers, from 1, fail.
fn files_of(alloc: Global, newer: &[u8], fails: &[u32]) -> Result<MemFiles, Memory> {
    let mut files = MemFiles::new(alloc, fails)?;
    let Ok(()) = files.add("old.idl", OLD) else {
        return Err(Memory);
    };
    let Ok(()) = files.add("new.idl", newer) else {
        return Err(Memory);
    };
    Ok(files)
}

// Whether a newer version is compatible with the older one, with one operation.
fn is_compatible(alloc: Global, newer: &[u8]) -> Result<bool, Memory> {
    let mut files = files_of(alloc, newer, &[])?;
    match compat(
        alloc,
        named("old.idl"),
        None,
        named("new.idl"),
        None,
        &mut files,
    ) {
        Ok(line) => Ok(line.as_slice() == b"compatible 1\n".as_slice()),
        Err(_) => Ok(false),
    }
}

// Whether the operation `f` of the older one is the first that differs.
fn differs(alloc: Global, newer: &[u8]) -> Result<bool, Memory> {
    let mut files = files_of(alloc, newer, &[])?;
    match compat(
        alloc,
        named("old.idl"),
        None,
        named("new.idl"),
        None,
        &mut files,
    ) {
        Err(Refusal::NotCompatible(CompatFault::Differs { name })) => Ok(
            name.as_slice() == b"f".as_slice(),
        ),
        _ => Ok(false),
    }
}

// Whether the file of a name could not be read, where the loads of these numbers fail.
fn fails(alloc: Global, failing: &[u32], name: &[u8]) -> Result<bool, Memory> {
    let mut files = files_of(alloc, NEW, failing)?;
    match compat(
        alloc,
        named("old.idl"),
        None,
        named("new.idl"),
        None,
        &mut files,
    ) {
        Err(Refusal::FileFailed { file }) => Ok(file.as_slice() == name),
        _ => Ok(false),
    }
}

#[test]
fn two_files_are_compiled_and_compared(rt: HostRuntime) -> Result<(), Fail> {
    assert!(rt; is_compatible(rt.alloc(), NEW)?);
    assert!(rt; is_compatible(rt.alloc(), OLD)?);
    assert!(rt; !is_compatible(rt.alloc(), OTHER)?);
    assert!(rt; differs(rt.alloc(), OTHER)?);
    Ok(())
}

#[test]
fn the_older_file_is_loaded_first(rt: HostRuntime) -> Result<(), Fail> {
    assert!(rt; fails(rt.alloc(), &[1, 2], b"old.idl")?);
    assert!(rt; fails(rt.alloc(), &[2], b"new.idl")?);
    Ok(())
}
