// What a file and its imports come to, by an example.
use crate::files::{sources_of, walked};
use idl_names::{Meaning, Names, Scope, Sources};
use nd_base::{MemFiles, Memory, Place};
use std::alloc::Global;
use std::test::Fail;

/// A file with a constant: its name is at octet 33.
const BASE: &[u8] = b"[local] interface b { const long A = 2; }";

const MAIN: &[u8] = b"[local] interface t { import \"b\"; const long C = A + 1; }";

fn files(alloc: Global) -> Result<MemFiles, Memory> {
    let mut files = MemFiles::new(alloc, &[])?;
    files.add("b", BASE)?;
    Ok(files)
}

fn place(file: u16, at: u32) -> Place {
    Place { file, at }
}

/// Whether both constants are known, the files of the walk are in the order in which their walks end, and the sources in that of their loads.
fn are_known(scope: &Scope, sources: &Sources) -> bool {
    scope.find(false, b"A") == Some(place(1, 33))
        && scope.find(false, b"C") == Some(place(0, 45))
        && scope.meaning(b"C") == Some(Meaning::Number(3))
        && sources.name(1) == Some("b")
        && sources.text(1) == Some(BASE)
        && sources.name(2).is_none()
}

fn are_in_order(scope: &Scope) -> bool {
    match (scope.files.get(0), scope.files.get(1)) {
        (Some(first), Some(second)) => {
            scope.files.len() == 2 && first.file == 1 && second.file == 0
        }
        _ => false,
    }
}

#[test]
fn imported_names_are_known(rt: HostRuntime) -> Result<(), Fail> {
    let mut files = files(rt.alloc())?;
    let mut sources = sources_of(rt.alloc(), MAIN)?;
    let scope = walked(rt.alloc(), &mut files, &mut sources, MAIN)?;
    assert!(rt; are_known(&scope, &sources));
    assert!(rt; are_in_order(&scope));
    Ok(())
}
