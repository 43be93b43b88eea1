// The names of all files.
ghost use Rattle.std.specs.Prelude.{◌≡◌, ◌≤◌, ◌<◌, [], ◌∷◌, ◌++◌, map, drop, length, true, IfOk, IfErr, OnOk};
ghost use Rattle.std.specs.List.{flat_map};
ghost use Rattle.idl_grammar.specs.Seen.{seen_tree, seen_import};
ghost use Rattle.idl_scope.specs.declared.name_fault.NameFault.TheVariants as faults;
ghost use Rattle.idl_names.specs.Causes.{IsAbsent, IsFailed};
ghost use Rattle.idl_names.specs.Going.{point, Went};
ghost use Rattle.idl_scope.specs.Seen.{seen_files};
ghost use Rattle.idl_names.specs.Seen.{seen_scope, seen_state};
ghost use Rattle.idl_names.specs.Walk.{file_number, IsResolved, IsRefused, AsksAlong, Load, load_of, all_of, names_of, most_files};
ghost use Rattle.idl_scope.specs.Known.{has_ended};

use crate::Sources;
use crate::declarations::exports;
use crate::loading::load;
use crate::strings::file_named;
use crate::walk::attributes;
use idl_grammar::{Import, Language, Spelling, Tree};
use idl_scope::{FileTree, FileTrees, NameFault, NameTables, Scope};
use nd_base::{Files, Place};
use std::alloc::Global;

/// The greatest number of files of a walk.
const WALK_LIMIT: usize = 64;

/// How far a walk has come: the files whose resolving has ended, and what is known of names.
#[derive(Drop)]
pub(crate) struct WalkState {
    files: FileTrees,
    names: NameTables,
}

/// Whether the resolving of a file has ended.
fn has_ended(files: &FileTrees, number: usize) -> bool
    ensures { result ≡ has_ended (seen_files files.now) number }
{
    for at in 0..files.len() {
        let Some(ended) = files.get(at) else {
            unreachable!();
        };
        if usize::from(ended.file) == number {
            return true;
        }
    }
    false
}

/// An import at a place: its file is loaded and walked, unless that was done.
#[cycle(files)]
fn import<F: Files>(
    alloc: Global,
    language: Language,
    files: &mut F,
    sources: &mut Sources,
    state: &mut WalkState,
    file: u16,
    string: &Spelling,
) -> Result<(), NameFault>
    requires { length sources.old ≤ most_files }
    ensures { Went (point (F.seen files.old) (seen_state language sources.old state.old))
        (load_of file string.now ∷ [])
        (point (F.seen files.new) (seen_state language sources.new state.new)) [] result }
{
    let place = Place {
        file,
        at: string.at,
    };
    let name = file_named(alloc, string.octets.as_slice())?;
    match sources.number(name.as_str()) {
        Some(number) if has_ended(&state.files, number) => Ok(()),
        Some(_) => Err(NameFault::ImportCycle { place }),
        None if sources.count() >= WALK_LIMIT => Err(NameFault::TooMany { place }),
        None => {
            let loaded = load(alloc, language, files, sources, name.as_str())?;
            whole(alloc, language, files, sources, state, loaded)
        }
    }
}

/// The files of one `import`.
#[cycle(files)]
fn import_all<F: Files>(
    alloc: Global,
    language: Language,
    files: &mut F,
    sources: &mut Sources,
    state: &mut WalkState,
    file: u16,
    strings: &[Spelling],
) -> Result<(), NameFault>
    requires { length sources.old ≤ most_files }
    ensures { Went (point (F.seen files.old) (seen_state language sources.old state.old))
        (map (load_of file) strings.now)
        (point (F.seen files.new) (seen_state language sources.new state.new)) [] result }
{
    for string in strings {
        import(alloc, language, files, sources, state, file, string)?;
    }
    Ok(())
}

/// The imports of a file.
#[cycle(files)]
fn imports<F: Files>(
    alloc: Global,
    language: Language,
    files: &mut F,
    sources: &mut Sources,
    state: &mut WalkState,
    file: u16,
    list: &[Import],
) -> Result<(), NameFault>
    requires { length sources.old ≤ most_files }
    ensures { Went (point (F.seen files.old) (seen_state language sources.old state.old))
        (map (load_of file) (flat_map (λ m. m.files) (map seen_import list.now)))
        (point (F.seen files.new) (seen_state language sources.new state.new)) [] result }
{
    for one in list {
        import_all(
            alloc,
            language,
            files,
            sources,
            state,
            file,
            one.files.as_slice(),
        )?;
    }
    Ok(())
}

/// A file, and the files that it imports.
#[cycle(files)]
fn whole<F: Files>(
    alloc: Global,
    language: Language,
    files: &mut F,
    sources: &mut Sources,
    state: &mut WalkState,
    of: FileTree,
) -> Result<(), NameFault>
    requires { length sources.old ≤ most_files }
    ensures went { Went (point (F.seen files.old) (seen_state language sources.old state.old))
        (all_of of.file (seen_tree of.tree))
        (point (F.seen files.new) (seen_state language sources.new state.new)) [] result }
    ensures ended { OnOk result (has_ended (seen_files state.new.files) of.file ≡ true) }
{
    let FileTree { file, tree } = of;
    attributes(&state.names, file, &tree.attributes)?;
    imports(
        alloc,
        language,
        files,
        sources,
        state,
        file,
        tree.imports.as_slice(),
    )?;
    exports(alloc, &mut state.names, file, file == 0, &tree.exports)?;
    state.files.push(FileTree { file, tree })?;
    Ok(())
}

/// Reads each name of a file and of the files that it imports, all in one language, by the declarations before it, but the variable of an
/// attribute, which is looked up in its own list later; and a tag after pointers by those of all files (C706, section 4.2). The files are walked
/// depth first, each by its attributes, its imports and its declarations; one that is imported again is loaded once. Only the main file's
/// operations are read. That all files have one space of names is this project's own choice.
///
/// At every exit `sources` has, after the main file, each file that was asked for, in that order, and no other; a file whose load did not
/// answer Ok has an empty text. A file is asked for where the walk comes to its import, and once.
///
/// # Errors
/// The first fault of the walk. `NameFault` has the reasons. Memory where memory was wanting.
///
/// Takes memory for the trees of the files, and for an entry of each name.
pub fn resolve<F: Files>(
    alloc: Global,
    language: Language,
    files: &mut F,
    sources: &mut Sources,
    tree: Tree,
) -> Result<Scope, NameFault>
    requires { length sources.old ≡ 1 }
    ensures scope { IfOk result (λ scope. IsResolved language (F.seen files.old).held sources.old (seen_tree tree)
        (seen_scope language sources.new scope)) }
    ensures fault { IfErr result (IsRefused language (F.seen files.old).held sources.old (seen_tree tree) sources.new) }
    ensures absent { IfErr result (IsAbsent (F.seen files.old).absences (F.seen files.new).absences) }
    ensures failed { IfErr result (IsFailed (F.seen files.old).faults (F.seen files.new).faults) }
    ensures later { (F.seen files.old).faults ≤ (F.seen files.new).faults }
    ensures absences_later { (F.seen files.old).absences ≤ (F.seen files.new).absences }
    ensures same { (F.seen files.new).held ≡ (F.seen files.old).held }
    ensures asked { AsksAlong language (F.seen files.old).held sources.old (seen_tree tree) (F.seen files.old).asked (F.seen files.new).asked }
    ensures all_asked { (F.seen files.new).asked ≡ (F.seen files.old).asked ++ names_of (drop (length sources.old) sources.new) }
{
    let mut state = WalkState {
        files: FileTrees::new(alloc),
        names: NameTables::new(alloc),
    };
    whole(
        alloc,
        language,
        files,
        sources,
        &mut state,
        FileTree { file: 0, tree },
    )?;
    let WalkState {
        files: trees,
        names,
    } = state;
    match names.first_undefined() {
        None => Ok(Scope {
            files: trees,
            names,
        }),
        Some(place) => Err(NameFault::Unknown { place }),
    }
}
