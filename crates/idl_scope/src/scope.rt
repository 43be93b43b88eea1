// What is known once all files are resolved.
ghost use Rattle.std.specs.Prelude.{◌≡◌, true, [], ◌∷◌, ◌++◌, length, slice_get, option_map, OnOk};
ghost use Rattle.idl_scope.specs.Known.{place_found, has_ended};
ghost use Rattle.idl_scope.specs.SeenFiles.{seen_file, seen_files};

use crate::known::NameTables;
use crate::{Meaning, Names};
use idl_grammar::Tree;
use nd_base::{Memory, Place};
use std::alloc::Global;

/// A file with its number in `Sources`.
#[derive(Debug, Drop)]
pub struct FileTree {
    /// The number of the file.
    pub file: u16,
    /// Its tree.
    pub tree: Tree,
}

/// The files, in the order in which their resolving ended: the main file is the last.
#[derive(Debug, Drop)]
pub struct FileTrees {
    items: Vec<FileTree>,
}

impl FileTrees {
    /// No files. It allocates nothing.
    pub fn new(alloc: Global) -> FileTrees
        ensures { seen_files result ≡ [] }
    {
        FileTrees {
            items: Vec::new(alloc),
        }
    }

    /// Adds a file. Takes memory for its entry.
    pub fn push(&mut self, file: FileTree) -> Result<(), Memory>
        ensures { OnOk result (seen_files self.new ≡ seen_files self.old ++ seen_file file ∷ []) }
    {
        match self.items.push(file) {
            Ok(()) => Ok(()),
            Err(_) => Err(Memory),
        }
    }

    /// The number of files. Takes no memory.
    pub fn len(&self) -> usize
        ensures { result ≡ length (seen_files self.now) }
    {
        self.items.len()
    }

    /// The file at a place, from 0, or None past the last. Takes no memory.
    pub fn get(&self, at: usize) -> Option<&FileTree>
        ensures { option_map (λ f. seen_file f.now) result ≡ slice_get (seen_files self.now) at }
    {
        self.items.get(at)
    }
}

/// The files whose names are resolved, the main one with the number 0 among them, and what is known of names.
#[derive(Drop)]
pub struct Scope {
    /// The files.
    pub files: FileTrees,
    /// What is known of names.
    pub names: NameTables,
    pub ghost has_main: { has_ended (seen_files files) 0 ≡ true },
}

impl Scope {
    /// Where a name is at its declaration, as a type, constant, enumerator or operation of the main file; or, of a tag, before its body.
    /// None exactly where there is none: operations of imported files are not declared. Takes no memory.
    pub fn find(&self, tag: bool, name: &[u8]) -> Option<Place>
        ensures { result ≡ place_found self.now.names tag name.now }
    {
        if tag {
            self.names.tag(name).map(|found| found.place)
        } else {
            self.names.place(name)
        }
    }
}

impl Names for Scope {
    ghost use Rattle.idl_scope.specs.Known.{meaning_in};

    ghost meanings = { λ s. meaning_in s.names };

    ghost use Rattle.std.specs.Prelude.{◌^◌};

    ghost more = { λ s. 2 ^ 64 };

    fn meaning(&self, name: &[u8]) -> Option<Meaning> {
        // proof: there are fewer than 2^64 names.
        let _count = self.names.count();
        self.names.meaning(name)
    }
}
