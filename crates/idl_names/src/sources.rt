// The files, by the numbers that places have.
ghost use Rattle.std.specs.Prelude.{◌≡◌, ℕ, ◌<◌, List, [], ◌∷◌, ◌++◌, length, option_map, position, string_bytes, IfOk, OnOk, IfErr, OnErr};
ghost use Rattle.std.specs.Str.{bytes_eq};
ghost use Rattle.idl_names.specs.Walk.{Source, file_name, file_number, file_text, and_source};

use nd_base::{Memory, Octets};
use std::alloc::Global;
use std::marker::Model;

/// The greatest number of files in `Sources`.
pub const FILES_LIMIT: u16 = 65_535;

/// The main file, or a file whose load was begun.
#[derive(Debug, Drop)]
struct File {
    name: String,
    text: Octets,
}

/// The names and texts of files, numbered from 0 in the order of adding: the main file first, then each imported file when its load
/// begins. `Place` has these numbers.
#[derive(Debug, Drop)]
pub struct Sources {
    files: Vec<File>,
}

/// The place of the first file of a name.
fn number_in(files: &[File], name: &str) -> Option<usize>
    ensures { result ≡ position (λ f. bytes_eq name.now (string_bytes f.name)) files.now }
{
    files.iter().position(|file| name == file.name.as_str())
}

impl Model for Sources {
    ghost use Rattle.std.specs.Prelude.{List, map, string_bytes};
    ghost use Rattle.idl_names.specs.Walk.{Source, source};

    ghost Value = { List Source };

    ghost view = { λ s. map (λ f. source (string_bytes f.name) f.text) s.files.items };
}

impl Sources {
    /// No files. Takes no memory.
    pub fn new(alloc: Global) -> Sources
        ensures { result ≡ [] }
    {
        Sources {
            files: Vec::new(alloc),
        }
    }

    /// Adds a file, and tells its number. Takes memory for it, and running out of memory is the only refusal: the text is handed back then, and
    /// nothing has changed.
    pub fn add(&mut self, name: &str, text: Octets) -> Result<u16, (Memory, Octets)>
        requires { length self.old < FILES_LIMIT }
        ensures number { IfOk result (λ file. file ≡ length self.old) }
        ensures ok { OnOk result (self.new ≡ and_source self.old name.now text) }
        ensures err { OnErr result (self.new ≡ self.old) }
        ensures back { IfErr result (λ e. e.1 ≡ text) }
    {
        let file = self.files.len() as u16;
        let name = match String::from_str(*self.files.allocator(), name) {
            Ok(name) => name,
            Err(_) => return Err((Memory, text)),
        };
        match self.files.push(File { name, text }) {
            Ok(()) => Ok(file),
            Err(failed) => Err((Memory, failed.value.text)),
        }
    }

    /// Gives the last file its text, in place of an empty one. Takes no memory.
    pub(crate) fn fill(&mut self, file: u16, text: Octets)
        requires { file < length self.old }
        ensures { (before : List Source) (name : List ℕ) → file ≡ length before → self.old ≡ and_source before name []
            → self.new ≡ and_source before name text }
    {
        self.files[usize::from(file)].text = text;
    }

    /// The number of files. Takes no memory.
    pub(crate) fn count(&self) -> usize
        ensures { result ≡ length self.now }
    {
        self.files.len()
    }

    /// The number of the file of a name, or None where there is none. Takes no memory.
    pub(crate) fn number(&self, name: &str) -> Option<usize>
        ensures { result ≡ file_number self.now name.now }
    {
        number_in(self.files.as_slice(), name)
    }

    /// The name of a file, or None past the last. Takes no memory.
    pub fn name(&self, file: u16) -> Option<&str>
        ensures { option_map (λ name. name.now) result ≡ file_name self.now file }
    {
        match self.files.get(usize::from(file)) {
            Some(found) => Some(found.name.as_str()),
            None => None,
        }
    }

    /// The text of a file, or None past the last. Takes no memory.
    pub fn text(&self, file: u16) -> Option<&[u8]>
        ensures { option_map (λ text. text.now) result ≡ file_text self.now file }
    {
        match self.files.get(usize::from(file)) {
            Some(found) => Some(found.text.as_slice()),
            None => None,
        }
    }
}
