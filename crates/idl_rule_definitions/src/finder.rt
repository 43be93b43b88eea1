// The first of the rules that are broken.
ghost use Rattle.std.specs.Prelude.{◌≡◌, Some, None, option_map};
ghost use Rattle.idl_scope.specs.Seen.{seen_files};
ghost use Rattle.idl_rule_definitions.specs.Nodes.{World};
ghost use Rattle.idl_rule_definitions.specs.Rules.{rank_in, comes_before};
ghost use Rattle.idl_rule_definitions.specs.Noted.{noted, if_broken};
ghost use Rattle.idl_rule_definitions.specs.Found.{seen_breach, is_file_at};

use idl_scope::FileTrees;
use nd_base::Place;

/// A rule that is broken at a place.
#[derive(Clone, Copy, Debug, PartialEq, Eq)]
pub struct Breach {
    /// The number of the rule.
    pub rule: u8,
    /// Where it is broken.
    pub place: Place,
}

/// The first breach of those that were noted: the least rule, then the first place. Files go in the order of the list.
#[derive(Drop)]
pub struct Finder<'t> {
    files: &'t FileTrees,
    first: Option<Breach>,
}

/// Whether a file of this number is number `at` of the list.
fn is_at(files: &FileTrees, at: usize, file: u16) -> bool
    ensures { result ≡ is_file_at (seen_files files.now) at file }
{
    match files.get(at) {
        Some(found) => found.file == file,
        None => false,
    }
}

/// How many files stand before one.
fn rank(files: &FileTrees, file: u16) -> usize
    ensures { result ≡ rank_in (seen_files files.now) file }
{
    for at in 0..files.len() {
        if is_at(files, at, file) {
            return at;
        }
    }
    files.len()
}

/// Whether a breach is of a lesser rule than another, or of the same at an earlier place.
fn is_before(files: &FileTrees, one: &Breach, other: &Breach) -> bool
    ensures { (w : World) → w.files ≡ seen_files files.now → result ≡ comes_before w (seen_breach one.now) (seen_breach other.now) }
{
    if one.rule != other.rule {
        return one.rule < other.rule;
    }
    let first = rank(files, one.place.file);
    let second = rank(files, other.place.file);
    first < second || first == second && one.place.at < other.place.at
}

impl<'t> Finder<'t> {
    /// Nothing is broken so far.
    pub fn new(files: &'t FileTrees) -> Finder<'t>
        ensures files { result.files.now ≡ files.now }
        ensures none { result.first ≡ None }
    {
        Finder { files, first: None }
    }

    /// Notes a rule if it is broken at a place.
    pub fn note(&mut self, rule: u8, place: Place, broken: bool)
        ensures files { self.new.files.now ≡ self.old.files.now }
        ensures first { (w : World) → w.files ≡ seen_files self.old.files.now
            → option_map seen_breach self.new.first ≡ noted w (option_map seen_breach self.old.first) (if_broken rule place broken) }
    {
        if !broken {
            return;
        }
        let found = Breach { rule, place };
        let comes_first = match &self.first {
            Some(first) => is_before(self.files, &found, first),
            None => true,
        };
        if comes_first {
            self.first = Some(found);
        }
    }

    /// How many files stand before one.
    pub fn rank(&self, file: u16) -> usize
        ensures { result ≡ rank_in (seen_files self.now.files.now) file }
    {
        rank(self.files, file)
    }

    /// The first breach.
    pub fn first(&self) -> Option<Breach>
        ensures { result ≡ self.now.first }
    {
        self.first
    }
}
