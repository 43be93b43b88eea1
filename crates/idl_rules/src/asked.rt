// What the rules ask of a declarator where it stands.
ghost use Rattle.std.specs.Prelude.{◌≡◌, ◌++◌, Bool, List, Option, option_map};
ghost use Rattle.idl_scope.specs.Seen.{seen_files};
ghost use Rattle.idl_rule_definitions.specs.Nodes.{World};
ghost use Rattle.idl_rule_definitions.specs.Nodes as rules;
ghost use Rattle.idl_rule_definitions.specs.Rules.{Breach, broken_in};
ghost use Rattle.idl_rule_definitions.specs.Scene.{Scene, chain, below};
ghost use Rattle.idl_rule_definitions.specs.TypeRules.{below_reference};
ghost use Rattle.idl_rule_definitions.specs.VariableRules.{below_pointer};
ghost use Rattle.idl_declared_types.specs.Kinds.{type_by, type_at, seen_types};
ghost use Rattle.idl_constructs.specs.SeenNodes.{seen_construct};
ghost use Rattle.idl_value_rules.specs.SeenMarks.{IsMark, AreMarks};
ghost use Rattle.idl_rule_definitions.specs.Noted.{noted};
ghost use Rattle.idl_rule_definitions.specs.Found.{seen_breach};
ghost use Rattle.idl_value_rules.specs.SeenMarks.{Holds};

use idl_constructs::nodes::Construct;
use idl_declared_types::kinds::{Kind, Kinds};
use idl_declared_types::types::Typed;
use idl_rule_definitions::Finder;
use idl_value_rules::marks::{Mark, Marks, NOTHING};

/// A declarator where it stands, with the numbers of its types.
#[derive(Clone, Copy)]
pub struct Asked<'t> {
    pub construct: Construct<'t>,
    pub typed: Typed,
    /// Others stand after it in its list.
    pub followed: bool,
    /// A dimension has a lower bound other than 0.
    pub lower_bounds: bool,
    /// A variable of its attributes is no other member or parameter of its list.
    pub no_variable: bool,
}

/// The types of the program with their marks.
#[derive(Clone, Copy)]
pub struct Judge<'j> {
    pub kinds: &'j Kinds,
    pub marks: &'j Marks,
}

impl<'j> Judge<'j> {
    /// The kind of a type.
    pub fn kind(&self, number: usize) -> Kind
        ensures { type_by (seen_types self.now.kinds.now) result ≡ type_at self.now.kinds.now number }
    {
        self.kinds.kind(number)
    }

    /// What is marked of a type.
    pub(crate) fn mark(&self, number: usize) -> Mark
        ensures is { (s : Scene) → AreMarks s self.now.kinds.now self.now.marks.now → IsMark s (type_at self.now.kinds.now number) result }
        ensures holds { (s : Scene) → AreMarks s self.now.kinds.now self.now.marks.now → Holds s (chain (type_at self.now.kinds.now number)) result }
    {
        self.marks.get(number)
    }

    /// What is marked of all that a type is made of, without the type itself.
    pub(crate) fn below(&self, number: usize) -> Mark
        ensures { (s : Scene) → AreMarks s self.now.kinds.now self.now.marks.now → Holds s (below (type_at self.now.kinds.now number)) result }
    {
        match self.kind(number).inner() {
            Some(inner) => self.mark(inner),
            None => NOTHING,
        }
    }

    /// The same without the type after it, where it is a reference pointer.
    pub(crate) fn below_reference(&self, number: usize) -> Mark
        ensures { (s : Scene) → AreMarks s self.now.kinds.now self.now.marks.now
            → Holds s (below_reference (type_at self.now.kinds.now number)) result }
    {
        match self.kind(number).referent() {
            Some(to) => self.below(to),
            None => self.below(number),
        }
    }

    /// The same without the type after it, where it is a pointer.
    pub(crate) fn below_pointer(&self, number: usize) -> Mark
        ensures { (s : Scene) → AreMarks s self.now.kinds.now self.now.marks.now
            → Holds s (below_pointer (type_at self.now.kinds.now number)) result }
    {
        match self.kind(number).pointee() {
            Some(to) => self.below(to),
            None => self.below(number),
        }
    }
}

/// Notes a rule if it is broken in a construct.
pub(crate) fn note(finder: &mut Finder<'_>, construct: &Construct<'_>, rule: u8, broken: bool)
    ensures files { finder.new.files.now ≡ finder.old.files.now }
    ensures next { (w : World) (first : Option Breach) (before : List Breach) (c : rules.Construct) (is_broken : Bool)
        → w.files ≡ seen_files finder.old.files.now → seen_construct construct.now ≡ c → broken ≡ is_broken
        → option_map seen_breach finder.old.first ≡ noted w first before
        → option_map seen_breach finder.new.first ≡ noted w first (before ++ broken_in c rule is_broken) }
{
    finder.note(rule, construct.place(construct.at), broken);
}
