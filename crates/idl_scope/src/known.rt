// What is known of names on the way through the files, and each step of a file.
ghost use Rattle.std.specs.Prelude.{◌≡◌, ◌+◌, ◌++◌, true, [], ◌∷◌, length, option_map, IfOk, OnOk};
ghost use Rattle.idl_grammar.specs.Seen.{seen_expr};
ghost use Rattle.idl_scope.specs.Known.{found, Known, nothing, walked, value_in, is_defined, first_undefined, next_meaning, place_in};
ghost use Rattle.idl_scope.specs.Kept.{listed, IsRight};
ghost use Rattle.idl_scope.specs.Small.{is_below, is_small};
ghost use Rattle.idl_scope.specs.Steps.{UseType, UseTag, DefineTag, Declare, Know, KnowValue, KnowNext, Evaluate, Enlist};

use crate::table::Table;
use crate::{ExpressionFault, Meaning, NameFault, Names, TagDefinition, TagUse, evaluate};
use idl_grammar::{Expr, Identifier, TagKind};
use nd_base::{Octets, Place};
use std::alloc::Global;
use std::marker::Model;

/// What was declared so far.
#[derive(Drop)]
pub struct NameTables {
    alloc: Global,
    places: Table<Place>,
    meanings: Table<Meaning>,
    tags: Table<TagDefinition>,
    uses: Vec<TagUse>,
}

impl Model for NameTables {
    ghost use Rattle.std.specs.Prelude.{◌≡◌, true, length};
    ghost use Rattle.idl_scope.specs.Known.{Known};
    ghost use Rattle.idl_scope.specs.Kept.{known_of};
    ghost use Rattle.idl_scope.specs.Small.{are_small};

    ghost Value = { Known };

    ghost view = { λ n. known_of n.places n.meanings n.tags n.uses.items };

    ghost invariant = { λ n. are_small (length n.places) n.meanings ≡ true };
}

impl Names for NameTables {
    ghost use Rattle.idl_scope.specs.Known.{meaning_in};

    ghost meanings = { λ k. meaning_in k };

    ghost use Rattle.std.specs.Prelude.{length};

    ghost more = { λ k. length k.places };

    fn meaning(&self, name: &[u8]) -> Option<Meaning> {
        self.meanings.get(name)
    }
}

/// Where a name of a file stands.
fn place_of(file: u16, name: &Identifier) -> Place
    ensures { result ≡ place_in file name.now }
{
    Place {
        file,
        at: name.at(),
    }
}

impl NameTables {
    /// Nothing. It allocates nothing.
    pub fn new(alloc: Global) -> NameTables
        ensures { result ≡ nothing }
    {
        NameTables {
            alloc,
            places: Table::new(alloc),
            meanings: Table::new(alloc),
            tags: Table::new(alloc),
            uses: Vec::new(alloc),
        }
    }

    /// Where a name was declared.
    pub(crate) fn place(&self, name: &[u8]) -> Option<Place>
        ensures { result ≡ found name.now self.now.places }
    {
        self.places.get(name)
    }

    /// A tag with its body.
    pub(crate) fn tag(&self, name: &[u8]) -> Option<TagDefinition>
        ensures { result ≡ found name.now self.now.tags }
    {
        self.tags.get(name)
    }

    /// The number of names that were declared.
    pub(crate) fn count(&self) -> usize
        ensures { result ≡ length self.now.places }
    {
        self.places.len()
    }

    /// The value of an expression in a file.
    pub(crate) fn value(&self, file: u16, expression: &Expr) -> Result<i128, NameFault>
        ensures value { result ≡ value_in file self.now (seen_expr expression.now) }
        ensures small { IfOk result (λ z. is_below (length self.now.places) z ≡ true) }
    {
        match evaluate(self, expression) {
            Ok(value) => Ok(value),
            Err(ExpressionFault::Unknown { at }) => Err(NameFault::Unknown {
                place: Place { file, at },
            }),
            Err(ExpressionFault::Const(found)) => Err(NameFault::Const {
                place: Place { file, at: found.at },
                fault: found.fault,
            }),
        }
    }

    /// A type is named.
    pub fn use_type(&self, file: u16, name: &Identifier) -> Result<(), NameFault>
        ensures { IsRight self.now result (walked file self.now (UseType name.now ∷ [])) }
    {
        match self.meanings.get(name.as_slice()) {
            Some(Meaning::Type) => Ok(()),
            _ => Err(NameFault::Unknown {
                place: place_of(file, name),
            }),
        }
    }

    /// Whether a tag has a body, and is of that kind.
    fn is_defined(&self, kind: TagKind, tag: &[u8]) -> bool
        ensures { result ≡ is_defined self.now kind tag.now }
    {
        match self.tags.get(tag) {
            Some(definition) => definition.kind == kind,
            None => false,
        }
    }

    /// A tag is used without its body.
    pub fn use_tag(
        &mut self,
        file: u16,
        kind: TagKind,
        tag: &Identifier,
        behind_pointers: bool,
    ) -> Result<(), NameFault>
        ensures { IsRight self.new result (walked file self.old (UseTag kind tag.now behind_pointers ∷ [])) }
    {
        if self.is_defined(kind, tag.as_slice()) {
            return Ok(());
        }
        let place = place_of(file, tag);
        if !behind_pointers {
            return Err(NameFault::Unknown { place });
        }
        let tag = Octets::copy(self.alloc, tag.as_slice())?;
        match self.uses.push(TagUse { kind, tag, place }) {
            Ok(()) => Ok(()),
            Err(_) => Err(NameFault::Memory),
        }
    }

    /// A tag with its body.
    pub fn define_tag(
        &mut self,
        file: u16,
        kind: TagKind,
        tag: &Identifier,
    ) -> Result<(), NameFault>
        ensures { IsRight self.new result (walked file self.old (DefineTag kind tag.now ∷ [])) }
    {
        let place = place_of(file, tag);
        match self.tags.get(tag.as_slice()) {
            Some(earlier) => Err(NameFault::Twice {
                place,
                first: earlier.place,
            }),
            None => Ok(
                self.tags
                    .insert(tag.as_slice(), TagDefinition { kind, place })?,
            ),
        }
    }

    /// A type, constant, enumerator or operation takes its name.
    pub fn declare(&mut self, file: u16, name: &Identifier) -> Result<(), NameFault>
        ensures { IsRight self.new result (walked file self.old (Declare name.now ∷ [])) }
    {
        let place = place_of(file, name);
        match self.places.get(name.as_slice()) {
            Some(first) => Err(NameFault::Twice { place, first }),
            None => Ok(self.places.insert(name.as_slice(), place)?),
        }
    }

    /// From here on a name is known, which stands for no number.
    pub fn know(&mut self, file: u16, name: &Identifier, meaning: Meaning) -> Result<(), NameFault>
        requires { is_small 0 meaning ≡ true }
        ensures { IsRight self.new result (walked file self.old (Know name.now meaning ∷ [])) }
    {
        Ok(self.meanings.insert(name.as_slice(), meaning)?)
    }

    /// From here on a name is known, and stands for the value of an expression.
    pub fn know_value(
        &mut self,
        file: u16,
        name: &Identifier,
        expression: &Expr,
    ) -> Result<(), NameFault>
        ensures { IsRight self.new result (walked file self.old (KnowValue name.now (seen_expr expression.now) ∷ [])) }
    {
        let value = self.value(file, expression)?;
        Ok(
            self.meanings
                .insert(name.as_slice(), Meaning::Number(value))?,
        )
    }

    /// What an enumerator without a value stands for.
    fn next_meaning(&self, previous: Option<&Identifier>) -> Meaning
        ensures next { result ≡ next_meaning self.now (option_map (λ s. s.now) previous.entry) }
        ensures small { is_small (length self.now.places + 1) result ≡ true }
    {
        let Some(previous) = previous else {
            return Meaning::Number(0);
        };
        // proof: there are fewer than 2^64 names.
        let _count = self.places.len();
        match self.meanings.get(previous.as_slice()) {
            Some(Meaning::Number(number)) => Meaning::Number(number + 1),
            _ => Meaning::Other,
        }
    }

    /// An enumerator without a value takes its name, and is known from here on.
    pub fn declare_next(
        &mut self,
        file: u16,
        name: &Identifier,
        previous: Option<&Identifier>,
    ) -> Result<(), NameFault>
        ensures { IsRight self.new result
            (walked file self.old (Declare name.now ∷ KnowNext name.now (option_map (λ s. s.now) previous.entry) ∷ [])) }
    {
        let place = place_of(file, name);
        if let Some(first) = self.places.get(name.as_slice()) {
            return Err(NameFault::Twice { place, first });
        }
        let meaning = self.next_meaning(previous);
        self.places.insert(name.as_slice(), place)?;
        Ok(self.meanings.insert(name.as_slice(), meaning)?)
    }

    /// An expression is evaluated.
    pub fn check_value(&self, file: u16, expression: &Expr) -> Result<(), NameFault>
        ensures { IsRight self.now result (walked file self.now (Evaluate (seen_expr expression.now) ∷ [])) }
    {
        match self.value(file, expression) {
            Ok(_) => Ok(()),
            Err(fault) => Err(fault),
        }
    }
}

impl NameTables {
    /// Where the first use of a tag after pointers stands that has no body of its kind.
    pub fn first_undefined(&self) -> Option<Place>
        ensures { result ≡ first_undefined self.now self.now.uses }
    {
        for one in &self.uses {
            if !self.is_defined(one.kind, one.tag.as_slice()) {
                return Some(one.place);
            }
        }
        None
    }
}

/// A member or parameter comes after those of its list.
pub fn enlist(file: u16, list: &mut Table<u32>, name: &Identifier) -> Result<(), NameFault>
    ensures told { (k : Known) → IsRight k result (walked file k (Enlist (listed list.old) name.now ∷ [])) }
    ensures more { OnOk result (listed list.new ≡ listed list.old ++ name.now ∷ []) }
{
    match list.get(name.as_slice()) {
        Some(at) => Err(NameFault::Twice {
            place: place_of(file, name),
            first: Place { file, at },
        }),
        None => Ok(list.put(name.as_slice(), name.at())?),
    }
}
