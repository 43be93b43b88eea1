// What the tree keeps of a token.
ghost use Rattle.std.specs.Prelude.{◌≡◌, true, IfOk};
ghost use Rattle.nd_base.specs.Text.{is_identifier};
ghost use Rattle.idl_lexer.specs.Pieces.{IsUuid};

use nd_base::{Memory, Name, Octets};
use std::alloc::Global;
use std::marker::Model;

/// A token as it is spelled: a number or a literal. A literal has its quotes and escapes.
#[derive(Debug, Drop)]
pub struct Spelling {
    /// The octet where it begins.
    pub at: u32,
    /// Its octets.
    pub octets: Octets,
}

/// A name: a letter or `_`, then letters, digits and `_`, 31 octets at most (C706, section 4.2.1).
#[derive(Debug, Drop)]
pub struct Identifier {
    spelling: Spelling,
}

impl Model for Identifier {
    ghost use Rattle.std.specs.Prelude.{◌≡◌, true};
    ghost use Rattle.nd_base.specs.Text.{is_identifier};
    ghost use Rattle.idl_grammar.specs.declared.words.Spelling.{Spelling};

    ghost Value = { Spelling };

    ghost view = { λ i. i.spelling };

    ghost invariant = { λ i. is_identifier i.spelling.octets ≡ true };
}

impl Identifier {
    /// The name that a token is. Takes no memory.
    pub fn new(spelling: Spelling) -> Identifier
        requires { is_identifier spelling.octets ≡ true }
        ensures { result ≡ spelling }
    {
        Identifier { spelling }
    }

    /// The octet where it begins. Takes no memory.
    pub fn at(&self) -> u32
        ensures { result ≡ self.now.at }
    {
        self.spelling.at
    }

    /// Its octets. Takes no memory.
    pub fn as_slice(&self) -> &[u8]
        ensures { result.now ≡ self.now.octets }
    {
        self.spelling.octets.as_slice()
    }

    /// A copy of its octets, which are an identifier. Takes memory for them, and running out of memory is the only refusal.
    #[tactic(auto, using(crate::proofs::Identifiers::identifier_length))]
    pub fn to_name(&self, alloc: Global) -> Result<Name, Memory>
        ensures same { IfOk result (λ n. n ≡ self.now.octets) }
        ensures identifier { is_identifier self.now.octets ≡ true }
    {
        Name::copy(alloc, self.spelling.octets.as_slice())
    }
}

/// A UUID as it is spelled: 8, 4, 4, 4 and 12 hexadecimal digits joined by `-` (C706, section 4.2.1).
#[derive(Debug, Drop)]
pub struct UuidText {
    spelling: Spelling,
}

impl Model for UuidText {
    ghost use Rattle.idl_lexer.specs.Pieces.{IsUuid};
    ghost use Rattle.idl_grammar.specs.declared.words.Spelling.{Spelling};

    ghost Value = { Spelling };

    ghost view = { λ u. u.spelling };

    ghost invariant = { λ u. IsUuid u.spelling.octets };
}

impl UuidText {
    /// The UUID that a token is. Takes no memory.
    pub fn new(spelling: Spelling) -> UuidText
        requires { IsUuid spelling.octets }
        ensures { result ≡ spelling }
    {
        UuidText { spelling }
    }

    /// The octet where it begins. Takes no memory.
    pub fn at(&self) -> u32
        ensures { result ≡ self.now.at }
    {
        self.spelling.at
    }

    /// Its octets. Takes no memory.
    pub fn as_slice(&self) -> &[u8]
        ensures same { result.now ≡ self.now.octets }
        ensures uuid { IsUuid result.now }
    {
        self.spelling.octets.as_slice()
    }
}
