// The words with which attributes begin.
ghost use Rattle.std.specs.Prelude.{◌≡◌, map};
ghost use Rattle.idl_grammar.specs.Seen.{seen_kind, seen_attribute};
ghost use Rattle.idl_rule_definitions.specs.Attributes.{word_of, has, has_one_of, classes, sizes, lengths};
ghost use Rattle.idl_constructs.specs.Spelled.{spelled};
ghost use Rattle.idl_rule_definitions.specs.Attributes as of;
ghost use Rattle.std.specs.Str.{bytes_eq};

use idl_grammar::{Attribute, AttributeKind, PointerClass, VariableWord};

/// The word of an attribute.
#[derive(Clone, Copy, Debug, PartialEq, Eq)]
pub enum Word {
    Uuid,
    Version,
    Endpoint,
    Local,
    PointerDefault,
    Reference,
    Unique,
    Full,
    In,
    Out,
    String,
    ContextHandle,
    SizeIs,
    MaxIs,
    LengthIs,
    FirstIs,
    LastIs,
    SwitchIs,
    SwitchType,
    Case,
    Default,
    Idempotent,
    Broadcast,
    Maybe,
    AnySize,
    AnyLength,
}

/// The word of a class.
fn class_word(class: PointerClass) -> Word
    ensures { spelled result ≡ of.class_word class }
{
    match class {
        PointerClass::Reference => Word::Reference,
        PointerClass::Unique => Word::Unique,
        PointerClass::Full => Word::Full,
    }
}

/// The word of an attribute that names a variable.
fn variable_word(word: VariableWord) -> Word
    ensures { spelled result ≡ of.variable_word word }
{
    match word {
        VariableWord::SizeIs => Word::SizeIs,
        VariableWord::MaxIs => Word::MaxIs,
        VariableWord::LengthIs => Word::LengthIs,
        VariableWord::FirstIs => Word::FirstIs,
        VariableWord::LastIs => Word::LastIs,
        VariableWord::SwitchIs => Word::SwitchIs,
    }
}

/// The word with which an attribute begins.
pub fn first_word(kind: &AttributeKind) -> Word
    ensures { spelled result ≡ word_of (seen_kind kind.now) }
{
    match kind {
        AttributeKind::Uuid(_) => Word::Uuid,
        AttributeKind::Version { .. } => Word::Version,
        AttributeKind::Endpoint(_) => Word::Endpoint,
        AttributeKind::Local => Word::Local,
        AttributeKind::PointerDefault(_) => Word::PointerDefault,
        AttributeKind::Class(class) => class_word(*class),
        AttributeKind::In => Word::In,
        AttributeKind::Out => Word::Out,
        AttributeKind::String => Word::String,
        AttributeKind::ContextHandle => Word::ContextHandle,
        AttributeKind::Of(of, _) => variable_word(*of),
        AttributeKind::SwitchTypeIs(_) => Word::SwitchType,
        AttributeKind::Case(_) => Word::Case,
        AttributeKind::Default => Word::Default,
        AttributeKind::Idempotent => Word::Idempotent,
        AttributeKind::Broadcast => Word::Broadcast,
        AttributeKind::Maybe => Word::Maybe,
        AttributeKind::AnySize => Word::AnySize,
        AttributeKind::AnyLength => Word::AnyLength,
    }
}

/// Whether two words are the same.
pub fn is_same(one: &Word, other: &Word) -> bool
    ensures { result ≡ bytes_eq (spelled one.now) (spelled other.now) }
{
    one == other
}

/// Whether an attribute begins with a word.
pub fn is_word(word_meant: Word, kind: &AttributeKind) -> bool
    ensures { result ≡ bytes_eq (spelled word_meant) (word_of (seen_kind kind.now)) }
{
    first_word(kind) == word_meant
}

/// Whether a list has an attribute of a word. Takes time for each attribute of the list.
pub fn has(attributes: &[Attribute], word: Word) -> bool
    ensures { result ≡ has (spelled word) (map seen_attribute attributes.now) }
{
    for attribute in attributes {
        if is_word(word, &attribute.kind) {
            return true;
        }
    }
    false
}

/// Whether a list has a class.
pub fn has_class(attributes: &[Attribute]) -> bool
    ensures { result ≡ has_one_of classes (map seen_attribute attributes.now) }
{
    has(attributes, Word::Reference) || has(attributes, Word::Unique) || has(attributes, Word::Full)
}

/// Whether a list has an attribute of a maximum count.
pub fn has_size(attributes: &[Attribute]) -> bool
    ensures { result ≡ has_one_of sizes (map seen_attribute attributes.now) }
{
    has(attributes, Word::SizeIs) || has(attributes, Word::MaxIs) || has(attributes, Word::AnySize)
}

/// Whether a list makes an array varying.
pub fn has_length(attributes: &[Attribute]) -> bool
    ensures { result ≡ has_one_of lengths (map seen_attribute attributes.now) }
{
    has(attributes, Word::FirstIs)
        || has(attributes, Word::LengthIs)
        || has(attributes, Word::LastIs)
        || has(attributes, Word::AnyLength)
}
