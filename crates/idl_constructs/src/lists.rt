// Rules 1 to 4: attributes as they stand in lists (C706, sections 4.2.4, 4.2.9 and 4.2.12 to 4.2.14).
ghost use Rattle.std.specs.Prelude.{◌≡◌, None, [], ◌∷◌, ◌++◌, map, not, option_map, IfOk, OnOk, List};
ghost use Rattle.std.specs.List.{list_any};
ghost use Rattle.std.specs.Str.{bytes_eq};
ghost use Rattle.idl_scope.specs.Seen.{seen_files};
ghost use Rattle.idl_grammar.specs.Seen.{seen_kind, seen_attribute};
ghost use Rattle.idl_rule_definitions.specs.Nodes.{World, attribute_nodes, HeaderNode};
ghost use Rattle.idl_rule_definitions.specs.Attributes.{word_of, classes, sizes, lengths, switch_is_word};
ghost use Rattle.idl_rule_definitions.specs.DeclarationRules.{words_in, is_large_version_in, is_past_65535};
ghost use Rattle.idl_grammar.specs.Tree as tree;
ghost use Rattle.idl_constructs.specs.declared.nodes.Nodes as declared;
ghost use Rattle.idl_constructs.specs.SeenNodes.{seen_position, seen_construct, seen_node, seen_nodes};
ghost use Rattle.idl_rule_definitions.specs.Noted.{noted};
ghost use Rattle.idl_constructs.specs.ListBreaches.{list_breaches, list_breaches_at, attribute_breaches, is_among, AreWords};
ghost use Rattle.idl_rule_definitions.specs.Found.{seen_breach};
ghost use Rattle.idl_constructs.specs.Spelled.{spelled};
ghost use Rattle.idl_lexer.specs.Pieces.{number_of};

use crate::nodes::{Construct, Node, Nodes, Position};
use crate::words::{Word, first_word, has, is_same};
use idl_grammar::{Attribute, AttributeKind, Spelling};
use idl_lexer::number_of as number_value;
use idl_rule_definitions::{Breach, Finder, rule};
use idl_scope::FileTrees;
use nd_base::Memory;
use std::alloc::Global;

/// Whether a word is a class.
fn is_class_word(word: Word) -> bool
    ensures { result ≡ list_any (λ w. bytes_eq w (spelled word)) classes }
{
    matches!(word, Word::Reference | Word::Unique | Word::Full)
}

/// Whether a word is of a count or of a tag.
fn is_count_or_tag(word: Word) -> bool
    ensures { result ≡ list_any (λ w. bytes_eq w (spelled word)) (switch_is_word ∷ sizes ++ lengths) }
{
    matches!(
        word,
        Word::SizeIs
            | Word::MaxIs
            | Word::LengthIs
            | Word::FirstIs
            | Word::LastIs
            | Word::SwitchIs
            | Word::AnySize
            | Word::AnyLength
    )
}

/// Whether a word may stand in a place.
fn is_in_place(position: Position, word: Word) -> bool
    ensures { result ≡ list_any (λ w. bytes_eq w (spelled word)) (words_in (seen_position position)) }
{
    match position {
        Position::Header => matches!(
            word,
            Word::Uuid | Word::Version | Word::Endpoint | Word::Local | Word::PointerDefault
        ),
        Position::Typedef => {
            is_class_word(word)
                || matches!(
                    word,
                    Word::String | Word::ContextHandle | Word::SwitchType | Word::AnyLength
                )
        }
        Position::TaggedType => matches!(word, Word::SwitchType),
        Position::Member => is_class_word(word)
            || is_count_or_tag(word)
            || matches!(word, Word::String),
        Position::Parameter => {
            is_class_word(word)
                || is_count_or_tag(word)
                || matches!(
                    word,
                    Word::In | Word::Out | Word::String | Word::ContextHandle
                )
        }
        Position::Arm => is_class_word(word) || matches!(word, Word::String),
        Position::CasedArm => is_class_word(word)
            || matches!(word, Word::String | Word::Case | Word::Default),
        Position::Operation => matches!(word, Word::Idempotent | Word::Broadcast | Word::Maybe),
    }
}

/// Whether a number of a version is past 65,535.
fn is_past(number: &Spelling) -> bool
    ensures { result ≡ is_past_65535 (number_of number.now.octets) }
{
    match number_value(number.octets.as_slice()) {
        Some(value) => value > 65_535,
        None => true,
    }
}

/// Whether an attribute is a version with a number past 65,535.
fn is_large_version(kind: &AttributeKind) -> bool
    ensures { result ≡ is_large_version_in (seen_kind kind.now) }
{
    match kind {
        AttributeKind::Version { major, minor: None } => is_past(major),
        AttributeKind::Version {
            major,
            minor: Some(minor),
        } => is_past(major) || is_past(minor),
        _ => false,
    }
}

/// Whether a word is one of these.
fn is_among(words: &[Word], word: Word) -> bool
    ensures { result ≡ is_among (spelled word) words.now }
{
    for one in words {
        if is_same(&word, one) {
            return true;
        }
    }
    false
}

/// Keeps a word, once. Takes memory for it.
fn enlist(words: &mut Vec<Word>, word: Word) -> Result<(), Memory>
    ensures { (before : List tree.Attribute) (a : tree.Attribute) → AreWords words.old.items before → spelled word ≡ word_of a.kind
        → OnOk result (AreWords words.new.items (before ++ a ∷ [])) }
{
    if is_among(words.as_slice(), word) {
        return Ok(());
    }
    match words.push(word) {
        Ok(()) => Ok(()),
        Err(_) => Err(Memory),
    }
}

/// The rules on an attribute, after attributes with these words.
fn attribute(
    finder: &mut Finder<'_>,
    construct: &Construct<'_>,
    words: &[Word],
    attribute: &Attribute,
)
    ensures files { finder.new.files.now ≡ finder.old.files.now }
    ensures first { (w : World) (before : List tree.Attribute) → w.files ≡ seen_files finder.old.files.now → AreWords words.now before
        → option_map seen_breach finder.new.first
        ≡ noted w (option_map seen_breach finder.old.first)
        (attribute_breaches (seen_construct construct.now) before (seen_attribute attribute.now)) }
{
    let place = construct.place(attribute.at);
    let word = first_word(&attribute.kind);
    finder.note(
        rule::ATTRIBUTES_IN_PLACE,
        place,
        !is_in_place(construct.position, word),
    );
    finder.note(rule::NO_WORD_TWICE, place, is_among(words, word));
    finder.note(
        rule::VERSION_NUMBERS,
        place,
        is_large_version(&attribute.kind),
    );
}

/// The rules on the attributes of a construct. Takes memory for their words.
fn attributes(
    alloc: Global,
    finder: &mut Finder<'_>,
    construct: &Construct<'_>,
) -> Result<(), Memory>
    ensures files { finder.new.files.now ≡ finder.old.files.now }
    ensures first { (w : World) → w.files ≡ seen_files finder.old.files.now
        → OnOk result (option_map seen_breach finder.new.first
        ≡ noted w (option_map seen_breach finder.old.first) (list_breaches (attribute_nodes (seen_construct construct.now)))) }
{
    let mut words = Vec::new(alloc);
    for one in construct.attributes {
        attribute(finder, construct, words.as_slice(), one);
        enlist(&mut words, first_word(&one.kind))?;
    }
    Ok(())
}

/// The rule on a header: the main file's has `uuid` or `local`.
fn header(finder: &mut Finder<'_>, construct: &Construct<'_>)
    ensures files { finder.new.files.now ≡ finder.old.files.now }
    ensures first { (w : World) → w.files ≡ seen_files finder.old.files.now
        → option_map seen_breach finder.new.first
        ≡ noted w (option_map seen_breach finder.old.first) (list_breaches_at (HeaderNode (seen_construct construct.now) construct.now.at)) }
{
    let lacks = construct.file == 0
        && !has(construct.attributes, Word::Uuid)
        && !has(construct.attributes, Word::Local);
    finder.note(rule::UUID_OR_LOCAL, construct.place(construct.at), lacks);
}

/// The rules on what a node stands for.
fn node(alloc: Global, finder: &mut Finder<'_>, node: &Node<'_>) -> Result<(), Memory>
    ensures files { finder.new.files.now ≡ finder.old.files.now }
    ensures first { (w : World) (nodes : declared.Nodes) → w.files ≡ seen_files finder.old.files.now
        → OnOk result (option_map seen_breach finder.new.first
        ≡ noted w (option_map seen_breach finder.old.first) (list_breaches (seen_node nodes.lists.items node.now))) }
{
    match node {
        Node::Header { construct } => header(finder, construct),
        Node::Attributes { construct } => attributes(alloc, finder, construct)?,
        _ => {}
    }
    Ok(())
}

/// The first breach of these rules, if one is broken.
pub fn first_breach(
    alloc: Global,
    files: &FileTrees,
    nodes: &Nodes<'_>,
) -> Result<Option<Breach>, Memory>
    ensures { (w : World) → w.files ≡ seen_files files.now
        → IfOk result (λ first. option_map seen_breach first ≡ noted w None (list_breaches (seen_nodes nodes.now))) }
{
    let mut finder = Finder::new(files);
    for one in &nodes.items {
        node(alloc, &mut finder, one)?;
    }
    Ok(finder.first())
}
