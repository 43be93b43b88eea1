// What is kept of tags (C706, sections 4.2.8 to 4.2.11).
use idl_grammar::TagKind;
use nd_base::{Octets, Place};

/// A tag with its body.
#[derive(Clone, Copy, Debug, PartialEq, Eq)]
pub struct TagDefinition {
    /// What it names.
    pub kind: TagKind,
    /// Where the tag is before its body.
    pub place: Place,
}

/// A tag that is used after pointers before its body.
#[derive(Debug, Drop)]
pub struct TagUse {
    /// What it names.
    pub kind: TagKind,
    /// The tag.
    pub tag: Octets,
    /// Where it is used.
    pub place: Place,
}
