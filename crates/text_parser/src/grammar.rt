// What values are read under.
ghost use Rattle.text_parser.specs.Known.{AreKnown};

use nd_types::Types;
use std::alloc::Global;
use text_grammar::Version;

/// What values are read under: the version of the text, and the types of the interface.
#[derive(Clone, Copy)]
pub(crate) struct Grammar<'a> {
    pub(crate) alloc: Global,
    pub(crate) version: Version,
    pub(crate) types: &'a Types,
    pub(crate) ghost known: { AreKnown types.now },
}
