// What is known after a file.
ghost use Rattle.std.specs.Prelude.{◌≡◌, length, IfOk};

use idl_grammar::{Language, Tree};
use idl_lexer::lex;
use idl_names::{Scope, Sources, resolve};
use idl_parser::parse;
use nd_base::{MemFiles, Memory, Octets};
use std::alloc::Global;

/// The tree of a text. It is out of memory too if the text is refused.
pub(crate) fn tree_of(alloc: Global, text: &[u8]) -> Result<Tree, Memory> {
    let Ok(tokens) = lex(alloc, text) else {
        return Err(Memory);
    };
    match parse(alloc, Language::C706, &tokens) {
        Ok(tree) => Ok(tree),
        Err(_) => Err(Memory),
    }
}

/// The texts of a walk, of which one is there.
pub(crate) fn sources_of(alloc: Global, text: &[u8]) -> Result<Sources, Memory>
    ensures { IfOk result (λ sources. length sources ≡ 1) }
{
    let octets = Octets::copy(alloc, text)?;
    let mut sources = Sources::new(alloc);
    let Ok(_) = sources.add("t.idl", octets) else {
        return Err(Memory);
    };
    Ok(sources)
}

/// What is known after a walk. It is out of memory too if the walk is refused.
pub(crate) fn walked(
    alloc: Global,
    files: &mut MemFiles,
    sources: &mut Sources,
    text: &[u8],
) -> Result<Scope, Memory>
    requires { length sources.old ≡ 1 }
{
    let tree = tree_of(alloc, text)?;
    match resolve(alloc, Language::C706, files, sources, tree) {
        Ok(scope) => Ok(scope),
        Err(_) => Err(Memory),
    }
}

/// What is known after a file that imports none.
pub(crate) fn scope_of(alloc: Global, text: &[u8]) -> Result<Scope, Memory> {
    let mut files = MemFiles::new(alloc, &[])?;
    let mut sources = sources_of(alloc, text)?;
    walked(alloc, &mut files, &mut sources, text)
}
