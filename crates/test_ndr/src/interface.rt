// Interfaces of texts.
use command_compile::compile;
use idl_grammar::{IdlFile, Language};
use nd_base::{MemFiles, Memory};
use nd_types::Interface;
use std::alloc::Global;

/// The interface of a text. It is out of memory too if the text is not compiled.
pub(crate) fn interface(alloc: Global, text: &[u8]) -> Result<Interface, Memory> {
    let mut files = MemFiles::new(alloc, &[])?;
    files.add("t.idl", text)?;
    let idl = IdlFile {
        name: "t.idl",
        language: Language::C706,
    };
    match compile(alloc, idl, None, &mut files) {
        Ok(interface) => Ok(interface),
        Err(_) => Err(Memory),
    }
}
