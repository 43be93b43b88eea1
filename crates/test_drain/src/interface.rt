// The interfaces of a pipe, and of a response with one.
use command_compile::compile;
use idl_grammar::{IdlFile, Language};
use nd_base::{MemFiles, Memory};
use nd_types::Interface;
use std::alloc::Global;

const IDL: &[u8] = b"[uuid(11111111-2222-3333-4444-555555555555)] interface t {
  typedef pipe long lp;
  void feed([in] lp d);
}";

const RESPONSE_IDL: &[u8] = b"[uuid(11111111-2222-3333-4444-555555555555)] interface t {
  typedef pipe long lp;
  void r([in] unsigned long n, [out, size_is(n)] byte a[*], [out] lp d);
}";

/// The interface of a pipe.
pub(crate) fn interface(alloc: Global) -> Result<Interface, Memory> {
    compiled(alloc, IDL)
}

/// The interface of a response.
pub(crate) fn response_interface(alloc: Global) -> Result<Interface, Memory> {
    compiled(alloc, RESPONSE_IDL)
}

// The interface of a text. It is out of memory too if the text is not compiled.
fn compiled(alloc: Global, text: &[u8]) -> Result<Interface, Memory> {
    let mut files = MemFiles::new(alloc, &[])?;
    files.add("t.idl", text)?;
    let idl = IdlFile {
        name: "t.idl",
        language: Language::C706,
    };
    match compile(alloc, idl, None, &mut files) {
        Ok(interface) => Ok(interface),
        Err(_) => Err(Memory),
    }
}
