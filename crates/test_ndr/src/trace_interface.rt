// The interface of the worked octets.
use command_compile::compile;
use idl_grammar::{IdlFile, Language};
use nd_base::{MemFiles, Memory};
use nd_types::Interface;
use std::alloc::Global;

// The operations by their numbers: a struct with an array, structs with unions, two full pointers, a pipe.
const IDL: &[u8] = b"[uuid(11111111-2222-3333-4444-555555555555)] interface t {
  typedef struct { short n; [size_is(n)] long a[*]; } s;
  typedef [switch_type(short)] union { [case(1)] long x; [case(2)] ; } u;
  typedef struct { short k; [switch_is(k)] u v; } e;
  typedef pipe long lp;
  void put([in] s *p);
  void choose([in] e a[2]);
  void share([in, ptr] long *p, [in, ptr] short *q);
  void feed([in] lp d);
}";

/// The interface. It is out of memory too if the text is not compiled.
pub(crate) fn interface(alloc: Global) -> Result<Interface, Memory> {
    let mut files = MemFiles::new(alloc, &[])?;
    files.add("t.idl", IDL)?;
    let idl = IdlFile {
        name: "t.idl",
        language: Language::C706,
    };
    match compile(alloc, idl, None, &mut files) {
        Ok(interface) => Ok(interface),
        Err(_) => Err(Memory),
    }
}
