// What the reader answers, by a file that uses every alternative of the language.
use acf_reader::read_acf;
use idl_lexer::lex;
use std::rt::HostRuntime;
use std::test::Fail;

#[test]
fn every_alternative_of_attribute_files_is_read(rt: HostRuntime) -> Result<(), Fail> {
    let tokens = lex(
        rt.alloc(),
        b"[auto_handle, explicit_handle, implicit_handle(handle_t in), implicit_handle(handle encode), code, nocode,
 in_line, out_of_line, enable_allocate, heap, comm_status, fault_status]
interface heap {
  include \"a.h\", \"b.h\";
  typedef [in_line] t;
  typedef [out_of_line, heap] code, handle, include;
  ping();
  [code] add(a, [heap] b, in, [comm_status, fault_status] include);
  include(include);
}",
    )?;
    let file = read_acf(rt.alloc(), &tokens)?;
    assert_eq!(rt; file.body.len(), 6);
    Ok(())
}
