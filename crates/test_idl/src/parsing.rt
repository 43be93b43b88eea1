// What the parser answers, by a file that uses every alternative of the language.
use idl_grammar::Language;
use idl_lexer::lex;
use idl_parser::parse;
use std::test::Fail;

#[test]
fn every_alternative_is_read(rt: HostRuntime) -> Result<(), Fail> {
    let tokens = lex(
        rt.alloc(),
        b"[uuid(11111111-2222-3333-4444-555555555555), version(1.2), endpoint(\"a\", \"b\"), local, pointer_default(ref)]
interface t {
  import \"a.idl\", \"b.idl\";
  import \"c.idl\";
  const long A = 1;
  const char *S = \"x\";
  const void *N = NULL;
  const boolean B = TRUE ? FALSE : !A || A && 2 | 3 ^ 4 & 5 == 6 != 7 < 8 > 9 <= 1 >= 2 << 3 >> 4 + 5 - 6 * 7 / 8 % 9;
  const char C = 'c';
  const unsigned long D = +1 - -(~0x2);
  typedef [ref, string] pipe small unsigned int *p, **q, r[], s[*], u[3], v[0..*], w[0..3];
  typedef unsigned short int x;
  typedef unsigned char y;
  typedef byte z;
  typedef handle_t h;
  typedef [version(1)] hyper i;
  struct st { [size_is(*n)] long a[]; [unique] st *b; [ptr] in *c, d; };
  typedef struct { long a; } st2;
  struct st;
  union un switch (long k) body { case 1: case 2: long a; default: ; };
  typedef union switch (en k) { case 1: [string] char *a; } un1;
  typedef [switch_type(en)] union { [case(1, 2)] long a; [default] ; } un2;
  union un3;
  enum en { X, Y = 3, Z };
  typedef enum { P } en2;
  enum en;
  [idempotent, broadcast, maybe] void op([in] long a, [out, context_handle] void **b);
  void op2(void);
  void op3();
  boolean op4(void *p, [max_is(n), length_is(n), first_is(n), last_is(n), switch_is(n)] un2 q);
  void op5(struct st a, enum en b);
}",
    )?;
    let file = parse(rt.alloc(), Language::C706, &tokens)?;
    assert_eq!(rt; file.exports.len(), 27);
    Ok(())
}
