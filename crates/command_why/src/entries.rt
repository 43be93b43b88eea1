// The text of all entries.

/// The entries, in the order in which they are listed. The first line of each is its name: the words that ask for it. A form feed ends each.
pub const ENTRIES: &str = "\
idl
idl FILE:LINE:COLUMN: WHAT
  The interface file, an import or the ACF has an error. LINE and COLUMN are
  its place in FILE, from 1, columns in octets. One error is reported at a
  time; `dceidl why WHAT` explains it.
    $ echo '[local] interface t { void f([in] n x); }' > t.idl
    $ dceidl compile t.idl -
    idl t.idl:1:35: Unknown n
  Mend it and compile again. Status 6.
\x0c\
TooLong
idl FILE:1:1048577: TooLong
  The text has more than 1,048,576 octets.
    $ head -c 1048577 /dev/zero | tr '\\0' ' ' > t.idl
    $ dceidl compile t.idl -
    idl t.idl:1:1048577: TooLong
  Split the file, and import its parts.

refused: octets at 67108864: TooLong
  The entry is not a gap and would end past the limit of a stream. The limit
  is 67,108,864 octets; a count that is read with the wrong byte order or of
  other octets is the usual cause.
    $ echo '[local] interface t { void f([in, string] char *s); }' > t.idl
    $ printf '\\377\\377\\377\\377\\0\\0\\0\\0\\377\\377\\377\\377' | dceidl decode t.idl - f in little
    refused: octets at 67108864: TooLong
  Check the side, the operation, the byte order, and that the input is stub
  octets alone.

refused: text 1:1: TooLong
refused: given: text 1:1: TooLong
  The text has more than 536,870,912 octets. The text of a request after
  `given` has at most 1,048,576.
    $ echo '[local] interface t { void f([out] long *x); }' > t.idl
    $ head -c 1048577 /dev/zero > request.text
    $ dceidl decode t.idl - f out little given request.text
    refused: given: text 1:1: TooLong
  Write arrays of bytes in version 2, x\"00ff\", which takes less room.

refused: TooLong LENGTH
  The values take LENGTH octets, more than the 67,108,864 of a stream.
  Send the values in several calls. There is no small example.

refused: script TooLong
  The script has more than 1,048,576 octets.
    $ head -c 1048577 /dev/zero | dceidl session
    refused: script TooLong
  Split the script.
\x0c\
BadOctet
idl FILE:LINE:COLUMN: BadOctet
  An octet is not allowed there. Outside comments only ASCII is, and there is
  no preprocessor.
    $ echo '#define N 4' > t.idl
    $ dceidl compile t.idl -
    idl t.idl:1:1: BadOctet
  Run cpp -P over the file first, or write `const long N = 4;` and `import`.
\x0c\
OpenText
idl FILE:LINE:COLUMN: OpenText
  A literal has no end on its line. The place is its opening quote.
    $ echo '[local] interface t { import \"u.idl; }' > t.idl
    $ dceidl compile t.idl -
    idl t.idl:1:30: OpenText
  Close it with the same quote.
\x0c\
OpenComment
idl FILE:LINE:COLUMN: OpenComment
  A comment has no end. The place is its beginning; comments do not nest.
    $ echo '[local] interface t { /* }' > t.idl
    $ dceidl compile t.idl -
    idl t.idl:1:23: OpenComment
  Close it with `*/`.
\x0c\
LongName
idl FILE:LINE:COLUMN: LongName
  A word has more than 31 octets, the most that C706 allows.
    $ echo '[local] interface t { void f([in] long a2345678901234567890123456789012); }' > t.idl
    $ dceidl compile t.idl -
    idl t.idl:1:40: LongName
  Shorten it. Names are not sent, so the octets stay the same.
\x0c\
BadNumber
idl FILE:LINE:COLUMN: BadNumber
  A run that begins with a digit is not a number. Numbers are decimal without
  a leading zero, or 0x and hexadecimal digits, without a suffix.
    $ echo '[local] interface t { const long A = 012; }' > t.idl
    $ dceidl compile t.idl -
    idl t.idl:1:38: BadNumber
  Write 10 or 0xA for 012, and 10 for 10L.
\x0c\
Syntax
idl FILE:LINE:COLUMN: Syntax
  Unexpected token, or unexpected end of file: no file of the language goes on
  there. What is before the place is right, and could go on otherwise. Often
  this is at the place: a word in brackets that is no attribute here; a second
  `[`, where one list with commas is due; `)`, `,` or `;`, where a name is due
  after a type (`int` and `unsigned` alone are none); an operator in
  `size_is(..)`, where a name is due; `const` or `signed` before a type; a
  quote in `uuid(..)`; `import` after a declaration; `typedef` where the file
  must begin with `[`.
    $ echo '[local] interface t { void f([in] long); }' > t.idl
    $ dceidl compile t.idl -
    idl t.idl:1:39: Syntax
  Compare the line with docs/BRINGING-YOUR-IDL.md, which lists what other
  compilers accept, and with the grammar in docs/IDL.md.
\x0c\
Deep
idl FILE:LINE:COLUMN: Deep
  One bracket or one operator too many. At most 64 brackets are open at once,
  and at most 64 operators are in one expression.
    $ echo \"[local] interface t { const long A = $(printf '(%.0s' $(seq 64))1\" > t.idl
    $ dceidl compile t.idl -
    idl t.idl:1:101: Deep
  Name a part of the expression by a constant of its own.
\x0c\
Banned
idl FILE:LINE:COLUMN: Banned WORD
  A word that is banned at that place: a part of C706 that this compiler
  leaves out.
    $ echo '[local] interface t { void f([in] float x); }' > t.idl
    $ dceidl compile t.idl -
    idl t.idl:1:35: Banned float
  Write a type that has the same octets: a long for a float, a hyper for a
  double, an unsigned short for a wchar_t. An attribute as handle is left out.
\x0c\
Unknown
idl FILE:LINE:COLUMN: Unknown NAME
  Undeclared name or tag.
    $ echo '[local] interface t { void f([in] DWORD x); }' > t.idl
    $ dceidl compile t.idl -
    idl t.idl:1:35: Unknown DWORD
  Declare it before its use, as `typedef unsigned long DWORD;`, or import the
  file that does.
\x0c\
Twice
idl FILE:LINE:COLUMN: Twice NAME
  A name or tag that is declared twice in its space. An imported file may have
  the other one.
    $ echo '[local] interface t { enum e { A, A }; }' > t.idl
    $ dceidl compile t.idl -
    idl t.idl:1:35: Twice A
  Rename one of them.
\x0c\
ImportCycle
idl FILE:LINE:COLUMN: ImportCycle
  The imported file is still being walked: it imports itself, directly or
  through others.
    $ echo '[local] interface t { import \"t.idl\"; }' > t.idl
    $ dceidl compile t.idl -
    idl t.idl:1:30: ImportCycle
  Move what both files need into a third, and import that.
\x0c\
TooMany
idl FILE:LINE:COLUMN: TooMany
  It would be the 65th file.
    $ for n in $(seq 64); do echo \"[local] interface u$n { import \\\"u$((n + 1)).idl\\\"; }\" > u$n.idl; done
    $ dceidl compile u1.idl -
    idl u64.idl:1:32: TooMany
  Join files.
\x0c\
OutOfRange
idl FILE:LINE:COLUMN: OutOfRange
  An operator's value, or a shift, is out of range. Values are from -2^63 to
  2^64 - 1, and shifts from 0 to 63.
    $ echo '[local] interface t { const long A = 1 << 64; }' > t.idl
    $ dceidl compile t.idl -
    idl t.idl:1:40: OutOfRange
  Write the number that is meant.
\x0c\
ZeroDivisor
idl FILE:LINE:COLUMN: ZeroDivisor
  A divisor is 0.
    $ echo '[local] interface t { const long A = 5 % 0; }' > t.idl
    $ dceidl compile t.idl -
    idl t.idl:1:40: ZeroDivisor
  Look at the value of the constant after the operator.
\x0c\
NotConst
idl FILE:LINE:COLUMN: NotConst
  A name does not mean a number: it is that of a type, of a string or of NULL.
    $ echo '[local] interface t { typedef long n; const long A = n; }' > t.idl
    $ dceidl compile t.idl -
    idl t.idl:1:54: NotConst
  Name a constant or an enumerator.
\x0c\
NoOperation
idl FILE: NoOperation OP
  The main file has no operation with this name. Operations of imported files
  do not count.
    $ echo '[local] interface t { void g(); }' > t.idl
    $ dceidl decode t.idl - f in little < /dev/null
    idl t.idl: NoOperation f
  `dceidl compile` lists the operations, each with its number. Status 6.

refused: pdu at 22: NoOperation N
  The interface has no operation with the number N, which the request states.
    $ echo '[local] interface t { void f(); }' > t.idl
    $ printf '\\5\\0\\0\\3\\20\\0\\0\\0\\30\\0\\0\\0\\1\\0\\0\\0\\0\\0\\0\\0\\0\\0\\5\\0' | dceidl call t.idl - -
    refused: pdu at 22: NoOperation 5
  Check that the call is of this interface. In a file that has a part of its
  operations, put a plain `void opN();` in the place of each that is left out:
  numbers count operations from 0.
\x0c\
Rule 1
idl FILE:LINE:COLUMN: Rule 1
  Attributes in place: an attribute is only at a place where the table of
  places allows it.
    $ echo '[local] interface t { [in]struct s{long a;}; }' > t.idl
    $ dceidl compile t.idl -
    idl t.idl:1:24: Rule 1
  Move the attribute to where it is allowed: docs/IDL.md, section 10, has a
  table of places. This breaks no rule: `[switch_type(short)]struct s{long
  a;};`
\x0c\
Rule 2
idl FILE:LINE:COLUMN: Rule 2
  No word twice: no attribute word occurs twice in one list.
    $ echo '[local] interface t { void f([in,out,in]long*a); }' > t.idl
    $ dceidl compile t.idl -
    idl t.idl:1:38: Rule 2
  Leave out the second one. This breaks no rule: `void f([in,out]long*a);`
\x0c\
Rule 3
idl FILE:LINE:COLUMN: Rule 3
  Uuid or local: the header of the main file has `uuid` or `local`.
    $ echo '[version(1)] interface t { }' > t.idl
    $ dceidl compile t.idl -
    idl t.idl:1:1: Rule 3
  Give the interface a uuid, or write `local` if it is not called from
  elsewhere.
\x0c\
Rule 4
idl FILE:LINE:COLUMN: Rule 4
  Version numbers: both numbers of a version are at most 65,535.
    $ echo '[local, version(1.65536)] interface t { }' > t.idl
    $ dceidl compile t.idl -
    idl t.idl:1:9: Rule 4
  Use two numbers up to 65,535, as version(1.0). This breaks no rule: `[local,
  version(65535.0xFFFF)] interface t { }`
\x0c\
Rule 5
idl FILE:LINE:COLUMN: Rule 5
  A body: a declaration that ends after its type is that of a struct, union or
  enum with its body.
    $ echo '[local] interface t { long; }' > t.idl
    $ dceidl compile t.idl -
    idl t.idl:1:23: Rule 5
  Give the struct, union or enum its body in braces, or write a typedef. This
  breaks no rule: `enum{A};`
\x0c\
Rule 6
idl FILE:LINE:COLUMN: Rule 6
  `void`: it is only an operation's result, the empty list of parameters, the
  pointee of a context handle, or the type of a `NULL` constant. So a typedef
  that names it breaks the rule.
    $ echo '[local] interface t { typedef void v; }' > t.idl
    $ dceidl compile t.idl -
    idl t.idl:1:23: Rule 6
  Use an array of bytes, or a context handle; a pointer to void alone is not
  sent. This breaks no rule: `typedef [context_handle] void *c;`
\x0c\
Rule 7
idl FILE:LINE:COLUMN: Rule 7
  `handle_t`: it is only the type of a parameter that is only [in], without
  pointer or bound. So a typedef that names it breaks the rule.
    $ echo '[local] interface t { typedef handle_t h; }' > t.idl
    $ dceidl compile t.idl -
    idl t.idl:1:23: Rule 7
  Make the handle a parameter of its own: `[in] handle_t h`. A handle type of
  your own is a plain typedef there. This breaks no rule: `void f([in]handle_t
  h);`
\x0c\
Rule 8
idl FILE:LINE:COLUMN: Rule 8
  Pipes: a pipe is only a parameter's type, or what a reference pointer that
  is a parameter points to. A typedef may name either, and is checked where it
  is used.
    $ echo '[local] interface t { typedef pipe long p; struct s{p a;}; }' > t.idl
    $ dceidl compile t.idl -
    idl t.idl:1:53: Rule 8
  Make the pipe a parameter of the operation. This breaks no rule: `typedef
  pipe long p; void f([in]p a,[out]p b,[in,out]p*c);`
\x0c\
Rule 9
idl FILE:LINE:COLUMN: Rule 9
  `context_handle`: what has this attribute is a context handle: one `*` to
  `void`, or a name for one without `*`.
    $ echo '[local] interface t { typedef[context_handle]long*c; }' > t.idl
    $ dceidl compile t.idl -
    idl t.idl:1:23: Rule 9
  Write `typedef [context_handle] void *NAME;`. This breaks no rule: `typedef
  [context_handle] void *c;`
\x0c\
Rule 10
idl FILE:LINE:COLUMN: Rule 10
  Context handles: a context handle is only a parameter's type, or what a
  reference pointer that is a parameter points to. A typedef may name either,
  and is checked where it is used.
    $ echo '[local] interface t { typedef [context_handle] void *c; struct s{c a;}; }' > t.idl
    $ dceidl compile t.idl -
    idl t.idl:1:66: Rule 10
  Pass the context handle as a parameter, as `[in] c x` or `[out] c *x`; it is
  not a member or an element. A typedef of a pointer to it needs `[ref]`, as
  in `typedef [ref] c *p`. This breaks no rule: `typedef [context_handle] void
  *c; void f([in]c a,[out]c*b);`
\x0c\
Rule 11
idl FILE:LINE:COLUMN: Rule 11
  No type in itself: no struct or union contains itself in place, through
  members, arms and elements; it may contain a pointer to itself. Reported at
  its body.
    $ echo '[local] interface t { struct s{struct s a;}; }' > t.idl
    $ dceidl compile t.idl -
    idl t.idl:1:23: Rule 11
  Put a pointer between: `[ptr] struct s *next`. This breaks no rule: `struct
  s{[ptr]struct s*a;};`
\x0c\
Rule 12
idl FILE:LINE:COLUMN: Rule 12
  Nesting: a path from a type down through members, arms and elements has at
  most 32 types, including that type. Each dimension counts; a text and its
  char count as two, and so do a pipe and its element; a union's tag does not
  count, and after a pointer the count begins again. A struct or union is
  reported at its body, an array, text or pipe at its declarator.
    $ echo \"[local] interface t { typedef long a$(printf '[1]%.0s' $(seq 32)); }\" > t.idl
    $ dceidl compile t.idl -
    idl t.idl:1:23: Rule 12
  Put a pointer somewhere on the way, or join dimensions.
\x0c\
Rule 13
idl FILE:LINE:COLUMN: Rule 13
  Enumerators: the values of enumerators are 0 to 32,767; equal ones are
  allowed. Reported at the enumerator.
    $ echo '[local] interface t { enum{A=32768}; }' > t.idl
    $ dceidl compile t.idl -
    idl t.idl:1:28: Rule 13
  Choose values up to 32,767: enumerated types are sent in two octets. For
  larger ones use a long with constants. This breaks no rule: `enum{A=32767};`
\x0c\
Rule 14
idl FILE:LINE:COLUMN: Rule 14
  Elements: a fixed dimension, also that of a text, has 1 to 16,777,216
  elements. If all dimensions of an array are fixed, their product is in the
  same range, also for an array that is an element.
    $ echo '[local] interface t { typedef long a[0]; }' > t.idl
    $ dceidl compile t.idl -
    idl t.idl:1:23: Rule 14
  Choose a bound from 1 to 16,777,216. For an array without a fixed bound
  write `[*]` and `size_is`. This breaks no rule: `typedef long a[1];`
\x0c\
Rule 15
idl FILE:LINE:COLUMN: Rule 15
  Lower bounds: a lower bound is 0.
    $ echo '[local] interface t { typedef long a[1..2]; }' > t.idl
    $ dceidl compile t.idl -
    idl t.idl:1:23: Rule 15
  Count from 0. This breaks no rule: `typedef long a[0..2];`
\x0c\
Rule 16
idl FILE:LINE:COLUMN: Rule 16
  Several dimensions: if an array has more than one dimension, each is fixed,
  and the array has no `length_is`, `first_is`, `last_is` or `string`. So
  `size_is` or `max_is` on a pointer to a fixed array breaks the rule.
    $ echo '[local] interface t { typedef long a[2][*]; }' > t.idl
    $ dceidl compile t.idl -
    idl t.idl:1:23: Rule 16
  Use one dimension with the product as its size, or fixed bounds. This breaks
  no rule: `typedef long a[2][3];`
\x0c\
Rule 17
idl FILE:LINE:COLUMN: Rule 17
  Elements of arrays: an element does not hoist, and is neither a varying
  array nor a text.
    $ echo '[local] interface t { struct s{long a[*];};typedef struct s t[2]; }' > t.idl
    $ dceidl compile t.idl -
    idl t.idl:1:44: Rule 17
  A type hoists if it is a conformant array or string, or a struct that ends
  with one. Give the elements a fixed size, or make them pointers. This breaks
  no rule: `struct s{long a[4];};typedef struct s t[2];`
\x0c\
Rule 18
idl FILE:LINE:COLUMN: Rule 18
  Members that hoist: a member that hoists is the last of its struct.
    $ echo '[local] interface t { struct s{long n;[size_is(n)]long a[*];long b;}; }' > t.idl
    $ dceidl compile t.idl -
    idl t.idl:1:39: Rule 18
  A member hoists if it is a conformant array or string, or a struct that ends
  with one. Move the conformant array to the end of its struct, or put a
  pointer to it in its place. This breaks no rule: `struct s{long
  n;[size_is(n)]long a[*];};`
\x0c\
Rule 19
idl FILE:LINE:COLUMN: Rule 19
  Arms that hoist: no arm hoists.
    $ echo '[local] interface t { union u switch(long k){default:long a[*];}; }' > t.idl
    $ dceidl compile t.idl -
    idl t.idl:1:54: Rule 19
  An arm hoists if it is a conformant array or string, or a struct that ends
  with one. Give the arm a fixed bound, or make it a pointer to the array.
  This breaks no rule: `union u switch(long k){default:long a[4];};`
\x0c\
Rule 20
idl FILE:LINE:COLUMN: Rule 20
  Elements of pipes: an element is not, and does not contain, a pointer, a
  conformant or varying array, a text, a context handle or a pipe.
    $ echo '[local] interface t { typedef pipe struct{[ptr]long*a;}p; }' > t.idl
    $ dceidl compile t.idl -
    idl t.idl:1:23: Rule 20
  Use a struct of plain values, or an array parameter in place of the pipe.
  This breaks no rule: `typedef pipe struct{long a[2];}p;`
\x0c\
Rule 21
idl FILE:LINE:COLUMN: Rule 21
  Switch types: a switch type is an integer, `char`, `boolean` or an
  enumerated type. Reported at the union's body, or at the declaration with
  the `switch_type`.
    $ echo '[local] interface t { union u switch(byte k){default:;}; }' > t.idl
    $ dceidl compile t.idl -
    idl t.idl:1:23: Rule 21
  Choose an integer type for the tag. This breaks no rule: `union u
  switch(char k){default:;};`
\x0c\
Rule 22
idl FILE:LINE:COLUMN: Rule 22
  Labels: a label is in the range of the switch type, or one of its
  enumerators' values if that is an enumerated type; the labels of a union are
  distinct, and `default` occurs at most once. If a union has no switch type
  (rule 23) only the second half is tried. Reported at the label, or at the
  attribute that has it; if two labels are equal, at the later one.
    $ echo '[local] interface t { union u switch(boolean k){case 2:;}; }' > t.idl
    $ dceidl compile t.idl -
    idl t.idl:1:49: Rule 22
  Mend the label, or choose a wider switch type. A label occurs once. This
  breaks no rule: `union u switch(boolean k){case 1:;};`
\x0c\
Rule 23
idl FILE:LINE:COLUMN: Rule 23
  Cases of a non-encapsulated union: the union has `switch_type` where its
  body is, in a typedef or a declaration of its own, and each of its arms has
  `case` or `default`, but not both. The first part is reported at the body,
  the second at the arm.
    $ echo '[local] interface t { union u{[default];}; }' > t.idl
    $ dceidl compile t.idl -
    idl t.idl:1:23: Rule 23
  Write `switch_type(T)` before the union, and `[case(N)]` or `[default]`
  before each arm. This breaks no rule: `[switch_type(long)]union
  u{[default];};`
\x0c\
Rule 24
idl FILE:LINE:COLUMN: Rule 24
  Uses of non-encapsulated unions: a non-encapsulated union is used only by a
  member or parameter that has `switch_is`: as its type, or as what its
  outermost pointer points to. A typedef may name either, and is checked where
  it is used. So such a union cannot be the type of an array's or pipe's
  elements, of an arm or a result, or of what a second pointer points to.
    $ echo '[local] interface t { typedef [switch_type(long)] union { [default]; } u; void f([in]u a); }' > t.idl
    $ dceidl compile t.idl -
    idl t.idl:1:82: Rule 24
  Give the member or parameter `switch_is(TAG)`, or use a union with its own
  tag: `union u switch (long k) { .. }`. This breaks no rule: `typedef
  [switch_type(long)] union { [default]; } u; void f([in]long
  k,[in,switch_is(k)]u a);`
\x0c\
Rule 25
idl FILE:LINE:COLUMN: Rule 25
  `switch_is`: it is only on a member or parameter whose type is, or points
  to, a non-encapsulated union (rule 24); an encapsulated union has a tag of
  its own and takes none. Its variable, if that is in the list of members or
  parameters, is an integer, `char`, `boolean` or enumerated type, or, with
  `*`, a parameter that is a reference pointer to one of these.
    $ echo '[local] interface t { struct s{long k;[switch_is(k)]long a;}; }' > t.idl
    $ dceidl compile t.idl -
    idl t.idl:1:39: Rule 25
  Leave it out, or make the type a union that has `switch_type`. The tag is
  another member or parameter. This breaks no rule: `typedef
  [switch_type(long)] union { [default]; } u; struct s{long k;[switch_is(k)]u
  a;};`
\x0c\
Rule 26
idl FILE:LINE:COLUMN: Rule 26
  Classes on pointers: at most one class (`ref`, `unique`, `ptr`) is in a
  list, and only on a pointer that is not a context handle. On an array of
  pointers the class applies to the array, and so is refused; an empty arm has
  no class.
    $ echo '[local] interface t { typedef[ref]long a; }' > t.idl
    $ dceidl compile t.idl -
    idl t.idl:1:23: Rule 26
  Keep one class, on the pointer itself. This breaks no rule:
  `typedef[ref]long*a;`
\x0c\
Rule 27
idl FILE:LINE:COLUMN: Rule 27
  A class for each pointer: a pointer without a class has the pointer_default
  of the file in which its `*` is written (if there is none it is refused),
  unless it is the outermost `*` of a parameter's own type, a context handle,
  or the `*` of a constant. A `*` in an array parameter is no exception.
    $ echo '[local] interface t { typedef long*a; }' > t.idl
    $ dceidl compile t.idl -
    idl t.idl:1:23: Rule 27
  Write a class (`[ref]`, `[unique]` or `[ptr]`), or `pointer_default(unique)`
  in the header, which is what MIDL assumes. This breaks no rule: `void
  f([in]long*a);`
\x0c\
Rule 28
idl FILE:LINE:COLUMN: Rule 28
  No pointer to a reference pointer: no pointer points to a reference pointer.
    $ echo '[local] interface t { typedef[ref]long*a;typedef[ptr]a*b; }' > t.idl
    $ dceidl compile t.idl -
    idl t.idl:1:42: Rule 28
  Make the inner pointer unique. This breaks no rule:
  `typedef[ptr]long*a;typedef[ptr]a*b;`
\x0c\
Rule 29
idl FILE:LINE:COLUMN: Rule 29
  [out] pointers: a pointer parameter that is only [out] is a reference
  pointer; context handles are not pointers here.
    $ echo '[local] interface t { void f([out,ptr]long*a); }' > t.idl
    $ dceidl compile t.idl -
    idl t.idl:1:30: Rule 29
  Leave the class out: the pointer of an [out] parameter is a reference
  pointer. To send null back, use a pointer to a unique pointer, by a typedef.
  This breaks no rule: `void f([in,out,ptr]long*a);`
\x0c\
Rule 30
idl FILE:LINE:COLUMN: Rule 30
  Directions: each parameter has `in` or `out`, or both.
    $ echo '[local] interface t { void f(long a); }' > t.idl
    $ dceidl compile t.idl -
    idl t.idl:1:30: Rule 30
  Write [in], [out] or [in, out] before the parameter. This breaks no rule:
  `void f([in]long a);`
\x0c\
Rule 31
idl FILE:LINE:COLUMN: Rule 31
  [out] parameters: an [out] or [in, out] parameter is an array, a text, a
  pipe, or a pointer that is not a context handle.
    $ echo '[local] interface t { void f([out]long a); }' > t.idl
    $ dceidl compile t.idl -
    idl t.idl:1:30: Rule 31
  Write a `*`, as `[out] long *x`. This breaks no rule: `void f([out]long
  a[2]);`
\x0c\
Rule 32
idl FILE:LINE:COLUMN: Rule 32
  Results: an operation's result is `void`, a primitive or an enumerated type.
    $ echo '[local] interface t { typedef long a[2];a f(); }' > t.idl
    $ dceidl compile t.idl -
    idl t.idl:1:41: Rule 32
  Return it by an [out] parameter. This breaks no rule: `typedef long a;a
  f();`
\x0c\
Rule 33
idl FILE:LINE:COLUMN: Rule 33
  `string`: it is only on an array of `char` or `byte` or on a pointer to
  `char` or `byte`, without `length_is`, `first_is`, `last_is` or `any_length`.
  On a text, and on a pointer to a conformant text, it changes nothing; a
  pointer to an array or to a text with a fixed bound breaks the rule. An empty
  arm has no `string`.
    $ echo '[local] interface t { typedef[string]long a[2]; }' > t.idl
    $ dceidl compile t.idl -
    idl t.idl:1:23: Rule 33
  Put it on an array or pointer of char or byte. For a pointer to a string
  name the string by a typedef. Wide strings are arrays of unsigned short with
  counts. This breaks no rule: `typedef[string]byte a[2];`
\x0c\
Rule 34
idl FILE:LINE:COLUMN: Rule 34
  `size_is`, `max_is`, `any_size`: they are only on a conformant array or text,
  or on a pointer that is not a context handle, and no two of them on one. A
  member or parameter whose own type is a conformant array has one of them; a
  conformant text needs neither.
    $ echo '[local] interface t { void f([in]long a[*]); }' > t.idl
    $ dceidl compile t.idl -
    idl t.idl:1:30: Rule 34
  Name a variable that holds the count: `[size_is(n)] long a[*]`. A fixed
  array needs none. This breaks no rule: `void f([in,max_is(n)]long
  a[*],[in]long n);`
\x0c\
Rule 35
idl FILE:LINE:COLUMN: Rule 35
  `length_is`, `first_is`, `last_is`, `any_length`: they are only on an array
  that is not a text, or on a pointer with `size_is`, `max_is` or `any_size`
  that does not point to a text; `length_is` and `last_is` are not both there,
  and `any_length` is with none of the others.
    $ echo '[local] interface t { struct s{long n;[length_is(n)]long a;}; }' > t.idl
    $ dceidl compile t.idl -
    idl t.idl:1:39: Rule 35
  Put it on an array, or on a pointer that has `size_is`. This breaks no rule:
  `struct s{long n;[length_is(n)]long a[2];};`
\x0c\
Rule 36
idl FILE:LINE:COLUMN: Rule 36
  Variables: the variable of `size_is`, `max_is`, `length_is`, `first_is`,
  `last_is` and `switch_is` is another member of the struct, or another
  parameter of the operation.
    $ echo '[local] interface t { struct s{[size_is(n)]long a[*];}; }' > t.idl
    $ dceidl compile t.idl -
    idl t.idl:1:32: Rule 36
  Name another member of the same struct, or another parameter of the same
  operation; it may be of the other side. This breaks no rule: `struct s{long
  n;[size_is(n)]long a[*];};`
\x0c\
Rule 37
idl FILE:LINE:COLUMN: Rule 37
  Integer variables: the variable of `size_is`, `max_is`, `first_is`,
  `length_is` and `last_is`, if that is in the list of members or parameters,
  is an integer (`small` to `hyper`, signed or not), or, with `*`, a parameter
  that is a reference pointer to an integer.
    $ echo '[local] interface t { struct s{char n;[size_is(n)]long a[*];}; }' > t.idl
    $ dceidl compile t.idl -
    idl t.idl:1:39: Rule 37
  Make the variable an integer, as `unsigned small` for an unsigned char. With
  `*` it is a parameter that is a reference pointer; where MIDL has a unique
  one, name a parameter of the other side (docs/BRINGING-YOUR-IDL.md). This
  breaks no rule: `struct s{small n;[size_is(n)]long a[*];};`
\x0c\
Rule 38
idl FILE:LINE:COLUMN: Rule 38
  Constants: a constant without `*` is a number in the range of its type (0
  and 1 for `boolean`, 0 to 255 for `char` and `byte`); one with `*` is a
  String of type `char *`, or `NULL` of type `void *`.
    $ echo '[local] interface t { const char A=256; }' > t.idl
    $ dceidl compile t.idl -
    idl t.idl:1:23: Rule 38
  Choose a type that has the value, as `unsigned long`. This breaks no rule:
  `const char A=255;`
\x0c\
Rule 39
idl FILE:LINE:COLUMN: Rule 39
  Counts: at most 4,096 types (numbers 0 to 11 included, used or not), 1,024
  operations, 256 parameters of one operation, and 67,108,864 members of
  structs and arms of unions in all; each label, and each `default`, counts as
  an arm. Reported at the construct with the first one that exceeds the limit:
  for types, the construct at which the 4,097th type gets its number, which
  may begin after the construct of a later type; for a label, its union. A
  file of 1 MiB has no room for so many members and arms, so only files with
  imports can reach that limit.
    $ (echo \"[local] interface t {\"; for n in $(seq 1025); do echo \"void f$n();\"; done; echo \"}\") > t.idl
    $ dceidl compile t.idl -
    idl t.idl:1026:1: Rule 39
  Split the interface.
\x0c\
Rule 40
idl FILE:LINE:COLUMN: Rule 40
  Attribute files: the interface, types, operations and parameters that the
  attribute configuration file names are those of the IDL, and its attributes
  are where they are allowed. Reported under that file's name; `docs/ACF.md`
  has the places.
    $ echo '[local] interface t { }' > t.idl
    $ echo 'interface u { }' > t.acf
    $ dceidl compile t.idl t.acf
    idl t.acf:1:1: Rule 40
  Name what the IDL file declares, and put the attribute where docs/ACF.md
  allows it.
\x0c\
octets
refused: octets at PLACE: REASON
  The octets of the input represent no values of the operation. PLACE is an
  offset in octets, from 0, after a format label.
    $ echo '[local] interface t { void f([in] long x); }' > t.idl
    $ printf '\\1\\0' | dceidl decode t.idl - f in little
    refused: octets at 2: Truncated
  Check the side, the operation and the byte order, and that the input is stub
  octets alone and not hexadecimal digits. `dceidl why REASON` explains the
  reason. Status 1.
\x0c\
Truncated
refused: octets at PLACE: Truncated
  The octets end before the entry is whole. PLACE is the number of octets.
  Where the input is long enough, a count before it was too large.
    $ echo '[local] interface t { void f([in] long x); }' > t.idl
    $ printf '\\1\\0' | dceidl decode t.idl - f in little
    refused: octets at 2: Truncated
  Check that no fragment is missing, and the byte order, the side and the
  operation. `dceidl trace` shows what was read before.

refused: label: Truncated
  Fewer than four octets came, with ORDER `label`.
    $ echo '[local] interface t { void f(); }' > t.idl
    $ printf '\\20\\0' | dceidl decode t.idl - f in label
    refused: label: Truncated
  Write `little` or `big` if there is no format label before the octets.
\x0c\
EnumValue
refused: octets at PLACE: EnumValue
  A number or tag of an enumerated type is not one of the enumerators.
    $ echo '[local] interface t { typedef enum { A, B } e; void f([in] e x); }' > t.idl
    $ printf '\\5\\0' | dceidl decode t.idl - f in little
    refused: octets at 0: EnumValue
  If the number is right, add an enumerator to the file. An enumerated type
  has two octets here; one that MIDL calls v1_enum is a long.
\x0c\
NoArm
refused: octets at PLACE: NoArm
  A tag selects no arm, and there is no default. PLACE is that of the tag.
    $ echo '[local] interface t { typedef union switch (long k) { case 1: long a; } u; void f([in] u x); }' > t.idl
    $ printf '\\3\\0\\0\\0' | dceidl decode t.idl - f in little
    refused: octets at 0: NoArm
  If the tag is right, the file lacks an arm. If it is odd, what is before it
  was read wrongly: a pointer of a typedef that MIDL makes a reference pointer
  needs `ref` (docs/BRINGING-YOUR-IDL.md).

refused: value at PATH: NoArm
  The tag selects no arm, and there is no default.
    $ echo '[local] interface t { typedef union switch (long k) { case 1: long a; } u; void f([in] u x); }' > t.idl
    $ printf 'values 2 op f in x = 3:void' | dceidl migrate t.idl - f in
    refused: value at x: NoArm
  Write the tag of an arm.
\x0c\
TextOffset
refused: octets at PLACE: TextOffset
  The offset of a string is not 0. What is read there is mostly no string:
  hexadecimal digits on the input, fragments twice, or another operation.
    $ echo '[local] interface t { void f([in, string] char *s); }' > t.idl
    $ printf '\\2\\0\\0\\0\\1\\0\\0\\0\\2\\0\\0\\0a\\0' | dceidl decode t.idl - f in little
    refused: octets at 4: TextOffset
  Check that the input is stub octets alone.
\x0c\
TextEmpty
refused: octets at PLACE: TextEmpty
  The actual count of a string is 0: not even its terminator is there.
    $ echo '[local] interface t { void f([in, string] char *s); }' > t.idl
    $ printf '\\2\\0\\0\\0\\0\\0\\0\\0\\0\\0\\0\\0' | dceidl decode t.idl - f in little
    refused: octets at 8: TextEmpty
  If the sender does not end its strings, declare an array of char with
  counts.
\x0c\
PastBound
refused: octets at PLACE: PastBound
  The sum of offset and actual count is more than the bound, or more than the
  maximum count if there is no bound. PLACE is that of the actual count.
    $ echo '[local] interface t { void f([in, string] char *s); }' > t.idl
    $ printf '\\2\\0\\0\\0\\0\\0\\0\\0\\3\\0\\0\\0abc' | dceidl decode t.idl - f in little
    refused: octets at 8: PastBound
  Compare the three numbers before the elements with the declaration.
\x0c\
TextZero
refused: octets at PLACE: TextZero
  An octet of a string before the last is zero. PLACE is the first such octet.
    $ echo '[local] interface t { void f([in, string] char *s); }' > t.idl
    $ printf '\\4\\0\\0\\0\\0\\0\\0\\0\\4\\0\\0\\0a\\0b\\0' | dceidl decode t.idl - f in little
    refused: octets at 13: TextZero
  A wide string has two octets for each letter: declare an array of unsigned
  short with counts.
\x0c\
TextUnended
refused: octets at PLACE: TextUnended
  The last octet of a string is not zero.
    $ echo '[local] interface t { void f([in, string] char *s); }' > t.idl
    $ printf '\\2\\0\\0\\0\\0\\0\\0\\0\\2\\0\\0\\0ab' | dceidl decode t.idl - f in little
    refused: octets at 13: TextUnended
  If the sender does not end its strings, declare an array of char with
  counts.
\x0c\
OtherType
refused: octets at PLACE: OtherType
  The number of a full pointer is not 0, and an earlier full pointer has this
  number and a different type of referent. PLACE is that of the later number.
    $ echo '[local] interface t { void f([in, ptr] long *a, [in, ptr] short *b); }' > t.idl
    $ printf '\\1\\0\\0\\0\\7\\0\\0\\0\\1\\0\\0\\0' | dceidl decode t.idl - f in little
    refused: octets at 8: OtherType
  If the sender gives several pointers the same number, make them unique.
\x0c\
Disagrees
refused: octets at PLACE: Disagrees wanted W found F
  An agreement does not hold: an attribute states another count or tag. W is
  what its variable states, and F is what was found at PLACE.
    $ echo '[local] interface t { void f([in] long n, [in, size_is(n)] byte d[*]); }' > t.idl
    $ printf '\\3\\0\\0\\0\\2\\0\\0\\0ab' | dceidl decode t.idl - f in little
    refused: octets at 4: Disagrees wanted 3 found 2
  `dceidl trace` names the array, string or union and the variable that
  states another number. `max_is(n)` states n + 1 elements, and `last_is(n)`
  ends at n.

refused: value at PATH: Disagrees wanted W found F
  An attribute states another count or tag.
    $ echo '[local] interface t { void f([in] long n, [in, size_is(n)] byte d[*]); }' > t.idl
    $ printf 'values 2 op f in n = 3 d = x\"0102\"' | dceidl migrate t.idl - f in
    refused: value at d: Disagrees wanted 3 found 2
  Make the variable and the number of elements agree.
\x0c\
Trailing
refused: octets at PLACE: Trailing
  An octet follows the last value. PLACE is the number of octets that the
  values take.
    $ echo '[local] interface t { void f([in] long x); }' > t.idl
    $ printf '\\1\\0\\0\\0\\0' | dceidl decode t.idl - f in little
    refused: octets at 4: Trailing
  Cut off what is no stub data: padding, the security trailer, or the
  verification trailer of Windows, which begins with 8a e3 13 71 02 f4 36 71.
  Else the file lacks a parameter.

refused: pdu at PLACE: Trailing
  An octet follows the last fragment.
    $ echo '[local] interface t { void f(); }' > t.idl
    $ printf '\\5\\0\\0\\3\\20\\0\\0\\0\\30\\0\\0\\0\\1\\0\\0\\0\\0\\0\\0\\0\\0\\0\\0\\0\\0' | dceidl call t.idl - -
    refused: pdu at 24: Trailing
  Give the PDUs of one request or response at a time.
\x0c\
label
refused: label: REASON
  The format label, four octets before the others with ORDER `label`, is not
  one.
    $ echo '[local] interface t { void f(); }' > t.idl
    $ printf '\\20\\0' | dceidl decode t.idl - f in label
    refused: label: Truncated
  Write `little` or `big` if there is no format label before the octets.
  Status 1.
\x0c\
BadOrder
refused: label: BadOrder
  The high half of octet 0 is neither 0, big endian, nor 1, little endian.
    $ echo '[local] interface t { void f(); }' > t.idl
    $ printf '\\40\\0\\0\\0' | dceidl decode t.idl - f in label
    refused: label: BadOrder
  Write `little` or `big` if there is no format label before the octets.
\x0c\
Ebcdic
refused: label: Ebcdic
  The low half of octet 0 is 1: characters are in EBCDIC, which is not read.
    $ echo '[local] interface t { void f(); }' > t.idl
    $ printf '\\21\\0\\0\\0' | dceidl decode t.idl - f in label
    refused: label: Ebcdic
  Write `little` or `big`, and convert the strings of the text.
\x0c\
BadCharset
refused: label: BadCharset
  The low half of octet 0 is neither 0, ASCII, nor 1, EBCDIC.
    $ echo '[local] interface t { void f(); }' > t.idl
    $ printf '\\22\\0\\0\\0' | dceidl decode t.idl - f in label
    refused: label: BadCharset
  Write `little` or `big` if there is no format label before the octets.
\x0c\
TooFewEnds
refused: TooFewEnds wanted W found F
  The side has W pipes, more than the F files.
    $ echo '[local] interface t { typedef pipe byte p;' > t.idl
    $ echo 'void f([in] p a, [in] p b, [in] p c, [in] p d, [in] p e,' >> t.idl
    $ echo '[in] p g, [in] p h, [in] p i, [in] p j); }' >> t.idl
    $ dceidl drain t.idl - f in little < /dev/null
    refused: TooFewEnds wanted 9 found 8
  Use `decode`, which reads any number of pipes.
\x0c\
pdu
refused: pdu at PLACE: REASON
  The octets are not the PDUs of one request or response. PLACE is an offset
  in octets from the first fragment.
    $ echo '[local] interface t { void f(); }' > t.idl
    $ printf '\\5\\0\\0' | dceidl call t.idl - -
    refused: pdu at 3: Short
  Give whole PDUs of one call: of a request with OP `-`, or of a response with
  its operation. Status 1.
\x0c\
Short
refused: pdu at PLACE: Short
  The input ends too early: the next fragment is not whole, or the last one is
  missing.
    $ echo '[local] interface t { void f(); }' > t.idl
    $ printf '\\5\\0\\0' | dceidl call t.idl - -
    refused: pdu at 3: Short
  Append the other fragments of the call.
\x0c\
Version
refused: pdu at PLACE: Version
  The major version is not 5.
    $ echo '[local] interface t { void f(); }' > t.idl
    $ printf '\\4\\0\\0\\3\\20\\0\\0\\0\\30\\0\\0\\0\\1\\0\\0\\0' | dceidl call t.idl - -
    refused: pdu at 0: Version
  Check that the octets begin with a PDU of DCE RPC over a connection.
\x0c\
Kind
refused: pdu at PLACE: Kind
  The PDU is of another type: a request has 0, and a response 2.
    $ echo '[local] interface t { void f(); }' > t.idl
    $ printf '\\5\\0\\2\\3\\20\\0\\0\\0\\30\\0\\0\\0\\1\\0\\0\\0' | dceidl call t.idl - -
    refused: pdu at 2: Kind
  Name the operation to read a response, and write `-` to read a request.
  Other PDUs, as a bind or a fault, have no values.
\x0c\
Flags
refused: pdu at PLACE: Flags
  The flag of a first fragment is in the middle, or is missing at the first.
    $ echo '[local] interface t { void f(); }' > t.idl
    $ printf '\\5\\0\\0\\2\\20\\0\\0\\0\\30\\0\\0\\0\\1\\0\\0\\0' | dceidl call t.idl - -
    refused: pdu at 3: Flags
  Begin with the first fragment, and give one call at a time.
\x0c\
Label
refused: pdu at PLACE: Label
  The format label of a fragment is refused: its byte order is neither little
  nor big, or its characters are not ASCII.
    $ echo '[local] interface t { void f(); }' > t.idl
    $ printf '\\5\\0\\0\\3\\40\\0\\0\\0\\30\\0\\0\\0\\1\\0\\0\\0' | dceidl call t.idl - -
    refused: pdu at 4: Label
  Check that the octets begin with a PDU.
\x0c\
OtherOrder
refused: pdu at PLACE: OtherOrder
  A fragment has another byte order than the first.
    $ echo '[local] interface t { void f(); }' > t.idl
    $ printf '\\5\\0\\0\\1\\20\\0\\0\\0\\31\\0\\0\\0\\1\\0\\0\\0\\0\\0\\0\\0\\0\\0\\0\\0\\7' > pdus
    $ printf '\\5\\0\\0\\2\\0\\0\\0\\0\\0\\31\\0\\0\\0\\0\\0\\1\\0\\0\\0\\0\\0\\0\\0\\0\\7' >> pdus
    $ dceidl call t.idl - - < pdus
    refused: pdu at 29: OtherOrder
  Give the fragments of one call, and all in one direction.
\x0c\
Length
refused: pdu at PLACE: Length
  The fragment length is less than that of the header.
    $ echo '[local] interface t { void f(); }' > t.idl
    $ printf '\\5\\0\\0\\3\\20\\0\\0\\0\\7\\0\\0\\0\\1\\0\\0\\0' | dceidl call t.idl - -
    refused: pdu at 8: Length
  Check that the octets begin with a PDU.
\x0c\
Auth
refused: pdu at PLACE: Auth
  A fragment has authentication data, which is not read.
    $ echo '[local] interface t { void f(); }' > t.idl
    $ printf '\\5\\0\\0\\3\\20\\0\\0\\0\\40\\0\\10\\0\\1\\0\\0\\0' | dceidl call t.idl - -
    refused: pdu at 10: Auth
  Take the stub data out of the PDUs, as docs/FROM-A-CAPTURE.md shows, and use
  `decode`.
\x0c\
OtherCall
refused: pdu at PLACE: OtherCall
  A fragment has another call id than the first.
    $ echo '[local] interface t { void f(); }' > t.idl
    $ printf '\\5\\0\\0\\1\\20\\0\\0\\0\\31\\0\\0\\0\\1\\0\\0\\0\\0\\0\\0\\0\\0\\0\\0\\0\\7' > pdus
    $ printf '\\5\\0\\0\\2\\20\\0\\0\\0\\31\\0\\0\\0\\2\\0\\0\\0\\0\\0\\0\\0\\0\\0\\0\\0\\7' >> pdus
    $ dceidl call t.idl - - < pdus
    refused: pdu at 37: OtherCall
  Select the PDUs of one call id.
\x0c\
OtherOperation
refused: pdu at PLACE: OtherOperation
  A fragment of a request has another operation number than the first.
    $ echo '[local] interface t { void f(); }' > t.idl
    $ printf '\\5\\0\\0\\1\\20\\0\\0\\0\\31\\0\\0\\0\\1\\0\\0\\0\\0\\0\\0\\0\\0\\0\\0\\0\\7' > pdus
    $ printf '\\5\\0\\0\\2\\20\\0\\0\\0\\31\\0\\0\\0\\1\\0\\0\\0\\0\\0\\0\\0\\0\\0\\1\\0\\7' >> pdus
    $ dceidl call t.idl - - < pdus
    refused: pdu at 47: OtherOperation
  Select the PDUs of one connection: call ids repeat over connections.
\x0c\
EmptyPiece
refused: pdu at PLACE: EmptyPiece
  There is no stub data in a fragment before the last.
    $ echo '[local] interface t { void f(); }' > t.idl
    $ printf '\\5\\0\\0\\1\\20\\0\\0\\0\\30\\0\\0\\0\\1\\0\\0\\0\\0\\0\\0\\0\\0\\0\\0\\0' | dceidl call t.idl - -
    refused: pdu at 8: EmptyPiece
  Leave the empty fragment out.
\x0c\
StubLong
refused: pdu at PLACE: StubLong
  The stub data would have more than the 67,108,864 octets of a stream.
  Send the values in several calls. There is no small example.
\x0c\
text
refused: text LINE:COLUMN: REASON
  The text is not one of the operation and side. LINE and COLUMN are the place
  of the first wrong token, or of the end. They count from 1, columns in
  octets.
    $ echo '[local] interface t { void f([in] long a); }' > t.idl
    $ printf 'values 2 op f in a 1' | dceidl encode t.idl - f in little 1
    refused: text 1:20: Expected
  `dceidl decode` prints such texts, and docs/TEXT.md has a form for each
  type. Status 1.
\x0c\
given
refused: given: text LINE:COLUMN: REASON
refused: given: value at PATH: REASON
  The file TEXT after `given` is not the text of a request of the operation,
  or its values do not conform.
    $ echo '[local] interface t { void f([in] long a); }' > t.idl
    $ printf 'values 2 op f in a 1' > request.text
    $ dceidl decode t.idl - f out little given request.text
    refused: given: text 1:20: Expected
  Save what `decode` prints of the request with SIDE `in`, and name that file.
  Status 1.
\x0c\
BadToken
refused: text LINE:COLUMN: BadToken
  No token begins there, whatever is expected.
    $ echo '[local] interface t { void f([in] long a); }' > t.idl
    $ printf 'values 2 op f in a = 01' | dceidl migrate t.idl - f in
    refused: text 1:22: BadToken
  Numbers are decimal, without a leading zero or a sign other than `-`. There
  are no comments.
\x0c\
OtherName
refused: text LINE:COLUMN: OtherName
  There is a word, but it is not the expected name of the operation, the side,
  the root or the member. Due are, in this order: OP and SIDE of the command;
  the parameters of the side as they are declared, and for `out` then `return`;
  within braces the members as they are declared.
    $ echo '[local] interface t { void f([in] long a); }' > t.idl
    $ printf 'values 2 op g in a = 1' | dceidl migrate t.idl - f in
    refused: text 1:13: OtherName
  Write all roots of the side in the order of the declaration, and all members
  of a struct in theirs.
\x0c\
OutOfOrder
refused: text LINE:COLUMN: OutOfOrder
  After all roots a line begins with a cell whose number is not the next one.
    $ echo '[local] interface t { void f([in] long a); }' > t.idl
    $ printf 'values 2 op f in a = 1 @2 = 3' | dceidl migrate t.idl - f in
    refused: text 1:24: OutOfOrder
  Number the cells from 1, and write their lines in this order.
\x0c\
Unnamed
refused: text LINE:COLUMN: Unnamed
  After all roots a line begins with the cell that has the next number, but no
  pointer before it names this cell.
    $ echo '[local] interface t { void f([in] long *r); }' > t.idl
    $ printf 'values 2 op f in r = null @1 = 3' | dceidl migrate t.idl - f in
    refused: text 1:27: Unnamed
  Write the number of the cell where a pointer is to name it, or leave its
  line out. A union whose tag has no arm names none.
\x0c\
Expected
refused: text LINE:COLUMN: Expected
  Anything else: the grammar needs a different token there, or the end, or
  goes on after the end.
    $ echo '[local] interface t { void f([in] long a); }' > t.idl
    $ printf 'values 2 op f in a 1' | dceidl migrate t.idl - f in
    refused: text 1:20: Expected
  Look up the form of the value's type in docs/TEXT.md: `name = value`, `{a =
  1, b = 2}`, `[1, 2]`, `TAG:value`, `MAXIMUM:\"text\"`, `@1`, `null`.
\x0c\
value
refused: value at PATH: REASON
  The values of the text do not conform to their types and attributes. PATH is
  a parameter, `return` or a cell `@k`, then `.NAME` for each member and arm
  and `[I]` for each element on the way to the value.
    $ echo '[local] interface t { void f([in] short a); }' > t.idl
    $ printf 'values 2 op f in a = 40000' | dceidl encode t.idl - f in little 1
    refused: value at a: Range
  Mend the value at PATH. Status 1.
\x0c\
Range
refused: value at PATH: Range
  A number or a tag is not in its type, or is no enumerator.
    $ echo '[local] interface t { void f([in] short a); }' > t.idl
    $ printf 'values 2 op f in a = 40000' | dceidl migrate t.idl - f in
    refused: value at a: Range
  Choose a number of the type; of an enumerated type that of an enumerator.
\x0c\
NullRef
refused: value at PATH: NullRef
  A reference pointer is null.
    $ echo '[local] interface t { void f([in] long *a); }' > t.idl
    $ printf 'values 2 op f in a = null' | dceidl migrate t.idl - f in
    refused: value at a: NullRef
  Name a cell, or declare the pointer `[unique]`.
\x0c\
NoCell
refused: value at PATH: NoCell
  A pointer names a cell that has no line.
    $ echo '[local] interface t { void f([in] long *a); }' > t.idl
    $ printf 'values 2 op f in a = @1' | dceidl migrate t.idl - f in
    refused: value at a: NoCell
  Add the line `@1 = value`.
\x0c\
CellType
refused: value at PATH: CellType
  A pointer names a cell of another type.
    $ echo '[local] interface t { void f([in, ptr] long *a, [in, ptr] short *b); }' > t.idl
    $ printf 'values 2 op f in a = @1 b = @1 @1 = 5' | dceidl migrate t.idl - f in
    refused: value at b: CellType
  Give it a cell of its own. The first pointer that names a cell gives the
  cell its type.
\x0c\
Bound
refused: value at PATH: Bound
  A fixed array has another number of elements; offset and elements end past
  the maximum count; a string has no room for its terminator.
    $ echo '[local] interface t { void f([in] long a[2]); }' > t.idl
    $ printf 'values 2 op f in a = [1]' | dceidl migrate t.idl - f in
    refused: value at a: Bound
  Write as many elements as the array has, or a larger maximum count.
\x0c\
Zero
refused: value at PATH: Zero
  A string has a zero octet inside.
    $ echo '[local] interface t { void f([in, string] char a[16]); }' > t.idl
    $ printf 'values 2 op f in a = \"h\\\\x00\"' | dceidl migrate t.idl - f in
    refused: value at a: Zero
  The terminator is not written; an octet 0 in the middle needs an array.
\x0c\
Shared
refused: value at PATH: Shared
  A cell is named by two pointers that are not both full.
    $ echo '[local] interface t { void f([in, unique] long *a, [in, unique] long *b); }' > t.idl
    $ printf 'values 2 op f in a = @1 b = @1 @1 = 5' | dceidl migrate t.idl - f in
    refused: value at b: Shared
  Write a cell for each pointer, or declare both `[ptr]`.
\x0c\
Shape
refused: value at PATH: Shape
  A value has another form than its type. No text that is read has such a
  value: this is for callers of the library.
  Use the form of the type.
\x0c\
Unreached
refused: value at PATH: Unreached
  No pointer leads to a cell. No text that is read has such a cell: this is
  for callers of the library.
  Leave the cell out.
\x0c\
absent
absent: FILE
  There is no such file. Names of imports are looked for from the current
  folder, and not from that of the file that imports them.
    $ dceidl compile t.idl -
    absent: t.idl
  Change into the folder that the names begin at, or write the import's name
  from the current one. Status 7.
\x0c\
file fault
file fault: FILE
  The file cannot be read: it is a folder, or its rights forbid it.
    $ mkdir t.idl
    $ dceidl compile t.idl -
    file fault: t.idl
  Check the name and the rights. Status 9.
\x0c\
words refused
words refused
  The command line is not valid. A word is missing, one too many, or one of
  `in`, `out`, `little`, `big`, `label`, `given`, `-` or a number is written
  otherwise; numbers are plain decimal digits. SIDE of `given` is `out`. CHUNK
  is 1 to 16777216, CALL and SEED 0 to 4294967295, MAX 1024 to 65535, COUNT 1
  to 1000000. `windows` is only before a command that names interface files.
    $ dceidl wrap t.idl - f in little 1 256
    words refused
  `dceidl help wrap` shows which words `wrap` takes, and so for each command.
  Status 2.
\x0c\
read fault
read fault
  Standard input failed.
    $ echo '[local] interface t { void f([in] long x); }' > t.idl
    $ dceidl decode t.idl - f in little < .
    read fault
  Name a file after `<`, and no folder. Status 3.
\x0c\
write fault
write fault
  Standard output or standard error failed; there is no line if standard error
  failed. This status replaces any other.
    $ dceidl --help > /dev/full
    write fault
  Look at the disk, and at what reads the output: a pipe to `head` ends early.
  Status 4.
\x0c\
want of memory
want of memory
  Out of memory; there is no line if there was not even enough memory to store
  the command line and to set up the ends of pipes and the resources.
    $ ulimit -v 40000; dceidl sample 1 1000000
    want of memory
  Give the program more memory. `drain` reads long pipes chunk by chunk.
  Status 5.
\x0c\
pipe end
pipe end N failed
  The file `pipeN.out` could not be written. It may have a part of the lines
  of one chunk more.
    $ mkdir pipe0.out
    $ echo '[local] interface t { typedef pipe byte p; void f([in] p a); }' > t.idl
    $ printf '\\1\\0\\0\\0\\7\\0\\0\\0\\0\\0\\0\\0' | dceidl drain t.idl - f in little
    pipe end 0 failed
  Look at the disk, and at the rights in the current folder. Status 8.
\x0c\
compat
refused: compat: REASON
  The second interface is not compatible with the first: streams of the one
  need not be streams of the other.
    $ echo '[version(1.0), uuid(11111111-2222-3333-4444-555555555555)] interface t { void f(); }' > old.idl
    $ echo '[version(2.0), uuid(11111111-2222-3333-4444-555555555555)] interface t { void f(); }' > new.idl
    $ dceidl compat old.idl - new.idl -
    refused: compat: OtherMajor 1 2
  `dceidl why REASON` explains the reason. If an operation differs, the command
  with `why` as one more word prints the place. Status 1.
\x0c\
OtherUuid
refused: compat: OtherUuid
  The UUIDs differ, or a file has none.
    $ echo '[version(1.0), uuid(11111111-2222-3333-4444-555555555555)] interface t { void f(); }' > old.idl
    $ echo '[version(1.0), local] interface t { void f(); }' > new.idl
    $ dceidl compat old.idl - new.idl -
    refused: compat: OtherUuid
  Keep the UUID of the interface in its new version.
\x0c\
OtherMajor
refused: compat: OtherMajor OLD NEW
  The major versions differ.
    $ echo '[version(1.0), uuid(11111111-2222-3333-4444-555555555555)] interface t { void f(); }' > old.idl
    $ echo '[version(2.0), uuid(11111111-2222-3333-4444-555555555555)] interface t { void f(); }' > new.idl
    $ dceidl compat old.idl - new.idl -
    refused: compat: OtherMajor 1 2
  A new major version says that old callers are not served. Keep it, and raise
  the minor version.
\x0c\
OlderMinor
refused: compat: OlderMinor OLD NEW
  The minor version of the newer file is less.
    $ echo '[version(1.5), uuid(11111111-2222-3333-4444-555555555555)] interface t { void f(); }' > old.idl
    $ echo '[version(1.2), uuid(11111111-2222-3333-4444-555555555555)] interface t { void f(); }' > new.idl
    $ dceidl compat old.idl - new.idl -
    refused: compat: OlderMinor 5 2
  Raise the minor version; or the two files are in the wrong order.
\x0c\
Fewer
refused: compat: Fewer OLD NEW
  The newer file has fewer operations.
    $ echo '[version(1.0), uuid(11111111-2222-3333-4444-555555555555)] interface t { void f(); void g(); }' > old.idl
    $ echo '[version(1.1), uuid(11111111-2222-3333-4444-555555555555)] interface t { void f(); }' > new.idl
    $ dceidl compat old.idl - new.idl -
    refused: compat: Fewer 2 1
  Operations are known by their numbers: keep all old ones, and add new ones
  at the end.
\x0c\
Differs
refused: compat: Differs NAME
  This operation of the older file is the first for which no pairing of types
  makes it, and those before it, the same as the newer ones of the same
  numbers.
    $ echo '[version(1.0), uuid(11111111-2222-3333-4444-555555555555)] interface t { void f([in] long x); }' > old.idl
    $ echo '[version(1.1), uuid(11111111-2222-3333-4444-555555555555)] interface t { void f([in] hyper x); }' > new.idl
    $ dceidl compat old.idl - new.idl -
    refused: compat: Differs f
  `dceidl compat old.idl - new.idl - why` prints the first place at which it
  differs. Leave the operation as it was, and add a new one at the end.
\x0c\
script
refused: script LINE
  A line of the script is none of `open CLIENT UUID`, `use UUID TEXT`, `close
  UUID` and `down CLIENT`, or has no line feed. Lines count from 1.
    $ printf 'begin\\n' | dceidl session
    refused: script 1
  Write CLIENT as a decimal number, UUID with its hyphens, and one space
  between words. Status 1.
\x0c\
gap
PLACE LENGTH gap x\"OCTETS\"
  The octets of a gap are not all zero; `trace` shows them. They mean nothing,
  and any are accepted, but most programs write zeros. So where a captured
  stream has such a gap, a type may be too narrow, as a `short` for a `long`, or
  a parameter may be left out, whose octets are then taken for a gap.
    $ echo '[local] interface t { void f([in] short a, [in] long b); }' > t.idl
    $ printf '\\1\\0\\2\\3\\4\\0\\0\\0' | dceidl trace t.idl - f in little
    0 2 num a 1
    2 2 gap x\"0203\"
    4 4 num b 4
    gaps that are not zero: 1
  Compare the types before the gap with the specification of the interface.
  docs/FROM-A-CAPTURE.md shows such mistakes.
\x0c\
status 0
(no line)
  Success: standard output has all that was asked for.
  Nothing is to be done.
\x0c\
status 1
refused: ..
  The input is refused: octets, PDUs, a text, its values, a script, or the
  text after `given`; the values take too many octets; there are more pipes
  than files; or an interface is not compatible with an older one.
  `dceidl why` and the word after the place explain the line.
\x0c\
status 2
words refused
  The command line is not valid.
  `dceidl help COMMAND` shows which words a command takes.
\x0c\
status 3
read fault
  Standard input failed.
  Name a file after `<`, and no folder.
\x0c\
status 4
write fault
  Standard output or standard error failed. This status replaces any other.
  Look at the disk, and at what reads the output.
\x0c\
status 5
want of memory
  Out of memory.
  Give the program more memory, or drain long pipes.
\x0c\
status 6
idl FILE:LINE:COLUMN: WHAT
idl FILE: NoOperation OP
  The interface file, an import or the ACF has an error, or the interface has
  no operation OP.
  `dceidl why WHAT` explains the line.
\x0c\
status 7
absent: FILE
  There is no such file.
  Names are looked for from the current folder.
\x0c\
status 8
pipe end N failed
  The file `pipeN.out` could not be written.
  Look at the disk, and at the rights in the current folder.
\x0c\
status 9
file fault: FILE
  The file cannot be read.
  Look at its rights; it may be a folder.
\x0c\
status 70
(the lines of the build)
  bin/dceidl could not build the program, or bin/try could not make it.
  The lines above name a log. Try `rt version`, and look at the free memory.
\x0c\
help
dceidl help COMMAND
  Writes which words a command takes, and what they may be. The commands are
  compile, plan, decode, explain, trace, drain, encode, migrate, call, wrap,
  compat, windows, session, sample and why. `dceidl --help` has all on one page.
\x0c\
help compile
dceidl compile IDL ACF
  Checks the interface file IDL and its imports, and writes the listing of the
  interface (docs/LISTING.md). ACF is an attribute configuration file, or `-`.
    $ echo '[local] interface t { void f([in] long x); }' > t.idl
    $ dceidl compile t.idl -
    interface t version 0.0 uuid -
    op 0 f
    in x 7
\x0c\
help plan
dceidl plan IDL ACF
  Checks the interface file IDL and its imports, and writes the plan by which
  its octets are read (docs/PLAN.md). ACF is an attribute configuration file,
  or `-`.
\x0c\
help decode
dceidl decode IDL ACF OP SIDE ORDER [given TEXT]
  Reads the octets of operation OP on standard input, and writes their values
  as text (docs/TEXT.md). ACF is an attribute configuration file, or `-`. SIDE
  is `in` for a request and `out` for a response. ORDER is `little`, `big`, or
  `label` if a format label is before the octets. With `given`, and SIDE `out`,
  TEXT is a file with the text of the request.
    $ echo '[local] interface t { void f([in] long x); }' > t.idl
    $ printf '\\1\\0\\0\\0' | dceidl decode t.idl - f in little
    values 2
    op f in
    x = 1
\x0c\
help explain
dceidl explain IDL ACF OP SIDE ORDER [given TEXT]
  Reads octets as `decode` does, and writes a line for each item: its place, its
  length, what it is, its path and its value. `dceidl help decode` says what the
  words may be.
\x0c\
help trace
dceidl trace IDL ACF OP SIDE ORDER [given TEXT]
  Does what `explain` does; of octets that are refused it writes the items
  before the fault, and then where in the values it is. `dceidl help decode`
  says what the words may be.
\x0c\
help drain
dceidl drain IDL ACF OP SIDE ORDER [given TEXT]
  Reads octets as `decode` does, and writes the elements of their pipes to the
  files pipe0.out to pipe7.out, a line each. `dceidl help decode` says what the
  words may be.
\x0c\
help encode
dceidl encode IDL ACF OP SIDE ORDER CHUNK [given TEXT]
  Reads a text as `decode` writes it on standard input, and writes the octets of
  its values. ACF is an attribute configuration file, or `-`. SIDE is `in` for a
  request and `out` for a response. ORDER is `little`, `big`, or `label`. CHUNK,
  1 to 16777216, is the number of elements in a chunk of a pipe; write 1 if the
  operation has none. With `given`, and SIDE `out`, TEXT is a file with the text
  of the request.
    $ echo '[local] interface t { void f([in] long x); }' > t.idl
    $ echo 'values 2 op f in x = 1' | dceidl encode t.idl - f in little 1 | od -An -tx1
     01 00 00 00
\x0c\
help migrate
dceidl migrate IDL ACF OP SIDE
  Reads a text in version 1 or 2 on standard input, and writes it in version 2.
  ACF is an attribute configuration file, or `-`. SIDE is `in` for a request and
  `out` for a response.
\x0c\
help call
dceidl call IDL ACF OP
  Reads the PDUs of a request, if OP is `-`, or of a response to operation OP on
  standard input, and writes the call id and the values. ACF is an attribute
  configuration file, or `-`.
\x0c\
help wrap
dceidl wrap IDL ACF OP SIDE ORDER CALL MAX
  Reads a text as `decode` writes it on standard input, and writes the PDUs of a
  request (SIDE `in`) or response (`out`). ACF is an attribute configuration
  file, or `-`. ORDER is `little` or `big`, CALL the call id, 0 to 4294967295,
  and MAX the most octets of a PDU, 1024 to 65535.
    $ echo '[local] interface t { void f([in] long x); }' > t.idl
    $ echo 'values 2 op f in x = 1' | dceidl wrap t.idl - f in little 7 1024 | od -An -tx1
     05 00 00 03 10 00 00 00 1c 00 00 00 07 00 00 00
     04 00 00 00 00 00 00 00 01 00 00 00
\x0c\
help compat
dceidl compat OLD OLDACF NEW NEWACF [why]
  Compares two versions of an interface, the files OLD and NEW, and writes how
  many operations OLD has, if each of them has the same octets in NEW. OLDACF
  and NEWACF are attribute configuration files, or `-`. With `why` it also
  writes the first place at which an operation differs.
\x0c\
help windows
dceidl windows COMMAND ..
  Does one of the commands above `session` in `dceidl --help`, with its
  interface files in the windows language (docs/WINDOWS.md).
    $ echo '[local] interface t { void f([in, any_size] long x[*]); }' > t.idl
    $ printf '\\1\\0\\0\\0\\7\\0\\0\\0' | dceidl windows decode t.idl - f in little
    values 2
    op f in
    x = [7]
\x0c\
help session
dceidl session
  Reads a script of context handles on standard input (docs/SESSION.md): lines
  `open CLIENT UUID`, `use UUID TEXT`, `close UUID` and `down CLIENT`. CLIENT is
  a number, 0 to 4294967295.
    $ printf 'open 1 00112233-4455-6677-8899-aabbccddeeff\\ndown 1\\n' | dceidl session
    ok
    ended 1
\x0c\
help sample
dceidl sample SEED COUNT
  Makes a graph of COUNT cells, 1 to 1000000, from SEED, 0 to 4294967295,
  encodes and decodes it, and writes a summary. `dceidl` alone does the same as
  `dceidl sample 1 2`.
    $ dceidl sample 0 1
    cells 1
    octets 16
    sum 1
    same yes
\x0c\
help why
dceidl why [WORD ..]
  Writes what a word of an error's line means, as `dceidl why Rule 30`. Without
  words it lists all.
\x0c\
";
