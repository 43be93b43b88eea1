//! The program `dceidl` as a library: it runs a command line over sources, sinks and files that the caller makes.
#![tactic(auto)]

mod call;
mod compared;
mod encode;
pub mod laws;
mod perform;
mod prepared;
mod reading;
mod ready;
mod sessions;
mod top;
mod trace;
mod wrap;

pub use command_line::{CHUNK_LIMIT, Words};
pub use command_refusals::{IdlReason, OctetsFault, Refusal, Status};
pub use command_streams::Outcome;
pub use ctx_session::Stock;
pub use sessions::run_with;
pub use top::run;

/// How many elements a chunk of a pipe has in what `wrap` writes.
pub const WRAP_CHUNK: u32 = 65_536;

/// What `--help` prints.
pub const HELP: &str = "\
usage: dceidl compile IDL ACF
       dceidl plan IDL ACF
       dceidl decode IDL ACF OP SIDE ORDER [given TEXT]
       dceidl explain IDL ACF OP SIDE ORDER [given TEXT]
       dceidl trace IDL ACF OP SIDE ORDER [given TEXT]
       dceidl drain IDL ACF OP SIDE ORDER [given TEXT]
       dceidl encode IDL ACF OP SIDE ORDER CHUNK [given TEXT]
       dceidl migrate IDL ACF OP SIDE
       dceidl call IDL ACF OP
       dceidl wrap IDL ACF OP SIDE ORDER CALL MAX
       dceidl compat OLD OLDACF NEW NEWACF [why]
       dceidl windows COMMAND ..
       dceidl session
       dceidl sample SEED COUNT
       dceidl why [WORD ..]
       dceidl help [COMMAND]
       dceidl --help
       dceidl --version

compile  checks a file of IDL, the files that it imports and its attribute
         configuration file (ACF) if one is named (C706, chapter 4), and writes
         the listing of its interface.
plan     checks the same files, and writes the listing of the interface's plan:
         the instructions by which its octets are read and written.
decode   reads the octets of a request (SIDE `in`) or a response (SIDE `out`) in
         NDR (C706, chapter 14), and writes their values as text. With `given`
         a response is checked against the request that it answers.
explain  reads the same octets, and writes a line for each item: its place, its
         length, what it is, where it is in the values, and its value.
trace    does the same; if the octets are refused, it writes the lines of the
         items before the fault, and then a line with the place of the fault,
         the reason, and where in the values it is.
drain    reads the same octets, and writes the elements of their pipes to the
         files pipe0.out to pipe7.out of the current folder, a line each. The
         text of the values is written with empty pipes.
encode   reads such a text, and writes the octets of its values. With `given` a
         response is checked against the request that it answers.
migrate  reads such a text, in either version, and writes it as `decode` does.
call     reads the PDUs of one request (OP `-`) or of one response to OP (C706,
         chapter 12), joins their stub data, and writes the call id and then the
         values as `decode` does. A request states its operation.
wrap     reads such a text, and writes the PDUs of a request or response with
         its values, at most MAX octets each, with the call id CALL.
compat   compares two versions of an interface, and writes how many operations
         the file OLD has if each of them has the same octets for the same
         values in the file NEW. With `why`, if an operation differs, it also
         writes the first place at which it does.
windows  does one of the commands above with files of IDL in the windows
         language, in which `any_size` and `any_length` are attributes: counts
         that nothing states.
session  reads a script of lines, `open CLIENT UUID`, `use UUID TEXT`,
         `close UUID` and `down CLIENT`, and does what they say with the files
         res0.out to res7.out of the current folder: opens the next one under
         the UUID of a context handle, appends a line to it, ends it, ends all
         of a client. It writes a line for each, and ends what is open.
sample   makes a graph of COUNT cells from SEED, encodes and decodes it, and
         writes a summary. Without words it is `sample 1 2`.
why      writes what a word of an error's line means, with an example and what
         to do, as for `why Rule 30` or `why status 5`. Without words it lists
         all.
help     writes which words COMMAND takes, and what they may be.

IDL      the path of a file of IDL
ACF      the path of an attribute configuration file, or `-` for none
OLD, NEW the paths of two files of IDL; OLDACF and NEWACF are as ACF
OP       the name of an operation
SIDE     `in` for the [in] parameters, `out` for the [out] parameters and the
         result
ORDER    the byte order: `little`, `big`, or `label` if the first four octets
         are a format label, which states it; `encode` then writes a label of
         little-endian octets
TEXT     the path of the text of a request; with SIDE `out` only
CHUNK    the number of elements in a chunk of a pipe, 1 to 16777216; it has no
         effect unless the operation has pipes
CALL     a number, 0 to 4294967295
MAX      a number, 1024 to 65535
SEED     a number, 0 to 4294967295
COUNT    a number, 1 to 1000000

Input is read from standard input, and output is written to standard output. An
error is one line on standard error. The exit status is

0  success
1  bad octets, PDUs, text, script or values, too many octets to write or
   pipes to drain, or versions that are not compatible
2  bad command line
3  input error
4  output error
5  out of memory
6  bad IDL or ACF, or unknown operation
7  IDL, ACF or TEXT not found
8  an error of a file to which a pipe is drained
9  IDL, ACF or TEXT not readable

Examples:

  dceidl compile examples/shop.idl examples/shop.acf
  dceidl decode examples/add.idl - add in little < examples/add-1-2-3.octets
  dceidl encode examples/add.idl - add in little 1 < examples/add-1-2-3.text

dceidl why WORD explains a refusal
";

/// What `--version` prints.
pub const VERSION: &str = "dceidl 0.1.0\n";
