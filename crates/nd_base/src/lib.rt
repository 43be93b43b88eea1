//! Octets and names, and the traits of what is outside: sources, sinks and files. Each of these is known
//! by what it shows of itself, and by counts of its faults. Running out of memory is an answer of each call that takes
//! memory, and has no cause that a contract could name. An intake holds the octets of a stream as they are wanted: those of one gap or
//! primitive at a time, fetched from any source.
#![tactic(auto)]

mod asked;
mod calls;
mod files;
mod intake;
mod ledger;
mod lent;
mod memory;
mod number;
mod octets;
mod outside;
mod pieces;
mod plain;
mod pushing;
mod real;
pub mod text;

pub use files::MemFiles;
pub use intake::{Intake, IntakeFault};
pub use ledger::{Counted, Ledger, Steps, Uncounted};
pub use lent::LentSource;
pub use memory::{MemSink, MemSource};
pub use octets::{Memory, Name, Octets, Order, Place};
pub use outside::{FileFault, Files, ReadFailed, Sink, Source, WriteFailed};
pub use plain::{PlainSink, PlainSource};
pub use pushing::push;
pub use real::{FolderFiles, InputSource, OutputSink};

/// The greatest number of octets of a file that is loaded by its name. Of a longer one `load` gives this many
/// octets and one more.
pub const FILE_LIMIT: u32 = 1_048_576;

/// The greatest number of octets of a stream of values in the network representation (C706 chapter 14).
pub const STREAM_LIMIT: u32 = 67_108_864;

/// How many octets are fetched at once at most.
pub const PIECE: u32 = 4096;
