//! Files that a caller lends, as files to load from: none of their loads fails. An interface that is compiled from such files, with its plan, so that
//! it can be used as often as wanted.
#![tactic(auto)]

mod adding;
mod compiled;
mod compiling;
mod fault;
mod file;
mod files;
mod lend_fault;

pub use adding::has_bad_name;
pub use compiled::Compiled;
pub use compiling::compile_files;
pub use fault::CompileFault;
pub use file::File;
pub use files::LentFiles;
pub use lend_fault::LendFault;
