//! Why a command is refused, with the exit status and the line of each refusal; and loads of files, by what refuses them.
#![tactic(auto)]

mod compat_lines;
mod fragments_lines;
mod lines;
mod loading;
mod refusal;

pub use lines::{Status, fault_words, line, status};
pub use loading::load;
pub use refusal::{CompatFault, FragmentsFault, IdlReason, OctetsFault, Refusal, RequestFault};
