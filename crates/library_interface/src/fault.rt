// Why files are not compiled.
use command_refusals::Refusal;
use thiserror::Error;

/// Why files that a caller lends are not compiled.
#[derive(Debug, Drop, Error)]
pub enum CompileFault {
    /// The name of a file is not UTF-8.
    #[error("the name of a file is not UTF-8")]
    BadName,
    /// They mean no interface, or memory was refused.
    #[error("{0}")]
    Refused(Refusal),
}
