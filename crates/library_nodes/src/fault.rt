// Why no values are built of a listing.
use command_refusals::Refusal;
use thiserror::Error;

/// Why no values are built of a listing.
#[derive(Debug, Drop, Error)]
pub enum BuildFault {
    /// It has more than [`LISTING_LIMIT`](crate::LISTING_LIMIT) nodes, numbers or cells.
    #[error("a listing has too many nodes, numbers or cells")]
    TooMany,
    /// The number of the first node that is wrong: no listing of the side begins with it and the nodes before it. It is how many nodes there are
    /// where they end too early, or numbers or octets are left.
    #[error("node {0} is wrong")]
    WrongNode(usize),
    /// The graph does not conform, or memory was refused.
    #[error("{0}")]
    Refused(Refusal),
}
