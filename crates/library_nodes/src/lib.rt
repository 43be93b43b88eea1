//! The nodes of values as one list, which is read by the numbers of nodes; and values that a program gives as such a list, with the numbers and
//! octets that belong to the nodes.
#![tactic(auto)]

mod building;
mod contents;
mod description;
mod fault;
mod forms;
mod homes;
mod kept;
pub mod laws;
mod laying;
mod listing;
mod node;
mod nodes;
mod parts;
mod reader;
mod rows;
mod stop;
mod values;

pub use building::{build, build_response};
pub use description::Description;
pub use fault::BuildFault;
pub use kept::KeptNodes;
pub use listing::{Listing, has_too_many};
pub use node::{Elements, Node};
pub use nodes::{NodeList, Nodes};

/// The most nodes, numbers and cells that a listing may have.
pub const LISTING_LIMIT: usize = 1_073_741_824;
