//! What the calls of `libdceidl` answer: statuses, and the work of each call on what its handle holds. Handles and buffers are filled; sides and
//! orders of octets are numbers.
#![tactic(auto)]

mod answers;
mod both;
mod building;
mod faults;
mod fragments;
mod identity;
mod interfaces;
mod items;
mod nodes;
mod numbers;
mod parts;
mod reading;
mod types;
mod versions;
mod writing;

pub use answers::{ABSENT, ARGUMENT, EMPTY, MEMORY, OK, REFUSED, SHORT, WRONG_NODE, lay_out};
pub use both::{decode_items, decode_response_items};
pub use building::{build_reply, build_values, set_cell_type};
pub use faults::write_line;
pub use fragments::{Call, join_fragments, label_order, split_stub};
pub use identity::{Identity, identity_of, write_interface_name, write_listing};
pub use interfaces::{compile, find_operation, free, share, write_name};
pub use items::{ItemDescription, describe_item, log_items, log_response};
pub use nodes::{
    copy_bytes, copy_numbers, copy_octets, describe_at, list_nodes, set_after, set_number, set_part,
};
pub use numbers::number_of;
pub use parts::{count_roots, find_arm, set_enumerator, write_arm, write_member, write_root};
pub use reading::{decode, decode_response, read, read_response};
pub use types::{find_element, find_member, find_root, set_type};
pub use versions::compare;
pub use writing::{encode, write_text};
