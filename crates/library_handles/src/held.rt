// What a handle holds.
use command_refusals::Refusal;
use library_interface::Compiled;
use library_nodes::KeptNodes;
use library_values::Values;
use nd_value::ItemLog;
use std::rc::Rc;

/// What a handle holds.
#[derive(Drop)]
pub enum Held {
    /// An interface, which handles and values share.
    Interface(Rc<Compiled>),
    /// Values of a side of an operation.
    Values(Values),
    /// Why a call was refused.
    Refusal(Refusal),
    /// The nodes of values, in room that is used again.
    Nodes(KeptNodes),
    /// The items of octets.
    Items(ItemLog),
}
