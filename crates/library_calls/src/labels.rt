// Format labels in memory.
ghost use Rattle.std.specs.Prelude.{◌≡◌, Ok, IfOk, IfErr};
ghost use Rattle.ndr_prim.specs.Label.{order_of_label};
ghost use Rattle.library_calls.specs.Labels.{IsLabelCause};

use command_refusals::Refusal;
use nd_base::Order;
use ndr_prim::read_label;

/// The order of octets that the format label (C706, section 14.1) states which octets begin with.
///
/// # Errors
/// ShortLabel, where there are fewer than four octets. BadLabel, where they are no label that is read.
///
/// Takes no memory.
pub fn order_stated(octets: &[u8]) -> Result<Order, Refusal>
    ensures stated { IfOk result (λ order. order_of_label octets.now ≡ Ok order) }
    ensures refused { IfErr result (IsLabelCause octets.now) }
{
    if octets.len() < 4 {
        return Err(Refusal::ShortLabel);
    }
    match read_label(&[octets[0], octets[1], octets[2], octets[3]]) {
        Ok(order) => Ok(order),
        Err(fault) => Err(Refusal::BadLabel(fault)),
    }
}
