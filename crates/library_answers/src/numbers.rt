// Sides and orders by their numbers.
ghost use Rattle.std.specs.Prelude.{◌≡◌};
ghost use Rattle.library_answers.specs.Answers.{side_numbered, order_numbered, number_of_side, number_of_order as order_number};

use nd_base::Order;
use nd_types::Side;

// The side of a number.
pub(crate) fn side_of(number: u32) -> Option<Side>
    ensures { result ≡ side_numbered number }
{
    if number == 0 {
        Some(Side::In)
    } else if number == 1 {
        Some(Side::Out)
    } else {
        None
    }
}

/// The number of a side: 0 for requests, 1 for responses. Takes no memory.
pub fn number_of(side: Side) -> u32
    ensures { result ≡ number_of_side side }
{
    match side {
        Side::In => 0,
        Side::Out => 1,
    }
}

// The order of a number.
pub(crate) fn order_of(number: u32) -> Option<Order>
    ensures { result ≡ order_numbered number }
{
    if number == 0 {
        Some(Order::Little)
    } else if number == 1 {
        Some(Order::Big)
    } else {
        None
    }
}

// The number of an order.
pub(crate) fn number_of_order(order: Order) -> u32
    ensures { result ≡ order_number order }
{
    match order {
        Order::Little => 0,
        Order::Big => 1,
    }
}
