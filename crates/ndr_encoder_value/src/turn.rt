// The turns of homes.
use nd_value::Home;

/// A home, and the address of the run that writes it.
#[derive(Clone, Copy)]
pub struct Turn {
    pub home: Home,
    pub start: u32,
}

const TURN_SIZE: usize = size_of::<Turn>();

const _: () = prove!(TURN_SIZE == 12);
