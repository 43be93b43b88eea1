// The addresses of the runs of types, as far as they are known.
ghost use Rattle.std.specs.Prelude.{◌≡◌};
ghost use Rattle.ndr_plan.specs.Addresses.{place_in, whole_in};

use nd_types::TypeId;

// Where the runs of a type are.
#[derive(Clone, Copy, Debug)]
pub(crate) struct Address {
    pub(crate) whole: u32,
    pub(crate) place: u32,
}

// The addresses of the types by their numbers, and the address after the runs of all types, which is that of a number of no type.
#[derive(Drop)]
pub(crate) struct Addresses {
    pub(crate) items: Vec<Address>,
    pub(crate) end: u32,
}

impl Addresses {
    // The address of the place run of a type.
    pub(crate) fn place(&self, of: TypeId) -> u32
        ensures { result ≡ place_in self.now of.0 }
    {
        match self.items.get(of.0 as usize) {
            Some(address) => address.place,
            None => self.end,
        }
    }

    // The address of the whole run of a type.
    pub(crate) fn whole(&self, of: TypeId) -> u32
        ensures { result ≡ whole_in self.now of.0 }
    {
        match self.items.get(of.0 as usize) {
            Some(address) => address.whole,
            None => self.end,
        }
    }
}
