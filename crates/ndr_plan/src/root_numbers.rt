// The numbers of the parameters of an operation among the roots of a side.
ghost use Rattle.std.specs.Prelude.{◌≡◌, Option, None, ℕ, IfOk, replicate};
ghost use Rattle.nd_types.specs.Roots.{roots_of};
ghost use Rattle.ndr_plan.specs.Numbers.{number_in, numbered, AreNumbers};

use crate::sides::SideOf;
use crate::type_code::narrow;
use nd_base::Memory;
use nd_types::Side;
use std::alloc::Global;

// For each parameter the number of the root that it is, if it is one.
#[derive(Drop)]
pub(crate) struct RootNumbers {
    items: Vec<Option<u32>>,
}

impl RootNumbers {
    // So many parameters without a number.
    fn none(alloc: Global, params: usize) -> Result<RootNumbers, Memory>
        ensures { IfOk result (λ n. n.items.items ≡ replicate {A = Option ℕ} params None) }
    {
        let mut items = Vec::with_capacity(alloc, params)?;
        for _param in 0..params {
            let Ok(()) = items.push(None) else {
                return Err(Memory);
            };
        }
        Ok(RootNumbers { items })
    }

    // The number of the root that a parameter is.
    pub(crate) fn find(&self, param: u32) -> Option<u32>
        ensures { result ≡ number_in self.now.items.items param }
    {
        match self.items.get(param as usize) {
            Some(number) => *number,
            None => None,
        }
    }

    // Gives a parameter its number, if it has none.
    fn put(&mut self, param: Option<u32>, number: u32)
        ensures { self.new.items.items ≡ numbered self.old.items.items param number }
    {
        let Some(param) = param else {
            return;
        };
        let at = param as usize;
        if at < self.items.len() && self.items[at].is_none() {
            self.items[at] = Some(number);
        }
    }
}

// The numbers for a side of the operation. It takes memory for one of each parameter. Memory is the only refusal.
pub(crate) fn root_numbers(
    alloc: Global,
    of: &SideOf<'_>,
    side: Side,
) -> Result<RootNumbers, Memory>
    ensures { IfOk result (λ n. AreNumbers (roots_of of.now.interface.now.types side of.now.operation.now) n.items.items) }
{
    let mut numbers = RootNumbers::none(alloc, of.operation.params.len())?;
    let mut number: u32 = 0;
    for root in of.interface.params(of.op, side) {
        numbers.put(root.param, number);
        number = narrow(number as usize + 1)?;
    }
    Ok(numbers)
}
