// Operations by name.
ghost use Rattle.std.specs.Prelude.{◌≡◌};
ghost use Rattle.nd_types.specs.Roots.{operation_named};

use crate::{Interface, Operation};

impl Interface {
    /// The number of the first operation of that name, or None where no operation has it. It takes no memory.
    pub fn operation(&self, name: &str) -> Option<u32>
        ensures { result ≡ operation_named self.now.operations name.now }
    {
        match first_named(self.operations.as_slice(), name.as_bytes()) {
            Some(at) => Some(at as u32),
            None => None,
        }
    }
}

// The place of the first operation of that name.
fn first_named(operations: &[Operation], name: &[u8]) -> Option<usize>
    ensures { result ≡ operation_named operations.now name.now }
{
    operations
        .iter()
        .position(|operation| operation.name.as_slice() == name)
}
