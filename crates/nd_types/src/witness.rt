// A value that only contracts read, like std's `Snapshot`, of which another can be made from it alone.
ghost use Rattle.std.specs.Prelude.{◌≡◌};
ghost use Rattle.std.specs.Borrow.{ftrue};

use std::marker::{Model, PhantomData};

/// A `T` as contracts see it, which takes no memory and owns nothing.
// Only the clauses of its makers tie `value`.
pub struct Witness<T> {
    marker: PhantomData<T>,
    pub ghost value: { T },
}

impl<T> Model for Witness<T> {
    ghost also_owns = { λ _. ftrue };
}

impl<T> Witness<T> {
    /// The value as it is now.
    pub fn of(x: &T) -> Witness<T>
        ensures { result.value ≡ x.now }
    {
        let _ = x;
        Witness {
            marker: PhantomData,
        }
    }

    /// The same value.
    pub fn again(&self) -> Witness<T>
        ensures { result.value ≡ self.now.value }
    {
        let _ = self;
        Witness {
            marker: PhantomData,
        }
    }
}

impl<T> Drop for Witness<T> {
    fn drop(self) {
        let Self { marker: _ } = self;
    }
}
