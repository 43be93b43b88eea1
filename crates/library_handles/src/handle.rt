// Handles.
ghost use Rattle.std.specs.Prelude.{◌≡◌, ℕ};
ghost use Rattle.std.specs.Coded.{coded_option};
ghost use Rattle.std.specs.Option.{MatchOption};
ghost use Rattle.std.specs.declared.option.Option.{Option};
ghost use Rattle.std.specs.declared.option.Option.TheVariants.{None, Some};
ghost use Rattle.library_handles.specs.contracts.held.Held.{the_row as held_row};
ghost use Rattle.library_handles.specs.declared.held.Held.{Held as HeldValue};
ghost use Rattle.library_handles.specs.Owned.{handle_owns};

use crate::Loose;
use crate::held::Held;
use std::alloc::Global;
use std::marker::Model;
use std::mem::replace;
use std::ptr::null_mut;

/// What is held, in a box, or nothing, in two words that cross to C. A program in C keeps them, and passes their address; words of zero hold nothing.
#[repr(C)]
pub struct Handle {
    at: *mut u8,
    full: usize,
    pub ghost value: { Option HeldValue } by { coded_option held_row.coded },
}

impl Model for Handle {
    ghost also_owns = { λ h. handle_owns h.at h.full h.value };
}

impl Handle {
    // The handle that holds what a loose box does.
    fn of(loose: Loose<Held, Global>) -> Handle
        ensures { result.value ≡ Some loose.value }
    {
        let Loose { at, alloc: _ } = loose;
        Handle {
            at: at as *mut u8,
            full: 1,
        }
    }

    // The handle that holds nothing.
    fn none() -> Handle
        ensures { result.value ≡ None }
    {
        Handle {
            at: null_mut(),
            full: 0,
        }
    }

    // What the handle holds.
    fn loose(self, alloc: Global) -> Option<Loose<Held, Global>>
        ensures { MatchOption result (self.value ≡ None) (λ l. self.value ≡ Some l.value) }
    {
        let Handle { at, full } = self;
        if full == 0 {
            None
        } else {
            Some(Loose {
                at: at as *mut Held,
                alloc,
            })
        }
    }

    /// Holds what the box does. What it held before is freed. Takes no memory.
    #[inline(always)]
    pub fn put(&mut self, alloc: Global, held: Box<Held>)
        ensures { self.new.value ≡ Some held.value }
    {
        let before = replace(self, Handle::of(Loose::of(held)));
        if let Some(loose) = before.loose(alloc) {
            let_go(loose);
        }
    }

    /// Gives what it holds, and holds nothing after it. Takes no memory.
    #[inline(always)]
    pub fn take(&mut self, alloc: Global) -> Option<Box<Held>>
        ensures none { self.new.value ≡ None }
        ensures taken { MatchOption result (self.old.value ≡ None) (λ b. self.old.value ≡ Some b.value) }
    {
        let before = replace(self, Handle::none());
        match before.loose(alloc) {
            Some(loose) => Some(loose.into_box()),
            None => None,
        }
    }
}

// Frees what a handle held. Most handles that are put into hold nothing.
#[cold]
#[inline(never)]
fn let_go(held: Loose<Held, Global>) {
    drop(held.into_box());
}
