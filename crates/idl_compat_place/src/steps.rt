// Steps from a type down to one that it names. Contracts see them as a list.
ghost use Rattle.std.specs.Prelude.{◌≡◌, ◌++◌, [], ◌∷◌, length, slice_get, Some, None, OnOk, IfSome, IfNone};

use nd_base::Memory;
use std::alloc::Global;
use std::marker::Model;

/// A step from a type to one that it names.
#[derive(Clone, Copy, Debug, PartialEq, Eq)]
pub enum Step {
    /// To a member or to an arm that has a label, by its number; by 0 to the element of an array, a string or a pipe, and to the pointee of a
    /// pointer.
    Nth(usize),
    /// To the default arm of a union.
    Default,
    /// To the tag of a union.
    Tag,
}

/// Steps, the last first.
#[derive(Drop)]
pub struct Steps {
    items: Vec<Step>,
}

impl Model for Steps {
    ghost use Rattle.std.specs.Prelude.{List};
    ghost use Rattle.idl_compat_place.specs.declared.steps.Step.{Step};

    ghost Value = { List Step };

    ghost view = { λ o. o.items.items };
}

impl Steps {
    /// No steps. It allocates nothing.
    pub fn new(alloc: Global) -> Steps
        ensures { result ≡ [] }
    {
        Steps {
            items: Vec::new(alloc),
        }
    }

    /// Appends a step, which may take memory.
    pub fn push(&mut self, step: Step) -> Result<(), Memory>
        ensures { OnOk result (self.new ≡ self.old ++ step ∷ []) }
    {
        match self.items.push(step) {
            Ok(()) => Ok(()),
            Err(_) => Err(Memory),
        }
    }

    /// The number of steps. Takes no memory.
    pub fn len(&self) -> usize
        ensures { result ≡ length self.now }
    {
        self.items.len()
    }

    /// The step at a place, from 0, or None past the last. Takes no memory.
    pub fn get(&self, at: usize) -> Option<&Step>
        ensures some { IfSome result (λ step. slice_get self.now at ≡ Some step.now) }
        ensures none { IfNone result (slice_get self.now at ≡ None) }
    {
        self.items.get(at)
    }
}
