// Places in two interfaces, and what differs there.
use crate::Steps;
use idl_compat::TypePair;

/// A place: a part of an operation, and steps from its type.
#[derive(Drop)]
pub struct Place {
    /// The number of the operation.
    pub op: usize,
    /// The number of a parameter; the number of all parameters for the result.
    pub part: usize,
    /// The steps from the type of the part, in both interfaces.
    pub steps: Steps,
}

/// What differs first.
#[derive(Drop)]
pub enum Difference {
    /// The numbers of parameters of two operations.
    Counts {
        op: usize,
    },
    /// Two parameters, or two results of which one is absent, whatever types are paired.
    Parts {
        op: usize,
        part: usize,
    },
    /// The types at a place.
    Types {
        place: Place,
        types: TypePair,
    },
    /// The types at a place, one of which has another partner at an earlier place: in an earlier part, or in the same one after fewer steps, or as
    /// many that come first.
    Clash {
        place: Place,
        types: TypePair,
        earlier: Place,
        others: TypePair,
    },
}
