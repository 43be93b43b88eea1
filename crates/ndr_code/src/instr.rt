// The instructions of a plan.
use nd_types::{Attr, Class, TypeId};

/// An instruction of a plan. A `run` is the address at which a run of instructions begins. A run ends with `Ret`, or with the last arm of a
/// union. Addresses are counted from 0.
#[derive(Clone, Copy, Debug, PartialEq, Eq)]
pub enum Instr {
    /// An empty arm.
    Void,
    /// The end of a run.
    Ret,
    /// A gap to a multiple of so many octets.
    Align {
        to: u8,
    },
    /// A primitive.
    Num {
        of: TypeId,
    },
    /// A value of an enumerated type.
    Enum {
        of: TypeId,
    },
    /// A struct of so many members begins.
    Record {
        members: u32,
    },
    /// A struct ends.
    Close,
    /// So many elements, each by the run.
    Fixed {
        count: u32,
        run: u32,
    },
    /// As many elements as the maximum count, each by the run.
    Conf {
        run: u32,
    },
    /// Offset and actual count, which together are at most the bound, then the elements.
    Vary {
        bound: u32,
        run: u32,
    },
    /// The same, where the bound is the maximum count.
    Confvary {
        run: u32,
    },
    /// Offset, actual count and the octets of a string. A bound of 0 means the maximum count.
    Text {
        bound: u32,
    },
    /// A gap to a multiple of four octets, and a maximum count (C706, 14.3.4).
    Hoist,
    /// The tag of a union, of this type.
    Tag {
        of: TypeId,
    },
    /// If the tag is the label: the run, then the end of this run.
    Arm {
        label: i128,
        run: u32,
    },
    /// The run of the default arm, then the end of this run.
    Other {
        run: u32,
    },
    /// No arm has the tag, and there is no default: the tag is refused.
    Noarm,
    /// The number of a pointer. Its referent, whose whole run is here, is pending.
    Pointer {
        class: Class,
        to: TypeId,
        run: u32,
    },
    /// The referent of a reference pointer that is a parameter, in the pointer's place: a new cell.
    Direct {
        to: TypeId,
        run: u32,
    },
    /// A context handle.
    Context,
    /// An agreement of a field with a variable, both by their numbers: members of the struct that is open, or roots of the side. `star`: the variable
    /// is what the root points to. If the field is a pointer member, the agreement goes with its pending referent.
    Check {
        attr: Attr,
        field: u32,
        var: u32,
        star: bool,
    },
    /// An agreement of a root of a response with a root of the request, which is given beside the response. Nothing is checked if none is given.
    Given {
        attr: Attr,
        field: u32,
        var: u32,
        star: bool,
    },
    /// Chunks of elements of a pipe, each element by the run.
    Pipe {
        run: u32,
    },
    /// The pending referents, in the order of deferral.
    Defer,
    /// The run, then the next instruction.
    Call {
        run: u32,
    },
}
