// The stack of the decoder.

/// What is around the value that is being read, from the plan's side: where it goes on when the value is whole. A run is followed without recursion;
/// since types nest at most 32 deep in place, at most 33 frames are open.
#[derive(Clone, Copy, Debug, PartialEq, Eq)]
pub enum Frame {
    /// Nothing: the value is that of a root or a cell.
    Home,
    /// A struct: its next instruction is at `back`. Its members' first nodes are listed from `first` on.
    Record { back: usize, first: usize },
    /// An array, the arm of a union or the elements of a chunk: so many more elements are left after the one that is being read, each by the run;
    /// then the instruction at `back`.
    Elements { left: u32, run: u32, back: usize },
}
