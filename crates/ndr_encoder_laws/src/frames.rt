// Where a run of a plan goes on when the run inside it ends.
ghost use Rattle.std.specs.Prelude.{◌≡◌, [], ◌∷◌};
ghost use Rattle.ndr_encoder_laws.specs.written.Frames.{pushed, rest_frames, first_frame};

use arrayvec::ArrayVec;
use std::marker::Model;

/// What is open around a run: a run that called it, an array whose elements it writes, or a pipe.
#[derive(Clone, Copy)]
pub enum Frame {
    /// A run that goes on at this address.
    Call {
        to: usize,
    },
    /// An array with so many more elements, each by the run; then the address to go on at.
    Array {
        left: u32,
        run: u32,
        to: usize,
    },
    /// A pipe with so many more elements in the chunk that is open, and so many after it.
    Pipe {
        left: u32,
        rest: u32,
        run: u32,
        to: usize,
    },
}

impl Default for Frame {
    fn default() -> Frame {
        Frame::Call { to: 0 }
    }
}

/// The frames of a run, at most 36: types nest at most 32 deep, and a run needs at most three frames more. The room for all of them is cleared when
/// it is made, so there is little of it. Contracts see them as a list, the innermost first.
#[derive(Drop)]
pub struct Frames {
    frames: ArrayVec<Frame, 36>,
}

impl Model for Frames {
    ghost use Rattle.std.specs.Prelude.{List, reverse};
    ghost use Rattle.ndr_encoder_laws.specs.declared.frames.Frame.{Frame};

    ghost Value = { List Frame };

    ghost view = { λ s. reverse s.frames.items };
}

impl Frames {
    /// No frames. It allocates nothing.
    pub fn new() -> Frames
        ensures { result ≡ [] }
    {
        Frames {
            frames: ArrayVec::new(),
        }
    }

    /// One frame more. Where there are 36 already nothing changes. Takes no memory.
    pub fn push(&mut self, frame: Frame)
        ensures { self.new ≡ pushed frame self.old }
    {
        let _ = self.frames.try_push(frame);
    }

    /// Takes all frames away. Takes no memory.
    pub fn clear(&mut self)
        ensures { self.new ≡ [] }
    {
        self.frames.clear();
    }

    /// Takes the innermost frame away, and gives it; None where there is none. Takes no memory.
    pub fn pop(&mut self) -> Option<Frame>
        ensures first { result ≡ first_frame self.old }
        ensures rest { self.new ≡ rest_frames self.old }
    {
        self.frames.pop()
    }
}
