// Runs, frames and structs.
ghost use Rattle.std.specs.Prelude.{◌≡◌, ◌<◌, ◌+◌, ◌^◌, OnOk, IfErr, Ok};
ghost use Rattle.ndr_decoder_laws.specs.steps.Steps.{goes, done_after, next, pushed, popped, call_from, back_to, close_of};
ghost use Rattle.ndr_decoder_state.specs.Seen.{state_of, outside, Does, Comes};
ghost use Rattle.ndr_decoder_state.specs.declared.fault.DecodeFault.TheVariants as fault;

use crate::{DecodeFault, Machine, Phase, Progress};
use nd_base::push;
use nd_flat::Seen;
use ndr_decoder_laws::{Frame, Member};

impl Machine {
    /// Goes past octets to the next instruction. Takes no memory.
    #[inline(always)]
    pub fn pass(&mut self, len: u32)
        requires code { self.old.pc < 2 ^ 32 }
        requires few { self.old.at + len < 2 ^ 32 }
        ensures is { state_of self.new ≡ done_after len (state_of self.old) }
        ensures count { self.new.count ≡ self.old.count }
        ensures outside { outside self.new ≡ outside self.old }
    {
        self.at += len;
        self.phase = Phase::Begun;
        self.pc += 1;
    }

    /// Goes to an instruction. Takes no memory.
    #[inline(always)]
    pub fn jump(&mut self, to: usize)
        ensures is { state_of self.new ≡ jumped to (state_of self.old) }
        ensures count { self.new.count ≡ self.old.count }
        ensures outside { outside self.new ≡ outside self.old }
    {
        self.phase = Phase::Begun;
        self.pc = to;
    }

    /// Goes to the next instruction. Takes no memory.
    #[inline(always)]
    pub fn skip(&mut self)
        requires code { self.old.pc < 2 ^ 32 }
        ensures is { state_of self.new ≡ next (state_of self.old) }
        ensures count { self.new.count ≡ self.old.count }
        ensures outside { outside self.new ≡ outside self.old }
    {
        self.jump(self.pc + 1);
    }

    /// Opens a frame around the value that is read next, which takes memory. Out of memory is the only refusal.
    #[inline(always)]
    pub fn push(&mut self, frame: Frame) -> Result<(), DecodeFault>
        ensures ok { OnOk result (state_of self.new ≡ pushed frame (state_of self.old)) }
        ensures count { self.new.count ≡ self.old.count }
        ensures outside { OnOk result (outside self.new ≡ outside self.old) }
        ensures memory { IfErr result (λ e. e ≡ fault.Memory) }
    {
        let top = self.top;
        let Ok(()) = push(&mut self.stack, top) else {
            return Err(DecodeFault::Memory);
        };
        self.top = frame;
        Ok(())
    }

    /// Closes the innermost frame. Takes no memory.
    #[inline(always)]
    pub fn pop(&mut self)
        ensures is { state_of self.new ≡ popped (state_of self.old) }
        ensures count { self.new.count ≡ self.old.count }
        ensures outside { outside self.new ≡ outside self.old }
    {
        self.top = match self.stack.pop() {
            Some(frame) => frame,
            None => Frame::Home,
        };
    }

    /// The instruction `record`: a struct of so many members begins. It takes memory, and out of memory is the only refusal; then nothing is known of
    /// the machine.
    #[inline(always)]
    pub fn record(&mut self, members: u32) -> Result<(), DecodeFault>
        requires code { self.old.pc < 2 ^ 32 }
        requires few { self.old.count + 1 < 2 ^ 32 }
        ensures does { Does (goes (record_begun members (state_of self.old))) result (state_of self.new) }
        ensures outside { OnOk result (outside self.new ≡ outside self.old) }
    {
        self.add(&Seen::Rec(members), None)?;
        let first = self.members.len();
        self.push(Frame::Record { back: 0, first })?;
        self.skip();
        Ok(())
    }

    /// The instruction `call`: in a struct a run is that of the next member, else it takes the place of the one that is followed. It takes memory for
    /// a member, and out of memory is the only refusal; then nothing is known of the machine.
    #[inline(always)]
    pub fn call(&mut self, run: u32) -> Result<(), DecodeFault>
        requires code { self.old.pc < 2 ^ 32 }
        ensures does { Does (goes (call_from self.old.top run (state_of self.old))) result (state_of self.new) }
        ensures outside { OnOk result (outside self.new ≡ outside self.old) }
    {
        match self.top {
            Frame::Record { back: _, first } => self.call_member(first, run),
            Frame::Home
            | Frame::Elements {
                left: _,
                run: _,
                back: _,
            } => {
                self.jump(run as usize);
                Ok(())
            }
        }
    }

    // A call of the next member of the struct whose members begin at `first`.
    #[inline(always)]
    fn call_member(&mut self, first: usize, run: u32) -> Result<(), DecodeFault>
        requires code { self.old.pc < 2 ^ 32 }
        ensures does { Does (goes (member_called first run (state_of self.old))) result (state_of self.new) }
        ensures outside { OnOk result (outside self.new ≡ outside self.old) }
    {
        let member = Member {
            node: self.count,
            pending: self.fresh.len(),
        };
        let Ok(()) = push(&mut self.members, member) else {
            return Err(DecodeFault::Memory);
        };
        self.top = Frame::Record {
            back: self.pc + 1,
            first,
        };
        self.jump(run as usize);
        Ok(())
    }

    /// The instruction `close`: a struct ends. Takes no memory.
    #[inline(always)]
    pub fn close(&mut self)
        requires code { self.old.pc < 2 ^ 32 }
        ensures is { state_of self.new ≡ close_of self.old.top (state_of self.old) }
        ensures outside { outside self.new ≡ outside self.old }
    {
        match self.top {
            Frame::Record { back: _, first } => self.close_record(first),
            Frame::Home
            | Frame::Elements {
                left: _,
                run: _,
                back: _,
            } => self.close_other(),
        }
    }

    // The end of the struct whose members begin at `first`.
    fn close_record(&mut self, first: usize)
        requires code { self.old.pc < 2 ^ 32 }
        ensures is { state_of self.new ≡ record_closed first (state_of self.old) }
        ensures outside { outside self.new ≡ outside self.old }
    {
        self.members.truncate(first);
        self.firsts.truncate(first);
        self.pop();
        self.skip();
    }

    // The end of what is no struct.
    #[inline(always)]
    fn close_other(&mut self)
        requires code { self.old.pc < 2 ^ 32 }
        ensures is { state_of self.new ≡ next (popped (state_of self.old)) }
        ensures outside { outside self.new ≡ outside self.old }
    {
        self.pop();
        self.skip();
    }

    /// The instruction `ret`: a value ends, and what is around it goes on. Takes no memory.
    #[inline(always)]
    pub fn ret(&mut self) -> Progress
        ensures does { Comes (back_to self.old.top (state_of self.old)) (Ok result) (state_of self.new) }
        ensures outside { outside self.new ≡ outside self.old }
    {
        match self.top {
            Frame::Home => Progress::Whole,
            Frame::Record { back, first: _ } => {
                self.jump(back);
                Progress::More
            }
            Frame::Elements { left, run, back } => {
                self.next_element(left, run, back);
                Progress::More
            }
        }
    }

    // The next of the elements of which so many are left, or what comes after them.
    #[inline(always)]
    fn next_element(&mut self, left: u32, run: u32, back: usize)
        ensures is { goes (state_of self.new) ≡ back_to (elements_frame left run back) (state_of self.old) }
        ensures outside { outside self.new ≡ outside self.old }
    {
        if left == 0 {
            self.pop();
            self.jump(back);
        } else {
            self.top = Frame::Elements {
                left: left - 1,
                run,
                back,
            };
            self.jump(run as usize);
        }
    }
}

ghost use Rattle.ndr_decoder_laws.specs.steps.Steps.{jumped};
ghost use Rattle.ndr_decoder_state.specs.Parts.{record_begun, record_closed, member_called, elements_frame};
