// What the end of a pipe is: where the lines of a pipe go.
ghost use Rattle.std.specs.Prelude.{◌≡◌, false, IfSome, is_some};
ghost use Rattle.ndr_pipe.specs.Ends.{EndSeen, HasTaken, HasFlushed, HasFinished};

use thiserror::Error;

/// An end failed.
#[derive(Clone, Copy, Debug, PartialEq, Eq, Error)]
#[error("pipe end failed")]
pub struct EndFailed;

/// The end of a pipe, which takes lines until it is finished. It is finished once `finish` was called, or once one of its calls failed. A finished
/// end takes nothing more.
pub trait PipeEnd: Drop {
    /// The octets that it took, which contracts see of each end; whether it shows them; whether it is finished; how often it failed.
    ghost seen: { Self → EndSeen };

    /// Appends the whole line. `EndFailed` comes only where the count of faults rose; then a prefix of the line was taken, and the end is
    /// finished. The end must not be finished before.
    fn take(&mut self, line: &[u8]) -> Result<(), EndFailed>
        requires { (seen self.old).finished ≡ false }
        ensures { HasTaken (seen self.old) (seen self.new) line.now result };

    /// Writes the lines that the end took and holds back. An end that holds nothing back does nothing, and that is what this does if an end does not
    /// say otherwise. `EndFailed` comes only where the count of faults rose, and then the end is finished. The end must not be finished before.
    fn flush(&mut self) -> Result<(), EndFailed>
        requires { (seen self.old).finished ≡ false }
        ensures { HasFlushed (seen self.old) (seen self.new) result }
    {
        Ok(())
    }

    /// Writes what the end holds back, finishes it, and appends nothing. `EndFailed` comes only where the count of faults rose; the end is finished
    /// then too. The end must not be finished before.
    fn finish(&mut self) -> Result<(), EndFailed>
        requires { (seen self.old).finished ≡ false }
        ensures { HasFinished (seen self.old) (seen self.new) result };

    /// The octets that were taken, or None if the end does not show them. Takes no memory.
    fn shown(&self) -> Option<&[u8]>
        ensures some { IfSome result (λ octets. (seen self.now).taken ≡ octets.now) }
        ensures shown { is_some result ≡ (seen self.now).is_shown };

    /// Whether the end is finished. Takes no memory.
    fn finished(&self) -> bool
        ensures { result ≡ (seen self.now).finished };
}
