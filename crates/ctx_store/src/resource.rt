// What a resource is.
ghost use Rattle.std.specs.Prelude.{◌≡◌, false, IfSome, is_some};
ghost use Rattle.ctx_store.specs.Resource.{ResourceSeen, HasApplied, HasEnded};

use thiserror::Error;

/// A resource failed.
#[derive(Clone, Copy, Debug, PartialEq, Eq, Error)]
#[error("resource failed")]
pub struct ResourceFailed;

/// What a context handle stands for (C706 section 2.3.2, 5.1.6). Lines are applied to it until it is ended, once.
pub trait Resource: Drop {
    /// The lines applied, which contracts see of each resource; whether it shows them; whether it was ended; how often it failed.
    ghost shows: { Self → ResourceSeen };

    /// Applies a line. `ResourceFailed` comes only where the count of faults rose; then the line was not added. The resource must not be ended
    /// before.
    fn apply(&mut self, line: &[u8]) -> Result<(), ResourceFailed>
        requires { (shows self.old).ended ≡ false }
        ensures { HasApplied (shows self.old) (shows self.new) line.now result };

    /// Ends the resource, and adds no line. `ResourceFailed` comes only where the count of faults rose; the resource is ended then too. It must not
    /// be ended before.
    fn end(&mut self) -> Result<(), ResourceFailed>
        requires { (shows self.old).ended ≡ false }
        ensures { HasEnded (shows self.old) (shows self.new) result };

    /// The lines applied, each with a line feed, or None if the resource does not show them. Takes no memory.
    fn lines(&self) -> Option<&[u8]>
        ensures some { IfSome result (λ lines. (shows self.now).lines ≡ lines.now) }
        ensures shown { is_some result ≡ (shows self.now).is_shown };

    /// Whether it was ended. Takes no memory.
    fn ended(&self) -> bool
        ensures { result ≡ (shows self.now).ended };
}
