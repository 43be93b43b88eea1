//! Laws of scripts and sessions, each the contract of a function that does nothing.
ghost use Rattle.std.specs.Prelude.{◌≡◌, ◌⊎◌, ℕ, List};
ghost use Rattle.ctx_store.specs.Resource.{ResourceSeen};
ghost use Rattle.ctx_session.specs.declared.answer.Answer.{Answer};
ghost use Rattle.ctx_session.specs.Script.{Line, AreLines, IsBadLine};
ghost use Rattle.ctx_session.specs.Session.{IsSession};
ghost use Rattle.ctx_session.specs.Accounts.{IsAccounted};

/// Octets are one script, or have one first line that is none, and never both.
pub fn one_script_verdict()
    ensures some { (octets : List ℕ) → ((lines : List Line) × AreLines octets lines) ⊎ ((number : ℕ) × IsBadLine octets number) }
    ensures never_both { (octets : List ℕ) (lines : List Line) (number : ℕ) → AreLines octets lines → IsBadLine octets number → ⊥ }
    ensures one_script { (octets : List ℕ) (lines others : List Line) → AreLines octets lines → AreLines octets others → lines ≡ others }
    ensures one_line { (octets : List ℕ) (m n : ℕ) → IsBadLine octets m → IsBadLine octets n → m ≡ n }
{}

/// After a session each resource is accounted for: none is lost, and none is there twice; each that was opened was ended once, and has the lines that
/// it had and those that were accepted while it was live; its count of faults fits what its lines say.
pub fn each_resource_is_accounted_for()
    ensures { (fresh : List ResourceSeen) (spent : List ResourceSeen) (lines : List Line) (answers : List Answer)
        → (fresh_now : List ResourceSeen) (spent_now : List ResourceSeen)
        → IsSession fresh spent lines answers fresh_now spent_now → IsAccounted fresh spent lines answers fresh_now spent_now }
{}
