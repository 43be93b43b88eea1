// The names by which files were asked for. Contracts alone see them, and they take no bytes.
ghost use Rattle.std.specs.Prelude.{◌≡◌, ◌++◌, ◌∷◌, []};
ghost use Rattle.nd_base.specs.NameLists.{with_octet};

use std::marker::Model;
use std::mem;
use std::snapshot::Snapshot;

// A list of names. It is made for a moment, so that a snapshot of it can be taken, and never kept.
#[cycle(names)]
#[derive(Drop)]
struct Names {
    last: Last,
}

#[cycle(names)]
#[derive(Drop)]
enum Last {
    Nothing,
    Name(Snapshot<Names>),
    Octet(Snapshot<Names>, u8),
}

impl Model for Names {
    ghost use Rattle.std.specs.Prelude.{List, ℕ};

    ghost Value = { List (List ℕ) };

    ghost use Rattle.nd_base.specs.Asked.{names_of};

    ghost view = { λ n. names_of n.last };

    ghost use Rattle.nd_base.specs.NameLists.{octets_and_names};

    ghost size = { octets_and_names };

    ghost use Rattle.nd_base.specs.NamesFall.{names_fall};

    ghost size_decreases = { λ a h. names_fall a };
}

// A list of names that only contracts see.
#[derive(Drop)]
pub(crate) struct GhostNames {
    seen: Snapshot<Names>,
}

impl Model for GhostNames {
    ghost use Rattle.std.specs.Prelude.{List, ℕ};

    ghost Value = { List (List ℕ) };

    ghost view = { λ g. g.seen.value };
}

impl GhostNames {
    pub(crate) fn none() -> GhostNames
        ensures { result ≡ [] }
    {
        GhostNames {
            seen: Snapshot::of(&Names {
                last: Last::Nothing,
            }),
        }
    }

    // Adds a name at the end.
    #[tactic(auto, using(crate::proofs::Names::all_added))]
    pub(crate) fn add(&mut self, name: &str)
        ensures { self.new ≡ self.old ++ name.now ∷ [] }
    {
        self.begin();
        for octet in name.as_bytes() {
            self.extend(*octet);
        }
    }

    // Adds an empty name at the end.
    fn begin(&mut self)
        ensures { self.new ≡ self.old ++ [] ∷ [] }
    {
        let before = mem::replace(self, GhostNames::none());
        self.seen = Snapshot::of(&Names {
            last: Last::Name(before.seen),
        });
    }

    // Adds an octet to the last name.
    fn extend(&mut self, octet: u8)
        ensures { self.new ≡ with_octet octet self.old }
    {
        let before = mem::replace(self, GhostNames::none());
        self.seen = Snapshot::of(&Names {
            last: Last::Octet(before.seen, octet),
        });
    }
}
