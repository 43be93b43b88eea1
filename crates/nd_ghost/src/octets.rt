// Octets that only contracts see. They take no bytes.
ghost use Rattle.std.specs.Prelude.{◌≡◌, ◌++◌, ◌∷◌, []};

use std::marker::Model;
use std::mem;
use std::snapshot::Snapshot;

// A list of octets. It is made for a moment, so that a snapshot of it can be taken, and never kept.
#[cycle(octets)]
#[derive(Drop)]
struct Listed {
    front: Front,
}

#[cycle(octets)]
#[derive(Drop)]
enum Front {
    Empty,
    Then(Snapshot<Listed>, u8),
}

impl Model for Listed {
    ghost use Rattle.std.specs.Prelude.{List, ℕ, length};

    ghost Value = { List ℕ };

    ghost use Rattle.nd_ghost.specs.Octets.{octets_of};

    ghost view = { λ g. octets_of g.front };

    ghost size = { length };

    ghost use Rattle.nd_ghost.specs.OctetsFall.{octets_fall};

    ghost size_decreases = { λ a h. octets_fall a };
}

/// A list of octets that only contracts see. It takes no memory. An object that cannot show what it was given, as a file, keeps it here.
#[derive(Drop)]
pub struct GhostOctets {
    seen: Snapshot<Listed>,
}

impl Model for GhostOctets {
    ghost use Rattle.std.specs.Prelude.{List, ℕ};

    ghost Value = { List ℕ };

    ghost view = { λ g. g.seen.value };
}

impl GhostOctets {
    /// No octets.
    pub fn none() -> GhostOctets
        ensures { result ≡ [] }
    {
        GhostOctets {
            seen: Snapshot::of(&Listed {
                front: Front::Empty,
            }),
        }
    }

    /// Adds octets at the end.
    #[tactic(auto, using(crate::proofs::Adding::all_added))]
    pub fn add(&mut self, octets: &[u8])
        ensures { self.new ≡ self.old ++ octets.now }
    {
        for octet in octets {
            self.extend(*octet);
        }
    }

    /// Adds a line, which is followed by a line feed, at the end.
    #[tactic(auto, using(crate::proofs::Adding::line_added))]
    pub fn add_line(&mut self, line: &[u8])
        ensures { self.new ≡ self.old ++ (line.now ++ 10 ∷ []) }
    {
        self.add(line);
        self.extend(b'\n');
    }

    // Adds an octet at the end.
    fn extend(&mut self, octet: u8)
        ensures { self.new ≡ self.old ++ octet ∷ [] }
    {
        let before = mem::replace(self, GhostOctets::none());
        self.seen = Snapshot::of(&Listed {
            front: Front::Then(before.seen, octet),
        });
    }
}
