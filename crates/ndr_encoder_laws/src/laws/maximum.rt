//! A law of the maximum count before a value: the contract of a function that does nothing.
ghost use Rattle.std.specs.Prelude.{◌≡◌};
ghost use Rattle.nd_value.specs.Tree.{Trees, count, flat};
ghost use Rattle.nd_grammar.specs.Entry.{hoisted_max};
ghost use Rattle.ndr_encoder_laws.specs.maximum.LastPart.{last_max};

/// The maximum count that is before a value is that of the first node, along its nodes, that has one and is the last part of all that is around it.
pub fn last_part_has_the_maximum()
    ensures { (ts : Trees) → last_max (count ts) (flat ts) ≡ hoisted_max 0 ts }
{}
