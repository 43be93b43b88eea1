//! Laws of pieces, each the contract of a function that does nothing.
ghost use Rattle.std.specs.Prelude.{◌≡◌, ℕ, List};
ghost use Rattle.nd_base.specs.declared.octets.Order.{Order};
ghost use Rattle.nd_types.specs.Table.{Table};
ghost use Rattle.nd_value.specs.declared.value.Graph.{Graph};
ghost use Rattle.nd_value.specs.Setting.{Setting};
ghost use Rattle.nd_value.specs.Deferral.{Step};
ghost use Rattle.nd_grammar.specs.Entry.{Entry, end_of};
ghost use Rattle.nd_grammar.specs.Stream.{representation, octets_from};
ghost use Rattle.ndr_encoder_laws.specs.pieces.Pieces.{pieces_octets, pieces_end};
ghost use Rattle.ndr_encoder_laws.specs.pieces.Shown.{shown};
ghost use Rattle.ndr_encoder_laws.specs.pieces.Heads.{stream_pieces};

/// The pieces of entries have the octets of these entries, and end where they end.
pub fn pieces_are_entries()
    ensures octets { (order : Order) (numbering : ℕ → ℕ) (table : Table) (at : ℕ) (ms : List Entry)
        → pieces_octets order numbering at (shown table ms) ≡ octets_from order numbering at ms }
    ensures ends { (table : Table) (at : ℕ) (ms : List Entry) → pieces_end at (shown table ms) ≡ end_of at ms }
{}

/// A stream has the octets of its pieces: those of the homes in the order of deferral, then those of the pipes.
pub fn pieces_are_streams()
    ensures octets { (order : Order) (numbering : ℕ → ℕ) (w : Setting) (g : Graph) (steps : List Step) (cuts : List (List ℕ))
        → octets_from order numbering 0 (representation w g steps cuts) ≡ pieces_octets order numbering 0 (stream_pieces w g steps cuts) }
    ensures ends { (w : Setting) (g : Graph) (steps : List Step) (cuts : List (List ℕ))
        → end_of 0 (representation w g steps cuts) ≡ pieces_end 0 (stream_pieces w g steps cuts) }
{}
