//! Laws of the worklist, each the contract of a function that does nothing.
ghost use Rattle.std.specs.Prelude.{◌≡◌, ◌++◌, ◌∷◌, ℕ, [], List};
ghost use Rattle.nd_base.specs.declared.octets.Order.{Order};
ghost use Rattle.nd_types.specs.Number.{AreOctets};
ghost use Rattle.nd_value.specs.Deferral.{Due};
ghost use Rattle.nd_value.specs.Setting.{Setting};
ghost use Rattle.nd_grammar.specs.declared.reason.Reason.{Reason};
ghost use Rattle.nd_grammar.specs.Entry.{EntryAt};
ghost use Rattle.nd_grammar.specs.LegalSide.{IsLegalSide};
ghost use Rattle.nd_grammar.specs.StreamReader.{Reading, read_next, read_start, read_stream};
ghost use Rattle.ndr_decoder_laws.specs.reader.Around.{stopped};
ghost use Rattle.ndr_decoder_laws.specs.worklist.Reached.{Reached, head, stream_after};

/// At the beginning nothing was fetched, and all roots that are no pipes are due. Where something is due, the next of it is read with some octets
/// more: if the reader comes to one state by it whatever follows, that state is reached.
pub fn worklist_turns()
    ensures begins { (w : Setting) (order : Order) → Reached w order [] (read_start w order []) }
    ensures turns { (w : Setting) → IsLegalSide w → (order : Order) (fetched more : List ℕ) → AreOctets fetched → AreOctets more
        → (s t : Reading) (d : Due) (ds : List Due)
        → Reached w order fetched s → s.due ≡ d ∷ ds
        → ((later : List ℕ) → AreOctets later → read_next w order ((fetched ++ more) ++ later) s.due s ≡ t) → Reached w order (fetched ++ more) t }
{}

/// Where nothing is due any more, the roots and referents are as they are then, and the agreements of parameters and the pipes come next. Where the
/// next of what is due is refused, what comes before the pipes is refused for that, and so is the stream.
pub fn worklist_ends()
    ensures over { (w : Setting) (order : Order) (fetched : List ℕ) (s : Reading) → Reached w order fetched s → s.due ≡ []
        → (later : List ℕ) → AreOctets later → read_stream w order (fetched ++ later) ≡ stream_after w order (fetched ++ later) s }
    ensures in_head { (w : Setting) → IsLegalSide w → (order : Order) (fetched : List ℕ) → AreOctets fetched → (s : Reading) (d : Due) (ds : List Due)
        → Reached w order fetched s → s.due ≡ d ∷ ds → (later : List ℕ) → AreOctets later → (at : ℕ) (seen : List EntryAt) (why : ℕ × Reason)
        → (read_next w order (fetched ++ later) s.due s).progress ≡ stopped at seen why
        → (head w order (fetched ++ later)).progress ≡ stopped at seen why }
    ensures refused { (w : Setting) → IsLegalSide w → (order : Order) (fetched : List ℕ) → AreOctets fetched → (s : Reading) (d : Due) (ds : List Due)
        → Reached w order fetched s → s.due ≡ d ∷ ds → (later : List ℕ) → AreOctets later → (at : ℕ) (seen : List EntryAt) (why : ℕ × Reason)
        → (read_next w order (fetched ++ later) s.due s).progress ≡ stopped at seen why
        → (read_stream w order (fetched ++ later)).progress ≡ stopped at seen why }
{}
