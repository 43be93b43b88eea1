//! Laws of the plain reader in parts, each the contract of a function that does nothing.
ghost use Rattle.std.specs.Prelude.{◌≡◌, ℕ, ◌+◌, List, length, Option, Some, ◌∷◌, suc};
ghost use Rattle.nd_base.specs.declared.octets.Order.{Order};
ghost use Rattle.nd_types.specs.declared.types.TypeDef.{TypeDef};
ghost use Rattle.nd_types.specs.Table.{Table};
ghost use Rattle.nd_value.specs.declared.item.Home.{Home};
ghost use Rattle.nd_value.specs.Tree.{Tree};
ghost use Rattle.nd_value.specs.Deferral.{before_pipes};
ghost use Rattle.nd_value.specs.Setting.{Setting, root_list};
ghost use Rattle.nd_grammar.specs.declared.reason.Reason.{Reason};
ghost use Rattle.nd_grammar.specs.Entry.{EntryAt};
ghost use Rattle.nd_grammar.specs.Reader.{Progress, Names, Read, read_by, read_in_place, tree_nodes};
ghost use Rattle.nd_grammar.specs.StreamReader.{read_due, read_start, read_stream};
ghost use Rattle.ndr_decoder_laws.specs.reader.Around.{Around, finish, going, stopped, moved, with_left};
ghost use Rattle.ndr_decoder_laws.specs.reader.Halves.{Reader, after_gap, gap_of, past_gap};

/// Each value is its gap and what comes after it, for every form of types.
pub fn values_are_in_halves()
    ensures { (order : Order) (octets : List ℕ) (table : Table) (h : Home) (read : Reader) (m t : ℕ) (d : Option TypeDef) (n : ℕ) (p : Progress)
        (s : Names)
        → read_by order octets table h read m t d n p s
        ≡ after_gap order octets table h read m t d n (past_gap order octets table h n (gap_of table t d) p) s }
{}

/// After a child was read, what is left to be read of the outermost value is what is left with the next child due.
pub fn reading_goes_on()
    ensures { (order : Order) (octets : List ℕ) (table : Table) (h : Home) (m depth : ℕ) (fs : List Around) (f : Around) (t : ℕ) (types : List ℕ)
        (v : Tree) (at : ℕ) (seen : List EntryAt) (s : Names)
        → finish order octets table h m depth (with_left f (t ∷ types) ∷ fs) (record { tree = v; progress = going at seen; names = s })
        ≡ finish order octets table h m depth (moved f v t types ∷ fs)
        (read_in_place order octets table h depth m t (f.next + tree_nodes v) (going at seen) s) }
{}

/// Where reading has stopped it stays so: whatever is around a value, and up to the end of a stream.
pub fn stops_stay()
    ensures value { (order : Order) (octets : List ℕ) (table : Table) (h : Home) (at : ℕ) (seen : List EntryAt) (why : ℕ × Reason) (depth m : ℕ)
        (fs : List Around) (r : Read)
        → r.progress ≡ stopped at seen why → (finish order octets table h m depth fs r).progress ≡ stopped at seen why }
    ensures stream { (w : Setting) (order : Order) (octets : List ℕ) (at : ℕ) (seen : List EntryAt) (why : ℕ × Reason)
        → (read_due w order octets (length octets + before_pipes (root_list w) + 1) (read_start w order octets)).progress ≡ stopped at seen why
        → (read_stream w order octets).progress ≡ stopped at seen why }
{}
