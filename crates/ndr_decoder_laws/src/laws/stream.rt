//! Laws of what a decoder keeps of a stream, each the contract of a function that does nothing.
ghost use Rattle.std.specs.Prelude.{Bool, ◌≡◌, ◌≤◌, ◌+◌, ◌++◌, ◌∷◌, [], ℕ, suc, true, false, List, Option, Some, None, length};
ghost use Rattle.std.specs.List.{slice_get};
ghost use Rattle.std.specs.Io.KnownBytes.{Consumes, IsAtEnd};
ghost use Rattle.nd_base.specs.declared.octets.Order.{Order};
ghost use Rattle.nd_base.specs.Over.{SourceOver};
ghost use Rattle.nd_types.specs.declared.types.Class.TheVariants.{Ref, Full};
ghost use Rattle.nd_types.specs.declared.types.Operation.{Operation};
ghost use Rattle.nd_types.specs.declared.types.TypeDef.TheVariants.{Pointer};
ghost use Rattle.nd_types.specs.declared.types.TypeId.{TypeId};
ghost use Rattle.nd_types.specs.Legal.{IsLegal};
ghost use Rattle.nd_types.specs.Number.{AreOctets};
ghost use Rattle.nd_types.specs.Roots.{Root};
ghost use Rattle.nd_types.specs.Table.{Table, type_at};
ghost use Rattle.nd_value.specs.declared.item.Home.{Home};
ghost use Rattle.nd_value.specs.declared.item.Home.TheVariants as home;
ghost use Rattle.nd_value.specs.declared.item.Item.{Item};
ghost use Rattle.nd_value.specs.declared.value.Graph.{Graph};
ghost use Rattle.nd_value.specs.Agreement.{Agreement, starred};
ghost use Rattle.nd_value.specs.Deferral.{Due, Pending, before_pipes};
ghost use Rattle.nd_value.specs.Seen.{cell_number};
ghost use Rattle.nd_value.specs.Setting.{Setting, root_list, root_at, cell_home};
ghost use Rattle.nd_grammar.specs.declared.reason.Reason.{Reason};
ghost use Rattle.nd_grammar.specs.declared.reason.Reason.TheVariants.{Truncated};
ghost use Rattle.nd_grammar.specs.Entry.{EntryAt};
ghost use Rattle.nd_grammar.specs.Items.{but_gaps, items};
ghost use Rattle.nd_grammar.specs.LegalSide.{IsLegalSide};
ghost use Rattle.nd_grammar.specs.Reader.{Names, Progress, Read, pass_all, read_whole, with_cell};
ghost use Rattle.nd_grammar.specs.Stream.{root_test};
ghost use Rattle.nd_grammar.specs.StreamReader.{Reading, read_next, read_start, read_stream};
ghost use Rattle.nd_grammar.specs.ReaderState.{Usable};
ghost use Rattle.ndr_code.specs.Code.{code_of, whole_at};
ghost use Rattle.ndr_code.specs.declared.instr.Instr.{Instr};
ghost use Rattle.ndr_refs.specs.declared.referents.Known.{Known};
ghost use Rattle.ndr_decoder_laws.specs.reader.Around.{going, stopped};
ghost use Rattle.ndr_decoder_laws.specs.declared.first.First.TheVariants.{Pointer as is_pointer};
ghost use Rattle.ndr_decoder_laws.specs.steps.Good.{Good, Told, Whole};
ghost use Rattle.ndr_decoder_laws.specs.steps.Spots.{IsFine};
ghost use Rattle.ndr_decoder_laws.specs.steps.Steps.{State};
ghost use Rattle.nd_grammar.specs.decoded.Needed.{IsNeeded};
ghost use Rattle.nd_grammar.specs.decoded.Verdict.{DecodingSeen, HasNoted, IsCutOff, IsDecoded, IsRefused, direct_roots, is_direct, IsUnread};
ghost use Rattle.ndr_decoder_laws.specs.worklist.Reached.{Reached};
ghost use Rattle.ndr_decoder_laws.specs.declared.kept.Kept.{Kept};
ghost use Rattle.ndr_decoder_laws.specs.declared.kept.KeptRoot.{KeptRoot};
ghost use Rattle.ndr_decoder_laws.specs.stream.Added.{Added, Goes};
ghost use Rattle.ndr_decoder_laws.specs.stream.Between.{Agrees, AreNeeded, Begins, Between, CellFilled, CellKept, IsKeptHome, IsKeptRoot, Keeps};
ghost use Rattle.ndr_decoder_laws.specs.stream.Between.{Opens, RootAdded, cell_read, home_target, kept_at, root_read, taken, with_pointer};
ghost use Rattle.ndr_decoder_laws.specs.stream.Calls.{CutOff, Follows, GoesWith, Refused, RefusesWith, Took, Unread};
ghost use Rattle.ndr_decoder_laws.specs.stream.Parameters.{TestsPass, TestsStop, head_read, parameter_tests, pipes_from, root_number, root_subject};
ghost use Rattle.ndr_decoder_laws.specs.stream.Parameters.{with_pipes};
ghost use Rattle.ndr_decoder_laws.specs.stream.Report.{AreCells, Extent, IsRefusedAfter, IsReported, StreamCut, StreamRefused, the_head, the_stream};
ghost use Rattle.ndr_decoder_laws.specs.stream.Tests.{AllAgree, disagreement};

/// Reading the value of a home passes entries of this home alone, after those that were passed before. Reading what comes before the pipes only adds
/// to the entries that were passed, and so does reading the pipes after it.
pub fn reading_adds()
    ensures whole { (order : Order) (octets : List ℕ) (table : Table) (h : Home) (t : ℕ) (p : Progress) (s : Names)
        → Added h p (read_whole order octets table h t p s).progress }
    ensures state { (order : Order) (fetched : List ℕ) (code : List Instr) (table : Table) (h : Home) (own limit : ℕ) (noted : List Item)
        (direct : ℕ) (target : List ℕ → Read) (s : State)
        → (g : Good order fetched code table h own limit noted direct target s) → (later : List ℕ)
        → Added h (going s.at g.seen) (target (fetched ++ later)).progress }
    ensures head { (w : Setting) (order : Order) (fetched : List ℕ) (s : Reading) → Reached w order fetched s → (later : List ℕ) → AreOctets later
        → Goes s.progress (head_read w order (fetched ++ later)) }
    ensures next { (w : Setting) → IsLegalSide w → (order : Order) (fetched : List ℕ) → AreOctets fetched → (s : Reading) (d : Due) (ds : List Due)
        → s.due ≡ d ∷ ds → Reached w order fetched s
        → (later : List ℕ) → AreOctets later → Goes (read_next w order (fetched ++ later) s.due s).progress (head_read w order (fetched ++ later)) }
    ensures pipes { (w : Setting) (order : Order) (octets : List ℕ) → Goes (head_read w order octets) (read_stream w order octets).progress }
{}

/// Each type of a legal interface that holds no pipe is one that may be read in place.
pub fn types_are_fine()
    ensures { (table : Table) (operations : List Operation) → IsLegal table operations → (t : ℕ) → Usable table t → IsFine table 32 t }
{}

/// At the beginning of a stream nothing is kept, and all roots that are no pipes are still to be read.
pub fn streams_begin()
    ensures { (w : Setting) (side : IsLegalSide w) (order : Order) (b : Between) → Begins b
        → Agrees w side order [] [] 0 b (read_start w order []) [] [] (before_pipes (root_list w)) }
{}

/// At the beginning of a home's value, of which nothing was read, the state means the whole value to the plain reader. For a root that is a reference
/// pointer a cell more is told.
pub fn homes_begin()
    ensures reference { (order : Order) (fetched : List ℕ) (noted : List Item) (direct : ℕ) (h : Home) (seen : List EntryAt) (names : Names)
        (types : List ℕ) (numbers : List (ℕ × Known)) (to : ℕ)
        → Told noted direct order fetched h seen names types numbers None 0 []
        → Told noted (direct + 1) order fetched h seen (with_cell to names) (types ++ to ∷ []) numbers None 0 [] }
    ensures begins { (table : Table) (operations : List Operation) → IsLegal table operations
        → (order : Order) (fetched : List ℕ) (noted : List Item) (direct : ℕ) (h : Home) (seen : List EntryAt) (names : Names) (t : ℕ)
        → Usable table t
        → (b : Between) → length fetched ≡ b.at → (types : List ℕ) (x : State) → Opens (whole_at table t) b types x
        → Told noted direct order fetched h seen names types b.numbers None 0 []
        → Good order fetched (code_of table operations) table h t 32 noted direct
        (λ octets. read_whole order octets table h t (going b.at seen) names) x }
{}

/// The next root, where it is no reference pointer. Where its value is refused, the head is. After its value what is kept is right, with its pointers
/// pending.
pub fn roots_are_read()
    ensures refused { (w : Setting) (side : IsLegalSide w) (order : Order) (fetched : List ℕ) (noted : List Item) (direct : ℕ) (b : Between)
        (s : Reading) (seen : List EntryAt) (n : ℕ) → Agrees w side order fetched noted direct b s seen [] (suc n)
        → (r : Root) → slice_get (root_list w) (length s.roots) ≡ Some r → is_direct (type_at w.table r.of) ≡ false
        → RefusesWith the_head w order fetched (home_target w order b seen (home.Root (length s.roots)) r.of s.names) }
    ensures goes { (w : Setting) (side : IsLegalSide w) (order : Order) (fetched : List ℕ) (noted : List Item) (direct : ℕ) (b : Between)
        (s : Reading) (seen : List EntryAt) (n : ℕ) → Agrees w side order fetched noted direct b s seen [] (suc n)
        → (r : Root) → slice_get (root_list w) (length s.roots) ≡ Some r → is_direct (type_at w.table r.of) ≡ false
        → GoesWith the_head w order fetched (home_target w order b seen (home.Root (length s.roots)) r.of s.names) }
    ensures ends { (w : Setting) (side : IsLegalSide w) (order : Order) (fetched : List ℕ) (noted : List Item) (direct : ℕ) (b : Between)
        (s : Reading) (seen : List EntryAt) (n : ℕ) → Agrees w side order fetched noted direct b s seen [] (suc n)
        → (r : Root) → slice_get (root_list w) (length s.roots) ≡ Some r → is_direct (type_at w.table r.of) ≡ false → (more : List ℕ)
        → AreOctets more → (noted' : List Item) (x : State)
        → (is : Whole order (fetched ++ more) w.table (home.Root (length s.roots)) r.of noted' direct
        (home_target w order b seen (home.Root (length s.roots)) r.of s.names) x)
        → AreNeeded (home_target w order b seen (home.Root (length s.roots)) r.of s.names) fetched more → (g : Graph)
        → RootAdded is.v x.cells b.graph g → (k : KeptRoot) → IsKeptRoot x k
        → (then : Reading) × (ps : List Pending) × Agrees w side order (fetched ++ more) noted' direct (root_read b x k g) then is.seen ps n }
{}

/// The next root, where it is a reference pointer: a cell more is there, and its referent is read in the pointer's place.
pub fn references_are_read()
    ensures refused { (w : Setting) (side : IsLegalSide w) (order : Order) (fetched : List ℕ) (noted : List Item) (direct : ℕ) (b : Between)
        (s : Reading) (seen : List EntryAt) (n : ℕ) → Agrees w side order fetched noted direct b s seen [] (suc n)
        → (r : Root) → slice_get (root_list w) (length s.roots) ≡ Some r → (to : TypeId) → type_at w.table r.of ≡ Some (Pointer Ref to)
        → RefusesWith the_head w order fetched (home_target w order b seen (cell_home (length s.names.cells + 1)) to.0 (with_cell to.0 s.names)) }
    ensures goes { (w : Setting) (side : IsLegalSide w) (order : Order) (fetched : List ℕ) (noted : List Item) (direct : ℕ) (b : Between)
        (s : Reading) (seen : List EntryAt) (n : ℕ) → Agrees w side order fetched noted direct b s seen [] (suc n)
        → (r : Root) → slice_get (root_list w) (length s.roots) ≡ Some r → (to : TypeId) → type_at w.table r.of ≡ Some (Pointer Ref to)
        → GoesWith the_head w order fetched (home_target w order b seen (cell_home (length s.names.cells + 1)) to.0 (with_cell to.0 s.names)) }
    ensures ends { (w : Setting) (side : IsLegalSide w) (order : Order) (fetched : List ℕ) (noted : List Item) (direct : ℕ) (b : Between)
        (s : Reading) (seen : List EntryAt) (n : ℕ) → Agrees w side order fetched noted direct b s seen [] (suc n)
        → (r : Root) → slice_get (root_list w) (length s.roots) ≡ Some r → (to : TypeId) → type_at w.table r.of ≡ Some (Pointer Ref to)
        → (more : List ℕ) → AreOctets more → (noted' : List Item) (x : State)
        → (is : Whole order (fetched ++ more) w.table (cell_home (length s.names.cells + 1)) to.0 noted' (direct + 1)
        (home_target w order b seen (cell_home (length s.names.cells + 1)) to.0 (with_cell to.0 s.names)) x)
        → AreNeeded (home_target w order b seen (cell_home (length s.names.cells + 1)) to.0 (with_cell to.0 s.names)) fetched more
        → (root : KeptRoot) → root.own ≡ record { first = is_pointer; max_at = None } → cell_number root.cell ≡ Some (length s.names.cells + 1)
        → (k : Kept) → IsKeptHome x k
        → (read : List (Option Kept)) → CellKept (length s.names.cells + 1) k b.read read → (g : Graph)
        → CellFilled (with_pointer (length s.names.cells + 1) s.roots) (length s.names.cells + 1) is.v x.cells b.graph g
        → (then : Reading) × (ps : List Pending)
        × Agrees w side order (fetched ++ more) noted' (direct + 1) (cell_read b x (b.roots ++ root ∷ []) read g) then is.seen ps n }
{}

/// The next of the pending referents, where it was not read yet. Where it or one of its pointer's agreements is refused, the head is. After it and
/// the agreements what is kept is right, with its pointers pending before the others.
pub fn referents_are_read()
    ensures refused { (w : Setting) (side : IsLegalSide w) (order : Order) (fetched : List ℕ) (noted : List Item) (direct : ℕ) (b : Between)
        (s : Reading) (seen : List EntryAt) (p : Pending) (ps : List Pending) (n : ℕ)
        → Agrees w side order fetched noted direct b s seen (p ∷ ps) n → (c : ℕ) → p.cell ≡ Some c → (p.class ≡ Full → kept_at b.read c ≡ None)
        → RefusesWith the_head w order fetched (home_target w order b seen (cell_home c) p.to s.names) }
    ensures goes { (w : Setting) (side : IsLegalSide w) (order : Order) (fetched : List ℕ) (noted : List Item) (direct : ℕ) (b : Between)
        (s : Reading) (seen : List EntryAt) (p : Pending) (ps : List Pending) (n : ℕ)
        → Agrees w side order fetched noted direct b s seen (p ∷ ps) n → (c : ℕ) → p.cell ≡ Some c → (p.class ≡ Full → kept_at b.read c ≡ None)
        → GoesWith the_head w order fetched (home_target w order b seen (cell_home c) p.to s.names) }
    ensures disagrees { (w : Setting) (side : IsLegalSide w) (order : Order) (fetched : List ℕ) (noted : List Item) (direct : ℕ) (b : Between)
        (s : Reading) (seen : List EntryAt) (p : Pending) (ps : List Pending) (n : ℕ)
        → Agrees w side order fetched noted direct b s seen (p ∷ ps) n → (c : ℕ) → p.cell ≡ Some c → (p.class ≡ Full → kept_at b.read c ≡ None)
        → (more : List ℕ) → AreOctets more → (noted' : List Item) (x : State)
        → (is : Whole order (fetched ++ more) w.table (cell_home c) p.to noted' direct (home_target w order b seen (cell_home c) p.to s.names) x)
        → AreNeeded (home_target w order b seen (cell_home c) p.to s.names) fetched more
        → (k : Kept) → IsKeptHome x k → (ws : List Agreement) (a : Agreement) (others : List Agreement) (why : ℕ × Reason)
        → p.agreements ≡ ws ++ a ∷ others → AllAgree k ws → disagreement a k.first k.max_at ≡ Some why
        → IsRefusedAfter w order (fetched ++ more) noted' (length x.cells) direct x.at why }
    ensures ends { (w : Setting) (side : IsLegalSide w) (order : Order) (fetched : List ℕ) (noted : List Item) (direct : ℕ) (b : Between)
        (s : Reading) (seen : List EntryAt) (p : Pending) (ps : List Pending) (n : ℕ)
        → Agrees w side order fetched noted direct b s seen (p ∷ ps) n → (c : ℕ) → p.cell ≡ Some c → (p.class ≡ Full → kept_at b.read c ≡ None)
        → (more : List ℕ) → AreOctets more → (noted' : List Item) (x : State)
        → (is : Whole order (fetched ++ more) w.table (cell_home c) p.to noted' direct (home_target w order b seen (cell_home c) p.to s.names) x)
        → AreNeeded (home_target w order b seen (cell_home c) p.to s.names) fetched more
        → (k : Kept) → IsKeptHome x k → AllAgree k p.agreements → (read : List (Option Kept)) → CellKept c k b.read read → (g : Graph)
        → CellFilled s.roots c is.v x.cells b.graph g
        → (then : Reading) × (so : List EntryAt) × (qs : List Pending)
        × Agrees w side order (fetched ++ more) noted' direct (cell_read (taken b) x b.roots read g) then so qs n }
{}

/// The next of the pending referents, where nothing of it is read: the pointer is null, or it is full and its referent was read; then its agreements
/// are tried.
pub fn referents_are_passed()
    ensures null { (w : Setting) (side : IsLegalSide w) (order : Order) (fetched : List ℕ) (noted : List Item) (direct : ℕ) (b : Between)
        (s : Reading) (seen : List EntryAt) (p : Pending) (ps : List Pending) (n : ℕ)
        → Agrees w side order fetched noted direct b s seen (p ∷ ps) n → p.cell ≡ None
        → (then : Reading) × Agrees w side order fetched noted direct (taken b) then seen ps n }
    ensures read { (w : Setting) (side : IsLegalSide w) (order : Order) (fetched : List ℕ) (noted : List Item) (direct : ℕ) (b : Between)
        (s : Reading) (seen : List EntryAt) (p : Pending) (ps : List Pending) (n : ℕ)
        → Agrees w side order fetched noted direct b s seen (p ∷ ps) n → (c : ℕ) → p.cell ≡ Some c → p.class ≡ Full → (k : Kept)
        → kept_at b.read c ≡ Some k → AllAgree k p.agreements
        → (then : Reading) × (so : List EntryAt) × Agrees w side order fetched noted direct (taken b) then so ps n }
    ensures disagrees { (w : Setting) (side : IsLegalSide w) (order : Order) (fetched : List ℕ) (noted : List Item) (direct : ℕ) (b : Between)
        (s : Reading) (seen : List EntryAt) (p : Pending) (ps : List Pending) (n : ℕ)
        → Agrees w side order fetched noted direct b s seen (p ∷ ps) n → (c : ℕ) → p.cell ≡ Some c → p.class ≡ Full → (k : Kept)
        → kept_at b.read c ≡ Some k
        → (ws : List Agreement) (a : Agreement) (others : List Agreement) (why : ℕ × Reason) → p.agreements ≡ ws ++ a ∷ others → AllAgree k ws
        → disagreement a k.first k.max_at ≡ Some why
        → IsRefusedAfter w order fetched noted (length b.cells) direct b.at why }
{}

/// A home that the reader refuses, or of which it passes some entries, where reading was cut off: so it is of the stream, or of its head. Each of the
/// octets is needed, if each of those of the home is.
pub fn homes_have_faults()
    ensures refused { (x : Extent) (w : Setting) (order : Order) (fetched : List ℕ) → AreOctets fetched → IsNeeded w order fetched
        → (target : List ℕ → Read) (added : List ℕ) → AreOctets added
        → RefusesWith x w order fetched target → AreNeeded target fetched added
        → (noted : List Item) (n place : ℕ) (why : Reason) (at : ℕ) (seen : List EntryAt)
        → (target (fetched ++ added)).progress ≡ stopped at seen (place, why) → items order (fetched ++ added) seen ≡ noted → AreCells w seen n
        → StreamRefused x w order (fetched ++ added) noted n place why }
    ensures cut_off { (x : Extent) (w : Setting) (order : Order) (fetched : List ℕ) → AreOctets fetched → IsNeeded w order fetched
        → (target : List ℕ → Read) (added : List ℕ) → AreOctets added
        → GoesWith x w order fetched target → (noted : List Item) (n : ℕ) (seen after : List EntryAt)
        → (target (fetched ++ added)).progress.seen ≡ seen ++ after
        → items order (fetched ++ added) seen ≡ noted → AreCells w seen n → StreamCut x w order (fetched ++ added) noted n }
{}

/// What two calls come to, one after the other: so of the stream, and so of its head.
pub fn calls_are_joined()
    ensures took { (a b c : SourceOver) (s t u : DecodingSeen) → Follows a b c s t u → (n m k : ℕ) (os ps : List ℕ) (xs ys : List Item)
        → Took a s n os xs m → Took b t m ps ys k → Took c u n (os ++ ps) (xs ++ ys) k }
    ensures refused { (a b c : SourceOver) (s t u : DecodingSeen) → Follows a b c s t u
        → (x : Extent) (w : Setting) (order : Order) (fetched : List ℕ) (noted : List Item) (n m : ℕ) (os : List ℕ) (xs : List Item)
        → Took a s n os xs m
        → (place : ℕ) (why : Reason) → Refused x w order (fetched ++ os) (noted ++ xs) m b t place why
        → Refused x w order fetched noted n c u place why }
    ensures unread { (a b c : SourceOver) (s t u : DecodingSeen) → Follows a b c s t u
        → (x : Extent) (w : Setting) (order : Order) (fetched : List ℕ) (noted : List Item) (n m : ℕ) (os : List ℕ) (xs : List Item)
        → Took a s n os xs m
        → Unread x w order (fetched ++ os) (noted ++ xs) m b t → Unread x w order fetched noted n c u }
    ensures cut_off { (a b c : SourceOver) (s t u : DecodingSeen) → Follows a b c s t u
        → (x : Extent) (w : Setting) (order : Order) (fetched : List ℕ) (noted : List Item) (n m : ℕ) (os : List ℕ) (xs : List Item)
        → Took a s n os xs m
        → CutOff x w order (fetched ++ os) (noted ++ xs) m b t → CutOff x w order fetched noted n c u }
{}

/// Where nothing is pending any more, and perhaps some agreements of parameters were tried: the number that is kept of a variable is the one that it
/// is, or that is in the cell that it names. The agreements of a parameter hold, or are refused, as in what is kept of its subject; a null pointer
/// has none. So many roots are left, the pipes.
pub fn parameters_are_tried()
    ensures number { (w : Setting) (side : IsLegalSide w) (order : Order) (fetched : List ℕ) (noted : List Item) (direct : ℕ) (b : Between)
        (s : Reading) (before : List EntryAt) (n pipes : ℕ)
        → Agrees w side order fetched noted direct b s before [] n → (seen : List EntryAt) → Keeps w order fetched noted direct b s seen []
        → (v : ℕ) (star : Bool)
        → root_number b.read star (slice_get b.roots v) ≡ starred (with_pipes s pipes) star (root_at (with_pipes s pipes) v) }
    ensures holds { (w : Setting) (side : IsLegalSide w) (order : Order) (fetched : List ℕ) (noted : List Item) (direct : ℕ) (b : Between)
        (s : Reading) (before : List EntryAt) (n pipes : ℕ)
        → Agrees w side order fetched noted direct b s before [] n → (seen : List EntryAt) → Keeps w order fetched noted direct b s seen []
        → (i : ℕ) (ws : List Agreement)
        → ((k : Kept) → root_subject b.read (slice_get b.roots i) ≡ Some k → AllAgree k ws)
        → TestsPass w order fetched noted direct b s seen (root_test (with_pipes s pipes) i (root_at (with_pipes s pipes) i) ws) }
    ensures disagrees { (w : Setting) (side : IsLegalSide w) (order : Order) (fetched : List ℕ) (noted : List Item) (direct : ℕ) (b : Between)
        (s : Reading) (before : List EntryAt) (n pipes : ℕ)
        → Agrees w side order fetched noted direct b s before [] n → (seen : List EntryAt) → Keeps w order fetched noted direct b s seen []
        → (i : ℕ) (a : Agreement) (k : Kept)
        → root_subject b.read (slice_get b.roots i) ≡ Some k → (why : ℕ × Reason) → disagreement a k.first k.max_at ≡ Some why
        → TestsStop w order fetched noted direct b s seen (root_test (with_pipes s pipes) i (root_at (with_pipes s pipes) i) (a ∷ [])) why }
{}

/// Where nothing is due any more: if all agreements of the parameters hold, the pipes come next; if one of them is refused, so is the head.
pub fn parameters_end()
    ensures pass { (w : Setting) (side : IsLegalSide w) (order : Order) (fetched : List ℕ) (noted : List Item) (direct : ℕ) (b : Between)
        (s : Reading) (seen : List EntryAt) → Agrees w side order fetched noted direct b s seen [] 0
        → (after : List EntryAt) → ((later : List ℕ) → pass_all order (fetched ++ later) (parameter_tests w s) (going b.at seen) ≡ going b.at after)
        → (later : List ℕ) → AreOctets later → read_stream w order (fetched ++ later) ≡ pipes_from w order (fetched ++ later) s (going b.at after) }
    ensures stop { (w : Setting) (side : IsLegalSide w) (order : Order) (fetched : List ℕ) (noted : List Item) (direct : ℕ) (b : Between)
        (s : Reading) (seen : List EntryAt) → Agrees w side order fetched noted direct b s seen [] 0
        → (after : List EntryAt) (why : ℕ × Reason)
        → ((later : List ℕ) → pass_all order (fetched ++ later) (parameter_tests w s) (going b.at seen) ≡ stopped b.at after why)
        → (later : List ℕ) → AreOctets later → head_read w order (fetched ++ later) ≡ stopped b.at after why }
{}

/// The reference pointers among the roots that were read are no more than those among all roots, with one more where the next root is one.
pub fn references_are_few()
    ensures now { (w : Setting) (side : IsLegalSide w) (order : Order) (fetched : List ℕ) (noted : List Item) (direct : ℕ) (b : Between)
        (s : Reading) (seen : List EntryAt) (ps : List Pending) (n : ℕ)
        → Agrees w side order fetched noted direct b s seen ps n → direct ≤ length (direct_roots w) }
    ensures next { (w : Setting) (side : IsLegalSide w) (order : Order) (fetched : List ℕ) (noted : List Item) (direct : ℕ) (b : Between)
        (s : Reading) (seen : List EntryAt) (ps : List Pending) (n : ℕ)
        → Agrees w side order fetched noted direct b s seen ps n → (r : Root) → slice_get (root_list w) (length s.roots) ≡ Some r
        → is_direct (type_at w.table r.of) ≡ true → direct + 1 ≤ length (direct_roots w) }
{}

/// What is reported of octets that the plain reader reads to their end, that it refuses, that it finds cut short where the source failed, or of which
/// it passes some entries. Where it refuses what comes before the pipes, it refuses the stream.
pub fn streams_are_reported()
    ensures decoded { (w : Setting) → IsLegalSide w → (order : Order) (s : SourceOver) (t : DecodingSeen) (fetched : List ℕ) → AreOctets fetched
        → (seen : List EntryAt) (noted : List Item) (g : Graph) (count : ℕ)
        → (read_stream w order fetched).progress ≡ going (length fetched) seen → (read_stream w order fetched).graph ≡ g
        → items order fetched seen ≡ noted → Consumes s.left s.left_now fetched
        → length fetched ≡ count → HasNoted noted t → t.steps_now ≡ t.steps + length (but_gaps noted) + length g.cells
        → IsDecoded w order s count g t }
    ensures refused { (w : Setting) → IsLegalSide w
        → (order : Order) (s : SourceOver) (t : DecodingSeen) (fetched : List ℕ) (noted : List Item) (n place : ℕ) (why : Reason)
        → StreamRefused the_stream w order fetched noted n place why
        → IsReported noted n t → Consumes s.left s.left_now fetched → (why ≡ Truncated → s.ended_now ≡ true) → (why ≡ Truncated → IsAtEnd s.left_now)
        → IsRefused w order s place why t }
    ensures unread { (w : Setting) → IsLegalSide w
        → (order : Order) (s : SourceOver) (t : DecodingSeen) (fetched : List ℕ) (noted : List Item) (n : ℕ)
        → StreamRefused the_stream w order fetched noted n (length fetched) Truncated
        → IsReported noted n t → Consumes s.left s.left_now fetched → IsUnread w order s t }
    ensures cut_off { (w : Setting) → IsLegalSide w
        → (order : Order) (s : SourceOver) (t : DecodingSeen) (fetched : List ℕ) (noted : List Item) (n : ℕ)
        → StreamCut the_stream w order fetched noted n
        → IsReported noted n t → Consumes s.left s.left_now fetched → IsCutOff w order s t }
    ensures of_head { (w : Setting) (order : Order) (octets : List ℕ) (x : Extent) (noted : List Item) (n place : ℕ) (why : Reason)
        → StreamRefused x w order octets noted n place why
        → StreamRefused the_stream w order octets noted n place why }
    ensures cut_head { (w : Setting) (order : Order) (octets : List ℕ) (x : Extent) (noted : List Item) (n : ℕ) → StreamCut x w order octets noted n
        → StreamCut the_stream w order octets noted n }
{}
