//! Laws of pipes, each the contract of a function that does nothing.
ghost use Rattle.std.specs.Prelude.{◌≡◌, ◌≤◌, ◌<◌, ◌^◌, ◌-◌, ◌+◌, ◌++◌, ◌∷◌, [], ℕ, pos, suc, drop, List, Option, Some, None, length};
ghost use Rattle.nd_base.specs.declared.octets.Order.{Order};
ghost use Rattle.nd_base.specs.declared.TheConstants.{STREAM_LIMIT};
ghost use Rattle.nd_types.specs.declared.types.TypeId.{TypeId};
ghost use Rattle.nd_types.specs.declared.types.TypeDef.TheVariants.{Pipe};
ghost use Rattle.nd_types.specs.Number.{AreOctets, unsigned};
ghost use Rattle.nd_types.specs.Roots.{Root};
ghost use Rattle.nd_types.specs.Table.{type_at};
ghost use Rattle.nd_value.specs.declared.item.Home.TheVariants as home;
ghost use Rattle.nd_value.specs.declared.item.Item.{Item};
ghost use Rattle.nd_value.specs.Deferral.{before_pipes};
ghost use Rattle.nd_value.specs.Setting.{Setting, root_list};
ghost use Rattle.nd_value.specs.Tree as tree;
ghost use Rattle.nd_value.specs.Tree.{Flat, Tree, Trees, count, flat, more, node, none};
ghost use Rattle.nd_grammar.specs.declared.reason.Reason.{Reason};
ghost use Rattle.nd_grammar.specs.declared.reason.Reason.TheVariants.{Truncated, TooLong};
ghost use Rattle.nd_grammar.specs.Entry.{EntryAt, gap};
ghost use Rattle.nd_grammar.specs.LegalSide.{IsLegalSide};
ghost use Rattle.nd_grammar.specs.Reader.{Names};
ghost use Rattle.nd_grammar.specs.StreamReader.{Reading, graph_of, read_stream};
ghost use Rattle.ndr_code.specs.Code.{place_at};
ghost use Rattle.ndr_code.specs.declared.instr.Instr.{Instr};
ghost use Rattle.ndr_code.specs.declared.lists.EnumList.{EnumList};
ghost use Rattle.ndr_decoder_laws.specs.reader.Around.{going, stopped};
ghost use Rattle.ndr_decoder_laws.specs.steps.Chunks.{chunk_read};
ghost use Rattle.ndr_decoder_laws.specs.steps.Good.{Good, Whole};
ghost use Rattle.ndr_decoder_laws.specs.steps.Spots.{IsFine, IsPlanned};
ghost use Rattle.ndr_decoder_laws.specs.steps.StepItems.{gap_items};
ghost use Rattle.ndr_decoder_laws.specs.steps.Steps.{State};
ghost use Rattle.ndr_decoder_laws.specs.stream.Added.{Goes};
ghost use Rattle.ndr_decoder_laws.specs.stream.Between.{AreNeeded, Between, Keeps};
ghost use Rattle.ndr_decoder_laws.specs.stream.Parameters.{pipes_from};
ghost use Rattle.nd_grammar.specs.decoded.Needed.{IsNeeded};
ghost use Rattle.ndr_decoder_laws.specs.pipes.Pipes.{InPipe, InPipes, Position, OpensChunk, at_chunk, at_count, at_elements, count_item, pipes_due};
ghost use Rattle.ndr_decoder_laws.specs.pipes.Pipes.{kids_of, past_count, past_gap, read_to};

/// After the agreements of the parameters the pipes come, if there are any. The next of them begins without elements. After the last of them the
/// plain reader has read all that was fetched, and these are the roots.
pub fn pipes_are_read()
    ensures begin { (w : Setting) → IsLegalSide w
        → (order : Order) (fetched : List ℕ) (noted : List Item) (direct : ℕ) (b : Between) (s : Reading) (after : List EntryAt) → AreOctets fetched
        → Keeps w order fetched noted direct b s after []
        → length s.roots ≡ before_pipes (root_list w) → IsNeeded w order fetched
        → ((later : List ℕ) → AreOctets later → read_stream w order (fetched ++ later) ≡ pipes_from w order (fetched ++ later) s (going b.at after))
        → InPipes w order fetched noted direct s.names (before_pipes (root_list w)) (drop (before_pipes (root_list w)) (root_list w)) s.roots
        (pipes_due b after s.names) }
    ensures next { (w : Setting) (order : Order) (fetched : List ℕ) (noted : List Item) (direct : ℕ) (first : Names) (i : ℕ) (rs : List Root)
        (roots : List Tree) (k : Position) (r : Root) (elem : TypeId) → type_at w.table r.of ≡ Some (Pipe elem)
        → InPipes w order fetched noted direct first i (r ∷ rs) roots k
        → InPipe w order fetched noted direct first i rs roots elem none None 4 (at_chunk w order i elem none k) k }
    ensures adds { (w : Setting) (order : Order) (fetched : List ℕ) (noted : List Item) (direct : ℕ) (first : Names) (i : ℕ) (rs : List Root)
        (roots : List Tree) (k : Position) → InPipes w order fetched noted direct first i rs roots k
        → (later : List ℕ) → AreOctets later → Goes (going k.at k.seen) (read_stream w order (fetched ++ later)).progress }
    ensures end { (w : Setting) (order : Order) (fetched : List ℕ) (noted : List Item) (direct : ℕ) (first : Names) (i : ℕ) (roots : List Tree)
        (k : Position) → InPipes w order fetched noted direct first i [] roots k
        → ((read_stream w order fetched).progress ≡ going (length fetched) k.seen) × ((read_stream w order fetched).graph ≡ graph_of roots first) }
{}

/// The gap before the count of a chunk is cut short, or passes.
pub fn gaps_are_read()
    ensures cut { (w : Setting) (order : Order) (fetched : List ℕ) (noted : List Item) (direct : ℕ) (first : Names) (i : ℕ) (rs : List Root)
        (roots : List Tree) (elem : TypeId) (done : Trees) (max_at : Option ℕ) (k : Position)
        → InPipe w order fetched noted direct first i rs roots elem done max_at 4 (at_chunk w order i elem done k) k
        → (os : List ℕ) → AreOctets os → length os < gap k.at 4
        → (read_stream w order (fetched ++ os)).progress ≡ stopped k.at k.seen (length (fetched ++ os), Truncated) }
    ensures passes { (w : Setting) (order : Order) (fetched : List ℕ) (noted : List Item) (direct : ℕ) (first : Names) (i : ℕ) (rs : List Root)
        (roots : List Tree) (elem : TypeId) (done : Trees) (max_at : Option ℕ) (k : Position)
        → InPipe w order fetched noted direct first i rs roots elem done max_at 4 (at_chunk w order i elem done k) k
        → (os : List ℕ) → AreOctets os → length os ≡ gap k.at 4
        → InPipe w order (fetched ++ os) (noted ++ gap_items (home.Root i) k.at os) direct first i rs roots elem done max_at 4
        (at_count w order i elem done (past_gap i os k)) (past_gap i os k) }
    ensures adds { (w : Setting) (order : Order) (fetched : List ℕ) (noted : List Item) (direct : ℕ) (first : Names) (i : ℕ) (rs : List Root)
        (roots : List Tree) (elem : TypeId) (done : Trees) (max_at : Option ℕ) (k : Position)
        → InPipe w order fetched noted direct first i rs roots elem done max_at 4 (at_chunk w order i elem done k) k
        → (later : List ℕ) → AreOctets later → Goes (going k.at k.seen) (read_stream w order (fetched ++ later)).progress }
{}

/// The count of a chunk would end past the limit of a stream, or is cut short; where it is 0, the pipe ends with the elements so far; else so many
/// elements come.
pub fn counts_are_read()
    ensures long { (w : Setting) (order : Order) (fetched : List ℕ) (noted : List Item) (direct : ℕ) (first : Names) (i : ℕ) (rs : List Root)
        (roots : List Tree) (elem : TypeId) (done : Trees) (max_at : Option ℕ) (k : Position)
        → InPipe w order fetched noted direct first i rs roots elem done max_at 4 (at_count w order i elem done k) k
        → STREAM_LIMIT < k.at + 4 → (later : List ℕ) → AreOctets later
        → (read_stream w order (fetched ++ later)).progress ≡ stopped k.at k.seen (STREAM_LIMIT, TooLong) }
    ensures cut { (w : Setting) (order : Order) (fetched : List ℕ) (noted : List Item) (direct : ℕ) (first : Names) (i : ℕ) (rs : List Root)
        (roots : List Tree) (elem : TypeId) (done : Trees) (max_at : Option ℕ) (k : Position)
        → InPipe w order fetched noted direct first i rs roots elem done max_at 4 (at_count w order i elem done k) k
        → (os : List ℕ) → AreOctets os → length os < 4 → k.at + 4 ≤ STREAM_LIMIT
        → (read_stream w order (fetched ++ os)).progress ≡ stopped k.at k.seen (length (fetched ++ os), Truncated) }
    ensures end { (w : Setting) (order : Order) (fetched : List ℕ) (noted : List Item) (direct : ℕ) (first : Names) (i : ℕ) (rs : List Root)
        (roots : List Tree) (elem : TypeId) (done : Trees) (max_at : Option ℕ) (k : Position)
        → InPipe w order fetched noted direct first i rs roots elem done max_at 4 (at_count w order i elem done k) k
        → (os : List ℕ) → AreOctets os → length os ≡ 4 → k.at + 4 ≤ STREAM_LIMIT → unsigned order os ≡ 0
        → InPipes w order (fetched ++ os) (noted ++ count_item order i os k) direct first (i + 1) rs (roots ++ node tree.Pipe done ∷ [])
        (past_count order i os k) }
    ensures elements { (w : Setting) (order : Order) (fetched : List ℕ) (noted : List Item) (direct : ℕ) (first : Names) (i : ℕ) (rs : List Root)
        (roots : List Tree) (elem : TypeId) (done : Trees) (max_at : Option ℕ) (k : Position)
        → InPipe w order fetched noted direct first i rs roots elem done max_at 4 (at_count w order i elem done k) k
        → (os : List ℕ) → AreOctets os → length os ≡ 4 → k.at + 4 ≤ STREAM_LIMIT → (c : ℕ) → unsigned order os ≡ suc c
        → InPipe w order (fetched ++ os) (noted ++ count_item order i os k) direct first i rs roots elem done max_at 0
        (at_elements (suc c) w order i elem done (past_count order i os k)) (past_count order i os k) }
    ensures adds { (w : Setting) (order : Order) (fetched : List ℕ) (noted : List Item) (direct : ℕ) (first : Names) (i : ℕ) (rs : List Root)
        (roots : List Tree) (elem : TypeId) (done : Trees) (max_at : Option ℕ) (k : Position)
        → InPipe w order fetched noted direct first i rs roots elem done max_at 4 (at_count w order i elem done k) k
        → (later : List ℕ) → AreOctets later → Goes (going k.at k.seen) (read_stream w order (fetched ++ later)).progress }
{}

/// The elements of a chunk, or the first of them: at their beginning the state means these. Where one of them is refused, the stream is. After all of
/// them the next chunk is due, and the pipe has so many elements more. A pipe of more nodes than a machine counts has no end.
pub fn elements_are_read()
    ensures begin { (w : Setting) → IsLegalSide w
        → (order : Order) (fetched : List ℕ) (noted : List Item) (direct : ℕ) (first : Names) (i : ℕ) (rs : List Root) (roots : List Tree) (pipe : ℕ)
        (elem : TypeId) (done : Trees) (max_at : Option ℕ) (c r m : ℕ) (k : Position)
        → suc c + r ≡ m → type_at w.table pipe ≡ Some (Pipe elem)
        → InPipe w order fetched noted direct first i rs roots elem done max_at 0 (at_elements m w order i elem done k) k
        → (values : List EnumList) (code : List Instr) → IsPlanned code values w.table → IsFine w.table 32 elem.0 → (x : State)
        → OpensChunk (place_at w.table elem.0) c done max_at k x
        → Good order fetched code w.table (home.Root i) pipe 33 noted direct
        (chunk_read order w.table (home.Root i) elem done (suc c) (going k.at k.seen) k.names) x }
    ensures refused { (w : Setting) → IsLegalSide w
        → (order : Order) (fetched : List ℕ) (noted : List Item) (direct : ℕ) (first : Names) (i : ℕ) (rs : List Root) (roots : List Tree) (pipe : ℕ)
        (elem : TypeId) (done : Trees) (max_at : Option ℕ) (c r m : ℕ) (k : Position)
        → suc c + r ≡ m → type_at w.table pipe ≡ Some (Pipe elem)
        → InPipe w order fetched noted direct first i rs roots elem done max_at 0 (at_elements m w order i elem done k) k
        → (later : List ℕ) → AreOctets later → (at : ℕ) (seen : List EntryAt) (why : ℕ × Reason)
        → (chunk_read order w.table (home.Root i) elem done (suc c) (going k.at k.seen) k.names (fetched ++ later)).progress ≡ stopped at seen why
        → (read_stream w order (fetched ++ later)).progress ≡ stopped at seen why }
    ensures adds { (w : Setting) → IsLegalSide w
        → (order : Order) (fetched : List ℕ) (noted : List Item) (direct : ℕ) (first : Names) (i : ℕ) (rs : List Root) (roots : List Tree) (pipe : ℕ)
        (elem : TypeId) (done : Trees) (max_at : Option ℕ) (c r m : ℕ) (k : Position)
        → suc c + r ≡ m → type_at w.table pipe ≡ Some (Pipe elem)
        → InPipe w order fetched noted direct first i rs roots elem done max_at 0 (at_elements m w order i elem done k) k
        → (later : List ℕ) → AreOctets later
        → Goes (chunk_read order w.table (home.Root i) elem done (suc c) (going k.at k.seen) k.names (fetched ++ later)).progress
        (read_stream w order (fetched ++ later)).progress }
    ensures come { (w : Setting) → IsLegalSide w
        → (order : Order) (fetched : List ℕ) (noted : List Item) (direct : ℕ) (first : Names) (i : ℕ) (rs : List Root) (roots : List Tree) (pipe : ℕ)
        (elem : TypeId) (done : Trees) (max_at : Option ℕ) (c r m : ℕ) (k : Position)
        → suc c + r ≡ m → type_at w.table pipe ≡ Some (Pipe elem)
        → InPipe w order fetched noted direct first i rs roots elem done max_at 0 (at_elements m w order i elem done k) k
        → (later : List ℕ) → AreOctets later → Goes (going k.at k.seen) (read_stream w order (fetched ++ later)).progress }
    ensures end { (w : Setting) → IsLegalSide w
        → (order : Order) (fetched : List ℕ) (noted : List Item) (direct : ℕ) (first : Names) (i : ℕ) (rs : List Root) (roots : List Tree) (pipe : ℕ)
        (elem : TypeId) (done : Trees) (max_at : Option ℕ) (c : ℕ) (k : Position)
        → type_at w.table pipe ≡ Some (Pipe elem)
        → InPipe w order fetched noted direct first i rs roots elem done max_at 0 (at_elements (suc c) w order i elem done k) k
        → (next : List ℕ) → AreOctets next → (noted' : List Item) (x : State)
        → (is : Whole order (fetched ++ next) w.table (home.Root i) pipe noted' direct
        (chunk_read order w.table (home.Root i) elem done (suc c) (going k.at k.seen) k.names) x)
        → AreNeeded (chunk_read order w.table (home.Root i) elem done (suc c) (going k.at k.seen) k.names) fetched next → IsFine w.table 32 elem.0
        → InPipe w order (fetched ++ next) noted' direct first i rs roots elem (kids_of is.v) x.max_at 4
        (at_chunk w order i elem (kids_of is.v) (read_to x is.seen is.names)) (read_to x is.seen is.names) }
    ensures few { (v : Tree) (ks : Trees) (nodes : List Flat) → v ≡ node tree.Pipe ks → nodes ≡ flat (more v none) → length nodes + 4096 < 2 ^ 32
        → count ks < 2 ^ 32 - 1 }
{}
