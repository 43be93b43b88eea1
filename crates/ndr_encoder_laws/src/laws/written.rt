//! Laws of what the runs of a plan write, each the contract of a function that does nothing.
ghost use Rattle.std.specs.Prelude.{◌≡◌, ℕ, ◌+◌, ◌*◌, ◌<◌, ◌≤◌, suc, List, [], ◌∷◌, replicate, Some};
ghost use Rattle.nd_types.specs.declared.types.Operation.{Operation};
ghost use Rattle.nd_types.specs.declared.types.TypeId.{TypeId};
ghost use Rattle.nd_types.specs.declared.types.TypeDef.TheVariants.{Pipe};
ghost use Rattle.nd_types.specs.Table.{Table, type_at};
ghost use Rattle.nd_value.specs.declared.item.Home.{Home};
ghost use Rattle.nd_value.specs.Tree as tree;
ghost use Rattle.nd_value.specs.Tree.{Trees, Label, node, none, more, flat, count, node_count};
ghost use Rattle.nd_grammar.specs.Entry.{hoisted_max, whole_value};
ghost use Rattle.nd_grammar.specs.Stream.{cut_of};
ghost use Rattle.ndr_code.specs.declared.instr.Instr.TheVariants.{Call, Ret};
ghost use Rattle.ndr_code.specs.Code.{whole_at, place_at, code_of};
ghost use Rattle.ndr_code.specs.Runs.{IsRunAt};
ghost use Rattle.ndr_encoder_laws.specs.pieces.Shown.{shown, pipe_pieces};
ghost use Rattle.ndr_encoder_laws.specs.written.Run.{run};
ghost use Rattle.ndr_encoder_laws.specs.written.Shaped.{Shaped};

/// Over the plan of a table, with enough steps, the whole run of a type writes exactly the pieces of a value of the type, its maximum count first if
/// the type hoists one.
pub fn home_written()
    ensures { (table : Table) (operations : List Operation) (d t : ℕ) (h : Home) (l : Label) (ks : Trees)
        → Shaped (suc d) table (t ∷ []) (more (node l ks) none)
        → suc d < 36 → (k limit : ℕ) → 8 + 9 * node_count (more (node l ks) none) ≤ limit
        → run (code_of table operations) (hoisted_max 0 (more (node l ks) none)) k limit (whole_at table t) [] (flat (more (node l ks) none))
        ≡ shown table (whole_value table h t (node l ks)) }
{}

/// The run of a pipe writes exactly the pieces of its elements in chunks of k, of which the last may have fewer, and the last count.
pub fn pipe_written()
    ensures { (table : Table) (operations : List Operation) (d t at : ℕ) (elem : TypeId) (ks : Trees)
        → IsRunAt (code_of table operations) at (Call (place_at table t) ∷ Ret ∷ [])
        → type_at table t ≡ Some (Pipe elem) → Shaped d table (replicate (count ks) elem.0) ks → d + 3 ≤ 36
        → (m k limit : ℕ) → 1 ≤ k → 8 + 9 * node_count ks ≤ limit
        → run (code_of table operations) m k limit at [] (flat (more (node tree.Pipe ks) none))
        ≡ pipe_pieces table (type_at table t) (cut_of k (count ks)) (node tree.Pipe ks) }
{}
