//! Laws of runs, each the contract of a function that does nothing.
ghost use Rattle.std.specs.Prelude.{◌≡◌, ◌≤◌, ◌<◌, ◌⊎◌, ◌*◌, ◌+◌, ◌%◌, ℕ, suc, List, [], ◌∷◌, ◌++◌, length, replicate, slice_get, Some};
ghost use Rattle.nd_base.specs.declared.octets.Order.{Order};
ghost use Rattle.nd_base.specs.declared.TheConstants.{STREAM_LIMIT};
ghost use Rattle.nd_types.specs.declared.types.Primitive.{Primitive};
ghost use Rattle.nd_types.specs.declared.types.TypeId.{TypeId};
ghost use Rattle.nd_types.specs.Number.{AreOctets};
ghost use Rattle.nd_types.specs.declared.types.TypeDef.TheVariants.{Pipe};
ghost use Rattle.nd_types.specs.Table.{Table, type_at, width};
ghost use Rattle.nd_value.specs.declared.item.Home.{Home};
ghost use Rattle.nd_value.specs.declared.item.Item.{Item};
ghost use Rattle.nd_value.specs.Setting.{Setting};
ghost use Rattle.nd_value.specs.Tree.{Trees, count};
ghost use Rattle.nd_grammar.specs.MadeTrees.{MadeTrees};
ghost use Rattle.nd_grammar.specs.declared.reason.Reason.{Reason};
ghost use Rattle.nd_grammar.specs.declared.reason.Reason.TheVariants.{Truncated, TooLong};
ghost use Rattle.nd_grammar.specs.LegalSide.{IsLegalSide};
ghost use Rattle.nd_grammar.specs.Reader.{Names, Progress, Read, read_whole};
ghost use Rattle.ndr_code.specs.declared.instr.Instr.{Instr};
ghost use Rattle.ndr_code.specs.declared.instr.Instr.TheVariants.{Num};
ghost use Rattle.ndr_code.specs.declared.lists.EnumList.{EnumList};
ghost use Rattle.ndr_decoder_laws.specs.steps.Spots.{IsFine, IsPlanned};
ghost use Rattle.ndr_decoder_laws.specs.steps.Steps.{State, refused, step, wants, whole};
ghost use Rattle.ndr_code.specs.Fields.{prim_of};
ghost use Rattle.ndr_decoder_laws.specs.steps.StepItems.{step_items};
ghost use Rattle.ndr_decoder_laws.specs.steps.Chunks.{chunk_read};
ghost use Rattle.ndr_decoder_laws.specs.steps.Good.{Good, Whole, HasOctets, IsCut, IsTooLong};
ghost use Rattle.ndr_decoder_laws.specs.runs.Paid.{IsPaid};
ghost use Rattle.ndr_decoder_laws.specs.runs.Reaching.{IsSafe, Reaches};
ghost use Rattle.ndr_decoder_laws.specs.runs.Refusals.{IsRefusedHere, IsShort};
ghost use Rattle.ndr_decoder_laws.specs.runs.Rows.{IsInRow, row_read, row_passed, row_items};
ghost use Rattle.ndr_decoder_laws.specs.runs.Records.{EndsWithin, Slot, IsRecordRun, records_came, records_len, record_flats, record_items};
ghost use Rattle.ndr_decoder_laws.specs.runs.Records.{records_read};
ghost use Rattle.ndr_decoder_laws.specs.declared.frame.Frame.TheVariants.{Elements};

/// A row of numbers is so many steps: at the `num` of an array's element, where so many more elements are left and none of them has a gap, the state
/// after the row is reached by steps, over the octets of the row, and their items are those of its numbers.
pub fn rows_are_steps()
    ensures { (values : List EnumList) (order : Order) (code : List Instr) (h : Home) (s0 : State) (p : Primitive) (n : ℕ) (s : State)
        (fetched os : List ℕ) (noted : List Item) (of : TypeId)
        → Reaches values order code h s0 fetched noted s → slice_get code s.pc ≡ Some (Num of) → prim_of of.0 ≡ p → IsInRow code n s.pc p s.top
        → AreOctets os → length os ≡ suc n * width p → s.at % width p ≡ 0 → s.at + length os ≤ STREAM_LIMIT
        → Reaches values order code h s0 (fetched ++ os) (noted ++ row_items order p h s.at (length s.nodes) (suc n) os)
        (row_read order p (suc n) os s) }
{}

/// Where one element more is left after a row, its `num` is reached too.
pub fn rows_go_on()
    ensures { (values : List EnumList) (order : Order) (code : List Instr) (h : Home) (s0 : State) (p : Primitive) (n : ℕ) (s : State)
        (fetched os : List ℕ) (noted : List Item) (of : TypeId)
        → Reaches values order code h s0 fetched noted s → slice_get code s.pc ≡ Some (Num of) → prim_of of.0 ≡ p → IsInRow code (suc n) s.pc p s.top
        → AreOctets os → length os ≡ suc n * width p → s.at % width p ≡ 0 → s.at + length os ≤ STREAM_LIMIT
        → Reaches values order code h s0 (fetched ++ os) (noted ++ row_items order p h s.at (length s.nodes) (suc n) os)
        (row_passed order p (suc n) os s) }
{}

/// Elements of an array that are structs of numbers are so many steps, from the `record` of the first to the `close` of the last: the state after
/// them is reached by steps, over the octets of their numbers and of the gaps before these, and their items are those of the gaps and numbers.
pub fn records_are_steps()
    ensures { (values : List EnumList) (order : Order) (code : List Instr) (h : Home) (s0 : State) (n more run back to : ℕ) (fs : List Slot)
        (s : State) (fetched os : List ℕ) (noted : List Item)
        → Reaches values order code h s0 fetched noted s → s.top ≡ Elements (n + more) run back → IsRecordRun code run s.pc to fs
        → length s.firsts ≡ length s.members
        → AreOctets os → length os ≡ records_len s.at to fs n → s.at + length os ≤ STREAM_LIMIT
        → Reaches values order code h s0 (fetched ++ os) (noted ++ record_items order h s.at (length s.nodes) to fs n os)
        (records_read (s.pc + 1 + length fs + 1) (s.at + length os) (record_flats order s.at to fs n os) (Elements more run back) s) }
{}

/// Where the octets end before the last of such elements does, they end within the gap or the number of one: what came before is so many steps, with
/// the items of the gaps and numbers whose octets have come.
pub fn records_are_cut()
    ensures { (values : List EnumList) (order : Order) (code : List Instr) (h : Home) (s0 : State) (n more run back to : ℕ) (fs : List Slot)
        (s : State) (fetched os : List ℕ) (noted : List Item)
        → Reaches values order code h s0 fetched noted s → s.top ≡ Elements (n + more) run back → IsRecordRun code run s.pc to fs
        → length s.firsts ≡ length s.members
        → AreOctets os → length os < records_len s.at to fs n → s.at + records_len s.at to fs n ≤ STREAM_LIMIT
        → EndsWithin values order code h s0 s.at s.cells fetched os noted (records_came order h s.at (length s.nodes) to fs n os) }
{}

/// From a state that means something to the plain reader each state that is reached does, after the octets and the items of its steps. What pays for
/// the nodes and cells of the first state does so for those of each that is reached, and at the end of a value.
pub fn runs_are_good()
    ensures good { (values : List EnumList) (order : Order) (code : List Instr) (table : Table) (h : Home) (own limit direct : ℕ)
        (target : List ℕ → Read) → IsPlanned code values table
        → (before : List ℕ) (earlier : List Item) (s0 : State) → Good order before code table h own limit earlier direct target s0
        → (fetched : List ℕ) (noted : List Item) (s : State) → Reaches values order code h s0 fetched noted s
        → Good order (before ++ fetched) code table h own limit (earlier ++ noted) direct target s }
    ensures octets { (values : List EnumList) (order : Order) (code : List Instr) (h : Home) (s0 : State) (fetched : List ℕ) (noted : List Item)
        (s : State) → Reaches values order code h s0 fetched noted s → AreOctets fetched }
    ensures paid { (values : List EnumList) (order : Order) (code : List Instr) (h : Home) (s0 : State) → IsPaid s0
        → (fetched : List ℕ) (noted : List Item) (s : State) → Reaches values order code h s0 fetched noted s → IsPaid s }
    ensures paid_whole { (values : List EnumList) (order : Order) (code : List Instr) (h : Home) (s0 : State) → IsPaid s0
        → (fetched : List ℕ) (noted : List Item) (s : State) → Reaches values order code h s0 fetched noted s → (i : Instr) (os : List ℕ)
        → HasOctets (wants values i s) os s.at
        → (s1 : State) → step values order os i s ≡ whole s1 → IsPaid s1 }
    ensures joined { (values : List EnumList) (order : Order) (code : List Instr) (h : Home) (s0 s1 s : State) (fetched more : List ℕ)
        (noted items : List Item)
        → Reaches values order code h s0 fetched noted s1 → Reaches values order code h s1 more items s
        → Reaches values order code h s0 (fetched ++ more) (noted ++ items) s }
{}

/// Each state that is reached within the value of a home is safe, on a side of an operation of a legal interface.
pub fn runs_are_safe()
    ensures { (w : Setting) → IsLegalSide w → (values : List EnumList) (order : Order) (code : List Instr) (h : Home) (own direct : ℕ)
        → IsPlanned code values w.table → IsFine w.table 32 own
        → (p : Progress) (names : Names) (before : List ℕ) → AreOctets before → length before ≤ STREAM_LIMIT → (earlier : List Item) (s0 : State)
        → Good order before code w.table h own 32 earlier direct (λ octets. read_whole order octets w.table h own p names) s0 → IsPaid s0
        → (fetched : List ℕ) (noted : List Item) (s : State) → Reaches values order code h s0 fetched noted s → IsSafe code s }
{}

/// So is each state that is reached within the elements of a chunk, where those of the chunks before are made.
pub fn chunks_are_safe()
    ensures { (w : Setting) → IsLegalSide w
        → (values : List EnumList) (order : Order) (code : List Instr) (h : Home) (pipe : ℕ) (elem : TypeId) (direct : ℕ)
        → IsPlanned code values w.table
        → type_at w.table pipe ≡ Some (Pipe elem) → IsFine w.table 32 elem.0 → (done : Trees)
        → MadeTrees w.table (replicate (count done) elem.0) done → (k : ℕ) (p : Progress) (names : Names)
        → (before : List ℕ) → AreOctets before → length before ≤ STREAM_LIMIT → (earlier : List Item) (s0 : State)
        → Good order before code w.table h pipe 33 earlier direct (chunk_read order w.table h elem done k p names) s0 → IsPaid s0
        → (fetched : List ℕ) (noted : List Item) (s : State) → Reaches values order code h s0 fetched noted s → IsSafe code s }
{}

/// Where a run ends the plain reader says the same. Where the last step comes to the end of the value, that is the value that the plain reader gives.
/// Where the last step is refused, where its octets are cut short and where they would end past the limit of a stream, the plain reader refuses the
/// octets there. Without its last octet it finds the octets cut short where they end then, for those of the steps and those of a last step or some of
/// these.
pub fn runs_end()
    ensures whole { (values : List EnumList) (order : Order) (code : List Instr) (table : Table) (h : Home) (own limit direct : ℕ)
        (target : List ℕ → Read) → IsPlanned code values table
        → (before : List ℕ) (earlier : List Item) (s0 : State) → Good order before code table h own limit earlier direct target s0
        → (fetched : List ℕ) (noted : List Item) (s : State) → Reaches values order code h s0 fetched noted s → (i : Instr)
        → slice_get code s.pc ≡ Some i → (os : List ℕ)
        → HasOctets (wants values i s) os s.at → (s1 : State) → step values order os i s ≡ whole s1
        → Whole order (before ++ (fetched ++ os)) table h own (earlier ++ (noted ++ step_items order h os i s)) direct target s1 }
    ensures refused { (values : List EnumList) (order : Order) (code : List Instr) (table : Table) (h : Home) (own limit direct : ℕ)
        (target : List ℕ → Read) → IsPlanned code values table
        → (before : List ℕ) (earlier : List Item) (s0 : State) → Good order before code table h own limit earlier direct target s0
        → (fetched : List ℕ) (noted : List Item) (s : State) → Reaches values order code h s0 fetched noted s → (i : Instr)
        → slice_get code s.pc ≡ Some i → (os : List ℕ)
        → HasOctets (wants values i s) os s.at → (place : ℕ) (why : Reason) → step values order os i s ≡ refused place why
        → IsRefusedHere order (before ++ (fetched ++ os)) (earlier ++ noted) (length s.cells) direct target place why }
    ensures cut { (values : List EnumList) (order : Order) (code : List Instr) (table : Table) (h : Home) (own limit direct : ℕ)
        (target : List ℕ → Read) → IsPlanned code values table
        → (before : List ℕ) (earlier : List Item) (s0 : State) → Good order before code table h own limit earlier direct target s0
        → (fetched : List ℕ) (noted : List Item) (s : State) → Reaches values order code h s0 fetched noted s → (i : Instr)
        → slice_get code s.pc ≡ Some i → (os : List ℕ)
        → IsCut (wants values i s) os s.at
        → IsRefusedHere order (before ++ (fetched ++ os)) (earlier ++ noted) (length s.cells) direct target (s.at + length os) Truncated }
    ensures long { (values : List EnumList) (order : Order) (code : List Instr) (table : Table) (h : Home) (own limit direct : ℕ)
        (target : List ℕ → Read) → IsPlanned code values table
        → (before : List ℕ) (earlier : List Item) (s0 : State) → Good order before code table h own limit earlier direct target s0
        → (fetched : List ℕ) (noted : List Item) (s : State) → Reaches values order code h s0 fetched noted s → (i : Instr)
        → slice_get code s.pc ≡ Some i → (os : List ℕ)
        → IsTooLong (wants values i s) s.at → os ≡ []
        → IsRefusedHere order (before ++ (fetched ++ os)) (earlier ++ noted) (length s.cells) direct target STREAM_LIMIT TooLong }
    ensures needed { (values : List EnumList) (order : Order) (code : List Instr) (table : Table) (h : Home) (own limit direct : ℕ)
        (target : List ℕ → Read) → IsPlanned code values table
        → (before : List ℕ) (earlier : List Item) (s0 : State) → Good order before code table h own limit earlier direct target s0
        → (fetched : List ℕ) (noted : List Item) (s : State) → Reaches values order code h s0 fetched noted s
        → (part : List ℕ) (last : ℕ) → fetched ≡ part ++ last ∷ [] → IsShort target (before ++ part) }
    ensures needed_then { (values : List EnumList) (order : Order) (code : List Instr) (table : Table) (h : Home) (own limit direct : ℕ)
        (target : List ℕ → Read) → IsPlanned code values table
        → (before : List ℕ) (earlier : List Item) (s0 : State) → Good order before code table h own limit earlier direct target s0
        → (fetched : List ℕ) (noted : List Item) (s : State) → Reaches values order code h s0 fetched noted s → (i : Instr)
        → slice_get code s.pc ≡ Some i → (os : List ℕ)
        → HasOctets (wants values i s) os s.at ⊎ IsCut (wants values i s) os s.at → (part : List ℕ) (last : ℕ) → fetched ++ os ≡ part ++ last ∷ []
        → IsShort target (before ++ part) }
{}
