//! Laws of chunks that are read by themselves, each the contract of a function that does nothing.
ghost use Rattle.std.specs.Prelude.{◌≡◌, ◌≤◌, ◌<◌, ℕ, ◌+◌, suc, List, [], ◌∷◌, ◌++◌, length, Some, None};
ghost use Rattle.nd_base.specs.declared.octets.Order.{Order};
ghost use Rattle.nd_base.specs.declared.TheConstants.{STREAM_LIMIT};
ghost use Rattle.nd_types.specs.declared.types.TypeDef.TheVariants.{Pipe};
ghost use Rattle.nd_types.specs.declared.types.TypeId.{TypeId};
ghost use Rattle.nd_types.specs.Number.{AreOctets, unsigned};
ghost use Rattle.nd_types.specs.Table.{type_at};
ghost use Rattle.nd_value.specs.declared.item.Item.{Item};
ghost use Rattle.nd_value.specs.Setting.{Setting};
ghost use Rattle.nd_value.specs.Tree as tree;
ghost use Rattle.nd_value.specs.Tree.{items, node};
ghost use Rattle.nd_grammar.specs.declared.reason.Reason.{Reason};
ghost use Rattle.nd_grammar.specs.declared.reason.Reason.TheVariants.{TooLong, Truncated};
ghost use Rattle.nd_grammar.specs.Entry.{gap};
ghost use Rattle.nd_grammar.specs.LegalSide.{IsLegalSide};
ghost use Rattle.nd_grammar.specs.Stream.{kids_of};
ghost use Rattle.ndr_code.specs.declared.instr.Instr.{Instr};
ghost use Rattle.ndr_code.specs.declared.lists.EnumList.{EnumList};
ghost use Rattle.ndr_code.specs.Code.{place_at};
ghost use Rattle.ndr_drain_laws.specs.parts.Parts.{BadPart, IsPart, Spot};
ghost use Rattle.ndr_decoder_laws.specs.steps.Good.{Good, Whole};
ghost use Rattle.ndr_decoder_laws.specs.steps.Spots.{IsFine, IsPlanned};
ghost use Rattle.ndr_decoder_laws.specs.steps.StepItems.{gap_items};
ghost use Rattle.ndr_decoder_laws.specs.steps.Steps.{State};
ghost use Rattle.ndr_decoder_laws.specs.runs.Reaching.{IsSafe, Reaches};
ghost use Rattle.ndr_decoder_laws.specs.runs.Refusals.{IsRefusedHere};
ghost use Rattle.ndr_decoder_laws.specs.stream.Between.{AreNeeded};
ghost use Rattle.ndr_drain_laws.specs.reader.PartReader.{IsAtPipe, after_count, header_items, part_target, pipe_home, read_part, to_elements};
ghost use Rattle.ndr_drain_laws.specs.reader.PartReader.{type_of_root};
ghost use Rattle.ndr_drain_laws.specs.reader.Outcomes.{OpensPart, PartCut, PartRefused, PartWhole};

/// The plain reader of one chunk is right. Where it does not stop, the octets up to the place that it has reached are a chunk of the elements that it
/// finds. Where it stops, the octets are refused in the chunk, at that place and for that reason.
pub fn part_reader_is_right()
    ensures accepts { (w : Setting) → IsLegalSide w → (order : Order) (s : Spot) → IsAtPipe w s → (before octets : List ℕ) → length before ≡ s.place
        → AreOctets (before ++ octets)
        → (read_part w order (before ++ octets) s).progress.stop ≡ None
        → (read_part w order (before ++ octets) s).progress.at ≡ s.place + length octets
        → IsPart w order s (record { octets = octets; elements = items (read_part w order (before ++ octets) s).trees }) }
    ensures refuses { (w : Setting) → IsLegalSide w → (order : Order) (s : Spot) → IsAtPipe w s → (before octets : List ℕ) → length before ≡ s.place
        → AreOctets (before ++ octets)
        → (place : ℕ) (why : Reason) → (read_part w order (before ++ octets) s).progress.stop ≡ Some (place, why)
        → BadPart w order s octets place why }
{}

/// The gap before the count of a chunk is cut short, or reading is cut off in it.
pub fn gaps_are_met()
    ensures refused { (w : Setting) → IsLegalSide w → (order : Order) (s : Spot) → IsAtPipe w s → (os : List ℕ) → AreOctets os
        → length os < gap s.place 4
        → PartRefused w order s os [] (s.place + length os) Truncated }
    ensures cut { (w : Setting) → IsLegalSide w → (order : Order) (s : Spot) → IsAtPipe w s → (os : List ℕ) → AreOctets os → PartCut w order s os [] }
{}

/// The count of a chunk, after the octets `g` of its gap, would end past the limit of a stream, or is cut short, or reading is cut off in it; or it
/// is 0, and ends the pipe.
pub fn counts_are_met()
    ensures long { (w : Setting) → IsLegalSide w → (order : Order) (s : Spot) → IsAtPipe w s → (g : List ℕ) → AreOctets g → length g ≡ gap s.place 4
        → STREAM_LIMIT < after_count s → PartRefused w order s g (gap_items (pipe_home s) s.place g) STREAM_LIMIT TooLong }
    ensures refused { (w : Setting) → IsLegalSide w → (order : Order) (s : Spot) → IsAtPipe w s → (g os : List ℕ) → AreOctets g
        → length g ≡ gap s.place 4 → AreOctets os
        → length os < 4 → after_count s ≤ STREAM_LIMIT
        → PartRefused w order s (g ++ os) (gap_items (pipe_home s) s.place g) (s.place + length (g ++ os)) Truncated }
    ensures cut { (w : Setting) → IsLegalSide w → (order : Order) (s : Spot) → IsAtPipe w s → (g os : List ℕ) → AreOctets g
        → length g ≡ gap s.place 4 → AreOctets os
        → PartCut w order s (g ++ os) (gap_items (pipe_home s) s.place g) }
    ensures end { (w : Setting) → IsLegalSide w → (order : Order) (s : Spot) → IsAtPipe w s → (g os : List ℕ) → AreOctets g
        → length g ≡ gap s.place 4 → AreOctets os
        → length os ≡ 4 → after_count s ≤ STREAM_LIMIT → unsigned order os ≡ 0 → PartWhole w order s (g ++ os) [] (header_items order s g os) }
{}

/// The elements of a chunk, after the octets `g` of its gap and `os` of its count: at their beginning the state means them, and each state that is
/// reached is safe. Where they are whole, refused or cut off by a decoder, so they are in the chunk; and no cell is named.
pub fn elements_are_met()
    ensures begin { (w : Setting) → IsLegalSide w → (order : Order) (s : Spot) → IsAtPipe w s → (elem : TypeId)
        → type_at w.table (type_of_root w s.root) ≡ Some (Pipe elem)
        → (g os : List ℕ) → AreOctets g → length g ≡ gap s.place 4 → AreOctets os → length os ≡ 4 → after_count s ≤ STREAM_LIMIT → (c : ℕ)
        → unsigned order os ≡ suc c
        → (values : List EnumList) (code : List Instr) → IsPlanned code values w.table → IsFine w.table 32 elem.0 → (x : State)
        → OpensPart (place_at w.table elem.0) c (after_count s) x
        → Good order (to_elements s g os) code w.table (pipe_home s) (type_of_root w s.root) 33 (header_items order s g os) 0
        (part_target w order s elem c) x }
    ensures safe { (w : Setting) → IsLegalSide w → (order : Order) (s : Spot) → IsAtPipe w s → (elem : TypeId)
        → type_at w.table (type_of_root w s.root) ≡ Some (Pipe elem)
        → (g os : List ℕ) → AreOctets g → length g ≡ gap s.place 4 → AreOctets os → length os ≡ 4 → after_count s ≤ STREAM_LIMIT → (c : ℕ)
        → unsigned order os ≡ suc c
        → (values : List EnumList) (code : List Instr) → IsPlanned code values w.table → IsFine w.table 32 elem.0 → (x : State)
        → OpensPart (place_at w.table elem.0) c (after_count s) x
        → (fetched : List ℕ) (noted : List Item) (y : State) → Reaches values order code (pipe_home s) x fetched noted y → IsSafe code y }
    ensures whole { (w : Setting) → IsLegalSide w → (order : Order) (s : Spot) → IsAtPipe w s → (elem : TypeId)
        → type_at w.table (type_of_root w s.root) ≡ Some (Pipe elem)
        → (g os : List ℕ) → AreOctets g → length g ≡ gap s.place 4 → AreOctets os → length os ≡ 4 → after_count s ≤ STREAM_LIMIT → (c : ℕ)
        → unsigned order os ≡ suc c
        → (more : List ℕ) → AreOctets more → (noted : List Item) (x : State)
        → (it : Whole order (to_elements s g os ++ more) w.table (pipe_home s) (type_of_root w s.root) (header_items order s g os ++ noted) 0
        (part_target w order s elem c) x)
        → PartWhole w order s ((g ++ os) ++ more) (items (kids_of it.v)) (header_items order s g os ++ noted) }
    ensures refused { (w : Setting) → IsLegalSide w → (order : Order) (s : Spot) → IsAtPipe w s → (elem : TypeId)
        → type_at w.table (type_of_root w s.root) ≡ Some (Pipe elem)
        → (g os : List ℕ) → AreOctets g → length g ≡ gap s.place 4 → AreOctets os → length os ≡ 4 → after_count s ≤ STREAM_LIMIT → (c : ℕ)
        → unsigned order os ≡ suc c
        → (more : List ℕ) → AreOctets more → (noted : List Item) (cells place : ℕ) (why : Reason)
        → IsRefusedHere order (to_elements s g os ++ more) (header_items order s g os ++ noted) cells 0 (part_target w order s elem c) place why
        → AreNeeded (part_target w order s elem c) (to_elements s g os) more
        → PartRefused w order s ((g ++ os) ++ more) (header_items order s g os ++ noted) place why × (cells ≡ 0) }
    ensures cut { (w : Setting) → IsLegalSide w → (order : Order) (s : Spot) → IsAtPipe w s → (elem : TypeId)
        → type_at w.table (type_of_root w s.root) ≡ Some (Pipe elem)
        → (g os : List ℕ) → AreOctets g → length g ≡ gap s.place 4 → AreOctets os → length os ≡ 4 → after_count s ≤ STREAM_LIMIT → (c : ℕ)
        → unsigned order os ≡ suc c
        → (code : List Instr) (fetched more : List ℕ) → AreOctets fetched → AreOctets more → (noted : List Item) (x : State)
        → Good order (to_elements s g os ++ fetched) code w.table (pipe_home s) (type_of_root w s.root) 33 (header_items order s g os ++ noted) 0
        (part_target w order s elem c) x
        → PartCut w order s ((g ++ os) ++ (fetched ++ more)) (header_items order s g os ++ noted) × (length x.cells ≡ 0) }
    ensures pipe { (w : Setting) → IsLegalSide w → (order : Order) (s : Spot) → IsAtPipe w s → (elem : TypeId)
        → type_at w.table (type_of_root w s.root) ≡ Some (Pipe elem)
        → (g os : List ℕ) → AreOctets g → length g ≡ gap s.place 4 → AreOctets os → length os ≡ 4 → after_count s ≤ STREAM_LIMIT → (c : ℕ)
        → unsigned order os ≡ suc c
        → (more : List ℕ) → AreOctets more → (noted : List Item) (x : State)
        → (it : Whole order (to_elements s g os ++ more) w.table (pipe_home s) (type_of_root w s.root) (header_items order s g os ++ noted) 0
        (part_target w order s elem c) x)
        → (it.v ≡ node tree.Pipe (kids_of it.v)) × (length (items (kids_of it.v)) ≡ suc c) × (length x.cells ≡ 0) }
{}

/// Where reading was cut off, it was so too after the first of the items.
pub fn items_may_be_fewer()
    ensures { (w : Setting) (order : Order) (s : Spot) (octets : List ℕ) (first others : List Item) → PartCut w order s octets (first ++ others)
        → PartCut w order s octets first }
{}
