//! Laws of the steps, each the contract of a function that does nothing.
ghost use Rattle.std.specs.Prelude.{◌≡◌, ◌≤◌, ◌<◌, ℕ, suc, true, false, List, [], ◌∷◌, ◌++◌, length, slice_get, Some};
ghost use Rattle.nd_base.specs.declared.octets.Order.{Order};
ghost use Rattle.nd_base.specs.declared.TheConstants.{STREAM_LIMIT};
ghost use Rattle.nd_types.specs.declared.types.Operation.{Operation};
ghost use Rattle.nd_types.specs.declared.types.TypeId.{TypeId};
ghost use Rattle.nd_types.specs.declared.types.TypeDef.TheVariants.{Pipe};
ghost use Rattle.nd_types.specs.Table.{Table, type_at};
ghost use Rattle.nd_types.specs.Legal.{IsLegal};
ghost use Rattle.nd_types.specs.Layout.{hoists};
ghost use Rattle.nd_value.specs.declared.item.Home.{Home};
ghost use Rattle.nd_value.specs.declared.item.Item.{Item};
ghost use Rattle.nd_value.specs.Tree.{Trees};
ghost use Rattle.nd_grammar.specs.declared.reason.Reason.TheVariants.{Truncated, TooLong};
ghost use Rattle.nd_grammar.specs.Reader.{Names, Read, read_whole};
ghost use Rattle.nd_grammar.specs.Entry.{EntryAt};
ghost use Rattle.ndr_code.specs.declared.instr.Instr.{Instr};
ghost use Rattle.ndr_code.specs.declared.instr.Instr.TheVariants.{Hoist, Call, Ret};
ghost use Rattle.ndr_code.specs.declared.lists.EnumList.{EnumList};
ghost use Rattle.ndr_code.specs.Code.{code_of, place_at, values_of};
ghost use Rattle.ndr_code.specs.Runs.{IsRunAt};
ghost use Rattle.ndr_decoder_laws.specs.reader.Around.{going, stopped};
ghost use Rattle.ndr_decoder_laws.specs.steps.Spots.{IsFine, IsPlanned};
ghost use Rattle.ndr_decoder_laws.specs.steps.Steps.{State, IsInner, wants, step};
ghost use Rattle.ndr_decoder_laws.specs.steps.StepItems.{step_items};
ghost use Rattle.ndr_decoder_laws.specs.steps.Chunks.{IsChunkBegun, chunk_read};
ghost use Rattle.ndr_decoder_laws.specs.steps.Good.{Good, IsBegun, IsRight, HasOctets, IsCut, IsTooLong};

/// One step is right: from a state that means something to the plain reader, at the instruction where the decoder is and with the octets that this
/// instruction wants, the step comes to such a state, or to the refusal of the plain reader, or to the whole value that the plain reader gives. The
/// items of the entries seen grow by those of the step. All is said for every list of octets that begins with those fetched.
pub fn steps_are_right()
    ensures { (order : Order) (fetched os : List ℕ) (code : List Instr) (values : List EnumList) (table : Table) (h : Home) (own limit : ℕ)
        (noted : List Item) (direct : ℕ) (target : List ℕ → Read) → IsPlanned code values table
        → (s : State) (g : Good order fetched code table h own limit noted direct target s) (i : Instr) → slice_get code s.pc ≡ Some i
        → HasOctets (wants values i s) os s.at
        → IsRight order (fetched ++ os) code table h own limit (noted ++ step_items order h os i s) direct target s.at g.seen
        (step values order os i s) }
{}

/// Where the octets that a step wants do not all come before the source ends, the plain reader is refused as Truncated at the end. Where an item
/// would end past the limit of a stream, it is refused as TooLong at the limit, whatever comes.
pub fn refusals_by_length()
    ensures cut { (order : Order) (fetched : List ℕ) (code : List Instr) (values : List EnumList) (table : Table) (h : Home) (own limit : ℕ)
        (noted : List Item) (direct : ℕ) (target : List ℕ → Read) → IsPlanned code values table
        → (s : State) (g : Good order fetched code table h own limit noted direct target s) (i : Instr) → slice_get code s.pc ≡ Some i
        → (os : List ℕ) → IsCut (wants values i s) os s.at
        → (target (fetched ++ os)).progress ≡ stopped s.at g.seen (length (fetched ++ os), Truncated) }
    ensures long { (order : Order) (fetched : List ℕ) (code : List Instr) (values : List EnumList) (table : Table) (h : Home) (own limit : ℕ)
        (noted : List Item) (direct : ℕ) (target : List ℕ → Read) → IsPlanned code values table
        → (s : State) (g : Good order fetched code table h own limit noted direct target s) (i : Instr) → slice_get code s.pc ≡ Some i
        → IsTooLong (wants values i s) s.at → (later : List ℕ)
        → (target (fetched ++ later)).progress ≡ stopped s.at g.seen (STREAM_LIMIT, TooLong) }
{}

/// The plan of a legal interface has what the steps look up.
pub fn plans_have_their_runs()
    ensures { (types : Table) (operations : List Operation) → IsLegal types operations
        → IsPlanned (code_of types operations) (values_of types) types }
{}

/// At the beginning of a home's value the state means the whole value: at the type's place run where it does not hoist a maximum count, else at its
/// whole run.
pub fn homes_begin()
    ensures plain { (order : Order) (fetched : List ℕ) (code : List Instr) (values : List EnumList) (table : Table) (h : Home) (own : ℕ)
        (noted : List Item) (direct : ℕ) → IsPlanned code values table
        → (s : State) (seen : List EntryAt) (names : Names) → IsFine table 32 own → IsBegun noted direct order fetched h seen names s
        → hoists table own ≡ false → s.pc ≡ place_at table own
        → Good order fetched code table h own 32 noted direct (λ octets. read_whole order octets table h own (going s.at seen) names) s }
    ensures hoisting { (order : Order) (fetched : List ℕ) (code : List Instr) (values : List EnumList) (table : Table) (h : Home) (own : ℕ)
        (noted : List Item) (direct : ℕ) → IsPlanned code values table
        → (s : State) (seen : List EntryAt) (names : Names) → IsFine table 32 own → IsBegun noted direct order fetched h seen names s
        → hoists table own ≡ true
        → IsRunAt code s.pc (Hoist ∷ Call (place_at table own) ∷ Ret ∷ [])
        → Good order fetched code table h own 32 noted direct (λ octets. read_whole order octets table h own (going s.at seen) names) s }
{}

/// At the beginning of a chunk's elements the state means these elements, after those of the chunks before.
pub fn chunks_begin()
    ensures { (order : Order) (fetched : List ℕ) (code : List Instr) (values : List EnumList) (table : Table) (h : Home) (pipe : ℕ) (elem : TypeId)
        (noted : List Item) (direct : ℕ) → IsPlanned code values table
        → (s : State) (done : Trees) (n : ℕ) (seen : List EntryAt) (names : Names) → type_at table pipe ≡ Some (Pipe elem) → IsFine table 32 elem.0
        → IsChunkBegun noted direct order fetched table h elem done n seen names s → s.pc ≡ place_at table elem.0
        → Good order fetched code table h pipe 33 noted direct (chunk_read order table h elem done (suc n) (going s.at seen) names) s }
{}

/// A state that means something is at an address of the code, at an instruction of a home's value, and at most one frame more is open than values
/// nest.
pub fn states_are_within()
    ensures address { (order : Order) (fetched : List ℕ) (code : List Instr) (table : Table) (h : Home) (own limit : ℕ) (noted : List Item)
        (direct : ℕ) (target : List ℕ → Read) (s : State) → Good order fetched code table h own limit noted direct target s
        → s.pc < length code }
    ensures inner { (order : Order) (fetched : List ℕ) (code : List Instr) (table : Table) (h : Home) (own limit : ℕ) (noted : List Item)
        (direct : ℕ) (target : List ℕ → Read) (s : State) → Good order fetched code table h own limit noted direct target s
        → (i : Instr) → slice_get code s.pc ≡ Some i → IsInner i }
    ensures frames { (order : Order) (fetched : List ℕ) (code : List Instr) (table : Table) (h : Home) (own limit : ℕ) (noted : List Item)
        (direct : ℕ) (target : List ℕ → Read) (s : State) → Good order fetched code table h own limit noted direct target s
        → length s.stack ≤ suc limit }
{}
