//! Laws of what commands answer, each the contract of a function that does nothing.
ghost use Rattle.std.specs.Prelude.{◌≡◌, ◌≤◌, ◌<◌, ◌^◌, ◌++◌, ℕ, true, List, [], length, Option, None, Some, Ok};
ghost use Rattle.std.specs.List.{slice_get};
ghost use Rattle.nd_base.specs.declared.octets.Order.{Order};
ghost use Rattle.nd_types.specs.declared.interface.Interface.{Interface};
ghost use Rattle.nd_types.specs.declared.types.Operation.{Operation};
ghost use Rattle.nd_types.specs.declared.types.Side.{Side};
ghost use Rattle.nd_value.specs.declared.value.Graph.{Graph};
ghost use Rattle.nd_value.specs.Canon.{Same};
ghost use Rattle.nd_grammar.specs.Stream.{Chosen, Represents};
ghost use Rattle.nd_value.specs.Fitting.{setting_of, setting_beside};
ghost use Rattle.text_grammar.specs.declared.TheConstants.{TEXT_LIMIT};
ghost use Rattle.text_grammar.specs.Reads.{ReadsAs};
ghost use Rattle.text_grammar.specs.Written.{IsText};
ghost use Rattle.idl_grammar.specs.Files.{Idl};
ghost use Rattle.command_decode.specs.Decoded.{IsDecoding};
ghost use Rattle.ndr_prim.specs.Label.{order_of_label};
ghost use Rattle.command_line.specs.Words.{Subject, order_in};
ghost use Rattle.command_line.specs.declared.TheConstants.{LEAST_MAX};
ghost use Rattle.nd_base.specs.Over.{FilesOver, SourceOver};
ghost use Rattle.command_call.specs.Called.{IsCall, IsCalled, call_line};
ghost use Rattle.command_streams.specs.Input.{AreGiven};
ghost use Rattle.dceidl.specs.Input.{IsWrapped, stated_for, IsEncoding, IsMigration, label_for};
ghost use Rattle.command_line.specs.declared.command.OrderWord.TheVariants.{Label};
ghost use Rattle.idl_check.specs.AcfRules.{acf_breaches};
ghost use Rattle.command_compile.specs.Idl.{AcfFile, IsLoadedAcf, Means, IsIdlFault, resolved_world};
ghost use Rattle.command_refusals.specs.declared.refusal.IdlReason.{IdlReason};
ghost use Rattle.command_refusals.specs.declared.refusal.Refusal.TheVariants as refusal;

use rpc_pdu::laws::pieces_are_fragments;
use value_text::laws::same_texts;

/// Where the contents of files are known, a main file means one interface at most with those that it imports, with an attribute configuration file
/// if one is named, or is refused at one line and column of one file for one reason at most, and never both.
pub fn one_idl_verdict()
    ensures one_interface { (held : List ℕ → Option (List ℕ)) (idl : Idl) (text : List ℕ) (acf : Option (List ℕ)) (i j : Interface)
        → Means (Some held) idl text acf i → Means (Some held) idl text acf j → i ≡ j }
    ensures one_fault { (held : List ℕ → Option (List ℕ)) (idl : Idl) (text : List ℕ) (acf : Option (List ℕ)) (file other : List ℕ)
        (line column row place : ℕ)
        → (why because : IdlReason)
        → IsIdlFault (Some held) idl text acf (refusal.BadIdl file line column why)
        → IsIdlFault (Some held) idl text acf (refusal.BadIdl other row place because)
        → refusal.BadIdl file line column why ≡ refusal.BadIdl other row place because }
    ensures never_both { (held : List ℕ → Option (List ℕ)) (idl : Idl) (text : List ℕ) (acf : Option (List ℕ)) (i : Interface) (file : List ℕ)
        → (line column : ℕ) (why : IdlReason)
        → Means (Some held) idl text acf i → IsIdlFault (Some held) idl text acf (refusal.BadIdl file line column why) → ⊥ }
{}

/// An attribute configuration file changes nothing of what files mean: what they mean with one they mean without it; what they mean without one
/// they mean with each that was loaded and read and keeps the rule on it; and where the contents of files are known they mean one interface
/// whatever is named.
pub fn attribute_files_change_nothing()
    ensures without { (held : Option (List ℕ → Option (List ℕ))) (idl : Idl) (text : List ℕ) (acf : Option (List ℕ)) (i : Interface)
        → Means held idl text acf i → Means held idl text None i }
    ensures beside { (held : Option (List ℕ → Option (List ℕ))) (idl : Idl) (text name : List ℕ) (i : Interface) → (m : Means held idl text None i)
        → (f : AcfFile) → IsLoadedAcf held name f → acf_breaches (resolved_world m.state) (Some f.tree) ≡ [] → Means held idl text (Some name) i }
    ensures same { (held : List ℕ → Option (List ℕ)) (idl : Idl) (text : List ℕ) (acf other : Option (List ℕ)) (i j : Interface)
        → Means (Some held) idl text acf i → Means (Some held) idl text other j → i ≡ j }
{}

/// `decode` undoes `encode`: the octets that `encode` writes of a text represent the graph that the text reads as; what `decode` of the same order
/// reads them as is the same graph up to the numbers of its cells; and what it writes is what is printed of that graph, so it is what `migrate`
/// writes of the text, and a text that was printed comes back.
pub fn decode_undoes_encode()
    ensures represents { (i : Interface) (n : ℕ) (o : Operation) (s : Side) (q : Option Graph) (order : Order) (chunk : ℕ) (text octets : List ℕ)
        → slice_get i.operations n ≡ Some o → 1 ≤ chunk
        → (e : IsEncoding (setting_beside i o s q) order chunk text octets)
        → Represents (setting_beside i o s q) order octets e.graph }
    ensures back { (i : Interface) (n : ℕ) (o : Operation) (s : Side) (q : Option Graph) (order : Order) (chunk : ℕ) (text octets made : List ℕ)
        → slice_get i.operations n ≡ Some o → 1 ≤ chunk
        → (e : IsEncoding (setting_beside i o s q) order chunk text octets) → (d : IsDecoding (setting_beside i o s q) order octets made)
        → Same e.graph d.graph }
    ensures printed { (i : Interface) (n : ℕ) (o : Operation) (s : Side) (q : Option Graph) (order : Order) (chunk : ℕ)
        (text octets made other : List ℕ)
        → slice_get i.operations n ≡ Some o → 1 ≤ chunk
        → (e : IsEncoding (setting_beside i o s q) order chunk text octets) → IsDecoding (setting_beside i o s q) order octets made
        → IsText (setting_beside i o s q) e.graph other → made ≡ other }
    ensures migrated { (i : Interface) (n : ℕ) (o : Operation) (s : Side) (q : Option Graph) (order : Order) (chunk : ℕ)
        (text octets made other : List ℕ)
        → slice_get i.operations n ≡ Some o → 1 ≤ chunk
        → IsEncoding (setting_beside i o s q) order chunk text octets → IsDecoding (setting_beside i o s q) order octets made
        → IsMigration (setting_beside i o s q) text other → made ≡ other }
{
    same_texts();
}

/// `encode` undoes `decode`: a text that `decode` writes, if it is within its limit, reads as the canonical form of the graph that the octets
/// represent; and what `encode` writes of it, in any order, is what is chosen for that graph, and represents it. Octets that were chosen come back.
pub fn encode_undoes_decode()
    ensures reads { (i : Interface) (n : ℕ) (o : Operation) (s : Side) (q : Option Graph) (order : Order) (octets text : List ℕ)
        → slice_get i.operations n ≡ Some o
        → (d : IsDecoding (setting_beside i o s q) order octets text) → length text ≤ TEXT_LIMIT
        → ReadsAs (setting_beside i o s q) text d.is_text.canonical }
    ensures chosen { (i : Interface) (n : ℕ) (o : Operation) (s : Side) (q : Option Graph) (order other : Order) (chunk : ℕ)
        (octets text made : List ℕ)
        → slice_get i.operations n ≡ Some o
        → (d : IsDecoding (setting_beside i o s q) order octets text) → IsEncoding (setting_beside i o s q) other chunk text made
        → Chosen (setting_beside i o s q) other chunk d.graph made }
    ensures represents { (i : Interface) (n : ℕ) (o : Operation) (s : Side) (q : Option Graph) (order other : Order) (chunk : ℕ)
        (octets text made : List ℕ)
        → slice_get i.operations n ≡ Some o → 1 ≤ chunk
        → (d : IsDecoding (setting_beside i o s q) order octets text) → IsEncoding (setting_beside i o s q) other chunk text made
        → Represents (setting_beside i o s q) other made d.graph }
    ensures back { (i : Interface) (n : ℕ) (o : Operation) (s : Side) (q : Option Graph) (order : Order) (chunk : ℕ) (octets text made : List ℕ)
        → slice_get i.operations n ≡ Some o
        → (d : IsDecoding (setting_beside i o s q) order octets text) → IsEncoding (setting_beside i o s q) order chunk text made
        → Chosen (setting_beside i o s q) order chunk d.graph octets → made ≡ octets }
{}

/// What `wrap` writes is what `call` reads: the fragments of one call, with the order and the call id that it was given, the operation of the
/// interface, and as stub data the octets that were encoded; and what `call` writes of it is the call id and what `migrate` writes of the text.
pub fn call_undoes_wrap()
    ensures is_call { (f : FilesOver) (s : SourceOver) (of : Subject) (order : Order) (call max : ℕ) (made : List ℕ)
        → call < 2 ^ 32 → LEAST_MAX ≤ max → max < 2 ^ 16 → (h : IsWrapped f s of order call max made)
        → IsCall h.interface (stated_for of.side h.number) made order call h.operation h.stub }
    ensures printed { (f : FilesOver) (s : SourceOver) (of : Subject) (order : Order) (call max : ℕ) (made : List ℕ)
        → call < 2 ^ 32 → LEAST_MAX ≤ max → max < 2 ^ 16 → (h : IsWrapped f s of order call max made) → (t : SourceOver) → AreGiven t made
        → (printed other : List ℕ) → IsCalled t h.interface (stated_for of.side h.number) printed
        → IsMigration (setting_of h.interface h.operation of.side) h.encoded.0 other → printed ≡ call_line call ++ other }
{
    pieces_are_fragments();
    same_texts();
}

/// The format label that `encode` writes before octets states the order of these octets (C706, section 14.1).
pub fn written_label()
    ensures { order_of_label (label_for Label) ≡ Ok (order_in Label) }
{}
