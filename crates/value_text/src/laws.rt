//! Laws of value texts, each the contract of a function that does nothing.
ghost use Rattle.std.specs.Prelude.{◌≡◌, ◌≤◌, ◌⊎◌, ◌-◌, ℕ, List, [], length};
ghost use Rattle.nd_value.specs.declared.value.Graph.{Graph};
ghost use Rattle.nd_value.specs.Setting.{Setting};
ghost use Rattle.nd_value.specs.Conforms.{Conforms};
ghost use Rattle.nd_value.specs.Canon.{Same};
ghost use Rattle.nd_grammar.specs.LegalSide.{IsLegalSide};
ghost use Rattle.text_grammar.specs.declared.version.Version.{Version};
ghost use Rattle.text_grammar.specs.declared.fault.TextReason.{TextReason};
ghost use Rattle.text_grammar.specs.declared.TheConstants.{TEXT_LIMIT};
ghost use Rattle.text_grammar.specs.Written.{IsText, graph_text};
ghost use Rattle.text_grammar.specs.Reads.{IsReadable, ReadsAs, IsFirstFault, IsTextFault};
ghost use Rattle.value_text.specs.Short.{HasShortNumbers};
ghost use Rattle.text_grammar.specs.Dues.{Reading, nothing_read};
ghost use Rattle.text_grammar.specs.Reader.{Ending, Whole, Stopped, ComesTo};

pub use text_grammar::laws::{never_both, one_fault, one_graph};

/// The text of a graph that a text can name is read as that graph, in either version: of each side of a legal interface, within the
/// limit, and where numbers have at most 20 digits, as those of every graph that conforms have.
pub fn text_is_read()
    ensures { (v : Version) (w : Setting) (g : Graph) → IsLegalSide w → IsReadable v w g → HasShortNumbers w g
        → length (graph_text v w g) ≤ TEXT_LIMIT
        → ReadsAs w (graph_text v w g) g }
{}

/// What is printed of a graph that conforms is read as its canonical form: of each side of a legal interface, within the limit.
pub fn reading_after_printing()
    ensures { (w : Setting) (g : Graph) (text : List ℕ) (t : IsText w g text)
        → IsLegalSide w → Conforms w g → length text ≤ TEXT_LIMIT
        → ReadsAs w text t.canonical }
{}

/// Each graph that conforms has one text.
pub fn one_text()
    ensures exists { (w : Setting) (g : Graph) → IsLegalSide w → Conforms w g → (text : List ℕ) × IsText w g text }
    ensures alone { (w : Setting) (g : Graph) (text other : List ℕ) → IsLegalSide w → Conforms w g → IsText w g text → IsText w g other
        → text ≡ other }
{}

/// Two graphs that conform to one side have one text exactly if they are the same up to the numbers of their cells.
pub fn same_texts()
    ensures { (w : Setting) (g h : Graph) (text other : List ℕ)
        → IsLegalSide w → Conforms w g → Conforms w h → IsText w g text → IsText w h other
        → (Same g h → text ≡ other) × (text ≡ other → Same g h) }
{}

/// A text is read as a graph, or it has a fault.
pub fn one_of_two()
    ensures { (w : Setting) (text : List ℕ) → IsLegalSide w
        → ((g : Graph) × ReadsAs w text g) ⊎ ((line : ℕ) × (column : ℕ) × (why : TextReason) × IsTextFault w text line column why) }
{}

/// A text that is read token by token comes to one ending. To its end it is read exactly where it is read as a graph, and where it stops
/// it has its first fault.
pub fn token_by_token()
    ensures one { (w : Setting) (text : List ℕ) → (e : Ending) × ComesTo w.table (nothing_read w) [] text e
        × ((f : Ending) → ComesTo w.table (nothing_read w) [] text f → f ≡ e) }
    ensures whole { (w : Setting) (text : List ℕ) (x : Reading) → IsLegalSide w → length text ≤ TEXT_LIMIT
        → ComesTo w.table (nothing_read w) [] text (Whole x) → (g : Graph) × ReadsAs w text g }
    ensures back { (w : Setting) (text : List ℕ) (g : Graph) → IsLegalSide w
        → ReadsAs w text g → (x : Reading) × ComesTo w.table (nothing_read w) [] text (Whole x) }
    ensures stopped { (w : Setting) (text : List ℕ) (left : ℕ) (why : TextReason) → IsLegalSide w → length text ≤ TEXT_LIMIT
        → ComesTo w.table (nothing_read w) [] text (Stopped left why) → IsFirstFault w text (length text - left) why }
{}
