//! Laws of value texts, each the contract of a function that does nothing.
ghost use Rattle.std.specs.Prelude.{◌≡◌, ◌≤◌, ◌-◌, ℕ, List, [], length};
ghost use Rattle.nd_value.specs.declared.value.Graph.{Graph};
ghost use Rattle.nd_value.specs.Setting.{Setting};
ghost use Rattle.nd_grammar.specs.LegalSide.{IsLegalSide};
ghost use Rattle.text_grammar.specs.declared.fault.TextReason.{TextReason};
ghost use Rattle.text_grammar.specs.declared.TheConstants.{TEXT_LIMIT};
ghost use Rattle.text_grammar.specs.Tokens.{Token, Cutting, IsCut};
ghost use Rattle.text_grammar.specs.Reads.{ReadsAs, IsFirstFault, IsTextFault};
ghost use Rattle.text_grammar.specs.Dues.{nothing_read};
ghost use Rattle.text_grammar.specs.Reader.{Stopped, ComesTo};

/// A text begins with one token at most, and one rest follows it.
pub fn one_token()
    ensures { (how : Cutting) (text : List ℕ) (t u : Token) (rest after : List ℕ) → IsCut how text t rest → IsCut how text u after
        → (t ≡ u) × (rest ≡ after) }
{}

/// A text is read as one graph at most.
pub fn one_graph()
    ensures { (w : Setting) (text : List ℕ) (g h : Graph)
        → IsLegalSide w → ReadsAs w text g → ReadsAs w text h → g ≡ h }
{}

/// A text that is read as a graph has no fault. So `read_text` answers a graph exactly where there is one, and a fault exactly where the
/// text has it, unless it runs out of memory.
pub fn never_both()
    ensures { (w : Setting) (text : List ℕ) (g : Graph) (line column : ℕ) (why : TextReason)
        → ReadsAs w text g → ¬ IsTextFault w text line column why }
{}

/// A text has one fault at most: one place and one reason.
pub fn one_fault()
    ensures { (w : Setting) (text : List ℕ) (line line' column column' : ℕ) (why why' : TextReason)
        → IsLegalSide w → IsTextFault w text line column why → IsTextFault w text line' column' why'
        → (line ≡ line') × (column ≡ column') × (why ≡ why') }
{}

/// Where a text that is read token by token stops it has its first fault: of each side of a legal interface, within the limit.
pub fn first_fault()
    ensures { (w : Setting) (text : List ℕ) (left : ℕ) (why : TextReason) → IsLegalSide w → length text ≤ TEXT_LIMIT
        → ComesTo w.table (nothing_read w) [] text (Stopped left why) → IsFirstFault w text (length text - left) why }
{}
