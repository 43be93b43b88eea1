//! Laws over the definitions.

ghost use Rattle.std.specs.Prelude.{◌≡◌, ◌<◌, ℕ, length, false, Result, Ok, Err};
ghost use Rattle.idl_grammar.specs.Text.{Text, Depth, Ban, Lifted};
ghost use Rattle.idl_grammar.specs.ReadPhrases.{Fault, Syntax, Passes};
ghost use Rattle.idl_grammar.specs.Gives.{IsText};
ghost use Rattle.idl_grammar.specs.Answers.{derives, is_banned};
ghost use Rattle.idl_lexer.specs.Verdict.{Lexed};
ghost use Rattle.acf_reader.specs.Answers.{IsAnswer, acf_answer};
ghost use Rattle.acf_reader.specs.Examples.{small_file, small_tree, unended, include_behind_attributes, attribute_name, banned_attribute};
ghost use Rattle.acf_reader.specs.Examples.{banned_word};
ghost use Rattle.acf_reader.specs.Grammar.{acf, Acf};
ghost use Rattle.acf_reader.specs.Symbols.{lexemes};

/// What is answered on the tokens of a file is right, also where it names a word that is banned anywhere, and no other answer is.
pub fn acf_is_answered()
    ensures answered { (t : Text) → IsText t → IsAnswer t (acf_answer t) }
    ensures alone { (t : Text) → IsText t → (v : Result Acf Fault) → IsAnswer t v → v ≡ acf_answer t }
{}

/// No token of a text that was lexed is the end of the text, so the law above holds of every such text.
pub fn tokens_are_no_end()
    ensures { (lexed : Lexed) → IsText (lexemes lexed) }
{}

/// No file holds a word that is banned anywhere, whatever limits and bans are lifted.
pub fn no_file_holds_a_banned_word()
    ensures { (lifted : Lifted) (f : Acf) (x : Text) → derives acf lifted f x → (k : ℕ) → k < length x → is_banned x k ≡ false }
{}

/// No text is refused for its depth.
pub fn nothing_is_too_deep()
    ensures { (t : Text) (k : ℕ) → IsAnswer t (Err (Passes Depth k)) → ⊥ }
{}

/// A small file with an element or two of each form, and its one tree.
pub fn small_file_has_its_tree()
    ensures { IsAnswer (lexemes small_file) (Ok small_tree) }
{}

/// Texts that are refused, each at its token: one that ends too early, a string after attributes and `include`, a word with which an
/// attribute begins where a name should stand in attribute brackets, a banned attribute, and a word that is banned anywhere.
pub fn refused_texts_are_refused()
    ensures unended { IsAnswer (lexemes unended) (Err (Syntax 3)) }
    ensures include_behind_attributes { IsAnswer (lexemes include_behind_attributes) (Err (Syntax 7)) }
    ensures attribute_name { IsAnswer (lexemes attribute_name) (Err (Syntax 4)) }
    ensures banned_attribute { IsAnswer (lexemes banned_attribute) (Err (Passes Ban 1)) }
    ensures banned_word { IsAnswer (lexemes banned_word) (Err (Passes Ban 4)) }
{}
