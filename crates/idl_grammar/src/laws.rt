//! Laws over the definitions.

ghost use Rattle.std.specs.Prelude.{◌≡◌, ℕ, ◌≤◌, ◌<◌, length, true, false, Result, Ok, Err};
ghost use Rattle.idl_grammar.specs.declared.language.Language.{Language};
ghost use Rattle.idl_grammar.specs.declared.language.Language.TheVariants.{C706, Windows};
ghost use Rattle.idl_grammar.specs.Text.{Text, Depth, Ban, Lifted, lexemes, symbol_at, is_in, IsFormed};
ghost use Rattle.idl_grammar.specs.Symbols.{windows_symbols};
ghost use Rattle.idl_grammar.specs.ReadPhrases.{Fault, Syntax, Passes};
ghost use Rattle.idl_grammar.specs.Answers.{Judges, whole_read, begins, derives, limits_before, Answers, file_answer, is_banned};
ghost use Rattle.idl_grammar.specs.Gives.{IsText};
ghost use Rattle.idl_lexer.specs.Verdict.{Lexed, AreFormed};
ghost use Rattle.idl_grammar.specs.Examples.{small_file, small_tree, unended, banned_attribute, banned_word, attribute_name, deep};
ghost use Rattle.idl_grammar.specs.Examples.{free_counts, free_tree};
ghost use Rattle.idl_grammar.specs.Tree.{Tree};
ghost use Rattle.idl_grammar.specs.Grammar.{file};
ghost use Rattle.idl_grammar.specs.Reading.{file_read};

/// What is read of the tokens of a file is its one tree, or the first token at which no file of the language goes on, or the first one that a
/// limit of depth or a ban refuses. Nothing else is right of these tokens. The numbers of levels are any that are large enough.
pub fn file_is_judged()
    ensures judged { (fuel nesting : ℕ) → 129 ≤ nesting → 64 ≤ fuel → (t : Text) → IsText t
        → Judges file t (whole_read (file_read fuel nesting t 0) t) }
    ensures alone { (fuel nesting : ℕ) → 129 ≤ nesting → 64 ≤ fuel → (t : Text) → IsText t → (v : Result Tree Fault) → Judges file t v
        → v ≡ whole_read (file_read fuel nesting t 0) t }
{}

/// What is answered on the tokens of a file is right, also where it names a word that is banned anywhere, and no other answer is.
pub fn file_is_answered()
    ensures answered { (fuel nesting : ℕ) → 129 ≤ nesting → 64 ≤ fuel → (t : Text) → IsText t → Answers file t (file_answer fuel nesting t) }
    ensures alone { (fuel nesting : ℕ) → 129 ≤ nesting → 64 ≤ fuel → (t : Text) → IsText t → (v : Result Tree Fault) → Answers file t v
        → v ≡ file_answer fuel nesting t }
{}

/// No token of a text that was lexed is the end of the text, so the laws above hold of every such text.
pub fn tokens_are_no_end()
    ensures { (language : Language) (lexed : Lexed) → IsText (lexemes language lexed) }
{}

/// The words of a text that was cut into tokens are identifiers, and its UUIDs have their form.
pub fn words_are_identifiers()
    ensures { (language : Language) (lexed : Lexed) → AreFormed lexed → IsFormed (lexemes language lexed) }
{}

/// A small file with a declaration or two of each form, and its one tree.
pub fn small_file_has_its_tree()
    ensures { Answers file (lexemes C706 small_file) (Ok small_tree) }
{}

/// Texts that are refused, each at its token: an operation without its semicolon, a banned attribute, a word that is banned anywhere, a
/// word with which an attribute begins where a name should stand in attribute brackets, and a 64th round bracket inside the interface's own.
pub fn refused_texts_are_refused()
    ensures unended { Answers file (lexemes C706 unended) (Err (Syntax 11)) }
    ensures banned_attribute { Answers file (lexemes C706 banned_attribute) (Err (Passes Ban 1)) }
    ensures banned_word { Answers file (lexemes C706 banned_word) (Err (Passes Ban 6)) }
    ensures attribute_name { Answers file (lexemes C706 attribute_name) (Err (Syntax 12)) }
    ensures deep { Answers file (lexemes C706 deep) (Err (Passes Depth 73)) }
{}

/// No file of the language holds a word that is banned anywhere, whatever limits and bans are lifted. So where the tokens before such a word
/// begin a file, the word is answered as banned.
pub fn no_file_holds_a_banned_word()
    ensures holds_none { (lifted : Lifted) (f : Tree) (x : Text) → derives file lifted f x → (k : ℕ) → k < length x → is_banned x k ≡ false }
    ensures answered { (t : Text) (k : ℕ) (x : Text) (f : Tree) → begins t k x → derives file (limits_before k) f x → is_banned t k ≡ true
        → Answers file t (Err (Passes Ban k)) }
{}

/// No text of C706 has a token that is a word of the windows language alone. A file that has none of these words is the same text in both languages.
pub fn windows_words_are_apart()
    ensures none { (lexed : Lexed) (k : ℕ) → is_in windows_symbols (symbol_at (lexemes C706 lexed) k) ≡ false }
    ensures same { (lexed : Lexed) → ((k : ℕ) → is_in windows_symbols (symbol_at (lexemes Windows lexed) k) ≡ false)
        → lexemes Windows lexed ≡ lexemes C706 lexed }
{}

/// A file in which the words of the windows language begin attributes and are names: its one tree in that language, and its refusal in C706 at the
/// first of them that begins an attribute.
pub fn free_counts_have_their_tree()
    ensures windows { Answers file (lexemes Windows free_counts) (Ok free_tree) }
    ensures c706 { Answers file (lexemes C706 free_counts) (Err (Syntax 8)) }
{}
