//! Laws over the definitions.

ghost use Rattle.std.specs.Prelude.{◌≡◌, ℕ, false};
ghost use Rattle.idl_grammar.specs.Text.{Text, Lifted, symbol_at, is_in};
ghost use Rattle.idl_grammar.specs.Symbols.{windows_symbols};
ghost use Rattle.idl_grammar.specs.Answers.{begins, derives};
ghost use Rattle.idl_grammar.specs.Tree.{Tree};
ghost use Rattle.idl_grammar.specs.Grammar.{file};
ghost use Rattle.idl_words.specs.Replaced.{IsOfBoth, text_with_string, tree_with_string};

/// A file is one with `string` in the place of each word that only the windows language has, whatever limits and bans are lifted. So where a text
/// without these words goes on to a file, it goes on to one that has none of them: whether a token is refused, and for what, does not depend on them.
/// By `idl_grammar: windows_words_are_apart` each text of C706 is without them.
pub fn words_move_no_refusal()
    ensures replaced { (lifted : Lifted) (f : Tree) (x : Text) → derives file lifted f x
        → derives file lifted (tree_with_string f) (text_with_string x) }
    ensures none { (x : Text) (k : ℕ) → is_in windows_symbols (symbol_at (text_with_string x) k) ≡ false }
    ensures continued { (t x : Text) (n : ℕ) → IsOfBoth t → begins t n x → begins t n (text_with_string x) }
{}
