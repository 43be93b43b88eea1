//! Laws over the definitions.

ghost use Rattle.std.specs.Prelude.{◌≡◌, ℕ, Bool, true, List, [], ◌∷◌, Option, Some, None, codes};
ghost use Rattle.idl_grammar.specs.Text.{Text};
ghost use Rattle.idl_grammar.specs.Gives.{IsText};
ghost use Rattle.nd_base.specs.declared.octets.Place.{Place};
ghost use Rattle.idl_lexer.specs.Verdict.{HasVerdict};
ghost use Rattle.idl_grammar.specs.declared.language.Language.{Language};
ghost use Rattle.idl_grammar.specs.Files.{Idl};
ghost use Rattle.idl_grammar.specs.Grammar.{file};
ghost use Rattle.idl_grammar.specs.Tree.{Tree};
ghost use Rattle.idl_scope.specs.declared.name_fault.NameFault.TheVariants.{Absent, Failed};
ghost use Rattle.idl_names.specs.Decided.{is_decided, HasEnding, has_memory, FailsAs, HasToldEnding};
ghost use Rattle.idl_names.specs.Walk.{IsFile, Source, source, State, Due, Load, Ending, Stopped, Walk, IsResolved, start};
ghost use Rattle.idl_rule_definitions.specs.Scene.{scene_of};
ghost use Rattle.idl_rule_definitions.specs.Meaning.{types_of, operations_of, HasIdentifiers};
ghost use Rattle.acf_reader.specs.Grammar.{acf};
ghost use Rattle.command_compile.specs.Read.{HasAnswer, IsReadAs};
ghost use Rattle.command_compile.specs.Named.{Comes};
ghost use Rattle.command_compile.specs.Judged.{IsJudged, HasOutcome, world};
ghost use Rattle.command_compile.specs.Results.{HasResult, result_of};

/// Each text has tokens, or a first place at which nothing can be cut, or it is too long.
#[tactic(auto, using(idl_lexer::proofs::Answered::each_text))]
pub fn texts_are_lexed()
    ensures { (text : List ℕ) → HasVerdict text }
{}

/// Tokens are an interface file or have a first fault, whatever they are; and so with attribute files.
#[tactic(auto, using(crate::proofs::Read::each_file, crate::proofs::AttributeFiles::each_acf))]
pub fn tokens_are_read()
    ensures idl { (t : Text) → IsText t → HasAnswer file t }
    ensures acf { (t : Text) → IsText t → HasAnswer acf t }
{}

/// Each text is an interface file in a language, or has a first fault of its tokens or of its syntax.
pub fn texts_are_read()
    ensures { (language : Language) (text : List ℕ) → IsReadAs language text }
{}

/// A walk over files ends in some way other than by running out of memory or by a failed load, whatever is due and whatever files hold. Where it is
/// known which loads fail, it ends in some way other than by running out of memory, by a failed load where it comes to one. Where no file is held, a
/// walk that comes to an import ends as absent there. `idl_names: walks_have_one_ending` says that a walk ends in one such way alone.
#[tactic(auto, using(crate::proofs::Ends::each_walk, crate::proofs::Ends::each_told_walk, crate::proofs::Instances::one_import))]
pub fn walks_end()
    ensures ends { (held : Option (List ℕ → Option (List ℕ))) (s : State) (dues : List Due) → HasEnding held s dues }
    ensures told { (held : Option (List ℕ → Option (List ℕ))) (fails : List ℕ → Bool) (s : State) (dues : List Due)
        → HasToldEnding held fails s dues }
    ensures absent { (language : Language) (place : Place) (e : Ending) → is_decided e ≡ true
        → Walk (Some (λ name. None)) (start language []) (Load place (codes "a.idl") ∷ []) e
        → e ≡ Stopped (source (codes "a.idl") [] ∷ []) (Absent 0) }
    ensures failed { (language : Language) (place : Place) (e : Ending) → has_memory e ≡ true
        → (w : Walk (Some (λ name. None)) (start language []) (Load place (codes "a.idl") ∷ []) e) → FailsAs (λ name. true) w
        → e ≡ Stopped (source (codes "a.idl") [] ∷ []) (Failed 0) }
{}

/// Each main file has names, with all that it imports, or a first fault of the files, in some way other than by running out of memory or by a failed
/// load.
pub fn names_are_resolved()
    ensures { (held : Option (List ℕ → Option (List ℕ))) (language : Language) (main : List Source) (t : Tree) → Comes language held main t }
{}

/// Files whose names are resolved mean an interface, which is legal if its names are identifiers, or break a rule. The names of what is read from
/// a text are identifiers: those of its members, arms, operations and parameters. So each main file, with all that it imports, means a legal
/// interface or is refused: for a rule, for names, for a file that it imports (which is absent, or has a fault of its own), for its syntax or for its
/// tokens.
pub fn files_are_judged()
    ensures resolved { (language : Language) (held : Option (List ℕ → Option (List ℕ))) (main : List Source) (t : Tree) (s : State)
        → IsResolved language held main t s
        → IsJudged (world s) }
    ensures named { (language : Language) (held : Option (List ℕ → Option (List ℕ))) (main : List Source) (text : List ℕ) (t : Tree) (s : State)
        → IsFile language text t
        → IsResolved language held main t s
        → HasIdentifiers (types_of (scene_of (world s))) (operations_of (scene_of (world s))) }
    ensures outcome { (held : Option (List ℕ → Option (List ℕ))) (idl : Idl) (text : List ℕ) → HasOutcome held idl text }
{}

/// Each main file, with all that it imports and the attribute configuration file that may be named, means an interface; or one of the files is
/// refused, at a line and column; or one that is due is missing. Where the contents of files are known it is one of these alone, and in one way.
pub fn files_have_one_result()
    ensures some { (held : Option (List ℕ → Option (List ℕ))) (idl : Idl) (text : List ℕ) (acf : Option (List ℕ)) → HasResult held idl text acf }
    ensures one { (k : List ℕ → Option (List ℕ)) (idl : Idl) (text : List ℕ) (acf : Option (List ℕ)) (a b : HasResult (Some k) idl text acf)
        → result_of a ≡ result_of b }
{}
