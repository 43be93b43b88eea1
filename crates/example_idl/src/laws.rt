//! Worked examples.
ghost use Rattle.std.specs.Prelude.{◌≡◌, [], ◌∷◌, map};
ghost use Rattle.nd_types.specs.Legal.{IsLegal};
ghost use Rattle.idl_grammar.specs.declared.language.Language.TheVariants.{Windows};
ghost use Rattle.idl_rule_definitions.specs.Texts.{told_of, told_in, no_rule, rule_at};
ghost use Rattle.example_idl.specs.Interfaces.{meant_of, sum_text, sum_meant, directory_text, directory_meant};
ghost use Rattle.example_idl.specs.SmallTexts.{texts_that_break, texts_that_keep};
ghost use Rattle.example_idl.specs.SmallTexts.{windows_texts_that_break, windows_texts_that_keep};
ghost use Rattle.example_idl.specs.Listings.{listing_of, listing_beside, sum_file, sum_listing, base_file, directory_file, directory_listing};
ghost use Rattle.example_idl.specs.Listings.{forms_file, forms_listing};
ghost use Rattle.example_idl.specs.AcfTexts.{told_with, acf_rule_at, told_of_directory, directory_acf, other_acf, small_idl, broken_idl, acf_names};
ghost use Rattle.example_idl.specs.AcfTexts.{acf_places};

/// For each rule a small text that breaks it, with the octet that is reported, and one near it that is accepted.
pub fn small_texts_are_judged()
    ensures broken { map (λ e. told_of e.text) texts_that_break ≡ map (λ e. e.told) texts_that_break }
    ensures kept { map (λ e. told_of e.text) texts_that_keep ≡ map (λ e. e.told) texts_that_keep }
{}

/// The same of the rules on `any_size` and `any_length`, in the windows language; both are names outside attribute brackets.
pub fn windows_texts_are_judged()
    ensures broken { map (λ e. told_in Windows e.text) windows_texts_that_break ≡ map (λ e. e.told) windows_texts_that_break }
    ensures kept { map (λ e. told_in Windows e.text) windows_texts_that_keep ≡ map (λ e. e.told) windows_texts_that_keep }
{}

/// Two texts and the interfaces that they mean: a struct that ends with a conformant array, and a directory with enumerators, a union, texts
/// and pointers that lead back.
pub fn texts_have_their_meaning()
    ensures sum { meant_of sum_text ≡ sum_meant ∷ [] }
    ensures directory { meant_of directory_text ≡ directory_meant ∷ [] }
{}

/// The interfaces that the two texts mean are legal.
pub fn worked_meanings_are_legal()
    ensures sum { IsLegal sum_meant.types sum_meant.operations }
    ensures directory { IsLegal directory_meant.types directory_meant.operations }
{}

/// Three texts and how what they mean is listed: a struct that ends with a conformant array, a directory whose kinds another file declares, and all
/// other forms of types and roots.
pub fn listings_are_as_worked()
    ensures sum { listing_of sum_file ≡ sum_listing ∷ [] }
    ensures directory { listing_beside base_file directory_file ≡ directory_listing ∷ [] }
    ensures forms { listing_of forms_file ≡ forms_listing ∷ [] }
{}

/// Attribute configuration files with files of IDL: the directory's own and one of another interface, names that the IDL has and that it lacks,
/// each attribute at each place, and a file with IDL that breaks a rule itself, which is reported.
pub fn attribute_files_are_judged()
    ensures directory { told_of_directory directory_acf ≡ no_rule }
    ensures other { told_of_directory other_acf ≡ acf_rule_at 0 }
    ensures names { map (λ e. told_with small_idl e.text) acf_names ≡ map (λ e. e.told) acf_names }
    ensures places { map (λ e. told_with small_idl e.text) acf_places ≡ map (λ e. e.told) acf_places }
    ensures lesser { told_with broken_idl other_acf ≡ rule_at 30 29 }
{}
