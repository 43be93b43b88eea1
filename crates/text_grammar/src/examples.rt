//! Worked examples, each a theorem over the definitions: which texts are read as which graphs, and printed of them. Settings, texts and graphs are in
//! specs/Examples.

ghost use Rattle.std.specs.Prelude.{◌≡◌};
ghost use Rattle.text_grammar.specs.declared.version.Version.TheVariants as version;
ghost use Rattle.text_grammar.specs.Written.{graph_text};
ghost use Rattle.text_grammar.specs.Reads.{ReadsAs};
ghost use Rattle.text_grammar.specs.Examples.{adding, adding_text, three_numbers, ring, ring_text, ring_of_two, using, using_text, a_handle, putting};
ghost use Rattle.text_grammar.specs.Examples.{putting_text, putting_text_one, three_entries, listing, listing_text, four_lists, bytes, bytes_text};
ghost use Rattle.text_grammar.specs.Examples.{four_byte_lists};

/// The text of three numbers.
pub fn text_of_numbers()
    ensures read { ReadsAs adding adding_text three_numbers }
    ensures printed { graph_text version.Two adding three_numbers ≡ adding_text }
{}

/// A ring of two cells, each of which is named before its line.
pub fn text_of_a_ring()
    ensures read { ReadsAs ring ring_text ring_of_two }
    ensures printed { graph_text version.Two ring ring_of_two ≡ ring_text }
{}

/// A context handle, whose identifier may have digits in either case.
pub fn text_of_a_context_handle()
    ensures { ReadsAs using using_text a_handle }
{}

/// Entries of a directory: a structure with an enumerated value, a union of which one arm is empty, a string of fixed bound and
/// pointers, and a conformant array of bytes: in version 2, which is printed, and in version 1.
pub fn text_of_a_directory()
    ensures read { ReadsAs putting putting_text three_entries }
    ensures first { ReadsAs putting putting_text_one three_entries }
    ensures printed { graph_text version.Two putting three_entries ≡ putting_text }
{}

/// Arrays of fixed and of conformant bound, and escapes of a string, with few blanks. A fixed array may have another number of items
/// than its bound.
pub fn text_of_lists()
    ensures { ReadsAs listing listing_text four_lists }
{}

/// Bytes in a fixed array of two dimensions, in a conformant varying array and in a varying array, with digits in either case.
pub fn text_of_bytes()
    ensures { ReadsAs bytes bytes_text four_byte_lists }
{}
