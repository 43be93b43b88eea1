//! Worked examples, each a theorem over the definitions: which octets are streams of which graphs, where octets are refused, and
//! which graphs conform. The types, graphs and octets are in specs/, in the files whose names begin with Examples; there the types
//! of an example are numbered from 12 on, after the basic types.

ghost use Rattle.std.specs.Prelude.{[], ◌∷◌, pos, Some, None};
ghost use Rattle.nd_base.specs.declared.octets.Order.TheVariants.{Big, Little};
ghost use Rattle.nd_value.specs.declared.item.Home.TheVariants as home;
ghost use Rattle.nd_value.specs.declared.misfit.MisfitReason.TheVariants as misfit;
ghost use Rattle.nd_value.specs.Setting.{cell_home};
ghost use Rattle.nd_value.specs.Conforms.{Conforms, IsFirstMisfit};
ghost use Rattle.nd_value.specs.Canon.{IsCanon};
ghost use Rattle.nd_grammar.specs.Stream.{Represents, Chosen};
ghost use Rattle.nd_grammar.specs.Refusal.{Bad};
ghost use Rattle.example_ndr.specs.Examples.{ring, ring_of_one, ring_of_two, ring_swapped, ring_and_stray};
ghost use Rattle.nd_grammar.specs.ExampleParts.{num, one, four};
ghost use Rattle.example_ndr.specs.ExamplesPlain.{integers, one_two_three, integers_little, integers_big, cut_in_hyper, cut_in_gap, flag, true_flag};
ghost use Rattle.example_ndr.specs.ExamplesPlain.{handle, a_handle, handle_little, handle_big};
ghost use Rattle.example_ndr.specs.ExamplesPointers.{pairs, shared_leaf, shared_leaf_octets, null_pair, unique_longs, shared_five, full_longs};
ghost use Rattle.example_ndr.specs.ExamplesPointers.{long_and_short, one_five_one};
ghost use Rattle.example_ndr.specs.ExamplesArrays.{sized, sized_graph, sized_octets, nested, nested_graph, nested_octets};
ghost use Rattle.example_ndr.specs.ExamplesUnions.{choice_of_hyper, default_chosen, choice_octets, pipe_of_longs, three_piped, chunks_of_two};
ghost use Rattle.example_ndr.specs.ExamplesUnions.{first_chunk};

use nd_grammar::Reason;

/// Three plain integers in both orders, each at a multiple of its width. A gap holds anything, and is written as zeros.
pub fn three_integers()
    ensures little { Represents integers Little integers_little one_two_three }
    ensures big { Represents integers Big integers_big one_two_three }
    ensures written { Chosen integers Little 1 one_two_three integers_little }
{}

/// Octets that end within a number, or within the gap before one, are refused at their end.
pub fn integers_cut_short()
    ensures number { Bad integers Little cut_in_hyper 9 Reason.Truncated }
    ensures gap { Bad integers Little cut_in_gap 7 Reason.Truncated }
{}

/// Any octet but zero is TRUE, and TRUE is written as 1.
pub fn truth_value()
    ensures any { Represents flag Little (255 ∷ []) true_flag }
    ensures written { Chosen flag Little 1 true_flag (1 ∷ []) }
{}

/// A context handle in both orders: attributes, then an identifier whose first three fields are numbers.
pub fn context_handle()
    ensures little { Represents handle Little handle_little a_handle }
    ensures big { Represents handle Big handle_big a_handle }
{}

/// A node that points to itself by a full pointer.
pub fn ring_to_itself()
    ensures { Represents ring Little (four 1 (four 7 (four 1 []))) ring_of_one }
{}

/// A ring of two nodes conforms.
pub fn ring_conforms()
    ensures { Conforms ring ring_of_two }
{}

/// With its cells swapped it is the same ring: numbered by the first pointer to each cell it is the ring again.
pub fn ring_renumbered()
    ensures { IsCanon ring ring_swapped ring_of_two }
{}

/// A referent that two full pointers share is where deferral comes to it first, and not where it is named first in place.
pub fn first_of_deferral()
    ensures stands { Represents pairs Little shared_leaf_octets shared_leaf }
    ensures written { Chosen pairs Little 1 shared_leaf shared_leaf_octets }
{}

/// Two full pointers of one number share one referent, if it is of one type, and else the second is refused.
pub fn one_full_number()
    ensures shared { Represents full_longs Little one_five_one shared_five }
    ensures other_type { Bad long_and_short Little one_five_one 8 Reason.OtherType }
{}

/// The maximum count of a struct that ends in a conformant array is in front of the struct, and agrees with the member that
/// states it, else the refusal is at the count.
pub fn maximum_count_in_front()
    ensures stands { Represents sized Little (sized_octets 2) (sized_graph (pos 2)) }
    ensures disagrees { Bad sized Little (sized_octets 3) 0 (Reason.Disagrees (pos 3) (pos 2)) }
{}

/// The maximum count is in front of the outermost struct.
pub fn maximum_count_through_structs()
    ensures { Represents nested Little nested_octets nested_graph }
{}

/// A tag that no label has selects the default, whose arm has its own alignment.
pub fn union_default()
    ensures { Represents choice_of_hyper Little choice_octets (default_chosen (one (num (pos 1)))) }
{}

/// A pipe is chunks, each after its count, and the count 0. Octets that end after a chunk's count are refused at their end.
pub fn pipe_in_chunks()
    ensures chunks { Represents pipe_of_longs Little chunks_of_two three_piped }
    ensures written { Chosen pipe_of_longs Little 2 three_piped chunks_of_two }
    ensures cut { Bad pipe_of_longs Little first_chunk 16 Reason.Truncated }
{}

/// Where graphs do not conform: at a cell that nothing names, at a null reference pointer, and at the second of two unique pointers
/// to one cell.
pub fn misfits()
    ensures unreached { IsFirstMisfit ring ring_and_stray
        (record { home = cell_home 2; node = 0; reason = misfit.Unreached }) }
    ensures null_reference { IsFirstMisfit pairs null_pair
        (record { home = home.Root 0; node = 0; reason = misfit.NullRef }) }
    ensures shared { IsFirstMisfit unique_longs shared_five
        (record { home = home.Root 1; node = 0; reason = misfit.Shared }) }
{}

/// These octets are a ring of two nodes.
pub fn ring_of_two_nodes()
    ensures { Represents ring Little (1 ∷ 0 ∷ 0 ∷ 0 ∷ 7 ∷ 0 ∷ 0 ∷ 0 ∷ 2 ∷ 0 ∷ 0 ∷ 0 ∷ 8 ∷ 0 ∷ 0 ∷ 0 ∷ 1 ∷ 0 ∷ 0 ∷ 0 ∷ []) ring_of_two }
{}
