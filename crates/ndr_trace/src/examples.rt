//! Worked traces, each a theorem over the definitions: where octets are refused, and the lines and the path that trace them. Settings, octets and
//! partial graphs are in specs/Examples.

ghost use Rattle.std.specs.Prelude.{◌≡◌, Some, pos, codes};
ghost use Rattle.nd_grammar.specs.declared.reason.Reason.TheVariants as reason;
ghost use Rattle.ndr_trace.specs.Examples.{cut_refusal, cut_trace, in_gap_trace, between_trace};
ghost use Rattle.ndr_trace.specs.Examples.{miscounted_refusal, miscounted_trace};
ghost use Rattle.ndr_trace.specs.Examples.{refused_in, armless_octets, armed_entries, armless_trace, one_number, shared_entries, shared_trace};
ghost use Rattle.ndr_trace.specs.Examples.{second_chunk, piped_entries, piped_trace};

/// An array is cut short within an element, in a gap, and between two items: the path is that of the value that lacks octets, or of the next one.
pub fn array_cut_short()
    ensures refused { cut_refusal ≡ Some (14, reason.Truncated) }
    ensures element { cut_trace ≡ codes "0 4 max @1 2\n4 2 num @1.n 2\n6 2 gap\n8 4 num @1.a[0] 5\n@1.a[1]" }
    ensures gap { in_gap_trace ≡ codes "0 4 max @1 2\n4 2 num @1.n 2\n@1.a[0]" }
    ensures between { between_trace ≡ codes "0 4 max @1 2\n@1.n" }
{}

/// A count states another number than there are elements: the path is that of the array.
pub fn count_disagrees()
    ensures refused { miscounted_refusal ≡ Some (0, reason.Disagrees (pos 3) (pos 2)) }
    ensures traced { miscounted_trace
        ≡ codes "0 4 max @1 2\n4 2 num @1.n 3\n6 2 gap\n8 4 num @1.a[0] 5\n12 4 num @1.a[1] 6\n@1.a" }
{}

/// A tag selects no arm: it has no line, and the path is that of the union.
pub fn tag_without_arm()
    ensures refused { refused_in armless_octets armed_entries 12 ≡ Some (10, reason.NoArm) }
    ensures traced { armless_trace
        ≡ codes "0 2 num a[0].k 1\n2 2 tag a[0].v 1\n4 4 num a[0].v.x 7\n8 2 num a[1].k 3\na[1].v" }
{}

/// A full pointer's number stands for a referent of another type.
pub fn number_of_another_type()
    ensures refused { refused_in one_number shared_entries 5 ≡ Some (8, reason.OtherType) }
    ensures traced { shared_trace ≡ codes "0 4 number p 2\n4 4 num @1 7\nq" }
{}

/// The elements of a pipe are counted through its chunks.
pub fn second_chunk_cut_short()
    ensures refused { refused_in second_chunk piped_entries 9 ≡ Some (18, reason.Truncated) }
    ensures traced { piped_trace ≡ codes "0 4 chunk d 2\n4 4 num d[0] 1\n8 4 num d[1] 2\n12 4 chunk d 1\nd[2]" }
{}
