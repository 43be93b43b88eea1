//! The types and graphs are in specs/Graphs.
ghost use Rattle.std.specs.Prelude.{pos, Some, None};
ghost use Rattle.nd_value.specs.declared.item.Home.TheVariants as home;
ghost use Rattle.nd_value.specs.declared.misfit.MisfitReason.TheVariants as misfit;
ghost use Rattle.nd_value.specs.Setting.{cell_home};
ghost use Rattle.nd_value.specs.Conforms.{Conforms, IsFirstMisfit};
ghost use Rattle.nd_value.specs.Canon.{Same};
ghost use Rattle.example_ndr.specs.Graphs.{sized, other_size, said, zero_within, sized_back, two_back, asked, sized_by_own, one_back};
ghost use Rattle.example_ndr.specs.Graphs.{asked_by_pointer, ring_of_one, ring_of_two};

/// A member's size_is states another number than its array's maximum count: the place is the array. A zero within a string: the place is
/// the string.
pub fn misfits_in_cells()
    ensures disagrees { IsFirstMisfit sized other_size (record { home = cell_home 1; node = 2; reason = misfit.Disagrees (pos 3) (pos 2) }) }
    ensures zero { IsFirstMisfit said zero_within (record { home = cell_home 1; node = 0; reason = misfit.Zero }) }
{}

/// The size of an output by an input that does not travel back: without a request it is free, with one it is the request's number.
pub fn size_by_request()
    ensures free { Conforms (sized_back None) two_back }
    ensures agrees { Conforms (sized_back (Some (asked (pos 2)))) two_back }
    ensures disagrees { IsFirstMisfit (sized_back (Some (asked (pos 3)))) two_back
        (record { home = home.Root 0; node = 0; reason = misfit.Disagrees (pos 3) (pos 2) }) }
{}

/// Where the variable travels back the response's own number counts, whatever the request's is.
pub fn size_by_response()
    ensures { Conforms (sized_by_own (Some asked_by_pointer)) one_back }
{}

/// A ring of one node is not the same as a ring of two.
pub fn rings_differ()
    ensures { ¬ Same ring_of_one ring_of_two }
{}
