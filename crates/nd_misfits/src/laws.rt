//! Laws of the passes, each the contract of a function that does nothing.
ghost use Rattle.std.specs.Prelude.{◌≡◌, ℕ, ◌<◌, List, length, map, slice_index_or};
ghost use Rattle.nd_types.specs.declared.types.AttrVar.{AttrVar};
ghost use Rattle.nd_types.specs.Roots.{named_root};
ghost use Rattle.nd_value.specs.declared.value.Graph.{Graph};
ghost use Rattle.nd_value.specs.Setting.{Setting, root_list};
ghost use Rattle.nd_value.specs.Agreement.{root_agreements};
ghost use Rattle.nd_value.specs.Conforms.{first_disagreeing};
ghost use Rattle.nd_misfits.specs.declared.numbers.ParamNumber.{ParamNumber};
ghost use Rattle.nd_misfits.specs.HomeList.{homes_of};
ghost use Rattle.nd_misfits.specs.Disagreeing.{disagreeing_homes};
ghost use Rattle.nd_misfits.specs.Numbers.{numbers_of, given_numbers, no_number, number_among, agreements_by, AreNumbers};

/// The first node of a graph whose agreements do not all hold is the first of its homes, one after the other.
pub fn fourth_pass_by_homes()
    ensures { (w : Setting) (g : Graph) → first_disagreeing w g ≡ disagreeing_homes w g (homes_of (map (named_root w.op) (root_list w)) g) }
{}

/// The numbers of the roots of a graph, and where a parameter is none of them the numbers of the request's inputs, are the values of the
/// variables that attributes of parameters name.
pub fn numbers_are_values()
    ensures values { (w : Setting) (g : Graph) (numbers : List ParamNumber) → length numbers ≡ length w.op.params
        → ((j : ℕ) → j < length w.op.params → slice_index_or numbers j no_number
        ≡ number_among (numbers_of g (map (named_root w.op) (root_list w)) g.roots) j (number_among (given_numbers w.table w.op w.given) j no_number))
        → AreNumbers w g numbers }
    ensures agreements { (w : Setting) (g : Graph) (numbers : List ParamNumber) (vars : List AttrVar) → AreNumbers w g numbers
        → agreements_by numbers vars ≡ root_agreements w g vars }
{}
