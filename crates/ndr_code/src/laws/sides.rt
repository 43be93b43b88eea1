//! Laws of the code of a side, each the contract of a function that does nothing.
ghost use Rattle.std.specs.Prelude.{◌≡◌, length, flat_map, take, drop};
ghost use Rattle.nd_value.specs.declared.value.Graph.{Graph};
ghost use Rattle.nd_value.specs.Deferral.{before_pipes};
ghost use Rattle.nd_value.specs.Setting.{Setting, root_list};
ghost use Rattle.nd_grammar.specs.Stream.{root_tests};
ghost use Rattle.ndr_code.specs.Code.{value_roots, pipe_roots, checks_run};
ghost use Rattle.ndr_code.specs.Tried.{tried};

/// The roots that have runs of their own are those before the first pipe, and the pipes are all that follow.
pub fn roots_and_pipes()
    ensures roots { (w : Setting) → value_roots (root_list w) ≡ take (before_pipes (root_list w)) (root_list w) }
    ensures pipes { (w : Setting) → pipe_roots (root_list w) ≡ drop (before_pipes (root_list w)) (root_list w) }
{}

/// What the checks of a side try, one after the other, are the agreements of its parameters, beside a request or beside none.
pub fn checks_are_tests()
    ensures { (w : Setting) (g : Graph) → length g.roots ≡ length (root_list w)
        → flat_map (tried w g) (checks_run w.table w.op w.side) ≡ root_tests w g 0 (root_list w) g.roots }
{}
