//! A law of graphs without a misfit, the contract of a function that does nothing.
ghost use Rattle.std.specs.Prelude.{◌≡◌, ◌<◌, ◌^◌, true, length};
ghost use Rattle.std.specs.List.{list_all};
ghost use Rattle.nd_value.specs.declared.value.Graph.{Graph};
ghost use Rattle.nd_value.specs.Setting.{Setting};
ghost use Rattle.nd_value.specs.Conforms.{all_nodes, Conforms, HasFewNodes, MisfitAt, IsFirstMisfit};
ghost use Rattle.nd_value.specs.Misfit.{has_machine_values};

/// A graph of values of the program, with few cells and few nodes, conforms where it has no first misfit.
pub fn conforms_without_misfit()
    ensures { (w : Setting) (g : Graph) → ((m : MisfitAt) → ¬ IsFirstMisfit w g m)
        → list_all (λ x. has_machine_values x.typed.label) (all_nodes w g) ≡ true → length g.cells < 2 ^ 32 → HasFewNodes g
        → Conforms w g }
{}
