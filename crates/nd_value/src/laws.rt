//! Laws of graphs that conform, each the contract of a function that does nothing.
ghost use Rattle.std.specs.Prelude.{◌≡◌, ℕ, ◌<◌, ◌≤◌, ◌^◌, true, [], length, None};
ghost use Rattle.std.specs.List.{list_all};
ghost use Rattle.nd_value.specs.declared.value.Graph.{Graph};
ghost use Rattle.nd_value.specs.Canon.{Same};
ghost use Rattle.nd_value.specs.Setting.{Setting};
ghost use Rattle.nd_value.specs.Conforms.{all_nodes, all_pointers, Conforms, HasFewNodes, Reached, MisfitAt, IsFirstMisfit, first_local};
ghost use Rattle.nd_value.specs.Conforms.{first_shared, first_disagreeing};
ghost use Rattle.nd_value.specs.Misfit.{has_machine_values};

/// A graph that has a first misfit does not conform.
pub fn misfit_is_no_fit()
    ensures { (w : Setting) (g : Graph) (m : MisfitAt) → IsFirstMisfit w g m → ¬ Conforms w g }
{}

/// A graph has one first misfit at most.
pub fn one_first_misfit()
    ensures { (w : Setting) (g : Graph) (m n : MisfitAt) → IsFirstMisfit w g m → IsFirstMisfit w g n → m ≡ n }
{}

/// A graph of values of the program, with few cells and few nodes, conforms where no pass over it finds a misfit.
pub fn passed_conforms()
    ensures { (w : Setting) (g : Graph) → first_local w g ≡ None → first_shared [] (all_pointers w g) ≡ None
        → ((c : ℕ) → 0 < c → c ≤ length g.cells → Reached w g c) → first_disagreeing w g ≡ None
        → list_all (λ x. has_machine_values x.typed.label) (all_nodes w g) ≡ true → length g.cells < 2 ^ 32 → HasFewNodes g
        → Conforms w g }
{}

/// A graph is the same as itself; and one without cells is the same as no other, whatever its pointers name.
pub fn same_relates_cells()
    ensures itself { (g : Graph) → Same g g }
    ensures without_cells { (g h : Graph) → g.cells ≡ [] → Same g h → g ≡ h }
{}
