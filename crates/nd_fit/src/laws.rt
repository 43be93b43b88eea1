//! Laws of the passes, each the contract of a function that does nothing.
ghost use Rattle.std.specs.Prelude.{ℕ, ◌<◌, ◌≤◌, length, Some, None};
ghost use Rattle.nd_value.specs.declared.value.Graph.{Graph};
ghost use Rattle.nd_value.specs.declared.value.CellId.{CellId};
ghost use Rattle.nd_value.specs.Setting.{Setting, root_list};
ghost use Rattle.nd_value.specs.Conforms.{Reached, IsFirstUnreached};
ghost use Rattle.nd_fit.specs.Reach.{Reach, TellsReach, RootsFormed, CellsFormed};

/// Where each value has the form of its type, the cells that nodes reach are those that pointers reach by their types.
pub fn reached_by_nodes()
    ensures reach { (w : Setting) (g : Graph) → RootsFormed w.table (root_list w) g.roots → CellsFormed w.table g.cells
        → (c : ℕ) → Reached w g c → Reach g c }
    ensures reached { (w : Setting) (g : Graph) → RootsFormed w.table (root_list w) g.roots → CellsFormed w.table g.cells
        → (c : ℕ) → Reach g c → Reached w g c }
    ensures all { (w : Setting) (g : Graph) → RootsFormed w.table (root_list w) g.roots → CellsFormed w.table g.cells
        → TellsReach g None → (c : ℕ) → 0 < c → c ≤ length g.cells → Reached w g c }
    ensures first { (w : Setting) (g : Graph) → RootsFormed w.table (root_list w) g.roots → CellsFormed w.table g.cells
        → (c : CellId) → TellsReach g (Some c) → IsFirstUnreached w g c.0 }
{}
