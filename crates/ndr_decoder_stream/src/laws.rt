//! Laws of what is kept of a stream, each the contract of a function that does nothing.
ghost use Rattle.std.specs.Prelude.{◌≡◌, ◌≤◌, ◌<◌, ℕ, length, map};
ghost use Rattle.nd_flat.specs.Building.{Building, closed, opened, with_root};
ghost use Rattle.nd_value.specs.Setting.{cell_home};
ghost use Rattle.nd_value.specs.Tree.{Tree, flat, more, none};
ghost use Rattle.nd_value.specs.declared.item.Home.TheVariants as home;
ghost use Rattle.ndr_decoder_laws.specs.stream.Between.{CellFilled, RootAdded};
ghost use Rattle.ndr_decoder_stream.specs.Ends.{HomeRan};

/// Where the nodes of an open home are those of a value, and what was read before it is as it was, the graph is that before with the value.
pub fn graphs_end()
    ensures root { (b n : Building) (v : Tree) → HomeRan (opened (home.Root (length b.graph.roots)) (with_root (closed b)) b) n
        → n.nodes ≡ flat (more v none)
        → RootAdded v (map (λ c. c.of) n.graph.cells) (closed b) (closed n) }
    ensures cell { (b n : Building) (c : ℕ) (v : Tree) → HomeRan (opened (cell_home c) (closed b) b) n → n.nodes ≡ flat (more v none) → 0 < c
        → c ≤ length n.graph.cells
        → CellFilled (closed b).roots c v (map (λ x. x.of) n.graph.cells) (closed b) (closed n) }
{}
