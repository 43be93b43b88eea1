//! Laws of the graph of the sample, each the contract of a function that does nothing.
ghost use Rattle.std.specs.Prelude.{◌≡◌, ℕ, ◌+◌, ◌*◌, ◌≤◌, List, [], length};
ghost use Rattle.nd_value.specs.Conforms.{Conforms};
ghost use Rattle.nd_value.specs.Deferral.{Step, Deferral, due_roots, before_pipes};
ghost use Rattle.nd_value.specs.declared.value.Graph.{Graph};
ghost use Rattle.nd_value.specs.Canon.{Same};
ghost use Rattle.nd_value.specs.Setting.{root_list};
ghost use Rattle.nd_grammar.specs.Entry.{end_of};
ghost use Rattle.nd_grammar.specs.Stream.{representation};
ghost use Rattle.command_sample.specs.Interface.{sample_setting};
ghost use Rattle.command_sample.specs.Nodes.{sample_graph, sample_sum};
ghost use Rattle.command_sample.specs.Values.{values_sum};

/// The graph conforms to the request of its operation.
pub fn sample_conforms()
    ensures { (seed n : ℕ) → 1 ≤ n → n ≤ 1000000 → Conforms sample_setting (sample_graph seed n) }
{}

/// Its stream has a pointer for the root, and three numbers of four octets for each node.
pub fn sample_length()
    ensures { (seed n : ℕ) → 1 ≤ n → n ≤ 1000000 → (steps : List Step)
        → Deferral sample_setting (sample_graph seed n) [] (due_roots 0 (before_pipes (root_list sample_setting))) steps
        → (cuts : List (List ℕ)) → end_of 0 (representation sample_setting (sample_graph seed n) steps cuts) ≡ 4 + 12 * n }
{}

/// A graph that is the same up to the numbers of its cells has as many nodes, and the same sum of values.
pub fn sample_values()
    ensures cells { (seed n : ℕ) (h : Graph) → Same (sample_graph seed n) h → length h.cells ≡ n }
    ensures sum { (seed n : ℕ) (h : Graph) → Same (sample_graph seed n) h → values_sum h.cells ≡ sample_sum n seed }
{}
