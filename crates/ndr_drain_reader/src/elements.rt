// The elements of a chunk as values, made anew from the nodes of its graph.
ghost use Rattle.std.specs.Prelude.{◌≡◌, ◌∷◌, [], IfOk};
ghost use Rattle.nd_flat.specs.Building.{CanClose, HasNoUnread, closed};
ghost use Rattle.nd_value.specs.Tree as tree;
ghost use Rattle.nd_value.specs.Tree.{Trees, node, trees};

use nd_base::Memory;
use nd_flat::{Builder, Seen, values};
use nd_value::Vals;
use std::alloc::Global;

// The elements of a pipe that is the only root of a graph.
pub(crate) fn elements_of(alloc: Global, builder: Builder) -> Result<Vals, Memory>
    requires whole { CanClose builder }
    requires read { HasNoUnread (closed builder) }
    requires pipe { (kids : Trees) × ((closed builder).roots ≡ node tree.Pipe kids ∷ []) }
    ensures { IfOk result (λ vs. (closed builder).roots ≡ node tree.Pipe (trees vs) ∷ []) }
{
    let graph = builder.into_graph();
    let mut walk = graph.root_walk(0);
    let Some(Seen::Pipe(number)) = walk.step() else {
        unreachable!()
    };
    values(alloc, number, &mut walk)
}
