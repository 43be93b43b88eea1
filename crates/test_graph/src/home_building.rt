// Steps of a builder.
ghost use Rattle.std.specs.Prelude.{◌≡◌, [], ◌∷◌, OnOk};
ghost use Rattle.nd_flat.specs.Building.{CanClose};
ghost use Rattle.nd_flat.specs.FlatForm.{flat_seen, IsKeepable};
ghost use Rattle.test_graph.specs.Steps.{with_home};

use nd_base::Memory;
use nd_flat::{Builder, Seen};

/// The next root is of one node.
pub(crate) fn add_root(builder: &mut Builder, node: &Seen<'_>) -> Result<(), Memory>
    requires whole { CanClose builder.old }
    requires kept { IsKeepable (flat_seen node.now).0 }
    ensures { OnOk result (builder.new ≡ with_home (flat_seen node.now ∷ []) builder.old) }
{
    builder.root()?;
    builder.add(node)?;
    Ok(())
}
