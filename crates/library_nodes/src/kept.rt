// Nodes that are listed again and again.
ghost use Rattle.std.specs.Prelude.{◌≡◌, OnOk, OnErr, IfOk};
ghost use Rattle.library_nodes.specs.Listed.{IsListOf};

use crate::nodes::Nodes;
use nd_base::Memory;
use nd_flat::FlatGraph;
use std::alloc::Global;
use std::marker::Model;
use std::mem;

// Two lists of nodes, of which the first is the one that is read.
#[derive(Drop)]
struct Lists {
    nodes: Box<Nodes>,
    spare: Box<Nodes>,
}

/// The nodes of a graph, and the room of a list before them, in which the nodes of the next graph are listed: so graphs of the same size take no
/// memory after the second. Contracts see the nodes. Each list is in a box, so that what holds them is small, and they change places without being
/// moved.
#[derive(Drop)]
pub struct KeptNodes {
    lists: Lists,
}

impl Model for KeptNodes {
    ghost use Rattle.library_nodes.specs.contracts.nodes.Nodes.{the_row as nodes_row};
    ghost use Rattle.library_nodes.specs.declared.nodes.Nodes.{Nodes as NodesSeen};

    ghost Value = { NodesSeen };

    ghost coded = { nodes_row.coded };

    ghost view = { λ k. k.lists.nodes.value };
}

impl KeptNodes {
    /// The nodes of a graph. It takes memory as `Nodes::of` does, and for two boxes; running out of it is the only refusal.
    #[inline(never)]
    pub fn of(alloc: Global, graph: &FlatGraph) -> Result<KeptNodes, Memory>
        ensures { IfOk result (λ k. IsListOf graph.now k) }
    {
        let listed = Nodes::of(alloc, graph)?;
        let Ok(nodes) = Box::new(alloc, listed) else {
            return Err(Memory);
        };
        match Box::new(alloc, Nodes::none(alloc)) {
            Ok(spare) => Ok(KeptNodes {
                lists: Lists { nodes, spare },
            }),
            Err(_) => Err(Memory),
        }
    }

    /// Lists the nodes of another graph in place of these. It takes memory for what has no room in the list before these; running out of it is the
    /// only refusal, and then these stay. The time is in proportion to the nodes and octets of the graph.
    pub fn list(&mut self, graph: &FlatGraph) -> Result<(), Memory>
        ensures ok { OnOk result (IsListOf graph.now self.new) }
        ensures err { OnErr result (self.new ≡ self.old) }
    {
        list_in_room(&mut self.lists, graph)
    }

    /// The nodes. Takes no memory.
    #[inline(always)]
    pub fn nodes(&self) -> &Nodes
        ensures { result.now ≡ self.now }
    {
        &*self.lists.nodes
    }
}

// Lists the nodes of a graph in the room of the spare list, which changes places with the other.
#[inline(always)]
fn list_in_room(lists: &mut Lists, graph: &FlatGraph) -> Result<(), Memory>
    ensures ok { OnOk result (IsListOf graph.now lists.new.nodes.value) }
    ensures err { OnErr result (lists.new.nodes.value ≡ lists.old.nodes.value) }
{
    lists.spare.fill(graph)?;
    mem::swap(&mut lists.nodes, &mut lists.spare);
    Ok(())
}
