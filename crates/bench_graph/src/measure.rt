// What is measured.
ghost use Rattle.std.specs.Prelude.{◌<◌, ◌^◌, length};
ghost use Rattle.nd_value.specs.Conforms.{HasFewNodes};

use crate::interface::list_interface;
use crate::list::{Form, list, pointers};
use nd_graph::{Fit, Graph, Home, Misfit, canonical, fit, same};
use nd_types::Side;
use std::io;
use std::time::{Duration, Instant};

// The octets of a node as a fit keeps it.
const NODE_SIZE: u64 = 24;

// Measures a list.
pub(crate) fn measured_list(rt: &HostRuntime, name: &str, form: Form) -> io::Result<()> {
    let nodes = u64::from(form.count) * 3 + 1;
    println!(rt; "{name}: {} cells, {nodes} nodes", form.count)?;
    copied(rt, nodes)?;
    let Ok(graph) = list(rt.alloc(), form) else {
        return Err(out_of_memory());
    };
    measured(rt, 0, graph, nodes)
}

// Makes a list, and nothing more of it: what it takes is what the caller of `fit` has before the call.
pub(crate) fn made_list(rt: &HostRuntime, form: Form) -> io::Result<()> {
    let Ok(_graph) = list(rt.alloc(), form) else {
        return Err(out_of_memory());
    };
    let nodes = u64::from(form.count) * 3 + 1;
    println!(rt; "graph: {} cells, {nodes} nodes", form.count)
}

// Measures pointers to one cell.
pub(crate) fn measured_pointers(rt: &HostRuntime, count: u32) -> io::Result<()>
    requires { count < 2 ^ 31 }
{
    let nodes = u64::from(count) + 3;
    println!(rt; "pointers: 1 cell, {nodes} nodes")?;
    copied(rt, nodes)?;
    let Ok(graph) = pointers(rt.alloc(), count) else {
        return Err(out_of_memory());
    };
    measured(rt, 1, graph, nodes)
}

// Fits a graph of so many nodes to an operation, makes it canonical and compares the two.
fn measured(rt: &HostRuntime, op: u32, graph: Graph, nodes: u64) -> io::Result<()>
    requires known { op < 2 }
    requires few_cells { length graph.cells < 2 ^ 32 }
    requires few_nodes { HasFewNodes graph }
{
    let Ok(interface) = list_interface(rt.alloc()) else {
        return Err(out_of_memory());
    };
    let start = Instant::now(rt)?;
    let fitted = fit(rt.alloc(), &interface, op, Side::In, None, graph);
    let spent = start.elapsed(rt)?;
    println!(rt; "fit: {} ns a node", per_node(spent, nodes))?;
    match fitted {
        Ok(fit) => compared(rt, &fit, nodes),
        Err((misfit, _graph)) => place(rt, misfit),
    }
}

// Says where a graph does not conform.
fn place(rt: &HostRuntime, misfit: Misfit) -> io::Result<()> {
    match misfit {
        Misfit::Memory => Err(out_of_memory()),
        Misfit::At {
            home: Home::Root(at),
            node,
            ..
        } => println!(rt; "misfit: root {at}, node {node}"),
        Misfit::At {
            home: Home::Cell(cell),
            node,
            ..
        } => println!(rt; "misfit: cell {}, node {node}", cell.0),
    }
}

// Makes a fit canonical and compares the two, which are the same.
fn compared(rt: &HostRuntime, fit: &Fit, nodes: u64) -> io::Result<()> {
    let start = Instant::now(rt)?;
    let Ok(canon) = canonical(rt.alloc(), fit) else {
        return Err(out_of_memory());
    };
    let spent = start.elapsed(rt)?;
    println!(rt; "canonical: {} ns a node", per_node(spent, nodes))?;
    let start = Instant::now(rt)?;
    let Ok(same) = same(rt.alloc(), fit, &canon) else {
        return Err(out_of_memory());
    };
    let spent = start.elapsed(rt)?;
    if !same {
        return Err(io::Error::from(io::ErrorKind::InvalidData));
    }
    println!(rt; "same: {} ns a node", per_node(spent, nodes))
}

fn per_node(spent: Duration, nodes: u64) -> u128 {
    if nodes == 0 {
        return 0;
    }
    spent.as_nanos() / u128::from(nodes)
}

fn out_of_memory() -> io::Error {
    io::Error::from(io::ErrorKind::OutOfMemory)
}

// Copies as many octets as so many nodes take, before there is a graph, and says the time.
fn copied(rt: &HostRuntime, nodes: u64) -> io::Result<()>
    requires { nodes < 2 ^ 34 }
{
    let size = (nodes * NODE_SIZE) as usize;
    let octets = vec![in rt.alloc(); 7u8; size]?;
    let mut copy = vec![in rt.alloc(); 0u8; size]?;
    let start = Instant::now(rt)?;
    copy.as_mut_slice().copy_from_slice(octets.as_slice());
    let spent = start.elapsed(rt)?;
    println!(rt; "copy of the nodes: {} ns a node", per_node(spent, nodes))
}
