// A graph that is built node by node: a pointer to a pair, whose first pointer is to a struct of two pointers to leaves 5 and 6, and whose second is
// to the leaf 5 too.
ghost use Rattle.std.specs.Prelude.{◌≡◌, ℕ, ◌<◌, ◌≤◌, length, None, IfOk, OnOk};
ghost use Rattle.nd_types.specs.declared.types.Side.TheVariants as sides;
ghost use Rattle.nd_value.specs.Tree as tree;
ghost use Rattle.nd_flat.specs.Building.{CanClose, fitting};
ghost use Rattle.nd_flat.specs.FlatForm.{IsKeepable};
ghost use Rattle.test_graph.specs.Built.{two_nodes, leaf_nodes, filled, rooted};
ghost use Rattle.test_graph.specs.Built.{with_cells, with_pointer, with_pair, with_two, with_leaf, with_leaves, pair_graph};

use crate::graphs::pair;
use crate::interface::{PAIR, interface};
use crate::tests::fitted;
use nd_base::{Counted, Memory, Steps};
use nd_graph::{Builder, CellId, Fit, FlatGraph, Home, Seen, Walk, same};
use nd_types::{Interface, Side, Tie, TypeId};
use std::alloc::Global;
use std::test::Fail;

// Four cells get their numbers: a pair, a struct of two pointers, and two leaves.
fn number_cells(alloc: Global, tie: Tie) -> Result<Builder, Memory>
    ensures { IfOk result (λ b. b ≡ with_cells tie) }
{
    let mut steps = Steps::new(Counted::new());
    let mut builder = Builder::begin(alloc, tie, PAIR, Side::In, None);
    builder.reserve(TypeId(18), &mut steps)?;
    builder.reserve(TypeId(16), &mut steps)?;
    builder.reserve(TypeId(14), &mut steps)?;
    builder.reserve(TypeId(14), &mut steps)?;
    Ok(builder)
}

// The next root is a pointer.
fn add_pointer(builder: &mut Builder, to: u32) -> Result<(), Memory>
    requires whole { CanClose builder.old }
    ensures { OnOk result (builder.new ≡ rooted to builder.old) }
{
    builder.root()?;
    builder.add(&Seen::Ptr(Some(CellId(to))))?;
    Ok(())
}

// A cell is a struct of two pointers.
fn fill_two(builder: &mut Builder, cell: u32, first: u32, second: u32) -> Result<(), Memory>
    requires whole { CanClose builder.old }
    requires least { 0 < cell }
    requires there { cell ≤ length builder.old.graph.cells }
    ensures { OnOk result (builder.new ≡ filled cell (two_nodes first second) builder.old) }
{
    builder.fill(CellId(cell));
    builder.add(&Seen::Rec(2))?;
    builder.add(&Seen::Ptr(Some(CellId(first))))?;
    builder.add(&Seen::Ptr(Some(CellId(second))))?;
    Ok(())
}

// A cell is a leaf.
fn fill_leaf(builder: &mut Builder, cell: u32, number: i128) -> Result<(), Memory>
    requires whole { CanClose builder.old }
    requires least { 0 < cell }
    requires there { cell ≤ length builder.old.graph.cells }
    requires kept { IsKeepable (tree.Num number) }
    ensures { OnOk result (builder.new ≡ filled cell (leaf_nodes number) builder.old) }
{
    builder.fill(CellId(cell));
    builder.add(&Seen::Rec(1))?;
    builder.add(&Seen::Num(number))?;
    Ok(())
}

fn build_pointer(alloc: Global, tie: Tie) -> Result<Builder, Memory>
    ensures { IfOk result (λ b. b ≡ with_pointer tie) }
{
    let mut builder = number_cells(alloc, tie)?;
    add_pointer(&mut builder, 1)?;
    Ok(builder)
}

fn build_pair(alloc: Global, tie: Tie) -> Result<Builder, Memory>
    ensures { IfOk result (λ b. b ≡ with_pair tie) }
{
    let mut builder = build_pointer(alloc, tie)?;
    fill_two(&mut builder, 1, 2, 3)?;
    Ok(builder)
}

fn build_two(alloc: Global, tie: Tie) -> Result<Builder, Memory>
    ensures { IfOk result (λ b. b ≡ with_two tie) }
{
    let mut builder = build_pair(alloc, tie)?;
    fill_two(&mut builder, 2, 3, 4)?;
    Ok(builder)
}

fn build_leaf(alloc: Global, tie: Tie) -> Result<Builder, Memory>
    ensures { IfOk result (λ b. b ≡ with_leaf tie) }
{
    let mut builder = build_two(alloc, tie)?;
    fill_leaf(&mut builder, 3, 5)?;
    Ok(builder)
}

fn build_leaves(alloc: Global, tie: Tie) -> Result<Builder, Memory>
    ensures { IfOk result (λ b. b ≡ with_leaves tie) }
{
    let mut builder = build_leaf(alloc, tie)?;
    fill_leaf(&mut builder, 4, 6)?;
    Ok(builder)
}

fn build(alloc: Global, tie: Tie) -> Result<FlatGraph, Memory>
    ensures { IfOk result (λ g. g ≡ pair_graph) }
{
    let builder = build_leaves(alloc, tie)?;
    Ok(builder.into_graph())
}

// The graph as the fit that it is finished to, where that of the same values is known.
fn finished(builder: Builder, beside: &Fit) -> Fit
    requires whole { CanClose builder }
    requires alike { fitting builder ≡ beside.now }
    ensures { result ≡ beside.now }
{
    let flat = beside.flat();
    let _roots = flat.root_count();
    builder.finish()
}

// The pair, built and finished.
fn build_fit(alloc: Global, interface: &Interface, beside: &Fit) -> Result<Fit, Memory>
    requires of { beside.now ≡ record { graph = pair_graph; op = 1; side = sides.In; interface = interface.now; given = None } }
    ensures { IfOk result (λ f. f ≡ beside.now) }
{
    let builder = build_leaves(alloc, interface.tie())?;
    Ok(finished(builder, beside))
}

// Whether a walk sees these nodes and no more.
fn sees(walk: Walk<'_>, nodes: &[Seen<'_>]) -> bool {
    let mut walk = walk;
    for node in nodes {
        let Some(seen) = walk.step() else {
            return false;
        };
        if seen != *node {
            return false;
        }
    }
    walk.step().is_none()
}

#[test]
fn pairs_are_built(rt: HostRuntime) -> Result<(), Fail> {
    let interface = interface(rt.alloc())?;
    let graph = build(rt.alloc(), interface.tie())?;
    assert!(rt; sees(graph.walk(Home::Root(0)), &[Seen::Ptr(Some(CellId(1)))]));
    let first = [
        Seen::Rec(2),
        Seen::Ptr(Some(CellId(2))),
        Seen::Ptr(Some(CellId(3))),
    ];
    assert!(rt; sees(graph.walk(Home::Cell(CellId(1))), &first));
    let second = [
        Seen::Rec(2),
        Seen::Ptr(Some(CellId(3))),
        Seen::Ptr(Some(CellId(4))),
    ];
    assert!(rt; sees(graph.walk(Home::Cell(CellId(2))), &second));
    assert!(rt;
        sees(
            graph.walk(Home::Cell(CellId(3))),
            &[Seen::Rec(1), Seen::Num(5)]
        )
    );
    assert!(rt;
        sees(
            graph.walk(Home::Cell(CellId(4))),
            &[Seen::Rec(1), Seen::Num(6)]
        )
    );
    assert_eq!(rt; graph.cell_type(1), TypeId(16));
    Ok(())
}

#[test]
#[tactic(auto, using(crate::proofs::Small::pair_small))]
fn pairs_are_finished(rt: HostRuntime) -> Result<(), Fail> {
    let interface = interface(rt.alloc())?;
    let fit = fitted(rt.alloc(), &interface, PAIR, pair(rt.alloc())?)?;
    assert!(rt; is_finished(rt.alloc(), &interface, &fit)?);
    Ok(())
}

// Whether the pair that is built is finished as the fit of the same values.
fn is_finished(alloc: Global, interface: &Interface, fit: &Fit) -> Result<bool, Memory>
    requires of { fit.now ≡ record { graph = pair_graph; op = 1; side = sides.In; interface = interface.now; given = None } }
{
    let built = build_fit(alloc, interface, fit)?;
    let is_of = built.op() == PAIR && built.side() == Side::In;
    let alike = same(alloc, &built, fit)?;
    Ok(is_of && alike)
}
