// Works for graphs.
ghost use Rattle.std.specs.Prelude.{◌≡◌, ◌≤◌, ◌<◌, ◌+◌, ◌^◌, ℕ, Err, Some, OnOk, IfOk, length};
ghost use Rattle.std.specs.List.{slice_get};
ghost use Rattle.nd_base.specs.declared.TheConstants.{STREAM_LIMIT};
ghost use Rattle.nd_types.specs.declared.types.Operation.{Operation};
ghost use Rattle.nd_value.specs.Deferral.{before_pipes};
ghost use Rattle.nd_value.specs.Setting.{root_list};
ghost use Rattle.ndr_code.specs.Code.{line_at, side_number};
ghost use Rattle.ndr_encode.specs.declared.work.EncodeFault.TheVariants.{TooLong};
ghost use Rattle.ndr_encode.specs.Making.{BeginsRoots, RootsTaken, BeginsPipes, PipesTaken};
ghost use Rattle.ndr_encode.specs.Work.{HasLength, IsWorkFor, IsTooLong, setting};

use crate::search::{Search, begin, referents, root, take_turn};
use crate::work::{EncodeFault, Work};
use nd_base::{Memory, STREAM_LIMIT};
use nd_flat::Fit;
use nd_types::Side;
use nd_value::Home;
use ndr_code::{Plan, PlanLine};
use ndr_encoder_value::Turn;
use std::alloc::Global;

// The number of a side among those of its operation.
fn number_of(side: Side) -> usize
    ensures { result ≡ side_number side }
{
    match side {
        Side::In => 0,
        Side::Out => 1,
    }
}

// The number of the first line of the side of a fit.
fn first_line(plan: &Plan, fit: &Fit) -> usize
    requires known { fit.now.op < length plan.now.tie.operations }
    ensures small { result < 2 ^ 32 }
    ensures line { (o : Operation) → slice_get plan.now.tie.operations fit.now.op ≡ Some o
        → result ≡ line_at plan.now.tie.types plan.now.tie.operations fit.now.op o fit.now.side }
{
    plan.sides.as_slice()[fit.op() as usize * 2 + number_of(fit.side())] as usize
}

// The roots that are no pipes take their turns, each with the referents of its pointers; how many there are.
fn roots(
    search: &mut Search,
    plan: &Plan,
    chunk: u32,
    fit: &Fit,
    first: usize,
) -> Result<u32, Memory>
    requires tied { plan.now.tie ≡ fit.now.interface }
    requires begins { BeginsRoots plan.now chunk fit.now first search.old }
    ensures taken { OnOk result (RootsTaken plan.now chunk fit.now search.old search.new) }
    ensures count { IfOk result
        (λ n. (o : Operation) → slice_get plan.now.tie.operations fit.now.op ≡ Some o → n ≡ before_pipes (root_list (setting fit.now o))) }
{
    let code = plan.code.as_slice();
    let lines = plan.entries.as_slice();
    let mut next = 0;
    for line in first..lines.len() {
        match &lines[line] {
            PlanLine::Checks {
                op: _,
                side: _,
                at: _,
            } => return Ok(next),
            PlanLine::Entry {
                op: _,
                side: _,
                name: _,
                at,
            } => {
                root(search, code, chunk, fit, next, *at)?;
                referents(search, code, chunk, fit)?;
                next = next + 1;
            }
        }
    }
    unreachable!()
}

// The pipes take their turns; the first of them is the root `next`, and its line is `first`.
fn pipes(
    search: &mut Search,
    plan: &Plan,
    chunk: u32,
    fit: &Fit,
    first: usize,
    next: u32,
) -> Result<(), Memory>
    requires tied { plan.now.tie ≡ fit.now.interface }
    requires begins { BeginsPipes plan.now chunk fit.now first next search.old }
    ensures taken { OnOk result (PipesTaken plan.now chunk fit.now search.old search.new) }
{
    let code = plan.code.as_slice();
    let lines = plan.entries.as_slice();
    let mut line = first;
    for pipe in next..fit.flat().root_count() as u32 {
        match &lines[line] {
            PlanLine::Checks {
                op: _,
                side: _,
                at: _,
            } => unreachable!(),
            PlanLine::Entry {
                op: _,
                side: _,
                name: _,
                at,
            } => {
                let turn = Turn {
                    home: Home::Root(pipe),
                    start: *at,
                };
                take_turn(search, code, chunk, fit, turn)?;
                line = line + 1;
            }
        }
    }
    Ok(())
}

// A work of what was found, if it is not too long.
fn finish(search: Search, chunk: u32) -> Result<Work, EncodeFault>
    ensures made { IfOk result
        (λ work. work ≡ record { turns = search.turns.items; numbers = search.numbers.items; length = search.count.at; chunk = chunk }) }
    ensures within { IfOk result (λ work. search.count.at ≤ STREAM_LIMIT) }
    ensures long { (n : ℕ) → result ≡ Err (TooLong n) → (n ≡ search.count.at) × (STREAM_LIMIT < n) }
{
    let length = search.count.at;
    if length > u128::from(STREAM_LIMIT) {
        return Err(EncodeFault::TooLong { length });
    }
    Ok(Work {
        length: length as u32,
        turns: search.turns,
        numbers: search.numbers,
        chunk,
    })
}

impl Work {
    /// Prepares the encoding of a graph that conforms: the plan is of the interface of the fit, and each chunk of a pipe is to have `chunk` elements,
    /// at least one, except the last, which may have fewer (C706 chapter 14). It takes memory for 12 octets for each root and cell and 4 for each
    /// cell, which it keeps, and for a mark for each cell and 8 octets for each pending referent, which it gives back. The length of the work is that
    /// of the octets; `TooLong` exactly if they are more than a stream may have.
    pub fn for_graph(alloc: Global, plan: &Plan, fit: &Fit, chunk: u32) -> Result<Work, EncodeFault>
        requires tied { plan.now.tie ≡ fit.now.interface }
        requires some { 1 ≤ chunk }
        ensures made { IfOk result (λ work. IsWorkFor fit.now chunk work) }
        ensures length { IfOk result (λ work. HasLength fit.now chunk work.length) }
        ensures long { (n : ℕ) → result ≡ Err (TooLong n) → IsTooLong fit.now chunk n }
    {
        let flat = fit.flat();
        let mut search = begin(alloc, flat.cell_count(), flat.root_count())?;
        let first = first_line(plan, fit);
        let next = roots(&mut search, plan, chunk, fit, first)?;
        pipes(
            &mut search,
            plan,
            chunk,
            fit,
            first + next as usize + 1,
            next,
        )?;
        finish(search, chunk)
    }
}
