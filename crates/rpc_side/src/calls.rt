// The open calls of a side.
ghost use Rattle.std.specs.Prelude.{◌≡◌, ℕ, ◌+◌, ◌-◌, ◌≤◌, ◌<◌, ◌^◌, ◌&&◌, nat_eq, nat_le, [], ◌∷◌, length, Some, None, IfOk, OnOk, OnErr};
ghost use Rattle.indexmap.specs.IndexMap.{get, index_map_len, Updates};
ghost use Rattle.rpc_stream.specs.declared.call.Part.TheVariants.{Sole, Opening, Middle, Closing, Stopping};
ghost use Rattle.rpc_side.specs.declared.report.Limits.{Limits as Limits_};
ghost use Rattle.rpc_side.specs.declared.report.Report.TheVariants.{CallEnded, Passed};
ghost use Rattle.rpc_side.specs.Kept.{Kept, nothing_kept, begun, without, begin_call, step, step_by};
ghost use Rattle.rpc_side.specs.Held.{octets_at, Keeps, TakesOut, Grows, Closes, listed, IsStep};

use crate::report::{Limit, Limits, Report, Reports};
use indexmap::IndexMap;
use rpc_stream::{Ended, Fragments, Part, Pdu, Peer, call_id, is_in_calls, part_in_call};
use std::alloc::{AllocError, Global};

// The fragments of an open call, and how many octets these have.
#[derive(Debug, Drop)]
pub(crate) struct OpenCall {
    fragments: Fragments,
    octets: usize,
}

// The open calls of a side by their ids, and how many octets their fragments have.
#[derive(Drop)]
pub(crate) struct OpenCalls {
    alloc: Global,
    entries: IndexMap<u32, OpenCall>,
    octets: usize,
}

impl OpenCalls {
    // Makes a list of no calls.
    pub(crate) fn new(alloc: Global) -> OpenCalls
        ensures { Keeps result nothing_kept }
    {
        OpenCalls {
            alloc,
            entries: IndexMap::new(alloc),
            octets: 0,
        }
    }

    // Takes a PDU of a side. After an error nothing has changed.
    pub(crate) fn step(
        &mut self,
        peer: Peer,
        limits: Limits,
        pdu: Pdu,
    ) -> Result<Reports, AllocError>
        requires whole { 16 ≤ length pdu.octets }
        ensures stepped { IfOk result (λ r. (k : Kept) → Keeps self.old k → IsStep (step peer limits pdu k) r self.new) }
        ensures kept { OnErr result ((k : Kept) → Keeps self.old k → Keeps self.new k) }
    {
        let octets = pdu.octets.as_slice();
        let call = call_id(octets);
        let part = part_in_call(octets);
        if !is_in_calls(peer, octets[2]) {
            return Ok(one(Report::Other { pdu }));
        }
        match part {
            Part::Sole => self.sole(call, pdu),
            Part::Opening => self.opening(limits, call, pdu),
            Part::Middle => self.middle(limits, call, pdu),
            Part::Closing => self.closing(call, pdu),
            Part::Stopping => Ok(self.stopping(call, pdu)),
        }
    }

    // Takes a PDU that is all of its call.
    fn sole(&mut self, call: u32, pdu: Pdu) -> Result<Reports, AllocError>
        ensures stepped { IfOk result (λ r. (limits : Limits_) (k : Kept) → Keeps self.old k
            → IsStep (step_by limits call (k.by_id call) Sole pdu k) r self.new) }
        ensures kept { OnErr result ((k : Kept) → Keeps self.old k → Keeps self.new k) }
    {
        let fragments = single(self.alloc, pdu)?;
        let complete = ended(call, Ended::Complete { fragments });
        match self.take_out(call) {
            None => Ok(one(complete)),
            Some(fragments) => Ok(two(ended(call, Ended::CutOff { fragments }), complete)),
        }
    }

    // Takes a PDU that stops its call.
    fn stopping(&mut self, call: u32, pdu: Pdu) -> Reports
        ensures { (limits : Limits_) (k : Kept) → Keeps self.old k → IsStep (step_by limits call (k.by_id call) Stopping pdu k) result self.new }
    {
        match self.take_out(call) {
            None => {
                let fragments = Fragments::new(self.alloc);
                one(ended(call, Ended::Stopped { fragments, by: pdu }))
            }
            Some(fragments) => one(ended(call, Ended::Stopped { fragments, by: pdu })),
        }
    }

    // Takes a last fragment.
    fn closing(&mut self, call: u32, pdu: Pdu) -> Result<Reports, AllocError>
        ensures stepped { IfOk result (λ r. (limits : Limits_) (k : Kept) → Keeps self.old k
            → IsStep (step_by limits call (k.by_id call) Closing pdu k) r self.new) }
        ensures kept { OnErr result ((k : Kept) → Keeps self.old k → Keeps self.new k) }
    {
        match self.octets_of(call) {
            None => Ok(one(ended(call, Ended::Stray { pdu }))),
            Some(own) => {
                let fragments = self.close(call, own, pdu)?;
                Ok(one(ended(call, Ended::Complete { fragments })))
            }
        }
    }

    // Takes a fragment between the first and the last.
    fn middle(&mut self, limits: Limits, call: u32, pdu: Pdu) -> Result<Reports, AllocError>
        ensures stepped { IfOk result (λ r. (k : Kept) → Keeps self.old k → IsStep (step_by limits call (k.by_id call) Middle pdu k) r self.new) }
        ensures kept { OnErr result ((k : Kept) → Keeps self.old k → Keeps self.new k) }
    {
        match self.octets_of(call) {
            None => Ok(one(ended(call, Ended::Stray { pdu }))),
            Some(own) => {
                let count = pdu.octets.as_slice().len();
                if fitting(limits.octets, self.octets, own, count) {
                    self.grow(call, own, pdu)?;
                    Ok(none())
                } else {
                    let fragments = self.remove(call, own);
                    Ok(one(passed(call, Limit::Octets, fragments, pdu)))
                }
            }
        }
    }

    // Takes a first fragment.
    fn opening(&mut self, limits: Limits, call: u32, pdu: Pdu) -> Result<Reports, AllocError>
        ensures stepped { IfOk result (λ r. (k : Kept) → Keeps self.old k → IsStep (step_by limits call (k.by_id call) Opening pdu k) r self.new) }
        ensures kept { OnErr result ((k : Kept) → Keeps self.old k → Keeps self.new k) }
    {
        match self.octets_of(call) {
            None => self.open(limits, call, pdu),
            Some(own) => self.open_again(limits, call, own, pdu),
        }
    }

    // Takes the first fragment of a call, where none of its id is open.
    fn open(&mut self, limits: Limits, call: u32, pdu: Pdu) -> Result<Reports, AllocError>
        requires absent { get nat_eq self.old.entries call ≡ None }
        ensures stepped { IfOk result (λ r. (k : Kept) → Keeps self.old k → IsStep (begin_call limits call pdu k) r self.new) }
        ensures kept { OnErr result ((k : Kept) → Keeps self.old k → Keeps self.new k) }
    {
        let count = pdu.octets.as_slice().len();
        if limits.calls as usize <= self.entries.len() {
            return Ok(one(passed(call, Limit::Calls, Fragments::new(self.alloc), pdu)));
        }
        if !fitting(limits.octets, self.octets, 0, count) {
            return Ok(one(passed(call, Limit::Octets, Fragments::new(self.alloc), pdu)));
        }
        self.begin(call, pdu)?;
        Ok(none())
    }

    // Takes the first fragment of a call, where one of its id is open, whose fragments have this many octets.
    fn open_again(
        &mut self,
        limits: Limits,
        call: u32,
        own: usize,
        pdu: Pdu,
    ) -> Result<Reports, AllocError>
        requires there { octets_at self.old.entries call ≡ Some own }
        ensures stepped { IfOk result (λ r. (k : Kept) → Keeps self.old k → IsStep (step_by limits call (k.by_id call) Opening pdu k) r self.new) }
        ensures kept { OnErr result ((k : Kept) → Keeps self.old k → Keeps self.new k) }
    {
        let count = pdu.octets.as_slice().len();
        if limits.calls as usize <= difference(self.entries.len(), 1) {
            let fragments = self.remove(call, own);
            let passed = passed(call, Limit::Calls, Fragments::new(self.alloc), pdu);
            return Ok(two(ended(call, Ended::CutOff { fragments }), passed));
        }
        if !fitting(limits.octets, difference(self.octets, own), 0, count) {
            let fragments = self.remove(call, own);
            let passed = passed(call, Limit::Octets, Fragments::new(self.alloc), pdu);
            return Ok(two(ended(call, Ended::CutOff { fragments }), passed));
        }
        let fragments = self.replace(call, own, pdu)?;
        Ok(one(ended(call, Ended::CutOff { fragments })))
    }

    // Gives how many octets the fragments of an open call have.
    fn octets_of(&self, call: u32) -> Option<usize>
        ensures { result ≡ octets_at self.now.entries call }
    {
        let held = self.entries.get(&call)?;
        Some(held.octets)
    }

    // Takes out the fragments of a call, if it is open.
    fn take_out(&mut self, call: u32) -> Option<Fragments>
        ensures { (k : Kept) → Keeps self.old k → TakesOut k call result self.new }
    {
        match self.entries.swap_remove(&call) {
            None => None,
            Some(held) => {
                self.octets = difference(self.octets, held.octets);
                Some(held.fragments)
            }
        }
    }

    // Takes out the fragments of an open call.
    fn remove(&mut self, call: u32, own: usize) -> Fragments
        requires there { octets_at self.old.entries call ≡ Some own }
        ensures { (k : Kept) → Keeps self.old k → TakesOut k call (Some result) self.new }
    {
        let Some(held) = self.entries.swap_remove(&call) else {
            unreachable!();
        };
        self.octets = difference(self.octets, own);
        held.fragments
    }

    // Puts the fragments of an open call in the place of those that it has, which are given back.
    fn swap(&mut self, call: u32, own: usize, with: OpenCall) -> OpenCall
        requires there { octets_at self.old.entries call ≡ Some own }
        ensures was { get nat_eq self.old.entries call ≡ Some result }
        ensures updates { Updates nat_eq self.old.entries self.new.entries call (Some with) }
        ensures count { index_map_len self.new.entries ≡ index_map_len self.old.entries }
        ensures octets { self.new.octets ≡ self.old.octets }
    {
        match self.entries.insert(call, with) {
            Ok(Some(held)) => held,
            Ok(None) => unreachable!(),
            Err(_) => unreachable!(),
        }
    }

    // Begins a call, where none of its id is open.
    fn begin(&mut self, call: u32, pdu: Pdu) -> Result<(), AllocError>
        requires absent { get nat_eq self.old.entries call ≡ None }
        requires room { self.old.octets + length pdu.octets < 2 ^ 64 }
        ensures begun { OnOk result ((k : Kept) → Keeps self.old k → Keeps self.new (begun call pdu k)) }
        ensures kept { OnErr result ((k : Kept) → Keeps self.old k → Keeps self.new k) }
    {
        let octets = pdu.octets.as_slice().len();
        let fragments = single(self.alloc, pdu)?;
        let Ok(_) = self.entries.insert(call, OpenCall { fragments, octets }) else {
            return Err(AllocError);
        };
        self.octets += octets;
        Ok(())
    }

    // Begins a call in the place of the open one of its id, and gives back the fragments of that.
    fn replace(&mut self, call: u32, own: usize, pdu: Pdu) -> Result<Fragments, AllocError>
        requires there { octets_at self.old.entries call ≡ Some own }
        requires room { (self.old.octets - own) + length pdu.octets < 2 ^ 64 }
        ensures begun { IfOk result (λ g. (k : Kept) → Keeps self.old k
            → (k.by_id call ≡ Some g) × Keeps self.new (begun call pdu (without call g k))) }
        ensures kept { OnErr result ((k : Kept) → Keeps self.old k → Keeps self.new k) }
    {
        let octets = pdu.octets.as_slice().len();
        let fragments = single(self.alloc, pdu)?;
        let held = self.swap(call, own, OpenCall { fragments, octets });
        self.octets = difference(self.octets, own) + octets;
        Ok(held.fragments)
    }

    // Adds a fragment to an open call.
    fn grow(&mut self, call: u32, own: usize, pdu: Pdu) -> Result<(), AllocError>
        requires there { octets_at self.old.entries call ≡ Some own }
        requires own_room { own + length pdu.octets < 2 ^ 64 }
        requires room { self.old.octets + length pdu.octets < 2 ^ 64 }
        ensures grown { OnOk result ((k : Kept) → Keeps self.old k → Grows k call pdu self.new) }
        ensures kept { OnErr result ((k : Kept) → Keeps self.old k → Keeps self.new k) }
    {
        let count = pdu.octets.as_slice().len();
        let mut held = self.swap(call, own, empty(self.alloc));
        match held.fragments.push(pdu) {
            Ok(()) => {
                held.octets += count;
                self.swap(call, 0, held);
                self.octets += count;
                Ok(())
            }
            Err(fault) => {
                self.swap(call, 0, held);
                Err(fault)
            }
        }
    }

    // Adds the last fragment to an open call, and takes out its fragments.
    fn close(&mut self, call: u32, own: usize, pdu: Pdu) -> Result<Fragments, AllocError>
        requires there { octets_at self.old.entries call ≡ Some own }
        ensures closed { IfOk result (λ g. (k : Kept) → Keeps self.old k → Closes k call pdu g self.new) }
        ensures kept { OnErr result ((k : Kept) → Keeps self.old k → Keeps self.new k) }
    {
        let mut held = self.swap(call, own, empty(self.alloc));
        match held.fragments.push(pdu) {
            Ok(()) => {
                self.entries.swap_remove(&call);
                self.octets = difference(self.octets, own);
                Ok(held.fragments)
            }
            Err(fault) => {
                self.swap(call, 0, held);
                Err(fault)
            }
        }
    }
}

// Makes a call of no fragments.
fn empty(alloc: Global) -> OpenCall
    ensures octets { result.octets ≡ 0 }
{
    OpenCall {
        fragments: Fragments::new(alloc),
        octets: 0,
    }
}

// Makes the fragments of a call of one PDU.
fn single(alloc: Global, pdu: Pdu) -> Result<Fragments, AllocError>
    ensures { IfOk result (λ g. g ≡ pdu ∷ []) }
{
    let mut fragments = Fragments::new(alloc);
    fragments.push(pdu)?;
    Ok(fragments)
}

// Makes a report of a call that ended.
fn ended(call: u32, how: Ended) -> Report
    ensures { result ≡ CallEnded call how }
{
    Report::CallEnded { call, how }
}

// Makes a report of a fragment that passes a limit.
fn passed(call: u32, limit: Limit, fragments: Fragments, by: Pdu) -> Report
    ensures { result ≡ Passed call limit fragments by }
{
    Report::Passed {
        call,
        limit,
        fragments,
        by,
    }
}

// Reports nothing.
fn none() -> Reports
    ensures { listed result ≡ [] }
{
    Reports::Nothing
}

// Makes one report.
fn one(report: Report) -> Reports
    ensures { listed result ≡ report ∷ [] }
{
    Reports::One { report }
}

// Makes two reports.
fn two(report: Report, other: Report) -> Reports
    ensures { listed result ≡ report ∷ (other ∷ []) }
{
    Reports::Two { report, other }
}

// Tests whether a fragment of so many octets fits with the octets of all open calls, and with those of its own.
fn fitting(most: u32, all: usize, own: usize, count: usize) -> bool
    ensures { result ≡ (nat_le count (most - all) && nat_le count (most - own)) }
{
    count <= difference(most as usize, all) && count <= difference(most as usize, own)
}

// Subtracts, down to 0.
fn difference(one: usize, other: usize) -> usize
    ensures { result ≡ one - other }
{
    if one < other { 0 } else { one - other }
}
