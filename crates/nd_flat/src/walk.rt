// Walks over values.
ghost use Rattle.std.specs.Prelude.{◌≡◌, false, [], ◌∷◌, ◌++◌, ◌≤◌, ◌<◌, length, IfSome, IfNone};
ghost use Rattle.nd_value.specs.Tree.{Trees, none, flat, unflat};
ghost use Rattle.nd_value.specs.Seen.{cell_number};
ghost use Rattle.nd_value.specs.Canon.{target};
ghost use Rattle.nd_value.specs.Names.{cells_in};
ghost use Rattle.nd_flat.specs.FlatForm.{flat_seen, left_flats, no_row, num_flats, row_numbers, IsRow, WalkParts};
ghost use Rattle.nd_flat.specs.Records.{no_records, all_records, IsRecords};

use crate::node::{Node, enter, first_seen};
use crate::records::{
    KeptRecords, RecordsLeft, empty_records, first_records, has_more, left_after, next_seen,
    structs_after,
};
use crate::row::{KeptRow, empty_row, first_number, first_row, without_first};
use crate::{Records, Row, Seen};
use nd_value::CellId;
use std::marker::Model;

/// A walk over the nodes of values, depth first. Contracts see the values that are left, as trees: of a value whose first nodes were
/// taken, those of its parts whose nodes were not. A walk takes no memory.
#[derive(Drop)]
pub struct Walk<'a> {
    nodes: &'a [Node],
    octets: &'a [u8],
    // what is left of the row of numbers in which the walk is; without numbers where it is in none
    left: KeptRow,
    // what is left of the structs of numbers in which the walk is; over where it is in none
    records: RecordsLeft,
}

impl<'a> Model for Walk<'a> {
    ghost use Rattle.nd_value.specs.Tree.{Trees, unflat};
    ghost use Rattle.nd_flat.specs.Forest.{forest_code, IsForest};

    ghost Value = { Trees };

    ghost coded = { forest_code };

    ghost use Rattle.nd_flat.specs.FlatForm.{left_flats, WalkParts};

    ghost view = { λ w. unflat (left_flats w.octets.now w.left w.records w.nodes.now) };

    ghost invariant = { λ w. WalkParts w.octets.now w.left w.records w.nodes.now };
}

impl<'a> Walk<'a> {
    #[inline(always)]
    pub(crate) fn over(nodes: &'a [Node], octets: &'a [u8]) -> Walk<'a>
        requires { WalkParts octets.now no_row no_records nodes.now }
        ensures { result ≡ unflat (left_flats octets.now no_row no_records nodes.now) }
    {
        Walk {
            nodes,
            octets,
            left: empty_row(),
            records: empty_records(),
        }
    }

    /// The next node, or None if none is left, and then the walk has not moved. Numbers and structs that are kept side by side are given one by one.
    /// Takes no memory.
    #[inline(always)]
    pub fn step(&mut self) -> Option<Seen<'a>>
        ensures some { IfSome result (λ s. flat self.old ≡ flat_seen s ∷ flat self.new) }
        ensures none { IfNone result (self.old ≡ none) }
        ensures stays { IfNone result (self.new ≡ self.old) }
    {
        let left = self.left;
        if left.count > 0 {
            self.left = without_first(left, 1, self.octets);
            return Some(Seen::Num(first_number(left, self.octets)));
        }
        if has_more(&self.records) {
            return Some(next_seen(&mut self.records, self.octets));
        }
        let (first, rest) = self.nodes.split_first()?;
        self.nodes = rest;
        enter(&mut self.left, &mut self.records, first, self.octets);
        Some(first_seen(first, self.octets))
    }

    /// The next numbers, at least one and at most `most`, where numbers come next that are kept side by side; their octets are
    /// given as they are kept. None says nothing of what comes next, and the walk has not moved: `step` goes on. Takes no memory.
    pub fn row(&mut self, most: u32) -> Option<Row<'a>>
        ensures some { IfSome result (λ r. flat self.old ≡ num_flats (row_numbers r) ++ flat self.new) }
        ensures row { IfSome result (λ r. IsRow r) }
        ensures count { IfSome result (λ r. (0 < r.count) × (r.count ≤ most)) }
        ensures none { IfNone result (self.new ≡ self.old) }
    {
        if most == 0 {
            return None;
        }
        let left = self.left;
        if left.count > 0 {
            let some = least(left.count, most);
            self.left = without_first(left, some, self.octets);
            return Some(first_row(left, some, self.octets));
        }
        if has_more(&self.records) {
            return None;
        }
        let (first, rest) = self.nodes.split_first()?;
        let Node::Row(next) = first else {
            return None;
        };
        let next = *next;
        let some = least(next.count, most);
        self.nodes = rest;
        self.left = without_first(next, some, self.octets);
        Some(first_row(next, some, self.octets))
    }

    /// The next structs of numbers, at least one and at most `most`, where such structs come next that are kept side by side; their octets are given
    /// as they are kept. None says nothing of what comes next, and the walk has not moved: `step` goes on. Takes no memory.
    pub fn records(&mut self, most: u32) -> Option<Records<'a>>
        ensures some { IfSome result (λ r. flat self.old ≡ all_records r ++ flat self.new) }
        ensures records { IfSome result (λ r. IsRecords r) }
        ensures count { IfSome result (λ r. (0 < r.count) × (r.count ≤ most)) }
        ensures none { IfNone result (self.new ≡ self.old) }
    {
        if most == 0 {
            return None;
        }
        if is_within(&self.left, &self.records) {
            return None;
        }
        let within = self.records;
        if within.count > 0 {
            let next = structs_after(&within, self.octets);
            let some = least(next.count, most);
            self.records = left_after(next, some, self.octets);
            return Some(first_records(next, some, self.octets));
        }
        let (first, rest) = self.nodes.split_first()?;
        let Node::Records {
            order,
            members,
            count,
            from,
        } = first
        else {
            return None;
        };
        let next = KeptRecords {
            order: *order,
            members: *members,
            count: *count,
            from: *from,
        };
        let some = least(next.count, most);
        self.nodes = rest;
        self.records = left_after(next, some, self.octets);
        Some(first_records(next, some, self.octets))
    }

    /// The cell that the next node names, and `Some(None)` where that node names none; None where no node is left. Numbers and structs of
    /// numbers that are kept side by side are passed over, as they name no cells. Takes no memory.
    pub fn next_cell(&mut self) -> Option<Option<CellId>>
        ensures some { IfSome result (λ c. cells_in self.old ≡ target (cell_number c) ++ cells_in self.new) }
        ensures less { IfSome result (λ c. length (flat self.new) < length (flat self.old)) }
        ensures none { IfNone result (cells_in self.old ≡ []) }
    {
        self.skip_row();
        self.skip_records();
        match self.step() {
            Some(seen) => Some(seen.named_cell()),
            None => None,
        }
    }

    // Past a row of numbers, if one comes next.
    fn skip_row(&mut self)
        ensures cells { cells_in self.old ≡ cells_in self.new }
        ensures less { length (flat self.new) ≤ length (flat self.old) }
    {
        let _row = self.row(u32::MAX);
    }

    // Past structs of numbers, if they come next.
    fn skip_records(&mut self)
        ensures cells { cells_in self.old ≡ cells_in self.new }
        ensures less { length (flat self.new) ≤ length (flat self.old) }
    {
        let _records = self.records(u32::MAX);
    }
}

// The lesser of two numbers.
fn least(a: u32, b: u32) -> u32
    ensures first { result ≤ a }
    ensures second { result ≤ b }
    ensures some { 0 < a → 0 < b → 0 < result }
{
    if a < b { a } else { b }
}

// Whether numbers of a row come next, or members of a struct.
fn is_within(left: &KeptRow, records: &RecordsLeft) -> bool
    ensures { result ≡ false → (left.now.count ≡ 0) × (records.now.members.len ≤ records.now.next) }
{
    left.count > 0 || records.next < records.members.len
}
