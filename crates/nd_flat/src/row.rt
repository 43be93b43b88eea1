// Rows of numbers of one primitive: their octets side by side, each number as wide as the primitive (C706 14.2).
ghost use Rattle.std.specs.Prelude.{◌≡◌, ℕ, ◌+◌, ◌-◌, ◌*◌, ◌<◌, ◌≤◌, List, ◌++◌, length, take, drop};
ghost use Rattle.nd_types.specs.Table.{width};
ghost use Rattle.nd_types.specs.Number.{value_of_octets};
ghost use Rattle.nd_flat.specs.FlatForm.{HasRow, IsRow, without_first as rest_of, no_row, row_numbers, row_values, num_flats, row_flats};

use nd_base::Order;
use nd_types::Prim;
use ndr_prim::{read_num, width_of};

/// Numbers of one primitive side by side, as elements of an array or a pipe are: so many, the octets of each in this
/// order. It has as many octets as its numbers are wide; each octet of a boolean except 0 is TRUE.
#[derive(Clone, Copy, Drop)]
pub struct Row<'a> {
    pub order: Order,
    pub of: Prim,
    pub count: u32,
    pub octets: &'a [u8],
}

// A row as it is kept: its octets begin at `from` among all octets that are kept.
#[derive(Clone, Copy, Drop)]
pub struct KeptRow {
    pub order: Order,
    pub of: Prim,
    pub count: u32,
    pub from: usize,
}

// A row without numbers.
#[inline(always)]
pub(crate) fn empty_row() -> KeptRow
    ensures { result ≡ no_row }
{
    KeptRow {
        order: Order::Little,
        of: Prim::Byte,
        count: 0,
        from: 0,
    }
}

// The number of octets that so many numbers of a row have.
#[inline(always)]
fn octets_of(row: KeptRow, some: u32) -> usize
    requires some { some ≤ row.count }
    ensures { result ≡ some * width row.of }
{
    some as usize * width_of(row.of)
}

// A row without so many of its first numbers.
#[inline(always)]
pub(crate) fn without_first(row: KeptRow, some: u32, octets: &[u8]) -> KeptRow
    requires there { HasRow octets.now row }
    requires some { some ≤ row.count }
    ensures { result ≡ rest_of some row }
{
    let size = octets_of(row, some);
    KeptRow {
        order: row.order,
        of: row.of,
        count: row.count - some,
        from: row.from + size,
    }
}

// The first number of a row that has one.
#[inline(always)]
pub(crate) fn first_number(row: KeptRow, octets: &[u8]) -> i128
    requires there { HasRow octets.now row }
    requires some { 0 < row.count }
    ensures { result ≡ value_of_octets row.order row.of (take (width row.of) (drop row.from octets.now)) }
{
    let to = row.from + width_of(row.of);
    read_num(row.order, row.of, &octets[row.from..to])
}

// So many of the first numbers of a row.
pub(crate) fn first_row<'a>(row: KeptRow, some: u32, octets: &'a [u8]) -> Row<'a>
    requires there { HasRow octets.now row }
    requires some { some ≤ row.count }
    ensures row { IsRow result }
    ensures count { result.count ≡ some }
    ensures numbers { row_numbers result ≡ row_values row.order row.of some (drop row.from octets.now) }
{
    let to = row.from + octets_of(row, some);
    Row {
        order: row.order,
        of: row.of,
        count: some,
        octets: &octets[row.from..to],
    }
}
