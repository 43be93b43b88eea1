// Numbers side by side in octets (C706 section 14.2).
ghost use Rattle.std.specs.Prelude.{◌≡◌, ◌+◌, ◌*◌, ◌<◌, ◌≤◌, ◌++◌, true, length, take};
ghost use Rattle.std.specs.List.{AllByRecursion};
ghost use Rattle.nd_types.specs.declared.types.Primitive.TheVariants.{Boolean};
ghost use Rattle.nd_types.specs.Table.{width, in_range};
ghost use Rattle.nd_types.specs.Number.{AreOctets};
ghost use Rattle.nd_flat.specs.FlatForm.{IsRow, row_numbers};
ghost use Rattle.ndr_encoder_output.specs.Filling.{written_all};

use crate::fill::{write_figure, write_raw};
use nd_base::Order;
use nd_flat::Row;
use nd_types::Prim;
use ndr_prim::{read_num, width_of};

// The octets of the numbers of a row as numbers of a primitive, from a place on; it gives the place after them. They are copied if they are kept as
// they are written.
pub(crate) fn write_row(order: Order, prim: Prim, row: &Row<'_>, at: usize, out: &mut [u8]) -> usize
    requires whole { IsRow row.now }
    requires range { AllByRecursion (λ z. in_range prim z ≡ true) (row_numbers row.now) }
    requires room { at + row.now.count * width prim ≤ length out.old }
    ensures front { take result out.new ≡ take at out.old ++ written_all order prim (row_numbers row.now) }
    ensures end { result ≡ at + row.now.count * width prim }
{
    if is_written(order, prim, row) {
        return write_raw(row.octets, at, out);
    }
    write_each(order, prim, row, at, out)
}

// Octets are numbers below 256, which a clause knows only of an argument: this is compiled away.
#[inline]
fn are_octets(octets: &[u8])
    ensures { AreOctets octets.now }
{}

// Whether the octets of a row are those that are written for its numbers.
fn is_written(order: Order, prim: Prim, row: &Row<'_>) -> bool
    requires { IsRow row.now }
    ensures { result ≡ true → row.now.octets.now ≡ written_all order prim (row_numbers row.now) }
{
    are_octets(row.octets);
    if row.of != prim {
        return false;
    }
    if prim == Prim::Boolean {
        return false;
    }
    if width_of(prim) == 1 {
        return true;
    }
    row.order == order
}

// The octets of the numbers of a row one by one.
fn write_each(order: Order, prim: Prim, row: &Row<'_>, at: usize, out: &mut [u8]) -> usize
    requires whole { IsRow row.now }
    requires range { AllByRecursion (λ z. in_range prim z ≡ true) (row_numbers row.now) }
    requires room { at + row.now.count * width prim ≤ length out.old }
    ensures front { take result out.new ≡ take at out.old ++ written_all order prim (row_numbers row.now) }
    ensures end { result ≡ at + row.now.count * width prim }
{
    let wide = width_of(row.of);
    let mut end = at;
    let mut from = 0;
    for _at in 0..row.count {
        let to = from + wide;
        let value = read_num(row.order, row.of, &row.octets[from..to]);
        end = write_figure(order, prim, value, end, out);
        from = to;
    }
    end
}
