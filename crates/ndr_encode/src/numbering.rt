// The numbers of cells in the order in which they are named.
ghost use Rattle.std.specs.Prelude.{◌≡◌, ℕ, ◌+◌, ◌<◌, ◌≤◌, ◌^◌, List, [], ◌∷◌, ◌++◌, length, take, drop, reverse};
ghost use Rattle.ndr_encoder_output.specs.Counting.{names_of};
ghost use Rattle.ndr_encoder_laws.specs.turns.Turned.{cells_of};
ghost use Rattle.ndr_encode.specs.Search.{IsNumbered, AreWithin};

use nd_value::CellId;
use ndr_encoder_output::Named;

// A cell has the next number, unless it has one.
#[inline(always)]
pub(crate) fn number(cell: CellId, numbers: &mut Vec<u32>, named: &mut u32)
    requires { (n : ℕ) × (names : List ℕ) × (n < 2 ^ 32) × (0 < cell.0) × (cell.0 ≤ n) × IsNumbered n names numbers.old.items named.old }
    ensures { (n : ℕ) (names : List ℕ) → 0 < cell.0 → cell.0 ≤ n → IsNumbered n names numbers.old.items named.old
        → IsNumbered n (names ++ cell.0 ∷ []) numbers.new.items named.new }
{
    let at = cell.0 as usize;
    if numbers[at] != 0 {
        return;
    }
    *named = *named + 1;
    numbers[at] = *named;
}

// Cells have the next numbers, each unless it has one.
#[inline(always)]
fn number_all(cells: &[Named], numbers: &mut Vec<u32>, named: &mut u32)
    requires { (n : ℕ) × (names : List ℕ) × (n < 2 ^ 32) × AreWithin n (cells_of (names_of cells.now))
        × IsNumbered n names numbers.old.items named.old }
    ensures { (n : ℕ) (names : List ℕ) → AreWithin n (cells_of (names_of cells.now)) → IsNumbered n names numbers.old.items named.old
        → IsNumbered n (names ++ cells_of (names_of cells.now)) numbers.new.items named.new }
{
    for each in cells {
        number(each.cell, numbers, named);
    }
}

// The names from a place on are turned around: the first one is the last.
#[inline(always)]
fn turn_around(before: usize, names: &mut Vec<Named>)
    requires { before ≤ length names.old.items }
    ensures { names.new.items ≡ take before names.old.items ++ reverse (drop before names.old.items) }
{
    names.as_mut_slice()[before..].reverse();
}

// Any names from a place on have the next numbers, each cell unless it has one, and are turned around.
#[inline(never)]
fn settle_all(before: usize, names: &mut Vec<Named>, numbers: &mut Vec<u32>, named: &mut u32)
    requires within { before ≤ length names.old.items }
    requires cells { (n : ℕ) × (ns : List ℕ) × (n < 2 ^ 32) × AreWithin n (cells_of (names_of (drop before names.old.items)))
        × IsNumbered n ns numbers.old.items named.old }
    ensures names { names.new.items ≡ take before names.old.items ++ reverse (drop before names.old.items) }
    ensures numbers { (n : ℕ) (ns : List ℕ) → AreWithin n (cells_of (names_of (drop before names.old.items)))
        → IsNumbered n ns numbers.old.items named.old
        → IsNumbered n (ns ++ cells_of (names_of (drop before names.old.items))) numbers.new.items named.new }
{
    number_all(&names.as_slice()[before..], numbers, named);
    turn_around(before, names);
}

// The only name from a place on.
#[inline(always)]
fn settle_one(before: usize, names: &Vec<Named>, numbers: &mut Vec<u32>, named: &mut u32)
    requires one { length names.now.items ≡ before + 1 }
    requires cells { (n : ℕ) × (ns : List ℕ) × (n < 2 ^ 32) × AreWithin n (cells_of (names_of (drop before names.now.items)))
        × IsNumbered n ns numbers.old.items named.old }
    ensures numbers { (n : ℕ) (ns : List ℕ) → AreWithin n (cells_of (names_of (drop before names.now.items)))
        → IsNumbered n ns numbers.old.items named.old
        → IsNumbered n (ns ++ cells_of (names_of (drop before names.now.items))) numbers.new.items named.new }
{
    number(names[before].cell, numbers, named);
}

// The names from a place on have the next numbers, each cell unless it has one, and are pending: they are turned around, the first one last. There is
// a way of its own for one name, as many homes have.
#[inline(always)]
pub(crate) fn settle(before: usize, names: &mut Vec<Named>, numbers: &mut Vec<u32>, named: &mut u32)
    requires within { before ≤ length names.old.items }
    requires cells { (n : ℕ) × (ns : List ℕ) × (n < 2 ^ 32) × AreWithin n (cells_of (names_of (drop before names.old.items)))
        × IsNumbered n ns numbers.old.items named.old }
    ensures names { names.new.items ≡ take before names.old.items ++ reverse (drop before names.old.items) }
    ensures numbers { (n : ℕ) (ns : List ℕ) → AreWithin n (cells_of (names_of (drop before names.old.items)))
        → IsNumbered n ns numbers.old.items named.old
        → IsNumbered n (ns ++ cells_of (names_of (drop before names.old.items))) numbers.new.items named.new }
{
    let added = names.len() - before;
    if added == 0 {
        return;
    }
    if added == 1 {
        settle_one(before, names, numbers, named);
        return;
    }
    settle_all(before, names, numbers, named);
}
