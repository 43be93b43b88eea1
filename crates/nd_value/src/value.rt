// Values, cells and graphs.
ghost use Rattle.std.specs.Prelude.{◌≡◌, ◌++◌, [], ◌∷◌, length, OnOk, OnErr, IfErr, IfSome, IfNone, slice_get, None, Some};
ghost use Rattle.nd_value.specs.Seen.{tree_of, cell_of};
ghost use Rattle.nd_value.specs.Tree.{Tree};

use nd_base::{Memory, Octets};
use nd_types::TypeId;
use std::alloc::Global;
use std::marker::Model;
use uuid::Uuid;

/// The number of a cell, from 1.
#[derive(Clone, Copy, Debug, PartialEq, Eq)]
pub struct CellId(pub u32);

/// A value. The nodes of a value are itself, numbered 0, and the nodes of its members, elements or arm, depth first.
#[derive(Drop)]
#[cycle(value)]
pub enum Val {
    /// A number: a primitive, or an enumerated value.
    Num(i128),
    /// The members of a struct.
    Rec(Vals),
    /// An array. One of a fixed bound has that bound as its maximum count, and one that does not vary has offset 0 and as many
    /// elements as its maximum count.
    Arr { max: u32, offset: u32, items: Vals },
    /// A string without its terminator.
    Text { max: u32, octets: Octets },
    /// A union: its tag, and the value of the selected arm where that has a type.
    Union { tag: i128, arm: ArmVal },
    /// A pointer: null, or the cell of its referent.
    Ptr(Option<CellId>),
    /// A context handle.
    Context { attributes: u32, id: Uuid },
    /// All elements of a pipe.
    Pipe(Vals),
}

/// A list of values.
#[derive(Drop)]
#[cycle(value)]
pub struct Vals {
    items: Vec<Val>,
}

/// The value of a union's arm, where it has one.
#[derive(Drop)]
#[cycle(value)]
pub struct ArmVal {
    val: Option<Box<Val>>,
}

impl Model for ArmVal {
    ghost use Rattle.std.specs.Prelude.{List, map};
    ghost use Rattle.std.specs.Coded.{coded_list};
    ghost use Rattle.nd_value.specs.Tree.{Tree, tree_code, weight};

    ghost Value = { List Tree };

    ghost coded = { coded_list tree_code };

    ghost use Rattle.nd_value.specs.Seen.{tree_of, arm_trees};

    ghost view = { λ o. arm_trees o.val };

    ghost size = { weight };

    ghost use Rattle.nd_value.specs.SeenFalls.{arm_falls};

    ghost size_decreases = { λ a h. arm_falls a };
}

impl Model for Vals {
    ghost use Rattle.std.specs.Prelude.{List, map};
    ghost use Rattle.std.specs.Coded.{coded_list};
    ghost use Rattle.nd_value.specs.Tree.{Tree, tree_code, weight};

    ghost Value = { List Tree };

    ghost coded = { coded_list tree_code };

    ghost use Rattle.nd_value.specs.Seen.{tree_of};

    ghost view = { λ o. map tree_of o.items.items };

    ghost size = { weight };

    ghost use Rattle.nd_value.specs.SeenFalls.{vals_fall};

    ghost size_decreases = { λ a h. vals_fall a };
}

impl ArmVal {
    /// No value: the arm has no type. Takes no memory.
    pub fn none() -> ArmVal
        ensures { result ≡ [] }
    {
        ArmVal { val: None }
    }

    /// The value of the arm. Takes no memory: the box is the caller's.
    pub fn of(val: Box<Val>) -> ArmVal
        ensures { result ≡ tree_of val.value ∷ [] }
    {
        ArmVal { val: Some(val) }
    }

    /// The value, where the arm has a type. Takes no memory.
    pub fn get(&self) -> Option<&Val>
        ensures some { IfSome result (λ v. self.now ≡ tree_of v.now ∷ []) }
        ensures none { IfNone result (self.now ≡ []) }
    {
        match &self.val {
            Some(val) => Some(&**val),
            None => None,
        }
    }
}

impl Vals {
    /// An empty list. It allocates nothing.
    pub fn new(alloc: Global) -> Vals
        ensures { result ≡ [] }
    {
        Vals {
            items: Vec::new(alloc),
        }
    }

    /// Appends a value, which may take memory. Out of memory the value is handed back, and nothing has changed.
    pub fn push(&mut self, val: Val) -> Result<(), (Memory, Val)>
        ensures ok { OnOk result (self.new ≡ self.old ++ tree_of val ∷ []) }
        ensures err { OnErr result (self.new ≡ self.old) }
        ensures back { IfErr result (λ e. e.1 ≡ val) }
    {
        match self.items.push(val) {
            Ok(()) => Ok(()),
            Err(failed) => Err((Memory, failed.value)),
        }
    }

    /// The number of values. Takes no memory.
    pub fn len(&self) -> usize
        ensures { result ≡ length self.now }
    {
        self.items.len()
    }

    /// The value at a place, from 0, or None past the last. Takes no memory.
    pub fn get(&self, at: usize) -> Option<&Val>
        ensures some { IfSome result (λ v. slice_get self.now at ≡ Some (tree_of v.now)) }
        ensures none { IfNone result (slice_get self.now at ≡ None) }
    {
        self.items.get(at)
    }
}

/// A cell: the referent of pointers, with its type.
#[derive(Drop)]
pub struct Cell {
    pub of: TypeId,
    pub val: Val,
}

/// A list of cells, numbered from 1.
#[derive(Drop)]
pub struct Cells {
    items: Vec<Cell>,
}

impl Model for Cells {
    ghost use Rattle.std.specs.Prelude.{List, map};
    ghost use Rattle.nd_value.specs.Tree.{Referent, referent_code};
    ghost use Rattle.std.specs.Coded.{coded_list};

    ghost Value = { List Referent };

    ghost coded = { coded_list referent_code };

    ghost use Rattle.nd_value.specs.Seen.{cell_of};

    ghost view = { λ o. map cell_of o.items.items };
}

impl Cells {
    /// An empty list. It allocates nothing.
    pub fn new(alloc: Global) -> Cells
        ensures { result ≡ [] }
    {
        Cells {
            items: Vec::new(alloc),
        }
    }

    /// Appends a cell, which may take memory. Out of memory the cell is handed back, and nothing has changed.
    pub fn push(&mut self, cell: Cell) -> Result<(), (Memory, Cell)>
        ensures ok { OnOk result (self.new ≡ self.old ++ cell_of cell ∷ []) }
        ensures err { OnErr result (self.new ≡ self.old) }
        ensures back { IfErr result (λ e. e.1 ≡ cell) }
    {
        match self.items.push(cell) {
            Ok(()) => Ok(()),
            Err(failed) => Err((Memory, failed.value)),
        }
    }

    /// The number of cells. Takes no memory.
    pub fn len(&self) -> usize
        ensures { result ≡ length self.now }
    {
        self.items.len()
    }

    /// The cell at a place, from 0, or None past the last. The cell of number `n` is at `n - 1`. It takes
    /// no memory.
    pub fn get(&self, at: usize) -> Option<&Cell>
        ensures some { IfSome result (λ c. slice_get self.now at ≡ Some (cell_of c.now)) }
        ensures none { IfNone result (slice_get self.now at ≡ None) }
    {
        self.items.get(at)
    }
}

/// A graph: the values of an operation's roots in order, and the cells that pointers name.
#[derive(Drop)]
pub struct Graph {
    pub roots: Vals,
    pub cells: Cells,
}
