// Where homes begin.
ghost use Rattle.std.specs.Prelude.{◌≡◌, ◌≤◌, ◌<◌, ◌+◌, ◌-◌, ◌^◌, ◌++◌, ◌∷◌, [], Some, None, length, OnOk, IfOk, IfErr};
ghost use Rattle.nd_flat.specs.Building.{CanClose, closed, opened, with_root};
ghost use Rattle.nd_value.specs.Setting.{cell_home};
ghost use Rattle.nd_value.specs.declared.item.Home.TheVariants as home;
ghost use Rattle.ndr_decoder_state.specs.Seen.{state_of};
ghost use Rattle.ndr_decoder_state.specs.declared.fault.DecodeFault.TheVariants as fault;
ghost use Rattle.ndr_decoder_laws.specs.stream.Between.{Begins, Opens};
ghost use Rattle.ndr_decoder_stream.specs.Ends.{with_reference};
ghost use Rattle.ndr_decoder_stream.specs.Seen.{between_of, KeepsAll};

use crate::{KeptCells, Stream};
use nd_base::{Ledger, Steps};
use nd_flat::{Builder, Seen};
use nd_types::TypeId;
use nd_value::{CellId, Home};
use ndr_decoder_state::{DecodeFault, Machine};
use smallvec::SmallVec;
use std::alloc::Global;

impl Stream {
    /// A stream of which nothing was read. It allocates nothing.
    pub fn begin(alloc: Global, builder: Builder) -> Stream
        requires none { builder.nodes ≡ [] }
        requires empty { builder.graph ≡ record { roots = []; cells = [] } }
        requires no_home { builder.home ≡ None }
        ensures begins { Begins (between_of result) }
        ensures whole { CanClose result.machine.builder }
        ensures builder { result.machine.builder ≡ builder }
    {
        let machine = Machine::new(alloc, builder);
        Stream {
            machine,
            wanted: Vec::new(alloc),
            todo: Vec::new(alloc),
            roots: SmallVec::new(alloc),
            cells: KeptCells::new(alloc),
        }
    }

    /// Opens the next root, whose value begins at a run. It takes memory, and out of memory is the only refusal.
    pub fn open_root(&mut self, run: u32) -> Result<(), DecodeFault>
        requires whole { CanClose self.old.machine.builder }
        requires few { length self.old.roots.items < 2 ^ 32 }
        ensures opens { OnOk result (Opens run (between_of self.old) (between_of self.old).cells (state_of self.new.machine)) }
        ensures builder { OnOk result
            (self.new.machine.builder
            ≡ opened (home.Root (length self.old.machine.builder.graph.roots))
            (with_root (closed self.old.machine.builder)) self.old.machine.builder) }
        ensures home { OnOk result (self.new.machine.home ≡ home.Root (length self.old.roots.items)) }
        ensures kept { KeepsAll self.old self.new }
        ensures memory { IfErr result (λ e. e ≡ fault.Memory) }
    {
        let number = self.roots.as_slice().len() as u32;
        add_root(&mut self.machine)?;
        self.machine.start(Home::Root(number), run);
        Ok(())
    }

    /// Opens a cell that has its number, whose value begins at a run. Takes no memory.
    #[inline(always)]
    pub fn open_cell(&mut self, cell: CellId, run: u32)
        requires whole { CanClose self.old.machine.builder }
        requires there { (0 < cell.0) × (cell.0 ≤ length self.old.machine.builder.graph.cells) }
        ensures opens { Opens run (between_of self.old) (between_of self.old).cells (state_of self.new.machine) }
        ensures builder { self.new.machine.builder ≡ opened (cell_home cell.0) (closed self.old.machine.builder) self.old.machine.builder }
        ensures home { self.new.machine.home ≡ cell_home cell.0 }
        ensures kept { KeepsAll self.old self.new }
    {
        fill(&mut self.machine, cell);
        self.machine.start(Home::Cell(cell), run);
    }

    /// Opens the next root, which is a reference pointer, and a cell of its own for the referent, whose value begins at a run: the cell gets its
    /// number, which counts one step. It takes memory, and out of memory is the only refusal; then at most one step was counted.
    pub fn open_reference<L: Ledger>(
        &mut self,
        to: TypeId,
        run: u32,
        steps: &mut Steps<L>,
    ) -> Result<CellId, DecodeFault>
        requires whole { CanClose self.old.machine.builder }
        requires few_cells { length self.old.machine.builder.graph.cells < 2 ^ 32 - 1 }
        ensures cell { IfOk result (λ c. c.0 ≡ length self.old.machine.builder.graph.cells + 1) }
        ensures opens { OnOk result (Opens run (between_of self.old) ((between_of self.old).cells ++ to.0 ∷ []) (state_of self.new.machine)) }
        ensures builder { IfOk result
            (λ c. self.new.machine.builder
            ≡ opened (cell_home c.0) (with_reference c.0 to.0 (closed self.old.machine.builder)) self.old.machine.builder) }
        ensures home { IfOk result (λ c. self.new.machine.home ≡ cell_home c.0) }
        ensures kept { KeepsAll self.old self.new }
        ensures tick { OnOk result (L.number steps.new ≡ L.number steps.old + 1) }
        ensures few { L.number steps.new ≤ L.number steps.old + 1 }
        ensures memory { IfErr result (λ e. e ≡ fault.Memory) }
    {
        let cell = add_reference(&mut self.machine, to, steps)?;
        self.machine.start(Home::Cell(cell), run);
        Ok(cell)
    }
}

// Opens the next root.
#[inline(always)]
fn add_root(machine: &mut Machine) -> Result<(), DecodeFault>
    requires whole { CanClose machine.old.builder }
    ensures builder { OnOk result
        (machine.new.builder
        ≡ opened (home.Root (length machine.old.builder.graph.roots)) (with_root (closed machine.old.builder)) machine.old.builder) }
    ensures at { machine.new.at ≡ machine.old.at }
    ensures referents { machine.new.referents ≡ machine.old.referents }
    ensures memory { IfErr result (λ e. e ≡ fault.Memory) }
{
    machine.builder.root()?;
    machine.count = 0;
    Ok(())
}

// Opens a cell.
#[inline(always)]
fn fill(machine: &mut Machine, cell: CellId)
    requires whole { CanClose machine.old.builder }
    requires there { (0 < cell.0) × (cell.0 ≤ length machine.old.builder.graph.cells) }
    ensures builder { machine.new.builder ≡ opened (cell_home cell.0) (closed machine.old.builder) machine.old.builder }
    ensures at { machine.new.at ≡ machine.old.at }
    ensures referents { machine.new.referents ≡ machine.old.referents }
{
    machine.builder.fill(cell);
    machine.count = 0;
}

// Opens the next root, which is a reference pointer, and a cell of its own for the referent.
fn add_reference<L: Ledger>(
    machine: &mut Machine,
    to: TypeId,
    steps: &mut Steps<L>,
) -> Result<CellId, DecodeFault>
    requires whole { CanClose machine.old.builder }
    requires few_cells { length machine.old.builder.graph.cells < 2 ^ 32 - 1 }
    ensures cell { IfOk result (λ c. c.0 ≡ length machine.old.builder.graph.cells + 1) }
    ensures builder { IfOk result
        (λ c. machine.new.builder ≡ opened (cell_home c.0) (with_reference c.0 to.0 (closed machine.old.builder)) machine.old.builder) }
    ensures at { machine.new.at ≡ machine.old.at }
    ensures referents { machine.new.referents ≡ machine.old.referents }
    ensures tick { OnOk result (L.number steps.new ≡ L.number steps.old + 1) }
    ensures few { L.number steps.new ≤ L.number steps.old + 1 }
    ensures memory { IfErr result (λ e. e ≡ fault.Memory) }
{
    add_root(machine)?;
    let cell = machine.builder.reserve(to, steps)?;
    machine.cells = cell.0;
    machine.builder.add(&Seen::Ptr(Some(cell)))?;
    machine.builder.fill(cell);
    Ok(cell)
}
