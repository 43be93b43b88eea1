// The runs of a side of an operation, with their lines.
ghost use Rattle.std.specs.Prelude.{◌≡◌, ◌++◌, ◌∷◌, [], length, OnOk, IfOk};
ghost use Rattle.nd_types.specs.Table.{type_at};
ghost use Rattle.nd_types.specs.Roots.{root_value, named_roots};
ghost use Rattle.ndr_code.specs.Code.{root_by, side_at};
ghost use Rattle.ndr_code.specs.declared.lists.PlanLine.TheVariants.{Entry};
ghost use Rattle.ndr_plan.specs.Addresses.{AreAddresses};
ghost use Rattle.ndr_plan.specs.Parts.{HasRuns, HasSide, own_name, value_run, value_line, pipe_run, pipe_line};

use crate::addresses::Addresses;
use crate::side_checks::push_checks;
use crate::sides::SideOf;
use crate::type_code::narrow;
use nd_base::{Memory, Name};
use nd_types::{Class, Interface, Operation, RootDef, TypeDef, TypeId};
use ndr_code::{Code, Instr, PlanLine, PlanLines, SideStarts};
use std::alloc::Global;

// What is made of a plan so far.
#[derive(Drop)]
pub(crate) struct Parts {
    pub(crate) code: Code,
    pub(crate) entries: PlanLines,
    pub(crate) sides: SideStarts,
}

// The instruction of a root that is no pipe.
fn root_instr(interface: &Interface, addresses: &Addresses, of: TypeId) -> Instr
    requires { AreAddresses interface.now.types addresses.now }
    ensures { result ≡ root_by interface.now.types of.0 (type_at interface.now.types of.0) }
{
    match interface.types.get(of.0 as usize) {
        Some(
            TypeDef::Pointer {
                class: Class::Ref,
                to,
            },
        ) => Instr::Direct {
            to: *to,
            run: addresses.whole(*to),
        },
        _ => Instr::Call {
            run: addresses.whole(of),
        },
    }
}

// The name of a root: that of its parameter, or `return`.
fn own_name(alloc: Global, operation: &Operation, param: Option<u32>) -> Result<Name, Memory>
    ensures { IfOk result (λ name. name ≡ own_name operation.now param) }
{
    let Some(index) = param else {
        return Name::copy(alloc, b"return");
    };
    match operation.params.get(index as usize) {
        Some(param) => Name::copy(alloc, param.field.name.as_slice()),
        None => Name::copy(alloc, b"return"),
    }
}

impl Parts {
    // The line of a root whose run begins here.
    fn push_entry(
        &mut self,
        alloc: Global,
        side: &SideOf<'_>,
        param: Option<u32>,
    ) -> Result<(), Memory>
        ensures { OnOk result (self.new ≡ record {
          code = self.old.code;
          entries = self.old.entries ++ (Entry side.now.op side.now.side (own_name side.now.operation.now param) (length self.old.code) ∷ []);
          sides = self.old.sides;
        }) }
    {
        let line = PlanLine::Entry {
            op: side.op,
            side: side.side,
            name: own_name(alloc, side.operation, param)?,
            at: narrow(self.code.len())?,
        };
        let Ok(()) = self.entries.push(line) else {
            return Err(Memory);
        };
        Ok(())
    }

    // The run of a root with its line. A pipe has none here.
    fn push_root(
        &mut self,
        alloc: Global,
        side: &SideOf<'_>,
        root: &RootDef<'_>,
    ) -> Result<(), Memory>
        ensures { let table = side.now.interface.now.types in let r = root_value root.now in
            OnOk result (self.new ≡ record {
              code = self.old.code ++ value_run table r;
              entries = self.old.entries ++ value_line side.now.op side.now.operation.now side.now.side (length self.old.code) r;
              sides = self.old.sides;
            }) }
    {
        if root.pipe {
            return Ok(());
        }
        self.push_entry(alloc, side, root.param)?;
        let instr = root_instr(side.interface, side.addresses, root.of);
        self.code.append(&[instr, Instr::Defer, Instr::Ret])
    }

    // The run of a pipe with its line. Any other root has none here.
    fn push_pipe(
        &mut self,
        alloc: Global,
        side: &SideOf<'_>,
        root: &RootDef<'_>,
    ) -> Result<(), Memory>
        ensures { let table = side.now.interface.now.types in let r = root_value root.now in
            OnOk result (self.new ≡ record {
              code = self.old.code ++ pipe_run table r;
              entries = self.old.entries ++ pipe_line side.now.op side.now.operation.now side.now.side (length self.old.code) r;
              sides = self.old.sides;
            }) }
    {
        if !root.pipe {
            return Ok(());
        }
        self.push_entry(alloc, side, root.param)?;
        let run = side.addresses.place(root.of);
        self.code.append(&[Instr::Call { run }, Instr::Ret])
    }

    // The runs of the roots that are no pipes.
    fn push_roots(&mut self, alloc: Global, side: &SideOf<'_>) -> Result<(), Memory>
        ensures { let table = side.now.interface.now.types in
            OnOk result (HasRuns self.old self.new (value_run table) (value_line side.now.op side.now.operation.now side.now.side)
            (named_roots table side.now.side side.now.operation.now)) }
    {
        for root in side.interface.params(side.op, side.side) {
            self.push_root(alloc, side, &root)?;
        }
        Ok(())
    }

    // The runs of the pipes.
    fn push_pipes(&mut self, alloc: Global, side: &SideOf<'_>) -> Result<(), Memory>
        ensures { let table = side.now.interface.now.types in
            OnOk result (HasRuns self.old self.new (pipe_run table) (pipe_line side.now.op side.now.operation.now side.now.side)
            (named_roots table side.now.side side.now.operation.now)) }
    {
        for root in side.interface.params(side.op, side.side) {
            self.push_pipe(alloc, side, &root)?;
        }
        Ok(())
    }

    // The runs of a side, with their lines and where these begin.
    pub(crate) fn push_side(&mut self, alloc: Global, side: &SideOf<'_>) -> Result<(), Memory>
        ensures { let i = side.now.interface.now in let o = side.now.operation.now in
            length self.old.code ≡ side_at i.types i.operations side.now.op o side.now.side
            → OnOk result (HasSide self.old self.new i.types i.operations side.now.op o side.now.side) }
    {
        let Ok(()) = self.sides.push(narrow(self.entries.len())?) else {
            return Err(Memory);
        };
        self.push_roots(alloc, side)?;
        let line = PlanLine::Checks {
            op: side.op,
            side: side.side,
            at: narrow(self.code.len())?,
        };
        let Ok(()) = self.entries.push(line) else {
            return Err(Memory);
        };
        push_checks(&mut self.code, alloc, side)?;
        self.push_pipes(alloc, side)?;
        Ok(())
    }
}
