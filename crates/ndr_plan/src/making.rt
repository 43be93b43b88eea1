// The plan of an interface.
ghost use Rattle.std.specs.Prelude.{◌≡◌, ◌++◌, ◌∷◌, [], Some, slice_get, length, IfOk, OnOk};
ghost use Rattle.nd_types.specs.declared.types.Side.TheVariants.{In};
ghost use Rattle.ndr_code.specs.Code.{type_runs, table_code, code_of, side_at, enum_list_by, values_of, entries_of, sides_of};
ghost use Rattle.ndr_code.specs.Plan.{IsPlanOf};
ghost use Rattle.ndr_code.specs.declared.instr.Instr.TheVariants.{Void, Ret};
ghost use Rattle.ndr_plan.specs.Addresses.{AreAddresses, place_in, whole_in};
ghost use Rattle.ndr_plan.specs.Parts.{HasOperation};

use crate::addresses::{Address, Addresses};
use crate::side_code::Parts;
use crate::sides::SideOf;
use crate::type_code::{narrow, push_place, push_whole};
use nd_base::Memory;
use nd_types::{Interface, Operation, Side, TypeDef, TypeId};
use ndr_code::{ADDRESS_LIMIT, Code, EnumList, EnumLists, Instr, Plan, PlanLines, SideStarts};
use std::alloc::Global;

// The instructions before the runs of types: an empty arm, and the end of a run.
fn first_code(alloc: Global) -> Result<Code, Memory>
    ensures { IfOk result (λ code. code ≡ Void ∷ Ret ∷ []) }
{
    let mut code = Code::new(alloc);
    code.append(&[Instr::Void, Instr::Ret])?;
    Ok(code)
}

// The addresses of the runs of types: those of a code in which all addresses are 0. It takes memory for that code while it runs.
fn addresses(alloc: Global, interface: &Interface) -> Result<Addresses, Memory>
    ensures { IfOk result (λ a. AreAddresses interface.now.types a) }
{
    let nowhere = Addresses {
        items: Vec::new(alloc),
        end: 0,
    };
    let mut code = first_code(alloc)?;
    let mut items = Vec::with_capacity(alloc, interface.types.len())?;
    for at in 0..interface.types.len() {
        let Some(definition) = interface.types.get(at) else {
            unreachable!()
        };
        let of = TypeId(at as u32);
        let whole = narrow(code.len())?;
        push_whole(&mut code, interface.hoists(of), 0)?;
        let place = narrow(code.len())?;
        push_place(&mut code, interface, &nowhere, of, definition)?;
        let Ok(()) = items.push(Address { whole, place }) else {
            return Err(Memory);
        };
    }
    let end = narrow(code.len())?;
    Ok(Addresses { items, end })
}

// The runs of all types.
fn push_types(code: &mut Code, interface: &Interface, addresses: &Addresses) -> Result<(), Memory>
    ensures { OnOk result
        (code.new ≡ code.old ++ type_runs (place_in addresses.now) (whole_in addresses.now) interface.now.types 0 interface.now.types) }
{
    for at in 0..interface.types.len() {
        let Some(definition) = interface.types.get(at) else {
            unreachable!()
        };
        let of = TypeId(at as u32);
        push_whole(code, interface.hoists(of), addresses.place(of))?;
        push_place(code, interface, addresses, of, definition)?;
    }
    Ok(())
}

// The code of the table of types.
fn table_code(alloc: Global, interface: &Interface, addresses: &Addresses) -> Result<Code, Memory>
    requires { AreAddresses interface.now.types addresses.now }
    ensures { IfOk result (λ code. code ≡ table_code interface.now.types) }
{
    let mut code = first_code(alloc)?;
    push_types(&mut code, interface, addresses)?;
    Ok(code)
}

// The enumerated types.
fn enum_lists(alloc: Global, interface: &Interface) -> Result<EnumLists, Memory>
    ensures { IfOk result (λ lists. lists ≡ values_of interface.now.types) }
{
    let mut lists = EnumLists::new(alloc);
    for at in 0..interface.types.len() {
        let Some(definition) = interface.types.get(at) else {
            unreachable!()
        };
        push_enum(alloc, &mut lists, TypeId(at as u32), definition)?;
    }
    Ok(lists)
}

// The list of a type, if it is an enumerated one.
fn push_enum(
    alloc: Global,
    lists: &mut EnumLists,
    of: TypeId,
    definition: &TypeDef,
) -> Result<(), Memory>
    ensures { OnOk result (lists.new ≡ lists.old ++ enum_list_by of.0 definition.now) }
{
    let TypeDef::Enum { values } = definition else {
        return Ok(());
    };
    let list = EnumList {
        of,
        values: values.copy(alloc)?,
    };
    let Ok(()) = lists.push(list) else {
        return Err(Memory);
    };
    Ok(())
}

// The runs of an operation, after those of all before it.
fn push_operation(
    alloc: Global,
    parts: &mut Parts,
    interface: &Interface,
    addresses: &Addresses,
    op: u32,
    operation: &Operation,
) -> Result<(), Memory>
    requires addressed { AreAddresses interface.now.types addresses.now }
    requires known { slice_get interface.now.operations op ≡ Some operation.now }
    ensures { let i = interface.now in length parts.old.code ≡ side_at i.types i.operations op operation.now In
        → OnOk result (HasOperation parts.old parts.new i.types i.operations op operation.now) }
{
    let request = SideOf {
        interface,
        addresses,
        op,
        operation,
        side: Side::In,
    };
    parts.push_side(alloc, &request)?;
    let response = SideOf {
        interface,
        addresses,
        op,
        operation,
        side: Side::Out,
    };
    parts.push_side(alloc, &response)?;
    Ok(())
}

// The code, the lines of all sides, and where these begin.
fn parts(alloc: Global, interface: &Interface) -> Result<Parts, Memory>
    ensures { IfOk result (λ p. p ≡ record {
      code = code_of interface.now.types interface.now.operations;
      entries = entries_of interface.now.types interface.now.operations;
      sides = sides_of interface.now.types interface.now.operations;
    }) }
{
    let addresses = addresses(alloc, interface)?;
    let mut parts = Parts {
        code: table_code(alloc, interface, &addresses)?,
        entries: PlanLines::new(alloc),
        sides: SideStarts::new(alloc),
    };
    for at in 0..interface.operations.len() {
        let Some(operation) = interface.operations.get(at) else {
            unreachable!()
        };
        push_operation(
            alloc, &mut parts, interface, &addresses, at as u32, operation,
        )?;
    }
    Ok(parts)
}

/// The plan of an interface. It takes memory for the plan, and while it runs for the code of the types once more, in time that grows with the types,
/// members, arms, attributes and operations.
///
/// # Errors
/// Memory if there was too little, as there is for a plan of more than 4,294,967,295 instructions.
pub fn make(alloc: Global, interface: &Interface) -> Result<Plan, Memory>
    ensures { IfOk result (λ plan. plan.tie ≡ interface.now) }
{
    let parts = parts(alloc, interface)?;
    let values = enum_lists(alloc, interface)?;
    plan_of(parts, values, interface)
}

// The plan of its parts, if it is not too long.
fn plan_of(parts: Parts, values: EnumLists, interface: &Interface) -> Result<Plan, Memory>
    requires { IsPlanOf parts.code parts.entries values parts.sides interface.now }
    ensures { IfOk result (λ plan. plan.tie ≡ interface.now) }
{
    let Parts {
        mut code,
        entries,
        sides,
    } = parts;
    code.look_up();
    if code.len() > ADDRESS_LIMIT as usize {
        return Err(Memory);
    }
    Ok(Plan {
        code,
        entries,
        values,
        sides,
        tie: interface.tie(),
    })
}
