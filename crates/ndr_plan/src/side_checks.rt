// The run of the agreements of a side of an operation.
ghost use Rattle.std.specs.Prelude.{◌≡◌, ◌++◌, OnOk};
ghost use Rattle.std.specs.List.{flat_map};
ghost use Rattle.nd_types.specs.Roots.{named_roots};
ghost use Rattle.ndr_code.specs.Code.{given_check, checks_run};
ghost use Rattle.ndr_plan.specs.Numbers.{number_in};
ghost use Rattle.ndr_plan.specs.Checks.{check_by, checks_by, vars_at};

use crate::root_numbers::{RootNumbers, root_numbers};
use crate::sides::SideOf;
use crate::type_code::narrow;
use nd_base::Memory;
use nd_types::{AttrVar, AttrVars, Side};
use ndr_code::{Code, Instr};
use std::alloc::Global;

// The numbers of parameters among the roots of a side, and among those of the request.
#[derive(Drop)]
struct Numbers {
    here: RootNumbers,
    asked: RootNumbers,
}

// The agreement of the root of a number with a root of the request that is given beside a response.
fn push_given(
    code: &mut Code,
    side: Side,
    field: u32,
    var: AttrVar,
    variable: Option<u32>,
) -> Result<(), Memory>
    ensures { OnOk result (code.new ≡ code.old ++ given_check side field var variable) }
{
    match (side, variable) {
        (Side::Out, Some(variable)) => code.append(&[Instr::Given {
            attr: var.attr,
            field,
            var: variable,
            star: var.star,
        }]),
        _ => Ok(()),
    }
}

// The agreement of the root of a number with a variable: of this side, or of the request that is given beside a response.
fn push_check(
    code: &mut Code,
    side: Side,
    numbers: &Numbers,
    field: u32,
    var: AttrVar,
) -> Result<(), Memory>
    ensures { OnOk result
        (code.new ≡ code.old ++ check_by side (number_in numbers.now.here.items.items) (number_in numbers.now.asked.items.items) field var) }
{
    match numbers.here.find(var.var) {
        Some(variable) => code.append(&[Instr::Check {
            attr: var.attr,
            field,
            var: variable,
            star: var.star,
        }]),
        None => push_given(code, side, field, var, numbers.asked.find(var.var)),
    }
}

// The agreements of the root of a number with its variables.
fn push_vars(
    code: &mut Code,
    side: Side,
    numbers: &Numbers,
    field: u32,
    vars: &AttrVars,
) -> Result<(), Memory>
    ensures { let check = check_by side (number_in numbers.now.here.items.items) (number_in numbers.now.asked.items.items) in
        OnOk result (code.new ≡ code.old ++ flat_map (check field) vars.now) }
{
    for at in 0..vars.len() {
        let Some(var) = vars.get(at) else {
            unreachable!()
        };
        push_check(code, side, numbers, field, *var)?;
    }
    Ok(())
}

// The agreements of a root, which is a parameter or the result.
fn push_root(
    code: &mut Code,
    side: &SideOf<'_>,
    numbers: &Numbers,
    field: u32,
    param: Option<u32>,
) -> Result<(), Memory>
    ensures { let check = check_by side.now.side (number_in numbers.now.here.items.items) (number_in numbers.now.asked.items.items) in
        OnOk result (code.new ≡ code.old ++ flat_map (check field) (vars_at side.now.operation.now param)) }
{
    let Some(index) = param else {
        return Ok(());
    };
    match side.operation.params.get(index as usize) {
        Some(param) => push_vars(code, side.side, numbers, field, &param.field.vars),
        None => Ok(()),
    }
}

// The agreements of all roots.
fn push_roots(code: &mut Code, side: &SideOf<'_>, numbers: &Numbers) -> Result<(), Memory>
    ensures { let check = check_by side.now.side (number_in numbers.now.here.items.items) (number_in numbers.now.asked.items.items) in
        OnOk result (code.new ≡ code.old
        ++ checks_by check side.now.operation.now 0 (named_roots side.now.interface.now.types side.now.side side.now.operation.now)) }
{
    let mut field: u32 = 0;
    for root in side.interface.params(side.op, side.side) {
        push_root(code, side, numbers, field, root.param)?;
        field = narrow(field as usize + 1)?;
    }
    Ok(())
}

// The run of the agreements of a side. It takes memory for two numbers of each parameter while it runs.
pub(crate) fn push_checks(code: &mut Code, alloc: Global, side: &SideOf<'_>) -> Result<(), Memory>
    ensures { OnOk result (code.new ≡ code.old ++ checks_run side.now.interface.now.types side.now.operation.now side.now.side) }
{
    let numbers = Numbers {
        here: root_numbers(alloc, side, side.side)?,
        asked: root_numbers(alloc, side, Side::In)?,
    };
    push_roots(code, side, &numbers)?;
    code.append(&[Instr::Ret])?;
    Ok(())
}
