// The runs of a type, one function for each form of types.
ghost use Rattle.std.specs.Prelude.{◌≡◌, ◌++◌, ◌∷◌, [], OnOk, IfOk};
ghost use Rattle.nd_types.specs.declared.types.TypeDef.TheVariants as def;
ghost use Rattle.nd_types.specs.Layout.{hoists};
ghost use Rattle.ndr_code.specs.declared.instr.Instr.TheVariants.{Align, Num, Enum, Text, Pointer, Ret};
ghost use Rattle.ndr_code.specs.Code.{id, gap_run, arm_run, arms_code, default_code, member_calls, field_checks, member_checks, struct_run};
ghost use Rattle.ndr_code.specs.Code.{array_run, union_run, text_bound, place_run, whole_run, type_run};
ghost use Rattle.ndr_plan.specs.Addresses.{place_in, whole_in};

use crate::addresses::Addresses;
use nd_base::Memory;
use nd_types::{Arm, Arms, AttrVars, Class, Fields, Interface, TypeDef, TypeId};
use ndr_code::{Code, Instr};

// A number as one of a plan. One that is too great is that of a plan for which there is no memory.
pub(crate) fn narrow(number: usize) -> Result<u32, Memory>
    ensures { IfOk result (λ n. n ≡ number) }
{
    match u32::try_from(number) {
        Ok(number) => Ok(number),
        Err(_) => Err(Memory),
    }
}

// A gap, which is left out for 1.
fn push_gap(code: &mut Code, align: u8) -> Result<(), Memory>
    ensures { OnOk result (code.new ≡ code.old ++ gap_run align) }
{
    if align == 1 {
        Ok(())
    } else {
        code.append(&[Instr::Align { to: align }])
    }
}

// A primitive with its gap.
fn push_primitive(code: &mut Code, align: u8, of: TypeId) -> Result<(), Memory>
    ensures { OnOk result (code.new ≡ code.old ++ (gap_run align ++ (Num (id of.0) ∷ Ret ∷ []))) }
{
    push_gap(code, align)?;
    code.append(&[Instr::Num { of }, Instr::Ret])?;
    Ok(())
}

// A value of an enumerated type, with its gap.
fn push_enumerated(code: &mut Code, of: TypeId) -> Result<(), Memory>
    ensures { OnOk result (code.new ≡ code.old ++ (Align 2 ∷ Enum (id of.0) ∷ Ret ∷ [])) }
{
    code.append(&[Instr::Align { to: 2 }, Instr::Enum { of }, Instr::Ret])?;
    Ok(())
}

// A call of the place run of each member.
fn push_calls(code: &mut Code, addresses: &Addresses, members: &Fields) -> Result<(), Memory>
    ensures { OnOk result (code.new ≡ code.old ++ member_calls (place_in addresses.now) members.now) }
{
    for at in 0..members.len() {
        let Some(member) = members.get(at) else {
            unreachable!()
        };
        code.append(&[Instr::Call {
            run: addresses.place(member.of),
        }])?;
    }
    Ok(())
}

// The agreements of a member.
fn push_field_checks(code: &mut Code, field: u32, vars: &AttrVars) -> Result<(), Memory>
    ensures { OnOk result (code.new ≡ code.old ++ field_checks field vars.now) }
{
    for at in 0..vars.len() {
        let Some(var) = vars.get(at) else {
            unreachable!()
        };
        code.append(&[Instr::Check {
            attr: var.attr,
            field,
            var: var.var,
            star: var.star,
        }])?;
    }
    Ok(())
}

// The agreements of all members.
fn push_checks(code: &mut Code, members: &Fields) -> Result<(), Memory>
    ensures { OnOk result (code.new ≡ code.old ++ member_checks 0 members.now) }
{
    for at in 0..members.len() {
        let Some(member) = members.get(at) else {
            unreachable!()
        };
        push_field_checks(code, narrow(at)?, &member.vars)?;
    }
    Ok(())
}

// A struct, after its gap.
fn push_struct(code: &mut Code, addresses: &Addresses, members: &Fields) -> Result<(), Memory>
    ensures { OnOk result (code.new ≡ code.old ++ struct_run (place_in addresses.now) members.now) }
{
    let count = narrow(members.len())?;
    code.append(&[Instr::Record { members: count }])?;
    push_calls(code, addresses, members)?;
    push_checks(code, members)?;
    code.append(&[Instr::Close, Instr::Ret])
}

// An array, whose elements have their run at an address.
fn push_array(code: &mut Code, run: u32, bound: Option<u32>, varying: bool) -> Result<(), Memory>
    ensures { OnOk result (code.new ≡ code.old ++ array_run run bound varying) }
{
    match (bound, varying) {
        (Some(count), false) => code.append(&[Instr::Fixed { count, run }, Instr::Ret]),
        (None, false) => code.append(&[Instr::Conf { run }, Instr::Ret]),
        (Some(bound), true) => code.append(&[
            Instr::Align { to: 4 },
            Instr::Vary { bound, run },
            Instr::Ret,
        ]),
        (None, true) => code.append(&[Instr::Align { to: 4 }, Instr::Confvary { run }, Instr::Ret]),
    }
}

// The run of an arm, or address 0 if the arm is empty.
fn arm_run(addresses: &Addresses, of: Option<TypeId>) -> u32
    ensures { result ≡ arm_run (place_in addresses.now) of }
{
    match of {
        Some(of) => addresses.place(of),
        None => 0,
    }
}

// An instruction for each label of a union.
fn push_arms(code: &mut Code, addresses: &Addresses, arms: &Arms) -> Result<(), Memory>
    ensures { OnOk result (code.new ≡ code.old ++ arms_code (place_in addresses.now) arms.now) }
{
    for at in 0..arms.len() {
        let Some(arm) = arms.get(at) else {
            unreachable!()
        };
        code.append(&[Instr::Arm {
            label: arm.label,
            run: arm_run(addresses, arm.of),
        }])?;
    }
    Ok(())
}

// The default of a union, or that it has none.
fn push_default(code: &mut Code, addresses: &Addresses, default: &Option<Arm>) -> Result<(), Memory>
    ensures { OnOk result (code.new ≡ code.old ++ default_code (place_in addresses.now) default.now) }
{
    match default {
        Some(arm) => code.append(&[Instr::Other {
            run: arm_run(addresses, arm.of),
        }]),
        None => code.append(&[Instr::Noarm]),
    }
}

// A union, after the gap of its tag.
fn push_union(
    code: &mut Code,
    addresses: &Addresses,
    tag: TypeId,
    arms: &Arms,
    default: &Option<Arm>,
) -> Result<(), Memory>
    ensures { OnOk result (code.new ≡ code.old ++ union_run (place_in addresses.now) tag arms.now default.now) }
{
    code.append(&[Instr::Tag { of: tag }])?;
    push_arms(code, addresses, arms)?;
    push_default(code, addresses, default)
}

// A string, of at most so many characters where it is bounded.
fn push_text(code: &mut Code, bound: Option<u32>) -> Result<(), Memory>
    ensures { OnOk result (code.new ≡ code.old ++ (Align 4 ∷ Text (text_bound bound) ∷ Ret ∷ [])) }
{
    code.append(&[
        Instr::Align { to: 4 },
        Instr::Text {
            bound: text_bound(bound),
        },
        Instr::Ret,
    ])
}

// A pointer, with the whole run of what it names.
fn push_pointer(
    code: &mut Code,
    addresses: &Addresses,
    class: Class,
    to: TypeId,
) -> Result<(), Memory>
    ensures { OnOk result (code.new ≡ code.old ++ (Align 4 ∷ Pointer class to (whole_in addresses.now to.0) ∷ Ret ∷ [])) }
{
    code.append(&[
        Instr::Align { to: 4 },
        Instr::Pointer {
            class,
            to,
            run: addresses.whole(to),
        },
        Instr::Ret,
    ])
}

// The place run of a type.
pub(crate) fn push_place(
    code: &mut Code,
    interface: &Interface,
    addresses: &Addresses,
    of: TypeId,
    definition: &TypeDef,
) -> Result<(), Memory>
    ensures { OnOk result
        (code.new ≡ code.old ++ place_run (place_in addresses.now) (whole_in addresses.now) interface.now.types of.0 definition.now) }
{
    match definition {
        TypeDef::Prim(_) => push_primitive(code, interface.align(of), of),
        TypeDef::Enum { .. } => push_enumerated(code, of),
        TypeDef::Struct { members } => {
            push_gap(code, interface.align(of))?;
            push_struct(code, addresses, members)
        }
        TypeDef::Array {
            elem,
            bound,
            varying,
        } => push_array(code, addresses.place(*elem), *bound, *varying),
        TypeDef::Text { bound, .. } => push_text(code, *bound),
        TypeDef::Union {
            tag,
            arms,
            default,
            ..
        } => {
            push_gap(code, interface.align(*tag))?;
            push_union(code, addresses, *tag, arms, default)
        }
        TypeDef::Pointer { class, to } => push_pointer(code, addresses, *class, *to),
        TypeDef::Context => code.append(&[Instr::Align { to: 4 }, Instr::Context, Instr::Ret]),
        TypeDef::Pipe { elem } => code.append(&[
            Instr::Pipe {
                run: addresses.place(*elem),
            },
            Instr::Ret,
        ]),
    }
}

// The bound of a string, 0 if it is conformant.
fn text_bound(bound: Option<u32>) -> u32
    ensures { result ≡ text_bound bound }
{
    match bound {
        Some(count) => count,
        None => 0,
    }
}

// The whole run of a type that hoists, before its place run at an address. A type that does not has none of its own.
pub(crate) fn push_whole(code: &mut Code, hoists: bool, run: u32) -> Result<(), Memory>
    ensures { OnOk result (code.new ≡ code.old ++ whole_run hoists run) }
{
    if hoists {
        code.append(&[Instr::Hoist, Instr::Call { run }, Instr::Ret])
    } else {
        Ok(())
    }
}
