// The lists that types are made of, each filled and read.
use nd_base::{Memory, Name};
use nd_types::{
    Arm, Arms, Attr, AttrVar, AttrVars, Field, Fields, Numbers, TypeDef, TypeId, Types,
};
use std::alloc::Global;
use std::test::Fail;

// enum { 0, 4 }
fn keeps_numbers(alloc: Global) -> bool {
    let mut values = Numbers::new(alloc);
    values.push(0).is_ok()
        && values.push(4).is_ok()
        && values.get(1) == Some(&4)
        && values.get(2).is_none()
}

// case 0: unsigned long size;
fn keeps_arms(alloc: Global) -> Result<bool, Memory> {
    let name = Name::copy(alloc, b"size")?;
    let size = Arm {
        label: 0,
        name: Some(name),
        of: Some(TypeId(8)),
    };
    let mut arms = Arms::new(alloc);
    let is_kept = arms.push(size).is_ok();
    Ok(is_kept && arms.get(0).is_some_and(|arm| arm.of == Some(TypeId(8))))
}

const SWITCH: AttrVar = AttrVar {
    attr: Attr::Switch,
    var: 0,
    star: false,
};

// switch_is of the first member
fn keeps_attributes(alloc: Global) -> bool {
    let mut vars = AttrVars::new(alloc);
    vars.push(SWITCH).is_ok() && vars.get(0) == Some(&SWITCH)
}

// [switch_is(..)] detail
fn keeps_members(alloc: Global) -> Result<bool, Memory> {
    let name = Name::copy(alloc, b"detail")?;
    let mut vars = AttrVars::new(alloc);
    let is_kept = vars.push(SWITCH).is_ok();
    let of = TypeId(13);
    let mut members = Fields::new(alloc);
    let is_member = members.push(Field { name, of, vars }).is_ok();
    Ok(is_kept && is_member && members.get(0).is_some_and(|member| member.vars.len() == 1))
}

// The basic types, an enumerated type and a struct.
fn keeps_types(alloc: Global) -> Result<bool, Memory> {
    let mut types = Types::basic(alloc)?;
    let values = Numbers::new(alloc);
    let is_enum = types.push(TypeDef::Enum { values }).is_ok();
    let members = Fields::new(alloc);
    let is_struct = types.push(TypeDef::Struct { members }).is_ok();
    Ok(is_enum && is_struct && types.len() == 14 && matches!(types.get(11), Some(TypeDef::Context)))
}

#[test]
fn lists_are_kept(rt: HostRuntime) -> Result<(), Fail> {
    assert!(rt; keeps_numbers(rt.alloc()));
    assert!(rt; keeps_arms(rt.alloc())?);
    assert!(rt; keeps_attributes(rt.alloc()));
    assert!(rt; keeps_members(rt.alloc())?);
    assert!(rt; keeps_types(rt.alloc())?);
    Ok(())
}
