// The interface of the rows.
ghost use Rattle.std.specs.Prelude.{◌≡◌, ◌≤◌, ◌++◌, [], ◌∷◌, false, None, length, IfOk, OnOk};
ghost use Rattle.nd_types.specs.declared.types.TypeDef.TheVariants as def;
ghost use Rattle.nd_types.specs.declared.types.Way.TheVariants as way;
ghost use Rattle.test_graph.specs.Rows.{id, field, sized_field, param, operation, row_types, row_operations};

use nd_base::{Memory, Name};
use nd_types::{
    Attr, AttrVar, AttrVars, Class, Field, Fields, Interface, Operation, Operations, Param, Params,
    TypeDef, TypeId, Types, Way,
};
use std::alloc::Global;

/// Operations by their numbers.
pub(crate) const RING: u32 = 0;

pub(crate) const PAIR: u32 = 1;

pub(crate) const TWO: u32 = 2;

pub(crate) const SUM: u32 = 3;

pub(crate) const SAY: u32 = 4;

pub(crate) const SIZED: u32 = 5;

pub(crate) const SIZED_BY_POINTER: u32 = 6;

/// The interface of all rows.
#[tactic(auto, using(crate::proofs::Legal::legal))]
pub(crate) fn interface(alloc: Global) -> Result<Interface, Memory>
    ensures types { IfOk result (λ i. i.types ≡ row_types) }
    ensures operations { IfOk result (λ i. i.operations ≡ row_operations) }
{
    let types = types(alloc)?;
    let operations = operations(alloc)?;
    let layouts = types.layouts(alloc)?;
    Ok(Interface {
        name: Name::copy(alloc, b"t")?,
        uuid: None,
        major: 0,
        minor: 0,
        types,
        layouts,
        operations,
    })
}

fn plain(alloc: Global, name: &[u8], of: u32) -> Result<Field, Memory>
    requires some { 1 ≤ length name.now }
    requires few { length name.now ≤ 31 }
    ensures { IfOk result (λ f. f ≡ field name.now of) }
{
    Ok(Field {
        name: Name::copy(alloc, name)?,
        of: TypeId(of),
        vars: AttrVars::new(alloc),
    })
}

fn sized(alloc: Global, name: &[u8], of: u32, var: u32, star: bool) -> Result<Field, Memory>
    requires some { 1 ≤ length name.now }
    requires few { length name.now ≤ 31 }
    ensures { IfOk result (λ f. f ≡ sized_field name.now of var star) }
{
    let attr = Attr::Size;
    let mut vars = AttrVars::new(alloc);
    let Ok(()) = vars.push(AttrVar { attr, var, star }) else {
        return Err(Memory);
    };
    Ok(Field {
        name: Name::copy(alloc, name)?,
        of: TypeId(of),
        vars,
    })
}

// A struct of one member.
fn structure_of_one(alloc: Global, member: Field) -> Result<TypeDef, Memory>
    ensures { IfOk result (λ d. d ≡ def.Struct (member ∷ [])) }
{
    let mut members = Fields::new(alloc);
    let Ok(()) = members.push(member) else {
        return Err(Memory);
    };
    Ok(TypeDef::Struct { members })
}

// A struct of two members.
fn structure_of_two(alloc: Global, first: Field, second: Field) -> Result<TypeDef, Memory>
    ensures { IfOk result (λ d. d ≡ def.Struct (first ∷ second ∷ [])) }
{
    let mut members = Fields::new(alloc);
    if members.push(first).is_err() || members.push(second).is_err() {
        return Err(Memory);
    }
    Ok(TypeDef::Struct { members })
}

fn add(types: &mut Types, of: TypeDef) -> Result<(), Memory>
    ensures { OnOk result (types.new ≡ types.old ++ of ∷ []) }
{
    let Ok(()) = types.push(of) else {
        return Err(Memory);
    };
    Ok(())
}

fn add_pointer(types: &mut Types, class: Class, to: u32) -> Result<(), Memory>
    ensures { OnOk result (types.new ≡ types.old ++ def.Pointer class (id to) ∷ []) }
{
    let to = TypeId(to);
    add(types, TypeDef::Pointer { class, to })
}

fn add_array(types: &mut Types, elem: u32) -> Result<(), Memory>
    ensures { OnOk result (types.new ≡ types.old ++ def.Array (id elem) None false ∷ []) }
{
    let elem = TypeId(elem);
    let of = TypeDef::Array {
        elem,
        bound: None,
        varying: false,
    };
    add(types, of)
}

fn types(alloc: Global) -> Result<Types, Memory>
    ensures { IfOk result (λ types. types ≡ row_types) }
{
    let mut types = Types::basic(alloc)?;
    let v = plain(alloc, b"v", 7)?;
    let next = plain(alloc, b"next", 13)?;
    add(&mut types, structure_of_two(alloc, v, next)?)?;
    add_pointer(&mut types, Class::Full, 12)?;
    let v = plain(alloc, b"v", 7)?;
    add(&mut types, structure_of_one(alloc, v)?)?;
    add_pointer(&mut types, Class::Full, 14)?;
    let y = plain(alloc, b"y", 15)?;
    let z = plain(alloc, b"z", 15)?;
    add(&mut types, structure_of_two(alloc, y, z)?)?;
    add_pointer(&mut types, Class::Full, 16)?;
    let a = plain(alloc, b"a", 17)?;
    let b = plain(alloc, b"b", 15)?;
    add(&mut types, structure_of_two(alloc, a, b)?)?;
    add_pointer(&mut types, Class::Ref, 18)?;
    add_pointer(&mut types, Class::Unique, 7)?;
    add_array(&mut types, 9)?;
    let n = plain(alloc, b"n", 5)?;
    let a = sized(alloc, b"a", 21, 0, false)?;
    add(&mut types, structure_of_two(alloc, n, a)?)?;
    add_pointer(&mut types, Class::Ref, 22)?;
    let text = TypeDef::Text {
        elem: TypeId(1),
        bound: None,
    };
    add(&mut types, text)?;
    add_pointer(&mut types, Class::Ref, 24)?;
    add_array(&mut types, 2)?;
    add_pointer(&mut types, Class::Ref, 8)?;
    Ok(types)
}

// An operation of one parameter.
fn taking_one(alloc: Global, name: &[u8], of: Param) -> Result<Operation, Memory>
    requires some { 1 ≤ length name.now }
    requires few { length name.now ≤ 31 }
    ensures { IfOk result (λ o. o ≡ operation name.now (of ∷ [])) }
{
    let mut params = Params::new(alloc);
    let Ok(()) = params.push(of) else {
        return Err(Memory);
    };
    Ok(Operation {
        name: Name::copy(alloc, name)?,
        params,
        result: None,
    })
}

// An operation of two parameters.
fn taking_two(alloc: Global, name: &[u8], first: Param, second: Param) -> Result<Operation, Memory>
    requires some { 1 ≤ length name.now }
    requires few { length name.now ≤ 31 }
    ensures { IfOk result (λ o. o ≡ operation name.now (first ∷ second ∷ [])) }
{
    let mut params = Params::new(alloc);
    if params.push(first).is_err() || params.push(second).is_err() {
        return Err(Memory);
    }
    Ok(Operation {
        name: Name::copy(alloc, name)?,
        params,
        result: None,
    })
}

fn input(field: Field) -> Param
    ensures { result ≡ param field way.In }
{
    Param {
        field,
        way: Way::In,
    }
}

fn output(field: Field) -> Param
    ensures { result ≡ param field way.Out }
{
    Param {
        field,
        way: Way::Out,
    }
}

fn put(operations: &mut Operations, of: Operation) -> Result<(), Memory>
    ensures { OnOk result (operations.new ≡ operations.old ++ of ∷ []) }
{
    let Ok(()) = operations.push(of) else {
        return Err(Memory);
    };
    Ok(())
}

fn operations(alloc: Global) -> Result<Operations, Memory>
    ensures { IfOk result (λ operations. operations ≡ row_operations) }
{
    let mut operations = Operations::new(alloc);
    let p = plain(alloc, b"p", 13)?;
    put(&mut operations, taking_one(alloc, b"ring", input(p))?)?;
    let p = plain(alloc, b"p", 19)?;
    put(&mut operations, taking_one(alloc, b"h", input(p))?)?;
    let a = plain(alloc, b"a", 20)?;
    let b = plain(alloc, b"b", 20)?;
    put(
        &mut operations,
        taking_two(alloc, b"two", input(a), input(b))?,
    )?;
    let p = plain(alloc, b"p", 23)?;
    put(&mut operations, taking_one(alloc, b"sum", input(p))?)?;
    let s = plain(alloc, b"s", 25)?;
    put(&mut operations, taking_one(alloc, b"say", input(s))?)?;
    let n = plain(alloc, b"n", 8)?;
    let a = sized(alloc, b"a", 26, 0, false)?;
    put(
        &mut operations,
        taking_two(alloc, b"r", input(n), output(a))?,
    )?;
    let n = Param {
        field: plain(alloc, b"n", 27)?,
        way: Way::InOut,
    };
    let a = sized(alloc, b"a", 26, 0, true)?;
    put(&mut operations, taking_two(alloc, b"s2", n, output(a))?)?;
    Ok(operations)
}
