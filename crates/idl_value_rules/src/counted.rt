// What the dimensions of types come to (C706, section 4.2.15), by the types' numbers.
ghost use Rattle.std.specs.Prelude.{◌≡◌, ℕ, Bool, true, List, length, Option, Some, slice_get, IfOk, ℤ};
ghost use Rattle.idl_grammar.specs.declared.attributes.PointerClass.{PointerClass};
ghost use Rattle.idl_rule_definitions.specs.TypeRules as rules;
ghost use Rattle.idl_rule_definitions.specs.Types.{IdlType, Void, Array, Text, Pointer, Pipe};
ghost use Rattle.idl_declared_types.specs.Kinds.{type_by, type_at, is_inside};
ghost use Rattle.idl_value_rules.specs.Counted.{IsCounted, AreCounted, inner_type};

use idl_declared_types::kinds::{Kind, Kinds};
use nd_base::Memory;
use nd_types::ELEMENT_LIMIT;
use std::alloc::Global;

/// What is counted of a type's dimensions.
#[derive(Clone, Copy, Debug)]
pub struct Counted {
    /// An array in it, down to the innermost, has a wrong dimension or product.
    pub holds_wrong: bool,
    /// An array of more than one dimension in it is not fixed in each.
    pub holds_many_not_fixed: bool,
    /// It is itself an array whose element is an array.
    pub many: bool,
    /// The product of its dimensions where each is fixed; it says nothing where the type holds a wrong one.
    elements: Option<i128>,
    /// It is an array.
    array: bool,
    /// One of its dimensions is not fixed.
    not_fixed: bool,
}

/// Whether this is right as a dimension, or as a product of such: 1 to 16,777,216 where it is fixed.
fn is_right(count: Option<i128>) -> bool
    ensures { result ≡ rules.is_right_count count }
{
    match count {
        None => true,
        Some(count) => count >= 1 && count <= i128::from(ELEMENT_LIMIT),
    }
}

/// The product where both are fixed. One past 128 bits is given as 0, as it is no more right than that.
fn times(count: Option<i128>, inside: Option<i128>) -> Option<i128>
    ensures right { rules.is_right_count result ≡ rules.is_right_count (rules.times count inside) }
    ensures same { rules.is_right_count result ≡ true → result ≡ rules.times count inside }
{
    let (Some(count), Some(inside)) = (count, inside) else {
        return None;
    };
    match count.checked_mul(inside) {
        Some(product) => Some(product),
        None => Some(0),
    }
}

impl Counted {
    /// Of a type that holds no other.
    fn plain() -> Counted
        ensures { IsCounted Void result }
    {
        Counted {
            holds_wrong: false,
            holds_many_not_fixed: false,
            many: false,
            elements: Some(1),
            array: false,
            not_fixed: false,
        }
    }

    /// Of an array of a type of which this is counted.
    fn in_array(self, count: Option<i128>) -> Counted
        ensures { (t : IdlType) (varying : Bool) → IsCounted t self → IsCounted (Array t count varying) result }
    {
        let elements = times(count, self.elements);
        let not_fixed = count.is_none() || self.not_fixed;
        Counted {
            holds_wrong: self.holds_wrong || !is_right(count) || !is_right(elements),
            holds_many_not_fixed: self.holds_many_not_fixed || (self.array && not_fixed),
            many: self.array,
            elements,
            array: true,
            not_fixed,
        }
    }

    /// Of a text, pointer or pipe over a type of which this is counted.
    fn in_other(self) -> Counted
        ensures text { (t : IdlType) (count : Option ℤ) → IsCounted t self → IsCounted (Text t count) result }
        ensures pointer { (class : Option PointerClass) (t : IdlType) → IsCounted t self → IsCounted (Pointer class t) result }
        ensures pipe { (t : IdlType) → IsCounted t self → IsCounted (Pipe t) result }
    {
        Counted {
            holds_wrong: self.holds_wrong,
            holds_many_not_fixed: self.holds_many_not_fixed,
            ..Counted::plain()
        }
    }

    /// Of a type of this kind over a type of which this is counted.
    fn of(self, kind: Kind) -> Counted
        ensures { (types : List IdlType) → IsCounted (inner_type types kind) self → IsCounted (type_by types kind) result }
    {
        match kind {
            Kind::Array { count, .. } => self.in_array(count),
            Kind::Text { .. } => self.in_other(),
            Kind::Pointer { .. } => self.in_other(),
            Kind::Pipe { .. } => self.in_other(),
            _ => Counted::plain(),
        }
    }
}

/// What is counted of the type that a kind points to or is made of as an array, text or pipe; or of `void`.
fn inner(kind: Kind, counts: &[Counted]) -> Counted
    ensures { (types : List IdlType) → AreCounted types counts.now → is_inside (length counts.now) kind ≡ true
        → IsCounted (inner_type types kind) result }
{
    let Some(number) = kind.inner() else {
        return Counted::plain();
    };
    match counts.get(number) {
        Some(counted) => *counted,
        None => Counted::plain(),
    }
}

/// What is counted of all types. Takes memory for each.
pub(crate) fn of_kinds(alloc: Global, kinds: &Kinds) -> Result<Vec<Counted>, Memory>
    ensures count { IfOk result (λ v. length v.items ≡ length kinds.now) }
    ensures each { IfOk result (λ v. (n : ℕ) (c : Counted) → slice_get v.items n ≡ Some c → IsCounted (type_at kinds.now n) c) }
{
    let mut counts = Vec::new(alloc);
    for number in 0..kinds.len() {
        let kind = kinds.kind(number);
        let counted = inner(kind, counts.as_slice()).of(kind);
        let Ok(()) = counts.push(counted) else {
            return Err(Memory);
        };
    }
    Ok(counts)
}
