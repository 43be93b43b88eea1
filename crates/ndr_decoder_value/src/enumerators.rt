// Values of enumerated types.
ghost use Rattle.std.specs.Prelude.{◌≡◌};
ghost use Rattle.std.specs.List.{list_any};
ghost use Rattle.std.specs.Ordering.{int_eq};
ghost use Rattle.nd_grammar.specs.Refusal.{is_enumerator as is_one_of};
ghost use Rattle.ndr_code.specs.Code.{enumerators};
ghost use Rattle.ndr_decoder_laws.specs.steps.Steps.{form_by};

use nd_types::{Numbers, Prim, TypeId};
use ndr_code::{EnumLists, prim_of};

// Whether a number is a value of a type: any is if the type is not enumerated.
pub(crate) fn is_enumerator(values: &EnumLists, of: TypeId, value: i128) -> bool
    ensures { result ≡ is_one_of (enumerators values.now of.0) value }
{
    for at in 0..values.len() {
        let Some(list) = values.get(at) else {
            unreachable!()
        };
        if list.of.0 == of.0 {
            return contains(&list.values, value);
        }
    }
    true
}

// The primitive that carries the tags of a type: an enumerated one travels as a short.
pub(crate) fn carrier_of(values: &EnumLists, of: TypeId) -> Prim
    ensures { result ≡ (form_by of.0 (enumerators values.now of.0)).prim }
{
    for at in 0..values.len() {
        let Some(list) = values.get(at) else {
            unreachable!()
        };
        if list.of.0 == of.0 {
            return Prim::Short;
        }
    }
    prim_of(of.0)
}

// Whether a number is among others.
fn contains(values: &Numbers, number: i128) -> bool
    ensures { result ≡ list_any (int_eq number) values.now }
{
    for at in 0..values.len() {
        let Some(value) = values.get(at) else {
            unreachable!()
        };
        if number == *value {
            return true;
        }
    }
    false
}
