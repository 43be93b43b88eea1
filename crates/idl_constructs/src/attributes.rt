// What is in a list of attributes, as the first attribute of its kind says it.
ghost use Rattle.std.specs.Prelude.{◌≡◌, map, option_map};
ghost use Rattle.idl_grammar.specs.Seen.{seen_attribute, seen_attributes, seen_kind};
ghost use Rattle.idl_rule_definitions.specs.Attributes.{attribute_list, class_in, class_said, default_class_in, default_said, switch_type_in};
ghost use Rattle.idl_rule_definitions.specs.Attributes.{switch_said};

use idl_grammar::{Attribute, AttributeKind, Attributes, PointerClass, SwitchType};

/// The attributes of a list that may be missing. Takes no memory.
pub fn attribute_list(list: &Option<Attributes>) -> &[Attribute]
    ensures { map seen_attribute result.now ≡ attribute_list (option_map seen_attributes list.now) }
{
    match list {
        Some(list) => list.list.as_slice(),
        None => &[],
    }
}

/// The class that an attribute gives.
fn class_said(kind: &AttributeKind) -> Option<PointerClass>
    ensures { result ≡ class_said (seen_kind kind.now) }
{
    match kind {
        AttributeKind::Class(class) => Some(*class),
        _ => None,
    }
}

/// The class that a list gives. Takes no memory.
pub fn class_in(list: &[Attribute]) -> Option<PointerClass>
    ensures { result ≡ class_in (map seen_attribute list.now) }
{
    for attribute in list {
        if let Some(class) = class_said(&attribute.kind) {
            return Some(class);
        }
    }
    None
}

/// The class that an attribute gives to pointers without one.
fn default_said(kind: &AttributeKind) -> Option<PointerClass>
    ensures { result ≡ default_said (seen_kind kind.now) }
{
    match kind {
        AttributeKind::PointerDefault(class) => Some(*class),
        _ => None,
    }
}

/// The class that a header gives to pointers without one. Takes no memory.
pub fn default_class_in(list: &[Attribute]) -> Option<PointerClass>
    ensures { result ≡ default_class_in (map seen_attribute list.now) }
{
    for attribute in list {
        if let Some(class) = default_said(&attribute.kind) {
            return Some(class);
        }
    }
    None
}

/// The type that an attribute gives to what tells arms apart.
fn switch_said(kind: &AttributeKind) -> Option<&SwitchType>
    ensures { option_map (λ s. s.now) result ≡ switch_said (seen_kind kind.now) }
{
    match kind {
        AttributeKind::SwitchTypeIs(of) => Some(of),
        _ => None,
    }
}

/// The type that `switch_type` gives. Takes no memory.
pub fn switch_type_in(list: &[Attribute]) -> Option<&SwitchType>
    ensures { option_map (λ s. s.now) result ≡ switch_type_in (map seen_attribute list.now) }
{
    for attribute in list {
        if let Some(of) = switch_said(&attribute.kind) {
            return Some(of);
        }
    }
    None
}
