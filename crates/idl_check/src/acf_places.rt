// Which attribute stands where in an attribute configuration file (C706, sections 4.3.1 to 4.3.8).
ghost use Rattle.std.specs.Prelude.{◌≡◌, not, option_map};
ghost use Rattle.acf_reader.specs.Seen.{seen_attributes};
ghost use Rattle.idl_check.specs.AcfRules.{is_of_interface, is_of_type, is_of_operation, is_of_parameter, is_misplaced, attribute_list, belongs};

use acf_reader::{Attribute, AttributeKind, Attributes};

/// What an attribute is said of.
#[derive(Clone, Copy, Debug, PartialEq, Eq)]
pub enum Spot {
    Interface,
    Type,
    Operation,
    Parameter,
}

fn is_of_interface(kind: &AttributeKind) -> bool
    ensures { result ≡ is_of_interface kind.now }
{
    matches!(
        kind,
        AttributeKind::AutoHandle
            | AttributeKind::ExplicitHandle
            | AttributeKind::ImplicitHandle { .. }
            | AttributeKind::Code
            | AttributeKind::NoCode
            | AttributeKind::InLine
            | AttributeKind::OutOfLine
            | AttributeKind::EnableAllocate
    )
}

fn is_of_type(kind: &AttributeKind) -> bool
    ensures { result ≡ is_of_type kind.now }
{
    matches!(
        kind,
        AttributeKind::InLine | AttributeKind::OutOfLine | AttributeKind::Heap
    )
}

fn is_of_operation(kind: &AttributeKind) -> bool
    ensures { result ≡ is_of_operation kind.now }
{
    matches!(
        kind,
        AttributeKind::ExplicitHandle
            | AttributeKind::Code
            | AttributeKind::NoCode
            | AttributeKind::EnableAllocate
            | AttributeKind::CommStatus
            | AttributeKind::FaultStatus
    )
}

fn is_of_parameter(kind: &AttributeKind) -> bool
    ensures { result ≡ is_of_parameter kind.now }
{
    matches!(
        kind,
        AttributeKind::InLine
            | AttributeKind::OutOfLine
            | AttributeKind::Heap
            | AttributeKind::CommStatus
            | AttributeKind::FaultStatus
    )
}

/// Whether an attribute may stand in a place.
fn belongs(spot: Spot, kind: &AttributeKind) -> bool
    ensures { result ≡ belongs spot kind.now }
{
    match spot {
        Spot::Interface => is_of_interface(kind),
        Spot::Type => is_of_type(kind),
        Spot::Operation => is_of_operation(kind),
        Spot::Parameter => is_of_parameter(kind),
    }
}

/// Whether an attribute may not stand in a place.
fn is_elsewhere(spot: Spot, kind: &AttributeKind) -> bool
    ensures { result ≡ not (belongs spot kind.now) }
{
    !belongs(spot, kind)
}

/// Whether an attribute of a list does not stand in its place.
pub(crate) fn is_misplaced(spot: Spot, attributes: &[Attribute]) -> bool
    ensures { result ≡ is_misplaced (belongs spot) attributes.now }
{
    for attribute in attributes {
        if is_elsewhere(spot, &attribute.kind) {
            return true;
        }
    }
    false
}

/// The attributes of a list that may be missing.
pub(crate) fn attribute_list(attributes: &Option<Attributes>) -> &[Attribute]
    ensures { result.now ≡ attribute_list (option_map seen_attributes attributes.now) }
{
    match attributes {
        Some(attributes) => attributes.list.as_slice(),
        None => &[],
    }
}
