// What is kept for the variable of an agreement that fails.
ghost use Rattle.std.specs.Prelude.{◌≡◌, ℕ, ℤ, IfSome, IsSome, Some};
ghost use Rattle.std.specs.List.{slice_get};
ghost use Rattle.nd_value.specs.declared.item.Item.{Item as ItemValue};
ghost use Rattle.nd_grammar.specs.declared.reason.Reason.TheVariants as reasons;
ghost use Rattle.ndr_trace_value.specs.Attributes.{IsItemOf, first_of, speaks, spoken as item_spoken};
ghost use Rattle.ndr_trace_value.specs.Tracing.{IsAt};

use crate::members::Open;
use crate::parameters::RootSeen;
use nd_base::Octets;
use nd_grammar::Reason;
use nd_types::{Attr, AttrVar, AttrVars};
use nd_value::{Home, ItemKind, ItemLog};

/// The count or tag that an agreement finds other than it is stated, and the number that is stated.
#[derive(Clone, Copy, Drop)]
pub struct Sought {
    /// The item's place in the log.
    pub item: usize,
    pub kind: ItemKind,
    pub home: Home,
    pub node: u32,
    pub wanted: i128,
}

/// A number that a variable states of the value that is sought.
#[derive(Drop)]
pub struct Stated {
    pub wanted: i128,
    /// The path of the variable.
    pub variable: Octets,
}

/// What is kept while an agreement is sought; else it stays empty, but for the roots.
#[derive(Drop)]
pub struct Search<'a> {
    pub stated: Vec<Stated>,
    /// The structs that are open.
    pub open: Vec<Open<'a>>,
    pub roots: Vec<RootSeen>,
    /// The numbers that cells are.
    pub cell_numbers: Vec<Option<i128>>,
}

/// What a refusal at a place seeks: at a failed agreement the count or tag at that place.
pub fn find_agreement(items: &ItemLog, place: u32, why: Reason) -> Option<Sought>
    ensures disagrees { IfSome result (λ s. (found : ℤ) × (why ≡ reasons.Disagrees s.wanted found)) }
    ensures at { IfSome result (λ s. IsAt items.now.items s.item place) }
    ensures its { IfSome result (λ s. IsItemOf items.now.items s) }
    ensures finds { (wanted found : ℤ) → why ≡ reasons.Disagrees wanted found → (n : ℕ) (i : ItemValue) → slice_get items.now.items n ≡ Some i
        → i.at ≡ place → IsSome result }
{
    match why {
        Reason::Disagrees { wanted, .. } => find_item(items, place, wanted),
        _ => None,
    }
}

// The item at a place.
fn find_item(items: &ItemLog, place: u32, wanted: i128) -> Option<Sought>
    ensures wanted { IfSome result (λ s. s.wanted ≡ wanted) }
    ensures at { IfSome result (λ s. IsAt items.now.items s.item place) }
    ensures its { IfSome result (λ s. IsItemOf items.now.items s) }
    ensures finds { (n : ℕ) (i : ItemValue) → slice_get items.now.items n ≡ Some i → i.at ≡ place → IsSome result }
{
    for at in 0..items.len() {
        let Some(item) = items.get(at) else {
            unreachable!()
        };
        if item.at == place {
            return Some(Sought {
                item: at,
                kind: item.kind,
                home: item.home,
                node: item.node,
                wanted,
            });
        }
    }
    None
}

/// The first of attributes that speaks of an item of this kind.
pub fn attribute(vars: &AttrVars, kind: ItemKind) -> Option<AttrVar>
    ensures { result ≡ first_of kind vars.now }
{
    for at in 0..vars.len() {
        let Some(by) = vars.get(at) else {
            unreachable!()
        };
        if speaks_of(by.attr, kind) {
            return Some(*by);
        }
    }
    None
}

// Whether an attribute speaks of an item of this kind.
fn speaks_of(attr: Attr, kind: ItemKind) -> bool
    ensures { result ≡ speaks attr kind }
{
    spoken(attr) == kind
}

// The item that an attribute speaks of.
fn spoken(attr: Attr) -> ItemKind
    ensures { result ≡ item_spoken attr }
{
    match attr {
        Attr::Size => ItemKind::Max,
        Attr::Max => ItemKind::Max,
        Attr::First => ItemKind::Offset,
        Attr::Length => ItemKind::Actual,
        Attr::Last => ItemKind::Actual,
        Attr::Switch => ItemKind::Tag,
    }
}

/// The number that an attribute states by the value of its variable.
pub fn stated_by(attr: Attr, value: i128) -> i128 {
    match attr {
        Attr::Max => value.saturating_add(1),
        _ => value,
    }
}
