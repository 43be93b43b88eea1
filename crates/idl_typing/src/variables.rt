// The variables that attributes name: members or parameters of the same list (C706, sections 4.2.17 to 4.2.19).
ghost use Rattle.std.specs.Prelude.{◌≡◌, ℕ, true, List, [], ◌∷◌, ◌++◌, map, option_map, length, slice_get, IfOk};
ghost use Rattle.std.specs.List.{list_any};
ghost use Rattle.idl_grammar.specs.Seen.{seen_kind};
ghost use Rattle.idl_scope.specs.Known.{found, Known};
ghost use Rattle.idl_rule_definitions.specs.Attributes.{switch_is_word, sizes, lengths, variable_said};
ghost use Rattle.idl_scope.specs.Seen.{known_in};
ghost use Rattle.idl_rule_definitions.specs.Scene.{use_of};
ghost use Rattle.idl_rule_definitions.specs.Types.{IdlType, Names, type_of};
ghost use Rattle.idl_rule_definitions.specs.VariableRules as rules;
ghost use Rattle.idl_rule_definitions.specs.VariableRules.{listed_from, variable_if, passes, has_no_variable, has_wrong_variable};
ghost use Rattle.idl_rule_definitions.specs.DeclarationRules as parameter_rule;
ghost use Rattle.nd_types.specs.Kinds.{is_integer_prim};
ghost use Rattle.idl_declared_types.specs.Kinds.{type_by, type_at, Keeps};
ghost use Rattle.idl_typing.specs.Lookups.{found_at, AreTables, no_other, wanted_test, passes_it, fails_in};
ghost use Rattle.idl_declared_types.specs.SeenNames.{seen_names, are_within};
ghost use Rattle.idl_constructs.specs.SeenNodes.{seen_position, seen_declared, list_at};
ghost use Rattle.idl_declared_types.specs.SeenTypes.{bare, has_wrong_switch_variable};

use crate::types::{note_declared, put_first};
use idl_constructs::nodes::{Declared, Nodes, Position};
use idl_declared_types::kinds::{Class, Kind, Kinds};
use idl_grammar::{Attribute, AttributeKind, Variable, VariableWord};
use idl_scope::{Scope, Table};
use nd_base::Memory;
use nd_types::Primitive;
use std::alloc::Global;

/// Where a declarator stands: the number of its list, and its place there.
#[derive(Clone, Copy, Debug)]
pub struct Slot {
    pub list: usize,
    pub index: usize,
}

/// What the variable of an attribute has to be.
#[derive(Clone, Copy, Debug, PartialEq, Eq)]
enum Wanted {
    Integer,
    /// An integer, char, boolean or enumerated type.
    Switch,
}

/// The place of a name in a list.
fn look_up(tables: &[Table<usize>], list: usize, name: &[u8]) -> Option<usize>
    ensures { result ≡ found_at tables.now list name.now }
{
    match tables.get(list) {
        Some(table) => table.get(name),
        None => None,
    }
}

/// The places of the names of a list; of a name that stands twice the first.
fn table_of(alloc: Global, list: &[Declared]) -> Result<Table<usize>, Memory>
    ensures { IfOk result (λ t. (name : List ℕ) → found name t ≡ option_map (λ l. l.index) (listed_from 0 (map seen_declared list.now) name)) }
{
    let mut table = Table::new(alloc);
    for index in 0..list.len() {
        let declarator = list[index].declarator;
        put_first(&mut table, &declarator.name, index)?;
    }
    Ok(table)
}

/// The places of the names of all lists. Takes memory for each name.
pub(crate) fn tables(alloc: Global, nodes: &Nodes) -> Result<Vec<Table<usize>>, Memory>
    ensures { IfOk result (λ v. AreTables v.items nodes.now.lists.items) }
{
    let mut tables = Vec::new(alloc);
    for list in &nodes.lists {
        let table = table_of(alloc, list)?;
        let Ok(()) = tables.push(table) else {
            return Err(Memory);
        };
    }
    Ok(tables)
}

/// Whether a variable is no other member or parameter of the same list.
fn is_no_other(nodes: &Nodes, tables: &[Table<usize>], slot: Slot, variable: &Variable) -> bool
    requires { AreTables tables.now nodes.now.lists.items }
    ensures { result ≡ no_other (list_at nodes.now.lists.items slot.list) slot.index variable.now }
{
    match look_up(tables, slot.list, variable.name.as_slice()) {
        Some(place) => place == slot.index,
        None => true,
    }
}

/// Whether an attribute's variable is no other member or parameter of the same list.
fn says_no_other(nodes: &Nodes, tables: &[Table<usize>], slot: Slot, attribute: &Attribute) -> bool
    requires { AreTables tables.now nodes.now.lists.items }
    ensures { result
        ≡ list_any (no_other (list_at nodes.now.lists.items slot.list) slot.index)
        (variable_if (switch_is_word ∷ sizes ++ lengths) (variable_said (seen_kind attribute.now.kind))) }
{
    match &attribute.kind {
        AttributeKind::Of(_, variable) => is_no_other(nodes, tables, slot, variable),
        _ => false,
    }
}

/// Whether a variable of a declarator's attributes is no other member or parameter of the same list.
pub(crate) fn has_no_variable(
    nodes: &Nodes,
    tables: &[Table<usize>],
    slot: Slot,
    it: &Declared,
) -> bool
    requires { AreTables tables.now nodes.now.lists.items }
    ensures { (known : Known) (names : Names)
        → result ≡ has_no_variable (use_of known names (list_at nodes.now.lists.items slot.list) slot.index (seen_declared it.now)) }
{
    for attribute in it.construct.attributes {
        if says_no_other(nodes, tables, slot, attribute) {
            return true;
        }
    }
    false
}

fn is_integer_primitive(primitive: Primitive) -> bool
    ensures { result ≡ is_integer_prim primitive }
{
    match primitive {
        Primitive::Boolean | Primitive::Char | Primitive::Byte => false,
        _ => true,
    }
}

/// Whether a type is small, short, long or hyper, signed or unsigned.
fn is_integer(kind: Kind) -> bool
    ensures { (ts : List IdlType) → result ≡ rules.is_integer (type_by ts kind) }
{
    match kind.primitive() {
        Some(primitive) => is_integer_primitive(primitive),
        None => false,
    }
}

/// Whether a type is what is wanted.
fn is_wanted(kinds: &Kinds, wanted: Wanted, of: usize) -> bool
    ensures { result ≡ wanted_test wanted (type_at kinds.now of) }
{
    let kind = kinds.kind(of);
    match wanted {
        Wanted::Integer => is_integer(kind),
        Wanted::Switch => kind.may_be_switched(),
    }
}

/// Whether what a reference pointer points to is what is wanted.
fn is_behind(kinds: &Kinds, wanted: Wanted, of: usize) -> bool
    ensures { result ≡ passes (wanted_test wanted) true true (type_at kinds.now of) }
{
    match kinds.kind(of) {
        Kind::Pointer {
            class: Class::Reference,
            to,
        } => is_wanted(kinds, wanted, to),
        _ => false,
    }
}

/// Whether a variable of a type is what is wanted: with `*` it is after a parameter that is a reference pointer.
fn is_passed(kinds: &Kinds, wanted: Wanted, parameter: bool, star: bool, of: usize) -> bool
    ensures { result ≡ passes (wanted_test wanted) parameter star (type_at kinds.now of) }
{
    match (star, parameter) {
        (false, _) => is_wanted(kinds, wanted, of),
        (true, true) => is_behind(kinds, wanted, of),
        (true, false) => false,
    }
}

fn is_parameter(position: Position) -> bool
    ensures { result ≡ parameter_rule.is_parameter (seen_position position) }
{
    match position {
        Position::Parameter => true,
        _ => false,
    }
}

/// Whether a member or parameter is what is wanted. None is with dimensions, or more than one star.
fn is_right(
    scope: &Scope,
    kinds: &mut Kinds,
    names: &Table<usize>,
    it: &Declared,
    star: bool,
    wanted: Wanted,
) -> Result<bool, Memory>
    requires { are_within (length kinds.old) names.now ≡ true }
    ensures right { IfOk result (λ b. b ≡ passes (wanted_test wanted) (parameter_rule.is_parameter (seen_declared it.now).construct.position) star
        (type_of (known_in scope.now) (seen_names kinds.old names.now) (seen_declared it.now))) }
    ensures keeps { Keeps kinds.old kinds.new }
{
    let dimensions = it.declarator.dimensions.as_slice();
    if !dimensions.is_empty() {
        return Ok(false);
    }
    let stars = it.declarator.stars.as_slice();
    if stars.len() > 1 {
        return Ok(false);
    }
    let noted = note_declared(scope, kinds, names, it)?;
    let parameter = is_parameter(it.construct.position);
    Ok(is_passed(kinds, wanted, parameter, star, noted.of))
}

fn item<'n, 't>(list: &'n [Declared<'t>], place: usize) -> Option<&'n Declared<'t>>
    ensures { option_map (λ d. seen_declared d.now) result ≡ slice_get (map seen_declared list.now) place }
{
    match list.get(place) {
        Some(declared) => Some(declared),
        None => None,
    }
}

/// The member or parameter of a name, in its list.
fn listed<'n, 't>(
    nodes: &'n Nodes<'t>,
    tables: &[Table<usize>],
    list: usize,
    name: &[u8],
) -> Option<&'n Declared<'t>>
    requires { AreTables tables.now nodes.now.lists.items }
    ensures { option_map (λ d. seen_declared d.now) result ≡ option_map (λ l. l.it) (listed_from 0 (list_at nodes.now.lists.items list) name.now) }
{
    let place = look_up(tables, list, name)?;
    let list = nodes.list(list)?;
    item(list, place)
}

/// Whether a variable, where its list has it, is what is wanted.
fn is_found_right(
    scope: &Scope,
    kinds: &mut Kinds,
    names: &Table<usize>,
    found: Option<&Declared>,
    star: bool,
    wanted: Wanted,
) -> Result<bool, Memory>
    requires { are_within (length kinds.old) names.now ≡ true }
    ensures right { IfOk result
        (λ b. b ≡ passes_it (known_in scope.now) (seen_names kinds.old names.now) (wanted_test wanted) star
        (option_map (λ d. seen_declared d.now) found.entry)) }
    ensures keeps { Keeps kinds.old kinds.new }
{
    match found {
        Some(it) => is_right(scope, kinds, names, it, star, wanted),
        None => Ok(true),
    }
}

/// Whether the variable of an attribute of one of five words, where its list has it, is of a wrong type.
fn says_wrong(
    scope: &Scope,
    kinds: &mut Kinds,
    names: &Table<usize>,
    nodes: &Nodes,
    tables: &[Table<usize>],
    list: usize,
    attribute: &Attribute,
) -> Result<bool, Memory>
    requires within { are_within (length kinds.old) names.now ≡ true }
    requires tables { AreTables tables.now nodes.now.lists.items }
    ensures wrong { IfOk result
        (λ b. b ≡ list_any (fails_in (known_in scope.now) (seen_names kinds.old names.now) rules.is_integer (list_at nodes.now.lists.items list))
        (variable_if (sizes ++ lengths) (variable_said (seen_kind attribute.now.kind)))) }
    ensures keeps { Keeps kinds.old kinds.new }
{
    match &attribute.kind {
        AttributeKind::Of(VariableWord::SwitchIs, _) => Ok(false),
        AttributeKind::Of(_, variable) => {
            let found = listed(nodes, tables, list, variable.name.as_slice());
            let right = is_found_right(scope, kinds, names, found, variable.star, Wanted::Integer)?;
            Ok(!right)
        }
        _ => Ok(false),
    }
}

/// Whether the variable of switch_is, where its list has it, is of a wrong type.
fn says_wrong_switch(
    scope: &Scope,
    kinds: &mut Kinds,
    names: &Table<usize>,
    nodes: &Nodes,
    tables: &[Table<usize>],
    list: usize,
    attribute: &Attribute,
) -> Result<bool, Memory>
    requires within { are_within (length kinds.old) names.now ≡ true }
    requires tables { AreTables tables.now nodes.now.lists.items }
    ensures wrong { IfOk result
        (λ b. b ≡ list_any (fails_in (known_in scope.now) (seen_names kinds.old names.now) rules.may_be_switched (list_at nodes.now.lists.items list))
        (variable_if (switch_is_word ∷ []) (variable_said (seen_kind attribute.now.kind)))) }
    ensures keeps { Keeps kinds.old kinds.new }
{
    match &attribute.kind {
        AttributeKind::Of(VariableWord::SwitchIs, variable) => {
            let found = listed(nodes, tables, list, variable.name.as_slice());
            let right = is_found_right(scope, kinds, names, found, variable.star, Wanted::Switch)?;
            Ok(!right)
        }
        _ => Ok(false),
    }
}

/// Whether a variable of size_is, max_is, first_is, length_is or last_is, where its list has it, is of a wrong type.
pub(crate) fn has_wrong_variable(
    scope: &Scope,
    kinds: &mut Kinds,
    names: &Table<usize>,
    nodes: &Nodes,
    tables: &[Table<usize>],
    slot: Slot,
    it: &Declared,
) -> Result<bool, Memory>
    requires within { are_within (length kinds.old) names.now ≡ true }
    requires tables { AreTables tables.now nodes.now.lists.items }
    ensures wrong { IfOk result
        (λ b. b ≡ has_wrong_variable (bare (known_in scope.now))
        (use_of (known_in scope.now) (seen_names kinds.old names.now) (list_at nodes.now.lists.items slot.list) slot.index (seen_declared it.now))) }
    ensures keeps { Keeps kinds.old kinds.new }
{
    for attribute in it.construct.attributes {
        if says_wrong(scope, kinds, names, nodes, tables, slot.list, attribute)? {
            return Ok(true);
        }
    }
    Ok(false)
}

/// Whether the variable of switch_is, where its list has it, is of a wrong type.
pub(crate) fn has_wrong_switch_variable(
    scope: &Scope,
    kinds: &mut Kinds,
    names: &Table<usize>,
    nodes: &Nodes,
    tables: &[Table<usize>],
    slot: Slot,
    it: &Declared,
) -> Result<bool, Memory>
    requires within { are_within (length kinds.old) names.now ≡ true }
    requires tables { AreTables tables.now nodes.now.lists.items }
    ensures wrong { IfOk result
        (λ b. b ≡ has_wrong_switch_variable (bare (known_in scope.now))
        (use_of (known_in scope.now) (seen_names kinds.old names.now) (list_at nodes.now.lists.items slot.list) slot.index (seen_declared it.now))) }
    ensures keeps { Keeps kinds.old kinds.new }
{
    for attribute in it.construct.attributes {
        if says_wrong_switch(scope, kinds, names, nodes, tables, slot.list, attribute)? {
            return Ok(true);
        }
    }
    Ok(false)
}
