// Members and parameters by their names.
ghost use Rattle.std.specs.Prelude.{◌≡◌, ◌<◌, ◌^◌, ◌++◌, [], ◌∷◌, List, length, map, OnOk, IfOk};
ghost use Rattle.idl_rule_definitions.specs.Nodes as rules;
ghost use Rattle.idl_constructs.specs.SeenNodes.{seen_declared};
ghost use Rattle.idl_interface.specs.Made.{AreListed};

use idl_constructs::nodes::Declared;
use idl_scope::Table;
use nd_base::Memory;
use std::alloc::Global;

/// An index as a variable has it.
fn narrow(index: usize) -> u32
    requires { index < 2 ^ 32 }
    ensures { result ≡ index }
{
    let Ok(index) = u32::try_from(index) else {
        unreachable!();
    };
    index
}

/// Gives a name its index, where it has none.
fn put(table: &mut Table<u32>, name: &[u8], index: usize) -> Result<(), Memory>
    requires { index < 2 ^ 32 }
    ensures { (before : List rules.Declared) (d : rules.Declared) → AreListed before table.old → length before ≡ index
        → d.declarator.name.octets ≡ name.now
        → OnOk result (AreListed (before ++ d ∷ []) table.new) }
{
    if table.get(name).is_some() {
        return Ok(());
    }
    table.put(name, narrow(index))
}

/// The index of each member or parameter of a list, by its name. Takes memory for them.
pub(crate) fn indexes(alloc: Global, list: &[Declared<'_>]) -> Result<Table<u32>, Memory>
    requires { length list.now < 2 ^ 32 }
    ensures { IfOk result (λ t. AreListed (map seen_declared list.now) t) }
{
    let mut table = Table::new(alloc);
    for index in 0..list.len() {
        let declarator = list[index].declarator;
        put(&mut table, declarator.name.as_slice(), index)?;
    }
    Ok(table)
}
