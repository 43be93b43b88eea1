// Each call once with ample memory.
use nd_base::{Counted, Steps};
use nd_types::TypeId;
use nd_value::{ArmVal, Cell, CellId, Cells, Home, Item, ItemKind, ItemLog, Val, Vals};
use std::test::Fail;

fn is_number(val: Option<&Val>, number: i128) -> bool {
    matches!(val, Some(Val::Num(value)) if *value == number)
}

// p = @1, @1 = {v = 7, next = @1}: a node that points to itself.
#[test]
fn cells_are_kept(rt: HostRuntime) -> Result<(), Fail> {
    let alloc = rt.alloc();
    let mut members = Vals::new(alloc);
    assert!(rt; members.push(Val::Num(7)).is_ok());
    assert!(rt; members.push(Val::Ptr(Some(CellId(1)))).is_ok());
    let mut cells = Cells::new(alloc);
    let node = Cell {
        of: TypeId(12),
        val: Val::Rec(members),
    };
    assert!(rt; cells.push(node).is_ok());
    assert_eq!(rt; cells.len(), 1);
    assert!(rt; cells.get(1).is_none());
    let node = cells.get(0).ok_or("node")?;
    assert_eq!(rt; node.of, TypeId(12));
    match &node.val {
        Val::Rec(members) => {
            assert!(rt; is_number(members.get(0), 7));
            assert!(rt; matches!(members.get(1), Some(Val::Ptr(Some(CellId(1))))));
        }
        _ => assert!(rt; false),
    }
    Ok(())
}

// 9:1 and 9:void, unions whose tag is 9.
#[test]
fn arms_are_kept(rt: HostRuntime) -> Result<(), Fail> {
    let arm = ArmVal::of(Box::new(rt.alloc(), Val::Num(1))?);
    assert!(rt; is_number(arm.get(), 1));
    assert!(rt; ArmVal::none().get().is_none());
    Ok(())
}

// A number of 7 in four octets after a gap of two.
fn item(kind: ItemKind, at: u32, len: u32, value: i128) -> Item {
    Item {
        at,
        len,
        kind,
        home: Home::Root(0),
        node: 0,
        value,
    }
}

#[test]
fn items_are_kept(rt: HostRuntime) -> Result<(), Fail> {
    let mut log = ItemLog::keeping(rt.alloc());
    let mut steps = Steps::new(Counted::new());
    log.note(item(ItemKind::Gap, 2, 2, 0), &mut steps)?;
    log.note(item(ItemKind::Num, 4, 4, 7), &mut steps)?;
    assert_eq!(rt; log.len(), 2);
    let kept = log.get(1).ok_or("item")?;
    assert!(rt; kept.kind == ItemKind::Num && kept.at == 4 && kept.value == 7);
    assert_eq!(rt; steps.ledger().count(), 1);
    let mut quiet = ItemLog::quiet();
    quiet.note(item(ItemKind::Num, 4, 4, 7), &mut steps)?;
    assert_eq!(rt; quiet.len(), 0);
    assert_eq!(rt; steps.ledger().count(), 2);
    Ok(())
}
