// A stream is explained with ample memory.
use crate::fits::{fit, interface};
use nd_base::{Steps, Uncounted};
use nd_value::{Home, Item, ItemKind, ItemLog};
use ndr_explain::explain;
use std::test::Fail;

// An item of a root.
fn item(at: u32, len: u32, kind: ItemKind, root: u32, value: i128) -> Item {
    Item {
        at,
        len,
        kind,
        home: Home::Root(root),
        node: 0,
        value,
    }
}

#[test]
fn a_stream_is_explained(rt: HostRuntime) -> Result<(), Fail> {
    let interface = interface(rt.alloc())?;
    let fit = fit(rt.alloc(), &interface)?;
    let mut items = ItemLog::keeping(rt.alloc());
    let mut steps = Steps::new(Uncounted::new());
    items.note(item(0, 4, ItemKind::Num, 0, 1), &mut steps)?;
    items.note(item(4, 2, ItemKind::Num, 1, 2), &mut steps)?;
    items.note(item(6, 2, ItemKind::Gap, 2, 0), &mut steps)?;
    items.note(item(8, 8, ItemKind::Num, 2, 3), &mut steps)?;
    let text = explain(rt.alloc(), &interface, &fit, &items)?;
    assert_eq!(rt;
        text.as_slice(),
        b"0 4 num a 1\n4 2 num b 2\n6 2 gap\n8 8 num c 3\n".as_slice()
    );
    Ok(())
}
