// What an interface has: operations by name, roots in order, layouts.
use crate::two_types::interface;
use nd_types::{Interface, Side, TypeId};
use std::test::Fail;

// Whether the inputs of the second operation are its parameters in order, and it has no outputs.
fn has_roots(interface: &Interface) -> bool {
    if interface.operations.len() != 2 {
        return false;
    }
    let wanted: [(&[u8], u32); 2] = [(b"which", 3), (b"more", 5)];
    let mut walk = interface.params(1, Side::In);
    for (at, (name, of)) in wanted.iter().enumerate() {
        let Some(root) = walk.next() else {
            return false;
        };
        if root.name != *name || root.of.0 != *of || root.param != Some(at as u32) || root.pipe {
            return false;
        }
    }
    walk.next().is_none() && interface.params(1, Side::Out).next().is_none()
}

#[test]
fn walks_the_roots(rt: HostRuntime) -> Result<(), Fail> {
    let interface = interface(rt.alloc())?;
    assert_eq!(rt; interface.operation("put"), Some(0));
    assert_eq!(rt; interface.operation("take"), Some(1));
    assert_eq!(rt; interface.operation("give"), None);
    assert!(rt; has_roots(&interface));
    let tie = interface.tie();
    let _other = tie.again();
    Ok(())
}

// Whether the interface has the basic types and their layouts.
fn has_layouts(interface: &Interface) -> bool {
    interface.types.len() == 12 && interface.align(TypeId(9)) == 8 && !interface.hoists(TypeId(9))
}

#[test]
fn a_copy_has_the_layouts(rt: HostRuntime) -> Result<(), Fail> {
    let copy = interface(rt.alloc())?.copy(rt.alloc())?;
    assert_eq!(rt; copy.name.as_slice(), b"two".as_slice());
    assert_eq!(rt; copy.operation("take"), Some(1));
    assert!(rt; has_layouts(&copy));
    Ok(())
}
