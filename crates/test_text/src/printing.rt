// Values are printed with ample memory.
use crate::fits::{fit, interface};
use nd_types::TypeId;
use nd_value::Val;
use std::test::Fail;
use text_printer::{print, print_value, quoted};

#[test]
fn a_graph_is_printed(rt: HostRuntime) -> Result<(), Fail> {
    let interface = interface(rt.alloc())?;
    let fit = fit(rt.alloc(), &interface)?;
    let text = print(rt.alloc(), &interface, &fit)?;
    assert_eq!(rt;
        text.as_slice(),
        b"values 2\nop add in\na = 1\nb = 2\nc = 3\n".as_slice()
    );
    Ok(())
}

#[test]
fn a_value_is_printed(rt: HostRuntime) -> Result<(), Fail> {
    let interface = interface(rt.alloc())?;
    let text = print_value(rt.alloc(), &interface, TypeId(7), &Val::Num(-7))?;
    assert_eq!(rt; text.as_slice(), b"-7".as_slice());
    Ok(())
}

#[test]
fn a_string_is_quoted(rt: HostRuntime) -> Result<(), Fail> {
    let text = quoted(rt.alloc(), b"etc\"\\\x00\xff")?;
    assert_eq!(rt; text.as_slice(), b"\"etc\\\"\\\\\\x00\\xff\"".as_slice());
    Ok(())
}
