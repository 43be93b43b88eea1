// Texts are read with ample memory, one of each version, and one is refused.
ghost use Rattle.std.specs.Prelude.{◌<◌, length};

use crate::fits::interface;
use nd_types::{Interface, Side};
use nd_value::{Graph, Val};
use std::alloc::Global;
use std::test::Fail;
use text_grammar::{TextFault, TextReason};
use text_parser::read_text;

fn number_at(graph: &Graph, at: usize) -> Option<i128> {
    match graph.roots.get(at) {
        Some(Val::Num(value)) => Some(*value),
        _ => None,
    }
}

// Where a text is refused, and why.
fn fault(alloc: Global, interface: &Interface, text: &[u8]) -> Option<(u32, u32, TextReason)>
    requires { 0 < length interface.now.operations }
{
    match read_text(alloc, interface, 0, Side::In, text) {
        Err(
            TextFault::At {
                line,
                column,
                reason,
            },
        ) => Some((line, column, reason)),
        _ => None,
    }
}

#[test]
fn numbers_are_read(rt: HostRuntime) -> Result<(), Fail> {
    let interface = interface(rt.alloc())?;
    let two = b"values 2\nop add in\na = 1\nb = -2\nc = 3\n";
    let graph = read_text(rt.alloc(), &interface, 0, Side::In, two)?;
    assert_eq!(rt; number_at(&graph, 0), Some(1));
    assert_eq!(rt; number_at(&graph, 1), Some(-2));
    assert_eq!(rt; number_at(&graph, 2), Some(3));
    let one = b"values 1 op add in a=4 b=5 c=-6";
    let graph = read_text(rt.alloc(), &interface, 0, Side::In, one)?;
    assert_eq!(rt; number_at(&graph, 2), Some(-6));
    let wrong = b"values 2\nop add in\na = 1\nc = 3\n";
    assert_eq!(rt;
        fault(rt.alloc(), &interface, wrong),
        Some((4, 1, TextReason::OtherName))
    );
    Ok(())
}
