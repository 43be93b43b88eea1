// The alignments of the basic types, and the plans of an interface without operations and of one with an enumerated type.
use crate::interface::interface;
use nd_types::{Side, TypeId};
use ndr_code::{EnumList, PlanLine};
use ndr_plan::{align_of, listing, make};
use std::test::Fail;

const IDL: &[u8] = b"[local] interface t { const long C = 1; }";

#[test]
fn basic_types_are_aligned(rt: HostRuntime) -> Result<(), Fail> {
    let interface = interface(rt.alloc(), IDL)?;
    let wanted: [u8; 12] = [1, 1, 1, 1, 1, 2, 2, 4, 4, 8, 8, 4];
    for (of, align) in wanted.iter().enumerate() {
        let of = of as u32;
        if (of as usize) < interface.types.len() {
            assert_eq!(rt; align_of(&interface, TypeId(of)), *align);
        }
    }
    Ok(())
}

// The plan of the basic types, with which each plan begins.
const BASIC: &[u8] = b"0 void\n1 ret\n2 num 0\n3 ret\n4 num 1\n5 ret\n6 num 2\n7 ret\n8 num 3\n\
    9 ret\n10 num 4\n11 ret\n12 align 2\n13 num 5\n14 ret\n15 align 2\n16 num 6\n17 ret\n\
    18 align 4\n19 num 7\n20 ret\n21 align 4\n22 num 8\n23 ret\n24 align 8\n25 num 9\n26 ret\n\
    27 align 8\n28 num 10\n29 ret\n30 align 4\n31 context\n32 ret\n";

#[test]
fn basic_types_are_planned(rt: HostRuntime) -> Result<(), Fail> {
    let interface = interface(rt.alloc(), IDL)?;
    let plan = make(rt.alloc(), &interface)?;
    assert_eq!(rt; plan.code.len(), 33);
    let text = listing(rt.alloc(), &plan)?;
    assert_eq!(rt; text.as_slice(), BASIC);
    Ok(())
}

const ENUMS: &[u8] = b"[local] interface t { typedef enum { A, B = 4 } e; void f([in] e x); }";

// Whether a line is where the run of a root of this name begins, in the request of the first operation.
fn is_entry(line: Option<&PlanLine>, name: &[u8]) -> bool {
    match line {
        Some(
            PlanLine::Entry {
                op,
                side,
                name: found,
                ..
            },
        ) => *op == 0 && *side == Side::In && found.as_slice() == name,
        _ => false,
    }
}

// Whether a list has the values of the first type of the interface's own, 0 and 4.
fn has_values(list: Option<&EnumList>) -> bool {
    match list {
        Some(list) => {
            list.of == TypeId(12)
                && list.values.len() == 2
                && list.values.get(0) == Some(&0)
                && list.values.get(1) == Some(&4)
        }
        None => false,
    }
}

#[test]
fn lists_of_a_plan_have_items(rt: HostRuntime) -> Result<(), Fail> {
    let interface = interface(rt.alloc(), ENUMS)?;
    let plan = make(rt.alloc(), &interface)?;
    assert!(rt; is_entry(plan.entries.get(0), b"x"));
    assert!(rt; plan.entries.get(plan.entries.len()).is_none());
    assert!(rt; has_values(plan.values.get(0)));
    assert!(rt; plan.values.get(1).is_none());
    Ok(())
}
