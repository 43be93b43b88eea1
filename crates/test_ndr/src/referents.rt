// Each call once with ample memory.
use nd_types::TypeId;
use nd_value::CellId;
use ndr_refs::{RefFault, Referents};
use std::test::Fail;

// void f([in, ptr] long *a, [in, ptr] short *b), where both pointers have the number 1, which is that of the long.
#[test]
fn a_number_is_of_one_type(rt: HostRuntime) -> Result<(), Fail> {
    let mut referents = Referents::new(rt.alloc());
    assert_eq!(rt; referents.len(), 0);
    let first = referents.meet(1, TypeId(7), CellId(1));
    assert!(rt; matches!(first, Ok(CellId(1))));
    let other = referents.meet(1, TypeId(5), CellId(2));
    assert!(rt;
        matches!(
            other,
            Err(RefFault::OtherType {
                first: TypeId(7),
                second: TypeId(5),
            })
        )
    );
    let again = referents.meet(1, TypeId(7), CellId(2));
    assert!(rt; matches!(again, Ok(CellId(1))));
    assert_eq!(rt; referents.len(), 1);
    Ok(())
}

// The referent of a number has its turn once.
#[test]
fn a_number_has_one_first_turn(rt: HostRuntime) -> Result<(), Fail> {
    let mut referents = Referents::new(rt.alloc());
    match referents.meet(1, TypeId(7), CellId(1)) {
        Ok(cell) => {
            let first = referents.turn(1);
            let later = referents.turn(1);
            assert_eq!(rt; cell, CellId(1));
            assert!(rt; first);
            assert!(rt; !later);
        }
        Err(_) => assert!(rt; false),
    }
    Ok(())
}
