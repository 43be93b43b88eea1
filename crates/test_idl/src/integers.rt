// What the tree says of integer types.
use idl_grammar::{IntegerType, Width};
use std::rt::HostRuntime;
use std::test::Fail;

#[test]
fn integers_in_both_orders(rt: HostRuntime) -> Result<(), Fail> {
    let short = IntegerType::WidthFirst {
        width: Width::Short,
        unsigned: false,
        int: true,
    };
    let unsigned_long = IntegerType::WidthFirst {
        width: Width::Long,
        unsigned: true,
        int: false,
    };
    let unsigned_hyper = IntegerType::UnsignedFirst {
        width: Width::Hyper,
        int: true,
    };
    assert_eq!(rt; (short.width(), short.is_unsigned()), (Width::Short, false));
    assert_eq!(rt;
        (unsigned_long.width(), unsigned_long.is_unsigned()),
        (Width::Long, true)
    );
    assert_eq!(rt;
        (unsigned_hyper.width(), unsigned_hyper.is_unsigned()),
        (Width::Hyper, true)
    );
    Ok(())
}
