// The octets are those of C706 sections 14.1 and 14.2, spelled by hand.
use nd_base::Order;
use nd_types::Prim;
use ndr_prim::{
    LabelFault, read_context, read_label, read_num, width_of, write_context, write_num,
};
use uuid::Uuid;

#[test]
fn numbers_are_written_and_read(rt: HostRuntime) {
    let mut octets = [0u8; 4];
    assert_eq!(rt; width_of(Prim::Long), 4);
    write_num(Order::Little, Prim::Long, -2, &mut octets);
    assert_eq!(rt; octets, [0xfe, 0xff, 0xff, 0xff]);
    write_num(Order::Big, Prim::Long, 16_909_060, &mut octets);
    assert_eq!(rt; octets, [1, 2, 3, 4]);
    assert_eq!(rt; read_num(Order::Big, Prim::Long, &octets), 16_909_060);
    assert_eq!(rt; read_num(Order::Little, Prim::Short, &[2, 0]), 2);
    assert_eq!(rt; read_num(Order::Little, Prim::Boolean, &[0xff]), 1);
}

#[test]
fn labels(rt: HostRuntime) {
    assert_eq!(rt; read_label(&[0x00, 0, 0, 0]), Ok(Order::Big));
    assert_eq!(rt; read_label(&[0x10, 0, 0, 0]), Ok(Order::Little));
    assert_eq!(rt; read_label(&[0x10, 1, 2, 3]), Ok(Order::Little));
    assert_eq!(rt; read_label(&[0x11, 0, 0, 0]), Err(LabelFault::Ebcdic));
    assert_eq!(rt; read_label(&[0x12, 0, 0, 0]), Err(LabelFault::BadCharset));
    assert_eq!(rt; read_label(&[0x20, 0, 0, 0]), Err(LabelFault::BadOrder));
    assert_eq!(rt; read_label(&[0x21, 0, 0, 0]), Err(LabelFault::BadOrder));
}

#[test]
fn context_handles_are_written_and_read(rt: HostRuntime) {
    let id = Uuid::from_u128(0x0011_2233_4455_6677_8899_aabb_ccdd_eeff);
    let mut octets = [0u8; 20];
    write_context(Order::Little, 1, id, &mut octets);
    let little = [
        1, 0, 0, 0, 0x33, 0x22, 0x11, 0, 0x55, 0x44, 0x77, 0x66, 0x88, 0x99, 0xaa, 0xbb, 0xcc,
        0xdd, 0xee, 0xff,
    ];
    assert_eq!(rt; octets, little);
    let handle = read_context(Order::Little, &octets);
    assert!(rt; handle.0 == 1 && handle.1 == id);
}
