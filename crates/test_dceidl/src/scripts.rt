// Scripts over resources in memory.
use ctx_session::{SessionFault, StockOf, run_script};
use ctx_store::{MemResource, Resource};
use std::test::Fail;

#[test]
fn resources_are_opened_used_and_ended(rt: HostRuntime) -> Result<(), Fail> {
    let mut stock = StockOf::new(rt.alloc());
    assert!(rt; stock.push(MemResource::new(rt.alloc(), 8, &[])?).is_ok());
    assert!(rt; stock.push(MemResource::new(rt.alloc(), 8, &[])?).is_ok());
    let script = b"open 1 00112233-4455-6677-8899-aabbccddeeff\n\
open 1 00112233-4455-6677-8899-aabbccddeeff\n\
use 00112233-4455-6677-8899-aabbccddeeff hi\n\
down 1\n\
close 00112233-4455-6677-8899-AABBCCDDEEFF\n";
    match run_script(rt.alloc(), script.as_slice(), &mut stock) {
        Ok(out) => {
            assert_eq!(rt;
                out.as_slice(),
                b"ok\ntwice\nok\nended 1\nunknown\n".as_slice()
            )
        }
        Err(_) => assert!(rt; false),
    }
    match stock.spent(0) {
        Some(resource) => {
            assert!(rt; resource.ended() && resource.lines() == Some(b"hi\n".as_slice()))
        }
        None => assert!(rt; false),
    }
    assert!(rt; stock.spent(1).is_none() && stock.fresh(0).is_some() && stock.fresh(1).is_none());
    Ok(())
}

#[test]
fn failures_are_reported(rt: HostRuntime) -> Result<(), Fail> {
    let mut stock = StockOf::new(rt.alloc());
    assert!(rt;
        stock
            .push(MemResource::new(rt.alloc(), 8, &[1, 2])?)
            .is_ok()
    );
    let script = b"open 1 00000000-0000-0000-0000-000000000000\n\
open 1 00112233-4455-6677-8899-aabbccddeeff\n\
use 00112233-4455-6677-8899-aabbccddeeff a\n\
close 00112233-4455-6677-8899-aabbccddeeff\n\
open 1 00112233-4455-6677-8899-aabbccddeeff\n";
    match run_script(rt.alloc(), script.as_slice(), &mut stock) {
        Ok(out) => {
            assert_eq!(rt;
                out.as_slice(),
                b"null\nok\nfailed\nfailed\nnone\n".as_slice()
            )
        }
        Err(_) => assert!(rt; false),
    }
    Ok(())
}

#[test]
fn the_first_line_that_is_none_is_named(rt: HostRuntime) -> Result<(), Fail> {
    let mut stock = StockOf::new(rt.alloc());
    assert!(rt; stock.push(MemResource::new(rt.alloc(), 8, &[])?).is_ok());
    let script = b"down 0\nopen 01 00112233-4455-6677-8899-aabbccddeeff\n";
    match run_script(rt.alloc(), script.as_slice(), &mut stock) {
        Ok(_) => assert!(rt; false),
        Err(fault) => assert_eq!(rt; fault, SessionFault::BadLine(2)),
    }
    assert!(rt; stock.fresh(0).is_some());
    Ok(())
}
