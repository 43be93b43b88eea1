// Resources, and a store of them.
use ctx_store::{
    FileResource, MemResource, OpenFault, Resource, ResourceFailed, Store, Unknown, UseFault,
};
use std::fs;
use std::test::Fail;
use uuid::Uuid;

#[test]
fn resources_in_memory_fail_at_listed_calls(rt: HostRuntime) -> Result<(), Fail> {
    let mut resource = MemResource::new(rt.alloc(), 4, &[2, 4])?;
    assert_eq!(rt; resource.apply(b"hi"), Ok(()));
    assert_eq!(rt; resource.apply(b""), Err(ResourceFailed));
    assert_eq!(rt; resource.apply(b"hi"), Err(ResourceFailed));
    assert_eq!(rt; resource.end(), Err(ResourceFailed));
    assert!(rt; resource.ended());
    assert!(rt; resource.lines() == Some(b"hi\n".as_slice()));
    Ok(())
}

#[test]
fn files_are_appended_to(rt: HostRuntime) -> Result<(), Fail> {
    fs::write(&rt, "test_base_file_resource.tmp", b"1\n")?;
    let name = String::from_str(rt.alloc(), "test_base_file_resource.tmp")?;
    let mut resource = FileResource::new(rt, name);
    assert_eq!(rt; resource.apply(b"2"), Ok(()));
    assert_eq!(rt; resource.apply(b""), Ok(()));
    assert_eq!(rt; resource.end(), Ok(()));
    assert!(rt; resource.lines() == None);
    let octets = fs::read(&rt, "test_base_file_resource.tmp")?;
    assert_eq!(rt; octets.as_slice(), b"1\n2\n\n".as_slice());
    fs::remove_file(&rt, "test_base_file_resource.tmp")?;
    Ok(())
}

#[test]
fn resources_are_opened_used_and_ended(rt: HostRuntime) -> Result<(), Fail> {
    let mut store = Store::new(rt.alloc());
    store.reserve(2)?;
    let first = Box::new(rt.alloc(), MemResource::new(rt.alloc(), 8, &[2])?)?;
    assert!(rt; store.open(7, Uuid::from_u128(1), first).is_ok());
    let second = Box::new(rt.alloc(), MemResource::new(rt.alloc(), 8, &[])?)?;
    assert!(rt; store.fault_of(Uuid::from_u128(1)) == Some(OpenFault::Twice));
    assert!(rt; store.open(7, Uuid::from_u128(1), second).is_err());
    assert_eq!(rt; store.apply(Uuid::from_u128(1), b"hi"), Ok(()));
    assert_eq!(rt;
        store.apply(Uuid::from_u128(1), b"hi"),
        Err(UseFault::Failed)
    );
    assert_eq!(rt; store.first_client(), Some(7));
    assert!(rt; store.close(Uuid::from_u128(2)).is_err());
    Ok(())
}

#[test]
fn what_is_ended_is_handed_out(rt: HostRuntime) -> Result<(), Fail> {
    let mut store = Store::new(rt.alloc());
    store.reserve(2)?;
    let first = Box::new(rt.alloc(), MemResource::new(rt.alloc(), 8, &[1])?)?;
    assert!(rt; store.open(7, Uuid::from_u128(1), first).is_ok());
    let second = Box::new(rt.alloc(), MemResource::new(rt.alloc(), 8, &[])?)?;
    assert!(rt; store.open(8, Uuid::from_u128(2), second).is_ok());
    match store.close(Uuid::from_u128(1)) {
        Ok(spent) => assert!(rt; spent.failed && spent.resource.ended()),
        Err(Unknown) => assert!(rt; false),
    }
    assert!(rt; store.run_down(7).is_none());
    assert!(rt; store.run_down(8).is_some());
    assert_eq!(rt; store.first_client(), None);
    Ok(())
}
