// An interface without operations, for its tie.
use nd_base::{Memory, Name};
use nd_types::{Interface, Operations, Tie, Types};
use std::alloc::Global;

#[tactic(auto, using(crate::proofs::BasicLegal::legal))]
fn interface(alloc: Global) -> Result<Interface, Memory> {
    let types = Types::basic(alloc)?;
    let layouts = types.layouts(alloc)?;
    let name = Name::copy(alloc, b"t")?;
    let operations = Operations::new(alloc);
    Ok(Interface {
        name,
        uuid: None,
        major: 0,
        minor: 0,
        types,
        layouts,
        operations,
    })
}

/// The tie to such an interface.
pub(crate) fn tie(alloc: Global) -> Result<Tie, Memory> {
    let interface = interface(alloc)?;
    Ok(interface.tie())
}
