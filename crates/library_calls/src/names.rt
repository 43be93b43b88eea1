// The names that belong to a refusal.
ghost use Rattle.std.specs.Prelude.{◌≡◌};
ghost use Rattle.library_calls.specs.Names.{file_of, name_of};

use command_refusals::{CompatFault, IdlReason, Refusal};

/// The name of the file that is refused or absent; no octets if it has none. Takes no memory.
pub fn file(refusal: &Refusal) -> &[u8]
    ensures { result.now ≡ file_of refusal.now }
{
    match refusal {
        Refusal::Absent { file } => file.as_slice(),
        Refusal::BadIdl { file, .. } => file.as_slice(),
        _ => &[],
    }
}

/// The word that is left out, the name that is unknown or declared twice, the path of the value that is refused, or the name of the operation that
/// differs; no octets if it has none of these. Takes no memory.
pub fn name(refusal: &Refusal) -> &[u8]
    ensures { result.now ≡ name_of refusal.now }
{
    match refusal {
        Refusal::BadIdl {
            reason: IdlReason::Banned { word },
            ..
        } => word.as_slice(),
        Refusal::BadIdl {
            reason: IdlReason::Unknown { name },
            ..
        } => name.as_slice(),
        Refusal::BadIdl {
            reason: IdlReason::Twice { name },
            ..
        } => name.as_slice(),
        Refusal::BadValue { path, .. } => path.as_slice(),
        Refusal::NotCompatible(CompatFault::Differs { name }) => name.as_slice(),
        _ => &[],
    }
}
