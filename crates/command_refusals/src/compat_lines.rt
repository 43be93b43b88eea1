// The line of an interface that is not compatible with an older one.
ghost use Rattle.std.specs.Prelude.{◌≡◌, [], ◌∷◌, codes, decimal, IfOk};
ghost use Rattle.nd_base.specs.Text.{joined};
ghost use Rattle.command_refusals.specs.declared.refusal.Refusal.TheVariants.{NotCompatible};
ghost use Rattle.command_refusals.specs.Lines.{line_of, compat_fault_text, two_numbers as two_numbers_text};

use crate::refusal::CompatFault;
use itoa::Buffer;
use nd_base::text::join;
use nd_base::{Memory, Octets};
use std::alloc::Global;

// An interface that is not compatible with an older one.
pub(crate) fn compat_line(alloc: Global, fault: &CompatFault) -> Result<Octets, Memory>
    ensures { IfOk result (λ line. line ≡ line_of [] [] (NotCompatible fault.now)) }
{
    let why = why_not_compatible(alloc, fault)?;
    join(alloc, &[b"refused: compat: ", why.as_slice(), b"\n"])
}

// Why an interface is not compatible, as a line reports it.
fn why_not_compatible(alloc: Global, fault: &CompatFault) -> Result<Octets, Memory>
    ensures { IfOk result (λ text. text ≡ compat_fault_text fault.now) }
{
    match fault {
        CompatFault::OtherUuid => Octets::copy(alloc, b"OtherUuid"),
        CompatFault::OtherMajor { old, new } => {
            two_numbers(alloc, b"OtherMajor ", u32::from(*old), u32::from(*new))
        }
        CompatFault::OlderMinor { old, new } => {
            two_numbers(alloc, b"OlderMinor ", u32::from(*old), u32::from(*new))
        }
        CompatFault::Fewer { old, new } => two_numbers(alloc, b"Fewer ", *old, *new),
        CompatFault::Differs { name } => join(alloc, &[b"Differs ", name.as_slice()]),
    }
}

// A reason with its two numbers.
fn two_numbers(alloc: Global, what: &[u8], old: u32, new: u32) -> Result<Octets, Memory>
    ensures { IfOk result (λ text. text ≡ two_numbers_text what.now old new) }
{
    let mut old_digits = Buffer::new();
    let old = old_digits.format(old).as_bytes();
    let mut new_digits = Buffer::new();
    let new = new_digits.format(new).as_bytes();
    join(alloc, &[what, old, b" ", new])
}
