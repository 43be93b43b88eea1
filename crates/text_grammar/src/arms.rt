// Arms of unions.
ghost use Rattle.std.specs.Prelude.{◌≡◌, option_copied};
ghost use Rattle.nd_types.specs.Table.{selected};

use nd_types::{Arm, Arms};

/// The arm of a union that a tag selects: the one with that label, or the default, if any. It takes no memory, and time in proportion to
/// the arms.
pub fn selected<'a>(arms: &'a Arms, default: &'a Option<Arm>, tag: i128) -> Option<&'a Arm>
    ensures { option_copied result ≡ selected arms.now default.now tag }
{
    for at in 0..arms.len() {
        let Some(arm) = arms.get(at) else {
            unreachable!()
        };
        if arm.label == tag {
            return Some(arm);
        }
    }
    default.as_ref()
}
