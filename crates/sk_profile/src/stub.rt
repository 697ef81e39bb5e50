//! The numbers of which runc says by itself that no call has them, before the filter is asked.
ghost use Rattle.std.specs.Prelude.{◌≡◌};
ghost use Rattle.sk_profile.specs.Profiles.{has_x32_bit, is_above, is_unknown};
ghost use Rattle.sk_profile.specs.Views.{part_of};

use crate::profile::Part;

/// ERRNO with ENOSYS: there is no such call.
pub(crate) const NO_CALL: u32 = 0x0005_0026;

/// Whether runc answers the number.
pub(crate) fn is_unknown(part: &Part, nr: u32) -> bool
    ensures unknown { result ≡ is_unknown (part_of part.now) nr }
{
    if has_x32_bit(nr) {
        is_above(part.x32_top, nr)
    } else {
        is_above(part.top, nr)
    }
}

fn is_above(top: u32, nr: u32) -> bool
    ensures above { result ≡ is_above top nr }
{
    0 < top && top < nr
}

fn has_x32_bit(nr: u32) -> bool
    ensures bit { result ≡ has_x32_bit nr }
{
    nr / 0x4000_0000 % 2 == 1
}
