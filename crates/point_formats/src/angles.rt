//! Writes angles.

ghost use Rattle.std.specs.Prelude.{◌≡◌, ◌^◌, ◌≤◌};
ghost use Rattle.std.specs.Int.{w8, w16};
ghost use Rattle.exact_numbers.specs.Rounding.{half_away};
ghost use Rattle.point_formats.specs.Encoded.{angle_number};

use crate::EncodeFault;
use cloud_points::Dim;

/// The number of steps nearest to an angle, a half away from zero. It stays in 64 bits, where dividing is fast.
#[inline(always)]
fn steps(nano: i64, step: u64) -> i64
    requires low { 2 ≤ step }
    requires high { step ≤ 10 ^ 9 }
    ensures { result ≡ half_away nano step }
{
    if nano == 0 {
        return 0;
    }
    let size = (nano.unsigned_abs() + step / 2) / step;
    if nano < 0 {
        -(size as i64)
    } else {
        size as i64
    }
}

/// An angle in degrees.
#[tactic(auto, unfolding(crate::specs::Encoded::angle_number))]
pub(crate) fn degrees(nano: i64) -> Result<i8, EncodeFault>
    ensures { result ≡ angle_number w8 1_000_000_000 nano }
{
    match i8::try_from(steps(nano, 1_000_000_000)) {
        Ok(degrees) => Ok(degrees),
        Err(_) => Err(EncodeFault::ValueOutOfRange(Dim::ScanAngleRank)),
    }
}

/// An angle in steps of 0.006 degree.
#[tactic(auto, unfolding(crate::specs::Encoded::angle_number))]
pub(crate) fn angle_steps(nano: i64) -> Result<i16, EncodeFault>
    ensures { result ≡ angle_number w16 6_000_000 nano }
{
    match i16::try_from(steps(nano, 6_000_000)) {
        Ok(count) => Ok(count),
        Err(_) => Err(EncodeFault::ValueOutOfRange(Dim::ScanAngleRank)),
    }
}
