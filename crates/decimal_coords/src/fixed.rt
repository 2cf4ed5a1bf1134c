ghost use Rattle.std.specs.Prelude.{◌≡◌, ℕ, ◌+◌, ◌-◌, ◌*◌, ◌/◌, ◌^◌, ◌<◌, ◌≤◌, ◌++◌, length, decimal, unsigned_abs};
ghost use Rattle.arrayvec.specs.ArrayString.{array_string_len};
ghost use Rattle.decimal_coords.specs.Fixed.{fixed_text, places_text};

use crate::powers::{split, zeros};
use arrayvec::ArrayString;
use exact_numbers::power_of_ten;
use itoa::Buffer;

/// Appends `n`, in 64 bits where it has no more.
fn push_whole(n: u128, out: &mut ArrayString<48>)
    requires small { n < 10 ^ 30 }
    requires room { array_string_len out.old ≤ 1 }
    ensures bytes { out.new.bytes ≡ out.old.bytes ++ decimal n }
    ensures len { array_string_len out.new ≤ 31 }
{
    let mut buffer = Buffer::new();
    if let Ok(n) = u64::try_from(n) {
        out.push_str(buffer.format(n));
    } else {
        out.push_str(buffer.format(n));
    }
}

/// Appends `n / 10^places`.
fn push_places(n: u128, places: u32, out: &mut ArrayString<48>)
    requires places { places ≤ 9 }
    requires small { n / 10 ^ places < 10 ^ 30 }
    requires room { array_string_len out.old ≤ 1 }
    ensures { out.new.bytes ≡ out.old.bytes ++ places_text places n }
{
    if places == 0 {
        push_whole(n, out);
        return;
    }
    let parts = split(n, places);
    push_whole(parts.quotient, out);
    out.push_str(".");
    let mut buffer = Buffer::new();
    let part = buffer.format(parts.rest);
    out.push_str(zeros(places as usize - part.len()));
    out.push_str(part);
}

/// Puts the text of `nano` nanounits in place of `out`'s, rounded half away from zero to `places`
/// digits after the point, at most 9. With 0 places there is no point. A minus sign stands exactly
/// where the rounded number is below 0. The text of a number of 64 bits has at most 21 bytes.
pub fn print_fixed(nano: i128, places: u32, out: &mut ArrayString<48>)
    requires { places ≤ 9 }
    ensures text { out.new.bytes ≡ fixed_text nano places }
    ensures short { unsigned_abs nano ≤ 2 ^ 63 → length out.new.bytes ≤ 21 }
{
    let unit = power_of_ten(9 - places);
    let rounded = split(nano.unsigned_abs() + (unit / 2) as u128, 9 - places).quotient;
    out.clear();
    if nano < 0 && rounded > 0 {
        out.push_str("-");
    }
    push_places(rounded, places, out);
}
