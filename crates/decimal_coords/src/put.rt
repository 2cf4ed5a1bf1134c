ghost use Rattle.std.specs.Prelude.{◌≡◌, ℕ, ◌+◌, ◌-◌, ◌*◌, ◌/◌, ◌%◌, ◌^◌, ◌<◌, ◌≤◌, ◌∷◌, ◌++◌, length, take, drop, slice_range, decimal, unsigned_abs};
ghost use Rattle.decimal_coords.specs.Fixed.{fixed_text, padded_digits, places_text};

use crate::powers::divided;
use exact_numbers::power_of_ten;
use itoa::write_digits;

/// Writes the two digits of a number below 100 at `at`.
#[inline]
fn put_pair(pair: u64, line: &mut [u8], at: usize)
    requires small { pair < 100 }
    requires within { at + 2 ≤ length line.old }
    ensures written { drop at line.new ≡ (48 + pair / 10) ∷ (48 + pair % 10) ∷ drop (at + 2) line.old }
    ensures before { take at line.new ≡ take at line.old }
{
    line[at] = b'0' + (pair / 10) as u8;
    line[at + 1] = b'0' + (pair % 10) as u8;
}

/// Writes the first one or two digits so that they end at `end`.
#[inline]
fn put_first(n: u64, count: u32, line: &mut [u8], end: usize) -> usize
    requires low { 1 ≤ count }
    requires high { count ≤ 2 }
    requires small { n < 10 ^ count }
    requires room { count ≤ end }
    requires within { end ≤ length line.old }
    ensures start { result + count ≡ end }
    ensures written { drop result line.new ≡ padded_digits count n ++ drop end line.old }
    ensures before { take result line.new ≡ take result line.old }
{
    if count == 1 {
        line[end - 1] = b'0' + n as u8;
        return end - 1;
    }
    put_pair(n, line, end - 2);
    end - 2
}

/// Writes `places` digits of a number, zeros first where it has fewer, so that they end at `end`.
#[inline]
fn put_padded(n: u64, places: u32, line: &mut [u8], end: usize) -> usize
    requires low { 1 ≤ places }
    requires high { places ≤ 9 }
    requires small { n < 10 ^ places }
    requires room { places ≤ end }
    requires within { end ≤ length line.old }
    ensures start { result + places ≡ end }
    ensures written { drop result line.new ≡ padded_digits places n ++ drop end line.old }
    ensures before { take result line.new ≡ take result line.old }
{
    let mut rest = n;
    let mut count = places;
    let mut at = end;
    while count > 2 {
        at -= 2;
        put_pair(rest % 100, line, at);
        rest /= 100;
        count -= 2;
    }
    put_first(rest, count, line, at)
}

/// Writes `n / 10^places` so that it ends at `end`, and answers where it starts.
#[inline]
fn put_places(n: u64, places: u32, line: &mut [u8], end: usize) -> usize
    requires places { places ≤ 9 }
    requires small { n / 10 ^ places < 10 ^ 10 }
    requires room { 20 ≤ end }
    requires within { end ≤ length line.old }
    ensures start { result + length (places_text places n) ≡ end }
    ensures short { length (places_text places n) ≤ 20 }
    ensures written { drop result line.new ≡ places_text places n ++ drop end line.old }
    ensures before { take result line.new ≡ take result line.old }
{
    if places == 0 {
        return write_digits(n, line, end);
    }
    let whole = divided(n, places);
    let at = put_padded(n - whole * power_of_ten(places), places, line, end);
    line[at - 1] = b'.';
    write_digits(whole, line, at - 1)
}

/// Writes the text of `nano` nanounits, rounded half away from zero to `places` digits after the
/// point, into `line` so that it ends at `end`, and answers where it starts. It is the text that
/// `print_fixed` puts, and at most 21 bytes long; the bytes around it stay as they were.
pub fn put_fixed(nano: i64, places: u32, line: &mut [u8], end: usize) -> usize
    requires places { places ≤ 9 }
    requires room { 21 ≤ end }
    requires within { end ≤ length line.old }
    ensures start { result ≤ end }
    ensures short { end ≤ result + 21 }
    ensures written { slice_range line.new result end ≡ fixed_text nano places }
    ensures before { take result line.new ≡ take result line.old }
    ensures after { drop end line.new ≡ drop end line.old }
{
    let unit = power_of_ten(9 - places);
    let rounded = divided(nano.unsigned_abs() + unit / 2, 9 - places);
    let at = put_places(rounded, places, line, end);
    if nano >= 0 || rounded == 0 {
        return at;
    }
    line[at - 1] = b'-';
    at - 1
}
