//! Times the calls of the crates of words and decimals.
#![tactic(auto)]

ghost use Rattle.std.specs.Prelude.{◌*◌, ◌^◌, ◌<◌, ◌≤◌, unsigned_abs};

use arrayvec::ArrayString;
use decimal_coords::{Scale, print_fixed, put_fixed, raw, real};
use ieee_words::{Dec, decimal, near};
use std::rt::Clock;
use std::time::Instant;
use std::{env, io};

/// How often each call is timed.
const COUNT: u64 = 2_000_000;

/// Whole numbers of up to 40 bits, of both signs.
fn spread(i: u64) -> i64 {
    let size = (i.wrapping_mul(0x9E37_79B9_7F4A_7C15) >> 24) as i64;
    if i % 2 == 0 { size } else { -size }
}

/// Raw coordinates of up to 27 bits.
fn steps(i: u64) -> i32
    ensures { unsigned_abs result < 2 ^ 27 }
{
    (i.wrapping_mul(0x9E37_79B9_7F4A_7C15) >> 37) as i32
}

/// Coordinates of up to 1.4 million in size on a grid of 0.01, in nanounits.
fn coordinate(i: u64) -> i64
    ensures { unsigned_abs result ≤ 4 * 10 ^ 18 }
{
    let nano = steps(i) as i64 * 10_000_000;
    if i % 2 == 0 { nano } else { -nano }
}

fn near_sum() -> u64 {
    let mut sum: u64 = 0;
    for i in 0..COUNT {
        sum = sum.wrapping_add(near(spread(i), 3));
    }
    sum
}

/// Words of sizes from 2^10 to 2^26, with the fraction bits that the mask leaves.
fn decimal_sum(mask: u64) -> u64 {
    let mut sum: u64 = 0;
    for i in 0..COUNT {
        let fraction = i.wrapping_mul(0x9E37_79B9_7F4A_7C15) % (1 << 52) & mask;
        if let Ok(Dec { exact, .. }) = decimal(((1033 + i % 16) << 52) | fraction) {
            sum = sum.wrapping_add(exact as u64);
        }
    }
    sum
}

// Two grids, and two numbers of places, go in turn, so that no call is made for one of them alone.

fn real_sum(scales: (Scale, Scale)) -> u64 {
    let mut sum: u64 = 0;
    for i in 0..COUNT {
        let scale = if i % 2 == 0 { scales.0 } else { scales.1 };
        sum = sum.wrapping_add(real(steps(i), scale, 1_000).unsigned_abs());
    }
    sum
}

fn raw_sum(scales: (Scale, Scale)) -> u64 {
    let mut sum: u64 = 0;
    for i in 0..COUNT {
        let scale = if i % 2 == 0 { scales.0 } else { scales.1 };
        if let Ok(raw) = raw(coordinate(i), scale, 1_000) {
            sum = sum.wrapping_add(raw.unsigned_abs() as u64);
        }
    }
    sum
}

fn print_sum(places: u32) -> u64
    requires { places ≤ 8 }
{
    let mut sum: u64 = 0;
    let mut out = ArrayString::new();
    for i in 0..COUNT {
        print_fixed(coordinate(i) as i128, places + (i % 2) as u32, &mut out);
        for b in out.as_bytes() {
            sum = sum.wrapping_add(*b as u64);
        }
    }
    sum
}

fn put_sum(places: u32) -> u64
    requires { places ≤ 8 }
{
    let mut sum: u64 = 0;
    let mut line = [0; 64];
    for i in 0..COUNT {
        let at = put_fixed(coordinate(i), places + (i % 2) as u32, &mut line, 60);
        for b in &line[at..60] {
            sum = sum.wrapping_add(*b as u64);
        }
    }
    sum
}

/// Prints how long one call took since `start`; the sum keeps the calls from being left out.
fn report<R: Clock + Print>(rt: &R, name: &str, start: Instant, sum: u64) -> io::Result<()> {
    let nanoseconds = start.elapsed(rt)?.as_nanos() / COUNT as u128;
    println!(rt; "{name}: {nanoseconds} ns ({sum})")
}

fn time_all<R: Clock + Print>(rt: &R, scales: (Scale, Scale)) -> io::Result<()> {
    let start = Instant::now(rt)?;
    report(rt, "near", start, near_sum())?;
    let start = Instant::now(rt)?;
    report(rt, "decimal, short", start, decimal_sum(u64::MAX << 40))?;
    let start = Instant::now(rt)?;
    report(rt, "decimal, rounded off", start, decimal_sum(u64::MAX))?;
    let start = Instant::now(rt)?;
    report(rt, "real", start, real_sum(scales))?;
    let start = Instant::now(rt)?;
    report(rt, "raw", start, raw_sum(scales))?;
    let start = Instant::now(rt)?;
    report(rt, "print_fixed, 2 and 3 places", start, print_sum(2))?;
    let start = Instant::now(rt)?;
    report(rt, "print_fixed, 8 and 9 places", start, print_sum(8))?;
    let start = Instant::now(rt)?;
    report(rt, "put_fixed, 2 and 3 places", start, put_sum(2))?;
    let start = Instant::now(rt)?;
    report(rt, "put_fixed, 8 and 9 places", start, put_sum(8))
}

fn main(rt: HostRuntime) -> io::Result<()> {
    let mut timed = false;
    for word in env::args(&rt)? {
        timed = timed || word.as_str() == "time";
    }
    match (Scale::new(10_000_000), Scale::new(1_000_000)) {
        (Some(hundredth), Some(thousandth)) if timed => time_all(&rt, (hundredth, thousandth)),
        _ => println!(rt; "give the word `time` to time the calls"),
    }
}
