//! Generated points.

ghost use Rattle.std.specs.Prelude.{◌≡◌, ◌<◌, ◌^◌, pos, neg_ℤ};
ghost use Rattle.cloud_points.specs.Points.{zero_point};
ghost use Rattle.cloud_gen.specs.Generated.{mixed, hundredths, degrees, class_at, point_of, generated};

use cloud_points::Point;
use ieee_words::near;

/// One unit, and a hundredth of one, in nanounits.
const NANO: i64 = 1_000_000_000;

const CENT: i64 = 10_000_000;

/// The word of a place in a series.
fn mixed(series: u64, i: u64) -> u64
    requires { i < 10000000 }
    ensures { result ≡ mixed series i }
{
    let sum = (i as u128 + 1) * 6_364_136_223_846_793_005
        + series as u128 * 1_442_695_040_888_963_407;
    (sum % (1 << 64)) as u64
}

/// So many units and hundredths, in nanounits.
fn hundredths(units: u64, cents: u64) -> i64
    requires units { units < 10000000 }
    requires cents { cents < 5000 }
    ensures { result ≡ hundredths units cents }
{
    units as i64 * NANO + cents as i64 * CENT
}

/// So many degrees above -30, in nanodegrees.
fn degrees(n: u64) -> i64
    requires { n < 61 }
    ensures { result ≡ degrees n }
{
    (n as i64 - 30) * NANO
}

/// A member of 1, 2, 3, 4, 5, 6, 7, 9, the first of which has the number 0.
fn class_at(k: u64) -> u8
    requires { k < 8 }
    ensures { result ≡ class_at k }
{
    if k == 7 { 9 } else { k as u8 + 1 }
}

/// The point of the word `h` at place `i`.
fn point_of(i: u64, h: u64) -> Point
    requires { i < 10000000 }
    ensures { result ≡ point_of i h }
{
    let returns = 1 + h / (1 << 8) % 5;
    let mut point = Point::zero();
    point.x = hundredths(500_000 + i % 1_000, h / (1 << 24) % 100);
    point.y = hundredths(4_800_000 + i / 1_000, h / (1 << 32) % 100);
    point.z = hundredths(100, h / (1 << 40) % 5_000);
    point.scan_angle_rank = degrees(h / (1 << 12) % 61);
    point.gps_time = near(i as i64, 6);
    point.intensity = (h / (1 << 48)) as u16;
    point.point_source_id = 1;
    point.red = (h / (1 << 48)) as u16;
    point.green = (h / (1 << 20) % (1 << 16)) as u16;
    point.blue = (h / (1 << 30) % (1 << 16)) as u16;
    point.return_number = (1 + h / (1 << 16) % returns) as u8;
    point.number_of_returns = returns as u8;
    point.classification = class_at(h / (1 << 4) % 8);
    point
}

/// The point at place `i` of a series, in nanounits. Points of a series stand in rows of a thousand, one unit apart, and
/// what is else in them is as if thrown. `i` is below 10,000,000.
pub fn gen_point(series: u64, i: u64) -> Point
    requires { i < 10000000 }
    ensures { result ≡ generated series i }
{
    point_of(i, mixed(series, i))
}

/// A worked example of the definition, proved by computing: the first point of series 1.
pub fn first_point_is_known()
    ensures { generated 1 0 ≡ record zero_point {
      x = pos 500000550000000;
      y = pos 4800000480000000;
      z = pos 102710000000;
      scan_angle_rank = neg_ℤ (pos 27000000000);
      intensity = 27735;
      point_source_id = 1;
      red = 27735;
      green = 50239;
      blue = 48817;
      return_number = 2;
      number_of_returns = 4;
      classification = 9;
    } }
{}
