//! Rings of corners.

ghost use Rattle.std.specs.Prelude.{IsTrue, ◌↔◌};
ghost use Rattle.limits_text.specs.Held.{IsHeld};

use limits_text::Polygon;
use std::alloc::Global;

/// The greatest coordinate of a corner.
pub const MOST: i64 = 4_000_000_000_000_000_000;

fn is_held(v: i64) -> bool
    ensures { IsTrue result ↔ IsHeld v }
{
    v.unsigned_abs() <= MOST as u64
}

/// The ring of these corners.
pub fn ring(alloc: Global, corners: &[(i64, i64)]) -> Option<Polygon> {
    let mut held = Vec::new(alloc);
    for &(x, y) in corners {
        if !is_held(x) || !is_held(y) {
            return None;
        }
        let Ok(()) = held.push((x, y)) else {
            return None;
        };
    }
    Some(Polygon::new(held))
}
