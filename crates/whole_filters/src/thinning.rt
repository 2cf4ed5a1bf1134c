//! The filter that keeps the first point of each key.

ghost use Rattle.std.specs.Prelude.{◌≡◌, false, [], flat_map, IfOk};
ghost use Rattle.whole_filters.specs.Whole.{whole_set, distinct, first_of_each};

use crate::Views;
use crate::keys::PointKey;
use crate::points::Points;
use crate::rows::Rows;
use crate::seeded::Seeded;
use std::alloc::{AllocError, Global};
use std::collections::HashSet;

/// The most keys for which there is room at first, so that lists of them seldom grow.
const MOST_AT_FIRST: usize = 1 << 20;

/// Keeps of each view the points that have no earlier point in it with their key. Of cut views nothing is left but that they are
/// cut.
///
/// It is refused for want of memory alone, and then drops its views.
pub fn first_of_each<K: PointKey>(alloc: Global, views: Views, by: &K) -> Result<Views, AllocError>
    requires { views.cut ≡ false → views.open_view ≡ [] }
    ensures { IfOk result (λ made. made ≡ whole_set (first_of_each K.Key.eq (K.key by.now)) views) }
{
    let mut made = views.like();
    if views.cut {
        made.set_cut();
        return Ok(made);
    }
    made.complete = firsts_of_each(alloc, views.complete, by, Seeded::by(views.seed))?;
    Ok(made)
}

// The first points of all views; each view is let go on the way.
fn firsts_of_each<K: PointKey>(
    alloc: Global,
    views: Vec<Rows>,
    by: &K,
    hashing: Seeded,
) -> Result<Vec<Rows>, AllocError>
    ensures { IfOk result (λ made. made.items ≡ flat_map (first_of_each K.Key.eq (K.key by.now)) views.items) }
{
    let mut made = Vec::with_capacity(alloc, views.len())?;
    for view in views {
        made.push(firsts_of(alloc, view, by, hashing)?)?;
    }
    Ok(made)
}

// The points of one view that have no earlier one with their key, each copied once.
fn firsts_of<K: PointKey>(
    alloc: Global,
    view: Rows,
    by: &K,
    hashing: Seeded,
) -> Result<Rows, AllocError>
    ensures { IfOk result (λ made. made
        ≡ distinct (λ p q. K.Key.eq (K.key by.now p) (K.key by.now q)) view) }
{
    let mut made = view.like();
    let room = view.len().min(MOST_AT_FIRST);
    let mut seen = HashSet::with_capacity_and_hasher(alloc, room, hashing)?;
    let mut points = Points::of(view);
    while points.has_more() {
        if seen.insert(points.first_key(by))? {
            points.push_first(&mut made)?;
            points.skip();
        } else {
            points.skip();
        }
    }
    Ok(made)
}
