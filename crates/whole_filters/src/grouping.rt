//! The filters that part each view by keys of its points.

ghost use Rattle.std.specs.Prelude.{◌≡◌, ◌<◌, ◌≤◌, false, [], length, get_or, flat_map, Some, IfOk, OnOk, unwrap_or, if◌then◌else◌};
ghost use Rattle.std.specs.Ordering.{int_eq};
ghost use Rattle.std.specs.HashMap as table;
ghost use Rattle.cloud_points.specs.Points.{key_of, zero_point};
ghost use Rattle.whole_filters.specs.Held.{with_point};
ghost use Rattle.whole_filters.specs.Whole.{whole_set, groups};

use crate::Views;
use crate::keys::{DimKey, PointKey};
use crate::points::Points;
use crate::rows::Rows;
use crate::seeded::Seeded;
use cloud_points::Dim;
use std::alloc::{AllocError, Global};
use std::collections::HashMap;
use std::hash::Hash;

/// Parts each view by the keys of its points in a dimension: one view for each value of the key, which has the points with
/// that value in their order. The views stand in the order in which their values first appear. A view without points gives
/// no view. Of cut views nothing is left but that they are cut.
///
/// It is refused for want of memory alone, and then drops its views.
pub fn groupby(alloc: Global, views: Views, dim: Dim) -> Result<Views, AllocError>
    requires { views.cut ≡ false → views.open_view ≡ [] }
    ensures { IfOk result (λ made. made ≡ whole_set (groups int_eq (λ p. key_of p dim)) views) }
{
    group_by(alloc, views, &DimKey(dim))
}

/// Parts each view by the keys of its points, as `groupby` does by those in a dimension.
///
/// It is refused for want of memory alone, and then drops its views. The points stand twice in memory only piece by piece.
pub fn group_by<K: PointKey>(alloc: Global, views: Views, by: &K) -> Result<Views, AllocError>
    requires { views.cut ≡ false → views.open_view ≡ [] }
    ensures { IfOk result (λ made. made ≡ whole_set (groups K.Key.eq (K.key by.now)) views) }
{
    let mut made = views.like();
    if views.cut {
        made.set_cut();
        return Ok(made);
    }
    made.complete = parts_of_each(alloc, views.complete, by, Seeded::by(views.seed))?;
    Ok(made)
}

// The groups of all views; each view is let go as its points come to their groups.
fn parts_of_each<K: PointKey>(
    alloc: Global,
    views: Vec<Rows>,
    by: &K,
    hashing: Seeded,
) -> Result<Vec<Rows>, AllocError>
    ensures { IfOk result (λ made. made.items ≡ flat_map (groups K.Key.eq (K.key by.now)) views.items) }
{
    let mut made = Vec::new(alloc);
    for view in views {
        let mut parts = parts_of(alloc, view, by, hashing)?;
        made.append(&mut parts)?;
    }
    Ok(made)
}

// The points of one view in their groups, each copied once.
fn parts_of<K: PointKey>(
    alloc: Global,
    view: Rows,
    by: &K,
    hashing: Seeded,
) -> Result<Vec<Rows>, AllocError>
    ensures { IfOk result (λ made. made.items ≡ groups K.Key.eq (K.key by.now) view) }
{
    let empty = view.like();
    let mut places = HashMap::with_hasher(alloc, hashing);
    let mut made = Vec::new(alloc);
    let mut points = Points::of(view);
    while points.has_more() {
        let place = place_of(&mut places, points.first_key(by), made.len())?;
        put_at(&empty, &mut made, place, &points)?;
        points.skip();
    }
    Ok(made)
}

// The place of the group with a key; a new group gets the place `next`.
fn place_of<K: Eq + Hash + Drop>(
    places: &mut HashMap<K, usize, Seeded>,
    key: K,
    next: usize,
) -> Result<usize, AllocError>
    ensures place { IfOk result (λ place. place ≡ unwrap_or (table.get K.eq places.old key) next) }
    ensures places { IfOk result (λ place. (q : K) → table.get K.eq places.new q
        ≡ (if K.eq key q then Some place else table.get K.eq places.old q)) }
{
    if let Some(place) = places.get(&key).copied() {
        return Ok(place);
    }
    places.insert(key, next)?;
    Ok(next)
}

// Puts the first of points behind those of the group at a place; behind the last group it makes one of its own, like the
// empty one.
fn put_at(
    empty: &Rows,
    made: &mut Vec<Rows>,
    place: usize,
    points: &Points,
) -> Result<(), AllocError>
    requires place { place ≤ length made.old.items }
    requires some { 0 < length points.now }
    ensures { OnOk result (made.new.items
        ≡ with_point place (get_or points.now 0 zero_point) made.old.items) }
{
    if place < made.len() {
        return points.push_first(&mut made[place]);
    }
    let mut group = empty.like();
    points.push_first(&mut group)?;
    made.push(group)?;
    Ok(())
}
