//! The order of the points of a view: their keys and places are sorted, and each point then moves to its place.

ghost use Rattle.std.specs.Prelude.{◌≡◌, ◌<◌, ◌^◌, ◌+ℤ◌, pos, IfOk, OnOk, OnErr, length, map, get_or};
ghost use Rattle.std.specs.List.{range_with_len};
ghost use Rattle.std.specs.List.Sorted.{IsPermutation};
ghost use Rattle.cloud_points.specs.Points.{key_of, zero_point};
ghost use Rattle.cloud_points.specs.declared.point.Point.{Point};
ghost use Rattle.packed_chunk.specs.Keys.{short_key};
ghost use Rattle.whole_filters.specs.Whole.{before, sorted_by};
ghost use Rattle.whole_filters.specs.Places.{AreKeyed, AreRaised, turned};

use crate::rows::Rows;
use crate::words::WordForm;
use cloud_points::Dim;
use std::alloc::{AllocError, Global};

/// The key of a point in 64 bits, turned round where the order is downwards, and the place where the point stands. Entries
/// are in the order of their keys, and those of one key in that of their places.
#[derive(Clone, Copy, PartialEq, Eq, PartialOrd, Ord)]
struct Entry {
    key: i64,
    place: usize,
}

const _: () = prove!(size_of::<Entry>() == 16);

/// Orders points by their keys, upwards or downwards; those of one key stay in their order. It is refused for want of
/// memory alone. Beside the points it takes at most 24 bytes for each of them, and gives that room back. It takes 8 where
/// a word has room for the key and the place, as is usual for coordinates.
pub fn put_in_order(
    alloc: Global,
    points: &mut Rows,
    dim: Dim,
    down: bool,
) -> Result<(), AllocError>
    ensures ok { OnOk result (points.new ≡ sorted_by (before (λ p. key_of p dim) down) points.old) }
    ensures refused { OnErr result (points.new ≡ points.old) }
{
    if points.len() < 2 {
        return Ok(());
    }
    let mut sources = order_of(alloc, points, dim, down)?;
    points.reorder(sources.as_mut_slice());
    Ok(())
}

// The places at which the points stand, in the order of their keys. Words that hold the key above the place are sorted in
// place where they have room for both, and else entries.
fn order_of(alloc: Global, points: &Rows, dim: Dim, down: bool) -> Result<Vec<usize>, AllocError>
    ensures each_once { IfOk result (λ places.
        IsPermutation (range_with_len 0 (length points.now)) places.items) }
    ensures in_order { IfOk result (λ places. (d : Point) → map (λ k. get_or points.now k d) places.items
        ≡ sorted_by (before (λ p. key_of p dim) down) points.now) }
{
    let mut words = raised_keys(alloc, points, dim, down)?;
    if let Some(form) = WordForm::of(words.as_slice()) {
        form.join(words.as_mut_slice());
        words.sort_unstable();
        form.keep_places(words.as_mut_slice());
        return Ok(words);
    }
    drop(words);
    order_of_entries(alloc, points, dim, down)
}

// The keys of points, turned and raised, as the points stand.
fn raised_keys(alloc: Global, points: &Rows, dim: Dim, down: bool) -> Result<Vec<usize>, AllocError>
    ensures { IfOk result (λ keys. AreRaised dim down points.now (length points.now) keys.items) }
{
    let mut keys = Vec::with_capacity(alloc, points.len())?;
    for place in 0..points.len() {
        keys.push(raised_key(points, place, dim, down))?;
    }
    Ok(keys)
}

// The turned key of the point at a place, raised by half of the range, so that it has no sign.
fn raised_key(points: &Rows, place: usize, dim: Dim, down: bool) -> usize
    requires { place < length points.now }
    ensures { pos result ≡ turned down (short_key dim (key_of (get_or points.now place zero_point) dim)) +ℤ pos (2 ^ 63) }
{
    (turned(points.short_key(place, dim), down) as i128 + (1 << 63)) as usize
}

// The same places by entries of keys and places. As the places rise, entries need not be sorted stably.
fn order_of_entries(
    alloc: Global,
    points: &Rows,
    dim: Dim,
    down: bool,
) -> Result<Vec<usize>, AllocError>
    ensures each_once { IfOk result (λ places.
        IsPermutation (range_with_len 0 (length points.now)) places.items) }
    ensures in_order { IfOk result (λ places. (d : Point) → map (λ k. get_or points.now k d) places.items
        ≡ sorted_by (before (λ p. key_of p dim) down) points.now) }
{
    let mut entries = keyed(alloc, points, dim, down)?;
    entries.sort_unstable();
    places_of(alloc, entries.as_slice())
}

// The keys of points, with the places where they stand.
fn keyed(alloc: Global, points: &Rows, dim: Dim, down: bool) -> Result<Vec<Entry>, AllocError>
    ensures { IfOk result (λ entries. AreKeyed dim down points.now (length points.now) entries.items) }
{
    let mut entries = Vec::with_capacity(alloc, points.len())?;
    for place in 0..points.len() {
        entries.push(entry_at(points, place, dim, down))?;
    }
    Ok(entries)
}

// The entry of the point at a place.
fn entry_at(points: &Rows, place: usize, dim: Dim, down: bool) -> Entry
    requires { place < length points.now }
    ensures key { result.key ≡ turned down (short_key dim (key_of (get_or points.now place zero_point) dim)) }
    ensures place { result.place ≡ place }
{
    Entry {
        key: turned(points.short_key(place, dim), down),
        place,
    }
}

// Downwards the greatest key comes first, so that entries need one order alone.
fn turned(key: i64, down: bool) -> i64
    ensures { result ≡ turned down key }
{
    if down { -1 - key } else { key }
}

// The places of entries, in the order of these.
fn places_of(alloc: Global, entries: &[Entry]) -> Result<Vec<usize>, AllocError>
    ensures { IfOk result (λ places. places.items ≡ map (λ e. e.place) entries.now) }
{
    let mut places = Vec::with_capacity(alloc, entries.len())?;
    for entry in entries {
        places.push(entry.place)?;
    }
    Ok(places)
}
