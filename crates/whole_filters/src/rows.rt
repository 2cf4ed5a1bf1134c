//! The points of one held view.

ghost use Rattle.std.specs.Prelude.{◌≡◌, ◌+◌, ◌-◌, ◌<◌, ◌≤◌, ◌++◌, ◌∷◌, [], Some, take, drop, length, slice_get, map, get_or, OnOk, OnErr};
ghost use Rattle.std.specs.List.{range_with_len};
ghost use Rattle.std.specs.List.Sorted.{IsPermutation};
ghost use Rattle.cloud_points.specs.Points.{key_of, zero_point};
ghost use Rattle.packed_chunk.specs.Keys.{short_key};
ghost use Rattle.whole_filters.specs.Whole.{before, sorted_by};

use crate::keys::PointKey;
use crate::places::put_in_order;
use cloud_points::{Dim, Layout, Point, Spread};
use packed_chunk::PackedRows;
use std::alloc::{AllocError, Global};
use std::marker::Model;

/// The points of a held view, in packed rows: each takes the bytes of its layout's dimensions.
#[derive(Drop)]
pub struct Rows {
    packed: PackedRows,
}

impl Model for Rows {
    ghost use Rattle.std.specs.Prelude.{List};
    ghost use Rattle.cloud_points.specs.declared.point.Point.{Point};

    ghost Value = { List Point };

    ghost view = { λ rows. rows.packed.points };
}

impl Rows {
    /// No points, in rows of a layout.
    pub fn none(alloc: Global, layout: &Layout) -> Rows
        ensures { result ≡ [] }
    {
        Rows {
            packed: PackedRows::new(alloc, layout),
        }
    }

    /// No points, in rows of the same layout.
    pub fn like(&self) -> Rows
        ensures { result ≡ [] }
    {
        Rows {
            packed: self.packed.like(),
        }
    }

    /// Puts a point at the end. It is refused for want of memory alone.
    pub fn push(&mut self, p: &Point) -> Result<(), AllocError>
        ensures ok { OnOk result (self.new ≡ self.old ++ p.now ∷ []) }
        ensures refused { OnErr result (self.new ≡ self.old) }
    {
        self.packed.push_any(p)
    }

    /// Puts the point at a place of another view at the end. It is refused for want of memory alone.
    #[inline(always)]
    pub fn push_from(&mut self, other: &Rows, k: usize) -> Result<(), AllocError>
        requires { k < length other.now }
        ensures ok { OnOk result (self.new ≡ self.old ++ get_or other.now k zero_point ∷ []) }
        ensures refused { OnErr result (self.new ≡ self.old) }
    {
        self.packed.push_from(&other.packed, k)
    }

    /// Puts points at the end. It is refused for want of memory alone.
    pub fn push_all(&mut self, points: &[Point]) -> Result<(), AllocError>
        ensures ok { OnOk result (self.new ≡ self.old ++ points.now) }
        ensures refused { OnErr result (self.new ≡ self.old) }
    {
        self.packed.push_all(points)
    }

    /// Puts the points of another list at the end. Where there are none yet it takes that list over, and copies nothing.
    /// It is refused for want of memory alone.
    pub fn append(&mut self, later: Rows) -> Result<(), AllocError>
        ensures ok { OnOk result (self.new ≡ self.old ++ later) }
        ensures refused { OnErr result (self.new ≡ self.old) }
    {
        self.packed.append(later.packed)
    }

    /// Puts the points of another view at the end, all of them or none. It is refused for want of memory alone.
    pub fn push_view(&mut self, view: &Rows) -> Result<(), AllocError>
        ensures ok { OnOk result (self.new ≡ self.old ++ view.now) }
        ensures refused { OnErr result (self.new ≡ self.old) }
    {
        self.push_first(view, view.len())
    }

    /// Puts the first `count` points of another view at the end, all of them or none. It is refused for want of memory
    /// alone.
    pub fn push_first(&mut self, other: &Rows, count: usize) -> Result<(), AllocError>
        requires { count ≤ length other.now }
        ensures ok { OnOk result (self.new ≡ self.old ++ take count other.now) }
        ensures refused { OnErr result (self.new ≡ self.old) }
    {
        let len = self.len();
        if self.push_front(other, count).is_err() {
            self.packed.truncate(len);
            return Err(AllocError);
        }
        Ok(())
    }

    // The same, but some of the points may be there where it is refused.
    fn push_front(&mut self, other: &Rows, count: usize) -> Result<(), AllocError>
        requires { count ≤ length other.now }
        ensures ok { OnOk result (self.new ≡ self.old ++ take count other.now) }
        ensures refused { OnErr result (take (length self.old) self.new ≡ self.old) }
    {
        for k in 0..count {
            self.push_from(other, k)?;
        }
        Ok(())
    }

    /// Orders the points by their keys, upwards or downwards; those of one key stay in their order. It is refused for want
    /// of memory alone.
    pub fn sort(&mut self, alloc: Global, dim: Dim, down: bool) -> Result<(), AllocError>
        ensures ok { OnOk result (self.new ≡ sorted_by (before (λ p. key_of p dim) down) self.old) }
        ensures refused { OnErr result (self.new ≡ self.old) }
    {
        put_in_order(alloc, self, dim, down)
    }

    /// Moves each point to its place: the sources say where the points stand that go to each place. It allocates nothing.
    pub fn reorder(&mut self, sources: &mut [usize])
        requires { IsPermutation (range_with_len 0 (length self.old)) sources.old }
        ensures { self.new ≡ map (λ k. get_or self.old k zero_point) sources.old }
    {
        self.packed.reorder(sources);
    }

    /// Keeps the last `count` points, and all where there are no more.
    pub fn keep_last(&mut self, count: u64)
        ensures { self.new ≡ drop (length self.old - count) self.old }
    {
        self.packed.keep_last(count);
    }

    /// Lets go of the first `count` points, and of their memory.
    pub fn let_go(&mut self, count: usize)
        requires { count ≤ length self.old }
        ensures { self.new ≡ drop count self.old }
    {
        self.packed.let_go_before(count);
    }

    /// How many points there are.
    pub fn len(&self) -> usize
        ensures { result ≡ length self.now }
    {
        self.packed.len()
    }

    /// The point at a place, counted from 0.
    #[inline(always)]
    pub fn get(&self, k: usize) -> Point
        requires { k < length self.now }
        ensures { slice_get self.now k ≡ Some result }
    {
        self.packed.get(k)
    }

    /// The key of the point at a place in a dimension, in 64 bits and in the order of its whole key.
    pub fn short_key(&self, k: usize, dim: Dim) -> i64
        requires { k < length self.now }
        ensures { result ≡ short_key dim (key_of (get_or self.now k zero_point) dim) }
    {
        self.packed.short_key(k, dim)
    }

    /// What tells the point at a place from others.
    #[inline(always)]
    pub(crate) fn key_at<K: PointKey>(&self, by: &K, k: usize) -> K::Key
        requires { k < length self.now }
        ensures { result ≡ K.key by.now (get_or self.now k zero_point) }
    {
        by.key_at(&self.packed, k)
    }

    /// Puts `count` points from a place on in place of what the spread held.
    pub fn copy_into(&self, from: usize, count: usize, into: &mut Spread)
        requires inside { from + count ≤ length self.now }
        requires few { count ≤ 64 }
        ensures { into.new.items ≡ take count (drop from self.now) }
    {
        self.packed.copy_into(from, count, into);
    }
}
