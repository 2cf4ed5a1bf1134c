//! Points in packed rows.

ghost use Rattle.std.specs.Prelude.{true, ◌≡◌, ◌+◌, ◌-◌, ◌*◌, ◌<◌, ◌≤◌, ◌++◌, ◌∷◌, [], length, take, drop, get_or, set, slice_get, Some, OnOk, OnErr, IfOk};
ghost use Rattle.cloud_points.specs.Clearing.{IsWithin};
ghost use Rattle.cloud_points.specs.Layouts.{holds};
ghost use Rattle.cloud_points.specs.Points.{zero_point};
ghost use Rattle.cloud_points.specs.declared.point.Point.{Point};
ghost use Rattle.packed_chunk.specs.Fitting.{FitsTypes};
ghost use Rattle.packed_chunk.specs.Held.{HasRoom, offset_of, piece_of};
ghost use Rattle.packed_chunk.specs.Outside.{IsWider};
ghost use Rattle.packed_chunk.specs.Rows.{row, row_size};
ghost use Rattle.packed_chunk.specs.Unpacked.{unpacked_at};

use crate::Packing;
use crate::piece::Piece;
use crate::pieces::{let_go, make_room, put_bytes, put_row};
use crate::places::{offset_of, piece_of, rows_of};
use crate::widening::widened;
use cloud_points::{Layout, Point, Spread};
use std::alloc::{AllocError, Global};
use std::collections::VecDeque;
use std::marker::Model;

/// More rows than memory has room for.
const MOST_ROWS: usize = 1 << 56;

/// A growing list of points, each in a row that has only the dimensions of a layout.
///
/// The rows stand in pieces, the first 128 of 8 rows each and the others of 1,024. Each piece is made at its full size, so no
/// row is copied again as the list grows. Beside its rows the list holds at most the rest of its last piece, the rows before
/// the first point in the first piece, and a few words for each piece.
#[derive(Drop)]
pub struct PackedRows {
    alloc: Global,
    packing: Packing,
    pieces: VecDeque<Piece>,
    // So many pieces at the front are let go.
    gone: usize,
    // The place of the first point, counted from the first that was ever here.
    first: usize,
    len: usize,
}

impl Model for PackedRows {
    ghost use Rattle.packed_chunk.specs.Held.{Held};

    ghost Value = { Held };

    ghost use Rattle.std.specs.Prelude.{◌+◌};
    ghost use Rattle.packed_chunk.specs.Held.{points_from, ArePieces};

    ghost view = { λ r. record { layout = r.packing.layout; points = points_from r.packing.layout r.gone r.pieces.items r.first r.len } };

    ghost invariant = { λ r. ArePieces r.packing.layout r.gone r.pieces.items r.first (r.first + r.len) };
}

impl PackedRows {
    /// No points, of a layout.
    #[tactic(auto, unfolding(crate::specs::Held::listed))]
    pub fn new(alloc: Global, layout: &Layout) -> PackedRows
        ensures layout { result.layout ≡ layout.now }
        ensures points { result.points ≡ [] }
    {
        PackedRows {
            alloc,
            packing: Packing::of(layout),
            pieces: VecDeque::new(alloc),
            gone: 0,
            first: 0,
            len: 0,
        }
    }

    /// Puts a point at the end, which has 0 in every dimension outside the layout. It is refused for want of memory alone;
    /// no memory has room for more than 2^56 rows.
    pub fn push(&mut self, p: &Point) -> Result<(), AllocError>
        requires { IsWithin (holds self.old.layout) p.now }
        ensures ok { OnOk result (self.new ≡ record self.old { points = self.old.points ++ p.now ∷ [] }) }
        ensures refused { OnErr result (self.new ≡ self.old) }
    {
        let place = self.first + self.len;
        if place >= MOST_ROWS {
            return Err(AllocError);
        }
        let piece = piece_of(place) - self.gone;
        let width = self.packing.width();
        make_room(
            self.alloc,
            &mut self.pieces,
            piece,
            rows_of(self.gone + piece) * width,
        )?;
        put_row(
            &self.packing,
            &mut self.pieces,
            piece,
            offset_of(place) * width,
            p,
        );
        self.len += 1;
        Ok(())
    }

    /// Puts the point at a place of another list of the same layout at the end, by the bytes of its row. It is refused as
    /// by `push`.
    pub fn push_row(&mut self, other: &PackedRows, k: usize) -> Result<(), AllocError>
        requires same { other.now.layout ≡ self.old.layout }
        requires inside { k < length other.now.points }
        ensures ok { OnOk result (self.new
            ≡ record self.old { points = self.old.points ++ get_or other.now.points k zero_point ∷ [] }) }
        ensures refused { OnErr result (self.new ≡ self.old) }
    {
        let place = self.first + self.len;
        if place >= MOST_ROWS {
            return Err(AllocError);
        }
        let piece = piece_of(place) - self.gone;
        let width = self.packing.width();
        make_room(
            self.alloc,
            &mut self.pieces,
            piece,
            rows_of(self.gone + piece) * width,
        )?;
        let bytes = other.row(k);
        put_bytes(&mut self.pieces, piece, offset_of(place) * width, bytes);
        self.len += 1;
        Ok(())
    }

    /// Puts any point at the end. Where it isn't 0 in every dimension outside the layout, the rows are first laid anew under
    /// the layout with the dimensions that it needs. It is refused as by `push`, and the points are then as before.
    pub fn push_any(&mut self, p: &Point) -> Result<(), AllocError>
        ensures ok { OnOk result (self.new.points ≡ self.old.points ++ p.now ∷ []) }
        ensures refused { OnErr result (self.new.points ≡ self.old.points) }
    {
        if !self.is_within(p) {
            self.widen(p)?;
        }
        self.push(p)
    }

    // Lays the rows anew, under a layout with the dimensions that a point needs. It is refused for want of memory alone, and
    // changes nothing then.
    fn widen(&mut self, p: &Point) -> Result<(), AllocError>
        ensures points { OnOk result (self.new.points ≡ self.old.points) }
        ensures within { OnOk result (IsWithin (holds self.new.layout) p.now) }
        ensures refused { OnErr result (self.new ≡ self.old) }
    {
        let layout = widened(&self.layout(), p);
        *self = self.laid_under(&layout)?;
        Ok(())
    }

    // The same points under a wider layout.
    fn laid_under(&self, layout: &Layout) -> Result<PackedRows, AllocError>
        requires { IsWider self.now.layout layout.now }
        ensures { IfOk result (λ rows. rows ≡ record self.now { layout = layout.now }) }
    {
        let mut rows = PackedRows::new(self.alloc, layout);
        for k in 0..self.len() {
            rows.push(&self.get(k))?;
        }
        Ok(rows)
    }

    // Whether a point has 0 in every dimension outside the layout.
    #[inline(always)]
    fn is_within(&self, p: &Point) -> bool
        ensures { result ≡ true → IsWithin (holds self.now.layout) p.now }
    {
        self.packing.is_within(p)
    }

    /// The layout of its rows.
    pub fn layout(&self) -> Layout
        ensures { result ≡ self.now.layout }
    {
        self.packing.layout()
    }

    /// How many points there are.
    #[tactic(auto, using(crate::proofs::Listed::listed_length))]
    pub fn len(&self) -> usize
        ensures { result ≡ length self.now.points }
    {
        self.len
    }

    /// The point at a place, counted from 0.
    #[inline(always)]
    pub fn get(&self, k: usize) -> Point
        requires { k < length self.now.points }
        ensures value { slice_get self.now.points k ≡ Some result }
        ensures within { IsWithin (holds self.now.layout) result }
    {
        let place = self.first + k;
        let piece = &self.pieces[piece_of(place) - self.gone];
        self.packing
            .unpack_at(piece.bytes(), offset_of(place) * self.packing.width())
    }

    /// The bytes of the row at a place.
    pub(crate) fn row(&self, k: usize) -> &[u8]
        requires { k < length self.now.points }
        ensures size { length result.now ≡ row_size self.now.layout }
        ensures point { unpacked_at self.now.layout 0 result.now ≡ get_or self.now.points k zero_point }
    {
        let place = self.first + k;
        let piece = &self.pieces[piece_of(place) - self.gone];
        let at = offset_of(place) * self.packing.width();
        &piece.bytes()[at..at + self.packing.width()]
    }

    /// How its rows are packed.
    pub(crate) fn packing(&self) -> &Packing
        ensures { result.now.layout ≡ self.now.layout }
    {
        &self.packing
    }

    /// How many bytes a row has.
    pub(crate) fn width(&self) -> usize
        ensures value { result ≡ row_size self.now.layout }
        ensures small { result ≤ 128 }
    {
        self.packing.width()
    }

    /// How many bytes its rows have.
    pub fn bytes(&self) -> usize
        ensures { result ≡ length self.now.points * row_size self.now.layout }
    {
        self.len() * self.packing.width()
    }

    /// Keeps the last `count` points, and all where there are no more. Pieces that lie wholly before these are let go.
    pub fn keep_last(&mut self, count: u64)
        ensures { self.new ≡ record self.old
            { points = drop (length self.old.points - count) self.old.points } }
    {
        let skipped = (self.len as u64).saturating_sub(count) as usize;
        self.first += skipped;
        self.len -= skipped;
        let gone = piece_of(self.first);
        let_go(&mut self.pieces, gone - self.gone);
        self.gone = gone;
    }

    /// Lets go the points before a place, and the pieces that lie wholly before it.
    pub fn let_go_before(&mut self, k: usize)
        requires { k ≤ length self.old.points }
        ensures { self.new ≡ record self.old { points = drop k self.old.points } }
    {
        self.keep_last((self.len() - k) as u64);
    }

    /// Keeps the first `count` points, and all where there are no more. The room of the others stays.
    pub fn truncate(&mut self, count: usize)
        ensures { self.new ≡ record self.old { points = take count self.old.points } }
    {
        self.len = self.len.min(count);
    }

    /// No points, of the same layout.
    pub fn like(&self) -> PackedRows
        ensures layout { result.layout ≡ self.now.layout }
        ensures points { result.points ≡ [] }
    {
        PackedRows::new(self.alloc, &self.layout())
    }

    /// Writes the bytes of a row over those of the row at a place.
    pub(crate) fn put_over(&mut self, k: usize, bytes: &[u8])
        requires inside { k < length self.old.points }
        requires size { length bytes.now ≡ row_size self.old.layout }
        ensures { self.new ≡ record self.old
            { points = set self.old.points k (unpacked_at self.old.layout 0 bytes.now) } }
    {
        let place = self.first + k;
        let piece = piece_of(place) - self.gone;
        put_bytes(
            &mut self.pieces,
            piece,
            offset_of(place) * self.packing.width(),
            bytes,
        );
    }

    /// Puts `count` points from a place on in place of what the spread held. It allocates nothing.
    pub fn copy_into(&self, from: usize, count: usize, into: &mut Spread)
        requires inside { from + count ≤ length self.now.points }
        requires few { count ≤ 64 }
        ensures { into.new.items ≡ take count (drop from self.now.points) }
    {
        let _len = self.len();
        into.clear();
        for k in 0..count {
            into.push(self.get(from + k));
        }
    }
}
