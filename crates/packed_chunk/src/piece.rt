//! One buffer of rows.

ghost use Rattle.std.specs.Prelude.{◌≡◌, ◌+◌, ◌≤◌, ◌++◌, length, take, drop, IfOk};
ghost use Rattle.packed_chunk.specs.Rows.{row, row_size};

use crate::Packing;
use cloud_points::Point;
use std::alloc::{AllocError, Global};
use std::marker::Model;

/// The bytes of rows, one behind another, all made at once.
#[derive(Drop)]
pub struct Piece {
    bytes: Vec<u8>,
}

impl Model for Piece {
    ghost use Rattle.std.specs.Prelude.{ℕ, List};

    ghost Value = { List ℕ };

    ghost view = { λ r. r.bytes.items };
}

impl Piece {
    /// So many bytes.
    pub fn blank(alloc: Global, size: usize) -> Result<Piece, AllocError>
        ensures { IfOk result (λ piece. length piece ≡ size) }
    {
        let bytes = vec![in alloc; 0u8; size]?;
        Ok(Piece { bytes })
    }

    /// Lends the bytes.
    #[inline(always)]
    pub fn bytes(&self) -> &[u8]
        ensures { result.now ≡ self.now }
    {
        self.bytes.as_slice()
    }

    /// Writes the row of a point at a place.
    #[inline(always)]
    pub fn put_row(&mut self, packing: &Packing, at: usize, p: &Point)
        requires { at + row_size packing.now.layout ≤ length self.old }
        ensures { self.new ≡ take at self.old
            ++ (row packing.now.layout p.now ++ drop (at + row_size packing.now.layout) self.old) }
    {
        packing.pack_at(p, self.bytes.as_mut_slice(), at);
    }

    /// Writes bytes at a place.
    #[inline(always)]
    pub fn put_bytes(&mut self, at: usize, bytes: &[u8])
        requires { at + length bytes.now ≤ length self.old }
        ensures { self.new ≡ take at self.old ++ (bytes.now ++ drop (at + length bytes.now) self.old) }
    {
        self.bytes[at..at + bytes.len()].copy_from_slice(bytes);
    }
}
