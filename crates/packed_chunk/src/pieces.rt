//! The pieces of rows, in a list.

ghost use Rattle.std.specs.Prelude.{◌≡◌, ◌+◌, ◌<◌, ◌≤◌, ◌++◌, [], length, take, drop, get_or, set, OnOk, OnErr};
ghost use Rattle.packed_chunk.specs.Fitting.{FitsTypes};
ghost use Rattle.packed_chunk.specs.Held.{HasRoom};
ghost use Rattle.packed_chunk.specs.Rows.{row, row_size};

use crate::Packing;
use crate::known::known_numbers;
use crate::piece::Piece;
use cloud_points::Point;
use std::alloc::{AllocError, Global};
use std::collections::VecDeque;

/// Lets go so many pieces at the front.
pub(crate) fn let_go(pieces: &mut VecDeque<Piece>, count: usize)
    requires { count ≤ length pieces.old.items }
    ensures { pieces.new.items ≡ drop count pieces.old.items }
{
    for _piece in 0..count {
        let _ = pieces.pop_front();
    }
}

/// Makes a piece where there is none at a place. It is refused for want of memory alone, and changes nothing then.
pub(crate) fn make_room(
    alloc: Global,
    pieces: &mut VecDeque<Piece>,
    piece: usize,
    size: usize,
) -> Result<(), AllocError>
    requires { piece ≤ length pieces.old.items }
    ensures ok { OnOk result (HasRoom pieces.old.items piece size pieces.new.items) }
    ensures refused { OnErr result (pieces.new.items ≡ pieces.old.items) }
{
    if piece < pieces.len() {
        return Ok(());
    }
    let blank = Piece::blank(alloc, size)?;
    pieces.reserve(1)?;
    pieces.push_back_reserved(blank);
    Ok(())
}

/// Writes the row of a point at a place of a piece.
pub(crate) fn put_row(
    packing: &Packing,
    pieces: &mut VecDeque<Piece>,
    piece: usize,
    at: usize,
    p: &Point,
)
    requires piece { piece < length pieces.old.items }
    requires room { at + row_size packing.now.layout ≤ length (get_or pieces.old.items piece []) }
    ensures items { let bytes = get_or pieces.old.items piece [] in pieces.new.items ≡ set pieces.old.items piece
        (take at bytes ++ (row packing.now.layout p.now ++ drop (at + row_size packing.now.layout) bytes)) }
    ensures fits { FitsTypes p.now }
{
    known_numbers(p);
    let bytes = &mut pieces[piece];
    bytes.put_row(packing, at, p);
}

/// Writes the bytes of a row at a place of a piece.
pub(crate) fn put_bytes(pieces: &mut VecDeque<Piece>, piece: usize, at: usize, row: &[u8])
    requires piece { piece < length pieces.old.items }
    requires room { at + length row.now ≤ length (get_or pieces.old.items piece []) }
    ensures { let bytes = get_or pieces.old.items piece [] in pieces.new.items ≡ set pieces.old.items piece
        (take at bytes ++ (row.now ++ drop (at + length row.now) bytes)) }
{
    let bytes = &mut pieces[piece];
    bytes.put_bytes(at, row);
}
