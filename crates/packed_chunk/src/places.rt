//! Where the rows of a list stand in its pieces.

ghost use Rattle.std.specs.Prelude.{◌≡◌, ◌≤◌};
ghost use Rattle.packed_chunk.specs.Held.{piece_of, offset_of, rows_of};

/// How many of the first pieces are short.
const SHORT_PIECES: usize = 128;

/// How many rows a short piece has.
const SHORT_ROWS: usize = 8;

/// How many rows another piece has, and as many as all short ones.
const ROWS: usize = 1024;

/// The piece in which a row stands.
#[inline(always)]
#[tactic(auto, unfolding(crate::specs::Held::piece_of))]
pub fn piece_of(place: usize) -> usize
    ensures { result ≡ piece_of place }
{
    if place < ROWS {
        place / SHORT_ROWS
    } else {
        SHORT_PIECES - 1 + place / ROWS
    }
}

/// The place of a row in its piece.
#[inline(always)]
#[tactic(auto, unfolding(crate::specs::Held::offset_of))]
pub fn offset_of(place: usize) -> usize
    ensures value { result ≡ offset_of place }
    ensures low { result ≤ 1023 }
{
    if place < ROWS {
        place % SHORT_ROWS
    } else {
        place % ROWS
    }
}

/// How many rows a piece has.
#[inline(always)]
#[tactic(auto, unfolding(crate::specs::Held::rows_of))]
pub fn rows_of(piece: usize) -> usize
    ensures value { result ≡ rows_of piece }
    ensures most { result ≤ 1024 }
{
    if piece < SHORT_PIECES {
        SHORT_ROWS
    } else {
        ROWS
    }
}
