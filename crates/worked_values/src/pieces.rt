//! Pieces of files and of texts.

/// A piece of a file, at its place.
pub type Piece = (usize, &'static [u8]);

/// Puts a piece at its place, as far as there is room, and says whether there was.
pub fn put_bytes(bytes: &mut [u8], at: usize, piece: &[u8]) -> bool {
    for (k, byte) in piece.iter().enumerate() {
        match bytes.get_mut(at.wrapping_add(k)) {
            Some(place) => *place = *byte,
            None => return false,
        }
    }
    true
}

/// Whether a file has these pieces at their places.
pub fn has_pieces(file: &[u8], pieces: &[Piece]) -> bool {
    for &(at, piece) in pieces {
        match file.get(at..) {
            Some(rest) if rest.starts_with(piece) => {}
            _ => return false,
        }
    }
    true
}

/// Adds a piece to a text so many times, as far as there is memory.
pub fn add_times(text: &mut String, piece: &str, count: usize) {
    for _ in 0..count {
        let _ = text.push_str(piece);
    }
}
