//! The streams that the program prints to.

use crate::system::{holds, is_removed};
use file_devices::Sink;
use real_files::RealStream;
use std::alloc::Global;
use std::fs::{File, OpenOptions};
use std::io::BufWriter;
use std::{fs, io};

/// Pieces, and all that stands in the file once each is appended.
const PIECES: [(&str, &str); 3] = [("a", "a"), ("", "a"), ("bc", "abc")];

fn buffered(alloc: Global, file: io::Result<File>) -> Option<RealStream<BufWriter<File>>> {
    Some(RealStream::new(BufWriter::new(alloc, file.ok()?).ok()?))
}

/// Whether each piece is in the file as soon as it is appended.
fn is_written(rt: &HostRuntime) -> Option<bool> {
    let mut stream = buffered(rt.alloc(), fs::create(rt, "stream.txt"))?;
    let mut all = true;
    for (piece, whole) in PIECES {
        all = all && stream.append(piece.as_bytes()).is_ok() && holds(rt, "stream.txt", whole);
    }
    Some(all)
}

/// A device that takes no byte.
fn full(rt: &HostRuntime) -> io::Result<File> {
    let mut how = OpenOptions::new();
    how.write(true);
    how.open(rt, "/dev/full")
}

/// Whether a piece and an empty piece are refused by a stream.
fn refusals<W: io::Write + Drop>(mut stream: RealStream<W>) -> [bool; 2] {
    [stream.append(b"a").is_err(), stream.append(b"").is_err()]
}

pub fn pieces_are_written_and_flushed(rt: &HostRuntime) -> bool {
    is_written(rt) == Some(true) && is_removed(rt, "stream.txt")
}

/// What a buffer holds is refused when it is flushed, and again at the next piece.
pub fn pieces_without_room_are_refused(rt: &HostRuntime) -> bool {
    let unbuffered = full(rt).ok().map(RealStream::new).map(refusals);
    let buffered = buffered(rt.alloc(), full(rt)).map(refusals);
    (unbuffered, buffered) == (Some([true, false]), Some([true, true]))
}

pub fn the_streams_of_the_program_take_nothing(rt: &HostRuntime) -> bool {
    RealStream::new(io::writer(rt)).append(b"").is_ok()
        && RealStream::new(rt.stdout()).append(b"").is_ok()
        && RealStream::new(rt.stderr()).append(b"").is_ok()
}
