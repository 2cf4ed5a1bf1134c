//! Outputs that are written, kept and dropped.

use crate::system::{
    Mode, holds, is_absent, is_changed, is_link, is_linked, is_removed, mode_and_size,
};
use file_devices::{DeviceErr, Failed, FileSink, Files, Sink, Source, fill};
use real_files::RealFiles;
use std::alloc::Global;
use std::fs;

/// The store of the system's files.
type Store<'a> = RealFiles<'a, HostRuntime>;

/// Places of the file that is read back, how many of four bytes are there, and these.
const READS: [(u64, usize, [u8; 4]); 9] = [
    (0, 4, *b"P123"),
    (3, 4, *b"3XY6"),
    (8, 4, *b"8?\x07\x07"),
    (200_008, 4, *b"\x07\x07\x09\x09"),
    (340_008, 4, *b"\x09\x09en"),
    (340_010, 4, *b"end!"),
    (340_012, 2, *b"d!\x00\x00"),
    (340_014, 0, [0; 4]),
    (u64::MAX - 9, 0, [0; 4]),
];

/// Names of outputs that are refused.
const REFUSED: [&str; 8] = [
    "folder",
    "folder/",
    "to_folder",
    "to_nothing",
    "to_null",
    "ring",
    "/dev/null",
    "nothing/o.txt",
];

/// The links among them, which stay.
const LINKS: [&str; 4] = ["to_folder", "to_nothing", "to_null", "ring"];

/// Part files that aren't made for them.
const PARTS: [&str; 3] = [
    "folder.lasline-part",
    "to_null.lasline-part",
    "/dev/null.lasline-part",
];

/// Names of a file, the modes that it has when its output is created, and those that it has when it is kept.
const NAMED: [(&str, u32, u32); 4] = [
    ("real/o.txt", 0o600, 0o600),
    ("real/o.txt", 0o640, 0o604),
    ("link.txt", 0o666, 0o400),
    ("link_to_link.txt", 0o444, 0o666),
];

/// The part file of an output that is there already.
const PART: &str = "there.txt.lasline-part";

/// Ten digits, two pieces that find room in the buffer, a larger one and a short one, and patches among the digits.
fn write_all<S: FileSink>(sink: &mut S, piece: &[u8], large: &[u8]) -> Result<(), Failed> {
    sink.append(b"0123456789")?;
    sink.append(piece)?;
    sink.append(piece)?;
    sink.append(large)?;
    sink.patch(0, b"P")?;
    sink.patch(4, b"XY")?;
    sink.patch(9, b"?")?;
    sink.append(b"end!")
}

// What the store hands out can go to another thread.
fn hands_out_to_threads<F: Files>(_files: &F)
where
    F::In: Send,
    F::Out: Send,
{}

/// Whether 100,000 bytes twice, 140,000 and some others are written, and the file is kept.
fn write_pieces(files: &mut Store<'_>, alloc: Global) -> Option<bool> {
    let piece = vec![in alloc; 7u8; 100_000].ok()?;
    let large = vec![in alloc; 9u8; 140_000].ok()?;
    let mut sink = files.create("pieces.bin").ok()?;
    let written = write_all(&mut sink, &piece, &large).is_ok();
    Some(files.keep("pieces.bin", sink).is_ok() && written)
}

/// How many of four bytes stand at a place, and these.
fn read<S: Source>(source: &mut S, at: u64) -> Option<(usize, [u8; 4])> {
    if at > u64::MAX - 9 {
        return None;
    }
    let mut into = [0u8; 4];
    let count = fill(source, at, &mut into).ok()?;
    Some((count, into))
}

/// Whether the file of pieces is read back as it was written.
fn is_read_back(files: &mut Store<'_>) -> bool {
    let Ok(mut source) = files.open_in("pieces.bin") else {
        return false;
    };
    let mut right = true;
    for (at, count, bytes) in READS {
        right &= read(&mut source, at) == Some((count, bytes));
    }
    files.done_in(source);
    right
}

pub fn a_file_is_written_in_pieces_and_read_back(rt: &HostRuntime) -> bool {
    let mut files = RealFiles::new(rt, rt.alloc());
    hands_out_to_threads(&files);
    let written = write_pieces(&mut files, rt.alloc()) == Some(true);
    let read = is_read_back(&mut files);
    let removed = is_removed(rt, "pieces.bin");
    written && read && removed && (files.count(), files.lent()) == (0, 0)
}

/// Whether an output of this name is refused.
fn is_refused(files: &mut Store<'_>, name: &str) -> bool {
    match files.create(name) {
        Ok(sink) => {
            files.done_out(sink);
            false
        }
        Err(e) => e == DeviceErr::Failed,
    }
}

pub fn a_part_file_that_is_there_stays(rt: &HostRuntime) -> bool {
    let mut files = RealFiles::new(rt, rt.alloc());
    let laid_out = fs::write(rt, PART, "another's").is_ok();
    let refused = is_refused(&mut files, "there.txt") && files.count() == 1;
    let stays = holds(rt, PART, "another's");
    laid_out && refused && stays && is_removed(rt, PART)
}

/// Whether an output is created and appended to, and then dropped, before which its part file may be removed.
fn is_dropped(rt: &HostRuntime, files: &mut Store<'_>, removed: bool) -> bool {
    let Ok(mut sink) = files.create("gone.txt") else {
        return false;
    };
    let appended = sink.append(b"abc").is_ok();
    let gone = !removed || is_removed(rt, "gone.txt.lasline-part");
    files.done_out(sink);
    appended && gone && is_absent(rt, "gone.txt.lasline-part")
}

/// Why a name isn't opened.
fn refusal(files: &mut Store<'_>, name: &str) -> Option<DeviceErr> {
    match files.open_in(name) {
        Ok(source) => {
            files.done_in(source);
            None
        }
        Err(e) => Some(e),
    }
}

pub fn no_part_file_is_left(rt: &HostRuntime) -> bool {
    let mut files = RealFiles::new(rt, rt.alloc());
    let dropped = is_dropped(rt, &mut files, false);
    let absent = refusal(&mut files, "gone.txt") == Some(DeviceErr::Failed) && files.count() == 1;

    // The count rises where the file is gone already.
    let gone = is_dropped(rt, &mut files, true);
    dropped && absent && gone && (files.count(), files.lent()) == (2, 0)
}

/// Whether a folder and links to it, to nothing, to a device and to themselves are laid out.
fn lay_out(rt: &HostRuntime) -> bool {
    fs::create_dir(rt, "folder").is_ok()
        && is_linked(rt, "folder", "to_folder")
        && is_linked(rt, "nothing", "to_nothing")
        && is_linked(rt, "/dev/null", "to_null")
        && is_linked(rt, "ring", "ring")
}

pub fn only_a_regular_file_is_replaced(rt: &HostRuntime) -> bool {
    let mut files = RealFiles::new(rt, rt.alloc());
    let mut right = lay_out(rt);
    for name in REFUSED {
        right &= is_refused(&mut files, name);
    }
    right &= files.count() == 8;
    for part in PARTS {
        right &= is_absent(rt, part);
    }
    right &= is_link(rt, "to_null") && is_absent(rt, "nothing");
    for link in LINKS {
        right &= is_removed(rt, link);
    }
    right && fs::remove_dir(rt, "folder").is_ok()
}

/// Why an output isn't kept at whose name a link came to stand.
fn late(rt: &HostRuntime, files: &mut Store<'_>) -> Option<DeviceErr> {
    let sink = files.create("late").ok()?;
    if !is_linked(rt, "/dev/null", "late") {
        files.done_out(sink);
        return None;
    }
    files.keep("late", sink).err()
}

pub fn what_comes_to_stand_at_a_name_stays(rt: &HostRuntime) -> bool {
    let mut files = RealFiles::new(rt, rt.alloc());
    let refused = late(rt, &mut files) == Some(DeviceErr::Failed);
    let stays = is_link(rt, "late") && is_absent(rt, "late.lasline-part");
    let removed = is_removed(rt, "late");
    refused && stays && removed && (files.count(), files.lent()) == (1, 0)
}

/// Puts a text in place of the file, by the name of a link to it. The file has the first mode at the start and the
/// second before it is replaced. Answers the mode and size of the part file at the start and once an empty piece was
/// appended, and those of the file at the end.
fn replaced(rt: &HostRuntime, name: &str, first: u32, last: u32) -> Option<[Mode; 3]> {
    let mut files = RealFiles::new(rt, rt.alloc());
    let at_first = is_changed(rt, "real/o.txt", first);
    let mut sink = files.create(name).ok()?;
    sink.append(b"new text").ok()?;
    let before = mode_and_size(rt, "real/o.txt.lasline-part");
    sink.append(b"").ok()?;
    let finished = mode_and_size(rt, "real/o.txt.lasline-part");
    let at_last = is_changed(rt, "real/o.txt", last);
    files.keep(name, sink).ok()?;
    if !at_first || !at_last {
        return None;
    }
    Some([before, finished, mode_and_size(rt, "real/o.txt")])
}

/// Whether a file and links to it are laid out.
fn link_up(rt: &HostRuntime) -> bool {
    fs::create_dir(rt, "real").is_ok()
        && fs::write(rt, "real/o.txt", "old").is_ok()
        && is_linked(rt, "real/o.txt", "link.txt")
        && is_linked(rt, "link.txt", "link_to_link.txt")
}

pub fn links_are_followed_and_modes_kept(rt: &HostRuntime) -> bool {
    let mut right = link_up(rt);
    for (name, first, last) in NAMED {
        let came = replaced(rt, name, first, last);
        right &= came == Some([Some((first, 0)), Some((first, 8)), Some((last, 8))]);
    }
    right &= is_absent(rt, "real/o.txt.lasline-part");
    right &= is_link(rt, "link.txt") && is_link(rt, "link_to_link.txt");
    right &= holds(rt, "link_to_link.txt", "new text");
    for name in ["link.txt", "link_to_link.txt", "real/o.txt"] {
        right &= is_removed(rt, name);
    }
    right && fs::remove_dir(rt, "real").is_ok()
}
