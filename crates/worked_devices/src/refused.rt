//! Outputs over a system where one thing goes another way.

use crate::bent::{Bend, Bent};
use crate::system::{holds, is_absent, is_changed, is_linked, is_removed};
use file_devices::{DeviceErr, Files, Sink};
use real_files::RealFiles;
use std::alloc::Global;
use std::fs;

/// Lengths of two pieces that are appended to a new file, which of them is refused, and what the file can't.
const UNWRITTEN: [(Bend, usize, usize, bool, bool); 5] = [
    (Bend::Unsynced, 3, 0, false, true),
    (Bend::Unsynced, 3, 3, false, false),
    (Bend::Unsynced, 0, 3, true, true),
    (Bend::Fixed, 3, 0, false, true),
    (Bend::Fixed, 140_000, 3, true, true),
];

/// Why an output isn't created.
fn create_err(system: &Bent<'_>, alloc: Global, name: &str) -> Option<DeviceErr> {
    let mut files = RealFiles::new(system, alloc);
    match files.create(name) {
        Ok(sink) => {
            files.done_out(sink);
            None
        }
        Err(e) => Some(e),
    }
}

/// The file that is printed to, and its other names.
const PRINTED: [&str; 3] = ["printed.txt", "same.txt", "to_printed.txt"];

/// Whether no name of the file that this stream goes to is an output, and another one is.
fn is_kept_from(rt: &HostRuntime, stream: &'static str) -> bool {
    let system = Bent::new(rt, Bend::Printed(stream));
    let mut right = create_err(&system, rt.alloc(), "another.txt").is_none();
    for name in PRINTED {
        right &= create_err(&system, rt.alloc(), name) == Some(DeviceErr::Failed);
    }
    right
}

pub fn the_file_that_is_printed_to_is_no_output(rt: &HostRuntime) -> bool {
    let mut right = fs::write(rt, "printed.txt", "report").is_ok()
        && fs::hard_link(rt, "printed.txt", "same.txt").is_ok()
        && is_linked(rt, "printed.txt", "to_printed.txt");
    right &= is_kept_from(rt, "/dev/stdout") && is_kept_from(rt, "/dev/stderr");
    for name in ["to_printed.txt", "same.txt", "printed.txt"] {
        right &= holds(rt, name, "report") && is_removed(rt, name);
    }
    right && is_absent(rt, "printed.txt.lasline-part") && is_absent(rt, "same.txt.lasline-part")
}

/// Whether the part file of a file with this mode is open to nobody else as soon as it is there.
fn is_closed(rt: &HostRuntime, mode: u32) -> bool {
    let system = Bent::new(rt, Bend::Nothing);
    is_changed(rt, "closed.txt", mode)
        && create_err(&system, rt.alloc(), "closed.txt").is_none()
        && system.first_mode.get() | mode == mode
}

pub fn a_part_file_is_never_open_to_others(rt: &HostRuntime) -> bool {
    let mut right = fs::write(rt, "closed.txt", "old").is_ok();
    for mode in [0o600, 0o444, 0o000] {
        right &= is_closed(rt, mode);
    }

    // Where it can't be given its mode, there is none.
    let system = Bent::new(rt, Bend::Fixed);
    right &= create_err(&system, rt.alloc(), "closed.txt") == Some(DeviceErr::Failed);
    right && is_absent(rt, "closed.txt.lasline-part") && is_removed(rt, "closed.txt")
}

/// Why an output isn't kept whose name can't be looked at any more.
fn unseen_err(system: &Bent<'_>, alloc: Global) -> Option<DeviceErr> {
    let mut files = RealFiles::new(system, alloc);
    let sink = files.create("unseen.txt").ok()?;
    system.bend.set(Bend::Unseen("unseen.txt"));
    files.keep("unseen.txt", sink).err()
}

pub fn a_name_that_cannot_be_looked_at_is_refused(rt: &HostRuntime) -> bool {
    let system = Bent::new(rt, Bend::Nothing);
    unseen_err(&system, rt.alloc()) == Some(DeviceErr::Failed)
        && create_err(&system, rt.alloc(), "unseen.txt") == Some(DeviceErr::Failed)
        && is_absent(rt, "unseen.txt")
        && is_absent(rt, "unseen.txt.lasline-part")
}

/// Whether the first and the second of two pieces of these lengths is refused by a new file, and whether it isn't kept
/// then.
fn refusals(system: &Bent<'_>, alloc: Global, first: usize, second: usize) -> Option<[bool; 3]> {
    let first = vec![in alloc; 1u8; first].ok()?;
    let second = vec![in alloc; 1u8; second].ok()?;
    let mut files = RealFiles::new(system, alloc);
    let mut sink = files.create("late.txt").ok()?;
    let early = sink.append(&first).is_err();
    let late = sink.append(&second).is_err();
    Some([early, late, files.keep("late.txt", sink).is_err()])
}

pub fn a_file_that_was_not_written_is_not_kept(rt: &HostRuntime) -> bool {
    let mut right = true;
    for (bend, first, second, early, late) in UNWRITTEN {
        let system = Bent::new(rt, bend);
        right &= refusals(&system, rt.alloc(), first, second) == Some([early, late, true]);
    }
    right && is_absent(rt, "late.txt") && is_absent(rt, "late.txt.lasline-part")
}
