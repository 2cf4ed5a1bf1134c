//! Two stages whose turns wait for one another.

use crate::runs::{files_of, run_line};
use file_devices::Gate;
use recorded_files::two_points;
use std::alloc::{AllocError, Global};
use std::hint;
use std::sync::Wait;
use std::sync::atomic::{AtomicBool, Ordering};
use std::thread::Threads;

/// How often a stage looks whether the other one came, at most.
const LOOKS: u32 = 200_000_000;

/// Has the turns of stages 1 and 2 wait for one another, as long as the other one never came.
#[derive(Drop)]
struct Meeting {
    first: AtomicBool,
    second: AtomicBool,
    missed: AtomicBool,
}

impl Meeting {
    fn new() -> Meeting {
        Meeting {
            first: AtomicBool::new(false),
            second: AtomicBool::new(false),
            missed: AtomicBool::new(false),
        }
    }

    /// Tells that one came, and waits for the other.
    fn meet(&self, one: &AtomicBool, other: &AtomicBool) {
        one.store(true, Ordering::SeqCst);
        for _ in 0..LOOKS {
            if other.load(Ordering::SeqCst) {
                return;
            }
            hint::spin_loop();
        }
        self.missed.store(true, Ordering::SeqCst);
    }

    /// Whether each of them came, and whether one of them waited in vain.
    fn came(&self) -> [bool; 3] {
        [
            self.first.load(Ordering::SeqCst),
            self.second.load(Ordering::SeqCst),
            self.missed.load(Ordering::SeqCst),
        ]
    }
}

impl Gate for Meeting {
    fn before(&self, _worker: u32, stage: u32) -> bool {
        if stage == 1 {
            self.meet(&self.first, &self.second);
        }
        if stage == 2 {
            self.meet(&self.second, &self.first);
        }
        true
    }
}

/// The exit code of a run of three stages on three threads.
fn run_three<R: Threads + Wait + Sync>(
    rt: &R,
    alloc: Global,
    gate: &Meeting,
) -> Result<u8, AllocError> {
    let pipeline = r#"["in.las",{"type":"filters.head"},"o.txt"]"#;
    let mut files = files_of(alloc, pipeline, &two_points())?;
    let line = "run p.json --workers 3 --patience 1000000";
    run_line(rt, alloc, line, &mut files, gate)
}

/// A turn of stage 1 goes on while one of stage 2 does: neither ends before the other one began.
pub fn two_stages_wait_for_one_another<R: Threads + Wait + Sync>(rt: &R, alloc: Global) -> bool {
    let gate = Meeting::new();
    run_three(rt, alloc, &gate) == Ok(0) && gate.came() == [true, true, false]
}
