//! A file that is read through a window.
ghost use Rattle.std.specs.Prelude.{◌≡◌, ◌+◌, ◌-◌, ◌^◌, ◌<◌, ◌≤◌, ℕ, List, length, take, max, None, IfOk, IfSome, OnErr, slice_range};
ghost use Rattle.file_devices.specs.Counts.{HasCause};
ghost use Rattle.file_devices.specs.Content.{ReadsAt};
ghost use Rattle.file_buffers.specs.Untold.{untold};

use crate::window::Window;
use file_devices::{Failed, Source};
use std::os::unix::fs::FileExt;

// The greatest place that the system can read at.
const LAST_PLACE: u64 = i64::MAX as u64;

/// An open file that is read at a place.
///
/// It holds a block of the file: a read inside the block asks the system for nothing, and gives at most
/// what is left of the block. A read elsewhere takes a new block first. Its bytes aren't told.
#[derive(Drop)]
pub struct BlockReader<F: FileExt> {
    file: F,
    window: Window,
    reached: u64,
    faults: u64,
}

impl<F: FileExt> BlockReader<F> {
    /// A reader that takes blocks of the size of this one, whose bytes don't matter.
    pub fn new(file: F, block: Vec<u8>) -> Self
        ensures reached { ⟦<BlockReader<F> as Source>⟧.reached result ≡ 0 }
        ensures faults { ⟦<BlockReader<F> as Source>⟧.faults result ≡ 0 }
    {
        BlockReader {
            file,
            window: Window::new(block),
            reached: 0,
            faults: 0,
        }
    }

    /// The count of faults.
    pub fn faults(&self) -> u64
        ensures { result ≡ ⟦<BlockReader<F> as Source>⟧.faults self.now }
    {
        self.faults
    }
}

impl<F: FileExt> Source for BlockReader<F> {
    ghost bytes = { λ _. untold };

    ghost reached = { λ s. s.reached };

    ghost faults = { λ s. s.faults };

    fn read_at(&mut self, at: u64, into: &mut [u8]) -> Result<usize, Failed>
        ensures bytes { untold ≡ untold }
        ensures read { IfOk result (λ n. ReadsAt untold at n into.old into.new) }
        ensures reached { IfOk result (λ n. self.new.reached ≡ max self.old.reached (at + n)) }
        ensures err { OnErr result (self.new.reached ≡ self.old.reached) }
        ensures cause { HasCause self.old.faults self.new.faults result }

        // It gives what the window holds, and takes a new window only where the place isn't in it.
        ensures given { IfOk result (λ n. take n into.new ≡ take n
            (slice_range self.new.window.block.items (at - self.new.window.start) self.new.window.held)) }
        ensures end { IfOk result (λ n. 0 < length into.old → at < 2 ^ 63 → n ≡ 0 → self.new.window.held ≡ 0) }
        ensures within { self.old.window.start ≤ at → at < self.old.window.start + self.old.window.held
            → self.new.window ≡ self.old.window }
    {
        if into.is_empty() || at > LAST_PLACE {
            self.reached = self.reached.max(at);
            return Ok(0);
        }
        if let Some(count) = self.window.read(at, into) {
            self.reached = self.reached.max(at + count as u64);
            return Ok(count);
        }
        if self.window.refill(&self.file, at).is_err() {
            self.faults = self.faults.saturating_add(1);
            return Err(Failed);
        }
        // At the end of the file the window holds nothing.
        let count = self.window.read(at, into).unwrap_or(0);
        self.reached = self.reached.max(at + count as u64);
        Ok(count)
    }

    ghost use Rattle.file_buffers.specs.Untold.{untold_is_short};

    ghost small = { λ s b e. untold_is_short b e };
}
