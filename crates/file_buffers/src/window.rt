//! A block of a file that is held in memory.
ghost use Rattle.std.specs.Prelude.{◌≡◌, ◌+◌, ◌-◌, ◌^◌, ◌<◌, ◌≤◌, ◌↔◌, List, ℕ, length, take, drop, min, IfOk, OnOk, OnErr, IfSome, IfNone, IsSome, vec_len, slice_range};

use file_devices::Failed;
use std::io::ErrorKind;
use std::os::unix::fs::FileExt;

// How often a read is tried that signals interrupt.
const MOST_TRIES: u32 = 16;

// The first `held` bytes of the block are those of the file from place `start` on.
#[derive(Drop)]
pub(crate) struct Window {
    block: Vec<u8>,
    start: u64,
    held: usize,
    ghost within: { held ≤ vec_len block },
    ghost small: { start + held < 2 ^ 64 },
}

// Copies as much as there is and as there is room for.
fn copy(bytes: &[u8], into: &mut [u8]) -> usize
    ensures count { result ≡ min (length bytes.now) (length into.old) }
    ensures copied { take result into.new ≡ take result bytes.now }
    ensures rest { drop result into.new ≡ drop result into.old }
{
    let count = bytes.len().min(into.len());
    into[..count].copy_from_slice(&bytes[..count]);
    count
}

// Reads into a block, and once more where a signal interrupts it.
fn read_patiently<F: FileExt>(file: &F, at: u64, block: &mut [u8]) -> Result<usize, Failed>
    ensures within { IfOk result (λ n. n ≤ length block.old) }
{
    for _ in 0..MOST_TRIES {
        match file.read_at(block, at) {
            Ok(count) => return Ok(count),
            Err(e) if e.kind() == ErrorKind::Interrupted => {}
            Err(_) => return Err(Failed),
        }
    }
    Err(Failed)
}

// Reads into a block, which is of the reader's own since a read of std doesn't say that it leaves the
// rest of its buffer alone.
fn read_block<F: FileExt>(file: &F, at: u64, block: &mut [u8]) -> Result<usize, Failed>
    ensures within { IfOk result (λ n. n ≤ length block.old) }
    ensures small { IfOk result (λ n. at + n < 2 ^ 64) }
{
    let count = read_patiently(file, at, block)?;
    at.checked_add(count as u64).ok_or(Failed)?;
    Ok(count)
}

impl Window {
    // A window that holds nothing yet, and takes blocks of this size.
    pub(crate) fn new(block: Vec<u8>) -> Self
        ensures empty { result.held ≡ 0 }
        ensures block { result.block.items ≡ block.items }
    {
        Window {
            block,
            start: 0,
            held: 0,
        }
    }

    // Copies what it holds from a place on, and gives how many bytes they are, or None exactly where it
    // doesn't hold the place.
    pub(crate) fn read(&self, at: u64, into: &mut [u8]) -> Option<usize>
        ensures inside { IsSome result ↔ ((self.now.start ≤ at) × (at < self.now.start + self.now.held)) }
        ensures count { IfSome result (λ n. n ≡ min (self.now.held - (at - self.now.start)) (length into.old)) }
        ensures copied { IfSome result (λ n. take n into.new
            ≡ take n (slice_range self.now.block.items (at - self.now.start) self.now.held)) }
        ensures rest { IfSome result (λ n. drop n into.new ≡ drop n into.old) }
        ensures fits { IfSome result (λ n. at + n < 2 ^ 64) }
        ensures untouched { IfNone result (into.new ≡ into.old) }
    {
        if at < self.start || at - self.start >= self.held as u64 {
            return None;
        }
        let from = (at - self.start) as usize;
        Some(copy(&self.block[from..self.held], into))
    }

    // Takes the block of the file at a place. After a failure it holds nothing.
    pub(crate) fn refill<F: FileExt>(&mut self, file: &F, at: u64) -> Result<(), Failed>
        ensures start { OnOk result (self.new.start ≡ at) }
        ensures err { OnErr result (self.new.held ≡ 0) }
    {
        self.start = 0;
        self.held = 0;
        let count = read_block(file, at, &mut self.block)?;
        self.start = at;
        self.held = count;
        Ok(())
    }
}
