//! A file that is written through a buffer.
ghost use Rattle.std.specs.Prelude.{◌≡◌, ◌+◌, ◌-◌, ◌^◌, ◌<◌, ◌≤◌, ◌++◌, [], List, ℕ, length, min, None, true, false, OnOk, OnErr, vec_len, vec_capacity};
ghost use Rattle.file_devices.specs.Counts.{HasCause, Rose, saturating};
ghost use Rattle.file_devices.specs.Content.{Appends, AppendsPart, Patches, PatchesSomehow};
ghost use Rattle.file_buffers.specs.Untold.{untold};
ghost use Rattle.file_buffers.specs.Waiting.{waiting_after};

use file_devices::{Failed, FileSink, Sink};
use std::fs::{File, Permissions};
use std::io;
use std::os::unix::fs::{FileExt, PermissionsExt};

/// An open file that is written at its end.
///
/// Pieces wait in a buffer and are written together, so a write that fails may be answered by a later
/// call. An empty piece writes what waits and hands all of it to the device. After a failed write every
/// further call fails. Its bytes aren't told.
#[derive(Drop)]
pub struct BlockWriter {
    file: File,
    waiting: Vec<u8>,
    room: usize,
    start: u64,
    // Nothing was written since all was handed to the device.
    synced: bool,
    broken: bool,
    faults: u64,
    ghost within: { vec_len waiting ≤ room },
    ghost reserved: { room ≤ vec_capacity waiting },
    ghost small: { start + vec_len waiting < 2 ^ 64 },
}

impl BlockWriter {
    ghost use Rattle.file_buffers.specs.Finished.{IsFinished};

    /// A sink over a new file, whose buffer is a vector with room for `room` bytes.
    pub fn new(file: File, buffer: Vec<u8>, room: usize) -> Self
        requires empty { buffer.items ≡ [] }
        requires reserved { room ≤ vec_capacity buffer }
        ensures appended { ⟦<BlockWriter as Sink>⟧.appended result ≡ 0 }
        ensures faults { ⟦<BlockWriter as Sink>⟧.faults result ≡ 0 }
        ensures fresh { (result.broken ≡ false) × (result.synced ≡ false) }
    {
        BlockWriter {
            file,
            waiting: buffer,
            room,
            start: 0,
            synced: false,
            broken: false,
            faults: 0,
        }
    }

    /// The count of faults.
    pub fn faults(&self) -> u64
        ensures { result ≡ ⟦<BlockWriter as Sink>⟧.faults self.now }
    {
        self.faults
    }

    /// Lets those and no others read, write and run the file whom this mode lets.
    pub fn set_mode(&self, mode: u32) -> io::Result<()> {
        self.file.set_permissions(Permissions::from_mode(mode))
    }

    // Counts a failed write, after which the file isn't whole.
    fn fail(&mut self) -> Failed
        ensures rose { self.new.faults ≡ saturating self.old.faults 1 }
        ensures later { self.old.faults ≤ self.new.faults }
        ensures broken { self.new.broken ≡ true }
        ensures room { self.new.room ≡ self.old.room }
        ensures appended { self.new.start + vec_len self.new.waiting
            ≡ self.old.start + vec_len self.old.waiting }
    {
        self.faults = self.faults.saturating_add(1);
        self.broken = true;
        Failed
    }

    // Lets a piece wait behind the others. There is room for it.
    fn wait(&mut self, piece: &[u8])
        requires room { vec_len self.old.waiting + length piece.now ≤ self.old.room }
        requires small { self.old.start + (vec_len self.old.waiting + length piece.now) < 2 ^ 64 }
        ensures waiting { self.new.waiting.items ≡ self.old.waiting.items ++ piece.now }
        ensures same { (self.new.start ≡ self.old.start) × (self.new.synced ≡ self.old.synced)
            × (self.new.broken ≡ self.old.broken) × (self.new.faults ≡ self.old.faults) }
    {
        self.waiting.extend_from_slice(piece).unwrap();
    }

    // Writes what waits. It fails where this or an earlier write failed, so after Ok all bytes that were
    // appended have gone to the system.
    fn flush(&mut self) -> Result<(), Failed>
        ensures none_waits { OnOk result (self.new.waiting.items ≡ []) }
        ensures whole { OnOk result (self.new.broken ≡ false) }
        ensures broken { OnErr result (self.new.broken ≡ true) }
        ensures appended { self.new.start + vec_len self.new.waiting
            ≡ self.old.start + vec_len self.old.waiting }
        ensures unsynced { OnOk result (self.new.synced ≡ true
            → (self.new.start ≡ self.old.start) × (self.old.synced ≡ true)) }
        ensures room { self.new.room ≡ self.old.room }
        ensures cause { HasCause self.old.faults self.new.faults result }
    {
        if self.broken {
            return Err(self.fail());
        }
        if self.waiting.is_empty() {
            return Ok(());
        }
        self.synced = false;
        if self.file.write_all_at(&self.waiting, self.start).is_err() {
            return Err(self.fail());
        }
        self.start += self.waiting.len() as u64;
        self.waiting.clear();
        Ok(())
    }

    /// Writes what waits and hands all that was written to the device, which may tell only then that a
    /// write failed.
    pub fn finish(&mut self) -> Result<(), Failed>
        ensures finished { OnOk result (IsFinished self.new) }
        ensures broken { OnErr result (self.new.broken ≡ true) }
        ensures appended { self.new.start + vec_len self.new.waiting
            ≡ self.old.start + vec_len self.old.waiting }
        ensures cause { HasCause self.old.faults self.new.faults result }
    {
        self.flush()?;
        if self.synced {
            return Ok(());
        }
        if self.file.sync_data().is_err() {
            return Err(self.fail());
        }
        self.synced = true;
        Ok(())
    }
}

impl Sink for BlockWriter {
    ghost use Rattle.file_buffers.specs.Finished.{IsFinished};

    ghost bytes = { λ _. untold };

    ghost appended = { λ s. s.start + vec_len s.waiting };

    ghost faults = { λ s. s.faults };

    fn append(&mut self, piece: &[u8]) -> Result<(), Failed>
        ensures ok { OnOk result (Appends untold piece.now untold) }
        ensures part { OnErr result (AppendsPart untold piece.now untold) }
        ensures count { OnOk result (self.new.start + vec_len self.new.waiting
            ≡ saturating (self.old.start + vec_len self.old.waiting) (length piece.now)) }
        ensures no_less { self.old.start + vec_len self.old.waiting
            ≤ self.new.start + vec_len self.new.waiting }
        ensures no_more { self.new.start + vec_len self.new.waiting
            ≤ saturating (self.old.start + vec_len self.old.waiting) (length piece.now) }
        ensures cause { HasCause self.old.faults self.new.faults result }

        // Nothing is lost on the way to the system, and nothing is written after a failure.
        ensures waiting { 0 < length piece.now → OnOk result (self.new.waiting.items
            ≡ waiting_after self.old.room self.old.waiting.items piece.now) }
        ensures unsynced { 0 < length piece.now → OnOk result (self.new.synced ≡ true
            → (self.new.start ≡ self.old.start) × (self.old.synced ≡ true)) }
        ensures whole { OnOk result (self.new.broken ≡ false) }
        ensures broken { OnErr result (self.new.broken ≡ true) }

        // An empty piece sends all that waits to the device.
        ensures finished { length piece.now ≡ 0 → OnOk result (IsFinished self.new) }
    {
        if piece.is_empty() {
            return self.finish();
        }
        let end = self.start + self.waiting.len() as u64;
        if self.broken || end.checked_add(piece.len() as u64).is_none() {
            return Err(self.fail());
        }
        if piece.len() <= self.room - self.waiting.len() {
            self.wait(piece);
            return Ok(());
        }
        self.flush()?;
        if piece.len() <= self.room {
            self.wait(piece);
            return Ok(());
        }
        self.synced = false;
        if self.file.write_all_at(piece, self.start).is_err() {
            return Err(self.fail());
        }
        self.start += piece.len() as u64;
        Ok(())
    }

    ghost use Rattle.file_buffers.specs.Untold.{untold_is_counted};

    ghost counted = { λ s b e. untold_is_counted (s.start + vec_len s.waiting) b e };
}

impl FileSink for BlockWriter {
    fn patch(&mut self, at: u64, piece: &[u8]) -> Result<(), Failed>
        requires { at + length piece.now ≤ self.old.start + vec_len self.old.waiting }
        ensures ok { OnOk result (Patches untold at piece.now untold) }
        ensures err { OnErr result (PatchesSomehow untold at (length piece.now) untold) }
        ensures count { self.new.start + vec_len self.new.waiting ≡ self.old.start + vec_len self.old.waiting }
        ensures cause { HasCause self.old.faults self.new.faults result }

        // What waited was written before it, and nothing is written after a failure.
        ensures none_waits { OnOk result (self.new.waiting.items ≡ []) }
        ensures unsynced { OnOk result (self.new.synced ≡ false) }
        ensures whole { OnOk result (self.new.broken ≡ false) }
        ensures broken { OnErr result (self.new.broken ≡ true) }
    {
        self.flush()?;
        self.synced = false;
        if self.file.write_all_at(piece, at).is_err() {
            return Err(self.fail());
        }
        Ok(())
    }
}
