//! Files in memory, of which it is noted in which order they are read and written.

use file_devices::{DeviceErr, Failed, FileSink, Files, MemFiles, MemIn, MemOut, Sink, Source};
use std::alloc::{AllocError, Global};
use std::sync::Arc;
use std::sync::atomic::{AtomicBool, Ordering};

/// What is noted of the files.
#[derive(Drop)]
struct Notes {
    written: AtomicBool,
    in_time: AtomicBool,
}

/// Files in memory. It is noted whether a sink of them holds more than a heading when a source of them is
/// read to its end.
#[derive(Drop)]
pub(crate) struct WatchedFiles {
    files: MemFiles,
    end: u64,
    heading: u64,
    notes: Arc<Notes>,
}

/// A source of them.
#[derive(Drop)]
pub(crate) struct WatchedIn {
    source: MemIn,
    end: u64,
    notes: Arc<Notes>,
}

/// A sink of them.
#[derive(Drop)]
pub(crate) struct WatchedOut {
    sink: MemOut,
    heading: u64,
    notes: Arc<Notes>,
}

impl WatchedFiles {
    /// These files, where a source has so many bytes, and a heading so many.
    pub(crate) fn new(
        alloc: Global,
        files: MemFiles,
        end: u64,
        heading: u64,
    ) -> Result<WatchedFiles, AllocError> {
        let notes = Arc::new(
            alloc,
            Notes {
                written: AtomicBool::new(false),
                in_time: AtomicBool::new(false),
            },
        )?;
        Ok(WatchedFiles {
            files,
            end,
            heading,
            notes,
        })
    }

    /// Whether a sink held more than a heading when a source was read to its end.
    pub(crate) fn was_in_time(&self) -> bool {
        self.notes.in_time.load(Ordering::SeqCst)
    }
}

impl Source for WatchedIn {
    ghost bytes = { λ s. ⟦<MemIn as Source>⟧.bytes s.source };

    ghost reached = { λ s. ⟦<MemIn as Source>⟧.reached s.source };

    ghost faults = { λ s. ⟦<MemIn as Source>⟧.faults s.source };

    fn read_at(&mut self, at: u64, into: &mut [u8]) -> Result<usize, Failed> {
        let count = self.source.read_at(at, into)?;
        if at.saturating_add(count as u64) >= self.end
            && self.notes.written.load(Ordering::SeqCst)
        {
            self.notes.in_time.store(true, Ordering::SeqCst);
        }
        Ok(count)
    }

    ghost use Rattle.file_devices.specs.Sure.{short_list};

    ghost small = { λ s b e. short_list s.source.content.items b s.source.small e };
}

impl Sink for WatchedOut {
    ghost bytes = { λ s. ⟦<MemOut as Sink>⟧.bytes s.sink };

    ghost appended = { λ s. ⟦<MemOut as Sink>⟧.appended s.sink };

    ghost faults = { λ s. ⟦<MemOut as Sink>⟧.faults s.sink };

    fn append(&mut self, piece: &[u8]) -> Result<(), Failed> {
        self.sink.append(piece)?;
        if self.sink.bytes().len() as u64 > self.heading {
            self.notes.written.store(true, Ordering::SeqCst);
        }
        Ok(())
    }

    ghost use Rattle.std.specs.Prelude.{◌^◌, ◌-◌, [], length, min, unwrap_or};
    ghost use Rattle.std.proofs.Common.{ap};

    ghost counted = { λ s b e. ap (λ o. min (length (unwrap_or o [])) (2 ^ 64 - 1)) e };
}

impl FileSink for WatchedOut {
    fn patch(&mut self, at: u64, piece: &[u8]) -> Result<(), Failed> {
        self.sink.patch(at, piece)
    }
}

impl Files for WatchedFiles {
    type In = WatchedIn;

    type Out = WatchedOut;

    ghost map = { λ s. ⟦<MemFiles as Files>⟧.map s.files };

    ghost read_to = { λ s. ⟦<MemFiles as Files>⟧.read_to s.files };

    ghost lent = { λ s. ⟦<MemFiles as Files>⟧.lent s.files };

    ghost faults = { λ s. ⟦<MemFiles as Files>⟧.faults s.files };

    ghost counts = { λ s. ⟦<MemFiles as Files>⟧.counts s.files };

    fn open_in(&mut self, name: &str) -> Result<WatchedIn, DeviceErr> {
        let notes = Arc::try_clone(&self.notes)?;
        let source = self.files.open_in(name)?;
        Ok(WatchedIn {
            source,
            end: self.end,
            notes,
        })
    }

    fn create(&mut self, name: &str) -> Result<WatchedOut, DeviceErr> {
        let notes = Arc::try_clone(&self.notes)?;
        let sink = self.files.create(name)?;
        Ok(WatchedOut {
            sink,
            heading: self.heading,
            notes,
        })
    }

    fn keep(&mut self, name: &str, out: WatchedOut) -> Result<(), DeviceErr> {
        self.files.keep(name, out.sink)
    }

    fn done_in(&mut self, source: WatchedIn) {
        self.files.done_in(source.source);
    }

    fn done_out(&mut self, out: WatchedOut) {
        self.files.done_out(out.sink);
    }

    fn hash_seed(&self) -> u64 {
        self.files.hash_seed()
    }
}
