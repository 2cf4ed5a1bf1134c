//! A file that gets its name when it is kept.
ghost use Rattle.std.specs.Prelude.{◌≡◌, ◌+◌, ◌≤◌, length, OnOk, OnErr, string_bytes};
ghost use Rattle.file_devices.specs.Counts.{HasCause, saturating};
ghost use Rattle.file_devices.specs.Content.{Appends, AppendsPart};
ghost use Rattle.file_buffers.specs.Untold.{untold};

use file_buffers::BlockWriter;
use file_devices::{Failed, FileSink, Sink};

/// A file that is written under another name until it is kept.
///
/// An empty piece writes what waits and hands all of it to the device. After a failed write every further call
/// fails, and the file can't be kept. Its bytes aren't told.
#[derive(Drop)]
pub struct RealOut {
    pub(crate) writer: BlockWriter,

    // The name that it is written under.
    pub(crate) part: String,
}

impl Sink for RealOut {
    ghost bytes = { λ _. untold };

    ghost appended = { λ s. ⟦<BlockWriter as Sink>⟧.appended s.writer };

    ghost faults = { λ s. ⟦<BlockWriter as Sink>⟧.faults s.writer };

    ghost use Rattle.file_buffers.specs.Finished.{IsFinished};

    fn append(&mut self, piece: &[u8]) -> Result<(), Failed>
        ensures ok { OnOk result (Appends untold piece.now untold) }
        ensures part { OnErr result (AppendsPart untold piece.now untold) }
        ensures count { OnOk result (⟦<BlockWriter as Sink>⟧.appended self.new.writer
            ≡ saturating (⟦<BlockWriter as Sink>⟧.appended self.old.writer) (length piece.now)) }
        ensures no_less { ⟦<BlockWriter as Sink>⟧.appended self.old.writer
            ≤ ⟦<BlockWriter as Sink>⟧.appended self.new.writer }
        ensures no_more { ⟦<BlockWriter as Sink>⟧.appended self.new.writer
            ≤ saturating (⟦<BlockWriter as Sink>⟧.appended self.old.writer) (length piece.now) }
        ensures cause { HasCause (⟦<BlockWriter as Sink>⟧.faults self.old.writer)
            (⟦<BlockWriter as Sink>⟧.faults self.new.writer) result }

        // An empty piece sends all that waits to the device.
        ensures finished { length piece.now ≡ 0 → OnOk result (IsFinished self.new.writer) }
    {
        self.writer.append(piece)
    }

    ghost use Rattle.file_buffers.specs.Untold.{untold_is_counted};

    ghost counted = { λ s b e. untold_is_counted (⟦<BlockWriter as Sink>⟧.appended s.writer) b e };
}

impl FileSink for RealOut {
    fn patch(&mut self, at: u64, piece: &[u8]) -> Result<(), Failed> {
        self.writer.patch(at, piece)
    }
}
