//! A stream of the system as a sink.
ghost use Rattle.std.specs.Prelude.{◌≡◌, ◌≤◌, length, OnOk, OnErr};
ghost use Rattle.std.specs.Io.KnownBytes.{Appends as Written};
ghost use Rattle.file_devices.specs.Content.{Appends, AppendsPart};
ghost use Rattle.file_devices.specs.Counts.{HasCause, saturating};
ghost use Rattle.file_buffers.specs.Untold.{untold};

use file_devices::{Failed, Sink};
use std::io::Write;

/// A sink over a writer, such as the standard output or the standard error of the program.
///
/// Each piece is written whole and flushed. Its bytes aren't told.
#[derive(Drop)]
pub struct RealStream<W: Write> {
    out: W,
    appended: u64,
    faults: u64,
}

impl<W: Write> RealStream<W> {
    /// A sink that writes to `out`.
    pub fn new(out: W) -> Self
        ensures appended { ⟦<RealStream<W> as Sink>⟧.appended result ≡ 0 }
        ensures faults { ⟦<RealStream<W> as Sink>⟧.faults result ≡ 0 }
    {
        RealStream {
            out,
            appended: 0,
            faults: 0,
        }
    }
}

impl<W: Write> Sink for RealStream<W> {
    ghost bytes = { λ _. untold };

    ghost appended = { λ s. s.appended };

    ghost faults = { λ s. s.faults };

    fn append(&mut self, piece: &[u8]) -> Result<(), Failed>
        ensures ok { OnOk result (Appends untold piece.now untold) }
        ensures part { OnErr result (AppendsPart untold piece.now untold) }
        ensures count { OnOk result (self.new.appended ≡ saturating self.old.appended (length piece.now)) }
        ensures no_less { self.old.appended ≤ self.new.appended }
        ensures no_more { self.new.appended ≤ saturating self.old.appended (length piece.now) }
        ensures cause { HasCause self.old.faults self.new.faults result }

        // Where the writer says what it holds, the piece is behind it.
        ensures written { OnOk result (Written (W.contents self.old.out) (W.contents self.new.out) piece.now) }
    {
        let appended = self.appended.saturating_add(piece.len() as u64);
        if self.out.write_all(piece).is_err() || self.out.flush().is_err() {
            self.faults = self.faults.saturating_add(1);
            return Err(Failed);
        }
        self.appended = appended;
        Ok(())
    }

    ghost use Rattle.file_buffers.specs.Untold.{untold_is_counted};

    ghost counted = { λ s b e. untold_is_counted s.appended b e };
}
