//! The program, over any files and streams.

ghost use Rattle.std.specs.Prelude.{◌≡◌, map, IfOk, OnErr, string_bytes};
ghost use Rattle.plug_stages.specs.Handed.{handed_by};
ghost use Rattle.run_report.specs.declared.refusal.Refusal.{Refusal};
ghost use Rattle.run_report.specs.Faults.{fault_line};
ghost use Rattle.lasline_top.specs.declared.status.Status.{Status};
ghost use Rattle.lasline_top.specs.Back.{IsHandedBack, IsRemembered};
ghost use Rattle.lasline_top.specs.Calls.{HasExited, seen};
ghost use Rattle.lasline_top.specs.Words.{task_of};
ghost use Rattle.lasline_top.specs.Cause.{ToldWhy};
ghost use Rattle.lasline_top.specs.Codes.{code_of};

use crate::solo::refused;
use crate::status::Status;
use crate::threads::lasline_plugged;
use file_devices::{Files, Gate, Sink};
use plug_stages::{BoxedFilter, BoxedTally, PlugFilter, PlugTally, Plugs};
use run_report::Refusal;
use std::alloc::{AllocError, Global};
use std::sync::Wait;
use std::thread::Threads;

/// Lets each worker take each turn.
pub struct AlwaysOpen;

impl Gate for AlwaysOpen {
    fn before(&self, _worker: u32, _stage: u32) -> bool {
        true
    }
}

/// Does the command of the words, with these filters and tallies, and answers the exit code of its status: 0 where all was done, else 1
/// to 5. The filters and tallies are handed back as `lasline_plugged` says.
///
/// Where there was no memory for the words themselves nothing is done, and it is refused for that.
pub fn run_program<F: Files, K: Sink, E: Sink, R: Threads + Wait + Sync>(
    rt: &R,
    alloc: Global,
    words: Result<Vec<String>, AllocError>,
    files: &mut F,
    out: &mut K,
    err: &mut E,
    plugs: &mut Plugs,
) -> u8
where
    F::In: Send,
    F::Out: Send,
    ensures exited { IfOk words (λ words. HasExited
        (handed_by ⟦<BoxedFilter as PlugFilter>⟧ ⟦<BoxedTally as PlugTally>⟧ plugs.old)
        (map string_bytes words.items)
        (seen F.Files K.Sink E.Sink files.old out.old err.old)
        (seen F.Files K.Sink E.Sink files.new out.new err.new)
        result) }
    ensures back { IfOk words (λ words. IsHandedBack
        ⟦<BoxedFilter as PlugFilter>⟧ ⟦<BoxedTally as PlugTally>⟧ (task_of (map string_bytes words.items))
        (F.map files.old) (F.map files.new) plugs.old plugs.new) }
    ensures remembered { IfOk words (λ words. result ≡ code_of Status.Ok → IsRemembered
        ⟦<BoxedFilter as PlugFilter>⟧ ⟦<BoxedTally as PlugTally>⟧ (task_of (map string_bytes words.items))
        (F.map files.old) (F.map files.new) plugs.old plugs.new) }
    ensures code { OnErr words (result ≡ code_of Status.Memory) }
    ensures told_why { OnErr words (ToldWhy (E.bytes err.old) (E.bytes err.new) (E.faults err.old)
        (E.faults err.new) (fault_line Refusal.Memory)) }
    ensures idle { OnErr words ((files.new ≡ files.old) × (out.new ≡ out.old) × (plugs.new ≡ plugs.old)) }
{
    match words {
        Ok(words) => {
            lasline_plugged(rt, alloc, &words, files, out, err, &AlwaysOpen, plugs).code()
        },
        Err(_) => refused(Refusal::Memory, err).code(),
    }
}
