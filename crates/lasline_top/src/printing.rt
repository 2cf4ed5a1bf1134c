//! What a command prints.

ghost use Rattle.std.specs.Prelude.{◌≡◌, ◌≤◌, IfErr, OnOk, OnErr};
ghost use Rattle.file_devices.specs.Counts.{Rose};
ghost use Rattle.file_devices.specs.Content.{Appends, AppendsPart};
ghost use Rattle.file_devices.specs.declared.devices.Op.{Op};
ghost use Rattle.run_report.specs.declared.refusal.Place.{Place};
ghost use Rattle.run_report.specs.declared.refusal.Refusal.{Refusal};
ghost use Rattle.run_report.specs.Reports.{report_of};

use file_devices::{Op, Sink};
use run_report::{Place, Refusal, StageCount, report_text};

/// Prints a text.
pub(crate) fn print_text<K: Sink>(text: &str, out: &mut K) -> Result<(), Refusal>
    ensures ok { OnOk result (Appends (K.bytes out.old) text.now (K.bytes out.new)) }
    ensures err { IfErr result (λ refusal. refusal ≡ Refusal.Device Place.Out Op.Write) }
    ensures part { OnErr result (AppendsPart (K.bytes out.old) text.now (K.bytes out.new)) }
    ensures rose { OnErr result (Rose (K.faults out.old) (K.faults out.new)) }
    ensures later { K.faults out.old ≤ K.faults out.new }
{
    match out.append(text.as_bytes()) {
        Ok(()) => Ok(()),
        Err(_) => Err(Refusal::Device(Place::Out, Op::Write)),
    }
}

/// Prints the report of a run, by what each of its stages gave on.
pub(crate) fn print_report<K: Sink>(report: &[StageCount], out: &mut K) -> Result<(), Refusal>
    ensures ok { OnOk result (Appends (K.bytes out.old) (report_of report.now) (K.bytes out.new)) }
    ensures err { IfErr result (λ refusal. refusal ≡ Refusal.Device Place.Out Op.Write) }
    ensures part { OnErr result (AppendsPart (K.bytes out.old) (report_of report.now) (K.bytes out.new)) }
    ensures rose { OnErr result (Rose (K.faults out.old) (K.faults out.new)) }
{
    match report_text(report, out) {
        Ok(()) => Ok(()),
        Err(_) => Err(Refusal::Device(Place::Out, Op::Write)),
    }
}
