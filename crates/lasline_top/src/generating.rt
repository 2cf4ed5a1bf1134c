//! Files of generated points.

ghost use Rattle.std.specs.Prelude.{◌≡◌, ◌≤◌, Ok, IfErr, OnOk};
ghost use Rattle.file_devices.specs.Counts.{Rose};
ghost use Rattle.cloud_gen.specs.GeneratedFile.{generated_file, IsPut};
ghost use Rattle.plug_stages.specs.Handed.{Handed};
ghost use Rattle.lasline_top.specs.Words.{Make_file};
ghost use Rattle.lasline_top.specs.Cause.{IsOfFiles};
ghost use Rattle.lasline_top.specs.Ends.{WasDone, WasRefused, WasUnmade};
ghost use Rattle.lasline_top.specs.Least.{GaveOne};

use crate::count::PointCount;
use crate::printing::print_text;
use crate::texts::generated_line;
use cloud_gen::{GenerateError, generate};
use file_devices::{Files, Sink};
use run_report::{Place, Refusal};
use std::alloc::Global;

/// Makes a LAS file of generated points.
pub(crate) fn make<F: Files>(
    alloc: Global,
    files: &mut F,
    name: &str,
    count: PointCount,
) -> Result<(), Refusal>
    ensures ok { OnOk result (IsPut (F.map files.old) name.now (generated_file count.points)
        (F.map files.new)) }
    ensures err { IfErr result (WasUnmade (Rose (F.faults files.old) (F.faults files.new))
        (F.map files.old) name.now (generated_file count.points) (F.map files.new)) }
    ensures gave { OnOk result (GaveOne (F.counts files.old) (F.counts files.new)) }
    ensures lent { F.lent files.new ≡ F.lent files.old }
    ensures later { F.faults files.old ≤ F.faults files.new }
{
    match generate(alloc, files, name, count.points) {
        Ok(()) => Ok(()),
        Err(GenerateError::Device(op)) => Err(Refusal::Device(Place::Generated, op)),
        Err(GenerateError::Memory) => Err(Refusal::Memory),
    }
}

/// Makes a LAS file of generated points, and prints how many there are.
pub(crate) fn make_file<F: Files, K: Sink>(
    alloc: Global,
    count: PointCount,
    name: &str,
    files: &mut F,
    out: &mut K,
) -> Result<(), Refusal>
    ensures ok { (handed : Handed) → OnOk result (WasDone handed (Ok (Make_file count.points name.now))
        (F.map files.old) (F.map files.new) (K.bytes out.old) (K.bytes out.new)) }
    ensures err { (handed : Handed) → IfErr result (WasRefused handed (Ok (Make_file count.points name.now))
        (Rose (F.faults files.old) (F.faults files.new)) (Rose (K.faults out.old) (K.faults out.new))
        (F.map files.old) (F.map files.new) (K.bytes out.old) (K.bytes out.new)) }
    ensures of_files { IfErr result IsOfFiles }
    ensures lent { F.lent files.new ≡ F.lent files.old }
    ensures later { F.faults files.old ≤ F.faults files.new }
{
    // The line is made first, so that a file that was kept isn't followed by want of memory.
    let Ok(line) = generated_line(alloc, count) else {
        return Err(Refusal::Memory);
    };
    make(alloc, files, name, count)?;
    print_text(line.as_str(), out)
}
