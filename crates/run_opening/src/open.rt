//! The files of a tree's readers are opened.

ghost use Rattle.std.specs.Prelude.{◌≡◌, ◌≤◌, length, IfOk, IfErr, OnOk, OnErr};
ghost use Rattle.file_devices.specs.Counts.{Rose};
ghost use Rattle.plug_stages.specs.Handed.{Handed};
ghost use Rattle.stage_options.specs.Roles.{Reads, role_of};
ghost use Rattle.run_opening.specs.Begun.{IsReading, IsOpened, AreOpened};
ghost use Rattle.held_devices.specs.Holding.{there, all_there};
ghost use Rattle.held_devices.specs.Lending.{Lends, Settles};
ghost use Rattle.run_outcome.specs.Cause.{IsCause, IsEarly};
ghost use Rattle.run_outcome.specs.Least.{IsNamedBy};
ghost use Rattle.run_opening.specs.Opening.{IsBeforePoints, IsUnopened, ToldUnopened, opening_refusal};

use file_devices::{DeviceErr, Files, Op};
use held_devices::give_back;
use las_reader::{LasReader, OpenErr};
use run_report::{Fault, Place, Refusal};
use stage_options::{Role, StageSpec};
use std::alloc::Global;

/// The refusal of a run whose reader, the stage with this number, can't be opened.
fn opening_refusal(stage: u32, e: OpenErr) -> Refusal
    ensures { result ≡ opening_refusal stage e }
{
    match e {
        OpenErr::Header(fault) => Refusal::Data(stage, Fault::Header(fault)),
        OpenErr::Vlr(fault) => Refusal::Data(stage, Fault::Vlr(fault)),
        OpenErr::ReadFailed => Refusal::Device(Place::Stage(stage), Op::Read),
        OpenErr::Memory => Refusal::Memory,
    }
}

/// Opens the LAS file of a reader, the stage with this number. Where it can't be opened, its source is given back.
fn open_reader<F: Files>(
    alloc: Global,
    files: &mut F,
    name: &str,
    stage: u32,
) -> Result<LasReader<F::In>, Refusal>
    ensures ok { IfOk result (IsReading F.In.Source (F.map files.old) stage (Reads name.now)) }
    ensures err { IfErr result (IsUnopened (Rose (F.faults files.old) (F.faults files.new))
        (F.map files.old) stage (Reads name.now)) }
    ensures early { IfErr result IsEarly }
    ensures before { IfErr result IsBeforePoints }
    ensures lends { OnOk result (Lends F.Files 0 1 files.old files.new) }
    ensures settles { OnErr result (Settles F.Files 0 files.old files.new) }
    ensures told { IfErr result (ToldUnopened (F.counts files.old) (F.counts files.new)) }
{
    let source = match files.open_in(name) {
        Ok(source) => source,
        Err(DeviceErr::Memory) => return Err(Refusal::Memory),
        Err(_) => return Err(Refusal::Device(Place::Stage(stage), Op::Open)),
    };
    match LasReader::begin(alloc, source) {
        Ok(reader) => Ok(reader),
        Err((source, e)) => {
            files.done_in(source);
            Err(opening_refusal(stage, e))
        }
    }
}

/// Opens the file of a stage, if it reads one.
fn open_stage<F: Files>(
    alloc: Global,
    files: &mut F,
    stage: &StageSpec,
    number: u32,
) -> Result<Option<LasReader<F::In>>, Refusal>
    ensures ok { IfOk result (IsOpened F.In.Source (F.map files.old) number (role_of stage.now.options)) }
    ensures err { IfErr result (IsUnopened (Rose (F.faults files.old) (F.faults files.new))
        (F.map files.old) number (role_of stage.now.options)) }
    ensures early { IfErr result IsEarly }
    ensures before { IfErr result IsBeforePoints }
    ensures lends { IfOk result (λ reader. Lends F.Files 0 (there reader) files.old files.new) }
    ensures settles { OnErr result (Settles F.Files 0 files.old files.new) }
    ensures told { IfErr result (ToldUnopened (F.counts files.old) (F.counts files.new)) }
{
    match stage.options.role() {
        Role::Reads(name) => Ok(Some(open_reader(alloc, files, name, number)?)),
        _ => Ok(None),
    }
}

/// Opens the files of a tree's readers in the order of the stages, each with its header and its lists before the next; the
/// first one that can't be opened is the last one that is tried. It answers a place for each stage, in which a reader stands
/// where the stage reads. Where one can't be opened, all are given back.
pub(crate) fn open_readers<F: Files>(
    alloc: Global,
    files: &mut F,
    stages: &[StageSpec],
) -> Result<Vec<Option<LasReader<F::In>>>, Refusal>
    requires few { length stages.now ≤ 64 }
    ensures ok { IfOk result (λ readers. AreOpened F.In.Source (F.map files.old) stages.now readers.items) }
    ensures count { IfOk result (λ readers. length readers.items ≡ length stages.now) }
    ensures err { IfErr result (λ refusal. (handed : Handed)
        → IsCause (Rose (F.faults files.old) (F.faults files.new)) handed (F.map files.old) stages.now refusal) }
    ensures early { IfErr result IsEarly }
    ensures before { IfErr result IsBeforePoints }
    ensures lends { IfOk result (λ readers. Lends F.Files 0 (all_there readers.items) files.old files.new) }
    ensures settles { OnErr result (Settles F.Files 0 files.old files.new) }
    ensures least { IfErr result (IsNamedBy stages.now (F.counts files.old) (F.counts files.new)) }
{
    let Ok(mut readers) = Vec::with_capacity(alloc, stages.len()) else {
        return Err(Refusal::Memory);
    };
    for i in 0..stages.len() {
        match open_stage(alloc, files, &stages[i], i as u32) {
            Ok(reader) => readers.push_reserved(reader),
            Err(refusal) => {
                give_back(files, readers);
                return Err(refusal);
            }
        }
    }
    Ok(readers)
}
