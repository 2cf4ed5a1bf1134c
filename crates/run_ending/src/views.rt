//! The files of views are written and kept.

ghost use Rattle.std.specs.Prelude.{◌≡◌, ◌≤◌, ◌∷◌, [], ℕ, None, Some, true, length, map, option_map, slice_get, IfErr, IfOk, OnOk};
ghost use Rattle.file_devices.specs.Counts.{Rose};
ghost use Rattle.stage_kinds.specs.Files.{IsFileForm, unwritten as unplaced};
ghost use Rattle.stage_kinds.specs.Held.{HoldsSame, faults_of, op_of};
ghost use Rattle.stage_kinds.specs.Stages.{keeps_of, stops_nowhere};
ghost use Rattle.stage_kinds.specs.declared.stage_work.StageWork as work_type;
ghost use Rattle.stage_meanings.specs.Conditions.{passes};
ghost use Rattle.stage_meanings.specs.Filters.{refusal_in_views};
ghost use Rattle.stage_options.specs.Seen.{role_view};
ghost use Rattle.stage_forms.specs.Later.{AreLater};
ghost use Rattle.run_outcome.specs.Cause.{WerePut};
ghost use Rattle.run_ending.specs.Each.{AreInside, BrokeOffAt, Stops, all_files, each_files, file_of, files_from, kept_from, shown_each, shown_files, undone, unwritten};

use file_devices::{DeviceErr, FileSink, Files, Op, Source};
use plug_stages::{PlugFilter, PlugTally};
use run_report::{Place, Refusal};
use stage_kinds::{StageWork, ViewErr, ViewFiles, Writing, write_view};
use stage_options::{Role, StageSpec, numbered};
use std::alloc::{AllocError, Global};
use std::mem::replace;
use stream_filters::Filter;
use whole_filters::{Rows, Views};

/// The views of which a writer, the stage with this number, writes files.
#[derive(Drop)]
pub(crate) struct EachStage {
    pub(crate) stage: u32,
    pub(crate) files: ViewFiles,
}

/// Takes the views out of a work that keeps them for their files; in its place stays a work without a device. Any other work stays.
fn take_files<S: Source, K: FileSink, P: PlugFilter, Q: PlugTally>(
    work: &mut StageWork<S, K, P, Q>,
) -> Option<ViewFiles>
    ensures kept { option_map shown_files result ≡ keeps_of work.old }
    ensures same { result ≡ None → work.new ≡ work.old }
    ensures op { op_of work.new ≡ op_of work.old }
    ensures faults { faults_of S.faults K.faults work.new ≡ faults_of S.faults K.faults work.old }
    ensures holds { HoldsSame P.PlugFilter Q.PlugTally work.old work.new }
{
    if !work.keeps_views() {
        return None;
    }
    match replace(work, StageWork::Filter(Filter::Merge)) {
        StageWork::ViewFiles(files) => Some(files),
        _other => unreachable!(),
    }
}

/// Takes the views out of all works that keep them for their files. Refuses only where memory is wanting, which is taken only where there
/// are such works.
pub(crate) fn take_each<S: Source, K: FileSink, P: PlugFilter, Q: PlugTally>(
    alloc: Global,
    works: &mut Vec<StageWork<S, K, P, Q>>,
) -> Result<Vec<EachStage>, AllocError>
    requires few { length works.old.items ≤ 64 }
    ensures kept { IfOk result (λ each. map shown_each each.items ≡ kept_from 0 works.old.items) }
    ensures inside { IfOk result (λ each. AreInside (length works.old.items) each.items) }
    ensures others { (i : ℕ) (w : work_type.StageWork S K P Q) → slice_get works.old.items i ≡ Some w
        → keeps_of w ≡ None → slice_get works.new.items i ≡ Some w }
    ensures later { AreLater P.PlugFilter Q.PlugTally (faults_of S.faults K.faults) works.old.items works.new.items }
{
    let mut each = Vec::new(alloc);
    for i in 0..works.len() {
        let Some(files) = take_files(&mut works[i]) else {
            continue;
        };
        each.push(EachStage {
            stage: i as u32,
            files,
        })?;
    }
    Ok(each)
}

/// Why the file of a view of this stage isn't written.
fn unwritten(stage: u32, e: ViewErr) -> Refusal
    ensures { result ≡ unwritten stage e }
{
    match e {
        ViewErr::Failed(op) => Refusal::Device(Place::Stage(stage), op),
        ViewErr::Memory => Refusal::Memory,
    }
}

/// Why a file of this stage isn't created or kept.
fn undone(stage: u32, op: Op, e: DeviceErr) -> Refusal
    ensures { result ≡ undone stage op e }
{
    match e {
        DeviceErr::Memory => Refusal::Memory,
        _ => Refusal::Device(Place::Stage(stage), op),
    }
}

/// Creates, writes, finishes and keeps the file of one view, the one with this number. Where that fails, the file is given back, or it
/// couldn't be kept.
fn write_file<F: Files>(
    alloc: Global,
    files: &mut F,
    name: &str,
    writing: Writing,
    view: &Rows,
    stage: u32,
    number: u64,
) -> Result<Writing, Refusal>
    requires form { IsFileForm writing.form }
    requires nowhere { stops_nowhere writing view.now ≡ true }
    ensures writing { IfOk result (λ back. back ≡ writing) }
    ensures put { OnOk result (WerePut (F.map files.old) (file_of stage name.now writing number view.now ∷ [])
        (F.map files.new)) }
    ensures stops { IfErr result (Stops (Rose (F.faults files.old) (F.faults files.new)) (F.map files.old)
        (F.map files.new) stage writing.form (file_of stage name.now writing number view.now ∷ [])) }
    ensures untold { F.map files.old ≡ None → F.map files.new ≡ None }
    ensures lent { F.lent files.new ≡ F.lent files.old }
    ensures later { F.faults files.old ≤ F.faults files.new }
{
    let Ok(name) = numbered(alloc, name, number) else {
        return Err(Refusal::Memory);
    };
    let sink = match files.create(name.as_str()) {
        Ok(sink) => sink,
        Err(e) => return Err(undone(stage, Op::Create, e)),
    };
    match write_view(alloc, sink, writing, view) {
        Ok((sink, writing)) => match files.keep(name.as_str(), sink) {
            Ok(()) => Ok(writing),
            Err(e) => Err(undone(stage, Op::Keep, e)),
        },
        Err((sink, e)) => {
            files.done_out(sink);
            Err(unwritten(stage, e))
        }
    }
}

/// Writes and keeps the files of views, by this name with the number of each; the first one that can't be is the last one that is tried.
fn write_views<F: Files>(
    alloc: Global,
    files: &mut F,
    name: &str,
    writing: Writing,
    views: &Views,
    stage: u32,
) -> Result<(), Refusal>
    requires form { IsFileForm writing.form }
    requires placed { refusal_in_views (unplaced writing.form) (passes writing.only) views.now ≡ None }
    ensures put { OnOk result (WerePut (F.map files.old)
        (files_from stage name.now writing 1 views.now.views) (F.map files.new)) }
    ensures stops { IfErr result (Stops (Rose (F.faults files.old) (F.faults files.new)) (F.map files.old)
        (F.map files.new) stage writing.form (files_from stage name.now writing 1 views.now.views)) }
    ensures untold { F.map files.old ≡ None → F.map files.new ≡ None }
    ensures lent { F.lent files.new ≡ F.lent files.old }
    ensures later { F.faults files.old ≤ F.faults files.new }
{
    let mut writing = writing;
    for v in 0..views.views() {
        writing = write_file(
            alloc,
            files,
            name,
            writing,
            views.view(v),
            stage,
            v as u64 + 1,
        )?;
    }
    Ok(())
}

/// Writes and keeps the files of all views of a stage that does this, in their order; the first one that can't be is the last one that is
/// tried.
fn write_stage<F: Files>(
    alloc: Global,
    files: &mut F,
    each: EachStage,
    role: Role<'_>,
) -> Result<(), Refusal>
    ensures put { OnOk result (WerePut (F.map files.old)
        (each_files each.stage (role_view role.entry) each.files.writing each.files.views.views)
        (F.map files.new)) }
    ensures stops { IfErr result (Stops (Rose (F.faults files.old) (F.faults files.new)) (F.map files.old)
        (F.map files.new) each.stage each.files.writing.form
        (each_files each.stage (role_view role.entry) each.files.writing each.files.views.views)) }
    ensures untold { F.map files.old ≡ None → F.map files.new ≡ None }
    ensures lent { F.lent files.new ≡ F.lent files.old }
    ensures later { F.faults files.old ≤ F.faults files.new }
{
    let Role::WritesEach(name) = role else {
        return Ok(());
    };
    let (views, writing) = each.files.into_parts();
    write_views(alloc, files, name, writing, &views, each.stage)
}

/// Writes and keeps the files of the views of stages, in the order of the stages and of the views; the first one that can't be is the last
/// one that is tried. Those before it are kept.
///
/// It is refused with `Memory` only where there is none for a name or a chunk of points, and with `Device` of a stage only where the count
/// of the files' faults rose.
pub(crate) fn write_each<F: Files>(
    alloc: Global,
    files: &mut F,
    each: Vec<EachStage>,
    stages: &[StageSpec],
) -> Result<(), Refusal>
    requires inside { AreInside (length stages.now) each.items }
    ensures put { OnOk result (WerePut (F.map files.old) (all_files stages.now (map shown_each each.items))
        (F.map files.new)) }
    ensures stops { IfErr result (BrokeOffAt (Rose (F.faults files.old) (F.faults files.new))
        (F.map files.old) (F.map files.new) stages.now (map shown_each each.items)) }
    ensures untold { F.map files.old ≡ None → F.map files.new ≡ None }
    ensures lent { F.lent files.new ≡ F.lent files.old }
    ensures later { F.faults files.old ≤ F.faults files.new }
{
    let mut each = each;
    each.reverse();
    while let Some(one) = each.pop() {
        let at = one.stage as usize;
        write_stage(alloc, files, one, stages[at].options.role())?;
    }
    Ok(())
}
