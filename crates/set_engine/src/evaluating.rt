//! All stages, one after the other.

ghost use Rattle.std.specs.Prelude.{◌≡◌, length, IfOk};
ghost use Rattle.pipeline_json.specs.Trees.{IsTree};
ghost use Rattle.stage_forms.specs.Later.{AreLater};
ghost use Rattle.stage_forms.specs.Starts.{AreAtStart};
ghost use Rattle.stage_kinds.specs.Held.{faults_of};
ghost use Rattle.stage_options.specs.Shapes.{shapes};
ghost use Rattle.set_engine.specs.Evaluated.{HaveEnded};
ghost use Rattle.set_engine.specs.Given.{count_for};

use crate::inputs::take_joined;
use crate::output::StageOutput;
use crate::stages::stage_views;
use file_devices::{FileSink, Source};
use plug_stages::{PlugFilter, PlugTally};
use run_outcome::{Ended, StageFaults};
use run_report::{Report, StageCount, TallyLine};
use stage_kinds::StageWork;
use stage_options::StageSpec;
use std::alloc::{AllocError, Global};
use whole_filters::Views;

/// What a stage, the one with this number, gave on, how many points it wrote or showed, how many files it wrote, and what its tally says.
fn stage_count(
    number: u32,
    stage: &StageSpec,
    given: &Views,
    wrote: Option<u64>,
    files: u64,
    tally: Option<TallyLine>,
) -> StageCount
    ensures { result ≡ count_for number stage.now given.now wrote files tally }
{
    let mut points: u64 = 0;
    for v in 0..given.views() {
        points = points.saturating_add(given.len(v) as u64);
    }
    StageCount {
        stage: number,
        kind: stage.options.kind(),
        views: given.views() as u64,
        points: points.saturating_add(given.len(given.views()) as u64),
        wrote,
        files,
        tally,
    }
}

/// Evaluates the stages of a tree in their order, each once, on all points that it takes, and answers what each gave on and its fault.
/// The works of readers and writers had no point yet; behind it the writers hold the points that they take.
///
/// A stage of which a point has a fault gives what stands before that point, and later stages are evaluated, too; so they are
/// behind a stage whose device failed. Refuses for want of memory alone.
pub fn evaluate_stages<S: Source, K: FileSink, P: PlugFilter, Q: PlugTally>(
    alloc: Global,
    works: &mut [StageWork<S, K, P, Q>],
    stages: &[StageSpec],
) -> Result<Ended, AllocError>
    requires tree { IsTree (shapes stages.now) }
    requires count { length works.old ≡ length stages.now }
    requires starts { AreAtStart K.bytes stages.now works.old }
    ensures ended { IfOk result
        (λ ended. HaveEnded S.Source K.Sink P.PlugFilter Q.PlugTally stages.now works.old works.new
        ended.faults.items ended.report.items) }
    ensures later { AreLater P.PlugFilter Q.PlugTally (faults_of S.faults K.faults) works.old works.new }
{
    let mut values = Vec::with_capacity(alloc, stages.len())?;
    let mut report = Report::new();
    let mut faults = StageFaults::new();
    for i in 0..stages.len() {
        let inputs = stages[i].ins.as_slice();
        let taken = take_joined(alloc, values.as_mut_slice(), inputs)?;
        let StageOutput { views, fault } = stage_views(alloc, &mut works[i], taken)?;
        let work = &works[i];
        let wrote = work.written().or(work.shown());
        let count = stage_count(
            i as u32,
            &stages[i],
            &views,
            wrote,
            work.files(),
            work.says(),
        );
        report.push(count);
        faults.push(fault);
        values.push_reserved(views);
    }
    Ok(Ended { report, faults })
}
