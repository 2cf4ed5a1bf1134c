//! The writers of a run finish before the first file is kept.

ghost use Rattle.std.specs.Prelude.{◌≤◌, length, IfErr, OnOk};
ghost use Rattle.stage_kinds.specs.Held.{faults_of};
ghost use Rattle.stage_forms.specs.Later.{AreLater};
ghost use Rattle.run_ending.specs.Finished.{AreFinished, AreKept, IsUnfinished, OthersStay};

use file_devices::{FileSink, Source};
use plug_stages::{PlugFilter, PlugTally};
use run_report::{Place, Refusal};
use stage_kinds::StageWork;

/// The works of a run, and what a step of it came to.
pub struct Ran<S, K: FileSink, P: PlugFilter, Q: PlugTally, T> {
    /// The works, in the order of the stages.
    pub works: Vec<StageWork<S, K, P, Q>>,

    /// What the step came to.
    pub outcome: T,
}

/// Has each writer finish its file, in the order of the stages. The first one whose device fails is told.
pub fn finish<S: Source, K: FileSink, P: PlugFilter, Q: PlugTally>(
    works: Vec<StageWork<S, K, P, Q>>,
) -> Ran<S, K, P, Q, Result<(), Refusal>>
    requires few { length works.items ≤ 64 }
    ensures later { AreLater P.PlugFilter Q.PlugTally (faults_of S.faults K.faults) works.items result.works.items }
    ensures kept { AreKept works.items result.works.items }
    ensures others { OthersStay works.items result.works.items }
    ensures finished { OnOk result.outcome (AreFinished K.bytes works.items result.works.items) }
    ensures err { IfErr result.outcome
        (IsUnfinished (faults_of S.faults K.faults) works.items result.works.items) }
{
    let mut works = works;
    for i in 0..works.len() {
        match works[i].finish() {
            Ok(()) => {}
            Err(op) => {
                let outcome = Err(Refusal::Device(Place::Stage(i as u32), op));
                return Ran { works, outcome };
            }
        }
    }
    let outcome = Ok(());
    Ran { works, outcome }
}
