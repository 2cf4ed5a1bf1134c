//! The run of a tree, step by step.

ghost use Rattle.std.specs.Prelude.{◌≡◌, ◌≤◌, ◌+◌, ℕ, length, sum_by, option_map, Option, Some, None, Err, IsOkAnd, IfOk, IfErr, OnOk, OnErr};
ghost use Rattle.file_devices.specs.Counts.{Rose};
ghost use Rattle.file_devices.specs.Named.{Names};
ghost use Rattle.file_devices.specs.Told.{IsAsTold};
ghost use Rattle.pipeline_json.specs.Trees.{IsTree};
ghost use Rattle.file_devices.specs.declared.devices.Op.{Op};
ghost use Rattle.run_report.specs.declared.refusal.Fault.{Fault};
ghost use Rattle.run_report.specs.declared.refusal.Place as place;
ghost use Rattle.run_report.specs.declared.refusal.Refusal as refused;
ghost use Rattle.stage_options.specs.Shapes.{shapes};
ghost use Rattle.stage_kinds.specs.Held.{faults_of};
ghost use Rattle.stage_kinds.specs.Leads.{reached_of};
ghost use Rattle.answer_model.specs.Naming.{AreBack, AreNamed, AreRemembered};
ghost use Rattle.answer_model.specs.Runs.{opened_in, run_of};
ghost use Rattle.plug_stages.specs.Handed.{Handed, handed_by};
ghost use Rattle.plug_stages.specs.declared.places.Places.{Places};
ghost use Rattle.stage_forms.specs.Out.{AreTakenOut};
ghost use Rattle.stage_forms.specs.Starts.{AreAtStart};
ghost use Rattle.stage_runs.specs.Short.{SomeGathers};
ghost use Rattle.held_devices.specs.Holding.{all_held};
ghost use Rattle.network_core.specs.declared.stop.Stop.{Stop};
ghost use Rattle.network_core.specs.declared.stop.Stop.TheVariants.{First};
ghost use Rattle.run_outcome.specs.Cause.{IsRun, IsLeft};
ghost use Rattle.run_outcome.specs.Least.{IsNamedBy};
ghost use Rattle.run_engine.specs.declared.engine.Engine.{Engine as Chosen};
ghost use Rattle.run_engine.specs.Blame.{IsBlamed};
ghost use Rattle.run_engine.specs.Jobs.{TakesTurns, IsReady, IsWaiting, IsShort, CameTo, HasRun, HaveReadBy};
ghost use Rattle.run_engine.specs.declared.engine.Engine.TheVariants.{Queues};
ghost use Rattle.run_engine.specs.declared.shape.Shape.{Shape};
ghost use Rattle.stage_runs.specs.Ahead.{AreReadAhead};
ghost use Rattle.stage_forms.specs.Later.{AreLater};
ghost use Rattle.run_engine.specs.Stopping.{HaveEndedBy, IsCauseBy, ends_at};

use crate::room::TurnRoom;
use crate::turns::turn_works;
use crate::whole::whole_works;
use file_devices::{FileSink, Files, Source};
use held_devices::release_works;
use network_solo::Scheduler;
use plug_stages::{Places, PlugFilter, PlugTally};
use run_ending::{Ran, finish, keep_all};
use run_outcome::{Ended, outcome};
use run_report::{Refusal, Report};
use stage_kinds::StageWork;
use stage_options::StageSpec;
use std::alloc::{AllocError, Global};
use std::mem::replace;

/// The run of a tree's stages: their files are open, and they wait for their turns, over the edges of a scheduler, or have come to
/// their end.
pub struct Job<S, K: FileSink, P: PlugFilter, Q: PlugTally, E> {
    pub(crate) works: Vec<StageWork<S, K, P, Q>>,
    pub(crate) step: Step<S, K, P, Q, E>,
}

/// How far a run is.
pub(crate) enum Step<S, K: FileSink, P: PlugFilter, Q: PlugTally, E> {
    /// The stages wait to take turns, in this memory.
    Turns(TurnRoom<S, K, P, Q, E>),

    /// They wait to be evaluated, each on all points that it takes.
    Whole,

    /// They came to their end: what each gave on, and its fault.
    Done(Ended),

    /// Memory was wanting before they came to it.
    Short,
}

/// Evaluates stages that wait for it, as they wait. It answers what each stage gave on and its fault. Refuses where memory is wanting.
fn evaluate<
    S: Source,
    K: FileSink,
    P: PlugFilter,
    Q: PlugTally,
    T: Scheduler<StageWork<S, K, P, Q>>,
>(
    alloc: Global,
    scheduler: &T,
    works: Vec<StageWork<S, K, P, Q>>,
    stages: &[StageSpec],
    step: Step<S, K, P, Q, T::Edges>,
) -> Ran<S, K, P, Q, Result<Ended, AllocError>>
    requires sound { T.sound scheduler.now }
    requires tree { IsTree (shapes stages.now) }
    requires few { length stages.now ≤ 64 }
    requires starts { AreAtStart K.bytes stages.now works.items }
    requires count { length works.items ≡ length stages.now }
    requires waits { (engine : Chosen)
        × IsWaiting S.Source K.Sink P.PlugFilter Q.PlugTally T.fits engine stages.now step }
    ensures later { AreLater P.PlugFilter Q.PlugTally
        (faults_of S.faults K.faults) works.items result.works.items }
    ensures ended { (engine : Chosen)
        → IsWaiting S.Source K.Sink P.PlugFilter Q.PlugTally T.fits engine stages.now step
        → IfOk result.outcome (λ ended. HaveEndedBy S.Source K.Sink P.PlugFilter Q.PlugTally
        (ends_at engine (T.stop scheduler.now))
        stages.now works.items result.works.items ended.faults.items ended.report.items) }
    ensures gathers { OnErr result.outcome (TakesTurns step → SomeGathers stages.now) }
    ensures ahead { (shape : Shape) → IsWaiting S.Source K.Sink P.PlugFilter Q.PlugTally T.fits
        (Queues shape) stages.now step
        → IfOk result.outcome (λ ended. T.bounded scheduler.now → T.stop scheduler.now ≡ First
        → AreReadAhead S.Source P.PlugFilter Q.PlugTally stages.now
        shape.queue shape.chunk works.items result.works.items ended.faults.items) }
{
    match step {
        Step::Turns(room) => turn_works(alloc, scheduler, works, stages, room),
        Step::Whole => whole_works(alloc, works, stages),
        Step::Done(_) => unreachable!(),
        Step::Short => unreachable!(),
    }
}

impl<S: Source, K: FileSink, P: PlugFilter, Q: PlugTally, E> Job<S, K, P, Q, E> {
    /// Lets the points go through the stages, as the scheduler has it that it was prepared for: on the thread of the caller, or on
    /// several. Each stage comes to its end, and what that is `close` tells. Refuses only where memory is wanting; where the stages take
    /// turns, and none needs whole views, all memory is there already. Where turns end at the first fault, and the scheduler bounds what is
    /// read then, its readers have read no further than a bound by the number of the faulty point, if all stages give on each point.
    pub fn run<T: Scheduler<StageWork<S, K, P, Q>, Edges = E>>(
        &mut self,
        alloc: Global,
        scheduler: &T,
        stages: &[StageSpec],
    ) -> Result<(), AllocError>
        requires sound { T.sound scheduler.now }
        requires tree { IsTree (shapes stages.now) }
        requires ready { (engine : Chosen) × (handed : Handed) × (map : Option Names)
            × IsReady S.Source K.Sink P.PlugFilter Q.PlugTally T.fits engine handed map stages.now self.old }
        ensures ran { (engine : Chosen) (handed : Handed) (map : Option Names)
            → IsReady S.Source K.Sink P.PlugFilter Q.PlugTally T.fits engine handed map stages.now self.old
            → HasRun S.Source K.Sink P.PlugFilter Q.PlugTally (ends_at engine (T.stop scheduler.now))
            handed map stages.now self.new }
        ensures out { (before now : Places P Q)
            → AreTakenOut P.PlugFilter Q.PlugTally stages.now before self.old.works.items now
            → AreTakenOut P.PlugFilter Q.PlugTally stages.now before self.new.works.items now }
        ensures held { all_held self.new.works.items ≡ all_held self.old.works.items }
        ensures enough { OnOk result (IsShort self.new.step → ⊥) }
        ensures short { OnErr result (IsShort self.new.step) }
        ensures gathers { OnErr result (TakesTurns self.old.step → SomeGathers stages.now) }
        ensures ahead { T.bounded scheduler.now → T.stop scheduler.now ≡ First → (engine : Chosen)
            → IsWaiting S.Source K.Sink P.PlugFilter Q.PlugTally T.fits engine stages.now self.old.step
            → HaveReadBy S.Source K.Sink P.PlugFilter Q.PlugTally engine stages.now self.old.works.items self.new.works.items
            self.new.step }
    {
        let works = replace(&mut self.works, Vec::new(alloc));
        let step = replace(&mut self.step, Step::Short);
        let Ran { works, outcome } = evaluate(alloc, scheduler, works, stages, step);
        let blank = replace(&mut self.works, works);
        blank.destroy_empty();
        let ended = outcome?;
        match replace(&mut self.step, Step::Done(ended)) {
            Step::Short => Ok(()),
            _waiting => unreachable!(),
        }
    }

    /// Ends the run: where the stages came to their end all writers finish their files, which are then kept under their names, in the
    /// order of the stages; then the files of views are written and kept, in the order of the stages and of the views. Answers what each
    /// stage gave on. Every object that was handed out is given back, and what was taken out of its place is put back; where the run
    /// succeeds it remembers what its stage leaves.
    ///
    /// Where stages have faults it answers the one that goes first of those that were seen, and where memory was wanting `Memory`, and
    /// keeps nothing. Else `Data` comes only where the files had that fault as the run was prepared, `Device` only where the device failed,
    /// `Memory` where there was none. The device of a stage is named for what the stages did in their turns only where that of no earlier
    /// stage failed, and for the end of its file only where no stage has a fault.
    ///
    /// Where stages have faults, how far the readers got is added to what the files tell of that.
    ///
    /// After a refusal the files are as before; only where the keeping of a file failed or found no memory, or the file of a view couldn't
    /// be written, are those before it kept, and one that couldn't be kept may be. Files that don't tell what they have don't tell it after
    /// the run.
    pub fn close<F: Files<In = S, Out = K>>(
        self,
        alloc: Global,
        files: &mut F,
        places: &mut Places<P, Q>,
        stages: &[StageSpec],
    ) -> Result<Report, Refusal>
        requires tree { IsTree (shapes stages.now) }
        requires ran { (stop : Stop) × (handed : Handed) × (first : Option Names)
            × HasRun S.Source K.Sink P.PlugFilter Q.PlugTally stop handed first stages.now self }
        ensures ok { IfOk result (λ report. (stop : Stop) (handed : Handed) (m : Names)
            → HasRun S.Source K.Sink P.PlugFilter Q.PlugTally stop handed (Some m) stages.now self
            → IsOkAnd (run_of handed m stages.now) (IsRun (F.map files.old) (F.map files.new) report.items)) }
        ensures err { IfErr result (λ refusal. (stop : Stop) (handed : Handed) (first : Option Names)
            → HasRun S.Source K.Sink P.PlugFilter Q.PlugTally stop handed first stages.now self
            → IsCauseBy stop (Rose (F.faults files.old) (F.faults files.new))
            handed first stages.now refusal) }
        ensures left { IfErr result (λ refusal. (stop : Stop) (handed : Handed) (m : Names)
            → HasRun S.Source K.Sink P.PlugFilter Q.PlugTally stop handed (Some m) stages.now self
            → IsLeft refusal (F.map files.old) (F.map files.new) (run_of handed m stages.now)) }
        ensures refused { (refusal : refused.Refusal) → CameTo refusal self.step
            → (result ≡ Err refusal) × (F.map files.new ≡ F.map files.old) }
        ensures data { (i : ℕ) (f : Fault) → result ≡ Err (refused.Refusal.Data i f)
            → CameTo (refused.Refusal.Data i f) self.step }
        ensures read { (refusal : refused.Refusal) → CameTo refusal self.step
            → IsAsTold (F.read_to files.new) (option_map
            (λ n. n + sum_by (reached_of S.reached) self.works.items) (F.read_to files.old)) }
        ensures blamed { (i : ℕ) (o : Op) → result ≡ Err (refused.Refusal.Device (place.Place.Stage i) o)
            → IsBlamed (faults_of S.faults K.faults) (Rose (F.faults files.old) (F.faults files.new))
            self.works.items self.step i o }
        ensures least { IfErr result (IsNamedBy stages.now (F.counts files.old) (F.counts files.new)) }
        ensures back { (before : Places P Q)
            → AreTakenOut P.PlugFilter Q.PlugTally stages.now before self.works.items places.old
            → AreBack P.PlugFilter Q.PlugTally stages.now before places.new }
        ensures remembered { OnOk result ((stop : Stop) (handed : Handed) (m : Names) (before : Places P Q)
            → HasRun S.Source K.Sink P.PlugFilter Q.PlugTally stop handed (Some m) stages.now self
            → handed ≡ handed_by P.PlugFilter Q.PlugTally before → AreNamed handed stages.now
            → AreTakenOut P.PlugFilter Q.PlugTally stages.now before self.works.items places.old
            → AreRemembered P.PlugFilter Q.PlugTally stages.now (opened_in handed m stages.now) places.new) }
        ensures untold { F.map files.old ≡ None → F.map files.new ≡ None }
        ensures lent { (others : ℕ) → F.lent files.old ≡ others + all_held self.works.items
            → F.lent files.new ≡ others }
        ensures later { F.faults files.old ≤ F.faults files.new }
    {
        let Job { works, step } = self;
        let ended = match step {
            Step::Done(ended) => ended,
            Step::Short => {
                release_works(files, places, works);
                return Err(Refusal::Memory);
            }
            Step::Turns(_room) => unreachable!(),
            Step::Whole => unreachable!(),
        };
        if let Err(refusal) = outcome(ended.faults.as_slice()) {
            release_works(files, places, works);
            return Err(refusal);
        }
        let Ran { works, outcome } = finish(works);
        if let Err(refusal) = outcome {
            release_works(files, places, works);
            return Err(refusal);
        }
        match keep_all(alloc, files, places, works, stages) {
            Ok(()) => Ok(ended.report),
            Err(refusal) => Err(refusal),
        }
    }
}
