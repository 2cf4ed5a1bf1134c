//! The works of the stages.

ghost use Rattle.std.specs.Prelude.{◌≡◌};

use crate::{Gatherer, Held, Making, ViewFiles, WriterStage, Writing};
use arrayvec::ArrayString;
use cloud_points::{Make, Spread, StageFault, Work};
use file_devices::{FileSink, Op, Source};
use las_reader::LasReader;
use plug_stages::{PlugFilter, PlugSpot, PlugTally, PlugWork, TallySpot, TallyWork};
use run_report::{Label, Note, TallyLine};
use stage_meanings::Spot;
use std::alloc::{AllocError, Global};
use stream_filters::Filter;
use tile_filters::gather;
use view_works::HeldViews;
use whole_filters::Views;

/// What a stage remembers while it runs.
#[derive(Drop)]
pub enum StageState {
    /// A reader, or a stage that gives what it made of whole views, takes no points, and remembers nothing of them.
    Reading,

    /// A filter remembers where its next point stands.
    Filtering(Spot),

    /// The stage of a filter of the caller remembers where its next point stands, and what the filter remembers.
    Plugging(PlugSpot),

    /// The stage of a tally remembers where its next point stands, how many points it showed, and what the tally remembers.
    Tallying(TallySpot),

    /// A stage that needs whole views remembers what it is to make of them, and those that it took; None where memory was wanting.
    Collecting(Making, Option<Views>),

    /// A writer of a file for each view remembers what it writes, and the views.
    Keeping(Writing, Views),

    /// A writer remembers what it writes, and where its next point stands: behind how many of its points, and how many that it wrote.
    /// Of its points it remembers nothing but what its sink holds.
    Writing(Writing, Spot),
}

/// The work of a stage.
pub enum StageWork<S, K: FileSink, P: PlugFilter, Q: PlugTally> {
    /// Reads the points of a LAS file.
    Reader(LasReader<S>),

    /// Judges its points.
    Filter(Filter),

    /// Shows its points to a filter of the caller.
    Plug(PlugWork<P>),

    /// Shows its points to a tally of the caller, and lets them pass.
    Tally(TallyWork<Q>),

    /// Takes the points of whole views.
    Collector(Gatherer),

    /// Gives what was made of whole views.
    Views(HeldViews),

    /// Gives whole views, of each of which a file is to be written.
    ViewFiles(ViewFiles),

    /// Writes a file of its points, and lets them pass.
    Writer(WriterStage<K>),
}

impl<S: Source, K: FileSink, P: PlugFilter, Q: PlugTally> Work for StageWork<S, K, P, Q> {
    ghost use Rattle.stage_kinds.specs.Stages.{state_of, meaning_of, is_leaf, is_short, holds_of};
    ghost use Rattle.stage_kinds.specs.Held.{faults_of, op_of};
    ghost use Rattle.stage_kinds.specs.Reads.{tells_of, told_of, told_fault_of, points_left_of, views_left_of};
    ghost use Rattle.stage_kinds.specs.Keeps.{meaning_keeps};
    ghost use Rattle.stage_kinds.specs.Leads.{ahead_of, extent_of};

    type State = StageState;

    ghost state = { λ w. state_of P.PlugFilter Q.PlugTally w };

    ghost meaning = { λ w. meaning_of P.PlugFilter Q.PlugTally w };

    ghost leaf = { λ w. is_leaf w };

    ghost short = { λ w. is_short w };

    ghost faults = { λ w. faults_of S.faults K.faults w };

    ghost op = { λ w. op_of w };

    ghost tells = { λ w. tells_of S.bytes w };

    ghost told = { λ w. told_of S.bytes w };

    ghost told_fault = { λ w. told_fault_of S.bytes w };

    ghost points_left = { λ w. points_left_of w };

    ghost views_left = { λ w. views_left_of w };

    ghost extent = { λ w. extent_of S.bytes w };

    ghost ahead = { λ w. ahead_of S.bytes S.reached w };

    ghost holds = { λ w points. holds_of K.bytes w points };

    ghost cutting = { λ w. meaning_keeps P.PlugFilter Q.PlugTally w };

    fn is_leaf(&self) -> bool {
        matches!(
            self,
            StageWork::Reader(_) | StageWork::Views(_) | StageWork::ViewFiles(_)
        )
    }

    fn make(&mut self, chunk: usize, into: &mut Spread) -> Make {
        match self {
            StageWork::Reader(reader) => reader.next(chunk, into),
            StageWork::Views(views) => views.make(chunk, into),
            StageWork::ViewFiles(files) => files.make(chunk, into),
            _ => unreachable!(),
        }
    }

    fn on_chunk(&mut self, points: &mut Spread) -> Option<StageFault> {
        match self {
            StageWork::Filter(filter) => filter.on_chunk(points),
            StageWork::Plug(plug) => plug.turn(points),
            StageWork::Tally(tally) => tally.turn(points),
            StageWork::Collector(collector) => {
                collector.on_chunk(points);
                None
            }
            StageWork::Writer(writer) => writer.on_chunk(points),
            _leaf => unreachable!(),
        }
    }

    fn on_end_view(&mut self) -> bool {
        match self {
            StageWork::Filter(filter) => filter.on_end_view(),
            StageWork::Plug(plug) => {
                plug.end_view();
                true
            }
            StageWork::Collector(collector) => {
                collector.on_end_view();
                true
            }
            StageWork::Tally(_) | StageWork::Writer(_) => true,
            _leaf => unreachable!(),
        }
    }

    fn on_end(&mut self, cut: bool) -> bool {
        match self {
            StageWork::Filter(filter) => filter.on_end(cut),
            StageWork::Collector(collector) => {
                collector.on_end(cut);
                false
            }
            _ => false,
        }
    }
}

/// What a tally says, under its name.
fn tally_line<Q: PlugTally>(tally: &TallyWork<Q>) -> TallyLine
    ensures { result ≡ record {
      name = Q.called tally.now.tally;
      text = Q.text tally.now.tally (Q.state tally.now.tally);
    } }
{
    let mut text = ArrayString::new();
    tally.close(&mut text);
    TallyLine {
        name: Label::of(tally.name()),
        text: Note::new(text),
    }
}

impl<S: Source, K: FileSink, P: PlugFilter, Q: PlugTally> StageWork<S, K, P, Q> {
    ghost use Rattle.std.specs.Prelude.{◌≡◌, List, Some, None, true, is_some, option_map, IfErr, IfOk, OnOk};
    ghost use Rattle.cloud_points.specs.declared.point.Point as point_type;
    ghost use Rattle.file_devices.specs.Counts.{HasCause};
    ghost use Rattle.file_devices.specs.Told.{IsAsTold};
    ghost use Rattle.stage_kinds.specs.declared.file_form.Writing as writing_type;
    ghost use Rattle.stage_kinds.specs.Held.{HoldsSame, held_by, op_of, faults_of, told_by};
    ghost use Rattle.stage_kinds.specs.Files.{chosen, file_bytes, finishing_op};
    ghost use Rattle.stage_kinds.specs.Gathers.{HasGathered, IsGathered, IsMade};
    ghost use Rattle.stage_kinds.specs.Makings.{IsGoodMaking};
    ghost use Rattle.stage_kinds.specs.declared.held.Held.TheVariants.{Nothing};
    ghost use Rattle.stage_kinds.specs.Stages.{files_by, holds_of, is_short, keeps_of, says_of, shown_by, stops_nowhere, written_by, writing_of};

    /// Makes a writer's file whole: a text writer's sink writes what it holds back, and a LAS writer appends its EVLRs and
    /// puts the totals of its points into the header. Any other stage does nothing.
    ///
    /// It is refused only where the sink of a writer failed, by `Op::Write` for text and by `Op::Patch` for LAS. What the
    /// sink holds then is no file.
    pub fn finish(&mut self) -> Result<(), Op>
        ensures op { op_of self.new ≡ op_of self.old }
        ensures file { OnOk result ((writing : writing_type.Writing) (points : List point_type.Point)
            → writing_of self.old ≡ Some writing → holds_of K.bytes self.old points ≡ true → stops_nowhere writing points ≡ true
            → IsAsTold (told_by K.bytes self.new) (Some (file_bytes writing.form (chosen writing.only points)))) }
        ensures named { IfErr result (λ op. option_map (λ w. finishing_op w.form) (writing_of self.old)
            ≡ Some op) }
        ensures cause { HasCause (faults_of S.faults K.faults self.old) (faults_of S.faults K.faults self.new)
            result }
        ensures keeps { keeps_of self.new ≡ keeps_of self.old }
        ensures handed { HoldsSame P.PlugFilter Q.PlugTally self.old self.new }
        ensures others { writing_of self.old ≡ None → self.new ≡ self.old }
    {
        match self {
            StageWork::Writer(writer) => writer.file.finish(),
            _ => Ok(()),
        }
    }

    /// Where it took the points of whole views, a leaf that gives what the stage makes of them; any other stage is as it was. It is
    /// refused only where memory is wanting, or was as the points came.
    pub fn gather(self, alloc: Global) -> Result<Self, AllocError>
        ensures device { IfOk result (λ made. held_by made ≡ held_by self) }
        ensures made { IfOk result (λ made. IsGathered self made) }
    {
        match self {
            StageWork::Collector(collector) => StageWork::gathered(alloc, collector),
            other => Ok(other),
        }
    }

    /// A leaf that gives what a stage makes of the whole views that it took. It is refused only where memory is wanting, or was as the
    /// points came.
    fn gathered(alloc: Global, collector: Gatherer) -> Result<Self, AllocError>
        ensures device { IfOk result (λ made. held_by made ≡ Nothing) }
        ensures made { IfOk result (HasGathered collector.short collector.making collector.views) }
    {
        let (making, taken) = collector.into_parts();
        StageWork::made_of(alloc, making, taken.ok_or(AllocError)?)
    }

    /// A leaf that gives what a stage makes of whole views. It is refused for want of memory alone, and the views are dropped then.
    pub fn made_of(alloc: Global, making: Making, taken: Views) -> Result<Self, AllocError>
        requires { IsGoodMaking making }
        ensures made { IfOk result (IsMade making taken) }
        ensures device { IfOk result (λ made. held_by made ≡ Nothing) }
    {
        match making {
            Making::Gathers(gathering) => {
                let views = gather(alloc, taken, gathering)?;
                Ok(StageWork::Views(HeldViews::new(views)))
            }
            Making::WritesEach(writing) => Ok(StageWork::ViewFiles(ViewFiles::new(taken, writing))),
        }
    }

    /// Ends a work that holds nothing.
    pub fn let_go(self)
        requires { held_by self ≡ Nothing }
    {
        match self.release() {
            Held::Nothing => {}
            _holding => unreachable!(),
        }
    }

    /// Whether memory was wanting for the whole views that it takes.
    pub fn is_short(&self) -> bool
        ensures { result ≡ is_short self.now }
    {
        match self {
            StageWork::Collector(collector) => collector.is_short(),
            _ => false,
        }
    }

    /// How many points a writer writes, up to the greatest u64; None exactly where it is none.
    pub fn written(&self) -> Option<u64>
        ensures { result ≡ written_by self.now }
    {
        match self {
            StageWork::Writer(writer) => Some(writer.file.count()),
            StageWork::ViewFiles(files) => Some(files.count()),
            _ => None,
        }
    }

    /// How many points it showed to a tally, up to the greatest u64; None exactly where it has none.
    pub fn shown(&self) -> Option<u64>
        ensures { result ≡ shown_by self.now }
    {
        match self {
            StageWork::Tally(tally) => Some(tally.shown()),
            _ => None,
        }
    }

    /// What its tally says; None exactly where it has none.
    pub fn says(&self) -> Option<TallyLine>
        ensures { result ≡ says_of Q.PlugTally self.now }
    {
        match self {
            StageWork::Tally(tally) => Some(tally_line(tally)),
            _ => None,
        }
    }

    /// Whether it keeps views of which files are to be written.
    pub fn keeps_views(&self) -> bool
        ensures { result ≡ is_some (keeps_of self.now) }
    {
        matches!(self, StageWork::ViewFiles(_))
    }

    /// How many files it writes.
    pub fn files(&self) -> u64
        ensures { result ≡ files_by self.now }
    {
        match self {
            StageWork::Writer(_) => 1,
            StageWork::ViewFiles(files) => files.files() as u64,
            _ => 0,
        }
    }

    /// What it holds, with the stage ended.
    pub fn release(self) -> Held<S, K, P, Q>
        ensures { result ≡ held_by self }
    {
        match self {
            StageWork::Reader(reader) => Held::Source(reader.release()),
            StageWork::Writer(writer) => Held::Sink(writer.release()),
            StageWork::Plug(plug) => {
                let (plug, place) = plug.into_parts();
                Held::Filter(plug, place)
            }
            StageWork::Tally(tally) => {
                let (tally, place) = tally.into_parts();
                Held::Tally(tally, place)
            }
            StageWork::Filter(_) => Held::Nothing,
            StageWork::Collector(_) => Held::Nothing,
            StageWork::Views(_) => Held::Nothing,
            StageWork::ViewFiles(_) => Held::Nothing,
        }
    }
}
