//! One stage.

ghost use Rattle.std.specs.Prelude.{◌≡◌, false, IfOk};
ghost use Rattle.answer_model.specs.Rows.{Row};
ghost use Rattle.cloud_points.specs.Events.{is_device};
ghost use Rattle.las_reader.specs.Files.{Las};
ghost use Rattle.set_engine.specs.Fits.{IsFor, HasFile};
ghost use Rattle.set_engine.specs.Given.{IsAfter, IsGivenBy, kept_after};
ghost use Rattle.set_engine.specs.Stops.{IsCaused};
ghost use Rattle.stage_kinds.specs.Held.{faults_of, op_of};
ghost use Rattle.stage_kinds.specs.Stages.{keeps_of};
ghost use Rattle.stage_options.specs.Roles.{Role};

use crate::filters::filter_all;
use crate::gathering::gathered_views;
use crate::leaves::leaf_views;
use crate::output::StageOutput;
use crate::showing::shown_views;
use crate::writers::written_views;
use cloud_points::Layout;
use file_devices::{FileSink, Source};
use plug_stages::{PlugFilter, PlugTally};
use point_formats::dims;
use stage_forms::add_fields;
use stage_kinds::StageWork;
use std::alloc::{AllocError, Global};
use std::mem::replace;
use stream_filters::Filter;
use whole_filters::Views;

/// The dimensions of the points that a reader gives.
fn layout_of<S: Source, K: FileSink, P: PlugFilter, Q: PlugTally>(
    work: &StageWork<S, K, P, Q>,
) -> Layout {
    match work {
        StageWork::Reader(reader) => {
            let mut layout = dims(reader.header().format);
            add_fields(&mut layout, reader.fields());
            layout
        }
        _ => Layout::none(),
    }
}

/// What a stage gives on for the views that it takes: a reader gives those of its file, a writer takes their points, and what the
/// caller handed in is shown them. At the first point with a fault, and where its device fails, it gives what it has by then. The work of
/// a filter is used up, and so is that of a stage that needs whole views, unless it keeps those of which it writes files. Refuses for
/// want of memory alone.
pub(crate) fn stage_views<S: Source, K: FileSink, P: PlugFilter, Q: PlugTally>(
    alloc: Global,
    work: &mut StageWork<S, K, P, Q>,
    taken: Views,
) -> Result<StageOutput, AllocError>
    ensures ok { IfOk result (λ given. is_device given.fault ≡ false → (role : Role) (row : Row) (las : Las)
        → IsFor K.bytes P.PlugFilter Q.PlugTally role row work.old → HasFile S.bytes las work.old
        → IsGivenBy K.bytes P.PlugFilter Q.PlugTally role row las taken work.new given) }
    ensures caused { IfOk result (λ given. IsCaused (op_of work.old)
        (faults_of S.faults K.faults work.old) (faults_of S.faults K.faults work.new) given.fault) }
    ensures keeps { IfOk result (λ given. keeps_of work.new ≡ kept_after work.old given.views) }
    ensures after { IsAfter P.PlugFilter Q.PlugTally (faults_of S.faults K.faults) work.old work.new }
{
    match work {
        StageWork::Filter(filter) => filter_all(replace(filter, Filter::Merge), taken),
        StageWork::Collector(_) => gathered_views(alloc, work, taken),
        StageWork::Writer(writer) => written_views(writer, taken),
        StageWork::Plug(_) | StageWork::Tally(_) => shown_views(alloc, work, &taken),
        StageWork::Reader(_) | StageWork::Views(_) | StageWork::ViewFiles(_) => {
            leaf_views(alloc, &layout_of(work), work)
        }
    }
}
