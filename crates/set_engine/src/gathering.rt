//! Stages that need whole views.

ghost use Rattle.std.specs.Prelude.{◌≡◌, None, IfOk};
ghost use Rattle.set_engine.specs.Gathering.{IsMadeBy, IsMadeOf};
ghost use Rattle.stage_forms.specs.Starts.{IsCollecting};
ghost use Rattle.stage_kinds.specs.Held.{held_by};
ghost use Rattle.stage_kinds.specs.Makings.{IsGoodMaking};
ghost use Rattle.stage_kinds.specs.Stages.{writing_of};
ghost use Rattle.stage_kinds.specs.declared.held.Held.TheVariants.{Nothing};
ghost use Rattle.stage_kinds.specs.declared.making.Making as making_type;

use crate::filters::of_point;
use crate::output::StageOutput;
use file_devices::{FileSink, Source};
use plug_stages::{PlugFilter, PlugTally};
use stage_kinds::{Making, StageWork, ViewFiles, Writing};
use std::alloc::{AllocError, Global};
use std::mem::replace;
use stream_filters::Filter;
use tile_filters::gather;
use whole_filters::Views;

/// The same views once more. It is refused for want of memory alone.
fn copy_of(views: &Views) -> Result<Views, AllocError>
    ensures { IfOk result (λ copy. copy ≡ views.now) }
{
    let mut copy = views.like();
    for v in 0..views.views() {
        copy.push_view(views.view(v))?;
        copy.end_view()?;
    }
    copy.push_view(views.view(views.views()))?;
    if views.is_cut() {
        copy.set_cut();
    }
    Ok(copy)
}

/// A work in place of one that holds nothing, which ends.
fn put_work<S: Source, K: FileSink, P: PlugFilter, Q: PlugTally>(
    work: &mut StageWork<S, K, P, Q>,
    now: StageWork<S, K, P, Q>,
)
    requires { held_by work.old ≡ Nothing }
    ensures { work.new ≡ now }
{
    replace(work, now).let_go();
}

/// What a writer of a file for each view gives of views that it takes, and its fault; the work keeps them then.
fn kept_views<S: Source, K: FileSink, P: PlugFilter, Q: PlugTally>(
    work: &mut StageWork<S, K, P, Q>,
    writing: Writing,
    taken: Views,
) -> Result<StageOutput, AllocError>
    requires none { held_by work.old ≡ Nothing }
    requires form { IsGoodMaking (making_type.Making.WritesEach writing) }
    requires idle { writing_of work.old ≡ None }
    ensures made { IfOk result (IsMadeOf (making_type.Making.WritesEach writing) taken work.new) }
    ensures device { held_by work.new ≡ Nothing }
    ensures writing { writing_of work.new ≡ None }
{
    let files = ViewFiles::new(taken, writing);
    let given = StageOutput {
        views: copy_of(files.views())?,
        fault: of_point(files.fault()),
    };
    put_work(work, StageWork::ViewFiles(files));
    Ok(given)
}

/// What a stage that needs whole views makes of them, and its fault. Its work is used up, but that it keeps the views of which it is to
/// write files. Refuses for want of memory alone.
pub(crate) fn gathered_views<S: Source, K: FileSink, P: PlugFilter, Q: PlugTally>(
    alloc: Global,
    work: &mut StageWork<S, K, P, Q>,
    taken: Views,
) -> Result<StageOutput, AllocError>
    requires { IsCollecting work.old }
    ensures made { IfOk result (IsMadeBy work.old taken work.new) }
    ensures device { held_by work.new ≡ Nothing }
    ensures writing { writing_of work.new ≡ None }
{
    let gatherer = match replace(work, StageWork::Filter(Filter::Merge)) {
        StageWork::Collector(gatherer) => gatherer,
        _other => unreachable!(),
    };
    let (making, _none) = gatherer.into_parts();
    match making {
        Making::Gathers(gathering) => Ok(StageOutput {
            views: gather(alloc, taken, gathering)?,
            fault: None,
        }),
        Making::WritesEach(writing) => kept_views(work, writing, taken),
    }
}
