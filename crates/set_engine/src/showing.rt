//! Works on whole views, point by point.

ghost use Rattle.std.specs.Prelude.{◌≡◌, ◌++◌, false, cond, [], ◌∷◌, IfOk, OnOk};
ghost use Rattle.cloud_points.specs.Events.{is_device};
ghost use Rattle.cloud_points.specs.Marks.{End, View_end, flow_marks, piece_marks};
ghost use Rattle.network_theory.specs.Machine.{fault_on, made_of, state_after};
ghost use Rattle.set_engine.specs.Showing.{IsPlain, WasShown};

use crate::output::StageOutput;
use cloud_points::{Spread, StageFault, Work, put_points};
use std::alloc::{AllocError, Global};
use whole_filters::{Rows, Views};

/// Shows a work the points of a view, one after the other, up to its first fault, and puts what goes on behind the points
/// of the open view. Answered is the fault.
fn show_view<W: Work>(
    work: &mut W,
    view: &Rows,
    spread: &mut Spread,
    given: &mut Views,
) -> Result<Option<StageFault>, AllocError>
    requires { IsPlain W.Work work.old }
    ensures points { OnOk result (given.new ≡ record given.old {
      open_view = given.old.open_view ++ (W.meaning work.old).emit (W.state work.old) view.now;
    }) }
    ensures state { OnOk result (W.state work.new ≡ (W.meaning work.old).after (W.state work.old) view.now) }
    ensures fault { IfOk result (λ fault. fault ≡ (W.meaning work.old).fault (W.state work.old) view.now) }
    ensures no_device { IfOk result (λ fault. is_device fault ≡ false) }
    ensures meaning { W.meaning work.new ≡ W.meaning work.old }
    ensures plain { IsPlain W.Work work.new }
{
    for k in 0..view.len() {
        put_points(spread, &[view.get(k)]);
        let fault = work.on_chunk(spread);
        given.push_all(spread.as_slice())?;
        if fault.is_some() {
            return Ok(fault);
        }
    }
    Ok(None)
}

/// Shows a work the end of a view, and ends the open view where that goes on.
fn show_end<W: Work>(work: &mut W, given: &mut Views) -> Result<(), AllocError>
    requires { IsPlain W.Work work.old }
    ensures marks { OnOk result (piece_marks given.new ≡ piece_marks given.old
        ++ cond (((W.meaning work.old).at_view (W.state work.old)).1) (View_end ∷ []) []) }
    ensures cut { given.new.cut ≡ given.old.cut }
    ensures state { W.state work.new ≡ ((W.meaning work.old).at_view (W.state work.old)).0 }
    ensures meaning { W.meaning work.new ≡ W.meaning work.old }
    ensures plain { IsPlain W.Work work.new }
{
    if work.on_end_view() {
        given.end_view()?;
    }
    Ok(())
}

/// Shows a work the points and the ends of whole views, up to its first fault. Answered are what goes on, and the fault.
fn show_pieces<W: Work>(
    alloc: Global,
    work: &mut W,
    taken: &Views,
) -> Result<StageOutput, AllocError>
    requires { IsPlain W.Work work.old }
    ensures shown { IfOk result (λ given. WasShown (W.meaning work.old) (W.state work.old)
        (piece_marks taken.now)
        given.views (W.state work.new) given.fault) }
    ensures uncut { IfOk result (λ given. given.views.cut ≡ false) }
    ensures no_device { IfOk result (λ given. is_device given.fault ≡ false) }
    ensures meaning { W.meaning work.new ≡ W.meaning work.old }
    ensures plain { IsPlain W.Work work.new }
{
    let mut spread = Box::new(alloc, Spread::new())?;
    let mut views = taken.like();
    for v in 0..taken.views() {
        let fault = show_view(work, taken.view(v), &mut spread, &mut views)?;
        if fault.is_some() {
            return Ok(StageOutput { views, fault });
        }
        show_end(work, &mut views)?;
    }
    let last = taken.view(taken.views());
    let fault = show_view(work, last, &mut spread, &mut views)?;
    Ok(StageOutput { views, fault })
}

/// Views that are at their end: that of the open view, where that goes before it, and whether they are cut.
fn at_end(mut views: Views, ends_view: bool, cut: bool) -> Result<Views, AllocError>
    requires { views.cut ≡ false }
    ensures { IfOk result (λ ended. flow_marks ended
        ≡ piece_marks views ++ cond ends_view (View_end ∷ End cut ∷ []) (End cut ∷ [])) }
{
    if ends_view {
        views.end_view()?;
    }
    if cut {
        views.set_cut();
    }
    Ok(views)
}

/// What a work makes of whole views, point by point, and its fault. At a fault it gives what it made of the points before
/// that one, cut off there. Refuses for want of memory alone.
pub(crate) fn shown_views<W: Work>(
    alloc: Global,
    work: &mut W,
    taken: &Views,
) -> Result<StageOutput, AllocError>
    requires { IsPlain W.Work work.old }
    ensures value { IfOk result (λ given. flow_marks given.views
        ≡ made_of (W.meaning work.old) (W.state work.old) taken.now) }
    ensures fault { IfOk result (λ given. given.fault
        ≡ fault_on (W.meaning work.old) (W.state work.old) taken.now) }
    ensures no_device { IfOk result (λ given. is_device given.fault ≡ false) }
    ensures state { OnOk result (W.state work.new ≡ state_after (W.meaning work.old)
        (W.state work.old) taken.now) }
    ensures meaning { W.meaning work.new ≡ W.meaning work.old }
{
    let StageOutput { views, fault } = show_pieces(alloc, work, taken)?;
    let cut = taken.is_cut() || fault.is_some();
    let ends_view = work.on_end(cut);
    Ok(StageOutput {
        views: at_end(views, ends_view, cut)?,
        fault,
    })
}
