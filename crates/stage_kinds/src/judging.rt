//! Whether all points of whole views have their places in files, found without a file.

ghost use Rattle.std.specs.Prelude.{◌≡◌, ◌+◌, ℕ, Some, None, length, option_map, if◌then◌else◌, IfOk, IfErr, OnOk};
ghost use Rattle.cloud_points.specs.Flows.{all_of};
ghost use Rattle.cloud_points.specs.Queue.{up_to_limit};
ghost use Rattle.cloud_points.specs.declared.point.Point as point_type;
ghost use Rattle.stage_meanings.specs.Conditions.{passes};
ghost use Rattle.stage_meanings.specs.Filters.{is_true, refusal_in_views, refused_by};
ghost use Rattle.stage_kinds.specs.Files.{IsFileForm, chosen, unwritten};
ghost use Rattle.stage_kinds.specs.Judging.{HasPassed, by_places, refused_behind, told_fault};

use crate::file_writer::reason_of;
use crate::{FileForm, Writing};
use cloud_points::{Point, PointFault};
use expr_eval::Bound;
use las_writer::PointPlaces;
use stage_meanings::Reason;
use stream_filters::passes;
use whole_filters::{Rows, Views};

/// The places in a file of this form; None where each point has one.
fn places_of(form: &FileForm) -> Option<PointPlaces<'_>>
    requires { IsFileForm form.now }
    ensures { (k : ℕ) (p : point_type.Point) → by_places result k p ≡ unwritten form.now k p }
{
    match form {
        FileForm::Text(_) => None,
        FileForm::Las(form) => Some(PointPlaces::of(form)),
    }
}

/// Why a point has no place behind so many that are written; None exactly where it has one.
fn refusal(places: &Option<PointPlaces<'_>>, written: u64, point: &Point) -> Option<Reason>
    ensures { result ≡ by_places places.now written point.now }
{
    let fault = places.as_ref()?.refusal(written, point)?;
    Some(reason_of(fault))
}

/// Whether a point is to be written behind so many others. It is refused exactly where its `where` has no value, or holds and the point
/// has no place.
fn judge(
    places: &Option<PointPlaces<'_>>,
    only: &Option<Bound>,
    written: u64,
    p: &Point,
) -> Result<bool, Reason>
    ensures chooses { IfOk result (λ b. is_true (passes only.now p.now) ≡ b) }
    ensures ok { OnOk result (refused_by (by_places places.now) (passes only.now) (p.now, written) ≡ None) }
    ensures err { IfErr result (λ r. refused_by (by_places places.now) (passes only.now) (p.now, written)
        ≡ Some r) }
{
    if !passes(only, p)? {
        return Ok(false);
    }
    match refusal(places, written, p) {
        None => Ok(true),
        Some(reason) => Err(reason),
    }
}

/// A count with one more, if that is so; it stands at the greatest u64.
fn one_more_if(more: bool, count: u64) -> u64
    ensures { result ≡ (if more then up_to_limit (count + 1) else count) }
{
    if more { count.saturating_add(1) } else { count }
}

/// Judges the points of a view, behind so many others. It answers how many stand before the next one, and how many of the view are to
/// be written; the numbers stand at the greatest u64. It is refused exactly where one of them is, at the first one.
fn judge_view(
    places: &Option<PointPlaces<'_>>,
    only: &Option<Bound>,
    view: &Rows,
    before: u64,
) -> Result<(u64, u64), PointFault>
    ensures ok { IfOk result (λ done. (m : ℕ) → before ≡ up_to_limit m
        → HasPassed places.now only.now m view.now done.0 done.1) }
    ensures err { IfErr result (λ fault. (m : ℕ) → before ≡ up_to_limit m
        → option_map told_fault (refused_behind places.now only.now m 0 view.now) ≡ Some fault) }
{
    let mut number = before;
    let mut written: u64 = 0;
    for k in 0..view.len() {
        match judge(places, only, written, &view.get(k)) {
            Ok(chosen) => written = one_more_if(chosen, written),
            Err(reason) => return Err(reason.at(number)),
        }
        number = number.saturating_add(1);
    }
    Ok((number, written))
}

/// Judges the points of all complete views, and answers how many are to be written, up to the greatest u64. It is refused exactly where
/// a point's `where` has no value, or holds and the point has no place behind those of its view: with the fault of the first such one.
fn judge_views(
    places: &Option<PointPlaces<'_>>,
    only: &Option<Bound>,
    views: &Views,
) -> Result<u64, PointFault>
    ensures ok { OnOk result (refusal_in_views (by_places places.now) (passes only.now) views.now ≡ None) }
    ensures count { IfOk result (λ wrote. wrote
        ≡ up_to_limit (length (chosen only.now (all_of views.now.views)))) }
    ensures err { IfErr result (λ fault. option_map told_fault
        (refusal_in_views (by_places places.now) (passes only.now) views.now) ≡ Some fault) }
{
    let mut number = 0;
    let mut wrote: u64 = 0;
    for v in 0..views.views() {
        match judge_view(places, only, views.view(v), number) {
            Ok((next, written)) => {
                number = next;
                wrote = wrote.saturating_add(written);
            }
            Err(fault) => return Err(fault),
        }
    }
    Ok(wrote)
}

/// Judges the points of all complete views by what is to be written of each. It answers how many are to be written, up to the greatest
/// u64. It is refused exactly where a point's `where` has no value, or holds and the point has no place in the file of its view: with the
/// fault of the first such one.
pub(crate) fn judge_files(writing: &Writing, views: &Views) -> Result<u64, PointFault>
    requires { IsFileForm writing.now.form }
    ensures ok { OnOk result (refusal_in_views (unwritten writing.now.form) (passes writing.now.only) views.now
        ≡ None) }
    ensures count { IfOk result (λ wrote. wrote
        ≡ up_to_limit (length (chosen writing.now.only (all_of views.now.views)))) }
    ensures err { IfErr result (λ fault. option_map told_fault
        (refusal_in_views (unwritten writing.now.form) (passes writing.now.only) views.now) ≡ Some fault) }
{
    judge_views(&places_of(&writing.form), &writing.only, views)
}
