//! A writer of a file for each view, with the views that it took.

ghost use Rattle.std.specs.Prelude.{◌≡◌, ◌<◌, ◌≤◌, ◌+◌, ◌++◌, [], None, true, false, length, option_map, if◌then◌else◌, is_some};
ghost use Rattle.arrayvec.specs.ArrayVec.{array_vec_len};
ghost use Rattle.cloud_points.specs.Events.{first_fault, is_device};
ghost use Rattle.cloud_points.specs.Flows.{all_of};
ghost use Rattle.cloud_points.specs.Makes.{made, made_fault, gives_points, gives_end, ends_cut};
ghost use Rattle.cloud_points.specs.Marks.{flow_marks, marks, views_in};
ghost use Rattle.cloud_points.specs.declared.faults.StageFault.TheVariants.{Point as OfPoint};
ghost use Rattle.network_theory.specs.Net.{count_views, count_points};
ghost use Rattle.cloud_points.specs.Queue.{up_to_limit};
ghost use Rattle.stage_meanings.specs.Conditions.{passes};
ghost use Rattle.stage_meanings.specs.Filters.{admitted_in_views, nothing_cut, refusal_in_views};
ghost use Rattle.stage_kinds.specs.Files.{HasFileForm, IsFileForm, chosen, unwritten};
ghost use Rattle.stage_kinds.specs.Judging.{told_fault};
ghost use Rattle.view_works.specs.Giving.{left_of};

use crate::Writing;
use crate::judging::judge_files;
use cloud_points::{Make, PointFault, Spread, StageFault};
use view_works::HeldViews;
use whole_filters::Views;

/// The views of a writer that writes a file of each: it gives them on, and keeps them until they are written. Where one of their points
/// has no place in its file there are none, and at their end comes its fault.
#[derive(Drop)]
pub struct ViewFiles {
    views: HeldViews,
    writing: Writing,
    fault: Option<PointFault>,
    wrote: u64,
    ghost form: { HasFileForm writing.form },
    ghost keeps: { views.keeps ≡ true },
    ghost cut: { is_some fault ≡ true → views.views.cut ≡ true },
    ghost placed: { is_some (refusal_in_views (unwritten writing.form) (passes writing.only) views.views) ≡ false },
    ghost count: { wrote ≡ up_to_limit (length (chosen writing.only (all_of views.views.views))) },
}

/// All complete views.
fn complete(taken: Views) -> Views
    ensures { result ≡ record { views = taken.views; open_view = []; cut = taken.cut } }
{
    let mut views = taken;
    views.drop_open();
    views
}

/// No views of the layout of these, cut.
fn nothing_cut(taken: &Views) -> Views
    ensures { result ≡ nothing_cut }
{
    let mut views = taken.like();
    views.set_cut();
    views
}

impl ViewFiles {
    /// What such a writer makes of the views that it took: where each point has its place in the file of its view, and the views aren't
    /// cut, these; else none. It takes no memory.
    pub fn new(taken: Views, writing: Writing) -> ViewFiles
        requires { IsFileForm writing.form }
        ensures writing { result.writing ≡ writing }
        ensures views { result.views.views
            ≡ admitted_in_views (unwritten writing.form) (passes writing.only) taken }
        ensures gives { left_of result.views ≡ flow_marks result.views.views }
        ensures begins { result.views.ended ≡ false }
        ensures fault { result.fault ≡ option_map told_fault
            (refusal_in_views (unwritten writing.form) (passes writing.only) taken) }
    {
        match judge_files(&writing, &taken) {
            Ok(wrote) => ViewFiles::sound(taken, writing, wrote),
            Err(fault) => ViewFiles::stopped(&taken, writing, Some(fault)),
        }
    }

    /// All of these views, each of whose points has its place, unless they are cut.
    fn sound(taken: Views, writing: Writing, wrote: u64) -> ViewFiles
        requires form { IsFileForm writing.form }
        requires placed { refusal_in_views (unwritten writing.form) (passes writing.only) taken ≡ None }
        requires count { wrote ≡ up_to_limit (length (chosen writing.only (all_of taken.views))) }
        ensures writing { result.writing ≡ writing }
        ensures views { result.views.views
            ≡ (if taken.cut then nothing_cut else record { views = taken.views; open_view = []; cut = false }) }
        ensures gives { left_of result.views ≡ flow_marks result.views.views }
        ensures begins { result.views.ended ≡ false }
        ensures fault { result.fault ≡ None }
    {
        if taken.is_cut() {
            return ViewFiles::stopped(&taken, writing, None);
        }
        ViewFiles {
            views: HeldViews::keeping(complete(taken)),
            writing,
            fault: None,
            wrote,
        }
    }

    /// No views, cut, with this fault.
    fn stopped(taken: &Views, writing: Writing, fault: Option<PointFault>) -> ViewFiles
        requires { IsFileForm writing.form }
        ensures writing { result.writing ≡ writing }
        ensures views { result.views.views ≡ nothing_cut }
        ensures gives { left_of result.views ≡ flow_marks result.views.views }
        ensures begins { result.views.ended ≡ false }
        ensures fault { result.fault ≡ fault }
    {
        ViewFiles {
            views: HeldViews::keeping(nothing_cut(taken)),
            writing,
            fault,
            wrote: 0,
        }
    }

    /// The views: those that it took, or none where it has a fault or they were cut.
    pub fn views(&self) -> &Views
        ensures { result.now ≡ self.now.views.views }
    {
        self.views.views()
    }

    /// The fault that comes at their end; None exactly where there is none, or it has come.
    pub fn fault(&self) -> Option<PointFault>
        ensures { result ≡ self.now.fault }
    {
        self.fault
    }

    /// How many points it writes, up to the greatest u64.
    pub fn count(&self) -> u64
        ensures { result ≡ self.now.wrote }
    {
        self.wrote
    }

    /// How many files it writes.
    pub fn files(&self) -> usize
        ensures { result ≡ length self.now.views.views.views }
    {
        self.views.views().views()
    }

    /// The next points, or an end: as `HeldViews::make`, but that the first end of all has its fault.
    pub(crate) fn make(&mut self, chunk: usize, into: &mut Spread) -> Make
        requires some { 0 < chunk }
        requires most { chunk ≤ 64 }
        ensures writing { self.new.writing ≡ self.old.writing }
        ensures views { self.new.views.views ≡ self.old.views.views }
        ensures some { gives_points result ≡ true → 0 < array_vec_len into.new }
        ensures most { array_vec_len into.new ≤ chunk }
        ensures empty { gives_points result ≡ false → into.new.items ≡ [] }
        ensures cut { is_some (made_fault result) ≡ true → ends_cut result ≡ true }
        ensures calm { is_device (made_fault result) ≡ false }
        ensures part { self.old.views.ended ≡ false → left_of self.old.views
            ≡ marks (made result into.new.items) ++ left_of self.new.views }
        ensures fault { option_map OfPoint self.old.fault
            ≡ first_fault (made_fault result) (option_map OfPoint self.new.fault) }
        ensures last_fault { gives_end result ≡ true → self.new.fault ≡ None }
        ensures ended { gives_end result ≡ true → self.new.views.ended ≡ true }
        ensures goes_on { gives_end result ≡ false → self.new.views.ended ≡ self.old.views.ended }
        ensures fewer_points { count_points (left_of self.new.views) + array_vec_len into.new
            ≤ count_points (left_of self.old.views) }
        ensures fewer_views { count_views (left_of self.new.views) + views_in (made result into.new.items)
            ≤ count_views (left_of self.old.views) }
    {
        match self.views.make(chunk, into) {
            Make::End(cut, _) => match self.fault.take() {
                None => Make::End(cut, None),
                Some(fault) => Make::End(cut, Some(StageFault::Point(fault))),
            },
            made => made,
        }
    }

    /// The views, and what is to be written of each.
    pub fn into_parts(self) -> (Views, Writing)
        ensures views { result.0 ≡ self.views.views }
        ensures writing { result.1 ≡ self.writing }
        ensures form { IsFileForm result.1.form }
        ensures placed { refusal_in_views (unwritten self.writing.form) (passes self.writing.only)
            self.views.views ≡ None }
    {
        let ViewFiles {
            views,
            writing,
            fault: _,
            wrote: _,
        } = self;
        (views.into_views(), writing)
    }
}
