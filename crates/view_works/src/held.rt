//! A leaf that gives a list of views.

ghost use Rattle.std.specs.Prelude.{◌≤◌, length};
ghost use Rattle.whole_filters.specs.Held.{view_at};

use cloud_points::{Make, Spread};
use whole_filters::Views;

/// So many points of a view are given before their memory is let go.
const MOST_GIVEN: usize = 4096;

/// A leaf that gives the views that it holds, and then their end, which is cut where they are. It lets go of what it gave, unless it
/// keeps all.
#[derive(Drop)]
pub struct HeldViews {
    views: Views,
    view: usize,
    at: usize,
    ended: bool,
    keeps: bool,
    ghost within: { view ≤ length views.views },
    ghost placed: { at ≤ length (view_at views view) },
}

impl HeldViews {
    ghost use Rattle.std.specs.Prelude.{◌≡◌, ◌+◌, ◌-◌, ◌<◌, ◌≤◌, ◌++◌, [], true, false, None, min, length, take, drop};
    ghost use Rattle.arrayvec.specs.ArrayVec.{array_vec_len};
    ghost use Rattle.cloud_points.specs.Makes.{made, made_fault, gives_points, gives_end, ends_cut};
    ghost use Rattle.cloud_points.specs.declared.faults.Make.{Make};
    ghost use Rattle.cloud_points.specs.Marks.{flow_marks, marks, views_in};
    ghost use Rattle.network_theory.specs.Net.{count_views, count_points};
    ghost use Rattle.view_works.specs.Giving.{left_of};
    ghost use Rattle.whole_filters.specs.Held.{view_at};

    /// One that gives all of these views, and lets go of what it gave.
    pub fn new(views: Views) -> HeldViews
        ensures gives { left_of result ≡ flow_marks views }
        ensures begins { result.ended ≡ false }
    {
        HeldViews::begin(views, false)
    }

    /// One that gives all of these views, and keeps them.
    pub fn keeping(views: Views) -> HeldViews
        ensures gives { left_of result ≡ flow_marks views }
        ensures begins { result.ended ≡ false }
        ensures keeps { result.keeps ≡ true }
        ensures views { result.views ≡ views }
    {
        HeldViews::begin(views, true)
    }

    /// One before all of these views.
    fn begin(views: Views, keeps: bool) -> HeldViews
        ensures gives { left_of result ≡ flow_marks views }
        ensures begins { result.ended ≡ false }
        ensures keeps { result.keeps ≡ keeps }
        ensures views { result.views ≡ views }
    {
        HeldViews {
            views,
            view: 0,
            at: 0,
            ended: false,
            keeps,
        }
    }

    /// The views that it holds: all of them where it keeps them.
    pub fn views(&self) -> &Views
        ensures { result.now ≡ self.now.views }
    {
        &self.views
    }

    /// The same views, with the leaf ended.
    pub fn into_views(self) -> Views
        ensures { result ≡ self.views }
    {
        let HeldViews { views, .. } = self;
        views
    }

    /// Puts the next 1 to `chunk` points in place of what the spread held, or answers an end and leaves the spread empty: that of a
    /// view, or behind the last one that of all. Behind its end it answers that end again, and stays as it is.
    pub fn make(&mut self, chunk: usize, into: &mut Spread) -> Make
        requires some { 0 < chunk }
        requires most { chunk ≤ 64 }
        ensures some { gives_points result ≡ true → 0 < array_vec_len into.new }
        ensures most { array_vec_len into.new ≤ chunk }
        ensures empty { gives_points result ≡ false → into.new.items ≡ [] }
        ensures no_fault { made_fault result ≡ None }
        ensures cut { gives_end result ≡ true → ends_cut result ≡ self.old.views.cut }
        ensures part { self.old.ended ≡ false → left_of self.old
            ≡ marks (made result into.new.items) ++ left_of self.new }
        ensures ended { gives_end result ≡ true → self.new.ended ≡ true }
        ensures goes_on { gives_end result ≡ false → self.new.ended ≡ self.old.ended }
        ensures again { self.old.ended ≡ true
            → (result ≡ Make.End self.old.views.cut None) × (self.new ≡ self.old) }
        ensures fewer_points { count_points (left_of self.new) + array_vec_len into.new
            ≤ count_points (left_of self.old) }
        ensures fewer_views { count_views (left_of self.new) + views_in (made result into.new.items)
            ≤ count_views (left_of self.old) }
        ensures keeps { self.new.keeps ≡ self.old.keeps }
        ensures kept { self.old.keeps ≡ true → self.new.views ≡ self.old.views }
    {
        if self.ended {
            into.clear();
            return Make::End(self.views.is_cut(), None);
        }
        if !self.keeps && (self.at >= MOST_GIVEN || self.is_view_given()) {
            self.let_go();
        }
        self.give(chunk, into)
    }

    /// Whether all points of the current view were given, and some.
    fn is_view_given(&self) -> bool {
        self.at > 0 && self.at == self.views.len(self.view)
    }

    /// Lets go of the points that were given of the current view.
    fn let_go(&mut self)
        ensures gives { left_of self.new ≡ left_of self.old }
        ensures cut { self.new.views.cut ≡ self.old.views.cut }
        ensures ended { self.new.ended ≡ self.old.ended }
        ensures keeps { self.new.keeps ≡ self.old.keeps }
    {
        self.views.let_go(self.view, self.at);
        self.at = 0;
    }

    /// Puts the next points in place of what the spread held, or answers an end and leaves the spread empty. None was
    /// answered for all yet.
    fn give(&mut self, chunk: usize, into: &mut Spread) -> Make
        requires some { 0 < chunk }
        requires most { chunk ≤ 64 }
        requires begun { self.old.ended ≡ false }
        ensures some { gives_points result ≡ true → 0 < array_vec_len into.new }
        ensures most { array_vec_len into.new ≤ chunk }
        ensures empty { gives_points result ≡ false → into.new.items ≡ [] }
        ensures no_fault { made_fault result ≡ None }
        ensures cut { gives_end result ≡ true → ends_cut result ≡ self.old.views.cut }
        ensures part { left_of self.old
            ≡ marks (made result into.new.items) ++ left_of self.new }
        ensures ended { gives_end result ≡ true → self.new.ended ≡ true }
        ensures goes_on { gives_end result ≡ false → self.new.ended ≡ self.old.ended }
        ensures fewer_points { count_points (left_of self.new)
            + array_vec_len into.new
            ≤ count_points (left_of self.old) }
        ensures fewer_views { count_views (left_of self.new) + views_in (made result into.new.items)
            ≤ count_views (left_of self.old) }
        ensures keeps { self.new.keeps ≡ self.old.keeps }
        ensures views { self.new.views ≡ self.old.views }
    {
        let next = self.lay(chunk, into);
        if next > self.at {
            self.at = next;
            return Make::Points;
        }
        if self.view < self.views.views() {
            self.view += 1;
            self.at = 0;
            return Make::EndView;
        }
        self.ended = true;
        Make::End(self.views.is_cut(), None)
    }

    /// Puts the next points of the current view, at most `chunk`, in place of what the spread held, and tells the place
    /// behind them.
    fn lay(&self, chunk: usize, into: &mut Spread) -> usize
        requires { chunk ≤ 64 }
        ensures place { result ≡ self.now.at + min chunk
            (length (view_at self.now.views self.now.view) - self.now.at) }
        ensures points { into.new.items ≡ take
            (min chunk (length (view_at self.now.views self.now.view) - self.now.at))
            (drop self.now.at (view_at self.now.views self.now.view)) }
    {
        let view = self.views.view(self.view);
        let left = view.len() - self.at;
        let count = if left < chunk { left } else { chunk };
        view.copy_into(self.at, count, into);
        self.at + count
    }
}
