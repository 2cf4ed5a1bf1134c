//! Held views.

ghost use Rattle.std.specs.Prelude.{◌≡◌, ◌≤◌, ◌<◌, ◌++◌, ◌∷◌, [], take, length, slice_get, true, Some, OnOk, OnErr};
ghost use Rattle.cloud_points.specs.Flows.{empty_flow, first_with, join, open_with};
ghost use Rattle.whole_filters.specs.Held.{view_at, without_first};

use crate::rows::Rows;
use cloud_points::{Layout, Point};
use std::alloc::{AllocError, Global};
use std::marker::Model;

/// Views of points that are held whole, and an open view behind them: the flow that came so far. The points stand in packed
/// rows, so each takes the bytes of its dimensions alone.
#[derive(Drop)]
pub struct Views {
    alloc: Global,
    layout: Layout,
    pub(crate) complete: Vec<Rows>,
    pub(crate) last: Rows,
    pub(crate) cut: bool,

    // By which the keys of points are hashed.
    pub(crate) seed: u64,
}

impl Model for Views {
    ghost use Rattle.cloud_points.specs.declared.point.Point.{Point};
    ghost use Rattle.cloud_points.specs.Flows.{Flow};

    ghost Value = { Flow Point };

    ghost view = { λ v. record { views = v.complete.items; open_view = v.last; cut = v.cut } };
}

impl Views {
    /// No views, an open one without points, and not cut. The layout should have the dimensions of the points that come: the
    /// rows of a view to which a point with others comes are laid anew under a wider one.
    pub fn none(alloc: Global, layout: &Layout) -> Views
        ensures { result ≡ empty_flow }
    {
        Views {
            alloc,
            layout: *layout,
            complete: Vec::new(alloc),
            last: Rows::none(alloc, layout),
            cut: false,
            seed: 0,
        }
    }

    /// These views, the keys of whose points are hashed by a seed. Any seed gives the same answers. Where it can't be guessed, no
    /// file can be made whose points collide.
    pub fn seeded(self, seed: u64) -> Views
        ensures { result ≡ self }
    {
        let mut views = self;
        views.seed = seed;
        views
    }

    /// No views, for points of the same layout, whose keys are hashed by the same seed.
    pub fn like(&self) -> Views
        ensures { result ≡ empty_flow }
    {
        Views::none(self.alloc, &self.layout).seeded(self.seed)
    }

    /// Puts a point at the end of the open view. It is refused for want of memory alone.
    pub fn push(&mut self, p: &Point) -> Result<(), AllocError>
        ensures ok { OnOk result (self.new ≡ record self.old { open_view = self.old.open_view ++ p.now ∷ [] }) }
        ensures refused { OnErr result (self.new ≡ self.old) }
    {
        self.last.push(p)
    }

    /// Puts points at the end of the open view, all of them or none: as if each was pushed in its turn. It is refused for want
    /// of memory alone.
    pub fn push_all(&mut self, points: &[Point]) -> Result<(), AllocError>
        ensures ok { OnOk result (self.new ≡ record self.old { open_view = self.old.open_view ++ points.now }) }
        ensures refused { OnErr result (self.new ≡ self.old) }
    {
        self.last.push_all(points)
    }

    /// Puts the points of another view at the end of the open view, all of them or none. It is refused for want of memory
    /// alone.
    pub fn push_view(&mut self, view: &Rows) -> Result<(), AllocError>
        ensures ok { OnOk result (self.new ≡ record self.old { open_view = self.old.open_view ++ view.now }) }
        ensures refused { OnErr result (self.new ≡ self.old) }
    {
        self.last.push_view(view)
    }

    /// Puts the first `count` points of another view at the end of the open view, all of them or none. It is refused for
    /// want of memory alone.
    pub fn push_first(&mut self, view: &Rows, count: usize) -> Result<(), AllocError>
        requires { count ≤ length view.now }
        ensures ok { OnOk result (self.new
            ≡ record self.old { open_view = self.old.open_view ++ take count view.now }) }
        ensures refused { OnErr result (self.new ≡ self.old) }
    {
        self.last.push_first(view, count)
    }

    /// Ends the open view, which is then complete; the next one is open and empty. It is refused for want of memory alone.
    pub fn end_view(&mut self) -> Result<(), AllocError>
        ensures ok { OnOk result (self.new ≡ record self.old {
          views = self.old.views ++ self.old.open_view ∷ [];
          open_view = [];
        }) }
        ensures refused { OnErr result (self.new ≡ self.old) }
    {
        self.complete.reserve(1)?;
        let next = Rows::none(self.alloc, &self.layout);
        let ended = std::mem::replace(&mut self.last, next);
        self.complete.push_reserved(ended);
        Ok(())
    }

    /// Puts the flow of `later` behind this one: its first view goes on with the points of the open view here, and it is cut
    /// off where one of the two is. It is refused for want of memory alone, and `later` is then dropped.
    pub fn append(&mut self, later: Views) -> Result<(), AllocError>
        ensures ok { OnOk result (self.new ≡ join self.old later) }
        ensures refused { OnErr result (self.new ≡ self.old) }
    {
        self.append_views(later.complete, later.last)?;
        self.cut = self.cut || later.cut;
        Ok(())
    }

    // Puts complete views and an open one behind these; the first of them goes on with the points of the open view here.
    fn append_views(&mut self, views: Vec<Rows>, last: Rows) -> Result<(), AllocError>
        ensures ok { OnOk result (self.new ≡ record self.old {
          views = self.old.views ++ first_with self.old.open_view views.items;
          open_view = open_with self.old.open_view views.items last;
        }) }
        ensures refused { OnErr result (self.new ≡ self.old) }
    {
        let mut views = views;
        if views.is_empty() {
            return self.last.append(last);
        }
        self.complete.reserve(views.len())?;
        let first = views.remove(0);
        self.last.append(first)?;
        let ended = std::mem::replace(&mut self.last, last);
        self.complete.push_reserved(ended);
        // Its room was made above.
        self.complete.append(&mut views)
    }

    /// Drops the points of the open view.
    pub fn drop_open(&mut self)
        ensures { self.new ≡ record self.old { open_view = [] } }
    {
        self.last = Rows::none(self.alloc, &self.layout);
    }

    /// Marks the views as cut off.
    pub fn set_cut(&mut self)
        ensures { self.new ≡ record self.old { cut = true } }
    {
        self.cut = true;
    }

    /// How many complete views there are. The open view has this place.
    pub fn views(&self) -> usize
        ensures { result ≡ length self.now.views }
    {
        self.complete.len()
    }

    /// Lends the view at a place.
    pub fn view(&self, v: usize) -> &Rows
        requires { v ≤ length self.now.views }
        ensures { result.now ≡ view_at self.now v }
    {
        if v < self.complete.len() {
            &self.complete[v]
        } else {
            &self.last
        }
    }

    /// Lets go of the first `count` points of the view at place v, and of their memory.
    pub fn let_go(&mut self, v: usize, count: usize)
        requires view { v ≤ length self.old.views }
        requires inside { count ≤ length (view_at self.old v) }
        ensures { self.new ≡ without_first v count self.old }
    {
        if v < self.complete.len() {
            self.complete[v].let_go(count);
        } else {
            self.last.let_go(count);
        }
    }

    /// How many points the view at a place has.
    pub fn len(&self, v: usize) -> usize
        requires { v ≤ length self.now.views }
        ensures { result ≡ length (view_at self.now v) }
    {
        self.view(v).len()
    }

    /// The point at place k of the view at place v, both from 0.
    pub fn point(&self, v: usize, k: usize) -> Point
        requires view { v ≤ length self.now.views }
        requires place { k < length (view_at self.now v) }
        ensures { slice_get (view_at self.now v) k ≡ Some result }
    {
        self.view(v).get(k)
    }

    /// Whether the views are cut off.
    pub fn is_cut(&self) -> bool
        ensures { result ≡ self.now.cut }
    {
        self.cut
    }
}
