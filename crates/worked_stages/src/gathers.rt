//! What becomes of views that are sorted, cut to their tails and grouped.

ghost use Rattle.std.specs.Prelude.{◌≡◌, [], OnOk};

use crate::points::layout_of;
use crate::views::are_told;
use cloud_points::{Dim, Layout, Point};
use std::alloc::{AllocError, Global};
use tile_filters::gather;
use whole_filters::{EdgeLength, Gathering, Squares, Views};

/// The X and Z of the points of some views, in nanounits.
type Held = &'static [&'static [(i64, i64)]];

/// The X of the points of some views.
type Told = &'static [&'static [i64]];

const BOTH: [(i64, i64); 4] = [(1, 5), (2, -1), (3, 5), (4, 3)];

const PAIR: [(i64, i64); 2] = [(5, 3), (6, -1)];

/// Views, what is done with them, and the views that come of it.
const ROWS: [(Held, Gathering, Told); 12] = [
    (&[&BOTH], Gathering::Sort(Dim::Z, false), &[&[2, 4, 1, 3]]),
    // points of one Z stay in their order downwards too
    (&[&BOTH], Gathering::Sort(Dim::Z, true), &[&[1, 3, 4, 2]]),
    (
        &[&BOTH, &[], &PAIR],
        Gathering::Sort(Dim::Z, false),
        &[&[2, 4, 1, 3], &[], &[6, 5]],
    ),
    (&[&BOTH], Gathering::Sort(Dim::Y, true), &[&[1, 2, 3, 4]]),
    (&[&BOTH, &PAIR], Gathering::Tail(0), &[&[], &[]]),
    (&[&BOTH, &PAIR], Gathering::Tail(1), &[&[4], &[6]]),
    (&[&BOTH, &PAIR], Gathering::Tail(3), &[&[2, 3, 4], &[5, 6]]),
    (&[&PAIR, &[]], Gathering::Tail(u32::MAX), &[&[5, 6], &[]]),
    (&[&BOTH], Gathering::GroupBy(Dim::Z), &[&[1, 3], &[2], &[4]]),
    (
        &[&BOTH, &[], &PAIR],
        Gathering::GroupBy(Dim::Z),
        &[&[1, 3], &[2], &[4], &[5], &[6]],
    ),
    (&[&BOTH], Gathering::GroupBy(Dim::Y), &[&[1, 2, 3, 4]]),
    (&[&[]], Gathering::GroupBy(Dim::Z), &[]),
];

/// Binary64 words of times, each with its place in their order.
const TIMES: [(i64, u64); 8] = [
    // 1 and -1
    (5, 0x3FF0_0000_0000_0000),
    (2, 0xBFF0_0000_0000_0000),
    // one that is no number, and -0
    (7, 0x7FF8_0000_0000_0000),
    (3, 0x8000_0000_0000_0000),
    // one that is no number and has a sign, and 0
    (0, 0xFFF8_0000_0000_0000),
    (4, 0),
    // -2 and infinity
    (1, 0xC000_0000_0000_0000),
    (6, 0x7FF0_0000_0000_0000),
];

/// What stands for a point in a table.
pub(crate) trait Placed {
    fn point(&self) -> Point;
}

impl Placed for (i64, i64) {
    fn point(&self) -> Point {
        let mut point = Point::zero();
        (point.x, point.z) = *self;
        point
    }
}

/// Puts a view of these points behind the others.
fn hold<P: Placed>(held: &mut Views, view: &[P]) -> Result<(), AllocError>
    ensures { OnOk result (held.new.open_view ≡ []) }
{
    for p in view {
        held.push(&p.point())?;
    }
    held.end_view()
}

fn gathered<P: Placed>(
    alloc: Global,
    layout: &Layout,
    views: &[&[P]],
    how: Gathering,
) -> Result<Views, AllocError> {
    let mut held = Views::none(alloc, layout);
    for view in views {
        hold(&mut held, view)?;
    }
    gather(alloc, held, how)
}

/// Whether what comes of these views has these X.
pub(crate) fn is_gathered<P: Placed>(
    alloc: Global,
    layout: &Layout,
    views: &[&[P]],
    how: Gathering,
    told: &[&[i64]],
) -> bool {
    match gathered(alloc, layout, views, how) {
        Ok(held) => are_told(&held, told),
        Err(_) => false,
    }
}

pub(crate) fn views_are_gathered(alloc: Global) -> bool {
    let mut right = true;
    // Of the second layout the rows are laid anew under a wider one.
    for layout in &[layout_of(&[Dim::X, Dim::Z]), layout_of(&[Dim::X])] {
        for &(views, how, told) in &ROWS {
            right &= is_gathered(alloc, layout, views, how, told);
        }
    }
    right
}

/// Whether points come in this order when they are sorted by their times.
fn is_ordered(alloc: Global, down: bool, told: &[i64]) -> Result<bool, AllocError> {
    let mut held = Views::none(alloc, &layout_of(&[Dim::X, Dim::GpsTime]));
    for &(x, word) in &TIMES {
        let mut point = Point::zero();
        (point.x, point.gps_time) = (x, word);
        held.push(&point)?;
    }
    held.end_view()?;
    let held = gather(alloc, held, Gathering::Sort(Dim::GpsTime, down))?;
    Ok(are_told(&held, &[told]))
}

pub(crate) fn times_stand_in_the_order_of_their_words(alloc: Global) -> bool {
    let right = is_ordered(alloc, false, &[0, 1, 2, 3, 4, 5, 6, 7]) == Ok(true);
    right & (is_ordered(alloc, true, &[7, 6, 5, 4, 3, 2, 1, 0]) == Ok(true))
}

/// Whether nothing goes on of views that are cut.
fn goes_nowhere(alloc: Global, how: Gathering) -> Result<bool, AllocError> {
    let mut held = Views::none(alloc, &layout_of(&[Dim::X, Dim::Z]));
    hold(&mut held, &BOTH)?;
    held.push(&Point::zero())?;
    held.set_cut();
    let held = gather(alloc, held, how)?;
    Ok((held.views(), held.len(0), held.is_cut()) == (0, 0, true))
}

pub(crate) fn of_cut_views_nothing_goes_on(alloc: Global) -> bool {
    let mut right = true;
    for &how in &[
        Gathering::Sort(Dim::Z, false),
        Gathering::Tail(1),
        Gathering::GroupBy(Dim::Z),
        Gathering::Squares(Squares {
            length: EdgeLength::new(1),
            x: 0,
            y: 0,
        }),
        Gathering::Voxels(EdgeLength::new(1)),
    ] {
        right &= goes_nowhere(alloc, how) == Ok(true);
    }
    right
}
