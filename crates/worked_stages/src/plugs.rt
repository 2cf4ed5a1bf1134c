//! Filters and tallies of the caller.

use crate::filter_texts::{numbered, only, told};
use crate::points::layout_of;
use arrayvec::ArrayString;
use cloud_points::{Dim, PointFault, Spread, StageFault};
use plug_stages::{Bounds, BoxedFilter, Classes, PlugTally, PlugWork, Spike, TallyWork};
use std::alloc::Global;

/// What a stage takes: a chunk of points with these reds, and the numbers of those that go on; one at which it stops; or the end of a view.
#[derive(Clone, Copy)]
enum Takes {
    Chunk(&'static [u16], [u16; 8]),
    Stops(&'static [u16], [u16; 8], PointFault),
    ViewEnd,
}

/// A `where`, and what the stage of a spike filter makes of points that are as high as their reds.
const SPIKED: [(Option<&str>, &[Takes]); 6] = [
    (
        None,
        &[Takes::Chunk(&[10, 12, 200, 13, 70], [101, 201, 401, 0, 0, 0, 0, 0])],
    ),
    (
        None,
        &[
            Takes::Chunk(&[10], [101, 0, 0, 0, 0, 0, 0, 0]),
            Takes::Chunk(&[12], [101, 0, 0, 0, 0, 0, 0, 0]),
            Takes::Chunk(&[200], [0; 8]),
            Takes::Chunk(&[13], [101, 0, 0, 0, 0, 0, 0, 0]),
            Takes::Chunk(&[70], [0; 8]),
        ],
    ),
    // each view begins anew
    (
        None,
        &[
            Takes::Chunk(&[10], [101, 0, 0, 0, 0, 0, 0, 0]),
            Takes::ViewEnd,
            Takes::Chunk(&[500], [106, 0, 0, 0, 0, 0, 0, 0]),
        ],
    ),
    // 50 units are near
    (
        None,
        &[Takes::Chunk(&[10, 60, 111, 110], [101, 201, 402, 0, 0, 0, 0, 0])],
    ),
    // one that doesn't pass goes on, and counts for nothing
    (
        Some("Red < 100"),
        &[Takes::Chunk(&[10, 200, 12], [101, 203, 301, 0, 0, 0, 0, 0])],
    ),
    (
        Some("1 / (Red - 9) < 2"),
        &[
            Takes::Chunk(&[0, 1], [101, 201, 0, 0, 0, 0, 0, 0]),
            Takes::ViewEnd,
            Takes::Stops(
                &[70, 9, 70],
                [101, 0, 0, 0, 0, 0, 0, 0],
                PointFault::DivideByZero(3),
            ),
        ],
    ),
];

/// At most 8 points with these reds, as high, and with a class for each hundred.
fn standing(reds: &[u16]) -> Spread {
    let mut spread = numbered(reds);
    for p in spread.as_mut_slice() {
        p.z = p.red as i64 * 1_000_000_000;
        p.classification = (p.red / 100).min(254) as u8 + 1;
    }
    spread
}

/// The dimensions of the points.
const DIMS: [Dim; 4] = [Dim::Z, Dim::Red, Dim::Blue, Dim::Classification];

/// Whether the stage makes of a chunk what is expected.
fn turns(
    work: &mut PlugWork<BoxedFilter>,
    reds: &[u16],
    went: [u16; 8],
    fault: Option<StageFault>,
) -> bool {
    let mut spread = standing(reds);
    let is = work.turn(&mut spread);
    (is == fault) & (told(&spread) == went)
}

/// Whether the stage makes of all this what is expected.
fn follows(work: &mut PlugWork<BoxedFilter>, row: &[Takes]) -> bool {
    let mut so = true;
    for takes in row {
        so &= match *takes {
            Takes::Chunk(reds, went) => turns(work, reds, went, None),
            Takes::Stops(reds, went, fault) => turns(
                work,
                reds,
                went,
                Some(StageFault::Point(fault)),
            ),
            Takes::ViewEnd => {
                work.end_view();
                true
            }
        };
    }
    so
}

/// Whether a boxed spike filter, in a stage with this `where`, makes of all this what is expected.
fn is_spiked(alloc: Global, text: Option<&str>, row: &[Takes]) -> Option<bool> {
    let only = only(alloc, text)?;
    let plug: BoxedFilter = Box::new(alloc, Spike::new()).ok()?;
    let mut work = PlugWork::new(plug, 0, only, layout_of(&DIMS));
    Some(follows(&mut work, row))
}

pub(crate) fn a_spike_filter_keeps_what_is_near_the_last_kept_point(alloc: Global) -> bool {
    let mut right = true;
    for (text, row) in &SPIKED {
        right &= is_spiked(alloc, *text, row) == Some(true);
    }
    right
}

/// Whether a filter that was handed back works in another stage, behind which points have their blue alone.
fn is_used_again(alloc: Global) -> Option<bool> {
    let plug: BoxedFilter = Box::new(alloc, Spike::new()).ok()?;
    let mut first = PlugWork::new(plug, 0, None, layout_of(&DIMS));
    let so = follows(&mut first, SPIKED[0].1);
    let (plug, place) = first.into_parts();
    let mut second = PlugWork::new(plug, place, None, layout_of(&[Dim::Blue]));
    let again = [Takes::Chunk(&[500, 9, 451], [100, 300, 0, 0, 0, 0, 0, 0])];
    Some(so & follows(&mut second, &again))
}

pub(crate) fn a_filter_works_again_when_it_was_handed_back(alloc: Global) -> bool {
    is_used_again(alloc) == Some(true)
}

/// Whether a tally says this of points with these reds.
fn says<T: PlugTally>(work: &mut TallyWork<T>, chunks: &[&[u16]], expected: &str) -> bool {
    for reds in chunks {
        work.turn(&mut standing(reds));
    }
    let mut line = ArrayString::new();
    work.close(&mut line);
    line.as_str() == expected
}

fn bounds_say(alloc: Global, text: Option<&str>, chunks: &[&[u16]], said: &str) -> Option<bool> {
    let mut work = TallyWork::new(Bounds::new(), 0, only(alloc, text)?);
    Some(says(&mut work, chunks, said))
}

fn classes_say(alloc: Global, text: Option<&str>, chunks: &[&[u16]], said: &str) -> Option<bool> {
    let mut work = TallyWork::new(Classes::new(), 0, only(alloc, text)?);
    Some(says(&mut work, chunks, said))
}

pub(crate) fn bounds_are_those_of_all_points_that_pass(alloc: Global) -> bool {
    let all = "0.000 0.000 3.000 0.000 0.000 70.000";
    let right = bounds_say(alloc, None, &[&[70, 3], &[12]], all) == Some(true);
    right & (bounds_say(alloc, Some("Red > 70"), &[&[70, 3]], "empty") == Some(true))
}

const TEN_CLASSES: [&[u16]; 2] = [&[900, 100, 200, 300, 400, 500, 600, 700], &[800, 0, 99]];

/// A `where`, chunks, and their classes.
const CLASSES: [(Option<&str>, &[&[u16]], &str); 4] = [
    (None, &[], "empty"),
    (None, &[&[100, 1], &[2, 200]], "1:2 2:1 3:1"),
    (Some("Red < 100"), &[&[100, 1]], "1:1"),
    (
        None,
        &TEN_CLASSES,
        "1:2 2:1 3:1 4:1 5:1 6:1 7:1 8:1 and 2 more",
    ),
];

pub(crate) fn classes_are_told_in_order(alloc: Global) -> bool {
    let mut right = true;
    for (text, chunks, expected) in &CLASSES {
        right &= classes_say(alloc, *text, chunks, expected) == Some(true);
    }
    right
}
