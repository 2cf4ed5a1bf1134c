//! Filters that run by themselves.

use crate::filter_texts::{assignments, expression, numbered, only, told};
use crate::stages::drop_filter;
use cloud_points::{Dim, PointFault, StageFault};
use std::alloc::Global;
use stream_filters::{Decimation, Filter, Head, PointFilter};

/// What a filter of a row does.
#[derive(Clone, Copy)]
enum Does {
    Head(u32),
    Decimation(u32, u32, Option<u32>),
    Expression(&'static str),
    Assign(&'static str, &'static str),
    Merge,
}

/// The points that go on, and the fault.
type Went = ([u16; 8], Option<PointFault>);

/// A filter, its `where`, the reds of a chunk, and what goes on of it.
struct Row {
    does: Does,
    only: Option<&'static str>,
    reds: [u16; 6],
    went: [u16; 8],
    fault: Option<PointFault>,
}

const REDS: [u16; 6] = [0, 1, 0, 1, 1, 0];

/// The first two of the points that pass, and those that don't; every so many of them; of points that pass those for which a
/// condition holds; each assignment in its turn, where its own `where` holds.
const ROWS: [Row; 15] = [
    Row {
        does: Does::Head(2),
        only: None,
        reds: REDS,
        went: [100, 200, 0, 0, 0, 0, 0, 0],
        fault: None,
    },
    Row {
        does: Does::Head(2),
        only: Some("Red == 1"),
        reds: REDS,
        went: [100, 200, 300, 400, 600, 0, 0, 0],
        fault: None,
    },
    Row {
        does: Does::Head(0),
        only: None,
        reds: REDS,
        went: [0; 8],
        fault: None,
    },
    Row {
        does: Does::Decimation(2, 1, Some(5)),
        only: None,
        reds: REDS,
        went: [200, 400, 0, 0, 0, 0, 0, 0],
        fault: None,
    },
    Row {
        does: Does::Decimation(2, 0, None),
        only: Some("Red == 1"),
        reds: REDS,
        went: [100, 200, 300, 500, 600, 0, 0, 0],
        fault: None,
    },
    Row {
        does: Does::Decimation(0, 2, None),
        only: None,
        reds: REDS,
        went: [300, 0, 0, 0, 0, 0, 0, 0],
        fault: None,
    },
    Row {
        does: Does::Expression("Red == 1 && Blue > 2"),
        only: None,
        reds: REDS,
        went: [400, 500, 0, 0, 0, 0, 0, 0],
        fault: None,
    },
    Row {
        does: Does::Expression("Red == 1"),
        only: Some("Blue <= 2"),
        reds: REDS,
        went: [200, 300, 400, 500, 600, 0, 0, 0],
        fault: None,
    },
    Row {
        does: Does::Assign(
            "Classification = Blue * 2 WHERE Red == 1",
            "Classification = Classification + 1",
        ),
        only: Some("Blue != 6"),
        reds: REDS,
        went: [101, 205, 301, 409, 511, 600, 0, 0],
        fault: None,
    },
    Row {
        does: Does::Merge,
        only: None,
        reds: REDS,
        went: [100, 200, 300, 400, 500, 600, 0, 0],
        fault: None,
    },
    Row {
        does: Does::Head(1),
        only: Some("Blue / (Red - 9) < 0"),
        reds: [0, 1, 0, 9, 1, 0],
        went: [100, 0, 0, 0, 0, 0, 0, 0],
        fault: Some(PointFault::DivideByZero(3)),
    },
    Row {
        does: Does::Expression("1000000000 * 1000000000 * Blue > 0"),
        only: None,
        reds: REDS,
        went: [100, 0, 0, 0, 0, 0, 0, 0],
        fault: Some(PointFault::ArithOverflow(1)),
    },
    Row {
        does: Does::Assign(
            "Classification = 1 / Blue",
            "Classification = 300 WHERE Blue == 4",
        ),
        only: None,
        reds: REDS,
        went: [101, 201, 300, 0, 0, 0, 0, 0],
        fault: Some(PointFault::ValueOutOfRange(3, Dim::Classification)),
    },
    Row {
        does: Does::Assign(
            "Classification = 300 WHERE 1 / Red > 0",
            "Classification = 0",
        ),
        only: None,
        reds: REDS,
        went: [0; 8],
        fault: Some(PointFault::DivideByZero(0)),
    },
    Row {
        does: Does::Assign("Classification = 300", "Classification = 1 / Red"),
        only: Some("Blue > 2"),
        reds: REDS,
        went: [100, 200, 0, 0, 0, 0, 0, 0],
        fault: Some(PointFault::ValueOutOfRange(2, Dim::Classification)),
    },
];

/// What a filter takes, and what it makes of it: what goes on of points with these reds; whether the end of a view goes on;
/// and whether one goes before an end, which may be cut.
#[derive(Clone, Copy)]
enum Takes<'a> {
    Chunk(&'a [u16], Went),
    ViewEnd(bool),
    End(bool, bool),
}

/// The filter of a row.
fn filter(alloc: Global, does: Does, text: Option<&str>) -> Option<Filter> {
    let only = only(alloc, text)?;
    match does {
        Does::Head(count) => Some(Filter::Head(PointFilter::new(Head { count }, only))),
        Does::Decimation(step, offset, limit) => {
            let rule = Decimation {
                step,
                offset,
                limit,
            };
            Some(Filter::Decimation(PointFilter::new(rule, only)))
        }
        Does::Expression(text) => {
            let rule = expression(alloc, text)?;
            Some(Filter::Expression(PointFilter::new(rule, only)))
        }
        Does::Assign(first, second) => {
            let rule = assignments(alloc, [first, second])?;
            Some(Filter::Assign(PointFilter::new(rule, only)))
        }
        Does::Merge => Some(Filter::Merge),
    }
}

fn point_fault(fault: Option<StageFault>) -> Option<PointFault> {
    match fault {
        Some(StageFault::Point(fault)) => Some(fault),
        _ => None,
    }
}

/// What goes on of points with these reds.
fn hand(filter: &mut Filter, reds: &[u16]) -> Went {
    let mut spread = numbered(reds);
    let fault = point_fault(filter.on_chunk(&mut spread));
    (told(&spread), fault)
}

/// Whether a filter makes of all this what is expected.
fn follows(filter: &mut Filter, steps: &[Takes]) -> bool {
    let mut right = true;
    for takes in steps {
        right &= match *takes {
            Takes::Chunk(reds, went) => hand(filter, reds) == went,
            Takes::ViewEnd(goes_on) => filter.on_end_view() == goes_on,
            Takes::End(cut, goes_before) => filter.on_end(cut) == goes_before,
        };
    }
    right
}

/// Whether there is a filter, and it makes of all this what is expected.
fn is_right(filter: Option<Filter>, steps: &[Takes]) -> bool {
    match filter {
        Some(mut filter) => {
            let right = follows(&mut filter, steps);
            drop_filter(filter);
            right
        }
        None => false,
    }
}

pub(crate) fn filters_judge_the_points_that_pass(alloc: Global) -> bool {
    let mut right = true;
    for row in &ROWS {
        let steps = [Takes::Chunk(&row.reds, (row.went, row.fault))];
        right &= is_right(filter(alloc, row.does, row.only), &steps);
    }
    right
}

/// Two chunks in a view and one in the next, by a head of two that has a `where`.
pub(crate) fn numbers_count_over_views_and_positions_in_each(alloc: Global) -> bool {
    let went = [
        ([100, 200, 0, 0, 0, 0, 0, 0], None),
        ([100, 0, 0, 0, 0, 0, 0, 0], None),
        (
            [100, 200, 0, 0, 0, 0, 0, 0],
            Some(PointFault::DivideByZero(6)),
        ),
    ];
    let steps = [
        Takes::Chunk(&[1, 0], went[0]),
        Takes::Chunk(&[1, 1], went[1]),
        Takes::ViewEnd(true),
        Takes::Chunk(&[1, 1, 9, 1], went[2]),
        Takes::End(false, false),
    ];
    let head = filter(alloc, Does::Head(2), Some("1 / (Red - 9) < 0 && Red == 1"));
    is_right(head, &steps)
}

/// The end of a view doesn't go on through a merge, nor one before an end that is cut.
pub(crate) fn a_merge_ends_its_view_with_an_end_that_is_not_cut() -> bool {
    is_right(
        Some(Filter::Merge),
        &[
            Takes::ViewEnd(false),
            Takes::End(true, false),
            Takes::End(false, true),
        ],
    )
}
