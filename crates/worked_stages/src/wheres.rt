//! A writer's `where`.

use crate::filter_texts::{numbered, only, told};
use cloud_points::Spread;
use stage_meanings::Reason;
use std::alloc::Global;
use stream_filters::WriterWhere;

/// What a writer writes of a chunk, the places there of the first, the second and the third point for which its `where` holds, the
/// first at which that has no value, and the number of the next point.
type Wrote = ([u16; 8], [Option<usize>; 3], Option<(usize, Reason)>, u64);

fn write(written: &mut WriterWhere, reds: &[u16]) -> Wrote {
    let points = numbered(reds);
    let mut lines = Spread::new();
    let unjudged = written.choose(&points, &mut lines);
    let places = [
        written.place_of(&points, 0),
        written.place_of(&points, 1),
        written.place_of(&points, 2),
    ];
    written.go_on(points.len());
    (told(&lines), places, unjudged, written.number())
}

/// Whether a writer with this `where` writes so much of two chunks.
fn writes(alloc: Global, text: Option<&str>, wrote: &[Wrote; 2]) -> Option<bool> {
    let mut written = WriterWhere::new(only(alloc, text)?);
    let first = write(&mut written, &[1, 0, 1, 0]) == wrote[0];
    Some(first & (write(&mut written, &[0, 1, 9, 1]) == wrote[1]))
}

const FOUR: [u16; 8] = [100, 200, 300, 400, 0, 0, 0, 0];

pub(crate) fn points_that_pass_are_written_up_to_one_without_a_value(alloc: Global) -> bool {
    let some = [
        (
            [100, 300, 0, 0, 0, 0, 0, 0],
            [Some(0), Some(2), None],
            None,
            4,
        ),
        (
            [200, 0, 0, 0, 0, 0, 0, 0],
            [Some(1), Some(3), None],
            Some((2, Reason::DivideByZero)),
            8,
        ),
    ];
    let text = "1 / (Red - 9) < 0 && Red == 1";
    let places = [Some(0), Some(1), Some(2)];
    let all = [(FOUR, places, None, 4), (FOUR, places, None, 8)];
    let right = writes(alloc, Some(text), &some) == Some(true);
    right & (writes(alloc, None, &all) == Some(true))
}
