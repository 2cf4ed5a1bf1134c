//! Points, their dimensions, and what carries them between stages.

use cloud_points::{Body, Chunk, Dim, Item, Layout, Point, Spread, flow_laws, put_points};

const UNIT: i128 = 1_000_000_000;

/// The least and the greatest value of each dimension that has a number, times 10^9.
const RANGES: [(Dim, i128, i128); 23] = [
    (Dim::X, -4_000_000_000 * UNIT, 4_000_000_000 * UNIT),
    (Dim::Y, -4_000_000_000 * UNIT, 4_000_000_000 * UNIT),
    (Dim::Z, -4_000_000_000 * UNIT, 4_000_000_000 * UNIT),
    (Dim::Intensity, 0, 65_535 * UNIT),
    (Dim::ReturnNumber, 0, 15 * UNIT),
    (Dim::NumberOfReturns, 0, 15 * UNIT),
    (Dim::ScanDirectionFlag, 0, UNIT),
    (Dim::EdgeOfFlightLine, 0, UNIT),
    (Dim::Classification, 0, 255 * UNIT),
    (Dim::Synthetic, 0, UNIT),
    (Dim::KeyPoint, 0, UNIT),
    (Dim::Withheld, 0, UNIT),
    (Dim::Overlap, 0, UNIT),
    (Dim::ScanChannel, 0, 3 * UNIT),
    (Dim::ScanAngleRank, -196_608_000_000, 196_602_000_000),
    (Dim::UserData, 0, 255 * UNIT),
    (Dim::PointSourceId, 0, 65_535 * UNIT),
    (Dim::Red, 0, 65_535 * UNIT),
    (Dim::Green, 0, 65_535 * UNIT),
    (Dim::Blue, 0, 65_535 * UNIT),
    (Dim::Infrared, 0, 65_535 * UNIT),
    (Dim::Extra(0), -4_000_000_000 * UNIT, 4_000_000_000 * UNIT),
    (Dim::Extra(7), -4_000_000_000 * UNIT, 4_000_000_000 * UNIT),
];

/// Extra dimensions, a value of each, and its name.
const EXTRAS: [(u8, i128, &str); 8] = [
    (0, 196_602_000_001, "Extra0"),
    (1, -2_986_326_983_384_558_377, "Extra1"),
    (2, -196_608_000_000, "Extra2"),
    (3, 0, "Extra3"),
    (4, 65_535_500_000_000, "Extra4"),
    (5, 65_535_499_999_999, "Extra5"),
    (6, -499_999_999, "Extra6"),
    (7, -2_639_780_678_549_896_284, "Extra7"),
];

/// Values that a classification is set to one after the other, whether each is taken, and the number that stands then.
const CLASSES: [(i128, bool, u8); 6] = [
    (1_499_999_999, true, 1),
    (1_500_000_000, true, 2),
    (-499_999_999, true, 0),
    (255_499_999_999, true, 255),
    (-500_000_000, false, 255),
    (255_500_000_000, false, 255),
];

/// Dimensions, whether they are colours, and whether they are among these and two more.
const MEMBERS: [(Dim, bool, bool); 8] = [
    (Dim::X, false, true),
    (Dim::Y, false, false),
    (Dim::Red, true, true),
    (Dim::Green, true, true),
    (Dim::Blue, true, true),
    (Dim::Infrared, false, false),
    (Dim::Extra(3), false, true),
    (Dim::Extra(4), false, false),
];

/// What a dimension of a point that is zero is once it was set to a value, and its key, where it takes the value.
fn held(dim: Dim, value: i128) -> Option<(i128, i128)> {
    let mut point = Point::zero();
    match point.set(dim, value) {
        Ok(()) => Some((point.get(dim), point.key(dim))),
        Err(_) => None,
    }
}

/// Whether a dimension of a point that is zero refuses a value, and leaves the point so.
fn refuses(dim: Dim, value: i128) -> bool {
    let mut point = Point::zero();
    point.set(dim, value).is_err() & (point == Point::zero())
}

pub(crate) fn each_range_holds_its_ends_and_no_more() -> bool {
    let mut right = true;
    for &(dim, least, greatest) in &RANGES {
        right &= held(dim, least) == Some((least, least));
        right &= held(dim, greatest) == Some((greatest, greatest));
        right &= refuses(dim, i128::MIN) & refuses(dim, i128::MAX);
    }
    right
}

pub(crate) fn whole_numbers_are_rounded_half_away() -> bool {
    let mut point = Point::zero();
    let mut right = true;
    for &(nano, taken, number) in &CLASSES {
        right &= point.set(Dim::Classification, nano).is_ok() == taken;
        right &= point.classification == number;
    }
    right
}

/// A point that has its value in each extra dimension, as far as it takes it.
fn extra_point() -> Point {
    let mut point = Point::zero();
    for &(place, nano, _) in &EXTRAS {
        let _ = point.set(Dim::Extra(place), nano);
    }
    point
}

pub(crate) fn extra_dimensions_stand_apart() -> bool {
    let point = extra_point();
    let mut right = true;
    for &(place, nano, name) in &EXTRAS {
        let dim = Dim::Extra(place);
        right &= point.get(dim) == nano;
        right &= dim.name() == name;
        right &= point.extra[place as usize] as i128 == nano;
    }
    right
}

pub(crate) fn a_number_beyond_the_eight_stands_for_the_last() -> bool {
    let mut point = extra_point();
    let mut right = true;
    for place in &[8, 255] {
        let dim = Dim::Extra(*place);
        right &= (point.get(dim), dim.name()) == (EXTRAS[7].1, "Extra7");
    }
    right &= point.set(Dim::Extra(200), 5) == Ok(());
    right & (point.extra[7] == 5)
}

/// The key of no time; and of another one its word, its key, its number, and whether a number is refused.
fn times() -> (i128, u64, i128, i128, bool) {
    let mut point = Point::zero();
    let none = point.key(Dim::GpsTime);
    point.set_gps(0xBFF0_0000_0000_0000);
    let refused = point.set(Dim::GpsTime, 0).is_err();
    let number = point.get(Dim::GpsTime);
    (none, point.gps(), point.key(Dim::GpsTime), number, refused)
}

pub(crate) fn times_are_words() -> bool {
    times()
        == (
            1 << 63,
            0xBFF0_0000_0000_0000,
            0x400F_FFFF_FFFF_FFFF,
            0,
            true,
        )
}

fn spread_of(count: i64) -> Spread {
    let mut spread = Spread::new();
    for k in 0..count {
        let mut point = Point::zero();
        point.x = k;
        point.z = 7;
        let _ = spread.try_push(point);
    }
    spread
}

/// Whether a chunk of so many points holds them, where there is one.
fn chunk_holds(count: i64) -> Option<bool> {
    let spread = spread_of(count);
    let chunk = Chunk::of(&spread)?;
    Some(chunk.points() == spread.as_slice())
}

pub(crate) fn chunks_hold_the_points_of_their_spread() -> bool {
    let mut right = chunk_holds(0) == None;
    for count in &[1, 2, 63, 64] {
        right &= chunk_holds(*count) == Some(true);
    }
    right
}

/// Whether so many points come to stand in place of others.
fn are_put(before: i64, count: i64) -> bool {
    let mut into = spread_of(before);
    let points = spread_of(count);
    put_points(&mut into, points.as_slice());
    into.as_slice() == points.as_slice()
}

pub(crate) fn points_are_put_in_place_of_fewer_and_of_more() -> bool {
    let mut right = true;
    for &(before, count) in &[(0, 3), (3, 0), (64, 1), (1, 64), (5, 5)] {
        right &= are_put(before, count);
    }
    right
}

fn ends(body: Body) -> bool {
    Item { no: 3, body }.is_end()
}

pub(crate) fn only_an_end_ends() -> bool {
    !ends(Body::EndView) & ends(Body::End(false)) & ends(Body::End(true))
}

/// A set of these dimensions.
pub(crate) fn layout_of(dims: &[Dim]) -> Layout {
    let mut layout = Layout::none();
    for dim in dims {
        layout.add(*dim);
    }
    layout
}

pub(crate) fn a_set_has_the_dimensions_that_were_put_in() -> bool {
    flow_laws();
    let colours = layout_of(&[Dim::Red, Dim::Green, Dim::Blue]);
    let mut all = layout_of(&[Dim::X, Dim::Extra(3)]);
    all.join(&colours);
    let none = Layout::none();
    let mut right = true;
    for &(dim, is_colour, is_joined) in &MEMBERS {
        right &= !none.has(dim);
        right &= colours.has(dim) == is_colour;
        right &= all.has(dim) == is_joined;
    }
    right
}
