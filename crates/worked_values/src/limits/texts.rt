//! Texts of limits, each with the place of its fault where it has one.

use limits_text::{TextErr, TextFault, parse_bounds, parse_point, parse_polygon, parse_ranges};
use std::alloc::Global;

/// Texts of ranges.
const RANGES: [(&str, Option<usize>); 40] = [
    ("x[:]", None),
    ("Z[0:]", None),
    ("X[:1]", None),
    ("E[5:1]", None),
    ("X[5:\n]", None),
    (" Z[0:1] ", None),
    ("Y[ .5 : 9. ]", None),
    ("X![-1:+2.265)", None),
    ("x[0: ],X[2:3]", None),
    ("Z[0:400000001]", None),
    ("Classification[2:2],Z(:10]", None),
    ("X", Some(1)),
    ("X[", Some(2)),
    ("Z:", Some(1)),
    ("Cla", Some(3)),
    ("Z[:", Some(3)),
    (")[]", Some(0)),
    ("[:3", Some(0)),
    ("Z(:", Some(3)),
    ("Y[ ", Some(3)),
    ("Z[X]", Some(2)),
    ("Z[01]", Some(4)),
    ("X[5:1", Some(5)),
    ("5:1]0", Some(0)),
    ("X[5:1]3", Some(6)),
    (" Z[&0:1] ", Some(3)),
    ("Y[ .: 7. ]", Some(4)),
    ("Y[ .5 : 7.9", Some(11)),
    ("x[0:1],", Some(7)),
    ("x[0:1,X[2:3]", Some(5)),
    ("Y[ .5 0 7. ]2", Some(6)),
    ("x[0:1],5[2:+3]", Some(7)),
    ("X![-1.5:1+2>5)", Some(9)),
    ("Z[0:4000000001", Some(4)),
    ("Z[:4000000081]", Some(3)),
    ("Z[1.0123456789:2]", Some(2)),
    ("Z[1.0123456:89:2]", Some(14)),
    ("Z[02400000é0001]", Some(10)),
    ("Z[0:40000000\t01]", Some(13)),
    ("Z[0:1],Z[0:1],Z[0:1],Z[0:1],", Some(28)),
];

/// Texts of boxes.
const BOXES: [(&str, Option<usize>); 40] = [
    ("([0,100],[0,1])", None),
    ("([0, 1], [0, 1])", None),
    ("([-1,1],[-2,2],[-3,3])", None),
    ("([0,1],[0.000000001,2])", None),
    ("( [ 0 , 0 ] , [ 1 , 1 ] )", None),
    ("(", Some(1)),
    ("( ", Some(2)),
    ("([0", Some(3)),
    ("([0,", Some(4)),
    ("([2, 1]", Some(1)),
    ("([0, 1]", Some(7)),
    ("([0,1],[3", Some(9)),
    ("([0,1],[3,2]", Some(7)),
    ("([2, 1], [ 1])", Some(1)),
    ("(],#], [0, 1])", Some(1)),
    ("([0, 1], [0, 1", Some(14)),
    ("(0,10],[0,100])", Some(1)),
    ("([0,100],[,100])", Some(10)),
    ("([0,100][0,100])", Some(8)),
    ("([0,e0],[0,100])", Some(4)),
    ("([23, 18 [0, [])", Some(9)),
    ("([2, 1], [0, 1])", Some(1)),
    ("([0,100],[0,100]", Some(16)),
    ("([0, 1x], [0, 1])", Some(6)),
    ("([2), |], [0, 1])", Some(3)),
    ("([0)],[3,2],[9,a])", Some(3)),
    ("([0,1é00],[0,100])", Some(5)),
    ("([0,1],[4000000", Some(15)),
    ("([0,1],[4000000001,", Some(8)),
    ("([-1,1],[-22],[-3,3])", Some(12)),
    ("([3,1],[4000000001,2]", Some(1)),
    ("([0,1],[0.0000000001,2])", Some(8)),
    ("([0,1],[0.00000 001,2])", Some(16)),
    ("([0,1],[0.0000000001[2])", Some(8)),
    ("( [ 0 , 0 ] , [ 1  1 ] )", Some(19)),
    ("([-1,1],[-2,2]0[-3,3])", Some(14)),
    ("([-1,1],[-2,2],[-3,x3])=>", Some(19)),
    ("(( [ 0 , 0 ] , [ 1 , 1 ] )", Some(1)),
    ("([[0,1],[0.0000000001,2])", Some(2)),
    ("all [ 0 , 0 ] , [ 1 40000000001 ] )", Some(0)),
];

/// Texts of polygons.
const POLYGONS: [(&str, Option<usize>); 40] = [
    ("polygon((0 0,1 0,1 1,0 0))", None),
    ("polygon((0 0,1 0,1 1,0 .0))", None),
    ("POLYGON ((0 0, 1 0, 1 1.012345689, 0 0))", None),
    ("POLYGON ( ( -5 -5 , 5 -5 , 0 5.5 ,-5.0 -5 ) )", None),
    ("POLYGON ((0 0, 10 0,10 10, 0 10, 0 0))", None),
    ("", Some(0)),
    ("p", Some(1)),
    ("POL", Some(3)),
    ("polygo", Some(6)),
    ("POLYGON", Some(7)),
    ("POLYGON (", Some(9)),
    ("POLYGON ((0 0", Some(13)),
    ("POLYGON ((0 0,", Some(14)),
    ("POLYGON ( ( -5 -5 , 5 -", Some(23)),
    ("pogon((0 0,1 0,1 10 0))", Some(2)),
    ("POLYGON ((0 0, 1 0, 0 ))", Some(22)),
    ("POLYGON ((00, 1 0, 0 0))", Some(12)),
    ("POLYGON ((0 0, 1 0, 0 0))", Some(20)),
    ("POLYGON ((0 0, 1 0, 0 0)6", Some(20)),
    ("polygon((0 0,1 0,1 1,0 0)", Some(25)),
    ("polygon((0 0,1 0,1 1,0 0)&", Some(25)),
    ("polygon(- 0,1 0,1 [,0 0))", Some(8)),
    ("POLYGON ((0 0a 1 0, 0 0))", Some(13)),
    ("POLYGON ((0 0, 1 0, 1 1, 0 1)", Some(25)),
    ("POLYGON ((50 0, 1 0, 1 1, 0 1))", Some(26)),
    ("POLYGON ((0 0, 1 0- 1 1, 0 1))", Some(18)),
    ("POLYGON ((0 0, 1 0, 1 1, 0:1))", Some(26)),
    ("POLYGON ((0 \n, 1 0, 1 1, 0 1))", Some(13)),
    ("POLYGON ((0 0, 10 0, 10 10, ", Some(28)),
    ("POLYGON ((0 0, 1 é0, 0))", Some(17)),
    ("POLYGON ((0 0, 1 01 1.0123456789, 0 0))", Some(20)),
    ("POLYGON ((0 0, 1 0, 1 1.0123456789, 0 0))_", Some(22)),
    ("POLYGON ((0 0, 1 0, 1 1.0.]23456789, 0 0))", Some(25)),
    ("POLYGON ( -5 -5 , 5 -5 , 0 5.5 , -5.0 -5 ) )", Some(10)),
    ("POLYGON ( ( -5X-5 , 5 -5 , 0 5.5 , -5.0 -5 ) )", Some(14)),
    ("POLYGON ( ( -5 -5 , 5 -5 , 0 5.5 , -5.0 -5 )e)", Some(44)),
    ("POLYGON ( ( -5 -5 , 5 -5 , 0 5.5 , -5.0 -5 ) )(", Some(46)),
    (
        "POLYGON ((0 0, 10 0, 10 400000000010, 0 10, 0 0))",
        Some(24),
    ),
    ("POLYG0O1 ((0 04000000000 1 0, 0 0))", Some(5)),
    (
        "PWHERELYGON ( ( -5 -5 , 5 -5 , 0 5.5 , -5.0 -5 ) )",
        Some(1),
    ),
];

/// Texts of points.
const POINTS: [(&str, Option<usize>); 40] = [
    ("POINT(1 2)", None),
    ("point(0 0)", None),
    ("POINT\n(1 2)", None),
    ("POINT ( -1.5\t+2.4)", None),
    ("POINT ( -1.5\t+2. )", None),
    ("POINT (1 1.012345689)", None),
    ("POINT (400000001 1)", None),
    ("", Some(0)),
    ("P", Some(1)),
    ("POIN", Some(4)),
    ("POINT", Some(5)),
    ("point(", Some(6)),
    ("POINT (1", Some(8)),
    ("POINT ( -", Some(9)),
    ("point(0 0", Some(9)),
    ("poi(0 0)", Some(3)),
    ("POINT2 (1 2)<", Some(5)),
    ("point( 0)", Some(8)),
    ("pointé 0)", Some(5)),
    ("point(0]0)", Some(7)),
    ("point(0 0|", Some(9)),
    ("point(0 09", Some(10)),
    ("point(0-02)", Some(7)),
    ("point(0 2)5", Some(10)),
    ("POIN+T (1 2)", Some(4)),
    ("4oint(0 )_", Some(0)),
    ("POINT (1 ]2)", Some(9)),
    ("POINT (1-)=/>", Some(8)),
    ("POINT ( -1.5+2./", Some(12)),
    ("POINT -1.5\t2. )", Some(6)),
    ("POINT (4000000001 1)", Some(7)),
    ("POINT (1.0123456789)", Some(7)),
    ("POINT (1 .0123456789)", Some(9)),
    ("POINT (1 1.0123456789Y)", Some(9)),
    ("POINT (1 1.0123[456789)", Some(15)),
    ("POINT (4000000", Some(14)),
    ("POINT ( -1.5\tx2. )", Some(13)),
    ("POINT (4000000001 10000000e00)", Some(7)),
    ("POINT (1 .01,6789)", Some(12)),
    ("xPOINT (1 1.0123456_9)", Some(0)),
];

/// The answer to a text with a fault at this place, or without one.
fn fault_at(place: Option<usize>) -> Option<TextFault> {
    let at = place?;
    Some(TextFault { at })
}

/// The answer to such a text, where what a text says takes memory.
pub fn error_at(place: Option<usize>) -> Option<TextErr> {
    let at = place?;
    Some(TextErr::Fault(TextFault { at }))
}

pub fn ranges_are_read(alloc: Global) -> bool {
    let mut right = true;
    for &(text, place) in &RANGES {
        right &= parse_ranges(alloc, text).err() == error_at(place);
    }
    right
}

pub fn boxes_are_read() -> bool {
    let mut right = true;
    for &(text, place) in &BOXES {
        right &= parse_bounds(text).err() == fault_at(place);
    }
    right
}

pub fn polygons_are_read(alloc: Global) -> bool {
    let mut right = true;
    for &(text, place) in &POLYGONS {
        right &= parse_polygon(alloc, text).err() == error_at(place);
    }
    right
}

pub fn points_are_read() -> bool {
    let mut right = true;
    for &(text, place) in &POINTS {
        right &= parse_point(text).err() == fault_at(place);
    }
    right
}
