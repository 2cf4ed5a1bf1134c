//! Points beside what an independent reading of the rule gives.

use cloud_gen::gen_point;
use cloud_points::Point;

/// A series and a place, and the point there: hundredths of X above 500,000, of Y above 4,800,000 and of Z, and degrees of the
/// angle; the word of the time; intensity, green and blue; the return number, the number of returns and the class.
type Row = ((u64, u64), [i32; 4], u64, [u16; 3], [u8; 3]);

const ROWS: [Row; 13] = [
    (
        (1, 0),
        [55, 48, 10271, -27],
        0,
        [27735, 50239, 48817],
        [2, 4, 9],
    ),
    (
        (1, 2),
        [229, 18, 14352, -1],
        0x3EC0_C6F7_A0B5_ED8D,
        [7419, 28114, 24603],
        [1, 3, 6],
    ),
    (
        (1, 13),
        [1371, 97, 12333, 13],
        0x3EEB_4352_6527_A205,
        [59520, 37497, 22500],
        [1, 2, 5],
    ),
    (
        (1, 20),
        [2015, 42, 12723, -17],
        0x3EF4_F8B5_88E3_68F1,
        [21182, 25594, 3288],
        [1, 1, 1],
    ),
    (
        (1, 24),
        [2438, 79, 13099, -30],
        0x3EF9_2A73_7110_E454,
        [46086, 46880, 20397],
        [4, 5, 4],
    ),
    (
        (1, 29),
        [2908, 53, 14408, -26],
        0x3EFE_68A0_D349_BE90,
        [28064, 57102, 25399],
        [1, 4, 2],
    ),
    (
        (1, 58),
        [5861, 59, 13545, -24],
        0x3F0E_68A0_D349_BE90,
        [28392, 63965, 1982],
        [4, 4, 3],
    ),
    (
        (1, 82),
        [8243, 90, 11374, -27],
        0x3F15_7EED_45E9_185D,
        [46743, 60605, 39099],
        [2, 5, 7],
    ),
    (
        (1, 495162),
        [16248, 49549, 11370, 27],
        0x3FDF_B0BB_F50E_3476,
        [37270, 4170, 59908],
        [3, 3, 3],
    ),
    (
        (1, 2444302),
        [30247, 244482, 10926, -8],
        0x4003_8DEE_34FC_610F,
        [57308, 58230, 14840],
        [1, 1, 9],
    ),
    (
        (1, 9302422),
        [42296, 930210, 13349, 23],
        0x4022_9AD7_0E6F_2E8C,
        [53294, 28353, 22171],
        [5, 5, 6],
    ),
    (
        (1, 9999999),
        [99969, 999996, 10541, 30],
        0x4023_FFFF_DE72_10BF,
        [15607, 34262, 22305],
        [1, 1, 5],
    ),
    (
        (u64::MAX, 7),
        [713, 59, 13629, 14],
        0x3EDD_5C31_593E_5FB7,
        [44682, 46804, 38829],
        [1, 2, 2],
    ),
];

/// The point of a row.
fn point_of(row: &Row) -> Point {
    let (_, [x, y, z, angle], time, [intensity, green, blue], [returned, returns, class]) = *row;
    let mut point = Point::zero();
    point.x = 500_000_000_000_000 + x as i64 * 10_000_000;
    point.y = 4_800_000_000_000_000 + y as i64 * 10_000_000;
    point.z = z as i64 * 10_000_000;
    point.scan_angle_rank = angle as i64 * 1_000_000_000;
    point.gps_time = time;
    (point.intensity, point.red) = (intensity, intensity);
    (point.green, point.blue) = (green, blue);
    (point.return_number, point.number_of_returns) = (returned, returns);
    (point.classification, point.point_source_id) = (class, 1);
    point
}

pub fn points_are_made_of_their_places() -> bool {
    let mut right = true;
    for row in &ROWS {
        let (series, place) = row.0;
        let place = place.min(9_999_999);
        right &= gen_point(series, place) == point_of(row);
    }
    right
}
