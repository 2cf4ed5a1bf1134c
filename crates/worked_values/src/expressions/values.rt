//! Values and conditions at points.

use cloud_points::{Dim, ExtraNames, Layout, Point};
use expr_eval::{ArithFault, Bound, bind_expr, holds, value};
use expr_lang::{Expr, parse_assign, parse_expr};
use std::alloc::Global;

const ZERO: ArithFault = ArithFault::DivideByZero;

const LARGE: ArithFault = ArithFault::ArithOverflow;

/// Texts of assignments, each with a point's coordinates and the value there, all in nanounits.
const VALUES: [(&str, [i64; 3], Result<i128, ArithFault>); 41] = [
    ("X = Z/0+\t(Z)", [5, 0, -2_500_000_000], Err(ZERO)),
    (
        "X = 4000000000 / 0.000000001 * X",
        [-2_500_000_000, 1_500_000_000, -5],
        Err(LARGE),
    ),
    (
        "X = 1000000000 * 1000000000 + 0.000000001",
        [-417_497_264_264, 149_055_969_978, 106_715_680_899],
        Err(LARGE),
    ),
    (
        "X = Z+Y*\t(Y)/0",
        [1_000_000_000, -2_500_000_000, 5],
        Err(ZERO),
    ),
    (
        "X = X / (Y - Y)",
        [-5, 2_059_876_374_600_186_285, -4_000_000_000_000_000_000],
        Err(ZERO),
    ),
    (
        "X = X *( (X))",
        [1_113_945_291_443_107_222, -5, -829_812_418_599],
        Err(LARGE),
    ),
    (
        "X = 4000000000 * 4000000000 * X",
        [1_000_000_000, 0, 0],
        Err(LARGE),
    ),
    (
        "X = 1000000000 * 1000000000 / X",
        [-5, -729_292_156_542, -2_500_000_000],
        Err(LARGE),
    ),
    (
        "X = (1000000000 * 1000000000) * (1000000000 * 1000000000)",
        [1_500_000_000, 5, -5],
        Err(LARGE),
    ),
    (
        "X = 0.01*-  Y/0",
        [0, 1_000_000_000, -2_500_000_000],
        Err(ZERO),
    ),
    (
        "X = Z  *(\nY  /Z-\n1)",
        [-800_312_731_633, -4_000_000_000_000_000_000, 0],
        Err(ZERO),
    ),
    (
        "X = 0.000000001 * X",
        [1_000_000_000, -84_823_831_555, 1_500_000_000],
        Ok(1),
    ),
    (
        "X = X * Y - Y * X",
        [-2_500_000_000, 1_500_000_000, 1_500_000_000],
        Ok(0),
    ),
    (
        "X = Y*-\tClassification",
        [370_250_317_402, 1_000_000_000, 0],
        Ok(0),
    ),
    (
        "X = -(X*Z\t+X\t+\nX)",
        [0, 509_885_961_003, 1_000_000_000],
        Ok(0),
    ),
    (
        "X = Intensity*X",
        [1_500_000_000, -4_000_000_000_000_000_000, 1_000_000_000],
        Ok(0),
    ),
    ("X = ((-  Z))", [1_000_000_000, 1_000_000_000, -5], Ok(5)),
    (
        "X = -Classification/10-Y",
        [1_000_000_000, 1_500_000_000, -2_500_000_000],
        Ok(-1_500_000_000),
    ),
    (
        "X = 0.000000001\t---(ReturnNumber)",
        [1_500_000_000, 0, -2_500_000_000],
        Ok(1),
    ),
    ("X = (X)- X  -Y", [0, -5, 5], Ok(5)),
    ("X = (-  --Z)", [1_000_000_000, 1_500_000_000, -5], Ok(5)),
    (
        "X = 1000000000 * 1000000000",
        [-2_500_000_000, 1_000_000_000, 1_000_000_000],
        Ok(1_000_000_000_000_000_000_000_000_000),
    ),
    ("X = -X / 2", [0, 0, -27_471_861_475], Ok(0)),
    (
        "X = -\t-(Z*Y)",
        [-2_500_000_000, -2_500_000_000, 1_000_000_000],
        Ok(-2_500_000_000),
    ),
    (
        "X = Z-(Y+Classification\t+(Z))",
        [-2_500_000_000, 5, -5],
        Ok(-5),
    ),
    ("X = ((0.000000001\n*0.01))", [-2_500_000_000, -5, 5], Ok(0)),
    (
        "X = -Classification",
        [-770_396_948_930, 1_000_000_000, 1_000_000_000],
        Ok(0),
    ),
    (
        "X = --Y/Y+Intensity-Y",
        [-2_500_000_000, 1_500_000_000, 550_565_986_663],
        Ok(-500_000_000),
    ),
    (
        "X = X * Y * Z",
        [-2_500_000_000, 0, 3_343_583_899_865_357_295],
        Ok(0),
    ),
    (
        "X = -Z",
        [-2_500_000_000, -2_500_000_000, 667_415_487_120],
        Ok(-667_415_487_120),
    ),
    ("X = ((Y))+z-(Z)", [-2_500_000_000, -5, 0], Ok(-5)),
    ("X = Y  /\n10", [-5, 5, 0], Ok(1)),
    ("X = X / -Y", [5, 3_492_737_632_015, 1_500_000_000], Ok(0)),
    (
        "X = -\t10.35",
        [1_500_000_000, 5, -70_668_129_297],
        Ok(-10_350_000_000),
    ),
    (
        "X = X / 3",
        [1_500_000_000, 5, -3_165_705_667_252_269_071],
        Ok(500_000_000),
    ),
    (
        "X = (X * X) * (Y * Y)",
        [-5, 589_415_039_757, 1_500_000_000],
        Ok(0),
    ),
    (
        "X = X * 0.000000001",
        [
            1_500_000_000,
            3_148_582_931_913_960_394,
            -4_000_000_000_000_000_000,
        ],
        Ok(2),
    ),
    ("X = Y-(Y)", [-2_500_000_000, 316_551, 1_500_000_000], Ok(0)),
    ("X = X / Y", [-5, -216_947_735_975, -2_500_000_000], Ok(0)),
    (
        "X = (Y- Y-Intensity- - 2)",
        [1_000_000_000, 4_000_000_000_000_000_000, 496_524_834],
        Ok(2_000_000_000),
    ),
    (
        "X = -\n(3.1)* - X",
        [5, -2_500_000_000, 1_500_000_000],
        Ok(16),
    ),
];

/// Conditions, each with whether it holds at the point 1.5, 0, 4 * 10^9 of class 2.
const CONDITIONS: [(&str, Result<bool, ArithFault>); 16] = [
    ("x > 1 && cLASSIFICATION == 2", Ok(true)),
    ("X > 2 || !(X < 2)", Ok(false)),
    ("X <= 1.5 && X >= 1.5 && X != 1", Ok(true)),
    ("X < 1.5 || X > 1.5 || X == 1", Ok(false)),
    ("X / 0 > 1", Err(ZERO)),
    ("X > 2 && X / 0 > 1", Ok(false)),
    ("X < 2 || X / 0 > 1", Ok(true)),
    ("X / 0 > 1 || X < 2", Err(ZERO)),
    ("X / 3 == 0.5 && -X / -3 == 0.5", Ok(true)),
    ("2 / 3 == 0.666666667 && -2 / 3 == -0.666666667", Ok(true)),
    ("Z * 250000000 == 1000000000 * 1000000000", Ok(true)),
    ("Z * 250000000 + 0.000000001 > 0", Err(LARGE)),
    ("Z * Z * Z > 0", Err(LARGE)),
    ("Z * Z / 0 > 0", Err(LARGE)),
    ("X / 0 > Z * Z", Err(ZERO)),
    ("Z == 4000000000", Ok(true)),
];

const DIMS: [Dim; 6] = [
    Dim::X,
    Dim::Y,
    Dim::Z,
    Dim::Intensity,
    Dim::ReturnNumber,
    Dim::Classification,
];

/// All coordinates, and some whole numbers.
fn layout() -> Layout {
    let mut layout = Layout::none();
    for &dim in &DIMS {
        layout.add(dim);
    }
    layout
}

fn bound(alloc: Global, e: &Expr) -> Option<Bound> {
    bind_expr(alloc, e, &layout(), &ExtraNames::none(alloc)).ok()
}

/// The value of an expression over the layout at a point.
fn value_of(alloc: Global, e: &Expr, point: &Point) -> Option<Result<i128, ArithFault>> {
    match bound(alloc, e) {
        Some(bound) => Some(value(&bound, point)),
        None => None,
    }
}

/// The value that a text assigns at a point, where the text is an assignment over the layout.
fn value_at(alloc: Global, text: &str, point: &Point) -> Option<Result<i128, ArithFault>> {
    match parse_assign(alloc, text) {
        Ok(assign) => value_of(alloc, &assign.value, point),
        Err(_) => None,
    }
}

/// Whether a condition over the layout holds at a point.
fn truth_of(alloc: Global, e: &Expr, point: &Point) -> Option<Result<bool, ArithFault>> {
    match bound(alloc, e) {
        Some(bound) => Some(holds(&bound, point)),
        None => None,
    }
}

/// Whether a text holds at a point, where the text is a condition over the layout.
pub fn holds_at(alloc: Global, text: &str, point: &Point) -> Option<Result<bool, ArithFault>> {
    match parse_expr(alloc, text) {
        Ok(expr) => truth_of(alloc, &expr, point),
        Err(_) => None,
    }
}

pub fn point_at(place: [i64; 3]) -> Point {
    let mut point = Point::zero();
    (point.x, point.y, point.z) = (place[0], place[1], place[2]);
    point
}

pub fn values_are_exact_or_fault(alloc: Global) -> bool {
    let mut right = true;
    for &(text, place, answer) in &VALUES {
        right &= value_at(alloc, text, &point_at(place)) == Some(answer);
    }
    right
}

pub fn conditions_hold_or_fault(alloc: Global) -> bool {
    let mut right = true;
    let mut point = point_at([1_500_000_000, 0, 4_000_000_000_000_000_000]);
    point.classification = 2;
    for &(text, answer) in &CONDITIONS {
        right &= holds_at(alloc, text, &point) == Some(answer);
    }
    right
}
