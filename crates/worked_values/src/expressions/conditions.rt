//! Texts of conditions.

use expr_lang::{ExprErr, ExprFault, ExprKind, parse_expr};
use std::alloc::Global;

/// Texts that are no condition, each with the place and the kind of its first fault.
const FAULTS: [(&str, usize, ExprKind); 49] = [
    ("Z >", 3, ExprKind::Unexpected),
    ("(Z) && X > 1", 4, ExprKind::Unexpected),
    ("Z > 1.0123456789", 4, ExprKind::BadNumber),
    ("", 0, ExprKind::Unexpected),
    ("   ", 3, ExprKind::Unexpected),
    ("Z > 5.", 5, ExprKind::Unexpected),
    ("Z > .5", 4, ExprKind::Unexpected),
    ("Z > 1 WHERE X > 1", 6, ExprKind::Unexpected),
    ("Z > 1)", 5, ExprKind::Unexpected),
    ("X < Y < Z", 6, ExprKind::Unexpected),
    ("  (X)", 2, ExprKind::Unexpected),
    ("X && Y > 1 || !Z", 2, ExprKind::Unexpected),
    ("X & Y", 2, ExprKind::Unexpected),
    ("X < = Y", 4, ExprKind::Unexpected),
    ("Z > 4000000001", 4, ExprKind::BadNumber),
    ("Z > 4000000000.000000001", 4, ExprKind::BadNumber),
    ("X Y 4000000001", 2, ExprKind::Unexpected),
    ("-(X > 1) > 1", 0, ExprKind::Unexpected),
    ("Z > é", 4, ExprKind::Unexpected),
    ("X > .", 4, ExprKind::Unexpected),
    ("X*2 - -1 >= x(Z + 0.5", 13, ExprKind::Unexpected),
    ("wh\tere > 1", 3, ExprKind::Unexpected),
    ("!E(X)00000000000", 2, ExprKind::Unexpected),
    ("-(X > 1)>#", 9, ExprKind::Unexpected),
    ("Z/(X\n8x)>=())", 5, ExprKind::Unexpected),
    ("X > 1(== (Y > 1)", 5, ExprKind::Unexpected),
    ("X > 1.0123456789", 4, ExprKind::BadNumber),
    ("X <  1 < 2", 7, ExprKind::Unexpected),
    ("((X)4 != 1", 4, ExprKind::Unexpected),
    ("X", 0, ExprKind::Unexpected),
    ("X && Y 3 1", 7, ExprKind::Unexpected),
    ("-(X > 1)> 2x2", 11, ExprKind::Unexpected),
    ("(X > 6", 6, ExprKind::Unexpected),
    ("1> 1 where", 5, ExprKind::Unexpected),
    ("!(X)", 0, ExprKind::Unexpected),
    ("X > ", 4, ExprKind::Unexpected),
    ("(X > 1) == (Y > 1)", 8, ExprKind::Unexpected),
    ("éwhere > 1", 0, ExprKind::Unexpected),
    ("X && Y >1", 2, ExprKind::Unexpected),
    ("Y>=-0.000000001*\n=", 17, ExprKind::Unexpected),
    ("(X)) [/ 1", 3, ExprKind::Unexpected),
    ("X = 1", 2, ExprKind::Unexpected),
    ("#1  <=4000000000", 0, ExprKind::Unexpected),
    ("(X > ", 5, ExprKind::Unexpected),
    (" > .5", 1, ExprKind::Unexpected),
    ("X > 1 where", 6, ExprKind::Unexpected),
    ("2=Z", 1, ExprKind::Unexpected),
    ("(!\n(Int[nsity+a_1==Y)  )", 7, ExprKind::Unexpected),
    ("!X", 0, ExprKind::Unexpected),
];

/// Texts that are conditions.
const CONDITIONS: [&str; 21] = [
    "Z > 4000000000",
    "X>1||Y>1&&Z>1",
    "!!(X>1)",
    "((X))<=1.5",
    "X-1-2==Y*3/4+5",
    "X!=0.000000001",
    " \t\r\n0001<=2 ",
    "!(X > 0) && Y < 1.5 || Z == 2",
    "-Y+Cl2assificat0000000000ion\n+X!=Y",
    "2+\ta_1 <=0",
    "X > 00000000005",
    "a_1 !=X-X",
    "-X*- Intensity +X==-  (Z)*y",
    "(131.75\t>=25.20)",
    "a_1/0.01+(  Y)>=(Z-z*Z)",
    "ReturnNumber>(Y)",
    "!(X>=(  Z))",
    "whe*e > 1",
    "4000000000>=  -X+X\n||a_1<=Z",
    "21.95==-Z*  10",
    "(-X)*Intensity !=a_1-Y--a_1+Y-  -Y",
];

/// The first fault of a text, where it was refused for one.
pub fn fault_of(refusal: Option<ExprErr>) -> Option<(usize, ExprKind)> {
    match refusal {
        Some(ExprErr::Fault(ExprFault { at, kind })) => Some((at, kind)),
        _ => None,
    }
}

pub fn first_faults_of_conditions_are_told(alloc: Global) -> bool {
    let mut right = true;
    for &(text, at, kind) in &FAULTS {
        right &= fault_of(parse_expr(alloc, text).err()) == Some((at, kind));
    }
    right
}

pub fn conditions_are_read(alloc: Global) -> bool {
    let mut right = true;
    for &text in &CONDITIONS {
        right &= parse_expr(alloc, text).is_ok();
    }
    right
}
