//! Texts of assignments.

use super::conditions::fault_of;
use expr_lang::{Assign, ExprKind, parse_assign};
use std::alloc::Global;

/// Texts that are no assignment, each with the place and the kind of its first fault.
const FAULTS: [(&str, usize, ExprKind); 36] = [
    ("", 0, ExprKind::Unexpected),
    ("4000000001 = 1", 0, ExprKind::BadNumber),
    ("Z", 1, ExprKind::Unexpected),
    ("Z == 1", 2, ExprKind::Unexpected),
    ("Z = ", 4, ExprKind::Unexpected),
    ("WHERE = 1", 0, ExprKind::Unexpected),
    ("Z = X > 1", 4, ExprKind::Unexpected),
    ("Z = 1 WHERE X", 12, ExprKind::Unexpected),
    ("Z = X > 1 WHERE X && Y > 1", 18, ExprKind::Unexpected),
    ("Z = (X WHERE X > 1", 7, ExprKind::Unexpected),
    ("Z = 1 WHERE X > 1 WHERE X > 1", 18, ExprKind::Unexpected),
    ("Z = 1 WHERE", 11, ExprKind::Unexpected),
    ("Intensity=\t0.5 WHERE", 20, ExprKind::Unexpected),
    ("Z 2 1 WHERE X", 2, ExprKind::Unexpected),
    ("X=", 2, ExprKind::Unexpected),
    ("Z X > 1", 2, ExprKind::Unexpected),
    ("Z = (1 WHRE X > 0)>", 7, ExprKind::Unexpected),
    ("Classification", 14, ExprKind::Unexpected),
    ("Z ==91", 2, ExprKind::Unexpected),
    ("1 = 2", 0, ExprKind::Unexpected),
    ("z117.44", 4, ExprKind::Unexpected),
    ("Z = (1 WHE X*0)", 7, ExprKind::Unexpected),
    ("Z = 1 WHERE X > 0 WHERE Y > 0", 18, ExprKind::Unexpected),
    ("Z&=66", 1, ExprKind::Unexpected),
    ("X=1WHERE Y>", 11, ExprKind::Unexpected),
    ("Z = X > 1 WHERE Y", 4, ExprKind::Unexpected),
    (
        "X=-(ReturnNumbe)*X+(\n7Y *X)\n-\tZ-X",
        22,
        ExprKind::Unexpected,
    ),
    ("ZPOINT 4000000000== 1", 7, ExprKind::Unexpected),
    ("-Z 1= 2", 0, ExprKind::Unexpected),
    ("POINTH=EE = 1", 10, ExprKind::Unexpected),
    ("Y=#X", 2, ExprKind::Unexpected),
    ("Z ", 2, ExprKind::Unexpected),
    ("Z = Y = 1", 6, ExprKind::Unexpected),
    ("Z = 1 WHERE X > 0 WHER4E Y > 0", 18, ExprKind::Unexpected),
    ("== 1", 0, ExprKind::Unexpected),
    ("-Z = 2", 0, ExprKind::Unexpected),
];

/// Texts that are assignments.
const ASSIGNMENTS: [&str; 15] = [
    "Z = 2 * Z WHERE X > 0",
    "Z=1where X>0",
    "Z=-X",
    "Y=(Y)* Y /17.66\n",
    "WHE2E = 1",
    "Y=0.00000",
    "Classification=Classification",
    "Z=-y/1-(0.38)",
    "Y=0.01 Where (--\nX<X-ReturnNumber)",
    "a_1=\t00.5",
    "Y=a_1 where 1< Y",
    "Z\n=(-Classification) where Red\n>=(  136100)",
    "Y=  17.71 Where -(4000000000)>=\t3- y",
    "X=Classificaion\n",
    "Z=99634",
];

/// Whether an assignment is to this name, with a condition or without one.
fn is_to(assign: &Assign, name: &str, is_limited: bool) -> bool {
    assign.target.as_str() == name && assign.only.is_some() == is_limited
}

/// Whether a text is read as an assignment to this name, with a condition or without one.
fn is_for(alloc: Global, text: &str, name: &str, is_limited: bool) -> bool {
    match parse_assign(alloc, text) {
        Ok(assign) => is_to(&assign, name, is_limited),
        Err(_) => false,
    }
}

pub fn first_faults_of_assignments_are_told(alloc: Global) -> bool {
    let mut right = true;
    for &(text, at, kind) in &FAULTS {
        right &= fault_of(parse_assign(alloc, text).err()) == Some((at, kind));
    }
    right
}

pub fn assignments_are_read(alloc: Global) -> bool {
    let mut right = true;
    for &text in &ASSIGNMENTS {
        right &= parse_assign(alloc, text).is_ok();
    }
    right
        & is_for(alloc, "z = 2 * Z wHeRe X > 0", "z", true)
        & is_for(alloc, "no_dim9=1", "no_dim9", false)
}
