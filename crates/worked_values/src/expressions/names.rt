//! Names of dimensions in expressions.

use cloud_points::{Dim, ExtraNames, Layout};
use expr_eval::{BindErr, bind_expr};
use expr_lang::{Expr, parse_expr};
use std::alloc::Global;

/// Conditions over points that have X and an extra dimension `Height`, each with whether they have GpsTime too, and the
/// name that is refused, where there is one, and whether it is unknown.
const CONDITIONS: [(&str, bool, Option<(&str, bool)>); 12] = [
    ("X > gpstime && Q > 1", true, Some(("gpstime", false))),
    ("X > gpstime && Q > 1", false, Some(("gpstime", true))),
    ("X > 1 && Q > GpsTime", true, Some(("Q", true))),
    ("Y > Q", true, Some(("Y", true))),
    ("!(X > 1 || 1 == -zz)", false, Some(("zz", true))),
    ("height > Heigh", false, Some(("Heigh", true))),
    ("1 < GPSTIME", true, Some(("GPSTIME", false))),
    ("1 < GPSTIME", false, Some(("GPSTIME", true))),
    ("x > X", false, None),
    ("hEIGHT > 1", false, None),
    ("Height == HEIGHT", false, None),
    ("1 > 2", false, None),
];

fn layout(has_time: bool) -> Layout {
    let mut layout = Layout::none();
    layout.add(Dim::X);
    layout.add(Dim::Extra(0));
    if has_time {
        layout.add(Dim::GpsTime);
    }
    layout
}

/// The name for which binding is refused, and whether it is unknown.
fn refused(refusal: &BindErr) -> Option<(&str, bool)> {
    match refusal {
        BindErr::Unknown(name) => Some((name.as_str(), true)),
        BindErr::NotNumeric(name) => Some((name.as_str(), false)),
        BindErr::Memory => None,
    }
}

/// Whether an expression is bound, or refused for this name.
fn is_bound(
    alloc: Global,
    e: &Expr,
    layout: &Layout,
    names: &ExtraNames,
    name: Option<(&str, bool)>,
) -> bool {
    match bind_expr(alloc, e, layout, names) {
        Ok(_) => name.is_none(),
        Err(refusal) => name.is_some() && refused(&refusal) == name,
    }
}

/// Whether a condition is bound, or refused for this name.
fn answers(
    alloc: Global,
    text: &str,
    layout: &Layout,
    names: &ExtraNames,
    name: Option<(&str, bool)>,
) -> bool {
    match parse_expr(alloc, text) {
        Ok(e) => is_bound(alloc, &e, layout, names, name),
        Err(_) => false,
    }
}

pub fn the_first_name_is_refused(alloc: Global) -> bool {
    let mut names = ExtraNames::none(alloc);
    let mut right = names.add("Height") == Ok(0);
    for &(text, has_time, name) in &CONDITIONS {
        right &= answers(alloc, text, &layout(has_time), &names, name);
    }
    right
}
