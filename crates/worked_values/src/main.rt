//! Makes the public calls of the libraries on numbers, LAS files, texts, expressions, limits and generated points, on values that
//! come from outside: from an independent reading of the standards and of the rules of this repository, by exact fractions, or
//! worked out by hand. Says of each check whether all its answers came as they say.
#![tactic(auto)]

mod expressions;
mod generated;
mod las;
mod limits;
mod numbers;
mod pieces;
mod shapes;
mod texts;
mod written;

use check_report::Report;
use std::process::ExitCode;

fn main(rt: HostRuntime) -> ExitCode {
    let alloc = rt.alloc();
    let mut report = Report::new();
    numbers::tell(&rt, &mut report);
    las::tell(&rt, alloc, &mut report);
    texts::tell(&rt, alloc, &mut report);
    expressions::tell(&rt, alloc, &mut report);
    limits::tell(&rt, alloc, &mut report);
    shapes::tell(&rt, alloc, &mut report);
    written::tell(&rt, alloc, &mut report);
    generated::tell(&rt, alloc, &mut report);
    report.end(&rt)
}
