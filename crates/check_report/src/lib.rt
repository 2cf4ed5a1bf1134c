//! What programs that try the libraries say of their checks: a line for each, and at the end how many passed.
#![tactic(auto)]

ghost use Rattle.std.specs.Prelude.{◌≡◌, ◌+◌, ◌-◌, ◌^◌, min, true, false};

use std::process::ExitCode;

/// How many checks there were, how many passed, and whether each line was printed.
#[derive(Drop)]
pub struct Report {
    /// How many checks were noted, up to the greatest u64.
    pub tried: u64,

    /// How many of them passed.
    pub passed: u64,

    is_printed: bool,
}

impl Report {
    /// No check yet.
    pub fn new() -> Self
        ensures tried { result.tried ≡ 0 }
        ensures passed { result.passed ≡ 0 }
    {
        Report {
            tried: 0,
            passed: 0,
            is_printed: true,
        }
    }

    /// Prints how a check came, and counts it.
    pub fn note(&mut self, rt: &impl Print, name: &str, came: bool)
        ensures tried { self.new.tried ≡ min (self.old.tried + 1) (2 ^ 64 - 1) }
        ensures passed { came ≡ true → self.new.passed ≡ min (self.old.passed + 1) (2 ^ 64 - 1) }
        ensures failed { came ≡ false → self.new.passed ≡ self.old.passed }
    {
        let word = if came { "passed" } else { "FAILED" };
        self.is_printed &= println!(rt; "{word} {name}").is_ok();
        self.tried = self.tried.saturating_add(1);
        if came {
            self.passed = self.passed.saturating_add(1);
        }
    }

    /// Prints how many checks passed. The answer is that of the program: 0 where all did, and each line was printed, else 1.
    pub fn end(self, rt: &impl Print) -> ExitCode {
        let Report {
            tried,
            passed,
            is_printed,
        } = self;
        let is_told = println!(rt; "{passed} of {tried} checks passed").is_ok();
        let is_well = is_printed && is_told && passed == tried;
        ExitCode::from(if is_well { 0 } else { 1 })
    }
}

/// Notes checks under their names: functions that answer whether all came as it should, or that answer this where it did.
#[macro_export]
macro_rules! checks {
    ($rt:expr, $report:expr; $($module:ident::$check:ident($($argument:expr),*) $(== $right:expr)?;)*) => {
        $($report.note($rt, stringify!($check), $module::$check($($argument),*) $(== $right)?);)*
    };
}
