//! Values of options within the bounds of their table.

ghost use Rattle.std.specs.Prelude.{◌≡◌, ◌≤◌};
ghost use Rattle.forward_rules.specs.Options.{AreGoodOptions};

use forward_rules::LasOpts;
use std::marker::Model;

/// How many decimal places are printed, 0 to 9, which contracts see as that number.
#[derive(Drop)]
pub struct Places {
    count: u32,
}

impl Model for Places {
    ghost use Rattle.std.specs.Prelude.{ℕ, ◌≤◌};

    ghost Value = { ℕ };

    ghost view = { λ p. p.count };

    ghost invariant = { λ p. p.count ≤ 9 };
}

impl Places {
    /// So many places.
    pub fn new(count: u32) -> Self
        requires { count ≤ 9 }
        ensures { result ≡ count }
    {
        Places { count }
    }

    /// Their number.
    pub fn count(&self) -> u32
        ensures value { result ≡ self.now }
        ensures few { result ≤ 9 }
    {
        self.count
    }
}

/// What a LAS writer is told of its file, which contracts see as `LasOpts`: a version is 1.2, 1.3 or 1.4 and its files have points of
/// the format, offsets are below 10^9 in size, and identifiers have at most 32 bytes.
#[derive(Drop)]
pub struct LasFields {
    fields: LasOpts,
}

impl Model for LasFields {
    ghost use Rattle.forward_rules.specs.declared.options.LasOpts.{LasOpts as Fields};
    ghost use Rattle.forward_rules.specs.Options.{AreGoodOptions};

    ghost Value = { Fields };

    ghost view = { λ f. f.fields };

    ghost invariant = { λ f. AreGoodOptions f.fields };
}

impl LasFields {
    /// These fields. It takes no memory.
    pub fn new(fields: LasOpts) -> Self
        requires { AreGoodOptions fields }
        ensures { result ≡ fields }
    {
        LasFields { fields }
    }

    /// The fields.
    pub fn as_options(&self) -> &LasOpts
        ensures fields { result.now ≡ self.now }
        ensures bounded { AreGoodOptions result.now }
    {
        &self.fields
    }
}
