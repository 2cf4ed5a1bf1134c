//! Where the stages of plugs and of tallies stand.

use std::marker::Model;

/// Whole numbers. A clause sees the list of them.
#[derive(Drop)]
pub struct Numbers {
    numbers: Vec<i128>,
}

impl Model for Numbers {
    ghost use Rattle.std.specs.Prelude.{ℤ, List};

    ghost Value = { List ℤ };

    ghost view = { λ n. n.numbers.items };
}

/// Where the next point of a plug's stage stands, and what the plug remembers. No value of it is made: clauses speak of it.
#[derive(Drop)]
pub struct PlugSpot {
    /// Its number in the stage's input, counted from 0 over all views; it stands at the greatest u64.
    pub number: u64,

    /// Whether a point of its view was judged, so that the plug began the view.
    pub begun: bool,

    /// What the plug remembers.
    pub remembered: Numbers,
}

/// Where the next point of a tally's stage stands, how many points the tally was shown, and what it remembers. No value of it
/// is made: clauses speak of it.
#[derive(Drop)]
pub struct TallySpot {
    /// Its number in the stage's input, counted from 0 over all views; it stands at the greatest u64.
    pub number: u64,

    /// How many points were shown; it stands at the greatest u64.
    pub shown: u64,

    /// What the tally remembers.
    pub remembered: Numbers,
}
