/// What was read so far of a decimal.
#[derive(Clone, Copy)]
pub enum Scan {
    Start,
    Signed,
    Whole,
    /// A point with no digit before it.
    Point,
    Places,
    /// No decimal begins so.
    Dead,
}
