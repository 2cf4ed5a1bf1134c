//! In which cell of a row of equal cells a value lies.

ghost use Rattle.std.specs.Prelude.{◌≡◌, ◌≤ℤ◌, ◌-ℤ◌, pos};
ghost use Rattle.std.specs.Int.{int_div_euclid};
ghost use Rattle.tile_filters.specs.Cells.{cell_of};

use exact_numbers::Divisor;

/// The length of cells, at least 1, made ready for many values.
#[derive(Clone, Copy)]
pub(crate) struct CellLength(Divisor);

/// The number of the cell in which a value lies: (v - origin) / length, rounded down. All three are in one unit, as nanounits.
pub fn cell_of(v: i64, origin: i64, length: i64) -> i128
    requires { pos 1 ≤ℤ length }
    ensures { result ≡ cell_of v origin length }
{
    CellLength::new(length).cell(v, origin)
}

// How far a value lies from an origin.
fn difference(v: i64, origin: i64) -> i128
    ensures { result ≡ v -ℤ origin }
{
    v as i128 - origin as i128
}

impl CellLength {
    /// Cells of this length.
    pub(crate) fn new(length: i64) -> CellLength
        requires { pos 1 ≤ℤ length }
        ensures { pos result.0.by ≡ length }
    {
        CellLength(Divisor::new(length.unsigned_abs()))
    }

    /// The number of the cell in which a value lies, counted from an origin.
    #[inline(always)]
    pub(crate) fn cell(&self, v: i64, origin: i64) -> i128
        ensures { result ≡ cell_of v origin (pos self.now.0.by) }
    {
        match v.checked_sub(origin) {
            Some(from) => self.floor(from) as i128,
            None => self.wide_floor(difference(v, origin)),
        }
    }

    /// A number over the length, rounded down.
    #[inline(always)]
    pub(crate) fn floor(&self, from: i64) -> i64
        ensures { result ≡ int_div_euclid from (pos self.now.0.by) }
    {
        if from < 0 {
            -1 - self.0.quotient((-1 - from) as u64) as i64
        } else {
            self.0.quotient(from as u64) as i64
        }
    }

    // The same of a number that no i64 may hold. It is slower.
    fn wide_floor(&self, from: i128) -> i128
        ensures { result ≡ int_div_euclid from (pos self.now.0.by) }
    {
        from.div_euclid(self.0.by() as i128)
    }
}
