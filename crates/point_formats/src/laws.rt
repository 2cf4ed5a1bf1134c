//! Laws of the numbers in records.

ghost use Rattle.point_formats.specs.Laws.{RawReturns, RecordsAreWhole, StepsReturn};

/// The laws that the raw number of a coordinate on the grid, and the steps of an angle that is a whole number of them,
/// are written as they were read.
pub fn numbers_return()
    ensures raw { RawReturns }
    ensures steps { StepsReturn }
{}

/// The law that each record has the bytes of its format.
pub fn records_are_whole()
    ensures { RecordsAreWhole }
{}
