//! Laws of files that are read.

ghost use Rattle.las_reader.specs.Cuts.{CutIsTheFirst};
ghost use Rattle.las_reader.specs.Files.{WithoutFields};
ghost use Rattle.las_reader.specs.Following.{StepsGiveFile, StepsComeToTheEnd, StepsStayWithin};

/// The law that a file which is read without fields holds the points of all its whole records, and is cut where the header
/// counts more.
pub fn without_fields()
    ensures { WithoutFields }
{}

/// The law that the record with whose number a file ends is the first bad one of those that the header counts, from 0: it
/// doesn't end within the file, or a field in it has a value that no point holds, and no record before it is such a one. A
/// file ends without a fault exactly where no counted record is bad.
pub fn cut_is_the_first()
    ensures { CutIsTheFirst }
{}

/// The law that a file which is read to its first end, in chunks of any sizes from 1 to 64, gives its points, one chunk
/// behind the other, and then the end of the view and the end of all, or, where it has a fault, the end that is cut short,
/// with that fault.
pub fn steps_give_file()
    ensures { StepsGiveFile }
{}

/// The law that two more calls than a file has points are enough to come to its end.
pub fn steps_come_to_the_end()
    ensures { StepsComeToTheEnd }
{}

/// The law that behind each step no more points were given than the file has. So what `next` says of such a reader, it says of
/// each from `begin` on.
pub fn steps_stay_within()
    ensures { StepsStayWithin }
{}
