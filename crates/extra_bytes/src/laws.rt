//! Laws of extra dimensions.

ghost use Rattle.extra_bytes.specs.Asked.{AskedAreLaid};
ghost use Rattle.extra_bytes.specs.Laws.{ExactIsRead, FineTakesAll, NearestIsRead};
ghost use Rattle.extra_bytes.specs.Record.{RecordIsRead};
ghost use Rattle.extra_bytes.specs.Written.{WrittenAreRead};

/// The laws that what was written into a field is read: the value of the nearest raw number, which is the value itself where
/// it is a whole number of steps from the field's offset, as it always is for 64 bits with a sign and steps of a nanounit.
pub fn values_return()
    ensures nearest { NearestIsRead }
    ensures exact { ExactIsRead }
    ensures fine { FineTakesAll }
{}

/// The law that fields whose descriptors were written are read from these, in their order and but for their places.
pub fn written_are_read()
    ensures { WrittenAreRead }
{}

/// The law that the record with these descriptors is found and read, behind others that describe no extra bytes.
pub fn record_is_read()
    ensures { RecordIsRead }
{}

/// The law that different fields that are asked for, by names of at most 32 bytes of extra dimensions that the layout holds, are laid
/// one right behind another, with new names, so that their descriptors are read back.
pub fn asked_are_laid()
    ensures { AskedAreLaid }
{}
