//! Laws of the names of types.

ghost use Rattle.stage_names.specs.Laws.{NamesLeadBack, NamesAreOwn};

/// The name of each type leads back to that type, and a name that leads to a type is that type's name.
pub fn names_are_read_back()
    ensures back { NamesLeadBack }
    ensures own { NamesAreOwn }
{}
