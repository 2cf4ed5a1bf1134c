//! Worked examples of extra dimensions, proved by computing them: the functions have no code, and each clause of their contracts
//! is one example.

ghost use Rattle.std.specs.Prelude.{◌≡◌, ◌∷◌, [], codes, map, pos, negsuc, Some, None};
ghost use Rattle.extra_bytes.specs.Asked.{asked_fault, asked_fields, asked_of};
ghost use Rattle.extra_bytes.specs.Descriptors.{fields_of};
ghost use Rattle.extra_bytes.specs.Written.{descriptor_bytes};
ghost use Rattle.extra_bytes.specs.Values.{extra_read, extra_written};
ghost use Rattle.extra_bytes.specs.Rows.{parts_of, hundredths, tenths, hundredths_descriptor, tenths_descriptor, float_and_hundredths, high_record, low_record, empty_record, high_tenths, low_tenths};
ghost use Rattle.extra_bytes.specs.Rows.{but_width, fine, height_asked, three_names, width_asked};
ghost use Rattle.option_texts.specs.declared.extra_dims.ExtraDims.TheVariants.{All};
ghost use Rattle.stage_names.specs.declared.faults.PipeFault.TheVariants.{DimUnknown};

/// A descriptor of 32 bits in steps of 0.01 is a field, where it ends within the record, and none where the record is a byte
/// shorter. A float in front of it is stepped over.
pub fn descriptors_are_fields()
    ensures whole { map parts_of (fields_of hundredths_descriptor 20 24) ≡ parts_of (hundredths 20) ∷ [] }
    ensures short { map parts_of (fields_of hundredths_descriptor 20 23) ≡ [] }
    ensures stepped_over { map parts_of (fields_of float_and_hundredths 20 28)
        ≡ parts_of (hundredths 24) ∷ [] }
{}

/// Raw numbers 250 and -1 are 2.50 and -0.01. In 16 bits and steps of 0.1 they are written as 25 and 0, and 10000 isn't written.
pub fn values_are_bytes()
    ensures high { extra_read (hundredths 20) high_record ≡ Some (pos 2_500_000_000) }
    ensures low { extra_read (hundredths 20) low_record ≡ Some (negsuc 9_999_999) }
    ensures high_tenths { extra_written tenths (pos 2_500_000_000) empty_record ≡ Some high_tenths }
    ensures low_tenths { extra_written tenths (negsuc 9_999_999) empty_record ≡ Some low_tenths }
    ensures refused { extra_written tenths (pos 10_000_000_000_000) empty_record ≡ None }
    ensures descriptor { descriptor_bytes tenths ≡ tenths_descriptor }
{}

/// Asked for 16 bits with one place, `Height` is the field of 16 bits in steps of 0.1, whatever the case of its letters. A name that
/// the layout doesn't hold is unknown. All are those that it holds, one right behind the other.
pub fn asked_are_fields()
    ensures one { map parts_of (asked_fields three_names 20 (height_asked ∷ []))
        ≡ record (parts_of tenths) { name = codes "HEIGHT" } ∷ [] }
    ensures known { asked_fault 1 but_width three_names (height_asked ∷ []) ≡ None }
    ensures unknown { asked_fault 1 but_width three_names (height_asked ∷ width_asked ∷ [])
        ≡ Some (DimUnknown 1 (codes "Width")) }
    ensures all { map parts_of (asked_fields three_names 20 (asked_of but_width three_names All))
        ≡ fine (codes "Height") 0 20 ∷ fine (codes "Depth") 2 28 ∷ [] }
{}
