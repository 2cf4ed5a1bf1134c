//! Worked examples of the file of a LAS writer, and of its form, proved by computing them: the function has no code,
//! and each clause of its contract is one example.

ghost use Rattle.std.specs.Prelude.{◌≡◌, ◌∷◌, []};
ghost use Rattle.las_header.specs.declared.form.Format.TheVariants.{F0, F3};
ghost use Rattle.forward_rules.specs.Forwarded.{form_of};
ghost use Rattle.las_writer.specs.LasOutput.{las_output};
ghost use Rattle.las_round_trip.specs.Rows.{plain, no_options, empty_file, first_point, second_point, file_of_two, old_file_of_two};
ghost use Rattle.las_round_trip.specs.Rows.{file_of_heights, high_point, low_point, with_heights};

/// Without options and files all is the default. A file without points is its header, and two points in format 0 become
/// 415 bytes in version 1.4 and 267 in 1.2. With heights in 16 bits the records have 22 bytes, and a VLR describes them.
pub fn files_become_bytes()
    ensures all_defaults { form_of no_options [] ≡ plain 4 F3 }
    ensures header_alone { las_output (plain 4 F3) [] ≡ empty_file }
    ensures two_points { las_output (plain 4 F0) (first_point ∷ second_point ∷ []) ≡ file_of_two }
    ensures heights { las_output with_heights (high_point ∷ low_point ∷ []) ≡ file_of_heights }
    ensures old_two_points { las_output (plain 2 F0) (first_point ∷ second_point ∷ []) ≡ old_file_of_two }
{}
