//! Laws of packed rows. The functions do nothing: their contracts are what they are for.

ghost use Rattle.std.specs.Prelude.{◌≡◌, true, false};
ghost use Rattle.packed_chunk.specs.Rows.{row_size};
ghost use Rattle.packed_chunk.specs.Formats.{HasGroups};

use cloud_points::Layout;

/// How wide the rows of points of formats 0, 3, 6 and 8 are, where they have no extra dimension.
pub fn widths_of_formats(layout: &Layout)
    ensures format_0 { HasGroups false false false false layout.now → row_size layout.now ≡ 45 }
    ensures format_3 { HasGroups false true true false layout.now → row_size layout.now ≡ 59 }
    ensures format_6 { HasGroups true true false false layout.now → row_size layout.now ≡ 55 }
    ensures format_8 { HasGroups true true true true layout.now → row_size layout.now ≡ 63 }
{
    let _layout = layout;
}
