//! What the types of values say of them. These functions do nothing: their contracts are what callers want.

ghost use Rattle.std.specs.Prelude.{◌≡◌, length};
ghost use Rattle.las_writer.specs.Sizes.{HasFieldSizes};

use byte_numbers::known_u16;
use decimal_coords::Scale;
use forward_rules::LasForm;

/// An array has its length.
fn known_length<const N: usize>(bytes: [u8; N])
    ensures { length bytes.entry ≡ N }
{}

fn known_scales(scales: [Scale; 3])
    ensures { length scales ≡ 3 }
{}

fn known_offsets(offsets: [i64; 3])
    ensures { length offsets ≡ 3 }
{}

/// The fields of a form have their sizes.
pub(crate) fn known_fields(form: &LasForm)
    ensures { HasFieldSizes form.now }
{
    known_u16(form.source_id);
    known_u16(form.encoding);
    known_u16(form.day);
    known_u16(form.year);
    known_length(form.guid);
    known_length(form.system);
    known_length(form.software);
    known_scales(form.scale);
    known_offsets(form.offset);
}
