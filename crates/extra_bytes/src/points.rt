//! Reads the extra dimensions of points from their records, and writes them there.

ghost use Rattle.std.specs.Prelude.{◌≡◌, ◌+◌, ◌≤◌, [], ◌∷◌, All, length, take, drop, Some, None, Ok, Err, IfOk, IfErr, OnOk};
ghost use Rattle.cloud_points.specs.ExtraFields.{kind_size};
ghost use Rattle.cloud_points.specs.Points.{get, with_fixed};
ghost use Rattle.cloud_points.specs.declared.dims.Dim.TheVariants.{Extra};
ghost use Rattle.extra_bytes.specs.Fields.{AreLaid, field_bytes, fields_bytes, fields_size, with_extra, first_out};
ghost use Rattle.extra_bytes.specs.Values.{LiesIn, extra_read, with_piece};

use crate::values::get_extra;
use crate::writing::put_extra;
use cloud_points::{Dim, ExtraField, OutOfRange, Point};

/// How many bytes of a record these fields take, at most eight of them.
pub fn fields_size(fields: &[ExtraField]) -> usize
    requires few { length fields.now ≤ 8 }
    ensures size { result ≡ fields_size fields.now }
    ensures small { result ≤ 64 }
{
    let mut size = 0;
    for field in fields {
        size += field.kind.size();
    }
    size
}

/// The value of a point in an extra dimension, in nanounits.
#[inline]
fn extra_value(point: &Point, place: u8) -> i64
    requires { place ≤ 7 }
    ensures { result ≡ get point.now (Extra place) }
{
    point.extra[place as usize]
}

/// Puts the value of a point into a field that begins at a byte of its record, and answers where the field ends.
#[inline]
fn put_field(field: &ExtraField, point: &Point, at: usize, bytes: &mut [u8]) -> Result<usize, Dim>
    requires stands { field.now.at ≡ at }
    requires place { field.now.place ≤ 7 }
    requires room { at + kind_size field.now.kind ≤ length bytes.old }
    ensures ok { IfOk result (λ end. field_bytes field.now point.now ≡ Ok (drop at (take end bytes.new))) }
    ensures end { IfOk result (λ end. end ≡ at + kind_size field.now.kind) }
    ensures before { take at bytes.new ≡ take at bytes.old }
    ensures refused { IfErr result (λ dim. field_bytes field.now point.now ≡ Err dim) }
    ensures len { length bytes.new ≡ length bytes.old }
{
    match put_extra(field, extra_value(point, field.place), bytes) {
        Ok(()) => Ok(at + field.kind.size()),
        Err(OutOfRange) => Err(Dim::Extra(field.place)),
    }
}

/// Puts the values of a point into the fields of its record, which stand one right behind another from byte `at` on, and answers where
/// the last one ends. The bytes before them stay.
///
/// It is refused exactly where the raw number that is nearest to a value leaves the kind of its field: with the dimension of the first
/// such field in the record. What the fields hold then isn't said.
#[inline]
pub fn put_fields(
    fields: &[ExtraField],
    point: &Point,
    at: usize,
    bytes: &mut [u8],
) -> Result<usize, Dim>
    requires laid { AreLaid at fields.now }
    requires room { at + fields_size fields.now ≤ length bytes.old }
    ensures ok { IfOk result (λ end. fields_bytes fields.now point.now ≡ Ok (drop at (take end bytes.new))) }
    ensures end { IfOk result (λ end. end ≡ at + fields_size fields.now) }
    ensures before { take at bytes.new ≡ take at bytes.old }
    ensures refused { IfErr result (λ dim. fields_bytes fields.now point.now ≡ Err dim) }
    ensures len { length bytes.new ≡ length bytes.old }
{
    let mut end = at;
    for field in fields {
        end = put_field(field, point, end, bytes)?;
    }
    Ok(end)
}

/// Sets the value of a point in an extra dimension, in nanounits.
#[inline]
fn set_extra(point: &mut Point, place: u8, nano: i64)
    requires { place ≤ 7 }
    ensures { point.new ≡ with_fixed point.old (Extra place) nano }
{
    point.extra[place as usize] = nano;
}

/// Sets the extra dimension of a point to the value of its field in a record.
#[inline]
fn get_field(field: &ExtraField, bytes: &[u8], point: &mut Point) -> Result<(), Dim>
    requires lies { LiesIn field.now bytes.now }
    requires place { field.now.place ≤ 7 }
    ensures ok { OnOk result (first_out (field.now ∷ []) bytes.now ≡ None) }
    ensures point { OnOk result (point.new ≡ with_extra (field.now ∷ []) bytes.now point.old) }
    ensures refused { IfErr result (λ dim. first_out (field.now ∷ []) bytes.now ≡ Some dim) }
{
    match get_extra(field, bytes) {
        Ok(nano) => {
            set_extra(point, field.place, nano);
            Ok(())
        }
        Err(OutOfRange) => Err(Dim::Extra(field.place)),
    }
}

/// Sets the extra dimensions of a point, in nanounits, to the values of fields in its record: raw numbers of steps from their offsets.
/// Its other dimensions stay.
///
/// It is refused exactly where such a value is above 4 * 10^18 nanounits in size, which no point holds: with the dimension of the first
/// such field. What the point holds then isn't said.
#[inline]
pub fn get_fields(fields: &[ExtraField], bytes: &[u8], point: &mut Point) -> Result<(), Dim>
    requires lie { All (λ f. LiesIn f bytes.now) fields.now }
    requires places { All (λ f. f.place ≤ 7) fields.now }
    ensures ok { OnOk result (first_out fields.now bytes.now ≡ None) }
    ensures point { OnOk result (point.new ≡ with_extra fields.now bytes.now point.old) }
    ensures refused { IfErr result (λ dim. first_out fields.now bytes.now ≡ Some dim) }
{
    for field in fields {
        get_field(field, bytes, point)?;
    }
    Ok(())
}
