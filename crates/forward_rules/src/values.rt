//! The values of a header that may go over into a written file.

ghost use Rattle.std.specs.Prelude.{◌≡◌, ◌<◌};
ghost use Rattle.forward_rules.specs.Values.{filled, default_scale, default_values, values_of, scale_on, offset_on, same_format, same_scale};

use decimal_coords::Scale;
use las_header::{Format, Header};

/// The bytes of an identifier.
pub(crate) const TEXT_SIZE: usize = 32;

/// The values of a header that may go over.
#[derive(Clone, Copy)]
pub(crate) struct HeaderValues {
    pub(crate) format: Format,
    pub(crate) scale: [Scale; 3],
    pub(crate) offset: [i64; 3],
    pub(crate) source_id: u16,
    pub(crate) encoding: u16,
    pub(crate) guid: [u8; 16],
    pub(crate) system: [u8; TEXT_SIZE],
    pub(crate) software: [u8; TEXT_SIZE],
    pub(crate) day: u16,
    pub(crate) year: u16,
}

impl HeaderValues {
    /// Those of a file that nothing is said of.
    pub(crate) fn default() -> HeaderValues
        ensures { result ≡ default_values }
    {
        HeaderValues {
            format: Format::F3,
            scale: [default_scale(); 3],
            offset: [0; 3],
            source_id: 0,
            encoding: 0,
            guid: [0; 16],
            system: filled("lasline"),
            software: filled("lasline 1"),
            day: 0,
            year: 0,
        }
    }

    /// Those of a header.
    pub(crate) fn of(header: &Header) -> HeaderValues
        ensures { result ≡ values_of header.now }
    {
        HeaderValues {
            format: header.format,
            scale: header.scale,
            offset: header.offset,
            source_id: header.source_id,
            encoding: header.encoding,
            guid: header.guid,
            system: header.system,
            software: header.software,
            day: header.day,
            year: header.year,
        }
    }
}

/// The scale of a file that nothing is said of: steps of 0.01.
pub fn default_scale() -> Scale
    ensures { result ≡ default_scale }
{
    match Scale::new(10_000_000) {
        Some(scale) => scale,
        None => unreachable!(),
    }
}

/// A text of at most 32 bytes, filled with zero bytes.
pub(crate) fn filled(text: &str) -> [u8; TEXT_SIZE]
    ensures { result ≡ filled text.now }
{
    let bytes = text.as_bytes();
    let size = bytes.len().min(TEXT_SIZE);
    let mut all = [0; TEXT_SIZE];
    all[..size].copy_from_slice(&bytes[..size]);
    all
}

pub(crate) fn same_format(a: Format, b: Format) -> bool
    ensures { result ≡ same_format a b }
{
    a.number() == b.number()
}

pub(crate) fn same_scale(a: Scale, b: Scale) -> bool
    ensures { result ≡ same_scale a b }
{
    a.nano() == b.nano()
}

/// The scale of an axis.
pub(crate) fn scale_on(scales: [Scale; 3], axis: usize) -> Scale
    requires { axis < 3 }
    ensures { result ≡ scale_on scales axis }
{
    scales[axis]
}

/// The offset of an axis.
pub(crate) fn offset_on(offsets: [i64; 3], axis: usize) -> i64
    requires { axis < 3 }
    ensures { result ≡ offset_on offsets axis }
{
    offsets[axis]
}
