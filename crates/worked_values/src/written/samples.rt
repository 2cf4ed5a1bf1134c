//! Forms and points to write.

ghost use Rattle.std.specs.Prelude.{◌≡◌, ◌≤◌, length, true, IfOk, IfSome};
ghost use Rattle.extra_bytes.specs.Fields.{AreLaid};
ghost use Rattle.forward_rules.specs.Forwarded.{given_or};
ghost use Rattle.forward_rules.specs.Options.{AreGoodOptions};
ghost use Rattle.las_header.specs.Versions.{is_version, takes_format};
ghost use Rattle.las_writer.specs.LasOutput.{IsForm};

use cloud_points::{ExtraField, ExtraKind, FieldList, Point};
use decimal_coords::Scale;
use file_devices::Name;
use forward_rules::{LasForm, LasOpts, NameList};
use las_header::Format;
use las_vlr::VlrList;
use std::alloc::{AllocError, Global};

/// The bounds of the two points, greatest and least of each axis.
pub(crate) const BOUNDS: [u8; 48] = [
    0, 0, 0, 0, 0, 0, 0xF0, 0x3F, 0x7B, 0x14, 0xAE, 0x47, 0xE1, 0x7A, 0x84, 0xBF, 0, 0, 0, 0, 0, 0,
    0, 0x40, 0, 0, 0, 0, 0, 0, 0, 0, 0, 0, 0, 0, 0, 0, 8, 0x40, 0x9A, 0x99, 0x99, 0x99, 0x99, 0x99,
    0xA9, 0x3F,
];

/// The system and the software of a file that nothing is said of.
const SYSTEM: [u8; 32] = [
    b'l', b'a', b's', b'l', b'i', b'n', b'e', 0, 0, 0, 0, 0, 0, 0, 0, 0, 0, 0, 0, 0, 0, 0, 0, 0, 0,
    0, 0, 0, 0, 0, 0, 0,
];

const SOFTWARE: [u8; 32] = [
    b'l', b'a', b's', b'l', b'i', b'n', b'e', b' ', b'1', 0, 0, 0, 0, 0, 0, 0, 0, 0, 0, 0, 0, 0, 0,
    0, 0, 0, 0, 0, 0, 0, 0, 0,
];

/// The form of a file that nothing is said of, but its minor version and its format.
pub(crate) fn plain(alloc: Global, minor: u8, format: Format, scale: Scale) -> LasForm
    requires version { is_version minor ≡ true }
    requires format { takes_format minor format ≡ true }
    ensures form { IsForm result }
    ensures same { result.format ≡ format }
{
    LasForm {
        format,
        minor,
        scale: [scale; 3],
        offset: [0; 3],
        source_id: 0,
        encoding: 0,
        guid: [0; 16],
        system: SYSTEM,
        software: SOFTWARE,
        day: 0,
        year: 0,
        vlrs: VlrList::new(Vec::new(alloc)),
        evlrs: VlrList::new(Vec::new(alloc)),
        extra: FieldList::none(alloc),
    }
}

/// Heights in 16 bits and steps of 0.1, right behind the fields of format 0.
fn heights(alloc: Global) -> Option<FieldList>
    ensures { IfSome result (λ fields. AreLaid 20 fields × (length fields ≤ 8)) }
{
    let field = ExtraField {
        name: Name::new(String::from_str(alloc, "Height").ok()?),
        place: 0,
        kind: ExtraKind::I16,
        at: 20,
        scale: Scale::new(100_000_000)?,
        offset: 0,
    };
    let mut fields = Vec::new(alloc);
    fields.push(field).ok()?;
    Some(FieldList::new(fields))
}

/// The form of such a file in format 0, with heights.
pub(crate) fn with_heights(alloc: Global, scale: Scale) -> Option<LasForm>
    ensures { IfSome result IsForm }
{
    let mut form = plain(alloc, 4, Format::F0, scale);
    form.extra = heights(alloc)?;
    Some(form)
}

/// A point at this height, in nanounits.
pub(crate) fn at_height(point: Point, nano: i64) -> Point {
    let mut high = point;
    high.extra[0] = nano;
    high
}

fn names(alloc: Global, forward: &[&str]) -> Result<NameList, AllocError> {
    let mut names = Vec::new(alloc);
    for name in forward {
        names.push(Name::new(String::from_str(alloc, name)?))?;
    }
    Ok(NameList::new(names))
}

/// Options that forward these names, and give a minor version and a source id.
pub(crate) fn options(
    alloc: Global,
    minor: Option<u8>,
    forward: &[&str],
    source_id: Option<u16>,
) -> Result<LasOpts, AllocError>
    requires { is_version (given_or minor 4) ≡ true }
    ensures { IfOk result AreGoodOptions }
{
    let forward = names(alloc, forward)?;
    Ok(LasOpts {
        format: None,
        minor,
        scale: [None; 3],
        offset: [None; 3],
        forward,
        source_id,
        encoding: None,
        day: None,
        year: None,
        system: None,
        software: None,
    })
}

/// Two points that every format holds.
pub(crate) fn old_points() -> [Point; 2] {
    let mut first = Point::zero();
    (first.x, first.y, first.z) = (1_000_000_000, 2_000_000_000, 3_000_000_000);
    (first.return_number, first.number_of_returns) = (1, 1);
    first.classification = 2;
    let mut second = first;
    (second.x, second.y, second.z) = (-10_000_000, 0, 50_000_000);
    [first, second]
}

/// A point of return number 9, which formats 6 to 8 alone hold.
pub(crate) fn new_point() -> Point {
    let mut point = Point::zero();
    (point.x, point.y, point.z) = (1_000_000_000, 2_000_000_000, 3_000_000_000);
    point.intensity = 5;
    (point.return_number, point.number_of_returns) = (9, 9);
    (point.scan_channel, point.scan_direction_flag) = (2, 1);
    (point.classification, point.user_data) = (2, 7);
    point.scan_angle_rank = 15_000_000_000;
    point.point_source_id = 1;
    point.gps_time = 0x3FF0_0000_0000_0000;
    point
}
