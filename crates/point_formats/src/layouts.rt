//! The dimensions that records hold.

ghost use Rattle.std.specs.Prelude.{◌≡◌, ◌||◌};
ghost use Rattle.cloud_points.specs.Layouts.{holds};
ghost use Rattle.cloud_points.specs.declared.dims.Dim.{Dim};
ghost use Rattle.point_formats.specs.Layouts.{dims_of, is_among};

use cloud_points::{Dim, Layout};
use las_header::Format;

/// The dimensions of format 0, which formats 1 to 3 have too.
const OLD: [Dim; 15] = [
    Dim::X,
    Dim::Y,
    Dim::Z,
    Dim::Intensity,
    Dim::ReturnNumber,
    Dim::NumberOfReturns,
    Dim::ScanDirectionFlag,
    Dim::EdgeOfFlightLine,
    Dim::Classification,
    Dim::Synthetic,
    Dim::KeyPoint,
    Dim::Withheld,
    Dim::ScanAngleRank,
    Dim::UserData,
    Dim::PointSourceId,
];

/// The dimensions that formats 6 to 8 have besides.
const NEW: [Dim; 3] = [Dim::Overlap, Dim::ScanChannel, Dim::GpsTime];

const COLOURS: [Dim; 3] = [Dim::Red, Dim::Green, Dim::Blue];

/// Puts dimensions into a set.
fn add_all(layout: &mut Layout, dims: &[Dim])
    ensures { (dim : Dim) → holds layout.new dim ≡ (is_among dim dims.now || holds layout.old dim) }
{
    for dim in dims {
        layout.add(*dim);
    }
}

/// The dimensions that the records of a format hold.
pub fn dims(format: Format) -> Layout
    ensures { (dim : Dim) → holds result dim ≡ is_among dim (dims_of format) }
{
    let mut layout = Layout::none();
    add_all(&mut layout, &OLD);
    match format {
        Format::F0 => (),
        Format::F1 => layout.add(Dim::GpsTime),
        Format::F2 => add_all(&mut layout, &COLOURS),
        Format::F3 => {
            layout.add(Dim::GpsTime);
            add_all(&mut layout, &COLOURS);
        }
        Format::F6 => add_all(&mut layout, &NEW),
        Format::F7 => {
            add_all(&mut layout, &NEW);
            add_all(&mut layout, &COLOURS);
        }
        Format::F8 => {
            add_all(&mut layout, &NEW);
            add_all(&mut layout, &COLOURS);
            layout.add(Dim::Infrared);
        }
    }
    layout
}
