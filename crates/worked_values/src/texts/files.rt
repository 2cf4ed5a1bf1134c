//! Lines of points in a sink in memory.

ghost use Rattle.std.specs.Prelude.{IfSome};
ghost use Rattle.text_writer.specs.TextOutput.{IsTextForm};

use cloud_points::{Dim, Point};
use file_devices::{MemOut, Name, SureOut};
use std::alloc::Global;
use text_writer::{Column, ColumnList, Separator, TextBeginErr, TextForm, TextWriter};

/// The form of a file: its columns with their places, the delimiter, whether names are quoted, whether they are written.
type Form = (&'static [(Dim, u32)], &'static str, bool, bool);

const XYZ: Form = (&[(Dim::X, 3), (Dim::Y, 3), (Dim::Z, 3)], ",", true, true);

const XYZ_TEXT: &str = "\"X\",\"Y\",\"Z\"\n1.333,2.000,3.000\n-0.010,0.000,0.050\n";

/// Forms of files, and the text of two points.
const FILES: [(Form, &str); 5] = [
    (XYZ, XYZ_TEXT),
    (
        (
            &[(Dim::ScanAngleRank, 2), (Dim::Intensity, 5), (Dim::X, 9)],
            "; ",
            false,
            true,
        ),
        "ScanAngleRank; Intensity; X\n-12.01; 65535; 1.333333333\n0.00; 0; -0.010000000\n",
    ),
    (
        (
            &[(Dim::GpsTime, 0), (Dim::X, 0), (Dim::Y, 1)],
            "",
            true,
            false,
        ),
        "0x3ff0000000abcdef12.0\n0x000000000000000000.0\n",
    ),
    (
        (
            &[(Dim::Extra(7), 2), (Dim::Classification, 2)],
            "\t",
            true,
            true,
        ),
        "\"Extra7\"\t\"Classification\"\n2.50\t2\n0.00\t0\n",
    ),
    ((&[], ",", true, true), "\n\n\n"),
];

/// The append that fails, whether it is that of the names of the columns, and how many bytes of the text are held then.
const FAILURES: [(u64, bool, usize); 3] = [(1, true, 0), (2, false, 12), (3, false, 30)];

fn points() -> [Point; 2] {
    let mut first = Point::zero();
    (first.x, first.y, first.z) = (1_333_333_333, 2_000_000_000, 3_000_000_000);
    (first.intensity, first.classification) = (65_535, 2);
    (first.scan_angle_rank, first.gps_time) = (-12_006_000_000, 0x3ff0_0000_00ab_cdef);
    first.extra[7] = 2_500_000_000;
    let mut second = Point::zero();
    (second.x, second.z) = (-10_000_000, 50_000_000);
    [first, second]
}

/// The form of a file, with the names of the dimensions as those of the columns.
fn form(alloc: Global, form: Form) -> Option<TextForm>
    ensures { IfSome result (λ f. IsTextForm f) }
{
    let (columns, delimiter, quote_header, write_header) = form;
    let mut list = Vec::new(alloc);
    if columns.len() > 64 || delimiter.len() > 8 {
        return None;
    }
    for &(dim, places) in columns {
        if places > 9 {
            return None;
        }
        let name = Name::new(String::from_str(alloc, dim.name()).ok()?);
        list.push(Column { dim, name, places }).ok()?;
    }
    Some(TextForm {
        columns: ColumnList::new(list),
        delimiter: Separator::new(Name::new(String::from_str(alloc, delimiter).ok()?)),
        quote_header,
        write_header,
    })
}

/// Whether this text is appended for the points, one after the other.
fn is_written(alloc: Global, columns: Form, text: &str) -> Option<bool> {
    let form = form(alloc, columns)?;
    let sink = SureOut::new(alloc, 200).ok()?;
    let Ok(mut writer) = TextWriter::begin(alloc, sink, form) else {
        return None;
    };
    let [first, second] = points();
    let put = writer.put(&[first]).is_ok()
        && writer.put(&[]).is_ok()
        && writer.put(&[second]).is_ok();
    let sink = writer.release();
    Some(put && sink.bytes() == Some(text.as_bytes()))
}

pub fn points_become_lines(alloc: Global) -> bool {
    let mut right = true;
    for &(columns, text) in &FILES {
        right &= is_written(alloc, columns, text) == Some(true);
    }
    right
}

/// Whether a writer isn't begun over a sink whose append of this number fails, and whether the sink that is given back holds
/// the text up to here.
fn fails(alloc: Global, call: u64, held: usize) -> Option<(bool, bool)> {
    let form = form(alloc, XYZ)?;
    let calls = Vec::from_slice(alloc, &[call]).ok()?;
    let sink = MemOut::new(alloc, 100, calls).ok()?;
    let (refused, failed, sink) = match TextWriter::begin(alloc, sink, form) {
        Ok(mut writer) => {
            let [first, second] = points();
            let failed = writer.put(&[first]).is_err() || writer.put(&[second]).is_err();
            (false, failed, writer.release())
        }
        Err((sink, error)) => (true, error == TextBeginErr::Failed, sink),
    };
    let text = XYZ_TEXT.as_bytes();
    Some((refused, failed && Some(sink.bytes()) == text.get(..held)))
}

pub fn a_failed_sink_is_given_back(alloc: Global) -> bool {
    let mut right = true;
    for &(call, refused, held) in &FAILURES {
        right &= fails(alloc, call, held) == Some((refused, true));
    }
    right
}
