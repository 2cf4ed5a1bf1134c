//! The lines of points.

ghost use Rattle.std.specs.Prelude.{◌≡◌, ℕ, ◌+◌, ◌*◌, ◌<◌, ◌≤◌, ◌++◌, ◌∷◌, [], length, take, drop};
ghost use Rattle.std.specs.List.{flat_map};
ghost use Rattle.text_writer.specs.Cells.{cell};
ghost use Rattle.text_writer.specs.TextOutput.{IsTextForm, text_line};

use crate::cells::put_cell;
use crate::{Column, TextForm};
use cloud_points::Point;

/// Writes a piece so that it ends at `end`, and answers where it starts.
#[inline(never)]
fn put_piece(piece: &[u8], line: &mut [u8], end: usize) -> usize
    requires room { length piece.now ≤ end }
    requires within { end ≤ length line.old }
    ensures start { result + length piece.now ≡ end }
    ensures written { drop result line.new ≡ piece.now ++ drop end line.old }
{
    let start = end - piece.len();
    line[start..end].copy_from_slice(piece);
    start
}

/// Writes a delimiter so that it ends at `end`, and answers where it starts. Mostly it is a single byte.
fn put_delimiter(delimiter: &[u8], line: &mut [u8], end: usize) -> usize
    requires room { length delimiter.now ≤ end }
    requires within { end ≤ length line.old }
    ensures start { result + length delimiter.now ≡ end }
    ensures written { drop result line.new ≡ delimiter.now ++ drop end line.old }
{
    if let [byte] = delimiter {
        line[end - 1] = *byte;
        return end - 1;
    }
    put_piece(delimiter, line, end)
}

/// Writes a cell with the delimiter in front so that it ends at `end`, and answers where they start.
fn put_field(point: &Point, column: &Column, delimiter: &[u8], line: &mut [u8], end: usize) -> usize
    requires places { column.now.places ≤ 9 }
    requires delimiter { length delimiter.now ≤ 8 }
    requires room { 29 ≤ end }
    requires within { end ≤ length line.old }
    ensures start { result + length delimiter.now ≤ end }
    ensures short { end ≤ result + 29 }
    ensures written { drop result line.new ≡ delimiter.now ++ cell point.now column.now ++ drop end line.old }
{
    let at = put_cell(point, column, line, end);
    put_delimiter(delimiter, line, at)
}

/// Writes the cells, each with the delimiter in front, so that they end at `end`, and answers where they start.
fn put_fields(point: &Point, form: &TextForm, line: &mut [u8], end: usize) -> usize
    requires form { IsTextForm form.now }
    requires room { 29 * length form.now.columns ≤ end }
    requires within { end ≤ length line.old }
    ensures start { result ≤ end }
    ensures first { 0 < length form.now.columns → result + length form.now.delimiter ≤ end }
    ensures short { end ≤ result + 29 * length form.now.columns }
    ensures written { drop result line.new
        ≡ flat_map (λ c. form.now.delimiter ++ cell point.now c) form.now.columns ++ drop end line.old }
{
    let columns = form.columns.as_slice();
    let delimiter = form.delimiter.as_str().as_bytes();
    let mut at = end;
    let mut count = columns.len();
    while count > 0 {
        count -= 1;
        at = put_field(point, &columns[count], delimiter, line, at);
    }
    at
}

/// Writes a point's line so that it ends at `end`, and answers where it starts.
pub(crate) fn put_line(point: &Point, form: &TextForm, line: &mut [u8], end: usize) -> usize
    requires form { IsTextForm form.now }
    requires room { 29 * length form.now.columns + 1 ≤ end }
    requires within { end ≤ length line.old }
    ensures start { result ≤ end }
    ensures short { end ≤ result + (29 * length form.now.columns + 1) }
    ensures written { drop result line.new ≡ text_line form.now point.now ++ drop end line.old }
{
    line[end - 1] = b'\n';
    let at = put_fields(point, form, line, end - 1);
    if form.columns.as_slice().is_empty() {
        return at;
    }
    at + form.delimiter.as_str().len()
}

/// Writes a line for each point so that they end where the buffer ends, and answers where they start.
pub(crate) fn put_lines(points: &[Point], form: &TextForm, buffer: &mut [u8]) -> usize
    requires form { IsTextForm form.now }
    requires room { length points.now * (29 * length form.now.columns + 1) ≤ length buffer.old }
    ensures within { result ≤ length buffer.old }
    ensures written { drop result buffer.new ≡ flat_map (text_line form.now) points.now }
{
    let mut at = buffer.len();
    let mut count = points.len();
    while count > 0 {
        count -= 1;
        at = put_line(&points[count], form, buffer, at);
    }
    at
}

/// How many lines of the form have room in a buffer of this size, at least.
pub(crate) fn lines_in(size: usize, form: &TextForm) -> usize
    requires form { IsTextForm form.now }
    requires room { 1857 ≤ size }
    ensures some { 1 ≤ result }
    ensures room { result * (29 * length form.now.columns + 1) ≤ size }
{
    size / (29 * form.columns.as_slice().len() + 1)
}
