//! The writer.

ghost use Rattle.std.specs.Prelude.{◌≡◌, ◌+◌, ◌-◌, ◌*◌, ◌<◌, ◌≤◌, ◌++◌, [], List, Some, true, is_ok, length, vec_len, IfOk, IfErr, OnOk, OnErr};
ghost use Rattle.std.specs.List.{flat_map};
ghost use Rattle.cloud_points.specs.declared.point.Point.{Point};
ghost use Rattle.file_devices.specs.Counts.{HasCause, Rose};
ghost use Rattle.file_devices.specs.Content.{Appends, AppendsPart};
ghost use Rattle.file_devices.specs.Told.{IsAsTold};
ghost use Rattle.text_writer.specs.TextOutput.{IsTextForm, header_line, text_line, holds_text};

use crate::header::header_line;
use crate::lines::{lines_in, put_lines};
use crate::{TextBeginErr, TextForm};
use cloud_points::Point;
use file_devices::{Failed, Sink};
use std::alloc::Global;

/// Room for the lines that are appended together. The longest line has 64 columns of 21 bytes, each with a delimiter of 8.
const ROOM: usize = 8192;

/// A writer of points as text: a line with the names of the columns, where the form asks for it, and a line for each
/// point. It is ended by `release`, which gives the sink back.
pub struct TextWriter<K> {
    sink: K,
    form: TextForm,
    buffer: Vec<u8>,
    ghost decided: { IsTextForm form },
    ghost room: { 1857 ≤ vec_len buffer },
}

impl<K: Sink> TextWriter<K> {
    /// A writer onto a sink to which nothing was appended; it appends the line with the names of the columns, where the
    /// form asks for it.
    ///
    /// A refusal gives the sink back. It is `Failed` only where the sink failed, and a beginning of the line was appended
    /// then. It is `Memory` only where there is none for the line or for the lines of points, and the sink is unchanged.
    pub fn begin(alloc: Global, sink: K, form: TextForm) -> Result<TextWriter<K>, (K, TextBeginErr)>
        requires { IsTextForm form }
        ensures ok { IfOk result (λ w. Appends (K.bytes sink) (header_line form) (K.bytes w.sink)) }
        ensures holds { IfOk result (λ w. IsAsTold (K.bytes sink) (Some [])
            → holds_text (K.bytes w.sink) form [] ≡ true) }
        ensures form { IfOk result (λ w. w.form ≡ form) }
        ensures calm { IfOk result (λ w. K.faults w.sink ≡ K.faults sink) }
        ensures part { IfErr result (λ e. AppendsPart (K.bytes sink) (header_line form) (K.bytes e.0)) }
        ensures failed { IfErr result (λ e. e.1 ≡ TextBeginErr.Failed → Rose (K.faults sink) (K.faults e.0)) }
        ensures unchanged { IfErr result (λ e. e.1 ≡ TextBeginErr.Memory → e.0 ≡ sink) }
        ensures count { IfErr result (λ e. K.faults sink ≤ K.faults e.0) }
    {
        let Ok(line) = header_line(alloc, &form) else {
            return Err((sink, TextBeginErr::Memory));
        };
        let Ok(buffer) = vec![in alloc; 0u8; ROOM] else {
            return Err((sink, TextBeginErr::Memory));
        };
        let mut sink = sink;
        match put_header(line.as_slice(), &mut sink) {
            Ok(()) => Ok(TextWriter { sink, form, buffer }),
            Err(Failed) => Err((sink, TextBeginErr::Failed)),
        }
    }

    /// Appends a line for each point, in their order. It takes no memory. No points change nothing.
    ///
    /// It is `Failed` only where the sink failed. A prefix of the lines was appended then.
    pub fn put(&mut self, points: &[Point]) -> Result<(), Failed>
        ensures idle { points.now ≡ [] → (is_ok result ≡ true) × (self.new ≡ self.old) }
        ensures ok { OnOk result (Appends (K.bytes self.old.sink)
            (flat_map (text_line self.old.form) points.now) (K.bytes self.new.sink)) }
        ensures part { OnErr result (AppendsPart (K.bytes self.old.sink)
            (flat_map (text_line self.old.form) points.now) (K.bytes self.new.sink)) }
        ensures holds { OnOk result ((before : List Point)
            → holds_text (K.bytes self.old.sink) self.old.form before ≡ true
            → holds_text (K.bytes self.new.sink) self.old.form (before ++ points.now) ≡ true) }
        ensures form { self.new.form ≡ self.old.form }
        ensures cause { HasCause (K.faults self.old.sink) (K.faults self.new.sink) result }
    {
        if points.is_empty() {
            return Ok(());
        }
        put_points(points, &self.form, &mut self.buffer, &mut self.sink)
    }

    /// Has the sink write what it holds back, by appending nothing. What it tells stays, unless it stops telling.
    ///
    /// It is `Failed` only where the sink failed.
    pub fn finish(&mut self) -> Result<(), Failed>
        ensures same { IsAsTold (K.bytes self.new.sink) (K.bytes self.old.sink) }
        ensures holds { (points : List Point)
            → holds_text (K.bytes self.old.sink) self.old.form points ≡ true
            → holds_text (K.bytes self.new.sink) self.old.form points ≡ true }
        ensures form { self.new.form ≡ self.old.form }
        ensures cause { HasCause (K.faults self.old.sink) (K.faults self.new.sink) result }
    {
        self.sink.append(&[])
    }

    /// The sink, with the writer ended.
    pub fn release(self) -> K
        ensures { result ≡ self.sink }
    {
        self.into_parts().0
    }

    /// The sink, and the form of the file, with the writer ended.
    pub fn into_parts(self) -> (K, TextForm)
        ensures sink { result.0 ≡ self.sink }
        ensures form { result.1 ≡ self.form }
        ensures decided { IsTextForm result.1 }
    {
        let TextWriter {
            sink,
            form,
            buffer: _buffer,
        } = self;
        (sink, form)
    }
}

/// Appends the line with the names of the columns.
fn put_header<K: Sink>(line: &[u8], sink: &mut K) -> Result<(), Failed>
    ensures ok { OnOk result (Appends (K.bytes sink.old) line.now (K.bytes sink.new)) }
    ensures part { OnErr result (AppendsPart (K.bytes sink.old) line.now (K.bytes sink.new)) }
    ensures cause { HasCause (K.faults sink.old) (K.faults sink.new) result }
{
    sink.append(line)
}

/// Appends a line for each point, which are made in `buffer`, all at once.
fn append_lines<K: Sink>(
    points: &[Point],
    form: &TextForm,
    buffer: &mut [u8],
    sink: &mut K,
) -> Result<(), Failed>
    requires form { IsTextForm form.now }
    requires room { length points.now * (29 * length form.now.columns + 1) ≤ length buffer.old }
    ensures ok { OnOk result (Appends (K.bytes sink.old)
        (flat_map (text_line form.now) points.now) (K.bytes sink.new)) }
    ensures part { OnErr result (AppendsPart (K.bytes sink.old)
        (flat_map (text_line form.now) points.now) (K.bytes sink.new)) }
    ensures cause { HasCause (K.faults sink.old) (K.faults sink.new) result }
{
    let start = put_lines(points, form, buffer);
    sink.append(&buffer[start..])
}

/// The place behind the next points, `most` at most, from a place on.
fn next_stop(from: usize, most: usize, count: usize) -> usize
    requires some { 1 ≤ most }
    requires within { from < count }
    ensures later { from < result }
    ensures within { result ≤ count }
    ensures few { result - from ≤ most }
{
    if count - from > most {
        from + most
    } else {
        count
    }
}

/// Appends a line for each point, as many at once as have room in `buffer`.
fn put_points<K: Sink>(
    points: &[Point],
    form: &TextForm,
    buffer: &mut [u8],
    sink: &mut K,
) -> Result<(), Failed>
    requires form { IsTextForm form.now }
    requires room { 1857 ≤ length buffer.old }
    ensures ok { OnOk result (Appends (K.bytes sink.old)
        (flat_map (text_line form.now) points.now) (K.bytes sink.new)) }
    ensures part { OnErr result (AppendsPart (K.bytes sink.old)
        (flat_map (text_line form.now) points.now) (K.bytes sink.new)) }
    ensures cause { HasCause (K.faults sink.old) (K.faults sink.new) result }
{
    let most = lines_in(buffer.len(), form);
    let mut from = 0;
    while from < points.len() {
        let to = next_stop(from, most, points.len());
        append_lines(&points[from..to], form, buffer, sink)?;
        from = to;
    }
    Ok(())
}
