//! The writer.

ghost use Rattle.std.specs.Prelude.{◌≡◌, ◌+◌, ◌≤◌, ◌++◌, ◌∷◌, [], List, Some, None, Err, true, length, take, IfOk, IfErr, OnOk, OnErr, vec_len};
ghost use Rattle.cloud_points.specs.Queue.{up_to_limit};
ghost use Rattle.cloud_points.specs.declared.point.Point.{Point};
ghost use Rattle.file_devices.specs.Counts.{HasCause, Rose};
ghost use Rattle.file_devices.specs.Content.{Appends, AppendsPart, Patches};
ghost use Rattle.file_devices.specs.Told.{IsAsTold};
ghost use Rattle.las_header.specs.Versions.{block_size};
ghost use Rattle.las_header.specs.Written.{header_block};
ghost use Rattle.las_vlr.specs.Limits.{AreHeldVlrs};
ghost use Rattle.las_writer.specs.Records.{fits, written, records, refusal, unplaced};
ghost use Rattle.las_writer.specs.Totals.{totals_of};
ghost use Rattle.las_writer.specs.LasOutput.{IsForm, points_at, vlrs_bytes, header_with, extra_vlrs, las_unfinished, las_output};
ghost use Rattle.las_writer.specs.Holding.{holds_las, IsRefused, put_fault, IsPutFault};

use crate::blocks::{file_evlrs, header_with};
use crate::faults::Unpatched;
use crate::known::known_fields;
use crate::lists::{extra_vlrs, points_at, put_evlrs, put_vlrs};
use crate::records::{CHUNK_ROOM, put_chunk};
use crate::{ChunkErr, FinishErr, LasBeginErr, PutFault, RecordFault, Totals};
use byte_numbers::{known_u32, known_u64};
use cloud_points::{MOST_POINTS, Point};
use file_devices::{Failed, FileSink, Sink};
use forward_rules::LasForm;
use las_header::{LONGEST_BLOCK, write_header};
use las_vlr::Vlr;
use std::alloc::Global;
use std::marker::Model;

/// A writer of points as a LAS file: the header block and the VLRs, a record for each point, and in LAS 1.4 the EVLRs.
/// It is ended by `finish`, and `release` gives the sink back.
pub struct LasWriter<K: FileSink> {
    parts: WriterParts<K>,
}

/// What a writer holds. A clause sees a writer as these parts.
pub struct WriterParts<K> {
    sink: K,
    form: LasForm,
    start: u32,
    totals: Totals,
    buffer: Vec<u8>,
    ghost decided: { IsForm form },
    ghost behind: { start ≡ points_at form },
    ghost room: { 6528 ≤ vec_len buffer },
}

impl<K: FileSink> Model for LasWriter<K> {
    ghost use Rattle.std.specs.Prelude.{◌≤◌};
    ghost use Rattle.las_header.specs.Versions.{block_size};
    ghost use Rattle.las_writer.specs.declared.writer.WriterParts.{WriterParts as Parts};

    ghost Value = { Parts K };

    ghost view = { λ w. w.parts };

    // The header block stands in front.
    ghost invariant = { λ w. block_size w.parts.form.minor ≤ K.appended w.parts.sink };
}

/// What is wrong with a chunk of one point.
fn put_fault(e: ChunkErr) -> PutFault
    ensures { result ≡ put_fault e }
{
    match e {
        ChunkErr::Refused(refused) => match refused.why {
            RecordFault::TooMany => PutFault::TooMany,
            RecordFault::NotHeld(dim) => PutFault::NotHeld(dim),
            RecordFault::ValueOutOfRange(dim) => PutFault::ValueOutOfRange(dim),
        },
        ChunkErr::Failed => PutFault::Failed,
    }
}

/// Writes the header block with these totals at the front of `block`, and answers its size.
fn header_block(
    form: &LasForm,
    start: u32,
    totals: &Totals,
    block: &mut [u8; LONGEST_BLOCK],
) -> usize
    requires form { IsForm form.now }
    requires start { start ≡ points_at form.now }
    ensures bytes { take result block.new ≡ header_block (header_with form.now totals.now) }
    ensures size { result ≡ block_size form.now.minor }
    ensures long { length (header_block (header_with form.now totals.now)) ≡ block_size form.now.minor }
    ensures within { result ≤ LONGEST_BLOCK }
{
    write_header(&header_with(form, start, totals), block)
}

/// Appends the header block with these totals.
fn put_header<K: Sink>(
    form: &LasForm,
    start: u32,
    totals: &Totals,
    sink: &mut K,
) -> Result<(), Failed>
    requires form { IsForm form.now }
    requires start { start ≡ points_at form.now }
    ensures ok { OnOk result (Appends (K.bytes sink.old) (header_block (header_with form.now totals.now))
        (K.bytes sink.new)) }
    ensures part { OnErr result (AppendsPart (K.bytes sink.old) (header_block (header_with form.now totals.now))
        (K.bytes sink.new)) }
    ensures begun { OnOk result (block_size form.now.minor ≤ K.appended sink.new) }
    ensures cause { HasCause (K.faults sink.old) (K.faults sink.new) result }
{
    let mut block = [0; LONGEST_BLOCK];
    let size = header_block(form, start, totals, &mut block);
    sink.append(&block[..size])
}

/// Puts a header block with these totals in place of the one in front.
fn patch_header<K: FileSink>(
    form: &LasForm,
    start: u32,
    totals: &Totals,
    sink: &mut K,
) -> Result<(), Unpatched>
    requires form { IsForm form.now }
    requires start { start ≡ points_at form.now }
    requires begun { block_size form.now.minor ≤ K.appended sink.old }
    ensures ok { OnOk result (Patches (K.bytes sink.old) 0 (header_block (header_with form.now totals.now))
        (K.bytes sink.new)) }
    ensures size { length (header_block (header_with form.now totals.now)) ≡ block_size form.now.minor }
    ensures begun { block_size form.now.minor ≤ K.appended sink.new }
    ensures cause { HasCause (K.faults sink.old) (K.faults sink.new) result }
{
    let mut block = [0; LONGEST_BLOCK];
    let size = header_block(form, start, totals, &mut block);
    match sink.patch(0, &block[..size]) {
        Ok(()) => Ok(()),
        Err(Failed) => Err(Unpatched),
    }
}

/// Appends what stands in front of the points; `extra` is the VLR that describes the extra dimensions, where there are some.
fn put_front<K: Sink>(
    form: &LasForm,
    extra: &[Vlr],
    start: u32,
    totals: &Totals,
    sink: &mut K,
) -> Result<(), Failed>
    requires form { IsForm form.now }
    requires extra { extra.now ≡ extra_vlrs form.now.extra }
    requires held { AreHeldVlrs extra.now }
    requires start { start ≡ points_at form.now }
    ensures ok { OnOk result (Appends (K.bytes sink.old)
        (header_block (header_with form.now totals.now) ++ vlrs_bytes form.now) (K.bytes sink.new)) }
    ensures part { OnErr result (AppendsPart (K.bytes sink.old)
        (header_block (header_with form.now totals.now) ++ vlrs_bytes form.now) (K.bytes sink.new)) }
    ensures begun { OnOk result (block_size form.now.minor ≤ K.appended sink.new) }
    ensures cause { HasCause (K.faults sink.old) (K.faults sink.new) result }
{
    put_header(form, start, totals, sink)?;
    put_vlrs(form.vlrs.as_slice(), sink)?;
    put_vlrs(extra, sink)
}

impl<K: FileSink> LasWriter<K> {
    /// A writer onto a sink to which nothing was appended; it appends a header without points, and the VLRs.
    ///
    /// The form is of version 1.2, 1.3 or 1.4, its format is one of the version, its offsets are below 10^18 nanounits
    /// in size, and its lists are within the limits of those that are read. Its extra dimensions stand one right behind another
    /// behind the fields of the format, at most eight of them, with new names of at most 32 bytes and offset 0; a VLR that describes
    /// them stands behind all others. A refusal gives the sink back. It is `Memory` where there is none for the records of a chunk
    /// or that VLR, and the sink is then as it was; it is `Failed` only where the sink failed, and a beginning was appended then.
    pub fn begin(alloc: Global, sink: K, form: LasForm) -> Result<LasWriter<K>, (K, LasBeginErr)>
        requires { IsForm form }
        ensures ok { IfOk result (λ w. Appends (K.bytes sink) (las_unfinished form []) (K.bytes w.sink)) }
        ensures holds { IfOk result (λ w. IsAsTold (K.bytes sink) (Some [])
            → holds_las (K.bytes w.sink) form w.totals [] ≡ true) }
        ensures totals { IfOk result (λ w. w.totals ≡ totals_of form []) }
        ensures form { IfOk result (λ w. w.form ≡ form) }
        ensures calm { IfOk result (λ w. K.faults w.sink ≡ K.faults sink) }
        ensures part { IfErr result (λ e. AppendsPart (K.bytes sink) (las_unfinished form []) (K.bytes e.0)) }
        ensures unchanged { IfErr result (λ e. e.1 ≡ LasBeginErr.Memory → e.0 ≡ sink) }
        ensures failed { IfErr result (λ e. e.1 ≡ LasBeginErr.Failed → Rose (K.faults sink) (K.faults e.0)) }
        ensures count { IfErr result (λ e. K.faults sink ≤ K.faults e.0) }
    {
        let Ok(buffer) = vec![in alloc; 0u8; CHUNK_ROOM] else {
            return Err((sink, LasBeginErr::Memory));
        };
        let Ok(extra) = extra_vlrs(alloc, &form) else {
            return Err((sink, LasBeginErr::Memory));
        };
        let start = points_at(form.minor, form.vlrs.as_slice(), extra.as_slice());
        let totals = Totals::none();
        let mut sink = sink;
        match put_front(&form, extra.as_slice(), start, &totals, &mut sink) {
            Ok(()) => Ok(LasWriter {
                parts: WriterParts {
                    sink,
                    form,
                    start,
                    totals,
                    buffer,
                },
            }),
            Err(_) => Err((sink, LasBeginErr::Failed)),
        }
    }

    /// Appends the records of a chunk of points, in their order. No points change nothing: the sink isn't made to write
    /// what it holds back.
    ///
    /// It is `Refused` exactly where a point has no place in the file behind those that were written, with the first
    /// such point, and changes nothing then: a file of version 1.2 or 1.3 counts at most 4,294,967,295 points, and each
    /// point needs a record. It is `Failed` only where the sink failed. A prefix of the records was appended then.
    pub fn put_all(&mut self, points: &[Point]) -> Result<(), ChunkErr>
        requires { length points.now ≤ MOST_POINTS }
        ensures idle { points.now ≡ [] → self.new ≡ self.old }
        ensures ok { OnOk result (Appends (K.bytes self.old.sink) (records self.old.form points.now)
            (K.bytes self.new.sink)) }
        ensures held { OnOk result (refusal self.old.form self.old.totals.count points.now ≡ None) }
        ensures totals { OnOk result ((before : List Point)
            → self.old.totals ≡ totals_of self.old.form before
            → self.new.totals ≡ totals_of self.old.form (before ++ points.now)) }
        ensures count { OnOk result (self.new.totals.count
            ≡ up_to_limit (self.old.totals.count + length points.now)) }
        ensures holds { (result ≡ Err ChunkErr.Failed → ⊥) → (before : List Point)
            → holds_las (K.bytes self.old.sink) self.old.form self.old.totals before ≡ true
            → holds_las (K.bytes self.new.sink) self.old.form self.new.totals (before ++ points.now) ≡ true }
        ensures refused { IfErr result (IsRefused self.old.form self.old.totals.count points.now) }
        ensures unchanged { IfErr result (λ e. (e ≡ ChunkErr.Failed → ⊥) → self.new.sink ≡ self.old.sink) }
        ensures part { OnErr result (AppendsPart (K.bytes self.old.sink) (records self.old.form points.now)
            (K.bytes self.new.sink)) }
        ensures same_totals { OnErr result (self.new.totals ≡ self.old.totals) }
        ensures form { self.new.form ≡ self.old.form }
        ensures failed { IfErr result (λ e. e ≡ ChunkErr.Failed
            → Rose (K.faults self.old.sink) (K.faults self.new.sink)) }
        ensures later { K.faults self.old.sink ≤ K.faults self.new.sink }
        ensures calm { OnOk result (K.faults self.new.sink ≡ K.faults self.old.sink) }
    {
        let parts = &mut self.parts;
        known_u64(parts.totals.count);
        if points.is_empty() {
            return Ok(());
        }
        let mut totals = parts.totals;
        let size = put_chunk(points, &parts.form, &mut parts.buffer, &mut totals)?;
        parts.sink.append(&parts.buffer[..size])?;
        parts.totals = totals;
        Ok(())
    }

    /// How many points were written, up to the greatest u64.
    pub fn count(&self) -> u64
        ensures { result ≡ self.now.totals.count }
    {
        self.parts.totals.count
    }

    /// Appends the record of a point.
    ///
    /// It is `TooMany` exactly where the file counts no point more than those that were written, and else `NotHeld` or
    /// `ValueOutOfRange` exactly where the point has no record; nothing changes then. It is `Failed` only where the
    /// sink failed. A prefix of the record was appended then.
    pub fn put(&mut self, point: &Point) -> Result<(), PutFault>
        ensures ok { OnOk result (Appends (K.bytes self.old.sink) (records self.old.form (point.now ∷ []))
            (K.bytes self.new.sink)) }
        ensures held { OnOk result (refusal self.old.form self.old.totals.count (point.now ∷ []) ≡ None) }
        ensures totals { OnOk result ((before : List Point)
            → self.old.totals ≡ totals_of self.old.form before
            → self.new.totals ≡ totals_of self.old.form (before ++ point.now ∷ [])) }
        ensures holds { OnOk result ((before : List Point)
            → holds_las (K.bytes self.old.sink) self.old.form self.old.totals before ≡ true
            → holds_las (K.bytes self.new.sink) self.old.form self.new.totals
            (before ++ point.now ∷ []) ≡ true) }
        ensures refused { IfErr result (IsPutFault
            (unplaced (fits self.old.form self.old.totals.count) (written self.old.form point.now))) }
        ensures unchanged { IfErr result (λ e. (e ≡ PutFault.Failed → ⊥) → self.new.sink ≡ self.old.sink) }
        ensures part { OnErr result (AppendsPart (K.bytes self.old.sink)
            (records self.old.form (point.now ∷ [])) (K.bytes self.new.sink)) }
        ensures same_totals { OnErr result (self.new.totals ≡ self.old.totals) }
        ensures form { self.new.form ≡ self.old.form }
        ensures failed { IfErr result (λ e. e ≡ PutFault.Failed
            → Rose (K.faults self.old.sink) (K.faults self.new.sink)) }
        ensures later { K.faults self.old.sink ≤ K.faults self.new.sink }
        ensures calm { OnOk result (K.faults self.new.sink ≡ K.faults self.old.sink) }
    {
        let alone = [*point];
        match self.put_all(&alone) {
            Ok(()) => Ok(()),
            Err(e) => Err(put_fault(e)),
        }
    }

    /// Appends the EVLRs that the version has, puts a header block with the totals of the points in place of the one in
    /// front, and has the sink write what it holds back, by appending nothing.
    ///
    /// It is refused only where the sink failed: `Append` where the EVLRs couldn't be appended, or the sink couldn't write
    /// what it held back, and `Patch` where the header block couldn't be put in front. What the sink holds then is no file.
    pub fn finish(&mut self) -> Result<(), FinishErr>
        ensures ok { OnOk result ((points : List Point)
            → holds_las (K.bytes self.old.sink) self.old.form self.old.totals points ≡ true
            → refusal self.old.form 0 points ≡ None
            → IsAsTold (K.bytes self.new.sink) (Some (las_output self.old.form points))) }
        ensures form { self.new.form ≡ self.old.form }
        ensures cause { HasCause (K.faults self.old.sink) (K.faults self.new.sink) result }
    {
        let parts = &mut self.parts;
        known_fields(&parts.form);
        known_u32(parts.start);
        put_evlrs(file_evlrs(&parts.form), &mut parts.sink)?;
        patch_header(&parts.form, parts.start, &parts.totals, &mut parts.sink)?;
        parts.sink.append(&[])?;
        Ok(())
    }

    /// The sink, with the writer ended.
    pub fn release(self) -> K
        ensures { result ≡ self.sink }
    {
        self.into_parts().0
    }

    /// The sink, and the form of the file, with the writer ended.
    pub fn into_parts(self) -> (K, LasForm)
        ensures sink { result.0 ≡ self.sink }
        ensures form { result.1 ≡ self.form }
        ensures decided { IsForm result.1 }
    {
        let LasWriter { parts } = self;
        let WriterParts {
            sink,
            form,
            start: _,
            totals: _,
            buffer: _,
        } = parts;
        (sink, form)
    }
}
