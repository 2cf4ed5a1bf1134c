//! The reader.

ghost use Rattle.std.specs.Prelude.{◌≡◌, ◌+◌, ◌^◌, ◌<◌, ◌≤◌, ℕ, List, [], All, length, max, Some, Ok, IfOk, IfErr, vec_len};
ghost use Rattle.cloud_points.specs.ExtraFields.{kind_size};
ghost use Rattle.las_header.specs.Counts.{points_in};
ghost use Rattle.las_header.specs.Headers.{minor_of};
ghost use Rattle.las_header.specs.Sound.{IsSound};
ghost use Rattle.las_header.specs.Versions.{block_size};
ghost use Rattle.las_reader.specs.Frames.{frame_of};
ghost use Rattle.las_reader.specs.Files.{las_with};
ghost use Rattle.las_reader.specs.Lists.{AreFields, HasLists};
ghost use Rattle.las_reader.specs.Opening.{IsOfHeader, IsOpening, IsOpened};
ghost use Rattle.las_reader.specs.Reading.{IsStep, IsWithin, Moves, step_of, fault_at, read_failed, asked_to};
ghost use Rattle.file_devices.specs.Counts.{Rose};
ghost use Rattle.las_vlr.specs.Limits.{AreHeldVlrs, AreHeldEvlrs};

use crate::OpenErr;
use crate::opening::{LasFrame, read_frame};
use crate::records::{read_points, record_buffer};
use cloud_points::{Dim, ExtraField, FieldList, Make, PointFault, Spread, StageFault};
use file_devices::{Op, Source};
use las_header::Header;
use las_vlr::VlrList;
use std::alloc::Global;

/// How far a reader is in its file.
#[derive(Clone, Copy, Debug, PartialEq, Eq)]
pub enum Progress {
    /// So many records were given.
    Records(u64),

    /// The end of the view was given.
    ViewEnded,

    /// The end was given; the flag says whether the file was cut short.
    Ended(bool),
}

/// The fault of record `number`, which isn't whole, or has a value in a dimension which no point holds.
fn fault_at(number: u64, out: Option<Dim>) -> PointFault
    ensures { result ≡ fault_at number out }
{
    match out {
        Some(dim) => PointFault::ValueOutOfRange(number, dim),
        None => PointFault::Cut(number),
    }
}

/// A reader of a LAS file: its header, its variable length records, and its points, for which it asks its source one
/// chunk of records at a time. Their extra dimensions are 0, but for those of `set_fields`. It is ended by `release`, which
/// gives the source back.
pub struct LasReader<S> {
    source: S,
    buffer: Vec<u8>,
    header: Header,
    vlrs: VlrList,
    evlrs: VlrList,
    fields: FieldList,
    progress: Progress,
    ghost room: { header.record_length ≤ vec_len buffer },
    ghost few: { vec_len buffer ≤ 65536 },
    ghost sound: { IsSound header },
    ghost lists: { HasLists header vlrs evlrs },
    ghost fine: { AreFields header.record_length fields },
}

impl<S: Source> LasReader<S> {
    /// Opens a LAS file: reads its header block, its VLRs and its EVLRs. Of the header it asks for no byte behind the block of
    /// the file's version, and where there are no EVLRs for none of the points.
    ///
    /// Whatever the source tells, both lists are within their limits and as long as the header counts: at most 4,096 records,
    /// payloads of at most 16,777,216 bytes together, and of a VLR at most 65,535 bytes.
    ///
    /// A refusal gives the source back. It is `Header` or else `Vlr` where the file's bytes are at fault, `ReadFailed` only
    /// where a read failed, and `Memory` where there is none for the lists or for the records of a chunk.
    pub fn begin(alloc: Global, source: S) -> Result<LasReader<S>, (S, OpenErr)>
        ensures ok { IfOk result (λ r. (file : List ℕ) → S.bytes source ≡ Some file
            → frame_of file ≡ Ok (record { header = r.header; vlrs = r.vlrs; evlrs = r.evlrs })) }
        ensures start { IfOk result (λ r. r.progress ≡ Progress.Records 0) }
        ensures plain { IfOk result (λ r. r.fields ≡ []) }
        ensures lists { IfOk result (λ r. HasLists r.header r.vlrs r.evlrs) }
        ensures source { IfOk result (λ r.
            IsOpened (S.bytes source) (S.bytes r.source) (S.faults source) (S.faults r.source)) }
        ensures calm { IfOk result (λ r. S.faults r.source ≡ S.faults source) }
        ensures in_front { IfOk result (λ r. r.header.evlrs ≡ 0
            → S.reached r.source ≤ max (S.reached source) r.header.points_at) }
        ensures no_further { IfErr result (λ e. IsOfHeader e.1 → (file : List ℕ) → S.bytes source ≡ Some file
            → S.reached e.0 ≤ max (S.reached source) (block_size (minor_of file))) }
        ensures err { IfErr result (λ e. (file : List ℕ) → S.bytes source ≡ Some file
            → IsOpening (frame_of file) e.1) }
        ensures failed { IfErr result (λ e. e.1 ≡ OpenErr.ReadFailed → Rose (S.faults source) (S.faults e.0)) }
        ensures returned { IfErr result (λ e.
            IsOpened (S.bytes source) (S.bytes e.0) (S.faults source) (S.faults e.0)) }
    {
        let mut source = source;
        let LasFrame {
            header,
            vlrs,
            evlrs,
        } = match read_frame(alloc, &mut source) {
            Ok(frame) => frame,
            Err(e) => return Err((source, e)),
        };
        match record_buffer(alloc, header.record_length) {
            Ok(buffer) => Ok(LasReader {
                source,
                buffer,
                header,
                vlrs,
                evlrs,
                fields: FieldList::none(alloc),
                progress: Progress::Records(0),
            }),
            Err(_) => Err((source, OpenErr::Memory)),
        }
    }

    /// The header of the file, which has no fault.
    pub fn header(&self) -> &Header
        ensures value { result.now ≡ self.now.header }
        ensures sound { IsSound result.now }
    {
        &self.header
    }

    /// The VLRs of the file, which are within their limits and as many as the header counts.
    pub fn vlrs(&self) -> &VlrList
        ensures value { result.now ≡ self.now.vlrs }
        ensures held { AreHeldVlrs result.now }
        ensures count { length result.now ≡ self.now.header.vlrs }
    {
        &self.vlrs
    }

    /// The EVLRs of the file, which are within their limits and as many as the header counts.
    pub fn evlrs(&self) -> &VlrList
        ensures value { result.now ≡ self.now.evlrs }
        ensures held { AreHeldEvlrs result.now }
        ensures count { length result.now ≡ self.now.header.evlrs }
    {
        &self.evlrs
    }

    /// The fields whose values `next` puts into extra dimensions.
    pub fn fields(&self) -> &[ExtraField]
        ensures value { result.now ≡ self.now.fields }
        ensures places { All (λ f. f.place ≤ 7) result.now }
    {
        self.fields.as_slice()
    }

    /// Has `next` put the values of these fields, in nanounits, into the extra dimensions of the points, each at its place, from
    /// 0 to 7, in place of those that were set before. Their bytes lie in each record. It is called before points are asked for.
    /// It reads nothing.
    pub fn set_fields(&mut self, fields: FieldList)
        requires first { self.old.progress ≡ Progress.Records 0 }
        requires within { All (λ f. f.at + kind_size f.kind ≤ self.old.header.record_length) fields }
        requires places { All (λ f. f.place ≤ 7) fields }
        ensures { (fine : AreFields self.old.header.record_length fields)
            × (self.new ≡ record self.old { fields = fields; fine = fine }) }
    {
        self.fields = fields;
    }

    /// Puts the next points in place of what `into` holds: at most `chunk`, and at least one while good records are left. Then
    /// come the end of the view and the end of all. A record is good where it is wholly in the file, and each of its fields has
    /// a value of at most 4 * 10^18 nanounits in size.
    ///
    /// In place of the first counted record that isn't, the end comes, cut short. Its fault has the number of that record, from
    /// 0: `Cut` where it isn't whole, and else `ValueOutOfRange` with the dimension of the first such field in it. Where a read
    /// failed, the end is cut short with the device's fault. After the end, each call gives the end again without a fault. At an
    /// end `into` is left empty.
    ///
    /// The clause `told` speaks of a reader that gave no more points than the file has, as each does from `begin` on.
    pub fn next(&mut self, chunk: usize, into: &mut Spread) -> Make
        requires low { 1 ≤ chunk }
        requires high { chunk ≤ 64 }
        ensures told { (file : List ℕ) → S.bytes self.old.source ≡ Some file → (result ≡ read_failed → ⊥)
            → let las = las_with self.old.header self.old.fields file in IsWithin las.points self.old.progress
            → IsStep (step_of las.points las.fault self.old.progress chunk) result into.new.items
            self.new.progress }
        ensures moves { Moves (points_in self.old.header) chunk self.old.progress result into.new.items
            self.new.progress }
        ensures failed { result ≡ read_failed → Rose (S.faults self.old.source) (S.faults self.new.source) }
        ensures later { S.faults self.old.source ≤ S.faults self.new.source }
        ensures calm { (result ≡ read_failed → ⊥)
            → S.faults self.new.source ≡ S.faults self.old.source }
        ensures reached { S.reached self.new.source
            ≤ max (S.reached self.old.source) (asked_to self.old.header chunk self.old.progress) }
        ensures bytes { S.bytes self.new.source ≡ S.bytes self.old.source }
        ensures header { self.new.header ≡ self.old.header }
        ensures lists { (self.new.vlrs ≡ self.old.vlrs) × (self.new.evlrs ≡ self.old.evlrs) }
        ensures fields { self.new.fields ≡ self.old.fields }
        ensures counted { points_in self.new.header < 2 ^ 64 }
    {
        let count = self.header.points();
        match self.progress {
            Progress::Records(given) => {
                if given < count {
                    self.next_records(given, chunk, into)
                } else {
                    into.clear();
                    self.progress = Progress::ViewEnded;
                    Make::EndView
                }
            }
            Progress::ViewEnded => self.end(false, None, into),
            Progress::Ended(cut) => self.end(cut, None, into),
        }
    }

    /// The source, with the reader ended.
    pub fn release(self) -> S
        ensures { result ≡ self.source }
    {
        let LasReader {
            source,
            buffer: _,
            header: _,
            vlrs: _,
            evlrs: _,
            fields: _,
            progress: _,
        } = self;
        source
    }

    fn end(&mut self, cut: bool, fault: Option<StageFault>, into: &mut Spread) -> Make
        ensures made { result ≡ Make.End cut fault }
        ensures empty { into.new.items ≡ [] }
        ensures same { self.new ≡ record self.old { progress = Progress.Ended cut } }
    {
        into.clear();
        self.progress = Progress::Ended(cut);
        Make::End(cut, fault)
    }

    fn next_records(&mut self, given: u64, chunk: usize, into: &mut Spread) -> Make
        requires low { 1 ≤ chunk }
        requires high { chunk ≤ 64 }
        requires at { self.old.progress ≡ Progress.Records given }
        requires more { given < points_in self.old.header }
        ensures told { (file : List ℕ) → S.bytes self.old.source ≡ Some file → (result ≡ read_failed → ⊥)
            → let las = las_with self.old.header self.old.fields file in given ≤ length las.points
            → IsStep (step_of las.points las.fault (Progress.Records given) chunk) result into.new.items
            self.new.progress }
        ensures moves { Moves (points_in self.old.header) chunk (Progress.Records given) result into.new.items
            self.new.progress }
        ensures failed { result ≡ read_failed → Rose (S.faults self.old.source) (S.faults self.new.source) }
        ensures later { S.faults self.old.source ≤ S.faults self.new.source }
        ensures calm { (result ≡ read_failed → ⊥)
            → S.faults self.new.source ≡ S.faults self.old.source }
        ensures reached { S.reached self.new.source
            ≤ max (S.reached self.old.source) (asked_to self.old.header chunk (Progress.Records given)) }
        ensures bytes { S.bytes self.new.source ≡ S.bytes self.old.source }
        ensures header { self.new.header ≡ self.old.header }
        ensures lists { (self.new.vlrs ≡ self.old.vlrs) × (self.new.evlrs ≡ self.old.evlrs) }
        ensures fields { self.new.fields ≡ self.old.fields }
    {
        let most = (self.header.points() - given).min(chunk as u64) as usize;
        let Ok(out) = read_points(
            &mut self.source,
            &self.header,
            self.fields.as_slice(),
            given,
            most,
            &mut self.buffer,
            into,
        ) else {
            return self.end(true, Some(StageFault::Device(Op::Read)), into);
        };
        if into.is_empty() {
            return self.end(true, Some(StageFault::Point(fault_at(given, out))), into);
        }
        self.progress = Progress::Records(given + into.len() as u64);
        Make::Points
    }
}
