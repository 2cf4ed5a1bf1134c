//! The file of generated points.

ghost use Rattle.std.specs.Prelude.{◌≡◌, ◌≤◌, ◌+◌, ◌-◌, ◌∷◌, ℕ, [], Some, true, map, option_map, IfOk, IfErr, OnOk, OnErr};
ghost use Rattle.std.specs.List.{range_with_len};
ghost use Rattle.file_devices.specs.Counts.{HasCause, Rose};
ghost use Rattle.file_devices.specs.Told.{IsAsTold};
ghost use Rattle.file_devices.specs.declared.devices.Op as op_type;
ghost use Rattle.las_writer.specs.Holding.{holds_las};
ghost use Rattle.cloud_gen.specs.Generated.{generated};
ghost use Rattle.cloud_gen.specs.GeneratedFile.{generated_points, generated_options, generated_form, generated_file, IsPut, IsUnwritten, IsFailure, IsLeft, IsToldUnmade};

use crate::steps::{append_points, begin_file, create_file, finish_file, keep_file};
use crate::{GenerateError, gen_point};
use cloud_points::{MOST_POINTS, Spread};
use file_devices::{FileSink, Files, Op};
use forward_rules::{Forwarding, LasForm, LasOpts, NameList, default_scale};
use las_header::Format;
use las_writer::LasWriter;
use std::alloc::{AllocError, Global};

/// The series of the points.
const SERIES: u64 = 1;

/// The points of a chunk.
const CHUNK: u32 = 64;

const _: () = prove!(CHUNK as usize == MOST_POINTS);

/// Format 3 with steps of 0.01 from 500,000, 4,800,000 and 0. It takes no memory.
fn generated_options(alloc: Global) -> LasOpts
    ensures { result ≡ generated_options }
{
    LasOpts {
        format: Some(Format::F3),
        minor: None,
        scale: [Some(default_scale()); 3],
        offset: [
            Some(500_000_000_000_000),
            Some(4_800_000_000_000_000),
            Some(0),
        ],
        forward: NameList::new(Vec::new(alloc)),
        source_id: None,
        encoding: None,
        day: None,
        year: None,
        system: None,
        software: None,
    }
}

/// What stands around the points.
fn generated_form(alloc: Global) -> Result<LasForm, AllocError>
    ensures { IfOk result (λ form. form ≡ generated_form) }
{
    let options = generated_options(alloc);
    let forwarding = Forwarding::begin(alloc, &options)?;
    Ok(forwarding.form(alloc))
}

/// The points from a place to another one, which is at most 64 further.
fn generated_chunk(start: u32, end: u32) -> Spread
    requires ordered { start ≤ end }
    requires most { end ≤ start + 64 }
    requires few { end ≤ 10000000 }
    ensures { result.items ≡ map (generated 1) (range_with_len start (end - start)) }
{
    let mut points = Spread::new();
    for place in start..end {
        points.push(gen_point(SERIES, place as u64));
    }
    points
}

/// Appends the points from a place to another one, which is at most 64 further.
fn put_chunk<K: FileSink>(writer: &mut LasWriter<K>, start: u32, end: u32) -> Result<(), Op>
    requires form { writer.old.form ≡ generated_form }
    requires ordered { start ≤ end }
    requires most { end ≤ start + 64 }
    requires few { end ≤ 10000000 }
    ensures holds { OnOk result (
        holds_las (K.bytes writer.old.sink) generated_form writer.old.totals (generated_points start) ≡ true
        → holds_las (K.bytes writer.new.sink) generated_form writer.new.totals (generated_points end) ≡ true) }
    ensures form { writer.new.form ≡ generated_form }
    ensures named { IfErr result (λ op. op ≡ op_type.Op.Write) }
    ensures cause { HasCause (K.faults writer.old.sink) (K.faults writer.new.sink) result }
{
    let points = generated_chunk(start, end);
    append_points(writer, points.as_slice())
}

/// Appends the points, in chunks.
fn put_points<K: FileSink>(writer: &mut LasWriter<K>, count: u32) -> Result<(), Op>
    requires form { writer.old.form ≡ generated_form }
    requires few { count ≤ 10000000 }
    ensures holds { OnOk result (
        holds_las (K.bytes writer.old.sink) generated_form writer.old.totals [] ≡ true
        → holds_las (K.bytes writer.new.sink) generated_form writer.new.totals (generated_points count) ≡ true) }
    ensures form { writer.new.form ≡ generated_form }
    ensures named { IfErr result (λ op. op ≡ op_type.Op.Write) }
    ensures cause { HasCause (K.faults writer.old.sink) (K.faults writer.new.sink) result }
{
    let mut start = 0;
    while start < count {
        let end = count.min(start + CHUNK);
        put_chunk(writer, start, end)?;
        start = end;
    }
    Ok(())
}

/// Appends the points and makes the file whole.
fn write_points<K: FileSink>(writer: &mut LasWriter<K>, count: u32) -> Result<(), Op>
    requires form { writer.old.form ≡ generated_form }
    requires few { count ≤ 10000000 }
    ensures file { OnOk result (
        holds_las (K.bytes writer.old.sink) generated_form writer.old.totals [] ≡ true
        → IsAsTold (K.bytes writer.new.sink) (Some (generated_file count))) }
    ensures failed { IfErr result (λ op. IsUnwritten
        (Rose (K.faults writer.old.sink) (K.faults writer.new.sink)) (GenerateError.Device op)) }
    ensures calm { OnOk result (K.faults writer.new.sink ≡ K.faults writer.old.sink) }
{
    put_points(writer, count)?;
    finish_file(writer)
}

/// Writes the file of the points onto a sink to which nothing was appended. A refusal gives the sink back.
fn write_file<K: FileSink>(
    alloc: Global,
    sink: K,
    form: LasForm,
    count: u32,
) -> Result<K, (K, GenerateError)>
    requires form { form ≡ generated_form }
    requires few { count ≤ 10000000 }
    ensures file { IfOk result (λ out. IsAsTold (K.bytes sink) (Some [])
        → IsAsTold (K.bytes out) (Some (generated_file count))) }
    ensures calm { IfOk result (λ out. K.faults out ≡ K.faults sink) }
    ensures failed { IfErr result (λ e. IsUnwritten (Rose (K.faults sink) (K.faults e.0)) e.1) }
{
    let mut writer = begin_file(alloc, sink, form)?;
    match write_points(&mut writer, count) {
        Ok(()) => Ok(writer.release()),
        Err(fault) => Err((writer.release(), fault.into())),
    }
}

/// Writes the LAS file of the first `count` points of series 1 under a name, in place of a file that has it.
///
/// It is a file of version 1.4 and of point data record format 3, whose coordinates stand in steps of 0.01 above 500,000,
/// 4,800,000 and 0 (ASPRS LAS Specification 1.4 R15); what else its header says is the default of a writer without options.
/// `count` is at most 10,000,000.
///
/// It is refused with `Device` only where the files or the sink failed, while the file was created, written, patched or kept, and
/// with `Memory` where there was none. Where the files tell the counts of what they took back, these show which of the four failed.
/// No file was changed then, but where keeping failed or memory was wanting the new one may
/// stand under its name. All that the files handed out is given back.
pub fn generate<F: Files>(
    alloc: Global,
    files: &mut F,
    name: &str,
    count: u32,
) -> Result<(), GenerateError>
    requires { count ≤ 10000000 }
    ensures ok { OnOk result (IsPut (F.map files.old) name.now (generated_file count) (F.map files.new)) }
    ensures err { IfErr result (IsFailure (Rose (F.faults files.old) (F.faults files.new))) }
    ensures left { IfErr result (λ e.
        IsLeft e (F.map files.old) name.now (generated_file count) (F.map files.new)) }
    ensures gave { OnOk result ((c : ℕ) × IsAsTold (F.counts files.new)
        (option_map (λ counts. c ∷ counts) (F.counts files.old))) }
    ensures told { IfErr result (IsToldUnmade (F.counts files.old) (F.counts files.new)) }
    ensures lent { F.lent files.new ≡ F.lent files.old }
    ensures later { F.faults files.old ≤ F.faults files.new }
{
    let form = generated_form(alloc)?;
    let sink = create_file(files, name)?;
    match write_file(alloc, sink, form, count) {
        Ok(sink) => keep_file(files, name, sink),
        Err((sink, refusal)) => {
            files.done_out(sink);
            Err(refusal)
        }
    }
}
