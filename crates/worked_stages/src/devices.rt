//! Sources, sinks and stores of files in memory.

use file_devices::{
    Bytes, DeviceErr, FileSink, Files, MemFiles, MemIn, MemOut, Name, Sink, Source, SureFiles,
    SureOut, WholeErr, fill, read_whole,
};
use std::alloc::Global;

const CONTENT: &[u8] = b"LASFdata";

/// The most bytes of a read, and its place; how many bytes one read and then a fill put into six, and these.
const READS: [(u64, u32, usize, usize, [u8; 6]); 6] = [
    (1, 0, 1, 6, *b"LASFda"),
    (3, 0, 3, 6, *b"LASFda"),
    (3, 6, 2, 2, *b"ta\x07\x07\x07\x07"),
    (9, 1, 6, 6, *b"ASFdat"),
    (9, 8, 0, 0, [7; 6]),
    (9, 99, 0, 0, [7; 6]),
];

/// The limit of a source that is read whole, and the call that fails; whether what comes is its content, where any comes.
const WHOLES: [(u32, u64, Result<Option<bool>, WholeErr>); 4] = [
    (7, 9, Ok(None)),
    (8, 9, Ok(Some(true))),
    (9, 9, Ok(Some(true))),
    (9, 2, Err(WholeErr::Failed)),
];

/// The pieces that are appended to a sink with room for six bytes whose second call fails; whether each is taken, and
/// what the sink holds then.
const APPENDS: [(&[u8], bool, &[u8]); 4] = [
    (b"abc", true, b"abc"),
    (b"d", false, b"abc"),
    (b"defg", false, b"abc"),
    (b"def", true, b"abcdef"),
];

/// The object and the call that fails; which steps of a run succeed, how many calls fail, and what is kept.
const RUNS: [(u64, u64, [bool; 6], u64, Option<&[u8]>); 7] = [
    (9, 1, [true; 6], 0, Some(b"aBc")),
    (
        0,
        1,
        [false, false, true, true, true, true],
        1,
        Some(b"aBc"),
    ),
    (1, 1, [true, false, true, true, true, true], 1, Some(b"aBc")),
    (0, 2, [true, true, false, false, false, false], 1, None),
    (2, 1, [true, true, true, false, false, true], 1, Some(b"")),
    (2, 2, [true, true, true, true, false, true], 1, Some(b"abc")),
    (0, 3, [true, true, true, true, true, false], 1, None),
];

/// A source of the content, that gives at most so many bytes at a time and fails at this call.
fn source(alloc: Global, most: u64, call: u64) -> Option<MemIn> {
    let bytes = Vec::from_slice(alloc, CONTENT).ok()?;
    let fails = vec![in alloc; call].ok()?;
    Some(MemIn::new(bytes, most.max(1), fails))
}

fn read_and_fill(alloc: Global, most: u64, at: u32) -> Option<(usize, usize, [u8; 6])> {
    let mut source = source(alloc, most, 99)?;
    let mut into = [7u8; 6];
    let count = source.read_at(at as u64, &mut into).ok()?;
    let filled = fill(&mut source, at as u64, &mut into).ok()?;
    Some((count, filled, into))
}

pub(crate) fn reads_come_in_pieces_and_are_filled(alloc: Global) -> bool {
    let mut right = true;
    for &(most, at, count, filled, bytes) in &READS {
        right &= read_and_fill(alloc, most, at) == Some((count, filled, bytes));
    }
    right
}

fn whole(alloc: Global, limit: u32, call: u64) -> Option<Result<Option<bool>, WholeErr>> {
    let mut source = source(alloc, 3, call)?;
    match read_whole(alloc, &mut source, limit as usize) {
        Ok(Some(whole)) => Some(Ok(Some(whole.as_slice() == CONTENT))),
        Ok(None) => Some(Ok(None)),
        Err(e) => Some(Err(e)),
    }
}

pub(crate) fn whole_sources_are_read_up_to_a_limit(alloc: Global) -> bool {
    let mut right = true;
    for &(limit, call, came) in &WHOLES {
        right &= whole(alloc, limit, call) == Some(came);
    }
    right
}

fn sink(alloc: Global) -> Option<MemOut> {
    let fails = vec![in alloc; 2u64].ok()?;
    MemOut::new(alloc, 6, fails).ok()
}

pub(crate) fn a_sink_fails_at_its_numbers_and_past_its_room(alloc: Global) -> bool {
    let Some(mut sink) = sink(alloc) else {
        return false;
    };
    let mut right = true;
    for &(piece, ok, held) in &APPENDS {
        right &= sink.append(piece).is_ok() == ok;
        right &= sink.bytes() == held;
    }
    right
}

/// A sink with room for six bytes tells what it holds, up to the piece that passes its room.
pub(crate) fn a_sure_sink_tells_up_to_its_room(alloc: Global) -> bool {
    let Ok(mut sink) = SureOut::new(alloc, 6) else {
        return false;
    };
    let mut right = sink.append(b"abcdef").is_ok();
    right &= sink.bytes() == Some(b"abcdef".as_slice());
    right &= sink.patch(1, b"BC").is_ok();
    right &= sink.bytes() == Some(b"aBCdef".as_slice());
    right &= sink.append(b"g").is_ok();
    right & sink.bytes().is_none()
}

fn one_file(alloc: Global) -> Option<Vec<(String, Vec<u8>)>> {
    let name = String::from_str(alloc, "in.las").ok()?;
    let bytes = Vec::from_slice(alloc, CONTENT).ok()?;
    vec![in alloc; (name, bytes)].ok()
}

// What a run over the store answers: opening, reading, creating, appending, patching and keeping. What it
// hands out can go to another thread.
fn run<F: Files>(files: &mut F) -> [bool; 6]
where
    F::In: Send,
    F::Out: Send,
{
    let mut steps = [false; 6];
    if let Ok(mut source) = files.open_in("in.las") {
        steps[0] = true;
        let mut into = [0u8; 4];
        steps[1] = source.read_at(0, &mut into).is_ok();
        files.done_in(source);
    }
    if let Ok(mut sink) = files.create("out.txt") {
        steps[2] = true;
        steps[3] = sink.append(b"abc").is_ok();
        if steps[3] {
            steps[4] = sink.patch(1, b"B").is_ok();
        }
        steps[5] = files.keep("out.txt", sink).is_ok();
    }
    steps
}

/// The steps of a run whose call on an object fails, how many calls failed, and whether this is kept and all is given back.
fn failing(
    alloc: Global,
    object: u64,
    call: u64,
    kept: Option<&[u8]>,
) -> Option<([bool; 6], u64, bool)> {
    let fails = vec![in alloc; (object, call)].ok()?;
    let mut files = MemFiles::new(alloc, one_file(alloc)?, 100, 3, fails);
    let steps = run(&mut files);
    let is_kept = files.contents("out.txt") == kept;
    Some((steps, files.count(), is_kept & (files.lent() == 0)))
}

pub(crate) fn chosen_calls_fail_on_each_object(alloc: Global) -> bool {
    let mut right = true;
    for &(object, call, steps, count, kept) in &RUNS {
        right &= failing(alloc, object, call, kept) == Some((steps, count, true));
    }
    right
}

/// Why a name isn't opened.
fn refusal(files: &mut SureFiles) -> Option<DeviceErr> {
    match files.open_in("none") {
        Ok(source) => {
            files.done_in(source);
            None
        }
        Err(e) => Some(e),
    }
}

/// Whether five bytes can be appended to a new sink, which is kept then.
fn goes_over(files: &mut SureFiles) -> bool {
    match files.create("over") {
        Ok(mut sink) => sink.append(b"12345").is_ok() & files.keep("over", sink).is_ok(),
        Err(_) => false,
    }
}

/// How many objects are lent while a sink is, and once it is dropped.
fn lent_and_dropped(files: &mut SureFiles) -> (u64, u64) {
    match files.create("dropped") {
        Ok(sink) => {
            let lent = files.lent();
            files.done_out(sink);
            (lent, files.lent())
        }
        Err(_) => (0, 0),
    }
}

pub(crate) fn sure_files_tell_until_a_sink_went_over(alloc: Global) -> bool {
    let Some(given) = one_file(alloc) else {
        return false;
    };
    let mut files = SureFiles::new(alloc, given, 4);
    let mut right = run(&mut files) == [true; 6];
    right &= files.contents("out.txt") == Some(b"aBc".as_slice());
    right &= refusal(&mut files) == Some(DeviceErr::Absent);
    right &= goes_over(&mut files);
    right &= refusal(&mut files) == Some(DeviceErr::Memory);
    right & (lent_and_dropped(&mut files) == (1, 0))
}

/// Whether a name gives its text back.
fn name_comes_back(alloc: Global) -> bool {
    let Ok(text) = String::from_str(alloc, "in.las") else {
        return false;
    };
    let name = Name::new(text);
    let first = name.as_str() == "in.las";
    first & (name.into_string().as_str() == "in.las")
}

/// Whether a list of bytes gives them back.
fn bytes_come_back(alloc: Global) -> bool {
    let Ok(content) = Vec::from_slice(alloc, CONTENT) else {
        return false;
    };
    let bytes = Bytes::new(content);
    let first = bytes.as_slice() == CONTENT;
    first & (bytes.into_vec().as_slice() == CONTENT)
}

pub(crate) fn texts_come_back(alloc: Global) -> bool {
    name_comes_back(alloc) & bytes_come_back(alloc)
}
