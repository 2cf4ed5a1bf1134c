//! Named bytes in a list.
ghost use Rattle.std.specs.Prelude.{◌≡◌, ◌<◌, ◌≤◌, List, ℕ, length, take, Some, None, IfOk, IfSome, OnOk, OnErr, IsNone, ◌↔◌, option_map, slice_get};
ghost use Rattle.file_devices.specs.Named.{put};
ghost use Rattle.file_devices.specs.Stored.{found};
ghost use Rattle.std.specs.String.{string_bytes};

use std::alloc::{AllocError, Global};

pub(crate) type Entries = Vec<(String, Vec<u8>)>;

// The bytes under a name.
pub(crate) fn lookup<'a>(files: &'a [(String, Vec<u8>)], name: &str) -> Option<&'a [u8]>
    ensures { option_map (λ b. b.now) result ≡ found files.now name.now }
{
    for entry in files {
        if entry.0.as_str() == name {
            return Some(entry.1.as_slice());
        }
    }
    None
}

// The place of a name, or the number of entries where no entry has it.
fn place(files: &[(String, Vec<u8>)], name: &str) -> usize
    ensures within { result ≤ length files.now }
    ensures front { found (take result files.now) name.now ≡ None }
    ensures here { result < length files.now
        → IfSome (slice_get files.now result) (λ e. string_bytes e.0 ≡ name.now) }
{
    let mut at = 0;
    for entry in files {
        if entry.0.as_str() == name {
            return at;
        }
        at += 1;
    }
    at
}

// Puts bytes under a name.
pub(crate) fn store(
    alloc: Global,
    files: &mut Entries,
    name: &str,
    content: Vec<u8>,
) -> Result<(), AllocError>
    ensures ok { OnOk result (found files.new.items ≡ put (found files.old.items) name.now content.items) }
    ensures err { OnErr result (files.new.items ≡ files.old.items) }
{
    let at = place(files, name);
    if at < files.len() {
        files[at].1 = content;
        return Ok(());
    }
    let name = String::from_str(alloc, name)?;
    files.push((name, content))?;
    Ok(())
}
