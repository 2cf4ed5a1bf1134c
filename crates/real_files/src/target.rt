//! Where an output goes, by what stands at its name.
ghost use Rattle.std.specs.Prelude.{◌≡◌, IfOk, bit_and, string_bytes};
ghost use Rattle.std.specs.Fs.{file_type, metadata_mode, IsFile, IsSymlink};

use std::alloc::{AllocError, Global};
use std::fs::Metadata;
use std::os::unix::fs::MetadataExt;
use std::{fs, io};

// The bits of a mode that say who may read, write and run a file.
const ACCESS: u32 = 0o777;

// What stands at a name.
enum Standing {
    Nothing,

    // A regular file, with who may read, write and run it.
    Regular(u32),

    Link,

    // A folder, a device, a pipe, a socket, or the file that the program itself prints to.
    Other,
}

/// Where an output goes.
#[derive(Drop)]
pub(crate) struct Target {
    /// The name that the file gets, at which stands a regular file or nothing.
    pub(crate) path: String,

    /// Who may read, write and run the file that is replaced, where there is one.
    pub(crate) mode: Option<u32>,
}

fn standing_of(found: &Metadata) -> Standing
    ensures regular { IsFile (file_type found.now)
        → result ≡ Standing.Regular (bit_and (metadata_mode found.now) 0o777) }
    ensures link { IsSymlink (file_type found.now) → result ≡ Standing.Link }
    ensures other { ¬ IsFile (file_type found.now) → ¬ IsSymlink (file_type found.now)
        → result ≡ Standing.Other }
{
    if found.is_file() {
        return Standing::Regular(found.mode() & ACCESS);
    }
    if found.is_symlink() {
        return Standing::Link;
    }
    Standing::Other
}

// Whether the program's output or its errors go to this file. What is printed would be lost with it.
fn is_printed_to<R: std::rt::Files>(rt: &R, found: &Metadata) -> bool {
    for stream in ["/dev/stdout", "/dev/stderr"] {
        if let Ok(own) = fs::metadata(rt, stream)
            && own.dev() == found.dev()
            && own.ino() == found.ino()
        {
            return true;
        }
    }
    false
}

// Looks at a name, and follows no link that stands there.
fn look<R: std::rt::Files>(rt: &R, name: &str) -> io::Result<Standing> {
    match fs::symlink_metadata(rt, name) {
        Ok(found) if found.is_file() && is_printed_to(rt, &found) => Ok(Standing::Other),
        Ok(found) => Ok(standing_of(&found)),
        Err(e) if e.kind() == io::ErrorKind::NotFound => Ok(Standing::Nothing),
        Err(e) => Err(e),
    }
}

fn own_target(alloc: Global, name: &str, mode: Option<u32>) -> Result<Target, AllocError>
    ensures path { IfOk result (λ target. string_bytes target.path ≡ name.now) }
    ensures mode { IfOk result (λ target. target.mode ≡ mode) }
{
    let path = String::from_str(alloc, name)?;
    Ok(Target { path, mode })
}

fn not_regular() -> io::Error {
    io::Error::new(io::ErrorKind::InvalidInput, "no regular file")
}

// The target of a link, which has to name a regular file.
fn link_target<R: std::rt::Files>(rt: &R, alloc: Global, name: &str) -> io::Result<Target> {
    let path = rt.canonicalize(alloc, name)?.into_string();
    match look(rt, path.as_str())? {
        Standing::Regular(mode) => Ok(Target {
            path,
            mode: Some(mode),
        }),
        Standing::Nothing | Standing::Link | Standing::Other => Err(not_regular()),
    }
}

/// The target of a name: the name itself where a regular file or nothing stands there, the regular file that a link
/// names, and an error where anything else stands there.
pub(crate) fn target_of<R: std::rt::Files>(
    rt: &R,
    alloc: Global,
    name: &str,
) -> io::Result<Target> {
    match look(rt, name)? {
        Standing::Nothing => Ok(own_target(alloc, name, None)?),
        Standing::Regular(mode) => Ok(own_target(alloc, name, Some(mode))?),
        Standing::Link => link_target(rt, alloc, name),
        Standing::Other => Err(not_regular()),
    }
}
