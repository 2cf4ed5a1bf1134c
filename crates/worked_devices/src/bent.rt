//! The system's files, where one thing goes another way.

use std::alloc::Allocator;
use std::cell::Cell;
use std::fs::{File, Metadata, OpenOptions};
use std::os::unix::fs::MetadataExt;
use std::path::PathBuf;
use std::rt::Files;
use std::{fs, io};

/// What goes another way.
#[derive(Clone, Copy)]
pub enum Bend {
    Nothing,

    /// The program's output or its errors, of this name, go to the file `printed.txt`.
    Printed(&'static str),

    /// This name can't be looked at.
    Unseen(&'static str),

    /// A new file takes its bytes, but can't be synced.
    Unsynced,

    /// A new file can be neither written nor given a mode.
    Fixed,
}

#[derive(Drop)]
pub struct Bent<'a> {
    pub rt: &'a HostRuntime,
    pub bend: Cell<Bend>,

    /// Who could read, write and run the last new file as soon as it was there.
    pub first_mode: Cell<u32>,
}

impl<'a> Bent<'a> {
    pub fn new(rt: &'a HostRuntime, bend: Bend) -> Self {
        Bent {
            rt,
            bend: Cell::new(bend),
            first_mode: Cell::new(0),
        }
    }

    // The file that is handed out for a new one.
    fn stand_in(&self, made: File) -> io::Result<File> {
        match self.bend.get() {
            Bend::Unsynced => {
                let mut how = OpenOptions::new();
                how.write(true);
                how.open(self.rt, "/dev/null")
            }
            Bend::Fixed => fs::open(self.rt, "/proc/self/status"),
            Bend::Nothing | Bend::Printed(_) | Bend::Unseen(_) => Ok(made),
        }
    }
}

impl Files for Bent<'_> {
    type File = File;

    type Dir = <HostRuntime as Files>::Dir;

    fn open_file(&self, how: &OpenOptions, path: &str) -> io::Result<File> {
        let file = self.rt.open_file(how, path)?;
        if !how.asks_create_new() {
            return Ok(file);
        }
        self.first_mode.set(file.metadata()?.mode() & 0o777);
        self.stand_in(file)
    }

    fn open_dir(&self, path: &str) -> io::Result<Self::Dir> {
        self.rt.open_dir(path)
    }

    fn metadata(&self, path: &str) -> io::Result<Metadata> {
        match self.bend.get() {
            Bend::Printed(stream) if stream == path => self.rt.metadata("printed.txt"),
            _ => self.rt.metadata(path),
        }
    }

    fn symlink_metadata(&self, path: &str) -> io::Result<Metadata> {
        match self.bend.get() {
            Bend::Unseen(name) if name == path => {
                Err(io::Error::from(io::ErrorKind::PermissionDenied))
            }
            _ => self.rt.symlink_metadata(path),
        }
    }

    fn copy(&self, from: &str, to: &str) -> io::Result<u64> {
        self.rt.copy(from, to)
    }

    fn rename(&self, from: &str, to: &str) -> io::Result<()> {
        self.rt.rename(from, to)
    }

    fn remove_file(&self, path: &str) -> io::Result<()> {
        self.rt.remove_file(path)
    }

    fn create_dir(&self, path: &str) -> io::Result<()> {
        self.rt.create_dir(path)
    }

    fn remove_dir(&self, path: &str) -> io::Result<()> {
        self.rt.remove_dir(path)
    }

    fn remove_dir_all<B: Allocator>(&self, alloc: B, path: &str) -> io::Result<()> {
        self.rt.remove_dir_all(alloc, path)
    }

    fn canonicalize<B: Allocator>(&self, alloc: B, path: &str) -> io::Result<PathBuf<B>> {
        self.rt.canonicalize(alloc, path)
    }
}
