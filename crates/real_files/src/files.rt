//! The store of the system's files.
ghost use Rattle.std.specs.Prelude.{◌≡◌, ◌+◌, ◌-◌, ◌^◌, ◌<◌, ◌≤◌, None, IfOk, IsErrOf, ◌++◌, codes, string_bytes};
ghost use Rattle.file_devices.specs.Counts.{HasCause, Rose, saturating};
ghost use Rattle.file_devices.specs.declared.devices.DeviceErr.TheVariants.{Absent, Failed as DeviceFailed};

use crate::RealOut;
use crate::target::{Target, target_of};
use file_buffers::{BlockReader, BlockWriter};
use file_devices::{DeviceErr, Failed, Files};
use std::alloc::{AllocError, Global};
use std::fs::{File, OpenOptions, Permissions};
use std::io::Read;
use std::os::unix::fs::{OpenOptionsExt, PermissionsExt};
use std::{fs, io};

// How many bytes are read and written together.
const BLOCK: usize = 131_072;

/// The files of the system, with the runtime's right to open them. Their map isn't told.
///
/// A file NAME is written as the new file `NAME.lasline-part`, which gets its name when it is kept and is
/// removed where it isn't. Where a file of that other name is there already, it stays as it is, and
/// creating fails. It fails too where NAME is there and is no regular file. Where NAME is a link, the file
/// that it names stands for it. A file that is replaced leaves its mode to the new one.
#[derive(Drop)]
pub struct RealFiles<'a, R: std::rt::Files<File = File>> {
    rt: &'a R,
    alloc: Global,
    faults: u64,
    lent: u64,
}

// The name that a file is written under until it is kept.
fn part_of(alloc: Global, name: &str) -> Result<String, AllocError>
    ensures { IfOk result (λ part. string_bytes part ≡ name.now ++ codes ".lasline-part") }
{
    format!(in alloc; "{name}.lasline-part")
}

// A number that can't be guessed.
fn random_number<R: std::rt::Files<File = File>>(rt: &R) -> io::Result<u64> {
    let mut bytes = [0u8; 8];
    fs::open(rt, "/dev/urandom")?.read_exact(&mut bytes)?;
    Ok(u64::from_le_bytes(bytes))
}

impl<'a, R: std::rt::Files<File = File>> RealFiles<'a, R> {
    ghost use Rattle.file_buffers.specs.Finished.{IsFinished};

    /// The store of the files that the runtime can open.
    pub fn new(rt: &'a R, alloc: Global) -> Self
        ensures faults { ⟦<RealFiles<'a, R> as Files>⟧.faults result ≡ 0 }
        ensures lent { ⟦<RealFiles<'a, R> as Files>⟧.lent result ≡ 0 }
    {
        RealFiles {
            rt,
            alloc,
            faults: 0,
            lent: 0,
        }
    }

    /// The count of faults: its own, and those of the objects that were taken back.
    pub fn count(&self) -> u64
        ensures { result ≡ ⟦<RealFiles<'a, R> as Files>⟧.faults self.now }
    {
        self.faults
    }

    /// How many objects were handed out and not yet taken back.
    pub fn lent(&self) -> u64
        ensures { result ≡ ⟦<RealFiles<'a, R> as Files>⟧.lent self.now }
    {
        self.lent
    }

    // Takes an object with this count of faults back.
    fn take_back(&mut self, faults: u64)
        ensures lent { self.new.lent ≡ self.old.lent - 1 }
        ensures faults { self.new.faults ≡ saturating self.old.faults faults }
        ensures later { self.old.faults ≤ self.new.faults }
    {
        self.lent = self.lent.saturating_sub(1);
        self.faults = self.faults.saturating_add(faults);
    }

    // Counts a fault of its own.
    fn fail(&mut self) -> DeviceErr
        ensures failed { result ≡ DeviceFailed }
        ensures rose { self.new.faults ≡ saturating self.old.faults 1 }
        ensures later { self.old.faults ≤ self.new.faults }
        ensures lent { self.new.lent ≡ self.old.lent }
    {
        self.faults = self.faults.saturating_add(1);
        DeviceErr::Failed
    }

    // Where the output of this name goes.
    fn target(&mut self, name: &str) -> Result<Target, DeviceErr>
        ensures not_absent { IsErrOf result Absent → ⊥ }
        ensures failed { IsErrOf result DeviceFailed → Rose self.old.faults self.new.faults }
        ensures calm { (IsErrOf result DeviceFailed → ⊥) → self.new.faults ≡ self.old.faults }
        ensures later { self.old.faults ≤ self.new.faults }
        ensures lent { self.new.lent ≡ self.old.lent }
    {
        match target_of(self.rt, self.alloc, name) {
            Ok(target) => Ok(target),
            Err(e) if e.kind() == io::ErrorKind::OutOfMemory => Err(DeviceErr::Memory),
            Err(_) => Err(self.fail()),
        }
    }

    // Makes a file that isn't there yet. It never lets anyone do what this mode forbids.
    fn create_new(&self, path: &str, mode: Option<u32>) -> io::Result<File> {
        let mut how = OpenOptions::new();
        how.write(true).create_new(true);
        let Some(mode) = mode else {
            return how.open(self.rt, path);
        };
        how.mode(mode);
        let file = how.open(self.rt, path)?;
        // The system takes the process's mask off the mode of a new file.
        match file.set_permissions(Permissions::from_mode(mode)) {
            Ok(()) => Ok(file),
            Err(e) => {
                fs::remove_file(self.rt, path)?;
                Err(e)
            }
        }
    }

    // Gives the file of a sink its name. All its bytes have gone to the device.
    fn rename(&self, out: &RealOut, target: &Target) -> io::Result<()>
        requires finished { IsFinished out.now.writer }
    {
        if let Some(mode) = target.mode {
            out.writer.set_mode(mode)?;
        }
        fs::rename(self.rt, out.part.as_str(), target.path.as_str())
    }

    // Looks at a name once more, and gives it to the file of a sink. What comes to stand there between
    // the two is replaced.
    fn put(&mut self, out: &RealOut, name: &str) -> Result<(), DeviceErr>
        requires finished { IsFinished out.now.writer }
        ensures not_absent { IsErrOf result Absent → ⊥ }
        ensures failed { IsErrOf result DeviceFailed → Rose self.old.faults self.new.faults }
        ensures calm { (IsErrOf result DeviceFailed → ⊥) → self.new.faults ≡ self.old.faults }
        ensures later { self.old.faults ≤ self.new.faults }
        ensures lent { self.new.lent ≡ self.old.lent }
    {
        let target = self.target(name)?;
        match self.rename(out, &target) {
            Ok(()) => Ok(()),
            Err(_) => Err(self.fail()),
        }
    }

    // Removes the file that a sink was written to.
    fn remove(&mut self, out: &RealOut) -> Result<(), Failed>
        ensures cause { HasCause self.old.faults self.new.faults result }
        ensures lent { self.new.lent ≡ self.old.lent }
    {
        if fs::remove_file(self.rt, out.part.as_str()).is_err() {
            self.faults = self.faults.saturating_add(1);
            return Err(Failed);
        }
        Ok(())
    }
}

impl<'a, R: std::rt::Files<File = File>> Files for RealFiles<'a, R> {
    type In = BlockReader<File>;

    type Out = RealOut;

    ghost map = { λ _. None };

    ghost read_to = { λ _. None };

    ghost lent = { λ s. s.lent };

    ghost faults = { λ s. s.faults };

    ghost counts = { λ _. None };

    fn open_in(&mut self, name: &str) -> Result<BlockReader<File>, DeviceErr> {
        if self.lent == u64::MAX {
            return Err(DeviceErr::Memory);
        }
        let block = vec![in self.alloc; 0u8; BLOCK]?;
        match fs::open(self.rt, name) {
            Ok(file) => {
                self.lent += 1;
                Ok(BlockReader::new(file, block))
            }
            Err(_) => Err(self.fail()),
        }
    }

    fn create(&mut self, name: &str) -> Result<RealOut, DeviceErr> {
        if self.lent == u64::MAX {
            return Err(DeviceErr::Memory);
        }
        let target = self.target(name)?;
        let part = part_of(self.alloc, target.path.as_str())?;
        let buffer = Vec::with_capacity(self.alloc, BLOCK)?;
        match self.create_new(part.as_str(), target.mode) {
            Ok(file) => {
                self.lent += 1;
                let writer = BlockWriter::new(file, buffer, BLOCK);
                Ok(RealOut { writer, part })
            }
            Err(_) => Err(self.fail()),
        }
    }

    fn keep(&mut self, name: &str, mut out: RealOut) -> Result<(), DeviceErr> {
        let finished = out.writer.finish();
        self.take_back(out.writer.faults());
        let kept = match finished {
            Ok(()) => self.put(&out, name),
            Err(_) => Err(self.fail()),
        };
        match kept {
            Ok(()) => Ok(()),
            Err(e) => match self.remove(&out) {
                Ok(()) => Err(e),
                Err(Failed) => Err(DeviceErr::Failed),
            },
        }
    }

    fn done_in(&mut self, source: BlockReader<File>) {
        self.take_back(source.faults());
    }

    fn done_out(&mut self, out: RealOut) {
        self.take_back(out.writer.faults());
        let _ = self.remove(&out);
    }

    fn hash_seed(&self) -> u64 {
        random_number(self.rt).unwrap_or(0)
    }
}
