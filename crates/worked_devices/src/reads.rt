//! Reads that signals interrupt.

use file_buffers::BlockReader;
use file_devices::Source;
use std::alloc::Global;
use std::cell::Cell;
use std::io;
use std::os::unix::fs::FileExt;

// A file whose reads are interrupted so often, and then give the number of their place.
#[derive(Drop)]
struct Interrupted {
    left: Cell<u32>,
}

impl FileExt for Interrupted {
    fn read_at(&self, buf: &mut [u8], offset: u64) -> io::Result<usize> {
        if let Some(left) = self.left.get().checked_sub(1) {
            self.left.set(left);
            return Err(io::Error::from(io::ErrorKind::Interrupted));
        }
        match buf.first_mut() {
            Some(first) => {
                *first = offset.to_le_bytes()[0];
                Ok(1)
            }
            None => Ok(0),
        }
    }

    fn write_at(&self, buf: &[u8], _offset: u64) -> io::Result<usize> {
        Ok(buf.len())
    }
}

/// The byte at place 7 of a file whose reads are interrupted so often, where it can be read.
fn seventh(alloc: Global, interruptions: u32) -> Option<u8> {
    let file = Interrupted {
        left: Cell::new(interruptions),
    };
    let mut reader = BlockReader::new(file, vec![in alloc; 0u8; 4].ok()?);
    let mut into = [0u8];
    reader.read_at(7, &mut into).ok()?;
    Some(into[0])
}

pub fn interrupted_reads_are_tried_again(alloc: Global) -> bool {
    let mut right = true;
    for (interruptions, byte) in [(0, Some(7)), (15, Some(7)), (16, None)] {
        right &= seventh(alloc, interruptions) == byte;
    }
    right
}
