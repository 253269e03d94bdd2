// A file that is read, and whether it is still as it was.
use std::fs::{Metadata, OpenFile};
use std::io::{ErrorKind, Read, Seek, SeekFrom};
use std::os::unix::fs::MetadataExt;
use std::rt::Files;
use std::{fs, io};

// What the system changes where a file is written to, removed or replaced.
#[derive(Clone, Copy, PartialEq)]
struct Stamp {
    size: u64,
    written: (i64, i64),
    changed: (i64, i64),
}

// What the system says of a file now.
fn stamp_of(metadata: &Metadata) -> Stamp {
    Stamp {
        size: metadata.len(),
        written: (metadata.mtime(), metadata.mtime_nsec()),
        changed: (metadata.ctime(), metadata.ctime_nsec()),
    }
}

// A file that stays open, so that all that is read of it is of one file.
#[derive(Drop)]
pub(crate) struct OpenedFile<F> {
    file: F,
    stamp: Stamp,
}

impl<F: Read + Seek + OpenFile> OpenedFile<F> {
    // Opens a regular file. It is looked at before, since to open a pipe waits for who writes to it.
    pub fn open<R: Files<File = F>>(host: &R, name: &str) -> io::Result<Self> {
        let looked = fs::metadata(host, name)?;
        if !looked.is_file() {
            return Err(io::Error::from(ErrorKind::InvalidInput));
        }
        let file = fs::open(host, name)?;
        let metadata = file.metadata()?;
        if !metadata.is_file() {
            return Err(io::Error::from(ErrorKind::InvalidInput));
        }
        Ok(OpenedFile {
            file,
            stamp: stamp_of(&metadata),
        })
    }

    // The number of its bytes when it was opened.
    pub fn size(&self) -> u64 {
        self.stamp.size
    }

    // Fills `dst` with its bytes from a place on. A file that ends before that is an error.
    pub fn read_at(&mut self, at: u64, dst: &mut [u8]) -> io::Result<()> {
        self.file.seek(SeekFrom::Start(at))?;
        self.file.read_exact(dst)
    }

    // Whether nobody wrote to it, removed it or replaced it since it was opened.
    pub fn is_unchanged(&self) -> bool {
        match self.file.metadata() {
            Ok(metadata) => stamp_of(&metadata) == self.stamp,
            Err(_) => false,
        }
    }
}
