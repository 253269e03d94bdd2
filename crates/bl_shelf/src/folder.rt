// The current folder as a shelf.
ghost use Rattle.std.specs.Prelude.{◌≡◌, ◌≢◌, ◌↔◌, ◌≤◌, ◌<◌, ◌^◌, ◌-◌, ◌+◌, None, Some, map, option_map, slice_get, string_bytes, IfSome, IfOk, OnErr, length, IsSomeAnd};
ghost use Rattle.std.specs.IoError.{error_kind};
ghost use Rattle.bl_shelf.specs.Causes.{HasRisen, next_count};
ghost use Rattle.bl_shelf.specs.History.{no_history};

use crate::opened_file::OpenedFile;
use crate::part_file::PartFile;
use crate::{Shelf, ShelfFault};
use std::alloc::Global;
use std::fs::OpenFile;
use std::io;
use std::io::{ErrorKind, Read, Seek};
use std::os::fd::AsFd;
use std::random::RandomSource;
use std::rt::Files;

// How many commits took effect, how often a device failed, and how often a file wasn't there.
#[derive(Drop)]
struct Counts {
    commits: u64,
    faults: u64,
    misses: u64,
}

impl Counts {
    // Counts a fault.
    fn fail(&mut self) -> ShelfFault
        ensures fault { result ≡ ShelfFault.Failed }
        ensures faults { self.new.faults ≡ next_count self.old.faults }
        ensures faults_grow { self.old.faults ≤ self.new.faults }
        ensures misses { self.new.misses ≡ self.old.misses }
        ensures commits { self.new.commits ≡ self.old.commits }
    {
        self.faults = self.faults.saturating_add(1);
        ShelfFault::Failed
    }

    // Counts what the host answered: only a file that isn't there is a miss.
    fn blame(&mut self, error: &io::Error) -> ShelfFault
        ensures absent { (result ≡ ShelfFault.Absent)
            ↔ (error_kind error.now ≡ ErrorKind.NotFound) }
        ensures blamed { HasRisen result
            self.old.faults self.new.faults self.old.misses self.new.misses }
        ensures faults_grow { self.old.faults ≤ self.new.faults }
        ensures misses_grow { self.old.misses ≤ self.new.misses }
        ensures commits { self.new.commits ≡ self.old.commits }
        ensures taken { result ≢ ShelfFault.NoMemory }
    {
        if error.kind() == ErrorKind::NotFound {
            self.misses = self.misses.saturating_add(1);
            return ShelfFault::Absent;
        }
        self.fail()
    }

    // Counts what the host answered where a file wasn't looked for: want of memory is no fault.
    fn refuse(&mut self, error: &io::Error) -> ShelfFault
        ensures blamed { HasRisen result
            self.old.faults self.new.faults self.old.misses self.new.misses }
        ensures faults_grow { self.old.faults ≤ self.new.faults }
        ensures misses { self.new.misses ≡ self.old.misses }
        ensures commits { self.new.commits ≡ self.old.commits }
        ensures taken { result ≢ ShelfFault.Absent }
    {
        if error.kind() == ErrorKind::OutOfMemory {
            return ShelfFault::NoMemory;
        }
        self.fail()
    }
}

// A file that is read, under the name by which it was asked for.
#[derive(Drop)]
struct NamedFile<F> {
    name: String,
    opened: OpenedFile<F>,
}

/// The files of the current folder, or at other paths. A file is written beside the one that its
/// name leads to, under a name of its own that ends in `.bl-part`, and moved there by `commit`: only
/// that part is ever moved or removed. What another program does to the files meanwhile isn't seen
/// at once, so this shelf doesn't tell what it holds.
#[derive(Drop)]
pub struct FolderShelf<R: Files + Drop> {
    alloc: Global,
    host: R,
    opened: Vec<NamedFile<R::File>>,
    staged: Option<PartFile<R::File>>,
    // under which files were staged
    names: Vec<String>,
    counts: Counts,
}

impl<R: Files + RandomSource + Drop> FolderShelf<R>
where
    R::File: AsFd,
{
    /// The files of the host's current folder, none of which is open yet.
    pub fn new(alloc: Global, host: R) -> Self
        ensures room { ⟦<FolderShelf<R> as Shelf>⟧.room result ≡ None }
        ensures history { ⟦<FolderShelf<R> as Shelf>⟧.history result ≡ no_history }
        ensures faults { ⟦<FolderShelf<R> as Shelf>⟧.faults result ≡ 0 }
        ensures misses { ⟦<FolderShelf<R> as Shelf>⟧.misses result ≡ 0 }
    {
        FolderShelf {
            alloc,
            host,
            opened: Vec::new(alloc),
            staged: None,
            names: Vec::new(alloc),
            counts: Counts {
                commits: 0,
                faults: 0,
                misses: 0,
            },
        }
    }
}

// The place of the file of this name.
fn position_of<F>(files: &[NamedFile<F>], name: &str) -> Option<usize>
    ensures { IfSome result (λ place. place < length files.now) }
{
    files.iter().position(|file| file.name.as_str() == name)
}

// Whether no file changed since it was opened.
fn are_unchanged<F: Read + Seek + OpenFile>(files: &[NamedFile<F>]) -> bool {
    files.iter().all(|file| file.opened.is_unchanged())
}

impl<R: Files + RandomSource + Drop> Shelf for FolderShelf<R>
where
    R::File: AsFd,
{
    ghost told = { λ s. None };

    ghost room = { λ s. option_map (λ part. part.room) s.staged };

    ghost history = { λ s. record { staged = map string_bytes s.names.items; commits = s.counts.commits } };

    ghost faults = { λ s. s.counts.faults };

    ghost misses = { λ s. s.counts.misses };

    ghost staged_with_room = { λ _. tt };

    fn size(&mut self, name: &str) -> Result<u64, ShelfFault> {
        let size = match position_of(&self.opened, name) {
            Some(place) => self.opened[place].opened.size(),
            None => match OpenedFile::open(&self.host, name) {
                Ok(opened) => {
                    let size = opened.size();
                    let name = String::from_str(self.alloc, name)?;
                    self.opened.push(NamedFile { name, opened })?;
                    size
                }
                Err(error) => return Err(self.counts.blame(&error)),
            },
        };
        if size > i64::MAX as u64 {
            return Err(self.counts.fail());
        }
        Ok(size)
    }

    fn read_at(&mut self, name: &str, at: u64, dst: &mut [u8]) -> Result<(), ShelfFault> {
        let read = match position_of(&self.opened, name) {
            Some(place) => self.opened[place].opened.read_at(at, dst),
            None => match OpenedFile::open(&self.host, name) {
                Ok(mut opened) => opened.read_at(at, dst),
                Err(error) => Err(error),
            },
        };
        match read {
            Ok(()) => Ok(()),
            Err(error) => Err(self.counts.blame(&error)),
        }
    }

    fn stage(&mut self, name: &str, total: u64) -> Result<(), ShelfFault> {
        let staged = String::from_str(self.alloc, name)?;
        self.names.push(staged)?;
        match PartFile::new(self.alloc, &self.host, name, total) {
            Ok(part) => {
                self.staged = Some(part);
                Ok(())
            }
            Err(error) => Err(self.counts.refuse(&error)),
        }
    }

    fn push(&mut self, bytes: &[u8]) -> Result<(), ShelfFault> {
        match &mut self.staged {
            None => Ok(()),
            Some(part) => match part.write(bytes) {
                Ok(()) => {
                    part.room -= bytes.len() as u64;
                    Ok(())
                }
                Err(_) => Err(self.counts.fail()),
            },
        }
    }

    fn commit(&mut self) -> Result<(), ShelfFault> {
        match self.staged.take() {
            None => unreachable!(),
            Some(part) => {
                if !are_unchanged(&self.opened) || part.replace(&self.host).is_err() {
                    part.remove(&self.host);
                    return Err(self.counts.fail());
                }
                self.opened.clear();
                self.counts.commits = self.counts.commits.saturating_add(1);
                match part.settle(&self.host) {
                    Ok(()) => Ok(()),
                    Err(_) => Err(self.counts.fail()),
                }
            }
        }
    }

    fn abandon(&mut self) {
        if let Some(part) = self.staged.take() {
            part.remove(&self.host);
        }
    }
}
