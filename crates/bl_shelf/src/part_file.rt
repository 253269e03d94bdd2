// A file that is being written beside the one that it is to replace.
ghost use Rattle.std.specs.Prelude.{◌≡◌, IfOk};

use std::alloc::Global;
use std::fs::{Metadata, OpenFile, OpenOptions};
use std::io::{ErrorKind, Write};
use std::os::fd::AsFd;
use std::os::unix::fs::{MetadataExt, OpenOptionsExt, PermissionsExt, fchown};
use std::path::Path;
use std::random::RandomSource;
use std::rt::Files;
use std::{fs, io};

// The most links that lead from one to another, as Linux has it.
const MOST_LINKS: u32 = 40;

// How often a place is looked at, where two looks differ.
const MOST_LOOKS: u32 = 5;

// The longest name that a part's name shows. A name has room for 255 bytes.
const LONGEST_SHOWN: usize = 200;

// Where a file is to stand: its path, and what stands there now.
#[derive(Drop)]
struct Target {
    path: String,
    old: Option<Metadata>,
}

// A new file under a name of its own, and the path that it is to be moved to.
#[derive(Drop)]
pub(crate) struct PartFile<F> {
    path: String,
    target: String,
    file: F,
    pub room: u64,
}

// A path's folder and the name in it.
fn split_path(path: &str) -> (&str, &str) {
    match path.rsplit_once('/') {
        None => (".", path),
        Some(("", name)) => ("/", name),
        Some(parts) => parts,
    }
}

// The path that a name leads to through links, of which the last may lead to nothing.
fn path_behind<R: Files>(alloc: Global, host: &R, name: &str) -> io::Result<String> {
    let mut path = String::from_str(alloc, name)?;
    for _ in 0..MOST_LINKS {
        let Ok(link) = host.read_link(alloc, path.as_str()) else {
            return Ok(path);
        };
        let (folder, _) = split_path(path.as_str());
        path = Path::new(folder).join(alloc, link)?.into_string();
    }
    Err(io::Error::from(ErrorKind::FilesystemLoop))
}

// What is known of a file, where it is there.
fn if_found(looked: io::Result<Metadata>) -> io::Result<Option<Metadata>> {
    match looked {
        Ok(metadata) => Ok(Some(metadata)),
        Err(error) if error.kind() == ErrorKind::NotFound => Ok(None),
        Err(error) => Err(error),
    }
}

// The regular file that stands at a path, or nothing. The name that led there has to lead to the
// same. Another run may make a file between two looks, so they are repeated.
fn old_file<R: Files>(host: &R, name: &str, path: &str) -> io::Result<Option<Metadata>> {
    for _ in 0..MOST_LOOKS {
        let old = if_found(fs::symlink_metadata(host, path))?;
        let reached = if_found(fs::metadata(host, name))?;
        match (&old, &reached) {
            (None, None) => return Ok(None),
            (Some(here), Some(there)) if here.is_file() && there.is_file() => return Ok(old),
            _ => {}
        }
    }
    Err(io::Error::from(ErrorKind::InvalidInput))
}

// Where a file of this name is to stand: behind its links, in place of a regular file or of nothing.
fn target_of<R: Files>(alloc: Global, host: &R, name: &str) -> io::Result<Target> {
    let path = path_behind(alloc, host, name)?;
    let (_, last) = split_path(path.as_str());
    if last.is_empty() {
        return Err(io::Error::from(ErrorKind::InvalidInput));
    }
    let old = old_file(host, name, path.as_str())?;
    Ok(Target { path, old })
}

// A name beside the file that no other run has: with a random number, and `.bl-part` at its end.
fn part_path<R: RandomSource>(alloc: Global, host: &R, path: &str) -> io::Result<String> {
    let mut bytes = [0; 8];
    host.fill_bytes(&mut bytes)?;
    let number = u64::from_le_bytes(bytes);
    let (folder, name) = split_path(path);
    let shown = if name.len() > LONGEST_SHOWN { "" } else { name };
    Ok(format!(in alloc; "{folder}/{shown}-{number:016x}.bl-part")?)
}

// The rights to a file that replaces one. Where the system didn't let it have the group, everybody
// has what both the group and the others had.
fn rights_for(old: &Metadata, new: &Metadata) -> u32 {
    let mode = old.mode() & 0o777;
    if new.gid() == old.gid() {
        return mode;
    }
    let both = mode & (mode >> 3) & 0o7;
    (mode & 0o700) | (both << 3) | both
}

// Gives a new file the owner and the group of the one that it is to replace, where the system lets
// it, and then its rights.
fn take_after<F: OpenFile + AsFd>(file: &F, old: &Metadata) -> io::Result<()> {
    let group = Some(old.gid());
    if fchown(file, Some(old.uid()), group).is_err() {
        let _ = fchown(file, None, group);
    }
    let rights = rights_for(old, &file.metadata()?);
    let mut permissions = old.permissions();
    permissions.set_mode(rights);
    let _ = file.set_permissions(permissions);
    if file.metadata()?.mode() & 0o7777 == rights {
        Ok(())
    } else {
        Err(io::Error::from(ErrorKind::PermissionDenied))
    }
}

// Makes a new file. One that is to replace another is its owner's alone until it is as that one.
fn create<R: Files>(host: &R, path: &str, old: &Option<Metadata>) -> io::Result<R::File>
where
    R::File: AsFd,
{
    let mut options = OpenOptions::new();
    options.write(true).create_new(true);
    let Some(old) = old else {
        return options.open(host, path);
    };
    options.mode(0o600);
    let file = options.open(host, path)?;
    match take_after(&file, old) {
        Ok(()) => Ok(file),
        Err(error) => {
            let _ = fs::remove_file(host, path);
            Err(error)
        }
    }
}

// Waits until a path's folder is on the disk, where it may be read and its file system does that.
fn sync_folder<R: Files>(host: &R, path: &str) -> io::Result<()> {
    let (folder, _) = split_path(path);
    let synced = match fs::open(host, folder) {
        Ok(opened) => opened.sync_all(),
        Err(error) => Err(error),
    };
    match synced {
        Ok(()) => Ok(()),
        Err(error) => match error.kind() {
            ErrorKind::PermissionDenied | ErrorKind::InvalidInput | ErrorKind::Unsupported => {
                Ok(())
            }
            _ => Err(error),
        },
    }
}

impl<F: Write + OpenFile + AsFd> PartFile<F> {
    // Makes a part beside the file that a name leads to.
    pub fn new<R: Files<File = F> + RandomSource>(
        alloc: Global,
        host: &R,
        name: &str,
        room: u64,
    ) -> io::Result<Self>
        ensures { IfOk result (λ part. part.room ≡ room) }
    {
        let target = target_of(alloc, host, name)?;
        let path = part_path(alloc, host, target.path.as_str())?;
        let file = create(host, path.as_str(), &target.old)?;
        Ok(PartFile {
            path,
            target: target.path,
            file,
            room,
        })
    }

    // Adds bytes.
    pub fn write(&mut self, bytes: &[u8]) -> io::Result<()>
        ensures { self.new.room ≡ self.old.room }
    {
        self.file.write_all(bytes)
    }

    // Waits until the disk has the bytes, and moves the part to its place.
    pub fn replace<R: Files<File = F>>(&self, host: &R) -> io::Result<()> {
        self.file.sync_all()?;
        fs::rename(host, self.path.as_str(), self.target.as_str())
    }

    // Waits until the disk has the new name.
    pub fn settle<R: Files<File = F>>(&self, host: &R) -> io::Result<()> {
        sync_folder(host, self.target.as_str())
    }

    // Removes the part.
    pub fn remove<R: Files<File = F>>(&self, host: &R) {
        let _ = fs::remove_file(host, self.path.as_str());
    }
}
