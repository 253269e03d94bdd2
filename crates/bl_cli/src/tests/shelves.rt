// Shelves and sinks: in memory, the current folder, and standard output.
ghost use Rattle.std.specs.Prelude.{◌≡◌, None, Some, OnOk};

use bl_num::NoMemory;
use bl_shelf::{
    FolderShelf, MemoryShelf, MemorySink, Shelf, ShelfFault, Sink, SinkFault, StdoutSink,
    SteadyShelf,
};
use std::alloc::Global;
use std::cell::Cell;
use std::fmt::Display;
use std::os::fd::AsFd;
use std::os::unix::fs::symlink;
use std::random::RandomSource;
use std::rt::Files;
use std::{fs, io};

// Stages bytes under a name, in two pushes.
fn stage_all<S: Shelf>(shelf: &mut S, name: &str, bytes: &[u8]) -> Result<(), ShelfFault>
    requires { S.room shelf.old ≡ None }
    ensures { OnOk result (S.room shelf.new ≡ Some 0) }
{
    let (first, second) = bytes.split_at(bytes.len() / 2);
    shelf.stage(name, bytes.len() as u64)?;
    shelf.push(first)?;
    shelf.push(second)
}

// Stores bytes under a name.
fn store<S: Shelf>(shelf: &mut S, name: &str, bytes: &[u8]) -> Result<(), ShelfFault>
    requires { S.room shelf.old ≡ None }
    ensures { OnOk result (S.room shelf.new ≡ None) }
{
    stage_all(shelf, name, bytes)?;
    shelf.commit()
}

// So many bytes of a file from a place on.
fn part_of<S: Shelf>(
    alloc: Global,
    shelf: &mut S,
    name: &str,
    at: u64,
    len: u64,
) -> Result<Vec<u8>, ShelfFault>
    ensures { S.room shelf.new ≡ S.room shelf.old }
{
    let size = shelf.size(name)?;
    if at > size || size - at < len {
        return Err(ShelfFault::Failed);
    }
    let mut part = vec![in alloc; 0; len as usize]?;
    shelf.read_at(name, at, &mut part)?;
    Ok(part)
}

// Whether a name is held with these bytes, read whole and without the first and the last.
fn holds<S: Shelf>(alloc: Global, shelf: &mut S, name: &str, bytes: &[u8]) -> bool
    ensures { S.room shelf.new ≡ S.room shelf.old }
{
    let len = bytes.len() as u64;
    let whole = part_of(alloc, shelf, name, 0, len);
    let inner = part_of(alloc, shelf, name, 1, len.saturating_sub(2));
    let size = shelf.size(name);
    match (whole, inner, bytes) {
        (Ok(whole), Ok(inner), [_, within @ .., _]) => {
            size == Ok(len) && whole.as_slice() == bytes && inner.as_slice() == within
        }
        _ => false,
    }
}

fn is_absent<S: Shelf>(shelf: &mut S, name: &str) -> bool
    ensures { S.room shelf.new ≡ S.room shelf.old }
{
    shelf.size(name) == Err(ShelfFault::Absent)
}

// Whether a shelf keeps a file that it didn't hold: what is staged isn't seen, what is held stays
// until another is committed, and what is abandoned is forgotten.
fn keeps_a_file<S: Shelf>(alloc: Global, shelf: &mut S, name: &str) -> Result<bool, ShelfFault>
    requires { S.room shelf.old ≡ None }
    ensures { OnOk result (S.room shelf.new ≡ None) }
{
    let new = is_absent(shelf, name);
    stage_all(shelf, name, b"abcdef")?;
    let hidden = is_absent(shelf, name);
    shelf.commit()?;
    let stored = holds(alloc, shelf, name, b"abcdef");
    stage_all(shelf, name, b"xy")?;
    let kept = holds(alloc, shelf, name, b"abcdef");
    shelf.abandon();
    let still_kept = holds(alloc, shelf, name, b"abcdef");
    store(shelf, name, b"yz")?;
    let replaced = holds(alloc, shelf, name, b"yz");
    Ok(new && hidden && stored && kept && still_kept && replaced)
}

// Whether a steady shelf keeps a file so.
fn steadily_keeps_a_file(alloc: Global) -> Result<bool, ShelfFault> {
    let mut shelf = SteadyShelf::new(alloc);
    keeps_a_file(alloc, &mut shelf, "a")
}

// Whether a name has these bytes.
fn has(shelf: &MemoryShelf, name: &str, bytes: Option<&[u8]>) -> bool {
    shelf.bytes_of(name) == bytes
}

// Whether a shelf of which no call fails keeps a file so, and has its last bytes.
fn keeps_last_bytes(alloc: Global) -> Result<bool, ShelfFault> {
    let mut shelf = MemoryShelf::new(alloc, Vec::new(alloc), false);
    let kept = keeps_a_file(alloc, &mut shelf, "a")?;
    Ok(kept && has(&shelf, "a", Some(b"yz")) && has(&shelf, "b", None))
}

#[test]
fn keeps_files_in_memory(rt: HostRuntime) {
    assert_eq!(rt; steadily_keeps_a_file(rt.alloc()), Ok(true));
    assert_eq!(rt; keeps_last_bytes(rt.alloc()), Ok(true));
}

// Copies the first two bytes of `a` to `b`, which takes five calls, and counts those that are done.
fn copy<S: Shelf>(shelf: &mut S, done: &mut u64) -> Result<(), ShelfFault>
    requires { S.room shelf.old ≡ None }
{
    let mut part = [0u8; 2];
    let size = shelf.size("a")?;
    *done = 1;
    if size < 2 {
        return Err(ShelfFault::Absent);
    }
    shelf.read_at("a", 0, &mut part)?;
    *done = 2;
    shelf.stage("b", 2)?;
    *done = 3;
    shelf.push(&part)?;
    *done = 4;
    shelf.commit()?;
    *done = 5;
    Ok(())
}

// What a copy to `b` ends with on a shelf whose call of this number fails, how many calls are done
// then, and whether `b` has the bytes.
fn copied(
    alloc: Global,
    failing: u64,
    takes_effect: bool,
) -> Result<(Result<(), ShelfFault>, u64, bool), NoMemory> {
    let mut shelf = MemoryShelf::new(alloc, vec![in alloc; failing]?, takes_effect);
    shelf.hold("a", b"abc")?;
    let mut done = 0;
    let ended = copy(&mut shelf, &mut done);
    Ok((ended, done, has(&shelf, "b", Some(b"ab"))))
}

#[test]
fn fails_where_it_is_told(rt: HostRuntime) {
    let failed = Err(ShelfFault::Failed);
    for (failing, takes_effect, want) in [
        (0, true, (failed, 0, false)),
        (1, true, (failed, 1, false)),
        (2, true, (failed, 2, false)),
        (3, true, (failed, 3, false)),
        (4, true, (failed, 4, true)),
        (4, false, (failed, 4, false)),
        (5, false, (Ok(()), 5, true)),
    ] {
        assert_eq!(rt; copied(rt.alloc(), failing, takes_effect), Ok(want));
    }
}

// How many names in a folder end as those of parts do.
fn parts_in<R: Files + Alloc + Copy + Drop>(host: &R, folder: &str) -> io::Result<usize> {
    let mut count = 0usize;
    for entry in fs::read_dir(host, folder)? {
        let entry = entry?;
        if entry.file_name().as_bytes().ends_with(b".bl-part") {
            count = count.saturating_add(1);
        }
    }
    Ok(count)
}

// Whether a folder has so many parts.
fn has_parts<R: Files + Alloc + Copy + Drop>(host: &R, folder: &str, wanted: usize) -> bool {
    match parts_in(host, folder) {
        Ok(count) => count == wanted,
        Err(_) => false,
    }
}

// Whether a file is staged as one part beside its name, until it is abandoned.
fn stages_beside<S: Shelf, R: Files + Alloc + Copy + Drop>(
    host: &R,
    shelf: &mut S,
    folder: &str,
    name: &str,
) -> Result<bool, ShelfFault>
    requires { S.room shelf.old ≡ None }
{
    let none = has_parts(host, folder, 0);
    stage_all(shelf, name, b"abcdef")?;
    let one = has_parts(host, folder, 1);
    shelf.abandon();
    Ok(none && one && has_parts(host, folder, 0))
}

// Whether a shelf that tells nothing fails where a file ends too early, and where a name isn't a file's.
fn fails_to_read<S: Shelf>(shelf: &mut S, name: &str) -> bool
    requires { S.told shelf.old ≡ None }
{
    let mut part = [0; 2];
    let past = shelf.read_at(name, 1, &mut part) == Err(ShelfFault::Failed);
    past && shelf.size(".") == Err(ShelfFault::Failed)
}

// Whether a shelf keeps a file so in a folder that is made.
fn keeps_files<S: Shelf, R: Files + Alloc + Copy + Drop>(
    alloc: Global,
    host: &R,
    shelf: &mut S,
    folder: &str,
    name: &str,
) -> Result<bool, ShelfFault>
    requires { S.room shelf.old ≡ None }
{
    let made = fs::create_dir(host, folder).is_ok();
    let kept = keeps_a_file(alloc, shelf, name)?;
    let beside = stages_beside(host, shelf, folder, name)?;
    Ok(made && kept && beside)
}

// Whether the shelf of a folder does so, and fails to read what it can't.
fn folder_keeps_files<R: Files + RandomSource + Alloc + Copy + Drop>(
    alloc: Global,
    host: R,
) -> Result<bool, ShelfFault>
where
    R::File: AsFd,
{
    let folder = "kept_by_folder_shelf";
    let name = "kept_by_folder_shelf/file";
    let mut shelf = FolderShelf::new(alloc, host);
    let kept = keeps_files(alloc, &host, &mut shelf, folder, name)?;
    Ok(kept && fails_to_read(&mut shelf, name) && fs::remove_dir_all(&host, folder).is_ok())
}

#[test]
fn keeps_files_in_the_folder(rt: HostRuntime) {
    assert_eq!(rt; folder_keeps_files(rt.alloc(), rt), Ok(true));
}

// Whether a name is that of a link.
fn is_link<R: Files>(host: &R, name: &str) -> bool {
    match fs::symlink_metadata(host, name) {
        Ok(metadata) => metadata.is_symlink(),
        Err(_) => false,
    }
}

// Whether a file that is named as a part is, and a link, stay as they are in a folder that is made
// and removed, and nothing more is left there.
fn leaves_others<S: Shelf, R: Files + Alloc + Copy + Drop>(
    alloc: Global,
    host: &R,
    shelf: &mut S,
) -> Result<bool, ShelfFault>
    requires { S.room shelf.old ≡ None }
{
    let folder = "others_of_folder_shelf";
    let name = "others_of_folder_shelf/file";
    let part = "others_of_folder_shelf/file.bl-part";
    let link = "others_of_folder_shelf/link";
    let made = fs::create_dir(host, folder).is_ok()
        && fs::write(host, part, "precious").is_ok()
        && symlink(host, "file", link).is_ok();
    store(shelf, name, b"abcdef")?;
    let kept = holds(alloc, shelf, part, b"precious");
    store(shelf, link, b"ghijkl")?;
    let followed = holds(alloc, shelf, name, b"ghijkl") && is_link(host, link);
    let left = made && kept && followed && has_parts(host, folder, 1);
    Ok(left && fs::remove_dir_all(host, folder).is_ok())
}

fn folder_leaves_others<R: Files + RandomSource + Alloc + Copy + Drop>(
    alloc: Global,
    host: R,
) -> Result<bool, ShelfFault>
where
    R::File: AsFd,
{
    let mut shelf = FolderShelf::new(alloc, host);
    leaves_others(alloc, &host, &mut shelf)
}

#[test]
fn leaves_others_in_the_folder(rt: HostRuntime) {
    assert_eq!(rt; folder_leaves_others(rt.alloc(), rt), Ok(true));
}

// Whether nothing can be staged under a name.
fn refuses<S: Shelf>(shelf: &mut S, name: &str) -> bool
    requires { S.room shelf.old ≡ None }
    ensures { S.room shelf.new ≡ None }
{
    let refused = shelf.stage(name, 1) == Err(ShelfFault::Failed);
    shelf.abandon();
    refused
}

// Whether nothing but a file's name can be staged in a folder that is made and removed.
fn stages_only_files<S: Shelf, R: Files + Alloc + Copy + Drop>(host: &R, shelf: &mut S) -> bool
    requires { S.room shelf.old ≡ None }
{
    let folder = "staged_by_folder_shelf";
    let made = fs::create_dir(host, folder).is_ok();
    let itself = refuses(shelf, folder);
    let inside = refuses(shelf, "staged_by_folder_shelf/.");
    let behind = refuses(shelf, "staged_by_folder_shelf/file/");
    let below = refuses(shelf, "staged_by_folder_shelf/no/file");
    let none = itself && inside && behind && below && has_parts(host, folder, 0);
    made && none && fs::remove_dir(host, folder).is_ok()
}

fn folder_stages_only_files<R: Files + RandomSource + Alloc + Copy + Drop>(
    alloc: Global,
    host: R,
) -> bool
where
    R::File: AsFd,
{
    let mut shelf = FolderShelf::new(alloc, host);
    stages_only_files(&host, &mut shelf)
}

#[test]
fn stages_only_files_in_the_folder(rt: HostRuntime) {
    assert!(rt; folder_stages_only_files(rt.alloc(), rt));
}

// Whether a commit fails where a folder has the name by then.
fn fails_over_a_folder<S: Shelf, R: Files>(
    host: &R,
    shelf: &mut S,
    name: &str,
) -> Result<bool, ShelfFault>
    requires { S.room shelf.old ≡ None }
    ensures { OnOk result (S.room shelf.new ≡ None) }
{
    stage_all(shelf, name, b"abcdef")?;
    let made = fs::create_dir(host, name).is_ok();
    let failed = shelf.commit() == Err(ShelfFault::Failed);
    Ok(made && failed && fs::remove_dir(host, name).is_ok())
}

// Whether a commit fails and leaves what was held, where a file changed since its size was told.
fn fails_after_a_change<S: Shelf, R: Files>(
    alloc: Global,
    host: &R,
    shelf: &mut S,
    name: &str,
    input: &str,
) -> Result<bool, ShelfFault>
    requires { S.room shelf.old ≡ None }
{
    store(shelf, name, b"abcdef")?;
    store(shelf, input, b"ghi")?;
    let size = shelf.size(input)?;
    let changed = fs::write(host, input, "ghij").is_ok();
    let failed = store(shelf, name, b"ghi") == Err(ShelfFault::Failed);
    Ok(size == 3 && changed && failed && holds(alloc, shelf, name, b"abcdef"))
}

// Whether no part is left where commits fail, in a folder that is made and removed.
fn leaves_no_part<S: Shelf, R: Files + Alloc + Copy + Drop>(
    alloc: Global,
    host: &R,
    shelf: &mut S,
) -> Result<bool, ShelfFault>
    requires { S.room shelf.old ≡ None }
{
    let folder = "left_by_folder_shelf";
    let name = "left_by_folder_shelf/file";
    let made = fs::create_dir(host, folder).is_ok();
    let over = fails_over_a_folder(host, shelf, name)? && has_parts(host, folder, 0);
    let after = fails_after_a_change(alloc, host, shelf, name, "left_by_folder_shelf/input")?;
    let failed = made && over && after && has_parts(host, folder, 0);
    Ok(failed && fs::remove_dir_all(host, folder).is_ok())
}

fn folder_leaves_no_part<R: Files + RandomSource + Alloc + Copy + Drop>(
    alloc: Global,
    host: R,
) -> Result<bool, ShelfFault>
where
    R::File: AsFd,
{
    let mut shelf = FolderShelf::new(alloc, host);
    leaves_no_part(alloc, &host, &mut shelf)
}

#[test]
fn leaves_no_part_in_the_folder(rt: HostRuntime) {
    assert_eq!(rt; folder_leaves_no_part(rt.alloc(), rt), Ok(true));
}

// An output that takes one byte at a time, unless it is given all to write, and counts what it took.
#[derive(Drop)]
struct SlowOutput {
    taken: Cell<usize>,
}

impl Print for SlowOutput {
    fn print<D: Display + Drop>(&self, _value: D) -> io::Result<()> {
        Ok(())
    }

    fn println<D: Display + Drop>(&self, _value: D) -> io::Result<()> {
        Ok(())
    }

    fn write_all(&self, bytes: &[u8]) -> io::Result<()> {
        self.taken.set(self.taken.get().saturating_add(bytes.len()));
        Ok(())
    }

    fn write_some(&self, bytes: &[u8]) -> io::Result<usize> {
        let count = bytes.len().min(1);
        self.taken.set(self.taken.get().saturating_add(count));
        Ok(count)
    }
}

#[test]
fn puts_all_bytes(rt: HostRuntime) {
    let slow = SlowOutput {
        taken: Cell::new(0),
    };
    assert_eq!(rt; StdoutSink::new(&slow).put(b"abcdef"), Ok(()));
    assert_eq!(rt; slow.taken.get(), 6);
}

// What three puts answer.
fn puts<O: Sink>(out: &mut O) -> [Result<(), SinkFault>; 3] {
    [out.put(b"ab"), out.put(b"cd"), out.put(b"ef\n")]
}

#[test]
fn puts_where_it_is_told(rt: HostRuntime) -> Result<(), NoMemory> {
    let mut sink = MemorySink::new(rt.alloc(), vec![in rt.alloc(); 1u64]?);
    assert_eq!(rt; puts(&mut sink), [Ok(()), Err(SinkFault::Failed), Ok(())]);
    assert_eq!(rt; sink.bytes(), b"abef\n".as_slice());
    // Whether standard output takes all bytes is seen by the program's own run.
    assert_eq!(rt; puts(&mut StdoutSink::new(rt)), [Ok(()), Ok(()), Ok(())]);
    Ok(())
}
