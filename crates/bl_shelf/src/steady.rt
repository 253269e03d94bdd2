// A shelf in memory that doesn't fail.
ghost use Rattle.std.specs.Prelude.{◌≡◌, ◌+◌, ◌<◌, ◌≤◌, Some, option_map};
ghost use Rattle.std.specs.Option.{ForSome};
ghost use Rattle.std.specs.Vec.{vec_len, vec_capacity};
ghost use Rattle.bl_shelf.specs.NamedBytes.{held_in, staged_of};

use crate::named_bytes::{NamedBytes, bytes_in};
use crate::{Shelf, ShelfFault};
use bl_num::{NoMemory, copy_part};
use std::alloc::Global;

/// A shelf in memory, whose calls fail only for want of memory.
#[derive(Drop)]
pub struct SteadyShelf {
    alloc: Global,
    // the newest first
    files: Vec<NamedBytes>,
    staged: Option<NamedBytes>,
    room: u64,
    // of all files that were staged
    names: Vec<Vec<u8>>,
    commits: u64,
    misses: u64,
    ghost bytes_fit: { ForSome staged (λ f. vec_len f.bytes + room ≤ vec_capacity f.bytes) },
    ghost file_fits: { ForSome staged (λ f. vec_len files < vec_capacity files) },
}

impl SteadyShelf {
    ghost use Rattle.std.specs.Prelude.{◌≡◌, None, OnOk, OnErr, option_copied};
    ghost use Rattle.bl_shelf.specs.Told.{empty_shelf, bytes_under, hold_in};
    ghost use Rattle.bl_shelf.specs.History.{no_history};
    ghost use Rattle.bl_shelf.specs.Steady.{steady_contents, steady_room, steady_history, steady_misses};

    /// A shelf without files.
    pub fn new(alloc: Global) -> Self
        ensures contents { steady_contents result ≡ empty_shelf }
        ensures room { steady_room result ≡ None }
        ensures history { steady_history result ≡ no_history }
        ensures misses { steady_misses result ≡ 0 }
    {
        SteadyShelf {
            alloc,
            files: Vec::new(alloc),
            staged: None,
            room: 0,
            names: Vec::new(alloc),
            commits: 0,
            misses: 0,
        }
    }

    /// Sets a name to the bytes, or changes nothing.
    pub fn hold(&mut self, name: &str, bytes: &[u8]) -> Result<(), NoMemory>
        ensures ok { OnOk result
            (steady_contents self.new ≡ hold_in name.now bytes.now (steady_contents self.old)) }
        ensures err { OnErr result (steady_contents self.new ≡ steady_contents self.old) }
        ensures room { steady_room self.new ≡ steady_room self.old }
        ensures history { steady_history self.new ≡ steady_history self.old }
        ensures misses { steady_misses self.new ≡ steady_misses self.old }
    {
        let name = Vec::from_slice(self.alloc, name.as_bytes())?;
        let bytes = Vec::from_slice(self.alloc, bytes)?;
        // one of them for the staged file
        self.files.reserve(2)?;
        self.files.insert(0, NamedBytes { name, bytes }).unwrap();
        Ok(())
    }

    /// The bytes held under a name.
    pub fn bytes_of(&self, name: &str) -> Option<&[u8]>
        ensures { option_copied result ≡ bytes_under name.now (steady_contents self.now) }
    {
        bytes_in(&self.files, name.as_bytes())
    }
}

impl Shelf for SteadyShelf {
    ghost use Rattle.std.specs.Prelude.{◌≡◌, ◌-◌, ◌^◌, ◌<◌, None, Ok, option_map, length, OnOk, OnErr, IfOk, IsSome, IsSomeAnd};
    ghost use Rattle.bl_shelf.specs.Told.{bytes_under, stage_in, push_in, commit_in, abandon_in};
    ghost use Rattle.bl_shelf.specs.Causes.{HasCause, misses_after};
    ghost use Rattle.bl_shelf.specs.Contents.{IsSizeOf, Reaches, AreBytesAt, IsOfBytes, IsAbsentExactly};
    ghost use Rattle.bl_shelf.specs.History.{with_stage, with_commit};
    ghost use Rattle.bl_shelf.specs.Steady.{steady_contents, steady_room, steady_history, steady_misses, steady_room-staged};

    ghost told = { λ s. Some (steady_contents s) };

    ghost room = { λ s. steady_room s };

    ghost history = { λ s. steady_history s };

    ghost faults = { λ s. 0 };

    ghost misses = { λ s. steady_misses s };

    ghost staged_with_room = { steady_room-staged };

    fn size(&mut self, name: &str) -> Result<u64, ShelfFault>
        ensures contents { steady_contents self.new ≡ steady_contents self.old }
        ensures room { steady_room self.new ≡ steady_room self.old }
        ensures history { steady_history self.new ≡ steady_history self.old }
        ensures misses { steady_misses self.new ≡ misses_after result (steady_misses self.old) }
        ensures cause { HasCause 0 0 (steady_misses self.old) (steady_misses self.new) result }
        ensures small { IfOk result (λ size. size < 2 ^ 63) }
        ensures size { IfOk result (IsSizeOf (Some (steady_contents self.old)) name.now) }
        ensures absent { IsAbsentExactly (Some (steady_contents self.old)) name.now result }
        ensures fault { OnErr result (result ≡ Err ShelfFault.Absent) }
    {
        match bytes_in(&self.files, name.as_bytes()) {
            None => {
                self.misses = self.misses.saturating_add(1);
                Err(ShelfFault::Absent)
            }
            Some(bytes) => Ok(bytes.len() as u64),
        }
    }

    fn read_at(&mut self, name: &str, at: u64, dst: &mut [u8]) -> Result<(), ShelfFault>
        requires { Reaches (Some (steady_contents self.old)) name.now (at + length dst.old) }
        ensures contents { steady_contents self.new ≡ steady_contents self.old }
        ensures room { steady_room self.new ≡ steady_room self.old }
        ensures history { steady_history self.new ≡ steady_history self.old }
        ensures misses { steady_misses self.new ≡ misses_after result (steady_misses self.old) }
        ensures cause { HasCause 0 0 (steady_misses self.old) (steady_misses self.new) result }
        ensures bytes { OnOk result
            (AreBytesAt (Some (steady_contents self.old)) name.now at dst.new) }
        ensures below { OnOk result (IsOfBytes (Some (steady_contents self.old)) name.now) }
        ensures absent { IsAbsentExactly (Some (steady_contents self.old)) name.now result }
        ensures fault { OnErr result (result ≡ Err ShelfFault.Absent) }
    {
        match bytes_in(&self.files, name.as_bytes()) {
            None => {
                self.misses = self.misses.saturating_add(1);
                Err(ShelfFault::Absent)
            }
            Some(bytes) => {
                copy_part(bytes, at, dst);
                Ok(())
            }
        }
    }

    fn stage(&mut self, name: &str, total: u64) -> Result<(), ShelfFault>
        requires { steady_room self.old ≡ None }
        ensures contents { OnOk result
            (steady_contents self.new ≡ stage_in name.now (steady_contents self.old)) }
        ensures room { OnOk result (steady_room self.new ≡ Some total) }
        ensures contents_err { OnErr result (steady_contents self.new ≡ steady_contents self.old) }
        ensures room_err { OnErr result (steady_room self.new ≡ None) }
        ensures history { OnOk result
            (steady_history self.new ≡ with_stage name.now (steady_history self.old)) }
        ensures history_err { OnErr result (steady_history self.new ≡ steady_history self.old) }
        ensures misses { steady_misses self.new ≡ steady_misses self.old }
        ensures fault { OnErr result (result ≡ Err ShelfFault.NoMemory) }
    {
        let staged_name = Vec::from_slice(self.alloc, name.as_bytes())?;
        let name = Vec::from_slice(self.alloc, name.as_bytes())?;
        let bytes = Vec::with_capacity(self.alloc, total as usize)?;
        self.files.reserve(1)?;
        self.names.push(staged_name)?;
        self.room = total;
        self.staged = Some(NamedBytes { name, bytes });
        Ok(())
    }

    fn push(&mut self, bytes: &[u8]) -> Result<(), ShelfFault>
        requires { IsSomeAnd (steady_room self.old) (λ room. length bytes.now ≤ room) }
        ensures contents { steady_contents self.new ≡ push_in bytes.now (steady_contents self.old) }
        ensures room { steady_room self.new
            ≡ option_map (λ room. room - length bytes.now) (steady_room self.old) }
        ensures history { steady_history self.new ≡ steady_history self.old }
        ensures misses { steady_misses self.new ≡ steady_misses self.old }
        ensures ok { result ≡ Ok tt }
    {
        if let Some(file) = &mut self.staged {
            file.bytes.extend_from_slice(bytes).unwrap();
            self.room -= bytes.len() as u64;
        }
        Ok(())
    }

    fn commit(&mut self) -> Result<(), ShelfFault>
        requires { IsSome (steady_room self.old) }
        ensures contents { steady_contents self.new ≡ commit_in (steady_contents self.old) }
        ensures room { steady_room self.new ≡ None }
        ensures history { steady_history self.new ≡ with_commit (steady_history self.old) }
        ensures misses { steady_misses self.new ≡ steady_misses self.old }
        ensures ok { result ≡ Ok tt }
    {
        if let Some(file) = self.staged.take() {
            self.files.insert(0, file).unwrap();
            self.commits = self.commits.saturating_add(1);
        }
        Ok(())
    }

    fn abandon(&mut self)
        ensures contents { steady_contents self.new ≡ abandon_in (steady_contents self.old) }
        ensures room { steady_room self.new ≡ None }
        ensures history { steady_history self.new ≡ steady_history self.old }
        ensures misses { steady_misses self.new ≡ steady_misses self.old }
    {
        self.staged = None;
    }
}
