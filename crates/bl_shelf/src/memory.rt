// A shelf in memory, some of whose calls fail.
ghost use Rattle.std.specs.Prelude.{Some};

use crate::meter::Meter;
use crate::{Shelf, ShelfFault, SteadyShelf};
use bl_num::NoMemory;
use std::alloc::Global;

/// A shelf in memory. Its calls fail where it is told, and for want of memory.
#[derive(Drop)]
pub struct MemoryShelf {
    shelf: SteadyShelf,
    meter: Meter,
    takes_effect: bool,
}

impl MemoryShelf {
    ghost use Rattle.std.specs.Prelude.{◌≡◌, None, OnOk, OnErr, option_copied};
    ghost use Rattle.bl_shelf.specs.Told.{empty_shelf, bytes_under, hold_in};
    ghost use Rattle.bl_shelf.specs.History.{no_history};
    ghost use Rattle.bl_shelf.specs.Memory.{memory_contents, memory_room, memory_history, memory_fails, memory_takes_effect, memory_calls, memory_faults, memory_misses, KeepsCounts};

    /// The calls of `size`, `read_at`, `stage`, `push` and `commit` whose numbers are in the list
    /// fail. They are counted together, from 0. A commit that fails takes effect, or not.
    pub fn new(alloc: Global, fails: Vec<u64>, takes_effect: bool) -> Self
        ensures contents { memory_contents result ≡ empty_shelf }
        ensures room { memory_room result ≡ None }
        ensures history { memory_history result ≡ no_history }
        ensures fails { memory_fails result ≡ fails.items }
        ensures takes_effect { memory_takes_effect result ≡ takes_effect }
        ensures calls { memory_calls result ≡ 0 }
        ensures faults { memory_faults result ≡ 0 }
        ensures misses { memory_misses result ≡ 0 }
    {
        MemoryShelf {
            shelf: SteadyShelf::new(alloc),
            meter: Meter::new(fails),
            takes_effect,
        }
    }

    /// Sets a name to the bytes, or changes nothing.
    pub fn hold(&mut self, name: &str, bytes: &[u8]) -> Result<(), NoMemory>
        ensures ok { OnOk result
            (memory_contents self.new ≡ hold_in name.now bytes.now (memory_contents self.old)) }
        ensures err { OnErr result (memory_contents self.new ≡ memory_contents self.old) }
        ensures room { memory_room self.new ≡ memory_room self.old }
        ensures history { memory_history self.new ≡ memory_history self.old }
        ensures counts { KeepsCounts self.old self.new }
    {
        self.shelf.hold(name, bytes)
    }

    /// The bytes held under a name.
    pub fn bytes_of(&self, name: &str) -> Option<&[u8]>
        ensures { option_copied result ≡ bytes_under name.now (memory_contents self.now) }
    {
        self.shelf.bytes_of(name)
    }
}

impl Shelf for MemoryShelf {
    ghost use Rattle.std.specs.Prelude.{◌≡◌, ◌↔◌, ◌≢◌, ◌+◌, ◌-◌, ◌^◌, ◌<◌, ◌≤◌, None, option_map, length, IsErrOf, OnOk, OnErr, IfOk, IsSome, IsSomeAnd};
    ghost use Rattle.bl_shelf.specs.Told.{bytes_under, stage_in, push_in, commit_in, abandon_in};
    ghost use Rattle.bl_shelf.specs.Causes.{HasCause};
    ghost use Rattle.bl_shelf.specs.Contents.{IsSizeOf, Reaches, AreBytesAt, IsOfBytes, IsAbsentExactly};
    ghost use Rattle.bl_shelf.specs.Steady.{steady_room-staged};
    ghost use Rattle.bl_shelf.specs.History.{with_stage, with_commit};
    ghost use Rattle.bl_shelf.specs.Memory.{memory_contents, memory_room, memory_history, failed_commit_history, memory_takes_effect, memory_faults, memory_misses, failed_commit_in, IsDue, KeepsCounts, CountsCall};

    ghost told = { λ s. Some (memory_contents s) };

    ghost room = { λ s. memory_room s };

    ghost history = { λ s. memory_history s };

    ghost faults = { λ s. memory_faults s };

    ghost misses = { λ s. memory_misses s };

    ghost staged_with_room = { λ s. steady_room-staged s.shelf };

    fn size(&mut self, name: &str) -> Result<u64, ShelfFault>
        ensures contents { memory_contents self.new ≡ memory_contents self.old }
        ensures room { memory_room self.new ≡ memory_room self.old }
        ensures history { memory_history self.new ≡ memory_history self.old }
        ensures small { IfOk result (λ size. size < 2 ^ 63) }
        ensures size { IfOk result (IsSizeOf (Some (memory_contents self.old)) name.now) }
        ensures absent { IsAbsentExactly (Some (memory_contents self.old)) name.now result }
        ensures failed { IsErrOf result ShelfFault.Failed
            ↔ (IsDue self.old × IsSome (bytes_under name.now (memory_contents self.old))) }
        ensures no_memory { result ≢ Err ShelfFault.NoMemory }
        ensures counts { CountsCall self.old self.new result }
        ensures cause { HasCause (memory_faults self.old) (memory_faults self.new)
            (memory_misses self.old) (memory_misses self.new) result }
    {
        let due = self.meter.is_due();
        let size = self.shelf.size(name)?;
        if due {
            self.meter.fail();
            return Err(ShelfFault::Failed);
        }
        Ok(size)
    }

    fn read_at(&mut self, name: &str, at: u64, dst: &mut [u8]) -> Result<(), ShelfFault>
        requires { Reaches (Some (memory_contents self.old)) name.now (at + length dst.old) }
        ensures contents { memory_contents self.new ≡ memory_contents self.old }
        ensures room { memory_room self.new ≡ memory_room self.old }
        ensures history { memory_history self.new ≡ memory_history self.old }
        ensures bytes { OnOk result
            (AreBytesAt (Some (memory_contents self.old)) name.now at dst.new) }
        ensures below { OnOk result (IsOfBytes (Some (memory_contents self.old)) name.now) }
        ensures absent { IsAbsentExactly (Some (memory_contents self.old)) name.now result }
        ensures failed { IsErrOf result ShelfFault.Failed
            ↔ (IsDue self.old × IsSome (bytes_under name.now (memory_contents self.old))) }
        ensures no_memory { result ≢ Err ShelfFault.NoMemory }
        ensures counts { CountsCall self.old self.new result }
        ensures cause { HasCause (memory_faults self.old) (memory_faults self.new)
            (memory_misses self.old) (memory_misses self.new) result }
    {
        let due = self.meter.is_due();
        self.shelf.read_at(name, at, dst)?;
        if due {
            self.meter.fail();
            return Err(ShelfFault::Failed);
        }
        Ok(())
    }

    fn stage(&mut self, name: &str, total: u64) -> Result<(), ShelfFault>
        requires { memory_room self.old ≡ None }
        ensures contents { OnOk result
            (memory_contents self.new ≡ stage_in name.now (memory_contents self.old)) }
        ensures room { OnOk result (memory_room self.new ≡ Some total) }
        ensures contents_err { OnErr result (memory_contents self.new ≡ memory_contents self.old) }
        ensures room_err { OnErr result (memory_room self.new ≡ None) }
        ensures history { OnOk result
            (memory_history self.new ≡ with_stage name.now (memory_history self.old)) }
        ensures history_err { OnErr result (memory_history self.new ≡ memory_history self.old) }
        ensures failed { IsErrOf result ShelfFault.Failed ↔ IsDue self.old }
        ensures present { result ≢ Err ShelfFault.Absent }
        ensures counts { CountsCall self.old self.new result }
        ensures cause { HasCause (memory_faults self.old) (memory_faults self.new)
            (memory_misses self.old) (memory_misses self.new) result }
    {
        if self.meter.is_due() {
            self.meter.fail();
            return Err(ShelfFault::Failed);
        }
        self.shelf.stage(name, total)
    }

    fn push(&mut self, bytes: &[u8]) -> Result<(), ShelfFault>
        requires { IsSomeAnd (memory_room self.old) (λ room. length bytes.now ≤ room) }
        ensures contents { OnOk result
            (memory_contents self.new ≡ push_in bytes.now (memory_contents self.old)) }
        ensures room { OnOk result (memory_room self.new
            ≡ option_map (λ room. room - length bytes.now) (memory_room self.old)) }
        ensures history { memory_history self.new ≡ memory_history self.old }
        ensures held_err { OnErr result
            ((memory_contents self.new).held ≡ (memory_contents self.old).held) }
        ensures failed { IsErrOf result ShelfFault.Failed ↔ IsDue self.old }
        ensures fault { OnErr result (result ≡ Err ShelfFault.Failed) }
        ensures counts { CountsCall self.old self.new result }
        ensures cause { HasCause (memory_faults self.old) (memory_faults self.new)
            (memory_misses self.old) (memory_misses self.new) result }
    {
        if self.meter.is_due() {
            self.meter.fail();
            return Err(ShelfFault::Failed);
        }
        self.shelf.push(bytes)
    }

    fn commit(&mut self) -> Result<(), ShelfFault>
        requires { IsSome (memory_room self.old) }
        ensures contents { OnOk result
            (memory_contents self.new ≡ commit_in (memory_contents self.old)) }
        ensures contents_err { OnErr result (memory_contents self.new
            ≡ failed_commit_in (memory_takes_effect self.old) (memory_contents self.old)) }
        ensures history { OnOk result
            (memory_history self.new ≡ with_commit (memory_history self.old)) }
        ensures history_err { OnErr result (memory_history self.new
            ≡ failed_commit_history (memory_takes_effect self.old) (memory_history self.old)) }
        ensures room { memory_room self.new ≡ None }
        ensures failed { IsErrOf result ShelfFault.Failed ↔ IsDue self.old }
        ensures fault { OnErr result (result ≡ Err ShelfFault.Failed) }
        ensures counts { CountsCall self.old self.new result }
        ensures cause { HasCause (memory_faults self.old) (memory_faults self.new)
            (memory_misses self.old) (memory_misses self.new) result }
    {
        if !self.meter.is_due() {
            return self.shelf.commit();
        }
        self.meter.fail();
        if self.takes_effect {
            self.shelf.commit()?;
        } else {
            self.shelf.abandon();
        }
        Err(ShelfFault::Failed)
    }

    fn abandon(&mut self)
        ensures contents { memory_contents self.new ≡ abandon_in (memory_contents self.old) }
        ensures room { memory_room self.new ≡ None }
        ensures history { memory_history self.new ≡ memory_history self.old }
        ensures counts { KeepsCounts self.old self.new }
    {
        self.shelf.abandon();
    }
}
