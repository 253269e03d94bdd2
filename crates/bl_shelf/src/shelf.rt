// A shelf of named files.
ghost use Rattle.std.specs.Prelude.{◌≡◌, ◌⊎◌, ◌≢◌, ◌-◌, ◌+◌, ◌<◌, ◌≤◌, ◌^◌, ℕ, length, Option, Some, None, option_map, is_some, IsSome, IsSomeAnd, IfSome, IfOk, OnOk, OnErr};
ghost use Rattle.bl_shelf.specs.Causes.{HasCause};
ghost use Rattle.bl_shelf.specs.Frames.{KeepsAs};
ghost use Rattle.bl_shelf.specs.History.{History, with_stage, with_commit, MayBeCommitted};
ghost use Rattle.bl_shelf.specs.Told.{Told, held_of, stage_in, push_in, commit_in, abandon_in};
ghost use Rattle.bl_shelf.specs.Contents.{IsSizeOf, Reaches, AreBytesAt, IsOfBytes, IsAbsentExactly};
ghost use Rattle.bl_shelf.specs.declared.shelf.ShelfFault.TheVariants.{NoMemory};

use std::alloc::{AllocError, AllocFailed};
use thiserror::Error;

/// Why a shelf refuses a call.
#[derive(Clone, Copy, Debug, PartialEq, Eq, Error)]
pub enum ShelfFault {
    #[error("the file isn't there")]
    Absent,
    #[error("a device failed")]
    Failed,
    #[error("out of memory")]
    NoMemory,
}

impl From<AllocError> for ShelfFault {
    ghost from_gives = { λ _ e. e ≡ NoMemory };

    fn from(_e: AllocError) -> ShelfFault {
        ShelfFault::NoMemory
    }
}

impl<T: Drop> From<AllocFailed<T>> for ShelfFault {
    ghost from_gives = { λ _ e. e ≡ NoMemory };

    fn from(_e: AllocFailed<T>) -> ShelfFault {
        ShelfFault::NoMemory
    }
}

/// Files by their names, and at most one that is being written. A file is written in steps:
/// `stage`, then `push` as often as is needed, then `commit`, before which nobody sees it.
///
/// `stage` takes all the memory, so `push`, `commit` and `read_at` take none.
pub trait Shelf {
    /// The files that are held and the one that is staged, where the shelf tells them.
    ghost told: { Self → Option Told };

    /// How many bytes may still be pushed: none where nothing is staged.
    ghost room: { Self → Option ℕ };

    /// What the shelf was asked to change so far.
    ghost history: { Self → History };

    /// How often a device failed.
    ghost faults: { Self → ℕ };

    /// How often a file wasn't there.
    ghost misses: { Self → ℕ };

    /// The number of the file's bytes.
    fn size(&mut self, name: &str) -> Result<u64, ShelfFault>
        ensures keeps { KeepsAs told room history faults misses self.old self.new }
        ensures cause { HasCause (faults self.old) (faults self.new)
            (misses self.old) (misses self.new) result }
        ensures small { IfOk result (λ size. size < 2 ^ 63) }
        ensures size { IfOk result (IsSizeOf (told self.old) name.now) }
        ensures absent { IsAbsentExactly (told self.old) name.now result };

    /// Fills all of `dst` with the file's bytes from the place `at` on.
    fn read_at(&mut self, name: &str, at: u64, dst: &mut [u8]) -> Result<(), ShelfFault>
        requires { Reaches (told self.old) name.now (at + length dst.old) }
        ensures keeps { KeepsAs told room history faults misses self.old self.new }
        ensures cause { HasCause (faults self.old) (faults self.new)
            (misses self.old) (misses self.new) result }
        ensures bytes { OnOk result (AreBytesAt (told self.old) name.now at dst.new) }
        ensures below { OnOk result (IsOfBytes (told self.old) name.now) }
        ensures absent { IsAbsentExactly (told self.old) name.now result }
        ensures no_memory { result ≢ Err ShelfFault.NoMemory };

    /// Begins a file of at most `total` bytes.
    fn stage(&mut self, name: &str, total: u64) -> Result<(), ShelfFault>
        requires { room self.old ≡ None }
        ensures told { OnOk result
            (told self.new ≡ option_map (stage_in name.now) (told self.old)) }
        ensures room { OnOk result (room self.new ≡ Some total) }
        ensures history { OnOk result (history self.new ≡ with_stage name.now (history self.old)) }
        ensures told_err { OnErr result (told self.new ≡ told self.old) }
        ensures room_err { OnErr result (room self.new ≡ None) }
        ensures history_err { OnErr result ((history self.new ≡ history self.old)
            ⊎ (history self.new ≡ with_stage name.now (history self.old))) }
        ensures cause { HasCause (faults self.old) (faults self.new)
            (misses self.old) (misses self.new) result }
        ensures present { result ≢ Err ShelfFault.Absent };

    /// Adds bytes to the staged file. After a failure neither what is staged nor the room is known,
    /// so the file can only be abandoned.
    fn push(&mut self, bytes: &[u8]) -> Result<(), ShelfFault>
        requires { IsSomeAnd (room self.old) (λ room. length bytes.now ≤ room) }
        ensures told { OnOk result
            (told self.new ≡ option_map (push_in bytes.now) (told self.old)) }
        ensures room { OnOk result
            (room self.new ≡ option_map (λ room. room - length bytes.now) (room self.old)) }
        ensures held_err { OnErr result (held_of (told self.new) ≡ held_of (told self.old)) }
        ensures history { history self.new ≡ history self.old }
        ensures cause { HasCause (faults self.old) (faults self.new)
            (misses self.old) (misses self.new) result }
        ensures fault { OnErr result (result ≡ Err ShelfFault.Failed) };

    /// Puts the staged file among the held ones, in place of one of its name. A failure may come
    /// before or after that.
    fn commit(&mut self) -> Result<(), ShelfFault>
        requires { IsSome (room self.old) }
        ensures told { OnOk result (told self.new ≡ option_map commit_in (told self.old)) }
        ensures room { room self.new ≡ None }
        ensures history { OnOk result (history self.new ≡ with_commit (history self.old)) }
        ensures left { OnErr result (MayBeCommitted (told self.old) (told self.new)
            (history self.old) (history self.new)) }
        ensures cause { HasCause (faults self.old) (faults self.new)
            (misses self.old) (misses self.new) result }
        ensures fault { OnErr result (result ≡ Err ShelfFault.Failed) };

    /// Forgets the staged file, if there is one.
    fn abandon(&mut self)
        ensures told { told self.new ≡ option_map abandon_in (told self.old) }
        ensures room { room self.new ≡ None }
        ensures history { history self.new ≡ history self.old }
        ensures faults { faults self.new ≡ faults self.old }
        ensures misses { misses self.new ≡ misses self.old };

    /// A file is staged exactly where there is room.
    ghost staged_with_room: { (s : Self)
        → IfSome (told s) (λ t. is_some t.staged ≡ is_some (room s)) };
}
