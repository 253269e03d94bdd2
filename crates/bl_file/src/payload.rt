// The bytes of a file.
ghost use Rattle.std.specs.Prelude.{◌≡◌, ◌≢◌, ◌+◌, ◌<◌, ◌≤◌, ℕ, List, All, length, None, IfOk, OnOk, IsErrOf, IfSome};
ghost use Rattle.bl_shelf.specs.Told.{bytes_under};
ghost use Rattle.bl_shelf.specs.Calls.{Keeps, Counts};
ghost use Rattle.bl_shelf.specs.Contents.{AreBytesAt};
ghost use Rattle.bl_file.specs.Frames.{StaysAs, CountsReads};
ghost use Rattle.bl_file.specs.Held.{ForHeld, IfHeld, IsHeldAnd};

use bl_shelf::{Shelf, ShelfFault};
use std::alloc::Global;

/// The bytes of a file that is read, whole or a page at a time. A payload is read through the
/// shelf that it was started on, while the file there stays as it is.
pub trait Payload: Sized + Drop {
    /// The file's name.
    ghost file_name: { Self → List ℕ };

    /// The number of the file's bytes.
    ghost file_size: { Self → ℕ };

    /// What the payload keeps of the file is so in these bytes.
    ghost agrees: { Self → List ℕ → Type 0 };

    /// Begins to read a file of so many bytes.
    fn start<S: Shelf>(
        alloc: Global,
        shelf: &mut S,
        name: &str,
        size: u64,
    ) -> Result<Self, ShelfFault>
        requires { ForHeld (S.told shelf.old) name.now (λ bytes. length bytes ≡ size) }
        ensures name { IfOk result (λ payload. file_name payload ≡ name.now) }
        ensures size { IfOk result (λ payload. file_size payload ≡ size) }
        ensures agrees { IfOk result (λ payload.
            IfHeld (S.told shelf.old) name.now (agrees payload)) }
        ensures keeps { Keeps S.Shelf shelf.old shelf.new }
        ensures cause { Counts S.Shelf shelf.old shelf.new result }
        ensures absent { IsErrOf result ShelfFault.Absent
            → IfSome (S.told shelf.old) (λ t. bytes_under name.now t ≡ None) };

    /// Fills all of `dst` with the bytes from the place `at` on.
    fn copy_out<S: Shelf>(
        &mut self,
        shelf: &mut S,
        at: u64,
        dst: &mut [u8],
    ) -> Result<(), ShelfFault>
        requires inside { at + length dst.old ≤ file_size self.old }
        requires held { IsHeldAnd (S.told shelf.old) (file_name self.old) (agrees self.old) }
        ensures bytes { OnOk result
            (AreBytesAt (S.told shelf.old) (file_name self.old) at dst.new) }
        ensures stays { StaysAs S.Shelf file_name file_size agrees shelf.old shelf.new self.old self.new }
        ensures cause { CountsReads S.Shelf shelf.old shelf.new result }
        ensures no_memory { result ≢ Err ShelfFault.NoMemory };

    /// Bytes that the payload agrees with are as many as its size.
    ghost agreed_size: { (p : Self) (bytes : List ℕ) → agrees p bytes → length bytes ≡ file_size p };

    /// Bytes that the payload agrees with are below 256.
    ghost agreed_bytes: { (p : Self) (bytes : List ℕ) → agrees p bytes
        → All (λ byte. byte < 256) bytes };
}
