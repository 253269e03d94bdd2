// The basic types of a catalogue, by what pointers to them point to.
ghost use Rattle.std.specs.Prelude.{◌≡◌, if◌then◌else◌, Some, None, [], ◌∷◌, IfOk};
ghost use Rattle.std.specs.Str.{bytes_eq};
ghost use Rattle.bl_format.specs.Words.{contains};
ghost use Rattle.bl_format.specs.Layout.{basic_named};
ghost use Rattle.bl_file.specs.Speakers.{basic_length, basic_lengths};

use bl_format::Catalogue;
use std::alloc::{AllocError, Global};

/// By the number of a type, the bytes of the basic type that it is.
pub fn basic_lengths(alloc: Global, catalogue: &Catalogue) -> Result<Vec<Option<u8>>, AllocError>
    ensures { IfOk result (λ basics. basics.items ≡ basic_lengths catalogue.now) }
{
    catalogue
        .types
        .as_slice()
        .iter()
        .map(|entry| basic_length(entry.name.as_slice(), entry.length))
        .collect(alloc)
}

// The bytes of what a pointer to a type of this name and length points to, if it is a basic one.
#[tactic(auto, unfolding(bl_format::specs::Layout::basic_named))]
fn basic_length(name: &[u8], length: u16) -> Option<u8>
    ensures { result ≡ basic_length (basic_named name.now) length }
{
    if is_named(b"char", name) || is_named(b"int8_t", name) || is_named(b"uchar", name) {
        Some(1)
    } else if is_named(b"short", name) || is_named(b"ushort", name) {
        Some(2)
    } else if is_named(b"int", name) {
        Some(4)
    } else if is_named(b"long", name) || is_named(b"ulong", name) {
        long_length(length)
    } else if is_named(b"int64_t", name) || is_named(b"uint64_t", name) {
        Some(8)
    } else if is_named(b"float", name) {
        Some(4)
    } else if is_named(b"double", name) {
        Some(8)
    } else if is_named(b"void", name) {
        Some(0)
    } else {
        None
    }
}

fn is_named(name: &[u8], other: &[u8]) -> bool
    ensures { result ≡ bytes_eq name.now other.now }
{
    name == other
}

// The bytes of a whole number that has 4 or 8, as the machine has it.
fn long_length(length: u16) -> Option<u8>
    ensures { result ≡ (if contains (4 ∷ 8 ∷ []) length then Some length else None) }
{
    if length == 4 || length == 8 {
        Some(length as u8)
    } else {
        None
    }
}
