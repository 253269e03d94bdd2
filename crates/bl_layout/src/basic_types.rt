ghost use Rattle.std.specs.Prelude.{◌≡◌, true, false, [], ◌∷◌, option_map};
ghost use Rattle.std.specs.Str.{bytes_eq};
ghost use Rattle.bl_format.specs.Layout.{basic_named, lengths_of_basic, is_bad_length, kind_of_content};
ghost use Rattle.bl_format.specs.Words.{contains};
ghost use Rattle.bl_layout.specs.BasicTypes.{basic_meant, content_meant};
ghost use Rattle.bl_layout.specs.Sizes.{basic_in};

use bl_format::Kind;
use bl_num::Whole;

/// A basic type of Blender.
#[derive(Clone, Copy)]
pub enum Basic {
    /// A whole number with or without a sign, and its bytes.
    Whole { signed: bool, bytes: u8 },
    /// A whole number of 4 or 8 bytes, as the machine has it.
    Long { signed: bool },
    /// A float of so many bytes.
    Float(u8),
    Void,
}

/// What a type holds.
#[derive(Clone, Copy)]
pub enum Content {
    Basic(Basic),
    /// The struct of this number.
    Struct(u32),
    Opaque,
}

/// The basic type of a name.
#[tactic(auto, unfolding(bl_format::specs::Layout::basic_named))]
pub fn basic_named(name: &[u8]) -> Option<Basic>
    ensures { option_map basic_meant result ≡ basic_named name.now }
{
    if is_named(b"char", name) || is_named(b"int8_t", name) {
        signed(1)
    } else if is_named(b"uchar", name) {
        unsigned(1)
    } else if is_named(b"short", name) {
        signed(2)
    } else if is_named(b"ushort", name) {
        unsigned(2)
    } else if is_named(b"int", name) {
        signed(4)
    } else if is_named(b"long", name) {
        Some(Basic::Long { signed: true })
    } else if is_named(b"ulong", name) {
        Some(Basic::Long { signed: false })
    } else if is_named(b"int64_t", name) {
        signed(8)
    } else if is_named(b"uint64_t", name) {
        unsigned(8)
    } else if is_named(b"float", name) {
        Some(Basic::Float(4))
    } else if is_named(b"double", name) {
        Some(Basic::Float(8))
    } else if is_named(b"void", name) {
        Some(Basic::Void)
    } else {
        None
    }
}

fn is_named(name: &[u8], other: &[u8]) -> bool
    ensures { result ≡ bytes_eq name.now other.now }
{
    name == other
}

fn signed(bytes: u8) -> Option<Basic>
    ensures { result ≡ Some (Basic.Whole true bytes) }
{
    Some(Basic::Whole {
        signed: true,
        bytes,
    })
}

fn unsigned(bytes: u8) -> Option<Basic>
    ensures { result ≡ Some (Basic.Whole false bytes) }
{
    Some(Basic::Whole {
        signed: false,
        bytes,
    })
}

/// Whether a basic type may have a length in a catalogue.
pub fn has_length(basic: Basic, length: u16) -> bool
    ensures { result ≡ contains (lengths_of_basic (basic_meant basic)) length }
{
    match basic {
        Basic::Whole { bytes, .. } | Basic::Float(bytes) => length == u16::from(bytes),
        Basic::Long { .. } => length == 4 || length == 8,
        Basic::Void => length == 0,
    }
}

/// What a leaf by value of such a type holds.
pub fn kind_of(content: Content, length: u16) -> Kind
    requires { is_bad_length (basic_in (content_meant content)) length ≡ false }
    ensures { result ≡ kind_of_content (content_meant content) length }
{
    match content {
        Content::Basic(Basic::Whole { signed, bytes }) => Kind::Whole(Whole { bytes, signed }),
        Content::Basic(Basic::Long { signed }) => long_kind(length, signed),
        Content::Basic(Basic::Float(bytes)) => Kind::Bits(bytes),
        Content::Basic(Basic::Void) | Content::Struct(_) | Content::Opaque => Kind::Opaque,
    }
}

fn long_kind(length: u16, signed: bool) -> Kind
    requires { contains (4 ∷ 8 ∷ []) length ≡ true }
    ensures { result ≡ Kind.Whole (record { bytes = length; signed = signed }) }
{
    Kind::Whole(Whole {
        bytes: length as u8,
        signed,
    })
}
