// Runs over files in memory.
ghost use Rattle.std.specs.Prelude.{◌≡◌, None};

use super::examples::{
    INT_LENGTH, LAST_NAME, LAST_STRUCT, MESH_ID_TYPE, OBJECT_LENGTH, OBJECT_TYPE_NAME, PAD_BRACKET,
    USHORT, changed, example, file_of,
};
use super::words::words;
use crate::run;
use bl_num::{NoMemory, Order};
use bl_shelf::{MemoryShelf, MemorySink, Shelf};
use std::alloc::Global;

const CONVERT: &[&str] = &["convert", "a", "b"];

const SCHEMA: &[&str] = &["schema", "a"];

const FATES: &[&str] = &["fates", "a", "b"];

const OWN_FATES: &[&str] = &["fates", "a", "a"];

/// What a run meets: a file `a`, a file `b` where it has bytes, and calls that fail.
#[derive(Clone, Copy)]
pub struct Scene<'a> {
    pub a: &'a [u8],
    pub b: &'a [u8],
    failing_calls: &'a [u64],
    takes_effect: bool,
    failing_puts: &'a [u64],
}

/// A file beside what a run left before, where no call fails.
pub fn quiet(a: &[u8]) -> Scene<'_> {
    two_files(a, b"before")
}

/// A file beside another, where no call fails.
pub fn two_files<'a>(a: &'a [u8], b: &'a [u8]) -> Scene<'a> {
    Scene {
        a,
        b,
        failing_calls: &[],
        takes_effect: false,
        failing_puts: &[],
    }
}

// Whether a run ends with this status and puts this text.
fn ends<S: Shelf>(
    alloc: Global,
    all: &[&str],
    shelf: &mut S,
    failing_puts: &[u64],
    status: u8,
    text: &[u8],
) -> Result<bool, NoMemory>
    requires { S.room shelf.old ≡ None }
{
    let words = words(alloc, all)?;
    let mut sink = MemorySink::new(alloc, Vec::from_slice(alloc, failing_puts)?);
    let ended = run(alloc, &words, shelf, &mut sink);
    Ok(ended == status && sink.bytes() == text)
}

/// Whether a run ends so, and leaves these bytes as `a` and as `b`.
pub fn leaves(
    alloc: Global,
    scene: &Scene,
    all: &[&str],
    status: u8,
    text: &[u8],
    a: &[u8],
    b: Option<&[u8]>,
) -> Result<bool, NoMemory> {
    let fails = Vec::from_slice(alloc, scene.failing_calls)?;
    let mut shelf = MemoryShelf::new(alloc, fails, scene.takes_effect);
    shelf.hold("a", scene.a)?;
    if !scene.b.is_empty() {
        shelf.hold("b", scene.b)?;
    }
    let ended = ends(alloc, all, &mut shelf, scene.failing_puts, status, text)?;
    Ok(ended && shelf.bytes_of("a") == Some(a) && shelf.bytes_of("b") == b)
}

// Whether a file is converted to this one, with this line, be `b` there or not.
fn is_converted(alloc: Global, a: &[u8], line: &str, b: &[u8]) -> Result<bool, NoMemory> {
    let over = quiet(a);
    let mut new = over;
    new.b = b"";
    let text = line.as_bytes();
    Ok(
        leaves(alloc, &over, CONVERT, 0, text, a, Some(b))?
            && leaves(alloc, &new, CONVERT, 0, text, a, Some(b))?
            && leaves(
                alloc,
                &over,
                &["convert", "a", "a"],
                0,
                text,
                b,
                Some(b"before"),
            )?,
    )
}

// The same of blocks over the example's catalogue.
fn are_converted(alloc: Global, blocks: &[u8], line: &str, to: &[u8]) -> Result<bool, NoMemory> {
    let file = file_of(alloc, blocks, example(Order::Little))?;
    let wanted = file_of(alloc, to, example(Order::Little))?;
    is_converted(alloc, &file, line, &wanted)
}

// Whether both commands refuse a file with this line, and nothing is stored.
fn is_refused(alloc: Global, file: &[u8], status: u8, line: &str) -> Result<bool, NoMemory> {
    let scene = quiet(file);
    let text = line.as_bytes();
    Ok(
        leaves(alloc, &scene, CONVERT, status, text, file, Some(b"before"))?
            && leaves(alloc, &scene, SCHEMA, status, text, file, Some(b"before"))?,
    )
}

// The smallest catalogue has no names, types and structs.
const SMALL: &[u8] = b"BLENDER-v405\
    DATA\x04\0\0\0\0\x10\0\0\0\0\0\0\0\0\0\0\x01\0\0\0\x01\x02\x03\x04\
    DNA1\x20\0\0\0\x05\0\0\0\0\0\0\0\0\0\0\0\x07\0\0\0\
    SDNANAME\0\0\0\0TYPE\0\0\0\0TLENSTRC\0\0\0\0\
    ENDB";

const SMALL_CONVERTED: &[u8] = b"BLENDER-v405\
    DATA\x04\0\0\0\x10\0\0\0\0\0\0\0\0\0\0\0\x01\0\0\0\x01\x02\x03\x04\
    DNA1\x20\0\0\0\0\0\0\0\0\0\0\0\0\0\0\0\x01\0\0\0\
    SDNANAME\0\0\0\0TYPE\0\0\0\0TLENSTRC\0\0\0\0\
    ENDB\0\0\0\0\0\0\0\0\0\0\0\0\0\0\0\0\0\0\0\0";

// Pointers of 4 bytes, the highest byte first; the catalogue in front, with a byte behind its
// structs, and bytes behind the end; a code of two letters that is written with its zeros first.
const NARROW: &[u8] = b"BLENDER_V279\
    DNA1\0\0\0\x21\0\0\0\0\0\0\0\0\0\0\0\x01\
    SDNANAME\0\0\0\0TYPE\0\0\0\0TLENSTRC\0\0\0\0x\
    OB\0\0\0\0\0\x02\0\0\x12\x34\0\0\0\0\0\0\0\x03xy\
    ENDB and more";

const NARROW_CONVERTED: &[u8] = b"BLENDER_V279\
    \0\0OB\0\0\0\x02\0\0\0\x10\0\0\0\0\0\0\0\x03xy\
    DNA1\0\0\0\x20\0\0\0\0\0\0\0\0\0\0\0\x01\
    SDNANAME\0\0\0\0TYPE\0\0\0\0TLENSTRC\0\0\0\0\
    ENDB\0\0\0\0\0\0\0\0\0\0\0\0\0\0\0\0";

// A struct of two pointers, three bytes, a float, and a tail, and the raw block that its second
// pointer names.
const NODES: &[u8] = b"BLENDER-v405\
    DATA\x18\0\0\0\0\x50\0\0\0\0\0\0\x01\0\0\0\x01\0\0\0\
    \0\x01\0\0\0\0\0\0BA\0\0\0\0\0\0abcwxyz!\
    DATA\x04\0\0\0BA\0\0\0\0\0\0\0\0\0\0\x01\0\0\0\x01\x02\x03\x04\
    DNA1\x68\0\0\0\0\0\0\0\0\0\0\0\0\0\0\0\x01\0\0\0\
    SDNANAME\x03\0\0\0*to[2]\0name[3]\0x\0\0\0\0TYPE\x04\0\0\0char\0float\0One\0Node\0\
    TLEN\x01\0\x04\0\x01\0\x18\0STRC\x02\0\0\0\x02\0\x01\0\0\0\x02\0\
    \x03\0\x03\0\x03\0\0\0\0\0\x01\0\x01\0\x02\0\
    ENDB";

const NODES_CONVERTED: &[u8] = b"BLENDER-v405\
    DATA\x18\0\0\0\x10\0\0\0\0\0\0\0\x01\0\0\0\x01\0\0\0\
    \0\0\0\0\0\0\0\0\x20\0\0\0\0\0\0\0abcwxyz\0\
    DATA\x04\0\0\0\x20\0\0\0\0\0\0\0\0\0\0\0\x01\0\0\0\x01\x02\x03\x04\
    DNA1\x68\0\0\0\0\0\0\0\0\0\0\0\0\0\0\0\x01\0\0\0\
    SDNANAME\x03\0\0\0*to[2]\0name[3]\0x\0\0\0\0TYPE\x04\0\0\0char\0float\0One\0Node\0\
    TLEN\x01\0\x04\0\x01\0\x18\0STRC\x02\0\0\0\x02\0\x01\0\0\0\x02\0\
    \x03\0\x03\0\x03\0\0\0\0\0\x01\0\x01\0\x02\0\
    ENDB\0\0\0\0\0\0\0\0\0\0\0\0\0\0\0\0\0\0\0\0";

// The same with pointers of 4 bytes, the highest byte first, and a longer tail.
const NARROW_NODES: &[u8] = b"BLENDER_V405\
    DATA\0\0\0\x18\0\0\x50\0\0\0\0\x01\0\0\0\x01\
    \0\0AB\0\x01\0\0abcwxyz!!!!!!!!!\
    DATA\0\0\0\x04\0\0AB\0\0\0\0\0\0\0\x01\x01\x02\x03\x04\
    DNA1\0\0\0\x68\0\0\0\0\0\0\0\0\0\0\0\x01\
    SDNANAME\0\0\0\x03*to[2]\0name[3]\0x\0\0\0\0TYPE\0\0\0\x04char\0float\0One\0Node\0\
    TLEN\0\x01\0\x04\0\x01\0\x18STRC\0\0\0\x02\0\x02\0\x01\0\0\0\x02\
    \0\x03\0\x03\0\x03\0\0\0\0\0\x01\0\x01\0\x02\
    ENDB";

const NARROW_NODES_CONVERTED: &[u8] = b"BLENDER_V405\
    DATA\0\0\0\x18\0\0\0\x10\0\0\0\x01\0\0\0\x01\
    \0\0\0\x20\0\0\0\0abcwxyz\0\0\0\0\0\0\0\0\0\
    DATA\0\0\0\x04\0\0\0\x20\0\0\0\0\0\0\0\x01\x01\x02\x03\x04\
    DNA1\0\0\0\x68\0\0\0\0\0\0\0\0\0\0\0\x01\
    SDNANAME\0\0\0\x03*to[2]\0name[3]\0x\0\0\0\0TYPE\0\0\0\x04char\0float\0One\0Node\0\
    TLEN\0\x01\0\x04\0\x01\0\x18STRC\0\0\0\x02\0\x02\0\x01\0\0\0\x02\
    \0\x03\0\x03\0\x03\0\0\0\0\0\x01\0\x01\0\x02\
    ENDB\0\0\0\0\0\0\0\0\0\0\0\0\0\0\0\0";

// The example's catalogue with one type more and no other block, so that padding stands between lengths and structs.
const ODD: &[u8] =
    b"BLENDER-v405DNA1\x94\x01\0\0\0\0\0\0\0\0\0\0\0\0\0\0\x01\0\0\0SDNANAME\x14\0\0\0*next\
    \0*prev\0*newid\0*lib\0name[66]\0flag\0us\0id\0name[1024]\0*parent\0*data\0loc[3]\0typ\
    e\0_pad[2]\0*index\0*co\0**users\0*extra\0totindex\0totco\0\0\0TYPE\x0f\0\0\0char\0uch\
    ar\0short\0ushort\0int\0int64_t\0float\0double\0void\0Link\0ID\0Library\0Object\0Mesh\
    \0raw_data\0\0TLEN\x01\0\x01\0\x02\0\x02\0\x04\0\x08\0\x04\0\x08\0\0\0\x10\0h\0h\x04\
    \x88\0\x90\0\0\0\0\0STRC\x05\0\0\0\x09\0\x02\0\x09\0\0\0\x09\0\x01\0\n\0\x07\0\x08\0\0\
    \0\x08\0\x01\0\n\0\x02\0\x0b\0\x03\0\0\0\x04\0\x02\0\x05\0\x04\0\x06\0\x0b\0\x02\0\n\0\
    \x07\0\0\0\x08\0\x0c\0\x06\0\n\0\x07\0\x0c\0\x09\0\x0d\0\n\0\x06\0\x0b\0\x02\0\x0c\0\0\
    \0\x0d\0\x0d\0\x07\0\n\0\x07\0\x04\0\x0e\0\x06\0\x0f\0\x0c\0\x10\0\x08\0\x11\0\x04\0\
    \x12\0\x04\0\x13\0ENDB\0\0\0\0\0\0\0\0\0\0\0\0\0\0\0\0\0\0\0\0";

#[test]
fn converts(rt: HostRuntime) {
    for (file, line, converted) in [
        (SMALL, "blocks 1 bytes 120\n", SMALL_CONVERTED),
        (NARROW, "blocks 1 bytes 106\n", NARROW_CONVERTED),
        (NODES, "blocks 2 bytes 240\n", NODES_CONVERTED),
        (NARROW_NODES, "blocks 2 bytes 224\n", NARROW_NODES_CONVERTED),
        (ODD, "blocks 0 bytes 464\n", ODD),
    ] {
        let done = is_converted(rt.alloc(), file, line, converted);
        assert_eq!(rt; done, Ok(true), "{line}");
    }
}

// A raw block, and the same with its new address.
const RAW: &[u8] = b"DATA\x04\0\0\0\0\x10\0\0\0\0\0\0\0\0\0\0\x01\0\0\0\x01\x02\x03\x04";

const RAW_CONVERTED: &[u8] = b"DATA\x04\0\0\0\x10\0\0\0\0\0\0\0\0\0\0\0\x01\0\0\0\x01\x02\x03\x04";

// A mesh whose users are an array of pointers: to the mesh, to nothing, to the array itself; and
// four bytes more.
const ARRAY: &[u8] =
    b"ME\0\0\x90\0\0\0\0\x01\0\0\0\0\0\0\x04\0\0\0\x01\0\0\0\0\0\0\0\0\0\0\0\0\0\0\0\0\0\0\0\
    \0\0\0\0\0\0\0\0\0\0\0\0\0\0\0\0MEa\0\0\0\0\0\0\0\0\0\0\0\0\0\0\0\0\0\0\0\0\0\0\0\0\0\
    \0\0\0\0\0\0\0\0\0\0\0\0\0\0\0\0\0\0\0\0\0\0\0\0\0\0\0\0\0\0\0\0\0\0\0\0\0\0\0\0\0\0\0\
    \0\0\0\0\0\0\0\0\0\0\0\0\0\0\0\0\0\0\x02\0\0\0\0\0\0\0\0\0\0\0\0\0\0\0\0\0\0\0\0\0\0DA\
    TA\x1c\0\0\0\0\x02\0\0\0\0\0\0\0\0\0\0\x01\0\0\0\0\x01\0\0\0\0\0\0\x99\x09\0\0\0\0\0\0\
    \0\x02\0\0\0\0\0\0tail";

// The same with new addresses.
const ARRAY_CONVERTED: &[u8] =
    b"ME\0\0\x90\0\0\0\x10\0\0\0\0\0\0\0\x04\0\0\0\x01\0\0\0\0\0\0\0\0\0\0\0\0\0\0\0\0\0\0\0\
    \0\0\0\0\0\0\0\0\0\0\0\0\0\0\0\0MEa\0\0\0\0\0\0\0\0\0\0\0\0\0\0\0\0\0\0\0\0\0\0\0\0\0\
    \0\0\0\0\0\0\0\0\0\0\0\0\0\0\0\0\0\0\0\0\0\0\0\0\0\0\0\0\0\0\0\0\0\0\0\0\0\0\0\0\0\0\0\
    \0\0\0\0\0\0\0\0\0\0\0\0\0\0\0\0\0 \0\0\0\0\0\0\0\0\0\0\0\0\0\0\0\0\0\0\0\0\0\0\0DATA\
    \x18\0\0\0 \0\0\0\0\0\0\0\0\0\0\0\x01\0\0\0\x10\0\0\0\0\0\0\0\0\0\0\0\0\0\0\0 \0\0\0\0\
    \0\0\0";

// Two groups. The first mesh names a place inside a block, nothing, a block of the other group, and
// one of its own.
const SCOPES: &[u8] =
    b"ME\0\0\x90\0\0\0\0\x01\0\0\0\0\0\0\x04\0\0\0\x01\0\0\0\0\0\0\0\0\0\0\0\0\0\0\0\0\0\0\0\
    \0\0\0\0\0\0\0\0\0\0\0\0\0\0\0\0MEa\0\0\0\0\0\0\0\0\0\0\0\0\0\0\0\0\0\0\0\0\0\0\0\0\0\
    \0\0\0\0\0\0\0\0\0\0\0\0\0\0\0\0\0\0\0\0\0\0\0\0\0\0\0\0\0\0\0\0\0\0\0\0\0\0\0\0\0\0\0\
    \0\x04\x02\0\0\0\0\0\0\x99\x09\0\0\0\0\0\0\0\x04\0\0\0\0\0\0\0\x02\0\0\0\0\0\0\0\0\0\0\
    \0\0\0\0DATA\x08\0\0\0\0\x02\0\0\0\0\0\0\0\0\0\0\x01\0\0\0abcdefghME\0\0\x90\0\0\0\0\
    \x03\0\0\0\0\0\0\x04\0\0\0\x01\0\0\0\0\0\0\0\0\0\0\0\0\0\0\0\0\0\0\0\0\0\0\0\0\0\0\0\0\
    \0\0\0\0\0\0\0MEb\0\0\0\0\0\0\0\0\0\0\0\0\0\0\0\0\0\0\0\0\0\0\0\0\0\0\0\0\0\0\0\0\0\0\
    \0\0\0\0\0\0\0\0\0\0\0\0\0\0\0\0\0\0\0\0\0\0\0\0\0\0\0\0\0\0\0\0\0\0\0\0\0\0\0\0\0\0\0\
    \0\0\0\0\0\0\0\0\0\0\0\0\0\0\0\0\0\0\0\0\0\0\0\0\0\0\0\0\0\0\0\0DATA\x08\0\0\0\0\x04\0\
    \0\0\0\0\0\0\0\0\0\x01\0\0\0ijklmnop";

// Of these only the last names a block.
const SCOPES_CONVERTED: &[u8] =
    b"ME\0\0\x90\0\0\0\x10\0\0\0\0\0\0\0\x04\0\0\0\x01\0\0\0\0\0\0\0\0\0\0\0\0\0\0\0\0\0\0\0\
    \0\0\0\0\0\0\0\0\0\0\0\0\0\0\0\0MEa\0\0\0\0\0\0\0\0\0\0\0\0\0\0\0\0\0\0\0\0\0\0\0\0\0\
    \0\0\0\0\0\0\0\0\0\0\0\0\0\0\0\0\0\0\0\0\0\0\0\0\0\0\0\0\0\0\0\0\0\0\0\0\0\0\0\0\0\0\0\
    \0\0\0\0\0\0\0\0\0\0\0\0\0\0\0\0\0\0\0\0\0\0\0\0\0 \0\0\0\0\0\0\0\0\0\0\0\0\0\0\0DATA\
    \x08\0\0\0 \0\0\0\0\0\0\0\0\0\0\0\x01\0\0\0abcdefghME\0\0\x90\0\0\00\0\0\0\0\0\0\0\x04\
    \0\0\0\x01\0\0\0\0\0\0\0\0\0\0\0\0\0\0\0\0\0\0\0\0\0\0\0\0\0\0\0\0\0\0\0\0\0\0\0MEb\0\
    \0\0\0\0\0\0\0\0\0\0\0\0\0\0\0\0\0\0\0\0\0\0\0\0\0\0\0\0\0\0\0\0\0\0\0\0\0\0\0\0\0\0\0\
    \0\0\0\0\0\0\0\0\0\0\0\0\0\0\0\0\0\0\0\0\0\0\0\0\0\0\0\0\0\0\0\0\0\0\0\0\0\0\0\0\0\0\0\
    \0\0\0\0\0\0\0\0\0\0\0\0\0\0\0\0\0\0\0\0\0\0DATA\x08\0\0\0@\0\0\0\0\0\0\0\0\0\0\0\x01\
    \0\0\0ijklmnop";

// Blocks of one address, two of them in one group.
const DOUBLES: &[u8] =
    b"ME\0\0\x90\0\0\0\0\x01\0\0\0\0\0\0\x04\0\0\0\x01\0\0\0\0\0\0\0\0\0\0\0\0\0\0\0\0\0\0\0\
    \0\0\0\0\0\0\0\0\0\0\0\0\0\0\0\0MEa\0\0\0\0\0\0\0\0\0\0\0\0\0\0\0\0\0\0\0\0\0\0\0\0\0\
    \0\0\0\0\0\0\0\0\0\0\0\0\0\0\0\0\0\0\0\0\0\0\0\0\0\0\0\0\0\0\0\0\0\0\0\0\0\0\0\0\0\0\0\
    \0\0\x02\0\0\0\0\0\0\0\0\0\0\0\0\0\0\0\0\0\0\0\0\0\0\0\0\0\0\0\0\0\0\0\0\0\0\0\0\0\0DA\
    TA\x04\0\0\0\0\x02\0\0\0\0\0\0\0\0\0\0\x01\0\0\0abcdDATA\x04\0\0\0\0\x02\0\0\0\0\0\0\0\
    \0\0\0\x01\0\0\0efghME\0\0\x90\0\0\0\0\x03\0\0\0\0\0\0\x04\0\0\0\x01\0\0\0\0\0\0\0\0\0\
    \0\0\0\0\0\0\0\0\0\0\0\0\0\0\0\0\0\0\0\0\0\0\0\0\0\0MEb\0\0\0\0\0\0\0\0\0\0\0\0\0\0\0\
    \0\0\0\0\0\0\0\0\0\0\0\0\0\0\0\0\0\0\0\0\0\0\0\0\0\0\0\0\0\0\0\0\0\0\0\0\0\0\0\0\0\0\0\
    \0\0\0\0\0\0\0\0\0\0\0\0\x02\0\0\0\0\0\0\0\0\0\0\0\0\0\0\0\0\0\0\0\0\0\0\0\0\0\0\0\0\0\
    \0\0\0\0\0\0\0\0\0DATA\x04\0\0\0\0\x02\0\0\0\0\0\0\0\0\0\0\x01\0\0\0ijkl";

// Each mesh names the last of its own group.
const DOUBLES_CONVERTED: &[u8] =
    b"ME\0\0\x90\0\0\0\x10\0\0\0\0\0\0\0\x04\0\0\0\x01\0\0\0\0\0\0\0\0\0\0\0\0\0\0\0\0\0\0\0\
    \0\0\0\0\0\0\0\0\0\0\0\0\0\0\0\0MEa\0\0\0\0\0\0\0\0\0\0\0\0\0\0\0\0\0\0\0\0\0\0\0\0\0\
    \0\0\0\0\0\0\0\0\0\0\0\0\0\0\0\0\0\0\0\0\0\0\0\0\0\0\0\0\0\0\0\0\0\0\0\0\0\0\0\0\0\0\0\
    \00\0\0\0\0\0\0\0\0\0\0\0\0\0\0\0\0\0\0\0\0\0\0\0\0\0\0\0\0\0\0\0\0\0\0\0\0\0\0\0DATA\
    \x04\0\0\0 \0\0\0\0\0\0\0\0\0\0\0\x01\0\0\0abcdDATA\x04\0\0\00\0\0\0\0\0\0\0\0\0\0\0\
    \x01\0\0\0efghME\0\0\x90\0\0\0@\0\0\0\0\0\0\0\x04\0\0\0\x01\0\0\0\0\0\0\0\0\0\0\0\0\0\
    \0\0\0\0\0\0\0\0\0\0\0\0\0\0\0\0\0\0\0\0\0\0MEb\0\0\0\0\0\0\0\0\0\0\0\0\0\0\0\0\0\0\0\
    \0\0\0\0\0\0\0\0\0\0\0\0\0\0\0\0\0\0\0\0\0\0\0\0\0\0\0\0\0\0\0\0\0\0\0\0\0\0\0\0\0\0\0\
    \0\0\0\0\0\0\0P\0\0\0\0\0\0\0\0\0\0\0\0\0\0\0\0\0\0\0\0\0\0\0\0\0\0\0\0\0\0\0\0\0\0\0\
    \0\0\0\0DATA\x04\0\0\0P\0\0\0\0\0\0\0\0\0\0\0\x01\0\0\0ijkl";

#[test]
fn converts_blocks(rt: HostRuntime) {
    for (blocks, line, converted) in [
        (RAW, "blocks 1 bytes 480\n", RAW_CONVERTED),
        (ARRAY, "blocks 2 bytes 668\n", ARRAY_CONVERTED),
        (SCOPES, "blocks 4 bytes 852\n", SCOPES_CONVERTED),
        (DOUBLES, "blocks 5 bytes 872\n", DOUBLES_CONVERTED),
    ] {
        let done = are_converted(rt.alloc(), blocks, line, converted);
        assert_eq!(rt; done, Ok(true), "{line}");
    }
}

// What is printed of the example.
const ALONE_PRINTED: &str =
    "version 405 width 8 order little names 20 types 14 structs 5\nstruct 0 Link 16\n  0 8 \
    Link *next\n  8 8 Link *prev\nstruct 1 ID 104\n  0 8 void *next\n  8 8 void *prev\n  1\
    6 8 ID *newid\n  24 8 Library *lib\n  32 66 char name[66]\n  98 2 short flag\n  100 4 \
    int us\nstruct 2 Library 1128\n  0 104 ID id\n  104 1024 char name[1024]\nstruct 3 Obj\
    ect 136\n  0 104 ID id\n  104 8 Object *parent\n  112 8 Mesh *data\n  120 12 float loc\
    [3]\n  132 2 short type\n  134 2 char _pad[2]\nstruct 4 Mesh 144\n  0 104 ID id\n  104 \
    8 int *index\n  112 8 float *co\n  120 8 Object **users\n  128 8 void *extra\n  136 4 \
    int totindex\n  140 4 int totco\n";

// Whether the example's file, cut behind the first four bytes of its end, is printed so and
// converted to the whole one.
fn is_cut_example(alloc: Global, printed: &str) -> Result<bool, NoMemory> {
    let whole = file_of(alloc, b"", example(Order::Little))?;
    let mut cut = file_of(alloc, b"", example(Order::Little))?;
    cut.truncate(432);
    let scene = quiet(&cut);
    let text = printed.as_bytes();
    Ok(
        is_converted(alloc, &cut, "blocks 0 bytes 452\n", &whole)?
            && leaves(alloc, &scene, SCHEMA, 0, text, &cut, Some(b"before"))?,
    )
}

#[test]
fn prints(rt: HostRuntime) {
    assert_eq!(rt; is_cut_example(rt.alloc(), ALONE_PRINTED), Ok(true));
}

// A file with a struct whose members are each told in another way by the catalogue of another file.
const FROM: &[u8] =
    b"BLENDER-v405DNA1\xa0\0\0\0\0\0\0\0\0\0\0\0\0\0\0\0\x01\0\0\0SDNANAME\x07\0\0\0kept\0cast\
    \0cut[8]\0extended[2]\0clash\0*held[1]\0x\0\0\0TYPE\x06\0\0\0char\0short\0int\0float\0Sam\
    e\0Old\0\0\0TLEN\x01\0\x02\0\x04\0\x04\0\"\0\x04\0STRC\x02\0\0\0\x04\0\x06\0\x02\0\0\0\
    \x01\0\x01\0\0\0\x02\0\x02\0\x03\0\x03\0\x04\0\x05\0\x05\0\x05\0\x01\0\x02\0\x06\0ENDB\0\
    \0\0\0\0\0\0\0\0\0\0\0\0\0\0\0\0\0\0\0";

// The other file, with pointers of 4 bytes and the highest byte first.
const TO: &[u8] =
    b"BLENDER_V300DNA1\0\0\0\xa0\0\0\0\0\0\0\0\0\0\0\0\x01SDNANAME\0\0\0\x08x\0*held\0kept\0cas\
    t\0cut[4]\0extended[3]\0clash\0fresh\0\0\0\0TYPE\0\0\0\x05char\0int\0New\0Same\0Old\0\0\0\
    TLEN\0\x01\0\x04\0\x01\0!\0\x04\0\0STRC\0\0\0\x02\0\x02\0\x01\0\0\0\0\0\x03\0\x07\0\x04\0\
    \x01\0\x01\0\x02\0\x01\0\x03\0\0\0\x04\0\x01\0\x05\0\x01\0\x06\0\0\0\x07ENDB\0\0\0\0\0\0\
    \0\0\0\0\0\0\0\0\0\0";

const FATES_PRINTED: &str =
    "struct New new\nstruct Same\n  *held kept\n  kept kept\n  cast cast\n  \
    cut[4] cut\n  extended[3] extended\n  clash float-cast\n  fresh fresh\n";

const OWN_FATES_PRINTED: &str = "struct Same\n  kept kept\n  cast kept\n  cut[8] kept\n  \
    extended[2] kept\n  clash kept\n  *held[1] kept\nstruct Old\n  x kept\n";

// Whether these are the fates under the other file, and under a file's own catalogue.
fn are_fates_printed(alloc: Global, printed: &str, own: &str) -> Result<bool, NoMemory> {
    let scene = two_files(FROM, TO);
    let (text, own_text) = (printed.as_bytes(), own.as_bytes());
    Ok(
        leaves(alloc, &scene, FATES, 0, text, FROM, Some(TO))?
            && leaves(alloc, &scene, OWN_FATES, 0, own_text, FROM, Some(TO))?,
    )
}

// The catalogue of the worked examples, with a shorter name, a `short` for an `int`, and a pointer more in struct `ID`.
const CHANGED: &[u8] =
    b"SDNANAME\x15\0\0\0*next\0*prev\0*newid\0*lib\0name[24]\0flag\0us\0id\0name[1024]\0*parent\0*\
    data\0loc[3]\0type\0_pad[2]\0*index\0*co\0**users\0*extra\0totindex\0totco\0*orig_id\0\0TYPE\
    \x0e\0\0\0char\0uchar\0short\0ushort\0int\0int64_t\0float\0double\0void\0Link\0ID\0Library\0\
    Object\0Mesh\0\0\0TLEN\x01\0\x01\0\x02\0\x02\0\x04\0\x08\0\x04\0\x08\0\0\0\x10\0D\0D\x04d\0l\
    \0STRC\x05\0\0\0\x09\0\x02\0\x09\0\0\0\x09\0\x01\0\x0a\0\x08\0\x08\0\0\0\x08\0\x01\0\x0a\0\
    \x02\0\x0b\0\x03\0\0\0\x04\0\x02\0\x05\0\x02\0\x06\0\x0a\0\x14\0\x0b\0\x02\0\x0a\0\x07\0\0\0\
    \x08\0\x0c\0\x06\0\x0a\0\x07\0\x0c\0\x09\0\x0d\0\x0a\0\x06\0\x0b\0\x02\0\x0c\0\0\0\x0d\0\x0d\
    \0\x07\0\x0a\0\x07\0\x04\0\x0e\0\x06\0\x0f\0\x0c\0\x10\0\x08\0\x11\0\x04\0\x12\0\x04\0\x13\0";

const CHANGED_PRINTED: &str =
    "struct Link\n  *next kept\n  *prev kept\nstruct ID\n  *next kept\n  *prev kept\n  \
    *newid kept\n  *lib kept\n  name[24] cut\n  flag kept\n  us cast\n  *orig_id fresh\n\
    struct Library\n  id kept\n  name[1024] kept\nstruct Object\n  id kept\n  *parent kept\n  \
    *data kept\n  loc[3] kept\n  type kept\n  _pad[2] kept\nstruct Mesh\n  id kept\n  *index kept\n  \
    *co kept\n  **users kept\n  *extra kept\n  totindex kept\n  totco kept\n";

// Whether these are the fates of the changed members.
fn are_changes_printed(alloc: Global, printed: &str) -> Result<bool, NoMemory> {
    let from = file_of(alloc, b"", example(Order::Little))?;
    let to = file_of(alloc, b"", CHANGED)?;
    let scene = two_files(&from, &to);
    let text = printed.as_bytes();
    leaves(alloc, &scene, FATES, 0, text, &from, Some(&to))
}

#[test]
fn prints_fates(rt: HostRuntime) {
    let printed = are_fates_printed(rt.alloc(), FATES_PRINTED, OWN_FATES_PRINTED);
    assert_eq!(rt; printed, Ok(true));
    assert_eq!(rt; are_changes_printed(rt.alloc(), CHANGED_PRINTED), Ok(true));
}

// Two structs of four bytes, and a block of struct 1 that has three.
const THREE_OF_FOUR: &[u8] = b"BLENDER-v405\
    DATA\x03\0\0\0\0\x10\0\0\0\0\0\0\x01\0\0\0\x01\0\0\0\x01\x02\x03\
    DNA1\x44\0\0\0\0\0\0\0\0\0\0\0\0\0\0\0\x01\0\0\0\
    SDNANAME\x01\0\0\0a\0\0\0TYPE\x03\0\0\0R\0S\0int\0TLEN\x04\0\x04\0\x04\0\0\0\
    STRC\x02\0\0\0\0\0\x01\0\x02\0\0\0\x01\0\x01\0\x02\0\0\0\
    ENDB";

// The name of the one member of struct S, `a[`, has a bracket that isn't closed.
const NO_LAYOUT: &[u8] = b"BLENDER-v405\
    DNA1\x38\0\0\0\0\0\0\0\0\0\0\0\0\0\0\0\x01\0\0\0\
    SDNANAME\x01\0\0\0a[\0\0TYPE\x02\0\0\0S\0char\0\0TLEN\x01\0\x01\0\
    STRC\x01\0\0\0\0\0\x01\0\x01\0\0\0\
    ENDB";

#[test]
fn refuses(rt: HostRuntime) {
    for (file, line) in [
        (b"".as_slice(), "bad file a: BadMagic\n"),
        (b"BLENDER-v40", "bad file a: BadMagic\n"),
        (b"\x1f\x8b\x08", "bad file a: Compressed\n"),
        (b"\x28\xb5\x2f\xfd", "bad file a: Compressed\n"),
        (b"BLENDER+v405", "bad file a: BadMark 7\n"),
        (b"BLENDER-x405", "bad file a: BadMark 8\n"),
        (b"BLENDER-v4a5", "bad file a: BadMark 10\n"),
        (b"BLENDER-v249", "bad file a: BadVersion 249\n"),
        (b"BLENDER-v500", "bad file a: BadVersion 500\n"),
        (b"BLENDER17-01v0500", "bad file a: BadMark 7\n"),
        (b"BLENDER-v405", "bad file a: Truncated 12\n"),
        (b"BLENDER-v405ENDB", "bad file a: NoCatalogue\n"),
        (
            b"BLENDER_v405DATA\x04\0\0\0\0\0\0\0\0\0\0\0\0\0\0\0abc",
            "bad file a: Truncated 12\n",
        ),
        (
            b"BLENDER_v405DATA\xff\xff\xff\xff\0\0\0\0\0\0\0\0\0\0\0\0",
            "bad file a: NegativeLength 12\n",
        ),
        (
            b"BLENDER_v405DATA\0\0\0\0\0\0\0\0\xff\xff\xff\xff\0\0\0\0",
            "bad file a: NegativeIndex 12\n",
        ),
        (
            b"BLENDER_v405DATA\0\0\0\0\0\0\0\0\0\0\0\0\xff\xff\xff\xff",
            "bad file a: NegativeCount 12\n",
        ),
        (
            b"BLENDER_v405DNA1\0\0\0\0\0\0\0\0\0\0\0\0\0\0\0\0DNA1\0\0\0\0\0\0\0\0\0\0\0\0\0\0\0\0ENDB",
            "bad file a: TwoCatalogues 32\n",
        ),
        (
            b"BLENDER_v405DNA1\x03\0\0\0\0\0\0\0\0\0\0\0\0\0\0\0SDNENDB",
            "bad file a: CutShort 0\n",
        ),
        (
            b"BLENDER_v405OB\0\0\0\0\0\0\0\0\0\0\x03\0\0\0\0\0\0\0\
                DNA1\x20\0\0\0\0\0\0\0\0\0\0\0\0\0\0\0\
                SDNANAME\0\0\0\0TYPE\0\0\0\0TLENSTRC\0\0\0\0\
                ENDB",
            "bad file a: BadStruct 12\n",
        ),
        (
            b"BLENDER-v405DNA1\x0d\0\0\0\0\0\0\0\0\0\0\0\0\0\0\0\x01\0\0\0SDNANAME\x01\0\0\0aENDB",
            "bad file a: CutShort 12\n",
        ),
        (&SMALL[..97], "bad file a: Truncated 96\n"),
        (NO_LAYOUT, "bad file a: BadName S a[\n"),
        (THREE_OF_FOUR, "bad file a: ShortBlock 12\n"),
    ] {
        let refused = is_refused(rt.alloc(), file, 6, line);
        assert_eq!(rt; refused, Ok(true), "{line}");
    }
}

// Whether the example is refused with this line, with other bytes in its catalogue.
fn is_bad_with(alloc: Global, at: usize, part: &[u8], line: &str) -> Result<bool, NoMemory> {
    let catalogue = changed(alloc, example(Order::Little), at, part)?;
    let file = file_of(alloc, b"", &catalogue)?;
    is_refused(alloc, &file, 6, line)
}

#[test]
fn refuses_catalogues(rt: HostRuntime) {
    for (at, part, line) in [
        (3, b"B".as_slice(), "bad file a: BadTag 0\n"),
        (LAST_NAME, b"\x14", "bad file a: BadIndex 390\n"),
        (USHORT, b"short\0", "bad file a: TwoTypes 169\n"),
        (LAST_STRUCT, b"\x0c", "bad file a: TwoStructs 360\n"),
        (PAD_BRACKET, b"(", "bad file a: BadName Object _pad(2]\n"),
        (
            OBJECT_LENGTH,
            b"\x87",
            "bad file a: Overrun Object _pad[2]\n",
        ),
        (MESH_ID_TYPE, b"\x0d", "bad file a: Cyclic Mesh id\n"),
        (INT_LENGTH, b"\x08", "bad file a: BasicLength ID us\n"),
        (
            OBJECT_TYPE_NAME,
            b"\x07",
            "bad file a: DuplicateMember Object id\n",
        ),
    ] {
        let refused = is_bad_with(rt.alloc(), at, part, line);
        assert_eq!(rt; refused, Ok(true), "{line}");
    }
}

// A block with the number of no struct.
const NO_STRUCT: &[u8] = b"OB\0\0\0\0\0\0\0\x01\0\0\0\0\0\0\x05\0\0\0\x01\0\0\0";

// A block that is a byte shorter than its struct.
const SHORT: &[u8] =
    b"OB\0\0\x87\0\0\0\0\x01\0\0\0\0\0\0\x03\0\0\0\x01\0\0\0\0\0\0\0\0\0\0\0\0\0\0\0\0\0\0\0\
    \0\0\0\0\0\0\0\0\0\0\0\0\0\0\0\0\0\0\0\0\0\0\0\0\0\0\0\0\0\0\0\0\0\0\0\0\0\0\0\0\0\0\0\
    \0\0\0\0\0\0\0\0\0\0\0\0\0\0\0\0\0\0\0\0\0\0\0\0\0\0\0\0\0\0\0\0\0\0\0\0\0\0\0\0\0\0\0\
    \0\0\0\0\0\0\0\0\0\0\0\0\0\0\0\0\0\0\0\0\0\0\0\0\0\0\0\0\0\0\0\0\0";

// Whether a block over the example's catalogue is refused with this line.
fn is_bad_block(alloc: Global, block: &[u8], line: &str) -> Result<bool, NoMemory> {
    let file = file_of(alloc, block, example(Order::Little))?;
    is_refused(alloc, &file, 6, line)
}

#[test]
fn refuses_blocks(rt: HostRuntime) {
    for (block, line) in [
        (NO_STRUCT, "bad file a: BadStruct 12\n"),
        (SHORT, "bad file a: ShortBlock 12\n"),
    ] {
        assert_eq!(rt; is_bad_block(rt.alloc(), block, line), Ok(true), "{line}");
    }
}

// A struct of a byte, and 20 structs that each hold it 65,535 times: too many leaves.
const MANY_LEAVES: &[u8] =
    b"BLENDER-v405DNA1X\x01\0\0\0\0\0\0\0\0\0\0\0\0\0\0\x01\0\0\0SDNANAME\x02\0\0\0cell\0cel\
    ls[65535]\0\0\0TYPE\x16\0\0\0S0\0S1\0S2\0S3\0S4\0S5\0S6\0S7\0S8\0S9\0S10\0S11\0S12\0S1\
    3\0S14\0S15\0S16\0S17\0S18\0S19\0S20\0char\0\0TLEN\x01\0\xff\xff\xff\xff\xff\xff\xff\
    \xff\xff\xff\xff\xff\xff\xff\xff\xff\xff\xff\xff\xff\xff\xff\xff\xff\xff\xff\xff\xff\
    \xff\xff\xff\xff\xff\xff\xff\xff\xff\xff\xff\xff\x01\0STRC\x15\0\0\0\0\0\x01\0\x15\0\0\
    \0\x01\0\x01\0\0\0\x01\0\x02\0\x01\0\0\0\x01\0\x03\0\x01\0\0\0\x01\0\x04\0\x01\0\0\0\
    \x01\0\x05\0\x01\0\0\0\x01\0\x06\0\x01\0\0\0\x01\0\x07\0\x01\0\0\0\x01\0\x08\0\x01\0\0\
    \0\x01\0\x09\0\x01\0\0\0\x01\0\n\0\x01\0\0\0\x01\0\x0b\0\x01\0\0\0\x01\0\x0c\0\x01\0\0\
    \0\x01\0\x0d\0\x01\0\0\0\x01\0\x0e\0\x01\0\0\0\x01\0\x0f\0\x01\0\0\0\x01\0\x10\0\x01\0\
    \0\0\x01\0\x11\0\x01\0\0\0\x01\0\x12\0\x01\0\0\0\x01\0\x13\0\x01\0\0\0\x01\0\x14\0\x01\
    \0\0\0\x01\0ENDB\0\0\0\0\0\0\0\0\0\0\0\0\0\0\0\0\0\0\0\0";

#[test]
fn refuses_past_limits(rt: HostRuntime) {
    let refused = is_refused(rt.alloc(), MANY_LEAVES, 9, "limit leaves 1114096\n");
    assert_eq!(rt; refused, Ok(true));
}

// Whether a run over a small file ends so, and stores nothing.
fn is_answered(alloc: Global, all: &[&str], status: u8, line: &str) -> Result<bool, NoMemory> {
    let scene = quiet(SMALL);
    let text = line.as_bytes();
    leaves(alloc, &scene, all, status, text, SMALL, Some(b"before"))
}

#[test]
fn answers_by_its_words(rt: HostRuntime) {
    for (all, status, line) in [
        (["convert", "c", "b"].as_slice(), 4, "absent c\n"),
        (&["schema", "c"], 4, "absent c\n"),
        (&["fates", "c", "b"], 4, "absent c\n"),
        (&["fates", "a", "c"], 4, "absent c\n"),
        (&["fates", "a", "b"], 6, "bad file b: BadMagic\n"),
        (&["convert", "a", "b", "--like", "c"], 4, "absent c\n"),
        (&["convert", "c", "b", "--like", "b"], 4, "absent c\n"),
        (
            &["convert", "a", "b", "--like", "b"],
            6,
            "bad file b: BadMagic\n",
        ),
        (
            &["convert", "a", "b", "--like", "a", "--head", "classic"],
            2,
            "usage\n",
        ),
        (&["convert", "a"], 2, "usage\n"),
        (&["convert", "a", "b", "--width", "5"], 2, "usage\n"),
        (&["schema", "a", "b"], 2, "usage\n"),
        (&["fates", "a", "a", "--renames", "b"], 2, "usage\n"),
        (&["convert", "a", "b.bl-part"], 2, "usage\n"),
        (&["append", "a", "a", "b", "OBCube"], 2, "usage\n"),
        (&[], 2, "usage\n"),
    ] {
        let answered = is_answered(rt.alloc(), all, status, line);
        assert_eq!(rt; answered, Ok(true), "{line}");
    }
}

// Whether a conversion of a small file ends so where calls of the shelf and of the sink fail.
fn fails(
    alloc: Global,
    failing_calls: &[u64],
    takes_effect: bool,
    failing_puts: &[u64],
    status: u8,
    text: &str,
    b: &[u8],
) -> Result<bool, NoMemory> {
    let scene = Scene {
        a: SMALL,
        b: b"before",
        failing_calls,
        takes_effect,
        failing_puts,
    };
    leaves(
        alloc,
        &scene,
        CONVERT,
        status,
        text.as_bytes(),
        SMALL,
        Some(b),
    )
}

// The calls of a conversion are `size`, `read_at`, `stage`, `push` and `commit`, in this order. The
// line of the conversion is put before the commit.
#[test]
fn leaves_what_was_held_where_a_device_fails(rt: HostRuntime) {
    let before = b"before".as_slice();
    for (calls, takes_effect, puts, status, text, b) in [
        ([0].as_slice(), false, [].as_slice(), 5, "device\n", before),
        (&[1], false, &[], 5, "device\n", before),
        (&[2], false, &[], 5, "device\n", before),
        (&[3], false, &[], 5, "device\n", before),
        (&[4], false, &[], 5, "blocks 1 bytes 120\ndevice\n", before),
        // A commit that fails may have taken effect.
        (
            &[4],
            true,
            &[],
            5,
            "blocks 1 bytes 120\ndevice\n",
            SMALL_CONVERTED,
        ),
        // The status stays where the line of what ended the run can't be put.
        (&[2], false, &[0], 5, "", before),
        // The sink fails at the summary.
        (&[], false, &[0], 10, "", before),
    ] {
        let failed = fails(rt.alloc(), calls, takes_effect, puts, status, text, b);
        assert_eq!(rt; failed, Ok(true), "{status} {text}");
    }
}
