// Runs that convert a file under the catalogue of another, in memory. The bytes were made by a script that knows
// nothing of this program.
use super::examples::{LAST_NAME, changed, example, file_of};
use super::runs::{leaves, two_files};
use bl_num::{NoMemory, Order};
use std::alloc::Global;

// The output takes the input's place, and the other file stays.
const LIKE: &[&str] = &["convert", "a", "a", "--like", "b"];

// Whether a file ends so under the catalogue of another, and what it is then.
fn becomes(
    alloc: Global,
    a: &[u8],
    b: &[u8],
    status: u8,
    line: &str,
    to: &[u8],
) -> Result<bool, NoMemory> {
    let scene = two_files(a, b);
    leaves(alloc, &scene, LIKE, status, line.as_bytes(), to, Some(b))
}

// A struct of whole numbers: -1 in two bytes, 70,000 in four, and 200 in one without a sign; and two texts of 66
// bytes that no zero ends.
const NUMBERS: &[u8] = b"BLENDER-v405\
    DATA\x8b\0\0\0P\0\0\0\0\0\0\0\x01\0\0\0\x01\0\0\0\
    \xff\xffp\x11\x01\0\xc8abcdefghijklmnopqrstuvwxyz0123456789abcdefghijklmnopqrstuvwxyz012332\
    10zyxwvutsrqponmlkjihgfedcba9876543210zyxwvutsrqponmlkjihgfedcba\
    DNA1\x88\0\0\0\0\0\0\0\0\0\0\0\0\0\0\0\x01\0\0\0\
    SDNANAME\x06\0\0\0x\0a\0b\0c\0cut[66]\0more[66]\0\0\0\0\
    TYPE\x06\0\0\0char\0uchar\0short\0int\0One\0Num\0\0\0\0\
    TLEN\x01\0\x01\0\x02\0\x04\0\x01\0\x8b\0\
    STRC\x02\0\0\0\x04\0\x01\0\0\0\0\0\x05\0\x05\0\x02\0\x01\0\x03\0\x02\0\x01\0\x03\0\0\0\x04\
    \0\0\0\x05\0\
    ENDB\0\0\0\0\0\0\0\0\0\0\0\0\0\0\0\0\0\0\0\0";

// The other file has numbers of 4, 2 and 4 bytes, and room for 24 and for 258 bytes of text. The highest byte comes
// first.
const OTHER_NUMBERS: &[u8] = b"BLENDER-V300\
    DNA1\0\0\0\x80\0\0\0\0\0\0\0\0\0\0\0\0\0\0\0\x01\
    SDNANAME\0\0\0\x06x\0a\0b\0c\0cut[24]\0more[258]\0\0\0\
    TYPE\0\0\0\x05One\0Num\0char\0short\0int\0\0\
    TLEN\0\x01\x01$\0\x01\0\x02\0\x04\0\0\
    STRC\0\0\0\x02\0\0\0\x01\0\x02\0\0\0\x01\0\x05\0\x04\0\x01\0\x03\0\x02\0\x04\0\x03\0\x02\0\
    \x04\0\x02\0\x05\
    ENDB\0\0\0\0\0\0\0\0\0\0\0\0\0\0\0\0\0\0\0\0";

// The numbers are -1, 4,464 and 200. Of the first text 23 bytes are left and a zero, and behind the second stand zeros.
const NUMBERS_CONVERTED: &[u8] = b"BLENDER-v300\
    DATA$\x01\0\0\x10\0\0\0\0\0\0\0\x01\0\0\0\x01\0\0\0\
    \xff\xff\xff\xffp\x11\xc8\0\0\0abcdefghijklmnopqrstuvw\03210zyxwvutsrqponmlkjihgfedcba98765\
    43210zyxwvutsrqponmlkjihgfedcba\0\0\0\0\0\0\0\0\0\0\0\0\0\0\0\0\0\0\0\0\0\0\0\0\0\0\0\0\0\0\
    \0\0\0\0\0\0\0\0\0\0\0\0\0\0\0\0\0\0\0\0\0\0\0\0\0\0\0\0\0\0\0\0\0\0\0\0\0\0\0\0\0\0\0\0\0\
    \0\0\0\0\0\0\0\0\0\0\0\0\0\0\0\0\0\0\0\0\0\0\0\0\0\0\0\0\0\0\0\0\0\0\0\0\0\0\0\0\0\0\0\0\0\
    \0\0\0\0\0\0\0\0\0\0\0\0\0\0\0\0\0\0\0\0\0\0\0\0\0\0\0\0\0\0\0\0\0\0\0\0\0\0\0\0\0\0\0\0\0\
    \0\0\0\0\0\0\0\0\0\0\0\0\0\0\0\0\0\0\0\0\0\0\0\0\0\0\0\
    DNA1\x80\0\0\0\0\0\0\0\0\0\0\0\0\0\0\0\x01\0\0\0\
    SDNANAME\x06\0\0\0x\0a\0b\0c\0cut[24]\0more[258]\0\0\0\
    TYPE\x05\0\0\0One\0Num\0char\0short\0int\0\0\
    TLEN\x01\0$\x01\x01\0\x02\0\x04\0\0\0\
    STRC\x02\0\0\0\0\0\x01\0\x02\0\0\0\x01\0\x05\0\x04\0\x01\0\x03\0\x02\0\x04\0\x03\0\x02\0\
    \x04\0\x02\0\x05\0\
    ENDB\0\0\0\0\0\0\0\0\0\0\0\0\0\0\0\0\0\0\0\0";

// Groups of an object and of two meshes. The first mesh names by two members a raw block, which holds the addresses of
// the mesh, of the object, of a block of its group and its own. It names this block as well, and so does the second
// mesh the first.
const GROUPS: &[u8] = b"BLENDER_V405\
    \0\0OB\0\0\0\x08\0\0\x01\0\0\0\0\x01\0\0\0\x01\
    OBa\0\0\0\x03\0\
    DATA\0\0\0\x04\0\0\x02\0\0\0\0\0\0\0\0\x01\
    abcd\
    \0\0ME\0\0\0\x10\0\0\x03\0\0\0\0\x02\0\0\0\x01\
    MEa\0\0\0\x04\0\0\0\x04\0\0\0\x05\0\
    DATA\0\0\0\x08\0\0\x05\0\0\0\0\x01\0\0\0\x01\
    \0\0\0\0\0\0\x03\0\
    DATA\0\0\0\x10\0\0\x04\0\0\0\0\0\0\0\0\x01\
    \0\0\x03\0\0\0\x01\0\0\0\x05\0\0\0\x04\0\
    \0\0ME\0\0\0\x10\0\0\x06\0\0\0\0\x02\0\0\0\x01\
    MEb\0\0\0\0\0\0\0\0\0\0\0\x03\0\
    DNA1\0\0\0\x98\0\0\0\0\0\0\0\0\0\0\0\x01\
    SDNANAME\0\0\0\x06name[4]\0id\0*to\0**users\0*index\0*extra\0\0\0\0\
    TYPE\0\0\0\x06int\0char\0void\0ID\0Gone\0Mesh\0\0\
    TLEN\0\x04\0\x01\0\0\0\x04\0\x08\0\x10\
    STRC\0\0\0\x03\0\x03\0\x01\0\x01\0\0\0\x04\0\x02\0\x03\0\x01\0\x02\0\x02\0\x05\0\x04\0\x03\
    \0\x01\0\0\0\x03\0\0\0\x04\0\x02\0\x05\
    ENDB\0\0\0\0\0\0\0\0\0\0\0\0\0\0\0\0";

// The other file has no object, and of a mesh but one of the members that name the raw block.
const OTHER_GROUPS: &[u8] = b"BLENDER_v300\
    DNA1\x80\0\0\0\0\0\0\0\0\0\0\0\x01\0\0\0\
    SDNANAME\x05\0\0\0name[4]\0id\0*extra\0fresh\0**users\0\
    TYPE\x05\0\0\0int\0char\0void\0ID\0Mesh\0\0\0\
    TLEN\x04\0\x01\0\0\0\x04\0\x10\0\0\0\
    STRC\x02\0\0\0\x03\0\x01\0\x01\0\0\0\x04\0\x04\0\x03\0\x01\0\x02\0\x02\0\0\0\x03\0\0\0\x04\
    \0\
    ENDB\0\0\0\0\0\0\0\0\0\0\0\0\0\0\0\0";

// So the raw block holds pointers. All that named a block that is gone is null.
const GROUPS_CONVERTED: &[u8] = b"BLENDER_V300\
    \0\0ME\0\0\0\x10\0\0\0\x10\0\0\0\x01\0\0\0\x01\
    MEa\0\0\0\0\0\0\0\0\0\0\0\0\x20\
    DATA\0\0\0\x10\0\0\0\x20\0\0\0\0\0\0\0\x01\
    \0\0\0\x10\0\0\0\0\0\0\0\0\0\0\0\x20\
    \0\0ME\0\0\0\x10\0\0\00\0\0\0\x01\0\0\0\x01\
    MEb\0\0\0\0\x10\0\0\0\0\0\0\0\0\
    DNA1\0\0\0\x80\0\0\0\0\0\0\0\0\0\0\0\x01\
    SDNANAME\0\0\0\x05name[4]\0id\0*extra\0fresh\0**users\0\
    TYPE\0\0\0\x05int\0char\0void\0ID\0Mesh\0\0\0\
    TLEN\0\x04\0\x01\0\0\0\x04\0\x10\0\0\
    STRC\0\0\0\x02\0\x03\0\x01\0\x01\0\0\0\x04\0\x04\0\x03\0\x01\0\x02\0\x02\0\0\0\x03\0\0\0\
    \x04\
    ENDB\0\0\0\0\0\0\0\0\0\0\0\0\0\0\0\0";

// An owner with a part of one float, and a block that names the owner.
const OWNED: &[u8] = b"BLENDER-v405\
    OW\0\0\x08\0\0\0\0\x01\0\0\0\0\0\0\x01\0\0\0\x01\0\0\0\
    \0\x02\0\0\0\0\0\0\
    DATA\x04\0\0\0\0\x02\0\0\0\0\0\0\x02\0\0\0\x01\0\0\0\
    \0\0\xc0?\
    RE\0\0\x08\0\0\0\0\x03\0\0\0\0\0\0\x03\0\0\0\x01\0\0\0\
    \0\x01\0\0\0\0\0\0\
    DNA1\x80\0\0\0\0\0\0\0\0\0\0\0\0\0\0\0\x01\0\0\0\
    SDNANAME\x03\0\0\0*part\0value\0*owner\0\0\
    TYPE\x06\0\0\0int\0float\0One\0Owner\0Part\0Rest\0\0\0\
    TLEN\x04\0\x04\0\x04\0\x08\0\x04\0\x08\0\
    STRC\x04\0\0\0\x02\0\x01\0\0\0\x01\0\x03\0\x01\0\x04\0\0\0\x04\0\x01\0\x01\0\x01\0\x05\0\
    \x01\0\x03\0\x02\0\
    ENDB\0\0\0\0\0\0\0\0\0\0\0\0\0\0\0\0\0\0\0\0";

// The other file has no owner, and a whole number in a part.
const NO_OWNER: &[u8] = b"BLENDER-v300\
    DNA1x\0\0\0\0\0\0\0\0\0\0\0\0\0\0\0\x01\0\0\0\
    SDNANAME\x03\0\0\0*part\0value\0*owner\0\0\
    TYPE\x06\0\0\0int\0float\0One\0Owner\0Part\0Rest\0\0\0\
    TLEN\x04\0\x04\0\x04\0\x08\0\x04\0\x08\0\
    STRC\x03\0\0\0\x02\0\x01\0\0\0\x01\0\x05\0\x01\0\x03\0\x02\0\x04\0\x01\0\0\0\x01\0\
    ENDB\0\0\0\0\0\0\0\0\0\0\0\0\0\0\0\0\0\0\0\0";

// So the part goes with its owner, and its float meets nothing.
const OWNED_CONVERTED: &[u8] = b"BLENDER-v300\
    RE\0\0\x08\0\0\0\x10\0\0\0\0\0\0\0\x01\0\0\0\x01\0\0\0\
    \0\0\0\0\0\0\0\0\
    DNA1x\0\0\0\0\0\0\0\0\0\0\0\0\0\0\0\x01\0\0\0\
    SDNANAME\x03\0\0\0*part\0value\0*owner\0\0\
    TYPE\x06\0\0\0int\0float\0One\0Owner\0Part\0Rest\0\0\0\
    TLEN\x04\0\x04\0\x04\0\x08\0\x04\0\x08\0\
    STRC\x03\0\0\0\x02\0\x01\0\0\0\x01\0\x05\0\x01\0\x03\0\x02\0\x04\0\x01\0\0\0\x01\0\
    ENDB\0\0\0\0\0\0\0\0\0\0\0\0\0\0\0\0\0\0\0\0";

// With an owner, which keeps its part.
const OTHER_OWNER: &[u8] = b"BLENDER-v300\
    DNA1\x80\0\0\0\0\0\0\0\0\0\0\0\0\0\0\0\x01\0\0\0\
    SDNANAME\x03\0\0\0*part\0value\0*owner\0\0\
    TYPE\x06\0\0\0int\0float\0One\0Owner\0Part\0Rest\0\0\0\
    TLEN\x04\0\x04\0\x04\0\x08\0\x04\0\x08\0\
    STRC\x04\0\0\0\x02\0\x01\0\0\0\x01\0\x05\0\x01\0\x03\0\x02\0\x04\0\x01\0\0\0\x01\0\x03\0\
    \x01\0\x04\0\0\0\
    ENDB\0\0\0\0\0\0\0\0\0\0\0\0\0\0\0\0\0\0\0\0";

// Two datablocks that name the second one. All structs are in the other catalogue, but there none is an ID, since a
// pointer stands in front of the part of one.
const IDS: &[u8] = b"BLENDER-v405\
    ME\0\0\x0c\0\0\0\0\x01\0\0\0\0\0\0\x02\0\0\0\x01\0\0\0MEa\0\0\x02\0\0\0\0\0\0\
    ME\0\0\x0c\0\0\0\0\x02\0\0\0\0\0\0\x02\0\0\0\x01\0\0\0MEb\0\0\x02\0\0\0\0\0\0\
    DNA1l\0\0\0\0\0\0\0\0\0\0\0\0\0\0\0\x01\0\0\0\
    SDNANAME\x04\0\0\0x\0name[4]\0id\0*next\0\0\
    TYPE\x04\0\0\0char\0One\0ID\0Mesh\0\0\0\0\
    TLEN\x01\0\x01\0\x04\0\x0c\0\
    STRC\x03\0\0\0\x01\0\x01\0\0\0\0\0\x02\0\x01\0\0\0\x01\0\x03\0\x02\0\x02\0\x02\0\x03\0\x03\
    \0\
    ENDB\0\0\0\0\0\0\0\0\0\0\0\0\0\0\0\0\0\0\0\0";

const NO_IDS: &[u8] = b"BLENDER-v300\
    DNA1l\0\0\0\0\0\0\0\0\0\0\0\0\0\0\0\x01\0\0\0\
    SDNANAME\x04\0\0\0x\0*next\0id\0name[4]\0\0\
    TYPE\x04\0\0\0char\0One\0ID\0Mesh\0\0\0\0\
    TLEN\x01\0\x01\0\x04\0\x0c\0\
    STRC\x03\0\0\0\x01\0\x01\0\0\0\0\0\x03\0\x02\0\x03\0\x01\0\x02\0\x02\0\x02\0\x01\0\0\0\x03\
    \0\
    ENDB\0\0\0\0\0\0\0\0\0\0\0\0\0\0\0\0\0\0\0\0";

// So the pointer from another group is null.
const IDS_CONVERTED: &[u8] = b"BLENDER-v300\
    ME\0\0\x0c\0\0\0\x10\0\0\0\0\0\0\0\x01\0\0\0\x01\0\0\0\0\0\0\0\0\0\0\0MEa\0\
    ME\0\0\x0c\0\0\0 \0\0\0\0\0\0\0\x01\0\0\0\x01\0\0\0 \0\0\0\0\0\0\0MEb\0\
    DNA1l\0\0\0\0\0\0\0\0\0\0\0\0\0\0\0\x01\0\0\0\
    SDNANAME\x04\0\0\0x\0*next\0id\0name[4]\0\0\
    TYPE\x04\0\0\0char\0One\0ID\0Mesh\0\0\0\0\
    TLEN\x01\0\x01\0\x04\0\x0c\0\
    STRC\x03\0\0\0\x01\0\x01\0\0\0\0\0\x03\0\x02\0\x03\0\x01\0\x02\0\x02\0\x02\0\x01\0\0\0\x03\
    \0\
    ENDB\0\0\0\0\0\0\0\0\0\0\0\0\0\0\0\0\0\0\0\0";

#[test]
fn converts_like(rt: HostRuntime) {
    for (a, b, status, line, to) in [
        (
            NUMBERS,
            OTHER_NUMBERS,
            0,
            "blocks 1 bytes 504\n",
            NUMBERS_CONVERTED,
        ),
        (
            GROUPS,
            OTHER_GROUPS,
            0,
            "blocks 3 bytes 288\n",
            GROUPS_CONVERTED,
        ),
        (IDS, NO_IDS, 0, "blocks 2 bytes 240\n", IDS_CONVERTED),
        (OWNED, NO_OWNER, 0, "blocks 1 bytes 212\n", OWNED_CONVERTED),
        (OWNED, OTHER_OWNER, 8, "float cast Part.value\n", OWNED),
    ] {
        let done = becomes(rt.alloc(), a, b, status, line, to);
        assert_eq!(rt; done, Ok(true), "{line}");
    }
}

// An object that names itself, and a mesh, which has a raw block.
const WITH_MESH: &[u8] = b"OB\0\0\x88\0\0\0\0\x01\0\0\0\0\0\0\x03\0\0\0\x01\0\0\0\
    \0\0\0\0\0\0\0\0\0\0\0\0\0\0\0\0\0\0\0\0\0\0\0\0\0\0\0\0\0\0\0\0OBa\0\0\0\0\0\0\0\0\0\0\0\0\
    \0\0\0\0\0\0\0\0\0\0\0\0\0\0\0\0\0\0\0\0\0\0\0\0\0\0\0\0\0\0\0\0\0\0\0\0\0\0\0\0\0\0\0\0\0\
    \0\0\0\0\0\0\0\0\0\0\0\0\0\x01\0\0\0\0\0\0\x10\0\0\0\0\0\0\0\0\0\0\0\0\0\0\0\0\0\0\0\0\0\0\
    \0\
    ME\0\0\x90\0\0\0\x10\0\0\0\0\0\0\0\x04\0\0\0\x01\0\0\0\
    \0\0\0\0\0\0\0\0\0\0\0\0\0\0\0\0\0\0\0\0\0\0\0\0\0\0\0\0\0\0\0\0MEa\0\0\0\0\0\0\0\0\0\0\0\0\
    \0\0\0\0\0\0\0\0\0\0\0\0\0\0\0\0\0\0\0\0\0\0\0\0\0\0\0\0\0\0\0\0\0\0\0\0\0\0\0\0\0\0\0\0\0\
    \0\0\0\0\0\0\0\0\0\0\0\0\x20\0\0\0\0\0\0\0\0\0\0\0\0\0\0\0\0\0\0\0\0\0\0\0\0\0\0\0\0\0\0\0\
    \0\0\0\0\0\0\0\0\
    DATA\x04\0\0\0\x20\0\0\0\0\0\0\0\0\0\0\0\x01\0\0\0\
    abcd";

// The object alone, and where nothing else is kept.
const OBJECT: &[u8] = b"OB\0\0\x88\0\0\0\x10\0\0\0\0\0\0\0\x03\0\0\0\x01\0\0\0\
    \0\0\0\0\0\0\0\0\0\0\0\0\0\0\0\0\0\0\0\0\0\0\0\0\0\0\0\0\0\0\0\0OBa\0\0\0\0\0\0\0\0\0\0\0\0\
    \0\0\0\0\0\0\0\0\0\0\0\0\0\0\0\0\0\0\0\0\0\0\0\0\0\0\0\0\0\0\0\0\0\0\0\0\0\0\0\0\0\0\0\0\0\
    \0\0\0\0\0\0\0\0\0\0\0\0\x10\0\0\0\0\0\0\0\0\0\0\0\0\0\0\0\0\0\0\0\0\0\0\0\0\0\0\0\0\0\0\0";

// Places of the example: the number of structs, and the type of an object's member `data`.
const STRUCTS: usize = 272;

const DATA_TYPE: usize = 344;

const FLOAT: &[u8] = b"\x06";

const VOID: &[u8] = b"\x08";

// Whether blocks over the example end so under its catalogue with other bytes, and become these.
fn are_converted_like(
    alloc: Global,
    blocks: &[u8],
    catalogue: &[u8],
    line: &str,
    to: &[u8],
) -> Result<bool, NoMemory> {
    let file = file_of(alloc, blocks, example(Order::Little))?;
    let other = file_of(alloc, b"", catalogue)?;
    let wanted = file_of(alloc, to, catalogue)?;
    becomes(alloc, &file, &other, 0, line, &wanted)
}

// Whether a mesh whose `totco` meets a float is refused, and an object alone isn't.
fn clashes_in_meshes(alloc: Global) -> Result<bool, NoMemory> {
    let catalogue = changed(alloc, example(Order::Little), LAST_NAME - 2, FLOAT)?;
    let file = file_of(alloc, WITH_MESH, example(Order::Little))?;
    let other = file_of(alloc, b"", &catalogue)?;
    let text = "float cast Mesh.totco\n";
    Ok(
        are_converted_like(
            alloc,
            &WITH_MESH[..160],
            &catalogue,
            "blocks 1 bytes 612\n",
            OBJECT,
        )? && becomes(alloc, &file, &other, 8, text, &file)?,
    )
}

// Whether a group is dropped whose head is a mesh, where there is no such struct.
fn drops_meshes(alloc: Global) -> Result<bool, NoMemory> {
    let fewer = changed(alloc, example(Order::Little), STRUCTS, b"\x04")?;
    let mut catalogue = changed(alloc, &fewer, DATA_TYPE, VOID)?;
    catalogue.truncate(360);
    are_converted_like(alloc, WITH_MESH, &catalogue, "blocks 1 bytes 580\n", OBJECT)
}

#[test]
fn keeps_what_the_other_has(rt: HostRuntime) {
    assert_eq!(rt; clashes_in_meshes(rt.alloc()), Ok(true));
    assert_eq!(rt; drops_meshes(rt.alloc()), Ok(true));
}

// A block of 2,147,483,647 structs that have no bytes.
const EMPTY_STRUCTS: &[u8] = b"BLENDER-v405\
    DATA\0\0\0\0P\0\0\0\0\0\0\0\x01\0\0\0\xff\xff\xff\x7f\
    DNA14\0\0\0\0\0\0\0\0\0\0\0\0\0\0\0\x01\0\0\0\
    SDNANAME\0\0\0\0\
    TYPE\x02\0\0\0One\0S\0\0\0\
    TLEN\0\0\0\0\
    STRC\x02\0\0\0\0\0\0\0\x01\0\0\0\
    ENDB\0\0\0\0\0\0\0\0\0\0\0\0\0\0\0\0\0\0\0\0";

// The same struct with a byte.
const BYTE: &[u8] = b"BLENDER-v405\
    DNA1D\0\0\0\0\0\0\0\0\0\0\0\0\0\0\0\x01\0\0\0\
    SDNANAME\x01\0\0\0c\0\0\0\
    TYPE\x03\0\0\0One\0S\0char\0\0\
    TLEN\0\0\x01\0\x01\0\0\0\
    STRC\x02\0\0\0\0\0\0\0\x01\0\x01\0\x02\0\0\0\
    ENDB\0\0\0\0\0\0\0\0\0\0\0\0\0\0\0\0\0\0\0\0";

// With 65,535 bytes.
const LONG: &[u8] = b"BLENDER-v405\
    DNA1L\0\0\0\0\0\0\0\0\0\0\0\0\0\0\0\x01\0\0\0\
    SDNANAME\x01\0\0\0c[65535]\0\0\0\0\
    TYPE\x03\0\0\0One\0S\0char\0\0\
    TLEN\0\0\xff\xff\x01\0\0\0\
    STRC\x02\0\0\0\0\0\0\0\x01\0\x01\0\x02\0\0\0\
    ENDB\0\0\0\0\0\0\0\0\0\0\0\0\0\0\0\0\0\0\0\0";

// The blocks of a file: 40,000 structs with a byte.
fn many_bytes(alloc: Global) -> Result<Vec<u8>, NoMemory> {
    let mut file = Vec::from_slice(
        alloc,
        b"BLENDER-v405\
        DATA\x40\x9c\0\0P\0\0\0\0\0\0\0\x01\0\0\0\x40\x9c\0\0",
    )?;
    file.resize(40_036, 0)?;
    file.extend_from_slice(&BYTE[12..])?;
    Ok(file)
}

// Whether these are refused where each struct has 65,535 bytes.
fn are_too_long(alloc: Global) -> Result<bool, NoMemory> {
    let file = many_bytes(alloc)?;
    becomes(
        alloc,
        &file,
        LONG,
        9,
        "limit block bytes 2621400000\n",
        &file,
    )
}

#[test]
fn refuses_outputs_past_limits(rt: HostRuntime) {
    assert_eq!(rt; are_too_long(rt.alloc()), Ok(true));
    for (other, line) in [
        (BYTE, "limit file bytes 2147483799\n"),
        (LONG, "limit block bytes 140735340806145\n"),
    ] {
        let refused = becomes(rt.alloc(), EMPTY_STRUCTS, other, 9, line, EMPTY_STRUCTS);
        assert_eq!(rt; refused, Ok(true), "{line}");
    }
}

// The input's faults come before those of the other file.
#[test]
fn refuses_other_catalogues(rt: HostRuntime) {
    for (a, b, line) in [
        (
            b"BLENDER".as_slice(),
            b"BLENDER".as_slice(),
            "bad file a: BadMagic\n",
        ),
        (NUMBERS, b"BLENDER", "bad file b: BadMagic\n"),
    ] {
        let refused = becomes(rt.alloc(), a, b, 6, line, a);
        assert_eq!(rt; refused, Ok(true), "{line}");
    }
}
