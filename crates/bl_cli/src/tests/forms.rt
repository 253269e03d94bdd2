// Runs that convert a file to another width of pointers and another order of bytes, in memory. The bytes were made by a
// script that knows nothing of this program.
use super::runs::{leaves, two_files};
use bl_num::NoMemory;
use std::alloc::Global;

// A mesh with a number below 0, a float and five pointers, and the raw blocks that it names. These are two numbers of 4
// bytes, a float, three pointers and a rest, and bytes. The last pointer leads into a block. A pair stands behind them.
const MESH: &[u8] = b"BLENDER-v405\
    ME\0\00\0\0\0\0\x01\0\0\0\0\0\0\x01\0\0\0\x01\0\0\0\xfe\xff\x03\0\0\0\x80?\0\x02\0\0\0\0\0\
    \0\0\x03\0\0\0\0\0\0\0\x04\0\0\0\0\0\0\0\x05\0\0\0\0\0\0\x04\x02\0\0\0\0\0\0\
    DATA\x08\0\0\0\0\x02\0\0\0\0\0\0\0\0\0\0\x01\0\0\0\x01\0\0\0\x02\0\0\0\
    DATA\x04\0\0\0\0\x03\0\0\0\0\0\0\0\0\0\0\x01\0\0\0\0\0\x80?\
    DATA\x1c\0\0\0\0\x04\0\0\0\0\0\0\0\0\0\0\x01\0\0\0\0\x01\0\0\0\0\0\0\x99\x09\0\0\0\0\0\0\0\
    \x03\0\0\0\0\0\0rest\
    DATA\x04\0\0\0\0\x05\0\0\0\0\0\0\0\0\0\0\x01\0\0\0\x01\x02\x03\x04\
    REND\x0c\0\0\0\0\x06\0\0\0\0\0\0\0\0\0\0\x01\0\0\0\x01\0\0\0\xfa\0\0\0name\
    DNA1\xa8\0\0\0\0\0\0\0\0\0\0\0\0\0\0\0\x01\0\0\0\
    SDNANAME\x09\0\0\0x\0a\0b\0f\0*index\0*co\0**users\0*extra\0*next\0\
    TYPE\x07\0\0\0char\0short\0int\0float\0void\0One\0Mesh\0\0\
    TLEN\x01\0\x02\0\x04\0\x04\0\0\0\x01\00\0\0\0\
    STRC\x02\0\0\0\x05\0\x01\0\0\0\0\0\x06\0\x08\0\x01\0\x01\0\x01\0\x02\0\x03\0\x03\0\x02\0\
    \x04\0\x03\0\x05\0\x06\0\x06\0\x04\0\x07\0\x06\0\x08\0\
    ENDB\0\0\0\0\0\0\0\0\0\0\0\0\0\0\0\0\0\0\0\0";

// The same with pointers of 4 bytes, the highest byte first.
const NARROW: &[u8] = b"BLENDER_V405\0\0\
    ME\0\0\0\x1c\0\0\0\x10\0\0\0\x01\0\0\0\x01\xff\xfe\0\x03?\x80\0\0\0\0\0 \0\0\00\0\0\0@\0\0\
    \0P\0\0\0\0\
    DATA\0\0\0\x08\0\0\0 \0\0\0\0\0\0\0\x01\0\0\0\x01\0\0\0\x02\
    DATA\0\0\0\x04\0\0\00\0\0\0\0\0\0\0\x01?\x80\0\0\
    DATA\0\0\0\x0c\0\0\0@\0\0\0\0\0\0\0\x01\0\0\0\x10\0\0\0\0\0\0\00\
    DATA\0\0\0\x04\0\0\0P\0\0\0\0\0\0\0\x01\x01\x02\x03\x04\
    REND\0\0\0\x0c\0\0\0`\0\0\0\0\0\0\0\x01\0\0\0\x01\0\0\0\xfaname\
    DNA1\0\0\0\xa8\0\0\0\0\0\0\0\0\0\0\0\x01\
    SDNANA\
    ME\0\0\0\x09x\0a\0b\0f\0*index\0*co\0**users\0*extra\0*next\0\
    TYPE\0\0\0\x07char\0short\0int\0float\0void\0One\0Mesh\0\0\
    TLEN\0\x01\0\x02\0\x04\0\x04\0\0\0\x01\0\x1c\0\0\
    STRC\0\0\0\x02\0\x05\0\x01\0\0\0\0\0\x06\0\x08\0\x01\0\x01\0\x01\0\x02\0\x03\0\x03\0\x02\0\
    \x04\0\x03\0\x05\0\x06\0\x06\0\x04\0\x07\0\x06\0\x08\
    ENDB\0\0\0\0\0\0\0\0\0\0\0\0\0\0\0\0";

// And back: of the pointers no rest is left, and the addresses are new.
const OWN: &[u8] = b"BLENDER-v405\
    ME\0\00\0\0\0\x10\0\0\0\0\0\0\0\x01\0\0\0\x01\0\0\0\xfe\xff\x03\0\0\0\x80? \0\0\0\0\0\0\00\
    \0\0\0\0\0\0\0@\0\0\0\0\0\0\0P\0\0\0\0\0\0\0\0\0\0\0\0\0\0\0\
    DATA\x08\0\0\0 \0\0\0\0\0\0\0\0\0\0\0\x01\0\0\0\x01\0\0\0\x02\0\0\0\
    DATA\x04\0\0\00\0\0\0\0\0\0\0\0\0\0\0\x01\0\0\0\0\0\x80?\
    DATA\x18\0\0\0@\0\0\0\0\0\0\0\0\0\0\0\x01\0\0\0\x10\0\0\0\0\0\0\0\0\0\0\0\0\0\0\00\0\0\0\0\
    \0\0\0\
    DATA\x04\0\0\0P\0\0\0\0\0\0\0\0\0\0\0\x01\0\0\0\x01\x02\x03\x04\
    REND\x0c\0\0\0`\0\0\0\0\0\0\0\0\0\0\0\x01\0\0\0\x01\0\0\0\xfa\0\0\0name\
    DNA1\xa8\0\0\0\0\0\0\0\0\0\0\0\0\0\0\0\x01\0\0\0\
    SDNANAME\x09\0\0\0x\0a\0b\0f\0*index\0*co\0**users\0*extra\0*next\0\
    TYPE\x07\0\0\0char\0short\0int\0float\0void\0One\0Mesh\0\0\
    TLEN\x01\0\x02\0\x04\0\x04\0\0\0\x01\00\0\0\0\
    STRC\x02\0\0\0\x05\0\x01\0\0\0\0\0\x06\0\x08\0\x01\0\x01\0\x01\0\x02\0\x03\0\x03\0\x02\0\
    \x04\0\x03\0\x05\0\x06\0\x06\0\x04\0\x07\0\x06\0\x08\0\
    ENDB\0\0\0\0\0\0\0\0\0\0\0\0\0\0\0\0\0\0\0\0";

// A catalogue for pointers of 4 bytes, the highest byte first. A number of 2 bytes has 4 there, another is missing, and
// pointers stand in another order: one of them names numbers of 2 bytes, and another anything.
const CAT: &[u8] = b"BLENDER_V300\
    DNA1\0\0\0\x98\0\0\0\0\0\0\0\0\0\0\0\x01\
    SDNANA\
    ME\0\0\0\x07x\0a\0f\0*next\0*index\0*co\0**users\0\0\
    TYPE\0\0\0\x07char\0int\0short\0float\0void\0One\0Mesh\0\0\
    TLEN\0\x01\0\x04\0\x02\0\x04\0\0\0\x01\0\x18\0\0\
    STRC\0\0\0\x02\0\x05\0\x01\0\0\0\0\0\x06\0\x06\0\x01\0\x01\0\x03\0\x02\0\x06\0\x03\0\x02\0\
    \x04\0\x03\0\x05\0\x04\0\x06\
    ENDB\0\0\0\0\0\0\0\0\0\0\0\0\0\0\0\0";

// The mesh under it, in its own form, and in that of the other file.
const LIKE: &[u8] = b"BLENDER-v300\
    ME\0\0(\0\0\0\x10\0\0\0\0\0\0\0\x01\0\0\0\x01\0\0\0\xfe\xff\xff\xff\0\0\x80?\0\0\0\0\0\0\0\
    \0 \0\0\0\0\0\0\00\0\0\0\0\0\0\0@\0\0\0\0\0\0\0\
    DATA\x08\0\0\0 \0\0\0\0\0\0\0\0\0\0\0\x01\0\0\0\x01\0\0\0\x02\0\0\0\
    DATA\x04\0\0\00\0\0\0\0\0\0\0\0\0\0\0\x01\0\0\0\0\0\x80?\
    DATA\x18\0\0\0@\0\0\0\0\0\0\0\0\0\0\0\x01\0\0\0\x10\0\0\0\0\0\0\0\0\0\0\0\0\0\0\00\0\0\0\0\
    \0\0\0\
    DATA\x04\0\0\0P\0\0\0\0\0\0\0\0\0\0\0\x01\0\0\0\x01\x02\x03\x04\
    REND\x0c\0\0\0`\0\0\0\0\0\0\0\0\0\0\0\x01\0\0\0\x01\0\0\0\xfa\0\0\0name\
    DNA1\x98\0\0\0\0\0\0\0\0\0\0\0\0\0\0\0\x01\0\0\0\
    SDNANAME\x07\0\0\0x\0a\0f\0*next\0*index\0*co\0**users\0\0\
    TYPE\x07\0\0\0char\0int\0short\0float\0void\0One\0Mesh\0\0\
    TLEN\x01\0\x04\0\x02\0\x04\0\0\0\x01\0(\0\0\0\
    STRC\x02\0\0\0\x05\0\x01\0\0\0\0\0\x06\0\x06\0\x01\0\x01\0\x03\0\x02\0\x06\0\x03\0\x02\0\
    \x04\0\x03\0\x05\0\x04\0\x06\0\
    ENDB\0\0\0\0\0\0\0\0\0\0\0\0\0\0\0\0\0\0\0\0";

const LIKE_NARROW: &[u8] = b"BLENDER_V300\0\0\
    ME\0\0\0\x18\0\0\0\x10\0\0\0\x01\0\0\0\x01\xff\xff\xff\xfe?\x80\0\0\0\0\0\0\0\0\0 \0\0\00\
    \0\0\0@\
    DATA\0\0\0\x08\0\0\0 \0\0\0\0\0\0\0\x01\0\x01\0\0\0\x02\0\0\
    DATA\0\0\0\x04\0\0\00\0\0\0\0\0\0\0\x01?\x80\0\0\
    DATA\0\0\0\x0c\0\0\0@\0\0\0\0\0\0\0\x01\0\0\0\x10\0\0\0\0\0\0\00\
    DATA\0\0\0\x04\0\0\0P\0\0\0\0\0\0\0\x01\x01\x02\x03\x04\
    REND\0\0\0\x0c\0\0\0`\0\0\0\0\0\0\0\x01\0\0\0\x01\0\0\0\xfaname\
    DNA1\0\0\0\x98\0\0\0\0\0\0\0\0\0\0\0\x01\
    SDNANA\
    ME\0\0\0\x07x\0a\0f\0*next\0*index\0*co\0**users\0\0\
    TYPE\0\0\0\x07char\0int\0short\0float\0void\0One\0Mesh\0\0\
    TLEN\0\x01\0\x04\0\x02\0\x04\0\0\0\x01\0\x18\0\0\
    STRC\0\0\0\x02\0\x05\0\x01\0\0\0\0\0\x06\0\x06\0\x01\0\x01\0\x03\0\x02\0\x06\0\x03\0\x02\0\
    \x04\0\x03\0\x05\0\x04\0\x06\
    ENDB\0\0\0\0\0\0\0\0\0\0\0\0\0\0\0\0";

// Nothing but a catalogue for pointers of 4 bytes, whose struct is too long with longer ones.
const LONG: &[u8] = b"BLENDER_v405\
    DNA1X\0\0\0\0\0\0\0\0\0\0\0\x01\0\0\0\
    SDNANAME\x02\0\0\0x\0*p[16383]\0\
    TYPE\x04\0\0\0char\0void\0One\0Many\0\0\
    TLEN\x01\0\0\0\x01\0\xfc\xff\
    STRC\x02\0\0\0\x02\0\x01\0\0\0\0\0\x03\0\x01\0\x01\0\x01\0\
    ENDB\0\0\0\0\0\0\0\0\0\0\0\0\0\0\0\0";

// Whether a file in place of which the output goes ends so, with `b` beside it.
fn becomes(
    alloc: Global,
    a: &[u8],
    options: &[&str],
    status: u8,
    line: &str,
    to: &[u8],
) -> Result<bool, NoMemory> {
    let scene = two_files(a, CAT);
    leaves(
        alloc,
        &scene,
        options,
        status,
        line.as_bytes(),
        to,
        Some(CAT),
    )
}

#[test]
fn converts_to_other_forms(rt: HostRuntime) {
    const WIDE: &str = "blocks 6 bytes 472\n";
    const SHORT: &str = "blocks 6 bytes 408\n";
    for (a, words, status, line, to) in [
        (
            MESH,
            ["convert", "a", "a", "--width", "4", "--order", "big"].as_slice(),
            0,
            SHORT,
            NARROW,
        ),
        (
            NARROW,
            &["convert", "a", "a", "--order", "little", "--width", "8"],
            0,
            WIDE,
            OWN,
        ),
        (MESH, &["convert", "a", "a", "--width", "8"], 0, WIDE, OWN),
        (
            MESH,
            &["convert", "a", "a", "--order", "little"],
            0,
            WIDE,
            OWN,
        ),
        (
            MESH,
            &["convert", "a", "a", "--like", "b"],
            0,
            "blocks 6 bytes 448\n",
            LIKE,
        ),
        (
            MESH,
            &[
                "convert", "a", "a", "--order", "big", "--like", "b", "--width", "4",
            ],
            0,
            "blocks 6 bytes 388\n",
            LIKE_NARROW,
        ),
        (
            LONG,
            &["convert", "a", "a", "--width", "8"],
            9,
            "limit type bytes 131064\n",
            LONG,
        ),
    ] {
        let made = becomes(rt.alloc(), a, words, status, line, to);
        assert_eq!(rt; made, Ok(true), "{line}");
    }
}
