// Headers, the heads of blocks, and the blocks of whole files.
use bl_blocks::{all_blocks, head_size, next_block, write_head};
use bl_format::{BlockFault, Head, HeadFault, Header, Step};
use bl_header::{HEADER_SIZE, parse_header, write_header};
use bl_num::{Order, Width};
use std::alloc::Global;

const OLD: Header = Header {
    width: Width::Four,
    order: Order::Big,
    version: 250,
};

const NEW: Header = Header {
    width: Width::Eight,
    order: Order::Little,
    version: 405,
};

#[test]
fn reads_headers(rt: HostRuntime) {
    for (bytes, want) in [
        (b"BLENDER_V250".as_slice(), Ok(OLD)),
        (b"BLENDER-v405REND", Ok(NEW)),
        (b"", Err(HeadFault::BadMagic)),
        (b"BLENDER-v40", Err(HeadFault::BadMagic)),
        (b"blender-v405", Err(HeadFault::BadMagic)),
        (b"\x1f\x8b\x08", Err(HeadFault::Compressed)),
        (b"\x28\xb5\x2f\xfd", Err(HeadFault::Compressed)),
        (b"BLENDER+v405", Err(HeadFault::BadMark(7))),
        (b"BLENDER-x405", Err(HeadFault::BadMark(8))),
        (b"BLENDER-v4a5", Err(HeadFault::BadMark(10))),
        (b"BLENDER-v249", Err(HeadFault::BadVersion(249))),
        (b"BLENDER-v500", Err(HeadFault::BadVersion(500))),
    ] {
        assert_eq!(rt; parse_header(bytes), want);
    }
}

#[test]
fn writes_headers(rt: HostRuntime) {
    assert_eq!(rt; write_header(&OLD), *b"BLENDER_V250");
    assert_eq!(rt; write_header(&NEW), *b"BLENDER-v405");
}

// A block of two letters.
const OBJECT: Head = Head {
    code: *b"OB\0\0",
    len: 3,
    address: 0x1234_5678,
    index: 5,
    count: 1,
    at: 40,
};

// The blocks of a file of version 2.79 with pointers of four bytes.
fn blocks_of(alloc: Global, order: Order, bytes: &[u8]) -> Result<Vec<Head>, BlockFault> {
    if bytes.len() < HEADER_SIZE {
        return Err(BlockFault::Truncated(0));
    }
    let header = Header {
        width: Width::Four,
        order,
        version: 279,
    };
    all_blocks(alloc, &header, bytes)
}

#[test]
fn reads_blocks(rt: HostRuntime) -> Result<(), BlockFault> {
    let bytes = b"BLENDER_V279\0\0OB\0\0\0\x03\x12\x34\x56\x78\0\0\0\x05\0\0\0\x01abcENDBrest";
    let blocks = blocks_of(rt.alloc(), Order::Big, bytes)?;
    let object = Head { at: 12, ..OBJECT };
    assert_eq!(rt; blocks.as_slice(), [object].as_slice());
    for (bytes, want) in [
        (b"BLENDER_v279END".as_slice(), BlockFault::Truncated(12)),
        (b"BLENDER_v279TEST\0\0\0\0", BlockFault::Truncated(12)),
        (
            b"BLENDER_v279TEST\0\0\0\x80\x01\0\0\0\xff\xff\xff\xff\x01\0\0\0",
            BlockFault::NegativeLength(12),
        ),
        (
            b"BLENDER_v279TEST\x01\0\0\0\x01\0\0\0\xff\xff\xff\xff\xff\xff\xff\xff",
            BlockFault::NegativeIndex(12),
        ),
        (
            b"BLENDER_v279TEST\x01\0\0\0\x01\0\0\0\x01\0\0\0\xff\xff\xff\xff",
            BlockFault::NegativeCount(12),
        ),
        (
            b"BLENDER_v279TEST\x01\0\0\0\x01\0\0\0\x01\0\0\0\x01\0\0\0",
            BlockFault::Truncated(12),
        ),
        (
            b"BLENDER_v279TEST\0\0\0\0\x01\0\0\0\x01\0\0\0\x01\0\0\0EN",
            BlockFault::Truncated(32),
        ),
    ] {
        let fault = blocks_of(rt.alloc(), Order::Little, bytes).err();
        assert_eq!(rt; fault, Some(want));
    }
    Ok(())
}

const HIGH_EIGHT: Header = Header {
    width: Width::Eight,
    order: Order::Big,
    version: 279,
};

#[test]
fn writes_and_reads_heads(rt: HostRuntime) {
    let mut bytes = [0; 24];
    write_head(&HIGH_EIGHT, &OBJECT, &mut bytes);
    let want = b"\0\0OB\0\0\0\x03\0\0\0\0\x12\x34\x56\x78\0\0\0\x05\0\0\0\x01";
    assert_eq!(rt; bytes, *want);
    assert_eq!(rt; head_size(&HIGH_EIGHT), 24);
    let step = next_block(&HIGH_EIGHT, &bytes, 40, 67);
    assert_eq!(rt; step, Ok(Step::Block(OBJECT)));
    let cut = next_block(&HIGH_EIGHT, &bytes, 40, 66);
    assert_eq!(rt; cut, Err(BlockFault::Truncated(40)));
    assert_eq!(rt; next_block(&HIGH_EIGHT, b"ENDB", 40, 44), Ok(Step::End));
}
