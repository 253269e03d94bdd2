// Files that are opened, and the bytes of their parts.
ghost use Rattle.std.specs.Prelude.{◌≡◌, ◌≤◌};
ghost use Rattle.bl_format.specs.Limits.{most_input_bytes};
ghost use Rattle.bl_file.specs.Calls.{IsOpen};

use bl_file::{
    Head, Header, OpenFault, Opened, Outline, PagedPayload, Payload, RawKind, WholePayload, open,
};
use bl_num::{NoMemory, Order, Width};
use bl_shelf::{MemoryShelf, Shelf, ShelfFault, SteadyShelf};
use std::alloc::Global;
use std::test::Fail;

// A raw block at 12, whose payload stands at 36, and a catalogue without structs.
const SMALL: &[u8] = b"BLENDER-v405\
    DATA\x04\0\0\0\0\x10\0\0\0\0\0\0\0\0\0\0\x01\0\0\0\x01\x02\x03\x04\
    DNA1\x20\0\0\0\x05\0\0\0\0\0\0\0\0\0\0\0\x07\0\0\0\
    SDNANAME\0\0\0\0TYPE\0\0\0\0TLENSTRC\0\0\0\0\
    ENDB";

// The same of version 2.79, with addresses of four bytes and the high bytes first, so that the
// payload stands at 32, and with bytes behind the end.
const BIG: &[u8] = b"BLENDER_V279\
    DATA\0\0\0\x04\0\0\x10\0\0\0\0\0\0\0\0\x01\x01\x02\x03\x04\
    DNA1\0\0\0\x20\0\0\0\x05\0\0\0\0\0\0\0\x07\
    SDNANAME\0\0\0\0TYPE\0\0\0\0TLENSTRC\0\0\0\0\
    ENDBrestrest";

// The most bytes that the files of a run may have.
const MOST: u64 = 1_073_741_824;

const LOW_EIGHT: Header = Header {
    width: Width::Eight,
    order: Order::Little,
    version: 405,
};

const HIGH_FOUR: Header = Header {
    width: Width::Four,
    order: Order::Big,
    version: 279,
};

// Whether a file of 100 bytes is read as this header and one raw block, that the block's address
// names.
fn is_one_block(outline: &Outline, header: Header) -> bool {
    let block = Head {
        code: *b"DATA",
        len: 4,
        address: 0x1000,
        index: 0,
        count: 1,
        at: 12,
    };
    outline.size == 100
        && outline.header == header
        && outline.layout.struct_count() == 0
        && outline.nodes.as_slice() == [block].as_slice()
        && outline.ids.as_slice() == [false].as_slice()
        && outline.table.resolve(0, 0x1000) == Some(0)
        && outline.kinds.as_slice() == [RawKind::Bytes].as_slice()
}

// Opens a file behind others of so many bytes.
fn opened_on<P: Payload, S: Shelf>(
    alloc: Global,
    shelf: &mut S,
    name: &str,
    used: u64,
) -> Result<Opened<P>, OpenFault>
    requires { used ≤ most_input_bytes }
{
    open(alloc, shelf, name, used)
}

// The same of the file `a` with these bytes.
fn opened<P: Payload>(alloc: Global, bytes: &[u8], used: u64) -> Result<Opened<P>, OpenFault>
    requires { used ≤ most_input_bytes }
{
    let mut shelf = SteadyShelf::new(alloc);
    shelf.hold("a", bytes)?;
    opened_on(alloc, &mut shelf, "a", used)
}

// Whether a file is read as one raw block, however its bytes are held.
fn is_read(alloc: Global, bytes: &[u8], header: Header) -> Result<bool, OpenFault> {
    let whole: Opened<WholePayload> = opened(alloc, bytes, 0)?;
    let paged: Opened<PagedPayload> = opened(alloc, bytes, MOST - 100)?;
    Ok(is_one_block(&whole.outline, header) && is_one_block(&paged.outline, header))
}

// Whether a part of a file is copied, where it has one at that place.
fn copies_out<P: Payload, S: Shelf>(
    payload: &mut P,
    shelf: &mut S,
    size: u64,
    at: u64,
    part: &mut [u8],
) -> bool
    requires size { P.file_size payload.old ≡ size }
    requires held { IsOpen S.Shelf P.Payload shelf.old payload.old }
{
    let len = part.len() as u64;
    if size < len || size - len < at {
        return false;
    }
    payload.copy_out(shelf, at, part).is_ok()
}

// The same of the file `a`.
fn copies<P: Payload, S: Shelf>(alloc: Global, shelf: &mut S, at: u64, part: &mut [u8]) -> bool {
    match open::<S, P>(alloc, shelf, "a", 0) {
        Ok(mut file) => copies_out(&mut file.payload, shelf, file.outline.size, at, part),
        Err(_) => false,
    }
}

// Four bytes of a file from a place on.
fn part_of(alloc: Global, bytes: &[u8], at: u64) -> Result<Option<[u8; 4]>, NoMemory> {
    let mut shelf = SteadyShelf::new(alloc);
    shelf.hold("a", bytes)?;
    let mut part = [0; 4];
    if copies::<PagedPayload, SteadyShelf>(alloc, &mut shelf, at, &mut part) {
        Ok(Some(part))
    } else {
        Ok(None)
    }
}

#[test]
fn opens(rt: HostRuntime) -> Result<(), Fail> {
    let alloc = rt.alloc();
    for (bytes, header, at) in [(SMALL, LOW_EIGHT, 36), (BIG, HIGH_FOUR, 32)] {
        assert!(rt; is_read(alloc, bytes, header)?);
        assert_eq!(rt; part_of(alloc, bytes, at), Ok(Some([1, 2, 3, 4])));
    }
    Ok(())
}

// Whether a file is too large, or isn't there, as the only one of a run or behind others.
fn is_too_large(alloc: Global, used: u64, sum: u64) -> bool
    requires { used ≤ most_input_bytes }
{
    let file: Result<Opened<PagedPayload>, OpenFault> = opened(alloc, SMALL, used);
    matches!(file, Err(OpenFault::TooLarge(found)) if found == sum)
}

fn is_absent(alloc: Global) -> bool {
    let mut shelf = SteadyShelf::new(alloc);
    let file: Result<Opened<PagedPayload>, OpenFault> = opened_on(alloc, &mut shelf, "b", 0);
    matches!(file, Err(OpenFault::Absent))
}

#[test]
fn refuses(rt: HostRuntime) {
    assert!(rt; is_too_large(rt.alloc(), MOST - 99, MOST + 1));
    assert!(rt; is_absent(rt.alloc()));
}

// Copies the part at one place of the file `a` and then, over it, the one at another, and answers
// what the first copy ends with.
fn copy_twice<P: Payload, S: Shelf>(
    alloc: Global,
    shelf: &mut S,
    places: [u64; 2],
    part: &mut [u8],
) -> Result<Result<(), ShelfFault>, ShelfFault> {
    let size = shelf.size("a")?;
    let mut payload = P::start(alloc, shelf, "a", size)?;
    let [first, second] = places;
    let len = part.len() as u64;
    if size < len || size - len < first || size - len < second {
        return Err(ShelfFault::Absent);
    }
    let ended = payload.copy_out(shelf, first, part);
    payload.copy_out(shelf, second, part)?;
    Ok(ended)
}

// What the first copy ends with on a shelf with a failing call, and the last bytes of the second.
fn copied<P: Payload>(
    alloc: Global,
    failing: u64,
    places: [u64; 2],
    len: usize,
    want: &[u8],
) -> Result<(Result<(), ShelfFault>, bool), ShelfFault> {
    let mut file = vec![in alloc; b'.'; 65_534]?;
    file.extend_from_slice(b"abcdefghij")?;
    let mut shelf = MemoryShelf::new(alloc, vec![in alloc; failing]?, false);
    match shelf.hold("a", &file) {
        Ok(()) => {}
        Err(_) => return Err(ShelfFault::NoMemory),
    }
    let mut part = vec![in alloc; 0; len]?;
    let ended = copy_twice::<P, MemoryShelf>(alloc, &mut shelf, places, &mut part)?;
    Ok((ended, part.ends_with(want)))
}

// The file's size is asked for by call 0, and its first page is read by call 1, or all of it. So a
// call 2 is the first that reads another page, or a part that goes by no page.
#[test]
fn copies_parts(rt: HostRuntime) {
    let failed = Err(ShelfFault::Failed);
    for (failing, places, len, ended, want) in [
        (9, [0, 65_534], 2, Ok(()), b"ab".as_slice()),
        (9, [0, 65_534], 5, Ok(()), b"abcde"),
        (9, [65_540, 65_535], 4, Ok(()), b"bcde"),
        (9, [0, 9], 65_535, Ok(()), b".abcdefghij"),
        (9, [0, 2], 65_542, Ok(()), b".abcdefghij"),
        (2, [65_537, 65_537], 4, failed, b"defg"),
        (2, [0, 8], 65_536, failed, b".abcdefghij"),
    ] {
        let paged = copied::<PagedPayload>(rt.alloc(), failing, places, len, want);
        assert_eq!(rt; paged, Ok((ended, true)));
        let whole = copied::<WholePayload>(rt.alloc(), failing, places, len, want);
        assert_eq!(rt; whole, Ok((Ok(()), true)));
    }
}
