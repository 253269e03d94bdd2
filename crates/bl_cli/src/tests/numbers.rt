// Numbers in bytes, and lists of public types.
use bl_num::Order::{Big, Little};
use bl_num::{Items, Order, Text, Whole, cast, read_whole, value_of, write_whole};
use std::test::Fail;

const NUMBER: u64 = 0x8102_0304_8506_0708;

// What is written of a number into 1, 2, 4 and 8 bytes.
fn written(order: Order, value: u64) -> ([u8; 1], [u8; 2], [u8; 4], [u8; 8]) {
    let (mut one, mut two, mut four, mut eight) = ([0; 1], [0; 2], [0; 4], [0; 8]);
    write_whole(order, value, &mut one);
    write_whole(order, value, &mut two);
    write_whole(order, value, &mut four);
    write_whole(order, value, &mut eight);
    (one, two, four, eight)
}

// What is read of it again.
fn read_again(order: Order, value: u64) -> [u64; 4] {
    let (one, two, four, eight) = written(order, value);
    [
        read_whole(order, &one),
        read_whole(order, &two),
        read_whole(order, &four),
        read_whole(order, &eight),
    ]
}

#[test]
fn reads_what_it_writes(rt: HostRuntime) {
    for (order, bytes) in [
        (
            Little,
            (
                *b"\x08",
                *b"\x08\x07",
                *b"\x08\x07\x06\x85",
                *b"\x08\x07\x06\x85\x04\x03\x02\x81",
            ),
        ),
        (
            Big,
            (
                *b"\x08",
                *b"\x07\x08",
                *b"\x85\x06\x07\x08",
                *b"\x81\x02\x03\x04\x85\x06\x07\x08",
            ),
        ),
    ] {
        assert_eq!(rt; written(order, NUMBER), bytes);
        assert_eq!(rt;
            read_again(order, NUMBER),
            [0x08, 0x0708, 0x8506_0708, NUMBER]
        );
    }
}

#[test]
fn keeps_elements(rt: HostRuntime) -> Result<(), Fail> {
    let items = Items::from_vec(vec![in rt.alloc(); 7u32, 8]?);
    assert_eq!(rt; items.as_slice(), [7, 8].as_slice());
    assert_eq!(rt; items.into_vec().as_slice(), [7, 8].as_slice());
    let text = Text::from_vec(vec![in rt.alloc(); 0xffu8]?);
    assert_eq!(rt; text.as_slice(), b"\xff".as_slice());
    assert_eq!(rt; text.into_vec().as_slice(), b"\xff".as_slice());
    Ok(())
}

const SHORT: Whole = Whole {
    bytes: 2,
    signed: true,
};

const INT: Whole = Whole {
    bytes: 4,
    signed: true,
};

const UCHAR: Whole = Whole {
    bytes: 1,
    signed: false,
};

#[test]
fn carries_whole_numbers(rt: HostRuntime) {
    for (value, from, to, carried, old, new) in [
        (0xffff, SHORT, INT, 0xffff_ffff, -1, -1),
        (70000, INT, SHORT, 4464, 70000, 4464),
        (200, UCHAR, INT, 200, 200, 200),
    ] {
        assert_eq!(rt; cast(value, from, to), carried);
        assert_eq!(rt; value_of(value, from), old);
        assert_eq!(rt; value_of(carried, to), new);
    }
}
