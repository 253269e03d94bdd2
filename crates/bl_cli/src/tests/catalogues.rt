// Catalogues, read and written.
use super::examples::{
    LAST_NAME, LAST_PADDING, LAST_STRUCT, PADDING, USHORT, catalogue_in, catalogue_with, changed,
    example,
};
use bl_num::Order;
use bl_num::Order::{Big, Little};
use bl_plan::known_structs;
use bl_sdna::{SdnaFault, struct_named, type_named, write_catalogue};
use std::alloc::Global;

// Whether what is written of the example in an order is the example.
fn is_written_again(alloc: Global, order: Order) -> Option<bool> {
    let Ok(catalogue) = catalogue_in(alloc, order, example(order)) else {
        return None;
    };
    let written = write_catalogue(alloc, order, &catalogue).ok()?;
    Some(written.as_slice() == example(order))
}

#[test]
fn writes_what_was_read(rt: HostRuntime) {
    assert_eq!(rt; is_written_again(rt.alloc(), Little), Some(true));
    assert_eq!(rt; is_written_again(rt.alloc(), Big), Some(true));
}

// Which struct and which type of the example have a name.
fn numbers_of(alloc: Global, name: &[u8]) -> Option<(Option<u32>, Option<u32>)> {
    let Ok(catalogue) = catalogue_in(alloc, Little, example(Little)) else {
        return None;
    };
    Some((struct_named(&catalogue, name), type_named(&catalogue, name)))
}

// Which struct of the example the table of names has for a name.
fn known_number_of(alloc: Global, name: &[u8]) -> Option<Option<u32>> {
    let Ok(catalogue) = catalogue_in(alloc, Little, example(Little)) else {
        return None;
    };
    let Ok(known) = known_structs(alloc, &catalogue) else {
        return None;
    };
    Some(known.get(&name).copied())
}

#[test]
fn finds_names(rt: HostRuntime) {
    for (name, numbers) in [
        (b"Object".as_slice(), (Some(3), Some(12))),
        (b"int", (None, Some(4))),
        (b"Objects", (None, None)),
    ] {
        assert_eq!(rt; numbers_of(rt.alloc(), name), Some(numbers));
        assert_eq!(rt; known_number_of(rt.alloc(), name), Some(numbers.0));
    }
}

// How many structs the example has with other bytes from a place on.
fn count_with(alloc: Global, at: usize, part: &[u8]) -> Result<usize, SdnaFault> {
    let catalogue = catalogue_with(alloc, Little, at, part)?;
    Ok(catalogue.structs.as_slice().len())
}

#[test]
fn reads_or_refuses(rt: HostRuntime) {
    for (at, part, want) in [
        (PADDING, b"\x01".as_slice(), Ok(5)),
        (LAST_PADDING, b"T", Ok(5)),
        (392, b"rest", Ok(5)),
        (3, b"B", Err(SdnaFault::BadTag(0))),
        (LAST_NAME, b"\x14", Err(SdnaFault::BadIndex(390))),
        (LAST_STRUCT, b"\x0c", Err(SdnaFault::TwoStructs(360))),
        (USHORT, b"short\0", Err(SdnaFault::TwoTypes(169))),
    ] {
        assert_eq!(rt; count_with(rt.alloc(), at, part), want);
    }
}

// Why the first bytes of the example aren't a catalogue.
fn fault_of(alloc: Global, len: usize) -> Option<SdnaFault> {
    catalogue_in(alloc, Little, example(Little).get(..len)?).err()
}

#[test]
fn refuses_what_is_cut(rt: HostRuntime) {
    for (len, at) in [(3, 0), (PADDING, 144), (LAST_NAME, 390)] {
        assert_eq!(rt; fault_of(rt.alloc(), len), Some(SdnaFault::CutShort(at)));
    }
}
