// Plans, and what elements become by them.
ghost use Rattle.std.specs.Prelude.{◌≡◌};

use super::examples::catalogue_in;
use super::raw_data::OneName;
use bl_layout::Layout;
use bl_num::Order::{Big, Little};
use bl_num::Width;
use bl_plan::Plan;
use bl_rebuild::apply;
use std::alloc::Global;

// A struct of 24 bytes: a number, two shorts, a pointer, four bytes of text and a float.
const CATALOGUE: &[u8] = b"SDNANAME\x05\0\0\0a\0b[2]\0*p\0c[4]\0f\0\0\0\0\
    TYPE\x06\0\0\0char\0short\0int\0float\0void\0S\0TLEN\x01\0\x02\0\x04\0\x04\0\0\0\x18\0\
    STRC\x01\0\0\0\x05\0\x05\0\x02\0\0\0\x01\0\x01\0\x04\0\x02\0\0\0\x03\0\x03\0\x04\0";

// Carries an element of the one struct from pointers of 8 bytes and the lowest byte first to pointers
// of 4 bytes and the highest byte first.
fn carry(alloc: Global, wide: &Layout, narrow: &Layout, src: &[u8], dst: &mut [u8]) -> bool
    requires { narrow.now.catalogue ≡ wide.now.catalogue }
{
    if wide.struct_count() == 0
        || wide.length(0) as usize != src.len()
        || wide.length(0) as usize != dst.len()
    {
        return false;
    }
    match Plan::compile(alloc, wide, 0, narrow, 0) {
        Ok(plan) => {
            apply(&plan, src, Little, Big, &OneName, dst);
            true
        }
        Err(_) => false,
    }
}

// What becomes so of an element whose pointer names the second node.
fn carried(alloc: Global, src: &[u8]) -> Option<[u8; 24]> {
    let catalogue = match catalogue_in(alloc, Little, CATALOGUE) {
        Ok(catalogue) => catalogue,
        Err(_) => return None,
    };
    let wide = match Layout::new(alloc, &catalogue, Width::Eight) {
        Ok(layout) => layout,
        Err(_) => return None,
    };
    let narrow = match Layout::new(alloc, &catalogue, Width::Four) {
        Ok(layout) => layout,
        Err(_) => return None,
    };
    let mut dst = [b'?'; 24];
    if carry(alloc, &wide, &narrow, src, &mut dst) {
        Some(dst)
    } else {
        None
    }
}

#[test]
fn carries_an_element(rt: HostRuntime) {
    let found = carried(
        rt.alloc(),
        b"\x01\x02\x03\x04\x05\x06\x07\x08\x42\x41\0\0\0\0\0\0WXYZ\x09\x0a\x0b\x0c",
    );
    let want = *b"\x04\x03\x02\x01\x06\x05\x08\x07\0\0\0\x20WXYZ\x0c\x0b\x0a\x09\0\0\0\0";
    assert_eq!(rt; found, Some(want));
}
