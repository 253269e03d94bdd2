// A file of which one page is held.
ghost use Rattle.std.specs.Prelude.{◌≡◌, ◌≢◌, ◌+◌, ◌-◌, ◌<◌, ◌≤◌, ◌%◌, min, take, length, IfOk, OnOk};
ghost use Rattle.std.specs.Vec.{vec_len};
ghost use Rattle.bl_shelf.specs.Calls.{Keeps, Counts};
ghost use Rattle.bl_shelf.specs.Contents.{Reaches, AreBytesAt, IsAbsentExactly};
ghost use Rattle.bl_file.specs.Frames.{CountsReads};

use crate::Payload;
use bl_num::copy_part;
use bl_shelf::{Shelf, ShelfFault};
use std::alloc::Global;

// The bytes of a page, or fewer where the file ends before.
const PAGE_SIZE: u64 = 65_536;

/// A file of which one page is held. A page begins at a multiple of 65,536 and is read whole, or up
/// to the file's end. A part of 65,536 bytes or more is read to where it goes, and not by pages.
#[derive(Drop)]
pub struct PagedPayload {
    name: String,
    size: u64,
    // Where the page stands in the file, and how many of its bytes are read.
    page_at: u64,
    filled: usize,
    page: Vec<u8>,
    ghost within: { filled ≤ vec_len page },
    ghost begins: { page_at % 65536 ≡ 0 },
    ghost long: { vec_len page ≡ min size 65536 },
}

impl PagedPayload {
    ghost use Rattle.bl_file.specs.Paged.{IsPaged, StaysPaged, page_name};

    // Reads the page that has a place, unless it is held. After a failure none is held.
    fn hold_page<S: Shelf>(&mut self, shelf: &mut S, at: u64) -> Result<(), ShelfFault>
        requires inside { at < self.old.size }
        requires held { IsPaged S.Shelf shelf.old self.old }
        ensures page_at { OnOk result (self.new.page_at ≡ at - at % 65536) }
        ensures filled { OnOk result (at % 65536 < self.new.filled) }
        ensures stays { StaysPaged S.Shelf shelf.old shelf.new self.old self.new }
        ensures cause { CountsReads S.Shelf shelf.old shelf.new result }
        ensures no_memory { result ≢ Err ShelfFault.NoMemory }
    {
        let page_at = at - at % PAGE_SIZE;
        if self.page_at == page_at && at % PAGE_SIZE < self.filled as u64 {
            return Ok(());
        }
        let filled = (self.size - page_at).min(self.page.len() as u64) as usize;
        self.filled = 0;
        read_page(shelf, self.name.as_str(), page_at, &mut self.page, filled)?;
        self.page_at = page_at;
        self.filled = filled;
        Ok(())
    }

    // Copies what the page of a place has from there on, at most as much as there is room for, and
    // answers how many bytes that is.
    fn copy_next<S: Shelf>(
        &mut self,
        shelf: &mut S,
        at: u64,
        dst: &mut [u8],
    ) -> Result<usize, ShelfFault>
        requires inside { at + length dst.old ≤ self.old.size }
        requires some { 0 < length dst.old }
        requires held { IsPaged S.Shelf shelf.old self.old }
        ensures some { IfOk result (λ n. 0 < n) }
        ensures within { IfOk result (λ n. n ≤ length dst.old) }
        ensures bytes { IfOk result (λ n.
            AreBytesAt (S.told shelf.old) (page_name self.old) at (take n dst.new)) }
        ensures stays { StaysPaged S.Shelf shelf.old shelf.new self.old self.new }
        ensures cause { CountsReads S.Shelf shelf.old shelf.new result }
        ensures no_memory { result ≢ Err ShelfFault.NoMemory }
    {
        self.hold_page(shelf, at)?;
        let place = at % PAGE_SIZE;
        let n = (self.filled - place as usize).min(dst.len());
        copy_part(&self.page, place, &mut dst[..n]);
        Ok(n)
    }
}

impl Payload for PagedPayload {
    ghost use Rattle.bl_file.specs.Paged.{HavePageOf, page_name};

    ghost file_name = { λ p. page_name p };

    ghost file_size = { λ p. p.size };

    ghost agrees = { λ p. HavePageOf p };

    ghost agreed_size = { λ p bytes agrees. agrees.whole };

    ghost agreed_bytes = { λ p bytes agrees. agrees.below };

    fn start<S: Shelf>(
        alloc: Global,
        shelf: &mut S,
        name: &str,
        size: u64,
    ) -> Result<Self, ShelfFault> {
        let own_name = String::from_str(alloc, name)?;
        let mut page = vec![in alloc; 0; size.min(PAGE_SIZE) as usize]?;
        shelf.read_at(name, 0, &mut page)?;
        Ok(PagedPayload {
            name: own_name,
            size,
            page_at: 0,
            filled: page.len(),
            page,
        })
    }

    fn copy_out<S: Shelf>(
        &mut self,
        shelf: &mut S,
        at: u64,
        dst: &mut [u8],
    ) -> Result<(), ShelfFault> {
        if dst.len() as u64 >= PAGE_SIZE {
            return shelf.read_at(self.name.as_str(), at, dst);
        }
        let place = at % PAGE_SIZE;
        if self.page_at == at - place && place + dst.len() as u64 <= self.filled as u64 {
            let from = place as usize;
            dst.copy_from_slice(&self.page[from..from + dst.len()]);
            return Ok(());
        }
        let mut done = 0;
        while done < dst.len() {
            let (_, rest) = dst.split_at_mut(done);
            done += self.copy_next(shelf, at + done as u64, rest)?;
        }
        Ok(())
    }
}

// Fills as many bytes of a page with those of a file from a place on.
fn read_page<S: Shelf>(
    shelf: &mut S,
    name: &str,
    at: u64,
    page: &mut [u8],
    filled: usize,
) -> Result<(), ShelfFault>
    requires room { filled ≤ length page.old }
    requires reaches { Reaches (S.told shelf.old) name.now (at + filled) }
    ensures bytes { OnOk result (AreBytesAt (S.told shelf.old) name.now at (take filled page.new)) }
    ensures keeps { Keeps S.Shelf shelf.old shelf.new }
    ensures cause { Counts S.Shelf shelf.old shelf.new result }
    ensures absent { IsAbsentExactly (S.told shelf.old) name.now result }
    ensures no_memory { result ≢ Err ShelfFault.NoMemory }
{
    shelf.read_at(name, at, &mut page[..filled])
}
