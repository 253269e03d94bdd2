// Prints a header and the structs of a catalogue.
ghost use Rattle.std.specs.Prelude.{◌≡◌, ◌<◌, None, IfOk, IfErr, length, flat_map};
ghost use Rattle.bl_format.specs.Layout.{member_count, member_numbers, struct_name, struct_length, struct_numbers};
ghost use Rattle.bl_answers.specs.Schema.{member_line, schema_line, schema_text, struct_line, struct_lines};
ghost use Rattle.bl_run.specs.Blame.{IsNotUsage};
ghost use Rattle.bl_run.specs.Obeying.{Obeys};
ghost use Rattle.bl_run.specs.Printing.{Puts, PutsLater};
ghost use Rattle.bl_run.specs.Commands.Schema.{schema_meaning};

use crate::opening::open_ending;
use crate::printing::{add_line, put};
use bl_commands::Ending;
use bl_file::{PagedPayload, open};
use bl_format::Catalogue;
use bl_header::Header;
use bl_layout::Layout;
use bl_lines::{member_line, schema_line, struct_line};
use bl_sdna::{member_name, member_type_name, struct_name};
use bl_shelf::{Shelf, Sink};
use std::alloc::{AllocError, Global};

// The line of a member.
#[tactic(auto, unfolding(bl_format::specs::Layout::shape_of))]
fn line_of_member(
    alloc: Global,
    layout: &Layout,
    s: u32,
    member: u32,
) -> Result<Vec<u8>, AllocError>
    requires place { s < length layout.now.catalogue.structs }
    requires number { member < member_count layout.now.catalogue s }
    ensures { IfOk result (λ line. line.items
        ≡ member_line layout.now.catalogue layout.now.width s member) }
{
    let shape = layout.member_shape(s, member);
    let type_name = member_type_name(layout.catalogue(), s, member);
    let name = member_name(layout.catalogue(), s, member);
    member_line(alloc, shape.offset, shape.size, type_name, name)
}

// The line of a struct.
fn line_of_struct(alloc: Global, layout: &Layout, s: u32) -> Result<Vec<u8>, AllocError>
    requires { s < length layout.now.catalogue.structs }
    ensures { IfOk result (λ line. line.items ≡ struct_line s
        (struct_name layout.now.catalogue s) (struct_length layout.now.catalogue s)) }
{
    let name = struct_name(layout.catalogue(), s);
    struct_line(alloc, s, name, layout.length(s))
}

// The first line.
fn first_line(alloc: Global, header: &Header, catalogue: &Catalogue) -> Result<Vec<u8>, AllocError>
    ensures { IfOk result (λ line. line.items ≡ schema_line header.now (length catalogue.now.names)
        (length catalogue.now.types) (length catalogue.now.structs)) }
{
    let names = catalogue.names.as_slice().len();
    let types = catalogue.types.as_slice().len();
    let structs = catalogue.structs.as_slice().len();
    schema_line(alloc, header, names, types, structs)
}

// Adds the line of a member.
fn add_member<O: Sink>(
    alloc: Global,
    layout: &Layout,
    s: u32,
    member: u32,
    pending: &mut Vec<u8>,
    out: &mut O,
) -> Result<(), Ending>
    requires place { s < length layout.now.catalogue.structs }
    requires number { member < member_count layout.now.catalogue s }
    ensures puts { PutsLater O.Sink out.old out.new pending.old.items pending.new.items
        (member_line layout.now.catalogue layout.now.width s member) result }
{
    let line = line_of_member(alloc, layout, s, member)?;
    add_line(&line, pending, out)
}

// Adds the lines of a struct's members.
fn add_members<O: Sink>(
    alloc: Global,
    layout: &Layout,
    s: u32,
    pending: &mut Vec<u8>,
    out: &mut O,
) -> Result<(), Ending>
    requires { s < length layout.now.catalogue.structs }
    ensures puts { PutsLater O.Sink out.old out.new pending.old.items pending.new.items
        (flat_map (member_line layout.now.catalogue layout.now.width s)
        (member_numbers layout.now.catalogue s)) result }
{
    for member in 0..layout.member_count(s) {
        add_member(alloc, layout, s, member, pending, out)?;
    }
    Ok(())
}

// Adds the line of a struct, and those of its members.
fn add_struct<O: Sink>(
    alloc: Global,
    layout: &Layout,
    s: u32,
    pending: &mut Vec<u8>,
    out: &mut O,
) -> Result<(), Ending>
    requires { s < length layout.now.catalogue.structs }
    ensures puts { PutsLater O.Sink out.old out.new pending.old.items pending.new.items
        (struct_lines layout.now.catalogue layout.now.width s) result }
{
    let line = line_of_struct(alloc, layout, s)?;
    add_line(&line, pending, out)?;
    add_members(alloc, layout, s, pending, out)
}

// Adds the lines of all structs.
fn add_structs<O: Sink>(
    alloc: Global,
    layout: &Layout,
    pending: &mut Vec<u8>,
    out: &mut O,
) -> Result<(), Ending>
    ensures puts { PutsLater O.Sink out.old out.new pending.old.items pending.new.items
        (flat_map (struct_lines layout.now.catalogue layout.now.width)
        (struct_numbers layout.now.catalogue)) result }
{
    for s in 0..layout.struct_count() {
        add_struct(alloc, layout, s, pending, out)?;
    }
    Ok(())
}

// Prints a header and the structs of a catalogue.
fn print_schema<O: Sink>(
    alloc: Global,
    header: &Header,
    layout: &Layout,
    out: &mut O,
) -> Result<(), Ending>
    requires { layout.now.width ≡ header.now.width }
    ensures puts { Puts O.Sink out.old out.new (schema_text header.now layout.now.catalogue) result }
{
    let line = first_line(alloc, header, layout.catalogue())?;
    let mut pending = Vec::new(alloc);
    add_line(&line, &mut pending, out)?;
    add_structs(alloc, layout, &mut pending, out)?;
    put(&pending, out)
}

/// Prints the header of the file `input` and the structs of its catalogue.
pub fn schema<S: Shelf, O: Sink>(
    alloc: Global,
    input: &str,
    shelf: &mut S,
    out: &mut O,
) -> Result<(), Ending>
    requires { S.room shelf.old ≡ None }
    ensures obeys { Obeys S.Shelf O.Sink (schema_meaning input.now)
        shelf.old shelf.new out.old out.new result }
    ensures spelled { IfErr result IsNotUsage }
{
    match open::<S, PagedPayload>(alloc, shelf, input, 0) {
        Err(fault) => Err(open_ending(alloc, input, fault)),
        Ok(file) => print_schema(alloc, &file.outline.header, &file.outline.layout, out),
    }
}
