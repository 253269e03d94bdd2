// Prints what becomes of the members of a catalogue's structs.
ghost use Rattle.std.specs.Prelude.{◌≡◌, ◌<◌, None, IfOk, IfErr, length, flat_map};
ghost use Rattle.bl_format.specs.Layout.{member_count, member_numbers, struct_name, struct_numbers};
ghost use Rattle.bl_answers.specs.Fates.{common_struct_lines, fate_line, fate_lines, fates_text, new_struct_line};
ghost use Rattle.bl_plan.specs.Names.{HasMembers, HasStructs};
ghost use Rattle.bl_run.specs.Blame.{IsNotUsage};
ghost use Rattle.bl_run.specs.Commands.Fates.{fates_meaning};
ghost use Rattle.bl_run.specs.Obeying.{Obeys};
ghost use Rattle.bl_run.specs.Printing.{Puts, PutsLater};

use crate::opening::open_ending;
use crate::printing::{add_line, put};
use bl_commands::Ending;
use bl_file::{PagedPayload, open};
use bl_layout::Layout;
use bl_lines::{common_struct_line, fate_line, new_struct_line};
use bl_plan::{known_members, known_structs, member_fate};
use bl_sdna::{member_name, struct_name};
use bl_shelf::{Shelf, Sink};
use std::alloc::{AllocError, Global};
use std::collections::BTreeMap;

// Struct `t` of a catalogue and struct `s` of another, which have one name.
#[derive(Clone, Copy)]
struct Pair<'a> {
    from: &'a Layout,
    s: u32,
    to: &'a Layout,
    t: u32,
}

// The line of a member of struct `t`, by the members of struct `s`.
fn line_of_fate<'a>(
    alloc: Global,
    pair: &Pair<'a>,
    known: &BTreeMap<&'a [u8], u32>,
    member: u32,
) -> Result<Vec<u8>, AllocError>
    requires known { HasMembers pair.now.from.now.catalogue pair.now.s known.now }
    requires s { pair.now.s < length pair.now.from.now.catalogue.structs }
    requires t { pair.now.t < length pair.now.to.now.catalogue.structs }
    requires name { struct_name pair.now.from.now.catalogue pair.now.s
        ≡ struct_name pair.now.to.now.catalogue pair.now.t }
    requires member { member < member_count pair.now.to.now.catalogue pair.now.t }
    ensures { IfOk result (λ line. line.items
        ≡ fate_line pair.now.from.now.catalogue pair.now.from.now.width pair.now.s pair.now.to.now.catalogue
        pair.now.to.now.width pair.now.t member) }
{
    let Pair { from, s, to, t } = *pair;
    let name = member_name(to.catalogue(), t, member);
    fate_line(alloc, name, member_fate(from, s, known, to, t, member))
}

// Adds the line of a member of struct `t`, which meets struct `s`.
fn add_fate<'a, O: Sink>(
    alloc: Global,
    pair: &Pair<'a>,
    known: &BTreeMap<&'a [u8], u32>,
    member: u32,
    pending: &mut Vec<u8>,
    out: &mut O,
) -> Result<(), Ending>
    requires known { HasMembers pair.now.from.now.catalogue pair.now.s known.now }
    requires s { pair.now.s < length pair.now.from.now.catalogue.structs }
    requires t { pair.now.t < length pair.now.to.now.catalogue.structs }
    requires name { struct_name pair.now.from.now.catalogue pair.now.s
        ≡ struct_name pair.now.to.now.catalogue pair.now.t }
    requires member { member < member_count pair.now.to.now.catalogue pair.now.t }
    ensures puts { PutsLater O.Sink out.old out.new pending.old.items pending.new.items
        (fate_line pair.now.from.now.catalogue pair.now.from.now.width pair.now.s pair.now.to.now.catalogue
        pair.now.to.now.width pair.now.t member) result }
{
    let line = line_of_fate(alloc, pair, known, member)?;
    add_line(&line, pending, out)
}

// Adds the lines of the members of struct `t`, which meets struct `s`.
fn add_fates<'a, O: Sink>(
    alloc: Global,
    pair: &Pair<'a>,
    known: &BTreeMap<&'a [u8], u32>,
    pending: &mut Vec<u8>,
    out: &mut O,
) -> Result<(), Ending>
    requires known { HasMembers pair.now.from.now.catalogue pair.now.s known.now }
    requires s { pair.now.s < length pair.now.from.now.catalogue.structs }
    requires t { pair.now.t < length pair.now.to.now.catalogue.structs }
    requires name { struct_name pair.now.from.now.catalogue pair.now.s
        ≡ struct_name pair.now.to.now.catalogue pair.now.t }
    ensures puts { PutsLater O.Sink out.old out.new pending.old.items pending.new.items
        (flat_map (fate_line pair.now.from.now.catalogue pair.now.from.now.width pair.now.s
        pair.now.to.now.catalogue pair.now.to.now.width pair.now.t)
        (member_numbers pair.now.to.now.catalogue pair.now.t)) result }
{
    for member in 0..pair.to.member_count(pair.t) {
        add_fate(alloc, pair, known, member, pending, out)?;
    }
    Ok(())
}

// Adds the line of struct `t`, which meets struct `s`, and those of its members.
fn add_common_struct<'a, O: Sink>(
    alloc: Global,
    pair: &Pair<'a>,
    pending: &mut Vec<u8>,
    out: &mut O,
) -> Result<(), Ending>
    requires s { pair.now.s < length pair.now.from.now.catalogue.structs }
    requires t { pair.now.t < length pair.now.to.now.catalogue.structs }
    requires name { struct_name pair.now.from.now.catalogue pair.now.s
        ≡ struct_name pair.now.to.now.catalogue pair.now.t }
    ensures puts { PutsLater O.Sink out.old out.new pending.old.items pending.new.items
        (common_struct_lines pair.now.from.now.catalogue pair.now.from.now.width pair.now.s
        pair.now.to.now.catalogue pair.now.to.now.width pair.now.t)
        result }
{
    let known = known_members(alloc, pair.from, pair.s)?;
    let line = common_struct_line(alloc, struct_name(pair.to.catalogue(), pair.t))?;
    add_line(&line, pending, out)?;
    add_fates(alloc, pair, &known, pending, out)
}

// Adds the line of a struct of this name that nothing meets.
fn add_new_struct<O: Sink>(
    alloc: Global,
    name: &[u8],
    pending: &mut Vec<u8>,
    out: &mut O,
) -> Result<(), Ending>
    ensures puts { PutsLater O.Sink out.old out.new pending.old.items pending.new.items
        (new_struct_line name.now) result }
{
    let line = new_struct_line(alloc, name)?;
    add_line(&line, pending, out)
}

// Adds the lines of struct `t`, by the struct of its name.
fn add_struct<'a, O: Sink>(
    alloc: Global,
    from: &'a Layout,
    known: &BTreeMap<&'a [u8], u32>,
    to: &'a Layout,
    t: u32,
    pending: &mut Vec<u8>,
    out: &mut O,
) -> Result<(), Ending>
    requires known { HasStructs from.now.catalogue known.now }
    requires t { t < length to.now.catalogue.structs }
    ensures puts { PutsLater O.Sink out.old out.new pending.old.items pending.new.items
        (fate_lines from.now.catalogue from.now.width to.now.catalogue to.now.width t) result }
{
    let name = struct_name(to.catalogue(), t);
    match known.get(&name).copied() {
        None => add_new_struct(alloc, name, pending, out),
        Some(s) => add_common_struct(alloc, &Pair { from, s, to, t }, pending, out),
    }
}

// Adds the lines of all structs.
fn add_structs<'a, O: Sink>(
    alloc: Global,
    from: &'a Layout,
    known: &BTreeMap<&'a [u8], u32>,
    to: &'a Layout,
    pending: &mut Vec<u8>,
    out: &mut O,
) -> Result<(), Ending>
    requires known { HasStructs from.now.catalogue known.now }
    ensures puts { PutsLater O.Sink out.old out.new pending.old.items pending.new.items
        (flat_map (fate_lines from.now.catalogue from.now.width to.now.catalogue to.now.width)
        (struct_numbers to.now.catalogue)) result }
{
    for t in 0..to.struct_count() {
        add_struct(alloc, from, known, to, t, pending, out)?;
    }
    Ok(())
}

// Prints what becomes of the members of `to`.
fn print_fates<'a, O: Sink>(
    alloc: Global,
    from: &'a Layout,
    to: &'a Layout,
    out: &mut O,
) -> Result<(), Ending>
    ensures puts { Puts O.Sink out.old out.new
        (fates_text from.now.catalogue from.now.width to.now.catalogue to.now.width) result }
{
    let known = known_structs(alloc, from.catalogue())?;
    let mut pending = Vec::new(alloc);
    add_structs(alloc, from, &known, to, &mut pending, out)?;
    put(&pending, out)
}

/// Prints what becomes of each member of the structs of the file `cat`, by those of the file
/// `input`.
pub fn fates<S: Shelf, O: Sink>(
    alloc: Global,
    input: &str,
    cat: &str,
    shelf: &mut S,
    out: &mut O,
) -> Result<(), Ending>
    requires { S.room shelf.old ≡ None }
    ensures obeys { Obeys S.Shelf O.Sink (fates_meaning input.now cat.now)
        shelf.old shelf.new out.old out.new result }
    ensures spelled { IfErr result IsNotUsage }
{
    let source = match open::<S, PagedPayload>(alloc, shelf, input, 0) {
        Ok(source) => source.outline,
        Err(fault) => return Err(open_ending(alloc, input, fault)),
    };
    match open::<S, PagedPayload>(alloc, shelf, cat, source.size) {
        Err(fault) => Err(open_ending(alloc, cat, fault)),
        Ok(target) => print_fates(alloc, &source.layout, &target.outline.layout, out),
    }
}
