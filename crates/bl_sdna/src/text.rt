ghost use Rattle.std.specs.Prelude.{◌≡◌, ◌<◌, ◌^◌, ◌++◌, All, length, flat_map, IfOk, OnOk};
ghost use Rattle.bl_num.specs.Numbers.{bytes_of};
ghost use Rattle.bl_format.specs.Schema.{name_written, member_written, struct_written, IsCatalogue, catalogue_written, names_part, types_part, lengths_part, structs_part, with_padding};

use crate::place::aligned_place;
use bl_format::{Catalogue, MemberEntry, StructEntry, TypeEntry};
use bl_num::{Order, Text, write_whole};
use std::alloc::{AllocError, Global};

// Puts a count of names, types or structs at the end.
fn put_count(order: Order, count: u32, text: &mut Vec<u8>) -> Result<(), AllocError>
    ensures { OnOk result (text.new.items ≡ text.old.items ++ bytes_of order 4 count) }
{
    let mut bytes = [0; 4];
    write_whole(order, u64::from(count), &mut bytes);
    text.extend_from_slice(&bytes)
}

// Puts a number of two bytes at the end.
fn put_short(order: Order, number: u16, text: &mut Vec<u8>) -> Result<(), AllocError>
    ensures { OnOk result (text.new.items ≡ text.old.items ++ bytes_of order 2 number) }
{
    let mut bytes = [0; 2];
    write_whole(order, u64::from(number), &mut bytes);
    text.extend_from_slice(&bytes)
}

// Puts a name and its zero at the end.
fn put_name(name: &Text, text: &mut Vec<u8>) -> Result<(), AllocError>
    ensures { OnOk result (text.new.items ≡ text.old.items ++ name_written name.now) }
{
    text.extend_from_slice(name.as_slice())?;
    text.extend_from_slice(b"\0")
}

fn put_names(names: &[Text], text: &mut Vec<u8>) -> Result<(), AllocError>
    ensures { OnOk result (text.new.items ≡ text.old.items
        ++ flat_map name_written names.now) }
{
    for name in names {
        put_name(name, text)?;
    }
    Ok(())
}

fn put_type_names(types: &[TypeEntry], text: &mut Vec<u8>) -> Result<(), AllocError>
    ensures { OnOk result (text.new.items ≡ text.old.items
        ++ flat_map (λ t. name_written t.name) types.now) }
{
    for entry in types {
        put_name(&entry.name, text)?;
    }
    Ok(())
}

fn put_lengths(order: Order, types: &[TypeEntry], text: &mut Vec<u8>) -> Result<(), AllocError>
    ensures { OnOk result (text.new.items ≡ text.old.items
        ++ flat_map (λ t. bytes_of order 2 t.length) types.now) }
{
    for entry in types {
        put_short(order, entry.length, text)?;
    }
    Ok(())
}

fn put_member(order: Order, member: &MemberEntry, text: &mut Vec<u8>) -> Result<(), AllocError>
    ensures { OnOk result (text.new.items ≡ text.old.items ++ member_written order member.now) }
{
    put_short(order, member.type_number, text)?;
    put_short(order, member.name_number, text)
}

fn put_members(order: Order, members: &[MemberEntry], text: &mut Vec<u8>) -> Result<(), AllocError>
    ensures { OnOk result (text.new.items ≡ text.old.items
        ++ flat_map (member_written order) members.now) }
{
    for member in members {
        put_member(order, member, text)?;
    }
    Ok(())
}

fn put_struct(order: Order, entry: &StructEntry, text: &mut Vec<u8>) -> Result<(), AllocError>
    requires { length entry.now.members < 2 ^ 16 }
    ensures { OnOk result (text.new.items ≡ text.old.items ++ struct_written order entry.now) }
{
    let members = entry.members.as_slice();
    put_short(order, entry.type_number, text)?;
    put_short(order, members.len() as u16, text)?;
    put_members(order, members, text)
}

fn put_structs(order: Order, entries: &[StructEntry], text: &mut Vec<u8>) -> Result<(), AllocError>
    requires { All (λ s. length s.members < 2 ^ 16) entries.now }
    ensures { OnOk result (text.new.items ≡ text.old.items
        ++ flat_map (struct_written order) entries.now) }
{
    for entry in entries {
        put_struct(order, entry, text)?;
    }
    Ok(())
}

// The names of members, behind the first two tags.
fn names_part(alloc: Global, order: Order, catalogue: &Catalogue) -> Result<Vec<u8>, AllocError>
    requires { length catalogue.now.names < 2 ^ 32 }
    ensures { IfOk result (λ text. text.items ≡ names_part order catalogue.now) }
{
    let names = catalogue.names.as_slice();
    let mut text = Vec::from_slice(alloc, b"SDNANAME")?;
    put_count(order, names.len() as u32, &mut text)?;
    put_names(names, &mut text)?;
    Ok(text)
}

// The names of types.
fn types_part(alloc: Global, order: Order, catalogue: &Catalogue) -> Result<Vec<u8>, AllocError>
    requires { length catalogue.now.types < 2 ^ 32 }
    ensures { IfOk result (λ text. text.items ≡ types_part order catalogue.now) }
{
    let types = catalogue.types.as_slice();
    let mut text = Vec::from_slice(alloc, b"TYPE")?;
    put_count(order, types.len() as u32, &mut text)?;
    put_type_names(types, &mut text)?;
    Ok(text)
}

// The lengths of types.
fn lengths_part(alloc: Global, order: Order, catalogue: &Catalogue) -> Result<Vec<u8>, AllocError>
    ensures { IfOk result (λ text. text.items ≡ lengths_part order catalogue.now) }
{
    let mut text = Vec::from_slice(alloc, b"TLEN")?;
    put_lengths(order, catalogue.types.as_slice(), &mut text)?;
    Ok(text)
}

// The structs.
fn structs_part(alloc: Global, order: Order, catalogue: &Catalogue) -> Result<Vec<u8>, AllocError>
    requires few { length catalogue.now.structs < 2 ^ 32 }
    requires few_members { All (λ s. length s.members < 2 ^ 16) catalogue.now.structs }
    ensures { IfOk result (λ text. text.items ≡ structs_part order catalogue.now) }
{
    let structs = catalogue.structs.as_slice();
    let mut text = Vec::from_slice(alloc, b"STRC")?;
    put_count(order, structs.len() as u32, &mut text)?;
    put_structs(order, structs, &mut text)?;
    Ok(text)
}

// A part with zeros behind it, up to where the next part begins.
fn padded(mut text: Vec<u8>) -> Result<Vec<u8>, AllocError>
    ensures { IfOk result (λ whole. whole.items ≡ with_padding text.items) }
{
    text.resize(aligned_place(text.len()), 0)?;
    Ok(text)
}

/// The payload of a catalogue, with zeros as padding.
#[tactic(auto, unfolding(bl_format::specs::Schema::catalogue_written))]
pub fn catalogue_text(
    alloc: Global,
    order: Order,
    catalogue: &Catalogue,
) -> Result<Vec<u8>, AllocError>
    requires { IsCatalogue catalogue.now }
    ensures { IfOk result (λ text. text.items ≡ catalogue_written order catalogue.now) }
{
    let mut text = padded(names_part(alloc, order, catalogue)?)?;
    text.extend_from_slice(&padded(types_part(alloc, order, catalogue)?)?)?;
    text.extend_from_slice(&padded(lengths_part(alloc, order, catalogue)?)?)?;
    text.extend_from_slice(&structs_part(alloc, order, catalogue)?)?;
    Ok(text)
}
