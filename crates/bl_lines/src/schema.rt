ghost use Rattle.std.specs.Prelude.{◌≡◌, [], ◌∷◌, IfOk, codes, decimal};
ghost use Rattle.std.specs.String.{string_bytes};
ghost use Rattle.bl_num.specs.Numbers.{pointer_bytes};
ghost use Rattle.bl_commands.specs.Texts.{line};
ghost use Rattle.bl_answers.specs.Schema.{order_text, schema_line, struct_line, member_line_by};

use crate::shown::shown_bytes;
use bl_format::Header;
use bl_num::{Order, Width};
use std::alloc::{AllocError, Global};

fn pointer_bytes(width: Width) -> u8
    ensures { result ≡ pointer_bytes width }
{
    match width {
        Width::Four => 4,
        Width::Eight => 8,
    }
}

fn order_text(order: Order) -> &'static str
    ensures { result.now ≡ order_text order }
{
    match order {
        Order::Little => "little",
        Order::Big => "big",
    }
}

// The end of the first line.
fn counts_line(
    alloc: Global,
    names: usize,
    types: usize,
    structs: usize,
) -> Result<String, AllocError>
    ensures { IfOk result (λ text. string_bytes text ≡
        line (codes "names" ∷ decimal names ∷ codes "types" ∷ decimal types
        ∷ codes "structs" ∷ decimal structs ∷ [])) }
{
    format!(in alloc; "names {names} types {types} structs {structs}\n")
}

/// The first line of a catalogue with so many names, types and structs.
#[tactic(auto, unfolding(bl_answers::specs::Schema::schema_line))]
pub fn schema_line(
    alloc: Global,
    header: &Header,
    names: usize,
    types: usize,
    structs: usize,
) -> Result<Vec<u8>, AllocError>
    ensures { IfOk result (λ line. line.items ≡ schema_line header.now names types structs) }
{
    let version = header.version;
    let width = pointer_bytes(header.width);
    let order = order_text(header.order);
    let counts = counts_line(alloc, names, types, structs)?;
    let line = format!(in alloc; "version {version} width {width} order {order} {counts}")?;
    Ok(line.into_bytes())
}

/// The line of struct s.
#[tactic(auto, unfolding(bl_answers::specs::Schema::struct_line))]
pub fn struct_line(alloc: Global, s: u32, name: &[u8], length: u32) -> Result<Vec<u8>, AllocError>
    ensures { IfOk result (λ line. line.items ≡ struct_line s name.now length) }
{
    let name = shown_bytes(alloc, name)?;
    let line = format!(in alloc; "struct {s} {name} {length}\n")?;
    Ok(line.into_bytes())
}

/// The line of a member with this whole name.
#[tactic(auto, unfolding(bl_answers::specs::Schema::member_line_by))]
pub fn member_line(
    alloc: Global,
    offset: u32,
    size: u32,
    type_name: &[u8],
    name: &[u8],
) -> Result<Vec<u8>, AllocError>
    ensures { IfOk result (λ line. line.items ≡ member_line_by offset size type_name.now name.now) }
{
    let type_name = shown_bytes(alloc, type_name)?;
    let name = shown_bytes(alloc, name)?;
    let line = format!(in alloc; "  {offset} {size} {type_name} {name}\n")?;
    Ok(line.into_bytes())
}
