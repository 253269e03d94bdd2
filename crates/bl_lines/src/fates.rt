ghost use Rattle.std.specs.Prelude.{◌≡◌, IfOk};
ghost use Rattle.bl_answers.specs.Fates.{common_struct_line, fate_line_by, fate_text, new_struct_line};

use crate::shown::shown_bytes;
use bl_selection::Fate;
use std::alloc::{AllocError, Global};

fn fate_text(fate: Fate) -> &'static str
    ensures { result.now ≡ fate_text fate }
{
    match fate {
        Fate::Kept => "kept",
        Fate::Cast => "cast",
        Fate::Cut => "cut",
        Fate::Extended => "extended",
        Fate::Fresh => "fresh",
        Fate::FloatCast => "float-cast",
    }
}

/// The line of a struct of which the other catalogue has none of its name.
#[tactic(auto, unfolding(bl_answers::specs::Fates::new_struct_line))]
pub fn new_struct_line(alloc: Global, name: &[u8]) -> Result<Vec<u8>, AllocError>
    ensures { IfOk result (λ line. line.items ≡ new_struct_line name.now) }
{
    let name = shown_bytes(alloc, name)?;
    let line = format!(in alloc; "struct {name} new\n")?;
    Ok(line.into_bytes())
}

/// The line of a struct of which both catalogues have one of its name.
#[tactic(auto, unfolding(bl_answers::specs::Fates::common_struct_line))]
pub fn common_struct_line(alloc: Global, name: &[u8]) -> Result<Vec<u8>, AllocError>
    ensures { IfOk result (λ line. line.items ≡ common_struct_line name.now) }
{
    let name = shown_bytes(alloc, name)?;
    let line = format!(in alloc; "struct {name}\n")?;
    Ok(line.into_bytes())
}

/// The line of a member with this whole name and this fate.
#[tactic(auto, unfolding(bl_answers::specs::Fates::fate_line_by))]
pub fn fate_line(alloc: Global, name: &[u8], fate: Fate) -> Result<Vec<u8>, AllocError>
    ensures { IfOk result (λ line. line.items ≡ fate_line_by name.now fate) }
{
    let name = shown_bytes(alloc, name)?;
    let fate = fate_text(fate);
    let line = format!(in alloc; "  {name} {fate}\n")?;
    Ok(line.into_bytes())
}
