// The heads of the nodes that a draft's entries are.
ghost use Rattle.std.specs.Prelude.{◌≡◌, All, IfOk, length};
ghost use Rattle.bl_file.specs.Outlines.{IsNodeIn, IsSound};
ghost use Rattle.bl_draft.specs.Own.{IsSourceDraft, entry_heads};

use crate::entries::heads_by;
use bl_file::{Head, Outline};
use bl_num::NoMemory;
use bl_selection::Draft;
use std::alloc::Global;

/// The head of each entry of a draft, as it stands in the source.
pub fn heads_of(alloc: Global, outline: &Outline, draft: &Draft) -> Result<Vec<Head>, NoMemory>
    requires sound { IsSound outline.now }
    requires draft { IsSourceDraft outline.now draft.now }
    ensures heads { IfOk result (λ heads.
        heads.items ≡ entry_heads outline.now.nodes draft.now.entries) }
    ensures len { IfOk result (λ heads. length heads.items ≡ length draft.now.entries) }
    ensures nodes { IfOk result (λ heads. All
        (IsNodeIn outline.now.header outline.now.layout.catalogue outline.now.size) heads.items) }
{
    heads_by(alloc, outline.nodes.as_slice(), draft.entries.as_slice())
}
