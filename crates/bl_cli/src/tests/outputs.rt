// Outputs of drafts that leave something out.
ghost use Rattle.std.specs.Prelude.{◌≡◌, ◌∷◌, [], codes, map, true, None, IfOk, IfSome};
ghost use Rattle.std.specs.Str.{bytes_eq};
ghost use Rattle.bl_selection.specs.declared.draft.Entry.TheVariants.{Source};
ghost use Rattle.bl_selection.specs.Selection.{draft_of};
ghost use Rattle.bl_file.specs.Outlines.{IsSound};
ghost use Rattle.bl_draft.specs.Own.{IsSourceDraft};
ghost use Rattle.bl_draft.specs.Sources.{AreOpen};

use bl_draft::{Draft, Entry, kinds_for};
use bl_file::{Opened, Outline, Payload, RawKind, WholePayload, open};
use bl_format::{Catalogue, Head, Header};
use bl_layout::copy_of;
use bl_num::{Items, NoMemory};
use bl_shelf::{Shelf, SteadyShelf};
use bl_writer::{Totals, render};
use std::alloc::Global;

// Two groups: a mesh that stood at 0x100, and two meshes in one block, at 0x200, with the raw block
// that the first of them names, at 0x300. The second names the mesh of the other group.
const TWO_GROUPS: &[u8] = b"BLENDER-v405\
    ME\0\0\x10\0\0\0\0\x01\0\0\0\0\0\0\x01\0\0\0\x01\0\0\0MEa\0\0\0\0\0\0\x02\0\0\0\0\0\0\
    ME\0\0\x20\0\0\0\0\x02\0\0\0\0\0\0\x01\0\0\0\x02\0\0\0MEb\0\0\0\0\0\0\x03\0\0\0\0\0\0\
    MEc\0\0\0\0\0\0\x01\0\0\0\0\0\0\
    DATA\x04\0\0\0\0\x03\0\0\0\0\0\0\0\0\0\0\x01\0\0\0\x01\x02\x03\x04\
    DNA1\x60\0\0\0\0\0\0\0\0\0\0\0\0\0\0\0\x01\0\0\0\
    SDNANAME\x03\0\0\0name[8]\0id\0*co\0\0TYPE\x04\0\0\0char\0int\0ID\0Mesh\0\0\0\0\
    TLEN\x01\0\x04\0\x08\0\x10\0STRC\x02\0\0\0\x02\0\x01\0\0\0\0\0\
    \x03\0\x02\0\x02\0\x01\0\x01\0\x02\0\
    ENDB";

// The second group alone: its blocks have the first two addresses, and what the second of its meshes
// named isn't there.
const SECOND_GROUP: &[u8] = b"BLENDER-v405\
    ME\0\0\x20\0\0\0\x10\0\0\0\0\0\0\0\x01\0\0\0\x02\0\0\0MEb\0\0\0\0\0\x20\0\0\0\0\0\0\0\
    MEc\0\0\0\0\0\0\0\0\0\0\0\0\0\
    DATA\x04\0\0\0\x20\0\0\0\0\0\0\0\0\0\0\0\x01\0\0\0\x01\x02\x03\x04\
    DNA1\x60\0\0\0\0\0\0\0\0\0\0\0\0\0\0\0\x01\0\0\0\
    SDNANAME\x03\0\0\0name[8]\0id\0*co\0\0TYPE\x04\0\0\0char\0int\0ID\0Mesh\0\0\0\0\
    TLEN\x01\0\x04\0\x08\0\x10\0STRC\x02\0\0\0\x02\0\x01\0\0\0\0\0\
    \x03\0\x02\0\x02\0\x01\0\x01\0\x02\0\
    ENDB\0\0\0\0\0\0\0\0\0\0\0\0\0\0\0\0\0\0\0\0";

// Whether a node has this code.
fn has_code(node: &Head, code: [u8; 4]) -> bool
    ensures { result ≡ bytes_eq node.now.code code }
{
    node.code == code
}

// Whether nodes are three, of which the first two begin groups of meshes.
fn are_two_groups(nodes: &[Head]) -> bool
    ensures { result ≡ true → map (λ x. x.code) nodes.now
        ≡ (77 ∷ 69 ∷ 0 ∷ 0 ∷ []) ∷ (77 ∷ 69 ∷ 0 ∷ 0 ∷ []) ∷ codes "DATA" ∷ [] }
{
    if nodes.len() != 3 {
        return false;
    }
    if !has_code(&nodes[0], *b"ME\0\0") {
        return false;
    }
    if !has_code(&nodes[1], *b"ME\0\0") {
        return false;
    }
    has_code(&nodes[2], *b"DATA")
}

// The second and the third node of a file.
fn last_two(alloc: Global) -> Result<Vec<Entry>, NoMemory>
    ensures { IfOk result (λ entries. entries.items ≡ Source 0 1 ∷ Source 0 2 ∷ []) }
{
    let mut entries = Vec::new(alloc);
    entries.push(Entry::Source { file: 0, node: 1 })?;
    entries.push(Entry::Source { file: 0, node: 2 })?;
    Ok(entries)
}

// The images of three nodes of a file, of which the first has none.
fn images_of_three(alloc: Global) -> Result<Vec<Items<u32>>, NoMemory>
    ensures { IfOk result (λ images. images.items ≡ (0 ∷ 1 ∷ 2 ∷ []) ∷ []) }
{
    let mut own = Vec::new(alloc);
    own.push(0)?;
    own.push(1)?;
    own.push(2)?;
    let mut images = Vec::new(alloc);
    images.push(Items::from_vec(own))?;
    Ok(images)
}

// The draft of a file's second and third node alone.
fn last_two_under(alloc: Global, header: Header, catalogue: Catalogue) -> Result<Draft, NoMemory>
    ensures { IfOk result (λ draft. draft
        ≡ draft_of header catalogue (Source 0 1 ∷ Source 0 2 ∷ []) ((0 ∷ 1 ∷ 2 ∷ []) ∷ [])) }
{
    let entries = last_two(alloc)?;
    let images = images_of_three(alloc)?;
    Ok(Draft {
        header,
        catalogue,
        entries: Items::from_vec(entries),
        images: Items::from_vec(images),
        overrides: Items::from_vec(Vec::new(alloc)),
    })
}

// The draft of the second group of a file alone, under the file's own header and catalogue, where
// the file has two groups as in the test.
fn second_group(alloc: Global, outline: &Outline) -> Result<Option<Draft>, NoMemory>
    requires { IsSound outline.now }
    ensures { IfOk result (λ found. IfSome found (IsSourceDraft outline.now)) }
{
    if !are_two_groups(outline.nodes.as_slice()) {
        return Ok(None);
    }
    let catalogue = copy_of(alloc, outline.layout.catalogue())?;
    let draft = last_two_under(alloc, outline.header, catalogue)?;
    Ok(Some(draft))
}

// Stores a draft of an opened file's nodes as `b`.
fn store<S: Shelf, P: Payload>(
    alloc: Global,
    draft: &Draft,
    files: &mut [Opened<P>],
    shelf: &mut S,
) -> Option<Totals>
    requires files { AreOpen S.Shelf P.Payload shelf.old draft.now files.old }
    requires staged { S.room shelf.old ≡ None }
{
    let totals = match render(alloc, draft, files, shelf, "b") {
        Ok(totals) => totals,
        Err(_) => return None,
    };
    match shelf.commit() {
        Ok(()) => Some(totals),
        Err(_) => None,
    }
}

// Stores the second group of the file `a` as `b`.
fn store_second_group<S: Shelf>(alloc: Global, shelf: &mut S) -> Option<Totals>
    requires { S.room shelf.old ≡ None }
{
    let mut files = match open::<S, WholePayload>(alloc, shelf, "a", 0) {
        Ok(file) => [file],
        Err(_) => return None,
    };
    match second_group(alloc, &files[0].outline) {
        Ok(Some(draft)) => store(alloc, &draft, &mut files, shelf),
        _ => None,
    }
}

// Whether the entries of a draft of an opened file's nodes have these kinds.
fn have_kinds<S: Shelf, P: Payload>(
    alloc: Global,
    draft: &Draft,
    files: &mut [Opened<P>],
    shelf: &mut S,
    want: &[RawKind],
) -> bool
    requires { AreOpen S.Shelf P.Payload shelf.old draft.now files.old }
{
    match kinds_for(alloc, draft, files, shelf) {
        Ok(kinds) => kinds.as_slice() == want,
        Err(_) => false,
    }
}

// Whether the second group of the file `a` has these kinds.
fn has_kinds<S: Shelf>(alloc: Global, shelf: &mut S, want: &[RawKind]) -> bool {
    let mut files = match open::<S, WholePayload>(alloc, shelf, "a", 0) {
        Ok(file) => [file],
        Err(_) => return false,
    };
    match second_group(alloc, &files[0].outline) {
        Ok(Some(draft)) => have_kinds(alloc, &draft, &mut files, shelf, want),
        _ => false,
    }
}

// Whether a name has these bytes.
fn has(shelf: &SteadyShelf, name: &str, bytes: &[u8]) -> bool {
    shelf.bytes_of(name) == Some(bytes)
}

// Whether the second of two groups has the kinds that it should have, and is stored as it should be.
fn stores_second_group(alloc: Global) -> Result<bool, NoMemory> {
    let mut shelf = SteadyShelf::new(alloc);
    shelf.hold("a", TWO_GROUPS)?;
    let totals = store_second_group(alloc, &mut shelf);
    let kinds = has_kinds(alloc, &mut shelf, &[RawKind::Bytes, RawKind::Numbers(4)]);
    let expected = Totals {
        blocks: 2,
        bytes: 240,
    };
    Ok(kinds && totals == Some(expected) && has(&shelf, "b", SECOND_GROUP))
}

#[test]
fn renders_one_group_of_two(rt: HostRuntime) {
    assert_eq!(rt; stores_second_group(rt.alloc()), Ok(true));
}
