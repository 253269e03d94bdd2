// Drafts of whole files, and what is told of their entries.
ghost use Rattle.std.specs.Prelude.{◌≡◌, IfOk, IfSome, length};
ghost use Rattle.bl_file.specs.Held.{IsHeldAnd};
ghost use Rattle.bl_file.specs.Outlines.{IsSound, StandsFor};
ghost use Rattle.bl_draft.specs.Own.{IsSourceDraft};
ghost use Rattle.bl_draft.specs.Sources.{AreOpen};

use super::examples::{catalogue_in, changed};
use bl_draft::{
    Draft, DraftFault, Entry, Prepared, heads_of, is_of_all, kinds_for, kinds_of_entries,
    structs_of, targets_of, whole_draft,
};
use bl_file::{Head, Opened, Outline, Payload, RawKind, Targets, WholePayload, open};
use bl_layout::{Layout, copy_of};
use bl_num::{NoMemory, Order, Width};
use bl_shelf::{Shelf, SteadyShelf};
use std::alloc::Global;

// Raw data in front, a group of struct 1, one of struct 2, and a raw one, with raw data and structs
// in them. The structs are A, B and C, each with one number, and there is a type D.
const NINE: &[u8] = b"BLENDER-v405\
    DATA\x04\0\0\0\0\0\0\0\0\0\0\0\0\0\0\0\x01\0\0\0....\
    OB\0\0\x04\0\0\0\0\0\0\0\0\0\0\0\x01\0\0\0\x01\0\0\0....\
    DATA\x04\0\0\0\0\0\0\0\0\0\0\0\x02\0\0\0\x01\0\0\0....\
    DATA\x04\0\0\0\0\0\0\0\0\0\0\0\0\0\0\0\x01\0\0\0....\
    ME\0\0\x04\0\0\0\0\0\0\0\0\0\0\0\x02\0\0\0\x01\0\0\0....\
    DATA\x04\0\0\0\0\0\0\0\0\0\0\0\x01\0\0\0\x01\0\0\0....\
    DATA\x04\0\0\0\0\0\0\0\0\0\0\0\0\0\0\0\x01\0\0\0....\
    REND\x04\0\0\0\0\0\0\0\0\0\0\0\0\0\0\0\x01\0\0\0....\
    DATA\x04\0\0\0\0\0\0\0\0\0\0\0\x01\0\0\0\x01\0\0\0....\
    DNA1\x54\0\0\0\0\0\0\0\0\0\0\0\0\0\0\0\x01\0\0\0\
    SDNANAME\x01\0\0\0x\0\0\0TYPE\x05\0\0\0int\0A\0B\0C\0D\0TLEN\x04\0\x04\0\x04\0\x04\0\x04\0\
    \0\0STRC\x03\0\0\0\x01\0\x01\0\0\0\0\0\x02\0\x01\0\0\0\0\0\x03\0\x01\0\0\0\0\0\
    ENDB";

// Where its catalogue stands, and in that the types of the first struct and of the last.
const CATALOGUE: usize = 288;

const FIRST_TYPE: usize = 60;

const LAST_TYPE: usize = 76;

// The numbers of the types A, C and D.
const A: u8 = 1;

const C: u8 = 3;

const D: u8 = 4;

// The layout of a catalogue that some bytes hold, at a width.
fn layout_in(alloc: Global, order: Order, bytes: &[u8], width: Width) -> Option<Layout>
    ensures { IfSome result (λ layout. layout.width ≡ width) }
{
    match catalogue_in(alloc, order, bytes) {
        Ok(catalogue) => Layout::new(alloc, &catalogue, width).ok(),
        Err(_) => None,
    }
}

// The draft of all nodes of a file under a catalogue that some bytes hold.
fn draft_under<P>(alloc: Global, file: &Opened<P>, bytes: &[u8]) -> Option<Draft>
    requires { IsSound file.now.outline }
{
    let header = file.outline.header;
    let layout = layout_in(alloc, header.order, bytes, header.width)?;
    match copy_of(alloc, layout.catalogue()) {
        Ok(catalogue) => whole_draft(alloc, file, header, catalogue).ok(),
        Err(_) => None,
    }
}

// The same of the file `a`.
fn draft_on<S: Shelf>(alloc: Global, shelf: &mut S, bytes: &[u8]) -> Option<Draft> {
    match open::<S, WholePayload>(alloc, shelf, "a", 0) {
        Ok(file) => draft_under(alloc, &file, bytes),
        Err(_) => None,
    }
}

// The draft of the nine nodes under a catalogue whose first struct and last struct have these types.
fn draft_by(alloc: Global, first: u8, last: u8) -> Option<Draft> {
    let mut shelf = SteadyShelf::new(alloc);
    shelf.hold("a", NINE).ok()?;
    let bytes = changed(alloc, NINE, CATALOGUE + FIRST_TYPE, &[first]).ok()?;
    let bytes = changed(alloc, &bytes, CATALOGUE + LAST_TYPE, &[last]).ok()?;
    draft_on(alloc, &mut shelf, bytes.get(CATALOGUE..)?)
}

// No node has this number.
const NO_NODE: u32 = 0xffff_ffff;

// The number of the node that an entry is, of the one file.
fn node_of(entry: &Entry) -> u32 {
    match entry {
        Entry::Source { file: 0, node } => *node,
        _ => NO_NODE,
    }
}

// The numbers of the nodes that entries are.
fn nodes_of(alloc: Global, entries: &[Entry]) -> Option<Vec<u32>> {
    let mut nodes = Vec::new(alloc);
    for entry in entries {
        nodes.push(node_of(entry)).ok()?;
    }
    Some(nodes)
}

// Whether a draft has these nodes and these images.
fn is_draft(alloc: Global, draft: &Draft, nodes: &[u32], images: &[u32]) -> bool {
    let [own] = draft.images.as_slice() else {
        return false;
    };
    match nodes_of(alloc, draft.entries.as_slice()) {
        Some(found) => found.as_slice() == nodes && own.as_slice() == images,
        None => false,
    }
}

// Whether the draft under a catalogue with these types has these nodes and these images.
fn keeps(alloc: Global, types: [u8; 2], nodes: &[u32], images: &[u32]) -> bool {
    let [first, last] = types;
    match draft_by(alloc, first, last) {
        Some(draft) => is_draft(alloc, &draft, nodes, images),
        None => false,
    }
}

// Whether a draft has all of so many nodes, each as its own image.
fn is_whole(draft: &Draft, count: usize) -> bool {
    if draft.images.as_slice().len() != 1 {
        return false;
    }
    is_of_all(draft, count)
}

// Whether the draft under a catalogue with these types does.
fn keeps_all(alloc: Global, types: [u8; 2], count: usize) -> Option<bool> {
    let [first, last] = types;
    let draft = draft_by(alloc, first, last)?;
    Some(is_whole(&draft, count))
}

#[test]
fn keeps_what_a_catalogue_names(rt: HostRuntime) {
    let all = [0, 1, 2, 3, 4, 5, 6, 7, 8];
    for (types, nodes, images) in [
        // Its own catalogue.
        ([A, C], all.as_slice(), [1, 2, 3, 4, 5, 6, 7, 8, 9]),
        // C is at number 0, which no node has as its struct: its group goes with its head.
        ([C, D], &[0, 1, 3, 7, 8], [1, 2, 0, 3, 0, 0, 0, 4, 5]),
    ] {
        assert!(rt; keeps(rt.alloc(), types, nodes, &images));
    }
    for (types, count, want) in [([A, C], 9, true), ([A, C], 8, false), ([C, D], 9, false)] {
        assert_eq!(rt; keeps_all(rt.alloc(), types, count), Some(want));
    }
}

// Two groups: a mesh at 12, which stood at 0x100 and names the raw block at 52, which stood at
// 0x200, and a mesh at 80, which stood at 0x300 and names nothing. A mesh is an ID with a pointer.
const MESHES: &[u8] = b"BLENDER-v405\
    ME\0\0\x10\0\0\0\0\x01\0\0\0\0\0\0\x01\0\0\0\x01\0\0\0MEa\0\0\0\0\0\0\x02\0\0\0\0\0\0\
    DATA\x04\0\0\0\0\x02\0\0\0\0\0\0\0\0\0\0\x01\0\0\0\x01\x02\x03\x04\
    ME\0\0\x10\0\0\0\0\x03\0\0\0\0\0\0\x01\0\0\0\x01\0\0\0MEb\0\0\0\0\0\0\0\0\0\0\0\0\0\
    DNA1\x60\0\0\0\0\0\0\0\0\0\0\0\0\0\0\0\x01\0\0\0\
    SDNANAME\x03\0\0\0name[8]\0id\0*co\0\0TYPE\x04\0\0\0char\0int\0ID\0Mesh\0\0\0\0\
    TLEN\x01\0\x04\0\x08\0\x10\0STRC\x02\0\0\0\x02\0\x01\0\0\0\0\0\
    \x03\0\x02\0\x02\0\x01\0\x01\0\x02\0\
    ENDB";

// The draft of all nodes of a file that the catalogue of another keeps, under the other's header and
// catalogue.
fn draft_like<P>(alloc: Global, file: &Opened<P>, model: &Outline) -> Result<Draft, NoMemory>
    requires file { IsSound file.now.outline }
    requires model { IsSound model.now }
    ensures source { IfOk result (IsSourceDraft file.now.outline) }
    ensures catalogue { IfOk result (λ draft. model.now.layout.catalogue ≡ draft.catalogue) }
    ensures width { IfOk result (λ draft. model.now.layout.width ≡ draft.header.width) }
{
    let catalogue = copy_of(alloc, model.layout.catalogue())?;
    whole_draft(alloc, file, model.header, catalogue)
}

// The same under the file's own header and catalogue.
fn own_draft<P>(alloc: Global, file: &Opened<P>) -> Result<Draft, NoMemory>
    requires { IsSound file.now.outline }
    ensures source { IfOk result (IsSourceDraft file.now.outline) }
    ensures catalogue { IfOk result (λ draft. file.now.outline.layout.catalogue ≡ draft.catalogue) }
    ensures width { IfOk result (λ draft. file.now.outline.layout.width ≡ draft.header.width) }
{
    draft_like(alloc, file, &file.outline)
}

// Where three heads stood.
fn places_of(heads: &[Head]) -> Option<[u64; 3]> {
    match heads {
        [first, second, third] => Some([first.at, second.at, third.at]),
        _ => None,
    }
}

// Where the three entries of the file's own draft stood.
fn places<P>(alloc: Global, file: &Opened<P>) -> Option<[u64; 3]>
    requires { IsSound file.now.outline }
{
    let draft = own_draft(alloc, file).ok()?;
    let heads = heads_of(alloc, &file.outline, &draft).ok()?;
    places_of(&heads)
}

// Whether an address names this from an entry of a draft under the file's own catalogue.
fn is_named_in(
    alloc: Global,
    outline: &Outline,
    draft: &Draft,
    entry: u32,
    address: u64,
    want: Option<u32>,
) -> Option<bool>
    requires sound { IsSound outline.now }
    requires draft { IsSourceDraft outline.now draft.now }
    requires catalogue { outline.now.layout.catalogue ≡ draft.now.catalogue }
    requires width { outline.now.layout.width ≡ draft.now.header.width }
{
    let Ok(heads) = heads_of(alloc, outline, draft) else {
        return None;
    };
    let Ok(structs) = structs_of(alloc, outline, draft, &outline.layout, &heads) else {
        return None;
    };
    let prepared = Prepared {
        draft,
        outline,
        structs: &structs,
        heads: &heads,
    };
    let Ok(targets) = targets_of(alloc, &prepared) else {
        return None;
    };
    if (entry as usize) < draft.entries.as_slice().len() {
        Some(targets.target(entry, address) == want)
    } else {
        None
    }
}

// Whether an address names this from an entry of the file's own draft.
fn is_named<P>(
    alloc: Global,
    file: &Opened<P>,
    entry: u32,
    address: u64,
    want: Option<u32>,
) -> Option<bool>
    requires { IsSound file.now.outline }
{
    let draft = own_draft(alloc, file).ok()?;
    is_named_in(alloc, &file.outline, &draft, entry, address, want)
}

// Whether addresses name what they should in the file of two meshes: from the first its raw block,
// the other mesh, which is an ID, and nothing; from the other the first, and not the raw block,
// which is of another group and no ID.
fn are_named<P>(alloc: Global, file: &Opened<P>) -> Option<bool>
    requires { IsSound file.now.outline }
{
    Some(
        is_named(alloc, file, 0, 0x200, Some(1))?
            && is_named(alloc, file, 0, 0x300, Some(2))?
            && is_named(alloc, file, 0, 0, None)?
            && is_named(alloc, file, 2, 0x100, Some(0))?
            && is_named(alloc, file, 2, 0x200, None)?,
    )
}

// Whether the entries of the file's own draft have these kinds.
fn have_kinds<S: Shelf, P: Payload>(
    alloc: Global,
    file: &mut Opened<P>,
    shelf: &mut S,
    want: &[RawKind],
) -> Option<bool>
    requires sound { IsSound file.old.outline }
    requires size { P.file_size file.old.payload ≡ file.old.outline.size }
    requires held { IsHeldAnd (S.told shelf.old) (P.file_name file.old.payload)
        (λ b. P.agrees file.old.payload b × StandsFor b file.old.outline) }
{
    let draft = match own_draft(alloc, file) {
        Ok(draft) => draft,
        Err(_) => return None,
    };
    let outline = &file.outline;
    let heads = heads_of(alloc, outline, &draft).ok()?;
    let Ok(structs) = structs_of(alloc, outline, &draft, &outline.layout, &heads) else {
        return None;
    };
    let prepared = Prepared {
        draft: &draft,
        outline,
        structs: &structs,
        heads: &heads,
    };
    let targets = targets_of(alloc, &prepared).ok()?;
    let kinds = kinds_of_entries(alloc, &prepared, &targets, &mut file.payload, shelf).ok()?;
    Some(kinds.as_slice() == want)
}

// Whether all of the file of two meshes is told of as it should be.
fn are_told<S: Shelf>(alloc: Global, shelf: &mut S) -> Option<bool> {
    let Ok(mut file) = open::<S, WholePayload>(alloc, shelf, "a", 0) else {
        return None;
    };
    let heads = places(alloc, &file)? == [12, 52, 80];
    let names = are_named(alloc, &file)?;
    let kinds = [RawKind::Bytes, RawKind::Numbers(4), RawKind::Bytes];
    Some(heads && names && have_kinds(alloc, &mut file, shelf, &kinds)?)
}

#[test]
fn tells_of_its_entries(rt: HostRuntime) -> Result<(), NoMemory> {
    let mut shelf = SteadyShelf::new(rt.alloc());
    shelf.hold("a", MESHES)?;
    assert_eq!(rt; are_told(rt.alloc(), &mut shelf), Some(true));
    Ok(())
}

// A catalogue under which the raw block of the first mesh holds numbers of 2 bytes. Its header has
// the other width and order, and its structs have other numbers and members.
const OTHER: &[u8] = b"BLENDER_V300\
    DNA1\0\0\0\x8c\0\0\0\0\0\0\0\0\0\0\0\x01\
    SDNANAME\0\0\0\x04name[2]\0flag\0id\0*co\0\
    TYPE\0\0\0\x08char\0short\0int\0float\0void\0One\0ID\0Mesh\0\0\0\
    TLEN\0\x01\0\x02\0\x04\0\x04\0\0\0\x04\0\x10\0\x14\
    STRC\0\0\0\x03\0\x05\0\x01\0\x02\0\x01\0\x07\0\x02\0\x06\0\x02\0\x01\0\x03\0\x06\0\x02\0\
    \x02\0\x01\0\0\0\0\
    ENDB\0\0\0\0\0\0\0\0\0\0\0\0\0\0\0\0";

// Where the types of `co` and of an ID's `name` stand, and the numbers of three types.
const CO_TYPE: usize = 157;

const NAME_TYPE: usize = 169;

const SHORT: u8 = 1;

const FLOAT: u8 = 3;

const VOID: u8 = 4;

// Whether the kinds of a draft of an opened file's nodes are those of two meshes and of a raw block
// of this kind between them, or are refused so.
fn are_kinds<S: Shelf, P: Payload>(
    alloc: Global,
    draft: &Draft,
    files: &mut [Opened<P>],
    shelf: &mut S,
    want: Result<RawKind, DraftFault>,
) -> bool
    requires { AreOpen S.Shelf P.Payload shelf.old draft.now files.old }
{
    match kinds_for(alloc, draft, files, shelf) {
        Ok(kinds) => match want {
            Ok(kind) => kinds.as_slice() == [RawKind::Bytes, kind, RawKind::Bytes].as_slice(),
            Err(_) => false,
        },
        Err(fault) => want == Err(fault),
    }
}

// The same of the file `a` under the catalogue of `b`.
fn are_kinds_like<S: Shelf>(
    alloc: Global,
    shelf: &mut S,
    want: Result<RawKind, DraftFault>,
) -> bool {
    let model = match open::<S, WholePayload>(alloc, shelf, "b", 0) {
        Ok(model) => model.outline,
        Err(_) => return false,
    };
    let mut files = match open::<S, WholePayload>(alloc, shelf, "a", 0) {
        Ok(file) => [file],
        Err(_) => return false,
    };
    match draft_like(alloc, &files[0], &model) {
        Ok(draft) => are_kinds(alloc, &draft, &mut files, shelf, want),
        Err(_) => false,
    }
}

// The same of the file of two meshes under the other catalogue, with a type at a place.
fn are_kinds_under(
    alloc: Global,
    at: usize,
    type_: u8,
    want: Result<RawKind, DraftFault>,
) -> Result<bool, NoMemory> {
    let other = changed(alloc, OTHER, at, &[type_])?;
    let mut shelf = SteadyShelf::new(alloc);
    shelf.hold("a", MESHES)?;
    shelf.hold("b", &other)?;
    Ok(are_kinds_like(alloc, &mut shelf, want))
}

#[test]
fn tells_kinds_under_another_catalogue(rt: HostRuntime) {
    let clash = DraftFault::FloatCast { t: 2, member: 1 };
    for (at, type_, want) in [
        (CO_TYPE, SHORT, Ok(RawKind::Numbers(2))),
        // A pointer to `void` says nothing.
        (CO_TYPE, VOID, Ok(RawKind::Bytes)),
        // An ID is struct 2 there, and its name the second member.
        (NAME_TYPE, FLOAT, Err(clash)),
    ] {
        assert_eq!(rt; are_kinds_under(rt.alloc(), at, type_, want), Ok(true));
    }
}
