// The printed lines.
use bl_format::{BlockFault, HeadFault, Header, LayoutFault, SdnaFault};
use bl_lines::{
    Ending, Fate, FileFault, Lack, Quantity, block_ending, common_struct_line, fate_line,
    fault_line, head_ending, layout_ending, member_line, new_struct_line, schema_line, sdna_ending,
    status_of, struct_line, summary_line,
};
use bl_num::{NoMemory, Order, Text, Width};
use std::alloc::Global;

fn text(alloc: Global, text: &str) -> Result<Text, NoMemory> {
    let bytes = Vec::from_slice(alloc, text.as_bytes())?;
    Ok(Text::from_vec(bytes))
}

// Whether these are the lines of a conversion and of a catalogue, one behind another.
fn are_printed(alloc: Global, wanted: &str) -> Result<bool, NoMemory> {
    let header = Header {
        width: Width::Eight,
        order: Order::Little,
        version: 405,
    };
    let mut found = summary_line(alloc, 9, 1540)?;
    found.extend_from_slice(&schema_line(alloc, &header, 20, 14, 5)?)?;
    found.extend_from_slice(&struct_line(alloc, 3, b"Object", 136)?)?;
    found.extend_from_slice(&member_line(alloc, 120, 12, b"float", b"loc[3]")?)?;
    found.extend_from_slice(&member_line(alloc, 134, 2, b"char", b"_pad[2]")?)?;
    found.extend_from_slice(&struct_line(alloc, 4, b"a\"b\\", 65535)?)?;
    found.extend_from_slice(&member_line(alloc, 0, 8, b"\x1f ", b"*\x7f\xc3")?)?;
    Ok(found.as_slice() == wanted.as_bytes())
}

// Whether these are the lines of two structs and of members with each fate, one behind another.
fn are_fates(alloc: Global, wanted: &str) -> Result<bool, NoMemory> {
    let mut found = new_struct_line(alloc, b"a\"")?;
    found.extend_from_slice(&common_struct_line(alloc, b"b\\")?)?;
    for fate in [
        Fate::Kept,
        Fate::Cast,
        Fate::Cut,
        Fate::Extended,
        Fate::Fresh,
        Fate::FloatCast,
    ] {
        found.extend_from_slice(&fate_line(alloc, b"*c\x7f", fate)?)?;
    }
    Ok(found.as_slice() == wanted.as_bytes())
}

#[test]
fn tell_of_what_is_done(rt: HostRuntime) {
    let fates =
        "struct a\\x22 new\nstruct b\\x5c\n  *c\\x7f kept\n  *c\\x7f cast\n  *c\\x7f cut\n  \
        *c\\x7f extended\n  *c\\x7f fresh\n  *c\\x7f float-cast\n";
    assert_eq!(rt; are_fates(rt.alloc(), fates), Ok(true));
    let lines = "blocks 9 bytes 1540\n\
        version 405 width 8 order little names 20 types 14 structs 5\n\
        struct 3 Object 136\n  120 12 float loc[3]\n  134 2 char _pad[2]\n\
        struct 4 a\\x22b\\x5c 65535\n  0 8 \\x1f  *\\x7f\\xc3\n";
    assert_eq!(rt; are_printed(rt.alloc(), lines), Ok(true));
}

// Whether the lines of the endings are these, one behind another.
fn are_lines(alloc: Global, endings: Vec<Ending>, lines: &str) -> Result<bool, NoMemory> {
    let mut found = Vec::new(alloc);
    for ending in &endings {
        found.extend_from_slice(&fault_line(alloc, ending)?)?;
    }
    Ok(found.as_slice() == lines.as_bytes())
}

// Endings of each status but those of refused files and of limits.
fn ends_of_runs(alloc: Global) -> Result<Vec<Ending>, NoMemory> {
    let file = text(alloc, "b.blend")?;
    let owner = text(alloc, "Mesh")?;
    let member = text(alloc, "totco")?;
    let endings = vec![in alloc;
        Ending::NoCommand,
        Ending::NoMemory,
        Ending::Absent { file },
        Ending::Device,
        Ending::FloatCast { owner, member },
        Ending::Sink,
    ]?;
    Ok(endings)
}

fn limits(alloc: Global) -> Result<Vec<Ending>, NoMemory> {
    let mut endings = Vec::new(alloc);
    for quantity in [
        Quantity::InputBytes,
        Quantity::Blocks,
        Quantity::Depth,
        Quantity::Leaves,
        Quantity::TypeBytes,
        Quantity::PathBytes,
        Quantity::NameBytes,
        Quantity::Libraries,
        Quantity::OutputBlocks,
        Quantity::BlockBytes,
        Quantity::FileBytes,
    ] {
        endings.push(Ending::PastLimit { quantity, count: 7 })?;
    }
    Ok(endings)
}

fn faults_of_heads(alloc: Global) -> Result<Vec<Ending>, NoMemory> {
    let mut endings = Vec::new(alloc);
    for fault in [
        HeadFault::BadMagic,
        HeadFault::BadMark(7),
        HeadFault::BadVersion(249),
    ] {
        endings.push(head_ending(text(alloc, "a")?, fault))?;
    }
    for fault in [
        BlockFault::Truncated(12),
        BlockFault::TooManyBlocks(4194305),
    ] {
        endings.push(block_ending(text(alloc, "a")?, fault))?;
    }
    Ok(endings)
}

fn faults_of_catalogues(alloc: Global) -> Result<Vec<Ending>, NoMemory> {
    let mut endings = Vec::new(alloc);
    for fault in [SdnaFault::TwoTypes(169), SdnaFault::NoMemory] {
        endings.push(sdna_ending(text(alloc, "a")?, fault))?;
    }
    for fault in [
        LayoutFault::Overrun { s: 3, member: 5 },
        LayoutFault::TooLong(65536),
    ] {
        let file = text(alloc, "a")?;
        let owner = text(alloc, "Object")?;
        let member = text(alloc, "_pad[2]")?;
        endings.push(layout_ending(file, owner, member, fault))?;
    }
    Ok(endings)
}

fn other_faults(alloc: Global) -> Result<Vec<Ending>, NoMemory> {
    let mut endings = Vec::new(alloc);
    for fault in [
        FileFault::NoCatalogue,
        FileFault::TwoCatalogues(36),
        FileFault::StrayPlaceholder(12),
        FileFault::NotBuilt,
    ] {
        let file = text(alloc, "a")?;
        endings.push(Ending::BadFile { file, fault })?;
    }
    Ok(endings)
}

fn lacks(alloc: Global) -> Result<Vec<Ending>, NoMemory> {
    let file = text(alloc, "a \"\u{e9}")?;
    let name = text(alloc, "OBRig")?;
    let path = text(alloc, "b.blend")?;
    let endings = vec![in alloc;
        Ending::Missing(Lack::NoName { file }),
        Ending::Missing(Lack::MissingDatablock { name, path }),
        Ending::Missing(Lack::NotStruct(11)),
    ]?;
    Ok(endings)
}

// Whether the lines of all these endings are as they should be.
fn are_told(alloc: Global) -> Result<[bool; 6], NoMemory> {
    let runs = "usage\nout of memory\nabsent b.blend\ndevice\nfloat cast Mesh.totco\n";
    let passed = "limit input bytes 7\nlimit blocks 7\nlimit depth 7\nlimit leaves 7\n\
        limit type bytes 7\nlimit path bytes 7\nlimit name bytes 7\nlimit libraries 7\n\
        limit output blocks 7\nlimit block bytes 7\nlimit file bytes 7\n";
    let heads = "bad file a: BadMagic\nbad file a: BadMark 7\nbad file a: BadVersion 249\n\
        bad file a: Truncated 12\nlimit blocks 4194305\n";
    let catalogues = "bad file a: TwoTypes 169\nout of memory\n\
        bad file a: Overrun Object _pad[2]\nlimit type bytes 65536\n";
    let others = "bad file a: NoCatalogue\nbad file a: TwoCatalogues 36\n\
        bad file a: StrayPlaceholder 12\nbad file a: NotBuilt\n";
    let missing = "missing NoName in a \\x22\\xc3\\xa9\n\
        missing MissingDatablock OBRig in b.blend\nmissing NotStruct 11\n";
    Ok([
        are_lines(alloc, ends_of_runs(alloc)?, runs)?,
        are_lines(alloc, limits(alloc)?, passed)?,
        are_lines(alloc, faults_of_heads(alloc)?, heads)?,
        are_lines(alloc, faults_of_catalogues(alloc)?, catalogues)?,
        are_lines(alloc, other_faults(alloc)?, others)?,
        are_lines(alloc, lacks(alloc)?, missing)?,
    ])
}

// The statuses of some endings.
fn statuses() -> [u8; 4] {
    [
        status_of(&Ending::NoCommand),
        status_of(&Ending::NoMemory),
        status_of(&Ending::Device),
        status_of(&Ending::Sink),
    ]
}

#[test]
fn tell_what_ended_a_run(rt: HostRuntime) {
    assert_eq!(rt; are_told(rt.alloc()), Ok([true; 6]));
    assert_eq!(rt; statuses(), [2, 3, 5, 10]);
}
