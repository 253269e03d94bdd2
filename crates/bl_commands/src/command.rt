use crate::{Keeper, Word};
use bl_num::{Items, Order, Width};

/// Which form of header and heads (`BHead`) a file is to have.
#[derive(Clone, Copy, Debug, PartialEq, Eq)]
pub enum HeadForm {
    /// That of Blender up to 4.5.
    Classic,
    /// That of Blender from 5.0 on, with long lengths and counts.
    Wide,
}

/// What the options of `convert` give; each is there at most once.
#[derive(Debug, Drop)]
pub struct ConvertOptions {
    /// The file whose catalogue the output gets.
    pub like: Option<Word>,
    /// The width of the output's pointers.
    pub width: Option<Width>,
    /// The order of the output's bytes.
    pub order: Option<Order>,
    /// The form of the output's heads.
    pub head: Option<HeadForm>,
    /// The file that says which structs and members are renamed.
    pub renames: Option<Word>,
}

/// One command with what its words give.
#[derive(Debug, Drop)]
pub enum Command {
    /// Writes a file in another form.
    Convert {
        input: Word,
        out: Word,
        options: ConvertOptions,
    },
    /// Brings datablocks of a library into a file, with all that they use.
    Append {
        into: Word,
        lib: Word,
        out: Word,
        names: Items<Word>,
    },
    /// Brings placeholders for datablocks of a library into a file.
    Link {
        into: Word,
        lib: Word,
        out: Word,
        names: Items<Word>,
    },
    /// Replaces placeholders by what they stand for.
    Resolve {
        input: Word,
        out: Word,
    },
    /// Counts anew how often each datablock is used.
    Recount {
        input: Word,
        out: Word,
    },
    /// Makes a file of so many nodes from a seed.
    Make {
        seed: u64,
        n: u32,
        out: Word,
    },
    /// Prints a catalogue.
    Schema {
        input: Word,
    },
    /// Prints what becomes of each member under another catalogue.
    Fates {
        input: Word,
        cat: Word,
        renames: Option<Word>,
    },
    /// Prints the nodes of a file.
    List {
        input: Word,
    },
    /// Prints what a path leads to.
    Query {
        input: Word,
        name: Word,
        path: Word,
    },
    /// Prints all values of a file, in one of the kinds of reports.
    Dump {
        input: Word,
        kind: u8,
    },
    /// Sets single values of a file by a script, and prints a script that undoes it.
    Edit {
        input: Word,
        script: Word,
        out: Word,
    },
    /// Keeps the datablocks that some keepers reach.
    Purge {
        input: Word,
        out: Word,
        keepers: Items<Keeper>,
    },
    /// Prints the datablocks that a purge would drop.
    Unused {
        input: Word,
        keepers: Items<Keeper>,
    },
    /// Moves datablocks into a library, and links them from there.
    Split {
        input: Word,
        out: Word,
        lib: Word,
        names: Items<Word>,
    },
}
