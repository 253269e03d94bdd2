// The words behind the name of each command.
ghost use Rattle.std.specs.Prelude.{◌≡◌, ◌∷◌, ◌&&◌, [], map, not, IfOk};
ghost use Rattle.bl_format.specs.Words.{is_one_of};
ghost use Rattle.std.specs.List.{list_all};
ghost use Rattle.std.specs.String.{string_bytes};
ghost use Rattle.bl_commands.specs.Commands.{is_file_word, are_names, convert_words, fates_words, merge_words, two_files, one_file, make_words, query_words, dump_words, edit_words, purge_words, unused_words, split_words};
ghost use Rattle.bl_commands.specs.declared.command.Command.TheVariants.{Append, Link, Resolve, Recount, Schema, List as ListIds};

use crate::options::{Taker, are_options, asks_for_no_head, convert_options, renames_given};
use crate::paths::is_query_path;
use crate::words::{are_names, copies, decimal_word, is_file_word, keeper_words};
use bl_commands::{Command, Word};
use bl_num::NoMemory;
use std::alloc::Global;

/// The greatest number of nodes that a file is made of.
const MOST_NODES: u64 = 1_000_000;

/// The greatest kind of a report.
const GREATEST_KIND: u64 = 255;

// IN OUT, and options.
pub fn convert_of(alloc: Global, words: &[String]) -> Result<Option<Command>, NoMemory>
    ensures { IfOk result (λ command. command ≡ convert_words (map string_bytes words.now)) }
{
    match words {
        [input, out, rest @ ..]
            if is_file_word(input.as_str())
                && is_file_word(out.as_str())
                && are_options(Taker::Convert, rest) => {
            let options = convert_options(alloc, rest)?;
            if asks_for_no_head(&options) {
                return Ok(None);
            }
            Ok(Some(Command::Convert {
                input: Word::from_str(alloc, input.as_str())?,
                out: Word::from_str(alloc, out.as_str())?,
                options,
            }))
        }
        _ => Ok(None),
    }
}

// IN CAT, and options.
pub fn fates_of(alloc: Global, words: &[String]) -> Result<Option<Command>, NoMemory>
    ensures { IfOk result (λ command. command ≡ fates_words (map string_bytes words.now)) }
{
    match words {
        [input, cat, rest @ ..]
            if is_file_word(input.as_str())
                && is_file_word(cat.as_str())
                && are_options(Taker::Fates, rest) => {
            Ok(Some(Command::Fates {
                input: Word::from_str(alloc, input.as_str())?,
                cat: Word::from_str(alloc, cat.as_str())?,
                renames: renames_given(alloc, rest)?,
            }))
        }
        _ => Ok(None),
    }
}

// INTO LIB OUT NAME...
#[tactic(auto, using(crate::proofs::FewWords::few_to_merge))]
pub fn append_of(alloc: Global, words: &[String]) -> Result<Option<Command>, NoMemory>
    ensures { IfOk result (λ command. command ≡ merge_words Append (map string_bytes words.now)) }
{
    let [into, lib, out, names @ ..] = words else {
        return Ok(None);
    };
    if !are_merged(into.as_str(), lib.as_str(), out.as_str(), names) {
        return Ok(None);
    }
    Ok(Some(Command::Append {
        into: Word::from_str(alloc, into.as_str())?,
        lib: Word::from_str(alloc, lib.as_str())?,
        out: Word::from_str(alloc, out.as_str())?,
        names: copies(alloc, names)?,
    }))
}

// INTO LIB OUT NAME...
#[tactic(auto, using(crate::proofs::FewWords::few_to_merge))]
pub fn link_of(alloc: Global, words: &[String]) -> Result<Option<Command>, NoMemory>
    ensures { IfOk result (λ command. command ≡ merge_words Link (map string_bytes words.now)) }
{
    let [into, lib, out, names @ ..] = words else {
        return Ok(None);
    };
    if !are_merged(into.as_str(), lib.as_str(), out.as_str(), names) {
        return Ok(None);
    }
    Ok(Some(Command::Link {
        into: Word::from_str(alloc, into.as_str())?,
        lib: Word::from_str(alloc, lib.as_str())?,
        out: Word::from_str(alloc, out.as_str())?,
        names: copies(alloc, names)?,
    }))
}

// Whether words name three files, and one or more datablocks.
fn are_merged(into: &str, lib: &str, out: &str, names: &[String]) -> bool
    ensures { result ≡ (list_all is_file_word (into.now ∷ lib.now ∷ out.now ∷ []) && are_names (map string_bytes names.now)) }
{
    is_file_word(into) && is_file_word(lib) && is_file_word(out) && are_names(names)
}

// IN OUT
pub fn resolve_of(alloc: Global, words: &[String]) -> Result<Option<Command>, NoMemory>
    ensures { IfOk result (λ command. command ≡ two_files Resolve (map string_bytes words.now)) }
{
    match words {
        [input, out] if is_file_word(input.as_str()) && is_file_word(out.as_str()) => {
            Ok(Some(Command::Resolve {
                input: Word::from_str(alloc, input.as_str())?,
                out: Word::from_str(alloc, out.as_str())?,
            }))
        }
        _ => Ok(None),
    }
}

// IN OUT
pub fn recount_of(alloc: Global, words: &[String]) -> Result<Option<Command>, NoMemory>
    ensures { IfOk result (λ command. command ≡ two_files Recount (map string_bytes words.now)) }
{
    match words {
        [input, out] if is_file_word(input.as_str()) && is_file_word(out.as_str()) => {
            Ok(Some(Command::Recount {
                input: Word::from_str(alloc, input.as_str())?,
                out: Word::from_str(alloc, out.as_str())?,
            }))
        }
        _ => Ok(None),
    }
}

// SEED N OUT
pub fn make_of(alloc: Global, words: &[String]) -> Result<Option<Command>, NoMemory>
    ensures { IfOk result (λ command. command ≡ make_words (map string_bytes words.now)) }
{
    let [seed, n, out] = words else {
        return Ok(None);
    };
    let seed = decimal_word(u64::MAX, seed.as_str());
    let n = decimal_word(MOST_NODES, n.as_str());
    match (seed, n) {
        (Some(seed), Some(n)) if is_file_word(out.as_str()) => Ok(Some(Command::Make {
            seed,
            n: n as u32,
            out: Word::from_str(alloc, out.as_str())?,
        })),
        _ => Ok(None),
    }
}

// IN
pub fn schema_of(alloc: Global, words: &[String]) -> Result<Option<Command>, NoMemory>
    ensures { IfOk result (λ command. command ≡ one_file Schema (map string_bytes words.now)) }
{
    match words {
        [input] if is_file_word(input.as_str()) => Ok(Some(Command::Schema {
            input: Word::from_str(alloc, input.as_str())?,
        })),
        _ => Ok(None),
    }
}

// IN
pub fn list_of(alloc: Global, words: &[String]) -> Result<Option<Command>, NoMemory>
    ensures { IfOk result (λ command. command ≡ one_file ListIds (map string_bytes words.now)) }
{
    match words {
        [input] if is_file_word(input.as_str()) => Ok(Some(Command::List {
            input: Word::from_str(alloc, input.as_str())?,
        })),
        _ => Ok(None),
    }
}

// IN NAME PATH
pub fn query_of(alloc: Global, words: &[String]) -> Result<Option<Command>, NoMemory>
    ensures { IfOk result (λ command. command ≡ query_words (map string_bytes words.now)) }
{
    match words {
        [input, name, path]
            if is_file_word(input.as_str()) && !name.is_empty() && is_query_path(path.as_bytes()) =>
            {
                Ok(Some(Command::Query {
                    input: Word::from_str(alloc, input.as_str())?,
                    name: Word::from_str(alloc, name.as_str())?,
                    path: Word::from_str(alloc, path.as_str())?,
                }))
            }
        _ => Ok(None),
    }
}

// IN KIND
pub fn dump_of(alloc: Global, words: &[String]) -> Result<Option<Command>, NoMemory>
    ensures { IfOk result (λ command. command ≡ dump_words (map string_bytes words.now)) }
{
    let [input, kind] = words else {
        return Ok(None);
    };
    match decimal_word(GREATEST_KIND, kind.as_str()) {
        Some(kind) if kind >= 1 && is_file_word(input.as_str()) => Ok(Some(Command::Dump {
            input: Word::from_str(alloc, input.as_str())?,
            kind: kind as u8,
        })),
        _ => Ok(None),
    }
}

// IN SCRIPT OUT
pub fn edit_of(alloc: Global, words: &[String]) -> Result<Option<Command>, NoMemory>
    ensures { IfOk result (λ command. command ≡ edit_words (map string_bytes words.now)) }
{
    match words {
        [input, script, out]
            if is_file_word(input.as_str())
                && is_file_word(script.as_str())
                && is_file_word(out.as_str()) => {
            Ok(Some(Command::Edit {
                input: Word::from_str(alloc, input.as_str())?,
                script: Word::from_str(alloc, script.as_str())?,
                out: Word::from_str(alloc, out.as_str())?,
            }))
        }
        _ => Ok(None),
    }
}

// IN OUT KEEPER...
pub fn purge_of(alloc: Global, words: &[String]) -> Result<Option<Command>, NoMemory>
    ensures { IfOk result (λ command. command ≡ purge_words (map string_bytes words.now)) }
{
    let [input, out, rest @ ..] = words else {
        return Ok(None);
    };
    match keeper_words(alloc, rest)? {
        Some(keepers) if is_file_word(input.as_str()) && is_file_word(out.as_str()) => {
            Ok(Some(Command::Purge {
                input: Word::from_str(alloc, input.as_str())?,
                out: Word::from_str(alloc, out.as_str())?,
                keepers,
            }))
        }
        _ => Ok(None),
    }
}

// IN KEEPER...
pub fn unused_of(alloc: Global, words: &[String]) -> Result<Option<Command>, NoMemory>
    ensures { IfOk result (λ command. command ≡ unused_words (map string_bytes words.now)) }
{
    let [input, rest @ ..] = words else {
        return Ok(None);
    };
    match keeper_words(alloc, rest)? {
        Some(keepers) if is_file_word(input.as_str()) => Ok(Some(Command::Unused {
            input: Word::from_str(alloc, input.as_str())?,
            keepers,
        })),
        _ => Ok(None),
    }
}

// IN OUT LIB NAME..., where LIB is another file than IN and OUT.
#[tactic(auto, using(crate::proofs::FewWords::few_to_split))]
pub fn split_of(alloc: Global, words: &[String]) -> Result<Option<Command>, NoMemory>
    ensures { IfOk result (λ command. command ≡ split_words (map string_bytes words.now)) }
{
    let [input, out, lib, names @ ..] = words else {
        return Ok(None);
    };
    if !are_split(input.as_str(), out.as_str(), lib.as_str(), names) {
        return Ok(None);
    }
    Ok(Some(Command::Split {
        input: Word::from_str(alloc, input.as_str())?,
        out: Word::from_str(alloc, out.as_str())?,
        lib: Word::from_str(alloc, lib.as_str())?,
        names: copies(alloc, names)?,
    }))
}

// Whether words name three files, the last one another than the others, and one or more datablocks.
fn are_split(input: &str, out: &str, lib: &str, names: &[String]) -> bool
    ensures { result ≡ (list_all is_file_word (input.now ∷ out.now ∷ lib.now ∷ []) && are_names (map string_bytes names.now) && not (is_one_of lib.now (input.now ∷ out.now ∷ []))) }
{
    are_merged(input, out, lib, names) && is_neither(lib, input, out)
}

// Whether a word is another than two words.
fn is_neither(word: &str, first: &str, second: &str) -> bool
    ensures { result ≡ not (is_one_of word.now (first.now ∷ second.now ∷ [])) }
{
    word != first && word != second
}
