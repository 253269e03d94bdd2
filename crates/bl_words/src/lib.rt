//! Which command the words of a command line spell.
#![tactic(auto)]

mod commands;
mod options;
mod paths;
mod words;

ghost use Rattle.std.specs.Prelude.{◌≡◌, ◌∷◌, map, drop, IfOk};
ghost use Rattle.std.specs.Str.{bytes_eq};
ghost use Rattle.std.specs.String.{string_bytes};
ghost use Rattle.bl_commands.specs.Commands.{command_by, command_of, forms};

pub use bl_commands::{Command, ConvertOptions, HeadForm, Keeper, Word};
use bl_num::NoMemory;
use commands::{
    append_of, convert_of, dump_of, edit_of, fates_of, link_of, list_of, make_of, purge_of,
    query_of, recount_of, resolve_of, schema_of, split_of, unused_of,
};
use std::alloc::Global;
pub use words::is_file_word;

/// The command that the words behind the program's name spell, or none.
#[tactic(auto, unfolding(bl_commands::specs::Commands::command_of))]
pub fn command_of(alloc: Global, words: &[String]) -> Result<Option<Command>, NoMemory>
    ensures { IfOk result (λ command. command ≡ command_of (map string_bytes words.now)) }
{
    match words.split_first() {
        Some((name, rest)) => named(alloc, name.as_str(), rest),
        None => Ok(None),
    }
}

// The command of a name with the words behind it.
fn named(alloc: Global, name: &str, rest: &[String]) -> Result<Option<Command>, NoMemory>
    ensures { IfOk result (λ command. command ≡ command_by forms (name.now ∷ map string_bytes rest.now)) }
{
    if is_named("convert", name) {
        convert_of(alloc, rest)
    } else if is_named("append", name) {
        append_of(alloc, rest)
    } else if is_named("link", name) {
        link_of(alloc, rest)
    } else if is_named("resolve", name) {
        resolve_of(alloc, rest)
    } else if is_named("recount", name) {
        recount_of(alloc, rest)
    } else {
        named_later(alloc, name, rest)
    }
}

// The same of all commands but the first five.
fn named_later(alloc: Global, name: &str, rest: &[String]) -> Result<Option<Command>, NoMemory>
    ensures { IfOk result (λ command. command ≡ command_by (drop 5 forms) (name.now ∷ map string_bytes rest.now)) }
{
    if is_named("make", name) {
        make_of(alloc, rest)
    } else if is_named("schema", name) {
        schema_of(alloc, rest)
    } else if is_named("fates", name) {
        fates_of(alloc, rest)
    } else if is_named("list", name) {
        list_of(alloc, rest)
    } else if is_named("query", name) {
        query_of(alloc, rest)
    } else {
        named_last(alloc, name, rest)
    }
}

// The same of the last five commands.
fn named_last(alloc: Global, name: &str, rest: &[String]) -> Result<Option<Command>, NoMemory>
    ensures { IfOk result (λ command. command ≡ command_by (drop 10 forms) (name.now ∷ map string_bytes rest.now)) }
{
    if is_named("dump", name) {
        dump_of(alloc, rest)
    } else if is_named("edit", name) {
        edit_of(alloc, rest)
    } else if is_named("purge", name) {
        purge_of(alloc, rest)
    } else if is_named("unused", name) {
        unused_of(alloc, rest)
    } else if is_named("split", name) {
        split_of(alloc, rest)
    } else {
        Ok(None)
    }
}

fn is_named(command: &str, name: &str) -> bool
    ensures { result ≡ bytes_eq command.now name.now }
{
    command == name
}
