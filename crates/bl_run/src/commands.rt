// The commands that this program has. A new one has a module, and an arm here.
ghost use Rattle.std.specs.Prelude.{◌≡◌, Option, None, IfOk, option_and_then};
ghost use Rattle.bl_commands.specs.declared.command.Command.{Command};
ghost use Rattle.bl_run.specs.Blame.{IsUsage};
ghost use Rattle.bl_run.specs.Commands.{built, has_form_alone, meaning_of};
ghost use Rattle.bl_run.specs.Obeying.{Obeys};

mod convert;
mod fates;
mod schema;

use bl_commands::Ending;
use bl_num::NoMemory;
use bl_shelf::{Shelf, Sink};
use bl_words::{Command, ConvertOptions};
use std::alloc::Global;

// Whether convert is given no option but `--like`, `--width` and `--order`.
fn has_form_alone(options: &ConvertOptions) -> bool
    ensures { result ≡ has_form_alone options.now }
{
    options.head.is_none() && options.renames.is_none()
}

/// Does what words say, by the command that they spell, if this program has it. The command is
/// `command_of` of the words, which is lent.
pub fn perform<S: Shelf, O: Sink>(
    alloc: Global,
    command: &Result<Option<Command>, NoMemory>,
    shelf: &mut S,
    out: &mut O,
) -> Result<(), Ending>
    requires { S.room shelf.old ≡ None }
    ensures obeys { (spelled : Option Command) → IfOk command.now (λ c. c ≡ spelled)
        → Obeys S.Shelf O.Sink (meaning_of (option_and_then built spelled))
        shelf.old shelf.new out.old out.new result }
    ensures usage { (spelled : Option Command) → IfOk command.now (λ c. c ≡ spelled)
        → IsUsage (option_and_then built spelled) result }
{
    match command {
        Err(_) => Err(Ending::NoMemory),
        Ok(
            Some(
                Command::Convert {
                    input,
                    out: name,
                    options,
                },
            ),
        ) if has_form_alone(options) => convert::convert(
            alloc,
            input.as_str(),
            name.as_str(),
            options,
            shelf,
            out,
        ),
        Ok(Some(Command::Schema { input })) => schema::schema(alloc, input.as_str(), shelf, out),
        Ok(
            Some(
                Command::Fates {
                    input,
                    cat,
                    renames,
                },
            ),
        ) if renames.is_none() => fates::fates(alloc, input.as_str(), cat.as_str(), shelf, out),
        Ok(_) => Err(Ending::NoCommand),
    }
}
