// A run of the program.
ghost use Rattle.std.specs.Prelude.{◌≡◌, ◌≢◌, ◌⊎◌, ◌≤◌, None, IfSome, IsOk};
ghost use Rattle.bl_shelf.specs.Causes.{Rose};
ghost use Rattle.bl_shelf.specs.Told.{held_of};
ghost use Rattle.bl_run.specs.Commands.{command_in, meaning_in};
ghost use Rattle.bl_run.specs.Meaning.{IsDone, IsLawful};
ghost use Rattle.bl_run.specs.Run.{Concludes, IsBlamedFor, IsStatus, IsStatusOf, LeavesFiles, PutsLines, Reports, TellsAbsent, Writes};

use crate::commands::perform;
use bl_commands::Ending;
use bl_lines::{fault_line, status_of};
use bl_shelf::{Shelf, Sink, SinkFault};
use bl_words::command_of;
use std::alloc::Global;

// Puts the line of what ended a run, and answers the status.
fn report<O: Sink>(alloc: Global, ending: &Ending, out: &mut O) -> u8
    ensures reports { Reports ending.now result (O.faults out.old) (O.faults out.new)
        (O.written out.old) (O.written out.new) }
    ensures later { O.faults out.old ≤ O.faults out.new }
{
    let no_memory = status_of(&Ending::NoMemory);
    match fault_line(alloc, ending) {
        Err(_) => no_memory,
        Ok(line) => match out.put(&line) {
            Ok(()) | Err(SinkFault::Failed) => status_of(ending),
            Err(SinkFault::NoMemory) => no_memory,
        },
    }
}

// Answers the status of a run, and puts the line of what ended it; a sink that failed gets none.
fn conclude<O: Sink>(alloc: Global, done: Result<(), Ending>, out: &mut O) -> u8
    ensures concludes { Concludes done result (O.faults out.old) (O.faults out.new)
        (O.written out.old) (O.written out.new) }
    ensures later { O.faults out.old ≤ O.faults out.new }
{
    match done {
        Ok(()) => 0,
        Err(Ending::Sink) => status_of(&Ending::Sink),
        Err(ending) => report(alloc, &ending, out),
    }
}

/// Does what the words spell, and answers the status of the process: 0 where it is done; 2 where
/// the words spell no command that this program has; 3 where memory is wanted; 4 where an input
/// isn't held; 5 where a device of the shelf failed; 6 where an input is refused; 8 where a float
/// would become another number; 9 where an input or the output passes a limit; 10 where the sink
/// failed.
///
/// The line of a conversion is put before the output is committed. A run that ends with another
/// status than 0 and 10 puts a line of what ended it; after 3, and where the sink fails, a part of
/// that line or all of it may be missing. After 0 the output of a conversion is held; after 3 and
/// 5 it may be, where the commit itself failed; after all others, and whatever is printed, what is
/// held is what was.
pub fn run<S: Shelf, O: Sink>(alloc: Global, words: &[String], shelf: &mut S, out: &mut O) -> u8
    requires { S.room shelf.old ≡ None }
    ensures statuses { IsStatus (command_in words.now) result }
    ensures room { S.room shelf.new ≡ None }

    // What the words mean keeps the laws of a command: its endings have their causes in the files,
    // what can be done is done, and what is done is what the command is for.
    ensures lawful { IsLawful (meaning_in words.now) }

    // The outcome of the command decides the status, unless memory, a device or the sink ended the
    // run.
    ensures checked { IfSome (S.told shelf.old) (λ t.
        IsStatusOf ((meaning_in words.now).outcome t.held) result) }
    ensures complete { IfSome (S.told shelf.old) (λ t.
        IsOk ((meaning_in words.now).outcome t.held)
        → ¬ Rose (S.faults shelf.old) (S.faults shelf.new)
        → ¬ Rose (O.faults out.old) (O.faults out.new)
        → (result ≡ 0) ⊎ (result ≡ 3)) }

    // What status 0 does, and what that is: a conversion of the input, which reads back, or the
    // print of its catalogue, or of the fates of another's members.
    ensures done { IfSome (S.told shelf.old) (λ t. result ≡ 0
        → IsDone ((meaning_in words.now).outcome t.held) t.held
        (held_of (S.told shelf.new)) (O.written out.old) (O.written out.new)) }
    ensures accomplishes { IfSome (S.told shelf.old) (λ t. result ≡ 0
        → (meaning_in words.now).accomplishes t.held (held_of (S.told shelf.new))
        (O.written out.old) (O.written out.new)) }

    // What another status leaves, and which lines are put.
    ensures left { IfSome (S.told shelf.old) (λ t. result ≢ 0
        → LeavesFiles ((meaning_in words.now).outcome t.held) result t.held
        (held_of (S.told shelf.new)) (S.faults shelf.old) (S.faults shelf.new)) }
    ensures lines { IfSome (S.told shelf.old) (λ t. result ≢ 0
        → PutsLines ((meaning_in words.now).outcome t.held) result
        (O.faults out.old) (O.faults out.new) (O.written out.old) (O.written out.new)) }

    // The same of a shelf that tells nothing: which files are staged and committed, whom a status
    // blames, and, where the sink's text is known, which file the last line says isn't there.
    ensures writes { Writes (meaning_in words.now).writes result (S.history shelf.old)
        (S.history shelf.new) (S.faults shelf.old) (S.faults shelf.new) }
    ensures blames { IsBlamedFor S.Shelf O.Sink shelf.old shelf.new out.old out.new result }
    ensures absent { result ≡ 4 → TellsAbsent (meaning_in words.now)
        (O.faults out.old) (O.faults out.new) (O.written out.old) (O.written out.new) }
{
    let command = command_of(alloc, words);
    let done = perform(alloc, &command, shelf, out);
    conclude(alloc, done, out)
}
