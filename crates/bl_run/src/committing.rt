// Commits what is staged.
ghost use Rattle.std.specs.Prelude.{IsSome};
ghost use Rattle.bl_run.specs.Staging.{Commits};

use crate::printing::put;
use bl_commands::Ending;
use bl_shelf::{Shelf, Sink};

/// Puts the line of what is staged, and commits that; or abandons it.
pub fn commit<S: Shelf, O: Sink>(line: &[u8], shelf: &mut S, out: &mut O) -> Result<(), Ending>
    requires { IsSome (S.room shelf.old) }
    ensures commits { Commits S.Shelf O.Sink line.now shelf.old shelf.new out.old out.new result }
{
    match put(line, out) {
        Ok(()) => {}
        Err(ending) => {
            shelf.abandon();
            return Err(ending);
        }
    }
    match shelf.commit() {
        Ok(()) => Ok(()),
        Err(_) => Err(Ending::Device),
    }
}
