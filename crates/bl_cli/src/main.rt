//! Converts `.blend` files, as the words behind the program's name say.
#![tactic(auto)]

use bl_commands::Ending;
use bl_lines::status_of;
pub use bl_run::run;
use bl_shelf::{FolderShelf, StdoutSink};
use std::alloc::{AllocError, Global};
use std::process::ExitCode;
use std::rt::{Env, Files};
use std::{env, fs, io};

// The words behind the program's name.
fn words<R: Env + Alloc<A = Global>>(host: &R) -> io::Result<Vec<String>> {
    let mut words = env::args(host)?;
    let _name = words.next();
    Ok(words.collect(host.alloc())?)
}

// The null device.
fn null_device<R: Files>(host: &R) -> io::Result<R::File> {
    fs::open(host, "/dev/null")
}

// Takes the places of descriptors 0 to 2 that the caller closed, so that no file of a run gets one:
// what is put to standard output would else be written into it.
fn closed_descriptors<R: Files>(host: &R) -> io::Result<(R::File, R::File, R::File)> {
    Ok((null_device(host)?, null_device(host)?, null_device(host)?))
}

// Runs over the current folder and standard output. Words that aren't UTF-8 spell no command.
fn main(host: HostRuntime) -> ExitCode {
    let Ok(_held) = closed_descriptors(&host) else {
        return ExitCode::from(status_of(&Ending::Sink));
    };
    let mut shelf = FolderShelf::new(host.alloc(), host);
    let mut out = StdoutSink::new(host);
    let status = match words(&host) {
        Ok(words) => run(host.alloc(), &words, &mut shelf, &mut out),
        Err(error) if error.kind() == io::ErrorKind::InvalidData => {
            run(host.alloc(), &[], &mut shelf, &mut out)
        }
        Err(_) => status_of(&Ending::NoMemory),
    };
    ExitCode::from(status)
}

#[cfg(test)]
mod tests;
