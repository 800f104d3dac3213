//! The arguments of the process: `arguments` reads them.

ghost use Rattle.std.specs.Prelude.{IfErr};
ghost use Rattle.tokend.specs.Task.{IsNoText};

use crate::command_line::tokend_command;
use crate::fault::Fault;
use clap::Command;
use clap::error::ErrorKind;
use std::alloc::Global;
use std::rt::Env;
use std::{env, io};

/// Returns the arguments of the process. Arguments that aren't UTF-8 are a mistake in the
/// arguments.
pub(crate) fn arguments<R: Env + AllocGlobal>(rt: &R) -> Result<Vec<String>, Fault>
    ensures { IfErr result IsNoText }
{
    match env::args(rt) {
        Ok(arguments) => match arguments.collect(rt.alloc()) {
            Ok(arguments) => Ok(arguments),
            Err(_) => Err(Fault::Memory),
        },
        Err(error) => Err(unread_arguments(rt.alloc(), error.kind())),
    }
}

// Returns the fault of arguments that couldn't be read.
fn unread_arguments(alloc: Global, kind: io::ErrorKind) -> Fault
    ensures { IsNoText result }
{
    if kind == io::ErrorKind::OutOfMemory {
        return Fault::Memory;
    }
    match tokend_command(alloc) {
        Ok(mut command) => no_text(&mut command),
        Err(_) => Fault::Memory,
    }
}

// Returns the fault of arguments that aren't UTF-8, or out of memory.
fn no_text(command: &mut Command<'_>) -> Fault
    ensures { IsNoText result }
{
    let message = "invalid UTF-8 was detected in one or more arguments";
    match command.error(ErrorKind::InvalidValue, message) {
        Ok(error) => Fault::Arguments(error),
        Err(_) => Fault::Memory,
    }
}
