//! The sources of facts that the arguments name, and what is to be done with them: `read_facts`.

ghost use Rattle.std.specs.Prelude.{◌≡◌, IfNone, IfOk, IfSome, map, string_bytes};
ghost use Rattle.clap.specs.Words.{rows_of, found_of};
ghost use Rattle.tokend.specs.CommandLine.{HasSources};
ghost use Rattle.tokend.specs.Task.{IsFactsTask, IsNoCheck};

use crate::options::{Check, Service, Sources, Task, flag, number};
use clap::ArgMatches;
use std::alloc::{AllocError, Global};

/// Reads the task `facts`: to print the sources, or to check them.
pub(crate) fn read_facts(
    alloc: Global,
    matches: &ArgMatches<'_>,
) -> Result<Option<Task>, AllocError>
    ensures task { IfOk result
        (λ read. IfSome read (IsFactsTask (rows_of (found_of matches.now)))) }
    ensures none { IfOk result
        (λ read. IfNone read (IsNoCheck (rows_of (found_of matches.now)))) }
{
    let sources = match read_sources(alloc, matches) {
        Ok(sources) => sources,
        Err(error) => return Err(error),
    };
    if !flag(matches, "check") {
        return Ok(Some(Task::Facts(sources)));
    }
    match number(matches, "region", 1, Service::MAX_REGION) {
        Some(region) => {
            let region = region as u16;
            Ok(Some(Task::Check(Check { sources, region })))
        }
        None => {
            drop(sources);
            Ok(None)
        }
    }
}

// Reads the sources of facts, as they were given.
fn read_sources(alloc: Global, matches: &ArgMatches<'_>) -> Result<Sources, AllocError>
    ensures { IfOk result (HasSources (rows_of (found_of matches.now))) }
{
    match matches.get_strs("file") {
        Some(names) => match copied(alloc, names) {
            Ok(names) => Ok(Sources { names }),
            Err(error) => Err(error),
        },
        None => Ok(Sources {
            names: Vec::new(alloc),
        }),
    }
}

// Copies texts, in order.
fn copied(alloc: Global, texts: &[&str]) -> Result<Vec<String>, AllocError>
    ensures { IfOk result
        (λ copies. map string_bytes copies.items ≡ map (λ text. text.now) texts.now) }
{
    let mut copies = Vec::new(alloc);
    for text in texts {
        copies.push(String::from_str(alloc, text)?)?;
    }
    Ok(copies)
}
