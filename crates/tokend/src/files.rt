//! The files of a service: `FileOptions`.

ghost use Rattle.std.specs.Prelude.{IfOk, IfNone, IfSome};
ghost use Rattle.clap.specs.Words.{found_of, rows_of};
ghost use Rattle.tokend.specs.CommandLine.{HasFiles, IsNoFiles};

use crate::options::{Service, flag, number, read_text};
use clap::ArgMatches;
use std::alloc::{AllocError, Global};
use tk_handle::Moment;

/// The files of a service, by `--seed`, `--log`, `--log-taken`, `--log-part`, `--load` and
/// `--prune`.
#[derive(Drop)]
pub struct FileOptions {
    /// The file of the generator's key.
    pub seed: String,
    /// The file to which records are written, if any.
    pub log: Option<String>,
    /// Whether the log also gets the bundles that are taken in. There is a log then.
    pub log_taken: bool,
    /// At how many bytes the log goes on in a next file; `None` for a log of one file. There is a
    /// log then.
    pub log_part: Option<u64>,
    /// The old log to load before the first connection, if any.
    pub load: Option<String>,
    /// The moment up to which the region is pruned once the old log is loaded, if any.
    pub prune: Option<u64>,
}

/// Reads the files of a service. There are none without a seed, or with `--log-taken` or
/// `--log-part` without a log.
pub(crate) fn read_files(
    alloc: Global,
    matches: &ArgMatches<'_>,
) -> Result<Option<FileOptions>, AllocError>
    ensures files { IfOk result
        (λ read. IfSome read (HasFiles (rows_of (found_of matches.now)))) }
    ensures none { IfOk result
        (λ read. IfNone read (IsNoFiles (rows_of (found_of matches.now)))) }
{
    let Some(seed) = read_text(alloc, matches, "seed")? else {
        return Ok(None);
    };
    let log = read_text(alloc, matches, "log")?;
    let log_taken = flag(matches, "log-taken");
    let log_part = number(matches, "log-part", Service::MIN_PART, Service::MAX_PART);
    if (log_taken || log_part.is_some()) && log.is_none() {
        return Ok(None);
    }
    let load = read_text(alloc, matches, "load")?;
    let prune = number(matches, "prune", 0, Moment::MAX);
    Ok(Some(FileOptions {
        seed,
        log,
        log_taken,
        log_part,
        load,
        prune,
    }))
}
