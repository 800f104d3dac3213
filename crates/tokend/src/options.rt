//! The task that the arguments request: `options` reads a `Task` from them.

ghost use Rattle.std.specs.Prelude.{◌≡◌, ◌⊎◌, ◌<◌, ◌^◌, ℕ, IfOk, IfErr, IfSome, IfNone, is_some};
ghost use Rattle.std.specs.Prelude.{map, false};
ghost use Rattle.clap.specs.Words.{kind_of, rows_of, found_of, subcommand_rows_of};
ghost use Rattle.clap.specs.declared.error.kind.ErrorKind.TheVariants as kind;
ghost use Rattle.tk_region.specs.SettingsFields.{IsSettings};
ghost use Rattle.tokend.specs.CommandLine.{
  settings_of,
  ReadsNumber,
  HasFlag,
  HasNumber,
  HasNumbers,
  HasService,
  HasText,
};
ghost use Rattle.tokend.specs.Task.{lacks_option};
ghost use Rattle.tokend.specs.Task.{Asks, IsTask, IsNoService, IsNoTask, IsRefusalOf};
ghost use Rattle.tokend.specs.Task.{kind_missing, lacks_log, missing_kind, wants_log};
ghost use Rattle.tokend.specs.declared.options.Numbers.{Numbers as NumbersValue};
ghost use Rattle.tokend.specs.declared.options.Service.{Service as ServiceValue};
ghost use Rattle.tokend.specs.declared.options.Task.TheVariants as task;

use crate::address::{Addresses, is_unplaced, read_addresses};
use crate::choices::{misnamed_word, read_choices};
use crate::command_line::tokend_command;
use crate::files::{FileOptions, read_files};
use crate::limits::{LimitOptions, read_limits};
use crate::notices::{NoticeOptions, read_notices};
use crate::pushes::{PushOptions, read_pushes};
use crate::sources::read_facts;
use clap::error::ErrorKind;
use clap::{ArgMatches, Command, Error};
use std::alloc::{AllocError, Global};
use std::convert::AsStr;
use tk_message::{Choices, Lives};
use tk_world::Settings;

/// A task of the program.
#[derive(Drop)]
pub enum Task {
    /// Runs the lines of the standard input, in regions with these settings.
    Script(Numbers),
    /// Runs the lines of the standard input, in regions with these settings, each request through a
    /// socket.
    Loopback(Numbers),
    /// Serves requests over HTTP.
    Serve(Service),
    /// Prints the facts of these sources.
    Facts(Sources),
    /// Says whether these sources can be loaded.
    Check(Check),
}

/// The sources of facts: names of files, or `-` for the standard input, which is also read if no
/// source is named.
#[derive(Drop)]
pub struct Sources {
    /// Their names, in the order in which they are read.
    pub names: Vec<String>,
}

/// The sources that are to be loaded, and the region that is to load them.
#[derive(Drop)]
pub struct Check {
    /// The sources.
    pub sources: Sources,
    /// The region's number, 1 to 65,535.
    pub region: u16,
}

/// The numbers of a region's settings, each in the range of [`Settings`].
#[derive(Clone, Copy)]
pub struct Numbers {
    /// How many seconds a code lives.
    pub code: u64,
    /// How many seconds an access token lives.
    pub access: u64,
    /// How many seconds a refresh token lives.
    pub refresh: u64,
    /// How many seconds a family lives.
    pub family: u64,
    /// The cap: the greatest serial at which the region makes a fact.
    pub cap: u64,
}

/// A region to serve, with its sockets and files.
#[derive(Drop)]
pub struct Service {
    /// The region's settings.
    pub numbers: Numbers,
    /// The region's number, 1 to 65,535.
    pub region: u16,
    /// Where it listens.
    pub at: Addresses,
    /// How many connections are open at once at most, those of the inner socket aside.
    pub connections: u64,
    /// The limits of its connections, and of what it keeps.
    pub limits: LimitOptions,
    /// Its files.
    pub files: FileOptions,
    /// What is taken of a push.
    pub pushes: PushOptions,
    /// What the region does if the profile leaves a choice.
    pub choices: Choices,
    /// What the service says of itself.
    pub notices: NoticeOptions,
}

/// Reads the task of the arguments. The first argument is the program's name.
/// The error's kind is a mistake in the arguments, a request for help or the version, or out of
/// memory.
pub(crate) fn options<'a, S: AsStr>(alloc: Global, words: &'a [S]) -> Result<Task, Error>
    ensures task { IfOk result (Asks (map S.text words.entry.now)) }
    ensures refused { IfErr result (λ e. (kind_of e ≡ kind.OutOfMemory)
        ⊎ IsRefusalOf (map S.text words.entry.now) (kind_of e)) }
{
    let Ok(mut command) = tokend_command(alloc) else {
        return Err(Error::from(AllocError));
    };
    match command.try_get_matches_from_mut(words) {
        Ok(matches) => {
            let task = read_task(alloc, &mut command, &matches);
            drop(matches);
            drop(command);
            task
        }
        Err(error) => {
            drop(command);
            Err(error)
        }
    }
}

// Reads the task of a command's matches.
fn read_task(
    alloc: Global,
    command: &mut Command<'_>,
    matches: &ArgMatches<'_>,
) -> Result<Task, Error>
    ensures task { IfOk result (IsTask (subcommand_rows_of matches.now)) }
    ensures refused { IfErr result (λ e. (kind_of e ≡ kind.OutOfMemory)
        ⊎ ((kind_of e ≡ missing_kind (subcommand_rows_of matches.now))
        × IsNoTask (subcommand_rows_of matches.now))) }
{
    match read_matches(alloc, matches) {
        Ok(Some(task)) => Ok(task),
        Ok(None) => Err(no_task(command, lacking(matches), misnamed_word(matches))),
        Err(error) => Err(Error::from(error)),
    }
}

// Returns the error of arguments that name no task, or out of memory.
fn no_task(command: &mut Command<'_>, lacking: Option<&str>, misnamed: Option<&str>) -> Error
    ensures { (kind_of result ≡ kind.OutOfMemory)
        ⊎ (kind_of result ≡ kind_missing (is_some lacking.entry) (is_some misnamed.entry)) }
{
    if let Some(message) = lacking {
        return own_error(command, ErrorKind::MissingRequiredArgument, message);
    }
    if let Some(message) = misnamed {
        return own_error(command, ErrorKind::InvalidValue, message);
    }
    own_error(
        command,
        ErrorKind::MissingSubcommand,
        "no subcommand was read",
    )
}

// Returns an error of this kind, which clap doesn't find itself, or out of memory.
fn own_error(command: &mut Command<'_>, why: ErrorKind, message: &str) -> Error
    ensures { (kind_of result ≡ kind.OutOfMemory) ⊎ (kind_of result ≡ why) }
{
    match command.error(why, message) {
        Ok(error) => error,
        Err(error) => Error::from(error),
    }
}

// Returns the error text of an option that the subcommand lacks, if it lacks one.
fn lacking(matches: &ArgMatches<'_>) -> Option<&'static str>
    ensures { is_some result ≡ lacks_option (subcommand_rows_of matches.now) }
{
    if lacks_log(matches) {
        return Some("--log-taken and --log-part require --log");
    }
    if is_unplaced(matches) {
        return Some("one of --port and --socket is required, and not both");
    }
    None
}

// Returns whether the subcommand has `--log-taken` or `--log-part` without `--log`.
fn lacks_log(matches: &ArgMatches<'_>) -> bool
    ensures { result ≡ lacks_log (subcommand_rows_of matches.now) }
{
    match matches.subcommand() {
        Some((_, values)) => wants_log(values) && values.get_str("log").is_none(),
        None => false,
    }
}

// Returns whether `--log-taken` or `--log-part` is among these options.
fn wants_log(matches: &ArgMatches<'_>) -> bool
    ensures { result ≡ wants_log (rows_of (found_of matches.now)) }
{
    flag(matches, "log-taken") || matches.get_str("log-part").is_some()
}

impl Numbers {
    /// Returns the settings of these numbers.
    pub(crate) fn settings(&self) -> Settings
        requires { IsSettings (settings_of self.now) }
        ensures { result ≡ settings_of self.now }
    {
        let Numbers {
            code,
            access,
            refresh,
            family,
            cap,
        } = *self;
        let lives = Lives {
            code,
            access,
            refresh,
            family,
        };
        Settings::new(lives, cap).unwrap()
    }
}

// Reads the task of clap's matches. clap ensures that there are a subcommand and its numbers.
fn read_matches(alloc: Global, matches: &ArgMatches<'_>) -> Result<Option<Task>, AllocError>
    ensures task { IfOk result (λ task. IfSome task (IsTask (subcommand_rows_of matches.now))) }
    ensures none { IfOk result (λ task. IfNone task (IsNoTask (subcommand_rows_of matches.now))) }
{
    let Some((name, values)) = matches.subcommand() else {
        return Ok(None);
    };
    if name == "script" {
        return match read_numbers(values) {
            Some(numbers) => Ok(Some(Task::Script(numbers))),
            None => Ok(None),
        };
    }
    if name == "loopback" {
        return match read_numbers(values) {
            Some(numbers) => Ok(Some(Task::Loopback(numbers))),
            None => Ok(None),
        };
    }
    if name == "serve" {
        return read_serve(alloc, values);
    }
    if name == "facts" {
        return read_facts(alloc, values);
    }
    Ok(None)
}

// Reads the task `serve`.
fn read_serve(alloc: Global, matches: &ArgMatches<'_>) -> Result<Option<Task>, AllocError>
    ensures task { IfOk result
        (λ read. IfSome read (λ t. (s : ServiceValue) × (t ≡ task.Serve s)
        × HasService (rows_of (found_of matches.now)) s)) }
    ensures none { IfOk result
        (λ read. IfNone read (IsNoService (rows_of (found_of matches.now)))) }
{
    match read_service(alloc, matches) {
        Ok(Some(service)) => Ok(Some(Task::Serve(service))),
        Ok(None) => Ok(None),
        Err(error) => Err(error),
    }
}

// Reads the region to serve, with its sockets and files.
fn read_service(alloc: Global, matches: &ArgMatches<'_>) -> Result<Option<Service>, AllocError>
    ensures service { IfOk result
        (λ service. IfSome service (HasService (rows_of (found_of matches.now)))) }
    ensures none { IfOk result
        (λ service. IfNone service (IsNoService (rows_of (found_of matches.now)))) }
{
    let Some(numbers) = read_numbers(matches) else {
        return Ok(None);
    };
    let Some(region) = number(matches, "region", 1, Service::MAX_REGION) else {
        return Ok(None);
    };
    let Some(at) = read_addresses(alloc, matches)? else {
        return Ok(None);
    };
    let Some(connections) = number(matches, "connections", 1, Service::MAX_CONNECTIONS) else {
        return Ok(None);
    };
    let Some(pushes) = read_pushes(alloc, matches)? else {
        return Ok(None);
    };
    let Some(choices) = read_choices(matches) else {
        return Ok(None);
    };
    let Some(notices) = read_notices(alloc, matches)? else {
        return Ok(None);
    };
    let Some(files) = read_files(alloc, matches)? else {
        return Ok(None);
    };
    Ok(Some(Service {
        numbers,
        region: region as u16,
        at,
        connections,
        limits: read_limits(matches),
        files,
        pushes,
        choices,
        notices,
    }))
}

// Reads the five settings.
fn read_numbers(matches: &ArgMatches<'_>) -> Option<Numbers>
    ensures numbers { IfSome result (HasNumbers (rows_of (found_of matches.now))) }
    ensures none { IfNone result ((n : NumbersValue)
        → ¬ (HasNumbers (rows_of (found_of matches.now)) n)) }
{
    Some(Numbers {
        code: number(matches, "code", 1, Settings::MAX_CODE)?,
        access: number(matches, "access", 1, Settings::MAX_ACCESS)?,
        refresh: number(matches, "refresh", 1, Settings::MAX_REFRESH)?,
        family: number(matches, "family", 1, Settings::MAX_FAMILY)?,
        cap: number(matches, "cap", 1, Settings::MAX_CAP)?,
    })
}

/// Reads a number within its range. clap has tested the range, but its contract states so only for
/// the top level.
pub(crate) fn number(matches: &ArgMatches<'_>, id: &str, least: u64, greatest: u64) -> Option<u64>
    ensures value { IfSome result
        (HasNumber (rows_of (found_of matches.now)) id.now least greatest) }
    ensures none { IfNone result ((n : ℕ)
        → ¬ (HasNumber (rows_of (found_of matches.now)) id.now least greatest n)) }
{
    let n = given(matches, id)?;
    if least <= n && n <= greatest {
        Some(n)
    } else {
        None
    }
}

// Reads the number of an option.
fn given(matches: &ArgMatches<'_>, id: &str) -> Option<u64>
    ensures value { IfSome result (ReadsNumber (rows_of (found_of matches.now)) id.now) }
    ensures none { IfNone result ((n : ℕ) → n < 2 ^ 64
        → ¬ (ReadsNumber (rows_of (found_of matches.now)) id.now n)) }
{
    matches.get_one::<u64>(id)
}

/// Returns whether an option without a value was given.
pub(crate) fn flag(matches: &ArgMatches<'_>, id: &str) -> bool
    ensures { HasFlag (rows_of (found_of matches.now)) id.now result }
{
    match matches.get_str(id) {
        Some(text) => text == "true",
        None => false,
    }
}

/// Reads the text of an option, as it was given.
pub(crate) fn read_text(
    alloc: Global,
    matches: &ArgMatches<'_>,
    id: &str,
) -> Result<Option<String>, AllocError>
    ensures { IfOk result (λ text. HasText (rows_of (found_of matches.now)) id.now text) }
{
    match matches.get_str(id) {
        Some(text) => Ok(Some(String::from_str(alloc, text)?)),
        None => Ok(None),
    }
}
