//! The command line, as clap knows it: four subcommands and their options.
//!
//! `tokend_command` is the whole program for clap.

ghost use Rattle.std.specs.Prelude.{◌≡◌, ◌∷◌, [], IfOk, IsOkAnd, false, map};
ghost use Rattle.clap.specs.Words.{app_of, rule_of, with_subcommand};
ghost use Rattle.clap.specs.declared.builder.command.Command.TheViews.{out-Command};
ghost use Rattle.tokend.specs.CommandLine.{
  events_app,
  facts_app,
  loopback_app,
  script_app,
  serve_app,
  served_app,
  tokend_app,
};
ghost use Rattle.tokend.specs.Rules.{
  check_rules,
  choice_rule,
  names_rule,
  setting_rules,
  with_rules,
};

use crate::address::Address;
use crate::options::Service;
use clap::builder::ValueParser;
use clap::{Arg, ArgAction, Command};
use std::alloc::{AllocError, Global};
use tk_handle::Moment;
use tk_world::Settings;

/// The program for clap: with a version, and with four subcommands of which one is required.
pub(crate) fn tokend_command<'a>(alloc: Global) -> Result<Command<'a>, AllocError>
    ensures { IfOk result (λ c. app_of c ≡ tokend_app) }
{
    match served_command(alloc) {
        Ok(served) => with_made(served, facts_command(alloc)),
        Err(error) => Err(error),
    }
}

// The subcommand `facts`.
fn facts_command<'a>(alloc: Global) -> Result<Command<'a>, AllocError>
    ensures shape { IfOk result (λ c. app_of c ≡ facts_app) }
    ensures local { IfOk result (λ c. (out-Command c).has_globals ≡ false) }
{
    let facts = Command::new(alloc, "facts").about(
        "Prints the facts of logs, bundles and vectors, one JSON object a line",
    );
    match with_check(alloc, facts) {
        Ok(facts) => with_names(facts, names_of(alloc)),
        Err(error) => Err(error),
    }
}

// Adds the options of a check to a command.
#[rattlefmt::skip]
fn with_check<'a>(alloc: Global, command: Command<'a>) -> Result<Command<'a>, AllocError>
    requires { (out-Command command).has_globals ≡ false }
    ensures rules { IfOk result (λ c. app_of c ≡ with_rules (app_of command.entry) check_rules) }
    ensures local { IfOk result (λ c. (out-Command c).has_globals ≡ false) }
{
    let choices: [Choice<'a>; 2] = [
        ("check", Takes::Nothing,
            "Prints no facts, only whether all can be loaded, and how many they are"),
        ("region", Takes::Number(Service::MAX_REGION, "65535"),
            "The number of the region that loads them for --check, 1 to 65535, unused in them"),
    ];
    with_choices(alloc, command, &choices)
}

// Adds the argument to a command.
fn with_names<'a>(command: Command<'a>, names: Arg<'a>) -> Result<Command<'a>, AllocError>
    requires local { (out-Command command).has_globals ≡ false }
    requires plain { names.global ≡ false }
    ensures shape { IfOk result
        (λ c. app_of c ≡ with_rules (app_of command.entry) (rule_of names.entry ∷ [])) }
    ensures local { IfOk result (λ c. (out-Command c).has_globals ≡ false) }
{
    command.arg(names)
}

// The names of files.
fn names_of<'a>(alloc: Global) -> Arg<'a>
    ensures rule { rule_of result ≡ names_rule }
    ensures local { result.global ≡ false }
{
    Arg::new(alloc, "file")
        .value_name("FILE")
        .action(ArgAction::Append)
        .help("Logs, bundles, vectors or histories, - for the standard input [default: -]")
}

// The program without the subcommand `facts`.
fn served_command<'a>(alloc: Global) -> Result<Command<'a>, AllocError>
    ensures { IfOk result (λ c. app_of c ≡ served_app) }
{
    match events_command(alloc) {
        Ok(events) => with_made(events, serve_command(alloc)),
        Err(error) => Err(error),
    }
}

// The program with the two subcommands that run events.
fn events_command<'a>(alloc: Global) -> Result<Command<'a>, AllocError>
    ensures { IfOk result (λ c. app_of c ≡ events_app) }
{
    let program = Command::new(alloc, "tokend")
        .version("0.1.0")
        .about("An authorization server whose regions merge")
        .subcommand_required(true);
    match with_made(program, script_command(alloc)) {
        Ok(program) => with_made(program, loopback_command(alloc)),
        Err(error) => Err(error),
    }
}

// Adds a subcommand to a command, unless making the subcommand failed.
fn with_made<'a>(
    command: Command<'a>,
    made: Result<Command<'a>, AllocError>,
) -> Result<Command<'a>, AllocError>
    ensures { IfOk result
        (λ c. IsOkAnd made.entry (λ subcommand. (out-Command subcommand).has_globals ≡ false
        → app_of c ≡ with_subcommand (app_of command.entry) (app_of subcommand).top)) }
{
    match made {
        Ok(subcommand) => command.subcommand(subcommand),
        Err(error) => {
            drop(command);
            Err(error)
        }
    }
}

// The subcommand `script`.
fn script_command<'a>(alloc: Global) -> Result<Command<'a>, AllocError>
    ensures shape { IfOk result (λ c. app_of c ≡ script_app) }
    ensures local { IfOk result (λ c. (out-Command c).has_globals ≡ false) }
{
    let script = Command::new(alloc, "script").about(
        "Runs events, given as lines on the standard input",
    );
    with_settings(alloc, script)
}

// The subcommand `loopback`.
fn loopback_command<'a>(alloc: Global) -> Result<Command<'a>, AllocError>
    ensures shape { IfOk result (λ c. app_of c ≡ loopback_app) }
    ensures local { IfOk result (λ c. (out-Command c).has_globals ≡ false) }
{
    let loopback = Command::new(alloc, "loopback").about(
        "Runs such events, each request through a socket on 127.0.0.1",
    );
    with_settings(alloc, loopback)
}

// The subcommand `serve`.
fn serve_command<'a>(alloc: Global) -> Result<Command<'a>, AllocError>
    ensures shape { IfOk result (λ c. app_of c ≡ serve_app) }
    ensures local { IfOk result (λ c. (out-Command c).has_globals ≡ false) }
{
    let serve = Command::new(alloc, "serve").about(
        "Serves requests over HTTP, those of many connections at once",
    );
    match with_choices(alloc, serve, &SERVICE_CHOICES) {
        Ok(serve) => with_settings(alloc, serve),
        Err(error) => Err(error),
    }
}

// The options of a service alone.
#[rattlefmt::skip]
const SERVICE_CHOICES: [Choice<'static>; 26] = [
    ("region", Takes::Range(1, Service::MAX_REGION, true),
        "The number of the region that is served, 1 to 65535, like no other's and never used again \
        [required]"),
    ("port", Takes::Range(0, Address::MAX_PORT, false),
        "The port that is listened on, 0 to 65535, 0 for a free one [required, or --socket]"),
    ("socket", Takes::File(false),
        "The Unix socket that is listened on in place of a port"),
    ("inner", Takes::File(false),
        "The Unix socket that alone answers /admin/ and /sync/ [default: none]"),
    ("seed", Takes::File(true),
        "The file of 32 secret random bytes that handles are made from, another for each start \
        [required]"),
    ("log", Takes::File(false),
        "A new file that each fact made is appended to before its reply [default: none]"),
    ("log-taken", Takes::Nothing,
        "Appends each bundle taken in to the log too, before its reply; requires --log"),
    ("log-part", Takes::Range(Service::MIN_PART, Service::MAX_PART, false),
        "Goes on in a next file once the log has this number of bytes, 65536 to 1099511627776; \
        requires --log [default: one file]"),
    ("load", Takes::File(false),
        "The log of an earlier run, whose facts are taken in first [default: none]"),
    ("prune", Takes::Range(0, Moment::MAX, false),
        "Skips all facts of families that are over at this moment, in seconds since 1970, 0 to \
        253402300799 [default: none]"),
    ("ahead", Takes::Word("taken"),
        "Whether a pushed bundle whose horizon is later than the clock is taken or refused"),
    ("range", Takes::List,
        "The numbers of this site, FIRST-LAST; a push of facts under those above its own is \
        refused [default: none]"),
    ("accept", Takes::List,
        "The numbers of all sites, FIRST-LAST with commas between; a push of facts under others is \
        refused [default: 1-65535]"),
    ("revoke-unseen", Takes::Word("any"),
        "Who may revoke a token of another region before it is known here: any, authenticated or \
        none"),
    ("consent", Takes::Word("new"),
        "What is given if a good consent is held: a new one, or the held one without a fact"),
    ("redirects", Takes::List,
        "The kinds of redirection URIs that a new client may have: https, loopback (at any port \
        too), app [default: every absolute URL]"),
    ("refresh-seen", Takes::Word("all"),
        "Who sees a refresh token at /introspect: all, its client and resource servers; or client, \
        its client alone"),
    ("challenge", Takes::List,
        "What is required of PKCE: all, a challenge of every client; S256, that method [default: a \
        challenge of public clients]"),
    ("connections", Takes::Number(Service::MAX_CONNECTIONS, "1024"),
        "How many connections are open at once at most, 1 to 65536"),
    ("requests", Takes::Range(0, Service::MAX_REQUESTS, false),
        "How many connections are served, 0 to 4294967295 [default: without end]"),
    ("keep", Takes::Range(0, Service::MAX_KEEP, false),
        "How many seconds a connection stays open between its requests, 0 to 3600, 0 for one \
        request each [default: 0]"),
    ("repeat", Takes::Range(0, Service::MAX_REPEAT, false),
        "For how many seconds a refresh that is repeated gets its reply again, 0 to 60 [default: \
        0]"),
    ("prune-margin", Takes::Range(Service::MIN_MARGIN, Service::MAX_MARGIN, false),
        "Skips the facts of families that have been over for this many seconds, between requests, \
        86400 to 999999999 [default: none]"),
    ("issuer", Takes::Url,
        "The URL of this server, for its metadata and the iss of its redirects [default: none]"),
    ("health", Takes::Nothing,
        "Answers GET /health: whether requests of clients are answered"),
    ("metrics", Takes::Nothing,
        "Answers GET /metrics where /admin/ is answered: what the server counts, for Prometheus"),
];

// Adds the five settings of a region to a command, each with its default.
#[rattlefmt::skip]
fn with_settings<'a>(alloc: Global, command: Command<'a>) -> Result<Command<'a>, AllocError>
    requires { (out-Command command).has_globals ≡ false }
    ensures rules { IfOk result (λ c. app_of c ≡ with_rules (app_of command.entry) setting_rules) }
    ensures local { IfOk result (λ c. (out-Command c).has_globals ≡ false) }
{
    let choices: [Choice<'a>; 5] = [
        ("code", Takes::Number(Settings::MAX_CODE, "60"),
            "How many seconds a code lives, 1 to 600"),
        ("access", Takes::Number(Settings::MAX_ACCESS, "3600"),
            "How many seconds an access token lives, 1 to 86400"),
        ("refresh", Takes::Number(Settings::MAX_REFRESH, "86400"),
            "How many seconds a refresh token lives, 1 to 31536000"),
        ("family", Takes::Number(Settings::MAX_FAMILY, "2592000"),
            "How many seconds a code and all tokens that descend from it live, 1 to 315360000"),
        ("cap", Takes::Number(Settings::MAX_CAP, "9223372036854775806"),
            "The greatest serial of a fact that a region makes, 1 to 9223372036854775806"),
    ];
    with_choices(alloc, command, &choices)
}

// The value of an option.
#[derive(Clone, Copy)]
enum Takes<'a> {
    // No value: the option is a flag.
    Nothing,
    // The name of a file. The flag is whether the option is required.
    File(bool),
    // Words with commas between.
    List,
    // A URL.
    Url,
    // A word, with a default.
    Word(&'a str),
    // A number from the first bound to the second. The flag is whether the option is required.
    Range(u64, u64, bool),
    // A number from 1 to the bound, with a default.
    Number(u64, &'a str),
}

// An option: its name, its value, and its help text.
type Choice<'a> = (&'a str, Takes<'a>, &'a str);

// Adds these options to a command.
fn with_choices<'a>(
    alloc: Global,
    command: Command<'a>,
    choices: &[Choice<'a>],
) -> Result<Command<'a>, AllocError>
    requires { (out-Command command).has_globals ≡ false }
    ensures rules { IfOk result (λ c. app_of c
        ≡ with_rules (app_of command.entry) (map (λ c. choice_rule c.0.now c.1) choices.now)) }
    ensures local { IfOk result (λ c. (out-Command c).has_globals ≡ false) }
{
    let mut command = command;
    for choice in choices {
        command = command.arg(arg_of(alloc, *choice))?;
    }
    Ok(command)
}

// Makes the argument of an option for clap.
fn arg_of<'a>(alloc: Global, choice: Choice<'a>) -> Arg<'a>
    ensures rule { rule_of result ≡ choice_rule choice.entry.0.now choice.entry.1 }
    ensures local { result.global ≡ false }
{
    let (id, takes, help) = choice;
    let arg = Arg::new(alloc, id).long(id).help(help);
    match takes {
        Takes::Nothing => arg.action(ArgAction::SetTrue),
        Takes::File(is_wanted) => arg.value_name("FILE").required(is_wanted),
        Takes::List => arg.value_name("LIST"),
        Takes::Url => arg.value_name("URL"),
        Takes::Word(default) => arg.value_name("WORD").default_value(default),
        Takes::Range(least, greatest, is_wanted) => arg
            .value_name("N")
            .value_parser(ValueParser::Unsigned(least, greatest))
            .required(is_wanted),
        Takes::Number(greatest, default) => arg
            .value_name("N")
            .value_parser(ValueParser::Unsigned(1, greatest))
            .default_value(default),
    }
}
