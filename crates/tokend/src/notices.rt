//! The options `--issuer`, `--health` and `--metrics`: what a service says of itself.

ghost use Rattle.std.specs.Prelude.{◌≡◌, IfOk, IfNone, IfSome, Some, codes};
ghost use Rattle.clap.specs.Words.{first_of, found_of, rows_of};
ghost use Rattle.tokend.specs.CommandLine.{HasNotices, IsNoNotices};
ghost use Rattle.tokend.specs.Notices as spec;

use crate::options::flag;
use clap::ArgMatches;
use std::alloc::{AllocError, Global};
use tk_edge::{Issuer, is_issuer};

/// What a service says of itself, by `--issuer`, `--health` and `--metrics`.
#[derive(Drop)]
pub struct NoticeOptions {
    /// The issuer, if it is given. Without one there are no metadata.
    pub issuer: Option<Issuer>,
    /// Whether the server says its health.
    pub health: bool,
    /// Whether the server shows its metrics.
    pub metrics: bool,
}

// Returns whether there is an `--issuer` that is no issuer.
pub(crate) fn is_issuer_misnamed(matches: &ArgMatches<'_>) -> bool
    ensures { result
        ≡ spec.is_issuer_misnamed (first_of (codes "issuer") (rows_of (found_of matches.now))) }
{
    match matches.get_str("issuer") {
        Some(text) => !is_issuer(text.as_bytes()),
        None => false,
    }
}

// Reads what a service says of itself, if the issuer is one.
pub(crate) fn read_notices(
    alloc: Global,
    matches: &ArgMatches<'_>,
) -> Result<Option<NoticeOptions>, AllocError>
    ensures notices { IfOk result
        (λ read. IfSome read (HasNotices (rows_of (found_of matches.now)))) }
    ensures none { IfOk result
        (λ read. IfNone read (IsNoNotices (rows_of (found_of matches.now)))) }
{
    let Some(issuer) = read_issuer(alloc, matches)? else {
        return Ok(None);
    };
    Ok(Some(NoticeOptions {
        issuer,
        health: flag(matches, "health"),
        metrics: flag(matches, "metrics"),
    }))
}

// Reads the issuer, if the value of `--issuer` is one. Without the option there is no issuer.
fn read_issuer(
    alloc: Global,
    matches: &ArgMatches<'_>,
) -> Result<Option<Option<Issuer>>, AllocError>
    ensures { IfOk result (λ read. read
        ≡ spec.issuer_named (first_of (codes "issuer") (rows_of (found_of matches.now)))) }
{
    match matches.get_str("issuer") {
        Some(text) => issuer_named(alloc, text),
        None => Ok(Some(None)),
    }
}

// Returns the issuer of a value of `--issuer`, if it is one.
fn issuer_named(alloc: Global, text: &str) -> Result<Option<Option<Issuer>>, AllocError>
    ensures { IfOk result (λ read. read ≡ spec.issuer_named (Some text.now)) }
{
    match Issuer::read(alloc, text)? {
        Some(issuer) => Ok(Some(Some(issuer))),
        None => Ok(None),
    }
}

// Returns a copy of an issuer, if there is one.
pub(crate) fn copied(alloc: Global, issuer: &Option<Issuer>) -> Result<Option<Issuer>, AllocError>
    ensures { IfOk result (λ copied. copied ≡ issuer.now) }
{
    match issuer {
        Some(issuer) => {
            let issuer = issuer.copy(alloc)?;
            Ok(Some(issuer))
        }
        None => Ok(None),
    }
}
