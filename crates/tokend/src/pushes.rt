//! What a service takes of a push: `PushOptions`, and the terms of the service.

ghost use Rattle.std.specs.Prelude.{◌≡◌, IfOk, IfSome, IfNone};
ghost use Rattle.std.specs.Option.{option_map};
ghost use Rattle.clap.specs.Words.{found_of, rows_of};
ghost use Rattle.tokend.specs.CommandLine.{HasPushes, IsNoPushes};
ghost use Rattle.tokend.specs.Ranges as spec;

use crate::ahead::read_refusal;
use crate::notices::copied;
use crate::options::Service;
use crate::ranges::{read_accepted, read_range};
use clap::ArgMatches;
use std::alloc::{AllocError, Global};
use tk_edge::{RegionRange, Terms};

/// What a service takes of a push, by `--ahead`, `--range` and `--accept`.
#[derive(Drop)]
pub struct PushOptions {
    /// Whether a pushed bundle is refused if its horizon is later than the moment of the request.
    pub refuses_ahead: bool,
    /// The numbers of the site, if they are given. Those above the region's own are refused.
    pub range: Option<RegionRange>,
    /// The numbers that are taken. No range: all numbers.
    pub accepted: Vec<RegionRange>,
}

/// Reads what a service takes of a push, if each of the three options has one of its values.
pub(crate) fn read_pushes(
    alloc: Global,
    matches: &ArgMatches<'_>,
) -> Result<Option<PushOptions>, AllocError>
    ensures pushes { IfOk result
        (λ read. IfSome read (HasPushes (rows_of (found_of matches.now)))) }
    ensures none { IfOk result
        (λ read. IfNone read (IsNoPushes (rows_of (found_of matches.now)))) }
{
    let Some(refuses_ahead) = read_refusal(matches) else {
        return Ok(None);
    };
    let Some(range) = read_range(matches) else {
        return Ok(None);
    };
    let Some(accepted) = read_accepted(alloc, matches)? else {
        return Ok(None);
    };
    Ok(Some(PushOptions {
        refuses_ahead,
        range,
        accepted,
    }))
}

impl Service {
    /// Returns the terms of the service, or `AllocError` if memory runs out.
    pub(crate) fn terms(&self, alloc: Global) -> Result<Terms, AllocError>
        ensures { IfOk result (λ terms. terms ≡ spec.terms_of self.now) }
    {
        let accepted = self.pushes.accepted.clone()?;
        let issuer = copied(alloc, &self.notices.issuer)?;
        Ok(Terms {
            refuses_ahead: self.pushes.refuses_ahead,
            accepted,
            barred: above(self.region, self.pushes.range),
            issuer,
            health: self.notices.health,
            metrics: first_text(alloc, self.notices.metrics),
        })
    }
}

// Returns the text of the metrics before it is made for the first time, if metrics are shown.
fn first_text(alloc: Global, shows: bool) -> Option<Vec<u8>>
    ensures { option_map (λ v. v.items) result ≡ spec.first_text shows }
{
    if shows { Some(Vec::new(alloc)) } else { None }
}

// Returns the numbers of a range above a number, if there is one.
fn above(own: u16, range: Option<RegionRange>) -> Option<RegionRange>
    ensures { result ≡ spec.above own range }
{
    match range {
        Some(range) if own < range.last => Some(RegionRange {
            first: own + 1,
            last: range.last,
        }),
        _ => None,
    }
}
