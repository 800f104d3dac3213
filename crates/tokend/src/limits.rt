//! The greatest numbers that the options of a service take, and the limits of its connections and
//! of what it keeps: `LimitOptions`.

ghost use Rattle.clap.specs.Words.{found_of, rows_of};
ghost use Rattle.tokend.specs.CommandLine.{HasLimits};

use crate::options::{Service, number};
use clap::ArgMatches;

/// The limits of a service: those of its connections, by `--requests`, `--keep` and `--repeat`, and
/// of what is kept, by `--prune-margin`.
#[derive(Clone, Copy)]
pub struct LimitOptions {
    /// How many connections to serve; `None` for no end.
    pub requests: Option<u64>,
    /// For how many seconds a connection stays open between its requests. `None` or 0: each
    /// connection has one request.
    pub keep: Option<u64>,
    /// For how many seconds a refresh that is repeated gets its reply again. `None` or 0: a repeat
    /// is a reuse.
    pub repeat: Option<u64>,
    /// For how many seconds a family must be over before the server skips its facts. `None`: it
    /// skips none.
    pub prune_margin: Option<u64>,
}

impl Service {
    /// The greatest number of a region.
    pub const MAX_REGION: u64 = 65_535;

    /// The greatest number of connections that are open at once.
    pub const MAX_CONNECTIONS: u64 = 65_536;

    /// The least number of bytes of a log's part.
    pub const MIN_PART: u64 = 65_536;

    /// The greatest such number.
    pub const MAX_PART: u64 = 1_099_511_627_776;

    /// The greatest number of connections to serve.
    pub const MAX_REQUESTS: u64 = 4_294_967_295;

    /// The greatest number of seconds for which a connection stays open between its requests.
    pub const MAX_KEEP: u64 = 3_600;

    /// The greatest number of seconds for which a refresh that is repeated gets its reply again.
    pub const MAX_REPEAT: u64 = 60;

    /// The least number of seconds for which a family must be over before the server skips its
    /// facts: a day.
    pub const MIN_MARGIN: u64 = 86_400;

    /// The greatest such number.
    pub const MAX_MARGIN: u64 = 999_999_999;
}

/// Reads the limits of a service.
pub(crate) fn read_limits(matches: &ArgMatches<'_>) -> LimitOptions
    ensures { HasLimits (rows_of (found_of matches.now)) result }
{
    let requests = number(matches, "requests", 0, Service::MAX_REQUESTS);
    let keep = number(matches, "keep", 0, Service::MAX_KEEP);
    let repeat = number(matches, "repeat", 0, Service::MAX_REPEAT);
    let prune_margin = number(
        matches,
        "prune-margin",
        Service::MIN_MARGIN,
        Service::MAX_MARGIN,
    );
    LimitOptions {
        requests,
        keep,
        repeat,
        prune_margin,
    }
}
