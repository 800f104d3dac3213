//! Pruning between turns: `Pruning`, how far the passes of a service are.
//!
//! A pass goes over all facts of the region up to one moment, a slice behind each turn.

use tk_handle::{Dot, Moment};

/// The passes of a service that prunes its region: when, up to which moment, and how far.
///
/// Milliseconds are those of the monotonic clock.
#[derive(Clone, Copy)]
pub(crate) struct Pruning {
    /// For how many seconds a family must be over before its facts go. `None`: nothing is pruned.
    pub margin: Option<u64>,
    /// When the service started, in seconds since 1970.
    pub start: u64,
    /// When the service started, in milliseconds.
    pub since: u64,
    /// The moment of the pass that is under way, if there is one.
    pub moment: Option<Moment>,
    /// The cursor of its next slice.
    pub after: Option<Dot>,
    /// When the last pass ended, or the service started, in milliseconds.
    pub ended: u64,
    /// How many milliseconds later the next pass begins.
    pub rest: u64,
}

ghost use Rattle.std.specs.Prelude.{◌≡◌, ℕ, List, Option};
ghost use Rattle.tokend.specs.Pruning as spec;
ghost use Rattle.tokend.specs.Telling.{Writer};
ghost use Rattle.tokend.specs.Turns.{Goes};

use crate::server::Server;
use crate::turns::millis;
use std::time::Clock;

/// How many facts a slice looks at at most.
const SLICE: u64 = 256;

/// How many milliseconds after the start the first pass begins.
const FIRST_REST: u64 = 1_000;

/// How many milliseconds after the end of a pass the next one begins.
const LONG_REST: u64 = 3_600_000;

impl Pruning {
    /// Returns the pruning of a service that starts at these two times, with this margin.
    pub(crate) fn new(margin: Option<u64>, start: u64, since: u64) -> Pruning
        ensures { result ≡ spec.begins margin start since }
    {
        Pruning {
            margin,
            start,
            since,
            moment: None,
            after: None,
            ended: since,
            rest: FIRST_REST,
        }
    }

    /// Returns the pruning of a service that starts now, with this margin. If the clock fails, no
    /// pass skips a fact.
    pub(crate) fn start<C: Clock>(clock: &C, margin: Option<u64>) -> Pruning
        ensures { result ≡ spec.begins margin result.start result.since }
    {
        let start = match clock.since_1970() {
            Ok(now) => now.as_secs(),
            Err(_) => 0,
        };
        let since = millis(clock).unwrap_or(u64::MAX);
        Pruning::new(margin, start, since)
    }

    /// Returns how many milliseconds the server may wait for its next slice, at most: 0 if a pass
    /// is under way. `None`: nothing is pruned.
    pub(crate) fn pause(&self, millis: u64) -> Option<u64>
        ensures { result ≡ spec.pause self.now millis }
    {
        match (self.margin, self.moment) {
            (None, _) => None,
            (Some(_), Some(_)) => Some(0),
            (Some(_), None) => Some(self.rest.saturating_sub(millis.saturating_sub(self.ended))),
        }
    }

    // Returns the latest moment up to which a pass may prune that begins now: the clock, and no
    // later than it was at the start with the seconds since then, less the margin. So a clock that
    // jumps ahead prunes nothing early.
    fn latest(&self, margin: u64, millis: u64, now: Moment) -> Moment
        ensures { result ≡ spec.latest self.now margin millis now }
    {
        let seconds = millis.saturating_sub(self.since) / 1_000;
        let reached = self.start.saturating_add(seconds).min(now.seconds());
        match Moment::new(reached.saturating_sub(margin)) {
            Some(moment) => moment,
            None => unreachable!("the seconds are at most those of a moment"),
        }
    }

    // Begins a pass, if none is under way and its time has come.
    fn begin(&mut self, margin: u64, millis: u64, now: Moment)
        ensures { self.new ≡ spec.begun self.old margin millis now }
    {
        if self.moment.is_none() && self.rest <= millis.saturating_sub(self.ended) {
            self.moment = Some(self.latest(margin, millis, now));
            self.after = None;
        }
    }

    // Goes on behind a slice that returned this cursor. Without one the pass has ended.
    fn go_on(&mut self, at: Option<Dot>, millis: u64)
        ensures { self.new ≡ spec.gone_on self.old at millis }
    {
        self.after = at;
        if at.is_none() {
            self.moment = None;
            self.ended = millis;
            self.rest = LONG_REST;
        }
    }
}

impl Server {
    /// Prunes a slice of the region if a pass is under way, or one begins, and counts the facts
    /// that went. `millis` is the time of the monotonic clock, and the server's moment that of the
    /// clock.
    pub(crate) fn prune(&mut self, millis: u64)
        ensures sliced { spec.IsPruned self.old millis self.new }
        ensures goes { (log : Option (List ℕ)) (faults : Writer) → Goes
            (record { server = self.old; log = log; faults = faults })
            (record { server = self.new; log = log; faults = faults }) }
    {
        let Some(margin) = self.pruning.margin else {
            return;
        };
        let mut pass = self.pruning;
        pass.begin(margin, millis, self.now);
        let Some(moment) = pass.moment else {
            return;
        };
        let slice = self.edge.region_mut().prune_some(moment, pass.after, SLICE);
        pass.go_on(slice.at, millis);
        self.pruning = pass;
        self.tally.pruned = self.tally.pruned.saturating_add(slice.gone);
    }
}
