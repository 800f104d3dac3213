//! Refreshes that were granted here a short time ago: `Repeats`.

use std::collections::VecDeque;
use std::marker::Model;
use tk_handle::{Dot, Moment};
use tk_message::Request;

/// A refresh that was granted here, with what makes its reply again.
#[derive(Drop)]
pub(crate) struct Refreshed {
    /// The request that was granted.
    pub request: Request,
    /// The dot of the refresh token that it sent.
    pub parent: Dot,
    /// When it was granted.
    pub at: Moment,
    /// The dot of the fact that minted the new tokens.
    pub dot: Dot,
    /// The random words of the new tokens.
    pub words: [u64; 6],
}

/// The refreshes that were granted here a short time ago, the oldest first. Contracts see them as a
/// list.
#[derive(Drop)]
pub(crate) struct Repeats {
    /// For how many seconds a refresh may be repeated. 0: it never is.
    pub seconds: u64,
    // The refreshes, at most `MAX_KEPT`.
    kept: VecDeque<Refreshed>,
}

impl Model for Repeats {
    ghost use Rattle.std.specs.Prelude.{◌≤◌, length};
    ghost use Rattle.tokend.specs.Repeats.{RepeatsFields, max_kept};

    ghost Value = { RepeatsFields };

    ghost view = { λ r. record { seconds = r.seconds; kept = r.kept.items } };

    ghost invariant = { λ r. length r.kept.items ≤ max_kept };
}

ghost use Rattle.std.specs.Prelude.{◌≡◌, [], true, false, find};
ghost use Rattle.std.specs.Option.{option_copied};
ghost use Rattle.tokend.specs.Repeats as spec;

use std::alloc::Global;
use tk_grant::is_again;

/// How many refreshes are kept at most. One more takes the place of the oldest.
const MAX_KEPT: usize = 4_096;

impl Repeats {
    /// Returns the repeats of a server that granted no refresh yet.
    pub(crate) fn new(alloc: Global, seconds: u64) -> Repeats
        ensures { result ≡ record { seconds = seconds; kept = [] } }
    {
        Repeats {
            seconds,
            kept: VecDeque::new(alloc),
        }
    }

    /// Returns the oldest refresh that a request repeats, if it repeats one. `parent` is the dot of
    /// the refresh token that it sends.
    pub(crate) fn find(&self, now: Moment, parent: Dot, request: &Request) -> Option<&Refreshed>
        ensures { option_copied result
            ≡ find (spec.is_repeat self.now.seconds now parent request.now) self.now.kept }
    {
        self.kept
            .iter()
            .find(|it| is_repeat(self.seconds, now, parent, request, it))
    }

    /// Keeps a refresh that was granted, and returns whether there was memory for that.
    pub(crate) fn keep(&mut self, refreshed: Refreshed) -> bool
        ensures kept { result ≡ true → self.new ≡ spec.kept_with refreshed self.old }
        ensures short { result ≡ false → self.new ≡ self.old }
    {
        if self.kept.reserve(1).is_err() {
            return false;
        }
        if self.kept.len() >= MAX_KEPT {
            self.kept.pop_front();
        }
        self.kept.push_back(refreshed).is_ok()
    }

    /// Forgets the oldest refreshes, as long as they weren't granted lately.
    pub(crate) fn forget(&mut self, now: Moment)
        ensures { self.new ≡ record self.old {
          kept = spec.forgotten self.old.seconds now self.old.kept;
        } }
    {
        'old: while let Some(first) = self.kept.front() {
            if is_recent(self.seconds, now, first) {
                break;
            }
            self.kept.pop_front();
        }
    }
}

// Returns whether a request repeats a refresh that was granted.
fn is_repeat(
    seconds: u64,
    now: Moment,
    parent: Dot,
    request: &Request,
    refreshed: &Refreshed,
) -> bool
    ensures { result ≡ spec.is_repeat seconds now parent request.now refreshed.now }
{
    refreshed.parent == parent
        && is_recent(seconds, now, refreshed)
        && is_again(&refreshed.request, request)
}

// Returns whether a refresh was granted at most `seconds` before a moment.
fn is_recent(seconds: u64, now: Moment, refreshed: &Refreshed) -> bool
    ensures { result ≡ spec.is_recent seconds now refreshed.now }
{
    let at = refreshed.at.seconds();
    at <= now.seconds() && now.seconds() - at <= seconds
}
