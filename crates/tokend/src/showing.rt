//! The text of the metrics of a server, which it makes anew: `Server::show`.

ghost use Rattle.std.specs.Prelude.{◌≡◌, ℕ, List, Option, IfOk, OnErr};
ghost use Rattle.tokend.specs.Showing as spec;
ghost use Rattle.tokend.specs.Telling.{Writer};
ghost use Rattle.tokend.specs.Turns.{Goes};

use crate::exposition::{Figures, exposition};
use crate::server::Server;
use std::alloc::AllocError;
use tk_edge::PathSet;

/// For how many milliseconds a text is shown.
const TEXT_LIFE: u64 = 1_000;

// Returns whether a text that was made then is too old at a time, or there is none yet.
fn is_old(shown: Option<u64>, millis: u64) -> bool
    ensures { result ≡ spec.is_old shown millis }
{
    match shown {
        Some(shown) => TEXT_LIFE <= millis.saturating_sub(shown),
        None => true,
    }
}

impl Server {
    /// Makes the text of the metrics anew, if the edge shows metrics and their text is a second
    /// old. `millis` is the time of the monotonic clock, and `still_open` how many connections are
    /// open.
    ///
    /// # Errors
    ///
    /// `AllocError` if memory runs out. The old text stays.
    pub(crate) fn show(&mut self, millis: u64, still_open: u64) -> Result<(), AllocError>
        ensures shown { IfOk result (λ _. self.new ≡ spec.shown_by self.old millis still_open) }
        ensures unchanged { OnErr result (self.new ≡ self.old) }
        ensures goes { (log : Option (List ℕ)) (faults : Writer) → Goes
            (record { server = self.old; log = log; faults = faults })
            (record { server = self.new; log = log; faults = faults }) }
    {
        if !self.is_due(millis) {
            return Ok(());
        }
        let text = exposition(self.alloc, &self.figures(still_open))?;
        self.edge.set_metrics(Some(text));
        self.tally.shown = Some(millis);
        Ok(())
    }

    // Returns whether the text of the metrics is to be made anew.
    fn is_due(&self, millis: u64) -> bool
        ensures { result ≡ spec.is_due self.entry.now millis }
    {
        self.edge.reach(PathSet::All).metrics && is_old(self.tally.shown, millis)
    }

    // Returns what the text of the metrics shows.
    fn figures(&self, still_open: u64) -> Figures
        ensures { result ≡ spec.figures_of self.entry.now still_open }
    {
        let region = self.edge.region();
        Figures {
            counts: self.tally.counts,
            untaken: self.tally.untaken,
            ended: self.tally.limit.saturating_sub(self.left),
            still_open,
            facts: region.len(),
            pruned: self.tally.pruned,
            horizon: region.horizon().seconds(),
        }
    }
}
