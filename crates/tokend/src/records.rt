//! The log of a service, as turns see it: `Records`.

ghost use Rattle.std.specs.Prelude.{◌≡◌};

use tk_edge::{Sink, put_whole};
use tk_turn::{Log, LogFailed};

/// A log to which the records of a turn are written at once.
#[derive(Drop)]
pub(crate) struct Records<L> {
    /// The device that has the records.
    pub log: L,
    // Whether a call of the device has failed.
    has_failed: bool,
}

impl<L> Records<L> {
    /// Returns a log without a failure so far.
    pub(crate) fn new(log: L) -> Records<L>
        ensures { result.log ≡ log }
    {
        Records {
            log,
            has_failed: false,
        }
    }
}

/// What a flush of the device has written out counts as kept.
impl<L: Sink> Log for Records<L> {
    ghost written = { λ r. L.holds r.log };

    ghost kept = { λ r. L.flushed r.log };

    ghost has_failed = { λ r. r.has_failed };

    fn append(&mut self, bytes: &[u8]) -> Result<(), LogFailed> {
        match put_whole(&mut self.log, bytes) {
            Ok(()) => Ok(()),
            Err(_) => {
                self.has_failed = true;
                Err(LogFailed)
            }
        }
    }

    fn flush(&mut self) -> Result<(), LogFailed> {
        match self.log.flush() {
            Ok(()) => Ok(()),
            Err(_) => {
                self.has_failed = true;
                Err(LogFailed)
            }
        }
    }
}
