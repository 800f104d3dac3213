//! Devices made of std's writers: `Counted` wraps one and counts its failures.

ghost use Rattle.std.specs.Prelude.{◌≡◌};

use crate::device::{Failed, Sink};
use std::io::Write;

/// A writer, with a count of its failures.
#[derive(Drop)]
pub struct Counted<T> {
    /// The wrapped writer.
    pub inner: T,
    /// How many calls have failed. The count saturates at `u64::MAX`.
    pub failures: u64,
}

impl<T> Counted<T> {
    /// Returns a device without failures so far.
    pub fn new(inner: T) -> Counted<T>
        ensures inner { result.inner ≡ inner }
        ensures none { result.failures ≡ 0 }
    {
        Counted { inner, failures: 0 }
    }
}

/// Counts a write that takes no byte of a non-empty piece as a failure. std's writers have no word
/// for what a flush has written out: all that they hold counts as that.
impl<W: Write> Sink for Counted<W> {
    ghost holds = { λ s. W.contents s.inner };

    ghost flushed = { λ s. W.contents s.inner };

    ghost failed = { λ s. s.failures };

    fn put(&mut self, piece: &[u8]) -> Result<usize, Failed> {
        match self.inner.write(piece) {
            Ok(n) if n > 0 || piece.is_empty() => Ok(n),
            _ => {
                self.failures = self.failures.saturating_add(1);
                Err(Failed)
            }
        }
    }

    fn flush(&mut self) -> Result<(), Failed> {
        match self.inner.flush() {
            Ok(()) => Ok(()),
            Err(_) => {
                self.failures = self.failures.saturating_add(1);
                Err(Failed)
            }
        }
    }

    fn failures(&self) -> u64 {
        self.failures
    }
}
