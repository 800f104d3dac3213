//! Devices that take bytes and count their failures: `Sink`.

ghost use Rattle.std.specs.Prelude.{◌≡◌, ℕ, ◌<◌, ◌≤◌, List, length, Option, IfOk, OnOk};
ghost use Rattle.std.specs.Io.KnownBytes.{Keeps, WriteAppends};
ghost use Rattle.tk_edge.specs.Failures.{CountsFailure};

/// A call of a device failed.
#[derive(Clone, Copy)]
pub struct Failed;

/// A device that takes bytes and keeps them.
pub trait Sink {
    // The bytes that the sink has taken so far, if they are known.
    ghost holds: { Self → Option (List ℕ) };

    // The bytes that a flush has written out, if they are known.
    ghost flushed: { Self → Option (List ℕ) };

    // How many calls have failed. The count saturates at the greatest `u64`.
    ghost failed: { Self → ℕ };

    /// Takes bytes from the front of `piece`, and returns their number.
    /// At least one byte is taken unless `piece` is empty.
    fn put(&mut self, piece: &[u8]) -> Result<usize, Failed>
        ensures within { IfOk result (λ n. n ≤ length piece.now) }
        ensures some { IfOk result (λ n. 0 < length piece.now → 0 < n) }
        ensures bytes { WriteAppends (holds self.old) (holds self.new) result piece.now }
        ensures failures { CountsFailure result (failed self.old) (failed self.new) };

    /// Writes out what is buffered. A record counts as logged only after this call.
    fn flush(&mut self) -> Result<(), Failed>
        ensures bytes { Keeps (holds self.old) (holds self.new) }
        ensures flushed { OnOk result (flushed self.new ≡ holds self.new) }
        ensures failures { CountsFailure result (failed self.old) (failed self.new) };

    /// Returns how many calls have failed. The count saturates at `u64::MAX`.
    fn failures(&self) -> u64
        ensures { result ≡ failed self.now };
}
