//! Where records are written: `Log`.

ghost use Rattle.std.specs.Prelude.{◌≡◌, ℕ, Bool, true, List, Option, OnOk, OnErr};
ghost use Rattle.std.specs.Io.KnownBytes.{Keeps};
ghost use Rattle.tk_put.specs.Put.{Prints};

/// A call of a log failed.
#[derive(Clone, Copy)]
pub struct LogFailed;

/// A log, whose bytes outlast the machine's end only once it is flushed.
pub trait Log {
    // The bytes that were written, if they are known.
    ghost written: { Self → Option (List ℕ) };

    // The bytes that outlast the machine's end, if they are known.
    ghost kept: { Self → Option (List ℕ) };

    // Whether a call has failed.
    ghost has_failed: { Self → Bool };

    /// Writes the bytes. If that fails, their beginning may be written.
    fn append(&mut self, bytes: &[u8]) -> Result<(), LogFailed>
        ensures bytes { Prints result (written self.old) (written self.new) bytes.now }
        ensures ok { OnOk result (has_failed self.new ≡ has_failed self.old) }
        ensures fault { OnErr result (has_failed self.new ≡ true) };

    /// Has all bytes that were written outlast the machine's end.
    fn flush(&mut self) -> Result<(), LogFailed>
        ensures bytes { Keeps (written self.old) (written self.new) }
        ensures kept { OnOk result (kept self.new ≡ written self.new) }
        ensures ok { OnOk result (has_failed self.new ≡ has_failed self.old) }
        ensures fault { OnErr result (has_failed self.new ≡ true) };
}
