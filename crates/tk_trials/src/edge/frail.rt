//! A sink in memory, `FrailSink`, whose calls fail as a test chooses.

ghost use Rattle.std.specs.Prelude.{◌≡◌, ◌<◌, []};
ghost use Rattle.tk_edge.specs.Failures.{one_more};

use std::alloc::Global;
use tk_edge::{Failed, Sink};

/// Which calls of a sink fail. Calls are numbered from 0.
#[derive(Clone, Copy)]
pub(super) enum Fails {
    /// No call fails.
    Never,
    /// The call of this number fails.
    At(u64),
    /// The call of this number and all later calls fail.
    From(u64),
}

impl Fails {
    fn at(self, call: u64) -> bool {
        match self {
            Fails::Never => false,
            Fails::At(number) => call == number,
            Fails::From(number) => number <= call,
        }
    }
}

/// A sink in memory. A call takes at most `step` bytes, or fails.
#[derive(Drop)]
pub(super) struct FrailSink {
    /// The bytes that the sink has taken.
    pub bytes: Vec<u8>,
    /// The most bytes that a call takes, at least 1.
    pub step: usize,
    /// How many of them a flush has written out.
    pub flushed: usize,
    /// How many calls there were.
    pub calls: u64,
    /// Which calls fail.
    pub fails: Fails,
    /// How many calls failed, including those that ran out of memory.
    pub failures: u64,
    ghost steps: { 0 < step },
}

impl FrailSink {
    /// Returns a sink without bytes that hasn't been called.
    pub(super) fn new(alloc: Global, step: usize, fails: Fails) -> FrailSink
        requires { 0 < step }
        ensures empty { result.bytes.items ≡ [] }
        ensures given { (result.step ≡ step) × (result.fails ≡ fails) }
        ensures fresh { (result.flushed ≡ 0) × (result.calls ≡ 0) × (result.failures ≡ 0) }
    {
        FrailSink {
            bytes: Vec::new(alloc),
            step,
            flushed: 0,
            calls: 0,
            fails,
            failures: 0,
        }
    }

    fn fail(&mut self) -> Failed
        ensures bytes { self.new.bytes ≡ self.old.bytes }
        ensures failures { self.new.failures ≡ one_more self.old.failures }
    {
        self.failures = self.failures.saturating_add(1);
        Failed
    }

    // Counts a call, and returns whether the call is to fail.
    fn turn(&mut self) -> bool
        ensures { self.new ≡ record self.old { calls = self.new.calls } }
    {
        let call = self.calls;
        self.calls = call.saturating_add(1);
        self.fails.at(call)
    }
}

impl Sink for FrailSink {
    ghost use Rattle.std.specs.Prelude.{Some, take};

    ghost holds = { λ s. Some s.bytes.items };

    ghost flushed = { λ s. Some (take s.flushed s.bytes.items) };

    ghost failed = { λ s. s.failures };

    fn put(&mut self, piece: &[u8]) -> Result<usize, Failed> {
        if self.turn() {
            return Err(self.fail());
        }
        let n = piece.len().min(self.step);
        match self.bytes.extend_from_slice(&piece[..n]) {
            Ok(()) => Ok(n),
            Err(_) => Err(self.fail()),
        }
    }

    fn flush(&mut self) -> Result<(), Failed> {
        if self.turn() {
            return Err(self.fail());
        }
        self.flushed = self.bytes.len();
        Ok(())
    }

    fn failures(&self) -> u64 {
        self.failures
    }
}
