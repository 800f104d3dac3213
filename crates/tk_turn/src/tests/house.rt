//! Connections over a service and a log in memory, whose calls fail as a test chooses: `House`.

ghost use Rattle.std.specs.Prelude.{◌≡◌, ◌++◌, ◌<◌, ◌≤◌, ◌↔◌, ℕ, true, List, length, IsTrue};
ghost use Rattle.tk_turn.specs.Outcomes.{goes_on, taken_of};
ghost use Rattle.tk_turn.specs.Turns.{AreWithin};

use crate::{Link, Log, LogFailed, Outcome, Service, take_turn};
use std::alloc::{AllocError, Global};

/// A service whose requests are pairs of bytes. The reply to a pair is the pair, and so is its
/// record, but a pair that begins with `q` has no record. A pair that begins with `e` is the last.
/// Once the service is sealed, the reply to a pair is `!`, and no pair has a record.
#[derive(Drop)]
pub(super) struct Pairs {
    /// Whether it is sealed.
    pub is_sealed: bool,
}

impl Service for Pairs {
    ghost decides = { λ _ _ _ _ _ _ _. Unit {0} };

    ghost seals = { λ _ _. Unit {0} };

    fn decide(
        &mut self,
        input: &[u8],
        is_over: bool,
        replies: &mut Vec<u8>,
        records: &mut Vec<u8>,
    ) -> Outcome {
        let outcome = outcome_of(input, is_over);
        let size = outcome.taken();
        if self.is_sealed {
            add(replies, if size > 0 { b"!" } else { b"" });
            return outcome;
        }
        let is_query = input.first() == Some(&b'q');
        let logged = if is_query { 0 } else { size };
        add(replies, &input[..size]);
        add(records, &input[..logged]);
        outcome
    }

    fn seal(&mut self) {
        self.is_sealed = true;
    }
}

// Returns what is made of the front of the bytes.
fn outcome_of(input: &[u8], is_over: bool) -> Outcome
    ensures within { taken_of result ≤ length input.now }
    ensures some { goes_on result ≡ true → 0 < taken_of result }
{
    if input.len() >= 2 {
        return Outcome::Decided(2, input[0] != b'e');
    }
    if is_over {
        Outcome::Ended
    } else {
        Outcome::More
    }
}

// Adds bytes behind others, unless memory runs out.
fn add(all: &mut Vec<u8>, bytes: &[u8])
    ensures { (added : List ℕ) × (all.new.items ≡ all.old.items ++ added) }
{
    let _ = all.extend_from_slice(bytes);
}

/// Which calls of a log fail. Calls are numbered from 0.
#[derive(Clone, Copy)]
pub(super) enum Fails {
    /// No call fails.
    Never,
    /// The call of this number fails.
    At(usize),
    /// The call of this number and all later calls fail.
    From(usize),
}

impl Fails {
    // Returns whether the call of this number fails.
    fn at(self, call: usize) -> bool {
        match self {
            Fails::Never => false,
            Fails::At(number) => call == number,
            Fails::From(number) => number <= call,
        }
    }
}

/// A log in memory, whose calls may fail. An append that fails writes the first half of the bytes.
#[derive(Drop)]
pub(super) struct Memory {
    /// The bytes that were written.
    pub bytes: Vec<u8>,
    /// How many of them were flushed.
    pub kept: usize,
    /// How many calls there were.
    pub calls: usize,
    /// Which calls fail.
    pub fails: Fails,
    has_failed: bool,
}

impl Memory {
    // Counts a call, and returns whether the call fails.
    fn turn(&mut self) -> bool
        ensures { self.new.has_failed ≡ self.old.has_failed }
    {
        let call = self.calls;
        self.calls = call.saturating_add(1);
        self.fails.at(call)
    }

    // Notes that a call failed.
    fn fail(&mut self) -> LogFailed
        ensures { self.new.has_failed ≡ true }
    {
        self.has_failed = true;
        LogFailed
    }
}

impl Log for Memory {
    ghost use Rattle.std.specs.Prelude.{None};

    ghost written = { λ _. None };

    ghost kept = { λ _. None };

    ghost has_failed = { λ l. l.has_failed };

    fn append(&mut self, bytes: &[u8]) -> Result<(), LogFailed> {
        if self.turn() {
            let _ = self.bytes.extend_from_slice(&bytes[..bytes.len() / 2]);
            return Err(self.fail());
        }
        match self.bytes.extend_from_slice(bytes) {
            Ok(()) => Ok(()),
            Err(_) => Err(self.fail()),
        }
    }

    fn flush(&mut self) -> Result<(), LogFailed> {
        if self.turn() {
            return Err(self.fail());
        }
        self.kept = self.bytes.len();
        Ok(())
    }
}

/// Connections over one service and one log.
#[derive(Drop)]
pub(super) struct House {
    /// The service.
    pub service: Pairs,
    /// The log.
    pub log: Memory,
    /// The connections.
    pub links: Vec<Link>,
    records: Vec<u8>,
}

/// Returns three connections on which nothing has come.
pub(super) fn new_house(alloc: Global) -> Result<House, AllocError> {
    let mut links = Vec::new(alloc);
    for _ in 0..3 {
        match links.push(Link::new(alloc)) {
            Ok(()) => {}
            Err(_) => return Err(AllocError),
        }
    }
    Ok(House {
        service: Pairs { is_sealed: false },
        log: Memory {
            bytes: Vec::new(alloc),
            kept: 0,
            calls: 0,
            fails: Fails::Never,
            has_failed: false,
        },
        links,
        records: Vec::new(alloc),
    })
}

impl House {
    /// Adds bytes from the client of a connection.
    pub(super) fn hear(
        &mut self,
        alloc: Global,
        place: usize,
        bytes: &[u8],
    ) -> Result<(), AllocError> {
        if place < self.links.len() {
            return self.links[place].take_in(alloc, bytes);
        }
        Ok(())
    }

    /// Takes a turn, and returns whether the log kept its records.
    pub(super) fn turn(&mut self, places: &[usize]) -> bool {
        if !are_within(places, self.links.len()) {
            return false;
        }
        take_turn(
            &mut self.service,
            &mut self.links,
            places,
            &mut self.records,
            &mut self.log,
        )
        .is_ok()
    }
}

// Returns whether each place is less than the number of connections.
fn are_within(places: &[usize], count: usize) -> bool
    ensures { IsTrue result ↔ AreWithin places.now count }
{
    places.iter().all(|place| *place < count)
}

/// Returns what may be sent of a connection.
pub(super) fn sendable(links: &[Link], place: usize) -> &[u8] {
    if place < links.len() {
        return links[place].sendable();
    }
    b"?"
}
