//! One connection: `Connection`, its socket and how far it is.
//!
//! A connection has one request, or many one behind the other if connections are kept. While its
//! replies are to be sent, no more of it is read or decided.

use crate::socket::Stream;
use mio::{Interest, Registry, Token};
use std::alloc::Global;
use std::io::{self, ErrorKind, Read};
use tk_turn::{Link, send};

/// How long a client is waited for, in milliseconds: for its request since it was accepted, and for
/// the end of its side since its reply.
const MAX_MILLIS: u64 = 5_000;

/// How many bytes a client may send behind its request. They are dropped.
const MAX_DROPPED: usize = 65_536;

/// How many writes one turn makes to a connection at most.
const MAX_WRITES: usize = 64;

/// How long a client is waited for before it counts as idle, in milliseconds.
const MIN_IDLE_MILLIS: u64 = 100;

/// A connection is large from this number of bytes on that have come and aren't decided.
const LARGE: usize = 65_536;

/// How far reading or sending went.
#[derive(Clone, Copy, PartialEq, Eq)]
pub(crate) enum Step {
    /// The client must do something first.
    Waits,
    /// There is more to do.
    GoesOn,
    /// There is no memory for the bytes that came.
    Short,
    /// The connection is over.
    Over,
}

/// How far the requests of a connection are.
#[derive(Clone, Copy, PartialEq, Eq)]
enum Stage {
    /// The first one is still to be decided.
    First,
    /// Replies are still to be sent, and another request may follow them.
    Replying,
    /// The replies are sent, and another request may come.
    Kept,
    /// The last one was decided: what comes behind it is dropped.
    Last,
    /// The last one has its reply, and the own side is ended.
    Shut,
}

/// What an event reports of a connection.
#[derive(Clone, Copy, PartialEq, Eq)]
enum Watched {
    /// Nothing yet: the connection isn't registered.
    Nothing,
    /// That the client has sent more.
    Bytes,
    /// That the client has sent more, or has room for more of the reply.
    BytesAndRoom,
}

/// The socket of a connection, and how far the connection is.
#[derive(Drop)]
pub(crate) struct Connection {
    stream: Stream,
    // Since when the client is waited for, in milliseconds.
    since: u64,
    stage: Stage,
    // How many bytes were dropped that came behind the last request.
    dropped: usize,
    watched: Watched,
    /// Whether it is in the list of this turn or the next one.
    pub is_listed: bool,
    /// Whether it counts as one of the large ones.
    pub is_large: bool,
    // Whether there is more to read or to send at once.
    goes_on: bool,
    // Whether an event has said that the client's side has ended, so that reading goes on to there.
    is_ending: bool,
}

impl Connection {
    /// Returns a connection that was accepted at `now`.
    pub(crate) fn new(stream: Stream, now: u64) -> Connection {
        Connection {
            stream,
            since: now,
            stage: Stage::First,
            dropped: 0,
            watched: Watched::Nothing,
            is_listed: true,
            is_large: false,
            goes_on: false,
            is_ending: false,
        }
    }

    /// Returns whether its last request was decided.
    pub(crate) fn is_decided(&self) -> bool {
        matches!(self.stage, Stage::Last | Stage::Shut)
    }

    /// Notes that the client's side has ended.
    pub(crate) fn note_ending(&mut self) {
        self.is_ending = true;
    }

    /// Returns whether the connection has become one of the large ones.
    pub(crate) fn grows_large(&self, link: &Link) -> bool {
        !self.is_large && link.waiting() >= LARGE
    }

    /// Returns whether the connection is one of the large ones no longer.
    pub(crate) fn shrinks(&self, link: &Link) -> bool {
        self.is_large && !self.is_decided() && link.waiting() < LARGE
    }

    /// Returns since when an idle client is waited for: one that sends nothing, or that has its
    /// replies. A client that has just come isn't idle.
    pub(crate) fn idle_since(&self, link: &Link, now: u64) -> Option<u64> {
        let is_new = now.saturating_sub(self.since) < MIN_IDLE_MILLIS;
        if is_idle(link) && !is_new {
            Some(self.since)
        } else {
            None
        }
    }

    /// Returns whether the connection is kept, and nothing of a further request has come.
    pub(crate) fn is_between(&self, link: &Link) -> bool {
        matches!(self.stage, Stage::Replying | Stage::Kept) && is_idle(link)
    }

    /// Returns whether the client was waited for long enough. `keep` is how long a kept connection
    /// stays open between its requests, in milliseconds.
    pub(crate) fn is_late(&self, link: &Link, now: u64, keep: u64) -> bool {
        let longest = if self.is_between(link) {
            keep
        } else {
            MAX_MILLIS
        };
        now.saturating_sub(self.since) >= longest
    }

    /// Notes what a turn decided of the connection at `now`, from which on the client has time to
    /// take the replies. Returns whether its last request was decided.
    pub(crate) fn note_turn(&mut self, link: &Link, now: u64) -> bool {
        if self.is_decided() {
            return false;
        }
        if self.stage != Stage::Replying && !link.sendable().is_empty() {
            self.stage = Stage::Replying;
            self.since = now;
        }
        if !link.is_last() {
            return false;
        }
        self.stage = Stage::Last;
        self.since = now;
        true
    }

    /// Reads a piece of what has come at `now`, but nothing while replies are to be sent. What
    /// comes behind the last request is dropped.
    pub(crate) fn read(
        &mut self,
        alloc: Global,
        link: &mut Link,
        piece: &mut [u8],
        now: u64,
    ) -> Step {
        if self.stage == Stage::Replying {
            self.goes_on = true;
            return Step::Waits;
        }
        let was_between = self.is_between(link);
        let step = self.read_piece(alloc, link, piece);
        self.goes_on = step == Step::GoesOn;
        if was_between && link.is_over() && link.waiting() == 0 {
            return Step::Over;
        }
        if was_between && link.waiting() > 0 {
            self.since = now;
        }
        step
    }

    // Reads a piece of what has come, unless the client's side has ended.
    fn read_piece(&mut self, alloc: Global, link: &mut Link, piece: &mut [u8]) -> Step {
        if link.is_over() {
            return Step::Waits;
        }
        match self.stream.read(piece) {
            Ok(0) => {
                link.end();
                Step::Waits
            }
            Ok(count) => {
                let is_full = count == piece.len();
                match self.take(alloc, link, &piece[..count]) {
                    Step::GoesOn if !is_full && !self.is_ending => Step::Waits,
                    step => step,
                }
            }
            Err(error) => step_of(&error),
        }
    }

    // Takes in what has come.
    fn take(&mut self, alloc: Global, link: &mut Link, bytes: &[u8]) -> Step {
        if self.is_decided() {
            self.dropped = self.dropped.saturating_add(bytes.len());
            return if self.dropped < MAX_DROPPED {
                Step::GoesOn
            } else {
                Step::Over
            };
        }
        match link.take_in(alloc, bytes) {
            Ok(()) => Step::GoesOn,
            Err(_) => Step::Short,
        }
    }

    /// Goes on after a turn at `now`: sends the replies of requests that were decided. `is_stopped`
    /// is whether the turn stopped early, so that whole requests may be left.
    pub(crate) fn go_on(&mut self, link: &mut Link, now: u64, is_stopped: bool) -> Step {
        let is_decided = self.is_decided();
        let step = if is_decided || self.stage == Stage::Replying {
            self.send(link, now)
        } else {
            Step::Waits
        };
        let has_more = self.goes_on || is_stopped || link.is_cut();
        match step {
            Step::Waits if is_decided && self.goes_on => Step::GoesOn,
            Step::Waits if !is_decided && self.stage != Stage::Replying && has_more => Step::GoesOn,
            step => step,
        }
    }

    // Sends what may be sent, and then ends the own side if the last request was decided.
    fn send(&mut self, link: &mut Link, now: u64) -> Step {
        for _ in 0..MAX_WRITES {
            if link.sendable().is_empty() {
                if self.is_decided() {
                    return self.shut(link);
                }
                self.stage = Stage::Kept;
                self.since = now;
                return Step::Waits;
            }
            match send(link, &mut self.stream) {
                Ok(0) => return Step::Over,
                Ok(_) => {}
                Err(error) => return step_of(&error),
            }
        }
        Step::GoesOn
    }

    // Ends the own side. The connection is over once the client's side has ended too.
    fn shut(&mut self, link: &Link) -> Step {
        if self.stage != Stage::Shut {
            self.stage = Stage::Shut;
            if self.stream.end().is_err() {
                return Step::Over;
            }
        }
        if link.is_over() {
            Step::Over
        } else {
            Step::Waits
        }
    }

    /// Has an event report when the client has sent more, or has room for more of the reply.
    pub(crate) fn watch(
        &mut self,
        registry: &Registry,
        token: Token,
        link: &Link,
    ) -> io::Result<()> {
        let (wanted, interests) = if link.sendable().is_empty() {
            (Watched::Bytes, Interest::READABLE)
        } else {
            (
                Watched::BytesAndRoom,
                Interest::READABLE | Interest::WRITABLE,
            )
        };
        let watched = self.watched;
        if watched == wanted || watched == Watched::BytesAndRoom {
            return Ok(());
        }
        self.watched = wanted;
        if watched == Watched::Nothing {
            registry.register(&mut self.stream, token, interests)
        } else {
            registry.reregister(&mut self.stream, token, interests)
        }
    }
}

// Returns whether the client has sent nothing that isn't decided, and has its replies.
fn is_idle(link: &Link) -> bool {
    link.waiting() == 0 && link.sendable().is_empty()
}

// Returns how far a connection is by the error of its socket.
fn step_of(error: &io::Error) -> Step {
    match error.kind() {
        ErrorKind::WouldBlock => Step::Waits,
        ErrorKind::Interrupted => Step::GoesOn,
        _ => Step::Over,
    }
}
