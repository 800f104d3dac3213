//! The connections of a service: `Connections`, a table of sockets and their bytes.
//!
//! No contract speaks of sockets: which of them have something to do, what they give and what they
//! take is unknown. What is decided of the bytes is in `server`.

ghost use Rattle.std.specs.Prelude.{◌↔◌, IsTrue};
ghost use Rattle.tk_turn.specs.Turns.{AreWithin};

use crate::connection::{Connection, Step};
use crate::door::Door;
use crate::losses::{Losses, NO_LOSS};
use crate::socket::Listener;
use mio::event::Event;
use mio::{Events, Poll, Token};
use std::alloc::{AllocError, Global};
use std::net::Net;
use std::time::Duration;
use tk_turn::Link;

/// How many connections are open at once over the inner socket at most.
const MAX_INNER: usize = 64;

/// How many connections may be large at once.
const MAX_LARGE: usize = 16;

/// How many events one turn takes at most.
const MAX_EVENTS: usize = 1_024;

/// How often late connections are looked for, in milliseconds.
pub(crate) const TICK_MILLIS: u64 = 100;

/// How many bytes one read takes at most.
const PIECE: usize = 16_384;

/// How many sockets are listened on at most. Their tokens are the first ones. A connection's token
/// is greater by that than its place.
const DOORS: usize = 2;

/// Why there is no table for connections.
#[derive(Clone, Copy)]
pub(crate) enum NoRoom {
    /// There is no memory for it.
    Memory,
    /// The system has no room to wait for clients.
    System,
}

/// A table of a service's connections: sockets and their bytes by place, and counts of them.
#[derive(Drop)]
pub(crate) struct Connections {
    /// Where memory is taken from.
    pub alloc: Global,
    /// The outer socket, and the inner one if there is one.
    pub doors: Vec<Door>,
    /// How many places are those of the outer socket: the first ones.
    pub outer: usize,
    // What waits for clients, and what it has said last.
    poll: Poll,
    events: Events,
    /// The sockets, by place.
    pub sockets: Vec<Option<Connection>>,
    /// Their bytes, by place.
    pub links: Vec<Link>,
    /// The places with something to do in this turn.
    pub listed: Vec<usize>,
    // The places with something to do in the next turn.
    again: Vec<usize>,
    /// The places of the outer socket whose requests this turn may decide.
    pub places: Vec<usize>,
    /// The places of the inner socket whose requests this turn may decide.
    pub inner_places: Vec<usize>,
    /// Room for the records of a turn.
    pub records: Vec<u8>,
    // Room for one read.
    piece: Vec<u8>,
    /// How many connections are open: the places of `sockets` that aren't free.
    pub open: usize,
    /// How many of them may have a further request: those of which `is_decided` isn't true.
    pub undecided: u64,
    /// How many of them are large: those of which `is_large` is true.
    pub large: usize,
    /// How many connections ended in each way since the last report.
    pub losses: Losses,
    /// How long a kept connection stays open between its requests, in milliseconds, or 0: none is.
    pub keep: u64,
    /// Whether the last turn accepted as many clients as one may.
    pub goes_on: bool,
    /// When late connections were last looked for.
    pub looked: u64,
}

// Returns a table with room for this many connections over the outer socket, and for those over the
// inner one, if there is one.
fn table(
    alloc: Global,
    listener: Listener,
    inner: Option<Listener>,
    outer: usize,
    poll: Poll,
) -> Result<Connections, AllocError> {
    let count = outer.saturating_add(if inner.is_some() { MAX_INNER } else { 0 });
    let mut table = Connections {
        alloc,
        doors: doors(alloc, listener, inner, outer)?,
        outer,
        poll,
        events: Events::with_capacity(alloc, MAX_EVENTS)?,
        sockets: Vec::with_capacity(alloc, count)?,
        links: Vec::with_capacity(alloc, count)?,
        listed: Vec::with_capacity(alloc, count)?,
        again: Vec::with_capacity(alloc, count)?,
        places: Vec::with_capacity(alloc, outer)?,
        inner_places: Vec::with_capacity(alloc, MAX_INNER)?,
        records: Vec::new(alloc),
        piece: Vec::from_elem(alloc, 0, PIECE)?,
        open: 0,
        undecided: 0,
        large: 0,
        losses: NO_LOSS,
        keep: 0,
        goes_on: false,
        looked: 0,
    };
    for _ in 0..count {
        table.sockets.push(None)?;
        table.links.push(Link::new(alloc))?;
    }
    Ok(table)
}

// Returns the doors of the two sockets.
fn doors(
    alloc: Global,
    listener: Listener,
    inner: Option<Listener>,
    outer: usize,
) -> Result<Vec<Door>, AllocError> {
    let mut doors = Vec::with_capacity(alloc, DOORS)?;
    doors.push(Door::new(alloc, listener, 0, outer)?)?;
    if let Some(listener) = inner {
        doors.push(Door::new(alloc, listener, outer, MAX_INNER)?)?;
    }
    Ok(doors)
}

impl Connections {
    /// Returns a table without connections, with room for `outer` of them over the outer socket.
    ///
    /// # Errors
    ///
    /// `NoRoom`: memory has no room for the table, or the system none to wait for clients.
    pub(crate) fn new<N: Net>(
        net: &N,
        alloc: Global,
        listener: Listener,
        inner: Option<Listener>,
        outer: usize,
    ) -> Result<Connections, NoRoom> {
        let Ok(poll) = Poll::new(net) else {
            return Err(NoRoom::System);
        };
        let Ok(mut table) = table(alloc, listener, inner, outer, poll) else {
            return Err(NoRoom::Memory);
        };
        if table.watch_doors() {
            Ok(table)
        } else {
            Err(NoRoom::System)
        }
    }

    // Has events say when clients wait. Returns whether the system can.
    fn watch_doors(&mut self) -> bool {
        let registry = self.poll.registry();
        for (at, door) in self.doors.iter_mut().enumerate() {
            if door.watch(registry, Token(at)).is_err() {
                return false;
            }
        }
        true
    }

    /// Returns whether no connection is open.
    pub(crate) fn is_empty(&self) -> bool {
        self.open == 0
    }

    /// Sets how many seconds a kept connection stays open between its requests.
    pub(crate) fn keep(&mut self, seconds: u64) {
        self.keep = seconds.saturating_mul(1_000);
    }

    /// Waits until some connection has something to do, or a tick has passed, or `pause`
    /// milliseconds, if given.
    ///
    /// If that fails, it counts as a connection that wasn't accepted.
    pub(crate) fn wait(&mut self, left: u64, pause: Option<u64>) {
        let wait = if self.has_room(left) || self.goes_on || !self.again.is_empty() {
            Some(0)
        } else if self.open > 0 || self.doors.iter().any(Door::has_client) {
            Some(TICK_MILLIS)
        } else {
            None
        };
        let wait = sooner(wait, pause).map(Duration::from_millis);
        if self.poll.poll(&mut self.events, wait).is_err() {
            self.lose_unread();
        }
    }

    // Returns whether one more client waits and may be accepted, if `left` connections are still to
    // be served.
    fn has_room(&self, left: u64) -> bool {
        self.undecided < left
            && self
                .doors
                .iter()
                .any(|door| door.is_ready() && !door.is_full())
    }

    /// Lists the connections that have something to do.
    pub(crate) fn list(&mut self) {
        self.list_again();
        for event in self.events.iter() {
            let token = event.token().0;
            if let Some(door) = self.doors.get_mut(token) {
                door.note_client();
            } else if token >= DOORS {
                note(&mut self.sockets, &mut self.listed, token - DOORS, event);
            }
        }
    }

    // Lists the connections that the last turn left with something to do, and no others.
    fn list_again(&mut self) {
        self.listed.clear();
        for place in self.again.iter() {
            let _ = self.listed.push(*place);
        }
        self.again.clear();
    }

    /// Reads what has come over the listed connections, and lists those that may be decided.
    pub(crate) fn read(&mut self, now: u64) {
        self.places.clear();
        self.inner_places.clear();
        for at in 0..self.listed.len() {
            let Some(place) = self.listed.get(at).copied() else {
                return;
            };
            self.read_one(place, now);
        }
    }

    // Reads what has come over a connection.
    fn read_one(&mut self, place: usize, now: u64) {
        let (Some(Some(connection)), Some(link)) = (
            self.sockets.get_mut(place),
            self.links.get_mut(place),
        ) else {
            return;
        };
        match connection.read(self.alloc, link, self.piece.as_mut_slice(), now) {
            Step::Over => return self.lose(place),
            Step::Short => return self.lose_short(place),
            Step::Waits | Step::GoesOn => {}
        }
        if connection.grows_large(link) {
            if self.large >= MAX_LARGE {
                return self.lose(place);
            }
            connection.is_large = true;
            self.large += 1;
        }
        if !connection.is_decided() && link.sendable().is_empty() {
            let _ = if place < self.outer {
                self.places.push(place)
            } else {
                self.inner_places.push(place)
            };
        }
    }

    /// Gives up the connections whose requests may be decided.
    pub(crate) fn give_up(&mut self) {
        self.give_up_outer();
        self.give_up_inner();
    }

    // Gives up those of clients at the outer side.
    fn give_up_outer(&mut self) {
        for _ in 0..self.places.len() {
            if let Some(place) = self.places.pop() {
                self.lose(place);
            }
        }
    }

    // Gives up those at the inner socket.
    fn give_up_inner(&mut self) {
        for _ in 0..self.inner_places.len() {
            if let Some(place) = self.inner_places.pop() {
                self.lose(place);
            }
        }
    }

    /// Sends the replies of a turn that ended at `now`. The requests that it left are decided in
    /// the next one if `is_stopped`, which is whether the turn stopped early.
    pub(crate) fn send(&mut self, now: u64, is_stopped: bool) {
        for at in 0..self.listed.len() {
            let Some(place) = self.listed.get(at).copied() else {
                return;
            };
            self.send_one(place, now, is_stopped);
        }
    }

    // Sends the reply of a connection, if there is one.
    fn send_one(&mut self, place: usize, now: u64, is_stopped: bool) {
        let (Some(Some(connection)), Some(link)) = (
            self.sockets.get_mut(place),
            self.links.get_mut(place),
        ) else {
            return;
        };
        if connection.note_turn(link, now) {
            self.undecided = self.undecided.saturating_sub(1);
        }
        if connection.shrinks(link) {
            connection.is_large = false;
            self.large = self.large.saturating_sub(1);
        }
        let step = connection.go_on(link, now, is_stopped);
        connection.is_listed = step == Step::GoesOn;
        match step {
            Step::Over | Step::Short => self.lose(place),
            Step::GoesOn => {
                let _ = self.again.push(place);
            }
            Step::Waits => {
                let registry = self.poll.registry();
                if connection
                    .watch(registry, Token(place + DOORS), link)
                    .is_err()
                {
                    self.lose(place);
                }
            }
        }
    }
}

// Returns the shorter of two waits, of which each may be without an end.
fn sooner(one: Option<u64>, other: Option<u64>) -> Option<u64> {
    match (one, other) {
        (Some(one), Some(other)) => Some(one.min(other)),
        (Some(one), None) => Some(one),
        (None, other) => other,
    }
}

// Lists the connection of an event.
fn note(
    sockets: &mut Vec<Option<Connection>>,
    listed: &mut Vec<usize>,
    place: usize,
    event: &Event,
) {
    let Some(Some(connection)) = sockets.get_mut(place) else {
        return;
    };
    if event.is_read_closed() {
        connection.note_ending();
    }
    if !connection.is_listed {
        connection.is_listed = true;
        let _ = listed.push(place);
    }
}

/// Returns whether each place is less than `count`.
pub(crate) fn are_within(places: &[usize], count: usize) -> bool
    ensures { IsTrue result ↔ AreWithin places.now count }
{
    places.iter().all(|place| *place < count)
}
