//! How connections come to a service: those of clients that wait.

use crate::connection::Connection;
use crate::connections::Connections;
use crate::door::Came;
use crate::socket::Stream;

/// How many connections one turn accepts at a socket at most.
const MAX_ACCEPTED: usize = 128;

impl Connections {
    /// Accepts clients that wait, as long as no more than `left` requests are undecided.
    pub(crate) fn accept(&mut self, now: u64, left: u64) {
        self.goes_on = false;
        for at in 0..self.doors.len() {
            self.accept_at(at, now, left);
        }
    }

    // Accepts clients of a door.
    fn accept_at(&mut self, at: usize, now: u64, left: u64) {
        if let Some(door) = self.doors.get_mut(at) {
            door.begin();
        }
        for _ in 0..MAX_ACCEPTED {
            self.make_room(at, now);
            let Some(door) = self.doors.get_mut(at) else {
                return;
            };
            if self.undecided >= left || !door.is_ready() || door.is_full() {
                return;
            }
            match door.accept() {
                Came::Client(stream) => self.add(at, stream, now),
                Came::Again => {}
                Came::Nobody => return,
                Came::NoDescriptor => return self.close_idle(at, now),
                Came::Failed => return self.lose_unread(),
            }
        }
        self.goes_on = true;
    }

    // Closes an idle connection of a door that is full, if a client waits.
    fn make_room(&mut self, at: usize, now: u64) {
        if let Some(door) = self.doors.get(at) {
            if door.is_full() && door.has_client() {
                self.close_idle(at, now);
            }
        }
    }

    // Adds a connection that was accepted at a door.
    fn add(&mut self, at: usize, stream: Stream, now: u64) {
        let Some(door) = self.doors.get_mut(at) else {
            return;
        };
        let Some(place) = door.take_place() else {
            return;
        };
        if let Some(socket) = self.sockets.get_mut(place) {
            if self.keep > 0 {
                // A reply behind another isn't held back until the client has taken that one.
                let _ = stream.set_nodelay();
            }
            *socket = Some(Connection::new(stream, now));
            self.open = self.open.saturating_add(1);
            self.undecided = self.undecided.saturating_add(1);
            let _ = self.listed.push(place);
        }
    }
}
