//! How connections leave a service: those of idle, late and lost clients.

use crate::connections::{Connections, TICK_MILLIS};
use crate::losses::{Losses, NO_LOSS};
use tk_turn::Link;

impl Connections {
    /// Returns what was lost since the last call.
    pub(crate) fn take_losses(&mut self) -> Losses {
        let losses = self.losses;
        self.losses = NO_LOSS;
        losses
    }

    /// Closes the connection of a door whose client is idle for the longest time, if there is one.
    pub(crate) fn close_idle(&mut self, at: usize, now: u64) {
        let mut oldest = None;
        let mut least = u64::MAX;
        for place in 0..self.sockets.len() {
            if self.door_of(place) != at {
                continue;
            }
            let (Some(Some(connection)), Some(link)) = (
                self.sockets.get(place),
                self.links.get(place),
            ) else {
                continue;
            };
            if let Some(since) = connection.idle_since(link, now) {
                if since < least {
                    least = since;
                    oldest = Some(place);
                }
            }
        }
        if let Some(place) = oldest {
            self.lose(place);
        }
    }

    /// Closes the connections whose clients were waited for long enough, once a tick.
    pub(crate) fn close_late(&mut self, now: u64) {
        if now.saturating_sub(self.looked) < TICK_MILLIS {
            return;
        }
        self.looked = now;
        for place in 0..self.sockets.len() {
            let (Some(Some(connection)), Some(link)) = (
                self.sockets.get(place),
                self.links.get_mut(place),
            ) else {
                continue;
            };
            if connection.is_late(link, now, self.keep) {
                self.lose(place);
            } else if connection.is_between(link) {
                // An idle connection takes no memory for bytes.
                *link = Link::new(self.alloc);
            }
        }
    }

    /// Counts a connection that ended before its request was whole.
    pub(crate) fn lose_unread(&mut self) {
        self.losses.unread = self.losses.unread.saturating_add(1);
    }

    /// Closes a connection that has no memory for its bytes.
    pub(crate) fn lose_short(&mut self, place: usize) {
        let unread = self.losses.unread;
        self.lose(place);
        self.losses.unread = unread;
        self.losses.short = self.losses.short.saturating_add(1);
    }

    /// Closes a connection, and counts what is lost by that.
    pub(crate) fn lose(&mut self, place: usize) {
        let (Some(socket), Some(link)) = (self.sockets.get_mut(place), self.links.get_mut(place))
        else {
            return;
        };
        let Some(connection) = socket.take() else {
            return;
        };
        if connection.is_large {
            self.large = self.large.saturating_sub(1);
        }
        let has_replies = !link.sendable().is_empty();
        if has_replies {
            self.losses.unsent = self.losses.unsent.saturating_add(1);
        }
        if !connection.is_decided() {
            self.undecided = self.undecided.saturating_sub(1);
            if has_replies || connection.is_between(link) {
                self.losses.parted = self.losses.parted.saturating_add(1);
            } else {
                self.losses.unread = self.losses.unread.saturating_add(1);
            }
        }
        *link = Link::new(self.alloc);
        self.open = self.open.saturating_sub(1);
        let at = self.door_of(place);
        if let Some(door) = self.doors.get_mut(at) {
            door.free(place);
        }
    }

    // Returns the door of a place: 0 for the outer one.
    fn door_of(&self, place: usize) -> usize {
        usize::from(place >= self.outer)
    }
}
