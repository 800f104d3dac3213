//! A socket that is listened on, with the places for its connections: `Door`.

use crate::socket::{Listener, Stream};
use mio::{Registry, Token};
use std::alloc::{AllocError, Global};
use std::io::{self, ErrorKind};

/// The errors of a process, and of a system, that has no descriptor left.
const NO_DESCRIPTOR: [i32; 2] = [24, 23];

/// What became of accepting a client.
pub(crate) enum Came {
    /// A client was accepted.
    Client(Stream),
    /// A client went away before, so that another may wait.
    Again,
    /// No client waits.
    Nobody,
    /// There is no descriptor for it.
    NoDescriptor,
    /// The system failed.
    Failed,
}

/// A socket that is listened on, and the places of its connections that are free.
#[derive(Drop)]
pub(crate) struct Door {
    listener: Listener,
    // The places that are free.
    free: Vec<usize>,
    // Whether more clients may wait, and whether accepting has just failed.
    has_more: bool,
    has_failed: bool,
}

impl Door {
    /// Returns a door with `count` free places from `first` on.
    pub(crate) fn new(
        alloc: Global,
        listener: Listener,
        first: usize,
        count: usize,
    ) -> Result<Door, AllocError> {
        let mut free = Vec::with_capacity(alloc, count)?;
        for place in 0..count {
            free.push(first.saturating_add(count - 1 - place))?;
        }
        Ok(Door {
            listener,
            free,
            has_more: false,
            has_failed: false,
        })
    }

    /// Has events say when clients wait.
    pub(crate) fn watch(&mut self, registry: &Registry, token: Token) -> io::Result<()> {
        self.listener.watch(registry, token)
    }

    /// Notes that clients wait.
    pub(crate) fn note_client(&mut self) {
        self.has_more = true;
    }

    /// Returns whether clients wait, as far as is known.
    pub(crate) fn has_client(&self) -> bool {
        self.has_more
    }

    /// Returns whether no place is free.
    pub(crate) fn is_full(&self) -> bool {
        self.free.is_empty()
    }

    /// Returns whether clients wait, and accepting them has not just failed.
    pub(crate) fn is_ready(&self) -> bool {
        self.has_more && !self.has_failed
    }

    /// Has accepting tried again.
    pub(crate) fn begin(&mut self) {
        self.has_failed = false;
    }

    /// Takes a free place.
    pub(crate) fn take_place(&mut self) -> Option<usize> {
        self.free.pop()
    }

    /// Gives a place back.
    pub(crate) fn free(&mut self, place: usize) {
        let _ = self.free.push(place);
    }

    /// Accepts the next client.
    pub(crate) fn accept(&mut self) -> Came {
        match self.listener.accept() {
            Ok(stream) => Came::Client(stream),
            Err(error) => self.note_failure(&error),
        }
    }

    // Notes why no client was accepted.
    fn note_failure(&mut self, error: &io::Error) -> Came {
        match error.kind() {
            ErrorKind::WouldBlock => {
                self.has_more = false;
                Came::Nobody
            }
            ErrorKind::Interrupted | ErrorKind::ConnectionAborted => Came::Again,
            _ => {
                self.has_failed = true;
                if lacks_descriptor(error) {
                    Came::NoDescriptor
                } else {
                    Came::Failed
                }
            }
        }
    }
}

// Returns whether a client wasn't accepted because no descriptor was left.
fn lacks_descriptor(error: &io::Error) -> bool {
    match error.raw_os_error() {
        Some(number) => NO_DESCRIPTOR.contains(&number),
        None => false,
    }
}
