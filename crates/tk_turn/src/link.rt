//! The bytes of a connection: `Link`.

use std::marker::Model;

/// The bytes of a connection: what its client has sent and isn't decided yet, the replies that are
/// held back, and the replies that may be sent.
///
/// Contracts see these three lists, whether the client has ended its side, whether no further
/// request is read, and whether the last turn stopped at its bound.
#[derive(Drop)]
pub struct Link {
    // The bytes of the client; the first `used` of them are decided.
    input: Vec<u8>,
    used: usize,
    // The replies. Those before `ready` may be sent, and the first `sent` bytes are sent.
    output: Vec<u8>,
    sent: usize,
    ready: usize,
    is_over: bool,
    is_last: bool,
    is_cut: bool,
}

impl Model for Link {
    ghost use Rattle.std.specs.Prelude.{◌≤◌, drop, take, vec_len};
    ghost use Rattle.tk_turn.specs.Links.{LinkFields};

    ghost Value = { LinkFields };

    ghost view = { λ l. record {
      input = drop l.used l.input.items;
      held = drop l.ready l.output.items;
      ready = drop l.sent (take l.ready l.output.items);
      is_over = l.is_over;
      is_last = l.is_last;
      is_cut = l.is_cut;
    } };

    ghost invariant = { λ l. (l.used ≤ vec_len l.input) × (l.sent ≤ l.ready)
        × (l.ready ≤ vec_len l.output) };
}

ghost use Rattle.std.specs.Prelude.{
  ◌≡◌,
  ◌++◌,
  ◌≤◌,
  ◌&&◌,
  ℕ,
  List,
  false,
  not,
  length,
  drop,
  take,
  OnOk,
  OnErr,
  IfOk,
};
ghost use Rattle.std.specs.Io.KnownBytes.{Appends, Keeps};
ghost use Rattle.tk_turn.specs.Links.{
  IsDecided,
  new_link,
  with_input,
  ended,
  released,
  withheld,
  with_ready,
};

use crate::requests::decide_all;
use crate::service::Service;
use std::alloc::{AllocError, Global};
use std::io::{self, Write};

impl Link {
    /// Returns a connection on which nothing has come.
    pub fn new(alloc: Global) -> Link
        ensures { result ≡ new_link }
    {
        Link {
            input: Vec::new(alloc),
            used: 0,
            output: Vec::new(alloc),
            sent: 0,
            ready: 0,
            is_over: false,
            is_last: false,
            is_cut: false,
        }
    }

    /// Returns whether no further request is read.
    pub fn is_last(&self) -> bool
        ensures { result ≡ self.now.is_last }
    {
        self.is_last
    }

    /// Returns whether the client has ended its side.
    pub fn is_over(&self) -> bool
        ensures { result ≡ self.now.is_over }
    {
        self.is_over
    }

    /// Returns whether the last turn stopped at its bound: more requests may be whole, so the next
    /// turn should have this connection even if no more bytes come.
    pub fn is_cut(&self) -> bool
        ensures { result ≡ self.now.is_cut && not self.now.is_last }
    {
        self.is_cut && !self.is_last
    }

    /// Returns how many bytes have come and aren't decided.
    pub fn waiting(&self) -> usize
        ensures { result ≡ length self.now.input }
    {
        self.input.len() - self.used
    }

    /// Notes that the client has ended its side.
    pub fn end(&mut self)
        ensures { self.new ≡ ended self.old }
    {
        self.is_over = true;
    }

    /// Adds bytes that came from the client.
    ///
    /// # Errors
    ///
    /// Out of memory: the connection is unchanged.
    pub fn take_in(&mut self, alloc: Global, bytes: &[u8]) -> Result<(), AllocError>
        ensures done { OnOk result (self.new ≡ with_input self.old bytes.now) }
        ensures err { OnErr result (self.new ≡ self.old) }
    {
        match self.compact(alloc) {
            Ok(()) => self.add(bytes),
            Err(error) => Err(error),
        }
    }

    // Drops the bytes that are decided.
    fn compact(&mut self, alloc: Global) -> Result<(), AllocError>
        ensures { self.new ≡ self.old }
    {
        if self.used == 0 {
            return Ok(());
        }
        if self.used == self.input.len() {
            self.input.clear();
            self.used = 0;
            return Ok(());
        }
        match Vec::from_slice(alloc, &self.input[self.used..]) {
            Ok(rest) => {
                self.input = rest;
                self.used = 0;
                Ok(())
            }
            Err(error) => Err(error),
        }
    }

    // Adds bytes behind the others.
    fn add(&mut self, bytes: &[u8]) -> Result<(), AllocError>
        ensures done { OnOk result (self.new ≡ with_input self.old bytes.now) }
        ensures err { OnErr result (self.new ≡ self.old) }
    {
        self.input.extend_from_slice(bytes)
    }

    // Decides the requests that are whole, up to the bound of a turn. Their replies are held back.
    pub(crate) fn decide<S: Service>(&mut self, service: &mut S, records: &mut Vec<u8>)
        requires { self.old.is_last ≡ false }
        ensures { (logged : List ℕ) × (records.new.items ≡ records.old.items ++ logged)
            × IsDecided S.decides service.old self.old service.new self.new logged }
    {
        let front = decide_all(
            service,
            &self.input[self.used..],
            self.is_over,
            &mut self.output,
            records,
        );
        self.used += front.taken;
        self.is_last = front.last.is_end();
        self.is_cut = front.last.goes_on();
    }

    // Lets the replies that are held back be sent.
    pub(crate) fn release(&mut self)
        ensures { self.new ≡ released self.old }
    {
        self.ready = self.output.len();
    }

    // Drops the replies that are held back. If there are any, no further request is read.
    pub(crate) fn withhold(&mut self)
        ensures { self.new ≡ withheld self.old }
    {
        if self.ready < self.output.len() {
            self.output.truncate(self.ready);
            self.is_last = true;
        }
    }

    /// Returns the bytes that may be sent.
    pub fn sendable(&self) -> &[u8]
        ensures { result.now ≡ self.now.ready }
    {
        &self.output[self.sent..self.ready]
    }

    // Notes that the first `count` bytes of those that may be sent were sent.
    pub(crate) fn note_sent(&mut self, count: usize)
        requires { count ≤ length self.old.ready }
        ensures { self.new ≡ with_ready self.old (drop count self.old.ready) }
    {
        self.sent += count;
        if self.sent == self.output.len() {
            self.output.clear();
            self.sent = 0;
            self.ready = 0;
        }
    }
}

/// Sends what may be sent of a connection, in one call of the output. Returns how many bytes it
/// took.
///
/// # Errors
///
/// The output's own failure: the connection and the output are unchanged.
pub fn send<O: Write>(link: &mut Link, output: &mut O) -> io::Result<usize>
    ensures sent { IfOk result (λ count. (count ≤ length link.old.ready)
        × (link.new ≡ with_ready link.old (drop count link.old.ready))
        × Appends (O.contents output.old) (O.contents output.new) (take count link.old.ready)) }
    ensures err { OnErr result ((link.new ≡ link.old)
        × Keeps (O.contents output.old) (O.contents output.new)) }
{
    match output.write(link.sendable()) {
        Ok(count) => {
            link.note_sent(count);
            Ok(count)
        }
        Err(error) => Err(error),
    }
}
