//! The loop of a service: `serve_on` serves many connections, a turn at a time.
//!
//! A turn reads what has come, decides the requests that are whole, writes their records at once,
//! and only then sends their replies.

ghost use Rattle.std.specs.Prelude.{◌≡◌, ◌<◌, None};
ghost use Rattle.tokend.specs.Growing.{Grows};
ghost use Rattle.tokend.specs.Telling.{writer_of};
ghost use Rattle.tokend.specs.Turns.{Goes};

use crate::connections::{Connections, are_within};
use crate::losses::{tell_each_unsent, tell_fault};
use crate::records::Records;
use crate::server::Server;
use std::io;
use std::time::Clock;
use tk_edge::{Fault as EdgeFault, Sink};
use tk_handle::Moment;
use tk_turn::{Link, take_turn};

/// Serves as many connections as the server has left.
///
/// A fault is a line on `faults`, whose own failures are ignored. If accepting, waiting or the
/// clock fails, that counts as a connection with a read fault.
pub(crate) fn serve_on<R: AllocGlobal + Clock, L: Sink, F: Sink>(
    rt: &R,
    connections: &mut Connections,
    server: &mut Server,
    log: &mut Records<L>,
    faults: &mut F,
)
    requires { server.old.fault ≡ None }
    // The region's number and settings are unchanged. What it knew of each dot it still knows, or
    // has skipped since.
    ensures grows { Grows server.old.edge.region server.new.edge.region }
    ensures goes { Goes
        (record {
          server = server.old;
          log = L.holds log.old.log;
          faults = writer_of F.holds F.failed faults.old;
        })
        (record {
          server = server.new;
          log = L.holds log.new.log;
          faults = writer_of F.holds F.failed faults.new;
        }) }
    ensures all { server.new.left ≡ 0 }
{
    'connections: while server.left > 0 {
        serve_some(rt, connections, server, log, faults);
    }
    send_rest(rt, connections, server, log, faults);
}

// Takes turns until at least one more connection is served.
fn serve_some<R: AllocGlobal + Clock, L: Sink, F: Sink>(
    rt: &R,
    connections: &mut Connections,
    server: &mut Server,
    log: &mut Records<L>,
    faults: &mut F,
)
    requires told { server.old.fault ≡ None }
    requires some { 0 < server.old.left }
    ensures goes { Goes
        (record {
          server = server.old;
          log = L.holds log.old.log;
          faults = writer_of F.holds F.failed faults.old;
        })
        (record {
          server = server.new;
          log = L.holds log.new.log;
          faults = writer_of F.holds F.failed faults.new;
        }) }
    ensures fewer { server.new.left < server.old.left }
{
    let left = server.left;
    for _ in 0..u64::MAX {
        turn(rt, connections, server, log, faults);
        if server.left < left {
            return;
        }
    }
    server.miss(EdgeFault::Read, faults);
}

// Takes turns until all replies are sent and all connections are closed.
fn send_rest<R: AllocGlobal + Clock, L: Sink, F: Sink>(
    rt: &R,
    connections: &mut Connections,
    server: &mut Server,
    log: &mut Records<L>,
    faults: &mut F,
)
    requires { server.old.fault ≡ None }
    ensures goes { Goes
        (record {
          server = server.old;
          log = L.holds log.old.log;
          faults = writer_of F.holds F.failed faults.old;
        })
        (record {
          server = server.new;
          log = L.holds log.new.log;
          faults = writer_of F.holds F.failed faults.new;
        }) }
{
    for _ in 0..u64::MAX {
        if connections.is_empty() {
            break;
        }
        turn(rt, connections, server, log, faults);
    }
    tell_losses(connections, server, log, faults);
}

// Takes one turn.
fn turn<R: AllocGlobal + Clock, L: Sink, F: Sink>(
    rt: &R,
    connections: &mut Connections,
    server: &mut Server,
    log: &mut Records<L>,
    faults: &mut F,
)
    requires { server.old.fault ≡ None }
    ensures goes { Goes
        (record {
          server = server.old;
          log = L.holds log.old.log;
          faults = writer_of F.holds F.failed faults.old;
        })
        (record {
          server = server.new;
          log = L.holds log.new.log;
          faults = writer_of F.holds F.failed faults.new;
        }) }
{
    // If the clock fails, no client was waited for long enough.
    let pause = server.pruning.pause(millis(rt).unwrap_or(0));
    connections.wait(server.left, pause);
    let now = millis(rt).unwrap_or(0);
    connections.list();
    connections.accept(now, server.left);
    connections.read(now);
    // The moment is read behind the bytes, so that no request is decided at one before it came.
    let at = moment(rt);
    if at.is_err() {
        connections.give_up();
    }
    server.now = at.unwrap_or(server.now);
    server.repeats.forget(server.now);
    // Out of memory leaves the old text of the metrics.
    let _ = server.show(now, u64::try_from(connections.open).unwrap_or(u64::MAX));
    let is_stopped = decide(connections, server, log, faults);
    // The log may have taken long.
    let now = millis(rt).unwrap_or(now);
    connections.send(now, is_stopped);
    connections.close_late(now);
    tell_losses(connections, server, log, faults);
    server.prune(now);
}

// Writes the lines of lost connections, and counts them.
fn tell_losses<L: Sink, F: Sink>(
    connections: &mut Connections,
    server: &mut Server,
    log: &Records<L>,
    faults: &mut F,
)
    ensures goes { Goes
        (record {
          server = server.old;
          log = L.holds log.now.log;
          faults = writer_of F.holds F.failed faults.old;
        })
        (record {
          server = server.new;
          log = L.holds log.now.log;
          faults = writer_of F.holds F.failed faults.new;
        }) }
{
    let losses = connections.take_losses();
    server.miss_each(losses.unread, EdgeFault::Read, faults);
    server.miss_each(losses.short, EdgeFault::Memory, faults);
    server.part_each(losses.parted);
    server.tally.untaken = server.tally.untaken.saturating_add(losses.unsent);
    tell_each_unsent(losses.unsent, faults);
}

// Decides the requests that are whole, those of the outer socket first, and writes their records.
// Returns whether a fault stopped that, so that more requests may be whole.
fn decide<L: Sink, F: Sink>(
    connections: &mut Connections,
    server: &mut Server,
    log: &mut Records<L>,
    faults: &mut F,
) -> bool
    requires { server.old.fault ≡ None }
    ensures goes { Goes
        (record {
          server = server.old;
          log = L.holds log.old.log;
          faults = writer_of F.holds F.failed faults.old;
        })
        (record {
          server = server.new;
          log = L.holds log.new.log;
          faults = writer_of F.holds F.failed faults.new;
        }) }
{
    let Connections {
        links,
        places,
        inner_places,
        records,
        ..
    } = connections;
    let has_stopped = decide_at(links, places, records, false, server, log, faults);
    decide_at(links, inner_places, records, true, server, log, faults) || has_stopped
}

// Decides the requests at these places, which are those of the inner socket if `is_inner`, and
// writes their records. Returns whether a fault stopped that.
fn decide_at<L: Sink, F: Sink>(
    links: &mut Vec<Link>,
    places: &[usize],
    records: &mut Vec<u8>,
    is_inner: bool,
    server: &mut Server,
    log: &mut Records<L>,
    faults: &mut F,
) -> bool
    requires { server.old.fault ≡ None }
    ensures goes { Goes
        (record {
          server = server.old;
          log = L.holds log.old.log;
          faults = writer_of F.holds F.failed faults.old;
        })
        (record {
          server = server.new;
          log = L.holds log.new.log;
          faults = writer_of F.holds F.failed faults.new;
        }) }
{
    if !are_within(places, links.len()) {
        return false;
    }
    server.is_inner = is_inner;
    match take_turn(server, links, places, records, log) {
        Ok(()) => server.tell(faults),
        Err(_) => {
            let is_stopped = server.tell(faults);
            tell_fault(faults, EdgeFault::Log);
            is_stopped
        }
    }
}

/// Returns the time in milliseconds, since some moment that stays the same.
pub(crate) fn millis<C: Clock>(clock: &C) -> io::Result<u64> {
    let millis = clock.monotonic()?.as_millis();
    Ok(u64::try_from(millis).unwrap_or(u64::MAX))
}

// Returns the clock's moment in whole seconds, brought into the range of moments.
fn moment<C: Clock>(clock: &C) -> io::Result<Moment> {
    let seconds = clock.since_1970()?.as_secs().min(Moment::MAX);
    match Moment::new(seconds) {
        Some(moment) => Ok(moment),
        None => unreachable!("the seconds are at most the greatest moment's"),
    }
}
