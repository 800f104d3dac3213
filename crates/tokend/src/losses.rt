//! How connections ended without a reply: `Losses`, and the lines about that.

/// How many connections ended in each way since the last report.
#[derive(Clone, Copy)]
pub(crate) struct Losses {
    /// How many ended before a request was whole, or weren't accepted.
    pub unread: u64,
    /// How many ended because there was no memory for their bytes.
    pub short: u64,
    /// How many replies weren't taken by their clients.
    pub unsent: u64,
    /// How many kept connections ended behind their last replies.
    pub parted: u64,
}

/// No connection ended.
pub(crate) const NO_LOSS: Losses = Losses {
    unread: 0,
    short: 0,
    unsent: 0,
    parted: 0,
};

ghost use Rattle.std.specs.Prelude.{ℕ, List, Option};
ghost use Rattle.tokend.specs.Serving.{connection_fault};
ghost use Rattle.tokend.specs.Telling.{Writes, writer_of};
ghost use Rattle.tokend.specs.Turns.{Goes};
ghost use Rattle.tokend.specs.declared.server.Server.{Server as AnyServer};

use crate::telling::say;
use tk_edge::{Fault as EdgeFault, Sink};

/// Writes the line of a lost reply `count` times.
pub(crate) fn tell_each_unsent<F: Sink>(count: u64, faults: &mut F)
    ensures { (server : AnyServer) (log : Option (List ℕ)) → Goes
        (record {
          server = server;
          log = log;
          faults = writer_of F.holds F.failed faults.old;
        })
        (record {
          server = server;
          log = log;
          faults = writer_of F.holds F.failed faults.new;
        }) }
{
    for _ in 0..count {
        tell_fault(faults, EdgeFault::Write);
    }
}

/// Writes the line of a connection's fault. If the writer fails, it has the beginning of the line.
pub(crate) fn tell_fault<F: Sink>(faults: &mut F, fault: EdgeFault)
    ensures { Writes (writer_of F.holds F.failed faults.old) (writer_of F.holds F.failed faults.new)
        (connection_fault fault) }
{
    match fault {
        EdgeFault::Read => say(faults, &[b"fault read\n"]),
        EdgeFault::Write => say(faults, &[b"fault write\n"]),
        EdgeFault::Log => say(faults, &[b"fault log\n"]),
        EdgeFault::Memory => say(faults, &[b"fault memory\n"]),
    }
}
