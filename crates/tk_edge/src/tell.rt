//! Writes the record of a fact, then the reply: `tell`, which may end with a `Fault`.

ghost use Rattle.std.specs.Prelude.{◌≡◌, false};
ghost use Rattle.tk_put.specs.Put.{Prints};
ghost use Rattle.tk_edge.specs.Failures.{CountsFailure};
ghost use Rattle.tk_edge.specs.Told.{IsFaultOfDevice, IsTold, UsesLog};

use crate::answer::Answer;
use crate::device::{Failed, Sink};
use crate::put::put_whole;
use tk_message::StatusCode;

/// Why a connection wasn't served.
#[derive(Clone, Copy, PartialEq, Eq)]
pub enum Fault {
    /// The request couldn't be read. No edge returns it, because an edge reads no device: who reads
    /// the bytes of connections reports by it those that it couldn't read.
    Read,
    /// The reply couldn't be written whole. The fact is added, and its record is in the log, as is
    /// a bundle that was to be logged.
    Write,
    /// The record, or a bundle that was to be logged, couldn't be written whole. The facts are
    /// added, the client got no reply, and the edge is sealed.
    Log,
    /// Memory ran out. There is no reply. The region is unchanged, except that the first facts of a
    /// pushed bundle may be in. The log is unchanged, or has that bundle if bundles are logged.
    Memory,
}

// Writes the record of the fact made, if any, and then the reply. A log that fails seals the edge.
pub(crate) fn tell<W: Sink, L: Sink>(
    answer: &Answer,
    sealed: &mut bool,
    log: &mut L,
    writer: &mut W,
) -> Result<StatusCode, Fault>
    requires { sealed.old ≡ false }
    ensures told { IsTold answer.now (record { before = L.holds log.old; after = L.holds log.new })
        (record { before = W.holds writer.old; after = W.holds writer.new }) sealed.new result }
    ensures log { UsesLog answer.now (log.new ≡ log.old) result }
    ensures faults { IsFaultOfDevice result (L.failed log.old) (L.failed log.new)
        (W.failed writer.old) (W.failed writer.new) }
{
    if let Some(bytes) = &answer.logged {
        if write_record(log, bytes).is_err() {
            *sealed = true;
            return Err(Fault::Log);
        }
    }
    if put_whole(writer, &answer.bytes).is_err() {
        return Err(Fault::Write);
    }
    Ok(answer.status)
}

// Writes a record and flushes it.
pub(crate) fn write_record<L: Sink>(log: &mut L, bytes: &[u8]) -> Result<(), Failed>
    ensures bytes { Prints result (L.holds log.old) (L.holds log.new) bytes.now }
    ensures failures { CountsFailure result (L.failed log.old) (L.failed log.new) }
{
    put_whole(log, bytes)?;
    log.flush()
}
