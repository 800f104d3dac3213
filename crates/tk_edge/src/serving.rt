//! Serves what arrived at an edge: `serve_arrival`, and `serve_front_open` for the front of bytes.
//! `turn_away` writes the reply of a sealed edge.

ghost use Rattle.std.specs.Prelude.{◌≡◌, ◌≢◌, ℕ, true, false, List, Option, None, Err};
ghost use Rattle.tk_edge.specs.Failures.{Rose};
ghost use Rattle.tk_edge.specs.FrontServed.{IsFrontServed};
ghost use Rattle.tk_edge.specs.Heard.{Arrives};
ghost use Rattle.tk_edge.specs.Pushes.{bundle_to_log};
ghost use Rattle.tk_edge.specs.Served.{IsServed, IsTurnedAway, Replies, RepliesTo};
ghost use Rattle.tk_edge.specs.Told.{IsFaultOfDevice};
ghost use Rattle.tk_edge.specs.declared.reach.Reach.{Reach as AnyReach};

use crate::answer::{answer_arrival, refuse};
use crate::device::Sink;
use crate::edge::Served;
use crate::front::{Front, Taken, hear_front};
use crate::hear::Arrival;
use crate::push::{bundle_to_log, take_and_log};
use crate::put::put_whole;
use crate::reach::Reach;
use crate::refusal::Refusal;
use crate::tell::{Fault, tell};
use crate::terms::Terms;
use std::alloc::Global;
use tk_handle::Moment;
use tk_message::StatusCode;
use tk_region::Region;

// Serves the request at the front of bytes that came to an edge that isn't sealed, if it is whole.
pub(crate) fn serve_front_open<L: Sink, W: Sink>(
    alloc: Global,
    reach: Reach,
    region: &mut Region,
    terms: &Terms,
    sealed: &mut bool,
    bytes: &[u8],
    is_over: bool,
    writer: &mut W,
    log: &mut L,
    log_taken: bool,
    now: Moment,
    words: &[u64; 6],
) -> Result<Option<(Served, Taken)>, Fault>
    requires { sealed.old ≡ false }
    ensures served { IsFrontServed
        (record {
          reach = reach;
          terms = terms.now;
          log_taken = log_taken;
          known = None;
          now = now;
          words = words.now;
        })
        bytes.now is_over (record { before = region.old; after = region.new })
        (record { before = L.holds log.old; after = L.holds log.new }) (log.new ≡ log.old)
        (record { before = W.holds writer.old; after = W.holds writer.new }) sealed.new result }
    ensures read { result ≢ Err Fault.Read }
    ensures writer_fault { result ≡ Err Fault.Write
        → Rose (W.failed writer.old) (W.failed writer.new) }
    ensures log_fault { result ≡ Err Fault.Log → Rose (L.failed log.old) (L.failed log.new) }
{
    match hear_front(alloc, reach, bytes, is_over) {
        Ok(Front::More) => Ok(None),
        Ok(Front::Came(came, taken)) => {
            match serve_arrival(
                alloc, region, terms, sealed, log, log_taken, writer, now, words, came,
            ) {
                Ok(served) => Ok(Some((served, taken))),
                Err(fault) => Err(fault),
            }
        }
        Err(_) => Err(Fault::Memory),
    }
}

// Serves what arrived at an edge that isn't sealed.
pub(crate) fn serve_arrival<L: Sink, W: Sink>(
    alloc: Global,
    region: &mut Region,
    terms: &Terms,
    sealed: &mut bool,
    log: &mut L,
    log_taken: bool,
    writer: &mut W,
    now: Moment,
    words: &[u64; 6],
    came: Arrival,
) -> Result<Served, Fault>
    requires { sealed.old ≡ false }
    ensures served { (reach : AnyReach) (known : Option (List ℕ)) → Arrives reach known came
        → IsServed
        (record {
          reach = reach;
          terms = terms.now;
          log_taken = log_taken;
          known = known;
          now = now;
          words = words.now;
        })
        (record { before = region.old; after = region.new })
        (record { before = L.holds log.old; after = L.holds log.new }) (log.new ≡ log.old)
        (record { before = W.holds writer.old; after = W.holds writer.new }) sealed.new result }
    ensures read { result ≢ Err Fault.Read }
    ensures writer_fault { result ≡ Err Fault.Write
        → Rose (W.failed writer.old) (W.failed writer.new) }
    ensures log_fault { result ≡ Err Fault.Log → Rose (L.failed log.old) (L.failed log.new) }
{
    if is_silent(&came) {
        return Ok(Served::Nothing);
    }
    match reply(
        alloc, region, terms, sealed, log, log_taken, writer, now, words, &came,
    ) {
        Ok(status) => Ok(Served::Done(status)),
        Err(fault) => Err(fault),
    }
}

// Returns whether nothing arrived.
fn is_silent(came: &Arrival) -> bool
    ensures silent { result ≡ true → came.now ≡ Arrival.Silence }
    ensures spoke { result ≡ false → came.now ≢ Arrival.Silence }
{
    matches!(came, Arrival::Silence)
}

// Replies to what arrived. A pushed bundle is logged, if taken bundles are.
fn reply<L: Sink, W: Sink>(
    alloc: Global,
    region: &mut Region,
    terms: &Terms,
    sealed: &mut bool,
    log: &mut L,
    log_taken: bool,
    writer: &mut W,
    now: Moment,
    words: &[u64; 6],
    came: &Arrival,
) -> Result<StatusCode, Fault>
    requires { sealed.old ≡ false }
    ensures replies { RepliesTo (bundle_to_log log_taken came.now) terms.now now words.now
        came.now (record { before = region.old; after = region.new })
        (record { before = L.holds log.old; after = L.holds log.new }) (log.new ≡ log.old)
        (record { before = W.holds writer.old; after = W.holds writer.new }) sealed.new result }
    ensures faults { IsFaultOfDevice result (L.failed log.old) (L.failed log.new)
        (W.failed writer.old) (W.failed writer.new) }
{
    match bundle_to_log(log_taken, came) {
        Some(bytes) => take_and_log(alloc, region, sealed, log, writer, terms, now, bytes),
        None => answer_and_tell(alloc, region, terms, sealed, log, writer, now, words, came),
    }
}

// Answers what arrived, and writes the record to the log and the reply to the client.
fn answer_and_tell<L: Sink, W: Sink>(
    alloc: Global,
    region: &mut Region,
    terms: &Terms,
    sealed: &mut bool,
    log: &mut L,
    writer: &mut W,
    now: Moment,
    words: &[u64; 6],
    came: &Arrival,
) -> Result<StatusCode, Fault>
    requires { sealed.old ≡ false }
    ensures replies { Replies terms.now now words.now came.now
        (record { before = region.old; after = region.new })
        (record { before = L.holds log.old; after = L.holds log.new }) (log.new ≡ log.old)
        (record { before = W.holds writer.old; after = W.holds writer.new }) sealed.new result }
    ensures faults { IsFaultOfDevice result (L.failed log.old) (L.failed log.new)
        (W.failed writer.old) (W.failed writer.new) }
{
    let Ok(answer) = answer_arrival(alloc, region, terms, now, words, came) else {
        return Err(Fault::Memory);
    };
    tell(&answer, sealed, log, writer)
}

// Writes the reply of a sealed edge.
pub(crate) fn turn_away<W: Sink>(alloc: Global, writer: &mut W) -> Result<Served, Fault>
    ensures turned_away { IsTurnedAway
        (record { before = W.holds writer.old; after = W.holds writer.new }) result }
    ensures writer_fault { result ≡ Err Fault.Write
        → Rose (W.failed writer.old) (W.failed writer.new) }
{
    let Ok(away) = refuse(alloc, Refusal::Sealed) else {
        return Err(Fault::Memory);
    };
    match put_whole(writer, &away.bytes) {
        Ok(()) => Ok(Served::Done(away.status)),
        Err(_) => Err(Fault::Write),
    }
}
