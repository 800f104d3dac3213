//! The edge: a region behind its connections.
//!
//! `Edge::answer` takes a request as bytes, and `Edge::serve_front` serves the front of the bytes
//! that have come over a connection.

use std::marker::Model;
use tk_region::Region;

/// A region behind its connections.
///
/// Which paths are served is an argument of each request, since it depends on the connection. If
/// all are, other regions request the region's vector, pull pages of what they lack and push
/// bundles.
///
/// An edge is sealed once its log has failed, because facts that it made later might be lost.
/// Contracts see the region, the terms, and whether the edge is sealed.
#[derive(Drop)]
pub struct Edge {
    region: Region,
    terms: Terms,
    sealed: bool,
}

impl Model for Edge {
    ghost use Rattle.tk_edge.specs.EdgeFields.{EdgeFields, coded_edge};

    ghost Value = { EdgeFields };

    ghost coded = { coded_edge };

    ghost view = { λ e. record {
      region = e.region;
      terms = e.terms;
      sealed = e.sealed;
    } };
}

/// How a connection ended without a fault.
#[derive(Clone, Copy, PartialEq, Eq)]
pub enum Served {
    /// The stream ended before its first byte. Nothing was written.
    Nothing,
    /// The reply with this status was written.
    Done(StatusCode),
}

ghost use Rattle.std.specs.Prelude.{◌≡◌, ◌≢◌, true, false, None, Some, Err};
ghost use Rattle.std.specs.Prelude.{IfOk, OnOk, OnErr};
ghost use Rattle.std.specs.Borrow.{Lends, sem};
ghost use Rattle.std.specs.Option.{option_map};
ghost use Rattle.tk_region.specs.contracts.region.Region.{the_row as region_row};
ghost use Rattle.tk_edge.specs.Answers.{refused_by};
ghost use Rattle.tk_edge.specs.Arrivals.{Answers, IsShort};
ghost use Rattle.tk_edge.specs.EdgeFields.{reach_of};
ghost use Rattle.tk_edge.specs.Failures.{Rose};
ghost use Rattle.tk_edge.specs.FrontServed.{IsFrontServed, IsFrontTurnedAway};
ghost use Rattle.tk_edge.specs.Heard.{IsArrival, MayArrive};
ghost use Rattle.tk_edge.specs.contracts.edge.Edge.{the_row as edge_row};
ghost use Rattle.tk_edge.specs.declared.hear.Arrival.{Arrival as AnyArrival};

use crate::answer::{Answer, answer_arrival, refuse};
use crate::device::Sink;
use crate::front::{Front, Taken, ending, hear_front};
use crate::hear::Arrival;
use crate::reach::{PathSet, Reach};
use crate::refusal::Refusal;
use crate::serving::{serve_arrival, serve_front_open, turn_away};
use crate::tell::Fault;
use crate::terms::Terms;
use std::alloc::{AllocError, Global};
use tk_handle::Moment;
use tk_message::StatusCode;

impl Edge {
    /// Returns an edge that isn't sealed, over this region.
    ///
    /// A pushed bundle that the terms refuse is not taken in: the reply is 409 `horizon_ahead` or
    /// `out_of_range`, nothing is logged, and the region is unchanged. The region takes each other
    /// bundle in, or refuses it.
    pub fn new(region: Region, terms: Terms) -> Edge
        ensures { result ≡ record {
          region = region;
          terms = terms;
          sealed = false;
        } }
    {
        Edge {
            region,
            terms,
            sealed: false,
        }
    }

    /// Returns the edge's region.
    pub fn region(&self) -> &Region
        ensures { result.now ≡ self.now.region }
    {
        &self.region
    }

    /// Returns the edge's region mutably, to take bundles in.
    pub fn region_mut(&mut self) -> &mut Region
        ensures* writes_back { sem 𝓛 (Lends edge_row region_row self.entry result
            (λ region. record {
              region = region;
              terms = self.entry.now.terms;
              sealed = self.entry.now.sealed;
            })) }
        ensures value { result.now ≡ self.old.region }
    {
        &mut self.region
    }

    /// Returns the reach of these paths, with the notices that the terms give.
    pub fn reach(&self, paths: PathSet) -> Reach
        ensures { result ≡ reach_of self.now.terms paths }
    {
        Reach {
            paths,
            discovery: self.terms.issuer.is_some(),
            health: self.terms.health,
            metrics: self.terms.metrics.is_some(),
        }
    }

    /// Replaces the text that GET /metrics shows. With `None` its path is unknown.
    ///
    /// The text is shown over connections that reach the paths of operators. A sealed edge replies
    /// 503 temporarily_unavailable, as to each request.
    pub fn set_metrics(&mut self, text: Option<Vec<u8>>)
        ensures { self.new ≡ record self.old {
          terms = record self.old.terms { metrics = option_map (λ v. v.items) text };
        } }
    {
        self.terms.metrics = text;
    }

    /// Returns whether the edge is sealed: its log has failed.
    pub fn sealed(&self) -> bool
        ensures { result ≡ self.now.sealed }
    {
        self.sealed
    }

    /// Seals the edge, because its log has failed.
    pub fn seal(&mut self)
        ensures { self.new ≡ record self.old { sealed = true } }
    {
        self.sealed = true;
    }

    /// Handles one request, given as the bytes of a stream that then ends.
    ///
    /// `reach` is which paths are served, `now` the current moment, and `words` the random words
    /// for new handles. The fact made for the reply, if any, is already added. A sealed edge
    /// replies 503 temporarily_unavailable and makes no fact. An empty request gets the status 400
    /// and no bytes.
    ///
    /// # Errors
    ///
    /// `AllocError` if memory runs out. The region is then unchanged, except that the first facts
    /// of a pushed bundle may be in.
    pub fn answer(
        &mut self,
        alloc: Global,
        reach: Reach,
        now: Moment,
        words: &[u64; 6],
        bytes: &[u8],
    ) -> Result<Answer, AllocError>
        ensures answers { self.old.sealed ≡ false
            → OnOk result ((came : AnyArrival) × IsArrival reach bytes.now came
            × Answers self.old.terms self.old.region now words.now came result
            self.new.region) }
        ensures away { self.old.sealed ≡ true
            → IfOk result (λ answer. answer ≡ refused_by Refusal.Sealed) }
        ensures untouched { self.old.sealed ≡ true → self.new ≡ self.old }
        ensures sealed { self.new.sealed ≡ self.old.sealed }
        ensures terms { self.new.terms ≡ self.old.terms }
        ensures err { OnErr result
            (IsShort reach self.old.terms now (Some bytes.now) self.old.region
            self.new.region) }
    {
        if self.sealed {
            return refuse(alloc, Refusal::Sealed);
        }
        let came = hear_whole(alloc, reach, bytes)?;
        answer_arrival(alloc, &mut self.region, &self.terms, now, words, &came)
    }

    /// Serves the request at the front of the bytes that have come over a connection, if that
    /// request is whole: logs its record and writes the reply, in this order. Returns how serving
    /// it ended, and what it took of the bytes.
    ///
    /// `reach` is which paths are served over the connection. `is_over` is whether the client has
    /// ended its side, so that no more bytes follow. The reply is that of [`Edge::answer`] to a
    /// stream that begins with the bytes, whatever follows them. If no request is whole, the result
    /// is `None`: nothing is changed or written, and more bytes are needed. A sealed edge takes all
    /// bytes, and writes the reply 503 temporarily_unavailable.
    ///
    /// The record of a fact is written to the log and flushed before the first byte of the reply.
    /// If `log_taken` is true, so is the record of a pushed bundle that changes the region: the
    /// bundle without the facts at skipped dots. The log isn't called without a record.
    ///
    /// Each reply says `Connection: close`. If the connection may stay, [`keep_open`] takes that
    /// line out.
    ///
    /// # Errors
    ///
    /// - [`Fault::Memory`] if memory runs out. The client gets nothing, and the region is as after
    ///   an error of [`Edge::answer`]. The log is unchanged, or, if `log_taken` is true, has the
    ///   pushed bundle whose facts may be in.
    /// - [`Fault::Log`] if the log fails. The log has a beginning of the record, the client gets
    ///   nothing, and the edge is sealed. The facts are in the region.
    /// - [`Fault::Write`] if the client's sink fails. The client has a beginning of the reply. The
    ///   facts are in the region, and the log has the record.
    pub fn serve_front<L: Sink, W: Sink>(
        &mut self,
        alloc: Global,
        reach: Reach,
        bytes: &[u8],
        is_over: bool,
        writer: &mut W,
        log: &mut L,
        log_taken: bool,
        now: Moment,
        words: &[u64; 6],
    ) -> Result<Option<(Served, Taken)>, Fault>
        ensures terms { self.new.terms ≡ self.old.terms }

        ensures served { self.old.sealed ≡ false → IsFrontServed
            (record {
              reach = reach;
              terms = self.old.terms;
              log_taken = log_taken;
              known = None;
              now = now;
              words = words.now;
            })
            bytes.now is_over (record { before = self.old.region; after = self.new.region })
            (record { before = L.holds log.old; after = L.holds log.new }) (log.new ≡ log.old)
            (record { before = W.holds writer.old; after = W.holds writer.new }) self.new.sealed
            result }
        ensures turned_away { self.old.sealed ≡ true → IsFrontTurnedAway bytes.now
            (record { before = W.holds writer.old; after = W.holds writer.new }) result }
        ensures untouched { self.old.sealed ≡ true → (self.new ≡ self.old) × (log.new ≡ log.old) }

        // No device is read, and a fault of a device is returned only if that device failed.
        ensures read { result ≢ Err Fault.Read }
        ensures writer_fault { result ≡ Err Fault.Write
            → Rose (W.failed writer.old) (W.failed writer.new) }
        ensures log_fault { result ≡ Err Fault.Log → Rose (L.failed log.old) (L.failed log.new) }
    {
        if self.sealed {
            return match turn_away(alloc, writer) {
                Ok(served) => Ok(Some((served, ending(bytes.len())))),
                Err(fault) => Err(fault),
            };
        }
        serve_front_open(
            alloc,
            reach,
            &mut self.region,
            &self.terms,
            &mut self.sealed,
            bytes,
            is_over,
            writer,
            log,
            log_taken,
            now,
            words,
        )
    }
}

// Reads a request from the bytes of a stream that then ends.
fn hear_whole(alloc: Global, reach: Reach, bytes: &[u8]) -> Result<Arrival, AllocError>
    ensures came { IfOk result (IsArrival reach bytes.now) }
    ensures may { IfOk result (MayArrive reach) }
{
    match hear_front(alloc, reach, bytes, true) {
        Ok(Front::Came(came, _)) => Ok(came),
        Ok(Front::More) => unreachable!("more bytes are needed only if some may follow"),
        Err(error) => Err(error),
    }
}
