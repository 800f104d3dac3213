//! Replies to what arrives over a connection, and adds the fact before the reply goes out.
//!
//! `Answer` is the reply in bytes with the record of its fact. `answer_arrival` makes it.

use std::marker::Model;
use tk_message::StatusCode;

/// A reply in bytes, with the record of the fact that was made for it.
///
/// Contracts see the status and the bytes of its parts.
#[derive(Drop)]
pub struct Answer {
    /// The reply's status.
    pub status: StatusCode,
    /// The whole reply: head and body.
    pub bytes: Vec<u8>,
    /// The fact's record: the bundle of that fact alone. `None` if the request made no fact.
    pub logged: Option<Vec<u8>>,
}

impl Model for Answer {
    ghost use Rattle.std.specs.Option.{option_map};
    ghost use Rattle.tk_edge.specs.Told.{AnswerFields};

    ghost Value = { AnswerFields };

    ghost view = { λ a. record {
      status = a.status;
      bytes = a.bytes.items;
      logged = option_map (λ v. v.items) a.logged;
    } };
}

ghost use Rattle.std.specs.Prelude.{◌≡◌, IfOk, IfSome, None, OnOk};
ghost use Rattle.std.specs.Option.{option_copied};
ghost use Rattle.tk_fact.specs.Check.{refusal_of};
ghost use Rattle.tk_region.specs.Step.{IsNextFact};
ghost use Rattle.tk_edge.specs.Answers as spec;
ghost use Rattle.tk_edge.specs.Arrivals.{Answers};
ghost use Rattle.tk_edge.specs.Issuer as issuers;

use crate::exchange::answer_exchange;
use crate::hear::Arrival;
use crate::issuer::{Issuer, with_iss};
use crate::notice::answer_notice;
use crate::refusal::Refusal;
use crate::render::render;
use crate::terms::Terms;
use std::alloc::{AllocError, Global};
use tk_fact::Fact;
use tk_handle::Moment;
use tk_message::{JsonReply, Reply, Request};
use tk_region::{Prepared, Region};

// Replies to an arrival by the terms. `now` is the current moment, and `words` are the random words
// for new handles. If memory runs out, the region is unchanged, except that
// the first facts of a pushed bundle may be in.
pub(crate) fn answer_arrival(
    alloc: Global,
    region: &mut Region,
    terms: &Terms,
    now: Moment,
    words: &[u64; 6],
    came: &Arrival,
) -> Result<Answer, AllocError>
    ensures answers { Answers terms.now region.old now words.now came.now result region.new }

    // The record of the fact, if one was made, can be read.
    ensures recorded { OnOk result
        (IfSome (spec.fact_by region.old now words.now came.now) spec.IsRecorded) }
{
    match came {
        Arrival::Silence => Ok(silent(alloc)),
        Arrival::Refused(why) => refuse(alloc, *why),
        Arrival::Request(request) => answer_request(alloc, region, terms, now, words, request),
        Arrival::Exchange(exchange) => answer_exchange(alloc, region, terms, now, exchange),
        Arrival::Notice(notice) => answer_notice(alloc, region, terms, now, *notice),
    }
}

// Returns the empty reply to an empty stream: status 400 and no bytes.
fn silent(alloc: Global) -> Answer
    ensures { result ≡ spec.silent }
{
    Answer {
        status: StatusCode::BadRequest,
        bytes: Vec::new(alloc),
        logged: None,
    }
}

// Returns the reply to a request that the region doesn't see.
pub(crate) fn refuse(alloc: Global, why: Refusal) -> Result<Answer, AllocError>
    ensures { IfOk result (λ answer. answer ≡ spec.refused_by why) }
{
    let reply = JsonReply::Error(why.code()).reply(alloc)?;
    answer_with(alloc, &reply, why.allowed())
}

// Replies to a request for the region.
fn answer_request(
    alloc: Global,
    region: &mut Region,
    terms: &Terms,
    now: Moment,
    words: &[u64; 6],
    request: &Request,
) -> Result<Answer, AllocError>
    ensures answers { spec.AnswersBy region.old
        (spec.answer_at terms.now region.old now words.now (Arrival.Request request.now))
        (spec.fact_by region.old now words.now (Arrival.Request request.now)) result region.new }
    ensures recorded { OnOk result (IfSome
        (spec.fact_by region.old now words.now (Arrival.Request request.now)) spec.IsRecorded) }
{
    let prepared = region.decide(alloc, now, words, request)?;
    match &prepared.fact {
        Some(fact) => has_record(fact),
        None => {}
    }
    send(alloc, region, &terms.issuer, prepared)
}

// Gives a proof the fact that the record of a fact that passes its check can be read.
fn has_record(fact: &Fact)
    requires { refusal_of fact.now.1 ≡ None }
    ensures { spec.IsRecorded fact.now }
{
    fact.known();
}

// Makes the answer, then adds the fact. No fact is added if memory runs out for its reply, which
// names the issuer, if there is one and the reply is a redirect.
fn send(
    alloc: Global,
    region: &mut Region,
    issuer: &Option<Issuer>,
    prepared: Prepared,
) -> Result<Answer, AllocError>
    requires { IfSome prepared.fact (IsNextFact region.old) }
    ensures { spec.AnswersBy region.old
        (spec.rendered (issuers.with_iss issuer.now prepared.reply) None prepared.logged)
        prepared.fact result region.new }
{
    let prepared = naming(issuer, prepared)?;
    match render(alloc, &prepared.reply, None) {
        Ok(bytes) => commit(region, prepared, bytes),
        Err(error) => {
            drop(prepared);
            Err(error)
        }
    }
}

// Returns what was prepared, with a reply that names the issuer, if there is one and the reply is a
// redirect.
fn naming(issuer: &Option<Issuer>, prepared: Prepared) -> Result<Prepared, AllocError>
    ensures { IfOk result (λ p. p ≡ record {
      reply = issuers.with_iss issuer.now prepared.reply;
      fact = prepared.fact;
      logged = prepared.logged;
    }) }
{
    let Prepared {
        reply,
        fact,
        logged,
    } = prepared;
    let reply = with_iss(issuer, reply)?;
    Ok(Prepared {
        reply,
        fact,
        logged,
    })
}

// Adds the fact of a rendered reply, whose answer is made before. `bytes` is that reply.
fn commit(region: &mut Region, prepared: Prepared, bytes: Vec<u8>) -> Result<Answer, AllocError>
    requires { IfSome prepared.fact (IsNextFact region.old) }
    ensures { spec.AnswersBy region.old
        (spec.told_by prepared.reply.status bytes.items prepared.logged) prepared.fact result
        region.new }
{
    let Prepared {
        reply,
        fact,
        logged,
    } = prepared;
    let answer = Answer {
        status: reply.status,
        bytes,
        logged,
    };
    let prepared = Prepared {
        reply,
        fact,
        logged: None,
    };
    match region.commit(prepared) {
        Ok(_) => Ok(answer),
        Err(error) => Err(error),
    }
}

// Returns the answer to a request that makes no fact. `allowed` is the value of `Allow`, if the
// answer has one.
pub(crate) fn answer_with(
    alloc: Global,
    reply: &Reply,
    allowed: Option<&[u8]>,
) -> Result<Answer, AllocError>
    ensures { IfOk result (λ answer. answer
        ≡ spec.rendered reply.now (option_copied allowed.entry) None) }
{
    let bytes = render(alloc, reply, allowed)?;
    Ok(Answer {
        status: reply.status,
        bytes,
        logged: None,
    })
}
