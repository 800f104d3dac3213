//! The exchange of facts between regions: `Exchange` is a request for a vector, a page, or to take
//! a bundle in.
//!
//! `answer_exchange` replies to an exchange.

use crate::pull::Pages;
use std::marker::Model;

/// A request of another region (own).
#[derive(Drop)]
pub enum Exchange {
    /// For the region's vector.
    Vector,
    /// For the page above a cursor of the facts that a vector does not cover, plain or with runs.
    Pull(Pages, Sent),
    /// To take a bundle in.
    Push(Sent),
}

/// The bytes of a body, which may be hostile.
#[derive(Drop)]
pub struct Sent {
    bytes: Vec<u8>,
}

impl Model for Sent {
    ghost use Rattle.std.specs.Prelude.{List, ℕ};

    ghost Value = { List ℕ };

    ghost view = { λ s. s.bytes.items };
}

ghost use Rattle.std.specs.Prelude.{◌≡◌, IfOk, None};
ghost use Rattle.tk_format.specs.Format.{whole};
ghost use Rattle.tk_bundle.specs.Page.{IsPageOf};
ghost use Rattle.tk_edge.specs.Answers.{rendered};
ghost use Rattle.tk_edge.specs.Exchanges as spec;
ghost use Rattle.tk_edge.specs.Pulls.{wanted};

use crate::ahead::PushError;
use crate::answer::{Answer, answer_with};
use crate::pull::{Wanted, read_wanted};
use crate::push::take_pushed;
use crate::terms::Terms;
use std::alloc::{AllocError, Global};
use tk_bundle::Page;
use tk_format::ReadError;
use tk_handle::Moment;
use tk_message::{ErrorCode, JsonReply, Reply, bytes_reply};
use tk_region::{Region, TakeError};

impl Sent {
    // Wraps a body.
    pub(crate) fn new(bytes: Vec<u8>) -> Sent
        ensures { result ≡ bytes.items }
    {
        Sent { bytes }
    }

    pub(crate) fn bytes(&self) -> &[u8]
        ensures { result.now ≡ self.now }
    {
        &self.bytes
    }
}

// Replies to another region. A pushed bundle is refused if the terms refuse it at the moment. If
// memory runs out, the first facts of a pushed bundle may be in.
pub(crate) fn answer_exchange(
    alloc: Global,
    region: &mut Region,
    terms: &Terms,
    now: Moment,
    exchange: &Exchange,
) -> Result<Answer, AllocError>
    ensures { spec.Exchanges terms.now now region.old exchange.now result region.new }
{
    match exchange {
        Exchange::Vector => tell_vector(alloc, region),
        Exchange::Pull(pages, sent) => send_page(alloc, region, *pages, sent.bytes()),
        Exchange::Push(sent) => take_bundle(alloc, region, terms, now, sent.bytes()),
    }
}

// Replies with the region's front, in bytes.
fn tell_vector(alloc: Global, region: &Region) -> Result<Answer, AllocError>
    ensures { IfOk result (spec.TellsVector region.now.facts.slots) }
{
    let vector = region.vector(alloc)?;
    let bytes = vector.write(alloc)?;
    answer_with(alloc, &bytes_reply(bytes), None)
}

// Replies with the page that a pull requests.
fn send_page(
    alloc: Global,
    region: &Region,
    pages: Pages,
    bytes: &[u8],
) -> Result<Answer, AllocError>
    ensures { IfOk result (λ answer. answer
        ≡ rendered (spec.page_reply pages region.now.facts (whole wanted bytes.now)) None
        None) }
{
    let reply = page_reply(alloc, region, pages, bytes)?;
    answer_with(alloc, &reply, None)
}

// Returns the page that a pull requests, or the error for bytes that are no pull.
fn page_reply(
    alloc: Global,
    region: &Region,
    pages: Pages,
    bytes: &[u8],
) -> Result<Reply, AllocError>
    ensures { IfOk result (λ reply. reply
        ≡ spec.page_reply pages region.now.facts (whole wanted bytes.now)) }
{
    match read_wanted(alloc, bytes) {
        Ok(wanted) => {
            let page = page_for(alloc, region, pages, &wanted)?;
            Ok(bytes_reply(page.bytes))
        }
        Err(error) => refuse_by(alloc, unread_code(error)),
    }
}

// Makes the page that a pull requests.
fn page_for(
    alloc: Global,
    region: &Region,
    pages: Pages,
    wanted: &Wanted,
) -> Result<Page, AllocError>
    ensures { IfOk result (λ page. IsPageOf page
        (spec.page_for pages region.now.facts wanted.now)) }
{
    match pages {
        Pages::Plain => region.page(alloc, &wanted.vector, wanted.after),
        Pages::WithRuns => region.page_with_runs(alloc, &wanted.vector, wanted.after),
    }
}

// Returns the reply for the error of this name. No name means that memory ran out.
fn refuse_by(alloc: Global, name: Option<ErrorCode>) -> Result<Reply, AllocError>
    ensures { IfOk result (spec.IsErrorReply name) }
{
    match name {
        Some(name) => JsonReply::Error(name).reply(alloc),
        None => Err(AllocError),
    }
}

// The name of the error for bytes that can't be read. Out of memory has no name.
fn unread_code(error: ReadError) -> Option<ErrorCode>
    ensures { result ≡ spec.unread_code error }
{
    match error {
        ReadError::Malformed => Some(ErrorCode::Malformed),
        ReadError::Memory => None,
    }
}

// The name of the error for a bundle that isn't taken in. Out of memory has no name.
fn refusal_code(error: PushError) -> Option<ErrorCode>
    ensures { result ≡ spec.refusal_code error }
{
    match error {
        PushError::Take(TakeError::Malformed) => Some(ErrorCode::Malformed),
        PushError::HorizonAhead => Some(ErrorCode::HorizonAhead),
        PushError::OutOfRange => Some(ErrorCode::OutOfRange),
        PushError::Take(TakeError::OwnNumber) => Some(ErrorCode::OwnNumber),
        PushError::Take(TakeError::Conflict) => Some(ErrorCode::Conflict),
        PushError::Take(TakeError::Memory) => None,
    }
}

// Takes a pushed bundle in, and replies with the number of new facts or the reason of a refusal.
fn take_bundle(
    alloc: Global,
    region: &mut Region,
    terms: &Terms,
    now: Moment,
    bytes: &[u8],
) -> Result<Answer, AllocError>
    ensures { spec.TakesAndTells terms.now now region.old bytes.now result region.new }
{
    let taken = take_pushed(alloc, region, terms, now, bytes);
    let reply = taken_answer(alloc, taken)?;
    answer_with(alloc, &reply, None)
}

// Returns the reply to a push, by its result. Memory that ran out while taking in gets no reply.
pub(crate) fn taken_answer(
    alloc: Global,
    taken: Result<u16, PushError>,
) -> Result<Reply, AllocError>
    ensures { IfOk result (spec.IsTakenReply taken) }
{
    match taken {
        Ok(count) => JsonReply::Taken(count).reply(alloc),
        Err(error) => refuse_by(alloc, refusal_code(error)),
    }
}
