//! How a server answers a refresh that is repeated: `Server::ask` finds one.

use tk_handle::Dot;
use tk_message::Request;

/// A request for new tokens by a refresh token.
#[derive(Drop)]
pub(crate) struct Refresh {
    /// The request.
    pub request: Request,
    /// The dot of the refresh token that it sends.
    pub parent: Dot,
}

/// What a request asks of a server that lets refreshes be repeated.
#[derive(Drop)]
pub(crate) enum Asked {
    /// Something else, or more bytes are needed.
    Other,
    /// New tokens by a refresh token.
    Refresh(Refresh),
    /// A reply again, which is this one, and what the request took of the bytes.
    Again(Vec<u8>, Taken),
    /// Memory ran out.
    Short,
}

ghost use Rattle.std.specs.Prelude.{◌≡◌, ◌≢◌, ◌<◌, ℕ, Bool, List, IfOk, IfSome};
ghost use Rattle.tk_edge.specs.declared.reach.Reach.{Reach as AnyReach};
ghost use Rattle.tokend.specs.Decisions.{reach_by};
ghost use Rattle.tokend.specs.Draw.{past_six};
ghost use Rattle.tokend.specs.Repeating as spec;
ghost use Rattle.tokend.specs.Repeats.{IsRefresh, used_in};

use crate::draw::draw;
use crate::repeats::Refreshed;
use crate::server::{Server, copy, outcome_of, paths, reply_over};
use rand_chacha::ChaCha20Rng;
use std::alloc::{AllocError, Global};
use tk_edge::{Arrival, Fault as EdgeFault, Front, Reach, Served, Taken, hear_front};
use tk_grant::is_refresh_request;
use tk_handle::{Handle, Moment};
use tk_message::StatusCode;
use tk_turn::Outcome;

// Reads the refresh at the front of the bytes, if one came.
fn refresh_at(
    alloc: Global,
    reach: Reach,
    input: &[u8],
    is_over: bool,
) -> Result<Option<(Refresh, Taken)>, AllocError>
    ensures { IfOk result (λ o. IfSome o (λ it. IsRefresh reach input.now is_over it.0 it.1)) }
{
    match hear_front(alloc, reach, input, is_over) {
        Ok(Front::Came(came, taken)) => Ok(with_taken(refresh_in(came), taken)),
        Ok(Front::More) => Ok(None),
        Err(error) => Err(error),
    }
}

// Returns the refresh that came, if one did.
fn refresh_in(came: Arrival) -> Option<Refresh>
    ensures { IfSome result (spec.IsRefreshIn came) }
{
    match came {
        Arrival::Request(request) => refresh_of(request),
        Arrival::Silence => None,
        Arrival::Refused(_) => None,
        Arrival::Exchange(_) => None,
        Arrival::Notice(_) => None,
    }
}

// Returns a refresh with what it took of the bytes.
fn with_taken(refresh: Option<Refresh>, taken: Taken) -> Option<(Refresh, Taken)>
    ensures { result ≡ spec.with_taken refresh taken }
{
    match refresh {
        Some(refresh) => Some((refresh, taken)),
        None => None,
    }
}

// Returns the refresh that a request is, if it is one.
fn refresh_of(request: Request) -> Option<Refresh>
    ensures { IfSome result (spec.IsRefreshOf request) }
{
    if !is_refresh_request(&request) {
        return None;
    }
    match used_in(&request) {
        Some(parent) => Some(Refresh { request, parent }),
        None => None,
    }
}

// Returns the dot of the refresh token that a request sends, if it sends one.
fn used_in(request: &Request) -> Option<Dot>
    ensures { result ≡ used_in request.now }
{
    match request.params.value("refresh_token") {
        Some(text) => dot_of(Handle::read(text.as_bytes())),
        None => None,
    }
}

// Returns the dot of a handle.
fn dot_of(handle: Option<Handle>) -> Option<Dot>
    ensures { result ≡ spec.dot_of handle }
{
    match handle {
        Some(handle) => Some(handle.id.dot),
        None => None,
    }
}

impl Server {
    /// Returns what the request at the front of the bytes asks, if refreshes may be repeated.
    pub(crate) fn ask(&self, input: &[u8], is_over: bool) -> Asked
        ensures { spec.IsAsked self.entry.now
            (reach_by self.entry.now.edge.terms self.entry.now.has_inner self.entry.now.is_inner)
            input.now is_over result }
    {
        // Other requests aren't read twice. Empty lines may be in front (RFC 9112, 2.2).
        let head = input.trim_ascii_start();
        if self.repeats.seconds == 0 || !head.starts_with(b"POST /token") {
            return Asked::Other;
        }
        let reach = self.reached();
        match refresh_at(self.alloc, reach, input, is_over) {
            Ok(Some((refresh, taken))) => self.ask_refresh(refresh, taken),
            Ok(None) => Asked::Other,
            Err(_) => Asked::Short,
        }
    }

    // Returns which paths the requests of the socket reach.
    pub(crate) fn reached(&self) -> Reach
        ensures { result ≡ reach_by self.entry.now.edge.terms self.entry.now.has_inner
            self.entry.now.is_inner }
    {
        self.edge.reach(paths(self.has_inner, self.is_inner))
    }

    // Returns what a refresh asks: a reply again, if it repeats one that was granted.
    fn ask_refresh(&self, refresh: Refresh, taken: Taken) -> Asked
        requires { self.now.repeats.seconds ≢ 0 }
        ensures { (reach : AnyReach) (bytes : List ℕ) (over : Bool)
            → IsRefresh reach bytes over refresh taken
            → spec.IsAsked self.entry.now reach bytes over result }
    {
        let found = self
            .repeats
            .find(self.now, refresh.parent, &refresh.request);
        let Some(found) = found else {
            return Asked::Refresh(refresh);
        };
        match self
            .edge
            .repeat(self.alloc, self.now, found.dot, &found.words)
        {
            Ok(Some(reply)) => Asked::Again(reply, taken),
            Ok(None) => Asked::Refresh(refresh),
            Err(_) => Asked::Short,
        }
    }

    /// Gives the reply to a refresh again. `taken` is what its request took of the bytes.
    pub(crate) fn reply_again(
        &mut self,
        reply: &[u8],
        taken: Taken,
        replies: &mut Vec<u8>,
    ) -> Outcome
        requires { 0 < self.old.left }
        ensures { spec.GivesAgain self.old taken reply.now result
            replies.old.items replies.new.items self.new }
    {
        let mark = replies.len();
        if replies.extend_from_slice(reply).is_err() {
            return self.fall_short();
        }
        let outcome = outcome_of(self.keeps, Served::Done(StatusCode::Ok), taken);
        let stays = outcome.goes_on();
        reply_over(stays, replies, mark);
        let next = past(&self.words);
        self.move_on(next, Ok(Served::Done(StatusCode::Ok)), taken.path, stays);
        outcome
    }

    /// Ends a connection, because memory is short.
    pub(crate) fn fall_short(&mut self) -> Outcome
        requires { 0 < self.old.left }
        ensures { spec.FallsShort self.old result self.new }
    {
        let next = past(&self.words);
        self.move_on(next, Err(EdgeFault::Memory), None, false);
        Outcome::Ended
    }

    /// Keeps a refresh that was granted at the moment, so that it may be repeated. `dot` is that of
    /// the fact that was made, and `words` are the random words of the new tokens. A refresh that
    /// minted no refresh token is never repeated, and isn't kept.
    pub(crate) fn keep(
        &mut self,
        refresh: Option<Refresh>,
        served: Served,
        dot: Dot,
        words: &[u64; 6],
    )
        ensures { spec.Keeps self.old refresh served dot words.now self.new }
    {
        let Some(refresh) = refresh else {
            return;
        };
        if !is_granted(served) {
            return;
        }
        if !self.edge.region().minted_refresh(dot) {
            return;
        }
        self.repeats.keep(Refreshed {
            request: refresh.request,
            parent: refresh.parent,
            at: self.now,
            dot,
            words: *words,
        });
    }
}

// Returns whether the request was granted.
fn is_granted(served: Served) -> bool
    ensures { result ≡ spec.is_granted served }
{
    match served {
        Served::Nothing => false,
        Served::Done(status) => is_ok(status),
    }
}

// Returns whether the status is 200.
fn is_ok(status: StatusCode) -> bool
    ensures { result ≡ spec.is_ok status }
{
    matches!(status, StatusCode::Ok)
}

// Returns the generator after its next six words.
fn past(words: &ChaCha20Rng) -> ChaCha20Rng
    ensures { result ≡ past_six words.now }
{
    let mut next = copy(words);
    draw(&mut next);
    next
}
