//! What the front of a connection's bytes means while more may follow: `hear_front`.

use crate::hear::Arrival;

/// The most bytes of a request's head.
pub(crate) const MAX_HEAD: usize = 8_192;

/// What was taken of the bytes of a connection.
#[derive(Clone, Copy)]
pub struct Taken {
    /// How many bytes were taken: those of one request, or all.
    pub size: usize,
    /// Whether the connection may stay open behind the reply (RFC 9112, 9.3).
    pub stays: bool,
    /// The path that the request names, if it is reached (RFC 9112, 3.2). A refused request has it
    /// too, if its head came.
    pub path: Option<Path>,
}

/// What the front of the bytes of a connection is.
#[derive(Drop)]
pub enum Front {
    /// No request is whole, and more bytes may follow: they are needed.
    More,
    /// What arrived, and what was taken of the bytes. The meaning is the same whatever follows.
    Came(Arrival, Taken),
}

ghost use Rattle.std.specs.Prelude.{◌≡◌, ◌++◌, ◌+◌, ◌^◌, ◌<◌, ◌≤◌, ℕ, List, [], length, drop};
ghost use Rattle.std.specs.Prelude.{IfOk, None, false};
ghost use Rattle.httparse.specs.Grammar.{RequestHead, HasNoRequest};
ghost use Rattle.httparse.specs.Spans.{IsRequestAt, IsRequestWithin};
ghost use Rattle.tk_params.specs.Params.{Pairs};
ghost use Rattle.tk_edge.specs.Bounds.{request_limit};
ghost use Rattle.tk_edge.specs.Fronts.{IsFewer, IsFront, IsFrontBy, IsOneRequest, IsTakenWithin};
ghost use Rattle.tk_edge.specs.Fronts.{MayComeBy, NamesIn, TakesIn, front_of};
ghost use Rattle.tk_edge.specs.HeadFields.{AreFields};
ghost use Rattle.tk_edge.specs.Heads.{head_limit};
ghost use Rattle.tk_edge.specs.Heard as spec;
ghost use Rattle.tk_edge.specs.Judged.{MayPost};
ghost use Rattle.tk_edge.specs.Paths.{path_named, path_of};
ghost use Rattle.tk_edge.specs.declared.judge.Judged.TheVariants.{Body};
ghost use Rattle.tk_edge.specs.declared.reach.Reach.{Reach as AnyReach};

use crate::exchange::Exchange;
use crate::field::{Fields, fields_of};
use crate::hear::{asked, posted_to};
use crate::judge::{Judged, judge};
use crate::path::{Path, Posted, path_named, split_target};
use crate::reach::Reach;
use crate::refusal::Refusal;
use crate::staying::stays_by;
use httparse::Status;
use httparse::spans::{EMPTY_HEADER_SPAN, HeaderSpan, RequestSpans, parse_request};
use std::alloc::{AllocError, Global};

/// Reads the request at the front of the bytes that have come over a connection, without a copy of
/// its head.
///
/// `reach` is which paths are served over the connection. `is_over` is whether the client has ended
/// its side, so that no more bytes follow. Returns [`Front::More`] if no request is whole, and
/// otherwise what arrived, which no further bytes can change. A refusal takes all bytes. Any other
/// arrival takes those of its request: a head of at most 8,192 bytes and 64 fields, and the body
/// that its length names (RFC 9112, 6.3). Nothing is served.
///
/// # Errors
///
/// `AllocError` if memory runs out.
pub fn hear_front(
    alloc: Global,
    reach: Reach,
    bytes: &[u8],
    is_over: bool,
) -> Result<Front, AllocError>
    ensures { IfOk result (IsFront reach bytes.now is_over) }
{
    if bytes.is_empty() {
        return Ok(nothing_front(is_over));
    }
    let mut headers = [EMPTY_HEADER_SPAN; 64];
    match parse_request(bytes, &mut headers) {
        Ok(Status::Complete(spans)) => {
            if spans.len > MAX_HEAD {
                return Ok(headless_front(bytes));
            }
            head_front(alloc, reach, bytes, is_over, &headers, spans)
        }
        Ok(Status::Partial) => Ok(partial_front(bytes, is_over)),
        Err(_) => Ok(headless_front(bytes)),
    }
}

// Returns the front of no bytes.
fn nothing_front(is_over: bool) -> Front
    ensures { (reach : AnyReach) → IsFront reach [] is_over result }
{
    if is_over {
        Front::Came(Arrival::Silence, ending(0))
    } else {
        Front::More
    }
}

// Returns the front of bytes that have no whole head.
fn partial_front(bytes: &[u8], is_over: bool) -> Front
    requires some { 0 < length bytes.now }
    requires none { HasNoRequest bytes.now }
    ensures { (reach : AnyReach) → IsFront reach bytes.now is_over result }
{
    if is_over {
        return headless_front(bytes);
    }
    if bytes.len() < MAX_HEAD {
        return Front::More;
    }
    headless_front(bytes)
}

// Returns the front of bytes that can't become a head.
fn headless_front(bytes: &[u8]) -> Front
    ensures { result ≡ Front.Came (Arrival.Refused Refusal.NoHead)
        (record { size = length bytes.now; stays = false; path = None }) }
{
    Front::Came(Arrival::Refused(Refusal::NoHead), ending(bytes.len()))
}

// Returns what was taken of a connection that ends, and names no path: this many bytes.
pub(crate) fn ending(size: usize) -> Taken
    ensures { result ≡ record { size = size; stays = false; path = None } }
{
    Taken {
        size,
        stays: false,
        path: None,
    }
}

// Returns the front of bytes that begin with a head.
fn head_front(
    alloc: Global,
    reach: Reach,
    bytes: &[u8],
    is_over: bool,
    headers: &[HeaderSpan],
    spans: RequestSpans,
) -> Result<Front, AllocError>
    requires within { IsRequestWithin bytes.now headers.now spans }
    requires short { spans.len ≤ head_limit }
    ensures came { (h : RequestHead) → IsRequestAt bytes.now headers.now spans h
        → IfOk result (IsFrontBy is_over
        (λ tail. spec.arrival_of reach h (drop spans.len bytes.now ++ tail))) }
    ensures within { IfOk result (IsTakenWithin (length bytes.now)) }
    ensures takes { (h : RequestHead) → IsRequestAt bytes.now headers.now spans h
        → IfOk result (TakesIn reach bytes.now) }
    ensures fewer { IfOk result (IsFewer (length bytes.now) (request_limit reach)) }
    ensures may { IfOk result (MayComeBy reach) }
    ensures names { (h : RequestHead) → IsRequestAt bytes.now headers.now spans h
        → IfOk result (NamesIn (path_named reach (path_of h.target))) }
{
    let fields = fields_of(bytes, &headers[..spans.headers]);
    let method = spans.method.of(bytes);
    let target = spans.path.of(bytes);
    let judged = judge(reach, method, target, &fields);
    let path = path_named(reach, split_target(target).0);
    let head = Taken {
        size: spans.len,
        stays: stays_by(spans.version, &fields, &judged),
        path,
    };
    match judged {
        Judged::Refused(why) => Ok(refused_front(why, bytes.len(), path)),
        Judged::Query(endpoint) => {
            let query = split_target(target).1;
            whole_front(asked(alloc, endpoint, query, &fields), head)
        }
        Judged::Vector => Ok(Front::Came(Arrival::Exchange(Exchange::Vector), head)),
        Judged::Notice(notice) => Ok(Front::Came(Arrival::Notice(notice), head)),
        Judged::Body(posted, size) => {
            let rest = &bytes[spans.len..];
            body_front(alloc, posted, size as usize, head, rest, is_over, &fields)
        }
    }
}

// Returns the front of a request that names this path and is refused: all bytes are taken.
fn refused_front(why: Refusal, size: usize, path: Option<Path>) -> Front
    ensures { result ≡ Front.Came (Arrival.Refused why)
        (record { size = size; stays = false; path = path }) }
{
    let all = Taken {
        size,
        stays: false,
        path,
    };
    Front::Came(Arrival::Refused(why), all)
}

// Returns the front of a whole request, if there was memory for it.
fn whole_front(came: Result<Arrival, AllocError>, taken: Taken) -> Result<Front, AllocError>
    ensures { result ≡ front_of came taken }
{
    match came {
        Ok(came) => Ok(Front::Came(came, taken)),
        Err(error) => Err(error),
    }
}

// Returns the front of a body of this size. `head` is what was taken by its head, and `rest` has
// the bytes behind that.
fn body_front(
    alloc: Global,
    posted: Posted,
    size: usize,
    head: Taken,
    rest: &[u8],
    is_over: bool,
    fields: &Fields<'_>,
) -> Result<Front, AllocError>
    requires { head.size + length rest.now < 2 ^ 64 }
    ensures came { (target : List ℕ) (pairs : Pairs) → AreFields fields.now pairs
        → IfOk result (IsFrontBy is_over
        (λ tail. spec.arrival_by target pairs (rest.now ++ tail) (Body posted size))) }
    ensures within { IfOk result (IsTakenWithin (head.size + length rest.now)) }
    ensures takes { (reach : AnyReach) (bytes : List ℕ) (pairs : Pairs) → AreFields fields.now pairs
        → length bytes ≡ head.size + length rest.now
        → IsOneRequest reach bytes
        (record { size = head.size + size; stays = head.stays; path = head.path })
        → IfOk result (TakesIn reach bytes) }
    ensures fewer { IfOk result (IsFewer (head.size + length rest.now) (head.size + size)) }
    ensures may { (reach : AnyReach) → MayPost reach posted → IfOk result (MayComeBy reach) }
    ensures names { IfOk result (NamesIn head.path) }
{
    if size <= rest.len() {
        let taken = Taken {
            size: head.size + size,
            stays: head.stays,
            path: head.path,
        };
        return whole_front(posted_to(alloc, posted, &rest[..size], fields), taken);
    }
    if is_over {
        let all = head.size + rest.len();
        return Ok(refused_front(Refusal::ShortBody, all, head.path));
    }
    Ok(Front::More)
}
