//! Renders a reply as bytes: `reply_bytes`, `render` for one that may name methods, and
//! `metrics_bytes` for one with metrics.

ghost use Rattle.std.specs.Prelude.{◌≡◌, IfOk, None};
ghost use Rattle.std.specs.Option.{option_copied};
ghost use Rattle.tk_message.specs.ReplyFields.{content_of};
ghost use Rattle.tk_edge.specs.Rendering as spec;

use itoa::Buffer;
use std::alloc::{AllocError, Global};
use tk_message::{Asks, Payload, Reply, StatusCode};
use tk_put::{field_line, joined};

// Returns the bytes of the reply with metrics: head and text. `text` is in the text format of
// Prometheus, version 0.0.4.
pub(crate) fn metrics_bytes(alloc: Global, text: &[u8]) -> Result<Vec<u8>, AllocError>
    ensures { IfOk result (λ bytes. bytes.items ≡ spec.metrics_bytes text.now) }
{
    let mut len = Buffer::new();
    assembled(
        alloc,
        b"200",
        b"OK",
        b"Content-Type: text/plain; version=0.0.4\r\n",
        len.format(text.len()).as_bytes(),
        b"",
        b"",
        b"",
        text,
    )
}

// Returns the bytes of a whole reply: head and body (RFC 9112, 4). The head has
// `Connection: close`, and no `Allow`: only a refused method has that.
pub(crate) fn reply_bytes(alloc: Global, reply: &Reply) -> Result<Vec<u8>, AllocError>
    ensures { IfOk result (λ bytes. bytes.items ≡ spec.reply_bytes reply.now None) }
{
    render(alloc, reply, None)
}

// Renders the whole reply. `allowed` is the value of its `Allow`, if it has one.
pub(crate) fn render(
    alloc: Global,
    reply: &Reply,
    allowed: Option<&[u8]>,
) -> Result<Vec<u8>, AllocError>
    ensures { IfOk result (λ bytes. bytes.items
        ≡ spec.reply_bytes reply.now (option_copied allowed.entry)) }
{
    let body = body_of(&reply.body);
    let (mut number, mut len) = (Buffer::new(), Buffer::new());
    let location = location_of(reply);
    let location = field_line(alloc, b"Location: ", location)?;
    let allow = field_line(alloc, b"Allow: ", allowed)?;
    assembled(
        alloc,
        number.format(reply.status.number()).as_bytes(),
        reason_of(reply.status),
        type_line(&reply.body),
        len.format(body.len()).as_bytes(),
        asks_line(reply.asks),
        &location,
        &allow,
        body,
    )
}

fn location_of(reply: &Reply) -> Option<&[u8]>
    ensures { option_copied result ≡ reply.now.location }
{
    match &reply.location {
        Some(uri) => Some(uri.as_bytes()),
        None => None,
    }
}

fn body_of(payload: &Payload) -> &[u8]
    ensures { result.now ≡ spec.body_of (content_of payload.now) }
{
    match payload {
        Payload::Empty => &[],
        Payload::Json(bytes) | Payload::Bytes(bytes) => bytes,
    }
}

fn type_line(payload: &Payload) -> &'static [u8]
    ensures { result.now ≡ spec.type_line (content_of payload.now) }
{
    match payload {
        Payload::Empty => b"",
        Payload::Json(bytes) => where_any(bytes, b"Content-Type: application/json\r\n"),
        Payload::Bytes(bytes) => where_any(bytes, b"Content-Type: application/octet-stream\r\n"),
    }
}

// Returns the line, or nothing if the body is empty.
fn where_any(body: &[u8], line: &'static [u8]) -> &'static [u8]
    ensures { result.now ≡ spec.where_any body.now line.entry.now }
{
    if body.is_empty() { b"" } else { line }
}

fn reason_of(status: StatusCode) -> &'static [u8]
    ensures { result.now ≡ spec.reason_of status }
{
    match status {
        StatusCode::Ok => b"OK",
        StatusCode::Created => b"Created",
        StatusCode::Found => b"Found",
        StatusCode::BadRequest => b"Bad Request",
        StatusCode::Unauthorized => b"Unauthorized",
        StatusCode::NotFound => b"Not Found",
        StatusCode::MethodNotAllowed => b"Method Not Allowed",
        StatusCode::Conflict => b"Conflict",
        StatusCode::LengthRequired => b"Length Required",
        StatusCode::ContentTooLarge => b"Content Too Large",
        StatusCode::ServiceUnavailable => b"Service Unavailable",
    }
}

fn asks_line(asks: Asks) -> &'static [u8]
    ensures { result.now ≡ spec.asks_line asks }
{
    match asks {
        Asks::Nothing => b"",
        Asks::Credentials => b"WWW-Authenticate: Basic realm=\"tokend\"\r\n",
        Asks::Retry => b"Retry-After: 10\r\n",
    }
}

// Joins the parts of a reply, which live equally long.
fn assembled<'a>(
    alloc: Global,
    number: &'a [u8],
    reason: &'a [u8],
    type_line: &'a [u8],
    len: &'a [u8],
    asks: &'a [u8],
    location: &'a [u8],
    allow: &'a [u8],
    body: &'a [u8],
) -> Result<Vec<u8>, AllocError>
    ensures { IfOk result (λ bytes. bytes.items
        ≡ spec.assembly number.now reason.now type_line.now len.now asks.now location.now
        allow.now body.now) }
{
    joined(
        alloc,
        &[
            b"HTTP/1.1 ",
            number,
            b" ",
            reason,
            b"\r\n",
            type_line,
            b"Content-Length: ",
            len,
            b"\r\nCache-Control: no-store\r\nPragma: no-cache\r\nConnection: close\r\n",
            asks,
            location,
            allow,
            b"\r\n",
            body,
        ],
    )
}
