//! Replies: their parts, and the replies without JSON. `JsonReply` has those with JSON.

use crate::status_code::StatusCode;
use std::marker::Model;

/// A reply to a request. Contracts see the bytes of its parts.
#[derive(Drop)]
pub struct Reply {
    /// The status code (RFC 9110, 15).
    pub status: StatusCode,
    /// The URI that a redirect sends the client to.
    pub location: Option<String>,
    /// What the reply asks of the client by a header field.
    pub asks: Asks,
    /// The content of the reply.
    pub body: Payload,
}

/// What a reply asks of the client by a header field.
#[derive(Clone, Copy)]
pub enum Asks {
    /// The reply has no such field.
    Nothing,
    /// `WWW-Authenticate`: the client is to prove itself (RFC 6749, 5.2).
    Credentials,
    /// `Retry-After`: the client may send the request again later (RFC 9110, 10.2.3).
    Retry,
}

/// The content of a reply.
#[derive(Drop)]
pub enum Payload {
    /// No content.
    Empty,
    /// A JSON text (RFC 8259).
    Json(Vec<u8>),
    /// Other bytes, such as a bundle.
    Bytes(Vec<u8>),
}

impl Model for Reply {
    ghost use Rattle.std.specs.Prelude.{string_bytes};
    ghost use Rattle.std.specs.Option.{option_map};
    ghost use Rattle.tk_message.specs.ReplyFields.{ReplyFields, content_of};

    ghost Value = { ReplyFields };

    ghost view = { λ r. record {
      status = r.status;
      location = option_map string_bytes r.location;
      asks = r.asks;
      content = content_of r.body;
    } };
}

ghost use Rattle.std.specs.Prelude.{◌≡◌, IfOk, string_bytes};
ghost use Rattle.std.specs.Option.{option_copied};
ghost use Rattle.tk_handle.specs.Handle.{handle_text};
ghost use Rattle.tk_message.specs.Reply as spec;

use std::alloc::{AllocError, Global};
use tk_handle::Handle;
use tk_match::reply_uri;

// Returns what a reply with the status asks of the client: credentials if the status is 401.
pub(crate) fn asks_by(status: StatusCode) -> Asks
    ensures { result ≡ spec.asks_by status }
{
    match status {
        StatusCode::Unauthorized => Asks::Credentials,
        _ => Asks::Nothing,
    }
}

/// Returns a reply with a status and no content. No memory is allocated.
pub fn empty_reply(status: StatusCode) -> Reply
    ensures { result ≡ spec.empty_reply status }
{
    let asks = asks_by(status);
    Reply {
        status,
        location: None,
        asks,
        body: Payload::Empty,
    }
}

/// Returns a redirect to the URI, with a pair and the state, if any, in its query (RFC 6749, 4.1.2
/// and 4.1.2.1). Returns an error if memory runs out.
pub fn redirect_reply(
    alloc: Global,
    uri: &str,
    name: &str,
    value: &str,
    state: Option<&str>,
) -> Result<Reply, AllocError>
    ensures { IfOk result (λ reply.
        reply ≡ spec.redirect_reply uri.now name.now value.now (option_copied state.entry)) }
{
    let location = match state {
        Some(state) => reply_uri(alloc, uri, &[(name, value), ("state", state)])?,
        None => reply_uri(alloc, uri, &[(name, value)])?,
    };
    Ok(Reply {
        status: StatusCode::Found,
        location: Some(location),
        asks: Asks::Nothing,
        body: Payload::Empty,
    })
}

/// Returns the text of a handle, 48 letters, as a client gets it. Returns an error if memory runs
/// out.
pub fn handle_string(alloc: Global, handle: &Handle) -> Result<String, AllocError>
    ensures { IfOk result (λ text. string_bytes text ≡ handle_text handle.now) }
{
    let text = handle.text();
    let Ok(text) = str::from_utf8(&text) else {
        unreachable!("base64 is ASCII");
    };
    String::from_str(alloc, text)
}

/// Returns a reply of 200 OK with bytes that are no text, such as a bundle. No memory is allocated.
pub fn bytes_reply(bytes: Vec<u8>) -> Reply
    ensures { result ≡ spec.bytes_reply bytes.items }
{
    Reply {
        status: StatusCode::Ok,
        location: None,
        asks: Asks::Nothing,
        body: Payload::Bytes(bytes),
    }
}
