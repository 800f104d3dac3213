//! What a server says of itself: `Notice`, and `answer_notice`, which replies to a request for it.

/// What a server says of itself.
#[derive(Clone, Copy)]
pub enum Notice {
    /// The server's metadata, by which clients find its endpoints (RFC 8414, 3).
    Discovery,
    /// Whether the request of a client would be answered at this moment (own).
    Health,
    /// What the server counted, for operators (own).
    Metrics,
}

ghost use Rattle.std.specs.Prelude.{◌≡◌, IfOk};
ghost use Rattle.std.specs.Option.{option_map};
ghost use Rattle.tk_edge.specs.Answers as answers;
ghost use Rattle.tk_edge.specs.Notices as spec;

use crate::answer::{Answer, answer_with, refuse};
use crate::issuer::Issuer;
use crate::refusal::Refusal;
use crate::render::metrics_bytes;
use crate::terms::Terms;
use std::alloc::{AllocError, Global};
use tk_handle::Moment;
use tk_message::{Asks, ChallengeRules, Payload, Reply, StatusCode};
use tk_put::joined;
use tk_region::Region;

// Replies to a request for a notice at the moment. A notice that the terms don't give has an
// unknown path.
pub(crate) fn answer_notice(
    alloc: Global,
    region: &Region,
    terms: &Terms,
    now: Moment,
    notice: Notice,
) -> Result<Answer, AllocError>
    ensures { IfOk result (λ answer. answer
        ≡ answers.notice_by terms.now region.now now notice) }
{
    match notice {
        Notice::Discovery => {
            let reply = metadata_of(alloc, &terms.issuer, region.choices().challenge)?;
            answered(alloc, reply)
        }
        Notice::Health => {
            let reply = health_of(alloc, terms.health, region, now)?;
            answered(alloc, reply)
        }
        Notice::Metrics => answer_metrics(alloc, &terms.metrics),
    }
}

// Returns the answer with the reply, if it is given.
fn answered(alloc: Global, reply: Option<Reply>) -> Result<Answer, AllocError>
    ensures { IfOk result (λ answer. answer ≡ answers.answered_by reply) }
{
    match reply {
        Some(reply) => answer_with(alloc, &reply, None),
        None => refuse(alloc, Refusal::UnknownPath),
    }
}

// Returns the answer with the text of the metrics, if there is one.
fn answer_metrics(alloc: Global, text: &Option<Vec<u8>>) -> Result<Answer, AllocError>
    ensures { IfOk result (λ answer. answer
        ≡ answers.metrics_by (option_map (λ v. v.items) text.now)) }
{
    match text {
        Some(text) => {
            let bytes = metrics_bytes(alloc, text)?;
            Ok(Answer {
                status: StatusCode::Ok,
                bytes,
                logged: None,
            })
        }
        None => refuse(alloc, Refusal::UnknownPath),
    }
}

// Returns the reply with the server's metadata, if there is an issuer.
fn metadata_of(
    alloc: Global,
    issuer: &Option<Issuer>,
    rules: ChallengeRules,
) -> Result<Option<Reply>, AllocError>
    ensures { IfOk result (λ reply. reply ≡ spec.metadata_of issuer.now rules) }
{
    match issuer {
        Some(issuer) => {
            let reply = metadata_reply(alloc, issuer, rules)?;
            Ok(Some(reply))
        }
        None => Ok(None),
    }
}

// Returns the reply with the metadata of the server of an issuer.
fn metadata_reply(
    alloc: Global,
    issuer: &Issuer,
    rules: ChallengeRules,
) -> Result<Reply, AllocError>
    ensures { IfOk result (λ reply. reply ≡ spec.metadata_reply issuer.now rules) }
{
    let text = metadata(alloc, issuer.as_bytes(), methods_of(rules))?;
    Ok(text_reply(StatusCode::Ok, text))
}

// Returns the reply with the server's health at the moment, if the terms give it.
fn health_of(
    alloc: Global,
    is_told: bool,
    region: &Region,
    now: Moment,
) -> Result<Option<Reply>, AllocError>
    ensures { IfOk result (λ reply. reply
        ≡ spec.health_of is_told region.now.facts.horizon now) }
{
    if !is_told {
        return Ok(None);
    }
    if now.seconds() < region.horizon().seconds() {
        let text = Vec::from_slice(alloc, b"{\"status\":\"before_horizon\"}")?;
        return Ok(Some(text_reply(StatusCode::ServiceUnavailable, text)));
    }
    let text = Vec::from_slice(alloc, b"{\"status\":\"ok\"}")?;
    Ok(Some(text_reply(StatusCode::Ok, text)))
}

// Returns a reply with a JSON text.
fn text_reply(status: StatusCode, text: Vec<u8>) -> Reply
    ensures { result ≡ spec.text_reply status text.items }
{
    Reply {
        status,
        location: None,
        asks: Asks::Nothing,
        body: Payload::Json(text),
    }
}

// Returns the challenge methods that are taken, as a JSON list.
fn methods_of(rules: ChallengeRules) -> &'static [u8]
    ensures { result.now ≡ spec.methods_of rules }
{
    if rules.only_s256 {
        b"[\"S256\"]"
    } else {
        b"[\"plain\",\"S256\"]"
    }
}

// Returns the server's metadata as JSON. `issuer` is the text of the issuer, and `methods` the list
// of challenge methods.
fn metadata(alloc: Global, issuer: &[u8], methods: &[u8]) -> Result<Vec<u8>, AllocError>
    ensures { IfOk result (λ text. text.items ≡ spec.metadata issuer.now methods.now) }
{
    joined(
        alloc,
        &[
            b"{\"authorization_endpoint\":\"",
            issuer,
            b"/authorize\",\"authorization_response_iss_parameter_supported\":true,",
            b"\"code_challenge_methods_supported\":",
            methods,
            b",\"grant_types_supported\":[\"authorization_code\",\"refresh_token\"],",
            b"\"introspection_endpoint\":\"",
            issuer,
            b"/introspect\",\"introspection_endpoint_auth_methods_supported\":",
            b"[\"client_secret_basic\",\"client_secret_post\"],\"issuer\":\"",
            issuer,
            b"\",\"response_modes_supported\":[\"query\"],",
            b"\"response_types_supported\":[\"code\"],\"revocation_endpoint\":\"",
            issuer,
            b"/revoke\",\"revocation_endpoint_auth_methods_supported\":",
            b"[\"client_secret_basic\",\"client_secret_post\",\"none\"],\"token_endpoint\":\"",
            issuer,
            b"/token\",\"token_endpoint_auth_methods_supported\":",
            b"[\"client_secret_basic\",\"client_secret_post\",\"none\"]}",
        ],
    )
}
