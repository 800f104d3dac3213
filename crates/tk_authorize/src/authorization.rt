//! Decisions of authorization requests.

ghost use Rattle.std.specs.Prelude.{◌≡◌, ◌≤◌, IfOk, None};
ghost use Rattle.std.specs.Option.{option_copied};
ghost use Rattle.tk_handle.specs.Moment.{moment_plus};
ghost use Rattle.tk_fact.specs.Check.{refusal_of};
ghost use Rattle.tk_store.specs.StoreFields.{held_facts};
ghost use Rattle.tk_message.specs.Decision.{Passes};
ghost use Rattle.tk_authorize.specs.Authorization as spec;
ghost use Rattle.tk_authorize.specs.Registered.{LeadsToClient};

use crate::approval::Approval;
use crate::asked::is_state;
use crate::judged::{Judged, Target, judge};
use std::alloc::{AllocError, Global};
use tk_fact::{Body, CodeIssued};
use tk_handle::{Dot, Handle, Kind, Moment, TokenId};
use tk_ledger::Ledger;
use tk_match::Uri;
use tk_message::{Decision, Place, Reply, Request, handle_string, redirect_reply};

/// Decides an authorization request at a moment (RFC 6749, 4.1.1 to 4.1.2.1; RFC 7636, 4.3 and
/// 4.4). Returns the reply, and the fact that a code was issued, if one is.
///
/// The handle of the code is made of the first three random words. If the client or the redirection
/// URI is bad, the reply is an error in place. Any other error goes to the redirection URI. Which
/// clients must send a challenge, and by which method, is the place's choice. Returns an error if
/// memory runs out.
pub fn decide_authorize(
    alloc: Global,
    ledger: &Ledger,
    place: &Place,
    now: Moment,
    words: &[u64; 6],
    request: &Request,
) -> Result<Decision, AllocError>
    ensures value { IfOk result (λ d. d ≡ spec.authorization_of (held_facts ledger.now) place.now
        now words.now request.now) }
    ensures passes { IfOk result (λ d. Passes d.made) }

    // The reply sends the browser to a URI that matches a registered one of the client that the
    // request names, or to no URI.
    ensures leads { IfOk result (λ d.
        LeadsToClient (held_facts ledger.now) request.now.params d.reply) }
{
    let rules = place.choices.challenge;
    let judged = judge(alloc, ledger, rules, &request.params, request.subject())?;
    let state = kept_state(request.params.value("state"));
    decide_by(alloc, place, now, words, state, judged)
}

// Returns the state as it was sent, if it may be sent back.
fn kept_state(state: Option<&str>) -> Option<&str>
    ensures { option_copied result ≡ spec.kept_state (option_copied state.entry) }
{
    if is_state(state) { state } else { None }
}

// Decides a request by its judgement.
fn decide_by(
    alloc: Global,
    place: &Place,
    now: Moment,
    words: &[u64; 6],
    state: Option<&str>,
    judged: Judged,
) -> Result<Decision, AllocError>
    ensures value { IfOk result (λ d.
        d ≡ spec.decided_by place.now now words.now (option_copied state.entry) judged) }
    ensures passes { IfOk result (λ d. Passes d.made) }
{
    match judged {
        Judged::Refused(why) => Decision::refuse(alloc, why.code()),
        Judged::Denied(target, why) => {
            let uri = target.uri.as_str();
            let reply = redirect_reply(alloc, uri, "error", why.code().name(), state);
            drop(target);
            Ok(Decision::answer(reply?))
        }
        Judged::Approved(target, approval) => {
            decide_approved(alloc, place, now, words, state, target, approval)
        }
    }
}

// Issues a code for an approval.
fn decide_approved(
    alloc: Global,
    place: &Place,
    now: Moment,
    words: &[u64; 6],
    state: Option<&str>,
    target: Target,
    approval: Approval,
) -> Result<Decision, AllocError>
    ensures value { IfOk result (λ d.
        d ≡ spec.decided_by place.now now words.now (option_copied state.entry)
        (Judged.Approved target approval)) }
    ensures passes { IfOk result (λ d. Passes d.made) }
{
    let code = code_handle(place.next_dot(), words);
    let Ok(reply) = code_reply(alloc, &target.uri, &code, state) else {
        drop(target);
        drop(approval);
        return Err(AllocError);
    };
    let fact = code_issued(place, now, &code, target, approval);
    Ok(Decision {
        reply,
        made: Some(Body::CodeIssued(fact)),
    })
}

// Makes the handle of a code at the dot, of the first three random words.
fn code_handle(next: Dot, words: &[u64; 6]) -> Handle
    ensures { result ≡ spec.code_handle next words.now }
{
    let id = TokenId {
        dot: next,
        kind: Kind::Code,
    };
    Handle::mint(id, [words[0], words[1], words[2]])
}

// Returns the redirect that takes a code to the client.
fn code_reply(
    alloc: Global,
    uri: &Uri,
    code: &Handle,
    state: Option<&str>,
) -> Result<Reply, AllocError>
    ensures { IfOk result (λ reply.
        reply ≡ spec.code_reply uri.now code.now (option_copied state.entry)) }
{
    let text = handle_string(alloc, code)?;
    redirect_reply(alloc, uri.as_str(), "code", text.as_str(), state)
}

// Returns the fact that a code was issued.
fn code_issued(
    place: &Place,
    now: Moment,
    code: &Handle,
    target: Target,
    approval: Approval,
) -> CodeIssued
    ensures value { result ≡ spec.code_issued place.now now code.now target approval }
    ensures passes { refusal_of (Body.CodeIssued result) ≡ None }
{
    let expiry = later(now, place.lives.code);
    let family_end = later(now, place.lives.bounded_by(target.lives).family);
    let Target {
        client,
        lives: _,
        uri,
        sent,
    } = target;
    let Approval {
        consent,
        subject,
        scope,
        challenge,
    } = approval;
    // These calls give the proof that each value is within its limits.
    let (_uri, _subject) = (uri.as_str(), subject.as_str());
    if let Some(challenge) = &challenge {
        let _text = challenge.text();
    }
    CodeIssued {
        client,
        consent,
        digest: code.digest(),
        start: now,
        expiry,
        family_end,
        subject,
        scope,
        uri,
        sent,
        challenge,
    }
}

// Returns the moment `life` seconds later, which is not before `now`.
fn later(now: Moment, life: u64) -> Moment
    ensures value { result ≡ moment_plus now life }
    ensures later { now ≤ result }
{
    // This call gives the proof that the moment is in its range.
    let _now = now.seconds();
    now.plus(life)
}
