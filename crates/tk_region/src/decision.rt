//! Decisions of requests, by the endpoint, and the serial cap.

ghost use Rattle.std.specs.Prelude.{◌≡◌, ◌≤◌, IfOk, IfSome};
ghost use Rattle.tk_message.specs.Decision.{Passes};
ghost use Rattle.tk_region.specs.Decision as spec;

use std::alloc::{AllocError, Global};
use tk_authorize::{decide_admin, decide_authorize, decide_clients, decide_subject};
use tk_grant::decide_token;
use tk_handle::Moment;
use tk_ledger::Ledger;
use tk_message::{Decision, Endpoint, ErrorCode, Place, Request};
use tk_query::{decide_introspect, decide_revoke};

// Decides a request by its endpoint, without regard to the cap.
pub(crate) fn decide_endpoint(
    alloc: Global,
    ledger: &Ledger,
    place: &Place,
    now: Moment,
    words: &[u64; 6],
    request: &Request,
) -> Result<Decision, AllocError>
    ensures value { IfOk result (λ d. d ≡ spec.decision_of ledger.now place.now now
        words.now request.now) }
    ensures passes { IfOk result (λ d. Passes d.made) }
{
    match request.endpoint {
        Endpoint::Authorize => decide_authorize(alloc, ledger, place, now, words, request),
        Endpoint::Token => decide_token(alloc, ledger, place, now, words, request),
        Endpoint::Introspect => {
            decide_introspect(alloc, ledger, place.choices.refresh_seen, now, request)
        }
        Endpoint::Revoke => decide_revoke(alloc, ledger, place, now, request),
        Endpoint::ListClients => decide_clients(alloc, ledger, request),
        Endpoint::ShowSubject => decide_subject(alloc, ledger, now, request),
        Endpoint::AddClient
        | Endpoint::ShowClient
        | Endpoint::Retire
        | Endpoint::ChangeSecret
        | Endpoint::Consent
        | Endpoint::Withdraw
        | Endpoint::SignOut
        | Endpoint::Logout => decide_admin(alloc, ledger, place, now, request),
    }
}

// Returns the decision, or `temporarily_unavailable` if the decision makes a fact above the cap.
pub(crate) fn capped(
    alloc: Global,
    cap: u64,
    place: &Place,
    decision: Decision,
) -> Result<Decision, AllocError>
    requires { Passes decision.made }
    ensures value { IfOk result (λ d. d ≡ spec.capped cap place.now decision) }
    ensures passes { IfOk result (λ d. Passes d.made) }
    ensures under { IfOk result (λ d. IfSome d.made (λ _. place.now.next ≤ cap)) }
{
    if decision.made.is_some() && cap < place.next.number() {
        drop(decision);
        return Decision::refuse(alloc, ErrorCode::TemporarilyUnavailable);
    }
    Ok(decision)
}
