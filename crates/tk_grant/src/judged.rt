//! Judgements of token requests, by the facts, the moment and the parameters (RFC 6749, 3.2, 4.1.3
//! and 6; RFC 7636, 4.6).

use tk_fact::ClientLives;
use tk_handle::{Dot, Moment, TokenId};
use tk_scope::Scope;

// What tokens are minted for: they descend from the code or refresh token that was sent.
#[derive(Drop)]
pub(crate) struct Grant {
    // The dot of the fact that minted the code or refresh token that was sent.
    pub(crate) from: Dot,
    // When the family ends.
    pub(crate) family_end: Moment,
    // How long what the client gets lives at most, if it was registered with such lives.
    pub(crate) lives: Option<ClientLives>,
    // The scope of the access token.
    pub(crate) access: Scope,
    // The scope of the refresh token.
    pub(crate) refresh: Scope,
}

// The judgement of a token request.
#[derive(Drop)]
pub(crate) enum Judged {
    Refused(Refusal),
    // The code or refresh token was used before.
    Reused(TokenId),
    // A code is redeemed.
    Redeems(Grant),
    // A refresh token is rotated, into the given generation.
    Rotates(u16, Grant),
    // An access token is minted for a refresh token that its client keeps.
    Refreshes(Grant),
}

ghost use Rattle.std.specs.Prelude.{◌≡◌, IfOk, map};
ghost use Rattle.std.specs.Option.{option_copied};
ghost use Rattle.tk_store.specs.StoreFields.{held_facts};
ghost use Rattle.tk_message.specs.Caller.{caller_of};
ghost use Rattle.tk_grant.specs.Judged as spec;
ghost use Rattle.tk_grant.specs.SoundJudged.{IsSoundJudged};

use crate::gate::find_gate;
use crate::redeem::redeem;
use crate::refusal::Refusal;
use crate::renew::{registered_lives, renew};
use std::alloc::{AllocError, Global};
use tk_handle::Kind;
use tk_ledger::Ledger;
use tk_message::{Caller, Params, Request, find_caller};

// Judges a token request: the first case that holds.
pub(crate) fn judge(
    alloc: Global,
    ledger: &Ledger,
    now: Moment,
    request: &Request,
) -> Result<Judged, AllocError>
    ensures value { IfOk result (λ judged.
        judged ≡ spec.judged_of ledger.now now request.now) }
    ensures sound { IfOk result (IsSoundJudged now) }
{
    let caller = caller_here(alloc, ledger, request)?;
    judge_by_caller(alloc, ledger, now, &request.params, caller)
}

// Returns the sender of a token request.
fn caller_here(alloc: Global, ledger: &Ledger, request: &Request) -> Result<Caller, AllocError>
    ensures { IfOk result (λ caller. caller ≡ caller_of (held_facts ledger.now) spec.known_names
        request.now) }
{
    find_caller(alloc, ledger, &known_names(), request)
}

// Returns the names of the parameters that the endpoint knows.
pub(crate) fn known_names() -> [&'static str; 8]
    ensures { map (λ name. name.now) result ≡ spec.known_names }
{
    [
        "grant_type",
        "code",
        "redirect_uri",
        "client_id",
        "client_secret",
        "code_verifier",
        "refresh_token",
        "scope",
    ]
}

// Judges a request by its sender.
fn judge_by_caller(
    alloc: Global,
    ledger: &Ledger,
    now: Moment,
    params: &Params,
    caller: Caller,
) -> Result<Judged, AllocError>
    ensures value { IfOk result (λ judged. judged ≡ spec.judged_by_caller ledger.now now
        params.now caller) }
    ensures sound { IfOk result (IsSoundJudged now) }
{
    match caller {
        Caller::DuplicateParameter => Ok(Judged::Refused(Refusal::DuplicateParameter)),
        Caller::MixedCredentials => Ok(Judged::Refused(Refusal::MixedCredentials)),
        Caller::InvalidClient => Ok(Judged::Refused(Refusal::InvalidClient)),
        Caller::Client(client) => {
            let grant_type = params.value("grant_type");
            judge_by_type(alloc, ledger, now, params, client, grant_type)
        }
    }
}

// Judges a request by its grant type.
fn judge_by_type(
    alloc: Global,
    ledger: &Ledger,
    now: Moment,
    params: &Params,
    client: Dot,
    grant_type: Option<&str>,
) -> Result<Judged, AllocError>
    ensures value { IfOk result (λ judged.
        judged ≡ spec.judged_by_type ledger.now now params.now client
        (option_copied grant_type.entry)) }
    ensures sound { IfOk result (IsSoundJudged now) }
{
    let Some(grant_type) = grant_type else {
        return Ok(Judged::Refused(Refusal::MissingGrantType));
    };
    let view = ledger.client(client);
    if grant_type == "authorization_code" {
        let gate = find_gate(ledger, now, client, Kind::Code, params.value("code"));
        return redeem(alloc, now, params, registered_lives(&view), gate);
    }
    if grant_type == "refresh_token" {
        let gate = find_gate(
            ledger,
            now,
            client,
            Kind::Refresh,
            params.value("refresh_token"),
        );
        return renew(alloc, now, params, &view, gate);
    }
    Ok(Judged::Refused(Refusal::UnsupportedGrantType))
}
