//! The gate of both grants: whether the code or refresh token that was sent can be redeemed (RFC
//! 6749, 4.1.3, 5.2 and 6; RFC 9700, 4.14.2).

ghost use Rattle.std.specs.Prelude.{◌≡◌, true};
ghost use Rattle.std.specs.Option.{option_copied};
ghost use Rattle.tk_fact.specs.Check.{is_used_once};
ghost use Rattle.tk_ledger.specs.Standings.{IsSound, IsSoundStanding};
ghost use Rattle.tk_grant.specs.Gate as spec;
ghost use Rattle.tk_grant.specs.SoundGate.{IsSoundGate};

use crate::refusal::Refusal;
use tk_family::Steps;
use tk_handle::{Dot, Handle, Kind, Moment, TokenId};
use tk_ledger::{Ledger, Standing, State, Status};

// Whether the code or refresh token that was sent can be redeemed.
#[derive(Drop)]
pub(crate) enum Gate<'a> {
    // The token can't be redeemed.
    Shut(Refusal),
    // The token was used before.
    Reuse(TokenId),
    // The token can be redeemed.
    Open(TokenId, Standing<'a>),
}

// Returns the gate of a token of the given kind, by the text that the client sent.
pub(crate) fn find_gate<'a>(
    ledger: &'a Ledger,
    now: Moment,
    client: Dot,
    kind: Kind,
    text: Option<&str>,
) -> Gate<'a>
    requires { is_used_once kind ≡ true }
    ensures value { result ≡ spec.gate_of ledger.now now client kind
        (option_copied text.entry) }
    ensures sound { IsSoundGate now result }
{
    match text {
        Some(text) => gate_by_text(ledger, now, client, kind, Handle::read(text.as_bytes())),
        None => Gate::Shut(Refusal::MissingGrant),
    }
}

// Returns the gate of a token by its text.
fn gate_by_text<'a>(
    ledger: &'a Ledger,
    now: Moment,
    client: Dot,
    kind: Kind,
    handle: Option<Handle>,
) -> Gate<'a>
    requires { is_used_once kind ≡ true }
    ensures value { result ≡ spec.gate_by_text ledger.now now client kind handle }
    ensures sound { IsSoundGate now result }
{
    match handle {
        Some(handle) => gate_by_handle(ledger, now, client, kind, &handle),
        None => Gate::Shut(Refusal::UnknownGrant),
    }
}

// Returns the gate of a token by its handle.
fn gate_by_handle<'a>(
    ledger: &'a Ledger,
    now: Moment,
    client: Dot,
    kind: Kind,
    handle: &Handle,
) -> Gate<'a>
    requires { is_used_once kind ≡ true }
    ensures value { result ≡ spec.gate_by_handle ledger.now now client kind handle.now }
    ensures sound { IsSoundGate now result }
{
    if handle.id.kind.number() != kind.number() {
        return Gate::Shut(Refusal::UnknownGrant);
    }
    let id = TokenId {
        dot: handle.id.dot,
        kind,
    };
    let status = ledger.status(now, handle, &mut Steps::new());
    gate_by_status(now, id, client, status)
}

// Returns the gate of a token by its status.
fn gate_by_status<'a>(now: Moment, id: TokenId, client: Dot, status: Status<'a>) -> Gate<'a>
    requires once { is_used_once id.kind ≡ true }
    requires sound { IsSound now status }
    ensures value { result ≡ spec.gate_by_status id client status.entry }
    ensures sound { IsSoundGate now result }
{
    match status {
        Status::Unseen => Gate::Shut(Refusal::UnknownGrant),
        Status::Wrong => Gate::Shut(Refusal::UnknownGrant),
        Status::Broken(_) => Gate::Shut(Refusal::UnknownGrant),
        Status::Known(standing) => gate_by_client(now, id, client, standing),
    }
}

// Returns the gate of a token by its standing. The token must be the client's own.
fn gate_by_client<'a>(now: Moment, id: TokenId, client: Dot, standing: Standing<'a>) -> Gate<'a>
    requires once { is_used_once id.kind ≡ true }
    requires sound { IsSoundStanding now standing }
    ensures value { result ≡ spec.gate_by_client id client standing.entry }
    ensures sound { IsSoundGate now result }
{
    if standing.client != client {
        return Gate::Shut(Refusal::ForeignGrant);
    }
    match standing.state {
        State::Dead => Gate::Shut(Refusal::DeadFamily),
        State::Withdrawn => Gate::Shut(Refusal::WithdrawnGrant),
        State::Over => Gate::Shut(Refusal::FamilyOver),
        State::Used => Gate::Reuse(id),
        State::Past => Gate::Shut(Refusal::PastGrant),
        State::Ended => Gate::Shut(Refusal::PastGrant),
        State::Live => Gate::Open(id, standing),
    }
}
