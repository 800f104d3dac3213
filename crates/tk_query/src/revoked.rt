//! The outcome of revocation, by its cases in their order (RFC 7009, 2.1 and 2.2).

use tk_fact::TokenRevoked;

// The outcome of a revocation request.
#[derive(Drop)]
pub(crate) enum Revocation {
    Refused(Refusal),
    // Nothing is left to revoke.
    Done(Idle),
    // The fact that the client revoked the token is made.
    Revokes(TokenRevoked),
    // The region has not seen the token, and the client may not revoke it yet.
    Later,
}

ghost use Rattle.std.specs.Prelude.{◌≡◌, true};
ghost use Rattle.std.specs.Option.{option_copied};
ghost use Rattle.tk_fact.specs.Check.{is_revocable};
ghost use Rattle.tk_store.specs.StoreFields.{held_facts};
ghost use Rattle.tk_ledger.specs.Views.{client_view};
ghost use Rattle.tk_query.specs.Revoked as spec;
ghost use Rattle.tk_query.specs.SoundRevocation.{IsSoundRevocation};

use crate::idle::Idle;
use crate::refusal::Refusal;
use tk_fact::ClientKind;
use tk_family::Steps;
use tk_handle::{Dot, Handle, Kind, Moment, TokenId};
use tk_ledger::{Ledger, Standing, State, Status};
use tk_message::{Caller, Params, Place, UnseenRevocation};

// Judges a revocation request by its sender: the first case that holds.
pub(crate) fn revoke(
    ledger: &Ledger,
    place: &Place,
    now: Moment,
    params: &Params,
    caller: Caller,
) -> Revocation
    ensures value { result ≡ spec.revoked_by_caller ledger.now place.now now params.now caller }
    ensures sound { IsSoundRevocation result }
{
    match caller {
        Caller::DuplicateParameter => Revocation::Refused(Refusal::DuplicateParameter),
        Caller::MixedCredentials => Revocation::Refused(Refusal::MixedCredentials),
        Caller::InvalidClient => Revocation::Refused(Refusal::InvalidClient),
        Caller::Client(client) => revoke_text(ledger, place, now, client, params.value("token")),
    }
}

// Judges a request by the token's text.
fn revoke_text(
    ledger: &Ledger,
    place: &Place,
    now: Moment,
    client: Dot,
    text: Option<&str>,
) -> Revocation
    ensures value { result ≡ spec.revoked_by_text ledger.now place.now now client
        (option_copied text.entry) }
    ensures sound { IsSoundRevocation result }
{
    let Some(text) = text else {
        return Revocation::Refused(Refusal::MissingToken);
    };
    match Handle::read(text.as_bytes()) {
        Some(handle) => revoke_handle(ledger, place, now, client, &handle),
        None => Revocation::Done(Idle::NoHandle),
    }
}

// Judges a request by the token's handle.
fn revoke_handle(
    ledger: &Ledger,
    place: &Place,
    now: Moment,
    client: Dot,
    handle: &Handle,
) -> Revocation
    ensures value { result ≡ spec.revoked_by_kind ledger.now place.now now client handle.now
        handle.now.id.kind }
    ensures sound { IsSoundRevocation result }
{
    let is_own = handle.id.dot.region().number() == place.number.number();
    let choice = place.choices.unseen;
    match handle.id.kind {
        Kind::Code => Revocation::Done(Idle::Code),
        Kind::Access => {
            let fact = revocation_of(handle, Kind::Access, client);
            let status = ledger.status(now, handle, &mut Steps::new());
            revoke_by_status(ledger, choice, is_own, now, fact, status)
        }
        Kind::Refresh => {
            let fact = revocation_of(handle, Kind::Refresh, client);
            let status = ledger.status(now, handle, &mut Steps::new());
            revoke_by_status(ledger, choice, is_own, now, fact, status)
        }
    }
}

// Returns the fact that the client revoked the token of a handle.
fn revocation_of(handle: &Handle, kind: Kind, client: Dot) -> TokenRevoked
    ensures { result ≡ spec.revocation_of handle.now kind client }
{
    let token = TokenId {
        dot: handle.id.dot,
        kind,
    };
    TokenRevoked {
        token,
        digest: handle.digest(),
        client,
        by: None,
    }
}

// Judges a request by the token's status.
fn revoke_by_status(
    ledger: &Ledger,
    choice: UnseenRevocation,
    is_own: bool,
    now: Moment,
    fact: TokenRevoked,
    status: Status<'_>,
) -> Revocation
    requires { is_revocable fact.token.kind ≡ true }
    ensures value { result ≡ spec.revoked_by_status (held_facts ledger.now) choice is_own now
        fact status.entry }
    ensures sound { IsSoundRevocation result }
{
    match status {
        Status::Wrong => Revocation::Done(Idle::WrongHandle),
        Status::Unseen => {
            if is_own {
                Revocation::Done(Idle::NeverMinted)
            } else {
                revoke_unseen(ledger, choice, fact)
            }
        }
        Status::Broken(expiry) => {
            if expiry.seconds() <= now.seconds() {
                Revocation::Done(Idle::Past)
            } else {
                revoke_unless_held(ledger, fact)
            }
        }
        Status::Known(standing) => {
            if standing.expiry.seconds() <= now.seconds() {
                Revocation::Done(Idle::Past)
            } else {
                revoke_known(ledger, fact, &standing)
            }
        }
    }
}

// Judges a request to revoke a token of another region that this region has not seen.
fn revoke_unseen(ledger: &Ledger, choice: UnseenRevocation, fact: TokenRevoked) -> Revocation
    requires { is_revocable fact.token.kind ≡ true }
    ensures value { result ≡ spec.revoked_unseen (held_facts ledger.now) choice fact }
    ensures sound { IsSoundRevocation result }
{
    if may_revoke_unseen(ledger, choice, fact.client) {
        return revoke_unless_held(ledger, fact);
    }
    if ledger.revoked(&fact.token, &fact.digest, fact.client) {
        return Revocation::Done(Idle::Revoked);
    }
    Revocation::Later
}

// Returns whether the client that was added at the dot may revoke a token that is not seen.
fn may_revoke_unseen(ledger: &Ledger, choice: UnseenRevocation, client: Dot) -> bool
    ensures { result ≡ spec.may_revoke_unseen choice (client_view (held_facts ledger.now) client) }
{
    match choice {
        UnseenRevocation::Any => true,
        UnseenRevocation::Authenticated => is_authenticated(ledger, client),
        UnseenRevocation::Nobody => false,
    }
}

// Returns whether the client that was added at the dot has a secret.
fn is_authenticated(ledger: &Ledger, client: Dot) -> bool
    ensures { result ≡ spec.is_authenticated (client_view (held_facts ledger.now) client) }
{
    match ledger.client(client) {
        Some(view) => proves_secret(view.client_kind),
        None => false,
    }
}

// Returns whether clients of the kind prove a secret.
fn proves_secret(client_kind: &ClientKind) -> bool
    ensures { result ≡ spec.proves_secret client_kind.now }
{
    match client_kind {
        ClientKind::Public => false,
        ClientKind::Confidential(_) | ClientKind::Resource(_) | ClientKind::Keeping(_) => true,
    }
}

// Judges a request by the token's standing.
fn revoke_known(ledger: &Ledger, fact: TokenRevoked, standing: &Standing<'_>) -> Revocation
    requires { is_revocable fact.token.kind ≡ true }
    ensures value { result ≡ spec.revoked_by_state (held_facts ledger.now) fact standing.now.client
        standing.now.state }
    ensures sound { IsSoundRevocation result }
{
    revoke_by_state(ledger, fact, standing.client, standing.state)
}

// Judges a request by the token's state.
fn revoke_by_state(ledger: &Ledger, fact: TokenRevoked, client: Dot, state: State) -> Revocation
    requires { is_revocable fact.token.kind ≡ true }
    ensures value { result ≡ spec.revoked_by_state (held_facts ledger.now) fact client state }
    ensures sound { IsSoundRevocation result }
{
    match state {
        State::Dead => Revocation::Done(Idle::DeadFamily),
        State::Withdrawn | State::Over | State::Used | State::Past | State::Ended | State::Live =>
            revoke_of_client(ledger, fact, client),
    }
}

// Judges a request by the token's client, which must be the sender.
fn revoke_of_client(ledger: &Ledger, fact: TokenRevoked, client: Dot) -> Revocation
    requires { is_revocable fact.token.kind ≡ true }
    ensures value { result ≡ spec.revoked_of_client (held_facts ledger.now) fact client }
    ensures sound { IsSoundRevocation result }
{
    if client != fact.client {
        return Revocation::Refused(Refusal::ForeignToken);
    }
    revoke_unless_held(ledger, fact)
}

// Revokes the token, unless the client revoked it before.
fn revoke_unless_held(ledger: &Ledger, fact: TokenRevoked) -> Revocation
    requires { is_revocable fact.token.kind ≡ true }
    ensures value { result ≡ spec.revoked_unless_held (held_facts ledger.now) fact }
    ensures sound { IsSoundRevocation result }
{
    if ledger.revoked(&fact.token, &fact.digest, fact.client) {
        return Revocation::Done(Idle::Revoked);
    }
    Revocation::Revokes(fact)
}
