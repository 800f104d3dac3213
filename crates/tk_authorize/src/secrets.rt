//! Judgements of requests that change the secret of a client.

ghost use Rattle.std.specs.Prelude.{◌≡◌, ◌≤◌, Ok as Found, Some};
ghost use Rattle.std.specs.Option.{option_copied};
ghost use Rattle.tk_params.specs.Params.{has_twice};
ghost use Rattle.tk_store.specs.StoreFields.{held_facts};
ghost use Rattle.tk_authorize.specs.SecretChanges as spec;
ghost use Rattle.tk_authorize.specs.SoundAdministered.{IsSoundAdministered};

use crate::admin_refusal::AdminRefusal;
use crate::administered::Administered;
use crate::client_params::{client_asked, digest_asked};
use tk_fact::{ClientKind, MAX_TURNS, SecretSet};
use tk_handle::{Dot, Moment};
use tk_ledger::Ledger;
use tk_message::Params;

// Judges a request to change the secret of a client.
pub(crate) fn change_secret(ledger: &Ledger, now: Moment, params: &Params) -> Administered
    ensures value { result ≡ spec.changed_of (held_facts ledger.now) now params.now }
    ensures sound { IsSoundAdministered result }
{
    if has_repeats(params) {
        return Administered::Refused(AdminRefusal::DuplicateParameter);
    }
    let secret = params.value("secret");
    let old = params.value("old");
    match client_asked(params.value("client_id")) {
        Ok(client) => change_at(ledger, now, client, secret, old),
        Err(why) => Administered::Refused(why),
    }
}

// Returns whether a parameter that the endpoint knows occurs twice.
fn has_repeats(params: &Params) -> bool
    ensures { result ≡ has_twice spec.change_names params.now }
{
    let names = ["client_id", "secret", "old"];
    params.has_twice(&names)
}

// Judges a change of the secret of the client that was added at the dot, if one was and is live.
fn change_at(
    ledger: &Ledger,
    now: Moment,
    client: Dot,
    secret: Option<&str>,
    old: Option<&str>,
) -> Administered
    ensures value { result ≡ spec.changed_by (held_facts ledger.now) now
        (option_copied secret.entry) (option_copied old.entry) (Found client) }
    ensures sound { IsSoundAdministered result }
{
    match ledger.client(client) {
        Some(view) if view.live => change_from(ledger, now, client, view.client_kind, secret, old),
        Some(_) => Administered::Refused(AdminRefusal::UnknownClient),
        None => Administered::Refused(AdminRefusal::UnknownClient),
    }
}

// Judges a change of the secret of a client of this kind, if such clients have a secret.
fn change_from(
    ledger: &Ledger,
    now: Moment,
    client: Dot,
    client_kind: &ClientKind,
    secret: Option<&str>,
    old: Option<&str>,
) -> Administered
    ensures value { result ≡ spec.changed_from (held_facts ledger.now) now client
        (spec.first_secret client_kind.now) (option_copied secret.entry)
        (option_copied old.entry) }
    ensures sound { IsSoundAdministered result }
{
    match client_kind {
        ClientKind::Public => Administered::Refused(AdminRefusal::UnwantedSecret),
        ClientKind::Confidential(first) => change_to(ledger, now, client, first, secret, old),
        ClientKind::Resource(first) => change_to(ledger, now, client, first, secret, old),
        ClientKind::Keeping(first) => change_to(ledger, now, client, first, secret, old),
    }
}

// Judges a change to the secret, which is required. `first` is the digest of the secret with which
// the client was registered.
fn change_to(
    ledger: &Ledger,
    now: Moment,
    client: Dot,
    first: &[u8; 32],
    secret: Option<&str>,
    old: Option<&str>,
) -> Administered
    ensures value { result ≡ spec.changed_from (held_facts ledger.now) now client
        (Some first.now) (option_copied secret.entry) (option_copied old.entry) }
    ensures sound { IsSoundAdministered result }
{
    match digest_asked(secret) {
        Ok(digest) => change_as(ledger, now, client, first, digest, old),
        Err(why) => Administered::Refused(why),
    }
}

// Judges a change to the secret with the digest, by `old`, if it is sent.
fn change_as(
    ledger: &Ledger,
    now: Moment,
    client: Dot,
    first: &[u8; 32],
    digest: [u8; 32],
    old: Option<&str>,
) -> Administered
    ensures value { result ≡ spec.changed_as (held_facts ledger.now) now client first.now digest
        (option_copied old.entry) }
    ensures sound { IsSoundAdministered result }
{
    match old {
        None => change_once(ledger, now, client, first, digest),
        Some(old) => end_if(ledger, now, client, digest, old),
    }
}

// Sets the secret with the digest at the next turn, unless the client has that secret at its last
// turn already.
fn change_once(
    ledger: &Ledger,
    now: Moment,
    client: Dot,
    first: &[u8; 32],
    digest: [u8; 32],
) -> Administered
    ensures value { result
        ≡ spec.changed_once (held_facts ledger.now) now client first.now digest }
    ensures sound { IsSoundAdministered result }
{
    let last = ledger.last_turn(client);
    if ledger.has_secret(client, first, last, &digest) {
        return Administered::HasSecret(client);
    }
    set_at(now, client, digest, last, 1)
}

// Sets the secret with the digest two turns after the last one, if `old` is `ended`: secrets that
// were set before aren't good any more.
fn end_if(ledger: &Ledger, now: Moment, client: Dot, digest: [u8; 32], old: &str) -> Administered
    ensures value { result ≡ spec.ended_if (held_facts ledger.now) now client digest old.now }
    ensures sound { IsSoundAdministered result }
{
    if old == "ended" {
        set_at(now, client, digest, ledger.last_turn(client), 2)
    } else {
        Administered::Refused(AdminRefusal::WrongOld)
    }
}

// Sets the secret with the digest the given number of turns after the last one, unless that is
// above the greatest turn.
fn set_at(now: Moment, client: Dot, digest: [u8; 32], last: u64, turns: u64) -> Administered
    requires one { 1 ≤ turns }
    requires two { turns ≤ 2 }
    ensures value { result ≡ spec.set_at now client digest last turns }
    ensures sound { IsSoundAdministered result }
{
    if last > MAX_TURNS - turns {
        return Administered::Refused(AdminRefusal::TooManyTurns);
    }
    Administered::SetsSecret(SecretSet {
        client,
        turn: last + turns,
        digest,
        moment: now,
        by: None,
    })
}
