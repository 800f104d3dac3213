//! All answers of a ledger beside those of a plain one.

use super::facts::{Place, dot, handle};
use super::orders::Both;
use super::same::{same_clients, same_consents, same_statuses, same_views};
use super::secrets::are_secrets_alike;
use super::subjects::{are_logins_alike, are_walks_alike};
use tk_fact::{Fact, Subject};
use tk_family::Steps;
use tk_handle::{Dot, Handle, Kind, Moment, RegionNumber};
use tk_ledger::ClientView;
use tk_scope::Scope;
use tk_store::SlotRef;

/// What two ledgers are compared by.
#[derive(Drop)]
pub(super) struct Compared<'a> {
    pub(super) places: &'a [Place],
    /// The kinds of the tokens at each place, and the numbers of their random words.
    pub(super) tokens: &'a [(Kind, u64)],
    /// The clients that may have revoked a token, or may have a changed secret.
    pub(super) clients: &'a [Place],
    /// The moments of the statuses.
    pub(super) moments: &'a [u64],
    pub(super) subject: &'a Subject,
    pub(super) scope: &'a Scope,
}

// ---- what is known of a dot

fn is_fact(fact: &Fact, plain: Option<&Fact>) -> bool {
    match plain {
        Some(plain) => fact.dot == plain.dot && fact.body.same(&plain.body),
        None => false,
    }
}

fn is_slot_alike(both: &Both, at: Dot) -> bool {
    let (is_marked, plain) = (both.plain.is_marked(at), both.plain.get(at));
    let is_alike = match both.ledger.store().slot(at) {
        Some(SlotRef::Held(fact)) => is_fact(fact, plain) && !is_marked,
        Some(SlotRef::Skipped) => is_marked && plain.is_none(),
        None => !is_marked && plain.is_none(),
    };
    is_alike && both.ledger.skipped(at) == is_marked
}

fn is_region_alike(both: &Both, region: RegionNumber) -> bool {
    let store = both.ledger.store();
    let next = match store.next_dot(region) {
        Some(dot) => dot.serial(),
        None => 0,
    };
    store.vector().get(region) == both.plain.front(region)
        && next == both.plain.last_serial(region).saturating_add(1)
}

// ---- clients, consents and tokens

// Returns whether the plain ledger has this client.
fn is_plain(both: &Both, client: &(Dot, ClientView<'_>)) -> bool {
    match both.plain.client(client.0) {
        Some(view) => same_views(&client.1, &view),
        None => false,
    }
}

// Returns whether both ledgers have the same client next above a dot, or first of all.
fn is_next_alike(both: &Both, after: Option<Dot>) -> bool {
    let cursor = after;
    let plain = both.plain.next_client(cursor);
    match both.ledger.next_client(after) {
        Some(next) => plain == Some(next.0) && is_plain(both, &next),
        None => plain.is_none(),
    }
}

fn is_place_alike(both: &Both, at: Dot, compared: &Compared<'_>) -> bool {
    let found = both
        .ledger
        .consent_for(at, compared.subject, compared.scope);
    found == both.plain.consent_for(at, compared.subject, compared.scope)
        && same_clients(&both.ledger.client(at), &both.plain.client(at))
        && is_next_alike(both, Some(at))
        && same_consents(&both.ledger.consent(at), &both.plain.consent(at))
        && is_slot_alike(both, at)
        && is_region_alike(both, at.region())
}

fn is_status_alike(both: &Both, now: u64, token: &Handle) -> bool {
    let Some(now) = Moment::new(now) else {
        return false;
    };
    let mut steps = Steps::new();
    let status = both.ledger.status(now, token, &mut steps);
    same_statuses(&status, &both.plain.status(now, token)) && steps.count() <= 8
}

fn are_statuses_alike(both: &Both, compared: &Compared<'_>, token: &Handle) -> bool {
    for now in compared.moments {
        if !is_status_alike(both, *now, token) {
            return false;
        }
    }
    true
}

// Returns whether both ledgers agree which clients revoked a token.
fn are_revocations_alike(both: &Both, compared: &Compared<'_>, token: &Handle) -> bool {
    let digest = token.digest();
    for client in compared.clients {
        match dot(*client) {
            Some(client)
                if both.ledger.revoked(&token.id, &digest, client)
                    == both.plain.revoked(&token.id, &digest, client) => {}
            _ => return false,
        }
    }
    true
}

fn is_token_alike(both: &Both, token: &Handle, compared: &Compared<'_>) -> bool {
    are_statuses_alike(both, compared, token) && are_revocations_alike(both, compared, token)
}

fn is_all_alike_at(both: &Both, at: Place, compared: &Compared<'_>) -> bool {
    for (kind, word) in compared.tokens {
        match handle((at, *kind, *word)) {
            Some(token) if is_token_alike(both, &token, compared) => {}
            _ => return false,
        }
    }
    match dot(at) {
        Some(dot) => {
            is_place_alike(both, dot, compared)
                && are_walks_alike(both, Some(dot), compared)
                && are_logins_alike(both, dot, compared)
        }
        None => false,
    }
}

// ---- the whole

// Returns whether both ledgers agree that the subject signed out at the moment or later.
fn is_out_alike(both: &Both, subject: &Subject, moment: u64) -> bool {
    let reaches = match both.ledger.signed_out(subject) {
        Some(last) => moment <= last.seconds(),
        None => false,
    };
    match Moment::new(moment) {
        Some(moment) => both.plain.is_signed_out(subject, moment) == reaches,
        None => false,
    }
}

fn are_outs_alike(both: &Both, subject: &Subject) -> bool {
    for moment in [0, 998, 999, 1_000, 1_001] {
        if !is_out_alike(both, subject, moment) {
            return false;
        }
    }
    true
}

// Returns whether both ledgers agree on the secrets of the clients.
fn are_clients_alike(both: &Both, clients: &[Place]) -> bool {
    for client in clients {
        match dot(*client) {
            Some(client) if are_secrets_alike(both, client) => {}
            _ => return false,
        }
    }
    true
}

/// Returns whether all answers of both ledgers are alike.
pub(super) fn are_all_alike(both: &Both, compared: &Compared<'_>) -> bool {
    for at in compared.places {
        if !is_all_alike_at(both, *at, compared) {
            return false;
        }
    }
    both.ledger.store().len() == both.plain.len()
        && both.ledger.horizon().seconds() == both.plain.horizon()
        && are_outs_alike(both, compared.subject)
        && are_clients_alike(both, compared.clients)
        && is_next_alike(both, None)
        && are_walks_alike(both, None, compared)
}
