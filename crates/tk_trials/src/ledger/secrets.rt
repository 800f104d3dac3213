//! The secrets of clients: the last turn, and which secrets are good, by walks over a list of
//! facts.

use super::facts::{Place, Says, Told, dot, secret_digest};
use super::orders::{Both, in_order};
use std::alloc::Global;
use tk_fact::{Body, Fact};
use tk_handle::Dot;
use tk_ledger::Ledger;

// The digest with which each client is compared as registered.
const FIRST: u8 = 1;

// The numbers of the digests that are compared: the first, those that are set, and another.
const NUMBERS: [u8; 5] = [FIRST, 2, 3, 4, 5];

// ---- the walks

// Returns the turn at which the fact sets a secret of the client, with the digest.
fn set_by(fact: &Fact, client: Dot) -> Option<(u64, [u8; 32])> {
    match &fact.body {
        Body::SecretSet(set) if set.client == client => Some((set.turn, set.digest)),
        _ => None,
    }
}

// Returns the greatest turn at which a secret of the client was set, or 0.
fn last_turn(facts: &[Fact], client: Dot) -> u64 {
    let mut last = 0_u64;
    for fact in facts {
        match set_by(fact, client) {
            Some((turn, _)) if last < turn => last = turn,
            _ => {}
        }
    }
    last
}

// Returns whether the client has the secret at the turn.
fn has_secret(facts: &[Fact], client: Dot, turn: u64, digest: &[u8; 32]) -> bool {
    if turn == 0 && *digest == secret_digest(FIRST) {
        return true;
    }
    for fact in facts {
        if set_by(fact, client) == Some((turn, *digest)) {
            return true;
        }
    }
    false
}

// Returns whether the client has the secret at the last turn or at the turn before.
fn is_good(facts: &[Fact], client: Dot, digest: &[u8; 32]) -> bool {
    let last = last_turn(facts, client);
    has_secret(facts, client, last, digest)
        || (0 < last && has_secret(facts, client, last.saturating_sub(1), digest))
}

// ---- the comparison

fn is_secret_alike(both: &Both, client: Dot, number: u8) -> bool {
    let (facts, first, digest) = (
        both.plain.facts(),
        secret_digest(FIRST),
        secret_digest(number),
    );
    for turn in 0..=4_u64 {
        if both.ledger.has_secret(client, &first, turn, &digest)
            != has_secret(facts, client, turn, &digest)
        {
            return false;
        }
    }
    both.ledger.accepts(client, &first, &digest) == is_good(facts, client, &digest)
}

/// Returns whether both ledgers agree on the secrets of the client.
pub(super) fn are_secrets_alike(both: &Both, client: Dot) -> bool {
    for number in NUMBERS {
        if !is_secret_alike(both, client, number) {
            return false;
        }
    }
    both.ledger.last_turn(client) == last_turn(both.plain.facts(), client)
}

/// Returns whether two ledgers agree which secrets of the client are good.
pub(super) fn secrets_agree(left: &Ledger, right: &Ledger, client: Dot) -> bool {
    let first = secret_digest(FIRST);
    for number in NUMBERS {
        let digest = secret_digest(number);
        if left.accepts(client, &first, &digest) != right.accepts(client, &first, &digest) {
            return false;
        }
    }
    left.last_turn(client) == right.last_turn(client)
}

// ---- orders

const CLIENT: Place = (1, 1);

// Two secrets of one turn, one of the next turn, and one of another client.
const SECRETS: &[Told] = &[
    ((1, 2), Says::SecretSet(CLIENT, 1, 2)),
    ((2, 1), Says::SecretSet(CLIENT, 1, 3)),
    ((2, 2), Says::SecretSet(CLIENT, 2, 4)),
    ((1, 3), Says::SecretSet((1, 9), 3, 5)),
];

// Returns whether exactly the secrets of the last two turns are good.
fn are_last_two_good(both: &Both) -> bool {
    let Some(client) = dot(CLIENT) else {
        return false;
    };
    for number in NUMBERS {
        let is_good = both
            .ledger
            .accepts(client, &secret_digest(FIRST), &secret_digest(number));
        if is_good != (2..=4).contains(&number) {
            return false;
        }
    }
    are_secrets_alike(both, client)
}

fn are_good_in_order(alloc: Global, order: usize) -> bool {
    match in_order(alloc, SECRETS, order) {
        Some(both) => {
            let are_good = are_last_two_good(&both);
            drop(both);
            are_good
        }
        None => false,
    }
}

// Returns the first order in which other secrets are good.
fn other_good(alloc: Global) -> Option<usize> {
    for order in 0..24 {
        if !are_good_in_order(alloc, order) {
            return Some(order);
        }
    }
    None
}

#[test]
fn secrets_of_the_last_two_turns_are_good_in_every_order(rt: HostRuntime) {
    let wrong = other_good(rt.alloc());
    assert!(rt; wrong.is_none(), "{wrong:?}");
}
