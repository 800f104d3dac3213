//! Pseudo-random sets of facts, hostile ones among them: the ledger agrees with a walk over the
//! facts.

use super::facts::{ANN, Place, READ_WRITE, Says, Token, dot, handle};
use super::orders::{Both, add_to_both, found, in_short};
use std::alloc::Global;
use std::test::Fail;
use tk_fact::ClientLives;
use tk_handle::{Dot, Kind};
use tk_ledger::{ClientView, ConsentView};
use tk_store::AddError;

const PLACES: [Place; 8] = [
    (1, 1),
    (1, 2),
    (1, 3),
    (1, 4),
    (2, 1),
    (1, 5),
    (2, 2),
    (3, 1),
];

const KINDS: [Kind; 3] = [Kind::Code, Kind::Access, Kind::Refresh];

// A pseudo-random sequence of numbers, each computed from the one before.
fn next(number: u64) -> u64 {
    number
        .wrapping_mul(6_364_136_223_846_793_005)
        .wrapping_add(1_442_695_040_888_963_407)
}

fn place(number: u64) -> Place {
    PLACES[(number % 8) as usize]
}

// Returns the kind of the fact at an index: in most sets that of the family's story, in some
// another.
fn kind_at(index: u64, number: u64) -> u64 {
    if number % 4 == 0 {
        number / 4 % 11
    } else {
        index % 11
    }
}

// Returns the dot that a fact names: mostly that of the story, otherwise any.
fn named(usual: usize, number: u64) -> Place {
    if number % 4 == 0 {
        place(number / 4)
    } else {
        PLACES[usual % 8]
    }
}

// Returns the body of the fact at this index.
fn generated(index: u64, number: u64) -> Says {
    let (client, consent) = (named(0, number >> 20), named(1, number >> 26));
    let (code, parent) = (named(2, number >> 32), named(3, number >> 38));
    match kind_at(index, number >> 14) {
        0 => added(number >> 50),
        1 => Says::ConsentGiven(client, READ_WRITE),
        2 => Says::CodeIssued(9, client, consent),
        3 | 4 => Says::CodeRedeemed(code, (7, 8)),
        5 => {
            let generation = if number >> 44 & 1 == 0 { 1 } else { 2 };
            Says::RefreshRotated(parent, generation, (7, 8))
        }
        6 if number >> 50 & 1 == 0 => Says::TokenRevoked((parent, Kind::Access, 7), client),
        6 => Says::TokenRevoked((parent, Kind::Refresh, 8), client),
        7 => Says::ReuseSeen(code, Kind::Code),
        // A sign-out before the codes begin, or in the second in which they begin.
        9 => Says::SubjectOut(ANN, 999 + (number >> 50) % 2),
        10 => Says::AccessRefreshed(parent, 7),
        _ => gone(number >> 50),
    }
}

// A client without lives, or with lives.
fn added(number: u64) -> Says {
    if number % 2 == 0 {
        Says::ClientAdded
    } else {
        Says::ClientLimited
    }
}

// A retirement or a withdrawal.
fn gone(number: u64) -> Says {
    if number % 2 == 0 {
        Says::ClientRetired(named(0, number >> 1))
    } else {
        Says::ConsentWithdrawn(named(1, number >> 1))
    }
}

// Adds ten facts to both ledgers, at dots that the seed chooses. Returns whether both ledgers took
// or refused each of them alike.
fn are_filled(alloc: Global, both: &mut Both, seed: u64) -> bool {
    let mut number = next(seed);
    for step in 0..10_u64 {
        number = next(number);
        // There are eight dots, so two of the ten facts are at dots that are taken.
        let index = seed.wrapping_add(step.wrapping_mul(3 + seed % 4 * 2)) % 8;
        match add_to_both(alloc, both, &(place(index), generated(index, number))) {
            Some(Ok(_)) | Some(Err(AddError::Conflict)) => {}
            _ => return false,
        }
    }
    true
}

// Returns whether both ledgers agree on a token's status and its revocation by the client at 1:1.
fn tells_alike(both: &Both, token: Token) -> Option<bool> {
    let (handle, client) = (handle(token)?, dot((1, 1))?);
    let (id, digest) = (handle.id, handle.digest());
    let revoked = both.ledger.revoked(&id, &digest, client);
    let is_alike = both.plain.revoked(&id, &digest, client) == revoked;
    Some(is_alike && in_short(both, 1_020, token).is_some())
}

// Returns whether both ledgers agree on each token at a dot, with its own digest and with others.
fn tells_tokens_alike(both: &Both, at: Place) -> bool {
    for kind in KINDS {
        for word in [7, 8, 9] {
            if tells_alike(both, (at, kind, word)) != Some(true) {
                return false;
            }
        }
    }
    true
}

// Returns the lives of the client that is shown, and whether it is live.
fn live_client(client: Option<ClientView<'_>>) -> Option<(Option<ClientLives>, bool)> {
    match client {
        Some(client) => Some((client.lives, client.live)),
        None => None,
    }
}

// Returns whether the consent that is shown is live.
fn live_consent(consent: Option<ConsentView<'_>>) -> Option<bool> {
    match consent {
        Some(consent) => Some(consent.live),
        None => None,
    }
}

// The client and the consent at the dot, if any.
fn shows_alike(both: &Both, dot: Dot) -> bool {
    live_client(both.ledger.client(dot)) == live_client(both.plain.client(dot))
        && live_consent(both.ledger.consent(dot)) == live_consent(both.plain.consent(dot))
}

fn is_alike(alloc: Global, both: &Both, at: Place) -> Option<bool> {
    let is_found_alike = found(alloc, both, at, b"ann", b"read").is_some();
    Some(is_found_alike && shows_alike(both, dot(at)?) && tells_tokens_alike(both, at))
}

fn are_alike(alloc: Global, both: &Both) -> bool {
    for at in PLACES {
        if is_alike(alloc, both, at) != Some(true) {
            return false;
        }
    }
    true
}

// Returns how many facts both ledgers were filled with, if they agree on all of them.
fn filled_alike(alloc: Global, both: &mut Both, seed: u64) -> Option<u64> {
    if are_filled(alloc, both, seed) && are_alike(alloc, both) {
        Some(both.ledger.store().len())
    } else {
        None
    }
}

fn alike(alloc: Global, seed: u64) -> Option<u64> {
    let mut both = Both::new(alloc);
    let held = filled_alike(alloc, &mut both, seed);
    drop(both);
    held
}

#[test]
fn both_ledgers_say_the_same_of_generated_facts(rt: HostRuntime) -> Result<(), Fail> {
    let alloc = rt.alloc();
    let mut held: u64 = 0;
    for seed in 0..400 {
        held = held.saturating_add(alike(alloc, seed).ok_or("the ledgers differ")?);
    }
    assert!(rt; held > 2_400, "{held} facts");
    Ok(())
}
