//! Pseudo-random histories of facts, skips and prunes: the ledger agrees with a plain one.
//!
//! Each step has the same outcome in both. All answers are compared after each skip and each prune,
//! and at the end.
//!
//! A history has two families, which end at different moments. Facts arrive late, twice, before
//! their parents, and after they were skipped. Some are hostile: second uses, reuses of tokens of
//! the other family or of nobody, revocations before the tokens, and other facts at dots that are
//! known.

use super::alike::{Compared, are_all_alike};
use super::facts::{ANN, Place, READ_WRITE, Says, dot};
use super::orders::{Both, add_to_both};
use std::alloc::Global;
use std::test::Fail;
use tk_fact::Subject;
use tk_handle::{Kind, Moment};
use tk_scope::Scope;
use tk_store::{AddError, Added};

const PLACES: [Place; 12] = [
    (1, 1),
    (1, 2),
    (1, 3),
    (1, 4),
    (1, 5),
    (2, 1),
    (2, 2),
    (2, 3),
    (3, 1),
    (3, 2),
    (3, 3),
    (3, 4),
];

// The codes of the two families, and the moments at which these end.
const FIRST: Place = (1, 3);

const SECOND: Place = (2, 2);

const FIRST_END: u64 = 50_000;

const SECOND_END: u64 = 90_000;

// The moments of prunes: before both ends, at a code's expiry, and around the ends of families.
const HORIZONS: [u64; 6] = [0, 1_060, 49_999, 50_000, 89_999, 90_000];

// The tokens of a dot, and one by a wrong digest.
const TOKENS: [(Kind, u64); 4] = [
    (Kind::Code, 9),
    (Kind::Access, 7),
    (Kind::Refresh, 8),
    (Kind::Refresh, 7),
];

// How many steps a history has: a prime, so that each stride makes another order.
const STEPS: u64 = 29;

// How many places the steps before the next one are. The last stride is the reverse order.
const STRIDES: [u64; 5] = [1, 3, 11, 20, 28];

// ---- histories

// A step of a history: a fact, a dot to skip, or the moment of a prune.
#[derive(Clone, Copy)]
enum Step {
    Add(Place, Says),
    Skip(Place),
    Prune(u64),
}

// A pseudo-random number, computed from another.
fn next(number: u64) -> u64 {
    number
        .wrapping_mul(6_364_136_223_846_793_005)
        .wrapping_add(1_442_695_040_888_963_407)
}

fn place(number: u64) -> Place {
    PLACES[(number % 12) as usize]
}

// Returns the dot that a fact names: mostly that of the story, otherwise any.
fn named(usual: Place, number: u64) -> Place {
    if number % 5 == 0 {
        place(number / 5)
    } else {
        usual
    }
}

// Returns the number of a kind: mostly that of the story, otherwise any.
fn kind_at(index: u64, number: u64) -> u64 {
    if number % 6 == 0 {
        number / 6 % 12
    } else {
        index % 12
    }
}

fn code(number: u64, end: u64) -> Says {
    Says::CodeUntil(9, named((1, 1), number >> 8), (1, 2), end)
}

// Returns a revocation, a retirement, a withdrawal, a sign-out or a secret.
fn lasting(number: u64) -> Says {
    match number % 7 {
        0 => Says::ClientRetired(named((1, 1), number / 7)),
        1 => Says::ConsentWithdrawn(named((1, 2), number / 7)),
        2 => Says::SubjectOut(ANN, 999 + number / 7 % 2),
        3 => Says::TokenRevoked((place(number / 7), Kind::Access, 7), (1, 1)),
        4 => Says::TokenRevoked((place(number / 7), Kind::Refresh, 8), (1, 1)),
        _ => secret(number / 7),
    }
}

// Returns a secret of one of the turns 1 to 3, with one of the digests 2 to 4.
fn secret(number: u64) -> Says {
    let digest = match number % 3 {
        0 => 2,
        1 => 3,
        _ => 4,
    };
    Says::SecretSet(named((1, 1), number / 3), 1 + number / 9 % 3, digest)
}

// Returns a reuse: of a token of the first family, or of any token.
fn reuse(number: u64) -> Says {
    if number % 2 == 0 {
        Says::ReuseSeen(named((1, 4), number / 2), Kind::Refresh)
    } else {
        Says::ReuseSeen(named(FIRST, number / 2), Kind::Code)
    }
}

// Returns the body of the fact at the index of its dot.
fn told(index: u64, number: u64) -> Says {
    let number = number >> 12;
    match kind_at(index, number >> 30) {
        0 if number % 2 == 0 => Says::ClientAdded,
        0 => Says::ClientLimited,
        1 => Says::ConsentGiven((1, 1), READ_WRITE),
        2 => code(number, FIRST_END),
        3 => Says::CodeRedeemed(named(FIRST, number), (7, 8)),
        4 => Says::RefreshRotated(named((1, 4), number), 1, (7, 8)),
        5 if number % 2 == 0 => Says::CodeRedeemed(named(FIRST, number / 2), (7, 8)),
        5 => Says::RefreshRotated(named((1, 4), number / 2), 1, (7, 8)),
        6 => code(number, SECOND_END),
        7 => Says::CodeRedeemed(named(SECOND, number), (7, 8)),
        8 => reuse(number),
        9 if number % 2 == 0 => Says::AccessRefreshed(named((1, 4), number / 2), 7),
        9 => reuse(number / 2),
        10 => Says::RefreshRotated(named((1, 5), number), 2, (7, 8)),
        _ => lasting(number),
    }
}

// Returns a step of the history of this seed. A dot's fact is mostly that of the seed.
fn made(seed: u64, turn: u64) -> Step {
    let number = next(next(seed).wrapping_add(turn)) >> 16;
    let index = number % 12;
    match number / 12 % 20 {
        0..=2 => Step::Skip(place(index)),
        3..=4 => Step::Prune(HORIZONS[(number / 240 % 6) as usize]),
        5 => Step::Add(place(index), told(index, next(number))),
        _ => Step::Add(
            place(index),
            told(index, next(next(seed).wrapping_mul(index + 1))),
        ),
    }
}

// ---- the comparison

// What happened in histories.
#[derive(Clone, Copy)]
struct Counts {
    // Facts that prunes skipped.
    pruned: u64,
    // Facts that arrived at a skipped dot and were dropped.
    dropped: u64,
    // Facts that were refused, and dots that were not skipped.
    refused: u64,
}

fn count_addition(counts: &mut Counts, was_skipped: bool, outcome: Result<Added, AddError>) {
    match outcome {
        Ok(_) if was_skipped => counts.dropped = counts.dropped.saturating_add(1),
        Ok(_) => {}
        Err(_) => counts.refused = counts.refused.saturating_add(1),
    }
}

fn add(alloc: Global, both: &mut Both, at: Place, says: Says, counts: &mut Counts) -> Option<()> {
    let was_skipped = both.plain.is_marked(dot(at)?);
    let outcome = add_to_both(alloc, both, &(at, says))?;
    count_addition(counts, was_skipped, outcome);
    Some(())
}

fn skip(both: &mut Both, at: Place, counts: &mut Counts) -> Option<()> {
    let dot = dot(at)?;
    let outcome = both.ledger.skip(dot);
    if both.plain.skip(dot) != outcome {
        return None;
    }
    count_addition(counts, false, outcome);
    Some(())
}

fn prune(alloc: Global, both: &mut Both, moment: u64, counts: &mut Counts) -> Option<()> {
    let moment = Moment::new(moment)?;
    let pruned = both.ledger.prune(alloc, moment).ok()?;
    if both.plain.prune(alloc, moment).ok()? != pruned {
        return None;
    }
    counts.pruned = counts.pruned.saturating_add(pruned);
    Some(())
}

// Does a step in both ledgers. Returns `None` if they differ in the outcome.
fn take(alloc: Global, both: &mut Both, step: Step, counts: &mut Counts) -> Option<()> {
    match step {
        Step::Add(at, says) => add(alloc, both, at, says, counts),
        Step::Skip(at) => skip(both, at, counts),
        Step::Prune(moment) => prune(alloc, both, moment, counts),
    }
}

// Returns whether all answers are compared after the step.
fn is_compared(step: Step, turns: u64) -> bool {
    match step {
        Step::Add(_, _) => turns == STEPS - 1,
        Step::Skip(_) | Step::Prune(_) => true,
    }
}

// Goes through a history in the order of the stride. Returns whether the ledgers agree throughout.
fn agree(
    alloc: Global,
    both: &mut Both,
    seed: u64,
    stride: u64,
    compared: &Compared<'_>,
    counts: &mut Counts,
) -> bool {
    for turns in 0..STEPS {
        let step = made(seed, turns.wrapping_add(1).wrapping_mul(stride) % STEPS);
        if take(alloc, both, step, counts).is_none() {
            return false;
        }
        if is_compared(step, turns) && !are_all_alike(both, compared) {
            return false;
        }
    }
    true
}

// Returns the first seed and stride of a history in which the ledgers differ.
fn first_unlike(alloc: Global, compared: &Compared<'_>, counts: &mut Counts) -> Option<(u64, u64)> {
    for seed in 0..40 {
        for stride in STRIDES {
            let mut both = Both::new(alloc);
            let agree = agree(alloc, &mut both, seed, stride, compared, counts);
            drop(both);
            if !agree {
                return Some((seed, stride));
            }
        }
    }
    None
}

fn compare(
    alloc: Global,
    subject: &Subject,
    scope: &Scope,
    counts: &mut Counts,
) -> Option<(u64, u64)> {
    let compared = Compared {
        places: &PLACES,
        tokens: &TOKENS,
        clients: &[(1, 1), (2, 1)],
        moments: &[1_020],
        subject,
        scope,
    };
    first_unlike(alloc, &compared, counts)
}

fn compare_for(alloc: Global, subject: &Subject, counts: &mut Counts) -> Option<(u64, u64)> {
    match &Scope::read(alloc, b"read") {
        Ok(scope) => compare(alloc, subject, scope, counts),
        Err(_) => Some((0, 0)),
    }
}

#[test]
fn both_ledgers_agree_throughout_histories(rt: HostRuntime) -> Result<(), Fail> {
    let mut counts = Counts {
        pruned: 0,
        dropped: 0,
        refused: 0,
    };
    let alloc = rt.alloc();
    let unlike = match &Subject::read(alloc, b"ann") {
        Ok(subject) => compare_for(alloc, subject, &mut counts),
        Err(_) => return Err("no memory".into()),
    };
    assert!(rt; unlike.is_none(), "{unlike:?}");
    let (pruned, dropped, refused) = (counts.pruned, counts.dropped, counts.refused);
    assert!(rt; pruned > 200, "{pruned} facts pruned");
    assert!(rt; dropped > 200, "{dropped} facts dropped");
    assert!(rt; refused > 200, "{refused} refusals");
    Ok(())
}
