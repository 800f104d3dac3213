//! Additions that run out of memory leave every answer of a ledger unchanged.
//!
//! In the tests each allocation fails once, one run for each, as docs/GATE.md describes. If no
//! allocation fails, all facts are held.

use super::facts::{ANN, Place, Says, Token, Told, dot, handle};
use super::orders::{Case, Row, add_to_ledger, copied};
use super::same::{same_clients, same_consents, same_statuses};
use super::secrets::secrets_agree;
use super::{ADDED, AT_ONCE, CUT_OFF, GIVEN, ISSUED, REVOKED_BY};
use std::alloc::Global;
use std::process::Abort;
use std::test::Fail;
use tk_fact::Subject;
use tk_family::Steps;
use tk_handle::{Dot, Handle, Kind, Moment};
use tk_ledger::Ledger;
use tk_scope::Scope;
use tk_store::AddError;

const PLACES: [Place; 7] = [(1, 1), (1, 2), (1, 3), (1, 4), (1, 5), (2, 1), (2, 9)];

// At least one fact of each kind, and a client with lives, with facts that wait for the code that
// they are under.
const FACTS: &[Told] = &[
    // Facts that wait for others: rotations, a revocation and a redemption.
    ((1, 5), Says::RefreshRotated((1, 4), 1, (7, 8))),
    (
        (2, 2),
        Says::TokenRevoked(((1, 5), Kind::Refresh, 8), (1, 1)),
    ),
    ((2, 1), Says::RefreshRotated((1, 5), 2, (7, 8))),
    ((1, 4), Says::CodeRedeemed((1, 3), (7, 8))),
    ADDED,
    GIVEN,
    ISSUED,
    // Secrets of a client, set at two turns.
    ((3, 1), Says::SecretSet((1, 1), 1, 2)),
    ((3, 2), Says::SecretSet((1, 1), 2, 3)),
    // Facts that end a family, all families of a subject, a consent and a client.
    ((2, 6), Says::SubjectOut(ANN, 1_020)),
    ((2, 7), Says::SubjectOut(ANN, 1_010)),
    ((2, 8), Says::AccessRefreshed((1, 4), 7)),
    ((2, 3), Says::ReuseSeen((1, 3), Kind::Code)),
    ((2, 4), Says::ConsentWithdrawn((1, 2))),
    ((2, 5), Says::ClientRetired((1, 1))),
    ((2, 9), Says::ClientLimited),
];

// The tokens that any of the dots may have minted.
pub(super) const TOKENS: &[Token] = &[
    ((1, 1), Kind::Code, 24),
    ((1, 1), Kind::Access, 7),
    ((1, 1), Kind::Refresh, 8),
    ((1, 2), Kind::Code, 24),
    ((1, 2), Kind::Access, 7),
    ((1, 2), Kind::Refresh, 8),
    ((1, 3), Kind::Code, 24),
    ((1, 3), Kind::Access, 7),
    ((1, 3), Kind::Refresh, 8),
    ((1, 4), Kind::Code, 24),
    ((1, 4), Kind::Access, 7),
    ((1, 4), Kind::Refresh, 8),
    ((1, 5), Kind::Code, 24),
    ((1, 5), Kind::Access, 7),
    ((1, 5), Kind::Refresh, 8),
    ((2, 1), Kind::Code, 24),
    ((2, 1), Kind::Access, 7),
    ((2, 1), Kind::Refresh, 8),
    ((2, 6), Kind::Access, 7),
    ((2, 8), Kind::Access, 7),
];

// ---- the questions

// The questions that two ledgers are compared by: about these tokens and all dots. They are made
// before an addition runs out of memory.
#[derive(Drop)]
pub(super) struct Asked<'a> {
    pub(super) now: Moment,
    pub(super) tokens: &'a [Token],
    pub(super) subject: &'a Subject,
    pub(super) scope: &'a Scope,
}

fn revocations_agree(left: &Ledger, right: &Ledger, token: &Handle, client: Dot) -> bool {
    let digest = token.digest();
    left.revoked(&token.id, &digest, client) == right.revoked(&token.id, &digest, client)
}

fn token_agrees(left: &Ledger, right: &Ledger, asked: &Asked<'_>, token: &Handle) -> bool {
    for place in PLACES {
        match dot(place) {
            Some(client) if revocations_agree(left, right, token, client) => {}
            _ => return false,
        }
    }
    let left = left.status(asked.now, token, &mut Steps::new());
    same_statuses(&left, &right.status(asked.now, token, &mut Steps::new()))
}

fn tokens_agree(left: &Ledger, right: &Ledger, asked: &Asked<'_>) -> bool {
    for token in asked.tokens {
        match handle(*token) {
            Some(token) if token_agrees(left, right, asked, &token) => {}
            _ => return false,
        }
    }
    true
}

fn place_agrees(left: &Ledger, right: &Ledger, asked: &Asked<'_>, dot: Dot) -> bool {
    let found = left.consent_for(dot, asked.subject, asked.scope);
    found == right.consent_for(dot, asked.subject, asked.scope)
        && same_clients(&left.client(dot), &right.client(dot))
        && same_consents(&left.consent(dot), &right.consent(dot))
        && secrets_agree(left, right, dot)
        && left.skipped(dot) == right.skipped(dot)
}

fn places_agree(left: &Ledger, right: &Ledger, asked: &Asked<'_>) -> bool {
    for place in PLACES {
        match dot(place) {
            Some(dot) if place_agrees(left, right, asked, dot) => {}
            _ => return false,
        }
    }
    true
}

pub(super) fn agree(left: &Ledger, right: &Ledger, asked: &Asked<'_>) -> bool {
    left.store().len() == right.store().len()
        && left.horizon() == right.horizon()
        && left.signed_out(asked.subject) == right.signed_out(asked.subject)
        && tokens_agree(left, right, asked)
        && places_agree(left, right, asked)
}

// ---- additions, each of which returns `None` if memory ran out outside the ledger that is tested

fn are_added(alloc: Global, ledger: &mut Ledger, facts: &[Told]) -> bool {
    for told in facts {
        if !matches!(add_to_ledger(alloc, ledger, told), Some(Ok(_))) {
            return false;
        }
    }
    true
}

// Returns a ledger of the facts, for which no allocation was refused.
pub(super) fn fresh(alloc: Global, facts: &[Told]) -> Option<Ledger> {
    let mut ledger = Ledger::new(alloc);
    if are_added(alloc, &mut ledger, facts) {
        Some(ledger)
    } else {
        drop(ledger);
        None
    }
}

// Returns whether the fact was added, and, if memory ran out, whether the ledger answered as before
// and then took the fact.
fn is_taken(
    alloc: Global,
    ledger: &mut Ledger,
    before: &Ledger,
    told: &Told,
    asked: &Asked<'_>,
) -> Option<bool> {
    match add_to_ledger(alloc, ledger, told)? {
        Ok(_) => Some(true),
        Err(AddError::Conflict) => Some(false),
        Err(AddError::Memory) => {
            if !agree(ledger, before, asked) {
                return Some(false);
            }
            match add_to_ledger(alloc, ledger, told)? {
                Ok(_) => Some(true),
                Err(_) => None,
            }
        }
    }
}

// Makes the ledger of the first facts before the next fact is added, so that it exists when each
// later allocation is refused.
fn next_is_taken(
    alloc: Global,
    ledger: &mut Ledger,
    facts: &[Told],
    told: &Told,
    asked: &Asked<'_>,
) -> Option<bool> {
    let before = fresh(alloc, facts)?;
    let is_taken = is_taken(alloc, ledger, &before, told, asked);
    drop(before);
    is_taken
}

// Returns whether the ledger agrees with a new one of all facts.
fn is_as_fresh(alloc: Global, ledger: &Ledger, facts: &[Told], asked: &Asked<'_>) -> Option<bool> {
    let all = fresh(alloc, facts)?;
    let is_so = ledger.store().len() == facts.len() as u64 && agree(ledger, &all, asked);
    drop(all);
    Some(is_so)
}

fn all_are_taken(
    alloc: Global,
    ledger: &mut Ledger,
    facts: &[Told],
    asked: &Asked<'_>,
) -> Option<bool> {
    for (count, told) in facts.iter().enumerate() {
        if !next_is_taken(alloc, ledger, &facts[..count], told, asked)? {
            return Some(false);
        }
    }
    is_as_fresh(alloc, ledger, facts, asked)
}

// Returns whether a ledger takes all facts in this order, and agrees with a new one then.
fn are_taken(alloc: Global, facts: &[Told], asked: &Asked<'_>) -> Option<bool> {
    let mut ledger = Ledger::new(alloc);
    let are_taken = all_are_taken(alloc, &mut ledger, facts, asked);
    drop(ledger);
    are_taken
}

// The facts in their order, and then in the reverse order, in which each waits for what it names.
fn are_taken_both_ways(alloc: Global, facts: &[Told], asked: &Asked<'_>) -> Option<bool> {
    if !are_taken(alloc, facts, asked)? {
        return Some(false);
    }
    let mut facts = copied(alloc, facts)?;
    facts.reverse();
    are_taken(alloc, facts.as_slice(), asked)
}

// The facts in both orders, with the questions after each refusal, about the subject among others.
fn change_no_answer_of(
    alloc: Global,
    facts: &[Told],
    tokens: &[Token],
    subject: &Subject,
) -> Option<bool> {
    let now = Moment::new(1_020)?;
    match &Scope::read(alloc, b"read") {
        Ok(scope) => {
            let asked = Asked {
                now,
                tokens,
                subject,
                scope,
            };
            are_taken_both_ways(alloc, facts, &asked)
        }
        Err(_) => None,
    }
}

fn change_no_answer(alloc: Global, facts: &[Told], tokens: &[Token]) -> Option<bool> {
    match &Subject::read(alloc, b"ann") {
        Ok(subject) => change_no_answer_of(alloc, facts, tokens, subject),
        Err(_) => None,
    }
}

fn tokens_of(alloc: Global, rows: &[Row]) -> Option<Vec<Token>> {
    let mut tokens = Vec::new(alloc);
    for row in rows {
        if tokens.push(row.1).is_err() {
            return None;
        }
    }
    Some(tokens)
}

// The facts of a row, and the tokens that it is about.
fn row_changes_no_answer(alloc: Global, facts: &[Told], rows: &[Row]) -> Option<bool> {
    let tokens = tokens_of(alloc, rows)?;
    change_no_answer(alloc, facts, tokens.as_slice())
}

// Asserts that the comparison holds, which isn't known if memory ran out outside the ledger that is
// tested.
pub(super) fn is_told(rt: &impl Abort, name: &str, told: Option<bool>) -> Result<(), Fail> {
    let is_so = told.ok_or("no memory")?;
    assert!(rt; is_so, "{name}");
    Ok(())
}

// Asserts the comparison for the facts of each case and the tokens that it is about.
fn change_no_answers(rt: &impl Abort, alloc: Global, cases: &[Case]) -> Result<(), Fail> {
    for &(name, facts, _, rows) in cases {
        is_told(rt, name, row_changes_no_answer(alloc, facts, rows))?;
    }
    Ok(())
}

#[test]
fn a_fact_that_is_refused_memory_changes_no_answer(rt: HostRuntime) -> Result<(), Fail> {
    let told = change_no_answer(rt.alloc(), FACTS, TOKENS);
    is_told(&rt, "each kind", told)
}

#[test]
fn being_cut_off_and_refused_memory_changes_no_answer(rt: HostRuntime) -> Result<(), Fail> {
    change_no_answers(&rt, rt.alloc(), CUT_OFF)
}

#[test]
fn two_refreshes_at_once_and_refused_memory_change_no_answer(rt: HostRuntime) -> Result<(), Fail> {
    change_no_answers(&rt, rt.alloc(), AT_ONCE)
}

#[test]
fn advance_revocation_and_refused_memory_changes_no_answer(rt: HostRuntime) -> Result<(), Fail> {
    change_no_answers(&rt, rt.alloc(), REVOKED_BY)
}
