//! Ledgers of facts that arrive in any order: each beside a plain one, which agrees.

use super::facts::{Place, Token, Told, dot, fact, handle};
use super::plain::PlainLedger;
use std::alloc::Global;
use std::process::Abort;
use tk_fact::Subject;
use tk_family::Steps;
use tk_handle::{Dot, Moment};
use tk_ledger::{Ledger, State, Status};
use tk_scope::Scope;
use tk_store::{AddError, Added};

/// A ledger and a plain ledger of the same facts.
#[derive(Drop)]
pub(super) struct Both {
    pub(super) ledger: Ledger,
    pub(super) plain: PlainLedger,
}

impl Both {
    pub(super) fn new(alloc: Global) -> Both {
        Both {
            ledger: Ledger::new(alloc),
            plain: PlainLedger::new(alloc),
        }
    }
}

/// How an addition ended; `None` if there was no memory for the fact itself.
pub(super) type Addition = Option<Result<Added, AddError>>;

pub(super) fn add_to_ledger(alloc: Global, ledger: &mut Ledger, told: &Told) -> Addition {
    let fact = fact(alloc, told)?;
    match fact.check() {
        Ok(()) => Some(ledger.add(fact)),
        Err(_) => {
            drop(fact);
            None
        }
    }
}

fn add_to_plain(alloc: Global, plain: &mut PlainLedger, told: &Told) -> Addition {
    let fact = fact(alloc, told)?;
    match fact.check() {
        Ok(()) => Some(plain.add(fact)),
        Err(_) => {
            drop(fact);
            None
        }
    }
}

// Adds a fact to both ledgers. `None` means that they differ, or that there is no memory for the
// fact.
pub(super) fn add_to_both(alloc: Global, both: &mut Both, told: &Told) -> Addition {
    let added = add_to_ledger(alloc, &mut both.ledger, told)?;
    if add_to_plain(alloc, &mut both.plain, told)? == added {
        Some(added)
    } else {
        None
    }
}

pub(super) fn copied(alloc: Global, facts: &[Told]) -> Option<Vec<Told>> {
    let mut copied = Vec::new(alloc);
    for told in facts {
        if copied.push(*told).is_err() {
            return None;
        }
    }
    Some(copied)
}

// Adds the facts left, if they can be added. Each remainder chooses the next one.
fn are_left_added(alloc: Global, both: &mut Both, left: &mut Vec<Told>, order: usize) -> bool {
    let mut order = order;
    for count in (1..=left.len()).rev() {
        let at = order % count;
        order /= count;
        if at < left.len() {
            let told = left.remove(at);
            if !matches!(add_to_both(alloc, both, &told), Some(Ok(_))) {
                return false;
            }
        }
    }
    true
}

// Returns whether the facts can be added in the order of this number, and all are held then.
fn are_added(alloc: Global, both: &mut Both, facts: &[Told], order: usize) -> bool {
    match &mut copied(alloc, facts) {
        Some(left) => {
            are_left_added(alloc, both, left, order)
                && both.ledger.store().len() == facts.len() as u64
        }
        None => false,
    }
}

// Returns the ledgers of the facts, added in the order of this number, if all are held then.
pub(super) fn in_order(alloc: Global, facts: &[Told], order: usize) -> Option<Both> {
    let mut both = Both::new(alloc);
    if are_added(alloc, &mut both, facts, order) {
        Some(both)
    } else {
        drop(both);
        None
    }
}

// A short form of a status.
#[derive(Clone, Copy, PartialEq, Eq)]
pub(super) enum Said {
    Unseen,
    Wrong,
    Broken(u64),
    Known(State),
}

fn short(status: &Status<'_>) -> Said {
    match status {
        Status::Unseen => Said::Unseen,
        Status::Wrong => Said::Wrong,
        Status::Broken(end) => Said::Broken(end.seconds()),
        Status::Known(standing) => Said::Known(standing.state),
    }
}

// Returns the status in both ledgers, by one to eight look-ups; `None` if they differ or take
// another number.
pub(super) fn in_short(both: &Both, now: u64, token: Token) -> Option<Said> {
    let (now, handle) = (Moment::new(now)?, handle(token)?);
    let mut steps = Steps::new();
    let said = short(&both.ledger.status(now, &handle, &mut steps));
    let is_same = short(&both.plain.status(now, &handle)) == said;
    if is_same && steps.count() >= 1 && steps.count() <= 8 {
        Some(said)
    } else {
        None
    }
}

pub(super) fn is_said(both: &Both, now: u64, token: Token, want: Said) -> bool {
    match in_short(both, now, token) {
        Some(said) => said == want,
        None => false,
    }
}

/// A row of a table: its name, a token, and the expected status.
pub(super) type Row = (&'static str, Token, Said);

// Returns the first row whose status differs at 1,020.
fn missed(both: &Both, rows: &[Row]) -> Option<&'static str> {
    for (row, token, want) in rows {
        if !is_said(both, 1_020, *token, *want) {
            return Some(row);
        }
    }
    None
}

// Returns the first row whose status differs, for facts added in the order of this number.
fn missed_in_order(
    alloc: Global,
    facts: &[Told],
    order: usize,
    rows: &[Row],
) -> Option<&'static str> {
    match in_order(alloc, facts, order) {
        Some(both) => {
            let missed = missed(&both, rows);
            drop(both);
            missed
        }
        None => Some("the facts"),
    }
}

// Returns the order and the first row whose status differs at 1,020, in any order of the facts.
fn first_miss(
    alloc: Global,
    facts: &[Told],
    orders: usize,
    rows: &[Row],
) -> Option<(usize, &'static str)> {
    for order in 0..orders {
        if let Some(row) = missed_in_order(alloc, facts, order, rows) {
            return Some((order, row));
        }
    }
    None
}

/// A case: its name, facts, how many of their orders are tried, and the expected standing of
/// tokens.
pub(super) type Case = (&'static str, &'static [Told], usize, &'static [Row]);

/// Asserts the standing of each case's tokens at 1,020, in all orders of its facts.
pub(super) fn tells(rt: &impl Abort, alloc: Global, cases: &[Case]) {
    for &(name, facts, orders, rows) in cases {
        let miss = first_miss(alloc, facts, orders, rows);
        assert!(rt; miss.is_none(), "{name}: {miss:?}");
    }
}

fn both_find(both: &Both, client: Dot, subject: &Subject, scope: &Scope) -> Option<Option<Dot>> {
    let found = both.ledger.consent_for(client, subject, scope);
    if both.plain.consent_for(client, subject, scope) == found {
        Some(found)
    } else {
        None
    }
}

// Returns the consent that both ledgers find for the client, the subject and the scope; `None` if
// they differ.
fn found_for(
    alloc: Global,
    both: &Both,
    client: Dot,
    subject: &Subject,
    scope: &[u8],
) -> Option<Option<Dot>> {
    match &Scope::read(alloc, scope) {
        Ok(scope) => both_find(both, client, subject, scope),
        Err(_) => None,
    }
}

// Returns the consent that both ledgers find, given the texts of the subject and the scope.
pub(super) fn found(
    alloc: Global,
    both: &Both,
    client: Place,
    subject: &[u8],
    scope: &[u8],
) -> Option<Option<Dot>> {
    let client = dot(client)?;
    match &Subject::read(alloc, subject) {
        Ok(subject) => found_for(alloc, both, client, subject, scope),
        Err(_) => None,
    }
}
