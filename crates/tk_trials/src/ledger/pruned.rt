//! Skips and prunes that run out of memory leave every answer of a ledger unchanged.
//!
//! In the tests each allocation fails once, one run for each, as docs/GATE.md describes. A step
//! that was refused memory succeeds when it is taken again.

use super::facts::{Place, Says, Told, dot};
use super::orders::add_to_ledger;
use super::refused::{Asked, TOKENS, agree, is_told};
use super::{ADDED, GIVEN, ISSUED};
use std::alloc::Global;
use std::test::Fail;
use tk_fact::Subject;
use tk_handle::{Kind, Moment};
use tk_ledger::Ledger;
use tk_scope::Scope;
use tk_store::AddError;

// A step: a fact, a dot to skip, or the moment of a prune.
#[derive(Clone, Copy)]
enum Step {
    Add(Told),
    Skip(Place),
    Prune(u64),
}

const REDEEMED: Told = ((1, 4), Says::CodeRedeemed((1, 3), (7, 8)));

const ROTATED: Told = ((1, 5), Says::RefreshRotated((1, 4), 1, (7, 8)));

const REDEEMED_AGAIN: Told = ((2, 1), Says::CodeRedeemed((1, 3), (7, 8)));

const STEPS: &[Step] = &[
    // A family whose facts arrive before their parents, and which dies by a second use.
    Step::Add(ROTATED),
    Step::Add(REDEEMED),
    Step::Add(ADDED),
    Step::Add(GIVEN),
    Step::Add(ISSUED),
    Step::Add(REDEEMED_AGAIN),
    // The second use is skipped, and arrives again. A dot is skipped before its fact arrives.
    Step::Skip((2, 1)),
    Step::Add(REDEEMED_AGAIN),
    Step::Skip((2, 4)),
    Step::Add((
        (2, 2),
        Says::TokenRevoked(((1, 5), Kind::Access, 7), (1, 1)),
    )),
    Step::Add(((2, 3), Says::ReuseSeen((1, 5), Kind::Refresh))),
    // An access token was minted for the first refresh token, and revoked.
    Step::Add((
        (2, 7),
        Says::TokenRevoked(((2, 6), Kind::Access, 7), (1, 1)),
    )),
    Step::Add(((2, 6), Says::AccessRefreshed((1, 4), 7))),
    // The family ends at 90,000. A descendant arrives afterwards.
    Step::Prune(89_999),
    Step::Prune(90_000),
    Step::Add(REDEEMED),
    Step::Add(((2, 5), Says::RefreshRotated((1, 5), 2, (7, 8)))),
];

// Takes a step, and returns how many facts a prune skipped. `None` means that there was no memory
// for a fact itself.
fn take(alloc: Global, ledger: &mut Ledger, step: &Step) -> Option<Result<u64, AddError>> {
    match step {
        Step::Add(told) => Some(match add_to_ledger(alloc, ledger, told)? {
            Ok(_) => Ok(0),
            Err(error) => Err(error),
        }),
        Step::Skip(at) => Some(match ledger.skip(dot(*at)?) {
            Ok(_) => Ok(0),
            Err(error) => Err(error),
        }),
        Step::Prune(moment) => Some(match ledger.prune(alloc, Moment::new(*moment)?) {
            Ok(pruned) => Ok(pruned),
            Err(_) => Err(AddError::Memory),
        }),
    }
}

fn are_taken(alloc: Global, ledger: &mut Ledger, steps: &[Step]) -> bool {
    for step in steps {
        if !matches!(take(alloc, ledger, step), Some(Ok(_))) {
            return false;
        }
    }
    true
}

// Returns a ledger after the steps, for which no allocation was refused.
fn stepped(alloc: Global, steps: &[Step]) -> Option<Ledger> {
    let mut ledger = Ledger::new(alloc);
    if are_taken(alloc, &mut ledger, steps) {
        Some(ledger)
    } else {
        drop(ledger);
        None
    }
}

// Returns whether the step was taken, and, if memory ran out, whether the ledger answered as before
// and then took the step.
fn is_taken(
    alloc: Global,
    ledger: &mut Ledger,
    before: &Ledger,
    step: &Step,
    asked: &Asked<'_>,
) -> Option<bool> {
    match take(alloc, ledger, step)? {
        Ok(_) => Some(true),
        Err(AddError::Conflict) => Some(false),
        Err(AddError::Memory) => {
            if !agree(ledger, before, asked) {
                return Some(false);
            }
            match take(alloc, ledger, step)? {
                Ok(_) => Some(true),
                Err(_) => None,
            }
        }
    }
}

// Makes the ledger of the first steps before the next step is taken, so that it exists when each
// later allocation is refused.
fn next_is_taken(
    alloc: Global,
    ledger: &mut Ledger,
    steps: &[Step],
    step: &Step,
    asked: &Asked<'_>,
) -> Option<bool> {
    let before = stepped(alloc, steps)?;
    let is_taken = is_taken(alloc, ledger, &before, step, asked);
    drop(before);
    is_taken
}

// Returns whether the ledger agrees with a new one after all steps, and holds as many facts.
fn is_as_new(alloc: Global, ledger: &Ledger, held: u64, asked: &Asked<'_>) -> Option<bool> {
    let all = stepped(alloc, STEPS)?;
    let is_so = ledger.store().len() == held && agree(ledger, &all, asked);
    drop(all);
    Some(is_so)
}

fn all_are_taken(alloc: Global, ledger: &mut Ledger, asked: &Asked<'_>) -> Option<bool> {
    for (count, step) in STEPS.iter().enumerate() {
        if !next_is_taken(alloc, ledger, &STEPS[..count], step, asked)? {
            return Some(false);
        }
    }
    // The client, the consent and the descendant are left.
    is_as_new(alloc, ledger, 3, asked)
}

fn steps_change_no_answer(alloc: Global, asked: &Asked<'_>) -> Option<bool> {
    let mut ledger = Ledger::new(alloc);
    let are_taken = all_are_taken(alloc, &mut ledger, asked);
    drop(ledger);
    are_taken
}

fn change_no_answer_of(alloc: Global, subject: &Subject) -> Option<bool> {
    let now = Moment::new(1_020)?;
    match &Scope::read(alloc, b"read") {
        Ok(scope) => {
            let asked = Asked {
                now,
                tokens: TOKENS,
                subject,
                scope,
            };
            steps_change_no_answer(alloc, &asked)
        }
        Err(_) => None,
    }
}

fn change_no_answer(alloc: Global) -> Option<bool> {
    match &Subject::read(alloc, b"ann") {
        Ok(subject) => change_no_answer_of(alloc, subject),
        Err(_) => None,
    }
}

#[test]
fn a_step_that_is_refused_memory_changes_no_answer(rt: HostRuntime) -> Result<(), Fail> {
    let told = change_no_answer(rt.alloc());
    is_told(&rt, "skips and prunes", told)
}
