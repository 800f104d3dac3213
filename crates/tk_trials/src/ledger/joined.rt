//! Joins of two regions' ledgers and stores after a cut.
//!
//! Two regions redeemed one code while they were cut off from each other. Their ledgers and stores
//! are joined in both directions. Sets that hold two facts at one dot aren't joined, and the second
//! fact isn't added. A join takes over skipped dots and the horizon, unless a fact that lasts is
//! held at a skipped dot.

use super::facts::{Place, Says, Told, dot, fact};
use super::orders::{Addition, add_to_ledger};
use super::refused::fresh;
use super::{ADDED, GIVEN, ISSUED, REDEEMED, REDEEMED_AGAIN, TWO_REDEMPTIONS};
use std::alloc::Global;
use tk_handle::Moment;
use tk_ledger::Ledger;
use tk_store::{AddError, FactStore};
use tk_vector::{Join, JoinError};

// The facts of the regions 1 and 2: each has the code and its own redemption.
const FIRST: &[Told] = &[ADDED, GIVEN, ISSUED, REDEEMED];

const SECOND: &[Told] = &[ADDED, GIVEN, ISSUED, REDEEMED_AGAIN];

const DIRECTIONS: [[&[Told]; 2]; 2] = [[FIRST, SECOND], [SECOND, FIRST]];

// Other tokens at the dot of region 1's redemption.
const CLASH: Told = ((1, 4), Says::CodeRedeemed((1, 3), (48, 51)));

const CLASHING: &[Told] = &[ADDED, GIVEN, ISSUED, CLASH];

// Returns whether the first set becomes the union: all facts, and no others.
fn joins<J: Join>(one: &mut J, other: &J, all: &J) -> bool {
    one.join_from(other) == Ok(()) && all.below(one) && one.below(all)
}

// Returns whether the first set is reported to clash with the other, and stays unchanged.
fn is_apart<J: Join>(one: &mut J, other: &J, before: &J) -> bool {
    one.join_from(other) == Err(JoinError::Conflict) && before.below(one) && one.below(before)
}

fn ledgers_join(alloc: Global, [one, other]: [&[Told]; 2]) -> Option<bool> {
    let mut one = fresh(alloc, one)?;
    let other = fresh(alloc, other)?;
    let all = fresh(alloc, TWO_REDEMPTIONS)?;
    let is_so = joins(&mut one, &other, &all) && one.store().len() == 5;
    drop(one);
    drop(other);
    drop(all);
    Some(is_so)
}

#[test]
fn ledgers_of_two_regions_are_joined_in_both_directions(rt: HostRuntime) {
    for (index, pair) in DIRECTIONS.iter().enumerate() {
        assert!(rt;
            ledgers_join(rt.alloc(), *pair) == Some(true),
            "direction {index}"
        );
    }
}

fn add_to_store(alloc: Global, store: &mut FactStore, told: &Told) -> Addition {
    let fact = fact(alloc, told)?;
    match fact.check() {
        Ok(()) => Some(store.add(fact)),
        Err(_) => {
            drop(fact);
            None
        }
    }
}

fn are_stored(alloc: Global, store: &mut FactStore, facts: &[Told]) -> bool {
    for told in facts {
        if !matches!(add_to_store(alloc, store, told), Some(Ok(_))) {
            return false;
        }
    }
    true
}

fn stored(alloc: Global, facts: &[Told]) -> Option<FactStore> {
    let mut store = FactStore::new(alloc);
    if are_stored(alloc, &mut store, facts) {
        Some(store)
    } else {
        drop(store);
        None
    }
}

fn stores_join(alloc: Global, [one, other]: [&[Told]; 2]) -> Option<bool> {
    let mut one = stored(alloc, one)?;
    let other = stored(alloc, other)?;
    let all = stored(alloc, TWO_REDEMPTIONS)?;
    let is_so = joins(&mut one, &other, &all) && one.len() == 5;
    drop(one);
    drop(other);
    drop(all);
    Some(is_so)
}

#[test]
fn stores_of_two_regions_are_joined_in_both_directions(rt: HostRuntime) {
    for (index, pair) in DIRECTIONS.iter().enumerate() {
        assert!(rt;
            stores_join(rt.alloc(), *pair) == Some(true),
            "direction {index}"
        );
    }
}

// Returns whether the ledger refuses to join one that clashes, and to take the fact that clashes.
fn ledgers_clash(alloc: Global) -> Option<bool> {
    let mut one = fresh(alloc, FIRST)?;
    let before = fresh(alloc, FIRST)?;
    let other = fresh(alloc, CLASHING)?;
    let is_apart = is_apart(&mut one, &other, &before);
    let added = add_to_ledger(alloc, &mut one, &CLASH);
    drop(one);
    drop(before);
    drop(other);
    Some(is_apart && added == Some(Err(AddError::Conflict)))
}

fn stores_clash(alloc: Global) -> Option<bool> {
    let mut one = stored(alloc, FIRST)?;
    let before = stored(alloc, FIRST)?;
    let other = stored(alloc, CLASHING)?;
    let is_apart = is_apart(&mut one, &other, &before);
    let added = add_to_store(alloc, &mut one, &CLASH);
    drop(one);
    drop(before);
    drop(other);
    Some(is_apart && added == Some(Err(AddError::Conflict)))
}

#[test]
fn sets_with_two_facts_at_a_dot_are_apart(rt: HostRuntime) {
    assert!(rt; ledgers_clash(rt.alloc()) == Some(true), "ledgers");
    assert!(rt; stores_clash(rt.alloc()) == Some(true), "stores");
}

// Returns a ledger of the facts, with a dot skipped and the horizon at 5,000.
fn marked(alloc: Global, facts: &[Told], at: Place) -> Option<Ledger> {
    let (at, horizon) = (dot(at)?, Moment::new(5_000)?);
    let mut ledger = fresh(alloc, facts)?;
    ledger.raise_horizon(horizon);
    if ledger.skip(at).is_ok() {
        Some(ledger)
    } else {
        drop(ledger);
        None
    }
}

// Returns whether the dot is skipped and the horizon raised, whichever ledger is joined to the
// other.
fn marks_join(alloc: Global) -> Option<bool> {
    let mut one = fresh(alloc, FIRST)?;
    let mut other = marked(alloc, FIRST, (1, 4))?;
    let all = marked(alloc, FIRST, (1, 4))?;
    let whole = fresh(alloc, FIRST)?;
    let is_so = joins(&mut one, &other, &all) && joins(&mut other, &whole, &all);
    let is_skipped = one.skipped(dot((1, 4))?) && one.store().len() == 3;
    let is_raised = one.horizon().seconds() == 5_000;
    drop(one);
    drop(other);
    drop(all);
    drop(whole);
    Some(is_so && is_skipped && is_raised)
}

#[test]
fn skipped_dots_and_horizons_are_joined_in_both_directions(rt: HostRuntime) {
    assert!(rt; marks_join(rt.alloc()) == Some(true));
}

// Returns whether ledgers are apart if one skips a dot at which the other holds a fact that lasts.
fn marks_clash(alloc: Global) -> Option<bool> {
    let mut one = fresh(alloc, &[ADDED])?;
    let before = fresh(alloc, &[ADDED])?;
    let mut other = marked(alloc, &[], (1, 1))?;
    let same = marked(alloc, &[], (1, 1))?;
    let is_so = is_apart(&mut one, &other, &before) && is_apart(&mut other, &before, &same);
    drop(one);
    drop(before);
    drop(other);
    drop(same);
    Some(is_so)
}

#[test]
fn a_skipped_dot_and_a_fact_that_lasts_are_apart(rt: HostRuntime) {
    assert!(rt; marks_clash(rt.alloc()) == Some(true));
}
