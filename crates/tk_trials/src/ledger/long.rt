//! A family of ten thousand rotations: its last tokens cost no more look-ups than its first.

use super::BEFORE_GRANTS;
use super::facts::{Says, Told, handle};
use super::orders::add_to_ledger;
use std::alloc::Global;
use std::rt::Clock;
use std::test::Fail;
use std::time::{Duration, Instant};
use tk_family::Steps;
use tk_handle::{Handle, Kind, Moment};
use tk_ledger::{Ledger, State, Status};

fn is_taken(alloc: Global, ledger: &mut Ledger, told: &Told) -> bool {
    matches!(add_to_ledger(alloc, ledger, told), Some(Ok(_)))
}

// A code, and its redemption.
fn is_issued(alloc: Global, ledger: &mut Ledger) -> bool {
    for told in BEFORE_GRANTS {
        if !is_taken(alloc, ledger, told) {
            return false;
        }
    }
    is_taken(alloc, ledger, &((1, 4), Says::CodeRedeemed((1, 3), (7, 8))))
}

fn is_rotated(alloc: Global, ledger: &mut Ledger, rotations: u16) -> bool {
    for generation in 1..=rotations {
        let parent = 3 + u64::from(generation);
        let says = Says::RefreshRotated((1, parent), generation, (7, 8));
        if !is_taken(alloc, ledger, &((1, parent + 1), says)) {
            return false;
        }
    }
    true
}

// Returns the ledger of a family with the given number of rotations.
fn rotated(alloc: Global, rotations: u16) -> Option<Ledger> {
    let mut ledger = Ledger::new(alloc);
    if is_issued(alloc, &mut ledger) && is_rotated(alloc, &mut ledger, rotations) {
        Some(ledger)
    } else {
        drop(ledger);
        None
    }
}

// Returns the refresh token to which the given number of rotations leads.
fn last(rotations: u16) -> Option<Handle> {
    handle(((1, 4 + u64::from(rotations)), Kind::Refresh, 8))
}

// Returns whether the token is live, and how many look-ups that takes.
fn told(ledger: &Ledger, now: Moment, token: &Handle) -> (bool, u64) {
    let mut steps = Steps::new();
    let is_live = match ledger.status(now, token, &mut steps) {
        Status::Known(standing) => standing.state == State::Live,
        _ => false,
    };
    (is_live, steps.count())
}

fn told_after(alloc: Global, rotations: u16) -> Option<(bool, u64)> {
    let (now, token) = (Moment::new(1_020)?, last(rotations)?);
    let ledger = rotated(alloc, rotations)?;
    let told = told(&ledger, now, &token);
    drop(ledger);
    Some(told)
}

#[test]
fn look_ups_are_as_many_at_every_generation(rt: HostRuntime) {
    for rotations in [1, 10_000] {
        let told = told_after(rt.alloc(), rotations);
        assert!(rt; told == Some((true, 8)), "{rotations}: {told:?}");
    }
}

// Returns whether each of 20,000 calls reports that the token is live.
fn is_live(ledger: &Ledger, now: Moment, token: &Handle) -> bool {
    for _ in 0..20_000 {
        if !told(ledger, now, token).0 {
            return false;
        }
    }
    true
}

// Returns how long these calls take.
fn timed<C: Clock>(rt: &C, ledger: &Ledger, token: &Handle) -> Result<Duration, Fail> {
    let now = Moment::new(1_020).ok_or("a moment")?;
    let start = Instant::now(rt)?;
    if !is_live(ledger, now, token) {
        Err("the token isn't live")?;
    }
    Ok(start.elapsed(rt)?)
}

fn timed_after<C: Clock>(rt: &C, alloc: Global, rotations: u16) -> Result<Duration, Fail> {
    let token = last(rotations).ok_or("a token")?;
    let ledger = rotated(alloc, rotations).ok_or("a fact isn't taken")?;
    let time = timed(rt, &ledger, &token);
    drop(ledger);
    time
}

// A walk from parent to parent would take 10,001 steps instead of 2.
#[test]
fn a_status_takes_as_long_at_every_generation(rt: HostRuntime) -> Result<(), Fail> {
    let alloc = rt.alloc();
    let short = timed_after(&rt, alloc, 1)?;
    let long = timed_after(&rt, alloc, 10_000)?;
    assert!(rt;
        long.as_micros() <= 50 * short.as_micros(),
        "{long:?} after {short:?}"
    );
    Ok(())
}
