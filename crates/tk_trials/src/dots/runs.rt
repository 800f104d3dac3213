//! A set of dots, as runs.

use super::plain::{LAST, Plain, dot_at, dot_by, next, place_of};
use std::alloc::Global;
use tk_dots::DotRuns;
use tk_handle::{Dot, RegionNumber};

fn agree_at(runs: &DotRuns, plain: &Plain, dot: Dot) -> bool {
    runs.contains(dot) == plain.get(dot).is_some()
}

fn last_serial_agrees(runs: &DotRuns, plain: &Plain, region: RegionNumber) -> bool {
    runs.last_serial(region) == plain.last_serial(region)
}

// Returns whether all dots of two regions are in both or in none.
fn dots_agree(runs: &DotRuns, plain: &Plain) -> bool {
    for number in 0..4 * LAST {
        match dot_by(number) {
            Some(dot) if agree_at(runs, plain, dot) => {}
            _ => return false,
        }
    }
    true
}

fn next_dot(plain: &Plain, at: usize) -> Option<Dot> {
    match plain.next_after(at) {
        Some((dot, _)) => Some(dot),
        None => None,
    }
}

fn steps_agree(runs: &DotRuns, plain: &Plain, at: usize) -> bool {
    runs.next_after(dot_at(at)) == next_dot(plain, at)
}

fn walks_agree(runs: &DotRuns, plain: &Plain) -> bool {
    let mut at = 0_usize;
    for _ in 0..=2 * LAST {
        if !steps_agree(runs, plain, at) {
            return false;
        }
        match next_dot(plain, at) {
            Some(dot) => at = place_of(dot),
            None => return true,
        }
    }
    false
}

fn last_serials_agree(runs: &DotRuns, plain: &Plain) -> bool {
    for number in 1..=3_u16 {
        match RegionNumber::new(number) {
            Some(region) if last_serial_agrees(runs, plain, region) => {}
            _ => return false,
        }
    }
    true
}

fn all_agrees(runs: &DotRuns, plain: &Plain) -> bool {
    dots_agree(runs, plain) && walks_agree(runs, plain) && last_serials_agree(runs, plain)
}

// Adds a dot to both. An addition that ran out of memory changed nothing, and is made again.
fn add(runs: &mut DotRuns, plain: &mut Plain, dot: Dot) -> bool {
    for _ in 0..2_u64 {
        if runs.add(dot).is_ok() {
            return plain.set(dot, Some(None));
        }
        if !all_agrees(runs, plain) {
            return false;
        }
    }
    false
}

fn goes(runs: &mut DotRuns, plain: &mut Plain, seed: u64, additions: u64) -> bool {
    let mut number = next(seed);
    for turn in 0..additions {
        number = next(number);
        let is_added = match dot_by(number >> 8) {
            Some(dot) => add(runs, plain, dot) && agree_at(runs, plain, dot),
            None => false,
        };
        if !is_added || turn % 64 == 0 && !all_agrees(runs, plain) {
            return false;
        }
    }
    all_agrees(runs, plain)
}

// Returns whether a set goes as a list; a list that there is no memory for is no set's fault.
fn agrees(alloc: Global, seed: u64) -> bool {
    match &mut Plain::new(alloc) {
        Ok(plain) => goes(&mut DotRuns::new(alloc), plain, seed, 400),
        Err(_) => true,
    }
}

#[test]
fn a_set_of_runs_is_a_plain_one(rt: HostRuntime) {
    for seed in 0..4_u64 {
        assert!(rt; agrees(rt.alloc(), seed), "seed {seed}");
    }
}
