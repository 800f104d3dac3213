//! A map of values and marks.

use super::plain::{LAST, Plain, Row, dot_at, dot_by, next, place_of};
use std::alloc::Global;
use std::test::Fail;
use tk_dots::MarkMap;
use tk_handle::{Dot, RegionNumber};

// ---- the map's calls, each at a dot where it may be made; `None` at another dot

// Puts a value. Returns false if memory ran out.
fn put(map: &mut MarkMap<u64>, dot: Dot, value: u64) -> Option<bool> {
    let is_free = map.get(dot).is_none();
    if is_free {
        Some(map.put(dot, value).is_ok())
    } else {
        None
    }
}

// Puts a mark. Returns false if memory ran out.
fn mark(map: &mut MarkMap<u64>, dot: Dot) -> Option<bool> {
    let is_free = map.get(dot).is_none();
    if is_free {
        Some(map.mark(dot).is_ok())
    } else {
        None
    }
}

fn skip(map: &mut MarkMap<u64>, dot: Dot) -> Option<bool> {
    let is_known = map.get(dot).is_some();
    if is_known {
        map.skip(dot);
        Some(true)
    } else {
        None
    }
}

// ---- whether a map and a list agree

fn value(shown: Option<&u64>) -> Option<u64> {
    match shown {
        Some(value) => Some(*value),
        None => None,
    }
}

fn next_row(map: &MarkMap<u64>, after: Option<Dot>) -> Option<Row> {
    match map.next_after(after) {
        Some((dot, shown)) => Some((dot, value(shown))),
        None => None,
    }
}

fn next_value(map: &MarkMap<u64>, after: Option<Dot>) -> Option<Row> {
    match map.next_value(after) {
        Some((dot, shown)) => Some((dot, value(shown))),
        None => None,
    }
}

fn agree_at(map: &MarkMap<u64>, plain: &Plain, dot: Dot) -> bool {
    match map.get(dot) {
        Some(shown) => plain.get(dot) == Some(value(shown)),
        None => plain.get(dot).is_none(),
    }
}

fn steps_agree(map: &MarkMap<u64>, plain: &Plain, at: usize) -> bool {
    next_row(map, dot_at(at)) == plain.next_after(at)
}

// Returns whether walks over all that is known agree.
fn walks_agree(map: &MarkMap<u64>, plain: &Plain) -> bool {
    let mut at = 0_usize;
    for _ in 0..=2 * LAST {
        if !steps_agree(map, plain, at) {
            return false;
        }
        match plain.next_after(at) {
            Some((dot, _)) => at = place_of(dot),
            None => return true,
        }
    }
    false
}

// Returns whether the list has a value between two places.
fn has_value_between(plain: &Plain, at: usize, end: usize) -> bool {
    match plain.next_value(at) {
        Some(next) => next < end,
        None => false,
    }
}

// Returns whether a walk over values misses none.
fn values_agree(map: &MarkMap<u64>, plain: &Plain) -> bool {
    let mut at = 0_usize;
    for _ in 0..=2 * LAST {
        match next_value(map, dot_at(at)) {
            Some((dot, shown)) => {
                let place = place_of(dot);
                if has_value_between(plain, at, place) || plain.get(dot) != Some(shown) {
                    return false;
                }
                at = place;
            }
            None => return plain.next_value(at).is_none(),
        }
    }
    false
}

fn last_serials_agree(map: &MarkMap<u64>, plain: &Plain) -> bool {
    for number in 1..=3_u16 {
        match RegionNumber::new(number) {
            Some(region) if map.last_serial(region) == plain.last_serial(region) => {}
            _ => return false,
        }
    }
    true
}

fn all_agrees(map: &MarkMap<u64>, plain: &Plain) -> bool {
    walks_agree(map, plain) && values_agree(map, plain) && last_serials_agree(map, plain)
}

// ---- changes

// Puts a value or a mark at a free dot of both. A call that ran out of memory changed nothing, and
// is made again.
fn fill(map: &mut MarkMap<u64>, plain: &mut Plain, dot: Dot, number: u64) -> Option<bool> {
    let given = if number % 3 == 0 { None } else { Some(number) };
    for _ in 0..2_u64 {
        let is_done = match given {
            Some(value) => put(map, dot, value)?,
            None => mark(map, dot)?,
        };
        if is_done {
            return Some(plain.set(dot, Some(given)));
        }
        if !all_agrees(map, plain) {
            return None;
        }
    }
    None
}

// Skips or takes what is at a dot of both.
fn lose(map: &mut MarkMap<u64>, plain: &mut Plain, dot: Dot, number: u64) -> Option<bool> {
    let was = plain.get(dot)?;
    if number % 4 > 0 {
        let is_skipped = skip(map, dot)?;
        return Some(is_skipped && plain.set(dot, Some(None)));
    }
    let is_freed = was.is_none() || plain.set(dot, None);
    Some(is_freed && map.take(dot) == was)
}

fn change(map: &mut MarkMap<u64>, plain: &mut Plain, number: u64) -> Option<bool> {
    let dot = dot_by(number >> 8)?;
    let is_changed = if plain.get(dot).is_some() {
        lose(map, plain, dot, number >> 40)?
    } else {
        fill(map, plain, dot, number >> 40)?
    };
    Some(is_changed && agree_at(map, plain, dot))
}

// Makes changes, and returns whether both agree on all after each 32 of them.
fn goes(map: &mut MarkMap<u64>, plain: &mut Plain, seed: u64, changes: u64) -> bool {
    let mut number = next(seed);
    for turn in 0..changes {
        number = next(number);
        if change(map, plain, number) != Some(true) {
            return false;
        }
        if turn % 32 == 0 && !all_agrees(map, plain) {
            return false;
        }
    }
    all_agrees(map, plain)
}

// Returns whether a map goes as a list; a list that there is no memory for is no map's fault.
fn agrees(alloc: Global, seed: u64, changes: u64) -> bool {
    match &mut Plain::new(alloc) {
        Ok(plain) => goes(&mut MarkMap::new(alloc), plain, seed, changes),
        Err(_) => true,
    }
}

#[test]
fn a_map_of_values_and_marks_is_a_plain_one(rt: HostRuntime) {
    for seed in 0..4_u64 {
        assert!(rt; agrees(rt.alloc(), seed, 500), "seed {seed}");
    }
}

// ---- what is passed over

// Puts marks from the dot 1:1 up to one of a serial. A call that ran out of memory is made again.
fn are_marked(map: &mut MarkMap<u64>, region: RegionNumber, last: u64) -> bool {
    for serial in 1..=last {
        match Dot::new(region, serial) {
            Some(dot) if mark(map, dot) == Some(true) || mark(map, dot) == Some(true) => {}
            _ => return false,
        }
    }
    true
}

// Returns the first step of a walk over values, where ten pages of marks are below a value.
fn passed_to(alloc: Global) -> Option<Row> {
    let region = RegionNumber::new(1)?;
    let dot = Dot::new(region, 640)?;
    let mut map = MarkMap::new(alloc);
    if !are_marked(&mut map, region, 639) {
        return None;
    }
    if put(&mut map, dot, 7) != Some(true) && put(&mut map, dot, 7) != Some(true) {
        return None;
    }
    next_value(&map, None)
}

// Marks whose page has no memory to settle are seen one by one, so any dot up to the value may come
// first then.
#[test]
fn a_walk_over_values_passes_over_pages_of_marks(rt: HostRuntime) -> Result<(), Fail> {
    let (dot, shown) = passed_to(rt.alloc()).ok_or("no map")?;
    assert!(rt; dot.serial() == 640 || shown.is_none(), "{dot} is first");
    assert!(rt;
        dot.serial() % 64 < 2 || dot.serial() == 640,
        "{dot} is first"
    );
    Ok(())
}
