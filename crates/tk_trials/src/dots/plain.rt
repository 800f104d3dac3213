//! A plain list of places for dots: `Plain`. And pseudo-random numbers.

use std::alloc::{AllocError, Global};
use tk_handle::{Dot, RegionNumber};

/// The greatest serial that a test uses: two pages, and three places of a third.
pub(super) const LAST: u64 = 130;

/// A dot, and the value there. A mark is `None`.
pub(super) type Row = (Dot, Option<u64>);

// How many places a region has.
const SPAN: u64 = 256;

// The places of all regions of the tests.
const PLACES: usize = 768;

/// A pseudo-random number, computed from another.
pub(super) fn next(number: u64) -> u64 {
    number
        .wrapping_mul(6_364_136_223_846_793_005)
        .wrapping_add(1_442_695_040_888_963_407)
}

/// Returns the dot that a number chooses, mostly of region 1, otherwise of region 2.
pub(super) fn dot_by(number: u64) -> Option<Dot> {
    let region = if number % 4 == 0 { 2 } else { 1 };
    Dot::new(RegionNumber::new(region)?, 1 + number / 4 % LAST)
}

/// Returns the place of a dot in a plain list.
pub(super) fn place_of(dot: Dot) -> usize {
    u64::from(dot.region().number())
        .saturating_mul(SPAN)
        .saturating_add(dot.serial()) as usize
}

/// Returns the dot of a place, if it has one. The first place has none.
pub(super) fn dot_at(place: usize) -> Option<Dot> {
    let place = place as u64;
    let region = u16::try_from(place / SPAN).ok()?;
    Dot::new(RegionNumber::new(region)?, place % SPAN)
}

fn places(alloc: Global) -> Result<Vec<Option<Option<u64>>>, AllocError> {
    let mut places = Vec::with_capacity(alloc, PLACES)?;
    for _ in 0..PLACES {
        places.push(None)?;
    }
    Ok(places)
}

/// What is at each dot.
#[derive(Drop)]
pub(super) struct Plain {
    places: Vec<Option<Option<u64>>>,
}

impl Plain {
    /// Returns a list in which each dot is free.
    pub(super) fn new(alloc: Global) -> Result<Plain, AllocError> {
        Ok(Plain {
            places: places(alloc)?,
        })
    }

    pub(super) fn get(&self, dot: Dot) -> Option<Option<u64>> {
        let place = place_of(dot);
        if place < self.places.len() {
            self.places[place]
        } else {
            None
        }
    }

    /// Puts a value or a mark at the dot, or frees it. Returns whether the list has the dot.
    pub(super) fn set(&mut self, dot: Dot, what: Option<Option<u64>>) -> bool {
        let place = place_of(dot);
        if place < self.places.len() {
            self.places[place] = what;
            true
        } else {
            false
        }
    }

    /// Returns the row of the first place above this one whose dot isn't free.
    pub(super) fn next_after(&self, at: usize) -> Option<Row> {
        for place in at.saturating_add(1)..self.places.len() {
            if let Some(what) = self.places[place] {
                return Some((dot_at(place)?, what));
            }
        }
        None
    }

    /// Returns the first place above this one that has a value.
    pub(super) fn next_value(&self, at: usize) -> Option<usize> {
        for place in at.saturating_add(1)..self.places.len() {
            if let Some(Some(_)) = self.places[place] {
                return Some(place);
            }
        }
        None
    }

    /// Returns the greatest serial of the region that isn't free, or 0.
    pub(super) fn last_serial(&self, region: RegionNumber) -> u64 {
        let mut last = 0_u64;
        for serial in 1..=LAST {
            match Dot::new(region, serial) {
                Some(dot) if self.get(dot).is_some() => last = serial,
                _ => {}
            }
        }
        last
    }
}
