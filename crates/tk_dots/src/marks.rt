//! A finite map from dots to values or marks.
//!
//! ```text
//!                                     page of 1:1 to 1:63              runs
//! 1:3 has the last value of a page    mark  mark  value  mark  mark    none
//! 1:3 is skipped too                  none                             1:1 to 1:5
//! ```

use crate::dots::DotMap;
use crate::runs::DotRuns;
use std::marker::Model;

/// A finite map from dots to values or marks. Contracts see the map, in which a mark is `None`.
///
/// A mark is put on the page of its dot; in place of a value it takes no memory. Once a page has no
/// value left, its marks move to the runs, where marks that follow one another are one entry. If
/// memory runs out, marks stay on their page.
#[derive(Drop)]
pub struct MarkMap<V> {
    pages: DotMap<Option<V>>,
    runs: DotRuns,
}

impl<V> Model for MarkMap<V> {
    ghost use Rattle.std.specs.Coded.{coded_option};
    ghost use Rattle.std.specs.FinMap as map;
    ghost use Rattle.tk_handle.specs.Dot.{coded_dot};
    ghost use Rattle.tk_dots.specs.Marks.{MarkedMap, marked, AreApart};

    ghost Value = { MarkedMap V };

    ghost coded = { map.code coded_dot (coded_option V.code) };

    ghost view = { λ m. marked m.pages m.runs };

    ghost invariant = { λ m. AreApart m.pages m.runs };
}

ghost use Rattle.std.specs.Prelude.{◌≡◌, ◌≤◌, OnOk, OnErr, IsSome, Some, None, option_copied};
ghost use Rattle.std.specs.Prelude.{option_map, is_some, true};
ghost use Rattle.std.specs.FinMap as maps;
ghost use Rattle.tk_handle.specs.Ranges.{max_serial};
ghost use Rattle.tk_handle.specs.declared.dot.Dot.{Dot as the_dot};
ghost use Rattle.tk_dots.specs.Marks.{
  marked,
  without_value,
  value_of,
  AreApart,
  IsMarkBelow,
  Passes,
};
ghost use Rattle.tk_dots.specs.Pages.{IsNext, IsLast};
ghost use Rattle.tk_dots.specs.Runs.{IsNextIn};

use crate::place::SPAN;
use std::alloc::{AllocError, Global};
use tk_handle::{Dot, RegionNumber};

// Returns whether some place of a page has a value. Marks before the last value of a page take no
// memory of their own: each dot up to that value has a place.
fn has_values<V>(places: &[Option<Option<V>>]) -> bool {
    for place in places {
        if let Some(Some(_)) = place {
            return true;
        }
    }
    false
}

// Returns whether the place of the dot on its page has a mark.
fn is_mark<V>(pages: &DotMap<Option<V>>, dot: Dot) -> bool
    ensures { result ≡ true → maps.get pages.now dot ≡ Some None }
{
    match pages.get(dot) {
        Some(Some(_)) => false,
        Some(None) => true,
        None => false,
    }
}

// Returns the mark, if there is one below the dot.
fn mark_below(mark: Option<Dot>, dot: Dot) -> Option<Dot>
    ensures { IsMarkBelow mark dot result }
{
    match mark {
        Some(marked) if marked < dot => Some(marked),
        _ => None,
    }
}

// Returns the lesser of the next dot of the runs, which is known, and the next dot of the pages.
fn next_of<'a, V>(
    pages: &'a DotMap<Option<V>>,
    runs: &DotRuns,
    mark: Option<Dot>,
    after: Option<Dot>,
) -> Option<(Dot, Option<&'a V>)>
    requires apart { AreApart pages.now runs.now }
    requires mark { IsNextIn runs.now after mark }
    ensures { IsNext (marked pages.now runs.now) after
        (option_map (λ p. (p.0, option_copied p.1)) result) }
{
    match pages.next_after(after) {
        Some(next) => match mark_below(mark, next.0) {
            Some(marked) => Some((marked, None)),
            None => Some((next.0, next.1.as_ref())),
        },
        None => match mark {
            Some(marked) => Some((marked, None)),
            None => None,
        },
    }
}

impl<V> MarkMap<V> {
    /// Returns a map without values and marks.
    pub fn new(alloc: Global) -> MarkMap<V>
        ensures { result ≡ maps.empty }
    {
        MarkMap {
            pages: DotMap::new(alloc),
            runs: DotRuns::new(alloc),
        }
    }

    /// Gives a caller's proof the fact that each dot's serial is in range. Does nothing at run
    /// time.
    pub fn known(&self)
        ensures { (d : the_dot) → IsSome (maps.get self.now d) → d.serial ≤ max_serial }
    {
        self.pages.known();
        self.runs.known();
    }

    /// Returns what is at the dot: a value, or a mark, which is `None`. A value costs a look-up
    /// among the pages. Anything else costs one more, among the runs.
    pub fn get(&self, dot: Dot) -> Option<Option<&V>>
        ensures { option_map (λ o. option_copied o) result ≡ maps.get self.now dot }
    {
        match self.pages.get(dot) {
            Some(place) => Some(place.as_ref()),
            None => {
                if self.runs.contains(dot) {
                    Some(None)
                } else {
                    None
                }
            }
        }
    }

    /// Puts a value at a dot that is free: [`MarkMap::get`] tells.
    ///
    /// Fails if memory runs out; the map is unchanged then. Fails too at 2^64 - 1 values.
    pub fn put(&mut self, dot: Dot, value: V) -> Result<(), AllocError>
    where
        V: Drop,
        requires { maps.get self.old dot ≡ None }
        ensures ok { OnOk result (self.new ≡ maps.insert self.old dot (Some value)) }
        ensures err { OnErr result (self.new ≡ self.old) }
    {
        self.pages.put(dot, Some(value))
    }

    /// Puts a mark at a dot that is free: [`MarkMap::get`] tells.
    ///
    /// Fails if memory runs out; the map is unchanged then.
    pub fn mark(&mut self, dot: Dot) -> Result<(), AllocError>
    where
        V: Drop,
        requires { maps.get self.old dot ≡ None }
        ensures ok { OnOk result (self.new ≡ maps.insert self.old dot None) }
        ensures err { OnErr result (self.new ≡ self.old) }
    {
        self.pages.put(dot, None)?;
        self.settle_last(dot);
        Ok(())
    }

    /// Puts a mark in place of what is at a dot that is not free: [`MarkMap::get`] tells. Can't
    /// fail: if memory runs out, the marks of the page stay there.
    pub fn skip(&mut self, dot: Dot)
    where
        V: Drop,
        requires { IsSome (maps.get self.old dot) }
        ensures { self.new ≡ maps.insert self.old dot None }
    {
        self.pages.set(dot, None);
        self.settle(dot);
    }

    // Moves the mark at a dot from its page to the runs, if one is on the page. Returns false if
    // memory runs out. Contracts see the same map.
    fn move_mark(&mut self, dot: Dot) -> bool
    where
        V: Drop,
        ensures { self.new ≡ self.old }
    {
        if !is_mark(&self.pages, dot) {
            return true;
        }
        match self.runs.add(dot) {
            Ok(()) => {
                drop(self.pages.take(dot));
                true
            }
            Err(_) => false,
        }
    }

    // Settles the page of a dot, if the dot is the last of its page. Contracts see the same map.
    // Marks that come one after the other are thus moved once a page.
    fn settle_last(&mut self, dot: Dot)
    where
        V: Drop,
        ensures { self.new ≡ self.old }
    {
        if dot.serial() % SPAN == SPAN - 1 {
            self.settle(dot);
        }
    }

    // Moves the marks of a dot's page to the runs, unless a value is on the page. Stops if memory
    // runs out. Contracts see the same map.
    fn settle(&mut self, dot: Dot)
    where
        V: Drop,
        ensures { self.new ≡ self.old }
    {
        if has_values(self.pages.page(dot)) {
            return;
        }
        let first = dot.serial() / SPAN * SPAN;
        for place in 0..SPAN {
            if let Some(at) = Dot::new(dot.region(), first + place) {
                if !self.move_mark(at) {
                    return;
                }
            }
        }
    }

    // Returns whether a value is at the dot.
    fn has_value(&self, dot: Dot) -> bool
        ensures { result ≡ is_some (value_of (maps.get self.now dot)) }
    {
        match self.get(dot) {
            Some(Some(_)) => true,
            Some(None) => false,
            None => false,
        }
    }

    /// Takes the value at the dot out and returns it. A mark stays. Takes no memory.
    pub fn take(&mut self, dot: Dot) -> Option<V>
    where
        V: Drop,
        ensures value { result ≡ value_of (maps.get self.old dot) }
        ensures rest { self.new ≡ without_value self.old dot (maps.get self.old dot) }
    {
        if !self.has_value(dot) {
            return None;
        }
        match self.pages.take(dot) {
            Some(taken) => taken,
            None => unreachable!("a value is here"),
        }
    }

    /// Returns the least dot above `after` that is not free, or the least of all if `after` is
    /// `None`, and what is there. Costs a few look-ups.
    pub fn next_after(&self, after: Option<Dot>) -> Option<(Dot, Option<&V>)>
        ensures { IsNext self.now after (option_map (λ p. (p.0, option_copied p.1)) result) }
    {
        match after {
            Some(dot) => next_of(
                &self.pages,
                &self.runs,
                self.runs.next_after(Some(dot)),
                Some(dot),
            ),
            None => next_of(&self.pages, &self.runs, self.runs.next_after(None), None),
        }
    }

    /// Returns a dot above `after` and what is there, with no value in between, or `None` if no
    /// value is above. Passes over the marks in the runs, and costs a look-up among the pages.
    pub fn next_value(&self, after: Option<Dot>) -> Option<(Dot, Option<&V>)>
        ensures { Passes self.now after (option_map (λ p. (p.0, option_copied p.1)) result) }
    {
        match self.pages.next_after(after) {
            Some(next) => Some((next.0, next.1.as_ref())),
            None => None,
        }
    }

    /// Returns the greatest serial of the region that is not free, or 0.
    pub fn last_serial(&self, region: RegionNumber) -> u64
        ensures last { IsLast self.now region result }
        ensures high { result ≤ max_serial }
    {
        let page = self.pages.last_serial(region);
        let run = self.runs.last_serial(region);
        if page < run { run } else { page }
    }
}
