//! A finite map from dots to values.

use std::alloc::{AllocError, Global};
use std::collections::BTreeMap;
use std::marker::Model;
use tk_handle::Dot;

/// A finite map from dots to values. Contracts see the map.
#[derive(Drop)]
pub struct DotMap<V> {
    pages: BTreeMap<Dot, Vec<Option<V>>>,
    // The number of values.
    len: u64,
    alloc: Global,
}

impl<V> Model for DotMap<V> {
    ghost use Rattle.std.specs.FinMap as map;
    ghost use Rattle.tk_handle.specs.Dot.{coded_dot, dot_cmp};
    ghost use Rattle.tk_dots.specs.Pages.{seen, IsPaged};

    ghost Value = { map.FinMap dot_cmp V };

    ghost coded = { map.code coded_dot V.code };

    ghost view = { λ m. seen m.pages.entries };

    ghost invariant = { λ m. IsPaged m.pages m.len };
}

ghost use Rattle.std.specs.Prelude.{◌≡◌, ◌≤◌, OnOk, OnErr, IsSome, if◌then◌else◌, option_copied};
ghost use Rattle.std.specs.Prelude.{option_map, is_some};
ghost use Rattle.std.specs.FinMap as maps;
ghost use Rattle.std.specs.Ordering.{eq_by_cmp};
ghost use Rattle.tk_handle.specs.Dot.{dot_cmp};
ghost use Rattle.tk_handle.specs.Ranges.{max_serial};
ghost use Rattle.tk_handle.specs.declared.dot.Dot.{Dot as the_dot};
ghost use Rattle.tk_dots.specs.Pages.{IsNext, IsLast};

use crate::pages::{first_of_pages, get_in, put_in, rest_of_page, set_in, take_in};
use crate::place::{SPAN, page_of, place_of};
use std::ops::Bound;
use tk_handle::{RegionNumber, Serial};

impl<V> DotMap<V> {
    /// Returns a map without values.
    pub fn new(alloc: Global) -> DotMap<V>
        ensures { result ≡ maps.empty }
    {
        DotMap {
            pages: BTreeMap::new(alloc),
            len: 0,
            alloc,
        }
    }

    /// Gives a caller's proof the fact that each dot's serial is in range. Does nothing at run
    /// time.
    pub fn known(&self)
        ensures { (d : the_dot) → IsSome (maps.get self.now d) → d.serial ≤ max_serial }
    {
        let _pages = &self.pages;
    }

    /// Returns the value at the dot. Costs a look-up among the pages.
    pub fn get(&self, dot: Dot) -> Option<&V>
        ensures { option_copied result ≡ maps.get self.now dot }
    {
        get_in(&self.pages, page_of(dot), place_of(dot))
    }

    // Returns the places of the page of a dot, or none if there is no page.
    pub(crate) fn page(&self, dot: Dot) -> &[Option<V>] {
        match self.pages.get(&page_of(dot)) {
            Some(slots) => slots.as_slice(),
            None => &[],
        }
    }

    /// Returns the number of values.
    pub fn len(&self) -> u64
        ensures { result ≡ maps.len self.now }
    {
        self.len
    }

    /// Puts a value at a dot, in place of the one there.
    ///
    /// Fails if memory runs out; the map is unchanged then. Fails too at 2^64 - 1 values.
    pub fn put(&mut self, dot: Dot, value: V) -> Result<(), AllocError>
    where
        V: Drop,
        ensures ok { OnOk result (self.new ≡ maps.insert self.old dot value) }
        ensures err { OnErr result (self.new ≡ self.old) }
    {
        if self.len == u64::MAX {
            return Err(AllocError);
        }
        let was = put_in(
            self.alloc,
            &mut self.pages,
            page_of(dot),
            place_of(dot),
            value,
        )?;
        if !was {
            self.len += 1;
        }
        Ok(())
    }

    /// Replaces the value at the dot, if there is one. Takes no memory.
    pub fn set(&mut self, dot: Dot, value: V)
    where
        V: Drop,
        ensures { (q : the_dot)
            → maps.get self.new q ≡
            (if eq_by_cmp dot_cmp q dot then option_map (λ _. value) (maps.get self.old q)
            else maps.get self.old q) }
    {
        set_in(&mut self.pages, page_of(dot), place_of(dot), value);
    }

    /// Removes the value at the dot and returns it. Takes no memory.
    pub fn take(&mut self, dot: Dot) -> Option<V>
    where
        V: Drop,
        ensures value { result ≡ maps.get self.old dot }
        ensures rest { self.new ≡ maps.remove self.old dot }
    {
        let taken = take_in(&mut self.pages, page_of(dot), place_of(dot));
        if taken.is_some() {
            self.len -= 1;
        }
        taken
    }

    /// Returns the least dot above `after` that has a value, or the least of all if `after` is
    /// `None`, and the value there.
    pub fn next_after(&self, after: Option<Dot>) -> Option<(Dot, &V)>
        ensures { IsNext self.now after (option_map (λ p. (p.0, p.1.now)) result) }
    {
        match after {
            Some(dot) => match rest_of_page(&self.pages, dot) {
                Some(next) => Some(next),
                None => first_of_pages(&self.pages, Some(page_of(dot))),
            },
            None => first_of_pages(&self.pages, None),
        }
    }

    /// Returns the greatest serial of the region that has a value, or 0.
    pub fn last_serial(&self, region: RegionNumber) -> u64
        ensures last { IsLast self.now region result }
        ensures high { result ≤ max_serial }
    {
        let (Some(first), Some(last)) = (Dot::new(region, 1), Dot::new(region, Serial::MAX)) else {
            unreachable!("both serials are in range")
        };
        match self
            .pages
            .range((Bound::Included(first), Bound::Included(last)))
            .next_back()
        {
            Some((page, slots)) => (page.serial() - 1) * SPAN + (slots.len() as u64 - 1),
            None => 0,
        }
    }
}
