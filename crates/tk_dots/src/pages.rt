//! The pages of a map, by their numbers.

ghost use Rattle.std.specs.Prelude.{◌≡◌, ◌<◌, ◌≤◌, ◌+◌, ◌-◌, ◌*◌, ◌==◌, ◌&&◌, ◌%◌, ℕ, None, Some};
ghost use Rattle.std.specs.Prelude.{is_some, if◌then◌else◌, option_copied, option_map, OnOk, OnErr};
ghost use Rattle.std.specs.Prelude.{IfOk};
ghost use Rattle.std.specs.BTreeMap.{get};
ghost use Rattle.std.specs.Ordering.{eq_by_cmp};
ghost use Rattle.tk_handle.specs.Dot.{dot_cmp};
ghost use Rattle.tk_handle.specs.Ranges.{max_serial};
ghost use Rattle.tk_handle.specs.declared.dot.Dot.{Dot as the_dot};
ghost use Rattle.tk_dots.specs.Pages.{cell, page_of, span, FirstIn, FirstOn, FirstOfPages, IsPage};
ghost use Rattle.tk_dots.specs.Pages.{IsPages};

use crate::place::{dot_at, page_of as page_at, place_of};
use crate::slots::{first_from, one, put, set, slot, take};
use std::alloc::{AllocError, Global};
use std::collections::BTreeMap;
use std::ops::Bound;
use tk_handle::Dot;

// Returns the value at a place of a page.
pub(crate) fn get_in<V>(pages: &BTreeMap<Dot, Vec<Option<V>>>, page: Dot, at: usize) -> Option<&V>
    ensures { option_copied result ≡ cell pages.now page at }
{
    match pages.get(&page) {
        Some(slots) => slot(slots, at),
        None => None,
    }
}

// Puts a value at a place of a page, and returns whether there was one. If memory runs out, nothing
// changes.
pub(crate) fn put_in<V: Drop>(
    alloc: Global,
    pages: &mut BTreeMap<Dot, Vec<Option<V>>>,
    page: Dot,
    at: usize,
    value: V,
) -> Result<bool, AllocError>
    requires within { at < span }
    requires low { 0 < (page.serial - 1) * span + at }
    requires high { (page.serial - 1) * span + at ≤ max_serial }
    requires pages { IsPages pages.old }
    ensures cells { OnOk result
        ((k : the_dot) (j : ℕ)
        → cell pages.new k j ≡
        (if eq_by_cmp dot_cmp k page && (j == at) then Some value else cell pages.old k j)) }
    ensures was { IfOk result (λ was. was ≡ is_some (cell pages.old page at)) }
    ensures err { OnErr result
        ((k : the_dot) (j : ℕ) → cell pages.new k j ≡ cell pages.old k j) }
    ensures pages { IsPages pages.new }
{
    if !pages.contains_key(&page) {
        let slots = one(alloc, at, value)?;
        pages.insert(page, slots)?;
        return Ok(false);
    }
    match pages.get_mut(&page) {
        Some(slots) => put(slots, at, value),
        None => unreachable!("the page is there"),
    }
}

// Replaces the value at a place of a page, if there is one.
pub(crate) fn set_in<V: Drop>(
    pages: &mut BTreeMap<Dot, Vec<Option<V>>>,
    page: Dot,
    at: usize,
    value: V,
)
    requires pages { IsPages pages.old }
    ensures cells { (k : the_dot) (j : ℕ)
        → cell pages.new k j ≡
        (if eq_by_cmp dot_cmp k page && (j == at)
        then (if is_some (cell pages.old page at) then Some value else None)
        else cell pages.old k j) }
    ensures pages { IsPages pages.new }
{
    if let Some(slots) = pages.get_mut(&page) {
        set(slots, at, value);
    }
}

// Removes the value at a place of a page and returns it, and removes a page that is empty then.
pub(crate) fn take_in<V: Drop>(
    pages: &mut BTreeMap<Dot, Vec<Option<V>>>,
    page: Dot,
    at: usize,
) -> Option<V>
    requires pages { IsPages pages.old }
    ensures value { result ≡ cell pages.old page at }
    ensures cells { (k : the_dot) (j : ℕ)
        → cell pages.new k j ≡
        (if eq_by_cmp dot_cmp k page && (j == at) then None else cell pages.old k j) }
    ensures pages { IsPages pages.new }
{
    let (taken, is_empty) = match pages.get_mut(&page) {
        Some(slots) => {
            let taken = take(slots, at);
            (taken, slots.is_empty())
        }
        None => return None,
    };
    if is_empty {
        drop(pages.remove(&page));
    }
    taken
}

// Returns the first dot of a page, from a place on, that has a value, and that value.
fn first_on<V>(page: Dot, slots: &Vec<Option<V>>, from: usize) -> Option<(Dot, &V)>
    requires { IsPage page slots.now.items }
    ensures first { FirstIn page slots.now.items from (option_map (λ p. (p.0, p.1.now)) result) }
    ensures counted { 0 < page.serial }
{
    match first_from(slots, from) {
        Some((at, value)) => Some((dot_at(page, at), value)),
        None => None,
    }
}

// Returns the first dot above a dot, on its page, that has a value, and that value.
pub(crate) fn rest_of_page<V>(pages: &BTreeMap<Dot, Vec<Option<V>>>, dot: Dot) -> Option<(Dot, &V)>
    requires { IsPages pages.now }
    ensures { FirstOn pages.now (page_of dot) (dot.serial % span + 1)
        (option_map (λ p. (p.0, p.1.now)) result) }
{
    let page = page_at(dot);
    match pages.get(&page) {
        Some(slots) => first_on(page, slots, place_of(dot) + 1),
        None => None,
    }
}

// Returns the first dot of the first page above `after`, or of the first page of all if `after` is
// `None`, and the value there.
pub(crate) fn first_of_pages<V>(
    pages: &BTreeMap<Dot, Vec<Option<V>>>,
    after: Option<Dot>,
) -> Option<(Dot, &V)>
    requires { IsPages pages.now }
    ensures { FirstOfPages pages.now after (option_map (λ p. (p.0, p.1.now)) result) }
{
    match after {
        Some(page) => match pages
            .range((Bound::Excluded(page), Bound::Unbounded))
            .next()
        {
            Some((page, slots)) => first_on(*page, slots, 0),
            None => None,
        },
        None => match pages
            .range((Bound::<Dot>::Unbounded, Bound::<Dot>::Unbounded))
            .next()
        {
            Some((page, slots)) => first_on(*page, slots, 0),
            None => None,
        },
    }
}
