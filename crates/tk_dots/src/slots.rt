//! The places of one page.

ghost use Rattle.std.specs.Prelude.{◌≡◌, ◌<◌, ◌≤◌, ◌+◌, ◌-◌, ◌==◌, ℕ, None, Some};
ghost use Rattle.std.specs.Prelude.{is_some, if◌then◌else◌, option_copied, option_map};
ghost use Rattle.std.specs.Prelude.{slice_index_or, vec_len, vec_capacity, OnOk, OnErr, IfOk};
ghost use Rattle.std.specs.Prelude.{max};
ghost use Rattle.tk_dots.specs.Pages.{FirstFrom, EndsFull};

use std::alloc::{AllocError, Global};

// Returns the value at a place.
pub(crate) fn slot<V>(slots: &Vec<Option<V>>, at: usize) -> Option<&V>
    ensures { option_copied result ≡ slice_index_or slots.now.items at None }
{
    if at < slots.len() {
        slots[at].as_ref()
    } else {
        None
    }
}

// Returns the first place, from one on, that has a value, and that value.
pub(crate) fn first_from<V>(slots: &Vec<Option<V>>, from: usize) -> Option<(usize, &V)>
    ensures { FirstFrom (λ j. slice_index_or slots.now.items j None) from
        (option_map (λ p. (p.0, p.1.now)) result) }
{
    for at in from..slots.len() {
        if let Some(value) = &slots[at] {
            return Some((at, value));
        }
    }
    None
}

// Puts a value at a place past the end. The list has room for it.
fn extend<V>(slots: &mut Vec<Option<V>>, at: usize, value: V)
    requires past { vec_len slots.old ≤ at }
    requires room { at < vec_capacity slots.old }
    ensures items { (j : ℕ)
        → slice_index_or slots.new.items j None ≡
        (if j == at then Some value else slice_index_or slots.old.items j None) }
    ensures len { vec_len slots.new ≡ at + 1 }
{
    while slots.len() < at {
        slots.push_reserved(None);
    }
    slots.push_reserved(Some(value));
}

// Returns the places of a page with one value.
pub(crate) fn one<V: Drop>(alloc: Global, at: usize, value: V) -> Result<Vec<Option<V>>, AllocError>
    requires { at < 64 }
    ensures items { IfOk result
        (λ slots. (j : ℕ)
        → slice_index_or slots.items j None ≡ (if j == at then Some value else None)) }
    ensures len { IfOk result (λ slots. vec_len slots ≡ at + 1) }
{
    let mut slots = Vec::with_capacity(alloc, at + 1)?;
    extend(&mut slots, at, value);
    Ok(slots)
}

// Puts a value at a place, and returns whether there was one. If memory runs out, nothing changes.
pub(crate) fn put<V: Drop>(
    slots: &mut Vec<Option<V>>,
    at: usize,
    value: V,
) -> Result<bool, AllocError>
    requires { at < 64 }
    ensures items { OnOk result
        ((j : ℕ)
        → slice_index_or slots.new.items j None ≡
        (if j == at then Some value else slice_index_or slots.old.items j None)) }
    ensures was { IfOk result (λ was. was ≡ is_some (slice_index_or slots.old.items at None)) }
    ensures len { OnOk result (vec_len slots.new ≡ max (vec_len slots.old) (at + 1)) }
    ensures err { OnErr result (slots.new.items ≡ slots.old.items) }
{
    let len = slots.len();
    if at < len {
        let old = slots[at].replace(value);
        return Ok(old.is_some());
    }
    slots.reserve(at + 1 - len)?;
    extend(slots, at, value);
    Ok(false)
}

// Replaces the value at a place, if there is one.
pub(crate) fn set<V: Drop>(slots: &mut Vec<Option<V>>, at: usize, value: V)
    ensures items { (j : ℕ)
        → slice_index_or slots.new.items j None ≡
        (if j == at
        then (if is_some (slice_index_or slots.old.items at None) then Some value else None)
        else slice_index_or slots.old.items j None) }
    ensures len { vec_len slots.new ≡ vec_len slots.old }
{
    if at < slots.len() {
        if slots[at].is_some() {
            slots[at] = Some(value);
        }
    }
}

// Removes the value at a place and returns it. Removes empty places at the end.
pub(crate) fn take<V: Drop>(slots: &mut Vec<Option<V>>, at: usize) -> Option<V>
    ensures value { result ≡ slice_index_or slots.old.items at None }
    ensures items { (j : ℕ)
        → slice_index_or slots.new.items j None ≡
        (if j == at then None else slice_index_or slots.old.items j None) }
    ensures len { vec_len slots.new ≤ vec_len slots.old }
    ensures full { EndsFull slots.new.items }
{
    let taken = if at < slots.len() {
        slots[at].take()
    } else {
        None
    };
    trim(slots);
    taken
}

// Removes empty places at the end.
fn trim<V: Drop>(slots: &mut Vec<Option<V>>)
    ensures items { (j : ℕ)
        → slice_index_or slots.new.items j None ≡ slice_index_or slots.old.items j None }
    ensures len { vec_len slots.new ≤ vec_len slots.old }
    ensures full { EndsFull slots.new.items }
{
    while let Some(None) = slots.last() {
        slots.pop();
    }
}
