//! Taking in bundles: the reasons for a refusal, and taking in the items one after another.

/// The reason why a bundle is not taken in (own): the first that holds, in this order. `Memory` may
/// be returned at any point.
#[derive(Clone, Copy, Debug, PartialEq, Eq)]
pub enum TakeError {
    /// The bytes spell no bundle.
    Malformed,
    /// The bundle has a fact or a mark under the region's own number that the region did not make.
    OwnNumber,
    /// The bundle contradicts what is known of a dot: it has another fact there, a mark where a
    /// fact lasts, or a fact that lasts where the dot is skipped.
    Conflict,
    /// Memory ran out. The horizon may have been raised, and the first of the bundle's items may
    /// have been taken in.
    Memory,
}

ghost use Rattle.std.specs.Prelude.{
  ◌≡◌,
  ◌≤◌,
  ◌+◌,
  ◌↔◌,
  ◌∷◌,
  [],
  IfOk,
  OnErr,
  IsTrue,
  Some,
  None,
};
ghost use Rattle.std.specs.FinMap as map;
ghost use Rattle.tk_store.specs.SlotJoining.{Passes};
ghost use Rattle.tk_store.specs.SlotOrder.{SlotAgrees};
ghost use Rattle.tk_store.specs.SlotShown.{shown_slot};
ghost use Rattle.tk_bundle.specs.Bundle.{bundle};
ghost use Rattle.tk_region.specs.Taking as spec;

use std::alloc::AllocError;
use tk_bundle::{Bundle, Item};
use tk_format::ReadError;
use tk_handle::{Dot, Moment};
use tk_ledger::Ledger;
use tk_store::{AddError, Added, SlotRef};

impl TakeError {
    /// Returns the error for bytes that can't be read as a bundle.
    pub fn unread(error: ReadError) -> TakeError
        ensures { result ≡ spec.unread error }
    {
        match error {
            ReadError::Malformed => TakeError::Malformed,
            ReadError::Memory => TakeError::Memory,
        }
    }
}

// Takes in a bundle that was read. `next` is the dot of the region's next fact.
pub(crate) fn take_bundle(next: Dot, ledger: &mut Ledger, sent: Bundle) -> Result<u16, TakeError>
    requires { bundle.Fits sent }
    ensures { spec.TakesIn ledger.old next (Some sent) result ledger.new }
{
    if has_unmade(next, sent.items()) {
        return Err(TakeError::OwnNumber);
    }
    if !agree(ledger, sent.items()) {
        return Err(TakeError::Conflict);
    }
    raise(ledger, sent.horizon());
    take_items(ledger, sent)
}

// Returns whether an item is under the region's own number and not made by the region.
fn has_unmade(next: Dot, items: &[Item]) -> bool
    ensures { result ≡ spec.has_unmade next items.now }
{
    items.iter().any(|item| is_unmade(next, item.dot()))
}

// Returns whether a dot is under the region's own number, and is the next dot or above.
fn is_unmade(next: Dot, dot: Dot) -> bool
    ensures { result ≡ spec.is_unmade next dot }
{
    dot.region().number() == next.region().number() && next.serial() <= dot.serial()
}

// Returns whether each item agrees with what is known of its dot. Recurses over at most 1,024
// items.
fn agree(ledger: &Ledger, items: &[Item]) -> bool
    ensures { IsTrue result ↔ spec.AgreesWith ledger.now.slots items.now }
{
    match items {
        [] => true,
        [first, rest @ ..] => agrees(ledger, first) && agree(ledger, rest),
    }
}

// Returns whether an item agrees with what is known of its dot.
fn agrees(ledger: &Ledger, item: &Item) -> bool
    ensures { IsTrue result
        ↔ SlotAgrees (map.get ledger.now.slots item.now.0) (Some item.now.1) }
{
    match ledger.store().slot(item.dot()) {
        Some(known) => fits(&known, &item.slot()),
        None => true,
    }
}

// Returns whether what is known of a dot agrees with what a bundle has there.
fn fits(known: &SlotRef<'_>, sent: &SlotRef<'_>) -> bool
    ensures { IsTrue result
        ↔ SlotAgrees (Some (shown_slot known.now)) (Some (shown_slot sent.now)) }
{
    match (known, sent) {
        (SlotRef::Held(held), SlotRef::Held(fact)) => held.body.same(&fact.body),
        (SlotRef::Held(held), SlotRef::Skipped) => held.body.is_passing(),
        (SlotRef::Skipped, SlotRef::Held(fact)) => fact.body.is_passing(),
        (SlotRef::Skipped, SlotRef::Skipped) => true,
    }
}

// Raises the horizon to that of a bundle, if the bundle has one.
fn raise(ledger: &mut Ledger, horizon: Option<Moment>)
    ensures { ledger.new ≡ spec.raised ledger.old horizon }
{
    match horizon {
        Some(moment) => ledger.raise_horizon(moment),
        None => {}
    }
}

// Takes in the items of a bundle, one after another, and returns the number of dots that were
// unknown.
fn take_items(ledger: &mut Ledger, sent: Bundle) -> Result<u16, TakeError>
    requires fits { bundle.Fits sent }
    requires agree { spec.AgreesWith ledger.old.slots sent.items }
    ensures { spec.Takes ledger.old
        (record { horizon = None; runs = sent.runs; items = sent.items }) result ledger.new }
{
    let mut taken = 0u16;
    for item in sent.into_items() {
        match take_item(ledger, item) {
            Ok(new) => taken += new,
            Err(_) => return Err(TakeError::Memory),
        }
    }
    Ok(taken)
}

// Takes in an item, and returns 1 if its dot was unknown, otherwise 0.
fn take_item(ledger: &mut Ledger, item: Item) -> Result<u16, AllocError>
    requires agree { SlotAgrees (map.get ledger.old.slots item.0) (Some item.1) }
    requires passes { Passes item.1 }
    ensures ok { IfOk result (λ new. (ledger.new ≡ spec.items_taken ledger.old (item ∷ []))
        × (map.len ledger.old.slots + new ≡ map.len ledger.new.slots) × (new ≤ 1)) }
    ensures err { OnErr result (ledger.new ≡ ledger.old) }
{
    match put_item(ledger, item) {
        Ok(Added::New) => Ok(1),
        Ok(Added::Held) => Ok(0),
        Err(AddError::Memory) => Err(AllocError),
        Err(AddError::Conflict) => unreachable!("the item agrees with what is known of its dot"),
    }
}

// Adds the fact of an item, or skips its dot.
fn put_item(ledger: &mut Ledger, item: Item) -> Result<Added, AddError>
    requires { Passes item.1 }
    ensures { spec.Puts ledger.old item result ledger.new }
{
    let dot = item.dot();
    match item.into_fact() {
        Some(fact) => ledger.add(fact),
        None => ledger.skip(dot),
    }
}
