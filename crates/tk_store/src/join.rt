//! Joining the slots of two stores.

ghost use Rattle.std.specs.Prelude.{◌≡◌, ◌↔◌, Some, None, OnOk, OnErr, IsTrue};
ghost use Rattle.std.specs.FinMap as map;
ghost use Rattle.std.specs.Option.{option_map};
ghost use Rattle.tk_vector.specs.Join.{JoinLaws};
ghost use Rattle.tk_fact.specs.Check.{refusal_of};
ghost use Rattle.tk_store.specs.SlotJoining.{Passes};
ghost use Rattle.tk_store.specs.SlotOrder.{
  SlotAgrees,
  SlotBelow,
  SlotsAgree,
  SlotsBelow,
  StoreBelow,
  StoresAgree,
};
ghost use Rattle.tk_store.specs.SlotShown.{HasDot, shown_slot};
ghost use Rattle.tk_store.specs.Slots.{Held, Skipped, joined_slot, with_slots};
ghost use Rattle.tk_store.specs.WholeStores.{WholeAgree};

use crate::slot::SlotRef;
use crate::store::{AddError, FactStore};
use crate::table::Table;
use std::alloc::{AllocError, Global};
use tk_fact::Fact;
use tk_handle::Dot;
use tk_vector::{Join, JoinError};

// Returns whether a slot of another store agrees with what is known of its dot.
fn fits(known: Option<SlotRef<'_>>, other: &SlotRef<'_>) -> bool
    ensures { IsTrue result
        ↔ SlotAgrees (option_map shown_slot known.entry) (Some (shown_slot other.now)) }
{
    match (known, other) {
        (None, _) => true,
        (Some(SlotRef::Held(held)), SlotRef::Held(fact)) => held.body.same(&fact.body),
        (Some(SlotRef::Held(held)), SlotRef::Skipped) => held.body.is_passing(),
        (Some(SlotRef::Skipped), SlotRef::Held(fact)) => fact.body.is_passing(),
        (Some(SlotRef::Skipped), SlotRef::Skipped) => true,
    }
}

// Returns whether a slot of another store is below what is known of its dot.
fn is_found(known: Option<SlotRef<'_>>, other: &SlotRef<'_>) -> bool
    ensures { IsTrue result
        ↔ SlotBelow (Some (shown_slot other.now)) (option_map shown_slot known.entry) }
{
    match (known, other) {
        (None, _) => false,
        (Some(SlotRef::Held(held)), SlotRef::Held(fact)) => fact.body.same(&held.body),
        (Some(SlotRef::Held(_)), SlotRef::Skipped) => false,
        (Some(SlotRef::Skipped), SlotRef::Held(fact)) => fact.body.is_passing(),
        (Some(SlotRef::Skipped), SlotRef::Skipped) => true,
    }
}

// Returns whether each slot of another table agrees with what is known of its dot.
fn all_fit(table: &Table, other: &Table) -> bool
    ensures { IsTrue result ↔ SlotsAgree table.now other.now }
{
    let mut place = None;
    'slots: while let Some(next) = other.next_after(place) {
        if !fits(table.slot(next.0), &next.1) {
            return false;
        }
        place = Some(next.0);
    }
    true
}

// Returns whether each slot of another table is below what is known of its dot.
fn all_found(table: &Table, other: &Table) -> bool
    ensures { IsTrue result ↔ SlotsBelow other.now table.now }
{
    let mut place = None;
    'slots: while let Some(next) = other.next_after(place) {
        if !is_found(table.slot(next.0), &next.1) {
            return false;
        }
        place = Some(next.0);
    }
    true
}

impl FactStore {
    /// Returns whether the two can be joined: no dot has two bodies, and no fact that lasts is held
    /// where the other skipped its dot. Walks over the slots of the other.
    pub fn agrees(&self, other: &FactStore) -> bool
        ensures { IsTrue result ↔ StoresAgree self.now other.now }
    {
        all_fit(self.table(), other.table())
    }

    // Returns whether all that another store knows is known.
    fn is_above(&self, other: &FactStore) -> bool
        ensures { IsTrue result ↔ StoreBelow other.now self.now }
    {
        other.horizon().seconds() <= self.horizon().seconds()
            && all_found(self.table(), other.table())
    }

    // Joins a slot of another store that agrees.
    fn take(&mut self, alloc: Global, dot: Dot, slot: &SlotRef<'_>) -> Result<(), AllocError>
        requires home { HasDot dot slot.now }
        requires agree { SlotAgrees (map.get self.old.slots dot) (Some (shown_slot slot.now)) }
        requires passes { Passes (shown_slot slot.now) }
        ensures ok { OnOk result
            (self.new.slots ≡ map.insert self.old.slots dot
            (joined_slot (map.get self.old.slots dot) (shown_slot slot.now))) }
        ensures horizon { self.new.horizon ≡ self.old.horizon }
        ensures err { OnErr result (self.new ≡ self.old) }
    {
        match slot {
            SlotRef::Held(fact) => self.take_fact(alloc, fact),
            SlotRef::Skipped => self.take_mark(dot),
        }
    }

    // Adds a copy of a fact that agrees.
    fn take_fact(&mut self, alloc: Global, fact: &Fact) -> Result<(), AllocError>
        requires agree { SlotAgrees (map.get self.old.slots fact.now.0) (Some (Held fact.now.1)) }
        requires passes { refusal_of fact.now.1 ≡ None }
        ensures ok { OnOk result
            (self.new.slots ≡ map.insert self.old.slots fact.now.0
            (joined_slot (map.get self.old.slots fact.now.0) (Held fact.now.1))) }
        ensures horizon { self.new.horizon ≡ self.old.horizon }
        ensures err { OnErr result (self.new ≡ self.old) }
    {
        let copy = fact.copy(alloc)?;
        match self.add(copy) {
            Ok(_) => Ok(()),
            Err(AddError::Memory) => Err(AllocError),
            Err(AddError::Conflict) => unreachable!("the fact agrees"),
        }
    }

    // Skips a dot where no fact lasts.
    fn take_mark(&mut self, dot: Dot) -> Result<(), AllocError>
        requires { SlotAgrees (map.get self.old.slots dot) (Some Skipped) }
        ensures ok { OnOk result
            (self.new.slots ≡ map.insert self.old.slots dot
            (joined_slot (map.get self.old.slots dot) Skipped)) }
        ensures horizon { self.new.horizon ≡ self.old.horizon }
        ensures err { OnErr result (self.new ≡ self.old) }
    {
        match self.skip(dot) {
            Ok(_) => Ok(()),
            Err(AddError::Memory) => Err(AllocError),
            Err(AddError::Conflict) => unreachable!("no fact lasts here"),
        }
    }

    // Joins all slots of a store that agrees. If memory runs out, only the first of them are in.
    fn take_all(&mut self, alloc: Global, other: &FactStore) -> Result<(), AllocError>
        requires { StoresAgree self.old other.now }
        ensures ok { OnOk result
            (self.new.slots ≡ with_slots self.old.slots (map.entries other.now.slots)) }
        ensures above { SlotsBelow self.old.slots self.new.slots }
        ensures below { SlotsBelow self.new.slots
            (with_slots self.old.slots (map.entries other.now.slots)) }
        ensures horizon { self.new.horizon ≡ self.old.horizon }
    {
        other.known();
        let mut place = None;
        'slots: while let Some(next) = other.next_slot(place) {
            if let Err(error) = self.take(alloc, next.0, &next.1) {
                return Err(error);
            }
            place = Some(next.0);
        }
        Ok(())
    }
}

impl Join for FactStore {
    ghost use Rattle.tk_store.specs.SlotOrder.{StoreBelow, StoresAgree};

    ghost within = { StoreBelow };

    ghost agree = { StoresAgree };

    fn below(&self, other: &Self) -> bool {
        other.is_above(self)
    }

    fn join_from(&mut self, other: &Self) -> Result<(), JoinError> {
        if !self.agrees(other) {
            return Err(JoinError::Conflict);
        }
        let alloc = self.allocator();
        match self.take_all(alloc, other) {
            Ok(()) => {
                self.raise_horizon(other.horizon());
                Ok(())
            }
            Err(_) => Err(JoinError::Memory),
        }
    }
}

/// States a law: stores are ordered by what they know, a skipped dot above each fact that may be
/// skipped there, and two that agree have a least store above both.
pub fn stores_join()
    ensures { JoinLaws StoreBelow StoresAgree }
{}

/// States a law: two stores below one in which nothing is skipped agree.
///
/// With skipped dots this does not hold: two bodies of a dot that may be skipped are both below the
/// mark, and do not agree.
pub fn whole_stores_agree()
    ensures { WholeAgree }
{}
