//! Joining what two ledgers know.

ghost use Rattle.std.specs.Prelude.{◌≡◌, ◌↔◌, None, Some, OnOk, OnErr, IsTrue};
ghost use Rattle.std.specs.FinMap as map;
ghost use Rattle.tk_fact.specs.Check.{refusal_of};
ghost use Rattle.tk_store.specs.SlotJoining.{Passes};
ghost use Rattle.tk_store.specs.SlotOrder.{SlotAgrees, SlotsBelow, StoresAgree};
ghost use Rattle.tk_store.specs.SlotShown.{HasDot, shown_slot};
ghost use Rattle.tk_store.specs.Slots.{Held, Skipped, joined_slot, with_slots};

use crate::ledger::Ledger;
use std::alloc::{AllocError, Global};
use tk_fact::Fact;
use tk_handle::Dot;
use tk_store::{AddError, FactStore, SlotRef};
use tk_vector::{Join, JoinError};

impl Ledger {
    // Returns whether the two can be joined.
    fn agrees(&self, other: &Ledger) -> bool
        ensures { IsTrue result ↔ StoresAgree self.now other.now }
    {
        self.store.agrees(&other.store)
    }

    // Adds a copy of a fact that agrees.
    fn take_fact(&mut self, alloc: Global, fact: &Fact) -> Result<(), AllocError>
        requires agree { SlotAgrees (map.get self.old.slots fact.now.0) (Some (Held fact.now.1)) }
        requires passes { refusal_of fact.now.1 ≡ None }
        ensures ok { OnOk result
            (self.new.slots ≡ map.insert self.old.slots fact.now.0
            (joined_slot (map.get self.old.slots fact.now.0) (Held fact.now.1))) }
        ensures horizon { self.new.horizon ≡ self.old.horizon }
        ensures err { OnErr result (self.new ≡ self.old) }
    {
        let copy = fact.copy(alloc)?;
        match self.add(copy) {
            Ok(_) => Ok(()),
            Err(AddError::Memory) => Err(AllocError),
            Err(AddError::Conflict) => unreachable!("the fact agrees"),
        }
    }

    // Skips a dot where no fact lasts.
    fn take_mark(&mut self, dot: Dot) -> Result<(), AllocError>
        requires { SlotAgrees (map.get self.old.slots dot) (Some Skipped) }
        ensures ok { OnOk result
            (self.new.slots ≡ map.insert self.old.slots dot
            (joined_slot (map.get self.old.slots dot) Skipped)) }
        ensures horizon { self.new.horizon ≡ self.old.horizon }
        ensures err { OnErr result (self.new ≡ self.old) }
    {
        match self.skip(dot) {
            Ok(_) => Ok(()),
            Err(AddError::Memory) => Err(AllocError),
            Err(AddError::Conflict) => unreachable!("no fact lasts here"),
        }
    }

    // Joins a slot of a store that agrees.
    fn take(&mut self, alloc: Global, dot: Dot, slot: &SlotRef<'_>) -> Result<(), AllocError>
        requires home { HasDot dot slot.now }
        requires agree { SlotAgrees (map.get self.old.slots dot) (Some (shown_slot slot.now)) }
        requires passes { Passes (shown_slot slot.now) }
        ensures ok { OnOk result
            (self.new.slots ≡ map.insert self.old.slots dot
            (joined_slot (map.get self.old.slots dot) (shown_slot slot.now))) }
        ensures horizon { self.new.horizon ≡ self.old.horizon }
        ensures err { OnErr result (self.new ≡ self.old) }
    {
        match slot {
            SlotRef::Held(fact) => self.take_fact(alloc, fact),
            SlotRef::Skipped => self.take_mark(dot),
        }
    }

    // Joins all slots of a store that agrees. If memory runs out, only the first of them are in.
    fn take_all(&mut self, alloc: Global, other: &FactStore) -> Result<(), AllocError>
        requires { StoresAgree self.old other.now }
        ensures ok { OnOk result
            (self.new.slots ≡ with_slots self.old.slots (map.entries other.now.slots)) }
        ensures above { SlotsBelow self.old.slots self.new.slots }
        ensures below { SlotsBelow self.new.slots
            (with_slots self.old.slots (map.entries other.now.slots)) }
        ensures horizon { self.new.horizon ≡ self.old.horizon }
    {
        other.known();
        let mut place = None;
        'slots: while let Some(next) = other.next_slot(place) {
            if let Err(error) = self.take(alloc, next.0, &next.1) {
                return Err(error);
            }
            place = Some(next.0);
        }
        Ok(())
    }
}

// The laws of this join are those of stores, which `tk_store::stores_join` states.
impl Join for Ledger {
    ghost use Rattle.tk_store.specs.SlotOrder.{StoreBelow, StoresAgree};

    ghost within = { StoreBelow };

    ghost agree = { StoresAgree };

    fn below(&self, other: &Self) -> bool {
        self.store.below(&other.store)
    }

    fn join_from(&mut self, other: &Self) -> Result<(), JoinError> {
        if !self.agrees(other) {
            return Err(JoinError::Conflict);
        }
        let alloc = self.alloc;
        match self.take_all(alloc, other.store()) {
            Ok(()) => {
                self.raise_horizon(other.horizon());
                Ok(())
            }
            Err(_) => Err(JoinError::Memory),
        }
    }
}
