//! A store of facts.

use crate::table::Table;
use std::alloc::{AllocError, Global};
use std::marker::Model;
use tk_fact::Fact;
use tk_handle::Moment;
use tk_vector::VersionVector;

/// Facts that each pass their check, no two at one dot, and marks at skipped dots.
///
/// Skipping drops a fact for good and keeps its dot known. The horizon is the moment up to which
/// families that are over may be skipped.
#[derive(Drop)]
pub struct FactStore {
    facts: Table,
    // The front: per region, the serial up to which no dot is unknown.
    front: VersionVector,
    horizon: Moment,
    // The allocator for copies that a join makes.
    alloc: Global,
}

impl Model for FactStore {
    ghost use Rattle.tk_store.specs.StoreFields.{StoreFields, coded_store, IsKept};

    ghost Value = { StoreFields };

    ghost coded = { coded_store };

    ghost view = { λ s. record { slots = s.facts; horizon = s.horizon } };

    ghost invariant = { λ s. IsKept s.facts s.front };
}

/// The outcome of an addition.
#[derive(Clone, Copy, PartialEq, Eq)]
pub enum Added {
    /// The dot was unknown.
    New,
    /// The dot was known: the fact was held already, or is skipped.
    Held,
}

/// The reason why a fact was not added, or a dot not skipped.
#[derive(Clone, Copy, Debug, PartialEq, Eq)]
pub enum AddError {
    /// A conflict: the dot has another fact, or a mark and the fact lasts, or a fact that lasts is
    /// to be skipped.
    Conflict,
    /// The dot was unknown, but memory ran out.
    Memory,
}

ghost use Rattle.std.specs.Prelude.{
  ◌≡◌,
  ◌≢◌,
  ◌≤◌,
  IfOk,
  OnOk,
  OnErr,
  Err,
  None,
  Some,
  true,
  false,
  take,
  map,
  slice_get,
};
ghost use Rattle.std.specs.FinMap as sets;
ghost use Rattle.std.specs.Option.{SomeIff, option_map, option_copied};
ghost use Rattle.tk_handle.specs.Ranges.{max_serial};
ghost use Rattle.tk_fact.specs.Check.{refusal_of};
ghost use Rattle.tk_store.specs.Adding.{AddsTo, HasFact, RefusesFact};
ghost use Rattle.tk_store.specs.Beyond.{beyond};
ghost use Rattle.tk_store.specs.FactSet.{IsFactSet, dot_of};
ghost use Rattle.tk_store.specs.Front.{IsFront};
ghost use Rattle.tk_store.specs.NextDot.{next_dot, next_serial};
ghost use Rattle.tk_store.specs.Skipping.{Skips};
ghost use Rattle.tk_store.specs.SlotShown.{IsShown, WalksOn, shown_slot};
ghost use Rattle.tk_store.specs.Slots.{Held, Skipped, is_skipped, without_fact};
ghost use Rattle.tk_store.specs.StoreFields.{
  empty_store,
  held_facts,
  with_horizon,
  IsKept,
};
ghost use Rattle.tk_store.specs.Walk.{above};
ghost use Rattle.tk_store.specs.declared.store.AddError.TheVariants as error;

use crate::advance::advance;
use crate::since::dots_beyond;
use crate::slot::SlotRef;
use crate::walk::{Facts, next_fact};
use tk_handle::{Dot, RegionNumber};

impl FactStore {
    /// Returns a store that knows no dot, with the horizon 0.
    pub fn new(alloc: Global) -> FactStore
        ensures { result ≡ empty_store }
    {
        FactStore {
            facts: Table::new(alloc),
            front: VersionVector::new(alloc),
            horizon: first_moment(),
            alloc,
        }
    }

    pub(crate) fn allocator(&self) -> Global {
        self.alloc
    }

    pub(crate) fn table(&self) -> &Table
        ensures { result.now ≡ self.now.slots }
    {
        &self.facts
    }

    /// Gives a caller's proof the fact that each fact held passes its check. Does nothing at run
    /// time.
    pub fn known(&self)
        ensures { IsFactSet (held_facts self.now) }
    {
        let _facts = &self.facts;
    }

    /// Adds a fact that passes its check (`Fact::check`).
    ///
    /// A fact whose dot is skipped is dropped if it may be skipped, and refused if it lasts.
    /// Returns `Conflict` if the fact lasts and its dot is skipped, or if the dot has another fact,
    /// and `Memory` if memory runs out at an unknown dot. After an error the fact is dropped, and
    /// the store is unchanged.
    pub fn add(&mut self, fact: Fact) -> Result<Added, AddError>
        requires { refusal_of fact.1 ≡ None }
        ensures { AddsTo self.old fact result self.new }
    {
        match self.facts.slot(fact.dot) {
            Some(slot) => {
                let has = has_fact(&slot, &fact);
                drop(fact);
                if has {
                    return Ok(Added::Held);
                }
                Err(AddError::Conflict)
            }
            None => match add_new(&mut self.facts, &mut self.front, fact) {
                Ok(()) => Ok(Added::New),
                Err(_) => Err(AddError::Memory),
            },
        }
    }

    /// Skips a dot: drops the fact that is held there, and lets no fact be held there again.
    ///
    /// Returns `Conflict` if a fact that lasts is held there, and `Memory` if memory runs out at an
    /// unknown dot. The store is unchanged after both. If the dot is known, the call can't run out
    /// of memory.
    pub fn skip(&mut self, dot: Dot) -> Result<Added, AddError>
        ensures skips { Skips self.old dot result self.new }
        ensures known { sets.get self.old.slots dot ≢ None → result ≢ Err error.Memory }
    {
        match self.facts.slot(dot) {
            Some(SlotRef::Held(fact)) => {
                if !fact.body.is_passing() {
                    return Err(AddError::Conflict);
                }
                self.facts.skip(dot);
                Ok(Added::Held)
            }
            Some(SlotRef::Skipped) => Ok(Added::Held),
            None => match skip_new(&mut self.facts, &mut self.front, dot) {
                Ok(()) => Ok(Added::New),
                Err(_) => Err(AddError::Memory),
            },
        }
    }

    /// Returns whether the dot is skipped.
    pub fn skipped(&self, dot: Dot) -> bool
        ensures { result ≡ is_skipped self.now.slots dot }
    {
        self.facts.is_marked(dot)
    }

    /// Returns what is known of the dot: its fact or a mark, or `None` if the dot is unknown.
    pub fn slot(&self, dot: Dot) -> Option<SlotRef<'_>>
        ensures { IsShown dot result (sets.get self.now.slots dot) }
    {
        self.facts.slot(dot)
    }

    /// Returns the horizon: the moment up to which families that are over may be skipped.
    pub fn horizon(&self) -> Moment
        ensures { result ≡ self.now.horizon }
    {
        self.horizon
    }

    /// Raises the horizon to the moment, if that is later.
    pub fn raise_horizon(&mut self, moment: Moment)
        ensures { self.new ≡ with_horizon self.old moment }
    {
        if self.horizon.seconds() < moment.seconds() {
            self.horizon = moment;
        }
    }

    /// Takes the fact at the dot out and returns it, which undoes an addition. A mark stays.
    ///
    /// Takes no memory. If there is no fact at the dot, the method returns `None` and changes
    /// nothing.
    pub fn take_back(&mut self, dot: Dot) -> Option<Fact>
        ensures fact { result
            ≡ option_map (λ body. (dot, body)) (sets.get (held_facts self.old) dot) }
        ensures rest { self.new.slots
            ≡ without_fact self.old.slots dot (sets.get self.old.slots dot) }
        ensures horizon { self.new.horizon ≡ self.old.horizon }
    {
        let taken = self.facts.take(dot);
        if taken.is_some() {
            self.front.lower(dot.region(), dot.serial() - 1);
        }
        taken
    }

    /// Returns the fact at the dot.
    pub fn get(&self, dot: Dot) -> Option<&Fact>
        ensures { option_copied result
            ≡ option_map (λ body. (dot, body)) (sets.get (held_facts self.now) dot) }
    {
        self.facts.get(dot)
    }

    /// Returns the number of facts that are held.
    pub fn len(&self) -> u64
        ensures { result ≡ sets.len (held_facts self.now) }
    {
        self.facts.len()
    }

    /// Returns the front: per region the greatest serial such that all from 1 to it are known.
    pub fn vector(&self) -> &VersionVector
        ensures { IsFront self.now.slots result.now }
    {
        &self.front
    }

    /// Returns the held fact with the least dot above `after`, or with the least dot if `after` is
    /// `None`. Costs a look-up, and one more for each skipped dot in between.
    pub fn next_after(&self, after: Option<Dot>) -> Option<&Fact>
        ensures { option_copied result ≡ slice_get (above (held_facts self.now) after) 0 }
    {
        next_fact(&self.facts, after)
    }

    /// Returns the known dot that is the least above `after`, or the least of all if `after` is
    /// `None`, with what is known of it. Costs a look-up.
    pub fn next_slot(&self, after: Option<Dot>) -> Option<(Dot, SlotRef<'_>)>
        ensures { WalksOn self.now.slots after result }
    {
        self.facts.next_after(after)
    }

    /// Returns an iterator over the facts that are held, ascending by dot. Each fact is looked up
    /// when it is reached.
    pub fn facts(&self) -> Facts<'_>
        ensures { result ≡ sets.entries (held_facts self.now) }
    {
        Facts {
            store: self,
            after: None,
        }
    }

    /// Returns the first known dots that the vector does not cover, above a cursor, ascending, at
    /// most `limit`.
    ///
    /// Costs one or two look-ups for each of them, and for each region with dots. Fails if memory
    /// runs out.
    pub fn since(
        &self,
        alloc: Global,
        vector: &VersionVector,
        after: Option<Dot>,
        limit: usize,
    ) -> Result<Vec<Dot>, AllocError>
        ensures { IfOk result
            (λ dots. dots.items ≡ take limit
            (map dot_of (beyond self.now.slots vector.now after))) }
    {
        dots_beyond(alloc, &self.facts, vector, after, limit)
    }

    /// Returns the dot of the region's next fact: one past its greatest serial that is known.
    /// Returns `None` if that serial is the greatest there is.
    pub fn next_dot(&self, region: RegionNumber) -> Option<Dot>
        ensures { SomeIff result (next_serial self.now.slots region ≤ max_serial)
            (next_dot self.now.slots region) }
    {
        Dot::new(region, self.facts.last_serial(region) + 1)
    }
}

// Returns the least moment.
fn first_moment() -> Moment
    ensures { result ≡ 0 }
{
    match Moment::new(0) {
        Some(moment) => moment,
        None => unreachable!("0 is in range"),
    }
}

// Returns whether the slot at the fact's dot has the fact: the slot holds it, or is a mark and the
// fact may be skipped.
fn has_fact(slot: &SlotRef<'_>, fact: &Fact) -> bool
    ensures has { result ≡ true → HasFact fact.now.1 (Some (shown_slot slot.now)) }
    ensures refuses { result ≡ false → RefusesFact fact.now.1 (Some (shown_slot slot.now)) }
{
    match slot {
        SlotRef::Held(held) => held.body.same(&fact.body),
        SlotRef::Skipped => fact.body.is_passing(),
    }
}

// Adds a fact at a dot that is unknown. If memory runs out, nothing changes.
fn add_new(facts: &mut Table, front: &mut VersionVector, fact: Fact) -> Result<(), AllocError>
    requires free { sets.get facts.old fact.0 ≡ None }
    requires passes { refusal_of fact.1 ≡ None }
    requires kept { IsKept facts.old front.old }
    ensures ok { OnOk result (facts.new ≡ sets.insert facts.old fact.0 (Held fact.1)) }
    ensures err { OnErr result (facts.new ≡ facts.old) }
    ensures kept { IsKept facts.new front.new }
{
    let dot = fact.dot;
    if let Err(error) = advance(facts, front, dot) {
        drop(fact);
        return Err(error);
    }
    match facts.put(fact) {
        Ok(()) => Ok(()),
        Err(error) => {
            front.lower(dot.region(), dot.serial() - 1);
            Err(error)
        }
    }
}

// Skips a dot that is unknown. If memory runs out, nothing changes.
fn skip_new(facts: &mut Table, front: &mut VersionVector, dot: Dot) -> Result<(), AllocError>
    requires free { sets.get facts.old dot ≡ None }
    requires kept { IsKept facts.old front.old }
    ensures ok { OnOk result (facts.new ≡ sets.insert facts.old dot Skipped) }
    ensures err { OnErr result (facts.new ≡ facts.old) }
    ensures kept { IsKept facts.new front.new }
{
    if let Err(error) = advance(facts, front, dot) {
        return Err(error);
    }
    match facts.mark(dot) {
        Ok(()) => Ok(()),
        Err(error) => {
            front.lower(dot.region(), dot.serial() - 1);
            Err(error)
        }
    }
}
