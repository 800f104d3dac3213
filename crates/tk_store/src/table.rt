//! Slots in a map by dot.

use std::alloc::{AllocError, Global};
use std::marker::Model;
use tk_dots::MarkMap;
use tk_fact::Fact;
use tk_handle::Dot;

// A map from dots to slots, each fact at its own dot.
#[derive(Drop)]
pub(crate) struct Table {
    kept: MarkMap<Box<Fact>>,
    // The number of facts; marks do not count.
    held: u64,
    alloc: Global,
}

impl Model for Table {
    ghost use Rattle.std.specs.FinMap as sets;
    ghost use Rattle.tk_handle.specs.Dot.{coded_dot};
    ghost use Rattle.tk_store.specs.Slots.{Slots, coded_slot};
    ghost use Rattle.tk_store.specs.Table.{slots_of, IsTable};

    ghost Value = { Slots };

    ghost coded = { sets.code coded_dot coded_slot };

    ghost view = { λ t. slots_of t.kept };

    ghost invariant = { λ t. IsTable t.kept t.held };
}

ghost use Rattle.std.specs.Prelude.{◌≡◌, ◌≤◌, OnOk, OnErr, IsSome, None, Some, is_some};
ghost use Rattle.std.specs.FinMap as sets;
ghost use Rattle.std.specs.Option.{option_map, option_copied};
ghost use Rattle.tk_handle.specs.Ranges.{max_serial};
ghost use Rattle.tk_handle.specs.declared.dot.Dot.{Dot as the_dot};
ghost use Rattle.tk_store.specs.NextDot as next;
ghost use Rattle.tk_store.specs.SlotShown.{IsShown, WalksOn};
ghost use Rattle.tk_store.specs.Slots.{
  Held,
  Skipped,
  held_in,
  held_slot,
  is_skipped_slot,
  without_fact,
};
ghost use Rattle.tk_store.specs.Table.{PassesOn, Shows};

use crate::slot::SlotRef;
use tk_handle::RegionNumber;

// Returns what is kept as a slot.
fn slot_of(kept: Option<&Box<Fact>>) -> SlotRef<'_>
    ensures { Shows result (option_copied kept.entry) }
{
    match kept {
        Some(fact) => SlotRef::Held(&**fact),
        None => SlotRef::Skipped,
    }
}

impl Table {
    pub(crate) fn new(alloc: Global) -> Table
        ensures { result ≡ sets.empty }
    {
        Table {
            kept: MarkMap::new(alloc),
            held: 0,
            alloc,
        }
    }

    // Gives a caller's proof the fact that each dot's serial is in range. Does nothing at run time.
    pub(crate) fn known(&self)
        ensures { (d : the_dot) → IsSome (sets.get self.now d) → d.serial ≤ max_serial }
    {
        self.kept.known();
    }

    // Returns the slot at the dot.
    pub(crate) fn slot(&self, dot: Dot) -> Option<SlotRef<'_>>
        ensures { IsShown dot result (sets.get self.now dot) }
    {
        match self.kept.get(dot) {
            Some(kept) => Some(slot_of(kept)),
            None => None,
        }
    }

    // Returns the fact at the dot.
    pub(crate) fn get(&self, dot: Dot) -> Option<&Fact>
        ensures { option_copied result
            ≡ option_map (λ body. (dot, body)) (held_slot (sets.get self.now dot)) }
    {
        match self.slot(dot) {
            Some(SlotRef::Held(fact)) => Some(fact),
            Some(SlotRef::Skipped) => None,
            None => None,
        }
    }

    // Returns whether the dot is known.
    pub(crate) fn knows(&self, dot: Dot) -> bool
        ensures { result ≡ is_some (sets.get self.now dot) }
    {
        self.slot(dot).is_some()
    }

    // Returns whether the dot has a mark.
    pub(crate) fn is_marked(&self, dot: Dot) -> bool
        ensures { result ≡ is_skipped_slot (sets.get self.now dot) }
    {
        matches!(self.slot(dot), Some(SlotRef::Skipped))
    }

    // Returns the number of facts.
    pub(crate) fn len(&self) -> u64
        ensures { result ≡ sets.len (held_in self.now) }
    {
        self.held
    }

    // Puts a fact at its dot, which is unknown.
    pub(crate) fn put(&mut self, fact: Fact) -> Result<(), AllocError>
        requires { sets.get self.old fact.0 ≡ None }
        ensures ok { OnOk result (self.new ≡ sets.insert self.old fact.0 (Held fact.1)) }
        ensures err { OnErr result (self.new ≡ self.old) }
    {
        if self.held == u64::MAX {
            return Err(AllocError);
        }
        let dot = fact.dot;
        let held = Box::new(self.alloc, fact)?;
        self.kept.put(dot, held)?;
        self.held += 1;
        Ok(())
    }

    // Puts a mark at a dot that is unknown.
    pub(crate) fn mark(&mut self, dot: Dot) -> Result<(), AllocError>
        requires { sets.get self.old dot ≡ None }
        ensures ok { OnOk result (self.new ≡ sets.insert self.old dot Skipped) }
        ensures err { OnErr result (self.new ≡ self.old) }
    {
        self.kept.mark(dot)
    }

    // Puts a mark in place of the fact at the dot. Can't fail.
    pub(crate) fn skip(&mut self, dot: Dot)
        requires { IsSome (held_slot (sets.get self.old dot)) }
        ensures { self.new ≡ sets.insert self.old dot Skipped }
    {
        self.kept.skip(dot);
        self.held -= 1;
    }

    // Takes the fact at the dot out and returns it. A mark stays. Takes no memory.
    pub(crate) fn take(&mut self, dot: Dot) -> Option<Fact>
        ensures fact { result
            ≡ option_map (λ body. (dot, body)) (held_slot (sets.get self.old dot)) }
        ensures rest { self.new ≡ without_fact self.old dot (sets.get self.old dot) }
    {
        match self.kept.take(dot) {
            Some(fact) => {
                self.held -= 1;
                Some(Box::into_inner(fact))
            }
            None => None,
        }
    }

    // Returns the first slot above `after`, or the first of all if `after` is `None`.
    pub(crate) fn next_after(&self, after: Option<Dot>) -> Option<(Dot, SlotRef<'_>)>
        ensures { WalksOn self.now after result }
    {
        match self.kept.next_after(after) {
            Some(next) => Some((next.0, slot_of(next.1))),
            None => None,
        }
    }

    // Returns a slot above `after` such that no fact is in between, or `None` if no fact is above.
    // Passes over marks.
    pub(crate) fn next_fact(&self, after: Option<Dot>) -> Option<(Dot, SlotRef<'_>)>
        ensures { PassesOn self.now after result }
    {
        match self.kept.next_value(after) {
            Some(next) => Some((next.0, slot_of(next.1))),
            None => None,
        }
    }

    // Returns the greatest serial of the region that is known, or 0.
    pub(crate) fn last_serial(&self, region: RegionNumber) -> u64
        ensures value { result ≡ next.last_serial region (sets.entries self.now) }
        ensures high { result ≤ max_serial }
    {
        self.kept.last_serial(region)
    }
}
