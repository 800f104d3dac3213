//! Skipping facts, and pruning the facts of families that are over.

ghost use Rattle.std.specs.Prelude.{◌≡◌, ◌≢◌, IfOk, OnErr, Err, None, max};
ghost use Rattle.std.specs.FinMap as map;
ghost use Rattle.tk_family.specs.Dots.{has};
ghost use Rattle.tk_store.specs.Skipping.{Skips};
ghost use Rattle.tk_store.specs.Slots.{is_skipped};
ghost use Rattle.tk_store.specs.StoreFields.{held_facts, with_horizon};
ghost use Rattle.tk_store.specs.declared.store.AddError.TheVariants as error;
ghost use Rattle.tk_ledger.specs.Index.{IsIndexed};
ghost use Rattle.tk_ledger.specs.Retention.{AllMayGo, Prunes, SkipsAll};

use crate::change::change_of;
use crate::index::Index;
use crate::ledger::Ledger;
use crate::retention::dots_over;
use crate::unfollow::unfollow;
use std::alloc::{AllocError, Global};
use tk_handle::{Dot, Moment};
use tk_store::{AddError, Added, FactStore};

// Skips a dot, and brings the tables up to date with the loss of its fact, if it had one.
pub(crate) fn skip_at(store: &mut FactStore, index: &mut Index, dot: Dot) -> Result<Added, AddError>
    requires { IsIndexed (held_facts store.old) index.old }
    ensures skips { Skips store.old dot result store.new }
    ensures known { map.get store.old.slots dot ≢ None → result ≢ Err error.Memory }
    ensures indexed { IsIndexed (held_facts store.new) index.new }
{
    match store.get(dot) {
        Some(fact) => {
            let change = change_of(&fact.body);
            match store.skip(dot) {
                Ok(added) => {
                    unfollow(store, index, dot, &change);
                    Ok(added)
                }
                Err(error) => Err(error),
            }
        }
        None => store.skip(dot),
    }
}

// Skips each dot of a list. Can't run out of memory, since the dots are known.
fn skip_all(store: &mut FactStore, index: &mut Index, dots: &[Dot])
    requires indexed { IsIndexed (held_facts store.old) index.old }
    requires may { AllMayGo store.old (has dots.now) }
    ensures skips { SkipsAll store.old (has dots.now) store.new }
    ensures indexed { IsIndexed (held_facts store.new) index.new }
{
    for dot in dots {
        match skip_at(store, index, *dot) {
            Ok(_) => {}
            Err(_) => unreachable!("the dot is known, and has no fact that lasts"),
        }
    }
}

// Returns the later of two moments.
fn later(one: Moment, other: Moment) -> Moment
    ensures { result ≡ max one other }
{
    if one.seconds() < other.seconds() {
        other
    } else {
        one
    }
}

impl Ledger {
    /// Skips a dot: drops the fact that is held there, and lets no fact be held there again. Each
    /// look-up then returns what the other facts determine.
    ///
    /// A fact that lasts is not skipped, and the ledger is unchanged then. If the dot is known, the
    /// call can't run out of memory.
    pub fn skip(&mut self, dot: Dot) -> Result<Added, AddError>
        ensures skips { Skips self.old dot result self.new }
        ensures known { map.get self.old.slots dot ≢ None → result ≢ Err error.Memory }
    {
        skip_at(&mut self.store, &mut self.index, dot)
    }

    /// Returns whether the dot is skipped.
    pub fn skipped(&self, dot: Dot) -> bool
        ensures { result ≡ is_skipped self.now.slots dot }
    {
        self.store.skipped(dot)
    }

    /// Returns the horizon: the moment up to which families that are over may be skipped.
    pub fn horizon(&self) -> Moment
        ensures { result ≡ self.now.horizon }
    {
        self.store.horizon()
    }

    /// Raises the horizon to the moment, if that is later.
    pub fn raise_horizon(&mut self, moment: Moment)
        ensures { self.new ≡ with_horizon self.old moment }
    {
        self.store.raise_horizon(moment);
    }

    /// Raises the horizon to the moment, and skips all facts that are kept for a token of a family
    /// that is over then, or for one that can't come any more. Returns the number of facts that
    /// went.
    ///
    /// Costs O(n log n) for n facts. If memory for the list of their dots runs out, the
    /// ledger is unchanged.
    pub fn prune(&mut self, alloc: Global, moment: Moment) -> Result<u64, AllocError>
        ensures prunes { IfOk result (λ n. Prunes self.old moment n self.new) }
        ensures err { OnErr result (self.new ≡ self.old) }
    {
        let horizon = later(self.store.horizon(), moment);
        let dots = dots_over(alloc, &self.store, &self.index.forest, horizon)?;
        let before = self.store.len();
        skip_all(&mut self.store, &mut self.index, &dots);
        self.store.raise_horizon(moment);
        self.index.forest.shrink();
        Ok(before - self.store.len())
    }
}
