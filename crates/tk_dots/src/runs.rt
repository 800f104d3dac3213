//! A finite set of dots, as runs.
//!
//! ```text
//! dots                                     entries of the map
//! 1:1, 1:2, 1:3, 1:4, 1:5, and 1:7         1:1 to 5, and 1:7 to 7
//! 1:1, 1:2, 1:3, 1:4, 1:5, 1:6, and 1:7    1:1 to 7
//! ```

use std::collections::BTreeMap;
use std::marker::Model;
use tk_handle::Dot;

/// A finite set of dots. Contracts see the set.
///
/// Dots of a region that follow one another are one run: its first dot and its last serial. A run
/// is one entry of a small map, however many dots it has.
#[derive(Drop)]
pub struct DotRuns {
    runs: BTreeMap<Dot, u64>,
}

impl Model for DotRuns {
    ghost use Rattle.std.specs.FinSet as set;
    ghost use Rattle.tk_handle.specs.Dot.{coded_dot};
    ghost use Rattle.tk_dots.specs.Runs.{DotSet, IsRuns, run_set};

    ghost Value = { DotSet };

    ghost coded = { set.code coded_dot };

    ghost view = { λ r. run_set r.runs.entries };

    ghost invariant = { λ r. IsRuns r.runs };
}

ghost use Rattle.std.specs.Prelude.{◌≡◌, ◌≤◌, OnOk, OnErr, true};
ghost use Rattle.std.specs.BTreeMap.{IsOrdered};
ghost use Rattle.std.specs.FinSet as sets;
ghost use Rattle.tk_handle.specs.Dot.{dot_cmp};
ghost use Rattle.tk_handle.specs.Ranges.{max_serial};
ghost use Rattle.tk_handle.specs.declared.dot.Dot.{Dot as the_dot};
ghost use Rattle.tk_dots.specs.Runs.{
  IsEndAbove,
  IsFirstAbove,
  IsLastIn,
  IsNextIn,
  IsRightAbove,
  IsRunBelow,
  IsRuns,
  IsStartAt,
  Joined,
};

use std::alloc::{AllocError, Global};
use std::ops::Bound;
use tk_handle::{RegionNumber, Serial};

// Returns the run of the dot's region that begins last, at the dot or below it.
fn run_below(runs: &BTreeMap<Dot, u64>, dot: Dot) -> Option<(Dot, u64)>
    ensures { IsRunBelow runs.now dot result }
{
    match runs
        .range((Bound::<Dot>::Unbounded, Bound::Included(dot)))
        .next_back()
    {
        Some((first, last)) => {
            if first.region() == dot.region() {
                Some((*first, *last))
            } else {
                None
            }
        }
        None => None,
    }
}

// Returns the last serial of the run that begins right above the dot, or the dot's own if there is
// none.
fn end_above(runs: &BTreeMap<Dot, u64>, dot: Dot) -> u64
    requires { IsRuns runs.now }
    ensures end { IsEndAbove runs.now dot result }
    ensures high { result ≤ max_serial }
{
    match Dot::new(dot.region(), dot.serial() + 1) {
        Some(next) => match runs.get(&next) {
            Some(last) => *last,
            None => dot.serial(),
        },
        None => dot.serial(),
    }
}

// Returns where the run of a dot begins, if no run has the dot yet.
fn start_at(runs: &BTreeMap<Dot, u64>, dot: Dot) -> Option<Dot>
    requires { IsRuns runs.now }
    ensures { IsStartAt runs.now dot result }
{
    match run_below(runs, dot) {
        Some((first, last)) => {
            if dot.serial() <= last {
                return None;
            }
            if last + 1 == dot.serial() {
                Some(first)
            } else {
                Some(dot)
            }
        }
        None => Some(dot),
    }
}

// Puts a run in place of those that begin at its first dot and right above the dot. If memory runs
// out, nothing changes.
fn put_run(runs: &mut BTreeMap<Dot, u64>, dot: Dot, first: Dot, end: u64) -> Result<(), AllocError>
    requires runs { IsRuns runs.old }
    requires region { first.region ≡ dot.region }
    requires start { first.serial ≤ dot.serial }
    ensures ok { OnOk result (Joined runs.old dot first.serial end runs.new) }
    ensures ordered { IsOrdered dot_cmp runs.new }
    ensures err { OnErr result (runs.new.entries ≡ runs.old.entries) }
{
    if runs.insert(first, end).is_err() {
        return Err(AllocError);
    }
    if let Some(next) = Dot::new(dot.region(), dot.serial() + 1) {
        runs.remove(&next);
    }
    Ok(())
}

// Returns the least dot above `after` at which a run begins.
fn first_above(runs: &BTreeMap<Dot, u64>, after: Option<Dot>) -> Option<Dot>
    ensures { IsFirstAbove runs.now after result }
{
    match after {
        Some(dot) => match runs.range((Bound::Excluded(dot), Bound::Unbounded)).next() {
            Some((first, _)) => Some(*first),
            None => None,
        },
        None => match runs
            .range((Bound::<Dot>::Unbounded, Bound::<Dot>::Unbounded))
            .next()
        {
            Some((first, _)) => Some(*first),
            None => None,
        },
    }
}

impl DotRuns {
    /// Returns a set without dots.
    pub fn new(alloc: Global) -> DotRuns
        ensures { result ≡ sets.empty }
    {
        DotRuns {
            runs: BTreeMap::new(alloc),
        }
    }

    /// Gives a caller's proof the fact that each dot's serial is in range. Does nothing at run
    /// time.
    pub fn known(&self)
        ensures { (d : the_dot) → sets.contains self.now d ≡ true → d.serial ≤ max_serial }
    {
        let _runs = &self.runs;
    }

    /// Returns whether the dot is in the set. Costs a look-up among the runs.
    pub fn contains(&self, dot: Dot) -> bool
        ensures { result ≡ sets.contains self.now dot }
    {
        match run_below(&self.runs, dot) {
            Some((_, last)) => dot.serial() <= last,
            None => false,
        }
    }

    // Returns the dot right above a dot, if it is in the set.
    fn right_above(&self, dot: Dot) -> Option<Dot>
        ensures { IsRightAbove self.now dot result }
    {
        self.known();
        match Dot::new(dot.region(), dot.serial() + 1) {
            Some(next) => {
                if self.contains(next) {
                    Some(next)
                } else {
                    None
                }
            }
            None => None,
        }
    }

    /// Returns the least dot of the set above `after`, or the least of all if `after` is `None`.
    /// Costs two look-ups among the runs.
    pub fn next_after(&self, after: Option<Dot>) -> Option<Dot>
        ensures { IsNextIn self.now after result }
    {
        match after {
            Some(dot) => match self.right_above(dot) {
                Some(next) => Some(next),
                None => first_above(&self.runs, Some(dot)),
            },
            None => first_above(&self.runs, None),
        }
    }

    /// Returns the greatest serial of the region in the set, or 0.
    pub fn last_serial(&self, region: RegionNumber) -> u64
        ensures last { IsLastIn self.now region result }
        ensures high { result ≤ max_serial }
    {
        let (Some(first), Some(last)) = (Dot::new(region, 1), Dot::new(region, Serial::MAX)) else {
            unreachable!("both serials are in range")
        };
        match self
            .runs
            .range((Bound::Included(first), Bound::Included(last)))
            .next_back()
        {
            Some((_, end)) => *end,
            None => 0,
        }
    }

    /// Adds a dot. The runs that end right below the dot and begin right above it become one.
    ///
    /// Fails if memory runs out; the set is unchanged then.
    pub fn add(&mut self, dot: Dot) -> Result<(), AllocError>
        ensures ok { OnOk result (self.new ≡ sets.insert self.old dot) }
        ensures err { OnErr result (self.new ≡ self.old) }
    {
        match start_at(&self.runs, dot) {
            Some(first) => {
                let end = end_above(&self.runs, dot);
                put_run(&mut self.runs, dot, first, end)
            }
            None => Ok(()),
        }
    }
}
