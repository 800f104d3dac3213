//! A version vector, what it covers, and how vectors are joined.

use std::marker::Model;
use tk_handle::{Dot, RegionNumber, Serial};

/// A version vector: at most one entry for each region, the serial up to which its facts are known.
#[derive(Drop)]
pub struct VersionVector {
    // The entries, ascending by region.
    entries: Vec<(RegionNumber, Serial)>,
}

impl Model for VersionVector {
    ghost use Rattle.std.specs.Prelude.{ℕ, T};
    ghost use Rattle.std.specs.Coded.{coded_ℕ};
    ghost use Rattle.std.specs.FinMap as map;
    ghost use Rattle.std.specs.Ordering.{nat_cmp};

    ghost Value = { map.FinMap nat_cmp ℕ };

    ghost coded = { map.code coded_ℕ coded_ℕ };

    ghost view = { λ v. map.from_sorted v.entries.items };

    ghost invariant = { λ v. T (map.is_sorted nat_cmp v.entries.items) };
}

ghost use Rattle.std.specs.Prelude.{◌≡◌, ℕ, ◌≤◌, ◌↔◌, T, IsTrue, length, ⊤, IfOk, OnOk, OnErr};
ghost use Rattle.std.specs.Prelude.{MatchResult};
ghost use Rattle.std.specs.FinMap as map;
ghost use Rattle.std.specs.Ordering.{nat_cmp};
ghost use Rattle.tk_handle.specs.Ranges.{max_serial};
ghost use Rattle.tk_handle.specs.SortedEntries.{IsAt, IsGap};
ghost use Rattle.tk_vector.specs.Join.{JoinLaws};
ghost use Rattle.tk_vector.specs.VectorOrder.{Below, AllAtMost, RaisedBy};
ghost use Rattle.tk_vector.specs.VersionVector.{entry, raised, lowered, Covers};

use crate::join::{Join, JoinError};
use std::alloc::{AllocError, Global};

impl VersionVector {
    /// Returns the empty vector, of a region that knows nothing.
    pub fn new(alloc: Global) -> VersionVector
        ensures { result ≡ map.empty }
    {
        VersionVector {
            entries: Vec::new(alloc),
        }
    }

    // Returns the vector of entries whose regions rise.
    pub(crate) fn of_sorted(entries: Vec<(RegionNumber, Serial)>) -> VersionVector
        requires { T (map.is_sorted nat_cmp entries.items) }
        ensures { result ≡ map.from_sorted entries.items }
    {
        VersionVector { entries }
    }

    // Returns the entries, ascending by region.
    pub(crate) fn entries(&self) -> &[(RegionNumber, Serial)]
        ensures { result.now ≡ map.entries self.now }
    {
        self.entries.as_slice()
    }

    /// Returns a copy of this vector. Fails if memory runs out.
    pub fn copy(&self, alloc: Global) -> Result<VersionVector, AllocError>
        ensures { IfOk result (λ copy. copy ≡ self.now) }
    {
        let entries = Vec::from_slice(alloc, &self.entries)?;
        Ok(VersionVector { entries })
    }

    /// Returns the region's entry, or 0 if there is none.
    pub fn get(&self, region: RegionNumber) -> u64
        ensures value { result ≡ entry self.now region }
        ensures high { result ≤ max_serial }
    {
        match place(&self.entries, region) {
            Ok(at) => self.entries[at].1.number(),
            Err(_) => 0,
        }
    }

    /// Raises the region's entry to `serial`, if the entry is less.
    ///
    /// `serial` is at most 9,223,372,036,854,775,807. A 0 means that nothing is known, and changes
    /// nothing. If memory runs out, the vector stays as it was.
    pub fn raise(&mut self, region: RegionNumber, serial: u64) -> Result<(), AllocError>
        requires { serial ≤ max_serial }
        ensures ok { OnOk result (self.new ≡ raised self.old region serial) }
        ensures err { OnErr result (self.new ≡ self.old) }
    {
        let Some(serial) = Serial::new(serial) else {
            return Ok(());
        };
        match place(&self.entries, region) {
            Ok(at) => {
                if self.entries[at].1 < serial {
                    self.entries[at].1 = serial;
                }
            }
            Err(at) => self.entries.insert(at, (region, serial))?,
        }
        Ok(())
    }

    /// Lowers the region's entry to `serial`, if the entry is greater. `serial` is at most
    /// 9,223,372,036,854,775,807; a 0 removes the entry. Takes no memory.
    pub fn lower(&mut self, region: RegionNumber, serial: u64)
        requires { serial ≤ max_serial }
        ensures { self.new ≡ lowered self.old region serial }
    {
        if let Ok(at) = place(&self.entries, region) {
            match Serial::new(serial) {
                Some(serial) => {
                    if serial < self.entries[at].1 {
                        self.entries[at].1 = serial;
                    }
                }
                None => {
                    self.entries.remove(at);
                }
            }
        }
    }

    /// Returns whether the vector covers the dot: the serial is at most its region's entry.
    pub fn covers(&self, dot: Dot) -> bool
        ensures { IsTrue result ↔ Covers self.now dot }
    {
        dot.serial() <= self.get(dot.region())
    }
}

// Returns the place of the region's entry, or the place where it would go.
fn place(entries: &[(RegionNumber, Serial)], region: RegionNumber) -> Result<usize, usize>
    requires { T (map.is_sorted nat_cmp entries.now) }
    ensures { MatchResult result (IsAt nat_cmp entries.now region)
        (IsGap nat_cmp entries.now region) }
{
    entries.binary_search_by_key(&region, |&(region, _)| region)
}

// Returns whether each of the entries is at most the vector's.
fn each_below(entries: &[(RegionNumber, Serial)], vector: &VersionVector) -> bool
    ensures { IsTrue result ↔ AllAtMost entries.now (length entries.now) vector.now }
{
    for entry in entries {
        if vector.get(entry.0) < entry.1.number() {
            return false;
        }
    }
    true
}

// Raises each of the entries. If memory runs out, only the first of them are raised.
fn raise_each(
    vector: &mut VersionVector,
    entries: &[(RegionNumber, Serial)],
) -> Result<(), AllocError>
    ensures ok { OnOk result (RaisedBy vector.old entries.now vector.new (length entries.now)) }
    ensures err { OnErr result ((i : ℕ) × RaisedBy vector.old entries.now vector.new i) }
{
    for entry in entries {
        vector.raise(entry.0, entry.1.number())?;
    }
    Ok(())
}

impl Join for VersionVector {
    ghost use Rattle.std.specs.Prelude.{⊤};
    ghost use Rattle.tk_vector.specs.VectorOrder.{Below};

    ghost within = { Below };

    ghost agree = { λ a b. ⊤ };

    fn below(&self, other: &Self) -> bool {
        each_below(&self.entries, other)
    }

    fn join_from(&mut self, other: &Self) -> Result<(), JoinError> {
        match raise_each(self, &other.entries) {
            Ok(()) => Ok(()),
            Err(_) => Err(JoinError::Memory),
        }
    }
}

/// States a law: version vectors are ordered by their entries, and any two have a least one above
/// both.
pub fn vectors_join()
    ensures { JoinLaws Below (λ a b. ⊤) }
{}
