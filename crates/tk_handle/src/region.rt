//! The numbers of regions.

use std::marker::Model;

/// The number of a region, 1 to 65,535.
#[derive(Clone, Copy, Debug, PartialEq, Eq, PartialOrd, Ord)]
pub struct RegionNumber {
    number: u16,
}

impl Model for RegionNumber {
    ghost use Rattle.std.specs.Prelude.{ℕ};
    ghost use Rattle.tk_handle.specs.Ranges.{IsRegion};

    ghost Value = { ℕ };

    ghost view = { λ r. r.number };

    ghost invariant = { λ r. IsRegion r.number };

    ghost inverse = { λ n. record { number = n } };
}

ghost use Rattle.std.specs.Prelude.{◌≡◌};
ghost use Rattle.std.specs.Option.{SomeIff};
ghost use Rattle.tk_handle.specs.Ranges.{IsRegion};

impl RegionNumber {
    /// Returns the region of that number, or `None` for 0.
    pub fn new(number: u16) -> Option<RegionNumber>
        ensures { SomeIff result (IsRegion number) number }
    {
        if number == 0 {
            return None;
        }
        Some(RegionNumber { number })
    }

    // Returns the region of a number that is known to be in range.
    pub(crate) fn of(number: u16) -> RegionNumber
        requires { IsRegion number }
        ensures { result ≡ number }
    {
        RegionNumber { number }
    }

    /// Returns the number, 1 to 65,535.
    pub fn number(self) -> u16
        ensures value { result ≡ self }
        ensures range { IsRegion self }
    {
        self.number
    }
}
