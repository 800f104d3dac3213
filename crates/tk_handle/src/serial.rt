//! Serials: the numbers that a region gives its own facts.

use std::marker::Model;

/// The number that a region gives one of its own facts, 1 to 9,223,372,036,854,775,807.
#[derive(Clone, Copy, Debug, PartialEq, Eq, PartialOrd, Ord)]
pub struct Serial {
    number: u64,
}

impl Model for Serial {
    ghost use Rattle.std.specs.Prelude.{ℕ};
    ghost use Rattle.tk_handle.specs.Ranges.{IsSerial};

    ghost Value = { ℕ };

    ghost view = { λ s. s.number };

    ghost invariant = { λ s. IsSerial s.number };

    ghost inverse = { λ n. record { number = n } };
}

ghost use Rattle.std.specs.Prelude.{◌≡◌};
ghost use Rattle.std.specs.Option.{SomeIff};
ghost use Rattle.tk_handle.specs.Ranges.{IsSerial};

impl Serial {
    /// The greatest number of a serial.
    pub const MAX: u64 = 9_223_372_036_854_775_807;

    /// Returns the serial of that number, or `None` if it is 0 or above the greatest.
    pub fn new(number: u64) -> Option<Serial>
        ensures { SomeIff result (IsSerial number) number }
    {
        if number == 0 || number > Self::MAX {
            return None;
        }
        Some(Serial { number })
    }

    /// Returns the number, from 1 to the greatest.
    pub fn number(self) -> u64
        ensures value { result ≡ self }
        ensures range { IsSerial self }
    {
        self.number
    }
}
