//! Moments, in whole seconds.

use std::marker::Model;

/// A moment in whole seconds since 1970-01-01T00:00:00Z, from 0 to 253,402,300,799, the last second
/// of the year 9999.
#[derive(Clone, Copy, PartialEq, Eq)]
pub struct Moment {
    seconds: u64,
}

impl Model for Moment {
    ghost use Rattle.std.specs.Prelude.{ℕ};
    ghost use Rattle.tk_handle.specs.Ranges.{IsMoment};

    ghost Value = { ℕ };

    ghost view = { λ m. m.seconds };

    ghost invariant = { λ m. IsMoment m.seconds };

    ghost inverse = { λ n. record { seconds = n } };
}

ghost use Rattle.std.specs.Prelude.{◌≡◌, ◌++◌, OnOk};
ghost use Rattle.std.specs.Option.{SomeIff};
ghost use Rattle.tk_format.specs.Reading.{Reads};
ghost use Rattle.tk_handle.specs.Moment.{moment, moment_plus};
ghost use Rattle.tk_handle.specs.Ranges.{IsMoment};

use std::alloc::AllocError;
use tk_format::{Reader, Writer};

impl Moment {
    /// The seconds of the greatest moment, 9999-12-31T23:59:59Z.
    pub const MAX: u64 = 253_402_300_799;

    /// Returns the moment of that second, or `None` if it is above the greatest.
    pub fn new(seconds: u64) -> Option<Moment>
        ensures { SomeIff result (IsMoment seconds) seconds }
    {
        if seconds > Self::MAX {
            return None;
        }
        Some(Moment { seconds })
    }

    /// Returns the seconds since 1970-01-01T00:00:00Z.
    pub fn seconds(self) -> u64
        ensures value { result ≡ self }
        ensures range { IsMoment self }
    {
        self.seconds
    }

    /// Returns the moment `seconds` later, or the greatest moment if that is past it.
    pub fn plus(self, seconds: u64) -> Moment
        ensures { result ≡ moment_plus self seconds }
    {
        let later = self.seconds.saturating_add(seconds);
        Moment {
            seconds: later.min(Self::MAX),
        }
    }

    /// Gives a caller's proof the fact that the seconds are in range. Does nothing at run time.
    pub fn known(self)
        ensures { moment.Fits self }
    {}

    /// Takes a moment from the front, or returns `None` if the bytes do not begin with one. After
    /// `None` the reader's position is unspecified.
    pub fn read(reader: &mut Reader<'_>) -> Option<Moment>
        ensures { Reads (λ m. m) moment result reader.old reader.new }
    {
        Moment::new(reader.take_u64()?)
    }

    /// Writes the seconds in eight bytes. After an error the writer's contents are unspecified.
    pub fn write(self, writer: &mut Writer) -> Result<(), AllocError>
        ensures { OnOk result (writer.new ≡ writer.old ++ moment.spell self) }
    {
        writer.put_u64(self.seconds())
    }
}
