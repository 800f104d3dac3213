//! Dots: the names of facts.

use std::marker::Model;

/// The name of a fact: the region that made it, and its serial, 1 to 9,223,372,036,854,775,807.
///
/// Dots are ordered by region, then by serial.
#[derive(Clone, Copy, Debug, PartialEq, Eq, PartialOrd, Ord)]
pub struct Dot {
    region: u16,
    serial: u64,
}

impl Model for Dot {
    ghost use Rattle.tk_handle.specs.DotFields.{DotFields};
    ghost use Rattle.tk_handle.specs.Ranges.{IsRegion, IsSerial};

    ghost Value = { DotFields };

    ghost view = { λ d. record { region = d.region; serial = d.serial } };

    ghost invariant = { λ d. IsRegion d.region × IsSerial d.serial };

    ghost inverse = { λ d. record { region = d.region; serial = d.serial } };
}

ghost use Rattle.std.specs.Prelude.{◌≡◌, ◌++◌, OnOk};
ghost use Rattle.std.specs.Option.{SomeIff};
ghost use Rattle.tk_format.specs.Reading.{Reads};
ghost use Rattle.tk_handle.specs.Dot.{least_dot, greatest_dot};
ghost use Rattle.tk_handle.specs.Ranges.{IsRegion, IsSerial};

use crate::region::RegionNumber;
use crate::serial::Serial;
use std::alloc::AllocError;
use tk_format::{Reader, Writer};

impl Dot {
    ghost use Rattle.tk_handle.specs.DotBytes.{dot_field};

    /// Returns the dot of a region and a serial, or `None` if the serial is 0 or above the
    /// greatest.
    pub fn new(region: RegionNumber, serial: u64) -> Option<Dot>
        ensures { SomeIff result (IsSerial serial) (record { region = region; serial = serial }) }
    {
        if serial == 0 || serial > Serial::MAX {
            return None;
        }
        Some(Dot {
            region: region.number(),
            serial,
        })
    }

    /// Returns the least dot: serial 1 of region 1.
    pub fn least() -> Dot
        ensures { result ≡ least_dot }
    {
        Dot {
            region: 1,
            serial: 1,
        }
    }

    /// Returns the greatest dot: the greatest serial of region 65,535.
    pub fn greatest() -> Dot
        ensures { result ≡ greatest_dot }
    {
        Dot {
            region: u16::MAX,
            serial: Serial::MAX,
        }
    }

    /// Returns the region that made the fact.
    pub fn region(self) -> RegionNumber
        ensures value { result ≡ self.region }
        ensures range { IsRegion self.region }
    {
        RegionNumber::of(self.region)
    }

    /// Returns the fact's serial, from 1 to the greatest.
    pub fn serial(self) -> u64
        ensures value { result ≡ self.serial }
        ensures range { IsSerial self.serial }
    {
        self.serial
    }

    /// Gives a caller's proof the fact that both numbers are in their ranges. Does nothing at run
    /// time.
    pub fn known(self)
        ensures { dot_field.Fits self }
    {}

    /// Takes a dot from the front, or returns `None` if the bytes do not begin with one. After
    /// `None` the reader's position is unspecified.
    pub fn read(reader: &mut Reader<'_>) -> Option<Dot>
        ensures { Reads (λ d. d) dot_field result reader.old reader.new }
    {
        let region = RegionNumber::new(reader.take_u16()?)?;
        let serial = reader.take_u64()?;
        Dot::new(region, serial)
    }

    /// Writes the region's number in two bytes, and the serial in eight. After an error the
    /// writer's contents are unspecified.
    pub fn write(self, writer: &mut Writer) -> Result<(), AllocError>
        ensures { OnOk result (writer.new ≡ writer.old ++ dot_field.spell self) }
    {
        writer.put_u16(self.region().number())?;
        writer.put_u64(self.serial())
    }
}
