//! The fact that a consent was withdrawn.

ghost use Rattle.std.specs.Prelude.{◌≡◌, ◌++◌, ◌↔◌, IfOk, IsTrue, OnOk};
ghost use Rattle.tk_format.specs.Format.{◌⊗◌, via};
ghost use Rattle.tk_format.specs.Reading.{GetsBy};
ghost use Rattle.tk_handle.specs.DotBytes.{dot_field};
ghost use Rattle.tk_fact.specs.Fields.{by_field};
ghost use Rattle.tk_fact.specs.Followed.{IfFits, bare, bytes_behind, followed};
ghost use Rattle.tk_fact.specs.Kinds.{withdrawal_on};

use crate::by::{By, copy_by, known_by, same_by, write_by};
use std::alloc::{AllocError, Global};
use tk_format::{ReadError, Reader, Writer};
use tk_handle::Dot;

/// A consent was withdrawn.
#[derive(Drop)]
pub struct ConsentWithdrawn {
    /// The dot at which the consent was given.
    pub consent: Dot,
    /// By whom and when, if the request named an operator (own).
    pub by: Option<By>,
}

impl ConsentWithdrawn {
    pub(crate) fn copy(&self, alloc: Global) -> Result<ConsentWithdrawn, AllocError>
        ensures { IfOk result (λ copy. copy ≡ self.now) }
    {
        let by = copy_by(alloc, &self.by)?;
        Ok(ConsentWithdrawn {
            consent: self.consent,
            by,
        })
    }

    pub(crate) fn same(&self, other: &ConsentWithdrawn) -> bool
        ensures { IsTrue result ↔ (self.now ≡ other.now) }
    {
        self.consent == other.consent && same_by(&self.by, &other.by)
    }

    pub(crate) fn known(&self)
        ensures fields { dot_field.Fits self.now.consent }
        ensures by { IfFits by_field self.now.by }
    {
        self.consent.known();
        known_by(&self.by);
    }

    // Reads the fields of a fact in which no operator is named.
    pub(crate) fn read(reader: &mut Reader<'_>) -> Result<ConsentWithdrawn, ReadError>
        ensures { GetsBy (via (bare withdrawal_on) dot_field) result reader.old reader.new }
    {
        let Some(consent) = Dot::read(reader) else {
            return Err(ReadError::Malformed);
        };
        Ok(ConsentWithdrawn { consent, by: None })
    }

    // Reads the fields of a fact, and by whom and when.
    pub(crate) fn read_by(
        alloc: Global,
        reader: &mut Reader<'_>,
    ) -> Result<ConsentWithdrawn, ReadError>
        ensures { GetsBy (via (followed withdrawal_on) (dot_field ⊗ by_field)) result reader.old
            reader.new }
    {
        let fact = ConsentWithdrawn::read(reader)?;
        match By::read(alloc, reader) {
            Ok(by) => Ok(ConsentWithdrawn {
                consent: fact.consent,
                by: Some(by),
            }),
            Err(error) => Err(error),
        }
    }

    pub(crate) fn write(&self, writer: &mut Writer) -> Result<(), AllocError>
        requires fields { dot_field.Fits self.now.consent }
        requires by { IfFits by_field self.now.by }
        ensures { OnOk result
            (writer.new ≡ writer.old ++ (dot_field.spell self.now.consent
            ++ bytes_behind by_field self.now.by)) }
    {
        self.consent.write(writer)?;
        write_by(&self.by, writer)
    }
}
