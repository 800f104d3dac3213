//! By whom and when a fact was administered, and the field of it.

ghost use Rattle.std.specs.Prelude.{◌≡◌, ◌++◌, ◌↔◌, IfOk, IsTrue, OnOk};
ghost use Rattle.tk_format.specs.Reading.{Gets};
ghost use Rattle.tk_fact.specs.Check.{is_by};
ghost use Rattle.tk_fact.specs.Fields.{by_field};
ghost use Rattle.tk_fact.specs.Followed.{IfFits, bytes_behind};

use crate::subject::Subject;
use std::alloc::{AllocError, Global};
use tk_format::{ReadError, Reader, Writer};
use tk_handle::Moment;

/// By whom and when a fact was administered (own).
#[derive(Drop)]
pub struct By {
    /// The operator that the request named.
    pub operator: Subject,
    /// When the request was received, by the clock of the region that received it.
    pub moment: Moment,
}

impl By {
    fn copy(&self, alloc: Global) -> Result<By, AllocError>
        ensures { IfOk result (λ copy. copy ≡ self.now) }
    {
        let operator = self.operator.copy(alloc)?;
        Ok(By {
            operator,
            moment: self.moment,
        })
    }

    fn same(&self, other: &By) -> bool
        ensures { IsTrue result ↔ (self.now ≡ other.now) }
    {
        self.operator.same(&other.operator) && self.moment == other.moment
    }

    fn known(&self)
        ensures { by_field.Fits self.now }
    {
        self.operator.known();
        self.moment.known();
    }

    pub(crate) fn read(alloc: Global, reader: &mut Reader<'_>) -> Result<By, ReadError>
        ensures { Gets (λ b. b) by_field result reader.old reader.new }
    {
        let operator = Subject::read_from(alloc, reader)?;
        let Some(moment) = Moment::read(reader) else {
            return Err(ReadError::Malformed);
        };
        Ok(By { operator, moment })
    }

    fn write(&self, writer: &mut Writer) -> Result<(), AllocError>
        requires { by_field.Fits self.now }
        ensures { OnOk result (writer.new ≡ writer.old ++ by_field.spell self.now) }
    {
        self.operator.write(writer)?;
        self.moment.write(writer)
    }
}

// ---- of a fact that may have none

pub(crate) fn copy_by(alloc: Global, by: &Option<By>) -> Result<Option<By>, AllocError>
    ensures { IfOk result (λ copy. copy ≡ by.now) }
{
    match by {
        None => Ok(None),
        Some(by) => {
            let copy = by.copy(alloc)?;
            Ok(Some(copy))
        }
    }
}

pub(crate) fn same_by(left: &Option<By>, right: &Option<By>) -> bool
    ensures { IsTrue result ↔ (left.now ≡ right.now) }
{
    match (left, right) {
        (None, None) => true,
        (Some(left), Some(right)) => left.same(right),
        (None, Some(_)) => false,
        (Some(_), None) => false,
    }
}

// Gives a proof the facts that who and when, if they are there, have a spelling and keep the
// limits.
pub(crate) fn known_by(by: &Option<By>)
    ensures fits { IfFits by_field by.now }
    ensures limits { IsTrue (is_by by.now) }
{
    match by {
        None => {}
        Some(by) => {
            let _operator = by.operator.as_str();
            by.known();
        }
    }
}

// Writes who and when, if they are there.
pub(crate) fn write_by(by: &Option<By>, writer: &mut Writer) -> Result<(), AllocError>
    requires { IfFits by_field by.now }
    ensures { OnOk result (writer.new ≡ writer.old ++ bytes_behind by_field by.now) }
{
    match by {
        None => Ok(()),
        Some(by) => by.write(writer),
    }
}
