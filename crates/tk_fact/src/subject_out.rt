//! The fact that a subject signed out everywhere.

ghost use Rattle.std.specs.Prelude.{◌≡◌, ◌++◌, ◌↔◌, IfOk, IsTrue, OnOk};
ghost use Rattle.tk_format.specs.Format.{◌⊗◌, via};
ghost use Rattle.tk_format.specs.Reading.{GetsBy};
ghost use Rattle.tk_fact.specs.Fields.{by_field};
ghost use Rattle.tk_fact.specs.Followed.{IfFits, bare, bytes_behind, followed};
ghost use Rattle.tk_fact.specs.Kinds.{sign_out_fields, sign_out_on, sign_out_terms};

use crate::by::{By, copy_by, known_by, same_by, write_by};
use crate::subject::Subject;
use std::alloc::{AllocError, Global};
use tk_format::{ReadError, Reader, Writer};
use tk_handle::Moment;

/// A subject signed out everywhere: each of its families whose code started at or before the moment
/// is dead.
#[derive(Drop)]
pub struct SubjectOut {
    /// The subject who signed out (RFC 6749, 1.1).
    pub subject: Subject,
    /// When the subject signed out, by the clock of the region that received the request.
    pub moment: Moment,
    /// By whom and when, if the request named an operator (own).
    pub by: Option<By>,
}

impl SubjectOut {
    pub(crate) fn copy(&self, alloc: Global) -> Result<SubjectOut, AllocError>
        ensures { IfOk result (λ copy. copy ≡ self.now) }
    {
        let Ok(subject) = self.subject.copy(alloc) else {
            return Err(AllocError);
        };
        let Ok(by) = copy_by(alloc, &self.by) else {
            return Err(AllocError);
        };
        Ok(SubjectOut {
            subject,
            moment: self.moment,
            by,
        })
    }

    pub(crate) fn same(&self, other: &SubjectOut) -> bool
        ensures { IsTrue result ↔ (self.now ≡ other.now) }
    {
        self.subject.same(&other.subject)
            && self.moment == other.moment
            && same_by(&self.by, &other.by)
    }

    pub(crate) fn known(&self)
        ensures fields { sign_out_terms.Fits (sign_out_fields self.now) }
        ensures by { IfFits by_field self.now.by }
    {
        self.subject.known();
        self.moment.known();
        known_by(&self.by);
    }

    // Reads the fields of a fact in which no operator is named.
    pub(crate) fn read(alloc: Global, reader: &mut Reader<'_>) -> Result<SubjectOut, ReadError>
        ensures { GetsBy (via (bare sign_out_on) sign_out_terms) result reader.old reader.new }
    {
        let subject = Subject::read_from(alloc, reader)?;
        let Some(moment) = Moment::read(reader) else {
            return Err(ReadError::Malformed);
        };
        Ok(SubjectOut {
            subject,
            moment,
            by: None,
        })
    }

    // Reads the fields of a fact, and by whom and when.
    pub(crate) fn read_by(alloc: Global, reader: &mut Reader<'_>) -> Result<SubjectOut, ReadError>
        ensures { GetsBy (via (followed sign_out_on) (sign_out_terms ⊗ by_field)) result reader.old
            reader.new }
    {
        let fact = SubjectOut::read(alloc, reader)?;
        match By::read(alloc, reader) {
            Ok(by) => Ok(SubjectOut {
                subject: fact.subject,
                moment: fact.moment,
                by: Some(by),
            }),
            Err(error) => Err(error),
        }
    }

    pub(crate) fn write(&self, writer: &mut Writer) -> Result<(), AllocError>
        requires fields { sign_out_terms.Fits (sign_out_fields self.now) }
        requires by { IfFits by_field self.now.by }
        ensures { OnOk result
            (writer.new ≡ writer.old ++ (sign_out_terms.spell (sign_out_fields self.now)
            ++ bytes_behind by_field self.now.by)) }
    {
        self.subject.write(writer)?;
        self.moment.write(writer)?;
        write_by(&self.by, writer)
    }
}
