//! The fact that a subject let a client have a scope.

ghost use Rattle.std.specs.Prelude.{◌≡◌, ◌++◌, ◌↔◌, IfOk, IsTrue, OnOk};
ghost use Rattle.tk_format.specs.Format.{◌⊗◌, via};
ghost use Rattle.tk_format.specs.Reading.{GetsBy};
ghost use Rattle.tk_fact.specs.Fields.{by_field};
ghost use Rattle.tk_fact.specs.Followed.{IfFits, bare, bytes_behind, followed};
ghost use Rattle.tk_fact.specs.Kinds.{consent_fields, consent_on, consent_terms};

use crate::by::{By, copy_by, known_by, same_by, write_by};
use crate::scope_field::{known_scope, read_scope, write_scope};
use crate::subject::Subject;
use std::alloc::{AllocError, Global};
use tk_format::{ReadError, Reader, Writer};
use tk_handle::Dot;
use tk_scope::Scope;

/// A subject let a client have a scope (RFC 6749, 4.1). The fact's dot is the consent's id.
#[derive(Drop)]
pub struct ConsentGiven {
    /// The dot of the client to which the consent was given.
    pub client: Dot,
    /// The resource owner who gave the consent (RFC 6749, 1.1).
    pub subject: Subject,
    /// The scope that the client may have, 1 to 32 scope-tokens (RFC 6749, 3.3).
    pub scope: Scope,
    /// By whom and when, if the request named an operator (own).
    pub by: Option<By>,
}

impl ConsentGiven {
    pub(crate) fn copy(&self, alloc: Global) -> Result<ConsentGiven, AllocError>
        ensures { IfOk result (λ copy. copy ≡ self.now) }
    {
        let Ok(subject) = self.subject.copy(alloc) else {
            return Err(AllocError);
        };
        let Ok(scope) = self.scope.copy(alloc) else {
            return Err(AllocError);
        };
        let Ok(by) = copy_by(alloc, &self.by) else {
            return Err(AllocError);
        };
        Ok(ConsentGiven {
            client: self.client,
            subject,
            scope,
            by,
        })
    }

    pub(crate) fn same(&self, other: &ConsentGiven) -> bool
        ensures { IsTrue result ↔ (self.now ≡ other.now) }
    {
        self.client == other.client
            && self.subject.same(&other.subject)
            && self.scope.same(&other.scope)
            && same_by(&self.by, &other.by)
    }

    pub(crate) fn known(&self)
        ensures fields { consent_terms.Fits (consent_fields self.now) }
        ensures by { IfFits by_field self.now.by }
    {
        self.client.known();
        self.subject.known();
        known_scope(&self.scope);
        known_by(&self.by);
    }

    // Reads the fields of a fact in which no operator is named.
    pub(crate) fn read(alloc: Global, reader: &mut Reader<'_>) -> Result<ConsentGiven, ReadError>
        ensures { GetsBy (via (bare consent_on) consent_terms) result reader.old reader.new }
    {
        let Some(client) = Dot::read(reader) else {
            return Err(ReadError::Malformed);
        };
        let subject = Subject::read_from(alloc, reader)?;
        match read_scope(alloc, reader) {
            Ok(scope) => Ok(ConsentGiven {
                client,
                subject,
                scope,
                by: None,
            }),
            Err(error) => Err(error),
        }
    }

    // Reads the fields of a fact, and by whom and when.
    pub(crate) fn read_by(alloc: Global, reader: &mut Reader<'_>) -> Result<ConsentGiven, ReadError>
        ensures { GetsBy (via (followed consent_on) (consent_terms ⊗ by_field)) result reader.old
            reader.new }
    {
        let fact = ConsentGiven::read(alloc, reader)?;
        match By::read(alloc, reader) {
            Ok(by) => Ok(ConsentGiven {
                client: fact.client,
                subject: fact.subject,
                scope: fact.scope,
                by: Some(by),
            }),
            Err(error) => Err(error),
        }
    }

    pub(crate) fn write(&self, writer: &mut Writer) -> Result<(), AllocError>
        requires fields { consent_terms.Fits (consent_fields self.now) }
        requires by { IfFits by_field self.now.by }
        ensures { OnOk result
            (writer.new ≡ writer.old ++ (consent_terms.spell (consent_fields self.now)
            ++ bytes_behind by_field self.now.by)) }
    {
        self.client.write(writer)?;
        self.subject.write(writer)?;
        write_scope(&self.scope, writer)?;
        write_by(&self.by, writer)
    }
}
