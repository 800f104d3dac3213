//! The fact that an authorization code was issued.

ghost use Rattle.std.specs.Prelude.{◌≡◌, ◌++◌, ◌↔◌, IfOk, IsTrue, OnOk};
ghost use Rattle.tk_format.specs.Reading.{Gets};
ghost use Rattle.tk_fact.specs.Kinds.{code_issued, code_times, code_bindings};

use crate::challenge_field::{
    copy_challenge, known_challenge, read_challenge, same_challenge, write_challenge,
};
use crate::digest::read_digest;
use crate::flag::{read_flag, write_flag};
use crate::scope_field::{known_scope, read_scope, write_scope};
use crate::subject::Subject;
use crate::uri_field::{known_uri, read_uri, write_uri};
use std::alloc::{AllocError, Global};
use tk_format::{ReadError, Reader, Writer};
use tk_handle::{Dot, Moment};
use tk_match::{Challenge, Uri};
use tk_scope::Scope;

/// An authorization code was issued (RFC 6749, 4.1.2).
///
/// A family begins with the code: the code, and the tokens that descend from it.
#[derive(Drop)]
pub struct CodeIssued {
    /// The dot of the client to which the code was issued.
    pub client: Dot,
    /// The dot of the consent on which the code rests.
    pub consent: Dot,
    /// SHA-256 of the code's handle.
    pub digest: [u8; 32],
    /// When the code's life starts.
    pub start: Moment,
    /// The code's expiry, not before the start. From this moment on the code is past.
    pub expiry: Moment,
    /// The end of the whole family, not before the start. From this moment on the family is over.
    pub family_end: Moment,
    /// The resource owner who consented (RFC 6749, 1.1).
    pub subject: Subject,
    /// The scope that the code grants, 1 to 32 scope-tokens (RFC 6749, 3.3).
    pub scope: Scope,
    /// The redirection URI that was picked (RFC 6749, 3.1.2.3).
    pub uri: Uri,
    /// Whether the request named the URI. If so, the token request must name it too (RFC 6749,
    /// 4.1.3).
    pub sent: bool,
    /// The challenge that the verifier of the token request must meet, if there is one (RFC 7636,
    /// 4.3).
    pub challenge: Option<Challenge>,
}

impl CodeIssued {
    pub(crate) fn copy(&self, alloc: Global) -> Result<CodeIssued, AllocError>
        ensures { IfOk result (λ copy. copy ≡ self.now) }
    {
        let Ok(subject) = self.subject.copy(alloc) else {
            return Err(AllocError);
        };
        let Ok(scope) = self.scope.copy(alloc) else {
            return Err(AllocError);
        };
        let Ok(uri) = self.uri.copy(alloc) else {
            return Err(AllocError);
        };
        let Ok(challenge) = copy_challenge(alloc, &self.challenge) else {
            return Err(AllocError);
        };
        Ok(CodeIssued {
            client: self.client,
            consent: self.consent,
            digest: self.digest,
            start: self.start,
            expiry: self.expiry,
            family_end: self.family_end,
            subject,
            scope,
            uri,
            sent: self.sent,
            challenge,
        })
    }

    pub(crate) fn same(&self, other: &CodeIssued) -> bool
        ensures { IsTrue result ↔ (self.now ≡ other.now) }
    {
        self.client == other.client
            && self.consent == other.consent
            && self.digest == other.digest
            && self.start == other.start
            && self.expiry == other.expiry
            && self.family_end == other.family_end
            && self.subject.same(&other.subject)
            && self.scope.same(&other.scope)
            && self.uri.same(&other.uri)
            && self.sent == other.sent
            && same_challenge(&self.challenge, &other.challenge)
    }

    pub(crate) fn known(&self)
        ensures { code_issued.Fits self.now }
    {
        self.client.known();
        self.consent.known();
        let _digest = self.digest;
        self.start.known();
        self.expiry.known();
        self.family_end.known();
        self.subject.known();
        known_scope(&self.scope);
        known_uri(&self.uri);
        known_challenge(&self.challenge);
    }

    pub(crate) fn read(alloc: Global, reader: &mut Reader<'_>) -> Result<CodeIssued, ReadError>
        ensures { Gets (λ f. f) code_issued result reader.old reader.new }
    {
        let client = Dot::read(reader).ok_or(ReadError::Malformed)?;
        let consent = Dot::read(reader).ok_or(ReadError::Malformed)?;
        let digest = read_digest(reader).ok_or(ReadError::Malformed)?;
        let start = Moment::read(reader).ok_or(ReadError::Malformed)?;
        let expiry = Moment::read(reader).ok_or(ReadError::Malformed)?;
        let family_end = Moment::read(reader).ok_or(ReadError::Malformed)?;
        let subject = Subject::read_from(alloc, reader)?;
        let scope = match read_scope(alloc, reader) {
            Ok(scope) => scope,
            Err(error) => return Err(error),
        };
        let uri = match read_uri(alloc, reader) {
            Ok(uri) => uri,
            Err(error) => return Err(error),
        };
        let Some(sent) = read_flag(reader) else {
            return Err(ReadError::Malformed);
        };
        match read_challenge(alloc, reader) {
            Ok(challenge) => Ok(CodeIssued {
                client,
                consent,
                digest,
                start,
                expiry,
                family_end,
                subject,
                scope,
                uri,
                sent,
                challenge,
            }),
            Err(error) => Err(error),
        }
    }

    pub(crate) fn write(&self, writer: &mut Writer) -> Result<(), AllocError>
        requires { code_issued.Fits self.now }
        ensures { OnOk result (writer.new ≡ writer.old ++ code_issued.spell self.now) }
    {
        self.client.write(writer)?;
        self.consent.write(writer)?;
        self.write_times(writer)?;
        self.subject.write(writer)?;
        write_scope(&self.scope, writer)?;
        self.write_bindings(writer)
    }

    // Writes the digest, the start, the expiry and the end of the family.
    fn write_times(&self, writer: &mut Writer) -> Result<(), AllocError>
        ensures { OnOk result
            (writer.new ≡ writer.old
            ++ code_times.spell (
              self.now.digest,
              (self.now.start, (self.now.expiry, self.now.family_end)),
            )) }
    {
        writer.put_bytes(&self.digest)?;
        self.start.write(writer)?;
        self.expiry.write(writer)?;
        self.family_end.write(writer)
    }

    // Writes what the token request must match: the URI, whether it was sent, and the challenge.
    fn write_bindings(&self, writer: &mut Writer) -> Result<(), AllocError>
        requires { code_issued.Fits self.now }
        ensures { OnOk result
            (writer.new ≡ writer.old
            ++ code_bindings.spell (self.now.uri, (self.now.sent, self.now.challenge))) }
    {
        write_uri(&self.uri, writer)?;
        write_flag(self.sent, writer)?;
        write_challenge(&self.challenge, writer)
    }
}
