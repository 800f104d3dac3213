//! The fact that a token was revoked.

ghost use Rattle.std.specs.Prelude.{◌≡◌, ◌++◌, ◌↔◌, IfOk, IsTrue, OnOk};
ghost use Rattle.tk_format.specs.Format.{◌⊗◌, via};
ghost use Rattle.tk_format.specs.Reading.{GetsBy};
ghost use Rattle.tk_fact.specs.Fields.{by_field};
ghost use Rattle.tk_fact.specs.Followed.{IfFits, bare, bytes_behind, followed};
ghost use Rattle.tk_fact.specs.Kinds.{revocation_fields, revocation_on, revocation_terms};

use crate::by::{By, copy_by, known_by, same_by, write_by};
use crate::digest::read_digest;
use std::alloc::{AllocError, Global};
use tk_format::{ReadError, Reader, Writer};
use tk_handle::{Dot, TokenId};

/// An access or refresh token was revoked in the name of its client (RFC 7009, 2).
///
/// The fact that mints the token may arrive later. The revocation takes effect if that fact has the
/// same digest, under a code of the same client.
#[derive(Drop)]
pub struct TokenRevoked {
    /// The name of the token, which is not a code.
    pub token: TokenId,
    /// SHA-256 of the token's handle.
    pub digest: [u8; 32],
    /// The dot of the client in whose name the token was revoked.
    pub client: Dot,
    /// By whom and when, if the request named an operator (own).
    pub by: Option<By>,
}

impl TokenRevoked {
    pub(crate) fn copy(&self, alloc: Global) -> Result<TokenRevoked, AllocError>
        ensures { IfOk result (λ copy. copy ≡ self.now) }
    {
        let by = copy_by(alloc, &self.by)?;
        Ok(TokenRevoked {
            token: self.token,
            digest: self.digest,
            client: self.client,
            by,
        })
    }

    pub(crate) fn same(&self, other: &TokenRevoked) -> bool
        ensures { IsTrue result ↔ (self.now ≡ other.now) }
    {
        self.token == other.token
            && self.digest == other.digest
            && self.client == other.client
            && same_by(&self.by, &other.by)
    }

    pub(crate) fn known(&self)
        ensures fields { revocation_terms.Fits (revocation_fields self.now) }
        ensures by { IfFits by_field self.now.by }
    {
        self.token.known();
        let _digest = self.digest;
        self.client.known();
        known_by(&self.by);
    }

    // Reads the fields of a fact in which no operator is named.
    pub(crate) fn read(reader: &mut Reader<'_>) -> Result<TokenRevoked, ReadError>
        ensures { GetsBy (via (bare revocation_on) revocation_terms) result reader.old reader.new }
    {
        let Some(token) = TokenId::read(reader) else {
            return Err(ReadError::Malformed);
        };
        let Some(digest) = read_digest(reader) else {
            return Err(ReadError::Malformed);
        };
        let Some(client) = Dot::read(reader) else {
            return Err(ReadError::Malformed);
        };
        Ok(TokenRevoked {
            token,
            digest,
            client,
            by: None,
        })
    }

    // Reads the fields of a fact, and by whom and when.
    pub(crate) fn read_by(alloc: Global, reader: &mut Reader<'_>) -> Result<TokenRevoked, ReadError>
        ensures { GetsBy (via (followed revocation_on) (revocation_terms ⊗ by_field)) result
            reader.old reader.new }
    {
        let fact = TokenRevoked::read(reader)?;
        let digest = fact.digest;
        match By::read(alloc, reader) {
            Ok(by) => Ok(TokenRevoked {
                token: fact.token,
                digest,
                client: fact.client,
                by: Some(by),
            }),
            Err(error) => Err(error),
        }
    }

    pub(crate) fn write(&self, writer: &mut Writer) -> Result<(), AllocError>
        requires fields { revocation_terms.Fits (revocation_fields self.now) }
        requires by { IfFits by_field self.now.by }
        ensures { OnOk result
            (writer.new ≡ writer.old ++ (revocation_terms.spell (revocation_fields self.now)
            ++ bytes_behind by_field self.now.by)) }
    {
        self.token.write(writer)?;
        writer.put_bytes(&self.digest)?;
        self.client.write(writer)?;
        write_by(&self.by, writer)
    }
}
