//! An access or refresh token that a fact mints, and its field.

ghost use Rattle.std.specs.Prelude.{◌≡◌, ◌++◌, ◌↔◌, IfOk, IsTrue, OnOk};
ghost use Rattle.tk_format.specs.Reading.{Gets};
ghost use Rattle.tk_fact.specs.Fields.{minted_field};

use crate::digest::read_digest;
use crate::scope_field::{known_scope, read_scope, write_scope};
use std::alloc::{AllocError, Global};
use tk_format::{ReadError, Reader, Writer};
use tk_handle::Moment;
use tk_scope::Scope;

/// An access or refresh token that a fact mints (RFC 6749, 1.4 and 1.5). The fact has its start.
#[derive(Drop)]
pub struct MintedToken {
    /// SHA-256 of the token's handle.
    pub digest: [u8; 32],
    /// The token's expiry. From this moment on the token is past.
    pub expiry: Moment,
    /// The scope that the token grants, 1 to 32 scope-tokens (RFC 6749, 3.3).
    pub scope: Scope,
}

impl MintedToken {
    pub(crate) fn copy(&self, alloc: Global) -> Result<MintedToken, AllocError>
        ensures { IfOk result (λ copy. copy ≡ self.now) }
    {
        let Ok(scope) = self.scope.copy(alloc) else {
            return Err(AllocError);
        };
        Ok(MintedToken {
            digest: self.digest,
            expiry: self.expiry,
            scope,
        })
    }

    /// Returns whether both have equal fields.
    pub(crate) fn same(&self, other: &MintedToken) -> bool
        ensures { IsTrue result ↔ (self.now ≡ other.now) }
    {
        self.digest == other.digest && self.expiry == other.expiry && self.scope.same(&other.scope)
    }

    pub(crate) fn known(&self)
        ensures { minted_field.Fits self.now }
    {
        let _digest = self.digest;
        self.expiry.known();
        known_scope(&self.scope);
    }

    pub(crate) fn read(alloc: Global, reader: &mut Reader<'_>) -> Result<MintedToken, ReadError>
        ensures { Gets (λ m. m) minted_field result reader.old reader.new }
    {
        let Some(digest) = read_digest(reader) else {
            return Err(ReadError::Malformed);
        };
        let Some(expiry) = Moment::read(reader) else {
            return Err(ReadError::Malformed);
        };
        match read_scope(alloc, reader) {
            Ok(scope) => Ok(MintedToken {
                digest,
                expiry,
                scope,
            }),
            Err(error) => Err(error),
        }
    }

    pub(crate) fn write(&self, writer: &mut Writer) -> Result<(), AllocError>
        ensures { OnOk result (writer.new ≡ writer.old ++ minted_field.spell self.now) }
    {
        writer.put_bytes(&self.digest)?;
        self.expiry.write(writer)?;
        write_scope(&self.scope, writer)
    }
}
