//! The fact that an access token was refreshed: minted for a refresh token that stays as it is.

ghost use Rattle.std.specs.Prelude.{◌≡◌, ◌++◌, ◌↔◌, IfOk, IsTrue, OnOk};
ghost use Rattle.tk_format.specs.Reading.{Gets};
ghost use Rattle.tk_fact.specs.Kinds.{access_refreshed};

use crate::minted_token::MintedToken;
use std::alloc::{AllocError, Global};
use tk_format::{ReadError, Reader, Writer};
use tk_handle::{Dot, Moment};

/// A new access token was minted for a refresh token, which its client keeps (RFC 6749, 6).
#[derive(Drop)]
pub struct AccessRefreshed {
    /// The dot of the fact that minted the refresh token.
    pub parent: Dot,
    /// When the life of the new token starts.
    pub start: Moment,
    /// The new access token (RFC 6749, 1.4). Its expiry is not before the start.
    pub access: MintedToken,
}

impl AccessRefreshed {
    pub(crate) fn copy(&self, alloc: Global) -> Result<AccessRefreshed, AllocError>
        ensures { IfOk result (λ copy. copy ≡ self.now) }
    {
        let Ok(access) = self.access.copy(alloc) else {
            return Err(AllocError);
        };
        Ok(AccessRefreshed {
            parent: self.parent,
            start: self.start,
            access,
        })
    }

    pub(crate) fn same(&self, other: &AccessRefreshed) -> bool
        ensures { IsTrue result ↔ (self.now ≡ other.now) }
    {
        self.parent == other.parent && self.start == other.start && self.access.same(&other.access)
    }

    pub(crate) fn known(&self)
        ensures { access_refreshed.Fits self.now }
    {
        self.parent.known();
        self.start.known();
        self.access.known();
    }

    pub(crate) fn read(alloc: Global, reader: &mut Reader<'_>) -> Result<AccessRefreshed, ReadError>
        ensures { Gets (λ f. f) access_refreshed result reader.old reader.new }
    {
        let Some(parent) = Dot::read(reader) else {
            return Err(ReadError::Malformed);
        };
        let Some(start) = Moment::read(reader) else {
            return Err(ReadError::Malformed);
        };
        match MintedToken::read(alloc, reader) {
            Ok(access) => Ok(AccessRefreshed {
                parent,
                start,
                access,
            }),
            Err(error) => Err(error),
        }
    }

    pub(crate) fn write(&self, writer: &mut Writer) -> Result<(), AllocError>
        ensures { OnOk result (writer.new ≡ writer.old ++ access_refreshed.spell self.now) }
    {
        self.parent.write(writer)?;
        self.start.write(writer)?;
        self.access.write(writer)
    }
}
