//! The fact that a refresh token was rotated: used for new tokens.

ghost use Rattle.std.specs.Prelude.{◌≡◌, ◌++◌, ◌↔◌, IfOk, IsTrue, OnOk};
ghost use Rattle.tk_format.specs.Reading.{Gets};
ghost use Rattle.tk_fact.specs.Kinds.{refresh_rotated};

use crate::minted_token::MintedToken;
use std::alloc::{AllocError, Global};
use tk_format::{ReadError, Reader, Writer};
use tk_handle::{Dot, Moment};

/// A refresh token was used for a new access token and a new refresh token (RFC 6749, 6).
#[derive(Drop)]
pub struct RefreshRotated {
    /// The dot of the fact that minted the refresh token that was used.
    pub parent: Dot,
    /// How many rotations made the new tokens since the code, counting this one: 1 to 10,000.
    pub generation: u16,
    /// When the lives of both new tokens start.
    pub start: Moment,
    /// The new access token (RFC 6749, 1.4). Its expiry is not before the start.
    pub access: MintedToken,
    /// The new refresh token (RFC 6749, 1.5). Its expiry is not before the start.
    pub refresh: MintedToken,
}

impl RefreshRotated {
    pub(crate) fn copy(&self, alloc: Global) -> Result<RefreshRotated, AllocError>
        ensures { IfOk result (λ copy. copy ≡ self.now) }
    {
        let Ok(access) = self.access.copy(alloc) else {
            return Err(AllocError);
        };
        let Ok(refresh) = self.refresh.copy(alloc) else {
            return Err(AllocError);
        };
        Ok(RefreshRotated {
            parent: self.parent,
            generation: self.generation,
            start: self.start,
            access,
            refresh,
        })
    }

    pub(crate) fn same(&self, other: &RefreshRotated) -> bool
        ensures { IsTrue result ↔ (self.now ≡ other.now) }
    {
        self.parent == other.parent
            && self.generation == other.generation
            && self.start == other.start
            && self.access.same(&other.access)
            && self.refresh.same(&other.refresh)
    }

    pub(crate) fn known(&self)
        ensures { refresh_rotated.Fits self.now }
    {
        self.parent.known();
        let _generation = self.generation;
        self.start.known();
        self.access.known();
        self.refresh.known();
    }

    pub(crate) fn read(alloc: Global, reader: &mut Reader<'_>) -> Result<RefreshRotated, ReadError>
        ensures { Gets (λ f. f) refresh_rotated result reader.old reader.new }
    {
        let Some(parent) = Dot::read(reader) else {
            return Err(ReadError::Malformed);
        };
        let Some(generation) = reader.take_u16() else {
            return Err(ReadError::Malformed);
        };
        let Some(start) = Moment::read(reader) else {
            return Err(ReadError::Malformed);
        };
        let access = MintedToken::read(alloc, reader)?;
        match MintedToken::read(alloc, reader) {
            Ok(refresh) => Ok(RefreshRotated {
                parent,
                generation,
                start,
                access,
                refresh,
            }),
            Err(error) => Err(error),
        }
    }

    pub(crate) fn write(&self, writer: &mut Writer) -> Result<(), AllocError>
        ensures { OnOk result (writer.new ≡ writer.old ++ refresh_rotated.spell self.now) }
    {
        self.parent.write(writer)?;
        writer.put_u16(self.generation)?;
        self.start.write(writer)?;
        self.access.write(writer)?;
        self.refresh.write(writer)
    }
}
