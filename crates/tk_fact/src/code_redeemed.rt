//! The fact that a code was redeemed for tokens.

ghost use Rattle.std.specs.Prelude.{◌≡◌, ◌++◌, ◌↔◌, IfOk, IsTrue, OnOk};
ghost use Rattle.tk_format.specs.Reading.{Gets};
ghost use Rattle.tk_fact.specs.Kinds.{code_redeemed};

use crate::minted_token::MintedToken;
use std::alloc::{AllocError, Global};
use tk_format::{ReadError, Reader, Writer};
use tk_handle::{Dot, Moment};

/// A code was redeemed for an access token and a refresh token (RFC 6749, 4.1.3 and 4.1.4).
#[derive(Drop)]
pub struct CodeRedeemed {
    /// The dot at which the code was issued.
    pub code: Dot,
    /// When the lives of both tokens start.
    pub start: Moment,
    /// The access token (RFC 6749, 1.4). Its expiry is not before the start.
    pub access: MintedToken,
    /// The refresh token (RFC 6749, 1.5). Its expiry is not before the start.
    pub refresh: MintedToken,
}

impl CodeRedeemed {
    pub(crate) fn copy(&self, alloc: Global) -> Result<CodeRedeemed, AllocError>
        ensures { IfOk result (λ copy. copy ≡ self.now) }
    {
        let Ok(access) = self.access.copy(alloc) else {
            return Err(AllocError);
        };
        let Ok(refresh) = self.refresh.copy(alloc) else {
            return Err(AllocError);
        };
        Ok(CodeRedeemed {
            code: self.code,
            start: self.start,
            access,
            refresh,
        })
    }

    pub(crate) fn same(&self, other: &CodeRedeemed) -> bool
        ensures { IsTrue result ↔ (self.now ≡ other.now) }
    {
        self.code == other.code
            && self.start == other.start
            && self.access.same(&other.access)
            && self.refresh.same(&other.refresh)
    }

    pub(crate) fn known(&self)
        ensures { code_redeemed.Fits self.now }
    {
        self.code.known();
        self.start.known();
        self.access.known();
        self.refresh.known();
    }

    pub(crate) fn read(alloc: Global, reader: &mut Reader<'_>) -> Result<CodeRedeemed, ReadError>
        ensures { Gets (λ f. f) code_redeemed result reader.old reader.new }
    {
        let Some(code) = Dot::read(reader) else {
            return Err(ReadError::Malformed);
        };
        let Some(start) = Moment::read(reader) else {
            return Err(ReadError::Malformed);
        };
        let access = MintedToken::read(alloc, reader)?;
        match MintedToken::read(alloc, reader) {
            Ok(refresh) => Ok(CodeRedeemed {
                code,
                start,
                access,
                refresh,
            }),
            Err(error) => Err(error),
        }
    }

    pub(crate) fn write(&self, writer: &mut Writer) -> Result<(), AllocError>
        ensures { OnOk result (writer.new ≡ writer.old ++ code_redeemed.spell self.now) }
    {
        self.code.write(writer)?;
        self.start.write(writer)?;
        self.access.write(writer)?;
        self.refresh.write(writer)
    }
}
