//! The fact that a code or a refresh token was used again.

ghost use Rattle.std.specs.Prelude.{◌≡◌, ◌++◌, OnOk};
ghost use Rattle.tk_format.specs.Reading.{Reads};
ghost use Rattle.tk_fact.specs.Kinds.{reuse_seen};

use std::alloc::AllocError;
use tk_format::{Reader, Writer};
use tk_handle::TokenId;

/// A code or a refresh token was used again, which kills its family (RFC 6749, 4.1.2 and 10.4).
#[derive(Clone, Copy, PartialEq, Eq)]
pub struct ReuseSeen {
    /// The name of the code or refresh token that was used again.
    pub token: TokenId,
}

impl ReuseSeen {
    pub(crate) fn known(&self)
        ensures { reuse_seen.Fits self.now }
    {
        self.token.known();
    }

    pub(crate) fn read(reader: &mut Reader<'_>) -> Option<ReuseSeen>
        ensures { Reads (λ f. f) reuse_seen result reader.old reader.new }
    {
        let token = TokenId::read(reader)?;
        Some(ReuseSeen { token })
    }

    pub(crate) fn write(&self, writer: &mut Writer) -> Result<(), AllocError>
        ensures { OnOk result (writer.new ≡ writer.old ++ reuse_seen.spell self.now) }
    {
        self.token.write(writer)
    }
}
