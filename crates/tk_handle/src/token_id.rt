//! The names of tokens.

ghost use Rattle.std.specs.Prelude.{◌≡◌, ◌++◌, OnOk};
ghost use Rattle.tk_format.specs.Reading.{Reads};
ghost use Rattle.tk_handle.specs.TokenId.{token};

use crate::dot::Dot;
use crate::kind::Kind;
use std::alloc::AllocError;
use tk_format::{Reader, Writer};

/// The name of a token: the dot of the fact that minted it, and its kind.
///
/// Names are ordered by dot, then by kind.
#[derive(Clone, Copy, Debug, PartialEq, Eq)]
pub struct TokenId {
    /// The dot of the fact that minted the token.
    pub dot: Dot,
    /// What the token is for.
    pub kind: Kind,
}

impl TokenId {
    /// Gives a caller's proof the fact that dot and kind are in their ranges. Does nothing at run
    /// time.
    pub fn known(self)
        ensures { token.Fits self }
    {}

    /// Takes a name from the front, or returns `None` if the bytes do not begin with one. After
    /// `None` the reader's position is unspecified.
    pub fn read(reader: &mut Reader<'_>) -> Option<TokenId>
        ensures { Reads (λ t. t) token result reader.old reader.new }
    {
        let dot = Dot::read(reader)?;
        let kind = Kind::read(reader)?;
        Some(TokenId { dot, kind })
    }

    /// Writes the dot, and the kind's number in a byte. After an error the writer's contents are
    /// unspecified.
    pub fn write(self, writer: &mut Writer) -> Result<(), AllocError>
        ensures { OnOk result (writer.new ≡ writer.old ++ token.spell self) }
    {
        self.dot.write(writer)?;
        writer.put_u8(self.kind.number())
    }
}
