//! The kinds of tokens.

ghost use Rattle.std.specs.Prelude.{◌≡◌};
ghost use Rattle.tk_format.specs.Reading.{Reads};
ghost use Rattle.tk_handle.specs.Kind.{kind, kind_number};

use tk_format::Reader;

/// What a token is for. Kinds are ordered as they are listed.
#[derive(Clone, Copy, Debug, PartialEq, Eq)]
pub enum Kind {
    /// An authorization code (RFC 6749, 1.3.1).
    Code,
    /// An access token (RFC 6749, 1.4).
    Access,
    /// A refresh token (RFC 6749, 1.5).
    Refresh,
}

impl Kind {
    /// Returns the kind's number in bytes, 1 to 3 in the order of the variants.
    pub fn number(self) -> u8
        ensures { result ≡ kind_number self }
    {
        match self {
            Kind::Code => 1,
            Kind::Access => 2,
            Kind::Refresh => 3,
        }
    }

    // Takes a kind from the front, or returns `None` if the byte there is no kind's number. After
    // `None` the reader's position is unspecified.
    pub(crate) fn read(reader: &mut Reader<'_>) -> Option<Kind>
        ensures { Reads (λ k. k) kind result reader.old reader.new }
    {
        match reader.take_u8()? {
            1 => Some(Kind::Code),
            2 => Some(Kind::Access),
            3 => Some(Kind::Refresh),
            _ => None,
        }
    }
}
