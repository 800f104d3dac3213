//! The lives that a client was registered with, and their field.

ghost use Rattle.std.specs.Prelude.{◌≡◌, ◌++◌, OnOk};
ghost use Rattle.tk_format.specs.Reading.{Reads};
ghost use Rattle.tk_fact.specs.Fields.{lives_field};

use std::alloc::AllocError;
use tk_format::{Reader, Writer};

/// How long what a client gets lives at most, in seconds (own). The server's lives may be shorter.
#[derive(Clone, Copy, PartialEq, Eq)]
pub struct ClientLives {
    /// The life of an access token, 1 to 86,400.
    pub access: u64,
    /// The life of a refresh token, 1 to 31,536,000.
    pub refresh: u64,
    /// The life of a family, a code and all tokens that descend from it, 1 to 315,360,000.
    pub family: u64,
}

impl ClientLives {
    pub(crate) fn known(&self)
        ensures { lives_field.Fits self.now }
    {
        let _access = self.access;
        let _refresh = self.refresh;
        let _family = self.family;
    }

    pub(crate) fn read(reader: &mut Reader<'_>) -> Option<ClientLives>
        ensures { Reads (λ l. l) lives_field result reader.old reader.new }
    {
        let access = reader.take_u64()?;
        let refresh = reader.take_u64()?;
        let family = reader.take_u64()?;
        Some(ClientLives {
            access,
            refresh,
            family,
        })
    }

    pub(crate) fn write(&self, writer: &mut Writer) -> Result<(), AllocError>
        ensures { OnOk result (writer.new ≡ writer.old ++ lives_field.spell self.now) }
    {
        writer.put_u64(self.access)?;
        writer.put_u64(self.refresh)?;
        writer.put_u64(self.family)
    }
}
