//! The kind of a client, and its field.

ghost use Rattle.std.specs.Prelude.{◌≡◌, ◌++◌, OnOk};
ghost use Rattle.tk_format.specs.Reading.{Reads};
ghost use Rattle.tk_fact.specs.ClientKinds.{keeps_refresh};
ghost use Rattle.tk_fact.specs.Fields.{client_kind_field};

use crate::digest::{known_digest, read_digest};
use std::alloc::AllocError;
use tk_format::{Reader, Writer};

/// The kind of a client (RFC 6749, 2.1), with the SHA-256 digest of its secret if it has one.
#[derive(Clone, Copy, PartialEq, Eq)]
pub enum ClientKind {
    /// A public client, which cannot keep a secret and has none.
    Public,
    /// A confidential client, with the digest of its secret.
    Confidential([u8; 32]),
    /// A resource server, which introspects tokens (RFC 7662, 2.1), with the digest of its secret.
    Resource([u8; 32]),
    /// A confidential client that keeps its refresh token: a refresh uses nothing up (RFC 6749, 6;
    /// RFC 9700, 2.2.2), with the digest of its secret.
    Keeping([u8; 32]),
}

impl ClientKind {
    /// Returns whether a client of this kind keeps its refresh token (RFC 9700, 2.2.2).
    pub fn keeps_refresh(&self) -> bool
        ensures { result ≡ keeps_refresh self.now }
    {
        match self {
            ClientKind::Public => false,
            ClientKind::Confidential(_) => false,
            ClientKind::Resource(_) => false,
            ClientKind::Keeping(_) => true,
        }
    }

    #[tactic(auto, unfolding(crate::specs::Fields::client_kinds))]
    pub(crate) fn known(&self)
        ensures { client_kind_field.Fits self.now }
    {
        match self {
            ClientKind::Public => {}
            ClientKind::Confidential(digest) => known_digest(*digest),
            ClientKind::Resource(digest) => known_digest(*digest),
            ClientKind::Keeping(digest) => known_digest(*digest),
        }
    }

    #[tactic(auto, unfolding(crate::specs::Fields::client_kinds))]
    pub(crate) fn read(reader: &mut Reader<'_>) -> Option<ClientKind>
        ensures { Reads (λ s. s) client_kind_field result reader.old reader.new }
    {
        match reader.take_u8()? {
            0 => Some(ClientKind::Public),
            1 => {
                let digest = read_digest(reader)?;
                Some(ClientKind::Confidential(digest))
            }
            2 => {
                let digest = read_digest(reader)?;
                Some(ClientKind::Resource(digest))
            }
            3 => {
                let digest = read_digest(reader)?;
                Some(ClientKind::Keeping(digest))
            }
            _ => None,
        }
    }

    #[tactic(auto, unfolding(crate::specs::Fields::client_kinds))]
    pub(crate) fn write(&self, writer: &mut Writer) -> Result<(), AllocError>
        ensures { OnOk result (writer.new ≡ writer.old ++ client_kind_field.spell self.now) }
    {
        match self {
            ClientKind::Public => writer.put_u8(0),
            ClientKind::Confidential(digest) => {
                writer.put_u8(1)?;
                writer.put_bytes(digest)
            }
            ClientKind::Resource(digest) => {
                writer.put_u8(2)?;
                writer.put_bytes(digest)
            }
            ClientKind::Keeping(digest) => {
                writer.put_u8(3)?;
                writer.put_bytes(digest)
            }
        }
    }
}
