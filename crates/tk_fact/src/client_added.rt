//! The fact that a client was registered.

ghost use Rattle.std.specs.Prelude.{◌≡◌, ◌++◌, ◌↔◌, IfOk, IsTrue, OnOk};
ghost use Rattle.tk_format.specs.Format.{◌⊗◌, via};
ghost use Rattle.tk_format.specs.Reading.{GetsBy};
ghost use Rattle.tk_fact.specs.Fields.{by_field, lives_field};
ghost use Rattle.tk_fact.specs.Followed.{IfFits, bare, bytes_behind, followed};
ghost use Rattle.tk_fact.specs.Kinds.{ClientFits, client_bytes, client_terms, limited};
ghost use Rattle.tk_fact.specs.Kinds.{limited_terms, unlimited};

use crate::by::{By, copy_by, known_by, same_by, write_by};
use crate::client_kind::ClientKind;
use crate::client_lives::ClientLives;
use crate::redirects_field::{known_redirects, read_redirects, write_redirects};
use crate::scope_field::{known_scope, read_scope, write_scope};
use std::alloc::{AllocError, Global};
use tk_format::{ReadError, Reader, Writer};
use tk_match::Redirects;
use tk_scope::Scope;

/// A client was registered (RFC 6749, 2). The fact's dot is the client's id.
#[derive(Drop)]
pub struct ClientAdded {
    /// The client kind, with the digest of the client's secret if it has one (RFC 6749, 2.1).
    pub client_kind: ClientKind,
    /// The greatest scope that the client may request, 1 to 32 scope-tokens (RFC 6749, 3.3).
    pub scope: Scope,
    /// The URIs to which a browser may be sent back, 1 to 8 (RFC 6749, 3.1.2.2).
    pub redirects: Redirects,
    /// How long what the client gets lives at most, or `None` if the server's lives alone bound it
    /// (own).
    pub lives: Option<ClientLives>,
    /// By whom and when, if the request named an operator (own).
    pub by: Option<By>,
}

impl ClientAdded {
    pub(crate) fn copy(&self, alloc: Global) -> Result<ClientAdded, AllocError>
        ensures { IfOk result (λ copy. copy ≡ self.now) }
    {
        let Ok(scope) = self.scope.copy(alloc) else {
            return Err(AllocError);
        };
        let Ok(redirects) = self.redirects.copy(alloc) else {
            return Err(AllocError);
        };
        let Ok(by) = copy_by(alloc, &self.by) else {
            return Err(AllocError);
        };
        Ok(ClientAdded {
            client_kind: self.client_kind,
            scope,
            redirects,
            lives: self.lives,
            by,
        })
    }

    pub(crate) fn same(&self, other: &ClientAdded) -> bool
        ensures { IsTrue result ↔ (self.now ≡ other.now) }
    {
        self.client_kind == other.client_kind
            && self.scope.same(&other.scope)
            && self.redirects.same(&other.redirects)
            && self.lives == other.lives
            && same_by(&self.by, &other.by)
    }

    pub(crate) fn known(&self)
        ensures { ClientFits self.now }
    {
        self.client_kind.known();
        known_scope(&self.scope);
        known_redirects(&self.redirects);
        known_lives(&self.lives);
        known_by(&self.by);
    }

    // Reads the fields of a client without lives.
    pub(crate) fn read(alloc: Global, reader: &mut Reader<'_>) -> Result<ClientAdded, ReadError>
        ensures { GetsBy (via (bare unlimited) client_terms) result reader.old reader.new }
    {
        let Some(client_kind) = ClientKind::read(reader) else {
            return Err(ReadError::Malformed);
        };
        let scope = read_scope(alloc, reader)?;
        match read_redirects(alloc, reader) {
            Ok(redirects) => Ok(ClientAdded {
                client_kind,
                scope,
                redirects,
                lives: None,
                by: None,
            }),
            Err(error) => Err(error),
        }
    }

    // Reads the fields of a client with lives.
    pub(crate) fn read_limited(
        alloc: Global,
        reader: &mut Reader<'_>,
    ) -> Result<ClientAdded, ReadError>
        ensures { GetsBy (via (bare limited) limited_terms) result reader.old reader.new }
    {
        let client = ClientAdded::read(alloc, reader)?;
        match ClientLives::read(reader) {
            Some(lives) => Ok(ClientAdded {
                client_kind: client.client_kind,
                scope: client.scope,
                redirects: client.redirects,
                lives: Some(lives),
                by: None,
            }),
            None => Err(ReadError::Malformed),
        }
    }

    // Reads the fields of a client without lives, and by whom and when.
    pub(crate) fn read_by(alloc: Global, reader: &mut Reader<'_>) -> Result<ClientAdded, ReadError>
        ensures { GetsBy (via (followed unlimited) (client_terms ⊗ by_field)) result reader.old
            reader.new }
    {
        let client = ClientAdded::read(alloc, reader)?;
        match By::read(alloc, reader) {
            Ok(by) => Ok(ClientAdded {
                client_kind: client.client_kind,
                scope: client.scope,
                redirects: client.redirects,
                lives: None,
                by: Some(by),
            }),
            Err(error) => Err(error),
        }
    }

    // Reads the fields of a client with lives, and by whom and when.
    pub(crate) fn read_limited_by(
        alloc: Global,
        reader: &mut Reader<'_>,
    ) -> Result<ClientAdded, ReadError>
        ensures { GetsBy (via (followed limited) (limited_terms ⊗ by_field)) result reader.old
            reader.new }
    {
        let client = ClientAdded::read_limited(alloc, reader)?;
        match By::read(alloc, reader) {
            Ok(by) => Ok(ClientAdded {
                client_kind: client.client_kind,
                scope: client.scope,
                redirects: client.redirects,
                lives: client.lives,
                by: Some(by),
            }),
            Err(error) => Err(error),
        }
    }

    pub(crate) fn write(&self, writer: &mut Writer) -> Result<(), AllocError>
        requires { ClientFits self.now }
        ensures { OnOk result (writer.new ≡ writer.old ++ client_bytes self.now) }
    {
        self.client_kind.write(writer)?;
        write_scope(&self.scope, writer)?;
        write_redirects(&self.redirects, writer)?;
        write_lives(&self.lives, writer)?;
        write_by(&self.by, writer)
    }
}

// Gives a proof the fact that the lives of a client, if it has any, have a spelling.
fn known_lives(lives: &Option<ClientLives>)
    ensures { IfFits lives_field lives.now }
{
    match lives {
        None => {}
        Some(lives) => lives.known(),
    }
}

// Writes the lives of a client, if it has any.
fn write_lives(lives: &Option<ClientLives>, writer: &mut Writer) -> Result<(), AllocError>
    ensures { OnOk result (writer.new ≡ writer.old ++ bytes_behind lives_field lives.now) }
{
    match lives {
        None => Ok(()),
        Some(lives) => lives.write(writer),
    }
}
