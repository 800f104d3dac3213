//! The fact that a client's secret was changed.

ghost use Rattle.std.specs.Prelude.{◌≡◌, ◌++◌, ◌↔◌, IfOk, IsTrue, OnOk};
ghost use Rattle.tk_format.specs.Format.{◌⊗◌, via};
ghost use Rattle.tk_format.specs.Reading.{GetsBy};
ghost use Rattle.tk_fact.specs.Fields.{by_field};
ghost use Rattle.tk_fact.specs.Followed.{IfFits, bare, bytes_behind, followed};
ghost use Rattle.tk_fact.specs.Kinds.{secret_fields, secret_on, secret_terms};

use crate::by::{By, copy_by, known_by, same_by, write_by};
use crate::digest::read_digest;
use std::alloc::{AllocError, Global};
use tk_format::{ReadError, Reader, Writer};
use tk_handle::{Dot, Moment};

/// A client's secret was changed (own). The secret with which the client was registered has the
/// turn 0. Those of the client's last turn and of the turn before it are good (RFC 6749, 2.3.1).
#[derive(Drop)]
pub struct SecretSet {
    /// The dot of the client.
    pub client: Dot,
    /// The turn of the secret, 1 to 1,000,000.
    pub turn: u64,
    /// SHA-256 of the secret.
    pub digest: [u8; 32],
    /// When the secret was set, by the clock of the region that received the request.
    pub moment: Moment,
    /// By whom and when, if the request named an operator (own).
    pub by: Option<By>,
}

impl SecretSet {
    pub(crate) fn copy(&self, alloc: Global) -> Result<SecretSet, AllocError>
        ensures { IfOk result (λ copy. copy ≡ self.now) }
    {
        let by = copy_by(alloc, &self.by)?;
        Ok(SecretSet {
            client: self.client,
            turn: self.turn,
            digest: self.digest,
            moment: self.moment,
            by,
        })
    }

    pub(crate) fn same(&self, other: &SecretSet) -> bool
        ensures { IsTrue result ↔ (self.now ≡ other.now) }
    {
        self.client == other.client
            && self.turn == other.turn
            && self.digest == other.digest
            && self.moment == other.moment
            && same_by(&self.by, &other.by)
    }

    pub(crate) fn known(&self)
        ensures fields { secret_terms.Fits (secret_fields self.now) }
        ensures by { IfFits by_field self.now.by }
    {
        self.client.known();
        let _turn = self.turn;
        let _digest = self.digest;
        self.moment.known();
        known_by(&self.by);
    }

    // Reads the fields of a fact in which no operator is named.
    pub(crate) fn read(reader: &mut Reader<'_>) -> Result<SecretSet, ReadError>
        ensures { GetsBy (via (bare secret_on) secret_terms) result reader.old reader.new }
    {
        let Some(client) = Dot::read(reader) else {
            return Err(ReadError::Malformed);
        };
        let Some(turn) = reader.take_u64() else {
            return Err(ReadError::Malformed);
        };
        let Some(digest) = read_digest(reader) else {
            return Err(ReadError::Malformed);
        };
        let Some(moment) = Moment::read(reader) else {
            return Err(ReadError::Malformed);
        };
        Ok(SecretSet {
            client,
            turn,
            digest,
            moment,
            by: None,
        })
    }

    // Reads the fields of a fact, and by whom and when.
    pub(crate) fn read_by(alloc: Global, reader: &mut Reader<'_>) -> Result<SecretSet, ReadError>
        ensures { GetsBy (via (followed secret_on) (secret_terms ⊗ by_field)) result reader.old
            reader.new }
    {
        let fact = SecretSet::read(reader)?;
        let digest = fact.digest;
        match By::read(alloc, reader) {
            Ok(by) => Ok(SecretSet {
                client: fact.client,
                turn: fact.turn,
                digest,
                moment: fact.moment,
                by: Some(by),
            }),
            Err(error) => Err(error),
        }
    }

    pub(crate) fn write(&self, writer: &mut Writer) -> Result<(), AllocError>
        requires fields { secret_terms.Fits (secret_fields self.now) }
        requires by { IfFits by_field self.now.by }
        ensures { OnOk result
            (writer.new ≡ writer.old ++ (secret_terms.spell (secret_fields self.now)
            ++ bytes_behind by_field self.now.by)) }
    {
        self.client.write(writer)?;
        writer.put_u64(self.turn)?;
        writer.put_bytes(&self.digest)?;
        self.moment.write(writer)?;
        write_by(&self.by, writer)
    }
}
