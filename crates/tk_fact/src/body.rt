//! The body of a fact: one of twelve kinds.
//!
//! To add a kind:
//!
//! 1. `src/KIND.rt`: the kind's struct, with derives if all fields are plain, otherwise with `copy`
//!    and `same`; `known`, `read`, `write`. Two lines of `src/lib.rt` declare and export it.
//! 2. This file: the import, the variant, and a row each in `copy`, `same`, `known`, `read`,
//!    `number` and `write_fields`. `read` and `number` take a number that no kind ever had. Only
//!    `same` compiles without its row. The proofs of `copy`, `known`, `read` and `write_fields` in
//!    `proofs/body/Body/` have rows too.
//! 3. `specs/Kinds.antt`: the format of its fields. `specs/FactBytes.antt`: its row in `kinds`,
//!    with the number, and in `number_of`. If operators make such facts: a row in `kinds_by` too,
//!    and the rows of `specs/Administered.antt`; here those of `by` and `with_by`.
//! 4. `specs/FactLaws.antt`: the law of its fields, and its row in `body_exact`.
//!    `specs/LengthLaws.antt`: its row in `body_short`; a fact has 8,192 bytes at most.
//! 5. `specs/Check.antt`, `src/check.rt`: the rules that such a fact must keep.
//! 6. `specs/Tokens.antt`, `src/tokens.rt`: whether the kind mints tokens or uses one, and by which
//!    dot its tokens are in a family; `specs/Keeping.antt`, `src/keeping.rt`: for which token such
//!    a fact is kept. The compiler does not require these rows.
//! 7. `check/rows/bytes_facts.rows` at the top of the repository: its bytes at its limits, and one
//!    past each among the bytes of no fact, where the next free number, 24 now, becomes one
//!    greater. `check/rows/bytes_made.rows`: a region that makes such a fact. `must-fail/`: an edit
//!    for what the kind means.
//! 8. tk_bundle: a row in `kind_of` of `src/version.rt` and of `specs/Versions.antt`; two in the
//!    tables of versions there, `VERSIONS` and `versions`, without marks and with them. In proofs,
//!    rows in `fact_kind` of `specs/VersionLaws.antt` and in `body_long` of `specs/ItemLaws.antt`.
//!    A build that does not know the kind finds each bundle with such a fact malformed.
//! 9. tk_ledger: a row in `change_in` of `specs/Changes.antt` and in `change_of` of
//!    `src/change.rt`, with what the kind changes in the tables. The proofs have rows in
//!    `uses_agree` of `proofs/TokenLaws.antt`, in `issues` of `proofs/StandingLaws.antt`, in
//!    `own_anchor` of `proofs/RootLaws.antt`, and for codes and for refresh tokens in `grant_of` of
//!    `proofs/FamilyEnds.antt`. If the kind mints tokens: `mints` of `specs/Retention.antt`.
//! 10. tk_ledger, if the kind is a link of a family or ends one: `link_of`, `revoked_by`,
//!     `reuse_of` or `IsStopped` of `specs/Tokens.antt`, `signs_out_in` of `specs/SignOuts.antt`,
//!     `generation_of` of `specs/Status.antt`. If the kind makes or ends a client or a consent:
//!     `specs/Clients.antt`; if it sets a secret: `specs/Secrets.antt`. These definitions end in a
//!     row for all other kinds, so the compiler does not require a new row. The tests of tk_trials
//!     restate them in `src/ledger/walks.rt`.
//! 11. The request that makes such facts: an `Endpoint` of tk_message with its reply; the decision
//!     in tk_authorize, tk_grant or tk_query with its row in `decision_by` of tk_region; its path
//!     in tk_edge; perhaps a line in `src/request_line.rt` of tk_world.
//! 12. The number of kinds: "twelve" in this file, in `src/lib.rt`, in docs/GLOSSARY.md and in
//!     docs/ARCHITECTURE.md; the kinds 1 to 23 and their list in docs/FORMATS.md; the row "fact" of
//!     docs/DEFINITIONS.md. No kind has the number 11, or 14, which is that of a run of marks in
//!     bundles. 13 is a second number of `ClientAdded`, that of a client with lives, and 16 to 23
//!     are those of facts in which an operator is named: they show how a kind gets more fields.
//! 13. tk_listing: `src/lines.rt`, `src/fields.rt`, `specs/FactMembers.antt`. The readers in
//!     Python: `check/lib/facts.py`, `check/lib/reading.py`, `examples/carry/bundles.py` and
//!     `starter/starting/bundles.py`.

ghost use Rattle.std.specs.Prelude.{◌≡◌, ◌++◌, ◌∷◌, ◌↔◌, drop, IfOk, IsTrue, None, OnOk};
ghost use Rattle.std.specs.Option.{option_copied};
ghost use Rattle.tk_format.specs.Reading.{Gets};
ghost use Rattle.tk_fact.specs.Followed.{number_by};

use crate::access_refreshed::AccessRefreshed;
use crate::by::{By, known_by};
use crate::client_added::ClientAdded;
use crate::client_retired::ClientRetired;
use crate::code_issued::CodeIssued;
use crate::code_redeemed::CodeRedeemed;
use crate::consent_given::ConsentGiven;
use crate::consent_withdrawn::ConsentWithdrawn;
use crate::refresh_rotated::RefreshRotated;
use crate::reuse_seen::ReuseSeen;
use crate::secret_set::SecretSet;
use crate::subject_out::SubjectOut;
use crate::token_revoked::TokenRevoked;
use std::alloc::{AllocError, Global};
use tk_format::{ReadError, Reader, Writer};

/// The body of a fact: one of twelve kinds.
///
/// The ranges that fields document are those of a fact that passes its check.
#[derive(Drop)]
pub enum Body {
    /// A client was registered (RFC 6749, 2).
    ClientAdded(ClientAdded),
    /// A client was retired.
    ClientRetired(ClientRetired),
    /// A subject let a client have a scope (RFC 6749, 4.1).
    ConsentGiven(ConsentGiven),
    /// A consent was withdrawn.
    ConsentWithdrawn(ConsentWithdrawn),
    /// An authorization code was issued (RFC 6749, 4.1.2).
    CodeIssued(CodeIssued),
    /// A code was redeemed for tokens (RFC 6749, 4.1.3 and 4.1.4).
    CodeRedeemed(CodeRedeemed),
    /// A refresh token was rotated: used for new tokens (RFC 6749, 6).
    RefreshRotated(RefreshRotated),
    /// A token was revoked in the name of its client (RFC 7009, 2).
    TokenRevoked(TokenRevoked),
    /// A code or a refresh token was used again (RFC 6749, 4.1.2 and 10.4).
    ReuseSeen(ReuseSeen),
    /// A subject signed out everywhere.
    SubjectOut(SubjectOut),
    /// An access token was minted for a refresh token that its client keeps (RFC 6749, 6).
    AccessRefreshed(AccessRefreshed),
    /// A client's secret was changed (own).
    SecretSet(SecretSet),
}

impl Body {
    ghost use Rattle.tk_fact.specs.Administered.{by_of, with_by};
    ghost use Rattle.tk_fact.specs.Check.{refusal_of};
    ghost use Rattle.tk_fact.specs.FactBytes.{body};

    pub(crate) fn copy(&self, alloc: Global) -> Result<Body, AllocError>
        ensures { IfOk result (λ copy. copy ≡ self.now) }
    {
        match self {
            Body::ClientAdded(fields) => Ok(Body::ClientAdded(fields.copy(alloc)?)),
            Body::ClientRetired(fields) => Ok(Body::ClientRetired(fields.copy(alloc)?)),
            Body::ConsentGiven(fields) => Ok(Body::ConsentGiven(fields.copy(alloc)?)),
            Body::ConsentWithdrawn(fields) => Ok(Body::ConsentWithdrawn(fields.copy(alloc)?)),
            Body::CodeIssued(fields) => Ok(Body::CodeIssued(fields.copy(alloc)?)),
            Body::CodeRedeemed(fields) => Ok(Body::CodeRedeemed(fields.copy(alloc)?)),
            Body::RefreshRotated(fields) => Ok(Body::RefreshRotated(fields.copy(alloc)?)),
            Body::TokenRevoked(fields) => Ok(Body::TokenRevoked(fields.copy(alloc)?)),
            Body::ReuseSeen(fields) => Ok(Body::ReuseSeen(*fields)),
            Body::SubjectOut(fields) => Ok(Body::SubjectOut(fields.copy(alloc)?)),
            Body::AccessRefreshed(fields) => Ok(Body::AccessRefreshed(fields.copy(alloc)?)),
            Body::SecretSet(fields) => Ok(Body::SecretSet(fields.copy(alloc)?)),
        }
    }

    /// Returns whether both are of one kind and have equal fields.
    pub fn same(&self, other: &Body) -> bool
        ensures { IsTrue result ↔ (self.now ≡ other.now) }
    {
        match (self, other) {
            (Body::ClientAdded(left), Body::ClientAdded(right)) => left.same(right),
            (Body::ClientRetired(left), Body::ClientRetired(right)) => left.same(right),
            (Body::ConsentGiven(left), Body::ConsentGiven(right)) => left.same(right),
            (Body::ConsentWithdrawn(left), Body::ConsentWithdrawn(right)) => left.same(right),
            (Body::CodeIssued(left), Body::CodeIssued(right)) => left.same(right),
            (Body::CodeRedeemed(left), Body::CodeRedeemed(right)) => left.same(right),
            (Body::RefreshRotated(left), Body::RefreshRotated(right)) => left.same(right),
            (Body::TokenRevoked(left), Body::TokenRevoked(right)) => left.same(right),
            (Body::ReuseSeen(left), Body::ReuseSeen(right)) => left == right,
            (Body::SubjectOut(left), Body::SubjectOut(right)) => left.same(right),
            (Body::AccessRefreshed(left), Body::AccessRefreshed(right)) => left.same(right),
            (Body::SecretSet(left), Body::SecretSet(right)) => left.same(right),
            _ => false,
        }
    }

    /// Returns by whom and when the fact was administered, if an operator was named (own).
    pub fn by(&self) -> Option<&By>
        ensures { option_copied result ≡ by_of self.now }
    {
        match self {
            Body::ClientAdded(fields) => fields.by.as_ref(),
            Body::ClientRetired(fields) => fields.by.as_ref(),
            Body::ConsentGiven(fields) => fields.by.as_ref(),
            Body::ConsentWithdrawn(fields) => fields.by.as_ref(),
            Body::TokenRevoked(fields) => fields.by.as_ref(),
            Body::SubjectOut(fields) => fields.by.as_ref(),
            Body::SecretSet(fields) => fields.by.as_ref(),
            _ => None,
        }
    }

    /// Returns the fact with by whom and when it was administered (own). Facts of the kinds that
    /// nobody administers stay as they are.
    pub fn with_by(self, by: Option<By>) -> Body
        ensures value { result ≡ with_by by self }
        ensures passes { refusal_of self ≡ None → refusal_of result ≡ None }
    {
        known_by(&by);
        match self {
            Body::ClientAdded(mut fields) => {
                fields.by = by;
                Body::ClientAdded(fields)
            }
            Body::ClientRetired(mut fields) => {
                fields.by = by;
                Body::ClientRetired(fields)
            }
            Body::ConsentGiven(mut fields) => {
                fields.by = by;
                Body::ConsentGiven(fields)
            }
            Body::ConsentWithdrawn(mut fields) => {
                fields.by = by;
                Body::ConsentWithdrawn(fields)
            }
            Body::TokenRevoked(mut fields) => {
                fields.by = by;
                Body::TokenRevoked(fields)
            }
            Body::SubjectOut(mut fields) => {
                fields.by = by;
                Body::SubjectOut(fields)
            }
            Body::SecretSet(mut fields) => {
                fields.by = by;
                Body::SecretSet(fields)
            }
            other => other,
        }
    }

    // Gives a caller's proof the fact that the body has a spelling.
    #[tactic(auto, unfolding(crate::specs::FactBytes::kinds))]
    pub(crate) fn known(&self)
        ensures { body.Fits self.now }
    {
        match self {
            Body::ClientAdded(fields) => fields.known(),
            Body::ClientRetired(fields) => fields.known(),
            Body::ConsentGiven(fields) => fields.known(),
            Body::ConsentWithdrawn(fields) => fields.known(),
            Body::CodeIssued(fields) => fields.known(),
            Body::CodeRedeemed(fields) => fields.known(),
            Body::RefreshRotated(fields) => fields.known(),
            Body::TokenRevoked(fields) => fields.known(),
            Body::ReuseSeen(fields) => fields.known(),
            Body::SubjectOut(fields) => fields.known(),
            Body::AccessRefreshed(fields) => fields.known(),
            Body::SecretSet(fields) => fields.known(),
        }
    }

    #[tactic(auto, unfolding(crate::specs::FactBytes::kinds))]
    pub(crate) fn read(alloc: Global, reader: &mut Reader<'_>) -> Result<Body, ReadError>
        ensures { Gets (λ b. b) body result reader.old reader.new }
    {
        let Some(kind) = reader.take_u8() else {
            return Err(ReadError::Malformed);
        };
        match kind {
            1 => Ok(Body::ClientAdded(ClientAdded::read(alloc, reader)?)),
            2 => Ok(Body::ClientRetired(ClientRetired::read(reader)?)),
            3 => Ok(Body::ConsentGiven(ConsentGiven::read(alloc, reader)?)),
            4 => Ok(Body::ConsentWithdrawn(ConsentWithdrawn::read(reader)?)),
            5 => Ok(Body::CodeIssued(CodeIssued::read(alloc, reader)?)),
            6 => Ok(Body::CodeRedeemed(CodeRedeemed::read(alloc, reader)?)),
            7 => Ok(Body::RefreshRotated(RefreshRotated::read(alloc, reader)?)),
            8 => Ok(Body::TokenRevoked(TokenRevoked::read(reader)?)),
            9 => match ReuseSeen::read(reader) {
                Some(fields) => Ok(Body::ReuseSeen(fields)),
                None => Err(ReadError::Malformed),
            },
            10 => Ok(Body::SubjectOut(SubjectOut::read(alloc, reader)?)),
            12 => Ok(Body::AccessRefreshed(AccessRefreshed::read(alloc, reader)?)),
            13 => Ok(Body::ClientAdded(ClientAdded::read_limited(alloc, reader)?)),
            15 => Ok(Body::SecretSet(SecretSet::read(reader)?)),
            16 => Ok(Body::ClientAdded(ClientAdded::read_by(alloc, reader)?)),
            17 => Ok(Body::ClientAdded(ClientAdded::read_limited_by(alloc, reader)?)),
            18 => Ok(Body::ClientRetired(ClientRetired::read_by(alloc, reader)?)),
            19 => Ok(Body::ConsentGiven(ConsentGiven::read_by(alloc, reader)?)),
            20 => Ok(Body::ConsentWithdrawn(ConsentWithdrawn::read_by(alloc, reader)?)),
            21 => Ok(Body::TokenRevoked(TokenRevoked::read_by(alloc, reader)?)),
            22 => Ok(Body::SubjectOut(SubjectOut::read_by(alloc, reader)?)),
            23 => Ok(Body::SecretSet(SecretSet::read_by(alloc, reader)?)),
            _ => Err(ReadError::Malformed),
        }
    }

    pub(crate) fn write(&self, writer: &mut Writer) -> Result<(), AllocError>
        requires { body.Fits self.now }
        ensures { OnOk result (writer.new ≡ writer.old ++ body.spell self.now) }
    {
        writer.put_u8(self.number())?;
        self.write_fields(writer)
    }

    // Returns the number of the body's kind.
    #[tactic(auto, unfolding(crate::specs::FactBytes::kinds))]
    fn number(&self) -> u8
        ensures { body.spell self.now ≡ result ∷ drop 1 (body.spell self.now) }
    {
        match self {
            Body::ClientAdded(fields) => match fields.lives {
                None => by_number(&fields.by, 1, 16),
                Some(_) => by_number(&fields.by, 13, 17),
            },
            Body::ClientRetired(fields) => by_number(&fields.by, 2, 18),
            Body::ConsentGiven(fields) => by_number(&fields.by, 3, 19),
            Body::ConsentWithdrawn(fields) => by_number(&fields.by, 4, 20),
            Body::CodeIssued(_) => 5,
            Body::CodeRedeemed(_) => 6,
            Body::RefreshRotated(_) => 7,
            Body::TokenRevoked(fields) => by_number(&fields.by, 8, 21),
            Body::ReuseSeen(_) => 9,
            Body::SubjectOut(fields) => by_number(&fields.by, 10, 22),
            Body::AccessRefreshed(_) => 12,
            Body::SecretSet(fields) => by_number(&fields.by, 15, 23),
        }
    }

    // Writes the fields that follow the number of the kind.
    #[tactic(auto, unfolding(crate::specs::FactBytes::kinds))]
    fn write_fields(&self, writer: &mut Writer) -> Result<(), AllocError>
        requires { body.Fits self.now }
        ensures { OnOk result (writer.new ≡ writer.old ++ drop 1 (body.spell self.now)) }
    {
        match self {
            Body::ClientAdded(fields) => fields.write(writer),
            Body::ClientRetired(fields) => fields.write(writer),
            Body::ConsentGiven(fields) => fields.write(writer),
            Body::ConsentWithdrawn(fields) => fields.write(writer),
            Body::CodeIssued(fields) => fields.write(writer),
            Body::CodeRedeemed(fields) => fields.write(writer),
            Body::RefreshRotated(fields) => fields.write(writer),
            Body::TokenRevoked(fields) => fields.write(writer),
            Body::ReuseSeen(fields) => fields.write(writer),
            Body::SubjectOut(fields) => fields.write(writer),
            Body::AccessRefreshed(fields) => fields.write(writer),
            Body::SecretSet(fields) => fields.write(writer),
        }
    }
}

// Returns the number of a kind of facts: that without an operator, or that with one.
fn by_number(by: &Option<By>, bare: u8, named: u8) -> u8
    ensures { result ≡ number_by by.now bare named }
{
    match by {
        None => bare,
        Some(_) => named,
    }
}
