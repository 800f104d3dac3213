//! The change that one fact makes in the tables of a ledger.

use tk_family::Link;
use tk_handle::{Dot, Moment, TokenId};

// A token that is revoked, in the name of a client.
#[derive(Clone, Copy)]
pub(crate) struct RevokedToken {
    pub(crate) token: TokenId,
    // The SHA-256 digest of the token's handle.
    pub(crate) digest: [u8; 32],
    pub(crate) client: Dot,
}

// The change that one fact makes in the tables.
#[derive(Clone, Copy)]
pub(crate) enum Change {
    // A client is added at the fact's dot.
    Add,
    // The client that was added at the dot is retired.
    Retire(Dot),
    // A consent is given at the fact's dot.
    Give {
        client: Dot,
        // The SHA-256 digest of the subject.
        subject: [u8; 32],
    },
    // The consent that was given at the dot is withdrawn.
    Withdraw(Dot),
    // A code is issued to a subject.
    Issue {
        // The first 8 bytes of the SHA-256 digest of the subject, as a number.
        prefix: u64,
        start: Moment,
    },
    // A code is redeemed, or a refresh token rotated: the fact gets the link.
    Put(Link),
    // A token is revoked.
    Revoke(RevokedToken),
    // The reuse of the token was seen.
    Mark(TokenId),
    // A subject signs out everywhere.
    SignOut {
        // The SHA-256 digest of the subject.
        subject: [u8; 32],
        moment: Moment,
    },
    // A secret of a client is set.
    SetSecret {
        client: Dot,
        turn: u64,
        // The SHA-256 digest of the secret.
        digest: [u8; 32],
    },
    // The tables stay as they are.
    Nothing,
}

ghost use Rattle.std.specs.Prelude.{◌≡◌};
ghost use Rattle.sha2.specs.Sha256.{sha256};
ghost use Rattle.tk_ledger.specs.Changes.{change_in, digest_prefix, revoked_in};

use sha2::{Digest, Sha256};
use tk_fact::{Body, Subject, TokenRevoked};

// Returns the SHA-256 digest of a subject, which is in the keys of its consents and sign-outs.
pub(crate) fn subject_digest(subject: &Subject) -> [u8; 32]
    ensures { result ≡ sha256 subject.now }
{
    Sha256::digest(subject.as_bytes())
}

// Returns the first 8 bytes of a digest, as a number. That of a subject's digest is in the keys of
// its codes and logins.
#[tactic(auto, unfolding(crate::specs::Changes::digest_prefix))]
pub(crate) fn digest_prefix(digest: &[u8; 32]) -> u64
    ensures { result ≡ digest_prefix digest.now }
{
    let (prefix, _) = digest.split_first_chunk::<8>().unwrap();
    u64::from_be_bytes(*prefix)
}

// Returns the token that the fact revokes.
fn revoked_by(fact: &TokenRevoked) -> RevokedToken
    ensures { result ≡ revoked_in fact.now }
{
    let digest = fact.digest;
    RevokedToken {
        token: fact.token,
        digest,
        client: fact.client,
    }
}

// Returns the change that the fact of a body makes.
pub(crate) fn change_of(body: &Body) -> Change
    ensures { result ≡ change_in body.now }
{
    match body {
        Body::ClientAdded(_) => Change::Add,
        Body::ClientRetired(fact) => Change::Retire(fact.client),
        Body::ConsentGiven(fact) => Change::Give {
            client: fact.client,
            subject: subject_digest(&fact.subject),
        },
        Body::ConsentWithdrawn(fact) => Change::Withdraw(fact.consent),
        Body::CodeIssued(fact) => Change::Issue {
            prefix: digest_prefix(&subject_digest(&fact.subject)),
            start: fact.start,
        },
        Body::CodeRedeemed(fact) => Change::Put(Link::Redeems(fact.code)),
        Body::RefreshRotated(fact) => Change::Put(Link::Rotates {
            parent: fact.parent,
            generation: fact.generation,
        }),
        Body::TokenRevoked(fact) => Change::Revoke(revoked_by(fact)),
        Body::ReuseSeen(fact) => Change::Mark(fact.token),
        Body::SubjectOut(fact) => Change::SignOut {
            subject: subject_digest(&fact.subject),
            moment: fact.moment,
        },
        Body::AccessRefreshed(_) => Change::Nothing,
        Body::SecretSet(fact) => Change::SetSecret {
            client: fact.client,
            turn: fact.turn,
            digest: fact.digest,
        },
    }
}
