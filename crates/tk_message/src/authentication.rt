//! Authentication: the client that credentials prove (RFC 6749, 2.3).

use tk_handle::Dot;

/// The outcome of an authentication.
#[derive(Clone, Copy)]
pub(crate) enum Authentication {
    /// The credentials prove the live client that was added at the dot.
    Client(Dot),
    /// The credentials prove no live client.
    Invalid,
}

ghost use Rattle.std.specs.Prelude.{◌≡◌, Some};
ghost use Rattle.std.specs.Option.{option_copied, option_and_then};
ghost use Rattle.tk_handle.specs.ClientId.{client_in};
ghost use Rattle.tk_store.specs.StoreFields.{held_facts};
ghost use Rattle.tk_message.specs.Authentication as spec;

use sha2::{Digest, Sha256};
use tk_fact::ClientKind;
use tk_handle::read_client;
use tk_ledger::Ledger;
use tk_params::Credentials;

/// Returns the live client that the credentials prove (RFC 6749, 2.3.1).
///
/// A public client proves itself by its id, without a secret. Another client proves itself by its
/// secret of the last turn or of the turn before, compared by SHA-256. No memory is allocated.
pub(crate) fn authenticate(ledger: &Ledger, credentials: &Credentials<'_>) -> Authentication
    ensures { result ≡ spec.authenticated (held_facts ledger.now) credentials.now }
{
    match client_named(credentials.id()) {
        Some(at) => authenticate_at(ledger, at, credentials.secret()),
        None => Authentication::Invalid,
    }
}

// Returns the dot of the client that an id names, if the id is one.
fn client_named(id: Option<&str>) -> Option<Dot>
    ensures { result ≡ option_and_then client_in (option_copied id.entry) }
{
    match id {
        Some(id) => read_client(id.as_bytes()),
        None => None,
    }
}

// Returns the client that was added at the dot, if it is live and the secret is good.
fn authenticate_at(ledger: &Ledger, at: Dot, secret: Option<&str>) -> Authentication
    ensures { result ≡ spec.authenticated_at (held_facts ledger.now) (option_copied secret.entry)
        (Some at) }
{
    match ledger.client(at) {
        Some(client) if client.live && proves(ledger, at, client.client_kind, secret) => {
            Authentication::Client(at)
        }
        Some(_) => Authentication::Invalid,
        None => Authentication::Invalid,
    }
}

// Returns whether the secret, or its absence, proves the client of this kind.
fn proves(ledger: &Ledger, client: Dot, client_kind: &ClientKind, secret: Option<&str>) -> bool
    ensures { result ≡ spec.proves (held_facts ledger.now) client client_kind.now
        (option_copied secret.entry) }
{
    match client_kind {
        ClientKind::Public => secret.is_none(),
        ClientKind::Confidential(first) => accepts(ledger, client, first, secret),
        ClientKind::Resource(first) => accepts(ledger, client, first, secret),
        ClientKind::Keeping(first) => accepts(ledger, client, first, secret),
    }
}

// Returns whether a secret was sent, and is good for the client. `first` is the digest of the
// secret with which the client was registered.
fn accepts(ledger: &Ledger, client: Dot, first: &[u8; 32], secret: Option<&str>) -> bool
    ensures { result ≡ spec.accepts (held_facts ledger.now) client first.now
        (option_copied secret.entry) }
{
    match secret {
        Some(secret) => ledger.accepts(client, first, &Sha256::digest(secret.as_bytes())),
        None => false,
    }
}
