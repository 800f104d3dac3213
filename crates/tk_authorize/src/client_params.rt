//! The parameters `client_id` and `secret` of administration requests (RFC 6749, 2.2 and 2.3.1).

ghost use Rattle.std.specs.Prelude.{◌≡◌};
ghost use Rattle.std.specs.List.{list_all};
ghost use Rattle.std.specs.Option.{option_copied};
ghost use Rattle.tk_fact.specs.Subject.{is_visible};
ghost use Rattle.tk_authorize.specs.ClientParams as spec;

use crate::admin_refusal::AdminRefusal;
use sha2::{Digest, Sha256};
use tk_handle::{Dot, read_client};

/// The greatest number of bytes of a client's secret (own).
const MAX_SECRET_BYTES: usize = 128;

// Returns the dot of a client id, if one was sent.
pub(crate) fn client_asked(id: Option<&str>) -> Result<Dot, AdminRefusal>
    ensures { result ≡ spec.client_asked (option_copied id.entry) }
{
    let Some(id) = id else {
        return Err(AdminRefusal::MissingParameter);
    };
    match read_client(id.as_bytes()) {
        Some(client) => Ok(client),
        None => Err(AdminRefusal::UnknownClient),
    }
}

// Returns the digest of the secret, which is required.
pub(crate) fn digest_asked(secret: Option<&str>) -> Result<[u8; 32], AdminRefusal>
    ensures { result ≡ spec.digest_asked (option_copied secret.entry) }
{
    let Some(secret) = secret else {
        return Err(AdminRefusal::MissingSecret);
    };
    if !is_secret(secret.as_bytes()) {
        return Err(AdminRefusal::MalformedSecret);
    }
    Ok(Sha256::digest(secret.as_bytes()))
}

// Returns whether a secret has 1 to 128 visible bytes.
fn is_secret(secret: &[u8]) -> bool
    ensures { result ≡ spec.is_secret secret.now }
{
    (1..=MAX_SECRET_BYTES).contains(&secret.len()) && is_all_visible(secret)
}

// Returns whether all bytes are visible ASCII.
fn is_all_visible(secret: &[u8]) -> bool
    ensures { result ≡ list_all is_visible secret.now }
{
    secret.iter().all(|b| (0x21..=0x7e).contains(b))
}
