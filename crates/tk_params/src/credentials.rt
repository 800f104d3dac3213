//! The client credentials that a request presents (RFC 6749, 2.3 and 2.3.1).

use crate::basic::{Basic, read_basic};
use std::marker::Model;

/// The client credentials that a request presents: an id and a secret, either of which may be
/// absent (RFC 6749, 2.3.1).
///
/// Texts from the parameters are borrowed from them. Contracts see the bytes.
#[derive(Drop)]
pub struct Credentials<'a> {
    // The id and secret of the header, if there is one. They count in place of the body's.
    header: Option<Basic>,
    id: Option<&'a str>,
    secret: Option<&'a str>,
}

impl<'a> Model for Credentials<'a> {
    ghost use Rattle.std.specs.Option.{option_copied};
    ghost use Rattle.tk_params.specs.Credentials.{CredentialsFields, shown};

    ghost Value = { CredentialsFields };

    ghost view = { λ c. shown c.header (option_copied c.id) (option_copied c.secret) };
}

/// The reason why a request presents no credentials.
///
/// A secret in two places is reported first, then an unreadable header, then two ids. `Memory` may
/// be returned in place of any other error.
#[derive(Clone, Copy)]
pub enum CredentialsError {
    /// The request uses more than one method (RFC 6749, 2.3): the body has a secret although there
    /// is a header, whatever that header is, or header and body name two clients.
    Mixed,
    /// The header is not the Basic scheme with a readable id and secret (RFC 7617, 2).
    Basic,
    /// Memory ran out.
    Memory,
}

impl From<AllocError> for CredentialsError {
    ghost use Rattle.std.specs.Prelude.{◌≡◌};
    ghost use Rattle.tk_params.specs.declared.credentials.CredentialsError.TheVariants.{Memory};

    ghost from_gives = { λ _ e. e ≡ Memory };

    fn from(_: AllocError) -> CredentialsError {
        CredentialsError::Memory
    }
}

ghost use Rattle.std.specs.Prelude.{◌≡◌, IfNone, IfOk, IsErrOf, IsOk, Some};
ghost use Rattle.std.specs.Option.{option_copied};
ghost use Rattle.tk_params.specs.Credentials as spec;

use crate::params::Params;
use std::alloc::{AllocError, Global};

impl<'a> Credentials<'a> {
    /// Reads the credentials of a request (RFC 6749, 2.3.1).
    ///
    /// `header` is the value of the `Authorization` header. If there is a header, the credentials
    /// are read from it. Otherwise they are the parameters `client_id` and `client_secret`, each if
    /// it occurs once. An empty secret counts as absent. [`CredentialsError`] gives the order of
    /// the errors. `Memory` is returned only if there is a header.
    pub fn read(
        alloc: Global,
        header: Option<&[u8]>,
        params: &'a Params,
    ) -> Result<Credentials<'a>, CredentialsError>
        ensures ok { IfOk result
            (λ c. spec.presented_in (option_copied header.entry) params.now ≡ spec.Presents c) }
        ensures mixed { IsErrOf result CredentialsError.Mixed
            → spec.presented_in (option_copied header.entry) params.now ≡ spec.Mixed }
        ensures basic { IsErrOf result CredentialsError.Basic
            → spec.presented_in (option_copied header.entry) params.now ≡ spec.Unreadable }

        // Reading credentials from the body alone allocates no memory.
        ensures body { IfNone header.entry (IsOk result) }
    {
        match header {
            None => Ok(of_body(params)),
            Some(header) => of_header(alloc, header, params),
        }
    }

    /// Returns the client's id as it was sent. An id from a header may be empty.
    pub fn id(&self) -> Option<&str>
        ensures { option_copied result ≡ self.now.id }
    {
        match &self.header {
            Some(basic) => Some(basic.id()),
            None => self.id,
        }
    }

    /// Returns the client's secret, which is not empty.
    pub fn secret(&self) -> Option<&str>
        ensures { option_copied result ≡ self.now.secret }
    {
        match &self.header {
            Some(basic) => basic.secret(),
            None => self.secret,
        }
    }
}

// Returns the credentials of the body: `client_id` and `client_secret`, borrowed from the
// parameters.
fn of_body(params: &Params) -> Credentials<'_>
    ensures { result ≡ spec.of_body params.now }
{
    Credentials {
        header: None,
        id: params.value("client_id"),
        secret: params.value("client_secret"),
    }
}

// Reads the credentials of a header, beside a body that may name no secret and no other client.
fn of_header<'a>(
    alloc: Global,
    header: &[u8],
    params: &Params,
) -> Result<Credentials<'a>, CredentialsError>
    ensures ok { IfOk result
        (λ c. spec.presented_in (Some header.now) params.now ≡ spec.Presents c) }
    ensures mixed { IsErrOf result CredentialsError.Mixed
        → spec.presented_in (Some header.now) params.now ≡ spec.Mixed }
    ensures basic { IsErrOf result CredentialsError.Basic
        → spec.presented_in (Some header.now) params.now ≡ spec.Unreadable }
{
    if params.value("client_secret").is_some() {
        return Err(CredentialsError::Mixed);
    }
    match read_basic(alloc, header)? {
        Some(basic) => beside_body(basic, params.value("client_id")),
        None => Err(CredentialsError::Basic),
    }
}

// Returns the credentials of a header, unless the body names another client.
fn beside_body<'a>(basic: Basic, id: Option<&str>) -> Result<Credentials<'a>, CredentialsError>
    ensures ok { IfOk result
        (λ c. spec.beside_body basic (option_copied id.entry) ≡ spec.Presents c) }
    ensures mixed { IsErrOf result CredentialsError.Mixed
        → spec.beside_body basic (option_copied id.entry) ≡ spec.Mixed }
    ensures basic { IsErrOf result CredentialsError.Basic
        → spec.beside_body basic (option_copied id.entry) ≡ spec.Unreadable }
{
    match id {
        Some(id) if basic.id() != id => Err(CredentialsError::Mixed),
        _ => Ok(of_basic(basic)),
    }
}

// Returns the credentials of a header. An empty secret counts as absent.
fn of_basic<'a>(basic: Basic) -> Credentials<'a>
    ensures { result ≡ spec.of_basic basic }
{
    Credentials {
        header: Some(basic),
        id: None,
        secret: None,
    }
}
