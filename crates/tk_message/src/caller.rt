//! The client that sends a request to an endpoint that requires authentication.

use tk_handle::Dot;

/// The sender of a request to the token, introspection or revocation endpoint: the first case that
/// holds, in this order.
#[derive(Clone, Copy)]
pub enum Caller {
    /// A parameter that the endpoint knows occurs twice (RFC 6749, 3.2).
    DuplicateParameter,
    /// The request has credentials in two places (RFC 6749, 2.3).
    MixedCredentials,
    /// The credentials prove no live client (RFC 6749, 3.2.1).
    InvalidClient,
    /// The live client that was added at the dot.
    Client(Dot),
}

ghost use Rattle.std.specs.Prelude.{◌≡◌, IfOk, map};
ghost use Rattle.tk_store.specs.StoreFields.{held_facts};
ghost use Rattle.tk_message.specs.Caller as spec;

use crate::authentication::{Authentication, authenticate};
use crate::request::Request;
use std::alloc::{AllocError, Global};
use tk_ledger::Ledger;
use tk_params::{Credentials, CredentialsError};

/// Returns the sender of a request to an endpoint that knows the parameters of the given names.
///
/// Other parameters are ignored (RFC 6749, 3.2). Returns an error if memory runs out.
pub fn find_caller(
    alloc: Global,
    ledger: &Ledger,
    names: &[&str],
    request: &Request,
) -> Result<Caller, AllocError>
    ensures { IfOk result (λ caller.
        caller ≡ spec.caller_of (held_facts ledger.now) (map (λ name. name.now) names.now)
        request.now) }
{
    if request.params.has_twice(names) {
        return Ok(Caller::DuplicateParameter);
    }
    match Credentials::read(alloc, request.authorization(), &request.params) {
        Ok(credentials) => Ok(caller_by_auth(authenticate(ledger, &credentials))),
        Err(CredentialsError::Mixed) => Ok(Caller::MixedCredentials),
        Err(CredentialsError::Basic) => Ok(Caller::InvalidClient),
        Err(CredentialsError::Memory) => Err(AllocError),
    }
}

// Returns the sender by the outcome of authentication.
fn caller_by_auth(auth: Authentication) -> Caller
    ensures { result ≡ spec.caller_by_auth auth }
{
    match auth {
        Authentication::Client(client) => Caller::Client(client),
        Authentication::Invalid => Caller::InvalidClient,
    }
}
