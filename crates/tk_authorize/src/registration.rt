//! Judgements of requests that add a client (RFC 6749, 2).

ghost use Rattle.std.specs.Prelude.{◌≡◌, IfOk, IsTrue, Ok as Found, Some, map};
ghost use Rattle.std.specs.List.{slice_split};
ghost use Rattle.std.specs.Option.{option_copied};
ghost use Rattle.tk_params.specs.Params.{has_twice};
ghost use Rattle.tk_fact.specs.Check.{are_lives};
ghost use Rattle.tk_authorize.specs.Administered as spec;
ghost use Rattle.tk_authorize.specs.SoundAdministered.{IsSoundAdministered};

use crate::admin_refusal::AdminRefusal;
use crate::administered::Administered;
use crate::client_params::digest_asked;
use crate::lives::{lives_allowed, lives_sent};
use std::alloc::{AllocError, Global};
use tk_fact::{ClientAdded, ClientKind, ClientLives};
use tk_match::{RedirectError, Redirects};
use tk_message::Params;
use tk_scope::{Scope, ScopeError};

// Judges a request to add a client.
pub(crate) fn register(alloc: Global, params: &Params) -> Result<Administered, AllocError>
    ensures value { IfOk result (λ a. a ≡ spec.registered_of params.now) }
    ensures sound { IfOk result IsSoundAdministered }
{
    if has_repeats(params) {
        return Ok(Administered::Refused(AdminRefusal::DuplicateParameter));
    }
    let kind = params.value("kind");
    let scope = params.value("scope");
    let redirects = params.value("redirects");
    let refresh = params.value("refresh");
    register_by(
        alloc,
        kind,
        scope,
        redirects,
        refresh,
        params.value("secret"),
        lives_sent(params),
    )
}

// Returns whether a parameter that the endpoint knows occurs twice.
fn has_repeats(params: &Params) -> bool
    ensures { result ≡ has_twice spec.registration_names params.now }
{
    let names = [
        "kind",
        "refresh",
        "secret",
        "scope",
        "redirects",
        "access_life",
        "refresh_life",
        "family_life",
    ];
    params.has_twice(&names)
}

// Judges a request to add a client, by its parameters.
fn register_by(
    alloc: Global,
    kind: Option<&str>,
    scope: Option<&str>,
    redirects: Option<&str>,
    refresh: Option<&str>,
    secret: Option<&str>,
    lives: Result<Option<ClientLives>, AdminRefusal>,
) -> Result<Administered, AllocError>
    requires { IfOk lives (λ lives. IsTrue (are_lives lives)) }
    ensures value { IfOk result (λ a.
        a ≡ spec.registered_by (option_copied kind.entry) (option_copied scope.entry)
        (option_copied redirects.entry) (option_copied refresh.entry)
        (option_copied secret.entry) lives) }
    ensures sound { IfOk result IsSoundAdministered }
{
    let Some(kind) = kind else {
        return Ok(Administered::Refused(AdminRefusal::MissingParameter));
    };
    let Some(scope) = scope else {
        return Ok(Administered::Refused(AdminRefusal::MissingParameter));
    };
    let Some(redirects) = redirects else {
        return Ok(Administered::Refused(AdminRefusal::MissingParameter));
    };
    match client_kind_asked(kind, refresh, secret) {
        Ok(client_kind) => register_as(alloc, client_kind, lives, scope, redirects),
        Err(why) => Ok(Administered::Refused(why)),
    }
}

// ---- the kind and the secret

// Returns the kind of a client by its name, `refresh` and its secret.
fn client_kind_asked(
    kind: &str,
    refresh: Option<&str>,
    secret: Option<&str>,
) -> Result<ClientKind, AdminRefusal>
    ensures { result ≡ spec.client_kind_asked kind.now (option_copied refresh.entry)
        (option_copied secret.entry) }
{
    if kind == "public" {
        return rotating_kind(refresh, public_kind(secret));
    }
    if kind == "confidential" {
        return refreshing_kind(refresh, digest_asked(secret));
    }
    if kind == "resource" {
        return rotating_kind(refresh, resource_kind(digest_asked(secret)));
    }
    Err(AdminRefusal::UnknownKind)
}

// Returns the kind of a confidential client, which may keep its refresh token.
fn refreshing_kind(
    refresh: Option<&str>,
    digest: Result<[u8; 32], AdminRefusal>,
) -> Result<ClientKind, AdminRefusal>
    ensures { result ≡ spec.refreshing_kind (option_copied refresh.entry) digest }
{
    match refresh {
        None => confidential_kind(digest),
        Some(refresh) => kept_kind(refresh, digest),
    }
}

// Returns the kind of a client that is not confidential, for which `refresh` may not be sent.
fn rotating_kind(
    refresh: Option<&str>,
    kind: Result<ClientKind, AdminRefusal>,
) -> Result<ClientKind, AdminRefusal>
    ensures { result ≡ spec.rotating_kind (option_copied refresh.entry) kind }
{
    match refresh {
        Some(_) => Err(AdminRefusal::WrongRefresh),
        None => kind,
    }
}

// Returns the kind of a public client, which has no secret.
fn public_kind(secret: Option<&str>) -> Result<ClientKind, AdminRefusal>
    ensures { result ≡ spec.public_kind (option_copied secret.entry) }
{
    match secret {
        Some(_) => Err(AdminRefusal::UnwantedSecret),
        None => Ok(ClientKind::Public),
    }
}

// Returns the kind of a confidential client with the digest of its secret.
fn confidential_kind(digest: Result<[u8; 32], AdminRefusal>) -> Result<ClientKind, AdminRefusal>
    ensures { result ≡ spec.confidential_kind digest }
{
    match digest {
        Ok(digest) => Ok(ClientKind::Confidential(digest)),
        Err(why) => Err(why),
    }
}

// Returns the kind of a confidential client that sends `refresh`, which must be `kept`.
fn kept_kind(
    refresh: &str,
    digest: Result<[u8; 32], AdminRefusal>,
) -> Result<ClientKind, AdminRefusal>
    ensures { result ≡ spec.refreshing_kind (Some refresh.now) digest }
{
    if refresh == "kept" {
        keeping_kind(digest)
    } else {
        Err(AdminRefusal::WrongRefresh)
    }
}

// Returns the kind of a client that keeps its refresh token, with the digest of its secret.
fn keeping_kind(digest: Result<[u8; 32], AdminRefusal>) -> Result<ClientKind, AdminRefusal>
    ensures { result ≡ spec.keeping_kind digest }
{
    match digest {
        Ok(digest) => Ok(ClientKind::Keeping(digest)),
        Err(why) => Err(why),
    }
}

// Returns the kind of a resource server with the digest of its secret.
fn resource_kind(digest: Result<[u8; 32], AdminRefusal>) -> Result<ClientKind, AdminRefusal>
    ensures { result ≡ spec.resource_kind digest }
{
    match digest {
        Ok(digest) => Ok(ClientKind::Resource(digest)),
        Err(why) => Err(why),
    }
}

// ---- the lives, the scope and the redirection URIs

// Judges a client of a kind, if a client of that kind may have the lives.
fn register_as(
    alloc: Global,
    client_kind: ClientKind,
    lives: Result<Option<ClientLives>, AdminRefusal>,
    scope: &str,
    redirects: &str,
) -> Result<Administered, AllocError>
    requires { IfOk lives (λ lives. IsTrue (are_lives lives)) }
    ensures value { IfOk result (λ a. a
        ≡ spec.registered_as (Found client_kind) lives scope.now redirects.now) }
    ensures sound { IfOk result IsSoundAdministered }
{
    match lives_allowed(&client_kind, lives) {
        Ok(lives) => register_for(alloc, client_kind, lives, scope, redirects),
        Err(why) => Ok(Administered::Refused(why)),
    }
}

// Judges a client with lives or without, if the text of its scope can be read.
fn register_for(
    alloc: Global,
    client_kind: ClientKind,
    lives: Option<ClientLives>,
    scope: &str,
    redirects: &str,
) -> Result<Administered, AllocError>
    requires { IsTrue (are_lives lives) }
    ensures value { IfOk result (λ a. a
        ≡ spec.registered_for client_kind (Found lives) scope.now redirects.now) }
    ensures sound { IfOk result IsSoundAdministered }
{
    match Scope::read(alloc, scope.as_bytes()) {
        Ok(scope) => register_with(alloc, client_kind, lives, scope, redirects),
        Err(ScopeError::Memory) => Err(AllocError),
        Err(ScopeError::TooLong) => Ok(Administered::Refused(AdminRefusal::MalformedScope)),
        Err(ScopeError::Malformed) => Ok(Administered::Refused(AdminRefusal::MalformedScope)),
        Err(ScopeError::TooMany) => Ok(Administered::Refused(AdminRefusal::MalformedScope)),
    }
}

// Judges a client with a scope, by the text of its redirection URIs.
fn register_with(
    alloc: Global,
    client_kind: ClientKind,
    lives: Option<ClientLives>,
    scope: Scope,
    redirects: &str,
) -> Result<Administered, AllocError>
    requires { IsTrue (are_lives lives) }
    ensures value { IfOk result (λ a. a
        ≡ spec.registered_with client_kind lives (Some scope) redirects.now) }
    ensures sound { IfOk result IsSoundAdministered }
{
    match split_redirects(alloc, redirects) {
        Ok(redirects) => Ok(register_to(client_kind, lives, scope, redirects)),
        Err(error) => {
            drop(scope);
            Err(error)
        }
    }
}

// Reads redirection URIs between single spaces, `None` if the list may not be registered.
fn split_redirects(alloc: Global, text: &str) -> Result<Option<Redirects>, AllocError>
    ensures { IfOk result (λ redirects.
        redirects ≡ spec.registered (slice_split spec.is_space text.now)) }
{
    let uris = split_spaces(alloc, text.as_bytes())?;
    read_redirects(alloc, uris.as_slice())
}

// Splits a text at each space.
fn split_spaces(alloc: Global, text: &[u8]) -> Result<Vec<&[u8]>, AllocError>
    ensures { IfOk result (λ pieces. map (λ x. x.now) pieces.items ≡ slice_split spec.is_space
        text.now) }
{
    text.split(|b| *b == b' ').collect(alloc)
}

// Reads a list of redirection URIs, `None` if the list may not be registered.
#[tactic(auto, using(crate::proofs::RegistrationLaws::registered_list, crate::proofs::RegistrationLaws::unregistered_list))]
fn read_redirects(alloc: Global, uris: &[&[u8]]) -> Result<Option<Redirects>, AllocError>
    ensures { IfOk result (λ redirects. redirects ≡ spec.registered (map (λ x. x.now) uris.now)) }
{
    match Redirects::of_client(alloc, uris) {
        Ok(redirects) => Ok(Some(redirects)),
        Err(RedirectError::Memory) => Err(AllocError),
        Err(RedirectError::Empty | RedirectError::TooMany | RedirectError::Malformed) => Ok(None),
    }
}

// Judges a client with redirection URIs, if the list may be registered.
fn register_to(
    client_kind: ClientKind,
    lives: Option<ClientLives>,
    scope: Scope,
    redirects: Option<Redirects>,
) -> Administered
    requires { IsTrue (are_lives lives) }
    ensures value { result ≡ spec.registered_to client_kind lives scope redirects }
    ensures sound { IsSoundAdministered result }
{
    let Some(redirects) = redirects else {
        return Administered::Refused(AdminRefusal::WrongRedirects);
    };
    // This call gives the proof that each URI is within its limits.
    let _uris = redirects.uris();
    Administered::Registers(ClientAdded {
        client_kind,
        scope,
        redirects,
        lives,
        by: None,
    })
}
