//! The paths that tokend serves, and what each serves under a method.
//!
//! `path_named` finds a `Path`, and `Path::service` the `Service` under a `Method`.

ghost use Rattle.std.specs.Prelude.{◌≡◌, ◌≤◌, ◌==◌, length};
ghost use Rattle.std.specs.List.{position_or_len};
ghost use Rattle.std.specs.Str.{bytes_eq};
ghost use Rattle.tk_edge.specs.Paths as spec;

use crate::notice::Notice;
use crate::pull::Pages;
use crate::reach::{PathSet, Reach};
use tk_message::Endpoint;

/// A path that tokend serves.
#[derive(Clone, Copy)]
pub enum Path {
    /// The authorization endpoint, `/authorize` (RFC 6749, 3.1).
    Authorize,
    /// The token endpoint, `/token` (RFC 6749, 3.2).
    Token,
    /// The introspection endpoint, `/introspect` (RFC 7662, 2).
    Introspect,
    /// The revocation endpoint, `/revoke` (RFC 7009, 2).
    Revoke,
    /// Adds or shows a client, `/admin/client` (own).
    Client,
    /// Lists clients, `/admin/clients` (own).
    Clients,
    /// Retires a client, `/admin/retire` (own).
    Retire,
    /// Changes the secret of a client, `/admin/secret` (own).
    Secret,
    /// Adds a consent, `/admin/consent` (own).
    Consent,
    /// Withdraws a consent, `/admin/withdraw` (own).
    Withdraw,
    /// Signs a subject out, `/admin/signout` (own).
    SignOut,
    /// Lists what a subject has, `/admin/subject` (own).
    Subject,
    /// Ends a login, `/admin/logout` (own).
    Logout,
    /// Shows the region's vector, `/sync/vector` (own).
    Vector,
    /// Returns a page of facts, `/sync/pull` (own).
    Pull,
    /// Takes a bundle in, `/sync/push` (own).
    Push,
    /// Shows what the server says of itself: `/.well-known/oauth-authorization-server` (RFC 8414,
    /// 3), `/health` or `/metrics` (own).
    Notice(Notice),
}

// A method that some path has.
#[derive(Clone, Copy)]
pub(crate) enum Method {
    Get,
    Post,
}

// What a path serves under a method.
#[derive(Clone, Copy)]
pub(crate) enum Service {
    // An endpoint whose parameters are in the query.
    Query(Endpoint),
    // The region's vector.
    Vector,
    // What the server says of itself.
    Notice(Notice),
    // A service that needs a body.
    Body(Posted),
}

// The use of a body.
#[derive(Clone, Copy)]
pub(crate) enum Posted {
    // The form holds the parameters of an endpoint.
    Form(Endpoint),
    // The body is a cursor and a vector.
    Pull(Pages),
    // The body is a bundle.
    Push,
}

// Returns the index of the first byte with this value, or the length.
pub(crate) fn place_of(bytes: &[u8], value: u8) -> usize
    ensures place { result ≡ position_or_len (λ b. b == value) bytes.now }
    ensures within { result ≤ length bytes.now }
{
    let mut at = 0;
    let mut rest = bytes;
    'bytes: while let Some((first, others)) = rest.split_first() {
        if *first == value {
            break;
        }
        at += 1;
        rest = others;
    }
    at
}

// Splits a target at its first `?` into path and query.
pub(crate) fn split_target(target: &[u8]) -> (&[u8], &[u8])
    ensures path { result.0.now ≡ spec.path_of target.now }
    ensures query { result.1.now ≡ spec.query_of target.now }
{
    let at = place_of(target, b'?');
    if at == target.len() {
        return (target, &target[at..]);
    }
    (&target[..at], &target[at + 1..])
}

// Returns whether a text is this name, byte for byte.
pub(crate) fn is_named(text: &[u8], name: &[u8]) -> bool
    ensures { result ≡ bytes_eq text.now name.now }
{
    text == name
}

// Returns the path of this name, if it is reached.
pub(crate) fn path_named(reach: Reach, path: &[u8]) -> Option<Path>
    ensures { result ≡ spec.path_named reach path.now }
{
    match client_named(path) {
        Some(found) => Some(found),
        None => beside_clients(reach, path),
    }
}

// Returns the path of this name among those that aren't of clients, if it is reached.
fn beside_clients(reach: Reach, path: &[u8]) -> Option<Path>
    ensures { result ≡ spec.beside_clients reach path.now }
{
    match notice_named(reach, path) {
        Some(found) => Some(found),
        None => inner_named(reach.paths, path),
    }
}

// Returns the path of this name among those of notices, if it is reached.
fn notice_named(reach: Reach, path: &[u8]) -> Option<Path>
    ensures { result ≡ spec.notice_named reach path.now }
{
    if reach.discovery && is_named(path, b"/.well-known/oauth-authorization-server") {
        return Some(Path::Notice(Notice::Discovery));
    }
    if reach.health && is_named(path, b"/health") {
        return Some(Path::Notice(Notice::Health));
    }
    if has_metrics(reach) && is_named(path, b"/metrics") {
        return Some(Path::Notice(Notice::Metrics));
    }
    None
}

// Returns whether the metrics are reached: the paths of operators are, and the server has metrics.
fn has_metrics(reach: Reach) -> bool
    ensures { result ≡ spec.has_metrics reach }
{
    match reach.paths {
        PathSet::Clients => false,
        PathSet::Admin | PathSet::All => reach.metrics,
    }
}

// Returns the path of this name among those of operators and of regions, if it is reached.
fn inner_named(paths: PathSet, path: &[u8]) -> Option<Path>
    ensures { result ≡ spec.inner_named paths path.now }
{
    match paths {
        PathSet::Clients => None,
        PathSet::Admin => admin_named(path),
        PathSet::All => match admin_named(path) {
            Some(found) => Some(found),
            None => sync_named(path),
        },
    }
}

// Returns the path of this name among those of clients.
fn client_named(path: &[u8]) -> Option<Path>
    ensures { result ≡ spec.client_named path.now }
{
    if is_named(path, b"/authorize") {
        return Some(Path::Authorize);
    }
    if is_named(path, b"/token") {
        return Some(Path::Token);
    }
    if is_named(path, b"/introspect") {
        return Some(Path::Introspect);
    }
    if is_named(path, b"/revoke") {
        return Some(Path::Revoke);
    }
    None
}

// Returns the path of this name among those of `/admin/`.
fn admin_named(path: &[u8]) -> Option<Path>
    ensures { result ≡ spec.admin_named path.now }
{
    if is_named(path, b"/admin/client") {
        return Some(Path::Client);
    }
    if is_named(path, b"/admin/clients") {
        return Some(Path::Clients);
    }
    if is_named(path, b"/admin/retire") {
        return Some(Path::Retire);
    }
    if is_named(path, b"/admin/secret") {
        return Some(Path::Secret);
    }
    if is_named(path, b"/admin/consent") {
        return Some(Path::Consent);
    }
    if is_named(path, b"/admin/withdraw") {
        return Some(Path::Withdraw);
    }
    if is_named(path, b"/admin/signout") {
        return Some(Path::SignOut);
    }
    logins_named(path)
}

// Returns the path of this name among those by which operators see and end logins.
fn logins_named(path: &[u8]) -> Option<Path>
    ensures { result ≡ spec.logins_named path.now }
{
    if is_named(path, b"/admin/subject") {
        return Some(Path::Subject);
    }
    if is_named(path, b"/admin/logout") {
        return Some(Path::Logout);
    }
    None
}

// Returns the path of this name among those of `/sync/`.
fn sync_named(path: &[u8]) -> Option<Path>
    ensures { result ≡ spec.sync_named path.now }
{
    if is_named(path, b"/sync/vector") {
        return Some(Path::Vector);
    }
    if is_named(path, b"/sync/pull") {
        return Some(Path::Pull);
    }
    if is_named(path, b"/sync/push") {
        return Some(Path::Push);
    }
    None
}

// Returns the method of this name. Names are case-sensitive (RFC 9110, 9.1).
pub(crate) fn method_named(name: &[u8]) -> Option<Method>
    ensures { result ≡ spec.method_named name.now }
{
    if is_named(name, b"GET") {
        return Some(Method::Get);
    }
    if is_named(name, b"POST") {
        return Some(Method::Post);
    }
    None
}

impl Path {
    // Returns what the path serves under a method.
    pub(crate) fn service(self, method: Option<Method>) -> Option<Service>
        ensures { result ≡ spec.service_at self method }
    {
        match method {
            Some(Method::Get) => self.get_service(),
            Some(Method::Post) => self.post_service(),
            None => None,
        }
    }

    // Returns what the path serves under GET.
    fn get_service(self) -> Option<Service>
        ensures { result ≡ spec.get_service self }
    {
        match self {
            Path::Authorize => Some(Service::Query(Endpoint::Authorize)),
            Path::Client => Some(Service::Query(Endpoint::ShowClient)),
            Path::Clients => Some(Service::Query(Endpoint::ListClients)),
            Path::Subject => Some(Service::Query(Endpoint::ShowSubject)),
            Path::Vector => Some(Service::Vector),
            Path::Notice(notice) => Some(Service::Notice(notice)),
            _ => None,
        }
    }

    // Returns what the path serves under POST, without a query.
    fn post_service(self) -> Option<Service>
        ensures { result ≡ spec.post_service self }
    {
        match self {
            Path::Authorize | Path::Clients | Path::Subject | Path::Vector | Path::Notice(_) =>
                None,
            Path::Token => form_for(Endpoint::Token),
            Path::Introspect => form_for(Endpoint::Introspect),
            Path::Revoke => form_for(Endpoint::Revoke),
            Path::Client => form_for(Endpoint::AddClient),
            Path::Retire => form_for(Endpoint::Retire),
            Path::Secret => form_for(Endpoint::ChangeSecret),
            Path::Consent => form_for(Endpoint::Consent),
            Path::Withdraw => form_for(Endpoint::Withdraw),
            Path::SignOut => form_for(Endpoint::SignOut),
            Path::Logout => form_for(Endpoint::Logout),
            Path::Pull => Some(Service::Body(Posted::Pull(Pages::Plain))),
            Path::Push => Some(Service::Body(Posted::Push)),
        }
    }

    /// Returns the path's methods as the value of `Allow` (RFC 9110, 10.2.1).
    pub(crate) fn allowed(self) -> &'static [u8]
        ensures { result.now ≡ spec.allowed_at self }
    {
        match self {
            Path::Authorize | Path::Clients | Path::Subject | Path::Vector => b"GET",
            Path::Notice(_) => b"GET",
            Path::Client => b"GET, POST",
            _ => b"POST",
        }
    }
}

// The service whose body is a form for this endpoint.
fn form_for(endpoint: Endpoint) -> Option<Service>
    ensures { result ≡ spec.form_for endpoint }
{
    Some(Service::Body(Posted::Form(endpoint)))
}
