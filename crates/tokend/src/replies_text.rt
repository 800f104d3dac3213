//! The text of the replies that a server has counted: `requests_text`.

ghost use Rattle.std.specs.Prelude.{◌≡◌, IfOk};
ghost use Rattle.tokend.specs.RepliesText as spec;

use crate::metrics::{Counts, Replies, Statuses};
use itoa::Buffer;
use std::alloc::{AllocError, Global};
use tk_put::joined;

/// Returns the text of the replies.
///
/// # Errors
///
/// `AllocError` if memory runs out.
#[tactic(auto, unfolding(crate::specs::RepliesText::requests_text))]
pub(crate) fn requests_text(alloc: Global, counts: &Counts) -> Result<Vec<u8>, AllocError>
    ensures { IfOk result (λ text. text.items ≡ spec.requests_text counts.now) }
{
    let clients = outer_samples(alloc, b"clients", &counts.clients)?;
    let all = all_samples(alloc, &counts.all)?;
    joined(
        alloc,
        &[
            b"# HELP tokend_requests_total Replies to requests, by the path that each names.\n",
            b"# TYPE tokend_requests_total counter\n",
            &clients,
            &all,
        ],
    )
}

// Returns the samples of the replies to requests that reach all paths.
#[tactic(auto, unfolding(crate::specs::RepliesText::all_samples))]
fn all_samples(alloc: Global, replies: &Replies) -> Result<Vec<u8>, AllocError>
    ensures { IfOk result (λ text. text.items ≡ spec.all_samples replies.now) }
{
    let outer = outer_samples(alloc, b"all", replies)?;
    let admin = admin_samples(alloc, b"all", replies)?;
    let sync = sync_samples(alloc, b"all", replies)?;
    let metrics = endpoint_samples(alloc, b"all", b"metrics", &replies.metrics)?;
    joined(alloc, &[&outer, &admin, &sync, &metrics])
}

// Returns the samples of what clients reach, of requests that reach these paths.
#[tactic(auto, unfolding(crate::specs::RepliesText::outer_samples))]
fn outer_samples(alloc: Global, paths: &[u8], replies: &Replies) -> Result<Vec<u8>, AllocError>
    ensures { IfOk result (λ text. text.items ≡ spec.outer_samples paths.now replies.now) }
{
    let client = client_samples(alloc, paths, replies)?;
    let notice = notice_samples(alloc, paths, replies)?;
    joined(alloc, &[&client, &notice])
}

// Returns the samples of the paths of clients.
#[tactic(auto, unfolding(crate::specs::RepliesText::client_samples))]
fn client_samples(alloc: Global, paths: &[u8], replies: &Replies) -> Result<Vec<u8>, AllocError>
    ensures { IfOk result (λ text. text.items ≡ spec.client_samples paths.now replies.now) }
{
    let authorize = endpoint_samples(alloc, paths, b"authorize", &replies.authorize)?;
    let token = endpoint_samples(alloc, paths, b"token", &replies.token)?;
    let introspect = endpoint_samples(alloc, paths, b"introspect", &replies.introspect)?;
    let revoke = endpoint_samples(alloc, paths, b"revoke", &replies.revoke)?;
    joined(alloc, &[&authorize, &token, &introspect, &revoke])
}

// Returns the samples of the notices that clients reach, and of unknown paths.
#[tactic(auto, unfolding(crate::specs::RepliesText::notice_samples))]
fn notice_samples(alloc: Global, paths: &[u8], replies: &Replies) -> Result<Vec<u8>, AllocError>
    ensures { IfOk result (λ text. text.items ≡ spec.notice_samples paths.now replies.now) }
{
    let metadata = endpoint_samples(alloc, paths, b"metadata", &replies.metadata)?;
    let health = endpoint_samples(alloc, paths, b"health", &replies.health)?;
    let unknown = endpoint_samples(alloc, paths, b"unknown", &replies.unknown)?;
    joined(alloc, &[&metadata, &health, &unknown])
}

// Returns the samples of the paths of operators.
#[tactic(auto, unfolding(crate::specs::RepliesText::admin_samples))]
fn admin_samples(alloc: Global, paths: &[u8], replies: &Replies) -> Result<Vec<u8>, AllocError>
    ensures { IfOk result (λ text. text.items ≡ spec.admin_samples paths.now replies.now) }
{
    let clients = registry_samples(alloc, paths, replies)?;
    let consents = consent_samples(alloc, paths, replies)?;
    let logins = login_samples(alloc, paths, replies)?;
    joined(alloc, &[&clients, &consents, &logins])
}

// Returns the samples of the paths by which operators add, list and retire clients, and change
// their secrets.
#[tactic(auto, unfolding(crate::specs::RepliesText::registry_samples))]
fn registry_samples(alloc: Global, paths: &[u8], replies: &Replies) -> Result<Vec<u8>, AllocError>
    ensures { IfOk result (λ text. text.items ≡ spec.registry_samples paths.now replies.now) }
{
    let client = endpoint_samples(alloc, paths, b"admin/client", &replies.client)?;
    let clients = endpoint_samples(alloc, paths, b"admin/clients", &replies.clients)?;
    let retire = endpoint_samples(alloc, paths, b"admin/retire", &replies.retire)?;
    let secret = endpoint_samples(alloc, paths, b"admin/secret", &replies.secret)?;
    joined(alloc, &[&client, &clients, &retire, &secret])
}

// Returns the samples of the paths by which operators add and end consents, and sign subjects out.
#[tactic(auto, unfolding(crate::specs::RepliesText::consent_samples))]
fn consent_samples(alloc: Global, paths: &[u8], replies: &Replies) -> Result<Vec<u8>, AllocError>
    ensures { IfOk result (λ text. text.items ≡ spec.consent_samples paths.now replies.now) }
{
    let consent = endpoint_samples(alloc, paths, b"admin/consent", &replies.consent)?;
    let withdraw = endpoint_samples(alloc, paths, b"admin/withdraw", &replies.withdraw)?;
    let sign_out = endpoint_samples(alloc, paths, b"admin/signout", &replies.sign_out)?;
    joined(alloc, &[&consent, &withdraw, &sign_out])
}

// Returns the samples of the paths by which operators see and end logins.
#[tactic(auto, unfolding(crate::specs::RepliesText::login_samples))]
fn login_samples(alloc: Global, paths: &[u8], replies: &Replies) -> Result<Vec<u8>, AllocError>
    ensures { IfOk result (λ text. text.items ≡ spec.login_samples paths.now replies.now) }
{
    let subject = endpoint_samples(alloc, paths, b"admin/subject", &replies.subject)?;
    let logout = endpoint_samples(alloc, paths, b"admin/logout", &replies.logout)?;
    joined(alloc, &[&subject, &logout])
}

// Returns the samples of the paths of other regions.
#[tactic(auto, unfolding(crate::specs::RepliesText::sync_samples))]
fn sync_samples(alloc: Global, paths: &[u8], replies: &Replies) -> Result<Vec<u8>, AllocError>
    ensures { IfOk result (λ text. text.items ≡ spec.sync_samples paths.now replies.now) }
{
    let vector = endpoint_samples(alloc, paths, b"sync/vector", &replies.vector)?;
    let pull = endpoint_samples(alloc, paths, b"sync/pull", &replies.pull)?;
    let push = endpoint_samples(alloc, paths, b"sync/push", &replies.push)?;
    joined(alloc, &[&vector, &pull, &push])
}

// Returns the samples of the replies to requests that reach these paths and name this endpoint.
#[tactic(auto, unfolding(crate::specs::RepliesText::endpoint_samples))]
fn endpoint_samples(
    alloc: Global,
    paths: &[u8],
    endpoint: &[u8],
    replies: &Statuses,
) -> Result<Vec<u8>, AllocError>
    ensures { IfOk result (λ text. text.items
        ≡ spec.endpoint_samples paths.now endpoint.now replies.now) }
{
    let front = front_of(alloc, paths, endpoint)?;
    let granted = granted_samples(alloc, &front, replies)?;
    let refused = refused_samples(alloc, &front, replies)?;
    let unread = unread_samples(alloc, &front, replies)?;
    joined(alloc, &[&granted, &refused, &unread])
}

// Returns the samples of replies to requests that were granted. Each begins so.
#[tactic(auto, unfolding(crate::specs::RepliesText::granted_samples))]
fn granted_samples(alloc: Global, front: &[u8], replies: &Statuses) -> Result<Vec<u8>, AllocError>
    ensures { IfOk result (λ text. text.items ≡ spec.granted_samples front.now replies.now) }
{
    let ok = sample(alloc, front, b"200", replies.ok)?;
    let created = sample(alloc, front, b"201", replies.created)?;
    let found = sample(alloc, front, b"302", replies.found)?;
    joined(alloc, &[&ok, &created, &found])
}

// Returns the samples of replies to requests that were decided and refused. Each begins so.
#[tactic(auto, unfolding(crate::specs::RepliesText::refused_samples))]
fn refused_samples(alloc: Global, front: &[u8], replies: &Statuses) -> Result<Vec<u8>, AllocError>
    ensures { IfOk result (λ text. text.items ≡ spec.refused_samples front.now replies.now) }
{
    let bad_request = sample(alloc, front, b"400", replies.bad_request)?;
    let unauthorized = sample(alloc, front, b"401", replies.unauthorized)?;
    let conflict = sample(alloc, front, b"409", replies.conflict)?;
    let unavailable = sample(alloc, front, b"503", replies.unavailable)?;
    joined(
        alloc,
        &[&bad_request, &unauthorized, &conflict, &unavailable],
    )
}

// Returns the samples of replies to requests whose body wasn't read. Each begins so.
#[tactic(auto, unfolding(crate::specs::RepliesText::unread_samples))]
fn unread_samples(alloc: Global, front: &[u8], replies: &Statuses) -> Result<Vec<u8>, AllocError>
    ensures { IfOk result (λ text. text.items ≡ spec.unread_samples front.now replies.now) }
{
    let not_found = sample(alloc, front, b"404", replies.not_found)?;
    let not_allowed = sample(alloc, front, b"405", replies.not_allowed)?;
    let no_length = sample(alloc, front, b"411", replies.no_length)?;
    let too_large = sample(alloc, front, b"413", replies.too_large)?;
    joined(alloc, &[&not_found, &not_allowed, &no_length, &too_large])
}

// Returns the beginning of the samples of an endpoint, up to the status.
fn front_of(alloc: Global, paths: &[u8], endpoint: &[u8]) -> Result<Vec<u8>, AllocError>
    ensures { IfOk result (λ text. text.items ≡ spec.front_of paths.now endpoint.now) }
{
    joined(
        alloc,
        &[
            b"tokend_requests_total{paths=\"",
            paths,
            b"\",endpoint=\"",
            endpoint,
            b"\",status=\"",
        ],
    )
}

// Returns the sample of the replies of this status, which begins so.
fn sample(alloc: Global, front: &[u8], status: &[u8], count: u64) -> Result<Vec<u8>, AllocError>
    ensures { IfOk result (λ text. text.items ≡ spec.sample front.now status.now count) }
{
    let mut number = Buffer::new();
    joined(
        alloc,
        &[
            front,
            status,
            b"\"} ",
            number.format(count).as_bytes(),
            b"\n",
        ],
    )
}
