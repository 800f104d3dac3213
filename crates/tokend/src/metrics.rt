//! What a server counts: `Counts`, by how its requests end, and `Tally`.
//!
//! A count that has reached the greatest `u64` stays there.

/// How many replies of each status there were (RFC 9110, 15).
#[derive(Clone, Copy)]
pub(crate) struct Statuses {
    /// 200 OK.
    pub ok: u64,
    /// 201 Created.
    pub created: u64,
    /// 302 Found.
    pub found: u64,
    /// 400 Bad Request.
    pub bad_request: u64,
    /// 401 Unauthorized.
    pub unauthorized: u64,
    /// 404 Not Found.
    pub not_found: u64,
    /// 405 Method Not Allowed.
    pub not_allowed: u64,
    /// 409 Conflict.
    pub conflict: u64,
    /// 411 Length Required.
    pub no_length: u64,
    /// 413 Content Too Large.
    pub too_large: u64,
    /// 503 Service Unavailable.
    pub unavailable: u64,
}

/// The replies to requests, by the path that each request names.
#[derive(Clone, Copy)]
pub(crate) struct Replies {
    /// `/authorize`.
    pub authorize: Statuses,
    /// `/token`.
    pub token: Statuses,
    /// `/introspect`.
    pub introspect: Statuses,
    /// `/revoke`.
    pub revoke: Statuses,
    /// `/admin/client`.
    pub client: Statuses,
    /// `/admin/clients`.
    pub clients: Statuses,
    /// `/admin/retire`.
    pub retire: Statuses,
    /// `/admin/secret`.
    pub secret: Statuses,
    /// `/admin/consent`.
    pub consent: Statuses,
    /// `/admin/withdraw`.
    pub withdraw: Statuses,
    /// `/admin/signout`.
    pub sign_out: Statuses,
    /// `/admin/subject`.
    pub subject: Statuses,
    /// `/admin/logout`.
    pub logout: Statuses,
    /// `/sync/vector`.
    pub vector: Statuses,
    /// `/sync/pull`.
    pub pull: Statuses,
    /// `/sync/push`.
    pub push: Statuses,
    /// `/.well-known/oauth-authorization-server`.
    pub metadata: Statuses,
    /// `/health`.
    pub health: Statuses,
    /// `/metrics`.
    pub metrics: Statuses,
    /// A path that isn't reached, or a request without a head.
    pub unknown: Statuses,
}

/// How many requests ended in each way.
#[derive(Clone, Copy)]
pub(crate) struct Counts {
    /// Replies over a socket that reaches the paths of clients alone.
    pub clients: Replies,
    /// Replies over a socket that reaches all paths.
    pub all: Replies,
    /// When the last push was taken in and replied to, in seconds since 1970.
    pub pushed: Option<u64>,
    /// Connections that ended before a request was whole, or weren't accepted.
    pub unread: u64,
    /// Connections that ended because memory ran out.
    pub short: u64,
    /// Replies that memory had no room for.
    pub unwritten: u64,
}

/// What a server has counted since its start, and when it last made a text of that.
#[derive(Clone, Copy)]
pub(crate) struct Tally {
    /// How its requests ended.
    pub counts: Counts,
    /// How many replies weren't taken by their clients.
    pub untaken: u64,
    /// How many facts it pruned between requests.
    pub pruned: u64,
    /// How many connections were to be served at its start.
    pub limit: u64,
    /// When the text of the metrics was last made, in milliseconds of the monotonic clock.
    pub shown: Option<u64>,
}

ghost use Rattle.std.specs.Prelude.{◌≡◌, Ok};
ghost use Rattle.tk_edge.specs.declared.edge.Served.TheVariants.{Done};
ghost use Rattle.tokend.specs.Counting as spec;

use tk_edge::{Fault as EdgeFault, Notice, Path, PathSet, Served};
use tk_handle::Moment;
use tk_message::StatusCode;

/// No reply.
const NO_STATUSES: Statuses = Statuses {
    ok: 0,
    created: 0,
    found: 0,
    bad_request: 0,
    unauthorized: 0,
    not_found: 0,
    not_allowed: 0,
    conflict: 0,
    no_length: 0,
    too_large: 0,
    unavailable: 0,
};

/// No reply to a request of any path.
const NO_REPLIES: Replies = Replies {
    authorize: NO_STATUSES,
    token: NO_STATUSES,
    introspect: NO_STATUSES,
    revoke: NO_STATUSES,
    client: NO_STATUSES,
    clients: NO_STATUSES,
    retire: NO_STATUSES,
    secret: NO_STATUSES,
    consent: NO_STATUSES,
    withdraw: NO_STATUSES,
    sign_out: NO_STATUSES,
    subject: NO_STATUSES,
    logout: NO_STATUSES,
    vector: NO_STATUSES,
    pull: NO_STATUSES,
    push: NO_STATUSES,
    metadata: NO_STATUSES,
    health: NO_STATUSES,
    metrics: NO_STATUSES,
    unknown: NO_STATUSES,
};

impl Statuses {
    /// Counts one more reply of this status.
    pub(crate) fn count(&mut self, status: StatusCode)
        ensures { self.new ≡ spec.with_status status self.old }
    {
        match status {
            StatusCode::Ok => self.ok = self.ok.saturating_add(1),
            StatusCode::Created => self.created = self.created.saturating_add(1),
            StatusCode::Found => self.found = self.found.saturating_add(1),
            StatusCode::BadRequest => self.bad_request = self.bad_request.saturating_add(1),
            StatusCode::Unauthorized => self.unauthorized = self.unauthorized.saturating_add(1),
            StatusCode::NotFound => self.not_found = self.not_found.saturating_add(1),
            StatusCode::MethodNotAllowed => self.not_allowed = self.not_allowed.saturating_add(1),
            StatusCode::Conflict => self.conflict = self.conflict.saturating_add(1),
            StatusCode::LengthRequired => self.no_length = self.no_length.saturating_add(1),
            StatusCode::ContentTooLarge => self.too_large = self.too_large.saturating_add(1),
            StatusCode::ServiceUnavailable => self.unavailable = self.unavailable.saturating_add(1),
        }
    }
}

impl Replies {
    /// Counts one more reply of this status, to a request that names this path.
    pub(crate) fn count(&mut self, path: Option<Path>, status: StatusCode)
        ensures { self.new ≡ spec.with_reply path status self.old }
    {
        match path {
            Some(Path::Authorize) => self.authorize.count(status),
            Some(Path::Token) => self.token.count(status),
            Some(Path::Introspect) => self.introspect.count(status),
            Some(Path::Revoke) => self.revoke.count(status),
            Some(Path::Client) => self.client.count(status),
            Some(Path::Clients) => self.clients.count(status),
            Some(Path::Retire) => self.retire.count(status),
            Some(Path::Secret) => self.secret.count(status),
            Some(Path::Consent) => self.consent.count(status),
            Some(Path::Withdraw) => self.withdraw.count(status),
            Some(Path::SignOut) => self.sign_out.count(status),
            Some(Path::Subject) => self.subject.count(status),
            Some(Path::Logout) => self.logout.count(status),
            Some(Path::Vector) => self.vector.count(status),
            Some(Path::Pull) => self.pull.count(status),
            Some(Path::Push) => self.push.count(status),
            Some(Path::Notice(Notice::Discovery)) => self.metadata.count(status),
            Some(Path::Notice(Notice::Health)) => self.health.count(status),
            Some(Path::Notice(Notice::Metrics)) => self.metrics.count(status),
            None => self.unknown.count(status),
        }
    }
}

impl Counts {
    /// Counts one more request, by how it ended, which paths its socket reaches, which one it
    /// names, and when.
    pub(crate) fn count(
        &mut self,
        end: Result<Served, EdgeFault>,
        paths: PathSet,
        path: Option<Path>,
        now: Moment,
    )
        ensures { self.new ≡ spec.with_end end paths path now self.old }
    {
        match end {
            Ok(Served::Nothing) => {}
            Ok(Served::Done(status)) => self.count_reply(status, paths, path, now),
            Err(EdgeFault::Read) => self.unread = self.unread.saturating_add(1),
            Err(EdgeFault::Memory) => self.short = self.short.saturating_add(1),
            Err(EdgeFault::Write) => self.unwritten = self.unwritten.saturating_add(1),
            Err(EdgeFault::Log) => {}
        }
    }

    // Counts one more reply.
    fn count_reply(&mut self, status: StatusCode, paths: PathSet, path: Option<Path>, now: Moment)
        ensures { self.new ≡ spec.with_end (Ok (Done status)) paths path now self.old }
    {
        self.pushed = last_push(status, path, now, self.pushed);
        match paths {
            PathSet::Clients => self.clients.count(path, status),
            PathSet::All | PathSet::Admin => self.all.count(path, status),
        }
    }
}

// Returns when the last push was taken in, behind a reply: a push gets 200 if it is taken in.
fn last_push(status: StatusCode, path: Option<Path>, now: Moment, last: Option<u64>) -> Option<u64>
    ensures { result ≡ spec.last_push status path now last }
{
    match (status, path) {
        (StatusCode::Ok, Some(Path::Push)) => Some(now.seconds()),
        _ => last,
    }
}

impl Tally {
    /// Returns the tally of a server that starts, with this many connections to be served.
    pub(crate) fn new(limit: u64) -> Tally
        ensures { result ≡ spec.first_tally limit }
    {
        Tally {
            counts: Counts {
                clients: NO_REPLIES,
                all: NO_REPLIES,
                pushed: None,
                unread: 0,
                short: 0,
                unwritten: 0,
            },
            untaken: 0,
            pruned: 0,
            limit,
            shown: None,
        }
    }
}
