//! The outcome of introspection, by its cases in their order (RFC 7662, 2.1 and 2.2; who may see
//! which token is own).

use tk_ledger::Standing;

// What the sender of an introspection request may know of a token.
#[derive(Drop)]
pub(crate) enum Introspected<'a> {
    Refused(Refusal),
    // The token is not active, or the sender may not see it.
    Inactive,
    // An active access token.
    Access(Standing<'a>),
    // An active refresh token.
    Refresh(Standing<'a>),
}

ghost use Rattle.std.specs.Prelude.{◌≡◌};
ghost use Rattle.std.specs.Option.{option_copied};
ghost use Rattle.tk_query.specs.Introspected as spec;

use crate::refusal::Refusal;
use tk_fact::ClientKind;
use tk_family::Steps;
use tk_handle::{Dot, Handle, Kind, Moment};
use tk_ledger::{Ledger, Status};
use tk_message::{Caller, Params, RefreshSeen};

// Judges an introspection request by its sender: the first case that holds.
pub(crate) fn introspect<'a>(
    ledger: &'a Ledger,
    seen: RefreshSeen,
    now: Moment,
    params: &Params,
    caller: Caller,
) -> Introspected<'a>
    ensures { result ≡ spec.introspected_by_caller ledger.now seen now params.now caller }
{
    match caller {
        Caller::DuplicateParameter => Introspected::Refused(Refusal::DuplicateParameter),
        Caller::MixedCredentials => Introspected::Refused(Refusal::MixedCredentials),
        Caller::InvalidClient => Introspected::Refused(Refusal::InvalidClient),
        Caller::Client(asker) => match ledger.client(asker) {
            Some(client) => introspect_as(ledger, seen, now, params, asker, client.client_kind),
            None => Introspected::Refused(Refusal::InvalidClient),
        },
    }
}

// Judges a request of a client of the given kind.
fn introspect_as<'a>(
    ledger: &'a Ledger,
    seen: RefreshSeen,
    now: Moment,
    params: &Params,
    asker: Dot,
    client_kind: &ClientKind,
) -> Introspected<'a>
    ensures { result ≡ spec.introspected_as ledger.now seen now params.now asker client_kind.now }
{
    match client_kind {
        ClientKind::Public => Introspected::Refused(Refusal::PublicClient),
        ClientKind::Confidential(_) => introspect_token(
            ledger,
            seen,
            now,
            client_kind,
            asker,
            params.value("token"),
        ),
        ClientKind::Resource(_) => introspect_token(
            ledger,
            seen,
            now,
            client_kind,
            asker,
            params.value("token"),
        ),
        ClientKind::Keeping(_) => introspect_token(
            ledger,
            seen,
            now,
            client_kind,
            asker,
            params.value("token"),
        ),
    }
}

// Judges a request by the token's text.
fn introspect_token<'a>(
    ledger: &'a Ledger,
    seen: RefreshSeen,
    now: Moment,
    client_kind: &ClientKind,
    asker: Dot,
    text: Option<&str>,
) -> Introspected<'a>
    ensures { result ≡ spec.introspected_by_text ledger.now seen now client_kind.now asker
        (option_copied text.entry) }
{
    let Some(text) = text else {
        return Introspected::Refused(Refusal::MissingToken);
    };
    match Handle::read(text.as_bytes()) {
        Some(handle) => introspect_handle(ledger, seen, now, client_kind, asker, &handle),
        None => Introspected::Inactive,
    }
}

// Judges a request by the token's handle.
fn introspect_handle<'a>(
    ledger: &'a Ledger,
    seen: RefreshSeen,
    now: Moment,
    client_kind: &ClientKind,
    asker: Dot,
    handle: &Handle,
) -> Introspected<'a>
    ensures { result ≡ spec.introspected_by_kind ledger.now seen now client_kind.now asker
        handle.now handle.now.id.kind }
{
    match handle.id.kind {
        Kind::Code => Introspected::Inactive,
        Kind::Access => {
            let status = ledger.status(now, handle, &mut Steps::new());
            by_status(seen, client_kind, asker, Kind::Access, status)
        }
        Kind::Refresh => {
            let status = ledger.status(now, handle, &mut Steps::new());
            by_status(seen, client_kind, asker, Kind::Refresh, status)
        }
    }
}

// Judges a request by the token's status.
fn by_status<'a>(
    seen: RefreshSeen,
    client_kind: &ClientKind,
    asker: Dot,
    kind: Kind,
    status: Status<'a>,
) -> Introspected<'a>
    ensures { result ≡ spec.introspected_by_status seen client_kind.now asker kind status.entry }
{
    match status {
        Status::Unseen => Introspected::Inactive,
        Status::Wrong => Introspected::Inactive,
        Status::Broken(_) => Introspected::Inactive,
        Status::Known(standing) => by_standing(seen, client_kind, asker, kind, standing),
    }
}

// Judges a request by the token's standing.
fn by_standing<'a>(
    seen: RefreshSeen,
    client_kind: &ClientKind,
    asker: Dot,
    kind: Kind,
    standing: Standing<'a>,
) -> Introspected<'a>
    ensures { result
        ≡ spec.introspected_by_standing seen client_kind.now asker kind standing.entry }
{
    if !sees(seen, client_kind, kind, asker, standing.client) || !standing.state.is_live() {
        return Introspected::Inactive;
    }
    match kind {
        Kind::Code => Introspected::Inactive,
        Kind::Access => Introspected::Access(standing),
        Kind::Refresh => Introspected::Refresh(standing),
    }
}

// Returns whether a client of the given kind may see tokens of a kind of another client.
fn sees(seen: RefreshSeen, client_kind: &ClientKind, kind: Kind, asker: Dot, client: Dot) -> bool
    ensures { result ≡ spec.sees seen client_kind.now kind asker client }
{
    match client_kind {
        ClientKind::Public => false,
        ClientKind::Confidential(_) => client == asker,
        ClientKind::Resource(_) => servers_see(seen, kind),
        ClientKind::Keeping(_) => client == asker,
    }
}

// Returns whether resource servers see tokens of the kind.
fn servers_see(seen: RefreshSeen, kind: Kind) -> bool
    ensures { result ≡ spec.servers_see seen kind }
{
    match kind {
        Kind::Code | Kind::Access => true,
        Kind::Refresh => shows_refresh(seen),
    }
}

// Returns whether resource servers see refresh tokens.
fn shows_refresh(seen: RefreshSeen) -> bool
    ensures { result ≡ spec.shows_refresh seen }
{
    match seen {
        RefreshSeen::ByAll => true,
        RefreshSeen::ByClient => false,
    }
}
