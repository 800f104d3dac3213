//! Equality of statuses, and of views of clients, consents and logins.

use tk_fact::Subject;
use tk_ledger::{ClientView, ConsentView, LoginView, Standing, Status};

fn same_subjects(left: &Subject, right: &Subject) -> bool {
    left.as_bytes() == right.as_bytes()
}

fn same_standings(left: &Standing<'_>, right: &Standing<'_>) -> bool {
    left.client == right.client
        && same_subjects(left.subject, right.subject)
        && left.code == right.code
        && left.scope.same(right.scope)
        && same_ends(left, right)
        && left.state == right.state
}

fn same_ends(left: &Standing<'_>, right: &Standing<'_>) -> bool {
    left.start == right.start
        && left.expiry == right.expiry
        && left.family_end == right.family_end
        && left.generation == right.generation
}

pub(super) fn same_statuses(left: &Status<'_>, right: &Status<'_>) -> bool {
    match left {
        Status::Unseen => matches!(right, Status::Unseen),
        Status::Wrong => matches!(right, Status::Wrong),
        Status::Broken(left) => match right {
            Status::Broken(right) => left == right,
            _ => false,
        },
        Status::Known(left) => match right {
            Status::Known(right) => same_standings(left, right),
            _ => false,
        },
    }
}

pub(super) fn same_views(left: &ClientView<'_>, right: &ClientView<'_>) -> bool {
    left.client_kind == right.client_kind
        && left.scope.same(right.scope)
        && left.redirects.same(right.redirects)
        && left.lives == right.lives
        && left.live == right.live
}

pub(super) fn same_clients(left: &Option<ClientView<'_>>, right: &Option<ClientView<'_>>) -> bool {
    match left {
        Some(left) => match right {
            Some(right) => same_views(left, right),
            None => false,
        },
        None => right.is_none(),
    }
}

pub(super) fn same_grants(left: &ConsentView<'_>, right: &ConsentView<'_>) -> bool {
    left.client == right.client
        && same_subjects(left.subject, right.subject)
        && left.scope.same(right.scope)
        && left.live == right.live
}

pub(super) fn same_consents(
    left: &Option<ConsentView<'_>>,
    right: &Option<ConsentView<'_>>,
) -> bool {
    match left {
        Some(left) => match right {
            Some(right) => same_grants(left, right),
            None => false,
        },
        None => right.is_none(),
    }
}

pub(super) fn same_logins(left: &LoginView<'_>, right: &LoginView<'_>) -> bool {
    left.client == right.client
        && left.scope.same(right.scope)
        && left.start == right.start
        && left.family_end == right.family_end
        && left.state == right.state
}
