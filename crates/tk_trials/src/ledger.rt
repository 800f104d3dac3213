//! The standing of a family's tokens, whatever the order in which its facts arrive.
//!
//! These are the tests of tk_ledger and, in `forests`, of tk_family. `plain` is a ledger that walks
//! its facts, by the functions of `walks`. `generated` and `histories` compare it with the ledger,
//! the latter with facts skipped and families pruned; `subjects` has the comparison of what a
//! subject has, `secrets` that of the secrets of clients. In `refused` and `pruned` memory runs
//! out.

mod alike;
mod checked;
mod ends;
mod facts;
mod forests;
mod generated;
mod histories;
mod joined;
mod long;
mod orders;
mod plain;
mod pruned;
mod refreshed;
mod refused;
mod same;
mod secrets;
mod sign_outs;
mod subjects;
mod walks;

use ends::ended_otherwise;
use facts::{Place, READ_WRITE, Says, Token, Told};
use orders::{Case, Row, Said, tells};
use tk_handle::Kind;
use tk_ledger::State;

const DEAD: Said = Said::Known(State::Dead);

const LIVE: Said = Said::Known(State::Live);

const USED: Said = Said::Known(State::Used);

const ENDED: Said = Said::Known(State::Ended);

const WITHDRAWN: Said = Said::Known(State::Withdrawn);

const PAST: Said = Said::Known(State::Past);

const OVER: Said = Said::Known(State::Over);

const CLIENT: Place = (1, 1);

const CONSENT: Place = (1, 2);

const ANOTHER_CLIENT: Place = (1, 4);

const CODE: Token = ((1, 3), Kind::Code, 24);

// A client, a consent and a code.
const BEFORE_GRANTS: &[Told] = &[ADDED, GIVEN, ISSUED];

const ADDED: Told = (CLIENT, Says::ClientAdded);

const GIVEN: Told = (CONSENT, Says::ConsentGiven(CLIENT, READ_WRITE));

const ISSUED: Told = ((1, 3), Says::CodeIssued(24, CLIENT, CONSENT));

// Cut off from each other, both regions redeem the code.
const REDEEMED: Told = ((1, 4), Says::CodeRedeemed((1, 3), (42, 45)));

const REDEEMED_AGAIN: Told = ((2, 1), Says::CodeRedeemed((1, 3), (48, 51)));

const TWO_REDEMPTIONS: &[Told] = &[ADDED, GIVEN, ISSUED, REDEEMED, REDEEMED_AGAIN];

const CUT_OFF: &[Case] = &[("two redemptions", TWO_REDEMPTIONS, 120, REDEEMED_TWICE)];

const REDEEMED_TWICE: &[Row] = &[
    ("the code", CODE, DEAD),
    ("access of 1:4", ((1, 4), Kind::Access, 42), DEAD),
    ("refresh of 1:4", ((1, 4), Kind::Refresh, 45), DEAD),
    ("access of 2:1", ((2, 1), Kind::Access, 48), DEAD),
    ("refresh of 2:1", ((2, 1), Kind::Refresh, 51), DEAD),
];

#[test]
fn a_code_redeemed_in_two_regions_kills_its_family(rt: HostRuntime) {
    tells(&rt, rt.alloc(), CUT_OFF);
}

const REDEEMED_ONCE: &[Row] = &[
    ("the code", CODE, USED),
    ("access of 1:4", ((1, 4), Kind::Access, 42), LIVE),
    ("refresh of 1:4", ((1, 4), Kind::Refresh, 45), LIVE),
    ("access of 2:1", ((2, 1), Kind::Access, 48), Said::Unseen),
];

const ONE_REDEMPTION: &[Told] = &[ADDED, GIVEN, ISSUED, REDEEMED];

const NOT_CUT_OFF: &[Case] = &[("one redemption", ONE_REDEMPTION, 24, REDEEMED_ONCE)];

#[test]
fn a_code_redeemed_once_is_used(rt: HostRuntime) {
    tells(&rt, rt.alloc(), NOT_CUT_OFF);
}

// Two refreshes at once: both regions rotate the refresh token.
const MINTED: Told = ((1, 4), Says::CodeRedeemed((1, 3), (36, 39)));

const ROTATED: Told = ((1, 5), Says::RefreshRotated((1, 4), 1, (54, 57)));

const ROTATED_AGAIN: Told = ((2, 1), Says::RefreshRotated((1, 4), 1, (60, 63)));

const TWO_ROTATIONS: &[Told] = &[ADDED, GIVEN, ISSUED, MINTED, ROTATED, ROTATED_AGAIN];

const AT_ONCE: &[Case] = &[("two rotations", TWO_ROTATIONS, 720, REFRESHED_TWICE)];

const REFRESHED_TWICE: &[Row] = &[
    ("the code", CODE, DEAD),
    ("access of 1:4", ((1, 4), Kind::Access, 36), DEAD),
    ("refresh of 1:4", ((1, 4), Kind::Refresh, 39), DEAD),
    ("access of 1:5", ((1, 5), Kind::Access, 54), DEAD),
    ("refresh of 1:5", ((1, 5), Kind::Refresh, 57), DEAD),
    ("access of 2:1", ((2, 1), Kind::Access, 60), DEAD),
    ("refresh of 2:1", ((2, 1), Kind::Refresh, 63), DEAD),
];

#[test]
fn a_token_refreshed_in_two_regions_kills_its_family(rt: HostRuntime) {
    tells(&rt, rt.alloc(), AT_ONCE);
}

const REFRESHED_ONCE: &[Row] = &[
    ("access of 1:4", ((1, 4), Kind::Access, 36), LIVE),
    ("refresh of 1:4", ((1, 4), Kind::Refresh, 39), USED),
    ("access of 1:5", ((1, 5), Kind::Access, 54), LIVE),
    ("refresh of 1:5", ((1, 5), Kind::Refresh, 57), LIVE),
];

const ONE_ROTATION: &[Told] = &[ADDED, GIVEN, ISSUED, MINTED, ROTATED];

const ALONE: &[Case] = &[("one rotation", ONE_ROTATION, 120, REFRESHED_ONCE)];

#[test]
fn a_token_refreshed_once_is_used(rt: HostRuntime) {
    tells(&rt, rt.alloc(), ALONE);
}

// The standing of an access token and a refresh token to which no code leads.
const BROKEN_ACCESS: Said = Said::Broken(4_610);

const BROKEN_REFRESH: Said = Said::Broken(87_410);

const WAITING: &[Row] = &[
    ("access of 1:4", ((1, 4), Kind::Access, 36), Said::Unseen),
    ("access of 1:5", ((1, 5), Kind::Access, 54), BROKEN_ACCESS),
    (
        "refresh of 2:1",
        ((2, 1), Kind::Refresh, 63),
        BROKEN_REFRESH,
    ),
];

const NO_PARENT: &[Case] = &[("rotations alone", &[ROTATED, ROTATED_AGAIN], 2, WAITING)];

// A rotation arrives before the fact that mints its token. What the rotation mints is held, but
// under no code yet.
#[test]
fn rotations_wait_for_their_parent(rt: HostRuntime) {
    tells(&rt, rt.alloc(), NO_PARENT);
}

const ACCESS: Token = ((1, 5), Kind::Access, 48);

const REFRESH: Token = ((1, 5), Kind::Refresh, 51);

// The refresh token by a guessed digest.
const GUESS: Token = ((1, 5), Kind::Refresh, 52);

const OTHER_ADDED: Told = (ANOTHER_CLIENT, Says::ClientAdded);

const GRANTED: Told = ((1, 5), Says::CodeRedeemed((1, 3), (48, 51)));

// Two clients, the first one's tokens, and a revocation of one of these that is made where no token
// is known yet. The revocations: of the access token by another client, of the access token by its
// own client, of the refresh token, and by a guessed digest.
#[rattlefmt::skip]
const ACCESS_BY_ANOTHER: &[Told] =
    &[ADDED, GIVEN, ISSUED, OTHER_ADDED, GRANTED, ((2, 1), Says::TokenRevoked(ACCESS, ANOTHER_CLIENT))];

#[rattlefmt::skip]
const ACCESS_BY_CLIENT: &[Told] =
    &[ADDED, GIVEN, ISSUED, OTHER_ADDED, GRANTED, ((2, 1), Says::TokenRevoked(ACCESS, CLIENT))];

const TOKEN_REVOKED: Told = ((2, 1), Says::TokenRevoked(REFRESH, CLIENT));

const REFRESH_BY_CLIENT: &[Told] = &[ADDED, GIVEN, ISSUED, OTHER_ADDED, GRANTED, TOKEN_REVOKED];

#[rattlefmt::skip]
const GUESSED: &[Told] =
    &[ADDED, GIVEN, ISSUED, OTHER_ADDED, GRANTED, ((2, 1), Says::TokenRevoked(GUESS, CLIENT))];

const NOT_REVOKED: &[Row] = &[
    ("the code", CODE, USED),
    ("the access token", ACCESS, LIVE),
    ("the refresh token", REFRESH, LIVE),
];

const ACCESS_REVOKED: &[Row] = &[
    ("the code", CODE, USED),
    ("the access token", ACCESS, ENDED),
    ("the refresh token", REFRESH, LIVE),
];

// Advance revocation: that of another client is held, and does nothing.
const REVOKED_BY: &[Case] = &[
    ("by another client", ACCESS_BY_ANOTHER, 720, NOT_REVOKED),
    ("by its own client", ACCESS_BY_CLIENT, 720, ACCESS_REVOKED),
];

#[test]
fn a_client_revokes_its_own_tokens_in_advance(rt: HostRuntime) {
    tells(&rt, rt.alloc(), REVOKED_BY);
}

const REFRESH_REVOKED: &[Row] = &[
    ("the code", CODE, DEAD),
    ("the access token", ACCESS, DEAD),
    ("the refresh token", REFRESH, DEAD),
];

const GUESS_REVOKED: &[Row] = &[
    ("the access token", ACCESS, LIVE),
    ("the refresh token", REFRESH, LIVE),
    ("the guess", GUESS, Said::Wrong),
];

const REFRESH_REVOCATIONS: &[Case] = &[
    ("revoked", REFRESH_BY_CLIENT, 720, REFRESH_REVOKED),
    // A token's own client revokes it by a guessed digest: nothing is revoked.
    ("guessed", GUESSED, 720, GUESS_REVOKED),
];

#[test]
fn a_revoked_refresh_token_kills_its_family(rt: HostRuntime) {
    tells(&rt, rt.alloc(), REFRESH_REVOCATIONS);
}

const SEEN: Told = ((2, 1), Says::ReuseSeen((1, 3), Kind::Code));

const REUSED: &[Row] = &[
    ("the code", CODE, DEAD),
    ("the access token", ((1, 4), Kind::Access, 42), DEAD),
];

const ONE_REUSE: &[Told] = &[ADDED, GIVEN, ISSUED, REDEEMED, SEEN];

const REUSES: &[Case] = &[("a reuse of the code", ONE_REUSE, 120, REUSED)];

#[test]
fn a_reuse_that_was_seen_kills_its_family(rt: HostRuntime) {
    tells(&rt, rt.alloc(), REUSES);
}

// A family with one rotation, and one more fact that changes nothing in the family.
#[rattlefmt::skip]
const FAMILY: &[Told] =
    &[ADDED, GIVEN, ISSUED, REDEEMED, ROTATED, ((2, 1), Says::ClientAdded)];

#[rattlefmt::skip]
const CLIENT_GONE: &[Told] =
    &[ADDED, GIVEN, ISSUED, REDEEMED, ROTATED, ((2, 1), Says::ClientRetired(CLIENT))];

#[rattlefmt::skip]
const CONSENT_GONE: &[Told] =
    &[ADDED, GIVEN, ISSUED, REDEEMED, ROTATED, ((2, 1), Says::ConsentWithdrawn(CONSENT))];

// The retirement of an unknown client doesn't retire this one.
#[rattlefmt::skip]
const OTHER_GONE: &[Told] =
    &[ADDED, GIVEN, ISSUED, REDEEMED, ROTATED, ((2, 1), Says::ClientRetired((7, 7)))];

const SERVES_NO_MORE: &[Row] = &[("the access token", LAST_ACCESS, WITHDRAWN)];

const SERVES: &[Row] = &[("the access token", LAST_ACCESS, LIVE)];

const GONE: &[Case] = &[
    ("the client", CLIENT_GONE, 1, SERVES_NO_MORE),
    ("the consent", CONSENT_GONE, 1, SERVES_NO_MORE),
    ("a client that nobody knows", OTHER_GONE, 1, SERVES),
];

#[test]
fn what_was_retired_or_withdrawn_serves_no_more(rt: HostRuntime) {
    tells(&rt, rt.alloc(), GONE);
}

const LAST_ACCESS: Token = ((1, 5), Kind::Access, 54);

const LAST_REFRESH: Token = ((1, 5), Kind::Refresh, 57);

const USED_REFRESH: Token = ((1, 4), Kind::Refresh, 45);

#[test]
fn ends_begin_at_their_moment(rt: HostRuntime) {
    let wrong = ended_otherwise(rt.alloc());
    assert!(rt; wrong.is_none(), "{wrong:?}");
}

const HANDLES: &[Row] = &[
    ("as minted", ((1, 4), Kind::Access, 42), LIVE),
    ("of other words", ((1, 4), Kind::Access, 43), Said::Wrong),
    // The random words of another token of the fact, or of a kind that the fact doesn't mint.
    ("a refresh token", ((1, 4), Kind::Refresh, 42), Said::Wrong),
    ("a code", ((1, 4), Kind::Code, 42), Said::Wrong),
    ("access by a code", ((1, 3), Kind::Access, 24), Said::Wrong),
    ("a code by a client", ((1, 1), Kind::Code, 24), Said::Wrong),
    ("of no fact", ((9, 9), Kind::Code, 24), Said::Unseen),
];

#[test]
fn a_handle_is_wrong_by_its_kind_or_its_digest(rt: HostRuntime) {
    tells(&rt, rt.alloc(), &[("a family", FAMILY, 1, HANDLES)]);
}

// Rotations in a ring, one of a generation that doesn't fit, a redemption of a client, and uses
// that differ in generation.
const HOSTILE: &[Told] = &[
    ADDED,
    GIVEN,
    ISSUED,
    ((8, 1), Says::RefreshRotated((8, 2), 2, (1, 2))),
    ((8, 2), Says::RefreshRotated((8, 1), 1, (3, 4))),
    ((8, 3), Says::CodeRedeemed(CLIENT, (5, 6))),
];

const BROKEN: &[Row] = &[
    ("the code", CODE, LIVE),
    ("access of 8:1", ((8, 1), Kind::Access, 1), BROKEN_ACCESS),
    ("refresh of 8:2", ((8, 2), Kind::Refresh, 4), BROKEN_REFRESH),
    ("access of 8:3", ((8, 3), Kind::Access, 5), BROKEN_ACCESS),
];

#[test]
fn hostile_facts_are_broken(rt: HostRuntime) {
    tells(&rt, rt.alloc(), &[("hostile", HOSTILE, 720, BROKEN)]);
}

// The rotation doesn't fit, because its generation isn't 1. The refresh token is used all the same.
const STRAY: Told = ((8, 1), Says::RefreshRotated((1, 4), 7, (1, 2)));

const USED_ONCE: &[Row] = &[
    ("the refresh token", USED_REFRESH, USED),
    ("the stray", ((8, 1), Kind::Access, 1), BROKEN_ACCESS),
];

const USED_TWICE: &[Row] = &[
    ("the refresh token", USED_REFRESH, DEAD),
    ("the stray", ((8, 1), Kind::Access, 1), BROKEN_ACCESS),
];

const STRAY_ALONE: &[Told] = &[ADDED, GIVEN, ISSUED, REDEEMED, STRAY];

const STRAY_BESIDE: &[Told] = &[ADDED, GIVEN, ISSUED, REDEEMED, ROTATED, STRAY];

// The generation is one more than fits the rotation that is named.
const SKIPPING: Told = ((8, 1), Says::RefreshRotated((1, 5), 3, (1, 2)));

const SKIPPED: &[Row] = &[
    ("the refresh token", LAST_REFRESH, USED),
    ("the skipping", ((8, 1), Kind::Access, 1), BROKEN_ACCESS),
];

const ONE_SKIPPING: &[Told] = &[ADDED, GIVEN, ISSUED, REDEEMED, ROTATED, SKIPPING];

const STRAYS: &[Case] = &[
    ("alone", STRAY_ALONE, 120, USED_ONCE),
    // A rotation that fits is the second use.
    ("beside one that fits", STRAY_BESIDE, 720, USED_TWICE),
    ("a generation left out", ONE_SKIPPING, 720, SKIPPED),
];

#[test]
fn uses_count_whatever_their_generation(rt: HostRuntime) {
    tells(&rt, rt.alloc(), STRAYS);
}
