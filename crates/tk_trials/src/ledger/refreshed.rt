//! Access tokens that were minted for a refresh token which its client keeps: what ends them, in
//! every order of the facts.

use super::facts::{ANN, Says, Told};
use super::orders::{Case, Row, tells};
use super::{
    ADDED, BROKEN_ACCESS, CODE, DEAD, ENDED, GIVEN, ISSUED, LIVE, REDEEMED, USED, WITHDRAWN,
};
use tk_handle::Kind;

pub(super) const REFRESHED: Told = ((2, 1), Says::AccessRefreshed((1, 4), 42));

const BY_ANOTHER: Told = ((3, 1), Says::AccessRefreshed((2, 1), 42));

const ALL_LIVE: &[Row] = &[
    ("the code", CODE, USED),
    ("access of 1:4", ((1, 4), Kind::Access, 42), LIVE),
    ("refresh of 1:4", ((1, 4), Kind::Refresh, 45), LIVE),
    ("access of 2:1", ((2, 1), Kind::Access, 42), LIVE),
];

const ALL_DEAD: &[Row] = &[
    ("the code", CODE, DEAD),
    ("access of 1:4", ((1, 4), Kind::Access, 42), DEAD),
    ("refresh of 1:4", ((1, 4), Kind::Refresh, 45), DEAD),
    ("access of 2:1", ((2, 1), Kind::Access, 42), DEAD),
];

const ONE_ENDED: &[Row] = &[
    ("access of 1:4", ((1, 4), Kind::Access, 42), LIVE),
    ("refresh of 1:4", ((1, 4), Kind::Refresh, 45), LIVE),
    ("access of 2:1", ((2, 1), Kind::Access, 42), ENDED),
];

const ONE_BROKEN: &[Row] = &[
    ("access of 1:4", ((1, 4), Kind::Access, 42), WITHDRAWN),
    ("access of 2:1", ((2, 1), Kind::Access, 42), WITHDRAWN),
    ("access of 3:1", ((3, 1), Kind::Access, 42), BROKEN_ACCESS),
];

// A refresh token with an access token that was minted for it, and what happens to either. Without
// a client and a consent all that isn't dead or broken is withdrawn.
#[rattlefmt::skip]
const CASES: &[Case] = &[
    ("nothing", &[ADDED, GIVEN, ISSUED, REDEEMED, REFRESHED], 120, ALL_LIVE),
    ("the new access token is revoked", &[ADDED, GIVEN, ISSUED, REDEEMED, REFRESHED, ((2, 2), Says::TokenRevoked(((2, 1), Kind::Access, 42), (1, 1)))], 720, ONE_ENDED),
    ("the refresh token is revoked", &[ISSUED, REDEEMED, REFRESHED, ((2, 2), Says::TokenRevoked(((1, 4), Kind::Refresh, 45), (1, 1)))], 24, ALL_DEAD),
    ("the code is used again", &[ISSUED, REDEEMED, REFRESHED, ((2, 2), Says::ReuseSeen((1, 3), Kind::Code))], 24, ALL_DEAD),
    ("the subject signs out", &[ISSUED, REDEEMED, REFRESHED, ((2, 2), Says::SubjectOut(ANN, 1_000))], 24, ALL_DEAD),
    ("an access token is no grant", &[ISSUED, REDEEMED, REFRESHED, BY_ANOTHER], 24, ONE_BROKEN),
];

#[test]
fn an_access_token_ends_with_its_refresh_token(rt: HostRuntime) {
    tells(&rt, rt.alloc(), CASES);
}
