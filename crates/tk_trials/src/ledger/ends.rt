//! The moments at which the standing of a family's last tokens changes.

use super::facts::Token;
use super::orders::{Both, Said, in_order, is_said};
use super::{FAMILY, LAST_ACCESS, LAST_REFRESH, LIVE, OVER, PAST, USED, USED_REFRESH};
use std::alloc::Global;

// A row of a table, and its moment.
type Ending = (&'static str, Token, u64, Said);

// A token is past from its expiry on, and over from the family's expiry on.
const ENDINGS: &[Ending] = &[
    ("access", LAST_ACCESS, 4_609, LIVE),
    ("access", LAST_ACCESS, 4_610, PAST),
    ("refresh", LAST_REFRESH, 87_409, LIVE),
    ("refresh", LAST_REFRESH, 87_410, PAST),
    ("refresh", LAST_REFRESH, 89_999, PAST),
    ("refresh", LAST_REFRESH, 90_000, OVER),
    // The token is past since 87,410, but it was used: the state is `used`.
    ("used", USED_REFRESH, 89_999, USED),
    // The state of an expired family comes before that of a used token.
    ("used", USED_REFRESH, 90_000, OVER),
    ("access", LAST_ACCESS, 253_402_300_799, OVER),
];

// Returns the first row whose standing differs.
fn first_otherwise(both: &Both, rows: &[Ending]) -> Option<(&'static str, u64)> {
    for (row, token, now, want) in rows {
        if !is_said(both, *now, *token, *want) {
            return Some((row, *now));
        }
    }
    None
}

// Returns the first row whose standing differs, for a family.
pub(super) fn ended_otherwise(alloc: Global) -> Option<(&'static str, u64)> {
    match in_order(alloc, FAMILY, 0) {
        Some(both) => {
            let wrong = first_otherwise(&both, ENDINGS);
            drop(both);
            wrong
        }
        None => Some(("the facts", 0)),
    }
}
