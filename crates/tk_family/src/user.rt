//! A dot whose link uses a token, read from rows and from the set of the other children.

ghost use Rattle.std.specs.Prelude.{◌≡◌, Some, IfNone, IfSome};
ghost use Rattle.tk_family.specs.Families.{IsUsed, use_of};
ghost use Rattle.tk_family.specs.Kept.{IsHung};
ghost use Rattle.tk_family.specs.Rows.{table, links_of};
ghost use Rattle.tk_family.specs.Uses.{uses_by};

use crate::children::{Child, first_user, used};
use crate::link::Link;
use crate::look::{first_at, link_at};
use crate::packed::PackedRow;
use std::collections::BTreeSet;
use tk_dots::DotMap;
use tk_handle::{Dot, TokenId};

// Returns whether the link, if there is one, uses the token.
fn uses(link: Option<Link>, token: &TokenId) -> bool
    ensures { result ≡ uses_by link token.now }
{
    match link {
        Some(link) => used(&link) == Some(*token),
        None => false,
    }
}

/// Returns a dot whose link uses the token, if there is one.
pub(crate) fn user_of(
    rows: &DotMap<PackedRow>,
    others: &BTreeSet<Child>,
    token: &TokenId,
) -> Option<Dot>
    requires { IsHung (table rows.now) others.now }
    ensures some { IfSome result (λ d. use_of (links_of (table rows.now) d) ≡ Some token.now) }
    ensures none { IfNone result (¬ IsUsed (links_of (table rows.now)) token.now) }
{
    let Some(first) = first_at(rows, token.dot) else {
        return None;
    };
    if uses(link_at(rows, first), token) {
        return Some(first);
    }
    first_user(others, token)
}
