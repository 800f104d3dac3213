//! Marking a token.

ghost use Rattle.std.specs.Prelude.{◌≡◌, ◌≤◌, ◌+◌, vec_capacity, OnOk, OnErr, IsSome, IsOk};
ghost use Rattle.std.specs.FinMap as map;
ghost use Rattle.tk_family.specs.Kept.{IsForest};
ghost use Rattle.tk_family.specs.Puts.{MarksOne, NothingSeen};
ghost use Rattle.tk_family.specs.Rows.{table, links_of};

use crate::look::is_bad;
use crate::packed::PackedRow;
use crate::put::reserve;
use crate::write::{add_row, recount, set_marked};
use std::alloc::AllocError;
use tk_dots::DotMap;
use tk_handle::{Dot, TokenId};

/// Marks a token, which makes it bad.
fn mark_token(rows: &mut DotMap<PackedRow>, token: TokenId) -> Result<(), AllocError>
    requires { IsForest (table rows.old) }
    ensures ok { OnOk result (MarksOne (table rows.old) (table rows.new) token) }
    ensures err { OnErr result (NothingSeen (table rows.old) (table rows.new)) }
    ensures present { IsSome (links_of (table rows.old) token.dot) → IsOk result }
    ensures len { map.len rows.new ≤ map.len rows.old + 1 }
    ensures same_len { IsSome (table rows.old token.dot) → map.len rows.new ≡ map.len rows.old }
{
    add_row(rows, token.dot)?;
    let was = is_bad(rows, token.dot);
    set_marked(rows, token.dot, token.kind);
    recount(rows, token.dot, was);
    Ok(())
}

/// Marks a token. Room is taken only where its dot has no row.
pub(crate) fn mark_within(
    rows: &mut DotMap<PackedRow>,
    room: &mut Vec<Dot>,
    token: TokenId,
) -> Result<(), AllocError>
    requires forest { IsForest (table rows.old) }
    requires room { map.len rows.old ≤ vec_capacity room.old }
    ensures ok { OnOk result (MarksOne (table rows.old) (table rows.new) token) }
    ensures err { OnErr result (NothingSeen (table rows.old) (table rows.new)) }
    ensures present { IsSome (links_of (table rows.old) token.dot) → IsOk result }
    ensures room { map.len rows.new ≤ vec_capacity room.new }
{
    if rows.get(token.dot).is_none() {
        if let Err(error) = reserve(rows, room) {
            return Err(error);
        }
    }
    mark_token(rows, token)
}
