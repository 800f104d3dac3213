//! Removing a link or a mark, with all that followed from it.
//!
//! Nothing here takes memory: the caller passes a list that has room for the dots of all rows.

ghost use Rattle.std.specs.Prelude.{◌≡◌, ◌≢◌, ◌≤◌, true, Some, None, IsSome, vec_capacity};
ghost use Rattle.std.specs.BTreeSet.{IsOrdered};
ghost use Rattle.std.specs.FinMap as map;
ghost use Rattle.tk_handle.specs.declared.dot.Dot.{Dot as the_dot};
ghost use Rattle.tk_family.specs.Children.{child_cmp, others_in, token_at};
ghost use Rattle.tk_family.specs.Counts.{IsCount, IsCounted};
ghost use Rattle.tk_family.specs.Kept.{has_dot, Hangs, IsHung, IsForest};
ghost use Rattle.tk_family.specs.Puts.{NothingSeen};
ghost use Rattle.tk_family.specs.Rows.{table, code_in, count_in, first_in, blamed_in, links_of};
ghost use Rattle.tk_family.specs.Rows.{firsts_of};
ghost use Rattle.tk_family.specs.Takes.{without, with_first, HasUses, KeptBut, Unlinks};
ghost use Rattle.tk_family.specs.Takes.{first_uses, counted};
ghost use Rattle.tk_family.specs.Takes.{Clears, Takes, Unmarks};
ghost use Rattle.tk_family.specs.Uses.{uses_it, uses_by};

use crate::children::{Child, drop_child, promote, used_kind, users_up_to_two};
use crate::gather::gather_into;
use crate::link::{Link, named};
use crate::look::{code_at, first_at, is_bad, is_blank_at, link_at, marked_at};
use crate::packed::PackedRow;
use crate::row::Uses;
use crate::write::{clear, drop_row, recount, set_bare, set_unmarked, set_users};
use std::collections::BTreeSet;
use tk_dots::DotMap;
use tk_handle::{Dot, Kind, TokenId};

/// Returns whether a dot is the first child of the dot `above`.
fn is_first(rows: &DotMap<PackedRow>, above: Dot, dot: Dot) -> bool
    ensures { result ≡ has_dot (first_in (table rows.now above)) dot }
{
    match first_at(rows, above) {
        Some(first) => first == dot,
        None => false,
    }
}

/// Returns whether a link uses the token of a kind at a dot.
fn is_use(link: &Link, above: Dot, kind: Kind) -> bool
    ensures { result ≡ uses_it link.now (token_at above kind) }
{
    match (link, kind) {
        (Link::Redeems(code), Kind::Code) => *code == above,
        (Link::Rotates { parent, .. }, Kind::Refresh) => *parent == above,
        _ => false,
    }
}

/// Returns whether the first child of the dot `above`, if there is one, uses the token of a kind
/// there.
fn first_uses(rows: &DotMap<PackedRow>, first: &Option<Dot>, above: Dot, kind: Kind) -> bool
    ensures { result ≡ first_uses (links_of (table rows.now)) first.now (token_at above kind) }
{
    match first {
        Some(child) => match link_at(rows, *child) {
            Some(link) => is_use(&link, above, kind),
            None => false,
        },
        None => false,
    }
}

/// Counts the uses of the token of a kind at the dot `above`: by the first child of the dot, if
/// there is one, and by two other children at most.
fn count_uses(
    rows: &DotMap<PackedRow>,
    others: &BTreeSet<Child>,
    first: &Option<Dot>,
    above: Dot,
    kind: Kind,
) -> Uses
    ensures uses { result
        ≡ counted (links_of (table rows.now)) first.now others.now (token_at above kind) }
    ensures ordered { IsOrdered child_cmp others.now }
{
    let mut count = users_up_to_two(others, &TokenId { dot: above, kind });
    if first_uses(rows, first, above, kind) {
        count += 1;
    }
    Uses::of(count)
}

/// Takes `dot` from the children of the dot `above`. The link at `dot` uses the token of the kind
/// at `above`. Returns the first child after that: if `dot` was the first, another child is taken
/// out of the set in its place.
fn unlist(
    rows: &DotMap<PackedRow>,
    others: &mut BTreeSet<Child>,
    above: Dot,
    kind: Kind,
    dot: Dot,
) -> Option<Dot>
    requires hung { IsHung (table rows.now) others.old }
    requires uses { uses_by (links_of (table rows.now) dot) (token_at above kind) ≡ true }
    ensures { Hangs (without (links_of (table rows.now)) dot)
        (with_first (firsts_of (table rows.now)) above result) (others_in others.new) }
{
    if is_first(rows, above, dot) {
        return promote(others, above);
    }
    drop_child(others, &TokenId { dot: above, kind }, dot);
    first_at(rows, above)
}

/// Takes `dot` from the children of the dot `above`. The link at `dot` uses the token of the kind
/// at `above`, whose uses are counted anew.
fn unhang(
    rows: &mut DotMap<PackedRow>,
    others: &mut BTreeSet<Child>,
    above: Dot,
    kind: Kind,
    dot: Dot,
)
    requires hung { IsHung (table rows.old) others.old }
    requires uses { uses_by (links_of (table rows.old) dot) (token_at above kind) ≡ true }
    requires known { HasUses (links_of (table rows.old)) (table rows.old) }
    ensures hung { Hangs (without (links_of (table rows.old)) dot) (firsts_of (table rows.new))
        (others_in others.new) }
    ensures kept { KeptBut (table rows.old) (table rows.new) (token_at above kind) }
    ensures known { HasUses (without (links_of (table rows.old)) dot) (table rows.new) }
    ensures len { map.len rows.new ≡ map.len rows.old }
{
    let first = unlist(rows, others, above, kind, dot);
    let uses = count_uses(rows, others, &first, above, kind);
    set_users(rows, above, first, kind, uses);
}

/// Removes the link at a dot that is under no code. The codes in the other rows stay.
fn unlink(rows: &mut DotMap<PackedRow>, others: &mut BTreeSet<Child>, dot: Dot, link: &Link)
    requires hung { IsHung (table rows.old) others.old }
    requires known { HasUses (links_of (table rows.old)) (table rows.old) }
    requires here { links_of (table rows.old) dot ≡ Some link.now }
    requires alone { code_in (table rows.old dot) ≡ None }
    requires counted { IsCounted (table rows.old) }
    requires coded { (q : the_dot) (c : the_dot)
        → code_in (table rows.old q) ≡ Some c → links_of (table rows.old) c ≡ Some Link.Code }
    ensures hung { IsHung (table rows.new) others.new }
    ensures unlinks { Unlinks (table rows.old) (table rows.new) dot }
    ensures counted { (c : the_dot) → c ≢ dot
        → IsCount (λ q. blamed_in (table rows.new q)) c (count_in (table rows.new c)) }
    ensures len { map.len rows.new ≡ map.len rows.old }
{
    if let Some(above) = named(link) {
        let was = is_bad(rows, above);
        unhang(rows, others, above, used_kind(link), dot);
        recount(rows, above, was);
    }
    set_bare(rows, dot);
}

/// Writes that a dot, and what hangs below it, is under no code. The dot is under `code`.
fn clear_below(
    rows: &mut DotMap<PackedRow>,
    others: &BTreeSet<Child>,
    room: &mut Vec<Dot>,
    dot: Dot,
    link: &Link,
    code: Dot,
)
    requires forest { IsForest (table rows.old) }
    requires hung { IsHung (table rows.old) others.now }
    requires here { links_of (table rows.old) dot ≡ Some link.now }
    requires code { code_in (table rows.old dot) ≡ Some code }
    requires room { map.len rows.old ≤ vec_capacity room.old }
    ensures clears { Clears (table rows.old) (table rows.new) dot link.now code }
    ensures len { map.len rows.new ≡ map.len rows.old }
    ensures capacity { vec_capacity room.old ≤ vec_capacity room.new }
{
    room.clear();
    match gather_into(rows, others, dot, link, room) {
        Ok(()) => clear(rows, room.as_slice(), code),
        Err(_) => unreachable!("there is room for each row"),
    }
}

/// Removes the link at a dot, the marks of the dot's tokens, and what followed from them. What hung
/// below the dot is under no code any more. A family that was dead only because of them is alive.
fn take_link(
    rows: &mut DotMap<PackedRow>,
    others: &mut BTreeSet<Child>,
    room: &mut Vec<Dot>,
    dot: Dot,
    link: &Link,
)
    requires forest { IsForest (table rows.old) }
    requires hung { IsHung (table rows.old) others.old }
    requires here { links_of (table rows.old) dot ≡ Some link.now }
    requires room { map.len rows.old ≤ vec_capacity room.old }
    ensures hung { IsHung (table rows.new) others.new }
    ensures takes { Takes (table rows.old) (table rows.new) dot }
    ensures len { map.len rows.new ≡ map.len rows.old }
    ensures capacity { vec_capacity room.old ≤ vec_capacity room.new }
{
    if let Some(code) = code_at(rows, dot) {
        clear_below(rows, others, room, dot, link, code);
    }
    unlink(rows, others, dot, link);
}

/// Removes the row at a dot, if it is blank.
fn drop_blank(rows: &mut DotMap<PackedRow>, at: Dot)
    requires { IsForest (table rows.old) }
    ensures same { NothingSeen (table rows.old) (table rows.new) }
    ensures len { map.len rows.new ≤ map.len rows.old }
{
    if is_blank_at(rows, at) {
        drop_row(rows, at);
    }
}

/// Removes the rows of a dot and of the dot that a link names, if they are blank.
fn drop_blanks(rows: &mut DotMap<PackedRow>, dot: Dot, link: &Link)
    requires { IsForest (table rows.old) }
    ensures same { NothingSeen (table rows.old) (table rows.new) }
    ensures len { map.len rows.new ≤ map.len rows.old }
{
    drop_blank(rows, dot);
    if let Some(above) = named(link) {
        drop_blank(rows, above);
    }
}

/// Removes the link at a dot, as `take_link` does, and the rows that are blank then.
pub(crate) fn take_at(
    rows: &mut DotMap<PackedRow>,
    others: &mut BTreeSet<Child>,
    room: &mut Vec<Dot>,
    dot: Dot,
)
    requires forest { IsForest (table rows.old) }
    requires hung { IsHung (table rows.old) others.old }
    requires here { IsSome (links_of (table rows.old) dot) }
    requires room { map.len rows.old ≤ vec_capacity room.old }
    ensures hung { IsHung (table rows.new) others.new }
    ensures takes { Takes (table rows.old) (table rows.new) dot }
    ensures room { map.len rows.new ≤ vec_capacity room.new }
{
    match link_at(rows, dot) {
        Some(link) => {
            take_link(rows, others, room, dot, &link);
            drop_blanks(rows, dot, &link);
        }
        None => unreachable!("the dot has a link"),
    }
}

/// Removes a mark. A family that was dead only because of the mark is alive. A token that is not
/// marked costs one look-up.
pub(crate) fn unmark_token(rows: &mut DotMap<PackedRow>, token: TokenId)
    requires { IsForest (table rows.old) }
    ensures unmarks { Unmarks (table rows.old) (table rows.new) token }
    ensures len { map.len rows.new ≡ map.len rows.old }
{
    if !marked_at(rows, token.dot, token.kind) {
        return;
    }
    let was = is_bad(rows, token.dot);
    set_unmarked(rows, token.dot, token.kind);
    recount(rows, token.dot, was);
}
