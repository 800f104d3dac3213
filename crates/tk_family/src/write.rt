//! Writes of rows. Only `add_row` takes memory.

ghost use Rattle.std.specs.Prelude.{◌≡◌, ◌<◌, ◌≤◌, ◌+◌, ◌^◌, Some, None, OnOk, OnErr, IsOk, IsSome};
ghost use Rattle.std.specs.Prelude.{if◌then◌else◌, option_map};
ghost use Rattle.std.specs.FinMap as map;
ghost use Rattle.tk_handle.specs.declared.dot.Dot.{Dot as the_dot};
ghost use Rattle.tk_family.specs.Counts.{IsCounted, IsCountedAs, AlikeButCount};
ghost use Rattle.tk_family.specs.Dots.{dot_eq};
ghost use Rattle.tk_family.specs.Rows.{table, code_in, count_in};
ghost use Rattle.tk_family.specs.Writes.{or_blank, with_code, with_count, with_put, with_redeemer};
ghost use Rattle.tk_family.specs.Writes.{with_rotator, with_users, with_marked, without_code};
ghost use Rattle.tk_family.specs.Writes.{without_link, without_mark, hung, bads, settled, raised};
ghost use Rattle.tk_family.specs.Writes.{unsettled, cleared};

use crate::link::Link;
use crate::look::{bad_among, code_at, count_at, is_bad};
use crate::packed::PackedRow;
use crate::row::{Row, Uses};
use std::alloc::AllocError;
use tk_dots::DotMap;
use tk_handle::{Dot, Kind};

/// Makes a blank row at a dot that has none.
pub(crate) fn add_row(rows: &mut DotMap<PackedRow>, at: Dot) -> Result<(), AllocError>
    ensures ok { OnOk result
        ((q : the_dot) → table rows.new q
        ≡ (if dot_eq at q then or_blank (table rows.old q) else table rows.old q)) }
    ensures err { OnErr result ((q : the_dot) → table rows.new q ≡ table rows.old q) }
    ensures present { IsSome (table rows.old at) → IsOk result }
    ensures len { map.len rows.new ≤ map.len rows.old + 1 }
    ensures same_len { IsSome (table rows.old at) → map.len rows.new ≡ map.len rows.old }
{
    if rows.get(at).is_some() {
        return Ok(());
    }
    rows.put(at, PackedRow::pack(&Row::new(None)))
}

/// Replaces the row at a dot, if there is one.
fn put_row(rows: &mut DotMap<PackedRow>, at: Dot, row: Row)
    ensures rows { (q : the_dot)
        → table rows.new q ≡
        (if dot_eq at q then option_map (λ _. row) (table rows.old q) else table rows.old q) }
    ensures len { map.len rows.new ≡ map.len rows.old }
{
    rows.set(at, PackedRow::pack(&row));
}

/// Writes the code that a dot is under.
fn set_code(rows: &mut DotMap<PackedRow>, at: Dot, code: Dot)
    ensures rows { (q : the_dot)
        → table rows.new q ≡
        (if dot_eq at q then with_code (table rows.old q) code else table rows.old q) }
    ensures len { map.len rows.new ≡ map.len rows.old }
{
    if let Some(row) = rows.get(at) {
        let changed = row.unpack().with_code(code);
        put_row(rows, at, changed);
    }
}

/// Writes how many dots of the family of the code at a dot are bad.
fn set_count(rows: &mut DotMap<PackedRow>, at: Dot, count: u64)
    ensures rows { (q : the_dot)
        → table rows.new q ≡
        (if dot_eq at q then with_count (table rows.old q) count else table rows.old q) }
    ensures len { map.len rows.new ≡ map.len rows.old }
{
    if let Some(row) = rows.get(at) {
        let changed = row.unpack().with_count(count);
        put_row(rows, at, changed);
    }
}

/// Writes a link.
fn set_link(rows: &mut DotMap<PackedRow>, at: Dot, link: &Link)
    ensures rows { (q : the_dot)
        → table rows.new q ≡
        (if dot_eq at q then with_put (table rows.old q) link.now else table rows.old q) }
    ensures len { map.len rows.new ≡ map.len rows.old }
{
    if let Some(row) = rows.get(at) {
        let changed = row.unpack().with_link(*link);
        put_row(rows, at, changed);
    }
}

/// Writes that the link at `dot` redeems the code at `at`.
fn set_redeemer(rows: &mut DotMap<PackedRow>, at: Dot, dot: Dot)
    ensures rows { (q : the_dot)
        → table rows.new q ≡
        (if dot_eq at q then with_redeemer (table rows.old q) dot else table rows.old q) }
    ensures len { map.len rows.new ≡ map.len rows.old }
{
    if let Some(row) = rows.get(at) {
        let changed = row.unpack().redeemed_by(dot);
        put_row(rows, at, changed);
    }
}

/// Writes that the link at `dot` rotates the refresh token at `at`.
fn set_rotator(rows: &mut DotMap<PackedRow>, at: Dot, dot: Dot)
    ensures rows { (q : the_dot)
        → table rows.new q ≡
        (if dot_eq at q then with_rotator (table rows.old q) dot else table rows.old q) }
    ensures len { map.len rows.new ≡ map.len rows.old }
{
    if let Some(row) = rows.get(at) {
        let changed = row.unpack().rotated_by(dot);
        put_row(rows, at, changed);
    }
}

/// Writes that the token of a kind is marked.
pub(crate) fn set_marked(rows: &mut DotMap<PackedRow>, at: Dot, kind: Kind)
    ensures rows { (q : the_dot)
        → table rows.new q ≡
        (if dot_eq at q then with_marked (table rows.old q) kind else table rows.old q) }
    ensures len { map.len rows.new ≡ map.len rows.old }
{
    if let Some(row) = rows.get(at) {
        let changed = row.unpack().marked_as(kind);
        put_row(rows, at, changed);
    }
}

/// Writes that a dot is under no code.
fn set_uncoded(rows: &mut DotMap<PackedRow>, at: Dot)
    ensures rows { (q : the_dot)
        → table rows.new q ≡
        (if dot_eq at q then without_code (table rows.old q) else table rows.old q) }
    ensures len { map.len rows.new ≡ map.len rows.old }
{
    if let Some(row) = rows.get(at) {
        let changed = row.unpack().without_code();
        put_row(rows, at, changed);
    }
}

/// Writes the first child of a dot, or that there is none, and the count of uses of the token of a
/// kind.
pub(crate) fn set_users(
    rows: &mut DotMap<PackedRow>,
    at: Dot,
    first: Option<Dot>,
    kind: Kind,
    uses: Uses,
)
    ensures rows { (q : the_dot)
        → table rows.new q ≡
        (if dot_eq at q then with_users (table rows.old q) first kind uses else table rows.old q) }
    ensures len { map.len rows.new ≡ map.len rows.old }
{
    if let Some(row) = rows.get(at) {
        let changed = row.unpack().with_users(first, kind, uses);
        put_row(rows, at, changed);
    }
}

/// Writes that a dot has no link and no marks. The dot's first child stays, and so do the counts of
/// uses.
pub(crate) fn set_bare(rows: &mut DotMap<PackedRow>, at: Dot)
    ensures rows { (q : the_dot)
        → table rows.new q ≡
        (if dot_eq at q then without_link (table rows.old q) else table rows.old q) }
    ensures len { map.len rows.new ≡ map.len rows.old }
{
    if let Some(row) = rows.get(at) {
        let changed = row.unpack().without_link();
        put_row(rows, at, changed);
    }
}

/// Writes that the token of a kind is not marked.
pub(crate) fn set_unmarked(rows: &mut DotMap<PackedRow>, at: Dot, kind: Kind)
    ensures rows { (q : the_dot)
        → table rows.new q ≡
        (if dot_eq at q then without_mark (table rows.old q) kind else table rows.old q) }
    ensures len { map.len rows.new ≡ map.len rows.old }
{
    if let Some(row) = rows.get(at) {
        let changed = row.unpack().unmarked_as(kind);
        put_row(rows, at, changed);
    }
}

/// Writes that the dots of a list are under no code.
fn unsettle(rows: &mut DotMap<PackedRow>, list: &[Dot])
    ensures rows { (q : the_dot) → table rows.new q ≡ unsettled (table rows.old) list.now q }
    ensures len { map.len rows.new ≡ map.len rows.old }
{
    for at in list {
        set_uncoded(rows, *at);
    }
}

/// Writes that the dots of a list, which are under a code, are under no code. The code does not
/// count the bad ones among them any more.
pub(crate) fn clear(rows: &mut DotMap<PackedRow>, list: &[Dot], code: Dot)
    requires { bads (table rows.old) list.now ≤ count_in (table rows.old code) }
    ensures rows { (q : the_dot) → table rows.new q ≡ cleared (table rows.old) list.now code q }
    ensures len { map.len rows.new ≡ map.len rows.old }
{
    let count = count_at(rows, code) - bad_among(rows, list);
    unsettle(rows, list);
    set_count(rows, code, count);
}

/// States that the number of rows is in range.
pub(crate) fn countable(rows: &DotMap<PackedRow>)
    ensures { map.len rows.now < 2 ^ 64 }
{
    let _count = rows.len();
}

/// Returns 1 if something holds, and 0 if not.
fn one_if(holds: bool) -> u64
    ensures { result ≡ (if holds then 1 else 0) }
{
    if holds { 1 } else { 0 }
}

/// Counts a dot anew at the code that it is under: whether the dot is bad may have changed since
/// the counts were right. `was` is whether the dot was bad then.
pub(crate) fn recount(rows: &mut DotMap<PackedRow>, at: Dot, was: bool)
    requires counted { IsCountedAs (table rows.old) at was }
    requires coded { (c : the_dot)
        → code_in (table rows.old at) ≡ Some c → IsSome (table rows.old c) }
    ensures alike { AlikeButCount (table rows.old) (table rows.new) }
    ensures counted { IsCounted (table rows.new) }
    ensures len { map.len rows.new ≡ map.len rows.old }
{
    let bad = is_bad(rows, at);
    if bad == was {
        return;
    }
    countable(rows);
    if let Some(code) = code_at(rows, at) {
        let others = count_at(rows, code) - one_if(was);
        let count = others + one_if(bad);
        set_count(rows, code, count);
    }
}

/// Writes the code at each dot of a list.
fn settle(rows: &mut DotMap<PackedRow>, list: &[Dot], code: Dot)
    ensures rows { (q : the_dot) → table rows.new q ≡ settled (table rows.old) list.now code q }
    ensures len { map.len rows.new ≡ map.len rows.old }
{
    for at in list {
        set_code(rows, *at, code);
    }
}

/// Writes the code at each dot of a list. The code counts the bad ones among them.
pub(crate) fn raise(rows: &mut DotMap<PackedRow>, list: &[Dot], code: Dot)
    requires { count_in (table rows.old code) + bads (table rows.old) list.now < 2 ^ 64 }
    ensures rows { (q : the_dot) → table rows.new q ≡ raised (table rows.old) list.now code q }
    ensures len { map.len rows.new ≡ map.len rows.old }
{
    let bad = bad_among(rows, list);
    if bad == 0 {
        settle(rows, list, code);
        return;
    }
    let count = count_at(rows, code) + bad;
    settle(rows, list, code);
    set_count(rows, code, count);
}

/// Writes a link, and its use at the dot that it names. If that dot has no first child, the link's
/// dot becomes the first child.
pub(crate) fn hang(rows: &mut DotMap<PackedRow>, dot: Dot, link: &Link)
    ensures rows { (q : the_dot) → table rows.new q ≡ hung (table rows.old) dot link.now q }
    ensures len { map.len rows.new ≡ map.len rows.old }
{
    match link {
        Link::Code => set_link(rows, dot, link),
        Link::Redeems(code) => {
            set_link(rows, dot, link);
            set_redeemer(rows, *code, dot);
        }
        Link::Rotates { parent, .. } => {
            set_link(rows, dot, link);
            set_rotator(rows, *parent, dot);
        }
    }
}

/// Removes the row at a dot, if there is one.
pub(crate) fn drop_row(rows: &mut DotMap<PackedRow>, at: Dot)
    ensures rows { (q : the_dot)
        → table rows.new q ≡
        (if dot_eq at q then None else table rows.old q) }
    ensures len { map.len rows.new ≤ map.len rows.old }
{
    let _row = rows.take(at);
}
