//! Putting a link.

ghost use Rattle.std.specs.Prelude.{◌≡◌, ◌≤◌, ◌+◌, vec_capacity, true, false, None, OnOk, OnErr};
ghost use Rattle.std.specs.Prelude.{IfOk, IsSome, [], IsSorted};
ghost use Rattle.std.specs.FinMap as map;
ghost use Rattle.tk_handle.specs.Dot.{IsDot, dot_cmp};
ghost use Rattle.tk_handle.specs.declared.dot.Dot.{Dot as the_dot};
ghost use Rattle.tk_family.specs.Children.{others_in, IsSame};
ghost use Rattle.tk_family.specs.Counts.{IsCounted};
ghost use Rattle.tk_family.specs.Families.{named_by};
ghost use Rattle.tk_family.specs.Kept.{IsForest, IsHung};
ghost use Rattle.tk_family.specs.Puts.{Gathers, Hung, Lists, Puts, NothingSeen, first_after};
ghost use Rattle.tk_family.specs.Rows.{table, first_in, links_of};
ghost use Rattle.tk_family.specs.Writes.{chain_code};

use crate::children::{Child, list_child, used};
use crate::gather::gather;
use crate::link::{Link, named};
use crate::look::{code_at, first_at, fits_above, is_bad};
use crate::packed::PackedRow;
use crate::write::{add_row, countable, hang, raise, recount};
use std::alloc::{AllocError, Global};
use std::collections::BTreeSet;
use tk_dots::DotMap;
use tk_handle::Dot;

/// Makes the rows that a link at a dot needs. New rows are blank.
fn make_room(rows: &mut DotMap<PackedRow>, dot: Dot, link: &Link) -> Result<(), AllocError>
    requires { IsForest (table rows.old) }
    ensures same { NothingSeen (table rows.old) (table rows.new) }
    ensures own { OnOk result (IsSome (table rows.new dot)) }
    ensures named { OnOk result
        ((p : the_dot) → named_by link.now ≡ Some p → IsSome (table rows.new p)) }
    ensures len { map.len rows.new ≤ map.len rows.old + 2 }
{
    add_row(rows, dot)?;
    if let Some(above) = named(link) {
        add_row(rows, above)?;
    }
    Ok(())
}

/// Returns the code that the dot of a link is under once the link is put.
fn code_for(rows: &DotMap<PackedRow>, dot: Dot, link: &Link) -> Option<Dot>
    ensures { result ≡ chain_code (table rows.now) dot link.now }
{
    let above = match link {
        Link::Code => return Some(dot),
        Link::Redeems(code) => *code,
        Link::Rotates { parent, .. } => *parent,
    };
    if fits_above(rows, link, above) {
        code_at(rows, above)
    } else {
        None
    }
}

/// Returns the dots that a link brings under a code, if its chain reaches the code. Besides this
/// list a put takes memory only for rows, and for an entry if the link is a further child.
fn answer(
    alloc: Global,
    rows: &DotMap<PackedRow>,
    others: &BTreeSet<Child>,
    dot: Dot,
    link: &Link,
    whole: bool,
) -> Result<Vec<Dot>, AllocError>
    requires hung { IsHung (table rows.now) others.now }
    requires row { IsSome (table rows.now dot) }
    requires free { links_of (table rows.now) dot ≡ None }
    ensures whole { IfOk result
        (λ ys. whole ≡ true → Gathers (links_of (table rows.now)) dot link.now ys.items) }
    ensures waits { IfOk result (λ ys. whole ≡ false → ys.items ≡ []) }
    ensures sorted { IfOk result (λ ys. IsSorted dot_cmp ys.items) }
{
    if !whole {
        return Ok(Vec::new(alloc));
    }
    let mut dots = gather(alloc, rows, others, dot, link)?;
    dots.sort_unstable();
    Ok(dots)
}

/// Adds a link's dot to the set of the other children, if the dot that the link names has a first
/// child.
fn list_other(
    rows: &DotMap<PackedRow>,
    others: &mut BTreeSet<Child>,
    dot: Dot,
    link: &Link,
) -> Result<(), AllocError>
    ensures ok { OnOk result
        (Lists (table rows.now) (others_in others.old) (others_in others.new) dot link.now) }
    ensures err { OnErr result (IsSame (others_in others.old) (others_in others.new)) }
    ensures ranged { IsDot dot }
{
    let _ranges = (dot.region(), dot.serial());
    if let Some(token) = used(link) {
        if first_at(rows, token.dot).is_some() {
            list_child(others, &token, dot)?;
        }
    }
    Ok(())
}

/// Writes a link, and its use at the dot that it names. If that makes the dot bad, the dot's code
/// counts the dot.
fn hang_counted(rows: &mut DotMap<PackedRow>, dot: Dot, link: &Link)
    requires forest { IsForest (table rows.old) }
    requires free { links_of (table rows.old) dot ≡ None }
    requires own { IsSome (table rows.old dot) }
    requires named { (p : the_dot) → named_by link.now ≡ Some p → IsSome (table rows.old p) }
    ensures hung { Hung (table rows.old) (table rows.new) dot link.now }
    ensures counted { IsCounted (table rows.new) }
    ensures len { map.len rows.new ≡ map.len rows.old }
{
    match named(link) {
        Some(above) => {
            let was = is_bad(rows, above);
            hang(rows, dot, link);
            recount(rows, above, was);
        }
        None => hang(rows, dot, link),
    }
}

/// Writes a link and all that follows from it. Takes no memory.
fn write_put(rows: &mut DotMap<PackedRow>, dot: Dot, link: &Link, code: Option<Dot>, dots: &[Dot])
    requires forest { IsForest (table rows.old) }
    requires free { links_of (table rows.old) dot ≡ None }
    requires own { IsSome (table rows.old dot) }
    requires named { (p : the_dot) → named_by link.now ≡ Some p → IsSome (table rows.old p) }
    requires code { code ≡ chain_code (table rows.old) dot link.now }
    requires whole { IsSome code → Gathers (links_of (table rows.old)) dot link.now dots.now }
    requires waits { code ≡ None → dots.now ≡ [] }
    ensures puts { Puts (table rows.old) (table rows.new) dot link.now dots.now }
    ensures first { (q : the_dot)
        → first_in (table rows.new q) ≡ first_after (table rows.old) dot link.now q }
    ensures len { map.len rows.new ≡ map.len rows.old }
{
    hang_counted(rows, dot, link);
    if let Some(code) = code {
        countable(rows);
        raise(rows, dots, code);
    }
}

/// Puts a link, and returns the dots that it brings under a code, in order.
fn put_link(
    alloc: Global,
    rows: &mut DotMap<PackedRow>,
    others: &mut BTreeSet<Child>,
    dot: Dot,
    link: &Link,
) -> Result<Vec<Dot>, AllocError>
    requires forest { IsForest (table rows.old) }
    requires hung { IsHung (table rows.old) others.old }
    requires free { links_of (table rows.old) dot ≡ None }
    ensures hung { IsHung (table rows.new) others.new }
    ensures ok { IfOk result (λ ys. Puts (table rows.old) (table rows.new) dot link.now ys.items) }
    ensures sorted { IfOk result (λ ys. IsSorted dot_cmp ys.items) }
    ensures err { OnErr result (NothingSeen (table rows.old) (table rows.new)) }
    ensures len { map.len rows.new ≤ map.len rows.old + 2 }
{
    make_room(rows, dot, link)?;
    let code = code_for(rows, dot, link);
    let dots = answer(alloc, rows, others, dot, link, code.is_some())?;
    list_other(rows, others, dot, link)?;
    write_put(rows, dot, link, code, dots.as_slice());
    Ok(dots)
}

/// Takes room for two rows more.
pub(crate) fn reserve(rows: &DotMap<PackedRow>, room: &mut Vec<Dot>) -> Result<(), AllocError>
    ensures ok { OnOk result (map.len rows.now + 2 ≤ vec_capacity room.new) }
    ensures capacity { vec_capacity room.old ≤ vec_capacity room.new }
{
    room.clear();
    match rows.len().checked_add(2) {
        Some(count) => room.reserve(count as usize),
        None => Err(AllocError),
    }
}

/// Puts a link, and returns the dots that the link brings under a code, in order.
pub(crate) fn put_within(
    alloc: Global,
    rows: &mut DotMap<PackedRow>,
    others: &mut BTreeSet<Child>,
    room: &mut Vec<Dot>,
    dot: Dot,
    link: &Link,
) -> Result<Vec<Dot>, AllocError>
    requires forest { IsForest (table rows.old) }
    requires hung { IsHung (table rows.old) others.old }
    requires room { map.len rows.old ≤ vec_capacity room.old }
    requires free { links_of (table rows.old) dot ≡ None }
    ensures hung { IsHung (table rows.new) others.new }
    ensures ok { IfOk result (λ ys. Puts (table rows.old) (table rows.new) dot link.now ys.items) }
    ensures sorted { IfOk result (λ ys. IsSorted dot_cmp ys.items) }
    ensures err { OnErr result (NothingSeen (table rows.old) (table rows.new)) }
    ensures room { map.len rows.new ≤ vec_capacity room.new }
{
    match reserve(rows, room) {
        Ok(()) => put_link(alloc, rows, others, dot, link),
        Err(error) => Err(error),
    }
}
