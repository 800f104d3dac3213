//! Gathering all that hangs below a dot, in a list that is its own queue.

ghost use Rattle.std.specs.Prelude.{◌≡◌, ◌<◌, ◌≤◌, ◌++◌, ◌∷◌, [], None, OnOk, OnErr, IfOk};
ghost use Rattle.std.specs.Prelude.{IsSome, if◌then◌else◌, vec_capacity};
ghost use Rattle.std.specs.FinMap as map;
ghost use Rattle.tk_family.specs.Kept.{IsHung};
ghost use Rattle.tk_family.specs.Puts.{fits_at, with_link, IsFull, Pushes, Gathers};
ghost use Rattle.tk_family.specs.Rows.{table, links_of, grant_kind};
ghost use Rattle.tk_family.specs.Takes.{IsShort};
ghost use Rattle.tk_family.specs.declared.link.Link.{Link as the_link};

use crate::children::{Child, span};
use crate::link::Link;
use crate::look::{first_at, fits_below, link_at};
use crate::packed::PackedRow;
use std::alloc::{AllocError, Global};
use std::collections::BTreeSet;
use std::ops::Bound;
use tk_dots::DotMap;
use tk_handle::{Dot, Kind, TokenId};

/// Returns the kind of the code or refresh token that a link mints. Links that fit the link use
/// that token.
fn grant_kind(link: &Link) -> Kind
    ensures { result ≡ grant_kind link.now }
{
    match link {
        Link::Code => Kind::Code,
        Link::Redeems(_) => Kind::Refresh,
        Link::Rotates { .. } => Kind::Refresh,
    }
}

/// Adds a dot to the end of a list, if its link fits the link above. Fails only if the list has no
/// room for the dot and memory runs out.
fn push_fitting(
    rows: &DotMap<PackedRow>,
    dot: Dot,
    above: &Link,
    list: &mut Vec<Dot>,
) -> Result<(), AllocError>
    ensures ok { OnOk result (list.new.items
        ≡ (if fits_at (links_of (table rows.now) dot) above.now
        then list.old.items ++ dot ∷ [] else list.old.items)) }
    ensures full { OnErr result (IsFull (links_of (table rows.now)) dot above.now
        list.old.items (vec_capacity list.old)) }
    ensures capacity { vec_capacity list.old ≤ vec_capacity list.new }
{
    if fits_below(rows, dot, above) {
        list.push(dot)?;
    }
    Ok(())
}

/// Adds to the end of a list the dots that name a dot and whose links fit the link there. Fails
/// only if the list has no room for them and memory runs out.
fn push_children(
    rows: &DotMap<PackedRow>,
    others: &BTreeSet<Child>,
    dot: Dot,
    above: &Link,
    list: &mut Vec<Dot>,
) -> Result<(), AllocError>
    requires { IsHung (table rows.now) others.now }
    ensures ok { OnOk result
        (Pushes (links_of (table rows.now)) dot above.now list.old.items list.new.items) }
    ensures full { OnErr result (IsShort (links_of (table rows.now)) dot above.now
        list.old.items (vec_capacity list.old)) }
    ensures capacity { vec_capacity list.old ≤ vec_capacity list.new }
{
    let kind = grant_kind(above);
    let (least, greatest) = span(&TokenId { dot, kind });
    let users = others.range((Bound::Included(least), Bound::Included(greatest)));
    if let Some(first) = first_at(rows, dot) {
        push_fitting(rows, first, above, list)?;
    }
    for child in users {
        push_fitting(rows, child.dot(), above, list)?;
    }
    Ok(())
}

/// Returns the link at a dot, once `link` is put at `dot`.
fn link_with(rows: &DotMap<PackedRow>, dot: Dot, link: &Link, at: Dot) -> Option<Link>
    ensures { result ≡ with_link (links_of (table rows.now)) dot link.now at }
{
    if dot == at {
        Some(*link)
    } else {
        link_at(rows, at)
    }
}

/// Gathers, into an empty list, what a link at a dot brings under the code that the dot is under:
/// the dot, and all that hangs below it by fitting links. Fails only if the list has no room for as
/// many dots as there are rows.
pub(crate) fn gather_into(
    rows: &DotMap<PackedRow>,
    others: &BTreeSet<Child>,
    dot: Dot,
    link: &Link,
    list: &mut Vec<Dot>,
) -> Result<(), AllocError>
    requires hung { IsHung (table rows.now) others.now }
    requires row { IsSome (table rows.now dot) }
    requires other { (k : the_link) → links_of (table rows.now) dot ≡ Some k → k ≡ link.now }
    requires empty { list.old.items ≡ [] }
    ensures ok { OnOk result (Gathers (links_of (table rows.now)) dot link.now list.new.items) }
    ensures full { OnErr result (vec_capacity list.old < map.len rows.now) }
    ensures capacity { vec_capacity list.old ≤ vec_capacity list.new }
{
    list.push(dot)?;
    let mut i = 0;
    while i < list.len() {
        let at = list[i];
        if let Some(above) = link_with(rows, dot, link, at) {
            push_children(rows, others, at, &above, list)?;
        }
        i += 1;
    }
    Ok(())
}

/// Returns what a link at a dot will bring under the code that the dot is under: the dot, and all
/// that hangs below it by fitting links. Changes nothing.
pub(crate) fn gather(
    alloc: Global,
    rows: &DotMap<PackedRow>,
    others: &BTreeSet<Child>,
    dot: Dot,
    link: &Link,
) -> Result<Vec<Dot>, AllocError>
    requires hung { IsHung (table rows.now) others.now }
    requires row { IsSome (table rows.now dot) }
    requires free { links_of (table rows.now) dot ≡ None }
    ensures { IfOk result (λ ys. Gathers (links_of (table rows.now)) dot link.now ys.items) }
{
    let mut list = Vec::new(alloc);
    gather_into(rows, others, dot, link, &mut list)?;
    Ok(list)
}
