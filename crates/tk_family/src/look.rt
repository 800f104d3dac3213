//! Look-ups of one row each.

ghost use Rattle.std.specs.Prelude.{◌≡◌};
ghost use Rattle.tk_family.specs.Puts.{fits_at};
ghost use Rattle.tk_family.specs.Rows.{table, link_in, code_in, count_in, dead_in, first_in};
ghost use Rattle.tk_family.specs.Rows.{marked_in, used_in, bad_in};
ghost use Rattle.tk_family.specs.Walks.{fits_over};
ghost use Rattle.tk_family.specs.Writes.{is_blank_row, bads};

use crate::link::{Link, fits};
use crate::packed::PackedRow;
use tk_dots::DotMap;
use tk_handle::{Dot, Kind};

/// Returns the link at a dot.
pub(crate) fn link_at(rows: &DotMap<PackedRow>, dot: Dot) -> Option<Link>
    ensures { result ≡ link_in (table rows.now dot) }
{
    match rows.get(dot) {
        Some(row) => row.unpack().link,
        None => None,
    }
}

/// Returns the code that a dot is under.
pub(crate) fn code_at(rows: &DotMap<PackedRow>, dot: Dot) -> Option<Dot>
    ensures { result ≡ code_in (table rows.now dot) }
{
    match rows.get(dot) {
        Some(row) => row.unpack().code,
        None => None,
    }
}

/// Returns the first child of a dot.
pub(crate) fn first_at(rows: &DotMap<PackedRow>, dot: Dot) -> Option<Dot>
    ensures { result ≡ first_in (table rows.now dot) }
{
    match rows.get(dot) {
        Some(row) => row.unpack().first,
        None => None,
    }
}

/// Returns the link at a dot, and the code that the dot is under.
pub(crate) fn seen_at(rows: &DotMap<PackedRow>, dot: Dot) -> (Option<Link>, Option<Dot>)
    ensures link { result.0 ≡ link_in (table rows.now dot) }
    ensures code { result.1 ≡ code_in (table rows.now dot) }
{
    match rows.get(dot) {
        Some(row) => {
            let row = row.unpack();
            (row.link, row.code)
        }
        None => (None, None),
    }
}

/// Returns whether the row at a dot is blank or absent.
pub(crate) fn is_blank_at(rows: &DotMap<PackedRow>, dot: Dot) -> bool
    ensures { result ≡ is_blank_row (table rows.now dot) }
{
    match rows.get(dot) {
        Some(row) => row.unpack().is_blank(),
        None => true,
    }
}

/// Returns how many dots of the family of the code at a dot are bad.
pub(crate) fn count_at(rows: &DotMap<PackedRow>, dot: Dot) -> u64
    ensures { result ≡ count_in (table rows.now dot) }
{
    match rows.get(dot) {
        Some(row) => row.unpack().bad,
        None => 0,
    }
}

/// Returns whether the family of the code at a dot is dead.
pub(crate) fn dead_at(rows: &DotMap<PackedRow>, dot: Dot) -> bool
    ensures { result ≡ dead_in (table rows.now dot) }
{
    count_at(rows, dot) > 0
}

/// Returns whether a link uses the token of a kind at a dot.
pub(crate) fn used_at(rows: &DotMap<PackedRow>, dot: Dot, kind: Kind) -> bool
    ensures { result ≡ used_in (table rows.now dot) kind }
{
    match rows.get(dot) {
        Some(row) => match kind {
            Kind::Code => row.unpack().redeemed.is_some(),
            Kind::Access => false,
            Kind::Refresh => row.unpack().rotated.is_some(),
        },
        None => false,
    }
}

/// Returns whether the token of a kind at a dot is marked.
pub(crate) fn marked_at(rows: &DotMap<PackedRow>, dot: Dot, kind: Kind) -> bool
    ensures { result ≡ marked_in (table rows.now dot) kind }
{
    match rows.get(dot) {
        Some(row) => match kind {
            Kind::Code => row.unpack().marked_code,
            Kind::Access => row.unpack().marked_access,
            Kind::Refresh => row.unpack().marked_refresh,
        },
        None => false,
    }
}

/// Returns whether the code or refresh token of the link at a dot is marked, or used twice.
pub(crate) fn is_bad(rows: &DotMap<PackedRow>, at: Dot) -> bool
    ensures { result ≡ bad_in (table rows.now at) }
{
    match rows.get(at) {
        Some(row) => {
            let row = row.unpack();
            match row.link {
                Some(Link::Code) => row.marked_code || row.redeemed.is_often(),
                Some(_) => row.marked_refresh || row.rotated.is_often(),
                None => false,
            }
        }
        None => false,
    }
}

/// Returns how many dots of a list have a code or refresh token that is marked, or used twice.
pub(crate) fn bad_among(rows: &DotMap<PackedRow>, list: &[Dot]) -> u64
    ensures { result ≡ bads (table rows.now) list.now }
{
    list.iter().filter(|at| is_bad(rows, **at)).count() as u64
}

/// Returns whether the link at a dot fits the link above it.
pub(crate) fn fits_below(rows: &DotMap<PackedRow>, dot: Dot, above: &Link) -> bool
    ensures { result ≡ fits_at (link_in (table rows.now dot)) above.now }
{
    match link_at(rows, dot) {
        Some(link) => fits(&link, above),
        None => false,
    }
}

/// Returns whether a link fits the link at a dot.
pub(crate) fn fits_above(rows: &DotMap<PackedRow>, link: &Link, above: Dot) -> bool
    ensures { result ≡ fits_over link.now (link_in (table rows.now above)) }
{
    match link_at(rows, above) {
        Some(above) => fits(link, &above),
        None => false,
    }
}
