//! Reads the fields of a line: `fields` splits them, `region`, `moment` and `cursor` read one.

ghost use Rattle.std.specs.Prelude.{◌≡◌, IfOk, IfSome, IfNone, map};
ghost use Rattle.std.specs.List.{slice_split};
ghost use Rattle.tk_world.specs.Fields.{is_space, region_in, moment_in, IsCursorText};
ghost use Rattle.tk_world.specs.Fields.{IsNoCursorText};

use std::alloc::{AllocError, Global};
use tk_format::read_decimal;
use tk_handle::{Dot, Moment, RegionNumber};

/// Splits a line at each space. Two adjacent spaces have an empty field between them.
pub(crate) fn fields<'a>(alloc: Global, line: &'a str) -> Result<Vec<&'a str>, AllocError>
    ensures { IfOk result (λ fields. map (λ field. field.now) fields.items
        ≡ slice_split is_space line.now) }
{
    line.split(' ').collect(alloc)
}

/// Reads the number of a region, 1 to 65,535.
pub(crate) fn region(text: &str) -> Option<RegionNumber>
    ensures { result ≡ region_in text.now }
{
    RegionNumber::new(u16::try_from(read_decimal(text.as_bytes())?).ok()?)
}

/// Reads a moment in seconds, 0 to 253,402,300,799.
pub(crate) fn moment(text: &str) -> Option<Moment>
    ensures { result ≡ moment_in text.now }
{
    Moment::new(read_decimal(text.as_bytes())?)
}

/// Reads a cursor: `-` for the beginning, or the text `R:S` of the dot above which a page begins.
pub(crate) fn cursor(text: &str) -> Option<Option<Dot>>
    ensures found { IfSome result (IsCursorText text.now) }
    ensures none { IfNone result (IsNoCursorText text.now) }
{
    if text == "-" {
        return Some(None);
    }
    match Dot::read_text(text.as_bytes()) {
        Some(dot) => Some(Some(dot)),
        None => None,
    }
}
