//! The state of a dot in its family, and whether a token is used, read from rows: nothing walks.

ghost use Rattle.std.specs.Prelude.{◌≡◌, ◌+◌, ◌^◌, ◌<◌, ◌≤◌, ◌↔◌, IsTrue};
ghost use Rattle.tk_family.specs.Families.{IsUsed};
ghost use Rattle.tk_family.specs.Kept.{IsForest};
ghost use Rattle.tk_family.specs.Laws.{passing};
ghost use Rattle.tk_family.specs.Rows.{table, links_of, marks_of};
ghost use Rattle.tk_family.specs.Tops.{IsTop};

use crate::look::{dead_at, seen_at, used_at};
use crate::packed::PackedRow;
use crate::steps::Steps;
use crate::top::Top;
use tk_dots::DotMap;
use tk_handle::{Dot, TokenId};

/// Returns where a dot is among families, by one look-up, or by two if the dot is under a code.
pub(crate) fn top_of(rows: &DotMap<PackedRow>, dot: Dot, steps: &mut Steps) -> Top
    requires { IsForest (table rows.now) }
    ensures top { IsTop (links_of (table rows.now))
        (passing (marks_of (table rows.now))) dot result }
    ensures at_least { steps.old + 1 < 2 ^ 64 → steps.old + 1 ≤ steps.new }
    ensures more { steps.old ≤ steps.new }
    ensures at_most { steps.new ≤ steps.old + 2 }
{
    steps.tick();
    match seen_at(rows, dot) {
        (None, _) => Top::Absent,
        (Some(_), None) => Top::Broken,
        (Some(_), Some(code)) => {
            steps.tick();
            if dead_at(rows, code) {
                Top::Dead(code)
            } else {
                Top::Code(code)
            }
        }
    }
}

/// Returns whether a link uses a token, by one look-up.
pub(crate) fn is_used(rows: &DotMap<PackedRow>, token: TokenId, steps: &mut Steps) -> bool
    requires { IsForest (table rows.now) }
    ensures used { IsTrue result ↔ IsUsed (links_of (table rows.now)) token }
    ensures first { steps.old + 1 < 2 ^ 64 → steps.new ≡ steps.old + 1 }
    ensures more { steps.old ≤ steps.new }
    ensures at_most { steps.new ≤ steps.old + 1 }
{
    steps.tick();
    used_at(rows, token.dot, token.kind)
}
