//! Whether items rise by dot.

ghost use Rattle.std.specs.Prelude.{◌≡◌, None};
ghost use Rattle.std.specs.Ordering.{is_lt};
ghost use Rattle.tk_handle.specs.Dot.{dot_cmp};
ghost use Rattle.tk_bundle.specs.Bundle.{ascends};

use crate::item::Item;
use tk_handle::Dot;

// Returns whether the items rise by dot, no two at one dot.
pub(crate) fn is_ascending(items: &[Item]) -> bool
    ensures { result ≡ ascends None items.now }
{
    let mut last: Option<Dot> = None;
    for item in items {
        let dot = item.dot();
        if let Some(before) = last {
            if !is_below(before, dot) {
                return false;
            }
        }
        last = Some(dot);
    }
    true
}

// Returns whether one dot is below another.
fn is_below(a: Dot, b: Dot) -> bool
    ensures { result ≡ is_lt (dot_cmp a b) }
{
    a.cmp(&b).is_lt()
}
