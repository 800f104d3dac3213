//! The page of a dot, and the place of a dot on its page.

ghost use Rattle.std.specs.Prelude.{◌≡◌, ◌≤◌, ◌<◌, ◌+◌, ◌-◌, ◌*◌, ◌%◌};
ghost use Rattle.tk_handle.specs.Ranges.{max_serial};
ghost use Rattle.tk_dots.specs.Pages.{dot_in, page_of, span};

use tk_handle::Dot;

// The number of dots of a page.
pub(crate) const SPAN: u64 = 64;

// Returns the page of a dot, as a dot: the region, and the number of the page, from 1.
pub(crate) fn page_of(dot: Dot) -> Dot
    ensures { result ≡ page_of dot }
{
    match Dot::new(dot.region(), dot.serial() / SPAN + 1) {
        Some(page) => page,
        None => unreachable!("the number of a page is a serial"),
    }
}

// Returns the place of a dot on its page, from 0.
pub(crate) fn place_of(dot: Dot) -> usize
    ensures value { result ≡ dot.serial % span }
    ensures within { result < span }
{
    (dot.serial() % SPAN) as usize
}

// Returns the dot at a place of a page. The place must be that of a dot: the serial is in range.
pub(crate) fn dot_at(page: Dot, at: usize) -> Dot
    requires low { 0 < (page.serial - 1) * span + at }
    requires high { (page.serial - 1) * span + at ≤ max_serial }
    ensures { result ≡ dot_in page at }
{
    match Dot::new(page.region(), (page.serial() - 1) * SPAN + at as u64) {
        Some(dot) => dot,
        None => unreachable!("the serial is in range"),
    }
}
