//! Where a dot is among families.

use tk_handle::Dot;

/// Where a dot is among families, by links and marks.
#[derive(Clone, Copy, PartialEq, Eq)]
pub enum Top {
    /// There is no link at the dot.
    Absent,
    /// There is a link at the dot, but no chain of fitting parents leads to a code.
    Broken,
    /// The dot is under this code, whose family is not dead.
    Code(Dot),
    /// The dot is under this code, whose family is dead.
    Dead(Dot),
}
