//! Equality of dots and bytes.

ghost use Rattle.std.specs.Prelude.{◌≡◌};
ghost use Rattle.std.specs.Str.{bytes_eq};
ghost use Rattle.tk_ledger.specs.Bodies as spec;

use tk_handle::Dot;

// Returns whether two dots are equal.
pub(crate) fn same_dots(left: Dot, right: Dot) -> bool
    ensures { result ≡ spec.is_same_dot left right }
{
    left == right
}

// Returns whether two texts are equal.
pub(crate) fn same_bytes(left: &[u8], right: &[u8]) -> bool
    ensures { result ≡ bytes_eq left.now right.now }
{
    left == right
}

// Returns whether two digests are equal.
pub(crate) fn same_digests(left: &[u8; 32], right: &[u8; 32]) -> bool
    ensures { result ≡ bytes_eq left.now right.now }
{
    same_bytes(left, right)
}
