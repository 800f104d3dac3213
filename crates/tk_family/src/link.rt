//! What a fact does in a family; the dot that it names; which link may be its parent.

ghost use Rattle.std.specs.Prelude.{◌≡◌};
ghost use Rattle.tk_family.specs.Families.{named_by, fits as is_fit};

use tk_handle::Dot;

/// What a fact does in a family. Any dot and any generation are allowed.
#[derive(Clone, Copy)]
pub enum Link {
    /// Issues a code (RFC 6749, 4.1.2).
    Code,
    /// Redeems the code at a dot, for an access token and a refresh token (RFC 6749, 4.1.3 and
    /// 4.1.4).
    Redeems(Dot),
    /// Rotates the refresh token at a dot, for an access token and the next refresh token (RFC
    /// 6749, 6). The generation counts the rotations since the redemption, 1 at the first; 0 to
    /// 65,535.
    Rotates { parent: Dot, generation: u16 },
}

// Returns the dot that a link names: of the code that it redeems, or of the refresh token that it
// rotates. Returns `None` for a code, which names no dot.
pub(crate) fn named(link: &Link) -> Option<Dot>
    ensures { result ≡ named_by link.now }
{
    match link {
        Link::Code => None,
        Link::Redeems(code) => Some(*code),
        Link::Rotates { parent, .. } => Some(*parent),
    }
}

// Returns whether a link fits the link at the dot that it names, which is then its parent (RFC
// 6749, 4.1 and 6). A redemption fits a code, a rotation of generation 1 fits a redemption, and any
// rotation fits a rotation of the generation below.
pub(crate) fn fits(link: &Link, above: &Link) -> bool
    ensures { result ≡ is_fit link.now above.now }
{
    match (link, above) {
        (Link::Redeems(_), Link::Code) => true,
        (Link::Rotates { generation, .. }, Link::Redeems(_)) => *generation == 1,
        (
            Link::Rotates { generation, .. },
            Link::Rotates {
                generation: before,
                ..
            },
        ) => u32::from(*generation) == u32::from(*before) + 1,
        _ => false,
    }
}
