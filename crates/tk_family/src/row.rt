//! What a forest keeps at a dot.
//!
//! The children of a dot are here the dots whose links name it, whether or not they fit. The row of
//! the parent has one of them, the `first`. All others are in a set beside the rows (`children`).
//! A dot with one child has no entry there.
//!
//! ```text
//!      rows                       set of the other children
//!
//!     parent                      parent, kind of the used token, child 2
//!       | first                   parent, kind of the used token, child 3
//!       v
//!     child 1
//! ```

ghost use Rattle.std.specs.Prelude.{◌≡◌, Some};
ghost use Rattle.tk_family.specs.Rows.{is_some_use, is_often};
ghost use Rattle.tk_family.specs.Writes.{once_more, is_never, as_uses, or_dot};

use crate::link::Link;
use tk_handle::{Dot, Kind};

/// How many links use a token: none, one, or more.
#[derive(Clone, Copy)]
pub(crate) enum Uses {
    /// No link uses the token.
    Never,
    /// One link uses the token.
    Once,
    /// Two links or more use the token.
    Often,
}

impl Uses {
    /// Returns the count of a number of uses.
    pub(crate) fn of(count: usize) -> Uses
        ensures { result ≡ as_uses count }
    {
        match count {
            0 => Uses::Never,
            1 => Uses::Once,
            _ => Uses::Often,
        }
    }

    /// Returns the count with one use more.
    pub(crate) fn more(self) -> Uses
        ensures { result ≡ once_more self }
    {
        match self {
            Uses::Never => Uses::Once,
            Uses::Once => Uses::Often,
            Uses::Often => Uses::Often,
        }
    }

    /// Returns whether there is at least one use.
    pub(crate) fn is_some(self) -> bool
        ensures { result ≡ is_some_use self }
    {
        match self {
            Uses::Never => false,
            Uses::Once => true,
            Uses::Often => true,
        }
    }

    /// Returns whether there is no use.
    fn is_never(self) -> bool
        ensures { result ≡ is_never self }
    {
        match self {
            Uses::Never => true,
            Uses::Once => false,
            Uses::Often => false,
        }
    }

    /// Returns whether there are at least two uses.
    pub(crate) fn is_often(self) -> bool
        ensures { result ≡ is_often self }
    {
        match self {
            Uses::Never => false,
            Uses::Once => false,
            Uses::Often => true,
        }
    }
}

// Returns the first child, or `dot` if there is no first child.
fn or_dot(first: Option<Dot>, dot: Dot) -> Option<Dot>
    ensures { result ≡ or_dot first dot }
{
    match first {
        Some(first) => Some(first),
        None => Some(dot),
    }
}

/// What is kept at a dot: its link, marks and uses, and what follows from all links and marks.
#[derive(Clone, Copy)]
pub(crate) struct Row {
    /// The link that was put at the dot.
    pub link: Option<Link>,
    /// The code that the dot is under.
    pub code: Option<Dot>,
    /// At a code: how many dots of its family are bad, which means that their code or refresh token
    /// is marked, or used twice.
    pub bad: u64,
    /// Whether the code at the dot is marked.
    pub marked_code: bool,
    /// Whether the access token at the dot is marked.
    pub marked_access: bool,
    /// Whether the refresh token at the dot is marked.
    pub marked_refresh: bool,
    /// How many links redeem the code at the dot.
    pub redeemed: Uses,
    /// How many links rotate the refresh token at the dot.
    pub rotated: Uses,
    /// One child of the dot, if there is one. The other children are in a set beside the rows.
    pub first: Option<Dot>,
}

impl Row {
    ghost use Rattle.tk_family.specs.Writes.{blank, is_blank, with_code, with_count, with_put};
    ghost use Rattle.tk_family.specs.Writes.{with_redeemer, with_rotator, with_marked};
    ghost use Rattle.tk_family.specs.Writes.{without_code, with_users, without_link};
    ghost use Rattle.tk_family.specs.Writes.{without_mark};

    /// Returns a row that is blank but for the link at its dot, if there is one.
    pub(crate) fn new(link: Option<Link>) -> Row
        ensures { result ≡ record blank { link = link } }
    {
        Row {
            link,
            code: None,
            bad: 0,
            marked_code: false,
            marked_access: false,
            marked_refresh: false,
            redeemed: Uses::Never,
            rotated: Uses::Never,
            first: None,
        }
    }

    /// Returns whether the row is blank.
    pub(crate) fn is_blank(&self) -> bool
        ensures { result ≡ is_blank self.now }
    {
        self.link.is_none()
            && self.code.is_none()
            && self.bad == 0
            && !self.marked_code
            && !self.marked_access
            && !self.marked_refresh
            && self.redeemed.is_never()
            && self.rotated.is_never()
            && self.first.is_none()
    }

    /// Returns the row, under a code.
    pub(crate) fn with_code(&self, code: Dot) -> Row
        ensures { with_code (Some self.now) code ≡ Some result }
    {
        let mut row = *self;
        row.code = Some(code);
        row
    }

    /// Returns the row, as the row of a code whose family has `count` bad dots.
    pub(crate) fn with_count(&self, count: u64) -> Row
        ensures { with_count (Some self.now) count ≡ Some result }
    {
        let mut row = *self;
        row.bad = count;
        row
    }

    /// Returns the row with a link.
    pub(crate) fn with_link(&self, link: Link) -> Row
        ensures { with_put (Some self.now) link ≡ Some result }
    {
        let mut row = *self;
        row.link = Some(link);
        row
    }

    /// Returns the row, whose code the link at `dot` redeems too.
    pub(crate) fn redeemed_by(&self, dot: Dot) -> Row
        ensures { with_redeemer (Some self.now) dot ≡ Some result }
    {
        let mut row = *self;
        row.first = or_dot(row.first, dot);
        row.redeemed = row.redeemed.more();
        row
    }

    /// Returns the row, whose refresh token the link at `dot` rotates too.
    pub(crate) fn rotated_by(&self, dot: Dot) -> Row
        ensures { with_rotator (Some self.now) dot ≡ Some result }
    {
        let mut row = *self;
        row.first = or_dot(row.first, dot);
        row.rotated = row.rotated.more();
        row
    }

    /// Returns the row, with the token of a kind marked.
    pub(crate) fn marked_as(&self, kind: Kind) -> Row
        ensures { with_marked (Some self.now) kind ≡ Some result }
    {
        let mut row = *self;
        match kind {
            Kind::Code => row.marked_code = true,
            Kind::Access => row.marked_access = true,
            Kind::Refresh => row.marked_refresh = true,
        }
        row
    }

    /// Returns the row, under no code.
    pub(crate) fn without_code(&self) -> Row
        ensures { without_code (Some self.now) ≡ Some result }
    {
        let mut row = *self;
        row.code = None;
        row
    }

    /// Returns the row with a first child, or with none, and with the count of uses of the token of
    /// a kind.
    pub(crate) fn with_users(&self, first: Option<Dot>, kind: Kind, uses: Uses) -> Row
        ensures { with_users (Some self.now) first kind uses ≡ Some result }
    {
        let mut row = *self;
        row.first = first;
        match kind {
            Kind::Code => row.redeemed = uses,
            Kind::Access => {}
            Kind::Refresh => row.rotated = uses,
        }
        row
    }

    /// Returns the row without its link, what followed from the link, and its marks. The first
    /// child of the dot stays, and so do the counts of uses.
    pub(crate) fn without_link(&self) -> Row
        ensures { without_link (Some self.now) ≡ Some result }
    {
        let mut row = Row::new(None);
        row.first = self.first;
        row.redeemed = self.redeemed;
        row.rotated = self.rotated;
        row
    }

    /// Returns the row, with the token of a kind not marked.
    pub(crate) fn unmarked_as(&self, kind: Kind) -> Row
        ensures { without_mark (Some self.now) kind ≡ Some result }
    {
        let mut row = *self;
        match kind {
            Kind::Code => row.marked_code = false,
            Kind::Access => row.marked_access = false,
            Kind::Refresh => row.marked_refresh = false,
        }
        row
    }
}
