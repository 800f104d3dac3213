//! The children of dots, but for the first child of each dot, in a set: an entry for each further
//! use of a token.

use tk_handle::Dot;

/// A child of a dot: the parent, the number of the kind of the token that the child's link uses,
/// and the child. Children that use one token are neighbours, in the order of their dots.
#[derive(Clone, Copy, PartialEq, Eq, PartialOrd, Ord)]
pub(crate) struct Child {
    parent: Dot,
    kind: u8,
    child: Dot,
}

ghost use Rattle.std.specs.Prelude.{◌≡◌, OnOk, OnErr, true, false, if◌then◌else◌, take, length};
ghost use Rattle.std.specs.BTreeSet.{IsOrdered};
ghost use Rattle.tk_handle.specs.Dot.{IsDot, least_dot, greatest_dot};
ghost use Rattle.tk_handle.specs.declared.dot.Dot.{Dot as the_dot};
ghost use Rattle.tk_handle.specs.declared.token_id.TokenId.{TokenId as the_token};
ghost use Rattle.tk_family.specs.Children.{child_cmp, child_key, is_child};
ghost use Rattle.tk_family.specs.Children.{others_in, users_in, first_user, TakesUser, Promotes};
ghost use Rattle.tk_family.specs.Families.{used_by};
ghost use Rattle.tk_family.specs.Uses.{used_kind};

use crate::link::Link;
use std::alloc::AllocError;
use std::collections::BTreeSet;
use std::ops::Bound;
use tk_handle::{Kind, TokenId};

/// Returns the token that a link uses, if the link uses one.
pub(crate) fn used(link: &Link) -> Option<TokenId>
    ensures { result ≡ used_by link.now }
{
    match link {
        Link::Code => None,
        Link::Redeems(code) => Some(TokenId {
            dot: *code,
            kind: Kind::Code,
        }),
        Link::Rotates { parent, .. } => Some(TokenId {
            dot: *parent,
            kind: Kind::Refresh,
        }),
    }
}

/// Returns the kind of the token that a link uses. Codes use no token.
pub(crate) fn used_kind(link: &Link) -> Kind
    ensures { result ≡ used_kind link.now }
{
    match link {
        Link::Code => Kind::Access,
        Link::Redeems(_) => Kind::Code,
        Link::Rotates { .. } => Kind::Refresh,
    }
}

// Returns the entry of a child whose link uses a token.
fn key(token: &TokenId, child: Dot) -> Child
    ensures { result ≡ child_key token.now child }
{
    Child {
        parent: token.dot,
        kind: token.kind.number(),
        child,
    }
}

// Returns the least and the greatest entry that a child which uses the token can have.
pub(crate) fn span(token: &TokenId) -> (Child, Child)
    ensures first { result.0 ≡ child_key token.now least_dot }
    ensures last { result.1 ≡ child_key token.now greatest_dot }
{
    (key(token, Dot::least()), key(token, Dot::greatest()))
}

impl Child {
    /// Returns the dot of the child.
    pub(crate) fn dot(&self) -> Dot
        ensures { result ≡ self.now.child }
    {
        self.child
    }
}

/// Adds a child whose link uses the token.
pub(crate) fn list_child(
    others: &mut BTreeSet<Child>,
    token: &TokenId,
    child: Dot,
) -> Result<(), AllocError>
    ensures ok { OnOk result ((k : the_token) (e : the_dot) → others_in others.new k e
        ≡ (if is_child token.now child k e then true else others_in others.old k e)) }
    ensures err { OnErr result ((k : the_token) (e : the_dot)
        → others_in others.new k e ≡ others_in others.old k e) }
{
    others.insert(key(token, child))?;
    Ok(())
}

/// Removes a child whose link uses the token.
pub(crate) fn drop_child(others: &mut BTreeSet<Child>, token: &TokenId, child: Dot)
    ensures { (k : the_token) (e : the_dot) → others_in others.new k e
        ≡ (if is_child token.now child k e then false else others_in others.old k e) }
{
    others.remove(&key(token, child));
}

/// Returns the child with the lowest dot whose link uses the token.
pub(crate) fn first_user(others: &BTreeSet<Child>, token: &TokenId) -> Option<Dot>
    ensures { result ≡ first_user (users_in others.now token.now) }
{
    let (first, last) = span(token);
    let mut users = others.range((Bound::Included(first), Bound::Included(last)));
    match users.next() {
        Some(user) => Some(user.child),
        None => None,
    }
}

/// Returns how many children use the token, but at most 2.
pub(crate) fn users_up_to_two(others: &BTreeSet<Child>, token: &TokenId) -> usize
    ensures count { result ≡ length (take 2 (users_in others.now token.now)) }
    ensures ordered { IsOrdered child_cmp others.now }
{
    let (first, last) = span(token);
    let mut users = others.range((Bound::Included(first), Bound::Included(last)));
    match users.next() {
        None => 0,
        Some(_) => match users.next() {
            None => 1,
            Some(_) => 2,
        },
    }
}

// Takes a child whose link uses the token out of the set, if there is one, and returns the child.
fn take_user(others: &mut BTreeSet<Child>, token: &TokenId) -> Option<Dot>
    requires { (e : the_dot) → others_in others.old token.now e ≡ true → IsDot e }
    ensures { TakesUser (others_in others.old) (others_in others.new) token.now result }
{
    let user = first_user(others, token);
    if let Some(child) = user {
        drop_child(others, token, child);
    }
    user
}

/// Takes a child of the dot out of the set, if there is one, and returns the child.
pub(crate) fn promote(others: &mut BTreeSet<Child>, parent: Dot) -> Option<Dot>
    requires { (k : the_token) (e : the_dot) → others_in others.old k e ≡ true → IsDot e }
    ensures { Promotes (others_in others.old) (others_in others.new) parent result }
{
    let code = TokenId {
        dot: parent,
        kind: Kind::Code,
    };
    let refresh = TokenId {
        dot: parent,
        kind: Kind::Refresh,
    };
    match take_user(others, &code) {
        Some(child) => Some(child),
        None => take_user(others, &refresh),
    }
}
