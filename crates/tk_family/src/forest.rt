//! Families, kept so that look-ups are fast.
//!
//! A forest has a row for each dot. `IsForest` of `specs/Kept.antt` states what the rows keep:
//!
//! - each dot under a code has the name of that code;
//! - each code has the number of the bad dots of its family. A dot is bad if its code or refresh
//!   token is marked, or used twice. The family is dead if the number is not 0;
//! - each token has the number of links that use it: none, one, or more.
//!
//! The dots whose links name a dot hang below that dot, whether or not they fit, also if it has no
//! link yet. One of them is in the row of that dot. The others are in a set beside the rows: an
//! entry for each further use of a token. `Hangs` of `specs/Kept.antt` states what both keep.
//!
//! A code, its redemption, and two uses of the redemption's refresh token, put in this order:
//!
//! ```text
//! dot   link               code   first   bad   redeemed   rotated
//! 1:3   Code               1:3    1:4     1     Once       Never
//! 1:4   Redeems 1:3        1:3    1:5     0     Never      Often
//! 1:5   Rotates 1:4, 1     1:3    none    0     Never      Never
//! 1:6   Rotates 1:4, 1     1:3    none    0     Never      Never
//! ```
//!
//! The set beside the rows has 1:6 below 1:4. The dot 1:4 is bad, so its code counts one bad dot.

ghost use Rattle.tk_handle.specs.declared.dot.Dot.{Dot as the_dot};
ghost use Rattle.tk_handle.specs.declared.token_id.TokenId.{TokenId as the_token};

use crate::children::Child;
use crate::find::{is_used, top_of};
use crate::link::Link;
use crate::mark::mark_within;
use crate::packed::PackedRow;
use crate::put::put_within;
use crate::steps::Steps;
use crate::take::{take_at, unmark_token};
use crate::top::Top;
use crate::user::user_of;
use std::alloc::{AllocError, Global};
use std::collections::BTreeSet;
use std::marker::Model;
use tk_dots::DotMap;
use tk_handle::{Dot, TokenId};

/// Links and marks, and what follows from them, whatever the order in which they were put.
///
/// Contracts see a finite map from dots to links, and a finite set of marked tokens.
///
/// No look-up walks: each dot keeps the code that it is under, and each code keeps how many dots of
/// its family are bad. With n links and marks, `mark`, `unmark`, `top`, `used` and `user` cost
/// O(log n).
/// `put` costs O(log n) for each dot that it brings under a code and for each link that names such
/// a dot. `take` costs O(log n) for each dot that hangs below the taken one.
#[derive(Drop)]
pub struct Forest {
    alloc: Global,
    rows: DotMap<PackedRow>,
    // The children of dots, but for the first of each, which is in the row of the dot.
    others: BTreeSet<Child>,
    // A list with room for the dots of all rows, so that listing what hangs below a dot takes no
    // memory. Its dots are of no use between calls.
    room: Vec<Dot>,
}

impl Model for Forest {
    ghost use Rattle.tk_family.specs.ForestFacts.{ForestFacts, coded_forest};

    ghost Value = { ForestFacts };

    ghost coded = { coded_forest };

    ghost use Rattle.std.specs.Prelude.{◌≤◌, vec_capacity};
    ghost use Rattle.std.specs.FinMap as map;
    ghost use Rattle.tk_family.specs.Kept.{IsForest, IsHung};
    ghost use Rattle.tk_family.specs.Rows.{table};
    ghost use Rattle.tk_family.specs.View.{seen};

    ghost view = { λ a. seen a.rows };

    ghost invariant = { λ a. IsForest (table a.rows) × IsHung (table a.rows) a.others
        × (map.len a.rows ≤ vec_capacity a.room) };
}

impl Forest {
    ghost use Rattle.std.specs.Prelude.{◌≡◌, ◌+◌, ◌^◌, ◌<◌, ◌≤◌, ◌↔◌, None, true, OnOk, OnErr};
    ghost use Rattle.std.specs.Prelude.{IfOk, IsOk, IsSome, IsTrue, IsSorted, if◌then◌else◌, false};
    ghost use Rattle.std.specs.Prelude.{Some, IfNone, IfSome};
    ghost use Rattle.std.specs.FinMap as map;
    ghost use Rattle.std.specs.FinSet as set;
    ghost use Rattle.std.specs.List.{IsDistinct};
    ghost use Rattle.tk_handle.specs.Dot.{dot_cmp};
    ghost use Rattle.tk_family.specs.Dots.{dot_eq, has};
    ghost use Rattle.tk_family.specs.Families.{IsUsed, use_of};
    ghost use Rattle.tk_family.specs.ForestFacts.{links_at, marks_at};
    ghost use Rattle.tk_family.specs.Tops.{IsTop, IsRaised};

    /// Returns a forest without links and marks.
    pub fn new(alloc: Global) -> Forest
        ensures links { result.links ≡ map.empty }
        ensures marks { result.marks ≡ set.empty }
    {
        Forest {
            alloc,
            rows: DotMap::new(alloc),
            others: BTreeSet::new(alloc),
            room: Vec::new(alloc),
        }
    }

    /// Puts a link at a dot that has none: the caller's store, which has a fact at each dot of a
    /// link, tells. Returns the dots that the link brings under a code, in order.
    ///
    /// Fails if memory runs out; the forest is unchanged then.
    pub fn put(&mut self, dot: Dot, link: Link) -> Result<Vec<Dot>, AllocError>
        requires { map.get self.old.links dot ≡ None }
        ensures links { OnOk result (self.new.links ≡ map.insert self.old.links dot link) }
        ensures marks { OnOk result (self.new.marks ≡ self.old.marks) }
        ensures raised { IfOk result
            (λ ys. (q : the_dot) → has ys.items q ≡ true
            → IsRaised (links_at self.old) (links_at self.new) q) }
        ensures all_raised { IfOk result
            (λ ys. (q : the_dot) → IsRaised (links_at self.old) (links_at self.new) q
            → has ys.items q ≡ true) }
        ensures distinct { IfOk result (λ ys. IsDistinct dot_eq ys.items) }
        ensures sorted { IfOk result (λ ys. IsSorted dot_cmp ys.items) }
        ensures err { OnErr result (self.new ≡ self.old) }
    {
        let (rows, others) = (&mut self.rows, &mut self.others);
        put_within(self.alloc, rows, others, &mut self.room, dot, &link)
    }

    /// Marks a token. The mark may be made before the token's link is put.
    ///
    /// Fails if memory runs out; the forest is unchanged then. If there is a link at the token's
    /// dot, no memory is taken.
    pub fn mark(&mut self, token: TokenId) -> Result<(), AllocError>
        ensures links { self.new.links ≡ self.old.links }
        ensures marks { OnOk result (self.new.marks ≡ set.insert self.old.marks token) }
        ensures present { IsSome (map.get self.old.links token.dot) → IsOk result }
        ensures err { OnErr result (self.new ≡ self.old) }
    {
        mark_within(&mut self.rows, &mut self.room, token)
    }

    /// Removes the link at a dot, the marks of the dot's tokens, and what followed from them. The
    /// dot has a link: the caller's store tells.
    ///
    /// What hung below the dot is under no code any more. A family that was dead only because of
    /// the link or the marks is alive again. Takes no memory.
    pub fn take(&mut self, dot: Dot)
        requires { IsSome (map.get self.old.links dot) }
        ensures links { self.new.links ≡ map.remove self.old.links dot }
        ensures marks { (k : the_token)
            → set.contains self.new.marks k ≡
            (if dot_eq dot k.dot then false else set.contains self.old.marks k) }
    {
        take_at(&mut self.rows, &mut self.others, &mut self.room, dot)
    }

    /// Removes the mark of a token, if the token has one. Takes no memory.
    ///
    /// A family that was dead only because of the mark is alive again.
    pub fn unmark(&mut self, token: TokenId)
        ensures links { self.new.links ≡ self.old.links }
        ensures marks { self.new.marks ≡ set.remove self.old.marks token }
    {
        unmark_token(&mut self.rows, token)
    }

    /// Gives memory back that was kept for links that have been removed since.
    pub fn shrink(&mut self)
        ensures { self.new ≡ self.old }
    {
        self.room.shrink_to(self.rows.len() as usize);
    }

    /// Returns where a dot is among families. Makes one or two look-ups, which are counted.
    pub fn top(&self, dot: Dot, steps: &mut Steps) -> Top
        ensures top { IsTop (links_at self.now) (marks_at self.now) dot result }
        ensures at_least { steps.old + 1 < 2 ^ 64 → steps.old + 1 ≤ steps.new }
        ensures more { steps.old ≤ steps.new }
        ensures at_most { steps.new ≤ steps.old + 2 }
    {
        top_of(&self.rows, dot, steps)
    }

    /// Returns whether a link uses a token. Makes one look-up, which is counted.
    pub fn used(&self, token: TokenId, steps: &mut Steps) -> bool
        ensures used { IsTrue result ↔ IsUsed (links_at self.now) token }
        ensures first { steps.old + 1 < 2 ^ 64 → steps.new ≡ steps.old + 1 }
        ensures more { steps.old ≤ steps.new }
        ensures at_most { steps.new ≤ steps.old + 1 }
    {
        is_used(&self.rows, token, steps)
    }

    /// Returns a dot whose link uses a token, if there is one. If several do, it may be any of
    /// them.
    pub fn user(&self, token: TokenId) -> Option<Dot>
        ensures some { IfSome result (λ d. use_of (links_at self.now d) ≡ Some token) }
        ensures none { IfNone result (¬ IsUsed (links_at self.now) token) }
    {
        user_of(&self.rows, &self.others, &token)
    }
}
