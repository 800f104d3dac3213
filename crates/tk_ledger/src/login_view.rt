//! The view of a login.

use crate::status::State;
use std::marker::Model;
use tk_handle::{Dot, Moment};
use tk_scope::Scope;

/// A login: what the code that began it was issued for, and its state at a moment (own).
#[derive(Drop)]
pub struct LoginView<'a> {
    /// The client that the code was issued to.
    pub client: Dot,
    /// The scope of the code.
    pub scope: &'a Scope,
    /// When the code was issued.
    pub start: Moment,
    /// When the family of the code ends.
    pub family_end: Moment,
    /// The state of the code. `Used` if the code was redeemed and tokens of its family may be
    /// active; `Live` or `Past` if the code was not redeemed; never `Over`.
    pub state: State,
}

impl<'a> Model for LoginView<'a> {
    ghost use Rattle.tk_ledger.specs.ViewFields.{LoginFields};

    ghost Value = { LoginFields };

    ghost view = { λ v. record {
      client = v.client;
      scope = v.scope.now;
      start = v.start;
      family_end = v.family_end;
      state = v.state;
    } };
}
