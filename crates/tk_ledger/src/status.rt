//! The status of a handle, and the standing of its token.

use std::marker::Model;
use tk_fact::{CodeIssued, Subject};
use tk_handle::{Dot, Moment};
use tk_scope::Scope;

/// The state of a token under a code: the first of these that holds, in this order (own).
#[derive(Clone, Copy, PartialEq, Eq)]
pub enum State {
    /// A code or refresh token of the family was used twice, its reuse was seen, or its client
    /// revoked the refresh token (RFC 6749, 4.1.2, 10.4 and 10.5); or the subject of the code
    /// signed out at its start or later (own).
    Dead,
    /// The client or the consent of the code is not live.
    Withdrawn,
    /// The family has ended.
    Over,
    /// A fact uses the code or refresh token.
    Used,
    /// The token has expired.
    Past,
    /// The access token was revoked by its client (RFC 7009, 2.1).
    Ended,
    /// None of the other states holds.
    Live,
}

ghost use Rattle.std.specs.Prelude.{◌≡◌};
ghost use Rattle.tk_ledger.specs.Status.{is_live};

impl State {
    /// Returns whether the state is `Live`.
    pub fn is_live(self) -> bool
        ensures { result ≡ is_live self }
    {
        match self {
            State::Dead
            | State::Withdrawn
            | State::Over
            | State::Used
            | State::Past
            | State::Ended => false,
            State::Live => true,
        }
    }
}

/// The standing of a token: what is known of a token under a code.
#[derive(Drop)]
pub struct Standing<'a> {
    /// The client that the code was issued to.
    pub client: Dot,
    /// The subject that consented.
    pub subject: &'a Subject,
    /// The code whose family the token is in.
    pub code: Dot,
    /// The fact that issued the code.
    pub issued: &'a CodeIssued,
    /// The scope of the token, from the fact that minted it.
    pub scope: &'a Scope,
    /// When the token starts, from the fact that minted it.
    pub start: Moment,
    /// When the token expires, from the fact that minted it.
    pub expiry: Moment,
    /// When the whole family ends.
    pub family_end: Moment,
    /// The number of rotations from the code to the token, from the fact that minted it; 0 to
    /// 10,000.
    pub generation: u16,
    /// The state of the token at the moment.
    pub state: State,
}

impl<'a> Model for Standing<'a> {
    ghost use Rattle.tk_ledger.specs.StandingFields.{StandingFields};

    ghost Value = { StandingFields };

    ghost view = { λ s. record {
      client = s.client;
      subject = s.subject.now;
      code = s.code;
      issued = s.issued.now;
      scope = s.scope.now;
      start = s.start;
      expiry = s.expiry;
      family_end = s.family_end;
      generation = s.generation;
      state = s.state;
    } };
}

/// The status of a handle (own).
#[derive(Drop)]
pub enum Status<'a> {
    /// There is no fact at the token's dot.
    Unseen,
    /// The fact at the token's dot mints no token of the handle's kind and digest.
    Wrong,
    /// The token is under no code: no chain of parents leads to one. The moment is the token's
    /// expiry.
    Broken(Moment),
    /// The token is under a code.
    Known(Standing<'a>),
}
