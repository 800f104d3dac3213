//! The view of a consent.

use std::marker::Model;
use tk_fact::Subject;
use tk_handle::Dot;
use tk_scope::Scope;

/// A consent as it was given, and whether it is live (RFC 6749, 4.1).
#[derive(Drop)]
pub struct ConsentView<'a> {
    /// The client that has the consent.
    pub client: Dot,
    /// The subject that gave the consent.
    pub subject: &'a Subject,
    /// The scope that the client may have.
    pub scope: &'a Scope,
    /// Whether no fact withdraws the consent.
    pub live: bool,
}

impl<'a> Model for ConsentView<'a> {
    ghost use Rattle.tk_ledger.specs.ViewFields.{ConsentFields};

    ghost Value = { ConsentFields };

    ghost view = { λ v. record {
      client = v.client;
      subject = v.subject.now;
      scope = v.scope.now;
      live = v.live;
    } };
}
