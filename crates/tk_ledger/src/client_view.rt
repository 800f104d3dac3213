//! The view of a client.

use std::marker::Model;
use tk_fact::{ClientKind, ClientLives};
use tk_match::Redirects;
use tk_scope::Scope;

/// A client as it was added, and whether it is live (RFC 6749, 2).
#[derive(Drop)]
pub struct ClientView<'a> {
    /// The client's kind, with the digest of its secret if it has one.
    pub client_kind: &'a ClientKind,
    /// The greatest scope that the client may request.
    pub scope: &'a Scope,
    /// The URIs that the client's users may be sent back to (RFC 6749, 3.1.2).
    pub redirects: &'a Redirects,
    /// How long what the client gets lives at most, if it was registered with such lives.
    pub lives: Option<ClientLives>,
    /// Whether no fact retires the client.
    pub live: bool,
}

impl<'a> Model for ClientView<'a> {
    ghost use Rattle.tk_ledger.specs.ViewFields.{ClientFields};

    ghost Value = { ClientFields };

    ghost view = { λ v. record {
      client_kind = v.client_kind.now;
      scope = v.scope.now;
      redirects = v.redirects.now;
      lives = v.lives;
      live = v.live;
    } };
}
