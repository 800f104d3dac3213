//! Clients: the client that was added at a dot, whether it was retired, and a walk over clients.

ghost use Rattle.std.specs.Prelude.{◌≡◌};
ghost use Rattle.std.specs.Option.{option_copied};
ghost use Rattle.tk_store.specs.StoreFields.{held_facts};
ghost use Rattle.tk_ledger.specs.ClientWalk.{WalksClients};
ghost use Rattle.tk_ledger.specs.Clients as spec;

use crate::client_rows;
use crate::client_view::ClientView;
use crate::ledger::Ledger;
use std::ops::Bound;
use tk_fact::{Body, ClientAdded};
use tk_handle::Dot;

// Returns the client that the body adds, if the body adds one.
fn added_in(body: &Body) -> Option<&ClientAdded>
    ensures { option_copied result ≡ spec.added_in body.now }
{
    match body {
        Body::ClientAdded(client) => Some(client),
        _ => None,
    }
}

impl Ledger {
    // Returns the client that was added at the dot.
    pub(crate) fn added_at(&self, at: Dot) -> Option<&ClientAdded>
        ensures { option_copied result ≡ spec.client_at (held_facts self.now) at }
    {
        match self.store.get(at) {
            Some(fact) => added_in(&fact.body),
            None => None,
        }
    }

    // Returns whether a client was added at the dot and no retirement of it is held, by one
    // look-up.
    pub(crate) fn has_live_client(&self, client: Dot) -> bool
        ensures { result ≡ spec.is_live_client (held_facts self.now) client }
    {
        client_rows::is_live(&self.index.clients, client)
    }

    // Returns the first client above the dot, or above none, and its view.
    pub(crate) fn first_client(&self, after: Option<Dot>) -> Option<(Dot, ClientView<'_>)>
        ensures { WalksClients (held_facts self.now) after result }
    {
        let start = match after {
            Some(dot) => Bound::Excluded(dot),
            None => Bound::Unbounded,
        };
        for (client, _) in self.index.clients.range((start, Bound::Unbounded)) {
            if let Some(view) = self.client(*client) {
                return Some((*client, view));
            }
        }
        None
    }
}
