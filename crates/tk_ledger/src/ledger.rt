//! The ledger: a set of facts, and look-ups of clients, consents and tokens.

use crate::index::Index;
use std::alloc::Global;
use std::marker::Model;
use tk_store::FactStore;

/// A store of facts, with look-ups of clients, consents and tokens. Contracts see the store alone:
/// what is known of each dot, and the horizon.
///
/// With n known dots, a look-up costs O(log n). `client`, `consent`, `revoked`, `signed_out` and
/// `status` make a fixed number of look-ups, as `login` and `ending` do. `last_turn` and
/// `has_secret` make one look-up, `accepts` at most three. `consent_for` passes over the keys of
/// the subject's live consents up to the consent that it returns, and makes one look-up for each of
/// them that is to the client. None of these allocates memory. `add` costs O(log n) for each of
/// these:
///
/// - each dot that the fact brings under a code, and each link that names such a dot
/// - each code of the subject that the fact stops and that no sign-out before it stopped, if the
///   fact is a sign-out
///
/// A sign-out that is later than those before it also passes over one key for each code of the
/// subject that is held, without a look-up.
#[derive(Drop)]
pub struct Ledger {
    pub(crate) store: FactStore,
    pub(crate) index: Index,
    // The allocator for copies that a join makes.
    pub(crate) alloc: Global,
}

impl Model for Ledger {
    ghost use Rattle.tk_store.specs.StoreFields.{StoreFields, coded_store, held_facts};
    ghost use Rattle.tk_ledger.specs.Index.{IsIndexed};

    ghost Value = { StoreFields };

    ghost coded = { coded_store };

    ghost view = { λ l. l.store };

    ghost invariant = { λ l. IsIndexed (held_facts l.store) l.index };
}

ghost use Rattle.std.specs.Prelude.{◌≡◌, ◌≢◌, ◌↔◌, ◌+◌, ◌^◌, ◌<◌, ◌≤◌, ℕ, None, IfSome};
ghost use Rattle.std.specs.Prelude.{IsTrue, false};
ghost use Rattle.std.specs.FinMap as map;
ghost use Rattle.tk_handle.specs.declared.kind.Kind.TheVariants as kind;
ghost use Rattle.tk_fact.specs.Check.{refusal_of};
ghost use Rattle.tk_store.specs.Adding.{AddsTo};
ghost use Rattle.tk_store.specs.StoreFields.{empty_store, held_facts};
ghost use Rattle.tk_ledger.specs.ClientWalk.{WalksClients};
ghost use Rattle.tk_ledger.specs.Clients as clients_of;
ghost use Rattle.tk_ledger.specs.Ends.{FamilyEnds};
ghost use Rattle.tk_ledger.specs.Index.{IsIndexed};
ghost use Rattle.tk_ledger.specs.Logins.{ending_of, login_view};
ghost use Rattle.tk_ledger.specs.Secrets as secrets_of;
ghost use Rattle.tk_ledger.specs.SignOuts.{is_signed_out, reaches, IsLastSignOut};
ghost use Rattle.tk_ledger.specs.Standings.{IsSound};
ghost use Rattle.tk_ledger.specs.Status.{
  status_here,
  IsActive,
  IsKnown,
  IsKnownToken,
  IsLive,
  SaysHere,
};
ghost use Rattle.tk_ledger.specs.SubjectWalk.{consents_of, logins_of, Walks};
ghost use Rattle.tk_ledger.specs.Tokens.{is_dead, is_revoked, IsEnded, IsRevoked};
ghost use Rattle.tk_ledger.specs.Views.{client_view, consent_view};

use crate::change::change_of;
use crate::client_view::ClientView;
use crate::compare::same_digests;
use crate::consent_view::ConsentView;
use crate::index::follow;
use crate::login_view::LoginView;
use crate::sign_outs::last_sign_out;
use crate::status::Status;
use crate::{revocations, secrets};
use tk_fact::{Fact, Subject, TokenRevoked};
use tk_family::Steps;
use tk_handle::{Dot, Handle, Moment, TokenId};
use tk_scope::Scope;
use tk_store::{AddError, Added};

impl Ledger {
    /// Returns a ledger without facts.
    pub fn new(alloc: Global) -> Ledger
        ensures { result ≡ empty_store }
    {
        Ledger {
            store: FactStore::new(alloc),
            index: Index::new(alloc),
            alloc,
        }
    }

    /// Adds a fact that passes its check (`Fact::check`).
    ///
    /// A fact whose dot is skipped is dropped if it may be skipped, and refused if it lasts. If the
    /// fact is refused or memory runs out, the ledger is unchanged and the fact is dropped.
    pub fn add(&mut self, fact: Fact) -> Result<Added, AddError>
        requires { refusal_of fact.1 ≡ None }
        ensures { AddsTo self.old fact result self.new }
    {
        if self.store.slot(fact.dot).is_some() {
            return self.store.add(fact);
        }
        add_new(&mut self.store, &mut self.index, fact)
    }

    /// Returns the store of the facts and marks.
    pub fn store(&self) -> &FactStore
        ensures { result.now ≡ self.now }
    {
        &self.store
    }

    /// Returns the client that was added at the dot, retired or not (RFC 6749, 2).
    pub fn client(&self, dot: Dot) -> Option<ClientView<'_>>
        ensures { result ≡ client_view (held_facts self.now) dot }
    {
        match self.added_at(dot) {
            Some(client) => Some(ClientView {
                client_kind: &client.client_kind,
                scope: &client.scope,
                redirects: &client.redirects,
                lives: client.lives,
                live: self.has_live_client(dot),
            }),
            None => None,
        }
    }

    /// Returns the client with the lowest dot above `after`, or the lowest of all if `after` is
    /// `None`, retired or not, with that dot (own). `None` if no client is above.
    ///
    /// A walk that goes on from each dot that it got sees each client once, and each step costs one
    /// look-up more than a client's, beside the retirements in between of clients that are unknown.
    pub fn next_client(&self, after: Option<Dot>) -> Option<(Dot, ClientView<'_>)>
        ensures { WalksClients (held_facts self.now) after result }
    {
        self.first_client(after)
    }

    /// Returns the consent that was given at the dot, withdrawn or not (RFC 6749, 4.1).
    pub fn consent(&self, dot: Dot) -> Option<ConsentView<'_>>
        ensures { result ≡ consent_view (held_facts self.now) dot }
    {
        match self.given_at(dot) {
            Some(consent) => Some(ConsentView {
                client: consent.client,
                subject: &consent.subject,
                scope: &consent.scope,
                live: !self.has_withdrawn(dot),
            }),
            None => None,
        }
    }

    /// Returns the lowest dot of a live consent of this subject to this client that covers the
    /// scope.
    pub fn consent_for(&self, client: Dot, subject: &Subject, scope: &Scope) -> Option<Dot>
        ensures value { result ≡ clients_of.consent_for (held_facts self.now) client subject.now
            scope.now }
        ensures least { clients_of.IsLeastConsent (map.get (held_facts self.now)) client subject.now
            scope.now result }
    {
        self.first_consent(client, subject, scope)
    }

    /// Returns the live consent of the subject with the lowest dot above `after`, or the lowest of
    /// all if `after` is `None`, with that dot (own). `None` if no such consent is above.
    ///
    /// A walk that goes on from each dot that it got sees each live consent of the subject once. A
    /// step costs one look-up more than `consent`.
    pub fn next_consent(
        &self,
        subject: &Subject,
        after: Option<Dot>,
    ) -> Option<(Dot, ConsentView<'_>)>
        ensures { Walks (consents_of (held_facts self.now) subject.now) after result }
    {
        self.consent_after(subject, after)
    }

    /// Returns the login that the code of the dot began (own), unless its family is over at the
    /// moment. `None` if no code was issued there. Makes a fixed number of look-ups.
    pub fn login(&self, now: Moment, code: Dot) -> Option<LoginView<'_>>
        ensures { result ≡ login_view (held_facts self.now) now code }
    {
        self.login_at(now, code)
    }

    /// Returns the login of the subject whose code has the lowest dot above `after`, or the lowest
    /// of all if `after` is `None`, with that dot (own). `None` if no login is above. Logins whose
    /// family is over at the moment are passed over.
    ///
    /// A walk that goes on from each dot that it got sees each login of the subject once. A step
    /// costs two look-ups more than `login`, beside two for each code that is passed over.
    pub fn next_login(
        &self,
        subject: &Subject,
        now: Moment,
        after: Option<Dot>,
    ) -> Option<(Dot, LoginView<'_>)>
        ensures { Walks (logins_of (held_facts self.now) now subject.now) after result }
    {
        self.login_after(subject, now, after)
    }

    /// Returns the revocation that ends the login of the code at the dot: that of the refresh token
    /// which the code was redeemed for, by the code's client (RFC 7009, 2.1). `None` if no code was
    /// issued there, or the code was not redeemed. Of a dead family it may be another revocation,
    /// or `None`: nothing is left to end.
    pub fn ending(&self, code: Dot) -> Option<TokenRevoked>
        ensures value { is_dead (held_facts self.now) code ≡ false
            → result ≡ ending_of (held_facts self.now) code }
        ensures refresh { IfSome result (λ r. r.token.kind ≡ kind.Refresh) }
    {
        self.ending_at(code)
    }

    /// Returns whether a fact is that the client revoked the token with the digest (RFC 7009, 2.1).
    ///
    /// The digest is SHA-256 of a handle's bytes. Whether the token was minted, and for that
    /// client, does not count.
    pub fn revoked(&self, token: &TokenId, digest: &[u8; 32], client: Dot) -> bool
        ensures value { result ≡ is_revoked (held_facts self.now) token.now digest.now client }
        ensures meaning { IsTrue result ↔ IsRevoked (map.get (held_facts self.now)) token.now
            digest.now client }
    {
        revocations::is_revoked(&self.index.revocations, token, digest, client)
    }

    /// Returns the greatest moment at which the subject signed out everywhere, or `None` if no
    /// sign-out of the subject is held (own).
    pub fn signed_out(&self, subject: &Subject) -> Option<Moment>
        ensures value { (moment : ℕ) → is_signed_out (held_facts self.now) subject.now moment
            ≡ reaches result moment }
        ensures meaning { IsLastSignOut (map.get (held_facts self.now)) subject.now result }
    {
        last_sign_out(&self.store, &self.index.outs, None, subject)
    }

    /// Returns the last turn at which a secret was set for the client, or 0 if no change of the
    /// client's secret is held (own).
    pub fn last_turn(&self, client: Dot) -> u64
        ensures { result ≡ secrets_of.last_turn (held_facts self.now) client }
    {
        secrets::last_turn(&self.index.secrets, client)
    }

    /// Returns whether the client has the secret with the digest at the turn (own): the secret was
    /// set then, or, at turn 0, is the first.
    ///
    /// A digest is SHA-256 of a secret. `first` is the digest of the secret with which the client
    /// was registered (RFC 6749, 2.3.1).
    pub fn has_secret(&self, client: Dot, first: &[u8; 32], turn: u64, digest: &[u8; 32]) -> bool
        ensures { result ≡ secrets_of.is_secret_at (held_facts self.now) client first.now turn
            digest.now }
    {
        (turn == 0 && same_digests(first, digest)) || self.was_set(client, turn, digest)
    }

    /// Returns whether the secret with the digest is good: the client has it at its last turn, or
    /// at the turn before (own; RFC 6749, 2.3.1).
    ///
    /// `first` is the digest of the secret with which the client was registered.
    pub fn accepts(&self, client: Dot, first: &[u8; 32], digest: &[u8; 32]) -> bool
        ensures { result ≡ secrets_of.is_good_secret (held_facts self.now) client first.now
            digest.now }
    {
        let last = self.last_turn(client);
        self.has_secret(client, first, last, digest)
            || (last > 0 && self.has_secret(client, first, last - 1, digest))
    }

    /// Returns the status of a handle's token at the moment. Makes one to eight look-ups, and adds
    /// their number to `steps`. At a skipped dot the status is `Wrong`.
    ///
    /// At its expiry a token is past, and at its end a family is over.
    pub fn status(&self, now: Moment, handle: &Handle, steps: &mut Steps) -> Status<'_>
        ensures value { result ≡ status_here self.now now handle.now }

        // Each status is true of the handle. `Known` is returned exactly for the tokens that are
        // minted, with the handle's digest, and under a code.
        ensures says { SaysHere self.now handle.now result }
        ensures known { IsKnown result ↔ IsKnownToken (map.get (held_facts self.now)) handle.now }

        // The state `Live` is that of exactly the active access and refresh tokens (RFC 7662, 2.2).
        ensures live { handle.now.id.kind ≢ kind.Code
            → (IsLive result ↔ IsActive (map.get (held_facts self.now)) now handle.now) }

        // A code is never active.
        ensures code { handle.now.id.kind ≡ kind.Code
            → ¬ IsActive (map.get (held_facts self.now)) now handle.now }

        // A token that its client revoked (RFC 7009, 2.1), or of a family with a bad grant (RFC
        // 6749, 4.1.2, 10.4 and 10.5), is not active.
        ensures revoked { IsEnded (map.get (held_facts self.now)) handle.now.id
            → ¬ IsActive (map.get (held_facts self.now)) now handle.now }
        ensures family { FamilyEnds (map.get (held_facts self.now)) now handle.now }

        // The subject of a standing keeps the rules of names, and the family of a live token ends
        // after the moment.
        ensures sound { IsSound now result }

        // The number of look-ups is 1 to 8 at every generation, however many facts are held. Near
        // its greatest value, `steps` may stay.
        ensures at_least { steps.old + 8 < 2 ^ 64 → steps.old + 1 ≤ steps.new }
        ensures at_most { steps.new ≤ steps.old + 8 }
    {
        self.store.known();
        self.of_handle(now, handle, steps)
    }
}

// Adds a fact at an unknown dot, to the store first, then to the tables. If memory runs out at the
// tables, the fact is taken out of the store again.
fn add_new(store: &mut FactStore, index: &mut Index, fact: Fact) -> Result<Added, AddError>
    requires free { map.get store.old.slots fact.0 ≡ None }
    requires passes { refusal_of fact.1 ≡ None }
    requires indexed { IsIndexed (held_facts store.old) index.old }
    ensures adds { AddsTo store.old fact result store.new }
    ensures indexed { IsIndexed (held_facts store.new) index.new }
{
    let dot = fact.dot;
    let change = change_of(&fact.body);
    match store.add(fact) {
        Ok(added) => match follow(store, index, dot, &change) {
            Ok(()) => Ok(added),
            Err(_) => {
                drop(store.take_back(dot));
                Err(AddError::Memory)
            }
        },
        Err(error) => Err(error),
    }
}
