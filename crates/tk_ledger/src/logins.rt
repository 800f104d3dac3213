//! Logins: the login that a code began, and the revocation that ends it.

ghost use Rattle.std.specs.Prelude.{◌≡◌, false, IfSome, IsSome, Some};
ghost use Rattle.std.specs.FinMap as map;
ghost use Rattle.std.specs.Option.{option_copied};
ghost use Rattle.tk_handle.specs.declared.kind.Kind.TheVariants as kind;
ghost use Rattle.tk_fact.specs.Tokens.{shown_minted};
ghost use Rattle.tk_store.specs.StoreFields.{held_facts};
ghost use Rattle.tk_ledger.specs.Logins as spec;
ghost use Rattle.tk_ledger.specs.Tokens as tokens_of;
ghost use Rattle.tk_ledger.specs.Tokens.{is_dead};

use crate::ledger::Ledger;
use crate::login_view::LoginView;
use crate::looks::issued_at;
use tk_fact::{Body, CodeIssued, Fact, Minted, TokenRevoked};
use tk_family::{Steps, Top};
use tk_handle::{Dot, Kind, Moment, TokenId};

// Returns the code of the dot.
fn code_token(at: Dot) -> TokenId
    ensures { result ≡ spec.code_token at }
{
    TokenId {
        dot: at,
        kind: Kind::Code,
    }
}

// Returns the code as it was minted.
fn minted_code(code: &CodeIssued) -> Minted<'_>
    ensures { shown_minted result ≡ spec.minted_code code.now }
{
    Minted {
        digest: &code.digest,
        start: code.start,
        expiry: code.expiry,
        scope: &code.scope,
    }
}

// Returns the revocation, by the client, of the refresh token that the fact minted when it redeemed
// a code, if the fact redeemed one.
fn revocation_by(client: Dot, fact: &Fact) -> Option<TokenRevoked>
    ensures value { result ≡ spec.revocation_by client fact.now }
    ensures refresh { IfSome result (λ r. r.token.kind ≡ kind.Refresh) }
{
    match &fact.body {
        Body::CodeRedeemed(redemption) => Some(TokenRevoked {
            token: TokenId {
                dot: fact.dot,
                kind: Kind::Refresh,
            },
            digest: redemption.refresh.digest,
            client,
            by: None,
        }),
        _ => None,
    }
}

impl Ledger {
    // Returns whether the family of the code that was issued at the dot is dead.
    fn is_dead_at(&self, at: Dot) -> bool
        requires { IsSome (tokens_of.issued_at (map.get (held_facts self.now)) at) }
        ensures { result ≡ is_dead (held_facts self.now) at }
    {
        match self.top(at, &mut Steps::new()) {
            Top::Dead(_) => true,
            _ => false,
        }
    }

    // Returns the login that the code began which was issued at the dot.
    fn login_of<'a>(&'a self, now: Moment, at: Dot, code: &'a CodeIssued) -> LoginView<'a>
        requires { tokens_of.issued_at (map.get (held_facts self.now)) at ≡ Some code.now }
        ensures { result ≡ spec.login_of (held_facts self.now) now at code.now }
    {
        let dead = self.is_dead_at(at);
        let (token, minted) = (code_token(at), minted_code(code));
        LoginView {
            client: code.client,
            scope: &code.scope,
            start: code.start,
            family_end: code.family_end,
            state: self.state(now, &token, &minted, dead, code, &mut Steps::new()),
        }
    }

    // Returns the login that the code of the dot began, unless its family is over.
    pub(crate) fn login_at(&self, now: Moment, at: Dot) -> Option<LoginView<'_>>
        ensures { result ≡ spec.login_view (held_facts self.now) now at }
    {
        match issued_at(&self.store, at) {
            Some(code) => {
                if code.family_end.seconds() <= now.seconds() {
                    None
                } else {
                    Some(self.login_of(now, at, code))
                }
            }
            None => None,
        }
    }

    // Returns the fact that redeems the code which was issued at the dot. If the family is dead, it
    // may be any of several.
    fn redemption(&self, at: Dot) -> Option<&Fact>
        requires { IsSome (tokens_of.issued_at (map.get (held_facts self.now)) at) }
        ensures { is_dead (held_facts self.now) at ≡ false
            → option_copied result ≡ spec.redemption_of (held_facts self.now) at }
    {
        match self.index.forest.user(code_token(at)) {
            Some(place) => self.store.get(place),
            None => None,
        }
    }

    // Returns the revocation that ends the login of the code of the dot.
    pub(crate) fn ending_at(&self, at: Dot) -> Option<TokenRevoked>
        ensures value { is_dead (held_facts self.now) at ≡ false
            → result ≡ spec.ending_of (held_facts self.now) at }
        ensures refresh { IfSome result (λ r. r.token.kind ≡ kind.Refresh) }
    {
        match issued_at(&self.store, at) {
            Some(code) => match self.redemption(at) {
                Some(fact) => revocation_by(code.client, fact),
                None => None,
            },
            None => None,
        }
    }
}
