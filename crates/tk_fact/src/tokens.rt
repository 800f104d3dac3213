//! Which tokens a fact mints, and which it uses.

ghost use Rattle.std.specs.Prelude.{◌≡◌};
ghost use Rattle.std.specs.Option.{option_map};
ghost use Rattle.tk_fact.specs.Tokens.{shown_minted, anchor_of, minted_at, minted_of, uses_of};

use crate::body::Body;
use crate::fact::Fact;
use crate::minted_token::MintedToken;
use tk_handle::{Dot, Kind, Moment, TokenId};
use tk_scope::Scope;

/// A code or token that a fact mints.
#[derive(Clone, Copy)]
pub struct Minted<'a> {
    /// SHA-256 of the token's handle.
    pub digest: &'a [u8; 32],
    /// When the token's life starts.
    pub start: Moment,
    /// The token's expiry. From this moment on the token is past.
    pub expiry: Moment,
    /// The scope that the token grants, 1 to 32 scope-tokens (RFC 6749, 3.3).
    pub scope: &'a Scope,
}

// Returns an access or refresh token as `Minted`, with the start that its fact has.
fn minted_at(start: Moment, token: &MintedToken) -> Minted<'_>
    ensures { shown_minted result ≡ minted_at start token.now }
{
    Minted {
        digest: &token.digest,
        start,
        expiry: token.expiry,
        scope: &token.scope,
    }
}

impl Fact {
    /// Returns the token of the given kind that the fact mints, if any.
    pub fn minted(&self, kind: Kind) -> Option<Minted<'_>>
        ensures { option_map shown_minted result ≡ minted_of self.now.1 kind }
    {
        match (&self.body, kind) {
            (Body::CodeIssued(fact), Kind::Code) => Some(Minted {
                digest: &fact.digest,
                start: fact.start,
                expiry: fact.expiry,
                scope: &fact.scope,
            }),
            (Body::CodeRedeemed(fact), Kind::Access) => Some(minted_at(fact.start, &fact.access)),
            (Body::CodeRedeemed(fact), Kind::Refresh) => Some(minted_at(fact.start, &fact.refresh)),
            (Body::RefreshRotated(fact), Kind::Access) => Some(minted_at(fact.start, &fact.access)),
            (Body::RefreshRotated(fact), Kind::Refresh) => {
                Some(minted_at(fact.start, &fact.refresh))
            }
            (Body::AccessRefreshed(fact), Kind::Access) => {
                Some(minted_at(fact.start, &fact.access))
            }
            _ => None,
        }
    }

    /// Returns the dot by which the tokens that the fact mints are in a family: that of the refresh
    /// token for an access token that was refreshed, otherwise the fact's own.
    pub fn anchor(&self) -> Dot
        ensures { result ≡ anchor_of self.now.0 self.now.1 }
    {
        match &self.body {
            Body::AccessRefreshed(fact) => fact.parent,
            _ => self.dot,
        }
    }

    /// Returns the code or refresh token that the fact redeems or rotates, if any.
    pub fn uses(&self) -> Option<TokenId>
        ensures { result ≡ uses_of self.now.1 }
    {
        match &self.body {
            Body::CodeRedeemed(fact) => Some(TokenId {
                dot: fact.code,
                kind: Kind::Code,
            }),
            Body::RefreshRotated(fact) => Some(TokenId {
                dot: fact.parent,
                kind: Kind::Refresh,
            }),
            _ => None,
        }
    }
}
