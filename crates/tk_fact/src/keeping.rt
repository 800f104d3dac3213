//! For which token a fact is kept.
//!
//! When that token's family is over, the fact may be skipped. The facts of the other kinds last.

ghost use Rattle.std.specs.Prelude.{◌≡◌};
ghost use Rattle.tk_fact.specs.Keeping.{kept_for, is_passing, refresh_at, PassingIsKept};

use crate::body::Body;
use crate::fact::Fact;
use tk_handle::{Dot, Kind, TokenId};

impl Body {
    /// Returns whether such a fact is kept for a token, so that it may be skipped.
    pub fn is_passing(&self) -> bool
        ensures { result ≡ is_passing self.now }
    {
        match self {
            Body::CodeIssued(_)
            | Body::CodeRedeemed(_)
            | Body::RefreshRotated(_)
            | Body::TokenRevoked(_)
            | Body::ReuseSeen(_)
            | Body::AccessRefreshed(_) => true,
            _ => false,
        }
    }
}

// Returns the name of the refresh token that the fact at the dot minted.
fn refresh_at(dot: Dot) -> TokenId
    ensures { result ≡ refresh_at dot }
{
    TokenId {
        dot,
        kind: Kind::Refresh,
    }
}

impl Fact {
    /// Returns the token for which the fact is kept: a code or refresh token that it mints, the
    /// token that it revokes, the token that it saw used again, or the refresh token for which it
    /// mints an access token. Returns `None` for a fact that lasts.
    pub fn kept_for(&self) -> Option<TokenId>
        ensures { result ≡ kept_for self.now.0 self.now.1 }
    {
        let kind = match &self.body {
            Body::TokenRevoked(fact) => return Some(fact.token),
            Body::ReuseSeen(fact) => return Some(fact.token),
            Body::AccessRefreshed(fact) => return Some(refresh_at(fact.parent)),
            Body::CodeIssued(_) => Kind::Code,
            Body::CodeRedeemed(_) | Body::RefreshRotated(_) => Kind::Refresh,
            _ => return None,
        };
        Some(TokenId {
            dot: self.dot,
            kind,
        })
    }
}

/// States a law: a body is passing exactly if a fact with it is kept for a token.
pub fn passing_is_kept()
    ensures { PassingIsKept }
{}
