//! The laws of introspection and revocation.

ghost use Rattle.tk_query.specs.Laws.{
  HidesRefresh,
  IntrospectionsAlike,
  RevocationsAlike,
  SaysActive,
  SaysNothing,
};

/// States a law: introspection reports exactly the active tokens (RFC 7662, 2.2).
///
/// If the sender may see an active token, the reply has what the code and the fact that minted the
/// token contain. For any other token, the reply to any sender is that it is not active. If the
/// region's choice hides refresh tokens from resource servers, no reply to one reports any.
pub fn says_active()
    ensures active { SaysActive }
    ensures nothing { SaysNothing }
    ensures hidden { HidesRefresh }
{}

/// States a law: two stores that answer each handle alike answer introspection and revocation
/// requests alike. If one has a revocation of a token that neither has seen, and the other doesn't,
/// the other decides as if it was the first.
pub fn queries_alike()
    ensures introspections { IntrospectionsAlike }
    ensures revocations { RevocationsAlike }
{}
