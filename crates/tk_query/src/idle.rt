//! The reasons why a revocation request changes nothing.

/// The reason why there is nothing to revoke, which is no error: the first that holds, in this
/// order (RFC 7009, 2.2).
///
/// The token of another client is refused, between `DeadFamily` and `Revoked`.
#[derive(Clone, Copy)]
pub(crate) enum Idle {
    /// The text is not a handle (RFC 7009, 2.2).
    NoHandle,
    /// The handle is that of a code: codes can't be revoked (RFC 7009, 2).
    Code,
    /// The fact at the token's dot did not mint the token.
    WrongHandle,
    /// The token would be of this region, which never minted it (own).
    NeverMinted,
    /// The token has expired.
    Past,
    /// The token's family is dead.
    DeadFamily,
    /// The client revoked the token before.
    Revoked,
}
