//! The reasons why an introspection or revocation request is refused.

ghost use Rattle.std.specs.Prelude.{◌≡◌};
ghost use Rattle.tk_query.specs.Refusal.{refusal_code};

use tk_message::ErrorCode;

/// The reason why a request is refused: the first that holds, in this order (RFC 7662, 2.1 and 2.3;
/// RFC 7009, 2.1 and 2.2.1).
#[derive(Clone, Copy)]
pub(crate) enum Refusal {
    /// A parameter that the endpoint knows occurs twice (RFC 6749, 3.2).
    DuplicateParameter,
    /// The request has credentials in two places (RFC 6749, 2.3).
    MixedCredentials,
    /// No client is authenticated (RFC 7662, 2.3; RFC 7009, 2.1).
    InvalidClient,
    /// A public client, which has no secret, requests introspection (RFC 7662, 2.1).
    PublicClient,
    /// There is no `token` (RFC 7662, 2.1; RFC 7009, 2.1).
    MissingToken,
    /// The token to be revoked belongs to another client (RFC 7009, 2.1).
    ForeignToken,
}

impl Refusal {
    /// Returns the error code of the refusal.
    pub(crate) fn code(self) -> ErrorCode
        ensures { result ≡ refusal_code self }
    {
        match self {
            Refusal::DuplicateParameter | Refusal::MixedCredentials | Refusal::MissingToken => {
                ErrorCode::InvalidRequest
            }
            Refusal::InvalidClient | Refusal::PublicClient => ErrorCode::InvalidClient,
            Refusal::ForeignToken => ErrorCode::InvalidGrant,
        }
    }
}
