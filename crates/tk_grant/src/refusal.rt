//! The reasons why a token request is refused.

ghost use Rattle.std.specs.Prelude.{◌≡◌};
ghost use Rattle.tk_grant.specs.Refusal.{refusal_code};

use tk_message::ErrorCode;

/// The reason why a token request is refused: the first that holds, in this order (RFC 6749, 4.1.3,
/// 5.2 and 6; RFC 7636, 4.6).
///
/// The reuse of a grant is refused too, between `FamilyOver` and `PastGrant`.
#[derive(Clone, Copy)]
pub(crate) enum Refusal {
    /// A parameter that the endpoint knows occurs twice (RFC 6749, 3.2).
    DuplicateParameter,
    /// The request has credentials in two places (RFC 6749, 2.3).
    MixedCredentials,
    /// No client is authenticated (RFC 6749, 3.2.1).
    InvalidClient,
    /// There is no `grant_type` (RFC 6749, 4.1.3 and 6).
    MissingGrantType,
    /// The `grant_type` is not `authorization_code` or `refresh_token` (RFC 6749, 5.2).
    UnsupportedGrantType,
    /// There is no `code`, or no `refresh_token` (RFC 6749, 4.1.3 and 6).
    MissingGrant,
    /// The grant is not the handle of a token of its kind that was minted under a code (RFC 6749,
    /// 5.2).
    UnknownGrant,
    /// The grant belongs to another client (RFC 6749, 5.2).
    ForeignGrant,
    /// The grant's family is dead (RFC 6749, 4.1.2, 10.4 and 10.5).
    DeadFamily,
    /// The grant's client or consent is not live (own).
    WithdrawnGrant,
    /// The grant's family has ended (own).
    FamilyOver,
    /// The grant has expired (RFC 6749, 4.1.2 and 5.2).
    PastGrant,
    /// The redirection URI is another than the code's, or is absent though the code's request named
    /// one (RFC 6749, 4.1.3).
    WrongRedirect,
    /// The verifier does not meet the code's challenge (RFC 7636, 4.6), or there is a verifier
    /// without a challenge (own).
    WrongVerifier,
    /// The refresh token is of the last generation (own).
    LastGeneration,
    /// The scope can't be read, or goes beyond the token's scope (RFC 6749, 6).
    WrongScope,
}

impl Refusal {
    /// Returns the error code of the refusal.
    pub(crate) fn code(self) -> ErrorCode
        ensures { result ≡ refusal_code self }
    {
        match self {
            Refusal::DuplicateParameter
            | Refusal::MixedCredentials
            | Refusal::MissingGrantType
            | Refusal::MissingGrant => ErrorCode::InvalidRequest,
            Refusal::InvalidClient => ErrorCode::InvalidClient,
            Refusal::UnsupportedGrantType => ErrorCode::UnsupportedGrantType,
            Refusal::UnknownGrant
            | Refusal::ForeignGrant
            | Refusal::DeadFamily
            | Refusal::WithdrawnGrant
            | Refusal::FamilyOver
            | Refusal::PastGrant
            | Refusal::WrongRedirect
            | Refusal::WrongVerifier
            | Refusal::LastGeneration => ErrorCode::InvalidGrant,
            Refusal::WrongScope => ErrorCode::InvalidScope,
        }
    }
}
