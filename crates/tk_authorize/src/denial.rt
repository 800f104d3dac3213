//! The reasons why a request whose client and redirection URI are good is denied.

ghost use Rattle.std.specs.Prelude.{◌≡◌};
ghost use Rattle.tk_authorize.specs.Denial.{denial_code};

use tk_message::ErrorCode;

/// The reason why a request is denied, which the client gets at its redirection URI: the first that
/// holds, in this order (RFC 6749, 4.1.2.1).
#[derive(Clone, Copy)]
pub(crate) enum Denial {
    /// A parameter other than the client's and the URI's occurs twice (RFC 6749, 3.1).
    DuplicateParameter,
    /// `state` has a byte outside `%x20-7E` (RFC 6749, appendix A.5).
    MalformedState,
    /// There is no `response_type` (RFC 6749, 3.1.1).
    MissingResponseType,
    /// The `response_type` is not `code` (RFC 6749, 3.1.1).
    UnsupportedResponseType,
    /// The scope can't be read, or goes beyond the client's scope (RFC 6749, 3.3).
    WrongScope,
    /// There is a `code_challenge_method` without a `code_challenge` (RFC 7636, 4.3).
    ChallengeMethodAlone,
    /// A client that must send a `code_challenge` sent none (RFC 7636, 4.4.1; RFC 9700, 2.1.1).
    MissingChallenge,
    /// The challenge's method is not `plain` or `S256`, or is `plain` and the region takes `S256`
    /// alone (RFC 7636, 4.4.1; RFC 9700, 2.1.1).
    UnsupportedChallengeMethod,
    /// The challenge is not 43 to 128 unreserved bytes (RFC 7636, 4.2).
    MalformedChallenge,
    /// Nobody has signed in (RFC 6749, 3.1).
    MissingSubject,
    /// The text in `X-Subject` is not the name of a subject (own).
    MalformedSubject,
    /// The subject gave the client no live consent that includes the scope (RFC 6749, 4.1.2.1).
    MissingConsent,
}

impl Denial {
    /// Returns the error code of the denial.
    pub(crate) fn code(self) -> ErrorCode
        ensures { result ≡ denial_code self }
    {
        match self {
            Denial::DuplicateParameter
            | Denial::MalformedState
            | Denial::MissingResponseType
            | Denial::ChallengeMethodAlone
            | Denial::MissingChallenge
            | Denial::UnsupportedChallengeMethod
            | Denial::MalformedChallenge => ErrorCode::InvalidRequest,
            Denial::UnsupportedResponseType => ErrorCode::UnsupportedResponseType,
            Denial::WrongScope => ErrorCode::InvalidScope,
            Denial::MissingSubject | Denial::MalformedSubject | Denial::MissingConsent => {
                ErrorCode::AccessDenied
            }
        }
    }
}
