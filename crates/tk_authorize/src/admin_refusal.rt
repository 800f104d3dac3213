//! The reasons why an administration request is refused.

ghost use Rattle.std.specs.Prelude.{◌≡◌};
ghost use Rattle.tk_authorize.specs.Administration.{code_of};

use tk_message::ErrorCode;

/// The reason why an administration request is refused (own, but for those with a section): the
/// first that holds, in the order that `specs/Operators.antt`, and then `specs/Administered.antt`,
/// `Logouts.antt`, `SecretChanges.antt` or a listing has for the endpoint.
#[derive(Clone, Copy)]
pub(crate) enum AdminRefusal {
    /// The operator is not 1 to 128 visible ASCII bytes.
    MalformedOperator,
    /// A parameter that the endpoint knows occurs twice (RFC 6749, 3.1).
    DuplicateParameter,
    /// A required parameter is absent.
    MissingParameter,
    /// The kind of client is not `public`, `confidential` or `resource`.
    UnknownKind,
    /// The parameter `refresh` is not `kept`, or the client is not confidential (RFC 9700, 2.2.2).
    WrongRefresh,
    /// A public client was to get a secret (RFC 6749, 2.1).
    UnwantedSecret,
    /// No secret was sent for a client of another kind.
    MissingSecret,
    /// The secret is not 1 to 128 visible ASCII bytes.
    MalformedSecret,
    /// The parameter `old` is not `ended`.
    WrongOld,
    /// The secret of the client was changed as often as a secret can be.
    TooManyTurns,
    /// A life is no number of seconds, 0 or above its range, or one was sent for a resource server.
    WrongLife,
    /// The scope can't be read (RFC 6749, 3.3).
    MalformedScope,
    /// There is no redirection URI, there are too many, or one may not be registered (RFC 6749,
    /// 3.1.2).
    WrongRedirects,
    /// No client has the id; for a new consent or secret, the client may also be retired.
    UnknownClient,
    /// The subject is not 1 to 128 visible ASCII bytes.
    MalformedSubject,
    /// The scope can't be read, or goes beyond the client's scope (RFC 6749, 3.3).
    WrongScope,
    /// No consent has the id.
    UnknownConsent,
    /// No login has the id, or its family is over.
    UnknownLogin,
    /// The code of the login wasn't redeemed here, so there is no token to revoke.
    UnredeemedCode,
    /// The request is not for an endpoint of administration.
    UnknownEndpoint,
}

impl AdminRefusal {
    /// Returns the error code of the refusal.
    pub(crate) fn code(self) -> ErrorCode
        ensures { result ≡ code_of self }
    {
        match self {
            AdminRefusal::MalformedOperator
            | AdminRefusal::DuplicateParameter
            | AdminRefusal::MissingParameter
            | AdminRefusal::UnknownKind
            | AdminRefusal::WrongRefresh
            | AdminRefusal::UnwantedSecret
            | AdminRefusal::MissingSecret
            | AdminRefusal::MalformedSecret
            | AdminRefusal::WrongOld
            | AdminRefusal::TooManyTurns
            | AdminRefusal::WrongLife
            | AdminRefusal::WrongRedirects
            | AdminRefusal::MalformedSubject => ErrorCode::InvalidRequest,
            AdminRefusal::MalformedScope | AdminRefusal::WrongScope => ErrorCode::InvalidScope,
            AdminRefusal::UnknownClient
            | AdminRefusal::UnknownConsent
            | AdminRefusal::UnknownLogin
            | AdminRefusal::UnredeemedCode
            | AdminRefusal::UnknownEndpoint => ErrorCode::NotFound,
        }
    }
}
