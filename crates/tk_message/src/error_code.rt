//! The codes of errors, with their names and statuses.

ghost use Rattle.std.specs.Prelude.{◌≡◌};
ghost use Rattle.tk_message.specs.ErrorCode.{error_status, error_name};

use crate::status_code::StatusCode;

/// The code of an error, which a reply names (RFC 6749, 4.1.2.1 and 5.2).
#[derive(Clone, Copy)]
pub enum ErrorCode {
    /// A parameter is missing, occurs twice or is malformed.
    InvalidRequest,
    /// No client is authenticated.
    InvalidClient,
    /// The code or refresh token can't be redeemed.
    InvalidGrant,
    /// The scope is malformed, or goes beyond what was granted.
    InvalidScope,
    /// The token endpoint knows no such grant type.
    UnsupportedGrantType,
    /// The authorization endpoint knows no such response type.
    UnsupportedResponseType,
    /// No subject has signed in, or the subject gave the client no consent to the scope.
    AccessDenied,
    /// There is no such client, consent, login or path (own).
    NotFound,
    /// The region can make no fact, or its log failed (the name is from RFC 6749, 4.1.2.1).
    TemporarilyUnavailable,
    /// The request is not HTTP, or breaks a rule of its fields (own; RFC 9110, 15.5.1).
    BadRequest,
    /// The path does not take this method (own; RFC 9110, 15.5.6).
    MethodNotAllowed,
    /// The request has a body without its length (own; RFC 9110, 15.5.12).
    LengthRequired,
    /// The body is longer than the server reads (own; RFC 9110, 15.5.14).
    TooLarge,
    /// The bytes from another region are no vector or bundle (own).
    Malformed,
    /// A bundle has a horizon that is later than the moment (own; RFC 9110, 15.5.10).
    HorizonAhead,
    /// A bundle has a fact or a mark under a number that the region doesn't take (own; RFC 9110,
    /// 15.5.10).
    OutOfRange,
    /// A bundle has a fact or a mark under the region's own number that the region did not make
    /// (own; RFC 9110, 15.5.10).
    OwnNumber,
    /// A bundle contradicts what is known of a dot: it has another fact there, a mark where a fact
    /// lasts, or a fact that lasts where the dot is skipped (own; RFC 9110, 15.5.10).
    Conflict,
}

impl ErrorCode {
    /// Returns the name of the error in a reply, in ASCII.
    pub fn name(self) -> &'static str
        ensures { result.now ≡ error_name self }
    {
        match self {
            ErrorCode::InvalidRequest => "invalid_request",
            ErrorCode::InvalidClient => "invalid_client",
            ErrorCode::InvalidGrant => "invalid_grant",
            ErrorCode::InvalidScope => "invalid_scope",
            ErrorCode::UnsupportedGrantType => "unsupported_grant_type",
            ErrorCode::UnsupportedResponseType => "unsupported_response_type",
            ErrorCode::AccessDenied => "access_denied",
            ErrorCode::NotFound => "not_found",
            ErrorCode::TemporarilyUnavailable => "temporarily_unavailable",
            ErrorCode::BadRequest => "bad_request",
            ErrorCode::MethodNotAllowed => "method_not_allowed",
            ErrorCode::LengthRequired => "length_required",
            ErrorCode::TooLarge => "too_large",
            ErrorCode::Malformed => "malformed",
            ErrorCode::HorizonAhead => "horizon_ahead",
            ErrorCode::OutOfRange => "out_of_range",
            ErrorCode::OwnNumber => "own_number",
            ErrorCode::Conflict => "conflict",
        }
    }

    /// Returns the status of the error's reply.
    pub fn status(self) -> StatusCode
        ensures { result ≡ error_status self }
    {
        match self {
            ErrorCode::InvalidRequest
            | ErrorCode::InvalidGrant
            | ErrorCode::InvalidScope
            | ErrorCode::UnsupportedGrantType
            | ErrorCode::UnsupportedResponseType
            | ErrorCode::AccessDenied
            | ErrorCode::BadRequest
            | ErrorCode::Malformed => StatusCode::BadRequest,
            ErrorCode::InvalidClient => StatusCode::Unauthorized,
            ErrorCode::NotFound => StatusCode::NotFound,
            ErrorCode::TemporarilyUnavailable => StatusCode::ServiceUnavailable,
            ErrorCode::MethodNotAllowed => StatusCode::MethodNotAllowed,
            ErrorCode::LengthRequired => StatusCode::LengthRequired,
            ErrorCode::TooLarge => StatusCode::ContentTooLarge,
            ErrorCode::HorizonAhead
            | ErrorCode::OutOfRange
            | ErrorCode::OwnNumber
            | ErrorCode::Conflict => StatusCode::Conflict,
        }
    }
}
