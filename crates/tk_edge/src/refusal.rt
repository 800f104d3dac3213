//! The reasons why a request isn't handed to its region, each with its error and status.

ghost use Rattle.std.specs.Prelude.{◌≡◌};
ghost use Rattle.std.specs.Option.{option_copied};
ghost use Rattle.tk_edge.specs.Judged as spec;

use crate::path::Path;
use tk_message::ErrorCode;

/// Why a request isn't handed to its region. The order of the cases is that of the checks.
#[derive(Clone, Copy)]
pub enum Refusal {
    /// The log has failed, so no more facts may be made (own).
    Sealed,
    /// The bytes begin with no head, or with a head above the limits (RFC 9112, 3; limits are own).
    NoHead,
    /// No service has the path (RFC 9110, 15.5.5).
    UnknownPath,
    /// The path has other methods (RFC 9110, 15.5.6).
    WrongMethod(Path),
    /// The head repeats a field that may be given only once (own; RFC 9110, 5.3).
    DuplicateField,
    /// The body is in chunks, or has no length (RFC 9110, 15.5.12).
    LengthRequired,
    /// The length isn't one or more digits (RFC 9110, 8.6).
    MalformedLength,
    /// The length is above the limit (RFC 9110, 15.5.14).
    TooLarge,
    /// The type of the body isn't a form's (RFC 6749, 4.1.3).
    WrongType,
    /// The stream ends before the body does (RFC 9112, 8).
    ShortBody,
}

impl Refusal {
    /// Returns the name of the error in the reply.
    pub(crate) fn code(self) -> ErrorCode
        ensures { result ≡ spec.code_of self }
    {
        match self {
            Refusal::Sealed => ErrorCode::TemporarilyUnavailable,
            Refusal::UnknownPath => ErrorCode::NotFound,
            Refusal::WrongMethod(_) => ErrorCode::MethodNotAllowed,
            Refusal::LengthRequired => ErrorCode::LengthRequired,
            Refusal::TooLarge => ErrorCode::TooLarge,
            _ => ErrorCode::BadRequest,
        }
    }

    /// Returns the methods that the reply names, if it names any.
    pub(crate) fn allowed(self) -> Option<&'static [u8]>
        ensures { option_copied result ≡ spec.allowed_by self }
    {
        match self {
            Refusal::WrongMethod(path) => Some(path.allowed()),
            _ => None,
        }
    }
}
