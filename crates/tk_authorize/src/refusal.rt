//! The reasons why a request is refused in place: its client or redirection URI is not known to be
//! good.

ghost use Rattle.std.specs.Prelude.{◌≡◌};
ghost use Rattle.tk_authorize.specs.Refusal.{refusal_code};

use tk_message::ErrorCode;

/// The reason why a request is refused in place, without a redirect: the first that holds, in this
/// order (RFC 6749, 3.1.2.4 and 4.1.2.1).
#[derive(Clone, Copy)]
pub(crate) enum Refusal {
    /// `client_id` or `redirect_uri` occurs twice (RFC 6749, 3.1).
    DuplicateClientOrRedirect,
    /// There is no `client_id` (RFC 6749, 4.1.1).
    MissingClient,
    /// The `client_id` is not the id of a client, or no client was added there (RFC 6749, 4.1.2.1).
    UnknownClient,
    /// The client was retired (own).
    RetiredClient,
    /// There is no `redirect_uri`, and the client has more than one (RFC 6749, 3.1.2.3).
    MissingRedirect,
    /// The `redirect_uri` is not one of the client's, byte for byte (RFC 6749, 3.1.2.3).
    UnknownRedirect,
}

impl Refusal {
    /// Returns the error code of the refusal.
    pub(crate) fn code(self) -> ErrorCode
        ensures { result ≡ refusal_code self }
    {
        match self {
            Refusal::DuplicateClientOrRedirect
            | Refusal::MissingClient
            | Refusal::UnknownClient
            | Refusal::RetiredClient
            | Refusal::MissingRedirect
            | Refusal::UnknownRedirect => ErrorCode::InvalidRequest,
        }
    }
}
