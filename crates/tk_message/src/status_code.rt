//! The statuses of replies.

ghost use Rattle.std.specs.Prelude.{◌≡◌};
ghost use Rattle.tk_message.specs.StatusCode.{status_number};

/// The status of a reply (RFC 9110, 15).
#[derive(Clone, Copy, PartialEq, Eq)]
pub enum StatusCode {
    /// 200 OK.
    Ok,
    /// 201 Created.
    Created,
    /// 302 Found.
    Found,
    /// 400 Bad Request.
    BadRequest,
    /// 401 Unauthorized.
    Unauthorized,
    /// 404 Not Found.
    NotFound,
    /// 405 Method Not Allowed.
    MethodNotAllowed,
    /// 409 Conflict.
    Conflict,
    /// 411 Length Required.
    LengthRequired,
    /// 413 Content Too Large.
    ContentTooLarge,
    /// 503 Service Unavailable.
    ServiceUnavailable,
}

impl StatusCode {
    /// Returns the status code, a number of three digits.
    pub fn number(self) -> u16
        ensures { result ≡ status_number self }
    {
        match self {
            StatusCode::Ok => 200,
            StatusCode::Created => 201,
            StatusCode::Found => 302,
            StatusCode::BadRequest => 400,
            StatusCode::Unauthorized => 401,
            StatusCode::NotFound => 404,
            StatusCode::MethodNotAllowed => 405,
            StatusCode::Conflict => 409,
            StatusCode::LengthRequired => 411,
            StatusCode::ContentTooLarge => 413,
            StatusCode::ServiceUnavailable => 503,
        }
    }
}
