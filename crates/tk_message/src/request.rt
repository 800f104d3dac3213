//! Requests: their endpoint and all that they bring.

use std::marker::Model;
use tk_params::Params;

/// The endpoint of a request. The endpoints under `/admin/` are own.
#[derive(Clone, Copy)]
pub enum Endpoint {
    /// GET `/authorize` (RFC 6749, 3.1).
    Authorize,
    /// POST `/token` (RFC 6749, 3.2).
    Token,
    /// POST `/introspect` (RFC 7662, 2).
    Introspect,
    /// POST `/revoke` (RFC 7009, 2).
    Revoke,
    /// POST `/admin/client`: add a client.
    AddClient,
    /// GET `/admin/client`: show a client.
    ShowClient,
    /// GET `/admin/clients`: list clients.
    ListClients,
    /// POST `/admin/retire`: retire a client.
    Retire,
    /// POST `/admin/secret`: change the secret of a client.
    ChangeSecret,
    /// POST `/admin/consent`: give a client a subject's consent.
    Consent,
    /// POST `/admin/withdraw`: withdraw a consent.
    Withdraw,
    /// POST `/admin/signout`: sign a subject out everywhere.
    SignOut,
    /// GET `/admin/subject`: list the consents and the logins of a subject.
    ShowSubject,
    /// POST `/admin/logout`: end a login.
    Logout,
}

/// A request, read from its head and body. Contracts see the bytes of its parts.
#[derive(Drop)]
pub struct Request {
    /// The endpoint.
    pub endpoint: Endpoint,
    /// The parameters, from the query or from the body.
    pub params: Params,
    /// The value of `Authorization` (RFC 9110, 11.6.2), if there is one: any bytes.
    pub authorization: Option<Vec<u8>>,
    /// The value of `X-Subject`, if there is one: the subject that has signed in, any bytes (own).
    pub subject: Option<Vec<u8>>,
    /// The value of `X-Operator`, if there is one: the operator who administers, any bytes (own).
    pub operator: Option<Vec<u8>>,
}

impl Model for Request {
    ghost use Rattle.std.specs.Option.{option_map};
    ghost use Rattle.tk_message.specs.RequestFields.{RequestFields};

    ghost Value = { RequestFields };

    ghost view = { λ r. record {
      endpoint = r.endpoint;
      params = r.params;
      authorization = option_map (λ v. v.items) r.authorization;
      subject = option_map (λ v. v.items) r.subject;
      operator = option_map (λ v. v.items) r.operator;
    } };
}

ghost use Rattle.std.specs.Prelude.{◌≡◌};
ghost use Rattle.std.specs.Option.{option_copied};

impl Request {
    // Returns the bytes of `Authorization`.
    pub(crate) fn authorization(&self) -> Option<&[u8]>
        ensures { option_copied result ≡ self.now.authorization }
    {
        match &self.authorization {
            Some(value) => Some(value.as_slice()),
            None => None,
        }
    }

    /// Returns the bytes of `X-Subject`, the subject that has signed in.
    pub fn subject(&self) -> Option<&[u8]>
        ensures { option_copied result ≡ self.now.subject }
    {
        match &self.subject {
            Some(subject) => Some(subject.as_slice()),
            None => None,
        }
    }

    /// Returns the bytes of `X-Operator`, the operator who administers.
    pub fn operator(&self) -> Option<&[u8]>
        ensures { option_copied result ≡ self.now.operator }
    {
        match &self.operator {
            Some(operator) => Some(operator.as_slice()),
            None => None,
        }
    }
}
