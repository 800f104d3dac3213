//! Requests that make a fact: the bytes sent, the reply, and the record.

use tk_message::StatusCode;

/// The request of a client to an edge that answered other requests before.
#[derive(Clone, Copy)]
pub(super) struct Talk {
    pub name: &'static str,
    /// The requests before, each of which made a fact.
    pub before: &'static [&'static [u8]],
    pub request: &'static [u8],
    /// The record of the request's fact.
    pub record: &'static [u8],
    pub reply: &'static [u8],
    /// The status of the reply.
    pub status: StatusCode,
}

pub(super) const REGISTRATION: Talk = Talk {
    name: "a registration",
    before: &[],
    request: b"POST /admin/client HTTP/1.1\r\nContent-Length: 55\r\n\r\n\
        kind=public&scope=read&redirects=https://app.example/cb",
    record: b"OTB1\x00\x01\x00\x2b\x00\x01\x00\x00\x00\x00\x00\x00\x00\x01\x01\x00\
        \x00\x04read\x01\x00\x16https://app.example/cb",
    reply: b"HTTP/1.1 201 Created\r\nContent-Type: application/json\r\nContent-Length: 20\r\n\
        Cache-Control: no-store\r\nPragma: no-cache\r\nConnection: close\r\n\r\n\
        {\"client_id\":\"c1-1\"}",
    status: StatusCode::Created,
};

/// A bundle of one fact of region 2, that its client 2:1 was retired. The bundle is logged as it
/// was sent.
pub(super) const PUSH: Talk = Talk {
    name: "a push",
    before: &[],
    request: b"POST /sync/push HTTP/1.1\r\nContent-Length: 29\r\n\r\n\
        OTB1\x00\x01\x00\x15\x00\x02\x00\x00\x00\x00\x00\x00\x00\x02\x02\x00\x02\x00\x00\x00\x00\x00\
        \x00\x00\x01",
    record: b"OTB1\x00\x01\x00\x15\x00\x02\x00\x00\x00\x00\x00\x00\x00\x02\x02\x00\x02\x00\x00\x00\x00\
        \x00\x00\x00\x01",
    reply: b"HTTP/1.1 200 OK\r\nContent-Type: application/json\r\nContent-Length: 10\r\n\
        Cache-Control: no-store\r\nPragma: no-cache\r\nConnection: close\r\n\r\n\
        {\"took\":1}",
    status: StatusCode::Ok,
};

// A client, a consent, and a code bound to the challenge of RFC 7636, appendix B.
const BEFORE_TOKENS: &[&[u8]] = &[
    b"POST /admin/client HTTP/1.1\r\nContent-Length: 81\r\n\r\n\
        kind=confidential&secret=s3cret&scope=read+write&redirects=https://app.example/cb",
    b"POST /admin/consent HTTP/1.1\r\nContent-Length: 43\r\n\r\n\
        client_id=c1-1&subject=ann&scope=read+write",
    b"GET /authorize?response_type=code&client_id=c1-1\
        &code_challenge=E9Melhoa2OwvFrEMTJguCHaoeK1t8URWbuGJSstw-cM\
        &code_challenge_method=S256 HTTP/1.1\r\nX-Subject: ann\r\n\r\n",
];

/// The exchange of the code for tokens. The random words of all three handles are 0.
pub(super) const EXCHANGE: Talk = Talk {
    name: "a token request",
    before: BEFORE_TOKENS,
    request: b"POST /token HTTP/1.1\r\nContent-Length: 177\r\n\r\n\
        grant_type=authorization_code\
        &code=AQEAAQAAAAAAAAADAAAAAAAAAAAAAAAAAAAAAAAAAAAAAAAA\
        &client_id=c1-1&client_secret=s3cret\
        &code_verifier=dBjftJeZ4CVP-mB92K27uhbUJU1p1r_wW1gFWFOEjXk",
    // The redemption of 1:3 at 1:4, with the digest, expiry and scope of each token.
    record: b"OTB1\x00\x01\x00\x85\x00\x01\x00\x00\x00\x00\x00\x00\x00\x04\x06\
        \x00\x01\x00\x00\x00\x00\x00\x00\x00\x03\x00\x00\x00\x00\x00\x00\x03\xe8\
        \xf0m\x0c'\xfe>_Y\x90\xfc\xb7\x00\xf3\xca*\xa5\x93\x7f\xff%\xc3 \xf1m\xe7\t]\xc6\
        \xa5\x1b1\xf4\x00\x00\x00\x00\x00\x00\x11\xf8\x00\x0aread write\
        \x0d(\x1a.\x07\xdb\x83Y\xe8\xceW\x94UF\xf1WQF\x19\x92\x02~d\x11\xff\xce:\xab`Z^\xee\
        \x00\x00\x00\x00\x00\x01Uh\x00\x0aread write",
    reply: b"HTTP/1.1 200 OK\r\nContent-Type: application/json\r\nContent-Length: 195\r\n\
        Cache-Control: no-store\r\nPragma: no-cache\r\nConnection: close\r\n\r\n\
        {\"access_token\":\"AQIAAQAAAAAAAAAEAAAAAAAAAAAAAAAAAAAAAAAAAAAAAAAA\",\
        \"expires_in\":3600,\
        \"refresh_token\":\"AQMAAQAAAAAAAAAEAAAAAAAAAAAAAAAAAAAAAAAAAAAAAAAA\",\
        \"scope\":\"read write\",\"token_type\":\"Bearer\"}",
    status: StatusCode::Ok,
};

/// All of these.
pub(super) const TALKS: &[Talk] = &[REGISTRATION, EXCHANGE, PUSH];
