//! What a region does if the profile leaves a choice: `Choices`.

/// What a region does if the profile leaves a choice (own).
#[derive(Clone, Copy)]
pub struct Choices {
    /// Who may revoke a token of another region that this region has not seen.
    pub unseen: UnseenRevocation,
    /// What a region does if a consent is given again.
    pub consent: ConsentReuse,
    /// The kinds of redirection URIs that a client may have; `None` for every absolute URL.
    pub redirects: Option<RedirectKinds>,
    /// Which senders of introspection requests see refresh tokens.
    pub refresh_seen: RefreshSeen,
    /// What is required of the challenge of a code.
    pub challenge: ChallengeRules,
}

/// Who may revoke a token of another region that this region has not seen (RFC 7009, 2.2.1 and 5).
///
/// Each such revocation makes a fact that is never pruned, whether or not there is such a token.
#[derive(Clone, Copy)]
pub enum UnseenRevocation {
    /// Any client. A public client proves itself by its id, which is no secret.
    Any,
    /// A client that proved a secret.
    Authenticated,
    /// No client.
    Nobody,
}

/// What a region does if a subject gives a client a consent, and a consent that is held is good
/// (own).
#[derive(Clone, Copy)]
pub enum ConsentReuse {
    /// A new consent is given each time, with an id of its own.
    New,
    /// The consent that is held serves, and no fact is made.
    Held,
}

/// Which senders of introspection requests see a refresh token (RFC 7662, 2.2 leaves it open).
///
/// A sender that doesn't see a token gets the reply that the token isn't active.
#[derive(Clone, Copy)]
pub enum RefreshSeen {
    /// The client that the token is of, and every resource server.
    ByAll,
    /// The client that the token is of, and nobody else.
    ByClient,
}

/// What is required of the challenge of a code, beyond the profile (RFC 9700, 2.1.1).
#[derive(Clone, Copy)]
pub struct ChallengeRules {
    /// Every client must send a challenge, and not public clients alone.
    pub of_all: bool,
    /// The method must be `S256`: `plain` is refused, and so is no method, which means `plain`.
    pub only_s256: bool,
}

ghost use Rattle.std.specs.Prelude.{◌≡◌};
ghost use Rattle.tk_message.specs.Choices.{profile_choices};

use tk_match::RedirectKinds;

impl Choices {
    /// Returns what the profile does: any client revokes an unseen token, each consent is new, each
    /// absolute URL may be registered, resource servers see refresh tokens, and of clients public
    /// ones alone must send a challenge, by either method.
    pub fn profile() -> Choices
        ensures { result ≡ profile_choices }
    {
        Choices {
            unseen: UnseenRevocation::Any,
            consent: ConsentReuse::New,
            redirects: None,
            refresh_seen: RefreshSeen::ByAll,
            challenge: ChallengeRules {
                of_all: false,
                only_s256: false,
            },
        }
    }
}
