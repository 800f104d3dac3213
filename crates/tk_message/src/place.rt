//! The place of a decision: the region, the dot of its next fact, the lives of tokens, and what the
//! region does if the profile leaves a choice.

ghost use Rattle.std.specs.Prelude.{◌≡◌};
ghost use Rattle.tk_message.specs.Lives.{lives_within};
ghost use Rattle.tk_message.specs.Place.{next_in};

use crate::choices::Choices;
use tk_fact::ClientLives;
use tk_handle::{Dot, RegionNumber, Serial};

/// How long codes, tokens and families live, in seconds (own).
#[derive(Clone, Copy)]
pub struct Lives {
    /// The life of a code (RFC 6749, 4.1.2 recommends ten minutes at most).
    pub code: u64,
    /// The life of an access token.
    pub access: u64,
    /// The life of a refresh token.
    pub refresh: u64,
    /// The life of a family: a code and all tokens that descend from it.
    pub family: u64,
}

impl Lives {
    /// Returns the lives of what a client gets that was registered with these lives, if any.
    ///
    /// Each life of a token or family is the lesser of the server's and the client's. The life of a
    /// code is the server's.
    pub fn bounded_by(&self, client: Option<ClientLives>) -> Lives
        ensures { result ≡ lives_within self.now client }
    {
        match client {
            None => *self,
            Some(client) => Lives {
                code: self.code,
                access: self.access.min(client.access),
                refresh: self.refresh.min(client.refresh),
                family: self.family.min(client.family),
            },
        }
    }
}

/// The place of a decision (own): a region, the dot of its next fact, the lives of tokens, and the
/// region's choices.
#[derive(Drop)]
pub struct Place {
    /// The region's number.
    pub number: RegionNumber,
    /// The serial of the region's next fact.
    pub next: Serial,
    /// How long the tokens that the region issues live.
    pub lives: Lives,
    /// What the region does if the profile leaves a choice.
    pub choices: Choices,
}

impl Place {
    /// Returns the place of the region whose next fact gets the dot.
    pub fn new(next: Dot, lives: Lives, choices: Choices) -> Place
        ensures { result ≡ record {
          number = next.region;
          next = next.serial;
          lives = lives;
          choices = choices;
        } }
    {
        Place {
            number: next.region(),
            next: Serial::new(next.serial()).unwrap(),
            lives,
            choices,
        }
    }

    /// Returns the dot of the next fact.
    pub fn next_dot(&self) -> Dot
        ensures { result ≡ next_in self.now }
    {
        Dot::new(self.number, self.next.number()).unwrap()
    }
}
