//! Matching of redirection URIs and of code verifiers (RFC 6749, 3.1.2; RFC 8252, 7.3; RFC 7636).
//!
//! In reading order:
//!
//! - `Uri`, a redirection URI, byte for byte;
//! - `Redirects`, the redirection URIs of a client, and which lists may be registered;
//! - `RedirectKinds`, kinds of URIs that a region may register alone;
//! - `any_port`, URIs of programs on this machine that listen at any port;
//! - `Pick`, which URI a request means;
//! - `reply_uri`, the URI that a browser is sent back to;
//! - `Challenge`, which a client later meets with a verifier.
//!
//! The crates above decide the reply to a request, and when a challenge is required. Two URIs
//! are equal if their bytes are: nothing is normalised, and a port varies only if the registered
//! URI has `*` in its place. The crate `url` defines which texts are absolute URLs. No claim is
//! made about the time that a comparison takes.
//!
//! The definitions are in `specs/`: `Redirects`, `RedirectKinds`, `AnyPort`, `Pick`, `ReplyUri`,
//! `Challenge`.
#![tactic(auto)]

mod any_port;
mod challenge;
mod pick;
mod redirect_kinds;
mod redirects;
mod reply;
mod uri;

pub use challenge::{Challenge, ChallengeError};
pub use pick::Pick;
pub use redirect_kinds::RedirectKinds;
pub use redirects::{RedirectError, Redirects};
pub use reply::reply_uri;
pub use uri::Uri;
