//! Messages: requests, the clients that send them, and replies.
//!
//! - A `Request` goes to an `Endpoint`, with the parameters and credentials of tk_params.
//!   `find_caller` returns the client that sends it, by `authenticate`, and `scope_asked` the scope
//!   that is requested.
//! - A `Reply` has a `StatusCode`, perhaps a place to redirect to, and a `Payload`. An `ErrorCode`
//!   has a name and a status. `JsonReply` is what a JSON reply says: `JsonReply::reply` writes
//!   every one.
//! - A `Decision` is a reply, and the fact that the request makes, if any. A `Place` is the dot of
//!   that fact, how long tokens live, and the `Choices` of the region.
//!
//! The crates above decide what a request gets, and in which order its errors are sought. tk_edge
//! reads requests and writes replies as HTTP. No other crate makes JSON.
//!
//! In reading order: `Endpoint`, `Request`, `Authentication`, `Caller`, `scope_asked`,
//! `StatusCode`, `ErrorCode`, `Reply`, `JsonReply`, `Lives`, `Choices`, `Place`, `Decision`. The
//! definitions are in `specs/`, by these names. Those of the credentials are in `Authentication`,
//! of requests in `RequestFields`, and of the bodies in `Bodies`.
#![tactic(auto)]

mod authentication;
mod bodies;
mod caller;
mod choices;
mod client_page;
mod decision;
mod error_code;
mod json_reply;
mod object;
mod place;
mod reply;
mod request;
mod scope;
mod status_code;
mod subject_page;

pub use caller::{Caller, find_caller};
pub use choices::{ChallengeRules, Choices, ConsentReuse, RefreshSeen, UnseenRevocation};
pub use decision::Decision;
pub use error_code::ErrorCode;
pub use json_reply::JsonReply;
pub use place::{Lives, Place};
pub use reply::{Asks, Payload, Reply, bytes_reply, empty_reply, handle_string, redirect_reply};
pub use request::{Endpoint, Request};
pub use scope::scope_asked;
pub use status_code::StatusCode;
pub use tk_match::RedirectKinds;
pub use tk_params::{Credentials, CredentialsError, One, Params};
