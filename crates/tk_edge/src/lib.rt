//! From the bytes of a request to the bytes of its reply, with the log written before the reply.
//!
//! An [`Edge`] is a region behind its connections. [`Edge::answer`] handles a whole stream, and
//! [`Edge::serve_front`] the bytes that have come over a connection, as often as more do. The
//! meaning of a request depends on its bytes alone, not on the pieces in which they come. An edge
//! reads no socket, no clock and no random words: all come as arguments.
//!
//! In reading order (`specs/Lib.antt` lists the definitions):
//!
//! - [`Sink`], [`Counted`], [`Discard`]: devices that take bytes, and count their failures.
//! - [`Reach`], [`Path`], `field`, `judge`: what a head requests, or its [`Refusal`].
//! - [`hear_front`], [`Front`]: an [`Arrival`], or more bytes are needed. An [`Exchange`] is with
//!   another region, and a [`Notice`] is of the server itself. A pull requests [`Pages`].
//! - [`Terms`] say which pushes are refused, and which notices are given. An [`Issuer`] is the
//!   server's name in them.
//! - `answer`, `ahead`, `exchange`, `notice`: the reply to an arrival. `render` makes its bytes.
//! - `again`: the reply to a refresh that is repeated.
//! - `tell`, `push`: log the record, and only then write the reply, or return a [`Fault`].
//! - `serving`, [`Edge`], [`keep_open`].
#![tactic(auto)]

mod again;
mod ahead;
mod answer;
mod counted;
mod device;
mod edge;
mod exchange;
mod field;
mod front;
mod hear;
mod issuer;
mod judge;
mod laws;
mod media_type;
mod notice;
mod open_reply;
mod path;
mod pull;
mod push;
mod put;
mod reach;
mod refusal;
mod render;
mod serving;
mod staying;
mod tell;
mod terms;

pub use ahead::PushError;
pub use answer::Answer;
pub use counted::Counted;
pub use device::{Failed, Sink};
pub use edge::{Edge, Served};
pub use exchange::{Exchange, Sent};
pub use front::{Front, Taken, hear_front};
pub use hear::Arrival;
pub use issuer::{Issuer, is_issuer};
pub use laws::{
    accepts_all, adds_issuer, hears_all, leads_alike, one_meaning, refused_is_lost, takes_as_region,
};
pub use notice::Notice;
pub use open_reply::keep_open;
pub use path::Path;
pub use pull::Pages;
pub use put::{Discard, put_whole};
pub use reach::{PathSet, Reach};
pub use refusal::Refusal;
pub use tell::Fault;
pub use terms::{RegionRange, Terms};
