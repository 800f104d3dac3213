//! Turns: the requests of many connections are decided one after the other, their records are
//! written and flushed once, and only then may their replies be sent.
//!
//! A turn holds replies back until the log has kept the records behind them. If the log fails, no
//! reply of that turn is sent. A request that isn't whole yet changes nothing. A turn decides at
//! most `MAX_REQUESTS` requests of each connection, so no client keeps the others out.
//!
//! - `service`: `Service`, what decides requests. It is a trait, so that this crate stands on no
//!   region.
//! - `log`: `Log`, where their records are written.
//! - `link`: [`Link`], the bytes of one connection. What may be sent is apart from what is held
//!   back, and [`send`] sends the first alone.
//! - `turn`: [`take_turn`].
//!
//! The crate has no socket and no clock: which connections have a turn, in which order and when, is
//! the caller's choice. The definitions are in `specs/Turns.antt`.
#![tactic(auto)]

mod link;
mod log;
mod requests;
mod service;
#[cfg(test)]
mod tests;
mod turn;

pub use link::{Link, send};
pub use log::{Log, LogFailed};
pub use service::{Outcome, Service};
pub use turn::take_turn;
