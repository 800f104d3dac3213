//! Tests of the crates below over their public names, which no row of `check/rows/` can show.
//!
//! The crate has no function of its own. A crate with tests is proved once more for them, so these
//! tests are not in the crates that they test.
//!
//! - `ledger`: ledgers that run out of memory, ledgers beside a plain one, with facts skipped and
//!   families pruned too, forests, and how many look-ups a reply takes.
//! - `dots`: maps and sets by dots beside plain lists, also out of memory.
//! - `edge`: connections over devices that fail, and which paths are served.
//! - `region`: a region that runs out of memory.
//! - `results` and `uris`: results of calls that the program doesn't print.
//! - `pages`: pages in which marks that follow one another are one piece.
//! - `uncalled`: calls that no program makes.
#![tactic(auto)]

#[cfg(test)]
mod dots;
#[cfg(test)]
mod edge;
#[cfg(test)]
mod ledger;
#[cfg(test)]
mod pages;
#[cfg(test)]
mod region;
#[cfg(test)]
mod results;
#[cfg(test)]
mod uncalled;
#[cfg(test)]
mod uris;
