//! Maps and sets of tk_dots beside plain lists, over pseudo-random changes.
//!
//! In the tests each allocation fails once, one run for each, as docs/GATE.md describes. A change
//! that runs out of memory changes nothing, and is then made again.

mod marks;
mod plain;
mod runs;
