//! What a store knows of a dot.

use tk_fact::Fact;

/// What a store knows of a dot.
#[derive(Clone, Copy)]
pub enum SlotRef<'a> {
    /// The fact that is held at the dot.
    Held(&'a Fact),
    /// The mark that the dot is skipped: no fact is held there again.
    Skipped,
}
