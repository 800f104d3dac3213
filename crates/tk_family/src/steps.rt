//! Counts of look-ups.

ghost use Rattle.std.specs.Prelude.{◌≡◌, ◌+◌, ◌^◌, ◌<◌, ◌≤◌};

use std::marker::Model;

/// A number of look-ups, 0 to 18,446,744,073,709,551,615. Contracts see the number.
#[derive(Drop)]
pub struct Steps {
    count: u64,
}

impl Model for Steps {
    ghost use Rattle.std.specs.Prelude.{ℕ};

    ghost Value = { ℕ };

    ghost view = { λ s. s.count };
}

impl Steps {
    /// Returns a count of 0.
    pub fn new() -> Steps
        ensures { result ≡ 0 }
    {
        Steps { count: 0 }
    }

    /// Adds one. The greatest number stays as it is.
    pub fn tick(&mut self)
        ensures more { self.old + 1 < 2 ^ 64 → self.new ≡ self.old + 1 }
        ensures greatest { self.old + 1 ≡ 2 ^ 64 → self.new ≡ self.old }
        ensures at_least { self.old ≤ self.new }
        ensures at_most { self.new ≤ self.old + 1 }
    {
        self.count = self.count.saturating_add(1);
    }

    /// Returns the number of look-ups.
    pub fn count(&self) -> u64
        ensures { result ≡ self.now }
    {
        self.count
    }
}
