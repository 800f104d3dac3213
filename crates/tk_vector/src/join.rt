//! Values that grow, and are joined.

ghost use Rattle.std.specs.Prelude.{◌≡◌, ◌↔◌, Err, OnOk, IsTrue};
ghost use Rattle.tk_vector.specs.Join.{IsJoin};
ghost use Rattle.tk_vector.specs.declared.join.JoinError.TheVariants as error;

/// The reason why two values were not joined.
#[derive(Clone, Copy, PartialEq, Eq)]
pub enum JoinError {
    /// The two don't agree. Nothing changed.
    Conflict,
    /// Memory ran out. The value is above the old one and below the join.
    Memory,
}

/// Values that grow, and two of which can be joined to the least value above both, if they agree.
///
/// The values of such a type are a join semilattice, except that two values may not agree. Each
/// type has a function whose contract is `JoinLaws` of its members.
pub trait Join {
    // The order: everything in the first value is in the second.
    ghost within: { Self → Self → Type 0 };

    // Two values agree: they may be joined.
    ghost agree: { Self → Self → Type 0 };

    /// Returns whether the other value is above this one.
    fn below(&self, other: &Self) -> bool
        ensures { IsTrue result ↔ within self.now other.now };

    /// Makes this value the least value above both. Before anything changes, the function finds out
    /// whether the two agree; that takes no memory.
    fn join_from(&mut self, other: &Self) -> Result<(), JoinError>
        ensures ok { OnOk result (IsJoin within self.old other.now self.new) }
        ensures agrees { OnOk result (agree self.old other.now) }
        ensures conflict { result ≡ Err error.Conflict
            → (agree self.old other.now → ⊥) × (self.new ≡ self.old) }
        ensures memory { result ≡ Err error.Memory
            → agree self.old other.now × within self.old self.new
            × ((c : Self) → within self.old c → within other.now c → within self.new c) };
}
