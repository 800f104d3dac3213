//! What decides requests: `Service`, and its `Outcome`.

ghost use Rattle.std.specs.Prelude.{◌≡◌, ◌++◌, ◌≤◌, ◌<◌, ℕ, Bool, true, List, length};
ghost use Rattle.tk_turn.specs.Outcomes.{taken_of, goes_on, is_end};
ghost use Rattle.tk_turn.specs.declared.service.Outcome.{Outcome as the_outcome};

/// What was made of the bytes of a client.
#[derive(Clone, Copy)]
pub enum Outcome {
    /// No request is whole.
    More,
    /// A request was decided: how many bytes it has, and whether another may follow.
    Decided(usize, bool),
    /// The connection ends without a further reply.
    Ended,
}

impl Outcome {
    // Returns how many bytes were taken.
    pub(crate) fn taken(self) -> usize
        ensures { result ≡ taken_of self }
    {
        match self {
            Outcome::More | Outcome::Ended => 0,
            Outcome::Decided(taken, _) => taken,
        }
    }

    /// Returns whether a request was decided behind which another may follow: the connection stays
    /// open.
    pub fn goes_on(self) -> bool
        ensures { result ≡ goes_on self }
    {
        match self {
            Outcome::More | Outcome::Ended => false,
            Outcome::Decided(_, stays) => stays,
        }
    }

    // Returns whether no further request is read.
    pub(crate) fn is_end(self) -> bool
        ensures { result ≡ is_end self }
    {
        match self {
            Outcome::More => false,
            Outcome::Decided(_, stays) => !stays,
            Outcome::Ended => true,
        }
    }
}

/// Decides the requests of many connections, one after the other.
pub trait Service {
    // What a decision may be: of the service, the bytes that have come and whether the client has
    // ended its side, to the outcome, the reply, the record, and the service afterwards.
    ghost decides: { Self → List ℕ → Bool → the_outcome → List ℕ → List ℕ → Self → Type 0 };

    // What sealing does to the service.
    ghost seals: { Self → Self → Type 0 };

    /// Decides the request at the front of the bytes, if it is whole. The reply is added to
    /// `replies`, and the record to `records`.
    fn decide(
        &mut self,
        input: &[u8],
        is_over: bool,
        replies: &mut Vec<u8>,
        records: &mut Vec<u8>,
    ) -> Outcome
        ensures within { taken_of result ≤ length input.now }
        ensures some { goes_on result ≡ true → 0 < taken_of result }
        ensures decided { (replied logged : List ℕ)
            × decides self.old input.now is_over result replied logged self.new
            × (replies.new.items ≡ replies.old.items ++ replied)
            × (records.new.items ≡ records.old.items ++ logged) };

    /// Seals the service, whose log has failed.
    fn seal(&mut self)
        ensures { seals self.old self.new };
}
