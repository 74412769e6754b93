ghost use Rattle.std.specs.Prelude.{◌≡◌, ℕ, ◌<◌, Bool, MatchOption};
ghost use Rattle.matchings.specs.Reaching.{IsClass};

// Which right members each left member allows, of as many of the one as of the other.
pub trait Relation {
    ghost size: { Self → ℕ };

    ghost allowed: { Self → ℕ → ℕ → Bool };

    // The class of each right member. The fewer classes, the faster the search; each may be one by itself.
    ghost classes: { Self → ℕ → ℕ } = { λ _ right. right };

    fn allows(&self, left: usize, right: usize) -> bool
        requires { (left < size self.now) × (right < size self.now) }
        ensures { result ≡ allowed self.now left right };

    // The class of a right member, if it is known that all of that class are allowed by the same left members.
    fn class(&self, right: usize) -> Option<usize>
        requires { right < size self.now }
        ensures { MatchOption result (Unit {0}) (λ c. IsClass (allowed self.now) (size self.now) (classes self.now) right c) }
    {
        None
    }
}
