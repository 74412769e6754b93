ghost use Rattle.std.specs.Prelude.{◌≡◌, ℕ, ◌<◌};
ghost use Rattle.matchings.specs.Matchings.{◌!◌};
ghost use Rattle.matchings.specs.Reaching.{Added};

use crate::relation::Relation;

// Which classes of right members were visited, in a lent byte for each class that is told apart.
#[derive(Drop)]
pub struct Notes<'a> {
    // Kept as it is: bytes, as the marks are, so that one vocabulary (`Clear`, `Added`) serves both.
    seen: &'a mut [u8],
}

impl<'a> Notes<'a> {
    pub fn over(seen: &'a mut [u8]) -> Notes<'a>
        ensures { result.seen.now ≡ seen.old }
    {
        Notes { seen }
    }
}

impl Notes<'_> {
    // No class is noted any longer.
    pub fn clear(&mut self)
        ensures { (c : ℕ) → self.new.seen.now ! c ≡ 0 }
    {
        self.seen.fill(0);
    }

    // Notes the class of a right member. False only if it was noted before; one that is not known, or past the end of the
    // notes, always passes for new.
    // Kept as it is: no value goes with the flag, since the class is noted from then on either way.
    pub fn is_new<R: Relation>(&mut self, rel: &R, right: usize) -> bool
        requires { right < R.Relation.size rel.now }
        ensures { Added (R.Relation.allowed rel.now) (R.Relation.size rel.now) (R.Relation.classes rel.now) right self.old.seen.now self.new.seen.now result }
    {
        let Some(class) = rel.class(right) else {
            return true;
        };
        if class >= self.seen.len() {
            return true;
        }
        let fresh = self.seen[class] == 0;
        self.seen[class] = 1;
        fresh
    }
}
