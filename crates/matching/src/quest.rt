ghost use Rattle.std.specs.Prelude.{◌≡◌, ◌<◌, ◌≤◌};
ghost use Rattle.matchings.specs.Reaching.{loose};

use crate::relation::Relation;

// What the search for one left member goes by: in the relation members from `wild` on, not settled yet, allow everything,
// those below `fixed` keep what they have, and `left` is to get its right member.
// Kept as it is: `Seated` stands in several contracts, since a type around the lent `mate` makes each read and swap a method.
#[derive(Drop)]
pub struct Quest<'a, R: Relation> {
    pub rel: &'a R,
    pub wild: usize,
    pub fixed: usize,
    pub left: usize,
    ghost member: { left < R.Relation.size rel.now },
    ghost free: { fixed ≤ left },
}

impl<R: Relation> Quest<'_, R> {
    // Whether `left` may have `right`.
    pub fn may(&self, left: usize, right: usize) -> bool
        requires { (left < R.Relation.size self.now.rel.now) × (right < R.Relation.size self.now.rel.now) }
        ensures { result ≡ loose (R.Relation.allowed self.now.rel.now) self.now.wild left right }
    {
        left >= self.wild || self.rel.allows(left, right)
    }
}
