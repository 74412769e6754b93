ghost use Rattle.std.specs.Prelude.{◌≡◌, ◌≤◌, length};
ghost use Rattle.matchings.specs.Reaching.{Clear, Beyond};

// The caller's marks while right members are ticked off in the first `count` of them: let go, it clears those.
// Kept as it is: over just the first marks it stayed open in `place` that they come back to the tables as the guard leaves them.
pub struct Ticks<'a> {
    pub marks: &'a mut [u8],
    pub count: usize,
}

impl Drop for Ticks<'_> {
    fn drop(self)
        requires { self.count ≤ length self.marks.now }
        ensures zero { Clear self.exit.0.now self.entry.count }
        ensures long { length self.exit.0.now ≡ length self.entry.marks.now }
        ensures rest { Beyond self.entry.count self.entry.marks.now self.exit.0.now }
    {
        let Ticks { marks, count } = self;
        marks[..count].fill(0);
    }
}
