ghost use Rattle.std.specs.Prelude.{◌+◌, ◌<◌, ◌≤◌, length, MatchBool};

// Whether there are so many bytes from a place on. The sum of the two is not made, since it could wrap.
pub fn has_room(out: &[u8], at: usize, count: usize) -> bool
    ensures { MatchBool result (at + count ≤ length out.now) (length out.now < at + count) }
{
    at <= out.len() && count <= out.len() - at
}
