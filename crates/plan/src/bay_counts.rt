ghost use Rattle.std.specs.Prelude.{◌≡◌, ℕ, ◌+◌, ◌*◌, ◌≤◌, Bool, length, nat_lt, slice_index};

use matching::Relation;

// How many carriers wait to go from each bay to each, a row for each start bay: a bay allows another where one waits.
#[derive(Drop)]
pub struct BayCounts<'a> {
    counts: &'a [u16],
    bays: usize,
    ghost room: { bays * bays ≤ length counts.now },
    ghost few: { bays ≤ 256 },
}

impl<'a> BayCounts<'a> {
    pub fn new(counts: &'a [u16], bays: usize) -> BayCounts<'a>
        requires { (bays * bays ≤ length counts.now) × (bays ≤ 256) }
        ensures { (result.bays ≡ bays) × (result.counts.now ≡ counts.now) }
    {
        BayCounts { counts, bays }
    }
}

impl Relation for BayCounts<'_> {
    ghost size = { λ b. b.bays };

    ghost allowed = { λ b start goal. nat_lt 0 (slice_index b.counts.now (start * b.bays + goal)) };

    fn allows(&self, left: usize, right: usize) -> bool {
        self.counts[left * self.bays + right] != 0
    }
}
