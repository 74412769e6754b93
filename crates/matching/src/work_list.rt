ghost use Rattle.std.specs.Prelude.{◌≡◌, ℕ, ◌+◌, ◌-◌, ◌<◌, ◌≤◌, length, take, slice_set};
ghost use Rattle.matchings.specs.Matchings.{◌!◌};
ghost use Rattle.matchings.specs.Placing.{Gathered};
ghost use Rattle.matching.specs.WorkLists.{members_of, parents_of, places, SameRoom, Exchanged};

// A left member at hand, with the place of its parent.
#[derive(Clone, Copy, Debug, Default, PartialEq, Eq)]
pub struct Entry {
    pub member: usize,
    pub parent: usize,
}

// The left members that the search has at hand, by their places: n entries for n members, 2n numbers together.
#[derive(Drop)]
pub struct WorkList<'a> {
    entries: &'a mut [Entry],
}

impl<'a> WorkList<'a> {
    // A work list over lent entries, whatever they are.
    pub fn over(entries: &'a mut [Entry]) -> WorkList<'a>
        ensures { result.entries.now ≡ entries.old }
    {
        WorkList { entries }
    }
}

impl WorkList<'_> {
    // The member at a place.
    pub fn member(&self, place: usize) -> usize
        requires { place < places self.now }
        ensures { result ≡ members_of self.now ! place }
    {
        self.entries[place].member
    }

    // The entries at the first `count` places.
    pub(crate) fn first(&self, count: usize) -> &[Entry]
        requires { count ≤ places self.now }
        ensures { result.now ≡ take count self.now.entries.now }
    {
        &self.entries[..count]
    }

    // The place of the parent of the member at a place.
    pub(crate) fn parent(&self, place: usize) -> usize
        requires { place < places self.now }
        ensures { result ≡ parents_of self.now ! place }
    {
        self.entries[place].parent
    }

    // Another member at a place.
    pub(crate) fn put(&mut self, place: usize, member: usize)
        requires { place < places self.old }
        ensures members { members_of self.new ≡ slice_set (members_of self.old) place member }
        ensures parents { parents_of self.new ≡ parents_of self.old }
        ensures room { SameRoom self.old self.new }
    {
        self.entries[place].member = member;
    }

    // Another member with its parent at a place.
    pub(crate) fn join(&mut self, place: usize, member: usize, parent: usize)
        requires { place < places self.old }
        ensures members { members_of self.new ≡ slice_set (members_of self.old) place member }
        ensures parents { parents_of self.new ≡ slice_set (parents_of self.old) place parent }
        ensures room { SameRoom self.old self.new }
    {
        self.entries[place] = Entry { member, parent };
    }

    // The member at `from` changes places with the one at `place`, where it gets a parent.
    pub(crate) fn take_up(&mut self, place: usize, from: usize, parent: usize)
        requires { (place < places self.old) × (from < places self.old) }
        ensures members { Exchanged place from (members_of self.old) (members_of self.new) }
        ensures parents { parents_of self.new ≡ slice_set (parents_of self.old) place parent }
        ensures room { SameRoom self.old self.new }
    {
        let member = self.member(from);
        let other = self.member(place);
        self.put(from, other);
        self.join(place, member, parent);
    }

    // The entries from `reached` to below `count` come right behind the first one. How many then stand there.
    pub(crate) fn gather(&mut self, reached: usize, count: usize) -> usize
        requires { (count ≤ places self.old) × ((0 < reached) × (reached ≤ count)) }
        ensures many { result ≡ count - reached + 1 }
        ensures gathered { Gathered count reached (members_of self.old) (members_of self.new) }
        ensures room { SameRoom self.old self.new }
    {
        self.entries.copy_within(reached..count, 1);
        count - reached + 1
    }
}
