ghost use Rattle.std.specs.Prelude.{◌≡◌, ℕ, ◌+◌, ◌<◌, ◌≤◌, length};
ghost use Rattle.matchings.specs.Matchings.{◌!◌};
ghost use Rattle.matchings.specs.Reaching.{Clear, Beyond, loose, Lined, Movable, Same, Reached, Closed, Ended, Joins};
ghost use Rattle.matching.specs.WorkLists.{members_of, parents_of, Room, SameRoom};
ghost use Rattle.matching.specs.Seating.{Seated};

use crate::notes::Notes;
use crate::quest::Quest;
use crate::relation::Relation;
use crate::work_list::WorkList;

// The members from `fixed` on of the block of `left` into the work list, `left` first. How many they are.
pub fn line_up<R: Relation>(quest: &Quest<R>, block: &[usize], work: &mut WorkList) -> usize
    requires room { Room (length block.now) work.old }
    requires left { quest.now.left < length block.now }
    ensures lined { Lined (length block.now) quest.now.fixed block.now quest.now.left (length block.now) result (members_of work.new) }
    ensures room { SameRoom work.old work.new }
{
    let Quest { fixed, left, .. } = *quest;
    work.put(0, left);
    let mut count = 1;
    for (k, label) in block[fixed..].iter().enumerate() {
        let l = fixed + k;
        if l != left && *label == block[left] {
            work.put(count, l);
            count += 1;
        }
    }
    count
}

// From the member at `head` of the work list: of the `movable` ones not among the first `count`, who allows its right member
// is taken up behind them, and the right member that it has is ticked. How many there are then.
pub fn visit<R: Relation>(
    quest: &Quest<R>,
    movable: usize,
    mate: &[usize],
    head: usize,
    count: usize,
    marks: &mut [u8],
    work: &mut WorkList,
) -> usize
    requires seated { Seated (R.Relation.size quest.now.rel.now) mate.now }
    requires room { (length mate.now ≤ length marks.old) × Room (length mate.now) work.old }
    requires head { (head < count) × (count ≤ movable) }
    requires movable { Movable (length mate.now) quest.now.fixed movable (members_of work.old) }
    requires reached { Reached (loose (R.Relation.allowed quest.now.rel.now) quest.now.wild) (length mate.now) quest.now.fixed quest.now.left mate.now (members_of work.old) (parents_of work.old) marks.old count }
    requires closed { Closed (loose (R.Relation.allowed quest.now.rel.now) quest.now.wild) movable mate.now (members_of work.old) marks.old head }
    ensures movable { Movable (length mate.now) quest.now.fixed movable (members_of work.new) }
    ensures same { Same movable (members_of work.old) (members_of work.new) }
    ensures front { (k : ℕ) → k < count → members_of work.new ! k ≡ members_of work.old ! k }
    ensures reached { Reached (loose (R.Relation.allowed quest.now.rel.now) quest.now.wild) (length mate.now) quest.now.fixed quest.now.left mate.now (members_of work.new) (parents_of work.new) marks.new result }
    ensures closed { Closed (loose (R.Relation.allowed quest.now.rel.now) quest.now.wild) movable mate.now (members_of work.new) marks.new (head + 1) }
    ensures ahead { (count ≤ result) × (result ≤ movable) }
    ensures rest { Beyond (length mate.now) marks.old marks.new }
    ensures room { SameRoom work.old work.new }
{
    let mut tail = count;
    let target = mate[work.member(head)];
    // Kept as it is: entries change places in the list while it is gone over, which no loop over the entries can do.
    for k in count..movable {
        let next = work.member(k);
        if quest.may(next, target) {
            work.take_up(tail, k, head);
            marks[mate[next]] = 1;
            tail += 1;
        }
    }
    tail
}

// The first place of the work list, of those from `from` to below `to`, whose right member the left member `goal` allows.
fn find<R: Relation>(
    quest: &Quest<R>,
    goal: usize,
    mate: &[usize],
    work: &WorkList,
    from: usize,
    to: usize,
) -> Option<usize>
    requires seated { Seated (R.Relation.size quest.now.rel.now) mate.now }
    requires places { (from ≤ to) × (Room to work.now × (goal < length mate.now)) }
    requires below { (k : ℕ) → k < to → members_of work.now ! k < length mate.now }
    ensures { Joins (loose (R.Relation.allowed quest.now.rel.now) quest.now.wild goal) mate.now (members_of work.now) to result }
{
    work.first(to)[from..]
        .iter()
        .position(|entry| quest.may(goal, mate[entry.member]))
        .map(|k| from + k)
}

// Those that come to `left` by such steps, `left` first, until `goal` is among them; the right members that they have are
// ticked. How many they are. Where a right member of the same class was visited before, all who allow it are there already:
// the classes visited are noted.
pub fn reach<R: Relation>(
    quest: &Quest<R>,
    goal: usize,
    movable: usize,
    mate: &[usize],
    marks: &mut [u8],
    notes: &mut Notes,
    work: &mut WorkList,
) -> usize
    requires seated { Seated (R.Relation.size quest.now.rel.now) mate.now }
    requires room { (length mate.now ≤ length marks.old) × Room (length mate.now) work.old }
    requires left { (members_of work.old ! 0 ≡ quest.now.left) × (0 < movable) }
    requires goal { (goal < length mate.now) × (quest.now.fixed ≤ goal) }
    requires movable { Movable (length mate.now) quest.now.fixed movable (members_of work.old) }
    requires clear { Clear marks.old (length mate.now) }
    ensures reached { Reached (loose (R.Relation.allowed quest.now.rel.now) quest.now.wild) (length mate.now) quest.now.fixed quest.now.left mate.now (members_of work.new) (parents_of work.new) marks.new result }
    ensures ended { Ended (loose (R.Relation.allowed quest.now.rel.now) quest.now.wild) (length mate.now) quest.now.fixed movable goal mate.now (members_of work.old) (members_of work.new) marks.new result }
    ensures rest { Beyond (length mate.now) marks.old marks.new }
    ensures room { SameRoom work.old work.new }
{
    notes.clear();
    marks[mate[quest.left]] = 1;
    let mut asked = 0;
    let mut head = 0;
    let mut tail = 1;
    // Kept as it is: the list grows behind the loop, so that no iterator can lend it.
    while head < tail && marks[mate[goal]] == 0 {
        if let Some(k) = find(quest, goal, mate, work, asked, tail) {
            work.join(tail, goal, k);
            marks[mate[goal]] = 1;
            return tail + 1;
        }
        asked = tail;
        if notes.is_new(quest.rel, mate[work.member(head)]) {
            tail = visit(quest, movable, mate, head, tail, marks, work);
        }
        head += 1;
    }
    tail
}
