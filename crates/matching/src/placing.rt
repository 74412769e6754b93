ghost use Rattle.std.specs.Prelude.{◌≡◌, ℕ, ◌<◌, ◌≤◌, length};
ghost use Rattle.matchings.specs.Matchings.{◌!◌};
ghost use Rattle.matchings.specs.Reaching.{loose, Inj, Chosen};
ghost use Rattle.matchings.specs.Placing.{Turned, Others, Confined};
ghost use Rattle.matching.specs.WorkLists.{members_of, parents_of, Room};
ghost use Rattle.matching.specs.Tables.{Ready, Kept};
ghost use Rattle.matching.specs.Seating.{Seated};
ghost use Rattle.matching.specs.Answers.{Outcome};

use crate::notes::Notes;
use crate::quest::Quest;
use crate::reaching::{line_up, reach};
use crate::relation::Relation;
use crate::tables::Tables;
use crate::ticks::Ticks;
use crate::work_list::WorkList;

// There is no right member for a left member: so many at the front of the work list are those that come to it.
#[derive(Clone, Copy, Debug, PartialEq, Eq)]
pub struct Stuck {
    pub reached: usize,
}

// The place, of the first `count` of the work list, of the least right member there that the left member of the quest allows.
fn choose<R: Relation>(
    quest: &Quest<R>,
    mate: &[usize],
    work: &WorkList,
    count: usize,
) -> Option<usize>
    requires seated { Seated (R.Relation.size quest.now.rel.now) mate.now }
    requires room { Room count work.now }
    requires below { (k : ℕ) → k < count → members_of work.now ! k < length mate.now }
    ensures { Chosen (loose (R.Relation.allowed quest.now.rel.now) quest.now.wild quest.now.left) mate.now (members_of work.now) count result }
{
    // Kept as it is: the place of the least is asked, so min_by_key would carry place and member along, and is no plainer.
    let mut best = None;
    let mut least = mate.len();
    for (k, entry) in work.first(count).iter().enumerate() {
        let right = mate[entry.member];
        if right < least && quest.may(quest.left, right) {
            best = Some(k);
            least = right;
        }
    }
    best
}

// Each on the way from `start` to the first of the work list takes the right member of its parent, and `left` that of the
// one at `start`.
fn rotate(mate: &mut [usize], left: usize, work: &WorkList, count: usize, start: usize)
    requires size { (Room count work.now) × ((left < length mate.old) × (start < count)) }
    requires inj { Inj (length mate.old) (λ k. mate.old ! k) }
    requires below { (k : ℕ) → k < count → members_of work.now ! k < length mate.old }
    requires rank { (k : ℕ) → 0 < k → k < count → parents_of work.now ! k < k }
    ensures { Turned (length mate.old) left (members_of work.now) (parents_of work.now) count start mate.old mate.new }
{
    let mut holder = left;
    let mut k = start;
    // Kept as it is: the loop goes from parent to parent, and no iterator is plainer.
    while k != 0 {
        let next = work.member(k);
        mate.swap(holder, next);
        holder = next;
        k = work.parent(k);
    }
}

// Gives the left member of the quest the least right member that it can have, where those below `fixed` keep theirs and none
// leaves its block. Where it is known of some members that they are a block by themselves from then on, they are at the
// front of the work list, and it is told how many they are.
pub fn place<R: Relation>(
    quest: &Quest<R>,
    mate: &mut [usize],
    tables: &mut Tables,
    notes: &mut Notes,
) -> Result<Option<usize>, Stuck>
    requires seated { Seated (R.Relation.size quest.now.rel.now) mate.old }
    requires ready { Ready (length mate.old) tables.old }
    requires others { Others (loose (R.Relation.allowed quest.now.rel.now) quest.now.wild) (length mate.old) quest.now.left mate.old }
    requires confined { Confined (loose (R.Relation.allowed quest.now.rel.now) quest.now.wild) (length mate.old) quest.now.fixed tables.old.block.now mate.old }
    ensures kept { Kept tables.old tables.new }
    ensures block { tables.new.block.now ≡ tables.old.block.now }
    ensures placed { Outcome (loose (R.Relation.allowed quest.now.rel.now) quest.now.wild) (length mate.old) quest.now.fixed quest.now.left tables.old.block.now mate.old mate.new (members_of tables.new.work.now) result }
{
    let block = &mut *tables.block;
    let movable = line_up(quest, block, tables.work);
    let Some(best) = choose(quest, mate, tables.work, movable) else {
        return Err(Stuck { reached: movable });
    };
    let goal = tables.work.member(best);
    let guard = Ticks {
        marks: tables.marks,
        count: mate.len(),
    };
    let count = reach(quest, goal, movable, mate, guard.marks, notes, tables.work);
    let sealed = (guard.marks[mate[goal]] == 0).then_some(count);
    let Some(start) = choose(quest, mate, tables.work, count) else {
        return Err(Stuck { reached: count });
    };
    rotate(mate, quest.left, tables.work, count, start);
    Ok(sealed)
}
