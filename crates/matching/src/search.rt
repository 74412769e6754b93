ghost use Rattle.std.specs.Prelude.{◌≡◌, ℕ, ◌+◌, ◌<◌, ◌≤◌, length, map, IsOk, MatchBool};
ghost use Rattle.matchings.specs.Matchings.{◌!◌, First};
ghost use Rattle.matchings.specs.Regular.{RegularCounts};
ghost use Rattle.matchings.specs.Reaching.{Clear, loose};
ghost use Rattle.matchings.specs.Placing.{Held, Split, HasLeast};
ghost use Rattle.matching.specs.WorkLists.{member_of, members_of};
ghost use Rattle.matching.specs.Tables.{Ready, Kept};
ghost use Rattle.matching.specs.Seating.{Seated};
ghost use Rattle.matching.specs.Answers.{Answer, Exactly, Settled};

use crate::notes::Notes;
use crate::placing::{Stuck, place};
use crate::quest::Quest;
use crate::relation::Relation;
use crate::tables::Tables;
use crate::work_list::Entry;

// The search tells at most this many classes of right members apart; all others are visited each time.
const NOTES: usize = 8192;

// No matching is perfect: so many members at the front of the work list block every one.
#[derive(Clone, Copy, Debug, PartialEq, Eq)]
pub struct Blockers {
    pub count: usize,
}

// Each left member gets the right member of its own number.
fn number(mate: &mut [usize])
    ensures { (k : ℕ) → k < length mate.old → mate.new ! k ≡ k }
{
    for (k, right) in mate.iter_mut().enumerate() {
        *right = k;
    }
}

// The members at hand get `label` for their block.
fn split(block: &mut [usize], at_hand: &[Entry], label: usize)
    requires { (k : ℕ) → k < length at_hand.now → map member_of at_hand.now ! k < length block.old }
    ensures { Split (map member_of at_hand.now) (length at_hand.now) label block.old block.new }
{
    for entry in at_hand {
        block[entry.member] = label;
    }
}

// Gives `next` a right member that it allows and that nobody before it has, in exchange for its own: the least, since that leaves
// the second pass less to do. What is promised is only that true tells of such a gift; false lets the search proper look.
// Kept as it is: no value goes with the flag, since either answer leaves a whole list of right members.
fn take_free<R: Relation>(rel: &R, next: usize, mate: &mut [usize]) -> bool
    requires size { (length mate.old ≡ R.Relation.size rel.now) × (next < length mate.old) }
    requires held { Held (loose (R.Relation.allowed rel.now) next) (length mate.old) mate.old }
    ensures { MatchBool result (Held (loose (R.Relation.allowed rel.now) (next + 1)) (length mate.old) mate.new) (mate.new ≡ mate.old) }
{
    // Kept as it is: the place of the least is asked, so min_by_key would carry place and right member along, and is no plainer.
    let mut best = None;
    let mut least = mate.len();
    for (k, right) in mate[next..].iter().enumerate() {
        if *right < least && rel.allows(next, *right) {
            best = Some(next + k);
            least = *right;
        }
    }
    let Some(k) = best else {
        return false;
    };
    mate.swap(next, k);
    true
}

// Some perfect matching, or some left members that block.
fn settle<R: Relation>(
    rel: &R,
    mate: &mut [usize],
    tables: &mut Tables,
    notes: &mut Notes,
) -> Result<(), Blockers>
    requires size { length mate.old ≡ R.Relation.size rel.now }
    requires ready { Ready (length mate.old) tables.old }
    requires united { Clear tables.old.block.now (length mate.old) }
    ensures kept { Kept tables.old tables.new }
    ensures block { tables.new.block.now ≡ tables.old.block.now }
    ensures settled { Settled (R.Relation.allowed rel.now) (length mate.old) mate.new (members_of tables.new.work.now) result }
{
    number(mate);
    let n = mate.len();
    // Kept as it is: the members are the numbers themselves, and each turn may change the whole of `mate`.
    for next in 0..n {
        if take_free(rel, next, mate) {
            continue;
        }
        let quest = Quest {
            rel,
            wild: next + 1,
            fixed: 0,
            left: next,
        };
        if let Err(Stuck { reached }) = place(&quest, mate, tables, notes) {
            let count = tables.work.gather(reached, n);
            return Err(Blockers { count });
        }
    }
    Ok(())
}

// True only if no later member of the block of `left` has a lesser right member that `left` allows. False lets the search proper
// look.
fn has_least<R: Relation>(rel: &R, left: usize, mate: &[usize], block: &[usize]) -> bool
    requires seated { Seated (R.Relation.size rel.now) mate.now }
    requires left { (length block.now ≡ length mate.now) × (left < length mate.now) }
    ensures { MatchBool result (HasLeast (R.Relation.allowed rel.now) (length mate.now) left block.now mate.now) (Unit {0}) }
{
    let held = mate[left];
    !mate[left + 1..].iter().zip(&block[left + 1..]).any(|(right, label)| *right < held
        && *label == block[left]
        && rel.allows(left, *right))
}

// Of a perfect matching the first in dictionary order.
fn refine<R: Relation>(rel: &R, mate: &mut [usize], tables: &mut Tables, notes: &mut Notes)
    requires size { length mate.old ≡ R.Relation.size rel.now }
    requires ready { Ready (length mate.old) tables.old }
    requires united { Clear tables.old.block.now (length mate.old) }
    requires held { Held (R.Relation.allowed rel.now) (length mate.old) mate.old }
    ensures kept { Kept tables.old tables.new }
    ensures first { First (R.Relation.allowed rel.now) (length mate.old) mate.new }
{
    let n = mate.len();
    // Kept as it is: the members are the numbers themselves, and each turn may change the whole of `mate`.
    for left in 0..n {
        let block = &mut *tables.block;
        if has_least(rel, left, mate, block) {
            continue;
        }
        let quest = Quest {
            rel,
            wild: n,
            fixed: left,
            left,
        };
        let Ok(Some(sealed)) = place(&quest, mate, tables, notes) else {
            continue;
        };
        split(tables.block, tables.work.first(sealed), left + 1);
    }
}

// The first perfect matching, into `mate`; or the left members that block every one, at the front of the work list.
pub fn first_matching<R: Relation>(
    rel: &R,
    mate: &mut [usize],
    tables: &mut Tables,
) -> Result<(), Blockers>
    requires size { length mate.old ≡ R.Relation.size rel.now }
    requires ready { Ready (R.Relation.size rel.now) tables.old }
    ensures answer { Answer (R.Relation.allowed rel.now) (R.Relation.size rel.now) mate.new (members_of tables.new.work.now) result }
    ensures exactly { Exactly (R.Relation.allowed rel.now) (R.Relation.size rel.now) result }
    ensures regular { RegularCounts (R.Relation.allowed rel.now) (R.Relation.size rel.now) → IsOk result }
    ensures kept { Kept tables.old tables.new }
{
    tables.block.fill(0);
    let mut seen = [0; NOTES];
    let mut notes = Notes::over(&mut seen[..mate.len().min(NOTES)]);
    settle(rel, mate, tables, &mut notes)?;
    refine(rel, mate, tables, &mut notes);
    Ok(())
}
