ghost use Rattle.std.specs.Prelude.{◌≡◌, length, IfOk, MatchResult};
ghost use Rattle.matchings.specs.Matchings.{First};
ghost use Rattle.matching.specs.Tables.{Ready, Kept};
ghost use Rattle.matchingtext.specs.Sheets.{allowed_by};
ghost use Rattle.matchingtext.specs.Solutions.{Unmatched, Solved};

use crate::classes::{ClassedTable, classes_of};
use crate::table::TextTable;
use matching::{Blockers, Entry, Relation, Tables, WorkList, first_matching};
use std::alloc::{AllocError, Global};

// The first perfect matching of a relation, into `mate`, if it has one. The other tables are lent for the work.
pub fn first_in<R: Relation>(
    rel: &R,
    mate: &mut [usize],
    tables: &mut Tables,
) -> Result<(), Blockers>
    requires size { length mate.old ≡ R.Relation.size rel.now }
    requires ready { Ready (R.Relation.size rel.now) tables.old }
    ensures found { MatchResult result (λ _. First (R.Relation.allowed rel.now) (R.Relation.size rel.now) mate.new) (λ _. Unmatched (R.Relation.allowed rel.now) (R.Relation.size rel.now)) }
    ensures kept { Kept tables.old tables.new }
{
    first_matching(rel, mate, tables)
}

// The first perfect matching of a relation of `n` members, by tables that are made for it; none where there is none.
fn first_of<R: Relation>(heap: Global, rel: &R, n: usize) -> Result<Option<Vec<usize>>, AllocError>
    requires { n ≡ R.Relation.size rel.now }
    ensures { IfOk result (λ o. Solved (R.Relation.allowed rel.now) (R.Relation.size rel.now) o) }
{
    let mut mate = vec![in heap; 0usize; n]?;
    let mut block = vec![in heap; 0usize; n]?;
    let mut marks = vec![in heap; 0u8; n]?;
    let mut entries = vec![in heap; Entry::default(); n]?;
    let mut work = WorkList::over(&mut entries);
    let mut tables = Tables {
        block: &mut block,
        marks: &mut marks,
        work: &mut work,
    };
    let found = first_in(rel, &mut mate, &mut tables);
    Ok(found.ok().map(|()| mate))
}

// The first perfect matching, by tables that are made for it; none where there is none.
pub fn solve(heap: Global, table: &TextTable) -> Result<Option<Vec<usize>>, AllocError>
    ensures { IfOk result (λ o. Solved (allowed_by table.now.rows.now table.now.count) table.now.count o) }
{
    let classes = classes_of(heap, table)?;
    first_of(heap, &ClassedTable::new(table, &classes), table.count)
}
