ghost use Rattle.std.specs.Prelude.{◌≡◌, ℕ, ◌+◌, ◌*◌, ◌<◌, ◌≤◌, length, vec_items, vec_len, ◌==◌, IfOk};
ghost use Rattle.matchings.specs.Matchings.{◌!◌};
ghost use Rattle.matchingtext.specs.Sheets.{allowed_by};
ghost use Rattle.matchingtext.specs.Classes.{one, Twinless, SplitBy, AlikeColumns};

use crate::table::TextTable;
use matching::Relation;
use std::alloc::{AllocError, Global};

fn is_one(character: u8) -> bool
    ensures { result ≡ (character == 49) }
{
    character == b'1'
}

// Splits the classes by one row: a column that differs there from the column that its class is named after moves to a new
// class, its twin, named after the first that does. `twins` has these by the old class.
fn split_by(row: &[u8], classes: &mut [usize], twins: &mut [Option<usize>])
    requires size { (length classes.old ≡ length row.now) × (length twins.old ≡ length row.now) }
    requires below { (c : ℕ) → c < length row.now → classes.old ! c < length row.now }
    requires fresh { Twinless (length row.now) twins.old }
    ensures { SplitBy (one row.now) (length row.now) classes.old classes.new }
{
    for (c, class) in classes.iter_mut().enumerate() {
        if is_one(row[c]) != is_one(row[*class]) {
            let twin = twins[*class].unwrap_or(c);
            twins[*class] = Some(twin);
            *class = twin;
        }
    }
}

// Gives each column of a table the number of a column that is the same in every row, its class.
fn find_classes(table: &TextTable, classes: &mut [usize], twins: &mut [Option<usize>])
    requires size { (length classes.old ≡ table.now.count) × (length twins.old ≡ table.now.count) }
    ensures { AlikeColumns table.now.rows.now table.now.count classes.new }
{
    classes.fill(0);
    // Kept as it is: the left members are the numbers themselves, and the table lends the row of each.
    for left in 0..table.count {
        twins.fill(None);
        split_by(table.row(left), classes, twins);
    }
}

// The class of each column of a table.
pub fn classes_of(heap: Global, table: &TextTable) -> Result<Vec<usize>, AllocError>
    ensures { IfOk result (λ classes. (vec_len classes ≡ table.now.count) × AlikeColumns table.now.rows.now table.now.count (vec_items classes)) }
{
    let mut classes = vec![in heap; 0usize; table.count]?;
    let mut twins = vec![in heap; None; table.count]?;
    find_classes(table, &mut classes, &mut twins);
    Ok(classes)
}

// A table with the classes of its columns: the same relation, and its search visits each class once.
#[derive(Drop)]
pub struct ClassedTable<'a> {
    table: &'a TextTable<'a>,
    classes: &'a [usize],
    ghost many: { length classes.now ≡ table.now.count },
    ghost columns: { ∥ AlikeColumns table.now.rows.now table.now.count classes.now ∥₁ },
}

impl<'a> ClassedTable<'a> {
    pub fn new(table: &'a TextTable<'a>, classes: &'a [usize]) -> ClassedTable<'a>
        requires many { length classes.now ≡ table.now.count }
        requires columns { AlikeColumns table.now.rows.now table.now.count classes.now }
        ensures { result.table.now ≡ table.now }
    {
        ClassedTable { table, classes }
    }
}

impl Relation for ClassedTable<'_> {
    ghost size = { λ t. t.table.now.count };

    ghost allowed = { λ t l r. allowed_by t.table.now.rows.now t.table.now.count l r };

    ghost classes = { λ t r. t.classes.now ! r };

    fn allows(&self, left: usize, right: usize) -> bool {
        self.table.allows(left, right)
    }

    fn class(&self, right: usize) -> Option<usize> {
        Some(self.classes[right])
    }
}
