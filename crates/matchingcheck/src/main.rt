// Compares the search with brute force for every relation of one to four members: brute force goes through all lists of
// right members in dictionary order, and takes the first one that is a perfect matching. The marks must come back clear.
#![tactic(auto)]

ghost use Rattle.std.specs.Prelude.{◌<◌, ◌≤◌};

use matching::{Entry, Tables, WorkList};
use matchingtext::{TextTable, first_in};
use std::io;

const MOST: usize = 4;

const CELLS: usize = 20;

// The relation of the given number: bit k of it says of row k / n and column k % n.
fn write_cells(number: u32, n: usize, cells: &mut [u8]) {
    let mut bits = number;
    for row in cells.chunks_mut(n.saturating_add(1)).take(n) {
        for cell in row.iter_mut().take(n) {
            *cell = if bits % 2 == 1 { b'1' } else { b'0' };
            bits /= 2;
        }
    }
}

// The list of right members of the given number: its digits in base n. It is lent, and not answered, since brute force
// makes one after another.
fn write_list(number: usize, n: usize, rights: &mut [usize])
    requires { 0 < n }
{
    let mut rest = number;
    for right in rights.iter_mut().rev() {
        *right = rest % n;
        rest /= n;
    }
}

// Whether the left members have right members of their own that they allow.
fn is_perfect(cells: &[u8], n: usize, rights: &[usize]) -> bool {
    let mut rows = cells.chunks(n.saturating_add(1)).zip(rights).enumerate();
    rows.all(|(l, (row, right))| row.get(*right) == Some(&b'1')
        && rights.iter().take(l).all(|other| *other != *right))
}

// The first perfect matching, by trying all lists.
fn brute(cells: &[u8], n: usize) -> Option<[usize; MOST]>
    requires { 0 < n }
{
    let lists = [1usize, 4, 27, 256];
    let count = lists.get(n - 1).copied().unwrap_or(0);
    let mut list = [0; MOST];
    let rights = &mut list[..n.min(MOST)];
    for number in 0..count {
        write_list(number, n, rights);
        if is_perfect(cells, n, rights) {
            return Some(list);
        }
    }
    None
}

// The search does not answer what brute force finds, or leaves marks behind.
#[derive(Drop)]
struct Mismatch;

// Whether one relation has a perfect matching, as the search and brute force both say.
fn try_one(number: u32, n: usize) -> Result<bool, Mismatch>
    requires { (0 < n) × (n ≤ 4) }
{
    let mut cells = [b'\n'; CELLS];
    let mut mate = [0usize; MOST];
    let mut block = [0usize; MOST];
    let mut marks = [0u8; MOST];
    let mut entries = [Entry::default(); MOST];
    write_cells(number, n, &mut cells);
    let mut work = WorkList::over(&mut entries);
    let mut tables = Tables {
        block: &mut block[..n],
        marks: &mut marks,
        work: &mut work,
    };
    let table = TextTable::new(&cells, n);
    let found = first_in(&table, &mut mate[..n], &mut tables).is_ok();
    let expected = brute(&cells, n);
    let clear = marks.iter().all(|mark| *mark == 0);
    if clear && found.then_some(mate) == expected {
        Ok(found)
    } else {
        Err(Mismatch)
    }
}

// All relations of n members.
fn try_all(rt: HostRuntime, n: usize, relations: u32) -> io::Result<()>
    requires { (0 < n) × (n ≤ 4) }
{
    let mut fillable = 0u32;
    for number in 0..relations {
        let Ok(matched) = try_one(number, n) else {
            return println!(rt; "n {n}: relation {number} is not as brute force finds");
        };
        fillable = fillable.saturating_add(u32::from(matched));
    }
    println!(rt; "n {n}: {relations} relations, {fillable} fillable, all as brute force finds")
}

fn main(rt: HostRuntime) -> io::Result<()> {
    try_all(rt, 1, 2)?;
    try_all(rt, 2, 16)?;
    try_all(rt, 3, 512)?;
    try_all(rt, 4, 65536)
}
