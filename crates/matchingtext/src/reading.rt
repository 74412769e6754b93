ghost use Rattle.std.specs.Prelude.{◌≡◌, ℕ, ◌<◌, ◌≤◌, length, Decides, MatchOption};
ghost use Rattle.matchings.specs.Matchings.{◌!◌};
ghost use Rattle.matchingtext.specs.Sheets.{LineEnd, Read, Row, Ends};
ghost use Rattle.matchingtext.specs.Pages.{Front};

use crate::table::TextTable;

// Where the first line ends: at its newline.
fn line_end(text: &[u8]) -> Option<usize>
    ensures { MatchOption result ((k : ℕ) → k < length text.now → text.now ! k ≡ 10 → ⊥) (λ end. (end < length text.now) × LineEnd text.now 0 end) }
{
    text.iter().position(|byte| *byte == b'\n')
}

// The number that up to nine decimal digits write.
// Kept as it is: `parse` would also take a sign and more than nine digits.
fn numeral(digits: &[u8]) -> Option<usize>
    ensures { Read digits.now result }
{
    if digits.is_empty() || digits.len() > 9 {
        return None;
    }
    let mut n = 0usize;
    for digit in digits {
        if !matches!(*digit, b'0'..=b'9') {
            return None;
        }
        n = n * 10 + usize::from(*digit - b'0');
    }
    Some(n)
}

// Whether `n` characters 0 and 1 and a newline stand at `at`.
fn is_row(text: &[u8], at: usize, n: usize) -> bool
    requires { at ≤ length text.now }
    ensures { Decides result (Row text.now at n) }
{
    n < text.len() - at
        && text[at..at + n]
            .iter()
            .all(|bit| matches!(*bit, b'0' | b'1'))
        && text[at + n] == b'\n'
}

// Where `n` rows from `from` on end.
fn rows_end(text: &[u8], from: usize, n: usize) -> Option<usize>
    requires { from ≤ length text.now }
    ensures { Ends text.now from n result }
{
    let mut at = from;
    // Kept as it is: the place goes on only past a row that was found: no iterator is plainer. The proof alone names `row`.
    for row in 0..n {
        if !is_row(text, at, n) {
            return None;
        }
        at += n + 1;
    }
    Some(at)
}

// A relation at the front of a text, and what follows it.
#[derive(Clone, Copy)]
pub struct Sheet<'a> {
    pub table: TextTable<'a>,
    pub rest: &'a [u8],
}

// The relation at the front of a text.
pub fn first_sheet(text: &[u8]) -> Option<Sheet<'_>>
    ensures { Front text.now result }
{
    let end = line_end(text)?;
    let count = numeral(&text[..end])?;
    let to = rows_end(text, end + 1, count)?;
    let table = TextTable::new(&text[end + 1..to], count);
    Some(Sheet {
        table,
        rest: &text[to..],
    })
}
