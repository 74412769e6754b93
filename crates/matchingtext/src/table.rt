ghost use Rattle.std.specs.Prelude.{◌≡◌, ℕ, ◌+◌, ◌*◌, ◌<◌, ◌≤◌, length};
ghost use Rattle.matchingtext.specs.Classes.{one};
ghost use Rattle.matchingtext.specs.Sheets.{allowed_by};

use matching::Relation;

// The rows of a relation as text, each with its newline.
#[derive(Clone, Copy)]
pub struct TextTable<'a> {
    pub(crate) rows: &'a [u8],
    pub(crate) count: usize,
    ghost ok: { count * (count + 1) ≤ length rows.now },
}

impl<'a> TextTable<'a> {
    pub fn new(rows: &'a [u8], count: usize) -> TextTable<'a>
        requires { count * (count + 1) ≤ length rows.now }
        ensures { (result.count ≡ count) × (result.rows.now ≡ rows.now) }
    {
        TextTable { rows, count }
    }
}

impl TextTable<'_> {
    // How many left members there are, and as many right members.
    pub fn count(&self) -> usize
        ensures { result ≡ self.now.count }
    {
        self.count
    }

    // The characters of a row, without its newline.
    pub(crate) fn row(&self, left: usize) -> &[u8]
        requires { left < self.now.count }
        ensures long { length result.now ≡ self.now.count }
        ensures ones { (right : ℕ) → right < self.now.count → one result.now right ≡ allowed_by self.now.rows.now self.now.count left right }
    {
        let from = left * (self.count + 1);
        &self.rows[from..from + self.count]
    }
}

impl Relation for TextTable<'_> {
    ghost size = { λ t. t.count };

    ghost allowed = { λ t l r. allowed_by t.rows.now t.count l r };

    fn allows(&self, left: usize, right: usize) -> bool {
        self.row(left)[right] == b'1'
    }
}
