// The image: its words, tables and cells. Every read is total: a word past the end is 0. So no
// public function has a `requires`, and each contract is an equation with a definition of specs/, for every image.
// header: kind 1. columns: the cells by name. keys: names of arguments, keys of members. lookup: the selections of one set. The
// rules of the rows (kind 4) have a crate of their own, `rows`; what they promise of an image is `Good`.
#![tactic(auto)]

ghost use Rattle.std.specs.Prelude.{◌≡◌, ◌*◌, ◌^◌, ◌<◌};
ghost use Rattle.tables.specs.Layout.{table_count, header_words, row_width, most_rows};
ghost use Rattle.tables.specs.Image.{word_at, count_at, offset_at, cell_at, row_in, lies_within};

use lists::get;

pub mod columns;
pub mod header;
pub mod keys;
pub mod lookup;

// The word that stands for no row.
pub const NONE: u32 = u32::MAX;

// Tables are numbers and no enum: `count`, `offset`, `cell`, `row_width` and `most_rows` answer for every number.
pub const TYPES: u8 = 0;

pub const REFERENCES: u8 = 1;

pub const OPERATIONS: u8 = 2;

pub const FRAGMENTS: u8 = 3;

pub const SETS: u8 = 4;

pub const SELECTIONS: u8 = 5;

pub const ARGUMENTS: u8 = 6;

pub const VALUES: u8 = 7;

pub const VARIABLES: u8 = 8;

// The tables in their order: the words in a row, and how many rows at most. There is one edition so far, and a number that is no
// edition is read as that one.
const TABLES: [(u8, u32); 9] = [
    (2, 4096),
    (2, 8192),
    (4, 64),
    (2, 512),
    (3, 4096),
    (9, 8192),
    (3, 8192),
    (4, 16384),
    (3, 1024),
];

#[tactic(auto, using(crate::proofs::Widths::one_edition), unfolding(crate::specs::Layout::table_count))]
pub fn table_count(edition: u32) -> u8
    ensures { result ≡ table_count edition }
{
    9
}

// The row width and the most rows of a table; none where there is no such table.
fn layout(edition: u32, table: u8) -> (u8, u32)
    ensures { (result.0 ≡ row_width edition table) × (result.1 ≡ most_rows edition table) }
{
    TABLES.get(table as usize).copied().unwrap_or((0, 0))
}

// The words in a row.
pub fn row_width(edition: u32, table: u8) -> u8
    ensures { result ≡ row_width edition table }
{
    layout(edition, table).0
}

pub fn most_rows(edition: u32, table: u8) -> u32
    ensures { result ≡ most_rows edition table }
{
    layout(edition, table).1
}

pub fn header_words(edition: u32) -> u32
    ensures { result ≡ header_words edition }
{
    2 + 2 * u32::from(table_count(edition))
}

// Word `at` of the image; 0 past the end.
#[tactic(auto, unfolding(crate::specs::Image::word_at))]
pub fn word(image: &[u32], at: usize) -> u32
    ensures { result ≡ word_at image.now at }
{
    get(image, at)
}

// The two header words of a table.
pub fn count(image: &[u32], table: u8) -> u32
    ensures { result ≡ count_at image.now table }
{
    word(image, 2 + 2 * (table as usize))
}

pub fn offset(image: &[u32], table: u8) -> u32
    ensures { result ≡ offset_at image.now table }
{
    word(image, 3 + 2 * (table as usize))
}

// The words of so many rows: far from the end of `usize`, so that sums with it fit.
#[tactic(auto, using(crate::proofs::Widths::scaled))]
fn span(rows: u32, width: u8) -> usize
    ensures { (result ≡ rows * width) × (result < 2 ^ 40) }
{
    (rows as usize) * (width as usize)
}

// The word of a table at a row and a column.
#[tactic(auto, unfolding(crate::specs::Image::cell_at))]
pub fn cell(image: &[u32], table: u8, row: u32, column: u8) -> u32
    ensures { result ≡ cell_at image.now table row column }
{
    let above = span(row, row_width(word(image, 0), table));
    let start = offset(image, table) as usize;
    word(image, start + above + (column as usize))
}

// `count` rows of a table from row `first` on, as the image's words say.
#[derive(Clone, Copy)]
pub struct Range {
    pub first: u32,
    pub count: u32,
}

impl Range {
    // The row that stands `i` rows into a range; NONE past all rows, and no Option: theorems cite `row_in` as a number.
    #[tactic(auto, unfolding(crate::specs::Image::row_in))]
    pub fn row(self, i: u32) -> u32
        ensures { result ≡ row_in self i }
    {
        self.first.saturating_add(i)
    }

    // Whether a range lies within so many rows. The sum is a plain number.
    pub fn lies_within(self, rows: u32) -> bool
        ensures { result ≡ lies_within self rows }
    {
        u64::from(self.first) + u64::from(self.count) <= u64::from(rows)
    }
}
