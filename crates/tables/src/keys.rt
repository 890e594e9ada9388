// Keys: the names of arguments and the keys of object members, by which rows of a range are told from one another.
ghost use Rattle.std.specs.Prelude.{◌≡◌, ℕ};
ghost use Rattle.lists.specs.Every.{find, found, absent, distinct};
ghost use Rattle.tables.specs.Keys.{key_of, key_in};

use crate::columns::{argument_name, value_key};
use crate::{ARGUMENTS, Range};

// The key of a row: of table 6 its name, of table 7 its key. The table is a number, as in `cell`.
#[tactic(auto, unfolding(crate::specs::Keys::key_of))]
pub fn key_of(image: &[u32], table: u8, row: u32) -> u32
    ensures { result ≡ key_of image.now table row }
{
    if table == ARGUMENTS {
        argument_name(image, row)
    } else {
        value_key(image, row)
    }
}

// How far into a range the first row of that key stands.
pub fn find_key(image: &[u32], table: u8, rows: Range, key: u32) -> Option<u32>
    ensures { result ≡ found rows.count (find rows.count (key_in image.now table rows) key) }
{
    for i in 0..rows.count {
        if key_of(image, table, rows.row(i)) == key {
            return Some(i);
        }
    }
    None
}

// Whether no row of a range has that key.
pub fn is_key_absent(image: &[u32], table: u8, rows: Range, key: u32) -> bool
    ensures { result ≡ absent rows.count (key_in image.now table rows) key }
{
    find_key(image, table, rows, key).is_none()
}

// Whether no two rows of a range have one key: each row is the first of its key.
pub fn are_keys_distinct(image: &[u32], table: u8, rows: Range) -> bool
    ensures { result ≡ distinct rows.count (key_in image.now table rows) }
{
    for i in 0..rows.count {
        let key = key_of(image, table, rows.row(i));
        if find_key(image, table, rows, key) != Some(i) {
            return false;
        }
    }
    true
}
