// Classes of selections: by response name, and by name and parent. A class is told by its first row. Total; what is written
// stands where there is room: for n rows, n words each for parents, names and pairs, and then the 3 × n of an index.
ghost use Rattle.std.specs.Prelude.{◌≡◌, ◌+◌, ◌*◌, ◌≤◌};
ghost use Rattle.tables.specs.Layout.{types, selections};
ghost use Rattle.tables.specs.Columns.{response_name};
ghost use Rattle.selection.specs.Regions.{rows_at_most};
ghost use Rattle.selection.specs.Classing.{parent_class, index_of, pair_key, Keys, Classes};

use crate::arena::rows_at_most;
use crate::parents::is_object;
use index::Index;
use lists::{get, in_region, put};
use tables::columns::response_name;
use tables::{SELECTIONS, TYPES};

// The class of a parent: itself if it is an object type, else the number of types, which all others share.
fn parent_class(image: &[u32], types: u32, parent: u32) -> u32
    ensures { (result ≡ parent_class image.now types parent) × (result ≤ types) }
{
    if parent < types && is_object(image, parent) {
        parent
    } else {
        types
    }
}

// The index of so many rows, behind the words of their parents and classes.
fn index_of(rows: u32) -> Index
    ensures { result ≡ index_of rows }
{
    Index {
        at: 3 * (rows as usize),
        count: rows,
    }
}

// Where the key of a row stands.
fn key_place(rows: u32, row: u32) -> usize
    ensures { result ≡ 3 * rows + row }
{
    3 * (rows as usize) + (row as usize)
}

// The keys become the response names.
fn write_names(image: &[u32], s: &mut [u32], rows: u32)
    ensures { Keys (λ k. response_name image.now k) rows s.old s.new }
{
    for row in 0..rows {
        put(s, key_place(rows, row), response_name(image, row));
    }
}

// The key of a pair of a name's class and a parent.
fn pair_key(image: &[u32], s: &[u32], rows: u32, types: u32, row: u32) -> u32
    requires { (rows ≤ 16384) × (types ≤ 16384) }
    ensures { result ≡ pair_key image.now types s.now rows row }
{
    let class = get(s, in_region(rows, row)).min(rows);
    class * (types + 1) + parent_class(image, types, get(s, row as usize))
}

// The keys become those of pairs. It has a loop of its own, since its keys are computed from the slice that it writes.
fn write_pairs(image: &[u32], s: &mut [u32], rows: u32, types: u32)
    requires { (rows ≤ 16384) × (types ≤ 16384) }
    ensures { Keys (λ k. pair_key image.now types s.old rows k) rows s.old s.new }
{
    for row in 0..rows {
        let key = pair_key(image, &s[..], rows, types, row);
        put(s, key_place(rows, row), key);
    }
}

// The classes of all selections. The words before them are the parents of their sets.
pub fn write_classes(image: &[u32], s: &mut [u32])
    ensures { Classes image.now (rows_at_most image.now selections) (rows_at_most image.now types) s.old s.new }
{
    let rows = rows_at_most(image, SELECTIONS);
    let types = rows_at_most(image, TYPES);
    let index = index_of(rows);
    write_names(image, s, rows);
    index.build_firsts(s, rows as usize);
    write_pairs(image, s, rows, types);
    index.build_firsts(s, 2 * (rows as usize));
}
