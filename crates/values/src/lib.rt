// Comparisons of two fields' parts: values and arguments here, output types in `shape`. Every read is total, and a level falls
// with each step down, so a malformed image is compared too. Each contract is an equation with a definition of specs/.
#![tactic(auto)]

ghost use Rattle.std.specs.Prelude.{◌≡◌};
ghost use Rattle.tables.specs.Keys.{key_of};
ghost use Rattle.values.specs.Same.{same_value, same_list, same_set, has_key, keys_within, same_arguments};

use tables::columns::{ValueKind, value_atom, value_kind, value_kind_of, value_members};
use tables::keys::{find_key, is_key_absent, key_of};
use tables::{ARGUMENTS, Range, VALUES};

pub mod shape;

// Arguments stand at level 1, and a value at this level has no members.
const DEEPEST_LEVEL: u32 = 64;

// Whether two values are the same, down to so many levels.
#[cycle(same_list_same_set_same_value)]
pub fn same_value(image: &[u32], left: u32, right: u32, level: u32) -> bool
    ensures { result ≡ same_value image.now level left right }
{
    if level == 0 {
        return false;
    }
    let kind = value_kind(image, left);
    if kind != value_kind(image, right) {
        return false;
    }
    match value_kind_of(kind) {
        Some(ValueKind::List) => {
            let ours = value_members(image, left);
            let theirs = value_members(image, right);
            same_list(image, ours, theirs, level - 1)
        }
        Some(ValueKind::Object) => {
            let ours = value_members(image, left);
            let theirs = value_members(image, right);
            same_set(image, VALUES, ours, theirs, level - 1)
        }
        _ => value_atom(image, left) == value_atom(image, right),
    }
}

// Whether two lists are of one length and the same member by member.
#[cycle(same_list_same_set_same_value)]
fn same_list(image: &[u32], left: Range, right: Range, level: u32) -> bool
    ensures { result ≡ same_list (same_value image.now level) left right }
{
    if left.count != right.count {
        return false;
    }
    for i in 0..left.count {
        if !same_value(image, left.row(i), right.row(i), level) {
            return false;
        }
    }
    true
}

// Whether two ranges of arguments or members have the same keys, in any order, and the same value at each: the left's rows
// first, in order, then what only the right has.
#[cycle(same_list_same_set_same_value)]
fn same_set(image: &[u32], table: u8, left: Range, right: Range, level: u32) -> bool
    ensures { result ≡ same_set (key_of image.now table) (same_value image.now level) left right }
{
    for i in 0..left.count {
        let row = left.row(i);
        let Some(place) = find_key(image, table, right, key_of(image, table, row)) else {
            return false;
        };
        if !same_value(image, row, right.row(place), level) {
            return false;
        }
    }
    are_keys_within(image, table, right, left)
}

// Whether a row of a range has that key.
#[tactic(auto, unfolding(crate::specs::Same::has_key))]
fn has_key(image: &[u32], table: u8, rows: Range, key: u32) -> bool
    ensures { result ≡ has_key (key_of image.now table) rows key }
{
    !is_key_absent(image, table, rows, key)
}

// Whether each key of `inner` is one of `outer`'s.
fn are_keys_within(image: &[u32], table: u8, inner: Range, outer: Range) -> bool
    ensures { result ≡ keys_within (key_of image.now table) inner outer }
{
    (0..inner.count).all(|i| has_key(image, table, outer, key_of(image, table, inner.row(i))))
}

// Whether two fields' arguments are the same as unordered sets by name. Argument a has value row a. Most fields have none.
pub fn same_arguments(image: &[u32], left: Range, right: Range) -> bool
    ensures { result ≡ same_arguments image.now left right }
{
    if left.count == 0 && right.count == 0 {
        return true;
    }
    same_set(image, ARGUMENTS, left, right, DEEPEST_LEVEL)
}
