// Kind 4, table 7: the rule of a value, and the pass over all values. Each rule's contract is the definition of that name, and its
// proof opens those that the attribute below names.
#![tactic(auto, unfolding(crate::specs::Values::good_atom, crate::specs::Values::good_list_keys, crate::specs::Values::good_object_keys, crate::specs::Values::good_keys, crate::specs::Values::good_claim, crate::specs::Values::good_own_key, crate::specs::Values::value_rule, tables::specs::Numbering::is_holder))]

ghost use Rattle.std.specs.Prelude.{◌≡◌, IfOk};
ghost use Rattle.tables.specs.Layout.{values};
ghost use Rattle.tables.specs.Image.{count_at};
ghost use Rattle.rows.specs.Values.{good_list_keys, good_object_keys, good_keys, good_atom, good_claim, good_own_key, value_rule};
ghost use Rattle.tables.specs.Numbering.{claimed, next_value};
ghost use Rattle.rows.specs.RowFault.{rows_show, broken_row};

use crate::BadImage;
use tables::columns::{ValueKind, value_key, value_kind, value_kind_of, value_members};
use tables::keys::{are_keys_distinct, is_key_absent, key_of};
use tables::{ARGUMENTS, NONE, Range, VALUES, count};

const MOST_MEMBERS: u32 = 256;

const DEEPEST_LEVEL: u32 = 64;

// List members have key NONE.
fn are_list_keys_good(image: &[u32], rows: Range) -> bool
    ensures { result ≡ good_list_keys image.now rows }
{
    (0..rows.count).all(|i| key_of(image, VALUES, rows.row(i)) == NONE)
}

// Object members are few, their keys distinct and not NONE.
fn are_object_keys_good(image: &[u32], rows: Range) -> bool
    ensures { result ≡ good_object_keys image.now rows }
{
    rows.count <= MOST_MEMBERS
        && is_key_absent(image, VALUES, rows, NONE)
        && are_keys_distinct(image, VALUES, rows)
}

// The keys of the members of a list or an object.
fn are_keys_good(image: &[u32], row: u32) -> bool
    ensures { result ≡ good_keys image.now row }
{
    let members = value_members(image, row);
    match value_kind_of(value_kind(image, row)) {
        Some(ValueKind::List) => are_list_keys_good(image, members),
        _ => are_object_keys_good(image, members),
    }
}

// A value that is no list and no object.
fn is_atom_good(image: &[u32], row: u32) -> bool
    ensures { result ≡ good_atom image.now row }
{
    let members = value_members(image, row);
    members.count == 0
        && match value_kind_of(value_kind(image, row)) {
            Some(ValueKind::Null) => members.first == 0,
            Some(ValueKind::Boolean) => members.first <= 1,
            _ => true,
        }
}

// A list or an object claims the next unclaimed rows, which lie after it and inside the table; at the deepest level none.
fn is_claim_good(image: &[u32], row: u32, next: u32, level: u32) -> bool
    ensures { result ≡ good_claim image.now row next level }
{
    let members = value_members(image, row);
    row < next
        && members.first == next
        && members.lies_within(count(image, VALUES))
        && (level < DEEPEST_LEVEL || members.count == 0)
}

// An argument's value has key NONE.
fn is_own_key_good(image: &[u32], row: u32) -> bool
    ensures { result ≡ good_own_key image.now row }
{
    count(image, ARGUMENTS) <= row || value_key(image, row) == NONE
}

// The rule of a value, where `next` is the next unclaimed row.
fn is_value_good(image: &[u32], row: u32, next: u32, level: u32) -> bool
    ensures { result ≡ value_rule image.now row next level }
{
    is_own_key_good(image, row)
        && match value_kind_of(value_kind(image, row)) {
            Some(ValueKind::List | ValueKind::Object) => {
                is_claim_good(image, row, next, level) && are_keys_good(image, row)
            }
            Some(_) => is_atom_good(image, row),
            None => false,
        }
}

// How many rows a value claims. Lists and objects have members; a word that is no kind counts as one of them.
fn claimed_by(image: &[u32], row: u32) -> u32
    ensures { result ≡ claimed image.now row }
{
    match value_kind_of(value_kind(image, row)) {
        Some(ValueKind::List | ValueKind::Object) | None => value_members(image, row).count,
        _ => 0,
    }
}

// All values in one pass. Claims go in row order, so the rows of a level stand together: `level` is that of the row at hand,
// and `end` the first row of the next. The first row that the values leave unclaimed.
pub(crate) fn check_values(image: &[u32]) -> Result<u32, BadImage>
    ensures shows { rows_show result ≡ broken_row image.now values }
    ensures leaves { IfOk result (λ unclaimed. unclaimed ≡ next_value image.now (count_at image.now values)) }
{
    let mut unclaimed = count(image, ARGUMENTS);
    let mut level: u32 = 0;
    let mut end: u32 = 0;
    for row in 0..count(image, VALUES) {
        if row == end {
            level += 1;
            end = unclaimed;
        }
        if !is_value_good(image, row, unclaimed, level) {
            return Err(BadImage::Row { table: VALUES, row });
        }
        unclaimed += claimed_by(image, row);
    }
    Ok(unclaimed)
}
