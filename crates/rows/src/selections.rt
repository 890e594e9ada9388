// Kind 4, table 5: the rules of a selection, and the one pass over all of them, with the number of the next set that a selection
// owns. Each rule's contract is the definition of that name, and its proof opens those that the attribute below names.
#![tactic(auto, unfolding(crate::specs::Selections::good_arguments, crate::specs::Selections::good_field_type, crate::specs::Selections::good_field, crate::specs::Selections::has_no_field_words, crate::specs::Selections::good_spread, crate::specs::Selections::good_by_itself, crate::specs::Selections::agrees_with_parent, crate::specs::Selections::good_owned, crate::specs::Selections::selection_rule, tables::specs::Numbering::owns_set, tables::specs::Columns::is_composite))]

ghost use Rattle.std.specs.Prelude.{◌≡◌, cond, ◌+◌, ◌<◌, IfOk};
ghost use Rattle.tables.specs.Layout.{NONE, selections};
ghost use Rattle.tables.specs.Image.{count_at};
ghost use Rattle.rows.specs.Selections.{good_arguments, good_field_type, good_field, has_no_field_words, good_spread, good_by_itself, agrees_with_parent, good_owned, selection_rule};
ghost use Rattle.tables.specs.Numbering.{owns_set, next_set};
ghost use Rattle.rows.specs.RowFault.{GoodBelow, rows_show, broken_row};
ghost use Rattle.rows.specs.SelectionPass.{Passing, Passed};

use crate::BadImage;
use tables::columns::{
    Selection, SelectionKind, TypeKind, innermost, selection_kind_of, selection_row, set_parent,
    set_selections, type_kind, type_kind_of,
};
use tables::keys::are_keys_distinct;
use tables::{ARGUMENTS, FRAGMENTS, NONE, OPERATIONS, REFERENCES, Range, SELECTIONS, SETS, count};

const MOST_ARGUMENTS: u32 = 64;

// A field's arguments: few, there, and no two of one name.
fn are_arguments_good(image: &[u32], rows: Range) -> bool
    ensures { result ≡ good_arguments image.now rows }
{
    rows.count <= MOST_ARGUMENTS
        && rows.lies_within(count(image, ARGUMENTS))
        && are_keys_distinct(image, ARGUMENTS, rows)
}

// A field's type: no input object, and composite where the field owns a set.
fn is_field_type_good(image: &[u32], row: Selection) -> bool
    ensures { result ≡ good_field_type image.now row }
{
    row.reference < count(image, REFERENCES)
        && match type_kind_of(type_kind(image, innermost(image, row.reference))) {
            Some(TypeKind::Object | TypeKind::Interface | TypeKind::Union) => true,
            Some(TypeKind::InputObject) => false,
            _ => row.target == NONE,
        }
}

// A field's own rules, but for those on the set that it owns.
fn is_field_good(image: &[u32], row: Selection) -> bool
    ensures { result ≡ good_field image.now row }
{
    is_field_type_good(image, row) && are_arguments_good(image, row.arguments)
}

// Words 1 to 5 of a spread or an inline are 0.
fn has_no_field_words(row: Selection) -> bool
    ensures { result ≡ has_no_field_words row }
{
    row.response == 0
        && row.name == 0
        && row.reference == 0
        && row.arguments.first == 0
        && row.arguments.count == 0
}

// A spread's target is a fragment.
fn is_spread_good(image: &[u32], row: Selection) -> bool
    ensures { result ≡ good_spread image.now row }
{
    row.target < count(image, FRAGMENTS) && has_no_field_words(row)
}

// The rules that only the rows which it names have a part in.
fn is_good_by_itself(image: &[u32], row: Selection) -> bool
    ensures { result ≡ good_by_itself image.now row }
{
    row.directives.lies_within(count(image, ARGUMENTS))
        && match selection_kind_of(row.kind) {
            Some(SelectionKind::Field) => is_field_good(image, row),
            Some(SelectionKind::Spread) => is_spread_good(image, row),
            Some(SelectionKind::Inline) => has_no_field_words(row),
            None => false,
        }
}

// An inline owns a set; a field owns one or NONE.
fn owns_set(row: Selection) -> bool
    ensures { result ≡ owns_set row }
{
    match selection_kind_of(row.kind) {
        Some(SelectionKind::Inline) => true,
        Some(SelectionKind::Field) => row.target != NONE,
        _ => false,
    }
}

// A set that a field owns has the field's innermost type for its parent.
fn agrees_with_parent(image: &[u32], row: Selection) -> bool
    ensures { result ≡ agrees_with_parent image.now row }
{
    match selection_kind_of(row.kind) {
        Some(SelectionKind::Field) => {
            set_parent(image, row.target) == innermost(image, row.reference)
        }
        _ => true,
    }
}

// The set that a selection owns has the next number, is there, is not below `least`, and agrees with its parent.
fn is_owned_set_good(image: &[u32], row: Selection, next: u32, least: u32) -> bool
    ensures { result ≡ good_owned image.now row next least }
{
    row.target == next
        && row.target < count(image, SETS)
        && least <= row.target
        && agrees_with_parent(image, row)
}

// The whole rule of a selection, the next set number and the least that a set it owns may have being given.
fn is_selection_good(image: &[u32], row: Selection, next: u32, least: u32) -> bool
    ensures { result ≡ selection_rule image.now row next least }
{
    is_good_by_itself(image, row) && (!owns_set(row) || is_owned_set_good(image, row, next, least))
}

// How many sets a selection owns.
fn owned_by(row: Selection) -> u32
    ensures { result ≡ cond (owns_set row) 1 0 }
{
    u32::from(owns_set(row))
}

// The selections from row `start` up to row `end`, which stand in one set or in none: the sets that they own are numbered from
// `next` on, and none is below `least`. The number after theirs.
fn check_selections_to(
    image: &[u32],
    start: u32,
    end: u32,
    mut next: u32,
    least: u32,
) -> Result<u32, BadImage>
    requires { Passing image.now start next end least }
    ensures { Passed image.now end result }
{
    for row in start..end {
        let selection = selection_row(image, row);
        if !is_selection_good(image, selection, next, least) {
            return Err(BadImage::Row {
                table: SELECTIONS,
                row,
            });
        }
        next += owned_by(selection);
    }
    Ok(next)
}

// All selections: set by set, then those in no set. A set is greater than the one that its owner stands in. The number of the
// next set that a selection would own.
pub(crate) fn check_selections(image: &[u32]) -> Result<u32, BadImage>
    requires { GoodBelow image.now 5 }
    ensures shows { rows_show result ≡ broken_row image.now selections }
    ensures leaves { IfOk result (λ next. next ≡ next_set image.now (count_at image.now selections)) }
{
    let mut next = count(image, OPERATIONS) + count(image, FRAGMENTS);
    let mut end: u32 = 0;
    for set in 0..count(image, SETS) {
        let rows = set_selections(image, set);
        end = rows.first + rows.count;
        next = check_selections_to(image, rows.first, end, next, set + 1)?;
    }
    check_selections_to(image, end, count(image, SELECTIONS), next, 0)
}
