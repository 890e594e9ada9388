// The tables whose rows are judged one by one: types, type references, operations, fragments, sets, arguments, variables.
// Each rule's contract is the definition of its name in specs/Rows, for every image and row, and its proof opens those that the
// attribute below names.
#![tactic(auto, unfolding(crate::specs::Rows::ascends, crate::specs::Rows::good_type, crate::specs::Rows::good_child, crate::specs::Rows::good_reference, crate::specs::Rows::good_operation, crate::specs::Rows::good_fragment, crate::specs::Rows::good_parent, crate::specs::Rows::good_set, crate::specs::Rows::good_argument, crate::specs::Rows::good_variable,))]

ghost use Rattle.std.specs.Prelude.{◌≡◌};
ghost use Rattle.rows.specs.Rows.{good_type, good_child, good_reference, good_operation, good_fragment, good_parent, good_set, good_argument, good_variable};
ghost use Rattle.tables.specs.Numbering.{set_start};
ghost use Rattle.rows.specs.RowFault.{rows_show, row_rule, broken_row, IsPlain};

use crate::BadImage;
use tables::columns::*;
use tables::{
    ARGUMENTS, FRAGMENTS, OPERATIONS, REFERENCES, SELECTIONS, SETS, TYPES, VALUES, VARIABLES, count,
};

fn is_type_good(image: &[u32], row: u32) -> bool
    ensures { result ≡ good_type image.now row }
{
    type_kind_of(type_kind(image, row)).is_some()
        && (row == 0 || type_name(image, row - 1) < type_name(image, row))
}

// Children of names are types, those of lists are earlier references.
fn is_reference_good(image: &[u32], row: u32) -> bool
    ensures { result ≡ good_reference image.now row }
{
    let child = reference_child(image, row);
    match reference_kind_of(reference_kind(image, row)) {
        Some(ReferenceKind::Named | ReferenceKind::NonNullNamed) => child < count(image, TYPES),
        Some(ReferenceKind::List | ReferenceKind::NonNullList) => child < row,
        None => false,
    }
}

fn is_operation_good(image: &[u32], row: u32) -> bool
    ensures { result ≡ good_operation image.now row }
{
    operation_variables(image, row).lies_within(count(image, VARIABLES))
        && operation_directives(image, row).lies_within(count(image, ARGUMENTS))
        && row < count(image, SETS)
}

fn is_fragment_good(image: &[u32], row: u32) -> bool
    ensures { result ≡ good_fragment image.now row }
{
    fragment_directives(image, row).lies_within(count(image, ARGUMENTS))
        && fragment_set(image, row) < count(image, SETS)
}

// Where the selections of a set must begin: where those of the set before end.
#[tactic(auto, using(crate::proofs::RowLaws::start_first, crate::proofs::RowLaws::start_next))]
pub fn set_start(image: &[u32], set: u32) -> u64
    ensures { result ≡ set_start image.now set }
{
    if set == 0 {
        return 0;
    }
    let before = set_selections(image, set - 1);
    u64::from(before.first) + u64::from(before.count)
}

fn is_parent_good(image: &[u32], set: u32) -> bool
    ensures { result ≡ good_parent image.now set }
{
    let parent = set_parent(image, set);
    parent < count(image, TYPES) && is_composite(type_kind(image, parent))
}

fn is_set_good(image: &[u32], set: u32) -> bool
    ensures { result ≡ good_set image.now set }
{
    let selections = set_selections(image, set);
    is_parent_good(image, set)
        && u64::from(selections.first) == set_start(image, set)
        && selections.lies_within(count(image, SELECTIONS))
}

fn is_argument_good(image: &[u32], row: u32) -> bool
    ensures { result ≡ good_argument image.now row }
{
    argument_type(image, row) < count(image, REFERENCES)
        && argument_default(image, row) <= 1
        && row < count(image, VALUES)
}

fn is_variable_good(image: &[u32], row: u32) -> bool
    ensures { result ≡ good_variable image.now row }
{
    variable_type(image, row) < count(image, REFERENCES) && variable_default(image, row) <= 1
}

// A row of a table whose rows are judged one by one.
#[tactic(auto, unfolding(crate::specs::RowFault::row_rule))]
fn is_row_good(image: &[u32], table: u8, row: u32) -> bool
    requires { IsPlain table }
    ensures { result ≡ row_rule image.now table row }
{
    match table {
        TYPES => is_type_good(image, row),
        REFERENCES => is_reference_good(image, row),
        OPERATIONS => is_operation_good(image, row),
        FRAGMENTS => is_fragment_good(image, row),
        SETS => is_set_good(image, row),
        ARGUMENTS => is_argument_good(image, row),
        _ => is_variable_good(image, row),
    }
}

// The rows of such a table: good, or the first that breaks its rule.
pub(crate) fn check_plain(image: &[u32], table: u8) -> Result<(), BadImage>
    requires { IsPlain table }
    ensures { rows_show result ≡ broken_row image.now table }
{
    match (0..count(image, table)).find(|row| !is_row_good(image, table, *row)) {
        Some(row) => Err(BadImage::Row { table, row }),
        None => Ok(()),
    }
}
