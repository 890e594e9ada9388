// Kind 4: the row rules, table by table, lowest row first, each table in one pass; then what is left unclaimed. The check of a
// table may take for granted that all lower tables are good, since the first fault ends the check.
// plain_rows: the tables whose rows are judged one by one. selections: table 5. value_rows: table 7.
#![tactic(auto)]

ghost use Rattle.std.specs.Prelude.{◌≡◌};
ghost use Rattle.std.proofs.Math.Option.{none};
ghost use Rattle.lists.specs.First.{first_fault};
ghost use Rattle.rows.specs.RowFault.{rows_show, broken_row, left_over, unclaimed_fault, row_fault, image_fault};
ghost use Rattle.rows.specs.declared.BadImage.TheVariants.{Header};
ghost use Rattle.tables.specs.Layout.{selections};
ghost use Rattle.tables.specs.Header.{header_fault};
ghost use Rattle.tables.specs.Image.{count_at};
ghost use Rattle.tables.specs.Numbering.{next_set};

use crate::plain_rows::{check_plain, set_start};
use crate::selections::check_selections;
use crate::value_rows::check_values;
use tables::header::{BadHeader, check_header};
use tables::{ARGUMENTS, SELECTIONS, SETS, VALUES, VARIABLES, count};

pub mod plain_rows;
mod selections;
mod value_rows;

// What is wrong with an image: its header, so that it has no rows; or a row, the first that breaks its rule. Where a table has
// rows that nothing claims, that is the row past its last.
#[derive(Clone, Copy)]
pub enum BadImage {
    Header(BadHeader),
    Row { table: u8, row: u32 },
}

impl From<BadHeader> for BadImage {
    ghost from_gives = { λ bad error. error ≡ Header bad };

    fn from(bad: BadHeader) -> BadImage {
        BadImage::Header(bad)
    }
}

// The tables below the selections.
fn check_lower(image: &[u32]) -> Result<(), BadImage>
    ensures { rows_show result ≡ first_fault (broken_row image.now) selections }
{
    for table in 0..SELECTIONS {
        check_plain(image, table)?;
    }
    Ok(())
}

// So many rows of a table are claimed: none is left over, or the table's count is shown.
#[tactic(auto, unfolding(crate::specs::RowFault::left_over, lists::specs::First::expect))]
fn check_left_over(image: &[u32], table: u8, claimed: u64) -> Result<(), BadImage>
    ensures { rows_show result ≡ left_over image.now table claimed }
{
    let rows = count(image, table);
    if claimed < u64::from(rows) {
        return Err(BadImage::Row { table, row: rows });
    }
    Ok(())
}

// So many sets and values are claimed, and the selections up to the end of the last set.
fn check_claimed(image: &[u32], sets: u32, values: u32) -> Result<(), BadImage>
    ensures { rows_show result ≡ unclaimed_fault image.now sets values }
{
    check_left_over(image, SETS, u64::from(sets))?;
    check_left_over(image, SELECTIONS, set_start(image, count(image, SETS)))?;
    check_left_over(image, VALUES, u64::from(values))
}

// The tables above the selections, which claim the sets below number `sets`.
fn check_upper(image: &[u32], sets: u32) -> Result<(), BadImage>
    requires lower_good { first_fault (broken_row image.now) 6 ≡ none }
    requires owned { sets ≡ next_set image.now (count_at image.now selections) }
    ensures { rows_show result ≡ row_fault image.now }
{
    check_plain(image, ARGUMENTS)?;
    let values = check_values(image)?;
    check_plain(image, VARIABLES)?;
    check_claimed(image, sets, values)
}

// All tables of an image whose header is good.
fn check_tables(image: &[u32]) -> Result<(), BadImage>
    requires { header_fault image.now ≡ none }
    ensures { rows_show result ≡ row_fault image.now }
{
    check_lower(image)?;
    let sets = check_selections(image)?;
    check_upper(image, sets)
}

// Any words whatever: all right, or what reply kind 1 or 4 shows.
pub fn check_rows(image: &[u32]) -> Result<(), BadImage>
    ensures { rows_show result ≡ image_fault image.now }
{
    check_header(image)?;
    check_tables(image)
}
