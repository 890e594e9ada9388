// Kind 1: the header of an image.
ghost use Rattle.std.specs.Prelude.{◌≡◌};
ghost use Rattle.lists.specs.First.{first_fault};
ghost use Rattle.tables.specs.Layout.{table_count};
ghost use Rattle.tables.specs.Image.{end_of, start_of};
ghost use Rattle.tables.specs.Header.{header_shows, table_fault, edition_fault, header_fault};

use crate::{count, header_words, most_rows, offset, row_width, span, table_count, word};

const NEWEST_EDITION: u32 = 1;

// The first word of a header that is wrong.
#[derive(Clone, Copy)]
pub struct BadHeader {
    pub word: u32,
}

// Where a table ends by its own words, and where it must start by the words before.
#[tactic(auto, unfolding(crate::specs::Image::end_of))]
fn end_of(image: &[u32], edition: u32, table: u8) -> usize
    ensures { result ≡ end_of image.now edition table }
{
    let words = span(count(image, table), row_width(edition, table));
    offset(image, table) as usize + words
}

#[tactic(auto, unfolding(crate::specs::Image::start_of))]
fn start_of(image: &[u32], edition: u32, table: u8) -> usize
    ensures { result ≡ start_of image.now edition table }
{
    if table == 0 {
        header_words(edition) as usize
    } else {
        end_of(image, edition, table - 1)
    }
}

// The two header words of one table.
fn check_table(image: &[u32], edition: u32, table: u8) -> Result<(), BadHeader>
    ensures { header_shows result ≡ table_fault image.now edition table }
{
    if most_rows(edition, table) < count(image, table) {
        return Err(BadHeader {
            word: 2 + 2 * (table as u32),
        });
    }
    if offset(image, table) as usize != start_of(image, edition, table) {
        return Err(BadHeader {
            word: 3 + 2 * (table as u32),
        });
    }
    Ok(())
}

// The same of all tables, in order.
fn check_tables(image: &[u32], edition: u32) -> Result<(), BadHeader>
    ensures { header_shows result ≡ first_fault (table_fault image.now edition) (table_count edition) }
{
    for table in 0..table_count(edition) {
        check_table(image, edition, table)?;
    }
    Ok(())
}

fn last_end(image: &[u32], edition: u32) -> usize
    ensures { result ≡ start_of image.now edition (table_count edition) }
{
    start_of(image, edition, table_count(edition))
}

// The header as the edition has it.
fn check_edition(image: &[u32], edition: u32) -> Result<(), BadHeader>
    ensures { header_shows result ≡ edition_fault image.now edition }
{
    let words = header_words(edition);
    let length = image.len();
    if length < words as usize {
        return Err(BadHeader {
            word: length as u32,
        });
    }
    if edition < 1 || NEWEST_EDITION < edition {
        return Err(BadHeader { word: 0 });
    }
    if word(image, 1) as usize != length {
        return Err(BadHeader { word: 1 });
    }
    check_tables(image, edition)?;
    if last_end(image, edition) != length {
        return Err(BadHeader { word: words });
    }
    Ok(())
}

// The header of an image: the first wrong word, if there is one, is what reply kind 1 shows.
pub fn check_header(image: &[u32]) -> Result<(), BadHeader>
    ensures { header_shows result ≡ header_fault image.now }
{
    check_edition(image, word(image, 0))
}
