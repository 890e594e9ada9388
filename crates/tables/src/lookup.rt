// The lookup: the selections of one set as the very part of the image that they are.
ghost use Rattle.std.specs.Prelude.{◌≡◌};
ghost use Rattle.tables.specs.Lookup.{rows_place, set_place, PartOf};

use crate::columns::set_selections;
use crate::header::check_header;
use crate::{Range, SELECTIONS, SETS, count, offset, row_width, span, word};

// Where a part of the image stands: its first word, and how many words.
#[derive(Clone, Copy)]
pub struct Place {
    pub start: usize,
    pub words: usize,
}

// Where a range of selections stands.
#[tactic(auto, unfolding(crate::specs::Lookup::rows_place))]
fn rows_place(image: &[u32], rows: Range) -> Place
    ensures { result ≡ rows_place image.now rows }
{
    let width = row_width(word(image, 0), SELECTIONS);
    let start = offset(image, SELECTIONS) as usize;
    let above = span(rows.first, width);
    let words = span(rows.count, width);
    Place {
        start: start + above,
        words,
    }
}

// Where the selections of a set stand; nowhere on a bad header, set number or range.
pub fn set_place(image: &[u32], set: u32) -> Option<Place>
    ensures { result ≡ set_place image.now set }
{
    check_header(image).ok()?;
    if count(image, SETS) <= set {
        return None;
    }
    let rows = set_selections(image, set);
    if !rows.lies_within(count(image, SELECTIONS)) {
        return None;
    }
    Some(rows_place(image, rows))
}

// The selections of a set; where there is none, the empty part at the end.
pub fn set_part<'a>(image: &'a [u32], set: u32) -> &'a [u32]
    ensures { PartOf image.entry (set_place image.now set) result }
{
    match set_place(image, set) {
        Some(place) => &image[place.start..place.start + place.words],
        None => &image[image.len()..],
    }
}
