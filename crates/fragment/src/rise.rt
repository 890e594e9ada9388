// How far links rise in an order of the sets: the greatest place that a selection leads to from a set of no greater one. A fragment
// whose set has a greater place still does not reach itself. The lent words: behind a word for each set, the places.
ghost use Rattle.std.specs.Prelude.{◌≡◌};
ghost use Rattle.tables.specs.Layout.{sets};
ghost use Rattle.tables.specs.Image.{count_at};
ghost use Rattle.tables.specs.Columns.{set_selections};
ghost use Rattle.fragment.specs.Rise.{rise_of, rise_in, highest_rise};

use crate::order::{FRONT, place_behind};
use tables::columns::{selection_row, set_below, set_selections};
use tables::{SETS, count};

// The place that a selection leads to from one of its own, where that is no lower one; else 0.
#[tactic(auto, unfolding(crate::specs::Rise::rise_of, crate::specs::Rise::place_at))]
fn rise_of(image: &[u32], s: &[u32], place: u32, row: u32) -> u32
    ensures { result ≡ rise_of image.now s.now place row }
{
    let set = set_below(image, selection_row(image, row));
    let there = set.map_or(0, |set| place_behind(image, s, FRONT, set));
    if there < place { 0 } else { there }
}

#[tactic(auto, using(crate::proofs::Rising::none_risen, crate::proofs::Rising::one_risen), unfolding(crate::specs::Rise::place_at))]
fn rise_from(image: &[u32], s: &[u32], set: u32) -> u32
    ensures { result ≡ rise_in image.now s.now set (set_selections image.now set).count }
{
    let place = place_behind(image, s, FRONT, set);
    let rows = set_selections(image, set);
    let mut rise = 0;
    for i in 0..rows.count {
        rise = rise.max(rise_of(image, s, place, rows.row(i)));
    }
    rise
}

#[tactic(auto, using(crate::proofs::Rising::no_set_risen, crate::proofs::Rising::one_set_risen))]
pub fn highest_rise(image: &[u32], s: &[u32]) -> u32
    ensures { result ≡ highest_rise image.now s.now (count_at image.now sets) }
{
    let mut rise = 0;
    for set in 0..count(image, SETS) {
        rise = rise.max(rise_from(image, s, set));
    }
    rise
}
