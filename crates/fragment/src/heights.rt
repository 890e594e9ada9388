// The longest ways down from each set, under three weights at once, each cut off one past its limit: spreads (kind 6), links (7)
// and non-empty field sets (8). The lent words hold three numbers for each set. They are found in one pass where the words behind them
// hold an order in which no set leads to a later one; else by rounds over all sets, highest first, until a round changes no fragment's.
ghost use Rattle.std.specs.Prelude.{◌≡◌, true, ℕ, ◌+◌, ◌*◌, ◌≤◌, ◌<◌, ◌&&◌, max, length};
ghost use Rattle.lists.specs.Part.{Outside};
ghost use Rattle.tables.specs.Layout.{sets};
ghost use Rattle.tables.specs.Image.{count_at};
ghost use Rattle.tables.specs.Columns.{set_selections};
ghost use Rattle.tables.specs.Good.{Good};
ghost use Rattle.fragment.specs.Chains.{one_if, nests_in};
ghost use Rattle.fragment.specs.Heights.{cut_off};
ghost use Rattle.fragment.specs.Rounds.{height_at, with_height, height_of, row_height, set_height, measured, changes, sweep, sweep_changes, Measured, SoundHeights};
ghost use Rattle.fragment.specs.Order.{leads_lower, all_lower, is_in_turn, all_in_turn, in_turn};
ghost use Rattle.fragment.specs.Walks.{InOrder};

use crate::order::{HEIGHTS, place_behind, set_of, words_of};
use lists::{clear, get, put};
use tables::columns::{
    SelectionKind, is_empty_set, is_fragment_set, selection_row, set_below, set_selections,
};
use tables::{SETS, count};

pub const MOST_CHAIN: u32 = 100;

pub const MOST_LINKS: u32 = 500;

pub const MOST_NESTED: u32 = 128;

// The greatest numbers of spreads, links and nested field sets on the ways down from a set.
#[derive(Clone, Copy, PartialEq, Eq, Default)]
pub struct Height {
    pub chain: u32,
    pub links: u32,
    pub nested: u32,
}

impl Height {
    // The greater of each number.
    fn higher(self, other: Height) -> Height
        ensures chain { result.chain ≡ max self.chain other.chain }
        ensures links { result.links ≡ max self.links other.links }
        ensures nested { result.nested ≡ max self.nested other.nested }
    {
        Height {
            chain: self.chain.max(other.chain),
            links: self.links.max(other.links),
            nested: self.nested.max(other.nested),
        }
    }
}

// What selections say of a set's place and height: the highest way down through one of them, and whether all lead to lower places. Both
// at once, since two loops took a fifth more instructions; the height is asked for where the places are not.
#[derive(Clone, Copy)]
struct Way {
    height: Height,
    lower: bool,
}

impl Way {
    // What both ways say together.
    fn joined(self, other: Way) -> Way
        ensures chain { result.height.chain ≡ max self.height.chain other.height.chain }
        ensures links { result.height.links ≡ max self.height.links other.height.links }
        ensures nested { result.height.nested ≡ max self.height.nested other.height.nested }
        ensures lower { result.lower ≡ (self.lower && other.lower) }
    {
        Way {
            height: self.height.higher(other.height),
            lower: self.lower && other.lower,
        }
    }
}

// The three numbers of a set.
pub fn height_at(s: &[u32], set: u32) -> Height
    ensures { result ≡ height_at s.now set }
{
    let at = 3 * (set as usize);
    Height {
        chain: get(s, at),
        links: get(s, at + 1),
        nested: get(s, at + 2),
    }
}

fn store_height(s: &mut [u32], set: u32, h: Height)
    ensures { s.new ≡ with_height s.old set h }
{
    let at = 3 * (set as usize);
    put(s, at, h.chain);
    put(s, at + 1, h.links);
    put(s, at + 2, h.nested);
}

// One more where it counts, but at most one past the limit.
fn one_more(n: u32, counts: bool, limit: u32) -> u32
    requires { limit < 1000 }
    ensures { result ≡ cut_off limit (one_if counts + n) }
{
    n.saturating_add(u32::from(counts)).min(limit + 1)
}

// The height of a set below; 0 of none.
fn height_below(s: &[u32], set: Option<u32>) -> Height
    ensures { result ≡ height_of (height_at s.now) set }
{
    match set {
        Some(set) => height_at(s, set),
        None => Height::default(),
    }
}

// Whether a selection of this kind, a word, is a field with a non-empty set.
fn is_nesting(image: &[u32], kind: u32, set: Option<u32>) -> bool
    ensures { result ≡ nests_in image.now kind set }
{
    kind == SelectionKind::Field as u32 && set.is_some_and(|set| !is_empty_set(image, set))
}

// The way down through a selection of a set of this place. The selection is read once for both answers, and its kind compared as a
// word, for speed.
#[tactic(auto, unfolding(crate::specs::Order::leads_lower, crate::specs::Order::place_of))]
fn way_through(image: &[u32], s: &[u32], place: u32, row: u32) -> Way
    ensures height { result.height ≡ row_height image.now (height_at s.now) row }
    ensures lower { result.lower ≡ leads_lower image.now s.now place row }
{
    let selection = selection_row(image, row);
    let set = set_below(image, selection);
    let below = height_below(s, set);
    let is_spread = selection.kind == SelectionKind::Spread as u32;
    let is_nested = is_nesting(image, selection.kind, set);
    let height = Height {
        chain: one_more(below.chain, is_spread, MOST_CHAIN),
        links: one_more(below.links, true, MOST_LINKS),
        nested: one_more(below.nested, is_nested, MOST_NESTED),
    };
    let lower = set.is_none_or(|set| place_behind(image, s, HEIGHTS, set) < place);
    Way { height, lower }
}

// The way down from a set of this place, by the heights of the sets below it.
fn way_down(image: &[u32], s: &[u32], place: u32, set: u32) -> Way
    ensures height { result.height ≡ set_height image.now (height_at s.now) set }
    ensures lower { result.lower ≡ all_lower image.now s.now place set (set_selections image.now set).count }
{
    let rows = set_selections(image, set);
    let mut way = Way {
        height: Height::default(),
        lower: true,
    };
    for i in 0..rows.count {
        way = way.joined(way_through(image, s, place, rows.row(i)));
    }
    way
}

// One set is measured anew, whatever its place. Whether that changed a fragment's set.
#[tactic(auto, using(crate::proofs::HeightLaws::same_by), unfolding(crate::specs::Rounds::measured, crate::specs::Rounds::changes))]
fn measure_set(image: &[u32], s: &mut [u32], set: u32) -> bool
    ensures { (s.new ≡ measured image.now s.old set) × (result ≡ changes image.now s.old set) }
{
    let before = height_at(&s[..], set);
    let after = way_down(image, &s[..], 0, set).height;
    store_height(s, set, after);
    is_fragment_set(image, set) && before != after
}

// All sets, highest first, so that the sets of a set's own selections come before it. Whether that changed a fragment's: if not,
// all is settled.
fn measure_round(image: &[u32], s: &mut [u32]) -> bool
    ensures { (s.new ≡ sweep image.now s.old (count_at image.now sets)) × (result ≡ sweep_changes image.now s.old (count_at image.now sets)) }
{
    let mut changed = false;
    for set in (0..count(image, SETS)).rev() {
        changed |= measure_set(image, s, set);
    }
    changed
}

// A set is measured in its turn, if it has this place and leads to lower ones alone. Whether it is so.
#[tactic(auto, unfolding(crate::specs::Order::is_in_turn, crate::specs::Order::in_turn, crate::specs::Order::place_of, crate::specs::Rounds::measured))]
fn measure_in_turn(image: &[u32], s: &mut [u32], place: u32, set: u32) -> bool
    ensures { (s.new ≡ in_turn image.now s.old place set) × (result ≡ is_in_turn image.now s.old place set) }
{
    if count(image, SETS) <= set || place_behind(image, &s[..], HEIGHTS, set) != place {
        return false;
    }
    let way = way_down(image, &s[..], place, set);
    if way.lower {
        store_height(s, set, way.height);
    }
    way.lower
}

// All heights become 0.
fn clear_heights(image: &[u32], s: &mut [u32])
    ensures { Outside 0 (3 * count_at image.now sets) s.old s.new × (3 * count_at image.now sets ≤ length s.old → SoundHeights image.now s.new) }
{
    clear(s, 0, words_of(image, HEIGHTS));
}

// All sets, each in its turn. Whether that went well: then all is settled, and no fragment reaches itself.
pub fn measure_in_order(image: &[u32], s: &mut [u32]) -> bool
    ensures { Outside 0 (3 * count_at image.now sets) s.old s.new × (result ≡ all_in_turn image.now s.old (count_at image.now sets)) × (result ≡ true → Good image.now → 5 * count_at image.now sets ≤ length s.old → InOrder image.now s.new) }
{
    clear_heights(image, s);
    for placed in 0..count(image, SETS) {
        let place = placed + 1;
        let set = set_of(image, &s[..], place);
        if !measure_in_turn(image, s, place, set) {
            return false;
        }
    }
    true
}

// Rounds until nothing changes. Each settles one more fragment of every chain, so past the limit's number there is no need.
pub fn measure_sets(image: &[u32], s: &mut [u32])
    ensures { Outside 0 (3 * count_at image.now sets) s.old s.new × (Good image.now → 3 * count_at image.now sets ≤ length s.old → (t : ℕ) → t < count_at image.now sets → Measured image.now s.new t) }
{
    clear_heights(image, s);
    for _ in 0..MOST_CHAIN + 2 {
        if !measure_round(image, s) {
            return;
        }
    }
}
