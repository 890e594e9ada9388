// An order of the sets: where there is no cycle, the sets that a set's selections lead to come before it. Nothing is promised of it:
// `heights` looks before it believes. The lent words: a place for each set, from 1, and then the sets, the first placed last.
ghost use Rattle.std.specs.Prelude.{◌≡◌, ◌+◌, ◌*◌, ◌<◌, ◌^◌, get_or};
ghost use Rattle.lists.specs.Part.{Outside};
ghost use Rattle.tables.specs.Layout.{sets};
ghost use Rattle.tables.specs.Image.{count_at};
ghost use Rattle.fragment.specs.Order.{set_of};

use lists::{clear, get, put};
use tables::columns::{selection_row, set_below, set_selections};
use tables::{NONE, SETS, count};

// Words for each set: those of the heights, those of an order or a walk behind the heights, and both. FRONT is where an order stands while
// walks use the words behind the heights: behind one word for each set.
pub const HEIGHTS: u8 = 3;

pub const ORDER: u8 = 2;

pub const LENT: u8 = 5;

pub const FRONT: u8 = 1;

// A set that was not met before, and the selection to look on from.
#[derive(Clone, Copy)]
struct Unmet {
    set: u32,
    next: u32,
}

// So many words for each set.
pub fn words_of(image: &[u32], each: u8) -> usize
    ensures { (result ≡ each * count_at image.now sets) × (result < 2 ^ 40) }
{
    (each as usize) * (count(image, SETS) as usize)
}

// The place of a set in an order that stands behind so many words for each set.
pub fn place_behind(image: &[u32], s: &[u32], each: u8, set: u32) -> u32
    ensures { result ≡ get_or s.now (each * count_at image.now sets + set) 0 }
{
    get(s, words_of(image, each) + (set as usize))
}

// The set of a place in an order that stands behind the heights.
#[tactic(auto, unfolding(crate::specs::Order::set_of))]
pub fn set_of(image: &[u32], s: &[u32], place: u32) -> u32
    ensures { result ≡ set_of image.now s.now place }
{
    get(s, words_of(image, LENT).saturating_sub(place as usize))
}

// The order of the sets, behind so many words for each.
pub fn order_behind(image: &[u32], s: &mut [u32], each: u8)
    ensures { Outside (each * count_at image.now sets) (2 * count_at image.now sets) s.old s.new }
{
    let start = words_of(image, each);
    let end = start + words_of(image, ORDER);
    if end <= s.len() {
        order_sets(image, &mut s[start..end]);
    }
}

// The first set not met before that the selections of a set lead to, from one of them on.
fn next_unmet(image: &[u32], s: &[u32], set: u32, from: u32) -> Option<Unmet> {
    let rows = set_selections(image, set);
    let known = count(image, SETS);
    for i in from..rows.count {
        if let Some(below) = set_below(image, selection_row(image, rows.row(i))) {
            if below < known && get(s, below as usize) == 0 {
                return Some(Unmet {
                    set: below,
                    next: i + 1,
                });
            }
        }
    }
    None
}

// An order under way: the image, the lent words, how many sets are under way, each led to by the one before, and how many have a place.
#[derive(Drop)]
struct Descent<'a> {
    image: &'a [u32],
    words: &'a mut [u32],
    under: u32,
    placed: u32,
}

impl Descent<'_> {
    // A set is met: its selections are looked at from the first on.
    fn enter_set(&mut self, set: u32) {
        let known = count(self.image, SETS);
        if self.under < known {
            put(self.words, set as usize, NONE);
            put(self.words, (known as usize) + (self.under as usize), set);
            self.under += 1;
        }
    }

    // All that a set leads to was met: it has the next place.
    fn leave_set(&mut self, set: u32) {
        let known = count(self.image, SETS);
        self.under = self.under.saturating_sub(1);
        if self.placed < known {
            put(
                self.words,
                2 * (known as usize) - 1 - (self.placed as usize),
                set,
            );
            self.placed += 1;
            put(self.words, set as usize, self.placed);
        }
    }

    // The last set under way.
    fn last_under_way(&self) -> u32 {
        let top = (count(self.image, SETS) as usize) + (self.under.saturating_sub(1) as usize);
        get(&self.words[..], top)
    }

    // The first set not met before that those selections of a set lead to which were not looked at.
    fn next_below(&self, set: u32) -> Option<Unmet> {
        let from = get(&self.words[..], set as usize);
        let next = if from == NONE { 0 } else { from };
        next_unmet(self.image, &self.words[..], set, next)
    }

    // One step on from the last set under way: down to a set not met before, or back up.
    fn step_on(&mut self) {
        let set = self.last_under_way();
        let unmet = self.next_below(set);
        match unmet {
            Some(unmet) => {
                put(self.words, set as usize, unmet.next);
                self.enter_set(unmet.set);
            }
            None => self.leave_set(set),
        }
    }

    // A set and all that it leads to, directly or not, get places, where they have none.
    fn order_below(&mut self, set: u32) {
        if get(&self.words[..], set as usize) != 0 {
            return;
        }
        self.enter_set(set);
        for _ in 0..2 * (count(self.image, SETS) as usize) {
            if self.under == 0 {
                return;
            }
            self.step_on();
        }
    }
}

// All sets get places, those below a set before it.
fn order_sets(image: &[u32], s: &mut [u32]) {
    let known = count(image, SETS);
    clear(s, 0, known as usize);
    let mut descent = Descent {
        image,
        words: s,
        under: 0,
        placed: 0,
    };
    for set in 0..known {
        descent.order_below(set);
    }
}
