// The sets that some sets reach, each once. The lent words: a mark for each set, then the queue of sets; twice as many as there
// are sets. What they held before changes nothing.
#![tactic(auto)]

ghost use Rattle.std.specs.Prelude.{◌≡◌, ◌≤◌, ◌+◌, eqb, get_or, MatchOption};
ghost use Rattle.tables.specs.Layout.{sets, operations};
ghost use Rattle.tables.specs.Image.{count_at};
ghost use Rattle.tables.specs.Columns.{fragment_set, selection_at, set_below};
ghost use Rattle.reach.specs.Marks.{word_of};
ghost use Rattle.reach.specs.Worklists.{Goes, Starts};
ghost use Rattle.reach.specs.Reach.{led, queue_set, enter_set, walk_selection, walk_set, start_sets, reached_from, Walked};

use lists::{clear, get, put};
use tables::columns::{fragment_set, selection_row, set_below, set_selections};
use tables::{OPERATIONS, Range, SETS, count};

// A set's mark: it was there at the start, or a selection of a set that is reached leads to it. A set that was not met has 0.
#[derive(Clone, Copy)]
enum Mark {
    Begun = 1,
    Led = 2,
}

// The set that stands so far into the queue.
pub fn queued_set(image: &[u32], s: &[u32], i: u32) -> u32
    ensures { result ≡ get_or s.now (count_at image.now sets + i) 0 }
{
    get(s, (count(image, SETS) as usize) + (i as usize))
}

// Whether a selection of a set that was reached leads to a fragment's set: then it is a spread of that fragment.
pub fn is_spread(image: &[u32], s: &[u32], fragment: u32) -> bool
    ensures { result ≡ eqb (get_or s.now (fragment_set image.now fragment) 0) led }
{
    get(s, fragment_set(image, fragment) as usize) == Mark::Led as u32
}

// The set that a selection leads to, if it leads to one.
fn leads_to(image: &[u32], row: u32) -> Option<u32>
    ensures { MatchOption result (count_at image.now sets ≤ set_below image.now (selection_at image.now row)) (λ set. set ≡ set_below image.now (selection_at image.now row)) }
{
    set_below(image, selection_row(image, row))
}

// The walk under way: the image, the lent words, and how many sets are queued.
#[derive(Drop)]
struct Worklist<'a> {
    image: &'a [u32],
    words: &'a mut [u32],
    queued: u32,
}

impl Worklist<'_> {
    // A set's mark; 0 where it was not met.
    fn mark_of(&self, set: u32) -> u32
        ensures { result ≡ get_or self.now.words.now set 0 }
    {
        get(&self.words[..], set as usize)
    }

    // The set that stands so far into the queue.
    fn set_at(&self, i: u32) -> u32
        ensures { result ≡ get_or self.now.words.now (count_at self.now.image.now sets + i) 0 }
    {
        queued_set(self.image, &self.words[..], i)
    }

    // One set more, where the queue has room.
    fn queue_set(&mut self, set: u32)
        ensures { Goes (λ image. queue_set image set) self.old self.new }
    {
        let sets = count(self.image, SETS);
        if self.queued < sets {
            put(self.words, (sets as usize) + (self.queued as usize), set);
            self.queued += 1;
        }
    }

    // A set is met: it is marked, and queued the first time.
    fn enter_set(&mut self, set: u32, mark: Mark)
        ensures { Goes (λ image. enter_set image (word_of mark) set) self.old self.new }
    {
        if set < count(self.image, SETS) {
            let before = self.mark_of(set);
            put(self.words, set as usize, mark as u32);
            if before == 0 {
                self.queue_set(set);
            }
        }
    }

    fn walk_selection(&mut self, row: u32)
        ensures { Goes (λ image. walk_selection image row) self.old self.new }
    {
        if let Some(set) = leads_to(self.image, row) {
            self.enter_set(set, Mark::Led);
        }
    }

    fn walk_set(&mut self, set: u32)
        ensures { Goes (λ image. walk_set image set) self.old self.new }
    {
        let rows = set_selections(self.image, set);
        for i in 0..rows.count {
            self.walk_selection(rows.row(i));
        }
    }

    // The sets of a range are met, and no other.
    fn start_sets(&mut self, sets: Range)
        ensures { Starts «sets» self.old self.new }
    {
        clear(self.words, 0, count(self.image, SETS) as usize);
        self.queued = 0;
        for i in 0..sets.count {
            self.enter_set(sets.row(i), Mark::Begun);
        }
    }
}

// The sets that those of a range reach stand in the queue then, each once. Gives how many.
pub fn walk_selections_with_deduped_fragments(image: &[u32], s: &mut [u32], sets: Range) -> u32
    ensures { Walked image.now (reached_from image.now «sets») s.old s.new result }
{
    let mut list = Worklist {
        image,
        words: s,
        queued: 0,
    };
    list.start_sets(sets);
    // No `for`: the queue grows as it is worked off.
    let mut walked: u32 = 0;
    while walked < list.queued {
        let set = list.set_at(walked);
        walked += 1;
        list.walk_set(set);
    }
    list.queued
}

// The sets that all operations start from.
pub fn operation_sets(image: &[u32]) -> Range
    ensures { result ≡ record { first = 0; count = count_at image.now operations } }
{
    Range {
        first: 0,
        count: count(image, OPERATIONS),
    }
}
