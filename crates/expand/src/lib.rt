// Expanding: from a queue of sets to the list of their fields. "A queue of sets; fields are listed in order under their set's
// parent, inlines and each fragment the first time are queued." Every function is total; what the list is stands under `Good`.
#![tactic(auto)]

ghost use Rattle.std.specs.Prelude.{◌≡◌, ◌+◌, [], ◌∷◌, get_or};
ghost use Rattle.tables.specs.Columns.{set_selections, fragment_set};
ghost use Rattle.expand.specs.ImageDocument.{up_from};
ghost use Rattle.expand.specs.Expanding.{queue_next, queue_words, list_next, list_words, fragment_next, fragment_words, Expanded};
ghost use Rattle.expand.specs.Worklists.{Goes, Does};

use lists::{get, in_region, put};
use tables::columns::{
    SelectionKind, fragment_set, selection_kind, selection_kind_of, selection_target,
    set_selections,
};

// Where an expansion's words are: a mark for each fragment, the queue of sets up to `end`, and the store of lists.
#[derive(Clone, Copy)]
pub struct Area {
    pub marks: u32,
    pub queue: u32,
    pub end: u32,
    pub store: u32,
}

// The sets in the queue, the place of the store where the list goes on, and the expansion's number.
#[derive(Clone, Copy)]
pub struct Expansion {
    pub queued: u32,
    pub listed: u32,
    pub number: u32,
}

// An expansion under way: the image, the lent words, where their parts are, and how far it has come.
#[derive(Drop)]
struct Worklist<'a> {
    image: &'a [u32],
    words: &'a mut [u32],
    area: Area,
    at: Expansion,
}

impl Area {
    // A set is queued, where the queue has room.
    #[tactic(auto, unfolding(crate::specs::Expanding::queue_next, crate::specs::Expanding::queue_words))]
    pub fn queue_set(self, s: &mut [u32], x: Expansion, set: u32) -> Expansion
        ensures { (result ≡ queue_next self x) × (s.new ≡ queue_words self x s.old set) }
    {
        let at = in_region(self.queue, x.queued);
        if at < self.end as usize {
            put(s, at, set);
            Expansion {
                queued: x.queued + 1,
                ..x
            }
        } else {
            x
        }
    }

    // The queue is worked off. Gives the place of the store where the list ends.
    pub fn expand_selections(self, image: &[u32], s: &mut [u32], x: Expansion) -> u32
        ensures { Expanded image.now self s.old s.new x result }
    {
        let mut list = Worklist {
            image,
            words: s,
            area: self,
            at: x,
        };
        // No `for`: the queue grows as it is worked off.
        let mut walked: u32 = 0;
        while walked < list.queued() {
            let set = list.set_at(walked);
            walked += 1;
            list.expand_set(set);
        }
        list.at.listed
    }
}

impl Worklist<'_> {
    // How many sets are queued.
    fn queued(&self) -> u32
        ensures { result ≡ self.now.at.queued }
    {
        self.at.queued
    }

    // The set that stands so far into the queue.
    fn set_at(&self, i: u32) -> u32
        ensures { result ≡ get_or self.now.words.now (self.now.area.queue + i) 0 }
    {
        get(&self.words[..], in_region(self.area.queue, i))
    }

    // The number of the last expansion that a fragment was queued in.
    fn mark_of(&self, fragment: u32) -> u32
        ensures { result ≡ get_or self.now.words.now (self.now.area.marks + fragment) 0 }
    {
        get(&self.words[..], in_region(self.area.marks, fragment))
    }

    // The rows of a set, in order.
    fn expand_set(&mut self, set: u32)
        ensures { Goes (λ image. up_from (set_selections image set).first (set_selections image set).count) self.old self.new }
    {
        let rows = set_selections(self.image, set);
        for i in 0..rows.count {
            self.expand_selection(rows.row(i));
        }
    }

    fn expand_selection(&mut self, row: u32)
        ensures { Goes (λ image. row ∷ []) self.old self.new }
    {
        match selection_kind_of(selection_kind(self.image, row)) {
            Some(SelectionKind::Field) => self.list_field(row),
            Some(SelectionKind::Inline) => self.queue_set(selection_target(self.image, row)),
            // A spread: no other kind stands in a good image.
            _ => self.queue_fragment(selection_target(self.image, row)),
        }
    }

    // A fragment is queued the first time within one expansion: its mark is then that expansion's number.
    #[tactic(auto, unfolding(crate::specs::Expanding::fragment_next, crate::specs::Expanding::fragment_words))]
    fn queue_fragment(&mut self, fragment: u32)
        ensures { Does (λ w. fragment_next w.area w.at w.words.now fragment) (λ w. fragment_words w.area w.at w.words.now fragment (fragment_set w.image.now fragment)) self.old self.new }
    {
        if self.mark_of(fragment) != self.at.number {
            put(
                self.words,
                in_region(self.area.marks, fragment),
                self.at.number,
            );
            self.queue_set(fragment_set(self.image, fragment));
        }
    }

    fn queue_set(&mut self, set: u32)
        ensures { Does (λ w. queue_next w.area w.at) (λ w. queue_words w.area w.at w.words.now set) self.old self.new }
    {
        self.at = self.area.queue_set(self.words, self.at, set);
    }

    // A field is listed: its row goes to the list's end.
    #[tactic(auto, unfolding(crate::specs::Expanding::list_next, crate::specs::Expanding::list_words))]
    fn list_field(&mut self, row: u32)
        ensures { Does (λ w. list_next w.at) (λ w. list_words w.area w.at w.words.now row) self.old self.new }
    {
        put(self.words, in_region(self.area.store, self.at.listed), row);
        self.at.listed = self.at.listed.saturating_add(1);
    }
}
