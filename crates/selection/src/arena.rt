// The regions of the words that the walk is lent, and the walk's state.
ghost use Rattle.std.specs.Prelude.{◌≡◌, ◌+◌, ◌*◌, ◌≤◌};
ghost use Rattle.selection.specs.Regions.{rows_at_most, arena_of, area_of, registry_of};

use expand::Area;
use known::Registry;
use tables::{FRAGMENTS, SELECTIONS, SETS, count, most_rows, word};

// No budget is larger.
pub const MOST_WORK: u32 = 1000000;

// Where each region begins. The parent type of each selection's set stands from word 0 on; then, for each selection, the class of
// its name, and that of its name and parent; the mark of each fragment; the queue of sets; the last place of each class; the last
// known list of each key; for each place of the store the known list before, then four words of links; and the store of lists.
#[derive(Clone, Copy)]
pub struct Arena {
    pub names: u32,
    pub pairs: u32,
    pub marks: u32,
    pub queue: u32,
    pub lasts: u32,
    pub heads: u32,
    pub chain: u32,
    pub links: u32,
    pub store: u32,
}

// The five words that the door hands to C; in `kind` 0 stands for no finding.
#[derive(Clone, Copy)]
pub struct Reply {
    pub kind: u32,
    pub operation: u32,
    pub a: u32,
    pub b: u32,
    pub used: u32,
}

// The reply so far, the words of the store that known lists take, and the number of the last expansion.
#[derive(Clone, Copy)]
pub struct Walk {
    pub reply: Reply,
    pub known: u32,
    pub expansions: u32,
}

// The rows of a table, but no more than it may have.
pub(crate) fn rows_at_most(image: &[u32], table: u8) -> u32
    ensures { (result ≡ rows_at_most image.now table) × (result ≤ 16384) }
{
    count(image, table).min(most_rows(word(image, 0), table))
}

impl Arena {
    // A list takes as many places as it costs, so the paid ones fit into `work`; the one at hand has a length and at most all
    // selections.
    pub fn of(image: &[u32], work: u32) -> Arena
        ensures { result ≡ arena_of image.now work }
    {
        let rows = rows_at_most(image, SELECTIONS);
        let pairs = rows + rows;
        let marks = pairs + rows;
        let queue = marks + rows_at_most(image, FRAGMENTS);
        let lasts = queue + rows_at_most(image, SETS);
        let heads = lasts + rows;
        let chain = heads + rows + 1;
        let room = work.min(MOST_WORK) + 1 + rows;
        let links = chain + room;
        Arena {
            names: rows,
            pairs,
            marks,
            queue,
            lasts,
            heads,
            chain,
            links,
            store: links + 4 * room,
        }
    }

    // The regions of an expansion.
    pub(crate) fn area(self) -> Area
        ensures { result ≡ area_of self }
    {
        Area {
            marks: self.marks,
            queue: self.queue,
            end: self.lasts,
            store: self.store,
        }
    }

    // The regions of the known lists.
    pub(crate) fn registry(self) -> Registry
        ensures { result ≡ registry_of self }
    {
        Registry {
            heads: self.heads,
            keys: self.names,
            chain: self.chain,
            store: self.store,
        }
    }

    // Where a word of a place's links stands.
    pub fn in_links(self, place: u32, column: u32) -> usize
        ensures { result ≡ self.links + 4 * place + column }
    {
        (self.links as usize) + 4 * (place as usize) + (column as usize)
    }
}
