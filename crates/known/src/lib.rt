// The lists of rows that a pass has met. Each is stored as its length and then its rows. The lists with the same key are chained,
// the last one first. `forget` makes nothing known, `keep` adds the list that is stored behind the known ones, `is_known` says
// whether that list is among them. What is found is said of any lists that are stored so; every function is total.
#![tactic(auto)]

ghost use Rattle.std.specs.Prelude.{◌≡◌, ◌≤◌, ◌<◌, ◌^◌};
ghost use Rattle.known.specs.KnownLists.{bucket, slot_at, Finds, same_rows, is_list_at, kept_words, forgotten_words};

use lists::{Span, clear, get, in_region, put};

// Where its words are: the last list of each key, from key 0 up to `keys`; for each place of the store the list before with the same
// key; and the store.
#[derive(Clone, Copy)]
pub struct Registry {
    pub heads: u32,
    pub keys: u32,
    pub chain: u32,
    pub store: u32,
}

// Reduces a sum to a key, at most `keys`.
#[tactic(auto, unfolding(crate::specs::KnownLists::bucket))]
fn bucket(keys: u32, sum: usize) -> usize
    ensures { (result ≡ bucket keys sum) × (result ≤ keys) }
{
    let most = keys as usize;
    if sum <= most {
        sum
    } else {
        most.min(sum - most)
    }
}

// Whether n words at one place are those at another.
fn same_rows(s: &[u32], a: usize, b: usize, n: u32) -> bool
    requires { (a < 2 ^ 60) × (b < 2 ^ 60) }
    ensures { result ≡ same_rows s.now a b n }
{
    (0..n as usize).all(|i| get(s, a + i) == get(s, b + i))
}

// Whether the list stored at a place is the one of n rows at another.
#[tactic(auto, unfolding(crate::specs::KnownLists::is_list_at))]
fn is_list_at(s: &[u32], at: usize, rows: usize, n: u32) -> bool
    requires { (at < 2 ^ 50) × (rows < 2 ^ 60) }
    ensures { result ≡ is_list_at s.now at rows n }
{
    get(s, at) == n && same_rows(s, rows, at + 1, n)
}

impl Registry {
    // The slot of a list, where the last known list with its key is recorded. The key is a checksum of the rows.
    #[tactic(auto, unfolding(crate::specs::KnownLists::key_words, crate::specs::KnownLists::slot_at))]
    pub fn slot_of(self, s: &[u32], list: Span) -> usize
        ensures { result ≡ slot_at self s.now list }
    {
        let start = in_region(self.store, list.start);
        let mut key: usize = 0;
        for i in 0..list.len() {
            let row = get(s, start + (i as usize));
            key = bucket(self.keys, key + (row as usize));
        }
        (self.heads as usize) + key
    }

    // Nothing is known: no key has a list.
    pub fn forget(self, s: &mut [u32])
        ensures { s.new ≡ forgotten_words self s.old }
    {
        clear(s, self.heads as usize, (self.keys as usize) + 1);
    }

    // Whether a list is among the known ones, `slot` being its slot. Looks at those of its key, the last one first; a chain that does
    // not go back ends the search. The lent words hold one more than a place, and 0 for none.
    pub fn is_known(self, s: &[u32], slot: usize, list: Span) -> bool
        ensures { Finds self s.now slot list result }
    {
        let n = list.len();
        let rows = in_region(self.store, list.start);
        let mut next = get(s, slot);
        while let Some(place) = next.checked_sub(1) {
            if is_list_at(s, in_region(self.store, place), rows, n) {
                return true;
            }
            let before = get(s, in_region(self.chain, place));
            if next <= before {
                return false;
            }
            next = before;
        }
        false
    }

    // The list is known from now on, as the last of its key. Gives the words of the store that known lists take then.
    #[tactic(auto, unfolding(crate::specs::KnownLists::kept_words))]
    pub fn keep(self, s: &mut [u32], slot: usize, known: u32, list: Span) -> u32
        ensures { (result ≡ list.end) × (s.new ≡ kept_words self slot known list s.old) }
    {
        let before = get(&s[..], slot);
        put(s, in_region(self.chain, known), before);
        put(s, slot, list.start);
        put(s, in_region(self.store, known), list.len());
        list.end
    }
}
