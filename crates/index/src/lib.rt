// A search by key over lent words. For n keys, 3 × n words: the keys, then two links for each place, which make a tree of the
// places. A search goes from place 0 down, each step by one more bit of the key, so that it passes at most 33 places, whatever
// the keys are. Any words may be given.
#![tactic(auto)]

ghost use Rattle.std.specs.Prelude.{◌≡◌, true, ◌+◌, ◌*◌, ◌^◌, ◌≤◌, ◌<◌, leb, length, IfSome, MatchResult};
ghost use Rattle.lists.specs.Every.{found};
ghost use Rattle.index.specs.Indexed.{link_place, words_of, key_at, first_place, Apart, Linked, Indexed, Links, Firsts, Built, Arrives, Ends};

use lists::{clear, put};

// Where the words begin, and how many keys there are.
#[derive(Clone, Copy)]
pub struct Index {
    pub at: usize,
    pub count: u32,
}

// How many words an index of so many keys takes.
pub fn words_for(count: u32) -> usize
    ensures { result ≡ 3 * count }
{
    3 * (count as usize)
}

impl Index {
    // Whether its words lie inside so many.
    fn is_inside(self, long: usize) -> bool
        ensures { result ≡ leb (self.at + words_of self) long }
    {
        self.at <= long && words_for(self.count) <= long - self.at
    }

    // Whether the words of as many places, from a place on, lie apart from it.
    fn is_apart(self, to: usize) -> bool
        ensures { (result ≡ true → Apart self to) × (Apart self to → result ≡ true) }
    {
        if to < self.at {
            (self.count as usize) <= self.at - to
        } else {
            words_for(self.count) <= to - self.at
        }
    }

    // Where the link stands by which the search goes on from a place, the bits being those that are left of the key.
    #[tactic(auto, unfolding(crate::specs::Indexed::link_place))]
    fn link_place(self, place: u32, bits: u32) -> usize
        requires { (self.at + words_of self < 2 ^ 64) × (place < self.count) }
        ensures { (result ≡ link_place self place bits) × (result < self.at + words_of self) }
    {
        self.at + ((self.count as usize) + (2 * (place as usize) + ((bits % 2) as usize)))
    }

    // The search from place 0 down, link by link: the place where it finds the key, or the link where it ends without it.
    fn descend(self, s: &[u32], key: u32) -> Result<u32, usize>
        requires { (self.at + words_of self ≤ length s.now) × (0 < self.count) }
        ensures { MatchResult result (λ place. Arrives s.now self key place) (λ link. Ends s.now self key link) }
    {
        let mut place: u32 = 0;
        let mut bits = key;
        while s[self.at + (place as usize)] != key {
            let link = self.link_place(place, bits);
            let below = s[link];
            if below <= place || self.count <= below {
                return Err(link);
            }
            place = below;
            bits /= 2;
        }
        Ok(place)
    }

    // A place is linked where the search for its key ends, unless an earlier one has the key. That one, or itself, is the key's first.
    fn link(self, s: &mut [u32], next: u32) -> u32
        requires { Linked s.old self next × (0 < next) × (next < self.count) }
        ensures { Links s.old self next s.new × (result ≡ first_place s.old self (key_at s.old self next)) }
    {
        let key = s[self.at + (next as usize)];
        match self.descend(&s[..], key) {
            Ok(place) => place,
            Err(link) => {
                s[link] = next;
                next
            }
        }
    }

    // All places are linked, first to last, whatever the links were; the first places are told on the way.
    fn link_all(self, s: &mut [u32], to: usize)
        requires { (self.at + words_of self ≤ length s.old) × (0 < self.count) × Apart self to × (to ≤ length s.old) }
        ensures { Firsts s.old self to s.new }
    {
        let count = self.count as usize;
        clear(s, self.at + count, 2 * count);
        put(s, to, 0);
        for next in 1..self.count {
            let first = self.link(s, next);
            put(s, to + (next as usize), first);
        }
    }

    // The keys stand in their words: then they can be searched, and the words at `to` tell for each place the first one with its key.
    pub fn build_firsts(self, s: &mut [u32], to: usize)
        ensures { Firsts s.old self to s.new }
    {
        if self.count != 0 && to <= s.len() && self.is_inside(s.len()) && self.is_apart(to) {
            self.link_all(s, to);
        }
    }

    // The same with no first places told: they would stand past the end. It only calls the other; both names are promised.
    pub fn build(self, s: &mut [u32])
        ensures { Built s.old self s.new }
    {
        let end = s.len();
        self.build_firsts(s, end);
    }

    // The first place whose key it is. Of words that were not built, some place or none.
    pub fn find(self, s: &[u32], key: u32) -> Option<u32>
        ensures below { IfSome result (λ p. p < self.count) }
        ensures first { Indexed s.now self → result ≡ found self.count (first_place s.now self key) }
    {
        if self.count != 0 && self.is_inside(s.len()) {
            self.descend(s, key).ok()
        } else {
            None
        }
    }
}
