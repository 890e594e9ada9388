// Words in a lent slice: total reads and stores, and a store that clears many.
// No function has a `requires`: a place past the end reads as 0, and a store there does nothing.
#![tactic(auto)]

ghost use Rattle.std.specs.Prelude.{◌≡◌, ◌+◌, ◌-◌, min, length, get_or, set, replicate};
ghost use Rattle.lists.specs.Part.{write};

// Places from `start` up to `end`.
#[derive(Clone, Copy)]
pub struct Span {
    pub start: u32,
    pub end: u32,
}

impl Span {
    // How many places a span has.
    pub fn len(self) -> u32
        ensures { result ≡ self.end - self.start }
    {
        self.end.max(self.start) - self.start
    }
}

// The word at a place; 0 past the end.
pub fn get(s: &[u32], at: usize) -> u32
    ensures { result ≡ get_or s.now at 0 }
{
    s.get(at).copied().unwrap_or(0)
}

// A word stored at a place; nothing past the end. No `get_mut`: after it a proof knows no element.
pub fn put(s: &mut [u32], at: usize, v: u32)
    ensures { s.new ≡ set s.old at v }
{
    if at < s.len() {
        s[at] = v;
    }
}

// The place of word i of a region: a sum of two words, which fits whatever they are.
pub fn in_region(start: u32, i: u32) -> usize
    ensures { result ≡ start + i }
{
    (start as usize) + (i as usize)
}

// The n words at a place, or as many as there are, become 0.
pub fn clear(s: &mut [u32], at: usize, n: usize)
    ensures { s.new ≡ write s.old at (replicate (min n (length s.old - at)) 0) }
{
    let start = at.min(s.len());
    let words = n.min(s.len() - start);
    s[start..start + words].fill(0);
}
