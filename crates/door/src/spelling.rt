// Words as bytes, low byte first.
ghost use Rattle.std.specs.Prelude.{◌≡◌, ◌+◌, ◌≤◌, min, length, get_or};
ghost use Rattle.lists.specs.Part.{write};
ghost use Rattle.door.specs.Spelling.{word_at, words_of, bytes_of};

use lists::put;

// The byte at a place; 0 past the end.
fn byte(bytes: &[u8], at: usize) -> u8
    ensures { result ≡ get_or bytes.now at 0 }
{
    bytes.get(at).copied().unwrap_or(0)
}

// The i-th word that bytes spell; bytes past the end are 0.
#[tactic(auto, unfolding(crate::specs::Spelling::word_at))]
fn word_from(bytes: &[u8], i: u32) -> u32
    ensures { result ≡ word_at bytes.now i }
{
    let at = 4 * (i as usize);
    u32::from_le_bytes([
        byte(bytes, at),
        byte(bytes, at + 1),
        byte(bytes, at + 2),
        byte(bytes, at + 3),
    ])
}

// The first n words that bytes spell go to the front of `words`, or as many as there is room for.
pub fn read_words(bytes: &[u8], words: &mut [u32], n: u32)
    ensures { words.new ≡ write words.old 0 (words_of bytes.now (min n (length words.old))) }
{
    for i in 0..n {
        put(words, i as usize, word_from(bytes, i));
    }
}

// A word stored from a place on, where it lies inside.
pub(crate) fn store_word(out: &mut [u8], at: u8, word: u32)
    requires { at + 4 ≤ length out.old }
    ensures { out.new ≡ write out.old at (bytes_of word) }
{
    let start = at as usize;
    out[start..start + 4].copy_from_slice(&word.to_le_bytes());
}
