// The door for C and Rust: an image, a budget, and room for the five numbers of the reply. Any bytes, any words.
// spelling: words as bytes, low byte first.
#![tactic(auto)]

pub mod spelling;

ghost use Rattle.std.specs.Prelude.{◌≡◌, ◌≤◌, length};
ghost use Rattle.door.specs.Door.{no_words, reply_to_words, reply_to_bytes, reply_bytes, reply_words, returned, bytes_after, words_after, lent_after};

use crate::spelling::{read_words, store_word};
use query::check::check;
use selection::arena::Reply;
use tables::NONE;

const MOST_BYTES: usize = 32768;

const MOST_WORDS: usize = 8192;

const SCRATCH: usize = 16384;

const REPLY_BYTES: usize = 20;

const REPLY_WORDS: usize = 5;

// Bytes that are no words, or too many of them: kind 18 shows how many, or NONE where a word can't hold it. Kinds and results here are
// the numbers that C reads.
fn refuse_bytes(length: usize) -> Reply
    ensures { result ≡ no_words length }
{
    Reply {
        kind: 18,
        operation: 0,
        a: u32::try_from(length).unwrap_or(NONE),
        b: 0,
        used: 0,
    }
}

// The first n words that bytes spell, checked.
fn check_words(bytes: &[u8], n: u32, budget: u32) -> Reply
    requires { n ≤ 8192 }
    ensures { result ≡ reply_to_words bytes.now n budget }
{
    let mut words = [0u32; MOST_WORDS];
    let mut scratch = [0u32; SCRATCH];
    read_words(bytes, &mut words, n);
    let end = n as usize;
    check(&words[..end], budget, &mut scratch)
}

#[tactic(auto, unfolding(crate::specs::Door::reply_to_bytes))]
fn check_bytes(bytes: &[u8], budget: u32) -> Reply
    ensures { result ≡ reply_to_bytes bytes.now budget }
{
    let length = bytes.len();
    if length % 4 != 0 || MOST_BYTES < length {
        return refuse_bytes(length);
    }
    check_words(bytes, (length / 4) as u32, budget)
}

// The five words of a reply, as the caller reads them.
fn words_of_reply(r: Reply) -> [u32; 5]
    ensures { result ≡ reply_words r }
{
    [r.kind, r.operation, r.a, r.b, r.used]
}

fn store_reply(out: &mut [u8], r: Reply)
    requires { length out.old ≡ 20 }
    ensures { out.new ≡ reply_bytes r }
{
    store_word(out, 0, r.kind);
    store_word(out, 4, r.operation);
    store_word(out, 8, r.a);
    store_word(out, 12, r.b);
    store_word(out, 16, r.used);
}

// 1 with the reply written; 0 with nothing written where the room is not 20 bytes. The scratch is the door's own.
#[tactic(auto, unfolding(crate::specs::Door::bytes_after))]
pub fn check_query(image: &[u8], budget: u32, reply: &mut [u8]) -> u32
    ensures { (result ≡ returned (length reply.old) 20) × (reply.new ≡ bytes_after image.now budget reply.old) }
{
    if reply.len() != REPLY_BYTES {
        return 0;
    }
    let answer = check_bytes(image, budget);
    store_reply(reply, answer);
    1
}

// The same over words, with scratch that the caller lends; 0 with nothing written where the room is not 5 words.
#[tactic(auto, unfolding(crate::specs::Door::words_after, crate::specs::Door::lent_after))]
pub fn check_query_lent(image: &[u32], budget: u32, scratch: &mut [u32], reply: &mut [u32]) -> u32
    ensures { (result ≡ returned (length reply.old) 5) × (reply.new ≡ words_after image.now budget (length scratch.old) reply.old) × (scratch.new ≡ lent_after image.now budget scratch.old (length reply.old)) }
{
    if reply.len() != REPLY_WORDS {
        return 0;
    }
    let answer = check(image, budget, scratch);
    reply.copy_from_slice(&words_of_reply(answer));
    1
}
