// The door's two functions as a static library for C and Rust: exports that call the functions of `door`, and promise the same.
#![tactic(auto)]

ghost use Rattle.std.specs.Prelude.{◌≡◌, length};
ghost use Rattle.door.specs.Door.{returned, bytes_after, words_after, lent_after};

// 1 with the reply written; 0 with nothing written where the room is not 20 bytes. The scratch is the door's own.
#[unsafe(no_mangle)]
pub extern "C" fn check_query(image: &[u8], budget: u32, reply: &mut [u8]) -> u32
    ensures { (result ≡ returned (length reply.old) 20) × (reply.new ≡ bytes_after image.now budget reply.old) }
{
    door::check_query(image, budget, reply)
}

// The same over words, with scratch that the caller lends; 0 with nothing written where the room is not 5 words.
#[unsafe(no_mangle)]
pub extern "C" fn check_query_lent(
    image: &[u32],
    budget: u32,
    scratch: &mut [u32],
    reply: &mut [u32],
) -> u32
    ensures { (result ≡ returned (length reply.old) 5) × (reply.new ≡ words_after image.now budget (length scratch.old) reply.old) × (scratch.new ≡ lent_after image.now budget scratch.old (length reply.old)) }
{
    door::check_query_lent(image, budget, scratch, reply)
}
