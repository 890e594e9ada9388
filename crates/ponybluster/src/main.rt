// Checks the image on standard input with a budget of 1000, as the door does, and prints the reply: five numbers in decimal.
#![tactic(auto)]

ghost use Rattle.std.specs.Prelude.{◌≤◌, IfOk, length};

use door::check_query;
use door::spelling::read_words;
use std::io::{self, Read};

// One byte more than an image may have: a longer input shows.
const MOST_BYTES: usize = 32769;

const BUDGET: u32 = 1000;

// The five words that the reply bytes spell.
fn print_reply(rt: &impl Print, reply: &[u8]) -> io::Result<()> {
    let mut words = [0u32; 5];
    read_words(reply, &mut words, 5);
    let [kind, operation, a, b, used] = words;
    print!(rt; "{kind} ")?;
    print!(rt; "{operation} ")?;
    print!(rt; "{a} ")?;
    print!(rt; "{b} ")?;
    println!(rt; "{used}")
}

// Fills the bytes from the input as far as it goes, and says how many there were. A read may give fewer than there is room for, and no
// method of the library fills a slice and tells how far.
fn read_full<R: Read>(input: &mut R, bytes: &mut [u8]) -> io::Result<usize>
    ensures { IfOk result (λ n. n ≤ length bytes.old) }
{
    let mut filled = 0;
    while filled < bytes.len() {
        let got = input.read(&mut bytes[filled..])?;
        if got == 0 {
            break;
        }
        filled += got;
    }
    Ok(filled)
}

fn main(rt: HostRuntime) -> io::Result<()> {
    let mut image = [0u8; MOST_BYTES];
    let mut reply = [0u8; 20];
    let length = read_full(&mut rt.reader(), &mut image)?;
    check_query(&image[..length], BUDGET, &mut reply);
    print_reply(&rt, &reply)
}
