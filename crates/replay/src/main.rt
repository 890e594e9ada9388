// Replays stored cases against the check and the lookup, and prints what they answer. Standard input is little-endian words, as
// often as there are cases: `0, work, scratch, n, n words` (a check with so many words of scratch) or `1, set, 0, n, n words` (a
// lookup). A check prints `kind operation a b used kept`, kept being 1 where the scratch is afterwards as promised; a lookup prints
// the length of its part and then its words. A case that asks for more than there is room for prints `limit` and ends the run;
// one that the input cuts off ends it too. What is printed is written at once, before more input is read.
#![tactic(auto)]

use door::spelling::read_words;
use lists::{get, put};
use query::check::check;
use query::needed::scratch_needed;
use selection::arena::Reply;
use std::io::{self, ErrorKind, Read, Write};
use tables::lookup::set_part;

const MOST_BYTES: usize = 262144;

const MOST_WORDS: usize = 65536;

const MOST_SCRATCH: usize = 262144;

// More cases than any input has: a proved loop must end.
const MOST_CASES: u32 = u32::MAX;

// What a case asks for: a check, or the lookup of a set.
#[derive(Clone, Copy)]
enum Form {
    Check,
    Lookup,
}

impl From<u32> for Form {
    fn from(word: u32) -> Form {
        if word == 0 { Form::Check } else { Form::Lookup }
    }
}

// The four words before a case's image. `given` is the budget of a check, the set of a lookup.
#[derive(Clone, Copy)]
struct Case {
    form: Form,
    given: u32,
    scratch: u32,
    n: u32,
}

// The words that a case is read into and checked with.
#[derive(Drop)]
struct Room {
    bytes: [u8; MOST_BYTES],
    image: [u32; MOST_WORDS],
    scratch: [u32; MOST_SCRATCH],
}

// Fills the bytes from the input; false where the input ends before.
fn read_full<R: Read>(input: &mut R, bytes: &mut [u8]) -> io::Result<bool> {
    match input.read_exact(bytes) {
        Ok(()) => Ok(true),
        Err(error) if error.kind() == ErrorKind::UnexpectedEof => Ok(false),
        Err(error) => Err(error),
    }
}

// The next case, if the input goes on.
fn read_case<R: Read>(input: &mut R) -> io::Result<Option<Case>> {
    let mut bytes = [0u8; 16];
    let mut words = [0u32; 4];
    if !read_full(input, &mut bytes)? {
        return Ok(None);
    }
    read_words(&bytes, &mut words, 4);
    let [form, given, scratch, n] = words;
    Ok(Some(Case {
        form: Form::from(form),
        given,
        scratch,
        n,
    }))
}

// The next n words of the input, by way of lent bytes; and whether there are so many.
fn read_image<R: Read>(
    input: &mut R,
    bytes: &mut [u8],
    image: &mut [u32],
    n: u32,
) -> io::Result<bool> {
    let length = 4 * (n as usize);
    if bytes.len() < length {
        return Ok(false);
    }
    let whole = read_full(input, &mut bytes[..length])?;
    read_words(bytes, image, n);
    Ok(whole)
}

fn print_reply<W: Write>(out: &mut W, reply: Reply, kept: bool) -> io::Result<()> {
    let Reply {
        kind,
        operation,
        a,
        b,
        used,
    } = reply;
    writeln!(out, "{kind} {operation} {a} {b} {used} {}", u32::from(kept))
}

fn print_part<W: Write>(out: &mut W, part: &[u32]) -> io::Result<()> {
    write!(out, "{}", part.len())?;
    for word in part {
        write!(out, " {word}")?;
    }
    writeln!(out)
}

// What stands at a place of the scratch before a check: nowhere 0.
fn pattern(at: u32) -> u32 {
    u32::MAX - at
}

fn fill(scratch: &mut [u32], n: u32) {
    for i in 0..n {
        put(scratch, i as usize, pattern(i));
    }
}

// Whether the first words of the scratch are 0, so many of them, and all others as they were filled.
fn is_kept(scratch: &[u32], n: u32, cleared: u64) -> bool {
    for i in 0..n {
        let promised = if u64::from(i) < cleared {
            0
        } else {
            pattern(i)
        };
        if get(scratch, i as usize) != promised {
            return false;
        }
    }
    true
}

// The words of scratch that a check hands back as 0: those that it needs, and none where it refuses at once, by kinds 1 to 3 of the reply.
fn words_cleared(image: &[u32], work: u32, kind: u32) -> u64 {
    if (1..=3).contains(&kind) {
        return 0;
    }
    scratch_needed(image, work)
}

// Inlined, as the next function is: in `main` the compiler knows that the scratch has n words, and the loops over it need no test of each place.
#[inline(always)]
fn replay_check<W: Write>(
    out: &mut W,
    image: &[u32],
    work: u32,
    scratch: &mut [u32],
    n: u32,
) -> io::Result<()> {
    fill(scratch, n);
    let reply = check(image, work, scratch);
    let cleared = words_cleared(image, work, reply.kind);
    let kept = is_kept(scratch, n, cleared);
    print_reply(out, reply, kept)
}

#[inline(always)]
fn replay<W: Write>(out: &mut W, case: Case, image: &[u32], scratch: &mut [u32]) -> io::Result<()> {
    match case.form {
        Form::Check => replay_check(out, image, case.given, scratch, case.scratch),
        Form::Lookup => print_part(out, set_part(image, case.given)),
    }
}

// One case; whether the run goes on.
fn replay_next<R: Read, W: Write>(input: &mut R, out: &mut W, room: &mut Room) -> io::Result<bool> {
    let Some(case) = read_case(input)? else {
        return Ok(false);
    };
    let end = case.n as usize;
    let lent = case.scratch as usize;
    if MOST_WORDS < end || MOST_SCRATCH < lent {
        writeln!(out, "limit")?;
        return Ok(false);
    }
    let whole = read_image(input, &mut room.bytes, &mut room.image, case.n)?;
    if whole {
        let scratch = &mut room.scratch[..];
        replay(out, case, &room.image[..end], &mut scratch[..lent])?;
    }
    Ok(whole)
}

// All cases of the input.
fn replay_all<R: Read, W: Write>(input: &mut R, out: &mut W, room: &mut Room) -> io::Result<()> {
    for _ in 0..MOST_CASES {
        if !replay_next(input, out, room)? {
            break;
        }
    }
    Ok(())
}

fn main(rt: HostRuntime) -> io::Result<()> {
    let mut room = Room {
        bytes: [0u8; MOST_BYTES],
        image: [0u32; MOST_WORDS],
        scratch: [0u32; MOST_SCRATCH],
    };
    replay_all(&mut rt.reader(), &mut io::writer(&rt), &mut room)
}
