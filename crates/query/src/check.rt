// The check: what is refused before a row is looked at, then the image with the needed words of scratch lent, which end as 0. Each
// stage gives what the walks have used, or the fault that ends the check.
ghost use Rattle.std.specs.Prelude.{◌≡◌, length};
ghost use Rattle.std.proofs.Math.Option.{none};
ghost use Rattle.query.specs.Reply.{refused, reply, scratch_after};
ghost use Rattle.query.specs.Judging.{Fits, Room, JudgesDocument, JudgesImage, JudgesAll};
ghost use Rattle.query.specs.Outcome.{outcome};

use crate::fault::Fault;
use crate::needed::scratch_needed;
use crate::operations::check_operations;
use crate::refuse::refuse;
use fragment::rules::validate_fragments;
use lists::clear;
use rows::check_rows;
use selection::arena::Reply;

// Kinds 5 to 17, of a good image.
fn check_document(image: &[u32], s: &mut [u32], work: u32) -> Result<u32, Fault>
    requires { Fits image.now work (length s.old) }
    ensures { JudgesDocument image.now work s.old s.new (outcome 0 result) }
{
    validate_fragments(image, s)?;
    check_operations(image, s, work)
}

// Kinds 4 to 17, of an image whose header is good.
fn check_image(image: &[u32], s: &mut [u32], work: u32) -> Result<u32, Fault>
    requires { Room image.now work (length s.old) }
    ensures { JudgesImage image.now work s.old s.new (outcome 0 result) }
{
    check_rows(image)?;
    check_document(image, s, work)
}

// The same with the needed words of the scratch lent; they end as 0.
fn check_lent(image: &[u32], work: u32, scratch: &mut [u32]) -> Result<u32, Fault>
    requires { refused image.now work (length scratch.old) ≡ none }
    ensures { JudgesAll image.now work scratch.old scratch.new (outcome 0 result) }
{
    let needed = scratch_needed(image, work) as usize;
    let answer = check_image(image, &mut scratch[..needed], work);
    clear(scratch, 0, needed);
    answer
}

// All kinds, in their order.
fn check_all(image: &[u32], work: u32, scratch: &mut [u32]) -> Result<u32, Fault>
    ensures { (outcome 0 result ≡ reply image.now work (length scratch.old)) × (scratch.new ≡ scratch_after image.now work scratch.old) }
{
    refuse(image, work, scratch.len())?;
    check_lent(image, work, scratch)
}

// Any words whatever, any budget, any scratch.
pub fn check(image: &[u32], work: u32, scratch: &mut [u32]) -> Reply
    ensures { (result ≡ reply image.now work (length scratch.old)) × (scratch.new ≡ scratch_after image.now work scratch.old) }
{
    match check_all(image, work, scratch) {
        Ok(used) => Reply {
            kind: 0,
            operation: 0,
            a: 0,
            b: 0,
            used,
        },
        Err(fault) => Reply::from(fault),
    }
}
