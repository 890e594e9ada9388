// Kinds 1 to 3: the header, the budget, the scratch.
ghost use Rattle.std.specs.Prelude.{◌≡◌};
ghost use Rattle.std.proofs.Math.Option.{none};
ghost use Rattle.tables.specs.Header.{header_fault};
ghost use Rattle.query.specs.Reply.{refused};
ghost use Rattle.query.specs.Refusing.{refused_shows, sizes_fault};
ghost use Rattle.query.specs.declared.refuse.Refusal.TheVariants.{Header};

use crate::needed::scratch_needed;
use selection::arena::MOST_WORK;
use tables::header::{BadHeader, check_header};

// What the check refuses before it looks at a row.
#[derive(Clone, Copy)]
pub enum Refusal {
    Header(BadHeader),
    Budget { work: u32 },
    Scratch { needed: u32 },
}

impl From<BadHeader> for Refusal {
    ghost from_gives = { λ bad refusal. refusal ≡ Header bad };

    fn from(bad: BadHeader) -> Refusal {
        Refusal::Header(bad)
    }
}

// Kinds 2 and 3, of an image whose header is good: so the words needed are a number that a word can hold.
fn refuse_sizes(image: &[u32], work: u32, long: usize) -> Result<(), Refusal>
    requires { header_fault image.now ≡ none }
    ensures { refused_shows result ≡ sizes_fault image.now work long }
{
    if MOST_WORK < work {
        return Err(Refusal::Budget { work });
    }
    let needed = scratch_needed(image, work);
    if (long as u64) < needed {
        return Err(Refusal::Scratch {
            needed: needed as u32,
        });
    }
    Ok(())
}

pub fn refuse(image: &[u32], work: u32, long: usize) -> Result<(), Refusal>
    ensures { refused_shows result ≡ refused image.now work long }
{
    check_header(image)?;
    refuse_sizes(image, work, long)
}
