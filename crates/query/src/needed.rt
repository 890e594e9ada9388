// The words of scratch that an image and a budget need, and who uses them.
//
//   stage                          words, one region behind the other
//   fragments (kinds 5 to 9)       5 for each set: three heights, and two for the order of the sets or a walk over them; cleared after it
//   then, for all operations:
//   variables (kinds 10 to 13)     2 for each set (marks and queue of the walk), 1 for each value, 4 for each variable (mark, name, links)
//   behind them, the merge walk    for each selection its parent, the class of its name, the class of its name and parent;
//   (kinds 14 to 17)               a mark for each fragment, a queue of sets; for each selection the last place of its class;
//                                  the known lists: a head for each key (selections + 1), a chain word for each place;
//                                  four links for each place; the store. Places are work + 1 + selections
ghost use Rattle.std.specs.Prelude.{◌≡◌, ◌^◌, ◌<◌};
ghost use Rattle.query.specs.Needed.{rows_in_all, scratch_needed};

use tables::{count, table_count, word};

// The sum of the counts of all tables.
pub fn rows_in_all(image: &[u32]) -> u64
    ensures { (result ≡ rows_in_all image.now) × (result < 2 ^ 40) }
{
    let mut sum: u64 = 0;
    for table in 0..table_count(word(image, 0)) {
        sum += u64::from(count(image, table));
    }
    sum
}

#[tactic(auto, unfolding(crate::specs::Needed::scratch_needed))]
pub fn scratch_needed(image: &[u32], work: u32) -> u64
    ensures { result ≡ scratch_needed image.now work }
{
    8 * u64::from(work) + 16 * rows_in_all(image) + 4096
}
