// Kinds 5 to 9 in their order. The lent words: three numbers for each set, and behind them first the order of the sets, then the words
// of walks over reached sets. The image and the words are passed along and are no struct: each contract would have to say that both stay.
// Each kind has a function of its own: one over a test and an error would take two closures and their clauses.
ghost use Rattle.std.specs.Prelude.{◌≡◌, ◌+◌, ◌≤◌, ◌<◌, eqb, leb, length, get_or};
ghost use Rattle.std.proofs.Math.Option.{none};
ghost use Rattle.lists.specs.First.{◌▷◌};
ghost use Rattle.lists.specs.Part.{Outside};
ghost use Rattle.tables.specs.Layout.{fragments, sets};
ghost use Rattle.tables.specs.Image.{count_at};
ghost use Rattle.tables.specs.Columns.{fragment_set};
ghost use Rattle.tables.specs.Good.{Good};
ghost use Rattle.reach.specs.Reach.{led};
ghost use Rattle.fragment.specs.Heights.{most_chain};
ghost use Rattle.fragment.specs.Rounds.{height_at};
ghost use Rattle.fragment.specs.Rise.{place_at, RisesTo};
ghost use Rattle.fragment.specs.Walks.{behind, HeightsKept, Marked, Ready, Validates};
ghost use Rattle.fragment.specs.Rules.{operation_sets, fragments_show, reaches_itself, cycle_fault, chain_fault, links_fault, nesting_fault, unused_fault, fragments_fault, fragments_words, cleared};

use crate::heights::{
    MOST_CHAIN, MOST_LINKS, MOST_NESTED, height_at, measure_in_order, measure_sets,
};
use crate::order::{FRONT, HEIGHTS, LENT, ORDER, order_behind, place_behind, words_of};
use crate::rise::highest_rise;
use lists::clear;
use reach::{is_spread, operation_sets, walk_selections_with_deduped_fragments};
use tables::columns::fragment_set;
use tables::{FRAGMENTS, OPERATIONS, Range, SETS, count};

// Why a document is refused: the lowest fragment or operation that breaks the rule.
#[derive(Clone, Copy)]
pub enum FragmentError {
    // Kind 5: it reaches itself by spreads.
    Cycle { fragment: u32 },
    // Kind 6: a chain of over 100 fragments starts from it, itself counted.
    LongChain { fragment: u32 },
    // Kind 7: over 500 links lead down from its set.
    ManyLinks { operation: u32 },
    // Kind 8: over 128 non-empty field sets are nested below its own.
    DeepNesting { operation: u32 },
    // Kind 9: no operation reaches it.
    Unused { fragment: u32 },
}

// The walk over the sets that a range reaches, in the words behind the heights.
fn walk_behind(image: &[u32], s: &mut [u32], sets: Range)
    ensures { HeightsKept image.now s.old s.new × (fragments_words image.now ≤ length s.old → Marked image.now «sets» s.new) }
{
    let start = words_of(image, HEIGHTS);
    let end = start + words_of(image, ORDER);
    if end <= s.len() {
        walk_selections_with_deduped_fragments(image, &mut s[start..end], sets);
    }
}

// Whether the walk met a spread of the fragment.
fn is_marked(image: &[u32], s: &[u32], fragment: u32) -> bool
    ensures { fragments_words image.now ≤ length s.now → fragment_set image.now fragment < count_at image.now sets → result ≡ eqb (get_or s.now (behind image.now + fragment_set image.now fragment) 0) led }
{
    let start = words_of(image, HEIGHTS);
    let end = start + words_of(image, ORDER);
    end <= s.len() && is_spread(image, &s[start..end], fragment)
}

// Whether a fragment reaches itself. One whose place lies above the highest rise does not; of the others a walk from its set says it.
fn reaches_itself(image: &[u32], s: &mut [u32], rise: u32, fragment: u32) -> bool
    ensures { HeightsKept image.now s.old s.new × (Good image.now → fragments_words image.now ≤ length s.old → RisesTo image.now (place_at image.now s.old) rise → fragment < count_at image.now fragments → result ≡ reaches_itself image.now fragment) }
{
    let set = fragment_set(image, fragment);
    if rise < place_behind(image, &s[..], FRONT, set) {
        return false;
    }
    let start = Range {
        first: set,
        count: 1,
    };
    walk_behind(image, s, start);
    is_marked(image, &s[..], fragment)
}

// Kind 5, by how far links rise in an order of the sets.
fn validate_risen(image: &[u32], s: &mut [u32], rise: u32) -> Result<(), FragmentError>
    ensures { HeightsKept image.now s.old s.new × (Good image.now → fragments_words image.now ≤ length s.old → RisesTo image.now (place_at image.now s.old) rise → fragments_show result ≡ cycle_fault image.now) }
{
    for fragment in 0..count(image, FRAGMENTS) {
        if reaches_itself(image, s, rise, fragment) {
            return Err(FragmentError::Cycle { fragment });
        }
    }
    Ok(())
}

// Kind 5. The order of the sets stands in words that walks leave alone.
fn validate_fragment_cycles(image: &[u32], s: &mut [u32]) -> Result<(), FragmentError>
    ensures { Validates image.now (cycle_fault image.now) s.old s.new result }
{
    order_behind(image, s, FRONT);
    let rise = highest_rise(image, &s[..]);
    validate_risen(image, s, rise)
}

// A chain of over 100 fragments, itself counted.
fn is_chain_long(image: &[u32], s: &[u32], fragment: u32) -> bool
    ensures { result ≡ leb most_chain (height_at s.now (fragment_set image.now fragment)).chain }
{
    MOST_CHAIN <= height_at(s, fragment_set(image, fragment)).chain
}

// Kind 6, of sets that are measured: the lowest fragment from which a long chain starts.
fn validate_chains(image: &[u32], s: &[u32]) -> Result<(), FragmentError>
    ensures { Ready image.now s.now → fragments_show result ≡ chain_fault image.now }
{
    let long = (0..count(image, FRAGMENTS)).find(|f| is_chain_long(image, s, *f));
    match long {
        Some(fragment) => Err(FragmentError::LongChain { fragment }),
        None => Ok(()),
    }
}

// Kinds 7 and 8, of sets that are measured, where no chain is long.
fn validate_operations(image: &[u32], s: &[u32]) -> Result<(), FragmentError>
    ensures { Ready image.now s.now → chain_fault image.now ≡ none → fragments_show result ≡ (links_fault image.now ▷ nesting_fault image.now) }
{
    let operations = count(image, OPERATIONS);
    let linked = (0..operations).find(|i| MOST_LINKS < height_at(s, *i).links);
    if let Some(operation) = linked {
        return Err(FragmentError::ManyLinks { operation });
    }
    let nested = (0..operations).find(|i| MOST_NESTED < height_at(s, *i).nested);
    match nested {
        Some(operation) => Err(FragmentError::DeepNesting { operation }),
        None => Ok(()),
    }
}

// Kind 9: the lowest fragment that no operation reaches, by the marks of the walk from all operations.
fn validate_fragments_used(image: &[u32], s: &[u32]) -> Result<(), FragmentError>
    ensures { Ready image.now s.now → Marked image.now (operation_sets image.now) s.now → fragments_show result ≡ unused_fault image.now }
{
    let unused = (0..count(image, FRAGMENTS)).find(|f| !is_marked(image, s, *f));
    match unused {
        Some(fragment) => Err(FragmentError::Unused { fragment }),
        None => Ok(()),
    }
}

// Kinds 6 to 9, of sets that are measured, where no fragment reaches itself.
fn validate_measured(image: &[u32], s: &mut [u32]) -> Result<(), FragmentError>
    ensures { HeightsKept image.now s.old s.new × (Ready image.now s.old → cycle_fault image.now ≡ none → fragments_show result ≡ fragments_fault image.now) }
{
    validate_chains(image, &s[..])?;
    validate_operations(image, &s[..])?;
    walk_behind(image, s, operation_sets(image));
    validate_fragments_used(image, &s[..])
}

// Kinds 5 to 9, where the order did not settle it: fragments are tested for a cycle, and the sets are measured by rounds.
fn validate_unordered(image: &[u32], s: &mut [u32]) -> Result<(), FragmentError>
    ensures { Validates image.now (fragments_fault image.now) s.old s.new result }
{
    validate_fragment_cycles(image, s)?;
    measure_sets(image, s);
    validate_measured(image, s)
}

// Kinds 5 to 9, in the order of the sets if that will do. The order stands in the words behind the heights.
fn validate_sets(image: &[u32], s: &mut [u32]) -> Result<(), FragmentError>
    ensures { Validates image.now (fragments_fault image.now) s.old s.new result }
{
    order_behind(image, s, HEIGHTS);
    if measure_in_order(image, s) {
        return validate_measured(image, s);
    }
    validate_unordered(image, s)
}

// Kinds 5 to 9 of a good image. What the lent words held changes nothing; the needed ones end as 0, the rest are as before.
pub fn validate_fragments(image: &[u32], s: &mut [u32]) -> Result<(), FragmentError>
    ensures { (s.new ≡ cleared s.old (fragments_words image.now)) × (Good image.now → fragments_words image.now ≤ length s.old → fragments_show result ≡ fragments_fault image.now) }
{
    let answer = validate_sets(image, s);
    clear(s, 0, words_of(image, LENT));
    answer
}
