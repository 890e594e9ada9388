// The arguments that an operation reaches, and the variables in their values. The lent words: those of `reach`, then for each
// value row how far the reached ranges go that begin there, then a mark for each variable, then those of `names`. Any words may be
// given.
ghost use Rattle.std.specs.Prelude.{◌≡◌, ◌+◌, ◌^◌, ◌<◌, cond, eqb, leb, ltb, get_or};
ghost use Rattle.tables.specs.Layout.{sets};
ghost use Rattle.tables.specs.Image.{count_at};
ghost use Rattle.tables.specs.Columns.{spread, variable, list};
ghost use Rattle.reach.specs.Reach.{walk_words};
ghost use Rattle.variable.specs.Uses.{reach_range, reach_selection, reach_set, mark_variable, use_value, mark_variables, marks_at, end_in, mark_in, Steps, Queued, Reached, Passes};
ghost use Rattle.variable.specs.Names.{Searches};
ghost use Rattle.lists.specs.Every.{found};
ghost use Rattle.variable.specs.Definitions.{find_name};
ghost use Rattle.variable.specs.Tallies.{IsNamed, Does};

use crate::names::find_variable;
use lists::{clear, get, put};
use reach::{queued_set, walk_selections_with_deduped_fragments};
use tables::columns::{
    Selection, SelectionKind, ValueKind, fragment_directives, operation_directives, selection_row,
    set_selections, value_atom, value_kind, value_members,
};
use tables::{Range, SETS, VALUES, VARIABLES, count};

// Where the ends begin, and where the marks do.
fn ends_at(image: &[u32]) -> usize
    ensures { (result ≡ walk_words image.now) × (result < 2 ^ 34) }
{
    2 * (count(image, SETS) as usize)
}

pub(crate) fn marks_at(image: &[u32]) -> usize
    ensures { (result ≡ marks_at image.now) × (result < 2 ^ 35) }
{
    ends_at(image) + (count(image, VALUES) as usize)
}

// Kinds are compared as words here and below, for speed: they are asked of every row.
fn is_spread(selection: Selection) -> bool
    ensures { result ≡ eqb selection.kind spread }
{
    selection.kind == SelectionKind::Spread as u32
}

pub(crate) fn is_variable(kind: u32) -> bool
    ensures { result ≡ eqb kind variable }
{
    kind == ValueKind::Variable as u32
}

// Whether a value has members: a list or an object. A word that is no kind counts as an object's.
fn has_members(kind: u32) -> bool
    ensures { result ≡ leb list kind }
{
    ValueKind::List as u32 <= kind
}

// Word i of the `rows` that begin at a place; 0 past the last.
fn word_of(s: &[u32], at: usize, rows: u32, i: u32) -> u32
    requires { at < 2 ^ 35 }
    ensures { result ≡ cond (ltb i rows) (get_or s.now (at + i) 0) 0 }
{
    if i < rows {
        get(s, at + (i as usize))
    } else {
        0
    }
}

// How far the reached ranges go that begin at a row.
#[tactic(auto, unfolding(crate::specs::Uses::end_in))]
pub fn end_of_row(image: &[u32], s: &[u32], row: u32) -> u32
    ensures { result ≡ end_in image.now s.now row }
{
    word_of(s, ends_at(image), count(image, VALUES), row)
}

// The mark of the variable that stands so far into the operation's.
#[tactic(auto, unfolding(crate::specs::Uses::mark_in))]
pub fn mark_of(image: &[u32], s: &[u32], i: u32) -> u32
    ensures { result ≡ mark_in image.now s.now i }
{
    word_of(s, marks_at(image), count(image, VARIABLES), i)
}

// What an operation uses, as it is found: the image, the lent words and the operation's variables.
#[derive(Drop)]
pub struct Tally<'a, 'b> {
    pub image: &'a [u32],
    pub words: &'b mut [u32],
    pub variables: Range,
}

impl Tally<'_, '_> {
    // What the words say, read by the functions above and those of `names`, which take shared words, as they always did.
    pub(crate) fn end_of_row(&self, row: u32) -> u32
        ensures { result ≡ end_in self.now.image.now self.now.words.now row }
    {
        end_of_row(self.image, &self.words[..], row)
    }

    pub(crate) fn mark_of(&self, i: u32) -> u32
        ensures { result ≡ mark_in self.now.image.now self.now.words.now i }
    {
        mark_of(self.image, &self.words[..], i)
    }

    pub(crate) fn find_variable(&self, name: u32) -> Option<u32>
        ensures { IsNamed self.now → result ≡ found self.now.variables.count (find_name self.now.image.now self.now.variables name) }
    {
        find_variable(self.image, &self.words[..], self.variables, name)
    }

    // A range of rows is reached: its first row remembers its end, if that is further than what it knew.
    fn reach_range(&mut self, rows: Range)
        ensures { Does (λ image _. Steps image (reach_range image rows)) self.old self.new }
    {
        if rows.first < count(self.image, VALUES) {
            let known = self.end_of_row(rows.first);
            let end = rows.row(rows.count);
            let place = ends_at(self.image) + (rows.first as usize);
            put(self.words, place, known.max(end));
        }
    }

    fn reach_selection(&mut self, row: u32)
        ensures { Does (λ image _. Steps image (reach_selection image row)) self.old self.new }
    {
        let selection = selection_row(self.image, row);
        self.reach_range(selection.arguments);
        self.reach_range(selection.directives);
        if is_spread(selection) {
            self.reach_range(fragment_directives(self.image, selection.target));
        }
    }

    fn reach_set(&mut self, set: u32)
        ensures { Does (λ image _. Steps image (reach_set image set)) self.old self.new }
    {
        let rows = set_selections(self.image, set);
        for i in 0..rows.count {
            self.reach_selection(rows.row(i));
        }
    }

    // The set that stands so far into the queue.
    fn set_at(&self, i: u32) -> u32
        ensures { result ≡ get_or self.now.words.now (count_at self.now.image.now sets + i) 0 }
    {
        queued_set(self.image, &self.words[..], i)
    }

    // The arguments of the sets that stand in the queue.
    fn reach_queued(&mut self, queued: u32)
        ensures { Does (λ image _ s. Queued image s queued) self.old self.new }
    {
        for i in 0..queued {
            let set = self.set_at(i);
            self.reach_set(set);
        }
    }

    // The ends of all argument ranges that an operation reaches are known then, and no variable is marked.
    pub fn reach_arguments(&mut self, operation: u32)
        ensures { Does (λ image _. Reached image operation) self.old self.new }
    {
        let start = Range {
            first: operation,
            count: 1,
        };
        let queued = walk_selections_with_deduped_fragments(self.image, self.words, start);
        let words = (count(self.image, VALUES) as usize) + (count(self.image, VARIABLES) as usize);
        clear(self.words, ends_at(self.image), words);
        self.reach_range(operation_directives(self.image, operation));
        self.reach_queued(queued);
    }

    fn mark_variable(&mut self, i: u32)
        ensures { Does (λ image _. Steps image (mark_variable image i)) self.old self.new }
    {
        if i < count(self.image, VARIABLES) {
            put(self.words, marks_at(self.image) + (i as usize), 1);
        }
    }

    // A reached value: a variable is marked, the members of a list or an object are reached. Of a name that is none of the
    // operation's the mark behind theirs is set, which nothing reads.
    fn variables_in_value(&mut self, row: u32)
        ensures { Does (λ image variables s s'. Searches image variables s s' (Steps image (use_value image variables row) s s')) self.old self.new }
    {
        let kind = value_kind(self.image, row);
        if is_variable(kind) {
            let i = self.find_variable(value_atom(self.image, row));
            self.mark_variable(i.unwrap_or(self.variables.count));
        } else if has_members(kind) {
            self.reach_range(value_members(self.image, row));
        }
    }

    // One row of the pass: how far the ranges go that begin at it or before, `end` being how far those before it go.
    fn pass_row(&mut self, row: u32, end: u32) -> u32
        ensures { Does (λ image variables s s'. Searches image variables s s' (Passes image variables row end s s' result)) self.old self.new }
    {
        let next = end.max(self.end_of_row(row));
        if row < next {
            self.variables_in_value(row);
        }
        next
    }

    // The variables in all reached values are marked: members stand later, so one pass up the rows suffices.
    pub fn mark_variables(&mut self)
        ensures { Does (λ image variables s s'. Searches image variables s s' (Steps image (mark_variables image variables) s s')) self.old self.new }
    {
        let mut end: u32 = 0;
        for row in 0..count(self.image, VALUES) {
            end = self.pass_row(row, end);
        }
    }
}
