// The names of an operation's variables, so that one is found by its name. As many as the table has rows for stand in the lent
// words, and are searched there; the others, which no good image has, are looked through.
ghost use Rattle.std.specs.Prelude.{◌≡◌, ◌^◌, ◌<◌};
ghost use Rattle.variable.specs.Definitions.{name_in, find_name};
ghost use Rattle.variable.specs.Uses.{names_at};
ghost use Rattle.lists.specs.Every.{found};
ghost use Rattle.variable.specs.Tallies.{Does};
ghost use Rattle.variable.specs.Names.{name_index, Written, Named, Names};

use crate::uses::{Tally, marks_at};
use index::Index;
use lists::put;
use tables::columns::variable_name;
use tables::{Range, VARIABLES, count};

// Where the names begin.
fn names_at(image: &[u32]) -> usize
    ensures { (result ≡ names_at image.now) × (result < 2 ^ 36) }
{
    marks_at(image) + (count(image, VARIABLES) as usize)
}

// Where they are searched.
fn index_of(image: &[u32], variables: Range) -> Index
    ensures { (result ≡ name_index image.now variables) × (result.at < 2 ^ 36) }
{
    let at = names_at(image);
    let count = variables.count.min(count(image, VARIABLES));
    Index { at, count }
}

// The name of the variable that stands so far into an operation's.
pub(crate) fn name_of(image: &[u32], variables: Range, i: u32) -> u32
    ensures { result ≡ name_in image.now variables i }
{
    variable_name(image, variables.row(i))
}

// How far into some variables the first one of that name stands.
pub fn find_variable(image: &[u32], s: &[u32], variables: Range, name: u32) -> Option<u32>
    ensures { Named image.now variables s.now → result ≡ found variables.count (find_name image.now variables name) }
{
    let index = index_of(image, variables);
    if let Some(place) = index.find(s, name) {
        return Some(place);
    }
    (index.count..variables.count).find(|i| name_of(image, variables, *i) == name)
}

impl Tally<'_, '_> {
    fn write_names(&mut self, index: Index)
        requires { (index ≡ name_index self.old.image.now self.old.variables) × (index.at < 2 ^ 36) }
        ensures { Does Written self.old self.new }
    {
        for i in 0..index.count {
            let name = name_of(self.image, self.variables, i);
            put(self.words, index.at + (i as usize), name);
        }
    }

    // The names can be searched then, whatever stood in the words.
    pub fn name_variables(&mut self)
        ensures { Does Names self.old self.new }
    {
        let index = index_of(self.image, self.variables);
        self.write_names(index);
        index.build(self.words);
    }
}
