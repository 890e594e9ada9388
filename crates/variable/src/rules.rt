// Kinds 10 to 13 of one operation, in their order.
ghost use Rattle.std.specs.Prelude.{◌≡◌, ◌^◌, ◌<◌};
ghost use Rattle.variable.specs.Uses.{first_unused, argument_allowed, allowed_below, first_misused, end_in, mark_in, uses_words};
ghost use Rattle.lists.specs.Every.{found};
ghost use Rattle.variable.specs.Definitions.{first_repeated};
ghost use Rattle.variable.specs.Tallies.{IsNamed};
ghost use Rattle.tables.specs.Layout.{arguments};
ghost use Rattle.tables.specs.Image.{count_at};
ghost use Rattle.variable.specs.Verdict.{usage_shows, uses_fault, Judged};

use crate::definitions::{validate_input_types, validate_unique_names};
use crate::types::is_variable_usage_allowed;
use crate::uses::{Tally, is_variable};
use tables::columns::{operation_variables, value_atom, value_kind};
use tables::{ARGUMENTS, SETS, VALUES, VARIABLES, count};

// What is wrong with an operation's variables, and the row that shows it.
#[derive(Clone, Copy)]
pub enum VariableError {
    // Kind 10: a variable of no input type.
    Output { variable: u32 },
    // Kind 11: one that has the name of an earlier one.
    Repeated { variable: u32 },
    // Kind 12: one that nothing uses.
    Unused { variable: u32 },
    // Kind 13: an argument is a variable that may not stand there.
    Misused { argument: u32 },
}

impl Tally<'_, '_> {
    fn validate_unique_names(&self) -> Option<u32>
        ensures { IsNamed self.now → result ≡ found self.now.variables.count (first_repeated self.now.image.now self.now.variables) }
    {
        validate_unique_names(self.image, &self.words[..], self.variables)
    }

    // Kind 12: how far in the first variable stands that is not marked.
    fn validate_unused_variables(&self) -> Option<u32>
        ensures { result ≡ found self.now.variables.count (first_unused self.now.image.now self.now.variables (mark_in self.now.image.now self.now.words.now)) }
    {
        (0..self.variables.count).find(|i| self.mark_of(*i) == 0)
    }

    // Whether an argument is no direct variable of the operation's, or an allowed one.
    #[tactic(auto, unfolding(crate::specs::Uses::argument_allowed))]
    fn is_argument_allowed(&self, argument: u32) -> bool
        ensures { IsNamed self.now → result ≡ argument_allowed self.now.image.now self.now.variables argument }
    {
        if !is_variable(value_kind(self.image, argument)) {
            return true;
        }
        match self.find_variable(value_atom(self.image, argument)) {
            Some(i) => is_variable_usage_allowed(self.image, self.variables.row(i), argument),
            None => true,
        }
    }

    // The same of a row below `end`; of others nothing is asked.
    #[tactic(auto, unfolding(crate::specs::Uses::allowed_below))]
    fn is_allowed_below(&self, argument: u32, end: u32) -> bool
        ensures { IsNamed self.now → result ≡ allowed_below self.now.image.now self.now.variables argument end }
    {
        end <= argument || self.is_argument_allowed(argument)
    }

    // Kind 13: the first reached argument that is not allowed.
    fn validate_variable_usage(&self) -> Option<u32>
        ensures { IsNamed self.now → result ≡ found (count_at self.now.image.now arguments) (first_misused self.now.image.now self.now.variables (end_in self.now.image.now self.now.words.now)) }
    {
        let mut end: u32 = 0;
        for row in 0..count(self.image, ARGUMENTS) {
            end = end.max(self.end_of_row(row));
            if !self.is_allowed_below(row, end) {
                return Some(row);
            }
        }
        None
    }

    // Kinds 12 and 13, of an operation whose arguments are reached and whose variables are marked.
    fn validate_uses(&self) -> Result<(), VariableError>
        ensures { IsNamed self.now → usage_shows result ≡ uses_fault self.now.image.now self.now.variables (end_in self.now.image.now self.now.words.now) (mark_in self.now.image.now self.now.words.now) }
    {
        if let Some(i) = self.validate_unused_variables() {
            let variable = self.variables.row(i);
            return Err(VariableError::Unused { variable });
        }
        if let Some(argument) = self.validate_variable_usage() {
            return Err(VariableError::Misused { argument });
        }
        Ok(())
    }
}

// How many words are to be lent.
pub fn words_needed(image: &[u32]) -> usize
    ensures { (result ≡ uses_words image.now) × (result < 2 ^ 36) }
{
    let walk = 2 * (count(image, SETS) as usize);
    walk + (count(image, VALUES) as usize) + 4 * (count(image, VARIABLES) as usize)
}

// Kinds 10 to 13 of one operation. Of an operation without variables nothing is asked.
pub fn validate_variable_definitions(
    image: &[u32],
    s: &mut [u32],
    operation: u32,
) -> Result<(), VariableError>
    ensures { Judged image.now operation s.old s.new result }
{
    let variables = operation_variables(image, operation);
    if variables.count == 0 {
        return Ok(());
    }
    if let Some(i) = validate_input_types(image, variables) {
        let variable = variables.row(i);
        return Err(VariableError::Output { variable });
    }
    let mut tally = Tally {
        image,
        words: s,
        variables,
    };
    tally.name_variables();
    if let Some(i) = tally.validate_unique_names() {
        let variable = variables.row(i);
        return Err(VariableError::Repeated { variable });
    }
    tally.reach_arguments(operation);
    tally.mark_variables();
    tally.validate_uses()
}
