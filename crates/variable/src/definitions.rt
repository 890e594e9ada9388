// Kinds 10 and 11: the types and the names of an operation's variables. Each contract is a definition of specs/Definitions, for
// every image.
ghost use Rattle.std.specs.Prelude.{◌≡◌, ◌<◌};
ghost use Rattle.variable.specs.Definitions.{is_output, first_output, is_repeated, first_repeated};
ghost use Rattle.lists.specs.Every.{found};
ghost use Rattle.variable.specs.Names.{Named};

use crate::names::{find_variable, name_of};
use tables::Range;
use tables::columns::{innermost, is_composite, type_kind, variable_type};

// Whether a variable's innermost type is an object, an interface or a union.
fn is_output_variable(image: &[u32], variable: u32) -> bool
    ensures { result ≡ is_output image.now variable }
{
    let core = innermost(image, variable_type(image, variable));
    is_composite(type_kind(image, core))
}

// Kind 10: how far in the first variable of no input type stands.
pub fn validate_input_types(image: &[u32], variables: Range) -> Option<u32>
    ensures { result ≡ found variables.count (first_output image.now variables) }
{
    (0..variables.count).find(|i| is_output_variable(image, variables.row(*i)))
}

// Whether an earlier variable has the name of the one that stands so far into an operation's. The names are searched.
fn is_repeated_variable(image: &[u32], s: &[u32], variables: Range, i: u32) -> bool
    ensures { Named image.now variables s.now → (i < variables.count → result ≡ is_repeated image.now variables i) }
{
    find_variable(image, s, variables, name_of(image, variables, i)) != Some(i)
}

// Kind 11: how far in the first variable stands that has an earlier one's name.
pub fn validate_unique_names(image: &[u32], s: &[u32], variables: Range) -> Option<u32>
    ensures { Named image.now variables s.now → result ≡ found variables.count (first_repeated image.now variables) }
{
    (0..variables.count).find(|i| is_repeated_variable(image, s, variables, *i))
}
