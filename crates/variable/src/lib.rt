// The variables of an operation (kinds 10 to 13), over the sets that it reaches.
// names: the search for a variable by name. definitions: kinds 10 and 11.
// types: whether a variable may stand at an argument. uses: the arguments that an operation reaches, and the variables in them.
// rules: kinds 10 to 13 in their order. Every function ends and stays inside on any words.
#![tactic(auto)]

pub mod definitions;
pub mod names;
pub mod rules;
pub mod types;
pub mod uses;
