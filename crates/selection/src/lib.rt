// The merge walk (kinds 14 to 17). A list is an expanded list of field rows. It is written in place at the end of the store of
// known lists, and stays there if it is new and paid.
// arena: the regions of the lent words, and the walk's state. pass: the two passes over an operation.
// parents: the parent type of each selection's set. classes: of all rows, by name, and by name and parent.
// prepare: parents and classes, written once.
// links: from each place of a list to the next of its class. standing: the links of a list that is met.
// groups: groups and subgroups of a list, by places. walk: a pass over an operation, and what it charges.
#![tactic(auto)]

pub mod arena;
pub mod classes;
mod groups;
pub mod links;
pub mod parents;
pub mod pass;
pub mod prepare;
mod standing;
pub mod walk;
