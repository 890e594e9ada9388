// Kinds 5 to 9: cycles, chains, links and nesting, and fragments that nothing reaches. Relies on the promise `Good image` of
// `tables`: on any other image the functions end and stay inside, and what they yield is left unsaid.
// order: an order of the sets, the lower ones first, of which nothing is promised.
// heights: the longest ways down from each set, in that order or by rounds.
// rise: how far links rise in an order, so that few fragments are tested for a cycle.
// rules: the kinds in their order.
#![tactic(auto)]

pub mod heights;
mod order;
mod rise;
pub mod rules;
