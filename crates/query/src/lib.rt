// The query check: the order of all kinds, and the scratch, lent and handed back clear.
// check: the whole, for any words. needed: the words of scratch that an image and a budget need. refuse: kinds 1 to 3.
// fault: why a check ends, and the reply that shows it. operations: kinds 10 to 17, operation by operation.
#![tactic(auto)]

pub mod check;
pub mod fault;
pub mod needed;
mod operations;
pub mod refuse;
