// What the decoder, the planner and the check of a plan are compared with, written apart from the library: SCAN walked to the last
// leaf, kinds by patterns, plans path by path, and cases drawn from a few numbers.
#![tactic(auto)]

pub mod cases;
pub mod nodes;
pub mod outputs;
pub mod scan;
pub mod values;
pub mod words;
