// What the test programs share: small functions of numbers, buffers drawn and compared, sets of faults, texts, the input, the lines that they print,
// and counts of cases in groups.
#![tactic(auto)]

pub mod buffers;
pub mod faults;
pub mod input;
pub mod numbers;
pub mod report;
pub mod tally;
pub mod texts;
