// A script of cases: lines of an operation's letter, its numbers and a label, the operations, and what they print.
#![tactic(auto)]

pub mod bytes;
mod calls;
mod conversions;
mod dependences;
mod forms;
mod histories;
pub mod lines;
mod numbers;
pub mod print;
mod raw;
pub mod runs;
pub mod script;
