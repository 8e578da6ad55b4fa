// Time code for C and Rust: the same answers as the calls of `mtc` and `labels`, in registers, words and records of numbers. A reader is
// fifteen words, and an event one number. Each call has one law that names the definition of the plain call that it equals.
#![tactic(auto)]

pub mod generator;
pub mod label;
pub mod receive;
pub mod report;
pub mod time;
pub mod words;
