// Machine control for C and Rust: the same answers as the calls of `mmc` and `transport`, in registers, words and records of numbers. A
// command is one number, a whole message is written in one call, and the answer of a writing is two numbers. Each call has one law that
// names the definition of the plain call that it equals.
#![tactic(auto)]

pub mod apply;
pub mod code;
mod command;
pub mod message;
mod numbers;
mod put;
pub mod refusal;
mod stores;
pub mod string;
mod whole;
mod word;
pub mod write;

pub use numbers::WrittenNumbers;
pub use put::{put_other, put_word, put_write};
pub use whole::write_words;
pub use word::{NextWord, next_word};
